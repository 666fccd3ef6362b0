//! Bytes of URIs as they are in paths.

ghost use Rattle.std.specs.Prelude.{◌≡◌, ◌<◌, ◌≤◌, ◌++◌, ◌∷◌, true, length, drop, IfOk, OnOk};
ghost use Rattle.file_uris.specs.Decoding.{decoded, are_slashes, begins_doubled, single_slashed, is_digit, value_of, is_encoded};

use std::alloc::{AllocError, Global};

/// The bytes that the text stands for: one where a percent sign and two digits in base 16 are, and else each itself.
pub(crate) fn decoded_of(alloc: Global, text: &str) -> Result<Vec<u8>, AllocError>
    ensures { IfOk result (λ v. v.items ≡ decoded text.now) }
{
    let mut bytes = Vec::new(alloc);
    let mut rest = text.as_bytes();
    'bytes: while !rest.is_empty() {
        let (byte, len) = first_of(rest);
        bytes.push(byte)?;
        let (_, following) = rest.split_at(len);
        rest = following;
    }
    Ok(bytes)
}

/// The path with one slash in the place of several.
pub(crate) fn single_slashed_of(alloc: Global, path: &[u8]) -> Result<Vec<u8>, AllocError>
    ensures { IfOk result (λ v. v.items ≡ single_slashed path.now) }
{
    let mut bytes = Vec::new(alloc);
    let mut rest = path;
    'slashes: while !rest.is_empty() {
        push_first(rest, &mut bytes)?;
        let (_, following) = rest.split_at(1);
        rest = following;
    }
    Ok(bytes)
}

// Adds the first byte of the path, unless it is a slash before another.
fn push_first(path: &[u8], bytes: &mut Vec<u8>) -> Result<(), AllocError>
    requires { 0 < length path.now }
    ensures { OnOk result (bytes.new.items ++ single_slashed (drop 1 path.now)
        ≡ bytes.old.items ++ single_slashed path.now) }
{
    if is_doubled(path) {
        return Ok(());
    }
    bytes.push(path[0])?;
    Ok(())
}

fn is_doubled(path: &[u8]) -> bool
    ensures { result ≡ begins_doubled path.now }
{
    if path.len() < 2 {
        return false;
    }
    are_slashes(path[0], path[1])
}

fn are_slashes(first: u8, second: u8) -> bool
    ensures { result ≡ are_slashes first second }
{
    first == b'/' && second == b'/'
}

// The first of them, and for how many bytes of the text it is.
fn first_of(text: &[u8]) -> (u8, usize)
    requires { 0 < length text.now }
    ensures some { 0 < result.1 }
    ensures within { result.1 ≤ length text.now }
    ensures first { decoded text.now ≡ result.0 ∷ decoded (drop result.1 text.now) }
{
    if text.len() >= 3 && is_encoded(text[0], text[1], text[2]) {
        (value_of(text[1]) * 16 + value_of(text[2]), 3)
    } else {
        (text[0], 1)
    }
}

fn is_encoded(sign: u8, high: u8, low: u8) -> bool
    ensures { result ≡ is_encoded sign high low }
{
    sign == b'%' && is_digit(high) && is_digit(low)
}

fn is_digit(character: u8) -> bool
    ensures { result ≡ is_digit character }
{
    matches!(character, b'0'..=b'9' | b'A'..=b'F' | b'a'..=b'f')
}

fn value_of(digit: u8) -> u8
    requires { is_digit digit ≡ true }
    ensures is { result ≡ value_of digit }
    ensures digit { result ≤ 15 }
{
    if digit >= b'a' {
        digit - 87
    } else if digit >= b'A' {
        digit - 55
    } else {
        digit - 48
    }
}
