//! Bytes of paths as they are in URIs.

ghost use Rattle.std.specs.Prelude.{◌≡◌, ◌<◌, ◌++◌, [], ◌∷◌, true, string_bytes, IfOk, OnOk};
ghost use Rattle.file_uris.specs.Encoding.{sound, hex_digit, encoded, encoded_byte, encoded_path, reference};

use crate::decoding::single_slashed_of;
use std::alloc::{AllocError, Global};

/// The path as a reference that names no host: with one slash in the place of several, and what is not a letter, digit
/// or mark that stands for itself is written by its bytes, as `%20`.
pub fn reference_of(alloc: Global, path: &str) -> Result<String, AllocError>
    ensures { IfOk result (λ t. string_bytes t ≡ reference path.now) }
{
    let path = single_slashed_of(alloc, path.as_bytes())?;
    let mut uri = String::new(alloc);
    push_bytes(&mut uri, path.as_slice())?;
    Ok(uri)
}

/// Adds the path, encoded.
pub fn push_path(uri: &mut String, path: &str) -> Result<(), AllocError>
    ensures { OnOk result (string_bytes uri.new ≡ string_bytes uri.old ++ encoded_path path.now) }
{
    push_bytes(uri, path.as_bytes())
}

fn push_bytes(uri: &mut String, path: &[u8]) -> Result<(), AllocError>
    ensures { OnOk result (string_bytes uri.new ≡ string_bytes uri.old ++ encoded_path path.now) }
{
    for byte in path {
        push_byte(uri, *byte)?;
    }
    Ok(())
}

fn push_byte(uri: &mut String, byte: u8) -> Result<(), AllocError>
    ensures { OnOk result (string_bytes uri.new ≡ string_bytes uri.old ++ encoded_byte byte) }
{
    if is_plain(byte) {
        push_ascii(uri, byte)
    } else {
        push_encoded(uri, byte)
    }
}

fn is_plain(byte: u8) -> bool
    ensures is { result ≡ sound byte }
    ensures ascii { result ≡ true → byte < 128 }
{
    matches!(byte, b'-'..=b'9' | b'A'..=b'Z' | b'_' | b'a'..=b'z' | b'~')
}

fn push_encoded(uri: &mut String, byte: u8) -> Result<(), AllocError>
    ensures { OnOk result (string_bytes uri.new ≡ string_bytes uri.old ++ encoded byte) }
{
    uri.push_str("%")?;
    push_ascii(uri, hex(byte / 16))?;
    push_ascii(uri, hex(byte % 16))
}

fn hex(digit: u8) -> u8
    requires { digit < 16 }
    ensures is { result ≡ hex_digit digit }
    ensures ascii { result < 128 }
{
    if digit < 10 { 48 + digit } else { 55 + digit }
}

#[tactic(auto, using(crate::proofs::Texts::ascii))]
fn push_ascii(uri: &mut String, byte: u8) -> Result<(), AllocError>
    requires { byte < 128 }
    ensures { OnOk result (string_bytes uri.new ≡ string_bytes uri.old ++ byte ∷ []) }
{
    uri.push(char::from(byte))
}
