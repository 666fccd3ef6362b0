//! Texts between quotes.

ghost use Rattle.std.specs.Prelude.{◌≡◌, ◌++◌, ◌∷◌, ◌≤◌, length, take, chars, false, encode_utf8, string_bytes, OnOk};
ghost use Rattle.std.specs.Bool.{OnTrue};
ghost use Rattle.std.specs.List.{flat_map, prefix_len};
ghost use Rattle.tera_tree_text.specs.Quoted.{quoted, escaped};
ghost use Rattle.tera_tree_text.specs.QuotedBytes.{is_plain, escaped_byte};

use std::alloc::AllocError;
use std::simd::prelude::*;
use tera_base::lanes::first_set;

/// The text between quotes with its escapes, at the end.
pub fn push_quoted(text: &mut String, content: &str) -> Result<(), AllocError>
    ensures { OnOk result (string_bytes text.new ≡ string_bytes text.old ++ quoted content.now) }
{
    text.push('"')?;
    push_escaped(text, content)?;
    text.push('"')
}

// The text with its escapes, at the end. What is between two escapes goes over as one piece.
fn push_escaped(text: &mut String, content: &str) -> Result<(), AllocError>
    ensures { OnOk result (string_bytes text.new
        ≡ string_bytes text.old ++ flat_map escaped (chars content.now)) }
{
    let mut rest = content;
    loop {
        let (plain, following) = rest.split_at(plain_len(rest.as_bytes()));
        push_run(text, plain)?;
        if following.is_empty() {
            return Ok(());
        }
        push_escape(text, following.as_bytes()[0])?;
        let (_, following) = following.split_at(1);
        rest = following;
    }
}

// A run of bytes that are written as they are, at the end. Between two escapes there is often none, or one.
#[inline(always)]
fn push_run(text: &mut String, run: &str) -> Result<(), AllocError>
    ensures bytes { OnOk result (string_bytes text.new ≡ string_bytes text.old ++ run.now) }
{
    match run.as_bytes() {
        [] => Ok(()),
        [byte] if *byte < 0x80 => text.push(char::from(*byte)),
        _ => text.push_str(run),
    }
}

// How many bytes are examined at a time.
const LANES: usize = 16;

// How many bytes at the front are written as they are.
fn plain_len(bytes: &[u8]) -> usize
    ensures run { result ≡ prefix_len is_plain bytes.now }
    ensures within { result ≤ length bytes.now }
{
    if begins_escaped(bytes) {
        return 0;
    }
    let mut at = 0;
    while bytes.len() - at >= LANES {
        let len = plain_lanes(&bytes[at..]);
        at += len;
        if len < LANES {
            return at;
        }
    }
    at + plain_bytes(&bytes[at..])
}

// Whether none is. Escapes often follow one another.
#[inline(always)]
fn begins_escaped(bytes: &[u8]) -> bool
    ensures { OnTrue result (prefix_len is_plain bytes.now ≡ 0) }
{
    match bytes.first() {
        Some(byte) => !is_plain(*byte),
        None => false,
    }
}

// The same, one byte after another.
fn plain_bytes(bytes: &[u8]) -> usize
    ensures run { result ≡ prefix_len is_plain bytes.now }
    ensures within { result ≤ length bytes.now }
{
    bytes.iter().take_while(|b| is_plain(**b)).count()
}

// The same of the first sixteen.
#[inline(always)]
fn plain_lanes(bytes: &[u8]) -> usize
    requires { 16 ≤ length bytes.now }
    ensures run { result ≡ prefix_len is_plain (take 16 bytes.now) }
    ensures within { result ≤ 16 }
{
    let lanes = u8x16::from_slice(bytes);
    let stops = lanes.simd_eq(u8x16::splat(b'\\'))
        | lanes.simd_eq(u8x16::splat(b'"'))
        | lanes.simd_eq(u8x16::splat(b'\n'))
        | lanes.simd_eq(u8x16::splat(b'\r'))
        | lanes.simd_eq(u8x16::splat(b'\t'));
    first_set(stops.to_bitmask(), LANES)
}

// Most bytes are greater than each that is escaped but the backslash.
fn is_plain(b: u8) -> bool
    ensures { result ≡ is_plain b }
{
    b != b'\\' && (b > b'"' || !matches!(b, b'"' | b'\n' | b'\r' | b'\t'))
}

// The escape of a byte, at the end.
fn push_escape(text: &mut String, byte: u8) -> Result<(), AllocError>
    requires { is_plain byte ≡ false }
    ensures { OnOk result (string_bytes text.new ≡ string_bytes text.old ++ escaped_byte byte) }
{
    text.push('\\')?;
    text.push(letter(byte))
}

// What comes after the backslash of an escape.
fn letter(byte: u8) -> char
    requires { is_plain byte ≡ false }
    ensures { escaped_byte byte ≡ 92 ∷ encode_utf8 result }
{
    match byte {
        b'\\' => '\\',
        b'"' => '"',
        b'\n' => 'n',
        b'\r' => 'r',
        _ => 't',
    }
}
