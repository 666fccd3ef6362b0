//! Refusals in bytes, so that it is known how much memory they take.

ghost use Rattle.std.specs.Prelude.{◌≡◌, ◌+◌, ◌*◌, ◌<◌, ◌++◌, codes, length, MatchOption};
ghost use Rattle.std.specs.Char.{digit_char};
ghost use Rattle.json.specs.Print.{quoted, escape_byte, escape_letter, token_text};
ghost use Rattle.json_rpc.specs.Codes.{code_number, code_text};
ghost use Rattle.json_rpc.specs.Room.{Adds, error_member, id_room};
ghost use Rattle.json_rpc.specs.Writing.{body, refusal, id_token};

use crate::code::Code;
use crate::id::{Id, Name};
use std::alloc::AllocError;

/// How many bytes a refusal has at most.
pub(crate) const REFUSAL: usize = 1024;

/// Adds a refusal.
pub(crate) fn push_refusal(out: &mut Vec<u8>, id: &Id<'_>, code: Code) -> Result<(), AllocError>
    ensures { Adds result out.old out.new (body (refusal id.now code)) REFUSAL }
{
    push(out, b"{\"jsonrpc\":\"2.0\",\"id\":")?;
    push_id(out, id)?;
    push_error(out, code)
}

fn push_id(out: &mut Vec<u8>, id: &Id<'_>) -> Result<(), AllocError>
    ensures { Adds result out.old out.new (token_text (id_token id.now)) id_room }
{
    match id.name {
        Name::Null => push(out, b"null"),
        Name::Number(text) => push(out, text.as_bytes()),
        Name::Text(text) => push_quoted(out, text),
    }
}

fn push_quoted(out: &mut Vec<u8>, text: &str) -> Result<(), AllocError>
    ensures { Adds result out.old out.new (quoted text.now) (6 * length text.now + 2) }
{
    push(out, b"\"")?;
    let bytes = text.as_bytes();
    for byte in bytes {
        push_escaped(out, *byte)?;
    }
    push(out, b"\"")
}

// A byte of a text, as it is between quotes.
fn push_escaped(out: &mut Vec<u8>, byte: u8) -> Result<(), AllocError>
    ensures { Adds result out.old out.new (escape_byte byte) 6 }
{
    match letter(byte) {
        Some(letter) => push(out, &[b'\\', letter]),
        None if byte < 32 => push(
            out,
            &[b'\\', b'u', b'0', b'0', digit(byte / 16), digit(byte % 16)],
        ),
        None => push(out, &[byte]),
    }
}

// The letter that stands for a byte after a backslash.
fn letter(byte: u8) -> Option<u8>
    ensures { MatchOption result (escape_letter byte ≡ 0)
        (λ letter. (escape_letter byte ≡ letter) × (0 < letter)) }
{
    match byte {
        b'"' | b'\\' => Some(byte),
        8 => Some(b'b'),
        9 => Some(b't'),
        10 => Some(b'n'),
        12 => Some(b'f'),
        13 => Some(b'r'),
        _ => None,
    }
}

// A digit of base 16.
fn digit(value: u8) -> u8
    requires { value < 16 }
    ensures { result ≡ digit_char value }
{
    if value < 10 {
        b'0' + value
    } else {
        b'a' + (value - 10)
    }
}

// What comes after the id.
fn push_error(out: &mut Vec<u8>, code: Code) -> Result<(), AllocError>
    ensures { Adds result out.old out.new (error_member code) 96 }
{
    push(out, b",\"error\":{\"code\":")?;
    push(out, code.number().as_bytes())?;
    push(out, b",\"message\":\"")?;
    push(out, code.text().as_bytes())?;
    push(out, b"\"}}")
}

fn push(out: &mut Vec<u8>, bytes: &[u8]) -> Result<(), AllocError>
    ensures { Adds result out.old out.new bytes.now (length bytes.now) }
{
    out.extend_from_slice(bytes)
}
