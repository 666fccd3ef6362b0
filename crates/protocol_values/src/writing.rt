//! Values that are written.

ghost use Rattle.std.specs.Prelude.{◌≡◌};
ghost use Rattle.json_members.specs.Written.{Puts, PutsJson};
ghost use Rattle.protocol_values.specs.Writing.{member_tokens, position_json, range_json, location_json, edit_json, encoding_name};

use json::{Token, Writer};
use json_members::{put_number, put_tokens};
use std::alloc::AllocError;
use text_edits::{Encoding, Position};

/// Writes a member that is a position.
pub fn put_position(out: &mut Writer, name: &str, position: Position) -> Result<(), AllocError>
    ensures { Puts result out.old out.new (member_tokens name.now (position_json position)) }
{
    put_tokens(out, &[Token::Key(name), Token::BeginObject])?;
    put_number(out, "line", position.line)?;
    put_number(out, "character", position.character)?;
    out.end_object()
}

/// Writes a member that is a range.
pub fn put_range(
    out: &mut Writer,
    name: &str,
    start: Position,
    end: Position,
) -> Result<(), AllocError>
    ensures { Puts result out.old out.new (member_tokens name.now (range_json start end)) }
{
    put_tokens(out, &[Token::Key(name), Token::BeginObject])?;
    put_position(out, "start", start)?;
    put_position(out, "end", end)?;
    out.end_object()
}

/// Writes a part of the text of the document with this URI.
pub fn put_location(
    out: &mut Writer,
    uri: &str,
    start: Position,
    end: Position,
) -> Result<(), AllocError>
    ensures { PutsJson result out.old out.new (location_json uri.now start end) }
{
    put_tokens(
        out,
        &[Token::BeginObject, Token::Key("uri"), Token::String(uri)],
    )?;
    put_range(out, "range", start, end)?;
    out.end_object()
}

/// Writes the edit that puts the text in the place of a part.
pub fn put_edit(
    out: &mut Writer,
    start: Position,
    end: Position,
    text: &str,
) -> Result<(), AllocError>
    ensures { PutsJson result out.old out.new (edit_json start end text.now) }
{
    out.begin_object()?;
    put_range(out, "range", start, end)?;
    put_tokens(
        out,
        &[Token::Key("newText"), Token::String(text), Token::EndObject],
    )
}

/// The name of the encoding.
pub fn encoding_name(encoding: Encoding) -> &'static str
    ensures { result.now ≡ encoding_name encoding }
{
    match encoding {
        Encoding::Utf8 => "utf-8",
        Encoding::Utf16 => "utf-16",
        Encoding::Utf32 => "utf-32",
    }
}
