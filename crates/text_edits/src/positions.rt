//! Positions in a text, and the bytes at which they are.

ghost use Rattle.std.specs.Prelude.{◌≡◌, ◌≤◌, length, IsCharBoundary};
ghost use Rattle.text_edits.specs.Lines.{lines_of};
ghost use Rattle.text_edits.specs.Places.{AreLinesOf, IsPlaceTo};
ghost use Rattle.text_edits.specs.Positions.{units, byte_of, byte_in, position_of, boundary_to};

use crate::lines::Lines;
use crate::walk::Walk;

/// What a character of a line is counted in.
#[derive(Clone, Copy, Debug, PartialEq, Eq)]
pub enum Encoding {
    Utf8,
    Utf16,
    Utf32,
}

/// A line of a text from 0, and in it so many units of an encoding.
#[derive(Clone, Copy, Debug, PartialEq, Eq, PartialOrd, Ord)]
pub struct Position {
    pub line: usize,
    pub character: usize,
}

/// The byte at which the position is: beyond the end of its line that end, within a character its start, and on a line
/// beyond the last the end of the text. It takes the time of the line, and with lines that were made `for_many` positions
/// that of some hundred bytes at most.
pub fn byte_at(text: &str, lines: &Lines, encoding: Encoding, position: Position) -> usize
    requires { AreLinesOf text.now lines.now }
    ensures byte { result ≡ byte_of encoding (lines_of text.now) position }
    ensures boundary { IsCharBoundary text.now result }
{
    if position.line >= lines.count() {
        return text.len();
    }
    if let Some(place) = lines.place_to(text, encoding, position) {
        return byte_from(text, encoding, place, position);
    }
    let start = lines.start(position.line);
    let (_, rest) = text.as_bytes().split_at(start);
    start + column_byte(rest, encoding, position.character)
}

/// The position of the byte: of one within a character that of the character, between a carriage return and a line feed
/// that of the line's end, and beyond the text that of its end. It takes the time of the line, and with
/// lines that were made `for_many` positions that of some hundred bytes at most.
pub fn position_at(text: &str, lines: &Lines, encoding: Encoding, byte: usize) -> Position
    requires { AreLinesOf text.now lines.now }
    ensures { result ≡ position_of encoding (lines_of text.now) (boundary_to text.now byte) }
{
    let byte = text.floor_char_boundary(byte);
    let line = lines.line_to(byte);
    let begun = Walk {
        byte: lines.start(line),
        position: Position { line, character: 0 },
    };
    let near = lines.nearer(encoding, byte, begun);
    near.onward(text, encoding, byte).position
}

// The byte at which the position is, from a place that is not after it.
fn byte_from(text: &str, encoding: Encoding, place: Walk, position: Position) -> usize
    requires { IsPlaceTo encoding text.now position place }
    ensures byte { result ≡ byte_of encoding (lines_of text.now) position }
    ensures boundary { IsCharBoundary text.now result }
{
    let (_, rest) = text.as_bytes().split_at(place.byte);
    let left = position.character - place.position.character;
    place.byte + column_byte(rest, encoding, left)
}

// The byte at which the character of the first line is.
fn column_byte(text: &[u8], encoding: Encoding, character: usize) -> usize
    ensures byte { result ≡ byte_in encoding (lines_of text.now) 0 character }
    ensures boundary { IsCharBoundary text.now result }
{
    let mut left = character;
    for (at, byte) in text.iter().enumerate() {
        let added = units_of(encoding, *byte);
        if *byte == b'\n' || *byte == b'\r' || added > left {
            return at;
        }
        left -= added;
    }
    text.len()
}

// How many units a character has of which this is the first byte; of any other byte none.
pub(crate) fn units_of(encoding: Encoding, byte: u8) -> usize
    ensures count { result ≡ units encoding byte }
    ensures few { result ≤ 4 }
{
    match (encoding, byte) {
        (_, 0..0x80) => 1,
        (_, 0x80..0xC0) => 0,
        (Encoding::Utf8, 0xC0..0xE0) => 2,
        (Encoding::Utf8, 0xE0..0xF0) => 3,
        (Encoding::Utf8, _) => 4,
        (Encoding::Utf16, 0xF0..) => 2,
        (Encoding::Utf16 | Encoding::Utf32, _) => 1,
    }
}
