//! From one byte of a text to a later one.

ghost use Rattle.std.specs.Prelude.{◌≡◌, ◌+◌, ◌<◌, ◌^◌, ℕ, List, length, drop, max};
ghost use Rattle.text_edits.specs.Positions.{boundary_to};
ghost use Rattle.text_edits.specs.Walks.{position_after, IsReached};

use crate::lines::ends_line;
use crate::positions::{Encoding, Position, units_of};

/// A byte of a text, and its position.
#[derive(Clone, Copy, Debug, PartialEq, Eq)]
pub struct Walk {
    pub byte: usize,
    pub position: Position,
}

impl Walk {
    /// Where a text begins.
    pub fn first() -> Walk
        ensures { (encoding : Encoding) (text : List ℕ) → IsReached encoding text result }
    {
        Walk {
            byte: 0,
            position: Position {
                line: 0,
                character: 0,
            },
        }
    }

    /// The place of the byte, as `position_at` finds it; this place, where the byte is before it. It takes the time of
    /// the bytes between.
    pub fn onward(self, text: &str, encoding: Encoding, byte: usize) -> Walk
        requires { IsReached encoding text.now self }
        ensures byte { result.byte ≡ max self.byte (boundary_to text.now byte) }
        ensures reached { IsReached encoding text.now result }
    {
        let bytes = text.as_bytes();
        let end = text.floor_char_boundary(byte);
        let mut position = self.position;
        for at in self.byte..end {
            position = following(bytes, at, encoding, position);
        }
        Walk {
            byte: end.max(self.byte),
            position,
        }
    }
}

// The position after the byte at this place, from that before it.
fn following(bytes: &[u8], at: usize, encoding: Encoding, position: Position) -> Position
    requires at { at < length bytes.now }
    requires line { position.line + 1 < 2 ^ 64 }
    requires character { position.character + 4 < 2 ^ 64 }
    ensures { result ≡ position_after encoding (drop at bytes.now) position }
{
    if ends_line(bytes, at) {
        let line = position.line + 1;
        Position { line, character: 0 }
    } else if bytes[at] == b'\r' {
        position
    } else {
        Position {
            line: position.line,
            character: position.character + units_of(encoding, bytes[at]),
        }
    }
}
