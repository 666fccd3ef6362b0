//! What lines and positions are, in other words: each function has the law as its promise and does nothing.

ghost use Rattle.std.specs.Char.Escape.{encode_utf16};
ghost use Rattle.std.specs.Prelude.{◌≡◌, ◌↔◌, ◌<◌, ◌≤◌, ℕ, List, length, take, flat_map, sum_by, chars, IsUtf8, IsCharBoundary};
ghost use Rattle.text_edits.specs.Laws.{IsWithinEnd, HasPosition, IsUpTo};
ghost use Rattle.text_edits.specs.Lines.{Line, AreLines, lines_of};
ghost use Rattle.text_edits.specs.Positions.{units, front_within, byte_of, position_of, boundary_to};

use crate::positions::{Encoding, Position};

/// Each text has one list of lines.
pub fn one_division()
    ensures { (text : List ℕ) (lines : List Line) →
        AreLines text lines ↔ (lines ≡ lines_of text) }
{}

/// What the bytes of a text add in UTF-8 is how many they are.
pub fn utf8()
    ensures { (text : List ℕ) → IsUtf8 text → sum_by (units Encoding.Utf8) text ≡ length text }
{}

/// What they add in UTF-16 is how many units `encode_utf16` gives.
pub fn utf16()
    ensures { (text : List ℕ) → IsUtf8 text →
        sum_by (units Encoding.Utf16) text ≡ length (flat_map encode_utf16 (chars text)) }
{}

/// What they add in UTF-32 is how many characters the text has.
pub fn utf32()
    ensures { (text : List ℕ) → IsUtf8 text →
        sum_by (units Encoding.Utf32) text ≡ length (chars text) }
{}

/// Of the fronts of a line this one is the longest that adds no more units than there is room for.
pub fn longest()
    ensures within { (e : Encoding) (room : ℕ) (line : List ℕ) →
        front_within e room line ≤ length line }
    ensures longest { (e : Encoding) (room : ℕ) (line : List ℕ) (k : ℕ) → k ≤ length line →
        (k ≤ front_within e room line) ↔ (sum_by (units e) (take k line) ≤ room) }
{}

/// The byte of the position of a byte is that byte, if a character begins there, or the text ends; but between a carriage
/// return and a line feed, which has no position of its own.
pub fn inverse()
    ensures { (e : Encoding) (text : List ℕ) (byte : ℕ) → IsCharBoundary text byte →
        ¬ (IsWithinEnd text byte) →
        byte_of e (lines_of text) (position_of e (lines_of text) byte) ≡ byte }
{}

/// The position of the byte of a position is that position, if the text has it.
pub fn exact()
    ensures { (e : Encoding) (text : List ℕ) (p : Position) → HasPosition e (lines_of text) p →
        position_of e (lines_of text) (byte_of e (lines_of text) p) ≡ p }
{}

/// Positions are in the order of their bytes.
pub fn ordered()
    ensures bytes { (e : Encoding) (text : List ℕ) (p q : Position) → IsUpTo p q →
        byte_of e (lines_of text) p ≤ byte_of e (lines_of text) q }
    ensures positions { (e : Encoding) (text : List ℕ) (b c : ℕ) → b ≤ c →
        IsUpTo (position_of e (lines_of text) b) (position_of e (lines_of text) c) }
{}

/// The last boundary up to a byte is one, is not after the byte, and no other is between them.
pub fn last_boundary()
    ensures boundary { (text : List ℕ) (byte : ℕ) → IsUtf8 text →
        IsCharBoundary text (boundary_to text byte) }
    ensures within { (text : List ℕ) (byte : ℕ) → boundary_to text byte ≤ byte }
    ensures nearest { (text : List ℕ) (byte k : ℕ) → boundary_to text byte < k → k ≤ byte →
        ¬ (IsCharBoundary text k) }
{}
