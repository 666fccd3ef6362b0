//! Where the lines of a text begin.

ghost use Rattle.std.specs.Prelude.{◌≡◌, ◌<◌, ◌≤◌, ◌↔◌, ℕ, List, All, length, drop, slice_index, IfOk, IfSome, IsTrue};
ghost use Rattle.text_edits.specs.Lines.{lines_of, starts_of, ends_line as is_line_end};
ghost use Rattle.text_edits.specs.Places.{AreLinesOf, IsPlaceTo, places_in};
ghost use Rattle.text_edits.specs.Walks.{IsReached};

use crate::positions::{Encoding, Position};
use crate::walk::Walk;
use std::alloc::{AllocError, Global};

// How many bytes a long line has at least, and how many are between two places of a text that has one.
const LONG: usize = 512;

/// Where the lines of a text begin, in bytes, and places within its long lines.
#[derive(Drop)]
pub struct Lines {
    starts: Vec<usize>,
    // Places in the text, as each encoding counts them.
    utf8: Vec<Walk>,
    utf16: Vec<Walk>,
    utf32: Vec<Walk>,
}

impl Lines {
    /// Where the lines of this text begin.
    pub fn of(alloc: Global, text: &str) -> Result<Lines, AllocError>
        ensures { IfOk result (AreLinesOf text.now) }
    {
        Ok(Lines {
            starts: starts_of(alloc, text)?,
            utf8: Vec::new(alloc),
            utf16: Vec::new(alloc),
            utf32: Vec::new(alloc),
        })
    }

    /// The same for a text of which many positions are looked for: however long a line is, none of them takes more than the
    /// time of some hundred bytes.
    pub fn for_many(alloc: Global, text: &str) -> Result<Lines, AllocError>
        ensures { IfOk result (AreLinesOf text.now) }
    {
        let mut lines = Lines::of(alloc, text)?;
        if lines.has_long(text.len()) {
            lines.utf8 = places_of(alloc, text, Encoding::Utf8)?;
            lines.utf16 = places_of(alloc, text, Encoding::Utf16)?;
            lines.utf32 = places_of(alloc, text, Encoding::Utf32)?;
        }
        Ok(lines)
    }

    // Whether a line is long, in a text that ends there.
    fn has_long(&self, end: usize) -> bool {
        let mut from = end;
        for start in self.starts.iter().rev() {
            if from.saturating_sub(*start) >= LONG {
                return true;
            }
            from = *start;
        }
        false
    }
    /// How many lines there are: one more than ends of lines.
    pub fn count(&self) -> usize
        ensures { result ≡ length self.now.starts.items }
    {
        self.starts.len()
    }

    // Where the line begins.
    pub(crate) fn start(&self, line: usize) -> usize
        requires { line < length self.now.starts.items }
        ensures { result ≡ slice_index self.now.starts.items line }
    {
        self.starts[line]
    }

    // A line that begins at or before the byte: the last, where they are in order.
    pub(crate) fn line_to(&self, byte: usize) -> usize
        requires some { 0 < length self.now.starts.items }
        requires first { slice_index self.now.starts.items 0 ≤ byte }
        ensures within { result < length self.now.starts.items }
        ensures before { slice_index self.now.starts.items result ≤ byte }
    {
        let mut line = 0;
        let mut beyond = self.count();
        'halves: while beyond - line > 1 {
            let middle = line + (beyond - line) / 2;
            if self.start(middle) <= byte {
                line = middle;
            } else {
                beyond = middle;
            }
        }
        line
    }

    // A place from which the byte is reached: the last that is kept before it, or this one, where that is nearer.
    pub(crate) fn nearer(&self, encoding: Encoding, byte: usize, begun: Walk) -> Walk
        requires { begun.byte ≤ byte }
        ensures before { result.byte ≤ byte }
        ensures reached { (text : List ℕ) → AreLinesOf text self.now → IsReached encoding text begun →
            IsReached encoding text result }
    {
        match self.places(encoding).get(byte / LONG) {
            Some(place) if begun.byte < place.byte && place.byte <= byte => *place,
            _ => begun,
        }
    }

    // The last place that is kept on the line, up to the character. It is not within the end of the line.
    pub(crate) fn place_to(
        &self,
        text: &str,
        encoding: Encoding,
        position: Position,
    ) -> Option<Walk>
        requires { AreLinesOf text.now self.now }
        ensures { IfSome result (IsPlaceTo encoding text.now position) }
    {
        let places = self.places(encoding);
        let mut at = places.partition_point(|place| place.position <= position);
        'places: while at > 0 {
            at -= 1;
            let place = places[at];
            if place.position.line != position.line
                || place.position.character > position.character
            {
                return None;
            }
            if !is_feed(text.as_bytes(), place.byte) {
                return Some(place);
            }
        }
        None
    }

    fn places(&self, encoding: Encoding) -> &[Walk]
        ensures { result.now ≡ places_in encoding self.now }
    {
        match encoding {
            Encoding::Utf8 => self.utf8.as_slice(),
            Encoding::Utf16 => self.utf16.as_slice(),
            Encoding::Utf32 => self.utf32.as_slice(),
        }
    }
}

fn starts_of(alloc: Global, text: &str) -> Result<Vec<usize>, AllocError>
    ensures { IfOk result (λ v. v.items ≡ starts_of (lines_of text.now)) }
{
    let bytes = text.as_bytes();
    let mut starts = Vec::new(alloc);
    starts.push(0)?;
    for at in 0..bytes.len() {
        if ends_line(bytes, at) {
            starts.push(at + 1)?;
        }
    }
    Ok(starts)
}

// The places of a text that has a long line.
fn places_of(alloc: Global, text: &str, encoding: Encoding) -> Result<Vec<Walk>, AllocError>
    ensures { IfOk result (λ v. All (IsReached encoding text.now) v.items) }
{
    let mut places = Vec::new(alloc);
    let mut place = Walk::first();
    for number in 0..text.len() / LONG + 1 {
        place = place.onward(text, encoding, number * LONG);
        places.push(place)?;
    }
    Ok(places)
}

// Whether a line feed is at this place.
fn is_feed(bytes: &[u8], at: usize) -> bool
    ensures { IsTrue result ↔ (slice_index bytes.now at ≡ 10) }
{
    at < bytes.len() && bytes[at] == b'\n'
}

// Whether a line ends after the byte at this place.
pub(crate) fn ends_line(bytes: &[u8], at: usize) -> bool
    requires { at < length bytes.now }
    ensures { result ≡ is_line_end (drop at bytes.now) }
{
    match bytes[at] {
        b'\n' => true,
        b'\r' => at + 1 == bytes.len() || bytes[at + 1] != b'\n',
        _ => false,
    }
}
