//! Changes of a text that come from its end to its start.

ghost use Rattle.std.specs.Prelude.{◌≡◌, ◌≤◌, ◌++◌, if◌then◌else◌, take, drop, max, string_bytes, IfOk, OnOk, IsCharBoundary};
ghost use Rattle.text_edits.specs.Edits.{after, change_view, NewPart};
ghost use Rattle.text_edits.specs.Lines.{lines_of};
ghost use Rattle.text_edits.specs.Places.{AreLinesOf};
ghost use Rattle.text_edits.specs.Positions.{byte_of};
ghost use Rattle.text_edits.specs.Runs.{IsRun, run_text};

use crate::edits::Change;
use crate::lines::Lines;
use crate::positions::{Encoding, Position, byte_at};
use std::alloc::{AllocError, Global};

/// A text after parts of it have changed, each of which is before those that changed earlier. So the lines of the first
/// text say where a position is, and the new text is put together once.
#[derive(Drop)]
pub(crate) struct Run<'t, 'n> {
    text: &'t str,
    lines: Lines,
    encoding: Encoding,
    // How many bytes at the start of the text have not changed.
    kept: usize,
    // What comes after them, the last piece first.
    pieces: Vec<Piece<'t, 'n>>,
}

// A new text, and what was kept of the first text after it.
#[derive(Clone, Copy)]
struct Piece<'t, 'n> {
    new: &'n str,
    after: &'t str,
}

impl<'t, 'n> Run<'t, 'n> {
    /// The text after this part alone has changed.
    pub(crate) fn begin(
        alloc: Global,
        text: &'t str,
        lines: Lines,
        encoding: Encoding,
        start: Position,
        end: Position,
        new: &'n str,
    ) -> Result<Run<'t, 'n>, AllocError>
        requires { AreLinesOf text.now lines }
        ensures run { IfOk result IsRun }
        ensures encoding { IfOk result (λ r. r.encoding ≡ encoding) }
        ensures text { IfOk result (λ r.
            run_text r ≡ after encoding text.now (NewPart start end new.now)) }
    {
        let mut run = Run {
            text,
            lines,
            encoding,
            kept: text.len(),
            pieces: Vec::new(alloc),
        };
        let (from, to) = run.bytes(start, end);
        run.put(from, to, new)?;
        Ok(run)
    }

    /// Makes the change too, if it is a part that ends before those that have changed. The result says whether it is. A
    /// part that ends where they begin is not: the line may end in another place there than in the first text.
    pub(crate) fn goes_on(&mut self, change: Change<'n>) -> Result<bool, AllocError>
        requires { IsRun self.old }
        ensures run { OnOk result (IsRun self.new) }
        ensures encoding { OnOk result (self.new.encoding ≡ self.old.encoding) }
        ensures text { IfOk result (λ is_made. run_text self.new ≡ (if is_made then
            after self.old.encoding (run_text self.old) (change_view change.entry)
            else run_text self.old)) }
    {
        let Change::Part(start, end, new) = change else {
            return Ok(false);
        };
        let (from, to) = self.bytes(start, end);
        if to >= self.kept {
            return Ok(false);
        }
        self.put(from, to, new)?;
        Ok(true)
    }

    /// The text with all changes.
    pub(crate) fn into_text(mut self, alloc: Global) -> Result<String, AllocError>
        requires { IsRun self }
        ensures { IfOk result (λ t. string_bytes t ≡ run_text self.entry) }
    {
        let mut whole = String::from_str(alloc, &self.text[..self.kept])?;
        while let Some(piece) = self.pieces.pop() {
            whole.push_str(piece.new)?;
            whole.push_str(piece.after)?;
        }
        Ok(whole)
    }

    // The bytes of the first text at which the part begins and ends.
    fn bytes(&self, start: Position, end: Position) -> (usize, usize)
        requires { IsRun self.now }
        ensures from { result.0 ≡ byte_of self.now.encoding (lines_of self.now.text.now) start }
        ensures to { result.1
            ≡ max result.0 (byte_of self.now.encoding (lines_of self.now.text.now) end) }
        ensures from_boundary { IsCharBoundary self.now.text.now result.0 }
        ensures to_boundary { IsCharBoundary self.now.text.now result.1 }
    {
        let from = byte_at(self.text, &self.lines, self.encoding, start);
        let to = byte_at(self.text, &self.lines, self.encoding, end).max(from);
        (from, to)
    }

    // Puts the new text in place of the bytes between these two.
    fn put(&mut self, from: usize, to: usize, new: &'n str) -> Result<(), AllocError>
        requires run { IsRun self.old }
        requires from { IsCharBoundary self.old.text.now from }
        requires to { IsCharBoundary self.old.text.now to }
        requires order { from ≤ to }
        requires within { to ≤ self.old.kept }
        ensures run { OnOk result (IsRun self.new) }
        ensures encoding { OnOk result (self.new.encoding ≡ self.old.encoding) }
        ensures text { OnOk result (run_text self.new
            ≡ take from self.old.text.now ++ (new.now ++ drop to (run_text self.old))) }
    {
        let after = &self.text[to..self.kept];
        self.pieces.push(Piece { new, after })?;
        self.kept = from;
        Ok(())
    }
}
