//! A text whose lines are known.

ghost use Rattle.std.specs.Prelude.{◌≡◌, IfOk};
ghost use Rattle.tera_workspace.specs.Diagnostics.{position_in};

use std::alloc::{AllocError, Global};
use std::marker::Model;
use tera_parser::value::Span;
use text_edits::{Encoding, Lines, Position, position_at};

/// A text, and where its lines begin.
#[derive(Drop)]
pub(crate) struct LinedText {
    text: String,
    lines: Lines,
}

impl Model for LinedText {
    ghost use Rattle.std.specs.Prelude.{ℕ, List, string_bytes};
    ghost use Rattle.text_edits.specs.Places.{AreLinesOf};

    ghost Value = { List ℕ };

    ghost view = { λ t. string_bytes t.text };

    ghost invariant = { λ t. AreLinesOf (string_bytes t.text) t.lines };
}

impl LinedText {
    pub(crate) fn of(alloc: Global, text: &str) -> Result<LinedText, AllocError>
        ensures { IfOk result (λ t. t ≡ text.now) }
    {
        let lines = Lines::for_many(alloc, text)?;
        let text = String::from_str(alloc, text)?;
        Ok(LinedText { text, lines })
    }

    pub(crate) fn as_str(&self) -> &str
        ensures { result.now ≡ self.now }
    {
        self.text.as_str()
    }

    /// The positions where the span begins and ends.
    pub(crate) fn ends_of(&self, encoding: Encoding, span: &Span) -> (Position, Position)
        ensures { result ≡ (position_in encoding self.now span.now.range.start, position_in encoding self.now span.now.range.end) }
    {
        let text = self.text.as_str();
        (
            position_at(text, &self.lines, encoding, span.range.start),
            position_at(text, &self.lines, encoding, span.range.end),
        )
    }
}
