//! From one place of a text to another.

ghost use Rattle.std.specs.Prelude.{◌≡◌, ◌≤◌, ◌<◌, ◌+◌, ◌^◌, [], length, take};
ghost use Rattle.tera_lexer.specs.code.Counting.{stepped};
ghost use Rattle.tera_lexer.specs.grammar.Place.{joined, place_after};
ghost use Rattle.tera_templates.specs.FaultFindings.{IsAt, walk_view};

use tera_parser::value::Span;

/// A place in a text.
#[derive(Clone, Copy)]
pub(crate) struct Walk {
    /// From 1.
    line: usize,
    /// From 0, in characters.
    column: usize,
    byte: usize,
}

impl Walk {
    /// Where a text begins.
    pub(crate) fn first() -> Walk
        ensures { walk_view result ≡ place_after [] }
    {
        Walk {
            line: 1,
            column: 0,
            byte: 0,
        }
    }

    /// The place of a byte of the text. It takes time for the bytes from this place to it or, if it is before this
    /// place, for all bytes before it.
    pub(crate) fn to(self, text: &str, byte: usize) -> Walk
        ensures { IsAt text.now self → byte ≤ length text.now →
            IsAt text.now result × (result.byte ≡ byte) }
    {
        if byte < self.byte {
            Walk::first().onward(text, byte)
        } else {
            self.onward(text, byte)
        }
    }

    fn onward(self, text: &str, byte: usize) -> Walk
        ensures { IsAt text.now self → self.byte ≤ byte → byte ≤ length text.now →
            IsAt text.now result × (result.byte ≡ byte) }
    {
        let Some(between) = text.as_bytes().get(self.byte..byte) else {
            return self;
        };
        let mut walk = self;
        for one in between {
            walk = walk.after(*one);
        }
        walk
    }

    fn after(self, text: u8) -> Walk
        ensures { self.byte + 1 < 2 ^ 64 → self.line + 1 < 2 ^ 64 → self.column + 1 < 2 ^ 64 →
            walk_view result ≡ stepped (walk_view self) text }
    {
        let byte = self.byte.saturating_add(1);
        if text == b'\n' {
            return Walk {
                line: self.line.saturating_add(1),
                column: 0,
                byte,
            };
        }
        Walk {
            line: self.line,
            column: self
                .column
                .saturating_add(usize::from(text < 0x80 || 0xC0 <= text)),
            byte,
        }
    }

    /// The span from this place to a later one.
    pub(crate) fn span_to(self, end: Walk) -> Span
        ensures { result ≡ joined (walk_view self) (walk_view end) }
    {
        Span {
            start_line: self.line,
            start_col: self.column,
            end_line: end.line,
            end_col: end.column,
            range: self.byte..end.byte,
        }
    }
}
