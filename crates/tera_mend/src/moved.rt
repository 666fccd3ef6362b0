//! Errors of a text that is a part of another, at their places in the other.

ghost use Rattle.std.specs.Prelude.{◌≡◌, ◌++◌, ℕ, List, [], IfSome, IsTrue, map};
ghost use Rattle.tera_base.specs.ErrorView.{error_view, note_view};
ghost use Rattle.tera_lexer.specs.grammar.Place.{place_after};
ghost use Rattle.tera_mend.specs.Moved.{moved_column, moved_error, moved_note, moved_span};
ghost use Rattle.tera_mend.specs.Views.{place_view};

use crate::edits::is_first_of_character;
use tera_parser::value::{Error, ErrorKind, Note, Span};

/// A place in a text.
#[derive(Clone, Copy)]
pub(crate) struct Place {
    /// From 1.
    pub(crate) line: usize,
    /// From 0, in characters.
    pub(crate) column: usize,
    /// From 0.
    pub(crate) byte: usize,
}

impl Place {
    ghost use Rattle.tera_lexer.specs.code.Counting.{stepped};

    /// The place before the first byte.
    pub(crate) fn first() -> Place
        ensures { place_view result ≡ place_after [] }
    {
        Place {
            line: 1,
            column: 0,
            byte: 0,
        }
    }

    /// The place after this text, which begins at this place. None where a number would be too large.
    pub(crate) fn after(self, text: &str) -> Option<Place>
        ensures { (front : List ℕ) → place_view self ≡ place_after front →
            IfSome result (λ p. place_view p ≡ place_after (front ++ text.now)) }
    {
        let mut place = self;
        for byte in text.as_bytes() {
            place = place.after_byte(*byte)?;
        }
        Some(place)
    }

    fn after_byte(self, text: u8) -> Option<Place>
        ensures { IfSome result (λ p. place_view p ≡ stepped (place_view self) text) }
    {
        let byte = self.byte.checked_add(1)?;
        if text == b'\n' {
            let line = self.line.checked_add(1)?;
            return Some(Place {
                line,
                column: 0,
                byte,
            });
        }
        let wide = usize::from(is_first_of_character(text));
        let column = self.column.checked_add(wide)?;
        Some(Place {
            line: self.line,
            column,
            byte,
        })
    }
}

/// The error of a text that begins at this place of another, there. None where a number would be too large.
pub(crate) fn error_at(error: Error, place: Place) -> Option<Error>
    ensures { IfSome result (λ e.
        error_view e ≡ moved_error (place_view place) (error_view error)) }
{
    match error.kind {
        ErrorKind::SyntaxError(mut report) => {
            report.span = span_at(&report.span, place)?;
            if !put_notes_at(&mut report.notes, place) {
                return None;
            }
            Some(Error {
                kind: ErrorKind::SyntaxError(report),
            })
        }
        kind => Some(Error { kind }),
    }
}

// The same of the notes, in their own place. The answer is false where a number would be too large.
fn put_notes_at(notes: &mut Vec<Note>, place: Place) -> bool
    ensures { IsTrue result → map note_view notes.new.items
        ≡ map (moved_note (place_view place)) (map note_view notes.old.items) }
{
    'notes: for note in notes.iter_mut() {
        match span_at(&note.span, place) {
            Some(span) => note.span = span,
            None => return false,
        }
    }
    true
}

fn span_at(span: &Span, place: Place) -> Option<Span>
    ensures { IfSome result (λ s. s ≡ moved_span (place_view place) span.now) }
{
    let above = place.line.checked_sub(1)?;
    let start_line = above.checked_add(span.start_line)?;
    let start_col = column_at(span.start_line, span.start_col, place)?;
    let end_line = above.checked_add(span.end_line)?;
    let end_col = column_at(span.end_line, span.end_col, place)?;
    let start = place.byte.checked_add(span.range.start)?;
    let end = place.byte.checked_add(span.range.end)?;
    Some(Span {
        start_line,
        start_col,
        end_line,
        end_col,
        range: start..end,
    })
}

fn column_at(line: usize, column: usize, place: Place) -> Option<usize>
    ensures { IfSome result (λ c. c ≡ moved_column (place_view place) line column) }
{
    if line == 1 {
        place.column.checked_add(column)
    } else {
        Some(column)
    }
}
