//! Faults at tokens.

ghost use Rattle.std.specs.Prelude.{[], MatchResult, codes, string_bytes};
ghost use Rattle.tera_base.specs.ErrorView.{NoteOf};
ghost use Rattle.tera_base.specs.Errors.{HasNoNotes, IsMemory, Reports};
ghost use Rattle.tera_lexer.specs.code.Cursors.{ReportsAt};
ghost use Rattle.tera_expect.specs.Taking.{IsNoted, Refuses, ReportsAs};

use std::alloc::{AllocError, Global};
use tera_base::{Error, ErrorKind, Span};
use tera_lexer::{Cursor, Token};

/// A fault at the token taken last; `Memory` if its text cannot be allocated.
#[tactic(auto, using(crate::proofs::TakingLemmas::last_refused))]
pub fn fault(cursor: &Cursor<'_>, text: &str) -> Error
    ensures reports { Reports text.now cursor.now.span result }
    ensures place { ReportsAt cursor.now.span result }
    ensures refusal { Refuses cursor.now cursor.now result }
{
    Error::syntax_error(cursor.alloc(), text, cursor.current_span())
}

/// A fault at the token taken last, whose text was made; `Memory` where it was not.
#[tactic(auto, using(crate::proofs::TakingLemmas::last_refused, crate::proofs::TakingLemmas::memory_refused))]
pub fn reported(cursor: &Cursor<'_>, message: Result<String, AllocError>) -> Error
    ensures reports { MatchResult message (λ text. Reports (string_bytes text) cursor.now.span result)
        (λ _. IsMemory result) }
    ensures place { ReportsAt cursor.now.span result }
    ensures refusal { Refuses cursor.now cursor.now result }
{
    Error::reported(cursor.alloc(), message, cursor.current_span())
}

/// The fault of a token, which is at the span, where another is required.
pub fn unexpected(alloc: Global, token: &Token<'_>, expected: &str, span: &Span) -> Error
    ensures reports { ReportsAt span.now result }
    ensures notes { HasNoNotes result }
{
    let message = format!(in alloc; "Found {token} but expected {expected}.");
    Error::reported(alloc, message, span)
}

/// The error with a note on a place of the source, if it is a fault; `Memory` where the note finds none.
/// The note names no file.
pub fn noted(error: Error, label: &str, span: &Span) -> Error
    ensures adds { IsNoted error (NoteOf label.now [] span.now) result }
    ensures reports { ReportsAs error result }
{
    match error.kind {
        ErrorKind::SyntaxError(mut report) => match report.add_note(label, "", span) {
            Ok(()) => Error {
                kind: ErrorKind::SyntaxError(report),
            },
            Err(refused) => refused,
        },
        kind => Error { kind },
    }
}

/// The error with a note on where the first of two of a name is defined, if it is a fault; `Memory` where the note finds
/// none.
pub fn first_defined(error: Error, first: &Span) -> Error
    ensures adds { IsNoted error (NoteOf (codes "first defined here") [] first.now) result }
    ensures reports { ReportsAs error result }
{
    noted(error, "first defined here", first)
}
