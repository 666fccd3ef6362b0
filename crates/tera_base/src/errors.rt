//! Errors with texts and spans.

ghost use Rattle.std.specs.Prelude.{◌≡◌, MatchResult, Some, codes, string_bytes};
ghost use Rattle.tera_base.specs.Errors.{IsMemory, Reports, HasNoNotes};
ghost use Rattle.tera_base.specs.ErrorView.{error_view, error_text};

use crate::utils::Span;
use std::alloc::{AllocError, AllocFailed, Global};
use std::fmt;
use std::fmt::{Display, Formatter, Write};

/// An error of this layer.
#[derive(Debug, PartialEq, Eq, Drop)]
pub struct Error {
    pub kind: ErrorKind,
}

/// What went wrong.
#[derive(Debug, PartialEq, Eq, Drop)]
pub enum ErrorKind {
    /// An allocation failed.
    Memory,
    /// A fault that has no place in a source.
    Message(String),
    /// A fault in a source.
    SyntaxError(Box<ReportError>),
}

/// A fault in a source: its text, where it is, and notes on other places.
#[derive(Debug, PartialEq, Eq, Drop)]
pub struct ReportError {
    pub message: String,
    pub span: Span,
    pub notes: Vec<Note>,
}

/// A place that explains a fault, in the file that is named.
#[derive(Debug, PartialEq, Eq, Drop)]
pub struct Note {
    pub label: String,
    pub filename: String,
    pub span: Span,
}

impl From<AllocError> for Error {
    ghost from_gives = { λ _ e. IsMemory e };

    fn from(_error: AllocError) -> Error {
        Error {
            kind: ErrorKind::Memory,
        }
    }
}

impl<T: Drop> From<AllocFailed<T>> for Error {
    ghost from_gives = { λ _ e. IsMemory e };

    fn from(_error: AllocFailed<T>) -> Error {
        Error {
            kind: ErrorKind::Memory,
        }
    }
}

impl Error {
    ghost use Rattle.tera_base.specs.Errors.{Says};

    /// An error with this text and no place, or `Memory` where the text finds none.
    pub fn message(alloc: Global, text: &str) -> Error
        ensures { Says text.now result }
    {
        match String::from_str(alloc, text) {
            Ok(message) => Error {
                kind: ErrorKind::Message(message),
            },
            Err(error) => Error::from(error),
        }
    }

    /// A syntax error with this text and place and no notes, or `Memory` where the text finds none.
    pub fn syntax_error(alloc: Global, text: &str, span: &Span) -> Error
        ensures reports { Reports text.now span.now result }
        ensures notes { HasNoNotes result }
    {
        Error::reported(alloc, String::from_str(alloc, text), span)
    }

    /// A syntax error with this place and no notes, whose text was made, or `Memory` where it was not, or
    /// where the error finds none.
    pub fn reported(alloc: Global, message: Result<String, AllocError>, span: &Span) -> Error
        ensures reports { MatchResult message (λ text. Reports (string_bytes text) span.now result)
            (λ _. IsMemory result) }
        ensures notes { HasNoNotes result }
    {
        let message = match message {
            Ok(message) => message,
            Err(error) => return Error::from(error),
        };
        let report = ReportError {
            message,
            span: span.copied(),
            notes: Vec::new(alloc),
        };
        match Box::new(alloc, report) {
            Ok(report) => Error {
                kind: ErrorKind::SyntaxError(report),
            },
            Err(error) => Error::from(error),
        }
    }
}

impl Display for Error {
    ghost output = { λ e. Some (error_text (error_view e)) };

    fn fmt<W: Write>(&self, f: &mut Formatter<W>) -> fmt::Result {
        match &self.kind {
            ErrorKind::Memory => f.write_str("out of memory"),
            ErrorKind::Message(message) => f.write_str(message.as_str()),
            ErrorKind::SyntaxError(report) => f.write_str(report.message.as_str()),
        }
    }
}

impl ReportError {
    ghost use Rattle.std.specs.Prelude.{IfErr, OnErr, OnOk};
    ghost use Rattle.tera_base.specs.Errors.{end_of};
    ghost use Rattle.tera_base.specs.ErrorView.{NoteOf, report_view, with_note};

    /// Adds a note after the others. The only refusal is `Memory`.
    pub fn add_note(&mut self, label: &str, filename: &str, span: &Span) -> Result<(), Error>
        ensures added { OnOk result (report_view self.new
            ≡ with_note (report_view self.old) (NoteOf label.now filename.now span.now)) }
        ensures unchanged { OnErr result (report_view self.new ≡ report_view self.old) }
        ensures refusal { IfErr result IsMemory }
    {
        let alloc = *self.notes.allocator();
        let label = String::from_str(alloc, label)?;
        let filename = String::from_str(alloc, filename)?;
        let span = span.copied();
        self.notes.push(Note {
            label,
            filename,
            span,
        })?;
        Ok(())
    }

    /// The end of the input, after the token at this span: a syntax error that begins where the token ends, in whose
    /// range the token is.
    pub fn unexpected_end_of_input(alloc: Global, span: &Span) -> Error
        ensures reports { Reports (codes "Unexpected end of input") (end_of span.now) result }
        ensures notes { HasNoNotes result }
    {
        let end = Span {
            start_line: span.end_line,
            start_col: span.end_col,
            end_line: span.end_line,
            end_col: span.end_col,
            range: span.range.start..span.range.end,
        };
        Error::syntax_error(alloc, "Unexpected end of input", &end)
    }
}
