//! The lines of a fault.

use std::alloc::{AllocError, Global};
use tera_base::{Error, ErrorKind, Note, ReportError, Span};

/// How much is shown of a place.
#[derive(Clone, Copy, PartialEq, Eq)]
pub(crate) enum Detail {
    /// Where it begins, and its range.
    Start,
    /// Where it begins and ends, and its range.
    Both,
}

/// What an error says about a file; a failure of memory is handed on.
pub(crate) fn error_text(
    alloc: Global,
    file: &str,
    detail: Detail,
    error: &Error,
) -> Result<String, AllocError> {
    match &error.kind {
        ErrorKind::SyntaxError(report) => report_text(alloc, file, detail, report),
        ErrorKind::Message(text) => text.clone(),
        ErrorKind::Memory => Err(AllocError),
    }
}

fn report_text(
    alloc: Global,
    file: &str,
    detail: Detail,
    report: &ReportError,
) -> Result<String, AllocError> {
    let mut text = placed(alloc, detail, &report.span, report.message.as_str())?;
    for note in &report.notes {
        let line = note_text(alloc, file, detail, note)?;
        text.push_str("\n")?;
        text.push_str(line.as_str())?;
    }
    Ok(text)
}

fn note_text(alloc: Global, file: &str, detail: Detail, note: &Note) -> Result<String, AllocError> {
    let reported = placed(alloc, detail, &note.span, note.label.as_str())?;
    let name = note.filename.as_str();
    if name == file {
        format!(in alloc; "note {reported}")
    } else {
        format!(in alloc; "note {reported} in {name}")
    }
}

// A text after its place.
fn placed(alloc: Global, detail: Detail, span: &Span, text: &str) -> Result<String, AllocError> {
    let (line, column) = (span.start_line, span.start_col);
    let (last, end) = (span.end_line, span.end_col);
    let range = &span.range;
    match detail {
        Detail::Start => format!(in alloc; "{line}:{column} ({range:?}): {text}"),
        Detail::Both => format!(in alloc; "{line}:{column}-{last}:{end} ({range:?}): {text}"),
    }
}
