//! Places, nodes, notes and errors.

use std::alloc::{AllocError, Global};
use std::process::Abort;
use std::test::Fail;
use tera_base::{Error, ErrorKind, Note, ReportError, Span, Spanned, laws};

fn place() -> Span {
    Span {
        start_line: 1,
        start_col: 2,
        end_line: 3,
        end_col: 4,
        range: 5..6,
    }
}

// A report with this text and place.
fn report(alloc: Global, text: &str, span: Span) -> Result<ReportError, AllocError> {
    Ok(ReportError {
        message: String::from_str(alloc, text)?,
        span,
        notes: Vec::new(alloc),
    })
}

// The error of a report.
fn fault(alloc: Global, report: ReportError) -> Result<Error, AllocError> {
    let kind = ErrorKind::SyntaxError(Box::new(alloc, report)?);
    Ok(Error { kind })
}

fn makes_messages(alloc: Global) -> Result<bool, AllocError> {
    let kind = ErrorKind::Message(String::from_str(alloc, "what")?);
    Ok(Error::message(alloc, "what") == Error { kind })
}

fn makes_faults(alloc: Global) -> Result<bool, AllocError> {
    let why = fault(alloc, report(alloc, "why", place())?)?;
    let text = String::from_str(alloc, "why");
    Ok(
        Error::syntax_error(alloc, "why", &place()) == why
            && Error::reported(alloc, text, &place()) == why,
    )
}

fn makes_ends(alloc: Global) -> Result<bool, AllocError> {
    let end = Span {
        start_line: 3,
        start_col: 4,
        ..place()
    };
    let end = fault(alloc, report(alloc, "Unexpected end of input", end)?)?;
    Ok(ReportError::unexpected_end_of_input(alloc, &place()) == end)
}

#[test]
fn errors(rt: HostRuntime) -> Result<(), Fail> {
    assert!(rt; makes_messages(rt.alloc())?);
    assert!(rt; makes_faults(rt.alloc())?);
    assert!(rt; makes_ends(rt.alloc())?);
    Ok(())
}

/// Whether each part is in the text.
pub(crate) fn has_parts(text: &str, parts: &[&str]) -> bool {
    for part in parts {
        if !text.contains(part) {
            return false;
        }
    }
    true
}

fn is_at_the_place(node: &Spanned<u8>) -> bool {
    *node.node() == 7 && node.span().copied() == place()
}

fn is_shown_with_its_place(alloc: Global, node: &Spanned<u8>) -> Result<bool, AllocError> {
    let shown = format!(in alloc; "{node:?}")?;
    Ok(has_parts(shown.as_str(), &["node: 7", "start_line: 1", "range: 5..6"]))
}

#[test]
fn nodes_equal_with_their_places(rt: HostRuntime) -> Result<(), Fail> {
    let mut a = Spanned::new(rt.alloc(), 7u8, place())?;
    assert!(rt; is_at_the_place(&a) && is_shown_with_its_place(rt.alloc(), &a)?);
    let b = a.clone()?;
    assert!(rt; laws::same_spanned(&a, &b));
    a.span_mut().expand(&Span::default());
    assert!(rt; a != b);
    let expanded = Span {
        end_line: 0,
        end_col: 0,
        range: 5..0,
        ..place()
    };
    *a.node_mut() = 8;
    assert!(rt; a.into_parts() == (8, expanded));
    Ok(())
}

// A report with a note.
fn noted(alloc: Global) -> Result<ReportError, Error> {
    let mut report = report(alloc, "why", place())?;
    report.add_note("here", "page", &place())?;
    Ok(report)
}

fn note(alloc: Global) -> Result<Note, AllocError> {
    Ok(Note {
        label: String::from_str(alloc, "there")?,
        filename: String::from_str(alloc, "base")?,
        span: Span::default(),
    })
}

#[test]
fn notes_follow_a_report(rt: HostRuntime) -> Result<(), Fail> {
    let (mut report, note) = (noted(rt.alloc())?, note(rt.alloc())?);
    report.add_note("there", "base", &Span::default())?;
    assert!(rt; report.notes.len() == 2 && report.notes.last() == Some(&note));
    assert!(rt; laws::same_note(&note, &note));
    assert!(rt; !laws::same_report(&report, &noted(rt.alloc())?));
    Ok(())
}

// Whether the error has this text, and these parts are in what `Debug` shows of it.
fn shows(alloc: Global, error: &Error, text: &str, parts: &[&str]) -> Result<bool, AllocError> {
    let shown = format!(in alloc; "{error}")?;
    let debug_text = format!(in alloc; "{error:?}")?;
    Ok(shown.as_str() == text && has_parts(debug_text.as_str(), parts))
}

fn are_reported_apart(fault: &Error, message: &Error, memory: &Error) -> bool {
    laws::same_error(fault, fault) && !laws::same_error(fault, message) && message != memory
}

#[test]
fn errors_show_their_texts(rt: HostRuntime) -> Result<(), Fail> {
    let alloc = rt.alloc();
    let memory = Error {
        kind: ErrorKind::Memory,
    };
    let message = Error::message(alloc, "how");
    let fault = fault(alloc, noted(alloc)?)?;
    assert!(rt; shows(alloc, &memory, "out of memory", &["Memory"])?);
    assert!(rt; shows(alloc, &message, "how", &["Message(", "\"how\""])?);
    let parts = ["Syntax", "\"why\"", "Note", "\"here\"", "\"page\""];
    assert!(rt; shows(alloc, &fault, "why", &parts)?);
    assert!(rt; are_reported_apart(&fault, &message, &memory));
    Ok(())
}
