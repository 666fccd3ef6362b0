//! The fault of a template.

ghost use Rattle.std.specs.Prelude.{◌≡◌, ◌++◌, ◌∷◌, IfOk, OnOk, map, [], string_bytes};
ghost use Rattle.std.specs.Option.{option_map};
ghost use Rattle.tera_base.specs.ErrorView.{error_view, report_view};
ghost use Rattle.tera_base.specs.ErrorView as errors;
ghost use Rattle.tera_findings.specs.Faults.{is_memory};
ghost use Rattle.tera_findings.specs.Findings.{finding_view, note_view, first_span, note_of, finding_of, hint_of, hint_notes, FindingOf, IsOfError, NoteOf};
ghost use Rattle.tera_findings.specs.declared.finding.Kind.TheVariants as kinds;

use crate::finding::{Finding, Kind, Note, Severity};
use crate::spans::first_span;
use std::alloc::{AllocError, Global};
use tera_parser::value;
use tera_parser::value::{Error, ErrorKind, ReportError, Span};

/// The finding of a fault in the file of this name: its text, and its notes, each with its span, followed by a note
/// with a hint if its text calls for one. A fault without a place is at the start of the file. An allocation failure is
/// not a finding, but an error.
pub fn finding_of_fault(alloc: Global, file: &str, error: &Error) -> Result<Finding, AllocError>
    ensures { IfOk result (λ f. IsOfError file.now (error_view error.now) (finding_view f)) }
{
    match &error.kind {
        ErrorKind::SyntaxError(report) => finding_of_report(alloc, file, report),
        ErrorKind::Message(message) => placeless(alloc, message.as_str()),
        ErrorKind::Memory => Err(AllocError),
    }
}

fn finding_of_report(alloc: Global, file: &str, report: &ReportError) -> Result<Finding, AllocError>
    ensures { IfOk result (λ f. finding_view f ≡ finding_of file.now (report_view report.now)) }
{
    let mut notes = notes_of(alloc, &report.notes)?;
    push_hint(alloc, &mut notes, file, report)?;
    Ok(Finding {
        kind: Kind::Fault,
        severity: Severity::Error,
        span: report.span.copied(),
        message: report.message.clone()?,
        notes,
    })
}

fn notes_of(alloc: Global, notes: &Vec<value::Note>) -> Result<Vec<Note>, AllocError>
    ensures { IfOk result (λ v. map note_view v.items
        ≡ map note_of (map errors.note_view notes.now.items)) }
{
    let mut found = Vec::new(alloc);
    for note in notes {
        found.push(found_note(note)?)?;
    }
    Ok(found)
}

fn found_note(note: &value::Note) -> Result<Note, AllocError>
    ensures { IfOk result (λ n. note_view n ≡ note_of (errors.note_view note.now)) }
{
    Ok(Note {
        file: note.filename.clone()?,
        span: note.span.copied(),
        message: note.label.clone()?,
    })
}

// Adds a note with the hint that the text of the fault calls for, at the place of the fault.
fn push_hint(
    alloc: Global,
    notes: &mut Vec<Note>,
    file: &str,
    report: &ReportError,
) -> Result<(), AllocError>
    ensures { OnOk result (map note_view notes.new.items ≡ map note_view notes.old.items
        ++ hint_notes file.now report.now.span (hint_of (string_bytes report.now.message))) }
{
    push_text_if_any(
        alloc,
        notes,
        file,
        &report.span,
        hint_of(report.message.as_str()),
    )
}

/// Adds a note with the text, if there is one, at a span of the file of this name.
pub fn push_text_if_any(
    alloc: Global,
    notes: &mut Vec<Note>,
    file: &str,
    span: &Span,
    text: Option<&str>,
) -> Result<(), AllocError>
    ensures { OnOk result (map note_view notes.new.items ≡ map note_view notes.old.items
        ++ hint_notes file.now span.now (option_map (λ t. t.now) text.entry)) }
{
    match text {
        Some(text) => push_text(alloc, notes, file, span, String::from_str(alloc, text)?),
        None => Ok(()),
    }
}

/// Adds a note with the text at a span of the file of this name.
pub fn push_text(
    alloc: Global,
    notes: &mut Vec<Note>,
    file: &str,
    span: &Span,
    text: String,
) -> Result<(), AllocError>
    ensures { OnOk result (map note_view notes.new.items ≡ map note_view notes.old.items
        ++ (NoteOf file.now span.now (string_bytes text) ∷ [])) }
{
    push_note(
        notes,
        Note {
            file: String::from_str(alloc, file)?,
            span: span.copied(),
            message: text,
        },
    )
}

// Adds the note.
fn push_note(notes: &mut Vec<Note>, note: Note) -> Result<(), AllocError>
    ensures { OnOk result (map note_view notes.new.items
        ≡ map note_view notes.old.items ++ (note_view note ∷ [])) }
{
    Ok(notes.push(note)?)
}

// The hint for a fault of this text.
fn hint_of(message: &str) -> Option<&'static str>
    ensures { option_map (λ h. h.now) result ≡ hint_of message.now }
{
    if message == "Float literals are not supported" {
        Some("Tera reads floating-point numbers, and this parser does not")
    } else {
        None
    }
}

fn placeless(alloc: Global, message: &str) -> Result<Finding, AllocError>
    ensures { IfOk result (λ f. finding_view f
        ≡ FindingOf kinds.Fault first_span message.now []) }
{
    let message = String::from_str(alloc, message)?;
    Ok(Finding::new(alloc, Kind::Fault, &first_span(), message))
}

/// Whether an allocation failed.
pub fn is_memory(error: &Error) -> bool
    ensures { result ≡ is_memory error.now }
{
    match error.kind {
        ErrorKind::Memory => true,
        ErrorKind::Message(_) => false,
        ErrorKind::SyntaxError(_) => false,
    }
}
