//! Findings, with positions instead of spans.

ghost use Rattle.std.specs.Prelude.{◌≡◌, IfOk, map};
ghost use Rattle.tera_findings.specs.Findings.{finding_view, note_view};
ghost use Rattle.tera_workspace.specs.Diagnostics.{diagnostic_view, related_view, diagnostic_of, related_of as reported_of_note, position_in};
ghost use Rattle.tera_workspace.specs.Kept.{sources_of};
ghost use Rattle.tera_workspace.specs.Sources.{AreAscending, text_named};

use crate::judged::{Judged, place_of};
use std::alloc::{AllocError, Global};
use tera_check::{Finding, Kind, Note, Severity};
use tera_parser::value::Span;
use text_edits::{Encoding, Position};

/// A finding in a document, and the part of its text that it is about.
#[derive(Debug, Drop, PartialEq, Eq)]
pub struct Diagnostic {
    pub kind: Kind,
    pub severity: Severity,
    pub start: Position,
    pub end: Position,
    pub message: String,
    pub related: Vec<Related>,
}

/// A note that explains a finding, at a part of the text of any document.
#[derive(Debug, Drop, PartialEq, Eq)]
pub struct Related {
    pub file: String,
    pub start: Position,
    pub end: Position,
    pub message: String,
}

/// What is reported for findings in a document, which is one of these.
pub(crate) fn diagnostics_of(
    alloc: Global,
    encoding: Encoding,
    all: &Vec<Judged>,
    judged: &Judged,
    findings: Vec<Finding>,
) -> Result<Vec<Diagnostic>, AllocError>
    requires { AreAscending (sources_of all.now.items) }
    ensures { IfOk result (λ v. map diagnostic_view v.items
        ≡ map (diagnostic_of encoding (sources_of all.now.items) judged.now.text)
        (map finding_view findings.items)) }
{
    let mut diagnostics = Vec::new(alloc);
    for finding in findings {
        let (start, end) = judged.text.ends_of(encoding, &finding.span);
        let related = related_of(alloc, encoding, all, finding.notes)?;
        diagnostics.push(Diagnostic {
            kind: finding.kind,
            severity: finding.severity,
            start,
            end,
            message: finding.message,
            related,
        })?;
    }
    Ok(diagnostics)
}

fn related_of(
    alloc: Global,
    encoding: Encoding,
    all: &Vec<Judged>,
    notes: Vec<Note>,
) -> Result<Vec<Related>, AllocError>
    requires { AreAscending (sources_of all.now.items) }
    ensures { IfOk result (λ v. map related_view v.items
        ≡ map (reported_of_note encoding (sources_of all.now.items)) (map note_view notes.items)) }
{
    let mut related = Vec::new(alloc);
    for note in notes {
        let (start, end) = ends_in(encoding, all, note.file.as_str(), &note.span);
        related.push(Related {
            file: note.file,
            start,
            end,
            message: note.message,
        })?;
    }
    Ok(related)
}

/// The positions where the span begins and ends in the document of this name.
pub(crate) fn ends_in(
    encoding: Encoding,
    all: &Vec<Judged>,
    name: &str,
    span: &Span,
) -> (Position, Position)
    requires { AreAscending (sources_of all.now.items) }
    ensures { let text = text_named name.now (sources_of all.now.items) in
        result ≡ (position_in encoding text span.now.range.start, position_in encoding text span.now.range.end) }
{
    match place_of(all, name) {
        Ok(number) => all[number].text.ends_of(encoding, span),
        Err(_) => {
            let first = Position {
                line: 0,
                character: 0,
            };
            (first, first)
        }
    }
}
