//! A fault and its notes, written for the caller.

ghost use Rattle.std.specs.Prelude.{◌≡◌};
ghost use Rattle.tera_base.specs.ErrorView.{report_view};
ghost use Rattle.tera_c.specs.Results.{place_of, PutsFault, PutsNote};

use crate::buffer::put;
use crate::shapes::{Fault, Place};
use crate::status::Status;
use tera_parser::value::{ReportError, Span};

/// Puts the text of a fault into the buffer, and says where it is.
pub(crate) fn put_fault(
    report: &ReportError,
    buffer: &mut [u8],
    needed: &mut usize,
    fault: &mut Fault,
) -> Status
    ensures { PutsFault (report_view report.now) result buffer.old buffer.new needed.new fault.new }
{
    *fault = Fault {
        place: place_at(&report.span),
        notes: report.notes.len(),
    };
    put(report.message.as_str(), buffer, needed)
}

/// Puts the label of a note of the fault into the buffer, and says where it is, or that there is no such note.
pub(crate) fn put_note(
    report: &ReportError,
    index: usize,
    buffer: &mut [u8],
    needed: &mut usize,
    place: &mut Place,
) -> Status
    ensures { PutsNote (report_view report.now) index result
        buffer.old buffer.new needed.new place.old place.new }
{
    *needed = 0;
    match report.notes.get(index) {
        Some(note) => {
            *place = place_at(&note.span);
            put(note.label.as_str(), buffer, needed)
        }
        None => Status::Nothing,
    }
}

// The place of a span.
fn place_at(span: &Span) -> Place
    ensures { result ≡ place_of span.now }
{
    Place {
        start_line: span.start_line,
        start_column: span.start_col,
        end_line: span.end_line,
        end_column: span.end_col,
        start: span.range.start,
        end: span.range.end,
    }
}
