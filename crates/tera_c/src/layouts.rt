//! The layout of a source, or why there is none.

ghost use Rattle.std.specs.Prelude.{◌≡◌, ◌⊎◌, IfOk, IfErr, Some, None, true, string_bytes};
ghost use Rattle.tera_lexer.specs.grammar.Marks.{marks_of, IsValid};
ghost use Rattle.tera_layout.specs.Layout.{laid_out};
ghost use Rattle.tera_layout.specs.Steady.{is_steady};
ghost use Rattle.tera_c.specs.Layouts.{HasLayout, IsWithoutLayout};

use crate::markers::markers_at;
use crate::status::Status;
use std::alloc::Global;
use tera_layout::{are_steady, format_between};
use tera_parser::lexer::Delimiters;
use tera_parser::value::ErrorKind;

/// The layout of the source, between the markers that are in these bytes.
pub(crate) fn layout_of(alloc: Global, source: &[u8], markers: &[u8]) -> Result<String, Status>
    ensures ok { IfOk result (λ text. HasLayout markers.now source.now (string_bytes text)) }
    ensures err { IfErr result (IsWithoutLayout markers.now source.now) }
{
    let Ok(text) = str::from_utf8(source) else {
        return Err(Status::NotUtf8);
    };
    let delimiters = markers_at(alloc, markers)?;
    if !are_steady(&delimiters) {
        return Err(Status::BadMarkers);
    }
    layout_between(alloc, text, &delimiters)
}

// The layout of a text.
fn layout_between(alloc: Global, text: &str, delimiters: &Delimiters) -> Result<String, Status>
    requires valid { IsValid (marks_of delimiters.now) }
    requires steady { is_steady (marks_of delimiters.now) ≡ true }
    ensures ok { IfOk result (λ layout. laid_out (marks_of delimiters.now) text.now ≡ Some (string_bytes layout)) }
    ensures err { IfErr result (λ status. (status ≡ Status.Memory)
        ⊎ ((status ≡ Status.Faulty) × (laid_out (marks_of delimiters.now) text.now ≡ None))) }
{
    match format_between(alloc, text, delimiters) {
        Ok(layout) => Ok(layout),
        Err(error) => match error.kind {
            ErrorKind::SyntaxError(_) => Err(Status::Faulty),
            _ => Err(Status::Memory),
        },
    }
}
