//! Markers, from the bytes of the caller.

ghost use Rattle.std.specs.Prelude.{◌≡◌, ◌⊎◌, IfOk, IfErr, IsUtf8};
ghost use Rattle.std.specs.Cow.{cow_str_bytes};
ghost use Rattle.tera_lexer.specs.grammar.Marks.{marks_of};
ghost use Rattle.tera_c.specs.Asked.{marks_at, AreMarkers};

use crate::status::Status;
use std::alloc::Global;
use std::borrow::CowStr;
use tera_parser::lexer::Delimiters;

/// The six markers that are in these bytes, one after the other, or why there are none.
pub(crate) fn markers_at(alloc: Global, bytes: &[u8]) -> Result<Delimiters, Status>
    ensures ok { IfOk result (λ d. (marks_of d ≡ marks_at bytes.now) × AreMarkers bytes.now) }
    ensures err { IfErr result (λ s. (s ≡ Status.Memory)
        ⊎ ((s ≡ Status.BadMarkers) × (AreMarkers bytes.now → ⊥))) }
{
    if bytes.len() != 12 {
        return Err(Status::BadMarkers);
    }
    let markers = Delimiters {
        block_start: marker(alloc, &bytes[..2])?,
        block_end: marker(alloc, &bytes[2..4])?,
        variable_start: marker(alloc, &bytes[4..6])?,
        variable_end: marker(alloc, &bytes[6..8])?,
        comment_start: marker(alloc, &bytes[8..10])?,
        comment_end: marker(alloc, &bytes[10..12])?,
    };
    match markers.validate(alloc) {
        Ok(()) => Ok(markers),
        Err(_) => Err(Status::BadMarkers),
    }
}

// One marker, which is a text.
fn marker(alloc: Global, bytes: &[u8]) -> Result<CowStr<'static>, Status>
    ensures ok { IfOk result (λ c. (cow_str_bytes c ≡ bytes.now) × IsUtf8 bytes.now) }
    ensures err { IfErr result (λ s. (s ≡ Status.Memory)
        ⊎ ((s ≡ Status.BadMarkers) × (IsUtf8 bytes.now → ⊥))) }
{
    let Ok(text) = str::from_utf8(bytes) else {
        return Err(Status::BadMarkers);
    };
    match String::from_str(alloc, text) {
        Ok(text) => Ok(CowStr::Owned(text)),
        Err(_) => Err(Status::Memory),
    }
}
