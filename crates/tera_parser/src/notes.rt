//! Which file the notes of a fault are about.

ghost use Rattle.std.specs.Prelude.{◌≡◌, ◌⊎◌, OnOk, map};
ghost use Rattle.tera_base.specs.ErrorView.{error_view, note_view};
ghost use Rattle.tera_base.specs.Errors.{IsMemory};
ghost use Rattle.tera_parser.specs.Notes.{about, error_about};

use std::alloc::{AllocError, Global};
use tera_base::{Error, ErrorKind, Note};

/// The error, whose notes are about the file of this name, or `Memory`.
pub(crate) fn in_file(alloc: Global, error: Error, filename: &str) -> Error
    ensures { IsMemory result ⊎ (error_view result ≡ error_about filename.now (error_view error)) }
{
    match error.kind {
        ErrorKind::SyntaxError(mut report) => {
            match name_file(alloc, &mut report.notes, filename) {
                Ok(()) => Error {
                    kind: ErrorKind::SyntaxError(report),
                },
                Err(error) => Error::from(error),
            }
        }
        kind => Error { kind },
    }
}

// Has the notes be about this file.
fn name_file(alloc: Global, notes: &mut Vec<Note>, filename: &str) -> Result<(), AllocError>
    ensures { OnOk result (map note_view notes.new.items
        ≡ map (about filename.now) (map note_view notes.old.items)) }
{
    'notes: for note in notes.iter_mut() {
        note.filename = String::from_str(alloc, filename)?;
    }
    Ok(())
}
