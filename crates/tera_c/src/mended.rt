//! The tree of a file, whatever faults it has, and these, as JSON.

ghost use Rattle.std.specs.Prelude.{IfOk, IfErr};
ghost use Rattle.tera_c.specs.Files.{IsUnreadFile};
ghost use Rattle.tera_c.specs.TreesWithFaults.{HasTreeLine};

use crate::files::template_of;
use crate::shapes::AskedFile;
use crate::status::Status;
use std::alloc::Global;
use tera_report::tree_line_of;

/// The tree of the file, or of what it is read as, and at most so many of its faults, as a line of JSON.
pub(crate) fn tree_line_in(
    alloc: Global,
    file: &AskedFile<'_>,
    faults: usize,
) -> Result<Vec<u8>, Status>
    ensures ok { IfOk result (λ text. HasTreeLine faults file.now text.items) }
    ensures err { IfErr result (IsUnreadFile file.now) }
{
    let template = template_of(alloc, file, faults)?;
    match tree_line_of(alloc, &template) {
        Ok(line) => Ok(line),
        Err(_) => Err(Status::Memory),
    }
}
