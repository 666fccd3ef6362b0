//! What is on disk: folders, files and their texts.

ghost use Rattle.std.specs.Prelude.{◌≡◌, ℕ, None, IfOk};
ghost use Rattle.tera_files.specs.declared.reading.Unread.TheVariants.{NotUtf8};
ghost use Rattle.tera_program_parts.specs.Reasons.{not_utf8};
ghost use Rattle.tera_exchange.specs.Reasons.{IsUnread};
ghost use Rattle.tera_server.specs.States.{text_on};

use std::alloc::{AllocError, Global};
use std::rt::Files;
use std::{fs, io};
use tera_files::{Unread, read_source};
use tera_program_parts::output::why_unread;
use tera_server::OnDisk;

// The most bytes of a file that is read.
const LARGEST: u64 = 0x100_0000;

/// What is under a path.
#[derive(Clone, Copy)]
pub(crate) enum Kind {
    File,
    Folder,
    Nothing,
}

pub(crate) fn kind_of(files: &impl Files, path: &str) -> Kind {
    match fs::metadata(files, path) {
        Ok(data) if data.is_dir() => Kind::Folder,
        Ok(_) => Kind::File,
        Err(error) if is_gone(error.kind()) => Kind::Nothing,
        Err(_) => Kind::File,
    }
}

/// What is on disk under the path. A pipe, a device and a file that is too large are never read.
pub(crate) fn on_disk<F: Files + Input + AllocGlobal>(
    files: &F,
    path: &str,
) -> Result<OnDisk, AllocError> {
    let alloc = files.alloc();
    match fs::metadata(files, path) {
        Ok(data) if data.is_dir() => Ok(OnDisk::Nothing),
        Ok(data) if !data.is_file() => unread_for(alloc, "it is not a regular file"),
        Ok(data) if data.len() > LARGEST => unread_for(alloc, "it has more than 16 MiB"),
        Ok(_) => match read_source(files, path, path) {
            Ok(source) => Ok(OnDisk::Text(source.text)),
            Err(why) => unread_by(alloc, why),
        },
        Err(error) => unread_by(alloc, Unread::from(error)),
    }
}

// What is on disk if a file could not be read for this reason: nothing, if it does not exist.
fn unread_by(alloc: Global, why: Unread) -> Result<OnDisk, AllocError>
    ensures none { IfOk result (λ found. text_on found ≡ None) }
    ensures not_utf8 { (at : ℕ) → why ≡ NotUtf8 at → IfOk result (IsUnread (not_utf8 at)) }
{
    match why {
        Unread::Failed(error) if is_gone(error.kind()) => Ok(OnDisk::Nothing),
        why => Ok(OnDisk::Unread(why_unread(alloc, why)?)),
    }
}

fn unread_for(alloc: Global, why: &str) -> Result<OnDisk, AllocError>
    ensures { IfOk result (IsUnread why.now) }
{
    Ok(OnDisk::Unread(String::from_str(alloc, why)?))
}

fn is_gone(kind: io::ErrorKind) -> bool {
    matches!(kind, io::ErrorKind::NotFound | io::ErrorKind::NotADirectory)
}
