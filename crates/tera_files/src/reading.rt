//! What is in a file.

ghost use Rattle.std.specs.Prelude.{◌≡◌, ◌≢◌, ℕ, Err, IfOk, IfSome, string_bytes};
ghost use Rattle.std.specs.IoError.{error_kind};
ghost use Rattle.std.specs.Str.{IsValidUpTo};
ghost use Rattle.std.specs.declared.io.ErrorKind.TheVariants.{OutOfMemory};
ghost use Rattle.tera_files.specs.Reading.{unread_of};
ghost use Rattle.tera_files.specs.declared.reading.Unread.TheVariants.{Memory};

use std::alloc::{AllocError, Global};
use std::fs::OpenFile;
use std::io::Read;
use std::rt::Files;
use std::{fs, io};

/// A file that was read.
#[derive(Debug, Drop)]
pub struct Source {
    /// The name by which it is reported.
    pub file: String,
    /// All that is in it.
    pub text: String,
}

/// Why a file was not read.
#[derive(Clone, Copy, Debug)]
pub enum Unread {
    Memory,
    /// It is not UTF-8: so many bytes at its front are.
    NotUtf8(usize),
    Failed(io::Error),
}

impl From<AllocError> for Unread {
    ghost from_gives = { λ _ unread. unread ≡ Memory };

    fn from(_error: AllocError) -> Unread {
        Unread::Memory
    }
}

impl From<io::Error> for Unread {
    ghost from_gives = { λ error unread. unread ≡ unread_of error };

    fn from(error: io::Error) -> Unread {
        match error.kind() {
            io::ErrorKind::OutOfMemory => Unread::Memory,
            _ => Unread::Failed(error),
        }
    }
}

/// Reads the file, or standard input for `-`.
pub fn read_source<R: Files + Input + AllocGlobal>(
    rt: &R,
    path: &str,
    name: &str,
) -> Result<Source, Unread>
    ensures file { IfOk result (λ source. string_bytes source.file ≡ name.now) }
{
    if path == "-" {
        source_of(rt.alloc(), rt.reader(), name, 0)
    } else {
        let file = fs::open(rt, path)?;
        let room = room_of(file.metadata()?.len());
        source_of(rt.alloc(), file, name, room)
    }
}

// How much room a read of so many bytes takes: one byte more shows the end.
fn room_of(len: u64) -> usize {
    usize::try_from(len).unwrap_or(0).saturating_add(1)
}

/// Reads to the end, into room for so many bytes, and more where there are more.
pub fn source_of<R: Read + Drop>(
    alloc: Global,
    mut reader: R,
    name: &str,
    room: usize,
) -> Result<Source, Unread>
    ensures file { IfOk result (λ source. string_bytes source.file ≡ name.now) }
    ensures text { IfOk result (λ source. IfSome (R.remaining reader) (λ bytes.
        string_bytes source.text ≡ bytes)) }
    ensures not_utf8 { (at : ℕ) → result ≡ Err (Unread.NotUtf8 at) → IfSome (R.remaining reader) (λ bytes.
        IsValidUpTo bytes at) }
    ensures failed { (error : _) → result ≡ Err (Unread.Failed error) → error_kind error ≢ OutOfMemory }
{
    let file = String::from_str(alloc, name)?;
    let mut bytes = Vec::with_capacity(alloc, room)?;
    reader.read_to_end(&mut bytes)?;
    match String::from_utf8(bytes) {
        Ok(text) => Ok(Source { file, text }),
        Err(error) => Err(Unread::NotUtf8(error.utf8_error().valid_up_to())),
    }
}
