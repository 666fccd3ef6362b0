//! How the text of a file is replaced.

ghost use Rattle.std.specs.Prelude.{◌≡◌, ◌↔◌, IfOk, IfSome, IsTrue};
ghost use Rattle.std.specs.Bool.{OnTrue};
ghost use Rattle.std.specs.Io.KnownBytes.{Appends};
ghost use Rattle.tera_files.specs.Replacing.{forbids, taken_after, unwritten_after};
ghost use Rattle.tera_files.specs.declared.replacing.Unwritten.TheVariants.{Failed};

use crate::beside::{Beside, make_beside};
use std::alloc::Global;
use std::fs::{Metadata, OpenFile, OpenOptions};
use std::io::{ErrorKind, Read, Seek, SeekFrom, Write};
use std::os::unix::fs::MetadataExt;
use std::rt::Files;
use std::{fs, io};

/// Why the text of a file was not replaced.
#[derive(Clone, Copy, Debug)]
pub enum Unwritten {
    /// Another text is there than the old one. The file is left alone.
    Changed,
    /// The file has its old text.
    Failed(io::Error),
    /// The file has neither text whole: it could not be overwritten, and the old text could not be put back.
    Incomplete(io::Error),
}

impl From<io::Error> for Unwritten {
    ghost from_gives = { λ error unwritten. unwritten ≡ Failed error };

    fn from(error: io::Error) -> Unwritten {
        Unwritten::Failed(error)
    }
}

/// Puts the new text in the place of the old one in the file. Of a link that is the file that it leads to.
///
/// A new file is written beside it, gets its mode and takes its name, so that at each moment the old or the new text
/// is there whole. A file that may not be written, and one that has another text than the old one by then, is left alone.
/// Where the file has other names or another owner than a new one would have, or the folder forbids a new file, its own
/// text is overwritten; where that fails, the old text is put back.
pub fn replace<R: Files + AllocGlobal>(
    rt: &R,
    path: &str,
    old: &str,
    new: &str,
) -> Result<(), Unwritten> {
    let itself = fs::canonicalize(rt, path)?.into_string();
    let known = open(rt, itself.as_str())?.metadata()?;
    if !known.is_file() {
        let error = io::Error::new(ErrorKind::InvalidInput, "not a regular file");
        return Err(Unwritten::Failed(error));
    }
    if known.nlink() <= 1 && is_taken(rt, itself.as_str(), &known, old, new)? {
        return Ok(());
    }
    let mut file = open(rt, itself.as_str())?;
    if !has_text(rt.alloc(), &mut file, old)? {
        return Err(Unwritten::Changed);
    }
    overwrite(&mut file, old.as_bytes(), new.as_bytes())
}

// Opens a file that may be read and written.
fn open<R: Files>(rt: &R, path: &str) -> io::Result<R::File> {
    OpenOptions::new().read(true).write(true).open(rt, path)
}

// Whether a new file took the place of the old one. Where this fails or is forbidden, no new file stays.
fn is_taken<R: Files + AllocGlobal>(
    rt: &R,
    path: &str,
    known: &Metadata,
    old: &str,
    new: &str,
) -> Result<bool, Unwritten> {
    let mut beside = match make_beside(rt, path) {
        Ok(beside) => beside,
        Err(error) => return taken_after(error),
    };
    let taken = take_place(rt, path, known, &mut beside, old, new);
    if !matches!(taken, Ok(true)) {
        let _ = fs::remove_file(rt, beside.path.as_str());
    }
    taken
}

// Writes the new file, and gives it the name of the old one.
fn take_place<R: Files + AllocGlobal>(
    rt: &R,
    path: &str,
    known: &Metadata,
    beside: &mut Beside<R::File>,
    old: &str,
    new: &str,
) -> Result<bool, Unwritten> {
    if !fill(&mut beside.file, known, new)? {
        return Ok(false);
    }
    if !has_text(rt.alloc(), &mut fs::open(rt, path)?, old)? {
        return Err(Unwritten::Changed);
    }
    match fs::rename(rt, beside.path.as_str(), path) {
        Ok(()) => Ok(true),
        Err(error) => taken_after(error),
    }
}

// Writes the new file, unless it has another owner than the old one.
fn fill<F: Write + OpenFile>(new: &mut F, old: &Metadata, text: &str) -> io::Result<bool>
    ensures { IfOk result (λ is_written. OnTrue is_written
        (Appends (F.contents new.old) (F.contents new.new) text.now)) }
{
    let made = new.metadata()?;
    let is_alike = made.uid() == old.uid() && made.gid() == old.gid();
    if is_alike {
        new.set_permissions(old.permissions())?;
        new.write_all(text.as_bytes())?;
        new.sync_all()?;
    }
    Ok(is_alike)
}

// That no new file took the place of the old one, where the folder forbids that. Any other error is one.
fn taken_after(error: io::Error) -> Result<bool, Unwritten>
    ensures { result ≡ taken_after error }
{
    if forbids(error.kind()) {
        Ok(false)
    } else {
        Err(Unwritten::Failed(error))
    }
}

// Whether an error of this kind says that a folder takes no new file, or not in the place of the old one. A disk that is
// full is none of these.
fn forbids(kind: ErrorKind) -> bool
    ensures { result ≡ forbids kind }
{
    matches!(
        kind,
        ErrorKind::PermissionDenied
            | ErrorKind::ReadOnlyFilesystem
            | ErrorKind::ResourceBusy
            | ErrorKind::CrossesDevices
            | ErrorKind::InvalidFilename
    )
}

// Whether the reader gives this text and no more.
fn has_text<R: Read>(alloc: Global, reader: &mut R, text: &str) -> io::Result<bool>
    ensures { IfOk result (λ has. IfSome (R.remaining reader.old) (λ bytes.
        IsTrue has ↔ (bytes ≡ text.now))) }
{
    let mut bytes = Vec::with_capacity(alloc, text.len())?;
    reader.read_to_end(&mut bytes)?;
    Ok(bytes.as_slice() == text.as_bytes())
}

// Overwrites the old text, or puts it back where that fails.
fn overwrite<F: Write + Seek + OpenFile>(
    file: &mut F,
    old: &[u8],
    new: &[u8],
) -> Result<(), Unwritten> {
    if let Err(error) = lengthen(file, old, new) {
        return Err(unwritten_after(error, file.set_len(len_of(old)).is_ok()));
    }
    if let Err(error) = put(file, new) {
        return Err(unwritten_after(error, put(file, old).is_ok()));
    }
    Ok(())
}

// Writes what the new text has more after the old one, which is whole while there may be no room for that.
fn lengthen<F: Write + Seek + OpenFile>(file: &mut F, old: &[u8], new: &[u8]) -> io::Result<()> {
    if let Some(more) = new.get(old.len()..) {
        // A limit of the size ends the process here, and not in the middle of the text.
        file.set_len(len_of(new))?;
        file.seek(SeekFrom::Start(len_of(old)))?;
        file.write_all(more)?;
    }
    Ok(())
}

// Puts the text in the place of all that the file has.
fn put<F: Write + Seek + OpenFile>(file: &mut F, text: &[u8]) -> io::Result<()> {
    file.rewind()?;
    file.write_all(text)?;
    file.set_len(len_of(text))?;
    file.sync_all()
}

// The error of a text that was not written, once the old one was put back or not.
fn unwritten_after(error: io::Error, restored: bool) -> Unwritten
    ensures { result ≡ unwritten_after error restored }
{
    if restored {
        Unwritten::Failed(error)
    } else {
        Unwritten::Incomplete(error)
    }
}

fn len_of(text: &[u8]) -> u64 {
    text.len() as u64
}
