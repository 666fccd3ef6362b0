//! What is in a folder.

ghost use Rattle.std.specs.Prelude.{◌≡◌, IfOk, IfSome, map, vec_items};
ghost use Rattle.tera_files.specs.Names.{texts};
ghost use Rattle.tera_files.specs.Seen.{IsPlace};

use crate::itself::fault;
use crate::names::{ends_in, is_left_out, path_in};
use std::alloc::{AllocError, Global};
use std::io::{BufRead, BufReader};
use std::rt::Files;
use std::{fs, io, str};

/// What a name in a folder is of.
#[derive(Clone, Copy, Debug, PartialEq, Eq)]
pub(crate) enum Kind {
    Folder,
    File,
    /// A link that leads to a file.
    Link,
    /// A link that leads to a folder or nowhere, a device, or what cannot be looked at.
    Other,
    /// The name is not UTF-8, so no path leads to it.
    Unnamed,
}

/// What was seen under a name.
#[derive(Drop)]
pub(crate) struct Entry {
    /// If it is not UTF-8, with `�` for each part that is not.
    pub(crate) name: String,
    pub(crate) kind: Kind,
}

/// Where an entry belongs.
#[derive(Clone, Copy, Debug, PartialEq, Eq)]
pub(crate) enum Place {
    Templates,
    Folders,
    Unlisted,
    Nowhere,
}

impl Entry {
    /// Hidden names and `node_modules` belong nowhere; other folders are looked into; files are templates if their names end
    /// in one of the extensions.
    pub(crate) fn place(&self, extensions: &[&str]) -> Place
        ensures { IsPlace (texts extensions.now) self.now result }
    {
        let name = self.name.as_str();
        if is_left_out(name) {
            return Place::Nowhere;
        }
        match self.kind {
            Kind::Folder => Place::Folders,
            Kind::Other => Place::Nowhere,
            _ if !ends_in(name, extensions) => Place::Nowhere,
            Kind::File | Kind::Link => Place::Templates,
            Kind::Unnamed => Place::Unlisted,
        }
    }
}

/// What was seen in a folder.
#[derive(Drop)]
pub(crate) struct Seen {
    pub(crate) entries: Vec<Entry>,
    /// The first error, of the folder or of what could not be looked at in it.
    pub(crate) error: Option<io::Error>,
}

/// What is in the folder. What cannot be looked at is left out, and its first error is reported. If the folder cannot be read to
/// its end, this is what came before.
pub(crate) fn seen_in<R: Files + AllocGlobal>(rt: &R, folder: &str) -> Result<Seen, AllocError> {
    let mut seen = Seen {
        entries: Vec::new(rt.alloc()),
        error: None,
    };
    let names = match open(rt, folder) {
        Ok(names) => names,
        Err(error) => {
            seen.error = Some(fault(error)?);
            return Ok(seen);
        }
    };
    for name in names.split(rt.alloc(), 0) {
        match name {
            Ok(name) => {
                let error = see(rt, folder, &name, &mut seen.entries)?;
                seen.error = seen.error.or(error);
            }
            // The next name would have the same error, and so on.
            Err(error) => {
                let error = fault(error)?;
                seen.error = seen.error.or(Some(error));
                break;
            }
        }
    }
    Ok(seen)
}

// A folder as the system gives it: its names, with a zero after each.
fn open<R: Files + AllocGlobal>(rt: &R, folder: &str) -> io::Result<BufReader<R::Dir>> {
    // With a point at the end the system follows a link to a folder.
    let path = path_in(rt.alloc(), folder, ".")?;
    BufReader::new(rt.alloc(), rt.open_dir(path.as_str())?)
}

// Adds what has this name. Names that are left out are not looked at.
fn see<R: Files + AllocGlobal>(
    rt: &R,
    folder: &str,
    bytes: &Vec<u8>,
    entries: &mut Vec<Entry>,
) -> Result<Option<io::Error>, AllocError> {
    let name = String::from_utf8_lossy(rt.alloc(), bytes.as_slice())?;
    if is_left_out(name.as_str()) {
        return Ok(None);
    }
    let kind = if str::from_utf8(bytes.as_slice()).is_ok() {
        let path = path_in(rt.alloc(), folder, name.as_str())?;
        kind_of(rt, path.as_str())
    } else {
        Ok(Kind::Unnamed)
    };
    match kind {
        Ok(kind) => {
            entries.push(Entry { name, kind })?;
            Ok(None)
        }
        Err(error) => Ok(Some(fault(error)?)),
    }
}

fn kind_of(rt: &impl Files, path: &str) -> io::Result<Kind> {
    let data = fs::symlink_metadata(rt, path)?;
    if data.is_symlink() {
        return kind_of_link(rt, path);
    }
    Ok(if data.is_dir() {
        Kind::Folder
    } else if data.is_file() {
        Kind::File
    } else {
        Kind::Other
    })
}

// A link that leads round or nowhere is left out.
fn kind_of_link(rt: &impl Files, path: &str) -> io::Result<Kind> {
    match fs::metadata(rt, path) {
        Ok(data) if data.is_file() => Ok(Kind::Link),
        Ok(_) => Ok(Kind::Other),
        Err(error) if leads_nowhere(error.kind()) => Ok(Kind::Other),
        Err(error) => Err(error),
    }
}

fn leads_nowhere(kind: io::ErrorKind) -> bool {
    matches!(
        kind,
        io::ErrorKind::NotFound | io::ErrorKind::NotADirectory | io::ErrorKind::FilesystemLoop
    )
}
