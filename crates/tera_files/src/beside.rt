//! New files beside others, which are to take their places.

ghost use Rattle.std.specs.Prelude.{◌≡◌, IfOk, string_bytes};
ghost use Rattle.tera_files.specs.Beside.{IsBeside, IsFront};

use std::alloc::{AllocError, Global};
use std::fs::OpenOptions;
use std::io;
use std::io::ErrorKind;
use std::rt::Files;

/// A new file beside another.
#[derive(Drop)]
pub(crate) struct Beside<F> {
    pub(crate) path: String,
    pub(crate) file: F,
}

// How many names are tried. A run that is killed can leave a file of one.
const MOST_TRIES: u32 = 1000;

// How many bytes of a name stay, so that the longer one has 255 at most, as names of files have.
const MOST_BYTES: usize = 235;

/// Makes a new file beside the one of this path, by a name that no file has.
pub(crate) fn make_beside<R: Files + AllocGlobal>(
    rt: &R,
    path: &str,
) -> io::Result<Beside<R::File>> {
    for number in 1..=MOST_TRIES {
        let path = beside_of(rt.alloc(), path, number)?;
        let made = OpenOptions::new()
            .write(true)
            .create_new(true)
            .open(rt, path.as_str());
        match made {
            Ok(file) => return Ok(Beside { path, file }),
            Err(error) if error.kind() == ErrorKind::AlreadyExists => {}
            Err(error) => return Err(error),
        }
    }
    Err(io::Error::new(ErrorKind::AlreadyExists, "too many names are taken"))
}

// The path of this number beside the file.
fn beside_of(alloc: Global, path: &str, number: u32) -> Result<String, AllocError>
    ensures { IfOk result (λ beside. IsBeside path.now number (string_bytes beside)) }
{
    match path.rsplit_once('/') {
        Some((folder, name)) => {
            let front = front_of(name);
            format!(in alloc; "{folder}/{front}.{number}.tera-new")
        }
        None => {
            let front = front_of(path);
            format!(in alloc; "{front}.{number}.tera-new")
        }
    }
}

// The front of a name, all of it where it is short enough.
fn front_of(name: &str) -> &str
    ensures { IsFront name.now result.now }
{
    let (front, _) = name.split_at(name.floor_char_boundary(MOST_BYTES));
    front
}
