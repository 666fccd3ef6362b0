//! The file of settings above a path.

ghost use Rattle.std.specs.Prelude.{◌≡◌, IfOk, IfSome, codes, string_bytes};
ghost use Rattle.tera_settings.specs.Values.{texts};
ghost use Rattle.settings_files.specs.Configured.{IsConfigured};
ghost use Rattle.settings_files.specs.Paths.{IsAbove, IsInFolder};

use crate::configured::{Configured, settings_in};
use crate::unfit::Unfit;
use std::alloc::{AllocError, Global};
use std::io::ErrorKind;
use std::path::Path;
use std::rt::Files;
use std::{fs, io};
use tera_files::{Source, Unread, read_source};

/// The name of a file of settings.
pub const NAME: &str = "tera.toml";

// How many folders are searched whose paths are not known. A path that the system takes has fewer parts.
const MOST: usize = 4096;

/// The settings of the nearest file `tera.toml`: in the folder of this path, or beside it, or in a folder above. There
/// may be none. If nothing is at the path, the search begins in the nearest folder above it. The path of the file is from
/// the folder in which the program runs, if it is in or below that.
///
/// It is an error if the nearest one cannot be read, is a pipe or a device, or is a link that leads nowhere. A folder that
/// may not be searched counts as one without a file.
pub fn settings_above<R: Files + Input + AllocGlobal>(
    rt: &R,
    rules: &[&str],
    path: &str,
) -> Result<Option<Configured>, Unfit>
    ensures meant { IfOk result (λ found. IfSome found (IsConfigured (texts rules.now))) }
    ensures named { IfOk result (λ found. IfSome found (λ c. IsInFolder (string_bytes c.source.file))) }
{
    match source_above(rt, path)? {
        Some(source) => Ok(Some(settings_in(rt.alloc(), rules, source)?)),
        None => Ok(None),
    }
}

/// The settings of the file of this path, also if that is `-`.
pub fn settings_at<R: Files + Input + AllocGlobal>(
    rt: &R,
    rules: &[&str],
    file: &str,
) -> Result<Configured, Unfit>
    ensures meant { IfOk result (IsConfigured (texts rules.now)) }
    ensures named { IfOk result (λ c. string_bytes c.source.file ≡ file.now) }
{
    match read_source(rt, not_input(file), file) {
        Ok(source) => settings_in(rt.alloc(), rules, source),
        Err(Unread::Memory) => Err(Unfit::Memory),
        Err(why) => Err(Unfit::Unread(String::from_str(rt.alloc(), file)?, why)),
    }
}

// Settings are not read from standard input.
fn not_input(path: &str) -> &str
    ensures { ¬ (result.now ≡ codes "-") }
{
    if path == "-" { "./-" } else { path }
}

// The nearest file of settings to a path.
fn source_above<R: Files + Input + AllocGlobal>(rt: &R, path: &str) -> Result<Option<Source>, Unfit>
    ensures named { IfOk result (λ found. IfSome found (λ source. IsInFolder (string_bytes source.file))) }
{
    let there = nearest_there(rt, path)?;
    match known(rt, there)? {
        Some(known) => source_above_known(rt, known.as_str()),
        None => source_above_unknown(rt, folder_at(rt, there)),
    }
}

// The nearest file of settings to a path by which the system knows something.
fn source_above_known<R: Files + Input + AllocGlobal>(
    rt: &R,
    path: &str,
) -> Result<Option<Source>, Unfit>
    ensures named { IfOk result (λ found. IfSome found (λ source. IsInFolder (string_bytes source.file))) }
{
    let here = known(rt, ".")?;
    for folder in Path::new(path).ancestors() {
        if let Some(source) = source_in(rt, seen_from(&here, folder))? {
            return Ok(Some(source));
        }
    }
    Ok(None)
}

// The nearest file of settings to a folder whose path is not known, as it is not UTF-8. One above it may be known.
fn source_above_unknown<R: Files + Input + AllocGlobal>(
    rt: &R,
    folder: &str,
) -> Result<Option<Source>, Unfit>
    ensures named { IfOk result (λ found. IfSome found (λ source. IsInFolder (string_bytes source.file))) }
{
    let mut folder = String::from_str(rt.alloc(), folder)?;
    for _ in 0..MOST {
        if let Some(source) = source_in(rt, Path::new(folder.as_str()))? {
            return Ok(Some(source));
        }
        folder = folder_above(rt.alloc(), folder.as_str())?;
        if let Some(known) = known(rt, folder.as_str())? {
            return source_above_known(rt, known.as_str());
        }
    }
    Ok(None)
}

// The folder above a folder.
fn folder_above(alloc: Global, folder: &str) -> Result<String, AllocError>
    ensures { IfOk result (λ above. IsAbove folder.now (string_bytes above)) }
{
    let folder = Path::new(folder);
    match (folder.file_name(), folder.parent()) {
        (Some(_), Some(above)) => String::from_str(alloc, above.as_str()),
        _ => Ok(folder.join(alloc, "..")?.into_string()),
    }
}

// The file of settings in a folder, if one is known to be there. A path that is not a folder has none.
fn source_in<R: Files + Input + AllocGlobal>(
    rt: &R,
    folder: Path<'_>,
) -> Result<Option<Source>, Unfit>
    ensures named { IfOk result (λ found. IfSome found (λ source. IsInFolder (string_bytes source.file))) }
{
    let file = folder.join(rt.alloc(), NAME)?.into_string();
    match read_file(rt, file.as_str()) {
        Ok(source) => Ok(Some(source)),
        Err(Unread::Memory) => Err(Unfit::Memory),
        Err(Unread::Failed(error)) if is_missing(rt, file.as_str(), error) => Ok(None),
        Err(why) => Err(Unfit::Unread(file, why)),
    }
}

// Reads a file. What is there is looked at first, since opening a pipe or a device may wait without end. A folder is
// opened, and fails when it is read. If a pipe takes the place of a file that was looked at, the pipe is opened.
fn read_file<R: Files + Input + AllocGlobal>(rt: &R, file: &str) -> Result<Source, Unread>
    ensures named { IfOk result (λ source. string_bytes source.file ≡ file.now) }
{
    let data = fs::metadata(rt, file)?;
    if data.is_file() || data.is_dir() {
        read_source(rt, file, file)
    } else {
        let error = io::Error::new(ErrorKind::InvalidInput, "it is not a regular file");
        Err(Unread::Failed(error))
    }
}

// Whether no file is known to be at a path, if reading it failed so. A link that leads nowhere is a file there. In a
// folder that may not be searched none is known. A file that was made after the reading failed counts as absent.
fn is_missing(rt: &impl Files, path: &str, error: io::Error) -> bool {
    match fs::symlink_metadata(rt, path) {
        Ok(data) => is_absent(error) && !data.is_symlink(),
        Err(_) => is_absent(error) || error.kind() == ErrorKind::PermissionDenied,
    }
}

// The path, or the nearest above it, at which something is; if that is not known, the folder in which the program runs.
fn nearest_there<'p>(rt: &impl Files, path: &'p str) -> Result<&'p str, AllocError> {
    for above in Path::new(path).ancestors() {
        match fs::metadata(rt, above) {
            Ok(_) => return Ok(above.as_str()),
            Err(error) if is_absent(error) => {}
            Err(error) if error.kind() == ErrorKind::OutOfMemory => return Err(AllocError),
            Err(_) => return Ok("."),
        }
    }
    Ok(".")
}

// The folder that is at a path, or in which the file is that is there. The one in which the program runs has no name.
fn folder_at<'p>(rt: &impl Files, path: &'p str) -> &'p str {
    if path == "." {
        return "";
    }
    match fs::metadata(rt, path) {
        Ok(data) if data.is_dir() => path,
        _ => match Path::new(path).parent() {
            Some(folder) => folder.as_str(),
            None => "",
        },
    }
}

// Whether nothing is at a path. At one that is too long nothing is.
fn is_absent(error: io::Error) -> bool {
    matches!(
        error.kind(),
        ErrorKind::NotFound | ErrorKind::NotADirectory | ErrorKind::InvalidFilename
    )
}

// The path of the folder from the one in which the program runs, if that is known and the folder is in or below it.
fn seen_from<'p>(here: &Option<String>, folder: Path<'p>) -> Path<'p> {
    match here {
        Some(here) => folder.strip_prefix(here.as_str()).unwrap_or(folder),
        None => folder,
    }
}

// The path by which the system knows what is at a path, if it knows one that is UTF-8.
fn known<R: Files + AllocGlobal>(rt: &R, path: &str) -> Result<Option<String>, AllocError> {
    match fs::canonicalize(rt, path) {
        Ok(known) => Ok(Some(known.into_string())),
        Err(error) if error.kind() == ErrorKind::OutOfMemory => Err(AllocError),
        Err(_) => Ok(None),
    }
}
