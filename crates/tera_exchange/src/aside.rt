//! Open folders, and the files that are left out when they are read.

ghost use Rattle.std.specs.Prelude.{◌≡◌, true, map, string_bytes, IfOk};
ghost use Rattle.std.specs.List.{list_any};
ghost use Rattle.std.specs.Str.{bytes_eq};

use std::alloc::AllocError;
use std::fs;
use std::rt::Files;
use tera_files::is_left_out as is_name_left_out;
use tera_server::Server;

/// Whether open folders or libraries have the file, and each that has it leaves it out.
pub(crate) fn is_aside<F: Files + AllocGlobal>(files: &F, server: &Server, path: &str) -> bool {
    let mut found = is_read_by(files, server.folders(), path);
    for folder in server.folders() {
        if matches!(found, Some(true)) {
            return false;
        }
        if let Some(settings) = server.settings_for(folder.as_str()) {
            found = is_read_by(files, settings.libraries.as_slice(), path).or(found);
        }
    }
    matches!(found, Some(false))
}

// Whether the file of this path is in one of the folders, and is left out by each that it is in.
fn is_left_out<F: Files + AllocGlobal>(files: &F, folders: &[String], path: &str) -> bool {
    matches!(is_read_by(files, folders, path), Some(false))
}

// Whether one of these folders and files is at this path, or reads what is there. `None` if none of them has it.
fn is_read_by<F: Files + AllocGlobal>(files: &F, folders: &[String], path: &str) -> Option<bool> {
    let mut found = None;
    for folder in folders {
        match is_read_in(files, folder.as_str(), path) {
            Some(true) => return Some(true),
            Some(false) => found = Some(false),
            None => {}
        }
    }
    found
}

// A folder does not read a file if a name on the way to it is left out, or a link is on the way.
fn is_read_in<F: Files + AllocGlobal>(files: &F, folder: &str, path: &str) -> Option<bool> {
    if folder == path {
        return Some(true);
    }
    let rest = rest_below(folder, path)?;
    Some(!has_left_out(rest) && !is_linked(files, folder, path, rest))
}

/// Whether the file of this path is in an open folder.
pub(crate) fn is_in_any(folders: &[String], path: &str) -> bool {
    folders
        .iter()
        .any(|folder| rest_below(folder.as_str(), path).is_some())
}

/// Whether the folder of this path is open, or is read as a part of an open folder.
pub(crate) fn is_read<F: Files + AllocGlobal>(
    files: &F,
    folders: &[String],
    path: &str,
) -> Result<bool, AllocError>
    ensures { IfOk result (λ read.
        list_any (λ f. bytes_eq f path.now) (map string_bytes folders.now) ≡ true → read ≡ true) }
{
    if is_open(folders, path) {
        return Ok(true);
    }
    let mut inner = String::from_str(files.alloc(), path)?;
    inner.push('/')?;
    Ok(is_in_any(folders, path) && !is_left_out(files, folders, inner.as_str()))
}

/// Whether this folder is one of the open ones.
pub(crate) fn is_open(folders: &[String], path: &str) -> bool
    ensures { result ≡ list_any (λ f. bytes_eq f path.now) (map string_bytes folders.now) }
{
    folders.iter().any(|folder| folder.as_str() == path)
}

// The rest of a path after the folder that it is below, which begins with a slash.
fn rest_below<'a>(folder: &str, path: &'a str) -> Option<&'a str> {
    let rest = path.strip_prefix(folder)?;
    if rest.starts_with('/') {
        Some(rest)
    } else {
        None
    }
}

/// Whether a name on the way is left out.
pub(crate) fn has_left_out(rest: &str) -> bool {
    rest.split('/').any(|name| is_name_left_out(name))
}

// Whether the path of the file goes through a link below the open folder.
fn is_linked<F: Files + AllocGlobal>(files: &F, folder: &str, path: &str, rest: &str) -> bool {
    let (Some((parent, _)), Some((below, _))) = (path.rsplit_once('/'), rest.rsplit_once('/'))
    else {
        return false;
    };
    let Ok(top) = fs::canonicalize(files, folder) else {
        return false;
    };
    let Ok(parent) = fs::canonicalize(files, parent) else {
        return false;
    };
    let parent = parent.into_string();
    let top = top.into_string();
    parent.strip_prefix(top.as_str()) != Some(below)
}
