//! Where the paths of a file of settings lead.

ghost use Rattle.std.specs.Prelude.{◌≡◌, [], length, map, unwrap_or, IfOk, string_bytes};
ghost use Rattle.tera_settings.specs.Values.{texts_view};
ghost use Rattle.settings_files.specs.Paths.{ArePlaces, all_led_from, led_from};

use crate::configured::Configured;
use crate::unfit::Unfit;
use std::alloc::{AllocError, Global};
use std::path::Path;
use std::rt::Files;
use std::{fs, io};

/// Where the paths of a file of settings lead. Something is at each of them.
#[derive(Debug, Drop)]
pub struct Places {
    /// The folder with the templates of the site, if one is set: from the folder in which the program runs.
    pub root: Option<String>,
    /// The libraries, from there too.
    pub libraries: Vec<String>,
    /// What is left out, by the paths by which the system knows it.
    pub exclude: Vec<String>,
}

/// Where the paths of the file lead. It is an error if nothing is there, or no folder at the root.
pub fn places_of<R: Files + AllocGlobal>(rt: &R, file: &Configured) -> Result<Places, Unfit>
    ensures { IfOk result (ArePlaces file.now) }
{
    let root = match &file.settings.root {
        Some(root) => Some(folder_there(rt, file, "root", root.as_str())?),
        None => None,
    };
    let libraries = paths_there(rt, file, "libraries", &file.settings.libraries)?;
    let exclude = known_paths(rt, file, "exclude", &file.settings.exclude)?;
    Ok(Places {
        root,
        libraries,
        exclude,
    })
}

fn paths_there<R: Files + AllocGlobal>(
    rt: &R,
    file: &Configured,
    key: &str,
    paths: &Option<Vec<String>>,
) -> Result<Vec<String>, Unfit>
    ensures { IfOk result (λ there. map string_bytes there.items
        ≡ all_led_from (string_bytes file.now.source.file) (unwrap_or (texts_view paths.now) [])) }
{
    let mut there = Vec::new(rt.alloc());
    if let Some(paths) = paths {
        for path in paths {
            there.push(path_there(rt, file, key, path.as_str())?)?;
        }
    }
    Ok(there)
}

fn known_paths<R: Files + AllocGlobal>(
    rt: &R,
    file: &Configured,
    key: &str,
    paths: &Option<Vec<String>>,
) -> Result<Vec<String>, Unfit>
    ensures { IfOk result (λ known. length known.items ≡ length (unwrap_or (texts_view paths.now) [])) }
{
    let mut known = Vec::new(rt.alloc());
    if let Some(paths) = paths {
        for path in paths {
            known.push(known_path(rt, file, key, path.as_str())?)?;
        }
    }
    Ok(known)
}

// The path from the folder in which the program runs. It is an error of the key if nothing is there.
fn path_there<R: Files + AllocGlobal>(
    rt: &R,
    file: &Configured,
    key: &str,
    path: &str,
) -> Result<String, Unfit>
    ensures { IfOk result (λ there. string_bytes there ≡ led_from (string_bytes file.now.source.file) path.now) }
{
    let there = path_from(rt.alloc(), file.source.file.as_str(), path)?;
    match fs::metadata(rt, there.as_str()) {
        Ok(_) => Ok(there),
        Err(error) => Err(absent(rt.alloc(), file, key, path, error)),
    }
}

// The same of a folder.
fn folder_there<R: Files + AllocGlobal>(
    rt: &R,
    file: &Configured,
    key: &str,
    path: &str,
) -> Result<String, Unfit>
    ensures { IfOk result (λ there. string_bytes there ≡ led_from (string_bytes file.now.source.file) path.now) }
{
    let there = path_from(rt.alloc(), file.source.file.as_str(), path)?;
    match fs::metadata(rt, there.as_str()) {
        Ok(data) if data.is_dir() => Ok(there),
        Ok(_) => {
            let message = format!(in rt.alloc(); "`{key}`: {path}: expected a folder")?;
            Err(file.wrong(rt.alloc(), None, key, message))
        }
        Err(error) => Err(absent(rt.alloc(), file, key, path, error)),
    }
}

// The path by which the system knows it. It is an error of the key if nothing is there.
fn known_path<R: Files + AllocGlobal>(
    rt: &R,
    file: &Configured,
    key: &str,
    path: &str,
) -> Result<String, Unfit> {
    let there = path_from(rt.alloc(), file.source.file.as_str(), path)?;
    match fs::canonicalize(rt, there.as_str()) {
        Ok(known) => Ok(known.into_string()),
        Err(error) => Err(absent(rt.alloc(), file, key, path, error)),
    }
}

// What a path in a file of settings is: a path from the folder of that file.
fn path_from(alloc: Global, file: &str, path: &str) -> Result<String, AllocError>
    ensures { IfOk result (λ there. string_bytes there ≡ led_from file.now path.now) }
{
    match Path::new(file).parent() {
        Some(folder) => Ok(folder.join(alloc, path)?.into_string()),
        None => Ok(Path::new("").join(alloc, path)?.into_string()),
    }
}

// That nothing can be had at a path.
fn absent(alloc: Global, file: &Configured, key: &str, path: &str, error: io::Error) -> Unfit {
    if error.kind() == io::ErrorKind::OutOfMemory {
        return Unfit::Memory;
    }
    match format!(in alloc; "`{key}`: {path}: {error}") {
        Ok(message) => file.wrong(alloc, None, key, message),
        Err(_) => Unfit::Memory,
    }
}
