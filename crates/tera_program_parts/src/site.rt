//! The names of the templates of a site: their paths below its root.

ghost use Rattle.std.specs.Prelude.{◌≡◌, ◌++◌, IfSome};
ghost use Rattle.std.specs.Path.{path_components};

use std::alloc::AllocError;
use std::collections::BTreeSet;
use std::path::Path;
use std::rt::Files;
use std::{fs, io};
use tera_check::Template;
use tera_site::{SiteNames, used_names};

/// The names of the templates below the root, by the paths by which the system knows their folders. A name that
/// templates use and that none of them has is in `others`, unless it is known that there is no such file.
pub fn names_below<R: Files + AllocGlobal>(
    rt: &R,
    root: &str,
    templates: &Vec<Template>,
) -> Result<SiteNames, AllocError> {
    let mut site = SiteNames {
        names: Vec::new(rt.alloc()),
        others: BTreeSet::new(rt.alloc()),
    };
    let Some(root) = itself_of(rt, root)? else {
        return Ok(site);
    };
    for template in templates {
        let name = name_of(rt, root.as_str(), template.file.as_str())?;
        site.names.push(name)?;
    }
    add_others(rt, root.as_str(), templates, &mut site)?;
    Ok(site)
}

// The name of the template in this file, if it is below the root.
fn name_of<R: Files + AllocGlobal>(
    rt: &R,
    root: &str,
    file: &str,
) -> Result<Option<String>, AllocError> {
    let path = Path::new(file);
    let Some(name) = path.file_name() else {
        return Ok(None);
    };
    let Some(folder) = itself_of(rt, folder_of(path))? else {
        return Ok(None);
    };
    let file = Path::new(folder.as_str())
        .join(rt.alloc(), name)?
        .into_string();
    match below(root, file.as_str()) {
        Some(name) => Ok(Some(String::from_str(rt.alloc(), name)?)),
        None => Ok(None),
    }
}

fn folder_of(path: Path<'_>) -> &str {
    match path.parent() {
        Some(folder) if folder.as_str() != "" => folder.as_str(),
        _ => ".",
    }
}

/// The path by which the system knows a folder, if it knows it.
pub fn itself_of<R: Files + AllocGlobal>(
    rt: &R,
    folder: &str,
) -> Result<Option<String>, AllocError> {
    match fs::canonicalize(rt, folder) {
        Ok(itself) => Ok(Some(itself.into_string())),
        Err(error) if error.kind() == io::ErrorKind::OutOfMemory => Err(AllocError),
        Err(_) => Ok(None),
    }
}

/// The rest of the path after the root, if it begins with that.
pub fn below<'a>(root: &str, path: &'a str) -> Option<&'a str>
    ensures { IfSome result (λ rest. path_components path.now
        ≡ path_components root.now ++ path_components rest.now) }
{
    match Path::new(path).strip_prefix(root) {
        Ok(rest) => Some(rest.as_str()),
        Err(_) => None,
    }
}

// Adds the names that templates use, that none of them has, and that may be files.
fn add_others<R: Files + AllocGlobal>(
    rt: &R,
    root: &str,
    templates: &Vec<Template>,
    site: &mut SiteNames,
) -> Result<(), AllocError> {
    let mut seen = BTreeSet::new(rt.alloc());
    for name in &site.names {
        if let Some(name) = name {
            seen.insert(name.as_str())?;
        }
    }
    for name in used_names(rt.alloc(), templates)? {
        if seen.insert(name)? && may_be(rt, root, name)? {
            site.others.insert(String::from_str(rt.alloc(), name)?)?;
        }
    }
    Ok(())
}

/// Whether there may be a file of this name below the root: not if it is a folder, or if it is known that there is none.
pub fn may_be<R: Files + AllocGlobal>(rt: &R, root: &str, name: &str) -> Result<bool, AllocError> {
    if !is_name(name) {
        return Ok(false);
    }
    let path = Path::new(root).join(rt.alloc(), name)?;
    match fs::metadata(rt, path.as_path()) {
        Ok(data) => Ok(!data.is_dir()),
        Err(error) if error.kind() == io::ErrorKind::OutOfMemory => Err(AllocError),
        Err(error) => Ok(!is_absent(error)),
    }
}

// Whether a file below the root can have the name. `./a.html` and `/a.html` are paths of files, but not names.
fn is_name(name: &str) -> bool {
    !name
        .split('/')
        .any(|part| part.is_empty() || part == "." || part == "..")
}

fn is_absent(error: io::Error) -> bool {
    matches!(
        error.kind(),
        io::ErrorKind::NotFound | io::ErrorKind::NotADirectory | io::ErrorKind::InvalidFilename
    )
}
