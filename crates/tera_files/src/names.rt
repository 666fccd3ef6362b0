//! What the name of a file says, and the path that it has in a folder.

ghost use Rattle.std.specs.Prelude.{◌≡◌, ◌↔◌, IfOk, IsTrue, string_bytes};
ghost use Rattle.std.specs.Path.{path_join};
ghost use Rattle.tera_files.specs.Names.{EndsIn, HasExtension, IsLeftOut, texts};
ghost use Rattle.tera_files.specs.Paths.{IsBase, IsPathIn};

use std::alloc::{AllocError, Global};
use std::path::Path;

/// Whether the name ends in a point and one of the extensions.
pub fn ends_in(name: &str, extensions: &[&str]) -> bool
    ensures { IsTrue result ↔ EndsIn name.now (texts extensions.now) }
{
    for extension in extensions {
        if has_extension(name.as_bytes(), extension.as_bytes()) {
            return true;
        }
    }
    false
}

fn has_extension(name: &[u8], extension: &[u8]) -> bool
    ensures { IsTrue result ↔ HasExtension name.now extension.now }
{
    match name.strip_suffix(extension) {
        Some(front) => front.ends_with(b"."),
        None => false,
    }
}

/// Whether a name is left out in a folder: one that is hidden, and the folder of packages that others wrote.
pub fn is_left_out(name: &str) -> bool
    ensures { IsTrue result ↔ IsLeftOut name.now }
{
    name.starts_with('.') || name == "node_modules"
}

/// How paths in a folder begin. `.//` stays as it is: after `./` the rest would be the root of the system.
pub(crate) fn base_of(folder: &str) -> &str
    ensures { IsBase folder.now result.now }
{
    if folder == "." {
        return "";
    }
    match folder.strip_prefix("./") {
        Some(base) if !base.starts_with('/') => base,
        _ => folder,
    }
}

/// The path of what has this name in a folder.
pub(crate) fn path_in(alloc: Global, folder: &str, name: &str) -> Result<String, AllocError>
    ensures { IfOk result (λ path. IsPathIn folder.now name.now (string_bytes path)) }
{
    joined(alloc, base_of(folder), name)
}

/// The path of what has this name after a path.
pub(crate) fn joined(alloc: Global, path: &str, name: &str) -> Result<String, AllocError>
    ensures { IfOk result (λ joined. string_bytes joined ≡ path_join path.now name.now) }
{
    let path = Path::new(path).join(alloc, name)?;
    Ok(path.into_string())
}
