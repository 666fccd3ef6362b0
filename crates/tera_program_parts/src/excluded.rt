//! Files and folders that the settings leave out.

ghost use Rattle.std.specs.Prelude.{◌≡◌, ◌≤◌, ◌||◌, ◌↔◌, ℕ, Any, List, IfOk, IsTrue, OnOk, Option, length, map, option_map, string_bytes, take, ⊤};
ghost use Rattle.std.specs.Path.{PathStartsWith, path_components};
ghost use Rattle.tera_files.specs.Names.{texts};
ghost use Rattle.tera_program_parts.specs.Excluded.{AddsUnless, AreKept, AreOfPaths, AreOutside, IsExcluded, are_names, has_names};

use std::alloc::{AllocError, Global};
use std::collections::BTreeSet;
use std::path::Path;
use std::rt::Files;
use std::{fs, io};
use tera_files::{Found, Unlisted};

/// Paths by which the system knows files, each as its components.
pub type Paths = BTreeSet<Vec<String>>;

/// A system, which may know a file or folder by another path.
pub trait KnownPaths {
    // This may be its answer for the path.
    ghost knows: { Self → List ℕ → Option (List ℕ) → Type 0 };

    /// The path by which it knows the file or folder, if it has one.
    fn known(&self, path: &str) -> Result<Option<String>, AllocError>
        ensures { IfOk result (λ known. knows self.now path.now (option_map string_bytes known)) };
}

// No clause can say what the system answers.
impl<R: Files + AllocGlobal> KnownPaths for R {
    ghost knows = { λ system path known. ⊤ };

    fn known(&self, path: &str) -> Result<Option<String>, AllocError> {
        match fs::canonicalize(self, path) {
            Ok(known) => Ok(Some(known.into_string())),
            Err(error) if error.kind() == io::ErrorKind::OutOfMemory => Err(AllocError),
            Err(_) => Ok(None),
        }
    }
}

/// What is found, without what is at one of these paths or below it. The system knows files by these paths. A file for
/// which it has no path stays.
pub fn leave_out<R: KnownPaths + AllocGlobal>(
    rt: &R,
    exclude: &[&str],
    found: Found,
) -> Result<Found, AllocError>
    ensures { IfOk result (λ kept. (paths : _) × AreOfPaths (texts exclude.now) paths
        × AreKept (R.knows rt.now) paths found kept) }
{
    let paths = paths_of(rt.alloc(), exclude)?;
    leave_out_paths(rt, &paths, found)
}

/// The same for paths that were read.
pub fn leave_out_paths<R: KnownPaths + AllocGlobal>(
    rt: &R,
    paths: &Paths,
    found: Found,
) -> Result<Found, AllocError>
    ensures { IfOk result (AreKept (R.knows rt.now) paths.now found) }
{
    let Found { files, unlisted } = found;
    let files = kept_files(rt, paths, files)?;
    let unlisted = kept_folders(rt, paths, unlisted)?;
    Ok(Found { files, unlisted })
}

fn kept_files<R: KnownPaths + AllocGlobal>(
    rt: &R,
    paths: &Paths,
    files: Vec<String>,
) -> Result<Vec<String>, AllocError>
    ensures { IfOk result (λ kept. AreOutside
        (λ file. IsExcluded (R.knows rt.now) paths.now (string_bytes file)) files.items kept.items) }
{
    let mut kept = Vec::new(rt.alloc());
    for file in files {
        keep(rt, paths, file, &mut kept)?;
    }
    Ok(kept)
}

// Adds the file, unless it is excluded.
fn keep<R: KnownPaths + AllocGlobal>(
    rt: &R,
    paths: &Paths,
    file: String,
    kept: &mut Vec<String>,
) -> Result<(), AllocError>
    ensures { OnOk result (AddsUnless
        (IsExcluded (R.knows rt.now) paths.now (string_bytes file))
        file kept.old.items kept.new.items) }
{
    if is_excluded(rt, paths, file.as_str())? {
        return Ok(());
    }
    kept.push(file)?;
    Ok(())
}

fn kept_folders<R: KnownPaths + AllocGlobal>(
    rt: &R,
    paths: &Paths,
    folders: Vec<Unlisted>,
) -> Result<Vec<Unlisted>, AllocError>
    ensures { IfOk result (λ kept. AreOutside
        (λ one. IsExcluded (R.knows rt.now) paths.now (string_bytes one.folder))
        folders.items kept.items) }
{
    let mut kept = Vec::new(rt.alloc());
    for one in folders {
        keep_folder(rt, paths, one, &mut kept)?;
    }
    Ok(kept)
}

// Adds the folder, unless it is excluded.
fn keep_folder<R: KnownPaths + AllocGlobal>(
    rt: &R,
    paths: &Paths,
    one: Unlisted,
    kept: &mut Vec<Unlisted>,
) -> Result<(), AllocError>
    ensures { OnOk result (AddsUnless
        (IsExcluded (R.knows rt.now) paths.now (string_bytes one.folder))
        one kept.old.items kept.new.items) }
{
    if is_excluded(rt, paths, one.folder.as_str())? {
        return Ok(());
    }
    kept.push(one)?;
    Ok(())
}

/// Whether the file or folder is at one of these paths, or below it. The time hardly grows with their number.
pub fn is_excluded<R: KnownPaths + AllocGlobal>(
    rt: &R,
    paths: &Paths,
    path: &str,
) -> Result<bool, AllocError>
    ensures { IfOk result (IsExcluded (R.knows rt.now) paths.now path.now) }
{
    match rt.known(path)? {
        Some(known) => is_below_one(rt.alloc(), paths, known.as_str()),
        None => Ok(false),
    }
}

// Whether the path is at one of these, or below it.
fn is_below_one(alloc: Global, paths: &Paths, path: &str) -> Result<bool, AllocError>
    ensures { IfOk result (λ is. (folders : List (List ℕ)) → AreOfPaths folders paths.now
        → IsTrue is ↔ Any (PathStartsWith path.now) folders) }
{
    let names = components_of(alloc, path)?;
    Ok(begins_in(paths, names.as_slice()))
}

// Whether one of the paths is all of these names, or the first of them.
fn begins_in(paths: &Paths, names: &[String]) -> bool
    ensures { IsTrue result ↔ ((end : ℕ) × (end ≤ length names.now)
        × IsTrue (has_names paths.now (map string_bytes (take end names.now)))) }
{
    for end in 0..names.len() {
        if has_first(paths, names, end) {
            return true;
        }
    }
    paths.contains(names)
}

fn has_first(paths: &Paths, names: &[String], end: usize) -> bool
    requires { end ≤ length names.now }
    ensures { result ≡ has_names paths.now (map string_bytes (take end names.now)) }
{
    let (first, _) = names.split_at(end);
    paths.contains(first)
}

/// The paths with these texts.
pub fn paths_of(alloc: Global, exclude: &[&str]) -> Result<Paths, AllocError>
    ensures { IfOk result (AreOfPaths (texts exclude.now)) }
{
    let mut paths = BTreeSet::new(alloc);
    for path in exclude {
        put_path(alloc, &mut paths, path)?;
    }
    Ok(paths)
}

fn put_path(alloc: Global, paths: &mut Paths, path: &str) -> Result<(), AllocError>
    ensures { OnOk result ((names : List (List ℕ)) → has_names paths.new names
        ≡ (has_names paths.old names || are_names names (path_components path.now))) }
{
    let folder = components_of(alloc, path)?;
    paths.insert(folder)?;
    Ok(())
}

fn components_of(alloc: Global, path: &str) -> Result<Vec<String>, AllocError>
    ensures { IfOk result (λ names. map string_bytes names.items ≡ path_components path.now) }
{
    let mut names = Vec::new(alloc);
    for name in Path::new(path).iter() {
        names.push(String::from_str(alloc, name)?)?;
    }
    Ok(names)
}
