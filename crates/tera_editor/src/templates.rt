//! The names of templates, and the files that have them.

ghost use Rattle.std.specs.Prelude.{◌≡◌, Some, map, filter, string_bytes, nat_eq, IfOk};
ghost use Rattle.std.specs.List.{ends_with};
ghost use Rattle.std.specs.Option.{option_map};
ghost use Rattle.tera_tree.specs.Calls.{texts};
ghost use Rattle.tera_editor.specs.Templates as specs;
ghost use Rattle.tera_editor.specs.Templates.{roots_view};

use std::alloc::{AllocError, Global};
use tera_workspace::name_below;

/// Where the names of templates begin for a document: below the root of its site, if it has one, or else below the open
/// folders.
#[derive(Clone, Copy)]
pub struct Roots<'r> {
    pub root: Option<&'r str>,
    pub folders: &'r [String],
}

/// The name of the template in a file: its path below the root, or by the first of the folders that the file is in.
pub fn template_name<'f>(roots: Roots<'_>, file: &'f str) -> Option<&'f str>
    ensures { option_map (λ n. n.now) result ≡ specs.template_name (roots_view roots.entry) file.now }
{
    match roots.root {
        Some(root) => name_below(root, file),
        None => name_in_first(roots.folders, file),
    }
}

fn name_in_first<'f>(folders: &[String], file: &'f str) -> Option<&'f str>
    ensures { option_map (λ n. n.now) result ≡ specs.name_in_first (map string_bytes folders.now) file.now }
{
    for folder in folders {
        if let Some(name) = name_in_folder(folder.as_str(), file) {
            return Some(name);
        }
    }
    None
}

// The name by the folder, if the file is in it: what comes after the first folder `templates` below it, or else its
// whole path below the folder.
fn name_in_folder<'f>(folder: &str, file: &'f str) -> Option<&'f str>
    ensures { option_map (λ n. n.now) result ≡ specs.name_in_folder folder.now file.now }
{
    let path = file.strip_prefix(folder)?;
    let name = path.strip_prefix("/")?;
    match path.split_once("/templates/") {
        Some((_, inner)) => Some(inner),
        None => Some(name),
    }
}

/// Whether the file is in the folder, at any depth.
pub fn is_inside(folder: &str, file: &str) -> bool
    ensures { result ≡ specs.is_inside folder.now file.now }
{
    match file.strip_prefix(folder) {
        Some(rest) => rest.starts_with('/'),
        None => false,
    }
}

/// The file of the template of this name: the one with the shortest path among those that have the name; or else among
/// those whose path ends in it, below any folder.
pub fn template_in<'f>(
    alloc: Global,
    roots: Roots<'_>,
    files: &[&'f str],
    name: &str,
) -> Result<Option<&'f str>, AllocError>
    ensures { IfOk result (λ file. option_map (λ f. f.now) file
        ≡ specs.template_in (roots_view roots.entry) (texts files.now) name.now) }
{
    if let Some(file) = nearest_named(roots, files, name) {
        return Ok(Some(file));
    }
    let mut ending = String::from_str(alloc, "/")?;
    ending.push_str(name)?;
    Ok(nearest_below(files, ending.as_str()))
}

// The file with the shortest path among those that have the name.
fn nearest_named<'f>(roots: Roots<'_>, files: &[&'f str], name: &str) -> Option<&'f str>
    ensures { option_map (λ f. f.now) result ≡ specs.nearest (filter
        (specs.is_named (roots_view roots.entry) name.now) (texts files.now)) }
{
    let mut best = None;
    for file in files {
        if is_named(roots, name, file) {
            best = Some(nearer(best, file));
        }
    }
    best
}

// The file with the shortest path among those whose path ends so.
fn nearest_below<'f>(files: &[&'f str], ending: &str) -> Option<&'f str>
    ensures { option_map (λ f. f.now) result ≡ specs.nearest (filter
        (λ f. ends_with nat_eq f ending.now) (texts files.now)) }
{
    let mut best = None;
    for file in files {
        if file.as_bytes().ends_with(ending.as_bytes()) {
            best = Some(nearer(best, file));
        }
    }
    best
}

// Whether the file has the name.
fn is_named(roots: Roots<'_>, name: &str, file: &str) -> bool
    ensures { result ≡ specs.is_named (roots_view roots.entry) name.now file.now }
{
    match template_name(roots, file) {
        Some(found) => found == name,
        None => false,
    }
}

// The one with the shorter path; if both are as long, the first.
fn nearer<'f>(best: Option<&'f str>, file: &'f str) -> &'f str
    ensures { Some result.now ≡ specs.nearer (option_map (λ f. f.now) best.entry) (Some file.now) }
{
    match best {
        Some(best) if best.len() <= file.len() => best,
        _ => file,
    }
}
