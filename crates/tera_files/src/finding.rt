//! Which files the paths of a command line mean.

ghost use Rattle.std.specs.Prelude.{◌≡◌, ◌⊎◌, ◌<◌, ℕ, List, [], AllPairs, Contains, IfOk, OnOk, length, map, vec_len};
ghost use Rattle.tera_files.specs.Below.{AddsSome, IsBefore, Reports, path_of};
ghost use Rattle.tera_files.specs.Finding.{AddsAll, AddsTemplate, AddsTemplates, IsFound, input};
ghost use Rattle.tera_files.specs.Listing.{files_in, AddsFile, IsAdded, IsStarted};
ghost use Rattle.tera_files.specs.Names.{texts};

use crate::below::{Template, templates_below};
use crate::itself::itself_of;
use crate::listing::Listing;
use std::alloc::AllocError;
use std::rt::Files;
use std::{fs, io};

/// How paths are understood.
#[derive(Clone, Copy, Debug)]
pub struct Selection<'a> {
    /// How the names of templates end in a folder, without the point.
    pub extensions: &'a [&'a str],
    /// The file that standard input stands for, or `-`.
    pub stdin: &'a str,
}

/// The files that some paths mean.
#[derive(Debug, Drop)]
pub struct Found {
    /// Each once, in the order of the paths, those below a folder by the bytes of their paths.
    pub files: Vec<String>,
    /// What could not be listed.
    pub unlisted: Vec<Unlisted>,
}

/// A folder of which not all could be listed, or a template whose name is not UTF-8, and why. Without an error it is a folder
/// that holds no template.
#[derive(Debug, Drop)]
pub struct Unlisted {
    pub folder: String,
    pub error: Option<io::Error>,
}

/// The files that the paths mean.
///
/// A path of a folder means the templates below it, by their names: hidden names, `node_modules` and links to folders are
/// left out, and links to files are taken. `-` means standard input; the file that it stands for is left out, whatever
/// path leads to it. Any other path means itself. A file that is met again is left out, by whatever path.
pub fn files_of<R: Files + AllocGlobal + Clone + Drop>(
    rt: &R,
    selection: Selection<'_>,
    paths: &[&str],
) -> Result<Found, AllocError>
    ensures { IfOk result (IsFound (texts selection.entry.extensions.now) (texts paths.now)) }
{
    let mut listing = begun(rt, selection.stdin, paths)?;
    let mut unlisted = Vec::new(rt.alloc());
    for path in paths {
        add(rt, selection.extensions, path, &mut listing, &mut unlisted)?;
    }
    let files = listing.into_files(rt.alloc())?;
    Ok(Found { files, unlisted })
}

// No file yet. Where standard input is among the paths, the file that it stands for is left out.
fn begun<R: Files + AllocGlobal>(rt: &R, stdin: &str, paths: &[&str]) -> Result<Listing, AllocError>
    ensures none { IfOk result (λ listing. files_in listing ≡ []) }
    ensures started { IfOk result (λ listing. IsStarted listing ⊎ Contains (texts paths.now) input) }
{
    let mut listing = Listing::new(rt.alloc());
    if stdin == "-" || !paths.contains(&"-") {
        return Ok(listing);
    }
    listing.leave_out(itself_of(rt, stdin)?)?;
    Ok(listing)
}

// Adds the files that a path means.
fn add<R: Files + AllocGlobal + Clone + Drop>(
    rt: &R,
    extensions: &[&str],
    path: &str,
    listing: &mut Listing,
    unlisted: &mut Vec<Unlisted>,
) -> Result<(), AllocError>
    ensures added { OnOk result (AddsAll (texts extensions.now) path.now (files_in listing.old) (files_in listing.new)) }
    ensures input_read { OnOk result (path.now ≡ input → Contains (files_in listing.new) input) }
    ensures answered { OnOk result (IsStarted listing.old → IsStarted listing.new
        × ((0 < length (files_in listing.new)) ⊎ (vec_len unlisted.old < vec_len unlisted.new))) }
    ensures unlisted { OnOk result (Reports path.now unlisted.old.items unlisted.new.items) }
{
    let alloc = rt.alloc();
    if path == "-" {
        return listing.add_path(String::from_str(alloc, path)?);
    }
    if !is_folder(rt, path) {
        return add_file(rt, path, listing);
    }
    let templates = templates_below(rt, extensions, path, unlisted)?;
    add_templates(rt, &templates, listing)?;
    Ok(())
}

// Adds each of the templates that were found below a folder.
fn add_templates<R: Files + AllocGlobal>(
    rt: &R,
    templates: &Vec<Template>,
    listing: &mut Listing,
) -> Result<(), AllocError>
    ensures each { OnOk result (AddsTemplates listing.old templates.now.items listing.new) }
    ensures some { OnOk result (AllPairs IsBefore (map path_of templates.now.items)
        → AddsSome (map path_of templates.now.items) (files_in listing.old) (files_in listing.new)) }
    ensures started { OnOk result (IsStarted listing.old → IsStarted listing.new) }
    ensures answered { OnOk result (IsStarted listing.old → 0 < length templates.now.items
        → 0 < length (files_in listing.new)) }
{
    for template in templates {
        add_template(rt, template, listing)?;
    }
    Ok(())
}

// Adds a template that was found below a folder, unless it was met or is left out.
fn add_template<R: Files + AllocGlobal>(
    rt: &R,
    template: &Template,
    listing: &mut Listing,
) -> Result<(), AllocError>
    ensures added { OnOk result (IsAdded (path_of template.now) (files_in listing.old) (files_in listing.new)) }
    ensures file { OnOk result (AddsTemplate template.now listing.old listing.new) }
    ensures started { OnOk result (IsStarted listing.old → 0 < length (files_in listing.new)) }
{
    let path = template.path.as_str();
    match &template.itself {
        Some(itself) => {
            let alloc = rt.alloc();
            listing.add(
                String::from_str(alloc, path)?,
                String::from_str(alloc, itself.as_str())?,
            )
        }
        None => add_file(rt, path, listing),
    }
}

// Adds a file, unless it was met or is left out.
fn add_file<R: Files + AllocGlobal>(
    rt: &R,
    path: &str,
    listing: &mut Listing,
) -> Result<(), AllocError>
    ensures added { OnOk result (IsAdded path.now (files_in listing.old) (files_in listing.new)) }
    ensures file { OnOk result ((itself : List ℕ) × AddsFile path.now itself listing.old listing.new) }
    ensures started { OnOk result (IsStarted listing.old → 0 < length (files_in listing.new)) }
{
    let itself = itself_of(rt, path)?;
    listing.add(String::from_str(rt.alloc(), path)?, itself)
}

fn is_folder(rt: &impl Files, path: &str) -> bool {
    fs::metadata(rt, path).is_ok_and(|data| data.is_dir())
}
