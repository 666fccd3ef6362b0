//! The templates below a folder.

ghost use Rattle.std.specs.Prelude.{◌≡◌, ◌⊎◌, ◌<◌, ℕ, List, [], All, AllPairs, IfOk, IfSome, OnOk, map, string_bytes, vec_len};
ghost use Rattle.std.specs.List.Sorted.{IsPermutation};
ghost use Rattle.std.specs.Path.{path_join};
ghost use Rattle.tera_files.specs.Below.{AddsEach, AddsEntry, AreBelow, AreTemplates, IsBefore, IsKnownTemplate, Reports, path_of};
ghost use Rattle.tera_files.specs.Names.{texts};
ghost use Rattle.tera_files.specs.Paths.{IsKnown, IsPathIn};

use crate::finding::Unlisted;
use crate::itself::itself_of;
use crate::names::{joined, path_in};
use crate::seen::{Entry, Kind, Place, Seen, seen_in};
use std::alloc::{AllocError, Global};
use std::io;
use std::rt::Files;

/// A template that was found below a folder.
#[derive(Drop)]
pub(crate) struct Template {
    /// The path by which it is reported.
    pub(crate) path: String,
    /// The path by which the system knows it, unless it is a link.
    pub(crate) itself: Option<String>,
}

// A folder that is to be listed.
#[derive(Drop)]
struct Folder {
    // The path by which it is reported.
    path: String,
    // The path by which the system knows it.
    itself: String,
}

impl Folder {
    // The path by which what has this name in the folder is reported.
    fn path_of_name(&self, alloc: Global, name: &str) -> Result<String, AllocError>
        ensures { IfOk result (λ path. IsPathIn (string_bytes self.now.path) name.now (string_bytes path)) }
    {
        path_in(alloc, self.path.as_str(), name)
    }

    // The path by which the system knows what has this name in the folder and is not a link.
    fn known(&self, alloc: Global, name: &str) -> Result<String, AllocError>
        ensures { IfOk result (λ known. string_bytes known
            ≡ path_join (string_bytes self.now.itself) name.now) }
    {
        joined(alloc, self.itself.as_str(), name)
    }
}

// What was found below a folder.
#[derive(Drop)]
struct Below {
    templates: Vec<Template>,
    // Those that are to be listed.
    folders: Vec<Folder>,
    // What could not be listed, and templates whose names are not UTF-8.
    unlisted: Vec<Unlisted>,
}

/// The templates below the folder, in order. What could not be listed is added to `unlisted`, and the folder itself where
/// it holds none.
pub(crate) fn templates_below<R: Files + AllocGlobal>(
    rt: &R,
    extensions: &[&str],
    top: &str,
    unlisted: &mut Vec<Unlisted>,
) -> Result<Vec<Template>, AllocError>
    ensures templates { IfOk result (λ below. AreTemplates (texts extensions.now) top.now
        (map path_of below.items)) }
    ensures known { IfOk result (λ below. (itself : List ℕ) × All (IsKnownTemplate top.now itself) below.items) }
    ensures reported { IfOk result (λ below. (0 < vec_len below) ⊎ (vec_len unlisted.old < vec_len unlisted.new)) }
    ensures unlisted { OnOk result (Reports top.now unlisted.old.items unlisted.new.items) }
{
    let mut below = walked(rt, extensions, top)?;
    add_top_if_empty(rt.alloc(), top, &mut below)?;
    unlisted.append(&mut below.unlisted)?;
    let templates = in_order(below.templates)?;
    Ok(templates)
}

// All that is below the folder: no folder is left that was not listed.
fn walked<R: Files + AllocGlobal>(
    rt: &R,
    extensions: &[&str],
    top: &str,
) -> Result<Below, AllocError>
    ensures below { IfOk result (λ below. (itself : List ℕ)
        × AreBelow (texts extensions.now) top.now itself below) }
    ensures ended { IfOk result (λ below. below.folders.items ≡ []) }
{
    let mut below = begun(rt, top)?;
    for _ in 0..u64::MAX {
        let Some(folder) = below.folders.pop() else {
            return Ok(below);
        };
        list(rt, extensions, &folder, &mut below)?;
    }
    // More folders than memory can hold.
    Err(AllocError)
}

// Adds the folder at the top to those that are unlisted, where nothing was found below it.
fn add_top_if_empty(alloc: Global, top: &str, below: &mut Below) -> Result<(), AllocError>
    ensures kept { (extensions : List (List ℕ)) → (itself : List ℕ) → AreBelow extensions top.now itself below.old
        → AreBelow extensions top.now itself below.new }
    ensures templates { below.new.templates ≡ below.old.templates }
    ensures answered { OnOk result ((0 < vec_len below.new.templates) ⊎ (0 < vec_len below.new.unlisted)) }
{
    if !below.templates.is_empty() || !below.unlisted.is_empty() {
        return Ok(());
    }
    let folder = String::from_str(alloc, top)?;
    below.unlisted.push(Unlisted {
        folder,
        error: None,
    })?;
    Ok(())
}

// The same templates, by the bytes of their paths.
fn in_order(templates: Vec<Template>) -> Result<Vec<Template>, AllocError>
    ensures sorted { IfOk result (λ sorted. AllPairs IsBefore (map path_of sorted.items)) }
    ensures same { IfOk result (λ sorted. IsPermutation templates.items sorted.items) }
{
    let mut sorted = templates;
    sorted.sort_by(|one, other| one.path.cmp(&other.path))?;
    Ok(sorted)
}

// The folder at the top is to be listed.
fn begun<R: Files + AllocGlobal>(rt: &R, top: &str) -> Result<Below, AllocError>
    ensures { (extensions : List (List ℕ)) → IfOk result (λ below. (itself : List ℕ)
        × AreBelow extensions top.now itself below) }
{
    let path = String::from_str(rt.alloc(), top)?;
    let itself = itself_of(rt, top)?;
    let templates = Vec::new(rt.alloc());
    let unlisted = Vec::new(rt.alloc());
    let mut folders = Vec::new(rt.alloc());
    folders.push(Folder { path, itself })?;
    Ok(Below {
        templates,
        folders,
        unlisted,
    })
}

// Adds what is right in the folder. The error is that of the folder, or of its first entry that cannot be looked at.
fn list<R: Files + AllocGlobal>(
    rt: &R,
    extensions: &[&str],
    folder: &Folder,
    below: &mut Below,
) -> Result<(), AllocError>
    ensures { (top itself : List ℕ) → IsKnown top itself (string_bytes folder.now.path) (string_bytes folder.now.itself)
        → AreBelow (texts extensions.now) top itself below.old
        → AreBelow (texts extensions.now) top itself below.new }
{
    let Seen { entries, error } = seen_in(rt, folder.path.as_str())?;
    add_all(rt.alloc(), extensions, folder, &entries, below)?;
    match error {
        Some(error) => add_unlisted(rt.alloc(), folder, error, below),
        None => Ok(()),
    }
}

// Adds that not all of the folder could be listed.
fn add_unlisted(
    alloc: Global,
    folder: &Folder,
    error: io::Error,
    below: &mut Below,
) -> Result<(), AllocError>
    ensures { (extensions : List (List ℕ)) → (top itself : List ℕ)
        → IsKnown top itself (string_bytes folder.now.path) (string_bytes folder.now.itself)
        → AreBelow extensions top itself below.old → AreBelow extensions top itself below.new }
{
    let folder = String::from_str(alloc, folder.path.as_str())?;
    below.unlisted.push(Unlisted {
        folder,
        error: Some(error),
    })?;
    Ok(())
}

// Adds each entry of the folder in turn.
fn add_all(
    alloc: Global,
    extensions: &[&str],
    folder: &Folder,
    entries: &Vec<Entry>,
    below: &mut Below,
) -> Result<(), AllocError>
    ensures each { OnOk result (AddsEach (texts extensions.now) (string_bytes folder.now.path)
        below.old entries.now.items below.new) }
    ensures kept { (top itself : List ℕ) → IsKnown top itself (string_bytes folder.now.path) (string_bytes folder.now.itself)
        → AreBelow (texts extensions.now) top itself below.old
        → AreBelow (texts extensions.now) top itself below.new }
{
    for entry in entries {
        add_entry(alloc, extensions, folder, entry, below)?;
    }
    Ok(())
}

// Adds an entry of the folder: a template, or a folder. A link to a file is taken, and one to a folder left out. A template
// whose name is not UTF-8 cannot be read, and is added to what is unlisted.
fn add_entry(
    alloc: Global,
    extensions: &[&str],
    folder: &Folder,
    entry: &Entry,
    below: &mut Below,
) -> Result<(), AllocError>
    ensures adds { OnOk result (AddsEntry (texts extensions.now) (string_bytes folder.now.path)
        entry.now below.old below.new) }
    ensures kept { (top itself : List ℕ) → IsKnown top itself (string_bytes folder.now.path) (string_bytes folder.now.itself)
        → AreBelow (texts extensions.now) top itself below.old
        → AreBelow (texts extensions.now) top itself below.new }
{
    let name = entry.name.as_str();
    match entry.place(extensions) {
        Place::Nowhere => Ok(()),
        Place::Folders => {
            let path = folder.path_of_name(alloc, name)?;
            let itself = folder.known(alloc, name)?;
            below.folders.push(Folder { path, itself })?;
            Ok(())
        }
        Place::Templates => {
            let path = folder.path_of_name(alloc, name)?;
            let itself = known_in(alloc, folder, name, entry.kind)?;
            below.templates.push(Template { path, itself })?;
            Ok(())
        }
        Place::Unlisted => {
            let folder = folder.path_of_name(alloc, name)?;
            let error = Some(io::Error::new(
                io::ErrorKind::InvalidFilename,
                "its name is not UTF-8",
            ));
            below.unlisted.push(Unlisted { folder, error })?;
            Ok(())
        }
    }
}

// The path by which the system knows what has this name in the folder, unless it is a link.
fn known_in(
    alloc: Global,
    folder: &Folder,
    name: &str,
    kind: Kind,
) -> Result<Option<String>, AllocError>
    ensures { IfOk result (λ itself. IfSome itself (λ itself.
        string_bytes itself ≡ path_join (string_bytes folder.now.itself) name.now)) }
{
    match kind {
        Kind::Link => Ok(None),
        _ => Ok(Some(folder.known(alloc, name)?)),
    }
}
