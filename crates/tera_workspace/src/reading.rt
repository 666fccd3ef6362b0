//! Reading documents that changed.

ghost use Rattle.std.specs.Prelude.{◌≡◌, ℕ, List, [], true, false, map, string_bytes, unwrap_or, OnOk, OnErr};
ghost use Rattle.text_edits.specs.Documents.{text_of};
ghost use Rattle.text_edits.specs.Stored.{document_of};
ghost use Rattle.tera_workspace.specs.Kept.{sources_of, IsNewlyRead, IsNumbered, IsNewPlace, StayKept, IsTextAt};
ghost use Rattle.tera_workspace.specs.Names.{is_among};
ghost use Rattle.tera_workspace.specs.Sources.{AreAscending, text_named};

use crate::judged::{Judged, place_of, push_defined};
use crate::name_list::NameList;
use crate::touched::{mark, mark_if_opened, open_before, touched_names};
use std::alloc::{AllocError, Global};
use std::mem;
use tera_check::{definitions_of, is_open};
use text_edits::Documents;

/// Reads the documents of these names, and marks the documents whose findings may change by that.
pub(crate) fn read_changed(
    alloc: Global,
    documents: &Documents,
    changed: &Vec<String>,
    all: &mut Vec<Judged>,
) -> Result<(), AllocError>
    requires { AreAscending (sources_of all.old.items) }
    ensures kept { StayKept all.old.items all.new.items }
    ensures texts { (n : List ℕ) → is_among n (map string_bytes changed.now.items) ≡ false →
        text_named n (sources_of all.new.items) ≡ text_named n (sources_of all.old.items) }
    ensures read { OnOk result ((n : List ℕ) → is_among n (map string_bytes changed.now.items) ≡ true →
        text_named n (sources_of all.new.items) ≡ unwrap_or (text_of (document_of documents.now n)) []) }
{
    for name in changed {
        let text = documents.text(name.as_str()).unwrap_or("");
        put(alloc, all, name.as_str(), text)?;
    }
    Ok(())
}

// Gives the document of this name this text, and marks the documents whose findings may change by that. If it has the
// text already, it is not read again.
fn put(alloc: Global, all: &mut Vec<Judged>, name: &str, text: &str) -> Result<(), AllocError>
    requires { AreAscending (sources_of all.old.items) }
    ensures kept { StayKept all.old.items all.new.items }
    ensures read { OnOk result (IsTextAt name.now text.now all.old.items all.new.items) }
    ensures err { OnErr result (all.new.items ≡ all.old.items) }
{
    match place_of(all, name) {
        Ok(number) if all[number].text.as_str() == text => Ok(()),
        Ok(number) => replace(alloc, all, number, Judged::read(alloc, name, text)?, name),
        Err(place) => insert(alloc, all, place, Judged::read(alloc, name, text)?, name),
    }
}

// Puts it in the place of the document of this name.
fn replace(
    alloc: Global,
    all: &mut Vec<Judged>,
    number: usize,
    judged: Judged,
    name: &str,
) -> Result<(), AllocError>
    requires number { IsNumbered name.now all.old.items number }
    requires newly_read { IsNewlyRead name.now judged.text judged }
    ensures kept { StayKept all.old.items all.new.items }
    ensures read { OnOk result (IsTextAt name.now judged.text all.old.items all.new.items) }
    ensures err { OnErr result (all.new.items ≡ all.old.items) }
{
    let mut judged = judged;
    let touched = touched_names(alloc, &all[number].template, &judged.template)?;
    let opened = is_open(&all[number].template);
    let was_open = open_before(all, opened, is_open(&judged.template));
    let names = NameList::of(touched);
    mark(all, &names, name);
    mem::swap(&mut judged.reported, &mut all[number].reported);
    all[number] = judged;
    mark_if_opened(all, was_open);
    Ok(())
}

// Puts it in the order of the names. The numbers of those after it change.
fn insert(
    alloc: Global,
    all: &mut Vec<Judged>,
    place: usize,
    judged: Judged,
    name: &str,
) -> Result<(), AllocError>
    requires place { IsNewPlace name.now all.old.items place }
    requires newly_read { IsNewlyRead name.now judged.text judged }
    ensures kept { StayKept all.old.items all.new.items }
    ensures read { OnOk result (IsTextAt name.now judged.text all.old.items all.new.items) }
    ensures err { OnErr result (all.new.items ≡ all.old.items) }
{
    let mut touched = Vec::new(alloc);
    push_defined(&mut touched, definitions_of(&judged.template))?;
    let was_open = open_before(all, false, is_open(&judged.template));
    all.insert(place, judged)?;
    let names = NameList::of(touched);
    mark(all, &names, name);
    mark_if_opened(all, was_open);
    Ok(())
}
