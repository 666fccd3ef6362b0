//! What is around the templates of a site when one document says something else than before.
//!
//! Around a template to which no way leads from that one, and which extends it neither directly nor indirectly, there is
//! what was there. So only these are looked at again: the template, those that extend it if it says something else to
//! them; and with them those to which a way leads from one of these, which are needed to find what is around them.

ghost use Rattle.std.specs.Prelude.{◌≡◌, ◌<◌, ◌∷◌, [], true, false, ℕ, List, Some, length, map, set, slice_get, string_bytes, IfOk, OnOk, MatchOption};
ghost use Rattle.std.specs.BTreeSet.{keys};
ghost use Rattle.std.specs.List.{flat_map};
ghost use Rattle.tera_site.specs.Kept.{is_one_of, kept_page, names_in};
ghost use Rattle.tera_site.specs.Sites.{used_names};
ghost use Rattle.tera_workspace.specs.KeptSites.{around_file, names_before, said_in, said_of};
ghost use Rattle.tera_workspace.specs.Names.{contains_name};
ghost use Rattle.tera_workspace.specs.Near.{Adds, AreInSite, AreNear, AreOthersNear, AreRight, AreThose, ConcernsThese, HaveAllBelow, HasOwnBelow, IsDifference, IsKeptBut, IsOnlyOther, IsRenewed, UsesSame, numbers_in, own_lacking, own_name, set_each};
ghost use Rattle.tera_workspace.specs.Sites.{AreRenewed};
ghost use Rattle.tera_workspace.specs.Sources.{AreInOrder};

use crate::judged::Judged;
use crate::sites::{KeptDocument, is_kept, kept_of, name_below};
use std::alloc::{AllocError, Global};
use std::collections::BTreeSet;
use tera_site::KeptPage;
use tera_site::laws::{same_above, same_surroundings};

/// If more templates than this are to be looked at, what is around all templates of the site is found again.
const MOST_NEAR: usize = 128;

/// What changes in what is kept of a site, after one document changed.
#[derive(Drop)]
pub(crate) struct Renewed {
    /// The numbers of the documents that were looked at again, each once.
    pub(crate) near: Vec<usize>,
    /// What is kept of each of these.
    pub(crate) documents: Vec<KeptDocument>,
    /// The names that are lacking in the site.
    pub(crate) lacking: Vec<String>,
    /// The names of the documents around whose templates something else is, in their order.
    pub(crate) names: Vec<String>,
}

/// How what the documents of a site say differs from what was kept of it.
#[derive(Clone, Copy, Debug)]
pub(crate) enum Difference {
    Same,
    /// Only the document of this number says something else, or uses a name that only one of the sets of names has.
    One(usize),
    /// Other documents may be there, and any of them may say something else.
    Any,
}

/// How what these documents say differs from what was kept with the names `before`, if these are not `others` too.
pub(crate) fn compared(
    alloc: Global,
    before: &Option<BTreeSet<String>>,
    others: &BTreeSet<String>,
    kept: &Vec<KeptDocument>,
    below: &Vec<&Judged>,
) -> Result<Difference, AllocError>
    ensures { IfOk result (IsDifference (names_before before.now others.now) (names_in others.now)
        (map said_of kept.now.items) (map said_in (map (λ j. j.now) below.now.items))) }
{
    if kept.len() != below.len() {
        return Ok(Difference::Any);
    }
    let mut other = None;
    for (number, judged) in below.iter().enumerate() {
        if !is_as_before(alloc, before, others, &kept[number], judged)? {
            if other.is_some() || kept[number].file != judged.template.file {
                return Ok(Difference::Any);
            }
            other = Some(number);
        }
    }
    match other {
        Some(at) => Ok(Difference::One(at)),
        None => Ok(Difference::Same),
    }
}

// Whether what the template of the document says is what is kept, and it uses no name that only one of the sets has.
fn is_as_before(
    alloc: Global,
    before: &Option<BTreeSet<String>>,
    others: &BTreeSet<String>,
    kept: &KeptDocument,
    judged: &Judged,
) -> Result<bool, AllocError>
    ensures said { IfOk result (λ same. same ≡ true → said_of kept.now ≡ said_in judged.now) }
    ensures names { IfOk result (λ same. same ≡ true →
        UsesSame (names_before before.now others.now) (names_in others.now) (kept_page kept.now.page)) }
{
    if !is_kept(kept, judged) {
        return Ok(false);
    }
    uses_same(alloc, before, others, &kept.page)
}

// Whether both sets have the same of the names that the page uses.
fn uses_same(
    alloc: Global,
    before: &Option<BTreeSet<String>>,
    others: &BTreeSet<String>,
    page: &KeptPage,
) -> Result<bool, AllocError>
    ensures { IfOk result (λ same. same ≡ true →
        UsesSame (names_before before.now others.now) (names_in others.now) (kept_page page.now)) }
{
    let Some(before) = before else {
        return Ok(true);
    };
    let page = page.page(alloc)?;
    for name in &page.used_names(alloc)? {
        if !have_same(before, others, name) {
            return Ok(false);
        }
    }
    Ok(true)
}

// Whether both sets have the name, or none of them.
fn have_same(before: &BTreeSet<String>, others: &BTreeSet<String>, name: &str) -> bool
    ensures { result ≡ true →
        is_one_of (names_in before.now) name.now ≡ is_one_of (names_in others.now) name.now }
{
    before.contains(name) == others.contains(name)
}

/// What changes if only the document of this number says something else than before, or uses a name that came to the
/// other names or left them. `None` if many documents are to be looked at.
pub(crate) fn renewed_at(
    alloc: Global,
    root: &str,
    others: &BTreeSet<String>,
    lacking: &Vec<String>,
    kept: &Vec<KeptDocument>,
    below: &Vec<&Judged>,
    at: usize,
) -> Result<Option<Renewed>, AllocError>
    requires site { AreInSite root.now (map (λ j. j.now) below.now.items) }
    requires other { IsOnlyOther at (map said_of kept.now.items) (map said_in (map (λ j. j.now) below.now.items)) }
    requires kept { IsKeptBut at root.now (names_in others.now) (map string_bytes lacking.now.items) kept.now.items }
    ensures { IfOk result (λ renewed. MatchOption renewed (Unit {0}) (IsRenewed root.now (names_in others.now)
        kept.now.items (map (λ j. j.now) below.now.items))) }
{
    let Some(concerned) = concerned(alloc, root, kept, below, at)? else {
        return Ok(None);
    };
    let Some(near) = near_of(alloc, root, &kept[at].page, below, &concerned, at)? else {
        return Ok(None);
    };
    let those = those_of(alloc, below, &near)?;
    let (documents, _lacking) = kept_of(alloc, root, others, &those)?;
    let lacking = lacking_with(alloc, lacking, kept, at, &documents[0])?;
    let names = names_of(alloc, kept, &near, &documents)?;
    Ok(Some(Renewed {
        near,
        documents,
        lacking,
        names,
    }))
}

// The names of the templates above which something else may be now: none, if the document says the same to those that
// extend it. `None` if these are many.
fn concerned<'w>(
    alloc: Global,
    root: &str,
    kept: &Vec<KeptDocument>,
    below: &Vec<&'w Judged>,
    at: usize,
) -> Result<Option<BTreeSet<&'w str>>, AllocError>
    requires site { AreInSite root.now (map (λ j. j.now) below.now.items) }
    requires kept { at < length kept.now.items }
    requires below { at < length below.now.items }
    ensures { IfOk result (λ names. MatchOption names (Unit {0}) (λ s. ConcernsThese root.now at
        (map said_of kept.now.items) (map (λ j. j.now) below.now.items) (contains_name s))) }
{
    if same_above(&kept[at].page, &below[at].page) {
        return Ok(Some(BTreeSet::new(alloc)));
    }
    names_below(alloc, root, below, at)
}

// The names of the template of this number, and of all that extend it, directly or indirectly. `None` if these are many.
fn names_below<'w>(
    alloc: Global,
    root: &str,
    below: &Vec<&'w Judged>,
    at: usize,
) -> Result<Option<BTreeSet<&'w str>>, AllocError>
    requires site { AreInSite root.now (map (λ j. j.now) below.now.items) }
    requires within { at < length below.now.items }
    ensures { IfOk result (λ names. MatchOption names (Unit {0}) (λ s. HaveAllBelow root.now at
        (map (λ j. j.now) below.now.items) (contains_name s))) }
{
    let mut names = BTreeSet::new(alloc);
    put_name(&mut names, own_name(root, below[at]))?;
    for _pass in 0..MOST_NEAR {
        if !put_below(&mut names, root, below)? {
            return Ok(Some(names));
        }
        if names.len() > MOST_NEAR {
            return Ok(None);
        }
    }
    Ok(None)
}

// Puts the names of templates that extend one of these. Whether a name was put that was not there.
fn put_below<'w>(
    names: &mut BTreeSet<&'w str>,
    root: &str,
    below: &Vec<&'w Judged>,
) -> Result<bool, AllocError>
    ensures more { IfOk result (λ _. (n : List ℕ) → contains_name names.old n ≡ true → contains_name names.new n ≡ true) }
    ensures all { IfOk result (λ put. put ≡ false → (number : ℕ) (j : Judged) →
        slice_get (map (λ j. j.now) below.now.items) number ≡ Some j → HasOwnBelow root.now (contains_name names.new) j) }
{
    let mut put = false;
    for judged in below {
        if put_if_below(names, root, judged)? {
            put = true;
        }
    }
    Ok(put)
}

// Puts the name of the template if it extends one of these. Whether it was not there.
fn put_if_below<'w>(
    names: &mut BTreeSet<&'w str>,
    root: &str,
    judged: &'w Judged,
) -> Result<bool, AllocError>
    ensures own { IfOk result (λ _. HasOwnBelow root.now (contains_name names.new) judged.now) }
    ensures more { IfOk result (λ _. (n : List ℕ) → contains_name names.old n ≡ true → contains_name names.new n ≡ true) }
    ensures same { IfOk result (λ put. put ≡ false → (n : List ℕ) → contains_name names.new n ≡ contains_name names.old n) }
{
    let Some(parent) = judged.page.parent() else {
        return Ok(false);
    };
    if !names.contains(parent) {
        return Ok(false);
    }
    put_name(names, own_name(root, judged))
}

// Puts the name. Whether it was not there.
fn put_name<'w>(names: &mut BTreeSet<&'w str>, name: &'w str) -> Result<bool, AllocError>
    ensures has { IfOk result (λ _. contains_name names.new name.now ≡ true) }
    ensures more { IfOk result (λ _. (n : List ℕ) → contains_name names.old n ≡ true → contains_name names.new n ≡ true) }
    ensures same { IfOk result (λ put. put ≡ false → (n : List ℕ) → contains_name names.new n ≡ contains_name names.old n) }
{
    if names.contains(name) {
        return Ok(false);
    }
    names.insert(name)?;
    Ok(true)
}

// The numbers of the document and of those of these names, and of all to which a way leads from one of them, now or
// before. `None` if these are many.
fn near_of(
    alloc: Global,
    root: &str,
    before: &KeptPage,
    below: &Vec<&Judged>,
    names: &BTreeSet<&str>,
    at: usize,
) -> Result<Option<Vec<usize>>, AllocError>
    requires site { AreInSite root.now (map (λ j. j.now) below.now.items) }
    requires within { at < length below.now.items }
    ensures { IfOk result (λ near. MatchOption near (Unit {0}) (λ v. AreNear root.now
        (map said_in (map (λ j. j.now) below.now.items)) at (used_names (kept_page before.now))
        (contains_name names.now) v.items)) }
{
    let mut near = Vec::new(alloc);
    near.push(at)?;
    if !put_used(alloc, &mut near, root, below, before)? {
        return Ok(None);
    }
    put_all(&mut near, root, below, names)?;
    for number in 0..MOST_NEAR {
        if near.len() <= number {
            return Ok(Some(near));
        }
        let next = near[number];
        if !put_used(alloc, &mut near, root, below, &below[next].page)? {
            return Ok(None);
        }
    }
    Ok(None)
}

// Puts the numbers of the documents of these names.
fn put_all(
    near: &mut Vec<usize>,
    root: &str,
    below: &Vec<&Judged>,
    names: &BTreeSet<&str>,
) -> Result<(), AllocError>
    requires { AreInSite root.now (map (λ j. j.now) below.now.items) }
    ensures { OnOk result (Adds (numbers_in root.now (map (λ j. j.now) below.now.items)) (length below.now.items)
        (map (λ n. n.now) (keys names.now)) near.old.items near.new.items) }
{
    for name in names {
        put_named(near, root, below, name)?;
    }
    Ok(())
}

// Puts the numbers of the documents that the page uses. `false` if there are too many: then some may be missing.
fn put_used(
    alloc: Global,
    near: &mut Vec<usize>,
    root: &str,
    below: &Vec<&Judged>,
    page: &KeptPage,
) -> Result<bool, AllocError>
    requires { AreInSite root.now (map (λ j. j.now) below.now.items) }
    ensures { IfOk result (λ whole. whole ≡ true → Adds (numbers_in root.now (map (λ j. j.now) below.now.items))
        (length below.now.items) (used_names (kept_page page.now)) near.old.items near.new.items) }
{
    let page = page.page(alloc)?;
    for name in &page.used_names(alloc)? {
        if near.len() > MOST_NEAR {
            return Ok(false);
        }
        put_named(near, root, below, name)?;
    }
    Ok(true)
}

fn put_named(
    near: &mut Vec<usize>,
    root: &str,
    below: &Vec<&Judged>,
    name: &str,
) -> Result<(), AllocError>
    requires { AreInSite root.now (map (λ j. j.now) below.now.items) }
    ensures { OnOk result (Adds (numbers_in root.now (map (λ j. j.now) below.now.items)) (length below.now.items)
        (name.now ∷ []) near.old.items near.new.items) }
{
    if let Some(number) = number_of(root, below, name) {
        if !near.contains(&number) {
            near.push(number)?;
        }
    }
    Ok(())
}

// The number of the document that has the template of this name.
fn number_of(root: &str, below: &Vec<&Judged>, name: &str) -> Option<usize>
    requires { AreInSite root.now (map (λ j. j.now) below.now.items) }
    ensures { result ≡ numbers_in root.now (map (λ j. j.now) below.now.items) name.now }
{
    match below.binary_search_by(|judged| own_name(root, judged).cmp(name)) {
        Ok(number) => Some(number),
        Err(_) => None,
    }
}

// The name of the template of a document of the site.
fn own_name<'j>(root: &str, judged: &'j Judged) -> &'j str
    ensures { result.now ≡ own_name root.now judged.now }
{
    name_below(root, judged.template.file.as_str()).unwrap_or_default()
}

// The documents of these numbers.
fn those_of<'w>(
    alloc: Global,
    below: &Vec<&'w Judged>,
    near: &Vec<usize>,
) -> Result<Vec<&'w Judged>, AllocError>
    requires { AreRight (length below.now.items) near.now.items }
    ensures { IfOk result (λ v. AreThose near.now.items (map (λ j. j.now) below.now.items)
        (map (λ j. j.now) v.items)) }
{
    let mut those = Vec::new(alloc);
    for number in near {
        those.push(below[*number])?;
    }
    Ok(those)
}

// The names that are lacking in the site if this is kept of the document of a number. Before, these were lacking.
fn lacking_with(
    alloc: Global,
    before: &Vec<String>,
    kept: &Vec<KeptDocument>,
    at: usize,
    document: &KeptDocument,
) -> Result<Vec<String>, AllocError>
    requires at { at < length kept.now.items }
    requires before { map string_bytes before.now.items ≡ flat_map own_lacking kept.now.items }
    ensures { IfOk result (λ v. map string_bytes v.items
        ≡ flat_map own_lacking (set kept.now.items at document.now)) }
{
    let lacked = own_lacking(alloc, &kept[at])?;
    let own = own_lacking(alloc, document)?;
    if lacked.len() == before.len() {
        return Ok(own);
    }
    let mut lacking = Vec::new(alloc);
    for (number, other) in kept.iter().enumerate() {
        let own = if number == at { document } else { other };
        own.page.push_lacking(alloc, &own.around, &mut lacking)?;
    }
    Ok(lacking)
}

fn own_lacking(alloc: Global, document: &KeptDocument) -> Result<Vec<String>, AllocError>
    ensures { IfOk result (λ v. map string_bytes v.items ≡ own_lacking document.now) }
{
    let mut lacking = Vec::new(alloc);
    document
        .page
        .push_lacking(alloc, &document.around, &mut lacking)?;
    Ok(lacking)
}

// The names of those of the documents of these numbers around whose templates something else is now, in their order.
fn names_of(
    alloc: Global,
    kept: &Vec<KeptDocument>,
    near: &Vec<usize>,
    documents: &Vec<KeptDocument>,
) -> Result<Vec<String>, AllocError>
    requires ordered { AreInOrder (map (λ d. d.file) (map around_file kept.now.items)) }
    requires files { map (λ d. d.file) (map around_file (set_each kept.now.items near.now.items documents.now.items))
        ≡ map (λ d. d.file) (map around_file kept.now.items) }
    requires near { AreRight (length kept.now.items) near.now.items }
    requires each { length documents.now.items ≡ length near.now.items }
    ensures { IfOk result (λ v. AreRenewed (map string_bytes v.items) (map around_file kept.now.items)
        (map around_file (set_each kept.now.items near.now.items documents.now.items))) }
{
    let others = others_of(alloc, kept, near, documents)?;
    let mut names = Vec::new(alloc);
    for (number, document) in kept.iter().enumerate() {
        if others.contains(&number) {
            names.push(document.file.clone()?)?;
        }
    }
    Ok(names)
}

// Those of these numbers around whose templates something else is now.
fn others_of(
    alloc: Global,
    kept: &Vec<KeptDocument>,
    near: &Vec<usize>,
    documents: &Vec<KeptDocument>,
) -> Result<Vec<usize>, AllocError>
    requires near { AreRight (length kept.now.items) near.now.items }
    requires each { length documents.now.items ≡ length near.now.items }
    ensures { IfOk result (λ v. AreOthersNear kept.now.items near.now.items documents.now.items v.items) }
{
    let mut others = Vec::new(alloc);
    for (place, number) in near.iter().enumerate() {
        if !same_surroundings(&kept[*number].around, &documents[place].around) {
            others.push(*number)?;
        }
    }
    Ok(others)
}
