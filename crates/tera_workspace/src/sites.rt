//! The templates of a site, and what is around each, kept while documents change.

ghost use Rattle.std.specs.Prelude.{◌≡◌, ◌∷◌, [], ◌++◌, ◌+◌, ◌<◌, ℕ, List, true, Some, length, map, slice_get, string_bytes, IfOk, OnOk, OnErr};
ghost use Rattle.std.specs.Bool.{Decides};
ghost use Rattle.std.specs.List.{filter, flat_map};
ghost use Rattle.std.specs.Option.{option_map};
ghost use Rattle.tera_ast.specs.View.{name_view};
ghost use Rattle.tera_site.specs.Kept.{kept_around, kept_page, kept_view, names_in, on_page};
ghost use Rattle.tera_site.specs.Sites.{used_names};
ghost use Rattle.tera_site.specs.Views.{around_in, around_view, names_of, page_view};
ghost use Rattle.tera_workspace.specs.Kept.{name_of};
ghost use Rattle.tera_workspace.specs.Near.{AreRight, set_each};
ghost use Rattle.tera_workspace.specs.KeptSites.{around_file, documents_below, is_below, is_there, lacks_name, order_of, said_in, said_of, Renews};
ghost use Rattle.tera_workspace.specs.Sites.{AreRenewed, IsKeptOf, around_named, name_below};
ghost use Rattle.tera_workspace.specs.Sources.{AreInOrder};

use crate::judged::Judged;
use crate::near::{Difference, compared, renewed_at};
use crate::workspace::Workspace;
use std::alloc::{AllocError, Global};
use std::cmp::Ordering;
use std::collections::BTreeSet;
use std::marker::Model;
use std::mem;
use tera_site::laws::{same_page, same_surroundings};
use tera_site::{Around, KeptPage, Page, Site, Surroundings};
use text_edits::Documents;

/// The templates of a site, and what is around each, as they were when it was looked at last.
#[derive(Drop)]
pub struct KeptSite {
    root: String,
    // The names of templates that are in the site and are not documents.
    others: BTreeSet<String>,
    // These when the site was looked at last, if they were others.
    before: Option<BTreeSet<String>>,
    // In the order of the files.
    documents: Vec<KeptDocument>,
    // The names that its templates use and that no template has.
    lacking: Vec<String>,
    // Whether the site was not looked at yet.
    stale: bool,
}

impl Model for KeptSite {
    ghost use Rattle.tera_workspace.specs.SiteValues.{KeptSiteVal};

    ghost Value = { KeptSiteVal };

    ghost use Rattle.tera_workspace.specs.KeptSites.{IsKeptSite, site_view};

    ghost view = { site_view };

    ghost invariant = { IsKeptSite };
}

/// A document that is in the site: what its template says, and what is around that.
#[derive(Drop)]
pub(crate) struct KeptDocument {
    pub(crate) file: String,
    pub(crate) page: KeptPage,
    pub(crate) around: Surroundings,
}

impl KeptSite {
    ghost use Rattle.std.specs.Prelude.{◌≡◌, IfOk, OnOk, OnErr, map, string_bytes};
    ghost use Rattle.std.specs.Option.{option_map};
    ghost use Rattle.tera_site.specs.Kept.{kept_view, names_in};
    ghost use Rattle.tera_workspace.specs.Definitions.{AreRead};
    ghost use Rattle.tera_workspace.specs.SiteValues.{no_site};
    ghost use Rattle.tera_workspace.specs.Sites.{AreRenewed, FitsWorkspace, around_named};
    ghost use Rattle.tera_workspace.specs.Workspaces.{IsKept};

    /// The site below this folder, a path that does not end with a slash. Templates of these other names are in it too.
    /// Nothing is kept of its documents before [`KeptSite::renew`].
    pub fn new(alloc: Global, root: &str, others: BTreeSet<String>) -> Result<KeptSite, AllocError>
        ensures { IfOk result (λ s. s ≡ no_site root.now (names_in others)) }
    {
        Ok(KeptSite {
            root: String::from_str(alloc, root)?,
            others,
            before: None,
            documents: Vec::new(alloc),
            lacking: Vec::new(alloc),
            stale: true,
        })
    }

    pub fn root(&self) -> &str
        ensures { result.now ≡ self.now.root }
    {
        self.root.as_str()
    }

    /// Those of the names that its templates use that no template has, in the order of the documents, as
    /// [`KeptSite::renew`] found them last.
    pub fn lacking(&self) -> &[String]
        ensures { map string_bytes result.now ≡ self.now.lacking }
    {
        self.lacking.as_slice()
    }

    /// From now on the templates that are in the site and are not documents have these names.
    pub fn set_others(&mut self, others: BTreeSet<String>)
        ensures { self.new ≡ record self.old { others = names_in others } }
    {
        if self.others == others {
            return;
        }
        let before = mem::replace(&mut self.others, others);
        if self.before.is_none() {
            self.before = Some(before);
        }
    }

    /// What is kept around the template in the file of this name, if it is in the site.
    pub(crate) fn around(&self, name: &str) -> Option<&Surroundings>
        ensures { option_map (λ a. kept_view a.now) result ≡ around_named name.now self.now.documents }
    {
        around_in(&self.documents, name)
    }

    /// Brings what is kept up to date, once the documents that changed were read. If only one of them says something else
    /// of others, or uses a name that came to the other names or left them, it finds again what is around the templates
    /// near that one. Else, if anything changed, it does so for all templates. The answer names, in their order, the
    /// documents around whose templates this changed, and those that came or went. After an allocation failure nothing
    /// changes.
    pub fn renew(&mut self, alloc: Global, workspace: &Workspace) -> Result<Vec<String>, AllocError>
        ensures fits { IsKept workspace.now → AreRead workspace.now →
            OnOk result (FitsWorkspace self.new workspace.now) }
        ensures names { IfOk result (λ v.
            AreRenewed (map string_bytes v.items) self.old.documents self.new.documents) }
        ensures root { self.new.root ≡ self.old.root }
        ensures others { self.new.others ≡ self.old.others }
        ensures err { OnErr result (self.new ≡ self.old) }
    {
        let below = all_below(
            alloc,
            self.root.as_str(),
            &workspace.documents,
            &workspace.judged,
        )?;
        if !self.stale {
            let difference = compared(alloc, &self.before, &self.others, &self.documents, &below)?;
            match difference {
                Difference::Same => {
                    self.before = None;
                    return Ok(Vec::new(alloc));
                }
                Difference::One(at) => {
                    let renewed = renewed_at(
                        alloc,
                        self.root.as_str(),
                        &self.others,
                        &self.lacking,
                        &self.documents,
                        &below,
                        at,
                    )?;
                    if let Some(renewed) = renewed {
                        let near = renewed.near;
                        put_each(&mut self.documents, &near, renewed.documents);
                        self.lacking = renewed.lacking;
                        self.before = None;
                        return Ok(renewed.names);
                    }
                }
                Difference::Any => {}
            }
        }
        let (documents, lacking) = kept_of(alloc, self.root.as_str(), &self.others, &below)?;
        let names = renewed(alloc, &self.documents, &documents)?;
        self.documents = documents;
        self.lacking = lacking;
        self.before = None;
        self.stale = false;
        Ok(names)
    }
}

// Puts each of these in the place of the document of its number.
fn put_each(documents: &mut Vec<KeptDocument>, near: &Vec<usize>, those: Vec<KeptDocument>)
    requires near { AreRight (length documents.old.items) near.now.items }
    requires each { length those.items ≡ length near.now.items }
    ensures { documents.new.items ≡ set_each documents.old.items near.now.items those.items }
{
    let mut those = those;
    for (at, number) in near.iter().enumerate() {
        mem::swap(&mut documents[*number], &mut those[at]);
    }
}

// What is kept around the template in the file of this name.
fn around_in<'d>(documents: &'d Vec<KeptDocument>, name: &str) -> Option<&'d Surroundings>
    requires { AreInOrder (map (λ d. d.file) (map around_file documents.now.items)) }
    ensures { option_map (λ a. kept_view a.now) result
        ≡ around_named name.now (map around_file documents.now.items) }
{
    match documents.binary_search_by(|document| document.file.as_str().cmp(name)) {
        Ok(number) => Some(&documents[number].around),
        Err(_) => None,
    }
}

// The documents that are there, below the root.
fn all_below<'w>(
    alloc: Global,
    root: &str,
    documents: &Documents,
    all: &'w Vec<Judged>,
) -> Result<Vec<&'w Judged>, AllocError>
    ensures { IfOk result (λ v. map (λ j. j.now) v.items
        ≡ documents_below root.now documents.now all.now.items) }
{
    let mut below = Vec::new(alloc);
    for judged in all {
        if is_below(root, documents, judged) {
            below.push(judged)?;
        }
    }
    Ok(below)
}

fn is_below(root: &str, documents: &Documents, judged: &Judged) -> bool
    ensures { result ≡ is_below root.now documents.now judged.now }
{
    name_below(root, judged.template.file.as_str()).is_some() && is_there(documents, judged)
}

// Whether the document is there: one that is gone has the empty text.
fn is_there(documents: &Documents, judged: &Judged) -> bool
    ensures { result ≡ is_there documents.now judged.now }
{
    !judged.text.as_str().is_empty() || documents.text(judged.template.file.as_str()).is_some()
}

/// The name of the template in a file: its path below the root of a site, if it is there.
pub fn name_below<'f>(root: &str, file: &'f str) -> Option<&'f str>
    ensures { option_map (λ n. n.now) result ≡ name_below root.now file.now }
{
    let path = file.strip_prefix(root)?;
    path.strip_prefix("/")
}

// Whether what the template of the document says is what is kept.
pub(crate) fn is_kept(kept: &KeptDocument, judged: &Judged) -> bool
    ensures { result ≡ true → said_of kept.now ≡ said_in judged.now }
{
    kept.file == judged.template.file && same_page(&kept.page, &judged.page)
}

// What is to be kept of the documents of a site: of each what its template says, and what is around that; and the names
// that no template has.
pub(crate) fn kept_of(
    alloc: Global,
    root: &str,
    others: &BTreeSet<String>,
    below: &Vec<&Judged>,
) -> Result<(Vec<KeptDocument>, Vec<String>), AllocError>
    ensures said { IfOk result (λ kept.
        map said_of kept.0.items ≡ map said_in (map (λ j. j.now) below.now.items)) }
    ensures kept { IfOk result (λ kept. IsKeptOf (record {
      root = root.now;
      others = names_in others.now;
      lacking = map string_bytes kept.1.items;
      documents = map around_file kept.0.items;
    })
        (map said_in (map (λ j. j.now) below.now.items))) }
{
    let names = names_of(alloc, root, below)?;
    let pages = pages_of(alloc, below)?;
    let site = Site::of_pages(alloc, &names, others, &pages)?;
    let documents = documents_of(alloc, &site, &pages, below)?;
    let lacking = lacking_of(alloc, &site, &pages)?;
    Ok((documents, lacking))
}

fn names_of(
    alloc: Global,
    root: &str,
    below: &Vec<&Judged>,
) -> Result<Vec<Option<String>>, AllocError>
    ensures { IfOk result (λ v. map name_view v.items
        ≡ map (λ j. name_below root.now (name_of j.now)) below.now.items) }
{
    let mut names = Vec::new(alloc);
    for judged in below {
        names.push(name_of(alloc, root, judged)?)?;
    }
    Ok(names)
}

fn name_of(alloc: Global, root: &str, judged: &Judged) -> Result<Option<String>, AllocError>
    ensures { IfOk result (λ n. name_view n ≡ name_below root.now (name_of judged.now)) }
{
    match name_below(root, judged.template.file.as_str()) {
        Some(name) => Ok(Some(String::from_str(alloc, name)?)),
        None => Ok(None),
    }
}

fn pages_of<'w>(alloc: Global, below: &Vec<&'w Judged>) -> Result<Vec<Page<'w>>, AllocError>
    ensures { IfOk result (λ v. map page_view v.items
        ≡ map (λ j. kept_page j.now.page) below.now.items) }
{
    let mut pages = Vec::new(alloc);
    for judged in below {
        pages.push(judged.page.page(alloc)?)?;
    }
    Ok(pages)
}

// What is to be kept of each document.
fn documents_of(
    alloc: Global,
    site: &Site<'_>,
    pages: &Vec<Page<'_>>,
    below: &Vec<&Judged>,
) -> Result<Vec<KeptDocument>, AllocError>
    requires { map page_view pages.now.items ≡ map (λ j. kept_page j.now.page) below.now.items }
    ensures said { IfOk result (λ v.
        map said_of v.items ≡ map said_in (map (λ j. j.now) below.now.items)) }
    ensures around { IfOk result (λ v. (number : ℕ) (d : KeptDocument) → slice_get v.items number ≡ Some d →
        kept_around d.around ≡ on_page (kept_page d.page) (around_in site.now number)) }
{
    let mut documents = Vec::new(alloc);
    for (number, judged) in below.iter().enumerate() {
        documents.push(document_of(alloc, site.around(number), &pages[number], judged)?)?;
    }
    Ok(documents)
}

fn document_of(
    alloc: Global,
    around: Around<'_, '_>,
    page: &Page<'_>,
    judged: &Judged,
) -> Result<KeptDocument, AllocError>
    ensures file { IfOk result (λ d. string_bytes d.file ≡ name_of judged.now) }
    ensures page { IfOk result (λ d. kept_page d.page ≡ page_view page.now) }
    ensures around { IfOk result (λ d.
        kept_around d.around ≡ on_page (page_view page.now) (around_view around.entry)) }
{
    Ok(KeptDocument {
        file: judged.template.file.clone()?,
        page: KeptPage::of_page(alloc, page)?,
        around: Surroundings::of(alloc, around, page)?,
    })
}

// The names that the templates of these pages use, and that no template has.
fn lacking_of(
    alloc: Global,
    site: &Site<'_>,
    pages: &Vec<Page<'_>>,
) -> Result<Vec<String>, AllocError>
    ensures { IfOk result (λ v. map string_bytes v.items
        ≡ filter (lacks_name site.now) (flat_map used_names (map page_view pages.now.items))) }
{
    let mut lacking = Vec::new(alloc);
    for page in pages {
        push_lacking(&mut lacking, alloc, site, &page.used_names(alloc)?)?;
    }
    Ok(lacking)
}

fn push_lacking(
    lacking: &mut Vec<String>,
    alloc: Global,
    site: &Site<'_>,
    names: &Vec<&str>,
) -> Result<(), AllocError>
    ensures { OnOk result (map string_bytes lacking.new.items ≡ map string_bytes lacking.old.items
        ++ filter (lacks_name site.now) (names_of names.now.items)) }
{
    for name in names {
        if !site.has(name) {
            lacking.push(String::from_str(alloc, name)?)?;
        }
    }
    Ok(())
}

// The files of the documents that are in one of these only, or around whose templates something else is afterwards. Both
// are in the order of the files.
fn renewed(
    alloc: Global,
    before: &Vec<KeptDocument>,
    after: &Vec<KeptDocument>,
) -> Result<Vec<String>, AllocError>
    requires before { AreInOrder (map (λ d. d.file) (map around_file before.now.items)) }
    requires after { AreInOrder (map (λ d. d.file) (map around_file after.now.items)) }
    ensures { IfOk result (λ v. AreRenewed (map string_bytes v.items)
        (map around_file before.now.items) (map around_file after.now.items)) }
{
    let mut files = Vec::new(alloc);
    let mut older = before.as_slice();
    let mut newer = after.as_slice();
    'files: while are_left(older, newer) {
        let (older_left, newer_left) = put_first(&mut files, older, newer)?;
        older = older_left;
        newer = newer_left;
    }
    Ok(files)
}

fn are_left(older: &[KeptDocument], newer: &[KeptDocument]) -> bool
    ensures { Decides result (0 < length older.now + length newer.now) }
{
    !older.is_empty() || !newer.is_empty()
}

// Puts the first of the files if only one of these has it, or if something else is around its template. Gives what is
// left of both.
fn put_first<'d>(
    files: &mut Vec<String>,
    older: &'d [KeptDocument],
    newer: &'d [KeptDocument],
) -> Result<(&'d [KeptDocument], &'d [KeptDocument]), AllocError>
    requires { 0 < length older.now + length newer.now }
    ensures smaller { IfOk result (λ left.
        length left.0.now + length left.1.now < length older.now + length newer.now) }
    ensures put { IfOk result (λ left. (names : List (List ℕ)) →
        Renews (map around_file left.0.now) (map around_file left.1.now) names →
        (all : List (List ℕ)) × Renews (map around_file older.now) (map around_file newer.now) all
        × (map string_bytes files.new.items ++ names ≡ map string_bytes files.old.items ++ all)) }
{
    match order_of(older, newer) {
        Ordering::Less => Ok((put_file(files, older)?, newer)),
        Ordering::Greater => Ok((older, put_file(files, newer)?)),
        Ordering::Equal => {
            if same_surroundings(&older[0].around, &newer[0].around) {
                Ok((&older[1..], &newer[1..]))
            } else {
                Ok((&older[1..], put_file(files, newer)?))
            }
        }
    }
}

// Which of these has the first file.
fn order_of(older: &[KeptDocument], newer: &[KeptDocument]) -> Ordering
    ensures { result ≡ order_of (map around_file older.now) (map around_file newer.now) }
{
    match (older.first(), newer.first()) {
        (Some(one), Some(other)) => one.file.as_str().cmp(other.file.as_str()),
        (Some(_), None) => Ordering::Less,
        (None, Some(_)) => Ordering::Greater,
        (None, None) => Ordering::Equal,
    }
}

// Puts the file of the first of these, and gives what is left.
fn put_file<'d>(
    files: &mut Vec<String>,
    documents: &'d [KeptDocument],
) -> Result<&'d [KeptDocument], AllocError>
    requires { 0 < length documents.now }
    ensures { IfOk result (λ left. (first : KeptDocument) × (documents.now ≡ first ∷ left.now)
        × (map string_bytes files.new.items ≡ map string_bytes files.old.items ++ string_bytes first.file ∷ [])) }
{
    files.push(documents[0].file.clone()?)?;
    Ok(&documents[1..])
}
