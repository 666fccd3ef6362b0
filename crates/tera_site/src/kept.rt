//! What is kept of a template apart from its tree and its site: what it says of others, and what is around it.

ghost use Rattle.std.specs.Prelude.{◌≡◌, ◌&&◌, ◌||◌, ◌++◌, ◌∷◌, [], ℕ, List, map, string_bytes, IfOk, OnOk};
ghost use Rattle.std.specs.Option.{option_map};
ghost use Rattle.std.specs.Str.{bytes_eq};
ghost use Rattle.tera_ast.specs.View.{name_view};
ghost use Rattle.tera_site.specs.Kept.{is_one_of, kept_around, kept_page, names_in, names_missing, on_page};
ghost use Rattle.tera_site.specs.Named.{lacks};
ghost use Rattle.tera_site.specs.Pages.{page_of};
ghost use Rattle.tera_site.specs.Sites.{is_name, used_names};
ghost use Rattle.tera_site.specs.Views.{around_view, names_of, page_view};

use crate::pages::{Page, page_of};
use crate::site::Around;
use std::alloc::{AllocError, Global};
use std::collections::BTreeSet;
use tera_check::Template;

/// What a template says of others, and the blocks that it has.
#[derive(Debug, Drop, PartialEq, Eq)]
pub struct KeptPage {
    pub(crate) parent: Option<String>,
    includes: Vec<String>,
    pub(crate) blocks: Vec<String>,
    pub(crate) is_whole: bool,
}

/// What is around a template, under the names that it uses and those of its blocks.
#[derive(Debug, Drop, PartialEq, Eq)]
pub struct Surroundings {
    /// The names that it uses and that templates have.
    there: BTreeSet<String>,
    /// The names that it includes and whose templates lead back to it.
    back: BTreeSet<String>,
    extends_itself: bool,
    /// Its blocks that none of the templates that it extends has.
    lacking: BTreeSet<String>,
}

impl KeptPage {
    /// What the template says.
    pub fn of(alloc: Global, template: &Template) -> Result<KeptPage, AllocError>
        ensures { IfOk result (λ p. kept_page p ≡ page_of template.now) }
    {
        let page = page_of(alloc, template)?;
        KeptPage::of_page(alloc, &page)
    }

    /// The same of its page.
    pub fn of_page(alloc: Global, page: &Page<'_>) -> Result<KeptPage, AllocError>
        ensures { IfOk result (λ p. kept_page p ≡ page_view page.now) }
    {
        Ok(KeptPage {
            parent: copy_of(alloc, page.parent)?,
            includes: copies_of(alloc, &page.includes)?,
            blocks: copies_of(alloc, &page.blocks)?,
            is_whole: page.is_whole,
        })
    }

    /// The page, in the form of those of a site.
    pub fn page(&self, alloc: Global) -> Result<Page<'_>, AllocError>
        ensures { IfOk result (λ p. page_view p ≡ kept_page self.now) }
    {
        Ok(Page {
            parent: text_of(&self.parent),
            includes: texts_of(alloc, &self.includes)?,
            blocks: texts_of(alloc, &self.blocks)?,
            is_whole: self.is_whole,
        })
    }

    /// The name of the template that it extends, if it extends one.
    pub fn parent(&self) -> Option<&str>
        ensures { option_map (λ t. t.now) result ≡ (kept_page self.now).parent }
    {
        text_of(&self.parent)
    }

    /// Whether the template extends the one of this name.
    pub fn extends(&self, name: &str) -> bool
        ensures { result ≡ is_name (kept_page self.now).parent name.now }
    {
        match &self.parent {
            Some(parent) => parent.as_str() == name,
            None => false,
        }
    }

    /// Adds those of the names that it uses that no template has, by what is kept of what is around it.
    pub fn push_lacking(
        &self,
        alloc: Global,
        around: &Surroundings,
        lacking: &mut Vec<String>,
    ) -> Result<(), AllocError>
        ensures { OnOk result (map string_bytes lacking.new.items ≡ map string_bytes lacking.old.items
            ++ names_missing (kept_around around.now) (used_names (kept_page self.now))) }
    {
        if let Some(parent) = &self.parent {
            push_if_lacking(alloc, around, lacking, parent.as_str())?;
        }
        push_all_lacking(alloc, around, lacking, &self.includes)
    }
}

impl Surroundings {
    /// What is around the template of this page, as far as it makes a difference to what is found of its names.
    pub fn of(
        alloc: Global,
        around: Around<'_, '_>,
        page: &Page<'_>,
    ) -> Result<Surroundings, AllocError>
        ensures { IfOk result (λ s. kept_around s ≡ on_page (page_view page.now) (around_view around.entry)) }
    {
        let used = page.used_names(alloc)?;
        let there = those_there(alloc, around, &used)?;
        let back = those_back(alloc, around, &page.includes)?;
        let lacking = those_lacking(alloc, around, &page.blocks)?;
        Ok(Surroundings {
            there,
            back,
            extends_itself: around.extends_itself(),
            lacking,
        })
    }

    pub(crate) fn has(&self, name: &str) -> bool
        ensures { result ≡ (kept_around self.now).has name.now }
    {
        self.there.contains(name)
    }

    pub(crate) fn extends_itself(&self) -> bool
        ensures { result ≡ (kept_around self.now).extends_itself }
    {
        self.extends_itself
    }

    pub(crate) fn comes_back(&self, name: &str) -> bool
        ensures { result ≡ (kept_around self.now).comes_back name.now }
    {
        self.back.contains(name)
    }

    pub(crate) fn lacks(&self, block: &str) -> bool
        ensures { result ≡ lacks (kept_around self.now) block.now }
    {
        self.lacking.contains(block)
    }
}

// Adds those of the names that no template has.
fn push_all_lacking(
    alloc: Global,
    around: &Surroundings,
    lacking: &mut Vec<String>,
    names: &Vec<String>,
) -> Result<(), AllocError>
    ensures { OnOk result (map string_bytes lacking.new.items ≡ map string_bytes lacking.old.items
        ++ names_missing (kept_around around.now) (map string_bytes names.now.items)) }
{
    for name in names {
        push_if_lacking(alloc, around, lacking, name.as_str())?;
    }
    Ok(())
}

// Adds the name, if no template has it.
fn push_if_lacking(
    alloc: Global,
    around: &Surroundings,
    lacking: &mut Vec<String>,
    name: &str,
) -> Result<(), AllocError>
    ensures { OnOk result (map string_bytes lacking.new.items ≡ map string_bytes lacking.old.items
        ++ names_missing (kept_around around.now) (name.now ∷ [])) }
{
    if !around.has(name) {
        lacking.push(String::from_str(alloc, name)?)?;
    }
    Ok(())
}

// The names among these that templates have.
fn those_there(
    alloc: Global,
    around: Around<'_, '_>,
    names: &Vec<&str>,
) -> Result<BTreeSet<String>, AllocError>
    ensures { IfOk result (λ s. (n : List ℕ) → is_one_of (names_in s) n
        ≡ (is_one_of (names_of names.now.items) n && (around_view around.entry).has n)) }
{
    let mut there = BTreeSet::new(alloc);
    for name in names {
        put_if(alloc, around.has(name), &mut there, name)?;
    }
    Ok(there)
}

// The names among these whose templates lead back.
fn those_back(
    alloc: Global,
    around: Around<'_, '_>,
    names: &Vec<&str>,
) -> Result<BTreeSet<String>, AllocError>
    ensures { IfOk result (λ s. (n : List ℕ) → is_one_of (names_in s) n
        ≡ (is_one_of (names_of names.now.items) n && (around_view around.entry).comes_back n)) }
{
    let mut back = BTreeSet::new(alloc);
    for name in names {
        put_if(alloc, around.comes_back(name), &mut back, name)?;
    }
    Ok(back)
}

// The blocks among these that are lacking.
fn those_lacking(
    alloc: Global,
    around: Around<'_, '_>,
    blocks: &Vec<&str>,
) -> Result<BTreeSet<String>, AllocError>
    ensures { IfOk result (λ s. (n : List ℕ) → is_one_of (names_in s) n
        ≡ (is_one_of (names_of blocks.now.items) n && lacks (around_view around.entry) n)) }
{
    let mut lacking = BTreeSet::new(alloc);
    for block in blocks {
        put_if(alloc, around.lacks(block), &mut lacking, block)?;
    }
    Ok(lacking)
}

// Puts the name, if `is_so`.
fn put_if(
    alloc: Global,
    is_so: bool,
    names: &mut BTreeSet<String>,
    name: &str,
) -> Result<(), AllocError>
    ensures { OnOk result ((n : List ℕ) → is_one_of (names_in names.new) n
        ≡ (is_one_of (names_in names.old) n || (bytes_eq n name.now && is_so))) }
{
    if !is_so {
        return Ok(());
    }
    names.insert(String::from_str(alloc, name)?)?;
    Ok(())
}

fn copy_of(alloc: Global, text: Option<&str>) -> Result<Option<String>, AllocError>
    ensures { IfOk result (λ copy. name_view copy ≡ option_map (λ t. t.now) text.entry) }
{
    match text {
        Some(text) => Ok(Some(String::from_str(alloc, text)?)),
        None => Ok(None),
    }
}

fn copies_of(alloc: Global, texts: &Vec<&str>) -> Result<Vec<String>, AllocError>
    ensures { IfOk result (λ copies. map string_bytes copies.items ≡ names_of texts.now.items) }
{
    let mut copies = Vec::new(alloc);
    for text in texts {
        copies.push(String::from_str(alloc, text)?)?;
    }
    Ok(copies)
}

fn text_of(text: &Option<String>) -> Option<&str>
    ensures { option_map (λ t. t.now) result ≡ name_view text.now }
{
    match text {
        Some(text) => Some(text.as_str()),
        None => None,
    }
}

fn texts_of(alloc: Global, strings: &Vec<String>) -> Result<Vec<&str>, AllocError>
    ensures { IfOk result (λ texts. names_of texts.items ≡ map string_bytes strings.now.items) }
{
    let mut texts = Vec::new(alloc);
    for text in strings {
        texts.push(text.as_str())?;
    }
    Ok(texts)
}
