//! The templates of a site by their names, and what is around each.

ghost use Rattle.std.specs.Prelude.{◌≡◌, ◌++◌, ℕ, List, bytes_eq, cond, map, Some, IfOk, OnOk};
ghost use Rattle.tera_ast.specs.View.{name_view};
ghost use Rattle.tera_site.specs.Sites.{if_any, is_name, number_from, numbers_by, parent_names, used_names};
ghost use Rattle.tera_site.specs.Views.{names_of, page_view, under_name};

use crate::above::{Names, all_inherited};
use crate::kept::Surroundings;
use crate::pages::{Page, pages_of};
use link_groups::{groups_of, leads_back, on_circles};
use std::alloc::{AllocError, Global};
use std::collections::{BTreeMap, BTreeSet};
use tera_check::Template;

/// For each name the number of the first template that has it.
type Numbers<'a> = BTreeMap<&'a str, usize>;

/// The templates of a site by their names, and what is known around each.
#[derive(Drop)]
pub struct Site<'a> {
    numbers: Numbers<'a>,
    /// The names of templates that are in the site and were not read.
    others: &'a BTreeSet<String>,
    /// Whether what a template extends leads back to it, by the numbers of the templates.
    circular: Vec<bool>,
    /// For each template the number of its group, by what templates extend and include: the templates of a group lead
    /// to each other.
    groups: Vec<usize>,
    /// For each template those of its blocks that a template that it extends has; `None` if not all of these are known.
    inherited: Vec<Option<Names<'a>>>,
}

/// What is known around a template, by the names that it uses.
#[derive(Clone, Copy)]
pub enum Around<'s, 'a> {
    /// Around the template of this number in the site.
    In(&'s Site<'a>, usize),
    /// What was kept of that for a template.
    Kept(&'s Surroundings),
}

impl<'a> Site<'a> {
    ghost use Rattle.std.specs.Prelude.{◌≡◌, ℕ, IfOk, map};
    ghost use Rattle.std.specs.BTreeSet.{contains_text};
    ghost use Rattle.tera_ast.specs.View.{name_view};
    ghost use Rattle.tera_site.specs.Named.{lacks};
    ghost use Rattle.tera_site.specs.Sites.{IsSite, IsSiteOf};
    ghost use Rattle.tera_site.specs.Views.{around_in, around_view, page_view};

    /// The site of these templates. The names are in the order of the templates; a template whose name is not known has
    /// none. If several have one name, it is the first. `others` are templates of the site that were not read.
    pub fn of(
        alloc: Global,
        names: &'a Vec<Option<String>>,
        others: &'a BTreeSet<String>,
        templates: &'a Vec<Template>,
    ) -> Result<Site<'a>, AllocError>
        ensures { IfOk result (λ s. IsSite (map name_view names.now.items) (contains_text others.now)
            templates.now.items (around_in s)) }
    {
        let pages = pages_of(alloc, templates)?;
        Site::of_pages(alloc, names, others, &pages)
    }

    /// The same for the pages of templates.
    pub fn of_pages(
        alloc: Global,
        names: &'a Vec<Option<String>>,
        others: &'a BTreeSet<String>,
        pages: &Vec<Page<'a>>,
    ) -> Result<Site<'a>, AllocError>
        ensures { IfOk result (λ s. IsSiteOf (map name_view names.now.items) (contains_text others.now)
            (map page_view pages.now.items) (around_in s)) }
    {
        let numbers = numbers_of(alloc, names)?;
        let parents = all_parents(alloc, &numbers, pages)?;
        let leads = all_leads(alloc, &numbers, pages)?;
        Ok(Site {
            circular: on_circles(alloc, &parents)?,
            groups: groups_of(alloc, &leads)?,
            inherited: all_inherited(alloc, pages, &parents)?,
            numbers,
            others,
        })
    }

    /// Whether there is a template of this name.
    pub fn has(&self, name: &str) -> bool
        ensures { (number : ℕ) → result ≡ (around_in self.now number).has name.now }
    {
        self.numbers.contains_key(name) || self.others.contains(name)
    }

    fn extends_itself(&self, number: usize) -> bool
        ensures { result ≡ (around_in self.now number).extends_itself }
    {
        matches!(self.circular.get(number), Some(true))
    }

    fn comes_back(&self, name: &str, number: usize) -> bool
        ensures { result ≡ (around_in self.now number).comes_back name.now }
    {
        match self.numbers.get(name) {
            Some(other) => leads_back(&self.groups, *other, number),
            None => false,
        }
    }

    fn lacks(&self, block: &str, number: usize) -> bool
        ensures { result ≡ lacks (around_in self.now number) block.now }
    {
        match self.inherited.get(number) {
            Some(Some(blocks)) => !blocks.contains(block),
            _ => false,
        }
    }

    /// What is known around the template of this number.
    pub fn around<'s>(&'s self, number: usize) -> Around<'s, 'a>
        ensures { around_view result ≡ around_in self.now number }
    {
        Around::In(self, number)
    }
}

impl<'s, 'a> Around<'s, 'a> {
    ghost use Rattle.std.specs.Prelude.{◌≡◌};
    ghost use Rattle.tera_site.specs.Named.{lacks};
    ghost use Rattle.tera_site.specs.Views.{around_view};

    /// Whether there is a template of this name.
    pub(crate) fn has(&self, name: &str) -> bool
        ensures { result ≡ (around_view self.now).has name.now }
    {
        match self {
            Around::In(site, _) => site.has(name),
            Around::Kept(kept) => kept.has(name),
        }
    }

    /// Whether what the template extends leads back to it.
    pub(crate) fn extends_itself(&self) -> bool
        ensures { result ≡ (around_view self.now).extends_itself }
    {
        match self {
            Around::In(site, number) => site.extends_itself(*number),
            Around::Kept(kept) => kept.extends_itself(),
        }
    }

    /// Whether the template of this name, which it includes, leads back to it.
    pub(crate) fn comes_back(&self, name: &str) -> bool
        ensures { result ≡ (around_view self.now).comes_back name.now }
    {
        match self {
            Around::In(site, number) => site.comes_back(name, *number),
            Around::Kept(kept) => kept.comes_back(name),
        }
    }

    /// Whether it is known that no template that it extends has this block, which it has.
    pub(crate) fn lacks(&self, block: &str) -> bool
        ensures { result ≡ lacks (around_view self.now) block.now }
    {
        match self {
            Around::In(site, number) => site.lacks(block, *number),
            Around::Kept(kept) => kept.lacks(block),
        }
    }
}

// The number of the first template of each name, by the names of all in order.
fn numbers_of<'a>(alloc: Global, names: &'a Vec<Option<String>>) -> Result<Numbers<'a>, AllocError>
    ensures { IfOk result (λ m. (n : List ℕ) →
        under_name m n ≡ number_from 0 (map name_view names.now.items) n) }
{
    let mut numbers = BTreeMap::new(alloc);
    let mut left = names.as_slice();
    'names: while let Some((name, before)) = left.split_last() {
        put_number(&mut numbers, name, before.len())?;
        left = before;
    }
    Ok(numbers)
}

fn put_number<'a>(
    numbers: &mut Numbers<'a>,
    name: &'a Option<String>,
    number: usize,
) -> Result<(), AllocError>
    ensures { OnOk result ((n : List ℕ) → under_name numbers.new n
        ≡ cond (is_name (name_view name.now) n) (Some number) (under_name numbers.old n)) }
{
    match name {
        Some(name) => put_named(numbers, name.as_str(), number),
        None => Ok(()),
    }
}

fn put_named<'a>(numbers: &mut Numbers<'a>, name: &'a str, number: usize) -> Result<(), AllocError>
    ensures { OnOk result ((n : List ℕ) → under_name numbers.new n
        ≡ cond (bytes_eq name.now n) (Some number) (under_name numbers.old n)) }
{
    numbers.insert(name, number)?;
    Ok(())
}

// For each page the number of the template that it extends, if that is known.
fn all_parents(
    alloc: Global,
    numbers: &Numbers<'_>,
    pages: &Vec<Page<'_>>,
) -> Result<Vec<Vec<usize>>, AllocError>
    ensures { IfOk result (λ v. map (λ l. l.items) v.items
        ≡ map (λ p. numbers_by (under_name numbers.now) (parent_names p)) (map page_view pages.now.items)) }
{
    let mut parents = Vec::new(alloc);
    for page in pages {
        parents.push(parent_links(alloc, numbers, page)?)?;
    }
    Ok(parents)
}

// For each page the numbers of the templates that it extends and includes, as far as they are known.
fn all_leads(
    alloc: Global,
    numbers: &Numbers<'_>,
    pages: &Vec<Page<'_>>,
) -> Result<Vec<Vec<usize>>, AllocError>
    ensures { IfOk result (λ v. map (λ l. l.items) v.items
        ≡ map (λ p. numbers_by (under_name numbers.now) (used_names p)) (map page_view pages.now.items)) }
{
    let mut leads = Vec::new(alloc);
    for page in pages {
        leads.push(links(alloc, numbers, page)?)?;
    }
    Ok(leads)
}

fn parent_links(
    alloc: Global,
    numbers: &Numbers<'_>,
    page: &Page<'_>,
) -> Result<Vec<usize>, AllocError>
    ensures { IfOk result (λ v. v.items
        ≡ numbers_by (under_name numbers.now) (parent_names (page_view page.now))) }
{
    let mut links = Vec::new(alloc);
    if let Some(parent) = page.parent {
        push_number(&mut links, numbers, parent)?;
    }
    Ok(links)
}

fn links(alloc: Global, numbers: &Numbers<'_>, page: &Page<'_>) -> Result<Vec<usize>, AllocError>
    ensures { IfOk result (λ v. v.items
        ≡ numbers_by (under_name numbers.now) (used_names (page_view page.now))) }
{
    let mut links = parent_links(alloc, numbers, page)?;
    push_numbers(&mut links, numbers, &page.includes)?;
    Ok(links)
}

fn push_numbers(
    links: &mut Vec<usize>,
    numbers: &Numbers<'_>,
    names: &Vec<&str>,
) -> Result<(), AllocError>
    ensures { OnOk result (links.new.items ≡ links.old.items
        ++ numbers_by (under_name numbers.now) (names_of names.now.items)) }
{
    for name in names {
        push_number(links, numbers, name)?;
    }
    Ok(())
}

fn push_number(links: &mut Vec<usize>, numbers: &Numbers<'_>, name: &str) -> Result<(), AllocError>
    ensures { OnOk result (links.new.items ≡ links.old.items
        ++ if_any (under_name numbers.now name.now)) }
{
    if let Some(number) = numbers.get(name) {
        links.push(*number)?;
    }
    Ok(())
}
