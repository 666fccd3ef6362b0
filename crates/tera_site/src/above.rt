//! The blocks of the templates above a template: those that it extends, directly or not.
//!
//! Each way leads down from a template that extends none to those that extend it. The blocks of the templates on it are
//! counted.

ghost use Rattle.std.specs.Prelude.{◌≡◌, ◌+◌, ◌-◌, ◌++◌, ◌||◌, ◌&&◌, ℕ, List, None, Some, bytes_eq, cond, count_by, map, nat_lt, set, slice_get, slice_index_or, unwrap_or, IfOk, OnOk};
ghost use Rattle.std.specs.List.{list_any};
ghost use Rattle.std.specs.Option.{option_map};
ghost use Rattle.link_groups.specs.Groups.{links_at};
ghost use Rattle.tera_site.specs.Pages.{PageVal};
ghost use Rattle.tera_site.specs.Sites.{AreInherited, SiteVal, parents};
ghost use Rattle.tera_site.specs.Tours.{AreTops, AreTopsTo};
ghost use Rattle.tera_site.specs.Views.{has_name, names_of, page_view, under_name};
ghost use Rattle.tera_site.specs.declared.above.Step.TheVariants.{Enter};

use crate::pages::Page;
use link_groups::reversed;
use std::alloc::{AllocError, Global};
use std::collections::{BTreeMap, BTreeSet};

/// Names of blocks.
pub(crate) type Names<'a> = BTreeSet<&'a str>;

/// How many blocks of each name templates on the way have.
type Counts<'a> = BTreeMap<&'a str, usize>;

/// A step of the way.
#[derive(Clone, Copy, Debug)]
pub(crate) enum Step {
    Enter(usize),
    Leave(usize),
}

/// The way, and what is known of the pages that it led to.
#[derive(Drop)]
pub(crate) struct Tour<'a> {
    /// The steps still to come; the next one is the last.
    steps: Vec<Step>,
    counts: Counts<'a>,
    /// For each page those of its blocks that a page above it has too, if they are known.
    inherited: Vec<Option<Names<'a>>>,
}

/// For each page those of its blocks that a page above it has too. `None` if it or a page above it is not whole, if one
/// of those is not known, or if they have no end.
pub(crate) fn all_inherited<'a>(
    alloc: Global,
    pages: &[Page<'a>],
    links: &[Vec<usize>],
) -> Result<Vec<Option<Names<'a>>>, AllocError>
    ensures { (s : SiteVal) → s.pages ≡ map page_view pages.now →
        map (λ l. l.items) links.now ≡ parents s →
        IfOk result (λ v. (number : ℕ) (p : PageVal) → slice_get s.pages number ≡ Some p →
        AreInherited s p (option_map has_name (slice_index_or v.items number None))) }
{
    let below = reversed(alloc, links)?;
    let mut tour = Tour::new(alloc, pages)?;
    for _step in 0..u64::MAX {
        match tour.steps.pop() {
            Some(step) => tour.take(alloc, pages, &below, step)?,
            None => return Ok(tour.inherited),
        }
    }
    Err(AllocError)
}

impl<'a> Tour<'a> {
    ghost use Rattle.std.specs.Prelude.{◌≡◌, ◌∷◌, ℕ, map, reverse, IfOk, OnOk};
    ghost use Rattle.link_groups.specs.Groups.{AreReversed};
    ghost use Rattle.tera_site.specs.Sites.{SiteVal, parents};
    ghost use Rattle.tera_site.specs.Tours.{IsTour, IsTourOf};
    ghost use Rattle.tera_site.specs.Views.{page_view};
    ghost use Rattle.tera_site.specs.declared.above.Step.TheVariants.{Enter, Leave};

    // Each page that extends none is to be entered.
    fn new(alloc: Global, pages: &[Page<'a>]) -> Result<Tour<'a>, AllocError>
        ensures { (s : SiteVal) → s.pages ≡ map page_view pages.now → IfOk result (IsTour s) }
    {
        Ok(Tour {
            steps: tops(alloc, pages)?,
            counts: BTreeMap::new(alloc),
            inherited: none_known(alloc, pages)?,
        })
    }

    // Takes the next step.
    fn take(
        &mut self,
        alloc: Global,
        pages: &[Page<'a>],
        below: &Vec<Vec<usize>>,
        step: Step,
    ) -> Result<(), AllocError>
        ensures { (s : SiteVal) → s.pages ≡ map page_view pages.now →
            AreReversed (parents s) (map (λ l. l.items) below.now.items) →
            IsTourOf s (step ∷ reverse self.old.steps.items) self.old.counts self.old.inherited.items →
            OnOk result (IsTour s self.new) }
    {
        match step {
            Step::Enter(number) => self.enter(alloc, pages, below, number),
            Step::Leave(number) => self.leave(pages, number),
        }
    }

    // Enters a page, if all of it is known. Those that extend it come next, and then it is left.
    fn enter(
        &mut self,
        alloc: Global,
        pages: &[Page<'a>],
        below: &Vec<Vec<usize>>,
        number: usize,
    ) -> Result<(), AllocError>
        ensures { (s : SiteVal) → s.pages ≡ map page_view pages.now →
            AreReversed (parents s) (map (λ l. l.items) below.now.items) →
            IsTourOf s (Enter number ∷ reverse self.old.steps.items) self.old.counts self.old.inherited.items →
            OnOk result (IsTour s self.new) }
    {
        let Some(page) = pages.get(number) else {
            return Ok(());
        };
        if !page.is_whole {
            return Ok(());
        }
        let own = own(alloc, &page.blocks, &self.counts)?;
        put_known(&mut self.inherited, number, own);
        count(&mut self.counts, &page.blocks)?;
        self.steps.push(Step::Leave(number))?;
        push_below(&mut self.steps, below, number)?;
        Ok(())
    }

    // Leaves a page.
    fn leave(&mut self, pages: &[Page<'a>], number: usize) -> Result<(), AllocError>
        ensures { (s : SiteVal) → s.pages ≡ map page_view pages.now →
            IsTourOf s (Leave number ∷ reverse self.old.steps.items) self.old.counts self.old.inherited.items →
            OnOk result (IsTour s self.new) }
    {
        match pages.get(number) {
            Some(page) => {
                count_no_longer(&mut self.counts, &page.blocks)?;
                Ok(())
            }
            None => Ok(()),
        }
    }
}

// The pages that extend none.
fn tops(alloc: Global, pages: &[Page<'_>]) -> Result<Vec<Step>, AllocError>
    ensures { IfOk result (λ v. AreTops (map page_view pages.now) v.items) }
{
    let mut steps = Vec::new(alloc);
    for (number, page) in pages.iter().enumerate() {
        push_if_top(&mut steps, number, page)?;
    }
    Ok(steps)
}

fn push_if_top(steps: &mut Vec<Step>, number: usize, page: &Page<'_>) -> Result<(), AllocError>
    ensures { (ps : List PageVal) → slice_get ps number ≡ Some (page_view page.now) →
        AreTopsTo ps number steps.old.items →
        OnOk result (AreTopsTo ps (number + 1) steps.new.items) }
{
    match page.parent {
        Some(_) => Ok(()),
        None => {
            steps.push(Step::Enter(number))?;
            Ok(())
        }
    }
}

fn none_known<'a>(alloc: Global, pages: &[Page<'a>]) -> Result<Vec<Option<Names<'a>>>, AllocError>
    ensures { IfOk result (λ v. v.items ≡ map (λ _. None) pages.now) }
{
    let mut known = Vec::new(alloc);
    for _page in pages {
        known.push(None)?;
    }
    Ok(known)
}

fn put_known<'a>(known: &mut Vec<Option<Names<'a>>>, number: usize, own: Names<'a>)
    ensures { known.new.items ≡ set known.old.items number (Some own.entry) }
{
    if let Some(place) = known.get_mut(number) {
        *place = Some(own);
    }
}

// The blocks among these that are counted.
fn own<'a>(
    alloc: Global,
    blocks: &Vec<&'a str>,
    counts: &Counts<'a>,
) -> Result<Names<'a>, AllocError>
    ensures { IfOk result (λ names. (n : List ℕ) → has_name names n
        ≡ (list_any (bytes_eq n) (names_of blocks.now.items)
        && nat_lt 0 (unwrap_or (under_name counts.now n) 0))) }
{
    let mut own = BTreeSet::new(alloc);
    for block in blocks {
        put_counted(&mut own, block, counts)?;
    }
    Ok(own)
}

fn put_counted<'a>(
    own: &mut Names<'a>,
    block: &'a str,
    counts: &Counts<'a>,
) -> Result<(), AllocError>
    ensures { OnOk result ((n : List ℕ) → has_name own.new n
        ≡ (has_name own.old n
        || (bytes_eq n block.now && nat_lt 0 (unwrap_or (under_name counts.now n) 0)))) }
{
    if count_of(counts, block) == 0 {
        return Ok(());
    }
    own.insert(block)?;
    Ok(())
}

fn count_of(counts: &Counts<'_>, block: &str) -> usize
    ensures { result ≡ unwrap_or (under_name counts.now block.now) 0 }
{
    match counts.get(block) {
        Some(count) => *count,
        None => 0,
    }
}

// Counts the blocks.
fn count<'a>(counts: &mut Counts<'a>, blocks: &Vec<&'a str>) -> Result<(), AllocError>
    ensures { OnOk result ((n : List ℕ) → unwrap_or (under_name counts.new n) 0
        ≡ count_by (bytes_eq n) (names_of blocks.now.items) + unwrap_or (under_name counts.old n) 0) }
{
    for block in blocks {
        let Some(more) = count_of(counts, block).checked_add(1) else {
            return Err(AllocError);
        };
        put_count(counts, block, more)?;
    }
    Ok(())
}

// Takes the blocks out of the counts.
fn count_no_longer<'a>(counts: &mut Counts<'a>, blocks: &Vec<&'a str>) -> Result<(), AllocError>
    ensures { OnOk result ((n : List ℕ) → unwrap_or (under_name counts.new n) 0
        ≡ unwrap_or (under_name counts.old n) 0 - count_by (bytes_eq n) (names_of blocks.now.items)) }
{
    for block in blocks {
        let less = count_of(counts, block).saturating_sub(1);
        put_count(counts, block, less)?;
    }
    Ok(())
}

fn put_count<'a>(counts: &mut Counts<'a>, block: &'a str, count: usize) -> Result<(), AllocError>
    ensures { OnOk result ((n : List ℕ) → under_name counts.new n
        ≡ cond (bytes_eq block.now n) (Some count) (under_name counts.old n)) }
{
    counts.insert(block, count)?;
    Ok(())
}

// Puts the pages that extend this one next.
fn push_below(
    steps: &mut Vec<Step>,
    below: &Vec<Vec<usize>>,
    number: usize,
) -> Result<(), AllocError>
    ensures { OnOk result (steps.new.items ≡ steps.old.items
        ++ map Enter (links_at (map (λ l. l.items) below.now.items) number)) }
{
    let children = children_of(below, number);
    for child in children {
        steps.push(Step::Enter(*child))?;
    }
    Ok(())
}

fn children_of(below: &Vec<Vec<usize>>, number: usize) -> &[usize]
    ensures { result.now ≡ links_at (map (λ l. l.items) below.now.items) number }
{
    match below.get(number) {
        Some(children) => children.as_slice(),
        None => &[],
    }
}
