//! Links from their ends to where they begin.

ghost use Rattle.std.specs.Prelude.{◌≡◌, ◌++◌, ◌∷◌, [], IfOk, OnOk, map, set};
ghost use Rattle.link_groups.specs.Ends.{AddsEnds};
ghost use Rattle.link_groups.specs.Groups.{AreReversed, links_at};

use std::alloc::{AllocError, Global};

/// Of each thing those that link to it.
pub fn reversed(alloc: Global, links: &[Vec<usize>]) -> Result<Vec<Vec<usize>>, AllocError>
    ensures { IfOk result (λ v. AreReversed (map (λ l. l.items) links.now) (map (λ l. l.items) v.items)) }
{
    let mut reversed = without_links(alloc, links)?;
    for (thing, own) in links.iter().enumerate() {
        push_ends(&mut reversed, own, thing)?;
    }
    Ok(reversed)
}

// As many things, without links.
fn without_links(alloc: Global, links: &[Vec<usize>]) -> Result<Vec<Vec<usize>>, AllocError>
    ensures { IfOk result (λ v. map (λ l. l.items) v.items ≡ map (λ _. []) links.now) }
{
    let mut without = Vec::new(alloc);
    for _thing in links {
        without.push(Vec::new(alloc))?;
    }
    Ok(without)
}

// Adds a link to the thing from each of these.
fn push_ends(
    reversed: &mut Vec<Vec<usize>>,
    ends: &Vec<usize>,
    thing: usize,
) -> Result<(), AllocError>
    ensures { OnOk result (AddsEnds (map (λ l. l.items) reversed.old.items) ends.now.items thing
        (map (λ l. l.items) reversed.new.items)) }
{
    for end in ends {
        push_end(reversed, *end, thing)?;
    }
    Ok(())
}

fn push_end(reversed: &mut Vec<Vec<usize>>, end: usize, thing: usize) -> Result<(), AllocError>
    ensures { let old = map (λ l. l.items) reversed.old.items in OnOk result
        (map (λ l. l.items) reversed.new.items ≡ set old end (links_at old end ++ thing ∷ [])) }
{
    if let Some(links) = reversed.get_mut(end) {
        links.push(thing)?;
    }
    Ok(())
}
