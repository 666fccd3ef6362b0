//! Things that are on circles, by the groups of all.

ghost use Rattle.std.specs.Prelude.{◌≡◌, ◌↔◌, ℕ, List, IfOk, IsTrue, map, slice_get};
ghost use Rattle.std.specs.List.{Contains};
ghost use Rattle.link_groups.specs.Groups.{AreGroups, AreOnCircles, IsOnCircle, Reaches, is_one_group, links_at};

use crate::groups::groups_of;
use std::alloc::{AllocError, Global};

/// Of each thing whether it is on a circle: one that it links to leads back to it.
pub fn on_circles(alloc: Global, links: &[Vec<usize>]) -> Result<Vec<bool>, AllocError>
    ensures { IfOk result (λ v. AreOnCircles (map (λ l. l.items) links.now) v.items) }
{
    let groups = groups_of(alloc, links)?;
    let mut on = Vec::new(alloc);
    for (thing, own) in links.iter().enumerate() {
        on.push(is_on_circle(&groups, thing, own))?;
    }
    Ok(on)
}

/// Whether a thing leads back to one that links to it, by the groups of all.
pub fn leads_back(groups: &Vec<usize>, from: usize, to: usize) -> bool
    ensures same { result ≡ is_one_group groups.now.items from to }
    ensures back { (links : List (List ℕ)) → AreGroups links groups.now.items →
        Contains (links_at links to) from → IsTrue result ↔ Reaches links from to }
{
    is_one_group(groups, from, to)
}

// Whether one of these, which are the links of the thing, leads back to it.
fn is_on_circle(groups: &Vec<usize>, thing: usize, links: &Vec<usize>) -> bool
    ensures { (all : List (List ℕ)) → AreGroups all groups.now.items →
        links_at all thing ≡ links.now.items → IsTrue result ↔ IsOnCircle all thing }
{
    for other in links {
        if leads_back(groups, *other, thing) {
            return true;
        }
    }
    false
}

fn is_one_group(groups: &Vec<usize>, one: usize, other: usize) -> bool
    ensures { result ≡ is_one_group groups.now.items one other }
{
    let Some(one) = group_at(groups, one) else {
        return false;
    };
    let Some(other) = group_at(groups, other) else {
        return false;
    };
    one == other
}

fn group_at(groups: &Vec<usize>, thing: usize) -> Option<usize>
    ensures { result ≡ slice_get groups.now.items thing }
{
    groups.get(thing).copied()
}
