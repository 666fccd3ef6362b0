//! The groups of all things.

ghost use Rattle.std.specs.Prelude.{◌≡◌, map, IfOk};
ghost use Rattle.link_groups.specs.Groups.{AreGroups};

use crate::walk::Walk;
use std::alloc::{AllocError, Global};

/// Of each thing the number of its group, by the links of each to others. Things are in one group exactly if each is
/// reached from the other. What a link leads to may be no thing. More things or links than a `u64` counts, which no memory
/// holds, are answered as an allocation failure.
pub fn groups_of(alloc: Global, links: &[Vec<usize>]) -> Result<Vec<usize>, AllocError>
    ensures { IfOk result (λ v. AreGroups (map (λ l. l.items) links.now) v.items) }
{
    let mut walk = Walk::new(alloc, links)?;
    for thing in 0..links.len() {
        walk.open_if_new(alloc, thing)?;
        walk.close_all(alloc)?;
    }
    walk.groups(alloc)
}
