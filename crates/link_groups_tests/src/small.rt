//! All links between three things, each compared with what is reached from what.

use link_groups::{groups_of, leads_back, on_circles, reversed};
use std::alloc::{AllocError, Global};
use std::test::Fail;

const THINGS: usize = 3;

// Whether the links of this number have one from a thing to another.
fn has_link(number: u32, from: usize, to: usize) -> bool {
    let bit = (from % THINGS) * THINGS + to % THINGS;
    (number >> (bit as u32 % 16)) & 1 == 1
}

fn links_of(alloc: Global, number: u32) -> Result<Vec<Vec<usize>>, AllocError> {
    let mut links = Vec::new(alloc);
    for from in 0..THINGS {
        let mut own = Vec::new(alloc);
        for to in 0..THINGS {
            if has_link(number, from, to) {
                own.push(to)?;
            }
        }
        links.push(own)?;
    }
    Ok(links)
}

// What is reached from each thing in at most so many steps as there are things.
fn reached(number: u32) -> [[bool; THINGS]; THINGS] {
    let mut reached = [[false; THINGS]; THINGS];
    for thing in 0..THINGS {
        reached[thing][thing] = true;
    }
    for _step in 0..THINGS {
        for from in 0..THINGS {
            for middle in 0..THINGS {
                for to in 0..THINGS {
                    if reached[from][middle] && has_link(number, middle, to) {
                        reached[from][to] = true;
                    }
                }
            }
        }
    }
    reached
}

#[test]
fn groups_are_what_is_reached_from_each_other(rt: HostRuntime) -> Result<(), Fail> {
    for number in 0..512_u32 {
        let links = links_of(rt.alloc(), number)?;
        let groups = groups_of(rt.alloc(), &links)?;
        assert_eq!(&rt; groups.len(), THINGS);
        let on = on_circles(rt.alloc(), &links)?;
        let back = reversed(rt.alloc(), &links)?;
        let reached = reached(number);
        for one in 0..THINGS {
            for other in 0..THINGS {
                let both = reached[one][other] && reached[other][one];
                assert!(rt; (groups.get(one) == groups.get(other)) == both, "{number}");
                let is_link = has_link(number, one, other);
                assert!(rt;
                    !is_link || leads_back(&groups, other, one) == reached[other][one],
                    "{number}"
                );
                let ends = back.get(other).map_or(&[][..], |ends| ends.as_slice());
                assert!(rt; ends.contains(&one) == is_link, "{number}");
            }
            let circle = (0..THINGS).any(|to| has_link(number, one, to) && reached[to][one]);
            assert_eq!(&rt; on.get(one).copied(), Some(circle));
        }
    }
    Ok(())
}
