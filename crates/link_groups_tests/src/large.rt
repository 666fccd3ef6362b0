//! Many things, in linear time.

use link_groups::{groups_of, on_circles, reversed};
use std::alloc::{AllocError, Global};
use std::collections::BTreeSet;
use std::test::Fail;

const THINGS: usize = 10_000;

// From each thing to the next.
fn chain(alloc: Global) -> Result<Vec<Vec<usize>>, AllocError> {
    let mut links = Vec::new(alloc);
    for thing in 1..=THINGS {
        let mut own = Vec::new(alloc);
        own.push(thing)?;
        links.push(own)?;
    }
    Ok(links)
}

#[test]
fn each_of_a_chain_is_alone(rt: HostRuntime) -> Result<(), Fail> {
    let groups = groups_of(rt.alloc(), &chain(rt.alloc())?)?;
    let mut met = BTreeSet::new(rt.alloc());
    for group in groups {
        met.insert(group)?;
    }
    assert_eq!(&rt; met.len(), THINGS);
    Ok(())
}

#[test]
fn a_circle_is_one_group(rt: HostRuntime) -> Result<(), Fail> {
    let mut links = chain(rt.alloc())?;
    if let Some(last) = links.last_mut() {
        last.push(0)?;
    }
    let groups = groups_of(rt.alloc(), &links)?;
    assert!(rt; groups.iter().all(|group| Some(group) == groups.first()));
    let on = on_circles(rt.alloc(), &links)?;
    assert!(rt; on.iter().all(|on| *on));
    Ok(())
}

#[test]
fn links_back_to_each_thing_before(rt: HostRuntime) -> Result<(), Fail> {
    let mut links = chain(rt.alloc())?;
    for (thing, own) in links.iter_mut().enumerate() {
        own.push(thing.saturating_sub(1))?;
    }
    let groups = groups_of(rt.alloc(), &links)?;
    assert!(rt; groups.iter().all(|group| Some(group) == groups.first()));
    Ok(())
}

#[test]
fn links_of_all_things_to_one(rt: HostRuntime) -> Result<(), Fail> {
    let mut links = Vec::new(rt.alloc());
    for _thing in 0..THINGS {
        let mut own = Vec::new(rt.alloc());
        own.push(0_usize)?;
        links.push(own)?;
    }
    let on = on_circles(rt.alloc(), &links)?;
    assert_eq!(&rt; on.iter().filter(|on| **on).count(), 1);
    let back = reversed(rt.alloc(), &links)?;
    assert_eq!(&rt; back.first().map(|ends| ends.len()), Some(THINGS));
    Ok(())
}
