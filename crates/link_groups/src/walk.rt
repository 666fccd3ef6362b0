//! Following links. Things that were met and are in no group are on a path of knots: those of a knot are reached from
//! each other, and from each of them those of the next knot. Where a link leads back to a knot, all from there on are one.
//! A knot whose links were all followed is a group.

ghost use Rattle.std.specs.Prelude.{◌≡◌, ◌∷◌, [], ◌++◌, ℕ, List, MatchOption, map, set, IfOk};
ghost use Rattle.link_groups.specs.Groups.{links_at};
ghost use Rattle.link_groups.specs.Walks.{AreBoth, ArePutIn, group_at, place_at};
ghost use Rattle.link_groups.specs.declared.walk.Place.TheVariants.{New};

use std::alloc::{AllocError, Global};

/// What is known of a thing.
#[derive(Clone, Copy, Debug, PartialEq, Eq)]
pub(crate) enum Place {
    /// It was not met.
    New,
    /// It is in a knot. Things on the path are numbered as they are met.
    Open(usize),
    /// It is in the group of this number.
    Closed(usize),
}

/// Things that are reached from each other, and links from them that were not followed.
#[derive(Drop)]
pub(crate) struct Knot {
    /// The number of the first of them.
    first: usize,
    things: Vec<usize>,
    links: Vec<usize>,
}

/// How far links were followed.
#[derive(Drop)]
pub(crate) struct Walk<'a> {
    links: &'a [Vec<usize>],
    places: Vec<Place>,
    /// The path.
    knots: Vec<Knot>,
    /// How many things are on it.
    opened: usize,
    /// How many groups there are.
    closed: usize,
}

impl<'a> Walk<'a> {
    ghost use Rattle.std.specs.Prelude.{◌≡◌, ◌∷◌, [], ◌++◌, ◌<◌, ℕ, List, true, length, map, reverse, IfOk, OnOk};
    ghost use Rattle.std.specs.List.{Contains};
    ghost use Rattle.link_groups.specs.Groups.{AreGroups, Reaches, links_at};
    ghost use Rattle.link_groups.specs.Walks.{IsWalk, IsWalkOf, MeetsMore, is_followed, place_at};
    ghost use Rattle.link_groups.specs.declared.walk.Place.TheVariants.{New, Open};

    /// No link was followed.
    pub(crate) fn new(alloc: Global, links: &'a [Vec<usize>]) -> Result<Walk<'a>, AllocError>
        ensures walk { IfOk result IsWalk }
        ensures path { IfOk result (λ w. (w.knots.items ≡ []) × (w.links.now ≡ links.now)) }
    {
        Ok(Walk {
            links,
            places: all_new(alloc, links)?,
            knots: Vec::new(alloc),
            opened: 0,
            closed: 0,
        })
    }

    /// Begins a path at the thing, unless it was met.
    pub(crate) fn open_if_new(&mut self, alloc: Global, thing: usize) -> Result<(), AllocError>
        requires walk { IsWalk self.old }
        requires path { self.old.knots.items ≡ [] }
        ensures walk { OnOk result (IsWalk self.new × (self.new.links ≡ self.old.links)) }
        ensures met { OnOk result (MeetsMore self.old.places.items self.new.places.items
            × (place_at self.new.places.items thing ≡ New → ⊥)) }
    {
        match place_of(&self.places, thing) {
            Place::New => self.open(alloc, thing),
            _ => Ok(()),
        }
    }

    /// Follows all links of the path, and of what is met, until all of that is in groups.
    pub(crate) fn close_all(&mut self, alloc: Global) -> Result<(), AllocError>
        requires walk { IsWalk self.old }
        ensures walk { OnOk result (IsWalk self.new × (self.new.links ≡ self.old.links)) }
        ensures path { OnOk result (self.new.knots.items ≡ []) }
        ensures met { OnOk result (MeetsMore self.old.places.items self.new.places.items) }
    {
        for _step in 0..u64::MAX {
            match self.knots.pop() {
                Some(knot) => self.follow(alloc, knot)?,
                None => return Ok(()),
            }
        }
        Err(AllocError)
    }

    /// Of each thing its group, where all are in one.
    pub(crate) fn groups(&self, alloc: Global) -> Result<Vec<usize>, AllocError>
        requires walk { IsWalk self.now }
        requires path { self.now.knots.items ≡ [] }
        requires none { (i : ℕ) → i < length self.now.links.now → place_at self.now.places.items i ≡ New → ⊥ }
        ensures { IfOk result (λ v. AreGroups (map (λ l. l.items) self.now.links.now) v.items) }
    {
        let mut groups = Vec::new(alloc);
        for place in &self.places {
            groups.push(group_at(*place))?;
        }
        Ok(groups)
    }

    // Adds a knot of the thing alone, with all its links.
    fn open(&mut self, alloc: Global, thing: usize) -> Result<(), AllocError>
        requires walk { IsWalk self.old }
        requires new { place_at self.old.places.items thing ≡ New }
        requires from { (i m : ℕ) → place_at self.old.places.items i ≡ Open m →
            Reaches (map (λ l. l.items) self.old.links.now) i thing }
        ensures walk { OnOk result (IsWalk self.new × (self.new.links ≡ self.old.links)) }
        ensures met { OnOk result (MeetsMore self.old.places.items self.new.places.items
            × (place_at self.new.places.items thing ≡ New → ⊥)) }
    {
        let first = self.opened;
        let Some(opened) = first.checked_add(1) else {
            return Err(AllocError);
        };
        let knot = knot_of(alloc, first, thing, links_of(alloc, self.links, thing)?)?;
        put_place(&mut self.places, thing, Place::Open(first));
        self.opened = opened;
        self.knots.push(knot)?;
        Ok(())
    }

    // Follows the last link of the knot, which is the last of the path; or closes it.
    fn follow(&mut self, alloc: Global, knot: Knot) -> Result<(), AllocError>
        requires walk { IsWalkOf (map (λ l. l.items) self.old.links.now) self.old.places.items
            (knot ∷ reverse self.old.knots.items) self.old.opened self.old.closed }
        ensures walk { OnOk result (IsWalk self.new × (self.new.links ≡ self.old.links)) }
        ensures met { OnOk result (MeetsMore self.old.places.items self.new.places.items) }
    {
        let Some(next) = last_of(&knot.links) else {
            return self.close(knot);
        };
        match place_of(&self.places, next) {
            Place::New => {
                self.knots.push(knot)?;
                self.open(alloc, next)
            }
            Place::Open(number) => {
                if number < knot.first {
                    return self.tie(knot);
                }
                self.pass(knot, next)
            }
            Place::Closed(_) => self.pass(knot, next),
        }
    }

    // Passes the last link of the knot, which leads to a group, or to no thing before the knot.
    fn pass(&mut self, knot: Knot, next: usize) -> Result<(), AllocError>
        requires walk { IsWalkOf (map (λ l. l.items) self.old.links.now) self.old.places.items
            (knot ∷ reverse self.old.knots.items) self.old.opened self.old.closed }
        requires last { (rest : List ℕ) × (knot.links.items ≡ rest ++ next ∷ []) }
        requires followed { is_followed knot.first (place_at self.old.places.items next) ≡ true }
        ensures walk { OnOk result (IsWalk self.new × (self.new.links ≡ self.old.links)) }
        ensures met { OnOk result (self.new.places ≡ self.old.places) }
    {
        self.knots.push(without_last(knot))?;
        Ok(())
    }

    // Makes one knot of this one, which is the last of the path, and that before it.
    fn tie(&mut self, knot: Knot) -> Result<(), AllocError>
        requires walk { IsWalkOf (map (λ l. l.items) self.old.links.now) self.old.places.items
            (knot ∷ reverse self.old.knots.items) self.old.opened self.old.closed }
        requires back { (i j m : ℕ) × Contains knot.things.items i
            × Contains (links_at (map (λ l. l.items) self.old.links.now) i) j
            × (place_at self.old.places.items j ≡ Open m) × (m < knot.first) }
        ensures walk { OnOk result (IsWalk self.new × (self.new.links ≡ self.old.links)) }
        ensures met { OnOk result (self.new.places ≡ self.old.places) }
    {
        match self.knots.pop() {
            Some(before) => {
                self.knots.push(together(before, knot)?)?;
                Ok(())
            }
            None => {
                self.knots.push(knot)?;
                Ok(())
            }
        }
    }

    // Makes a group of the knot, all of whose links were followed.
    fn close(&mut self, knot: Knot) -> Result<(), AllocError>
        requires walk { IsWalkOf (map (λ l. l.items) self.old.links.now) self.old.places.items
            (knot ∷ reverse self.old.knots.items) self.old.opened self.old.closed }
        requires none { knot.links.items ≡ [] }
        ensures walk { OnOk result (IsWalk self.new × (self.new.links ≡ self.old.links)) }
        ensures met { OnOk result (MeetsMore self.old.places.items self.new.places.items) }
    {
        let group = self.closed;
        let Some(closed) = group.checked_add(1) else {
            return Err(AllocError);
        };
        put_all(&mut self.places, &knot.things, group);
        self.opened = knot.first;
        self.closed = closed;
        Ok(())
    }
}

// Of each thing that it was not met.
fn all_new(alloc: Global, links: &[Vec<usize>]) -> Result<Vec<Place>, AllocError>
    ensures { IfOk result (λ v. v.items ≡ map (λ _. New) links.now) }
{
    let mut places = Vec::new(alloc);
    for _thing in links {
        places.push(Place::New)?;
    }
    Ok(places)
}

// What is known of the thing. A number that no thing has is in no way.
fn place_of(places: &Vec<Place>, thing: usize) -> Place
    ensures { result ≡ place_at places.now.items thing }
{
    match places.get(thing) {
        Some(place) => *place,
        None => Place::Closed(0),
    }
}

fn put_place(places: &mut Vec<Place>, thing: usize, place: Place)
    ensures { places.new.items ≡ set places.old.items thing place }
{
    if let Some(old) = places.get_mut(thing) {
        *old = place;
    }
}

// Puts all these things into the group.
fn put_all(places: &mut Vec<Place>, things: &Vec<usize>, group: usize)
    ensures { ArePutIn places.old.items things.now.items group places.new.items }
{
    for thing in things {
        put_place(places, *thing, Place::Closed(group));
    }
}

fn group_at(place: Place) -> usize
    ensures { result ≡ group_at place }
{
    match place {
        Place::Closed(group) => group,
        Place::New | Place::Open(_) => 0,
    }
}

fn links_of(alloc: Global, links: &[Vec<usize>], thing: usize) -> Result<Vec<usize>, AllocError>
    ensures { IfOk result (λ v. v.items ≡ links_at (map (λ l. l.items) links.now) thing) }
{
    match links.get(thing) {
        Some(links) => Vec::from_slice(alloc, links.as_slice()),
        None => Ok(Vec::new(alloc)),
    }
}

fn knot_of(alloc: Global, first: usize, thing: usize, links: Vec<usize>) -> Result<Knot, AllocError>
    ensures { IfOk result (λ k. (k.first ≡ first) × (k.things.items ≡ thing ∷ []) × (k.links ≡ links)) }
{
    let mut things = Vec::new(alloc);
    things.push(thing)?;
    Ok(Knot {
        first,
        things,
        links,
    })
}

// The last of some numbers.
fn last_of(numbers: &Vec<usize>) -> Option<usize>
    ensures { MatchOption result (numbers.now.items ≡ [])
        (λ last. (rest : List ℕ) × (numbers.now.items ≡ rest ++ last ∷ [])) }
{
    match numbers.as_slice().split_last() {
        Some((last, _)) => Some(*last),
        None => None,
    }
}

// The knot without the last of its links.
fn without_last(mut knot: Knot) -> Knot
    ensures others { (result.first ≡ knot.first) × (result.things ≡ knot.things) }
    ensures links { (rest : List ℕ) (last : ℕ) → knot.links.items ≡ rest ++ last ∷ [] →
        result.links.items ≡ rest }
{
    knot.links.pop();
    knot
}

fn together(before: Knot, after: Knot) -> Result<Knot, AllocError>
    ensures { IfOk result (λ k. (k.first ≡ before.first)
        × AreBoth before.things.items after.things.items k.things.items
        × AreBoth before.links.items after.links.items k.links.items) }
{
    Ok(Knot {
        first: before.first,
        things: both(before.things, after.things)?,
        links: both(before.links, after.links)?,
    })
}

// The numbers of both, the fewer of them after the others.
fn both(mut one: Vec<usize>, mut other: Vec<usize>) -> Result<Vec<usize>, AllocError>
    ensures { IfOk result (λ v. AreBoth one.items other.items v.items) }
{
    if one.len() < other.len() {
        other.append(&mut one)?;
        return Ok(other);
    }
    one.append(&mut other)?;
    Ok(one)
}
