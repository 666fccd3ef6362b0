//! Which ends belong to which heads.

use crate::policy::tags::Tag;
use crate::policy::words::{Body, Role};
use std::alloc::{AllocError, Global};

/// Heads and ends, by the numbers of their tags.
#[derive(Drop)]
pub(crate) struct Pairs {
    // Of each tag, by its number, the end that belongs to it, or the head to which it belongs.
    partners: Vec<Option<usize>>,
    /// Each head with an `else` or `elif` of it.
    pub(crate) middles: Vec<(usize, usize)>,
    /// Each head without an end, with the end or `else` of another around it at which that is seen; the innermost
    /// first.
    pub(crate) crossed: Vec<(usize, usize)>,
    /// Ends and `else`s that belong to nothing.
    pub(crate) stray: Vec<usize>,
    /// Heads that are open at the end of the text.
    pub(crate) left: Vec<usize>,
}

impl Pairs {
    /// How many tags have no partner.
    pub(crate) fn odd(&self) -> usize {
        let odd = self.crossed.len().saturating_add(self.stray.len());
        odd.saturating_add(self.left.len())
    }

    /// The end of a head, or the head of an end.
    pub(crate) fn partner_of(&self, number: usize) -> Option<usize> {
        *self.partners.as_slice().get(number)?
    }

    /// The head of an end. Any other tag itself.
    pub(crate) fn head_of(&self, number: usize) -> usize {
        match self.partner_of(number) {
            Some(head) if head < number => head,
            _ => number,
        }
    }

    /// The innermost head that this end or `else` shows to have no end.
    pub(crate) fn crossed_by(&self, number: usize) -> Option<usize> {
        let pair = self.crossed.iter().find(|pair| pair.1 == number)?;
        Some(pair.0)
    }
}

// A head whose end was not met yet.
#[derive(Clone, Copy)]
struct Open<'t> {
    tag: Tag<'t>,
    body: Body,
    /// Whether its `else` was met.
    ended: bool,
}

// For how many ends it is asked what their being stray leaves odd.
const MOST_LOOKS: usize = 32;

// How many tags, and how many open heads, that look goes over.
const MOST_SEEN: usize = 1000;

// Over how many open heads an end may reach. The parser takes no more bodies in one another than 40.
const MOST_OPEN: usize = 64;

// How far an end reaches over heads: over none that is stronger.
fn strength(body: Body) -> u8 {
    match body {
        Body::Component => 3,
        Body::Block => 2,
        _ => 1,
    }
}

// Makes two tags the head and the end of one body.
fn join(partners: &mut Vec<Option<usize>>, head: usize, end: usize) {
    if let Some(partner) = partners.get_mut(head) {
        *partner = Some(end);
    }
    if let Some(partner) = partners.get_mut(end) {
        *partner = Some(head);
    }
}

// Over how many open heads the one is to which an end or an `else` belongs.
fn reach(stack: &Vec<Open<'_>>, tag: &Tag<'_>, columns: bool) -> Option<usize> {
    match tag.role {
        Role::End(body) => reach_of_end(stack, tag, body, columns),
        _ => reach_of_else(stack, tag.role),
    }
}

fn reach_of_end(stack: &Vec<Open<'_>>, tag: &Tag<'_>, body: Body, columns: bool) -> Option<usize> {
    let mut nearest = None;
    for (over, open) in stack.iter().rev().enumerate() {
        if over >= MOST_OPEN {
            break;
        }
        if open.body == body && (body != Body::Call || open.tag.name() == tag.name()) {
            if !columns || (tag.column.is_some() && open.tag.column == tag.column) {
                return Some(over);
            }
            nearest = nearest.or(Some(over));
        }
        if strength(open.body) > strength(body) {
            break;
        }
    }
    nearest
}

fn reach_of_else(stack: &Vec<Open<'_>>, role: Role) -> Option<usize> {
    for (over, open) in stack.iter().rev().enumerate() {
        match open.body {
            Body::If if !open.ended => return Some(over),
            Body::For if !open.ended && role == Role::Else => return Some(over),
            Body::If | Body::For | Body::Block | Body::Component => return None,
            _ if over >= MOST_OPEN => return None,
            _ => {}
        }
    }
    None
}

fn push_open<'t>(stack: &mut Vec<Open<'t>>, tag: Tag<'t>, body: Body) -> Result<(), AllocError> {
    stack.push(Open {
        tag,
        body,
        ended: false,
    })?;
    Ok(())
}

// Takes the end or `else` of the innermost head that is open.
fn take_end(stack: &mut Vec<Open<'_>>, role: Role) -> Result<(), AllocError> {
    if let Some(mut open) = stack.pop()
        && !matches!(role, Role::End(_))
    {
        open.ended |= role == Role::Else;
        stack.push(open)?;
    }
    Ok(())
}

// How many of these tags and of the open heads are odd where each end reaches as far as it can.
fn odd_of<'t>(alloc: Global, tags: &[Tag<'t>], open: &[Open<'t>]) -> Result<usize, AllocError> {
    let mut stack = Vec::from_slice(alloc, open)?;
    let mut odd = 0usize;
    for tag in tags {
        if let Role::Head(body) = tag.role {
            push_open(&mut stack, *tag, body)?;
            continue;
        }
        match reach(&stack, tag, false) {
            None => odd = odd.saturating_add(1),
            Some(over) => {
                odd = odd.saturating_add(over);
                stack.truncate(stack.len().saturating_sub(over));
                take_end(&mut stack, tag.role)?;
            }
        }
    }
    Ok(odd.saturating_add(stack.len()))
}

// Whether fewer are odd if the tag of this place, an end or an `else`, belongs to nothing.
fn is_stray<'t>(
    alloc: Global,
    tags: &[Tag<'t>],
    at: usize,
    stack: &Vec<Open<'t>>,
) -> Result<bool, AllocError> {
    let (_, from) = tags.split_at_checked(at).unwrap_or((tags, &[]));
    let (from, _) = from.split_at_checked(MOST_SEEN).unwrap_or((from, &[]));
    let [_, after @ ..] = from else {
        return Ok(false);
    };
    let open = stack.as_slice();
    let outer = open.len().saturating_sub(MOST_SEEN);
    let (_, open) = open.split_at_checked(outer).unwrap_or((open, &[]));
    let as_stray = odd_of(alloc, after, open)?.saturating_add(1);
    Ok(as_stray < odd_of(alloc, from, open)?)
}

/// The pairs of heads and ends among the tags, which have no other. An end that would leave heads open is stray where
/// fewer tags are odd by that. With `columns` an end belongs to the head of its column.
pub(crate) fn pairs_of(
    alloc: Global,
    tags: &[Tag<'_>],
    columns: bool,
) -> Result<Pairs, AllocError> {
    let count = match tags.last() {
        Some(tag) => tag.number.saturating_add(1),
        None => 0,
    };
    let mut pairs = Pairs {
        partners: vec![in alloc; None; count]?,
        middles: Vec::new(alloc),
        crossed: Vec::new(alloc),
        stray: Vec::new(alloc),
        left: Vec::new(alloc),
    };
    let mut stack: Vec<Open<'_>> = Vec::new(alloc);
    let mut looks = 0usize;
    for (at, tag) in tags.iter().enumerate() {
        if let Role::Head(body) = tag.role {
            push_open(&mut stack, *tag, body)?;
            continue;
        }
        let Some(over) = reach(&stack, tag, columns) else {
            pairs.stray.push(tag.number)?;
            continue;
        };
        if over > 0 && looks < MOST_LOOKS {
            looks = looks.saturating_add(1);
            if is_stray(alloc, tags, at, &stack)? {
                pairs.stray.push(tag.number)?;
                continue;
            }
        }
        for _ in 0..over {
            if let Some(open) = stack.pop() {
                pairs.crossed.push((open.tag.number, tag.number))?;
            }
        }
        if let Some(head) = stack.as_slice().last() {
            match tag.role {
                Role::End(_) => join(&mut pairs.partners, head.tag.number, tag.number),
                _ => pairs.middles.push((head.tag.number, tag.number))?,
            }
        }
        take_end(&mut stack, tag.role)?;
    }
    for open in &stack {
        pairs.left.push(open.tag.number)?;
    }
    Ok(pairs)
}

/// The heads, ends and `else`s among the tags, if the tag of this number has another role, or is left out.
pub(crate) fn paired_tags<'t>(
    alloc: Global,
    tags: &Vec<Tag<'t>>,
    number: usize,
    role: Option<Role>,
) -> Result<Vec<Tag<'t>>, AllocError> {
    let mut paired = Vec::new(alloc);
    for tag in tags {
        let taken = if tag.number == number {
            role
        } else {
            Some(tag.role)
        };
        if let Some(role @ (Role::Head(_) | Role::End(_) | Role::Else | Role::Elif)) = taken {
            paired.push(Tag { role, ..*tag })?;
        }
    }
    Ok(paired)
}
