//! Trees for tests, made from parts, each of which may have failed to allocate.
//!
//! A function of any type of part joins parts, so that a function of the tree's types holds no tree where
//! it may stop.

use std::alloc::{AllocError, Global};
use tera_base::{Span, Value};
use tera_tree::{Expression, build};

pub(crate) type Made<T> = Result<T, AllocError>;

/// Both parts.
pub(crate) fn both<A: Drop, B: Drop>(a: Made<A>, b: Made<B>) -> Made<(A, B)> {
    match (a, b) {
        (Ok(a), Ok(b)) => Ok((a, b)),
        _ => Err(AllocError),
    }
}

/// The list of this part alone.
pub(crate) fn one<T: Drop>(alloc: Global, part: Made<T>) -> Made<Vec<T>> {
    let (mut list, part) = both(Ok(Vec::new(alloc)), part)?;
    list.push(part)?;
    Ok(list)
}

/// A constant at no place.
pub(crate) fn constant(alloc: Global, value: Value) -> Made<Expression> {
    build::constant(alloc, value, Span::default())
}

/// The variable of this name at this place.
pub(crate) fn variable(alloc: Global, name: &str, span: Span) -> Made<Expression> {
    build::variable(alloc, String::from_str(alloc, name)?, span)
}
