//! The name that may have been meant by a word.

ghost use Rattle.std.specs.Prelude.{◌≡◌, ◌*◌, ◌+◌, length, nat_le, IfOk};
ghost use Rattle.std.specs.Option.{option_map};
ghost use Rattle.std.specs.Str.{chars};
ghost use Rattle.tera_settings.specs.Near.{IsNearest, is_within, near_view, nearer};
ghost use Rattle.tera_settings.specs.Values.{texts};

use std::alloc::{AllocError, Global};
use strsim::osa_distance;

// A name, and how many edits lead to it.
#[derive(Clone, Copy)]
struct Near<'n> {
    name: &'n str,
    far: usize,
}

/// The name that is nearest to the word, if one is near.
pub fn nearest<'n>(
    alloc: Global,
    word: &str,
    names: &[&'n str],
) -> Result<Option<&'n str>, AllocError>
    ensures { IfOk result (λ name. IsNearest word.now (texts names.now) (option_map (λ n. n.now) name)) }
{
    let mut nearest = None;
    for name in names {
        let far = osa_distance(alloc, word, name)?;
        nearest = nearer(nearest, Near { name: *name, far });
    }
    match nearest {
        Some(near) => Ok(Some(near.name)),
        None => Ok(None),
    }
}

// The nearer of two, if one is near.
fn nearer<'n>(nearest: Option<Near<'n>>, other: Near<'n>) -> Option<Near<'n>>
    ensures { option_map near_view result
        ≡ nearer (option_map near_view nearest.entry) (near_view other.entry) }
{
    if !is_within(other) {
        return nearest;
    }
    match nearest {
        Some(near) if near.far <= other.far => Some(near),
        _ => Some(other),
    }
}

// Whether a third of the name is edited at most.
fn is_within(near: Near<'_>) -> bool
    ensures { result ≡ is_within (near_view near.entry) }
{
    near.far <= near.name.chars().count() / 3
}
