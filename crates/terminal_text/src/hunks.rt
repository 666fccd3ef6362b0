//! Which edits are shown, and where they are.

ghost use Rattle.std.specs.Prelude.{◌≡◌, ◌<◌, ◌^◌, [], not, length, map, take, drop, IfOk};
ghost use Rattle.std.specs.List.{list_any};
ghost use Rattle.terminal_text.specs.Edits.{edit_view, old_side, new_side};
ghost use Rattle.terminal_text.specs.Hunks.{changes, is_shown as is_near, old_lines as all_old_lines, new_lines as all_new_lines, placed_edits, placed_view};

use crate::edits::Edit;
use std::alloc::{AllocError, Global};

// So many lines that are the same are shown around those that are not.
const AROUND: usize = 3;

/// An edit, and where it is.
#[derive(Clone, Copy, Debug)]
pub(crate) struct Placed<'a> {
    /// So many lines of the old text are before it.
    pub(crate) old: usize,
    /// So many of the new one.
    pub(crate) new: usize,
    /// Whether it is in a hunk.
    pub(crate) shown: bool,
    pub(crate) edit: Edit<'a>,
}

// The edits, each where it is.
pub(crate) fn placed_of<'a>(
    alloc: Global,
    edits: &[Edit<'a>],
) -> Result<Vec<Placed<'a>>, AllocError>
    requires old { all_old_lines (map edit_view edits.now) < 2 ^ 64 }
    requires new { all_new_lines (map edit_view edits.now) < 2 ^ 64 }
    ensures { IfOk result (λ v.
        map placed_view v.items ≡ placed_edits [] (map edit_view edits.now)) }
{
    let mut placed = Vec::new(alloc);
    let (mut old, mut new) = (0, 0);
    'edits: for at in 0..edits.len() {
        let edit = edits[at];
        let shown = is_shown(edits, at);
        placed.push(Placed {
            old,
            new,
            shown,
            edit,
        })?;
        old += old_lines(edit);
        new += new_lines(edit);
    }
    Ok(placed)
}

// Whether no hunk shows the edit.
pub(crate) fn is_hidden(placed: Placed<'_>) -> bool
    ensures { result ≡ not placed.entry.shown }
{
    !placed.shown
}

// Whether an edit that changes lines is near the one at this place.
fn is_shown(edits: &[Edit<'_>], at: usize) -> bool
    requires { at < length edits.now }
    ensures { result
        ≡ is_near (map edit_view (take at edits.now)) (map edit_view (drop at edits.now)) }
{
    let (before, following) = edits.split_at(at);
    has_change(&before[at.saturating_sub(AROUND)..])
        || has_change(&following[..(AROUND + 1).min(following.len())])
}

fn has_change(edits: &[Edit<'_>]) -> bool
    ensures { result ≡ list_any changes (map edit_view edits.now) }
{
    edits.iter().any(|edit| is_change(*edit))
}

fn is_change(edit: Edit<'_>) -> bool
    ensures { result ≡ changes (edit_view edit.entry) }
{
    matches!(edit, Edit::Other(..))
}

// How many lines of the old text the edit has.
pub(crate) fn old_lines(edit: Edit<'_>) -> usize
    ensures { result ≡ length (old_side (edit_view edit.entry)) }
{
    match edit {
        Edit::Same(_) => 1,
        Edit::Other(old, _) => old.len(),
    }
}

// How many of the new one.
pub(crate) fn new_lines(edit: Edit<'_>) -> usize
    ensures { result ≡ length (new_side (edit_view edit.entry)) }
{
    match edit {
        Edit::Same(_) => 1,
        Edit::Other(_, new) => new.len(),
    }
}
