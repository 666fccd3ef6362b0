//! The lines of two texts, side by side.

ghost use Rattle.std.specs.Prelude.{◌≡◌, ◌++◌, [], ◌∷◌, map, IfOk, OnOk};
ghost use Rattle.terminal_text.specs.Edits.{SameLine, texts_of, edit_view, lines_of as text_lines, edits_of as line_edits, others_of};

use std::alloc::{AllocError, Global};

/// What is in the one text, and what in the other in its place.
#[derive(Clone, Copy, Debug)]
pub(crate) enum Edit<'a> {
    /// A line of both texts.
    Same(&'a str),
    /// Lines of the old text and lines of the new one.
    Other(&'a [&'a str], &'a [&'a str]),
}

// The lines of the text, each with its end.
pub(crate) fn lines_of(alloc: Global, text: &str) -> Result<Vec<&str>, AllocError>
    ensures { IfOk result (λ v. texts_of v.items ≡ text_lines text.now) }
{
    text.split_inclusive('\n').collect(alloc)
}

// The edits that make the new lines of the old ones: line by line, so that they are few where no line was put in or
// taken out.
pub(crate) fn edits_of<'a>(
    alloc: Global,
    old: &'a [&'a str],
    new: &'a [&'a str],
) -> Result<Vec<Edit<'a>>, AllocError>
    ensures { IfOk result (λ v.
        map edit_view v.items ≡ line_edits (texts_of old.now) (texts_of new.now)) }
{
    let mut edits = Vec::new(alloc);
    let mut start = 0;
    'lines: for at in 0..old.len().min(new.len()) {
        if old[at] == new[at] {
            push_others(&mut edits, &old[start..at], &new[start..at])?;
            push_same(&mut edits, old[at])?;
            start = at + 1;
        }
    }
    push_others(&mut edits, &old[start..], &new[start..])?;
    Ok(edits)
}

fn push_same<'a>(edits: &mut Vec<Edit<'a>>, line: &'a str) -> Result<(), AllocError>
    ensures { OnOk result (map edit_view edits.new.items
        ≡ map edit_view edits.old.items ++ SameLine line.now ∷ []) }
{
    edits.push(Edit::Same(line))?;
    Ok(())
}

// Adds an edit that puts the new lines in place of the old ones, if there are any.
fn push_others<'a>(
    edits: &mut Vec<Edit<'a>>,
    old: &'a [&'a str],
    new: &'a [&'a str],
) -> Result<(), AllocError>
    ensures { OnOk result (map edit_view edits.new.items
        ≡ map edit_view edits.old.items ++ others_of (texts_of old.now) (texts_of new.now)) }
{
    if !old.is_empty() || !new.is_empty() {
        edits.push(Edit::Other(old, new))?;
    }
    Ok(())
}
