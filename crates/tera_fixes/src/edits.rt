//! A text with what was suggested for it.

ghost use Rattle.std.specs.Prelude.{◌≡◌, ◌∷◌, ◌++◌, List, map, string_bytes, IfOk, OnOk};
ghost use Rattle.std.specs.List.{flat_map};
ghost use Rattle.std.specs.List.Sorted.{IsPermutation};
ghost use Rattle.std.specs.Option.{option_map};
ghost use Rattle.std.specs.Str.{IsCharBoundary};
ghost use Rattle.tera_fixes.specs.Edited.{AreAscending, EditVal, edit_view, edited, edits_if_any, edits_of, fits};
ghost use Rattle.tera_fixes.specs.Suggestions.{suggestion_view};
ghost use Rattle.tera_fixes.specs.declared.edits.Edit.{Edit as AnEdit};

use crate::parts::{Part, is_boundary};
use crate::suggestions::Suggestion;
use std::alloc::{AllocError, Global};

// A text in the place of a part.
#[derive(Clone, Copy)]
struct Edit<'s> {
    part: Part,
    text: &'s str,
}

/// The text with the suggestions, from its beginning on. If a part begins in a part that another suggestion changes, it
/// is not changed.
pub fn edited(
    alloc: Global,
    text: &str,
    suggestions: &[Option<Suggestion>],
) -> Result<String, AllocError>
    ensures { IfOk result (λ t. (edits : List AnEdit) × AreAscending edits
        × IsPermutation (flat_map edits_if_any (map (option_map suggestion_view) suggestions.now))
        (map edit_view edits)
        × (string_bytes t ≡ edited text.now 0 (map edit_view edits))) }
{
    let edits = edits_of(alloc, suggestions)?;
    with_edits(alloc, text, &edits)
}

// What the suggestions change, in the order of the text.
fn edits_of(alloc: Global, suggestions: &[Option<Suggestion>]) -> Result<Vec<Edit<'_>>, AllocError>
    ensures ascending { IfOk result (λ v. AreAscending v.items) }
    ensures all { IfOk result (λ v. IsPermutation
        (flat_map edits_if_any (map (option_map suggestion_view) suggestions.now))
        (map edit_view v.items)) }
{
    let mut edits = Vec::new(alloc);
    for suggestion in suggestions {
        push_edits_if_any(&mut edits, suggestion)?;
    }
    edits.sort_by_key(|edit| edit.part.start)?;
    Ok(edits)
}

fn push_edits_if_any<'s>(
    edits: &mut Vec<Edit<'s>>,
    suggestion: &'s Option<Suggestion>,
) -> Result<(), AllocError>
    ensures { OnOk result (map edit_view edits.new.items ≡ map edit_view edits.old.items
        ++ edits_if_any (option_map suggestion_view suggestion.now)) }
{
    match suggestion {
        Some(suggestion) => push_edits(edits, suggestion),
        None => Ok(()),
    }
}

fn push_edits<'s>(edits: &mut Vec<Edit<'s>>, suggestion: &'s Suggestion) -> Result<(), AllocError>
    ensures { OnOk result (map edit_view edits.new.items
        ≡ map edit_view edits.old.items ++ edits_of (suggestion_view suggestion.now)) }
{
    let text = suggestion.text.as_str();
    for part in &suggestion.parts {
        edits.push(Edit { part: *part, text })?;
    }
    Ok(())
}

// The text with the edits. An edit is made only if it does not overlap the one before it.
fn with_edits(alloc: Global, text: &str, edits: &Vec<Edit<'_>>) -> Result<String, AllocError>
    ensures { IfOk result (λ t. string_bytes t ≡ edited text.now 0 (map edit_view edits.now.items)) }
{
    let mut whole = String::with_capacity(alloc, text.len())?;
    let mut from = 0;
    for edit in edits {
        from = push_edit(&mut whole, text, from, *edit)?;
    }
    whole.push_str(&text[from..])?;
    Ok(whole)
}

// Adds the text from the byte up to the part, and the new text, if the part does not begin before the byte. The result
// is the byte from which the text is still to be added.
fn push_edit(
    whole: &mut String,
    text: &str,
    from: usize,
    edit: Edit<'_>,
) -> Result<usize, AllocError>
    requires { IsCharBoundary text.now from }
    ensures cut { IfOk result (IsCharBoundary text.now) }
    ensures edited { IfOk result (λ next. (rest : List EditVal) →
        string_bytes whole.new ++ edited text.now next rest
        ≡ string_bytes whole.old ++ edited text.now from (edit_view edit.entry ∷ rest)) }
{
    if !fits(text, from, edit.part) {
        return Ok(from);
    }
    whole.push_str(&text[from..edit.part.start])?;
    whole.push_str(edit.text)?;
    Ok(edit.part.end)
}

// Whether the part is in the text, between characters, and does not begin before the byte.
fn fits(text: &str, from: usize, part: Part) -> bool
    ensures { result ≡ fits text.now from part }
{
    from <= part.start
        && part.start <= part.end
        && is_boundary(text, part.start)
        && is_boundary(text, part.end)
}
