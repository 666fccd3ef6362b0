//! What a new text of a document changes for others.

ghost use Rattle.std.specs.Prelude.{◌≡◌, ◌∷◌, [], ◌++◌, ◌||◌, ◌&&◌, not, ℕ, List, true, false, IfOk, OnOk, if◌then◌else◌, map, string_bytes, length};
ghost use Rattle.std.specs.BTreeSet.{contains_text};
ghost use Rattle.std.specs.List.{list_any};
ghost use Rattle.tera_tree.specs.View.{definition_view};
ghost use Rattle.tera_templates.specs.Lost.{are_open};
ghost use Rattle.tera_templates.specs.Templates.{definitions_of};
ghost use Rattle.tera_workspace.specs.Heads.{definition_named, DifferWithin, HaveOneHead, HaveOneHeadIfAny, HaveOneHeadIn};
ghost use Rattle.tera_workspace.specs.Kept.{is_reported_in, made_stale, marked, marked_if, marked_since, open_if, templates_of};
ghost use Rattle.tera_workspace.specs.Names.{is_among};

use crate::judged::{Judged, are_open, push_defined};
use crate::name_list::NameList;
use std::alloc::{AllocError, Global};
use std::collections::BTreeSet;
use tera_check::{Template, definitions_of};
use tera_parser::ast::ComponentDefinition;

/// The names of at least the components that differ between the two templates: that come, go, have other parameters, or
/// show their body in one of them only.
pub(crate) fn touched_names(
    alloc: Global,
    old: &Template,
    new: &Template,
) -> Result<Vec<String>, AllocError>
    ensures { IfOk result (λ v. (n : List ℕ) → is_among n (map string_bytes v.items) ≡ false →
        HaveOneHeadIn n old.now new.now) }
{
    let mut touched = touched_heads(alloc, old, new)?;
    push_not_in(&mut touched, &old.bodies_hidden, &new.bodies_hidden)?;
    push_not_in(&mut touched, &new.bodies_hidden, &old.bodies_hidden)?;
    Ok(touched)
}

// The names of at least the components whose heads differ.
fn touched_heads(alloc: Global, old: &Template, new: &Template) -> Result<Vec<String>, AllocError>
    ensures { IfOk result (λ v. (n : List ℕ) → is_among n (map string_bytes v.items) ≡ false →
        HaveOneHeadIfAny (definition_named n (definitions_of old.now))
        (definition_named n (definitions_of new.now))) }
{
    let before = definitions_of(old);
    let after = definitions_of(new);
    let mut touched = Vec::new(alloc);
    if before.len() == after.len() {
        push_others(&mut touched, before, after)?;
    } else {
        let (older, newer) = differing_heads(before, after);
        push_defined(&mut touched, older)?;
        push_defined(&mut touched, newer)?;
    }
    Ok(touched)
}

// The definitions between those at the start and those at the end that have the same heads in both.
fn differing_heads<'a>(
    before: &'a [ComponentDefinition],
    after: &'a [ComponentDefinition],
) -> (&'a [ComponentDefinition], &'a [ComponentDefinition])
    ensures { DifferWithin (map definition_view result.0.now) (map definition_view result.1.now)
        (map definition_view before.now) (map definition_view after.now) }
{
    let (before, after) = without_first(before, after);
    without_last(before, after)
}

// The definitions without those at the start that have the same heads.
fn without_first<'a>(
    before: &'a [ComponentDefinition],
    after: &'a [ComponentDefinition],
) -> (&'a [ComponentDefinition], &'a [ComponentDefinition])
    ensures { DifferWithin (map definition_view result.0.now) (map definition_view result.1.now)
        (map definition_view before.now) (map definition_view after.now) }
{
    let mut old = before;
    let mut new = after;
    'heads: while let Some((first, older)) = old.split_first()
        && let Some((other, newer)) = new.split_first()
        && have_one_head(first, other)
    {
        old = older;
        new = newer;
    }
    (old, new)
}

// The definitions without those at the end that have the same heads.
fn without_last<'a>(
    before: &'a [ComponentDefinition],
    after: &'a [ComponentDefinition],
) -> (&'a [ComponentDefinition], &'a [ComponentDefinition])
    ensures { DifferWithin (map definition_view result.0.now) (map definition_view result.1.now)
        (map definition_view before.now) (map definition_view after.now) }
{
    let mut old = before;
    let mut new = after;
    'heads: while let Some((last, older)) = old.split_last()
        && let Some((other, newer)) = new.split_last()
        && have_one_head(last, other)
    {
        old = older;
        new = newer;
    }
    (old, new)
}

// Adds the names of definitions that have one number and different heads.
fn push_others(
    touched: &mut Vec<String>,
    before: &[ComponentDefinition],
    after: &[ComponentDefinition],
) -> Result<(), AllocError>
    requires { length before.now ≡ length after.now }
    ensures { OnOk result ((n : List ℕ) → is_among n (map string_bytes touched.new.items) ≡ false →
        HaveOneHeadIfAny (definition_named n (map definition_view before.now))
        (definition_named n (map definition_view after.now))) }
{
    for (at, one) in before.iter().enumerate() {
        let other = &after[at];
        if !have_one_head(one, other) {
            touched.push(one.name.clone()?)?;
            touched.push(other.name.clone()?)?;
        }
    }
    Ok(())
}

// Adds the names that are not among the others.
fn push_not_in(
    touched: &mut Vec<String>,
    names: &BTreeSet<String>,
    others: &BTreeSet<String>,
) -> Result<(), AllocError>
    ensures { OnOk result ((n : List ℕ) → is_among n (map string_bytes touched.new.items) ≡ false →
        (is_among n (map string_bytes touched.old.items) ≡ false)
        × (contains_text names.now n ≡ true → contains_text others.now n ≡ true)) }
{
    for name in names {
        push_if_not_in(touched, name, others)?;
    }
    Ok(())
}

fn push_if_not_in(
    touched: &mut Vec<String>,
    name: &String,
    others: &BTreeSet<String>,
) -> Result<(), AllocError>
    ensures { let old = map string_bytes touched.old.items in
        OnOk result (map string_bytes touched.new.items
        ≡ (if contains_text others.now (string_bytes name.now) then old
        else old ++ (string_bytes name.now ∷ []))) }
{
    if others.contains(name.as_str()) {
        return Ok(());
    }
    touched.push(name.clone()?)?;
    Ok(())
}

fn have_one_head(one: &ComponentDefinition, other: &ComponentDefinition) -> bool
    ensures { result ≡ true → HaveOneHead (definition_view one.now) (definition_view other.now) }
{
    one.name == other.name
        && one.kwargs == other.kwargs
        && one.rest_param_name == other.rest_param_name
}

/// Marks the documents that name one of these components, or have a finding with a place in this file. One that is
/// marked already takes no time.
pub(crate) fn mark(all: &mut Vec<Judged>, touched: &NameList, file: &str)
    ensures { all.new.items ≡ map (marked touched.now file.now) all.old.items }
{
    for judged in all.iter_mut() {
        if becomes_stale(judged, touched, file) {
            judged.stale = true;
        }
    }
}

/// Whether one of the documents may define more components than its tree; nothing, if that stays as it is, since the one
/// that changes may define more after it if and only if it may before.
pub(crate) fn open_before(all: &Vec<Judged>, from: bool, to: bool) -> Option<bool>
    ensures { result ≡ open_if from to all.now.items }
{
    if from == to {
        None
    } else {
        Some(are_open(all))
    }
}

/// Marks all documents, if one may define more components than its tree now and none could before, or the other way
/// round.
pub(crate) fn mark_if_opened(all: &mut Vec<Judged>, was_open: Option<bool>)
    ensures { all.new.items ≡ marked_since was_open all.old.items }
{
    if let Some(was_open) = was_open {
        mark_if_other(all, was_open);
    }
}

fn mark_if_other(all: &mut Vec<Judged>, was_open: bool)
    ensures { all.new.items ≡ marked_if was_open (are_open (templates_of all.old.items))
        all.old.items }
{
    if are_open(all) != was_open {
        mark_all(all);
    }
}

fn mark_all(all: &mut Vec<Judged>)
    ensures { all.new.items ≡ map made_stale all.old.items }
{
    for judged in all.iter_mut() {
        judged.stale = true;
    }
}

// Whether it is not marked, and is to be.
fn becomes_stale(judged: &Judged, touched: &NameList, file: &str) -> bool
    ensures { result ≡ (not judged.now.stale
        && (list_any (λ n. is_among n judged.now.names) touched.now
        || is_reported_in file.now judged.now)) }
{
    !judged.stale && (judged.names.has_any_of(touched) || is_reported_place_in(judged, file))
}

// Whether a finding that was reported for the document has a place in the file.
fn is_reported_place_in(judged: &Judged, file: &str) -> bool
    ensures { result ≡ is_reported_in file.now judged.now }
{
    for diagnostic in &judged.reported {
        for related in &diagnostic.related {
            if related.file.as_str() == file {
                return true;
            }
        }
    }
    false
}
