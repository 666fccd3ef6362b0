//! Faults of tags that are read alone.

ghost use Rattle.std.specs.Prelude.{◌≡◌, ◌≤◌, ◌<◌, ◌++◌, ◌↔◌, ℕ, List, [], ◌∷◌, IfOk, IfSome, IsTrue, length, map, string_bytes};
ghost use Rattle.tera_base.specs.ErrorView.{error_view};
ghost use Rattle.tera_mend.specs.Lone.{IsFaultOf, IsLone, IsPlaced};
ghost use Rattle.tera_mend.specs.Moved.{BeginsBefore};
ghost use Rattle.tera_mend.specs.Places.{AreInPlace};
ghost use Rattle.tera_mend.specs.Views.{LeadsTo, edit_view};

use crate::edits::{Edit, is_in_place};
use crate::mending::Fault;
use crate::moved::{Place, error_at};
use crate::policy::lone_choice_of;
use crate::reading::{Reading, read};
use std::alloc::{AllocError, Global};
use tera_parser::value::{Error, ErrorKind};

/// A tag of a text that may be read alone.
#[derive(Drop)]
pub(crate) struct LoneTag {
    /// How many bytes are before it.
    pub(crate) start: usize,
    /// How many bytes are before what comes after it.
    pub(crate) end: usize,
    /// What is read after it: an `{% endif %}` after an `if`. Empty where it needs nothing.
    pub(crate) closing: &'static str,
}

/// The fault of a tag that was read alone, at its place in the text; what is written over the tag; and the place after
/// that.
#[derive(Drop)]
pub(crate) struct Lone {
    pub(crate) error: Error,
    pub(crate) written: String,
    pub(crate) after: Place,
}

/// Adds the faults of these tags of a text, each read alone, to those that led to the text. The answer is the text with
/// what is written over these tags. A tag that begins before the end of one with a fault is passed over.
pub(crate) fn add_lone_faults(
    alloc: Global,
    file: &str,
    text: &str,
    tags: &[LoneTag],
    faults: &mut Vec<Fault>,
    most: usize,
) -> Result<String, AllocError>
    ensures leads { (source : List ℕ) → 0 < length faults.old.items →
        LeadsTo file.now source faults.old.items text.now →
        IfOk result (λ new. LeadsTo file.now source faults.new.items (string_bytes new)) }
    ensures bound { length faults.old.items ≤ most →
        IfOk result (λ _. length faults.new.items ≤ most) }
{
    let mut done = String::new(alloc);
    let mut rest = text;
    let mut place = Place::first();
    for tag in tags {
        if faults.len() >= most {
            break;
        }
        let Some((before, inside, after)) = parts(rest, done.len(), tag) else {
            continue;
        };
        let Some(lone) = lone_fault(alloc, file, before, inside, tag.closing, place)? else {
            continue;
        };
        done.push_str(before)?;
        let edits = one_edit(alloc, done.len(), lone.written.as_str())?;
        done.push_str(lone.written.as_str())?;
        faults.push(Fault {
            error: lone.error,
            alone: true,
            edits,
        })?;
        place = lone.after;
        rest = after;
    }
    done.push_str(rest)?;
    Ok(done)
}

// What is before the tag, the tag, and what is after it, where so many bytes are before all of these.
fn parts<'a>(rest: &'a str, done: usize, tag: &LoneTag) -> Option<(&'a str, &'a str, &'a str)>
    ensures { IfSome result (λ p. rest.now ≡ p.0.now ++ (p.1.now ++ p.2.now)) }
{
    let (before, following) = rest.split_at_checked(tag.start.checked_sub(done)?)?;
    let (inside, after) = following.split_at_checked(tag.end.checked_sub(tag.start)?)?;
    Some((before, inside, after))
}

fn one_edit(alloc: Global, at: usize, text: &str) -> Result<Vec<Edit>, AllocError>
    ensures { IfOk result (λ es. map edit_view es.items ≡ record { at = at; bytes = text.now } ∷ []) }
{
    let bytes = Vec::from_slice(alloc, text.as_bytes())?;
    let mut edits = Vec::new(alloc);
    edits.push(Edit { at, bytes })?;
    Ok(edits)
}

// The fault of a tag that is read alone. The place is that at which what is before the tag begins.
fn lone_fault(
    alloc: Global,
    file: &str,
    before: &str,
    tag: &str,
    closing: &str,
    place: Place,
) -> Result<Option<Lone>, AllocError>
    ensures { IfOk result (λ o. IfSome o (IsLone file.now before.now tag.now place)) }
{
    let Some(error) = fault_alone(alloc, file, tag, closing)? else {
        return Ok(None);
    };
    let Some(written) = written_over(alloc, tag, closing, &error)? else {
        return Ok(None);
    };
    Ok(placed(before, place, error, written))
}

// The fault of the tag with what is read after it, where that begins in the tag.
fn fault_alone(
    alloc: Global,
    file: &str,
    tag: &str,
    closing: &str,
) -> Result<Option<Error>, AllocError>
    ensures { IfOk result (λ o. IfSome o (IsFaultOf file.now tag.now)) }
{
    let mut alone = String::from_str(alloc, tag)?;
    alone.push_str(closing)?;
    match read(alloc, file, alone.as_str())? {
        Reading::Tree(_, _) => Ok(None),
        Reading::Fault(error) => {
            if begins_before(&error, tag.len()) {
                Ok(Some(error))
            } else {
                Ok(None)
            }
        }
    }
}

// Whether it is a syntax error that begins before so many bytes.
fn begins_before(error: &Error, bytes: usize) -> bool
    ensures { IsTrue result ↔ BeginsBefore bytes (error_view error.now) }
{
    match &error.kind {
        ErrorKind::SyntaxError(report) => report.span.range.start < bytes,
        ErrorKind::Message(_) => false,
        ErrorKind::Memory => false,
    }
}

// What is written over the tag for its fault. None where that is not in its place, changes nothing or is not text.
fn written_over(
    alloc: Global,
    tag: &str,
    closing: &str,
    error: &Error,
) -> Result<Option<String>, AllocError>
    ensures { IfOk result (λ o. IfSome o (λ w. AreInPlace tag.now (string_bytes w))) }
{
    let bytes = lone_choice_of(alloc, tag, closing, error)?;
    if bytes.as_slice() == tag.as_bytes() || !is_in_place(tag.as_bytes(), bytes.as_slice()) {
        return Ok(None);
    }
    match String::from_utf8(bytes) {
        Ok(written) => Ok(Some(written)),
        Err(_) => Ok(None),
    }
}

// The error of the tag after this text, at its place. None where a number would be too large.
fn placed(before: &str, place: Place, error: Error, written: String) -> Option<Lone>
    ensures { IfSome result (IsPlaced before.now place error (string_bytes written)) }
{
    let start = place.after(before)?;
    let after = start.after(written.as_str())?;
    let error = error_at(error, start)?;
    Some(Lone {
        error,
        written,
        after,
    })
}
