//! The cause of a fault, where its text and its place do not say it.

ghost use Rattle.std.specs.Prelude.{◌≡◌, IfSome};
ghost use Rattle.tera_templates.specs.FaultFindings.{IsWordOf, start_of};

use crate::mended::Mended;
use crate::tags::{Closed, Role, Word, closed_from, word_at};
use std::alloc::{AllocError, Global};
use tera_mend::{Edit, Fault};
use tera_parser::value::ErrorKind;

/// A word of the source, and what is said of it.
#[derive(Clone, Copy, Debug)]
pub(crate) struct Cause<'m> {
    /// The byte with which it begins.
    pub(crate) start: usize,
    pub(crate) word: &'m str,
    pub(crate) says: Says,
}

/// What is said of the word of a tag.
#[derive(Clone, Copy, Debug, PartialEq, Eq)]
pub(crate) enum Says {
    /// That nothing closes what it opens.
    NotClosed,
    /// That it closes nothing that is open.
    ClosesNothing,
    /// That nothing is open to which it belongs.
    BelongsToNothing,
    /// That its tag has no end.
    NoEnd,
    /// Nothing.
    Nothing,
}

/// The end tags that were written after the source, with the heads that they close. If no fault has an edit there, they
/// are not looked for.
pub(crate) fn ends_of(alloc: Global, mended: &Mended) -> Result<Vec<Closed>, AllocError> {
    let len = mended.source.len();
    let mut faults = mended.faults.iter();
    if faults.any(|fault| fault.edits.iter().any(|edit| edit.at >= len)) {
        closed_from(alloc, mended.text.as_str(), len)
    } else {
        Ok(Vec::new(alloc))
    }
}

/// The cause of the fault, by the first of its edits that says one. If none does, `Says::Nothing` of an empty word at
/// the end of the source.
pub(crate) fn cause_of<'m>(source: &'m str, ends: &Vec<Closed>, fault: &Fault) -> Cause<'m>
    ensures { IsWordOf source.now result }
{
    match cause_if_any(source, ends, fault) {
        Some(cause) => cause,
        None => no_cause(source),
    }
}

fn no_cause(source: &str) -> Cause<'_>
    ensures { IsWordOf source.now result }
{
    Cause {
        start: source.len(),
        word: "",
        says: Says::Nothing,
    }
}

fn cause_if_any<'m>(source: &'m str, ends: &Vec<Closed>, fault: &Fault) -> Option<Cause<'m>>
    ensures { IfSome result (IsWordOf source.now) }
{
    let at = start_of(fault);
    for edit in &fault.edits {
        if let Some(cause) = cause_in(source, ends, edit, at) {
            return Some(cause);
        }
    }
    None
}

/// The byte with which the fault begins.
pub(crate) fn start_of(fault: &Fault) -> usize
    ensures { result ≡ start_of fault.now }
{
    match &fault.error.kind {
        ErrorKind::SyntaxError(report) => report.span.range.start,
        _ => 0,
    }
}

// The cause of a fault at this byte, by one of its edits.
fn cause_in<'m>(source: &'m str, ends: &Vec<Closed>, edit: &Edit, at: usize) -> Option<Cause<'m>>
    ensures { IfSome result (IsWordOf source.now) }
{
    if edit.at >= source.len() {
        let closed = ends.iter().find(|end| end.at == edit.at)?;
        return cause_by(source, closed.head, Says::NotClosed);
    }
    let end = edit.at.saturating_add(edit.bytes.len());
    let is_inside = edit.at <= at && at < end;
    let Some(word) = word_at(source, edit.at) else {
        return cause_in_tag(source, edit.at, end, is_inside);
    };
    let says = said_of_tag(word.role, is_inside, is_closed(source, edit.at, end))?;
    cause_by(source, word, says)
}

// What is said of a word with this role, if an edit begins with its tag.
fn said_of_tag(role: Role, is_inside: bool, is_closed: bool) -> Option<Says> {
    match role {
        Role::End => Some(Says::ClosesNothing),
        Role::Middle => Some(Says::BelongsToNothing),
        Role::Head | Role::Other if is_inside => None,
        Role::Head | Role::Other if !is_closed => Some(Says::NoEnd),
        Role::Head => Some(Says::NotClosed),
        Role::Other => None,
    }
}

// If an edit begins in a tag, at its word: that the tag has no end, if none is in the edit and the fault is after it.
fn cause_in_tag(source: &str, at: usize, end: usize, is_inside: bool) -> Option<Cause<'_>>
    ensures { IfSome result (IsWordOf source.now) }
{
    let start = start_of_tag(source, at)?;
    let word = word_at(source, start)?;
    if is_inside || is_closed(source, start, end) {
        return None;
    }
    cause_by(source, word, Says::NoEnd)
}

// The start of the tag in which only white space and a dash may be before this byte.
fn start_of_tag(source: &str, at: usize) -> Option<usize> {
    let before = source.get(..at)?.trim_end();
    let before = before.strip_suffix('-').unwrap_or(before);
    Some(before.strip_suffix("{%")?.len())
}

fn cause_by(source: &str, word: Word, says: Says) -> Option<Cause<'_>>
    ensures { IfSome result (IsWordOf source.now) }
{
    let text = source.get(word.start..word.end)?;
    Some(Cause {
        start: word.start,
        word: text,
        says,
    })
}

// Whether what is between these bytes ends with an end marker.
fn is_closed(source: &str, start: usize, end: usize) -> bool {
    match source.get(start..end) {
        Some(tag) => tag.ends_with("}}") || tag.ends_with("%}") || tag.ends_with("#}"),
        None => true,
    }
}
