//! What is written for a fault. Any answer is right: where it is not in its place, a cruder one is taken.
//!
//! In the order of reading: `words`, what tags are for; `tags`, those of a text; `pairs`, which ends belong to which
//! heads; `placeholders`, what is written in the place of a tag; `faults`, a function for each kind of fault.

mod faults;
mod pairs;
mod placeholders;
mod tags;
mod words;

use crate::edits::Edit;
use crate::lone::LoneTag;
use crate::policy::faults::Scene;
use crate::policy::placeholders::{comment, placeholder};
use crate::policy::tags::tags_of;
use std::alloc::{AllocError, Global};
use std::ops::Range;
use tera_parser::value::{Error, ErrorKind};

/// What is to be written into a text for its fault.
pub(crate) fn choice_of(alloc: Global, text: &str, error: &Error) -> Result<Vec<Edit>, AllocError> {
    let bytes = text.as_bytes();
    let (message, at) = report_of(error);
    let edits = Scene::of(alloc, bytes, at.start)?.choice(message, &at)?;
    if edits.iter().any(|edit| changes(bytes, edit)) {
        return Ok(edits);
    }
    from_there(alloc, bytes, at.start)
}

// The message of a fault, and the bytes of its place.
fn report_of(error: &Error) -> (&str, Range<usize>) {
    match &error.kind {
        ErrorKind::SyntaxError(report) => {
            let range = &report.span.range;
            (report.message.as_str(), range.start..range.end)
        }
        _ => ("", 0..0),
    }
}

fn changes(text: &[u8], edit: &Edit) -> bool {
    match text.split_at_checked(edit.at) {
        Some((_, after)) => !after.starts_with(edit.bytes.as_slice()),
        None => false,
    }
}

// A comment of all from this byte on.
fn from_there(alloc: Global, text: &[u8], start: usize) -> Result<Vec<Edit>, AllocError> {
    match text.split_at_checked(start) {
        Some((_, after)) => Ok(vec![in alloc; comment(alloc, start, after)?]?),
        None => Ok(Vec::new(alloc)),
    }
}

/// The tags of a text that may be read alone, after the fault for which it was changed.
pub(crate) fn lone_tags(
    alloc: Global,
    text: &str,
    error: &Error,
) -> Result<Vec<LoneTag>, AllocError> {
    let start = report_of(error).1.start;
    Scene::of(alloc, text.as_bytes(), start)?.lone_tags(start)
}

/// What is written over a tag with a fault that was read alone, with `closing` after it.
pub(crate) fn lone_choice_of(
    alloc: Global,
    tag: &str,
    closing: &str,
    _error: &Error,
) -> Result<Vec<u8>, AllocError> {
    let whole = tag.as_bytes();
    let tags = tags_of(alloc, whole, whole.len())?;
    let edit = match tags.all.as_slice().first() {
        Some(head) if !closing.is_empty() => placeholder(alloc, head, head.role)?,
        _ => Some(comment(alloc, 0, whole)?),
    };
    let mut bytes = Vec::new(alloc);
    if let Some(edit) = edit
        && let Some((before, _)) = whole.split_at_checked(edit.at)
    {
        bytes.extend_from_slice(before)?;
        bytes.extend_from_slice(edit.bytes.as_slice())?;
    }
    if let Some((_, after)) = whole.split_at_checked(bytes.len()) {
        bytes.extend_from_slice(after)?;
    }
    Ok(bytes)
}

/// What is to be written where no more faults are looked for, though the text has this one: a comment of all from its
/// tag on, and after it the ends of what is open there.
pub(crate) fn rest_of(alloc: Global, text: &str, error: &Error) -> Result<Vec<Edit>, AllocError> {
    let (bytes, at) = (text.as_bytes(), report_of(error).1);
    let start = Scene::of(alloc, bytes, at.start)?.start(&at);
    let mut edits = from_there(alloc, bytes, start)?;
    if let Some((before, _)) = bytes.split_at_checked(start) {
        edits.push(Edit {
            at: bytes.len(),
            bytes: Scene::of(alloc, before, start)?.ends()?,
        })?;
    }
    Ok(edits)
}
