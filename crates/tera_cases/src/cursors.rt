//! What a cursor over the tokens of a source shows ahead, step by step.

use crate::faults::{Detail, error_text};
use crate::settings::Setting;
use std::alloc::{AllocError, Global};
use tera_base::Error;
use tera_lexer::{Cursor, tokenize};

/// A line for each place of a cursor: the range of the token taken last, and what is seen from there.
///
/// A second cursor skips what the first one takes, and comes to the same places.
pub(crate) fn trace(
    alloc: Global,
    setting: &Setting<'_>,
    source: &str,
) -> Result<String, AllocError> {
    let (one, other) = (setting.delimiters.clone()?, setting.delimiters.clone()?);
    if one.validate(alloc).is_err() || other.validate(alloc).is_err() {
        return Ok(String::new(alloc));
    }
    let mut taking = Cursor::new(tokenize(alloc, source, one));
    let mut skipping = Cursor::new(tokenize(alloc, source, other));
    steps(alloc, setting.file, &mut taking, &mut skipping)
}

fn steps(
    alloc: Global,
    file: &str,
    taking: &mut Cursor<'_>,
    skipping: &mut Cursor<'_>,
) -> Result<String, AllocError> {
    let mut text = String::new(alloc);
    for _place in 0..u64::MAX {
        if taking.at_end() {
            break;
        }
        let line = step(alloc, file, taking, skipping)?;
        text.push_str(line.as_str())?;
        text.push_str("\n")?;
    }
    let end = last(alloc, file, taking)?;
    text.push_str(end.as_str())?;
    Ok(text)
}

// What is seen from where the cursor is, which is then taken.
fn step(
    alloc: Global,
    file: &str,
    taking: &mut Cursor<'_>,
    skipping: &mut Cursor<'_>,
) -> Result<String, AllocError> {
    let seen = seen(alloc, taking)?;
    let was_seen = taking.first().is_some();
    match taking.next_or_eoi() {
        Ok(_token) => taken(alloc, seen.as_str(), taking, skipping),
        Err(error) => {
            let is_after = was_seen || skipping.skip();
            refused(alloc, file, seen.as_str(), is_after, &error)
        }
    }
}

// After a token that was taken, which the other cursor skips.
fn taken(
    alloc: Global,
    seen: &str,
    taking: &Cursor<'_>,
    skipping: &mut Cursor<'_>,
) -> Result<String, AllocError> {
    if skipping.skip() && skipping.current_span() == taking.current_span() {
        String::from_str(alloc, seen)
    } else {
        format!(in alloc; "{seen}, which is not skipped")
    }
}

// Where no token was taken, which was not to be shown ahead either.
fn refused(
    alloc: Global,
    file: &str,
    seen: &str,
    was_seen: bool,
    error: &Error,
) -> Result<String, AllocError> {
    let reported = error_text(alloc, file, Detail::Start, error)?;
    if was_seen {
        format!(in alloc; "{seen}what was shown is {reported}")
    } else {
        format!(in alloc; "{seen}{reported}")
    }
}

// The tokens that the cursor shows.
fn seen(alloc: Global, cursor: &Cursor<'_>) -> Result<String, AllocError> {
    let place = &cursor.current_span().range;
    match (cursor.first(), cursor.first_span(), cursor.second()) {
        (Some(first), Some(span), Some(second)) => {
            let range = &span.range;
            format!(in alloc; "{place:?} sees {range:?} {first:?} and {second:?}")
        }
        (Some(first), Some(span), None) => {
            let range = &span.range;
            format!(in alloc; "{place:?} sees {range:?} {first:?}")
        }
        _ => format!(in alloc; "{place:?} sees nothing: "),
    }
}

// The end of the input, which is reported again and again.
fn last(alloc: Global, file: &str, cursor: &mut Cursor<'_>) -> Result<String, AllocError> {
    let place = format!(in alloc; "{:?} sees the end: ", &cursor.current_span().range)?;
    let reported = error_text(alloc, file, Detail::Both, &cursor.eoi())?;
    let again = match cursor.next_or_eoi() {
        Ok(_) => String::from_str(alloc, "a token")?,
        Err(error) => error_text(alloc, file, Detail::Both, &error)?,
    };
    if again == reported {
        format!(in alloc; "{place}{reported}")
    } else {
        format!(in alloc; "{place}{reported}, and then {again}")
    }
}
