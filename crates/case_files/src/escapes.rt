//! Escapes: a text in which a backslash stands for what cannot be seen.

use std::alloc::{AllocError, Global};

// What was read of an escape.
#[derive(Clone, Copy)]
enum Place {
    // No escape is open.
    Text,
    // A backslash was read.
    Backslash,
    // A backslash and a `u` were read.
    Letter,
    // The number of a character is being read, and this is what came of it.
    Number(u32),
}

/// The text without its escapes; none if one of them is unknown.
///
/// `\n` is a line feed, `\r` a carriage return, `\t` a tab, `\s` a blank, `\e` nothing, `\\` a backslash, and
/// `\u{a0}` the character of this number.
pub(crate) fn without_escapes(alloc: Global, text: &str) -> Result<Option<String>, AllocError> {
    let mut out = String::new(alloc);
    let mut place = Place::Text;
    for c in text.chars() {
        let Some(next) = step(&mut out, place, c)? else {
            return Ok(None);
        };
        place = next;
    }
    match place {
        Place::Text => Ok(Some(out)),
        _ => Ok(None),
    }
}

// Takes one more character; none if no escape goes on by it.
fn step(out: &mut String, place: Place, c: char) -> Result<Option<Place>, AllocError> {
    match place {
        Place::Text => text(out, c),
        Place::Backslash => letter(out, c),
        Place::Letter => Ok(if c == '{' {
            Some(Place::Number(0))
        } else {
            None
        }),
        Place::Number(number) => digit(out, number, c),
    }
}

fn text(out: &mut String, c: char) -> Result<Option<Place>, AllocError> {
    if c == '\\' {
        return Ok(Some(Place::Backslash));
    }
    out.push(c)?;
    Ok(Some(Place::Text))
}

fn letter(out: &mut String, c: char) -> Result<Option<Place>, AllocError> {
    match c {
        'n' => out.push('\n')?,
        'r' => out.push('\r')?,
        't' => out.push('\t')?,
        's' => out.push(' ')?,
        '\\' => out.push('\\')?,
        'e' => (),
        'u' => return Ok(Some(Place::Letter)),
        _ => return Ok(None),
    }
    Ok(Some(Place::Text))
}

fn digit(out: &mut String, number: u32, c: char) -> Result<Option<Place>, AllocError> {
    if c == '}' {
        return match char::from_u32(number) {
            Some(written) => {
                out.push(written)?;
                Ok(Some(Place::Text))
            }
            None => Ok(None),
        };
    }
    Ok(match c.to_digit(16) {
        Some(value) => Some(Place::Number(number.saturating_mul(16).saturating_add(value))),
        None => None,
    })
}
