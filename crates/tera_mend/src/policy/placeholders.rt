//! What is written in the place of a tag.

use crate::edits::{Edit, is_fixed, push_blanks};
use crate::policy::tags::Tag;
use crate::policy::words::{Body, Role, end_word, split_name};
use std::alloc::{AllocError, Global};
use std::str;

fn has_fixed(bytes: &[u8]) -> bool {
    bytes.iter().any(|byte| is_fixed(*byte))
}

// White space in as many characters of the same lengths; those of four bytes stay.
fn push_white(to: &mut Vec<u8>, old: &[u8]) -> Result<(), AllocError> {
    let Ok(text) = str::from_utf8(old) else {
        return push_blanks(to, old);
    };
    for (at, char) in text.char_indices() {
        match char.len_utf8() {
            1 => to.push(if char == '\n' { b'\n' } else { b' ' })?,
            2 => to.extend_from_slice("\u{a0}".as_bytes())?,
            3 => to.extend_from_slice("\u{3000}".as_bytes())?,
            _ => push_blanks(to, old.get(at..at.saturating_add(4)).unwrap_or(b""))?,
        }
    }
    Ok(())
}

/// A comment of the same length, with the same line feeds and characters; white space where there is no room for one.
fn push_comment(to: &mut Vec<u8>, old: &[u8]) -> Result<(), AllocError> {
    let mut len = 0usize;
    for (at, byte) in old.iter().enumerate() {
        if *byte != b'\n' {
            len = at.saturating_add(1);
        }
    }
    let (whole, feeds) = old.split_at_checked(len).unwrap_or((old, b""));
    match whole {
        [first, second, inside @ .., third, last]
            if !has_fixed(&[*first, *second, *third, *last]) => {
            to.extend_from_slice(b"{#")?;
            push_blanks(to, inside)?;
            to.extend_from_slice(b"#}")?;
        }
        _ => push_white(to, whole)?,
    }
    to.extend_from_slice(feeds)
}

/// A comment in the place of these bytes.
pub(crate) fn comment(alloc: Global, start: usize, old: &[u8]) -> Result<Edit, AllocError> {
    let mut bytes = Vec::new(alloc);
    push_comment(&mut bytes, old)?;
    Ok(Edit { at: start, bytes })
}

// The tag with this inside after its first bytes, and blanks for what else is there; where a tag may not hold that,
// it is in a comment after. None where there is no room.
fn written(
    alloc: Global,
    tag: &Tag<'_>,
    first: usize,
    inside: &[u8],
) -> Result<Option<Edit>, AllocError> {
    let Some((_, after)) = tag.whole.split_at_checked(first) else {
        return Ok(None);
    };
    let Some((old, rest)) = after.split_at_checked(inside.len()) else {
        return Ok(None);
    };
    let [third, last, more @ ..] = rest else {
        return Ok(None);
    };
    if has_fixed(old) {
        return Ok(None);
    }
    let mut bytes = Vec::new(alloc);
    bytes.extend_from_slice(inside)?;
    if tag.closed && rest.iter().all(|byte| byte.is_ascii()) {
        let blank = rest.strip_suffix(b"%}").unwrap_or(rest);
        let blank = blank.strip_suffix(b"-").unwrap_or(blank);
        push_blanks(&mut bytes, blank)?;
        bytes.extend_from_slice(rest.strip_prefix(blank).unwrap_or(b""))?;
    } else {
        if has_fixed(&[*third, *last]) {
            return Ok(None);
        }
        bytes.extend_from_slice(b"%}")?;
        push_comment(&mut bytes, more)?;
    }
    Ok(Some(Edit {
        at: tag.start.saturating_add(first),
        bytes,
    }))
}

/// The tag with this inside right after its start.
pub(crate) fn squeezed(
    alloc: Global,
    tag: &Tag<'_>,
    inside: &[u8],
) -> Result<Option<Edit>, AllocError> {
    written(alloc, tag, tag.opening.len(), inside)
}

// The tag with a word, a name and what is after it, from where its word is, or else right after its start.
fn put(
    alloc: Global,
    tag: &Tag<'_>,
    word: &[u8],
    name: &[u8],
    after: &[u8],
) -> Result<Option<Edit>, AllocError> {
    let mut inside = Vec::new(alloc);
    inside.extend_from_slice(word)?;
    inside.extend_from_slice(name)?;
    inside.extend_from_slice(after)?;
    let first = tag.opening.len().saturating_add(tag.white.len());
    match written(alloc, tag, first, inside.as_slice())? {
        Some(edit) => Ok(Some(edit)),
        None => squeezed(alloc, tag, inside.as_slice()),
    }
}

/// A tag of this role that is well-formed, with as much of the tag as can be kept; none where there is no room.
pub(crate) fn placeholder(
    alloc: Global,
    tag: &Tag<'_>,
    role: Role,
) -> Result<Option<Edit>, AllocError> {
    let name = spaced_name(tag.rest, false).unwrap_or(b" _");
    match role {
        Role::Head(Body::If) => put(alloc, tag, b"if", b"", b" 0"),
        Role::Head(Body::For) => loop_over_nothing(alloc, tag, name),
        Role::Head(Body::Block) => put(alloc, tag, b"block", name, b""),
        Role::Head(Body::Filter) => put(alloc, tag, b"filter", b" _", b""),
        Role::Head(Body::Set) => match tag.word {
            b"set_global" => put(alloc, tag, b"set_global", name, b""),
            _ => put(alloc, tag, b"set", name, b""),
        },
        Role::Head(Body::Component) => component_of_anything(alloc, tag),
        Role::End(Body::Call) => put(alloc, tag, b"</", tag.name(), b">"),
        Role::End(body) => put(alloc, tag, end_word(body), b"", b""),
        Role::Else => put(alloc, tag, b"else", b"", b""),
        Role::Elif => put(alloc, tag, b"elif", b"", b" 0"),
        _ => Ok(None),
    }
}

// White space and a name after it.
fn spaced_name(bytes: &[u8], dots: bool) -> Option<&[u8]> {
    let trimmed = bytes.trim_ascii_start();
    let (name, after) = split_name(trimmed, dots);
    if name.is_empty() || trimmed.len() == bytes.len() {
        return None;
    }
    bytes.strip_suffix(after)
}

// A loop over nothing, with its variables where these can be read.
fn loop_over_nothing(
    alloc: Global,
    tag: &Tag<'_>,
    name: &[u8],
) -> Result<Option<Edit>, AllocError> {
    let names = second_name(tag.rest, name).unwrap_or(name);
    match put(alloc, tag, b"for", names, b" in 0")? {
        Some(edit) => Ok(Some(edit)),
        None => put(alloc, tag, b"for", b" _", b" in 0"),
    }
}

// The first name with a second after a comma.
fn second_name<'t>(rest: &'t [u8], first: &[u8]) -> Option<&'t [u8]> {
    let after = rest.strip_prefix(first)?.trim_ascii_start();
    let second = after.strip_prefix(b",")?.trim_ascii_start();
    let (name, after) = split_name(second, false);
    if name.is_empty() {
        return None;
    }
    rest.strip_suffix(after)
}

// A component of this name that takes whatever it is given. None where there is no room: one that takes nothing would make
// calls of it wrong.
fn component_of_anything(alloc: Global, tag: &Tag<'_>) -> Result<Option<Edit>, AllocError> {
    let Some(name) = spaced_name(tag.rest, true) else {
        return Ok(None);
    };
    put(alloc, tag, b"component", name, b"(...r)")
}

/// The tag with another word and the rest as it is; none where there is no room. Where its word begins with that one,
/// there was no white space after it.
pub(crate) fn with_word(
    alloc: Global,
    tag: &Tag<'_>,
    word: &str,
) -> Result<Option<Edit>, AllocError> {
    let mut bytes = Vec::from_slice(alloc, word.as_bytes())?;
    if let Some(name) = tag.word.strip_prefix(word.as_bytes())
        && (name.len() > 2 || tag.rest.trim_ascii_start().len() < 2)
    {
        bytes.push(b' ')?;
        bytes.extend_from_slice(name)?;
    }
    let old = tag.white.len().saturating_add(tag.word.len());
    if !tag.closed || has_fixed(tag.white) || bytes.len() > old {
        return Ok(None);
    }
    for _ in bytes.len()..old {
        bytes.push(b' ')?;
    }
    Ok(Some(Edit {
        at: tag.start.saturating_add(tag.opening.len()),
        bytes,
    }))
}

/// A name of the same length that no tag has; none where none was found.
pub(crate) fn other_name(
    alloc: Global,
    tags: &Vec<Tag<'_>>,
    start: usize,
    len: usize,
) -> Result<Option<Edit>, AllocError> {
    for letter in b"_ABCDEFGHIJKLMNOPQRSTUVWXYZ" {
        let bytes = vec![in alloc; *letter; len]?;
        let name = bytes.as_slice();
        if !tags.iter().any(|tag| tag.name().ends_with(name)) {
            return Ok(Some(Edit { at: start, bytes }));
        }
    }
    Ok(None)
}
