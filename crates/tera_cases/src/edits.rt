//! Lines, places and bytes of a text, and the text after changes.

use std::alloc::{AllocError, Global};
use text_edits::{Change, Encoding, Lines, Position, byte_at, edited, position_at};

/// The answer to what is asked of a text, with positions in the encoding.
pub(crate) fn edits(alloc: Global, encoding: Encoding, source: &str) -> Result<String, AllocError> {
    match answer(alloc, encoding, source)? {
        Some(answer) => Ok(answer),
        None => String::from_str(alloc, "nothing that is known is asked"),
    }
}

fn answer(alloc: Global, encoding: Encoding, source: &str) -> Result<Option<String>, AllocError> {
    let Some((asked, text)) = source.split_once(" in ") else {
        return Ok(None);
    };
    if asked == "lines" {
        return count_of(alloc, text);
    }
    if let Some(byte) = asked.strip_prefix("byte ") {
        return place_of(alloc, encoding, byte, text);
    }
    if let Some(place) = asked.strip_prefix("place ") {
        return byte_of(alloc, encoding, place, text);
    }
    text_after(alloc, encoding, asked, text)
}

fn number(word: &str) -> Option<usize> {
    word.parse::<usize>().ok()
}

// A line and a character, with a colon between them.
fn place(word: &str) -> Option<Position> {
    let (line, character) = word.split_once(":")?;
    Some(Position {
        line: number(line)?,
        character: number(character)?,
    })
}

fn count_of(alloc: Global, text: &str) -> Result<Option<String>, AllocError> {
    let lines = Lines::of(alloc, text)?;
    let count = lines.count();
    Ok(Some(format!(in alloc; "{count}")?))
}

fn place_of(
    alloc: Global,
    encoding: Encoding,
    byte: &str,
    text: &str,
) -> Result<Option<String>, AllocError> {
    let Some(byte) = number(byte) else {
        return Ok(None);
    };
    let lines = Lines::of(alloc, text)?;
    let Position { line, character } = position_at(text, &lines, encoding, byte);
    Ok(Some(format!(in alloc; "{line}:{character}")?))
}

fn byte_of(
    alloc: Global,
    encoding: Encoding,
    word: &str,
    text: &str,
) -> Result<Option<String>, AllocError> {
    let Some(position) = place(word) else {
        return Ok(None);
    };
    let lines = Lines::of(alloc, text)?;
    let byte = byte_at(text, &lines, encoding, position);
    Ok(Some(format!(in alloc; "{byte}")?))
}

fn text_after(
    alloc: Global,
    encoding: Encoding,
    asked: &str,
    text: &str,
) -> Result<Option<String>, AllocError> {
    let mut changes = Vec::new(alloc);
    for word in asked.strip_suffix("]").unwrap_or(asked).split("], ") {
        let Some(change) = change(word) else {
            return Ok(None);
        };
        changes.push(change)?;
    }
    Ok(Some(edited(alloc, text, encoding, changes.as_slice())?))
}

// A range and a new text after `[`, or that alone.
fn change(word: &str) -> Option<Change<'_>> {
    let (range, new) = word.split_once("[")?;
    if range.is_empty() {
        return Some(Change::Whole(new));
    }
    let (start, end) = range.strip_suffix(" ")?.split_once("-")?;
    Some(Change::Part(place(start)?, place(end)?, new))
}
