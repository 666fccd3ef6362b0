//! Where a fault is in the text of a file.

ghost use Rattle.std.specs.Prelude.{◌≡◌, map, Contains, IfOk, IfSome, string_bytes};
ghost use Rattle.std.specs.Bool.{OnTrue};
ghost use Rattle.std.specs.Option.{option_map};
ghost use Rattle.tera_settings.specs.Places.{HasKeyAt, HasPartsAt, IsKeyOf, IsPlaceOf};

use crate::fault::Fault;
use std::alloc::{AllocError, Global};
use toml_parser::text::first;
use toml_parser::{Key, ParseError, dotted_key, quoted, starts_string};

impl Fault {
    /// The byte of the text from which the fault is, if that is known: of a member where its key is, or that of its table.
    pub fn place(&self, alloc: Global, text: &str) -> Result<Option<usize>, AllocError>
        ensures { IfOk result (λ place. IfSome place (IsPlaceOf text.now self.now)) }
    {
        match self {
            Fault::Memory => Ok(None),
            Fault::Text(error) => match error.span() {
                Some(span) => Ok(Some(span.start)),
                None => Ok(None),
            },
            Fault::Member(wrong) => place_of(alloc, text, wrong.table, wrong.key.as_str()),
        }
    }
}

/// The byte of the text at which the key of a member is, or that of its table, if it is known.
pub fn place_of(
    alloc: Global,
    text: &str,
    table: Option<&str>,
    key: &str,
) -> Result<Option<usize>, AllocError>
    ensures { IfOk result (λ place. IfSome place
        (IsKeyOf text.now key.now (option_map (λ t. t.now) table.entry))) }
{
    let place = key_place(alloc, text, table, key)?;
    match (place, table) {
        // The table may be written inside braces.
        (None, Some(table)) => key_place(alloc, text, None, table),
        _ => Ok(place),
    }
}

// Where the first key is that leads to the member of this name.
fn key_place(
    alloc: Global,
    text: &str,
    table: Option<&str>,
    name: &str,
) -> Result<Option<usize>, AllocError>
    ensures { IfOk result (λ place. IfSome place (λ at. HasKeyAt text.now at name.now)) }
{
    let mut header = Vec::new(alloc);
    for start in line_starts(alloc, text)? {
        let line = text.get(start..).unwrap_or("");
        let at = start.saturating_add(key_start(line));
        if let Some(parts) = parts_at(alloc, text, at)? {
            if leads(&mut header, is_header(line), parts, table, name) {
                return Ok(Some(at));
            }
        }
    }
    Ok(None)
}

// Where lines begin that may have a key: not in a string, an array or a table in braces, and after a byte order mark.
fn line_starts(alloc: Global, text: &str) -> Result<Vec<usize>, AllocError> {
    let mut starts = Vec::new(alloc);
    starts.push(if text.starts_with('\u{feff}') { 3 } else { 0 })?;
    let mut passed = 0;
    let mut depth = 0usize;
    for (at, letter) in text.char_indices() {
        if at < passed {
            continue;
        }
        match letter {
            '"' | '\'' => passed = string_end(alloc, text, at)?,
            '#' => passed = comment_end(text, at),
            '[' | '{' => depth = depth.saturating_add(1),
            ']' | '}' => depth = depth.saturating_sub(1),
            '\n' if depth == 0 => starts.push(at.saturating_add(1))?,
            _ => {}
        }
    }
    Ok(starts)
}

// Where the string ends that begins there, in one line or in several.
fn string_end(alloc: Global, text: &str, at: usize) -> Result<usize, AllocError> {
    let string = text.get(at..).unwrap_or("");
    if !starts_string(string) {
        return Ok(at);
    }
    match quoted(alloc, string) {
        Ok((_, after)) => Ok(text.len().saturating_sub(after.len())),
        Err(ParseError::OutOfMemory) => Err(AllocError),
        Err(_) => Ok(text.len()),
    }
}

fn comment_end(text: &str, at: usize) -> usize {
    let comment = text.get(at..).unwrap_or("");
    match comment.find('\n') {
        Some(len) => at.saturating_add(len),
        None => text.len(),
    }
}

// What is before the key in its line.
fn key_start(line: &str) -> usize {
    let key = line.trim_start_matches([' ', '\t', '[']);
    line.len().saturating_sub(key.len())
}

fn is_header(line: &str) -> bool {
    line.trim_start_matches([' ', '\t']).starts_with('[')
}

// The parts of the key that the text has there, up to an equals sign or the end of a header.
fn parts_at(alloc: Global, text: &str, at: usize) -> Result<Option<Vec<String>>, AllocError>
    ensures { IfOk result (λ parts. IfSome parts (λ parts. HasPartsAt text.now at (map string_bytes parts.items))) }
{
    let Some(rest) = text.get(at..) else {
        return Ok(None);
    };
    match dotted_key(alloc, rest) {
        Ok((key, after)) => {
            let Key { mut path, last } = key;
            path.push(last)?;
            if matches!(first(after), b'=' | b']') {
                Ok(Some(path))
            } else {
                Ok(None)
            }
        }
        Err(ParseError::OutOfMemory) => Err(AllocError),
        Err(_) => Ok(None),
    }
}

// Whether the key leads to the member, under the last header. A header's own key is the next header.
fn leads(
    header: &mut Vec<String>,
    is_header: bool,
    parts: Vec<String>,
    table: Option<&str>,
    name: &str,
) -> bool
    ensures { OnTrue result (Contains (map string_bytes parts.items) name.now) }
{
    if is_header {
        let found = is_path(&[], parts.as_slice(), table, name);
        *header = parts;
        found
    } else {
        is_path(header.as_slice(), parts.as_slice(), table, name)
    }
}

fn is_path(header: &[String], parts: &[String], table: Option<&str>, name: &str) -> bool
    ensures { OnTrue result (Contains (map string_bytes parts.now) name.now) }
{
    match (table, header.len()) {
        (None, 0) => is_part(parts, 0, name),
        (Some(table), 0) => is_part(parts, 0, table) && is_part(parts, 1, name),
        (Some(table), 1) => is_part(header, 0, table) && is_part(parts, 0, name),
        _ => false,
    }
}

fn is_part(parts: &[String], index: usize, name: &str) -> bool
    ensures { OnTrue result (Contains (map string_bytes parts.now) name.now) }
{
    match parts.get(index) {
        Some(part) => part.as_str() == name,
        None => false,
    }
}
