//! Where a text has a word.

ghost use Rattle.std.specs.Prelude.{◌≡◌, ◌≤◌, ◌+◌, drop, length};
ghost use Rattle.std.specs.List.{prefix_len};
ghost use Rattle.tera_templates.specs.Boundaries.{is_boundary};
ghost use Rattle.tera_fixes.specs.Parts.{argument_end, argument_part, between_characters, has_equals, has_room, is_closing, is_mark, name_before, part_after, part_at, part_before, part_ending, without_marks};

/// The bytes of a text from `start` on and before `end`.
#[derive(Clone, Copy, Debug, PartialEq, Eq)]
pub struct Part {
    pub start: usize,
    pub end: usize,
}

// What may be between the name of a component or an argument and the place of a finding, apart from white space.
const MARKS: &[u8] = b"<>={(";

// What may be after the value of an argument, apart from white space.
const CLOSING: &[u8] = b")}";

/// Where the text has the word, if only marks and white space are between the byte and the word.
pub(crate) fn part_after(text: &str, word: &str, byte: usize) -> Option<Part>
    ensures { result ≡ part_after text.now word.now byte }
{
    if byte <= text.len() {
        part_at(text, word, byte + marks_len(text, byte))
    } else {
        None
    }
}

/// Where the text has the word, if only marks and white space are between the word and the byte.
pub(crate) fn part_before(text: &str, word: &str, byte: usize) -> Option<Part>
    ensures { result ≡ part_before text.now word.now byte }
{
    if byte <= text.len() {
        let (front, _) = text.as_bytes().split_at(byte);
        part_ending(text, word, without_marks(front).len())
    } else {
        None
    }
}

/// Where the text has the name of an argument whose value begins with the byte.
pub(crate) fn name_before(text: &str, name: &str, byte: usize) -> Option<Part>
    ensures { result ≡ name_before text.now name.now byte }
{
    let part = part_before(text, name, byte)?;
    if has_equals(text, part.end, byte) {
        Some(part)
    } else {
        None
    }
}

// Whether a `=` is between these bytes.
fn has_equals(text: &str, start: usize, end: usize) -> bool
    ensures { result ≡ has_equals text.now start end }
{
    let Some(between) = text.as_bytes().get(start..end) else {
        return false;
    };
    between.contains(&b'=')
}

/// The argument that begins with the byte `start`, and whose value ends with the byte `end`: up to the brackets around
/// the value, and white space.
pub(crate) fn argument_part(text: &str, start: usize, end: usize) -> Option<Part>
    ensures { result ≡ argument_part text.now start end }
{
    let end = argument_end(text, end)?;
    if start <= end {
        Some(Part { start, end })
    } else {
        None
    }
}

// Where an argument ends, if its value ends with the byte.
fn argument_end(text: &str, byte: usize) -> Option<usize>
    ensures { result ≡ argument_end text.now byte }
{
    if byte <= text.len() {
        between_characters(text, byte + closing_len(text, byte))
    } else {
        None
    }
}

// The byte, if it is between characters.
fn between_characters(text: &str, byte: usize) -> Option<usize>
    ensures { result ≡ between_characters text.now byte }
{
    if is_boundary(text, byte) {
        Some(byte)
    } else {
        None
    }
}

// Where the text has the word, if that ends with this byte.
fn part_ending(text: &str, word: &str, end: usize) -> Option<Part>
    ensures { result ≡ part_ending text.now word.now end }
{
    if word.len() <= end {
        part_at(text, word, end - word.len())
    } else {
        None
    }
}

// Where the text has the word, if that begins with this byte.
fn part_at(text: &str, word: &str, start: usize) -> Option<Part>
    ensures { result ≡ part_at text.now word.now start }
{
    if !has_room(text, word, start) {
        return None;
    }
    let end = start + word.len();
    let there = &text.as_bytes()[start..end];
    if there == word.as_bytes() && is_boundary(text, start) && is_boundary(text, end) {
        Some(Part { start, end })
    } else {
        None
    }
}

// Whether the text has as many bytes from this one on as the word.
fn has_room(text: &str, word: &str, start: usize) -> bool
    ensures { result ≡ has_room text.now word.now start }
{
    start <= text.len() && word.len() <= text.len() - start
}

/// Whether the byte is between characters of the text.
pub(crate) fn is_boundary(text: &str, at: usize) -> bool
    ensures { result ≡ is_boundary text.now at }
{
    text.is_char_boundary(at)
}

// How many bytes from this one on are marks or white space.
fn marks_len(text: &str, at: usize) -> usize
    requires { at ≤ length text.now }
    ensures count { result ≡ prefix_len is_mark (drop at text.now) }
    ensures within { at + result ≤ length text.now }
{
    let (_, rest) = text.as_bytes().split_at(at);
    rest.iter().take_while(|byte| is_mark(**byte)).count()
}

fn closing_len(text: &str, at: usize) -> usize
    requires { at ≤ length text.now }
    ensures count { result ≡ prefix_len is_closing (drop at text.now) }
    ensures within { at + result ≤ length text.now }
{
    let (_, rest) = text.as_bytes().split_at(at);
    rest.iter().take_while(|byte| is_closing(**byte)).count()
}

// The bytes without the marks and the white space at their end.
fn without_marks(bytes: &[u8]) -> &[u8]
    ensures value { result.now ≡ without_marks bytes.now }
    ensures within { length result.now ≤ length bytes.now }
{
    let mut front = bytes;
    'marks: while let Some((last, rest)) = front.split_last() {
        if !is_mark(*last) {
            return front;
        }
        front = rest;
    }
    front
}

fn is_mark(byte: u8) -> bool
    ensures { result ≡ is_mark byte }
{
    byte.is_ascii_whitespace() || MARKS.contains(&byte)
}

fn is_closing(byte: u8) -> bool
    ensures { result ≡ is_closing byte }
{
    byte.is_ascii_whitespace() || CLOSING.contains(&byte)
}
