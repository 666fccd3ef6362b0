//! Characters as they are shown on a line of a terminal.

ghost use Rattle.std.specs.Prelude.{◌≡◌, ◌++◌, ◌≤◌, length, chars, encode_utf8_all, string_bytes, IfOk, OnOk};
ghost use Rattle.terminal_text.specs.Shown.{seen as seen_as, shown, shown_as, width, columns};

use line_text::{is_printable, is_unsafe};
use std::alloc::AllocError;
use unicode_width::UnicodeWidthChar;

// Adds the characters as a line of a source shows them, a tab as four spaces, and answers how many columns they take.
pub(crate) fn push_shown(to: &mut String, text: &str) -> Result<usize, AllocError>
    requires { length (chars text.now) ≤ 120 }
    ensures text { OnOk result (string_bytes to.new
        ≡ string_bytes to.old ++ encode_utf8_all (shown (chars text.now))) }
    ensures columns { IfOk result (λ n. n ≡ columns (shown (chars text.now))) }
    ensures few { IfOk result (λ n. n ≤ 480) }
{
    if is_printable(text) {
        to.push_str(text)?;
        return Ok(text.len());
    }
    let mut columns = 0;
    for character in text.chars() {
        columns += push_character(to, character)?;
    }
    Ok(columns)
}

// Adds the character as a line of a source shows it, and answers how many columns that takes.
pub(crate) fn push_character(to: &mut String, character: char) -> Result<usize, AllocError>
    ensures text { OnOk result (string_bytes to.new
        ≡ string_bytes to.old ++ encode_utf8_all (shown_as character)) }
    ensures columns { IfOk result (λ n. n ≡ columns (shown_as character)) }
    ensures few { IfOk result (λ n. n ≤ 4) }
{
    if character == '\t' {
        to.push_str("    ")?;
        return Ok(4);
    }
    let seen = seen(character);
    to.push(seen)?;
    Ok(columns_of(seen))
}

// How many columns the character takes.
fn columns_of(character: char) -> usize
    ensures width { result ≡ width character }
    ensures few { result ≤ 3 }
{
    match character.width() {
        Some(width) => width,
        None => 0,
    }
}

// The character, or what is shown in its place where it is not safe.
fn seen(character: char) -> char
    ensures { result ≡ seen_as character }
{
    if is_unsafe(character) {
        '\u{fffd}'
    } else {
        character
    }
}
