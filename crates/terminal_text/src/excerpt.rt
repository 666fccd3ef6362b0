//! The line of a source that a place names, with a mark below it.

ghost use Rattle.std.specs.Prelude.{◌≡◌, ◌++◌, ◌∷◌, [], ◌<◌, ◌≤◌, ℕ, List, length, replicate, chars, decimal, encode_utf8_all, string_bytes, Some, IfOk, OnOk};
ghost use Rattle.terminal_text.specs.Excerpt.{window_of, ellipsis as ellipsis_of, shown_before, shown_line, frame, mark_line, excerpt, window_text};
ghost use Rattle.terminal_text.specs.Texts.{window_view};
ghost use Rattle.terminal_text.specs.Shown.{shown, columns};
ghost use Rattle.terminal_text.specs.Files.{source_of};
ghost use Rattle.terminal_text.specs.Lines.{line_at};
ghost use Rattle.terminal_text.specs.Styled.{styled};
ghost use Rattle.terminal_text.specs.declared.style.Part.TheVariants as parts;

use crate::lines::{Line, split_characters};
use crate::shown::{push_character, push_shown};
use crate::source::Sources;
use crate::style::{Part, Style};
use std::alloc::{AllocError, Global};

// So many characters of a line are shown, and at most so many of them before the mark, if more come after it.
const SHOWN: usize = 120;

const BEFORE: usize = 60;

// The number of the line takes so many columns at least.
const DIGITS: usize = 5;

/// The characters of a line that have a mark below them.
#[derive(Clone, Copy, Debug)]
pub struct Marked {
    /// The line, from 1.
    pub line: usize,
    /// The first of them, from 0. Beyond the end of the line the mark comes after its last character.
    pub start: usize,
    /// The first character after them, from 0, or none, if they go to the end of the line.
    pub end: Option<usize>,
}

/// Adds the line of the source, with its number, and below it a mark of one column at least, in the colour of the part. A
/// tab is shown as four spaces, and what a terminal would obey as `�`. Of a line longer than 120 characters 120 are shown,
/// from 60 before the mark on, and `…` for the others. Where the source or its line is not there, nothing is added.
pub fn push_excerpt(
    alloc: Global,
    to: &mut String,
    style: Style,
    part: Part,
    sources: &mut Sources<'_>,
    file: &str,
    marked: Marked,
) -> Result<(), AllocError>
    ensures text { OnOk result (string_bytes to.new ≡ string_bytes to.old
        ++ excerpt style part marked (line_at (source_of sources.old file.now) marked.line)) }
    ensures same { (other : List ℕ) → source_of sources.new other ≡ source_of sources.old other }
{
    match sources.window(alloc, file, marked)? {
        Some(window) => push_marked(alloc, to, style, part, &window, marked.line),
        None => Ok(()),
    }
}

// Adds what is shown of the line of this number, and the line of the mark.
fn push_marked(
    alloc: Global,
    to: &mut String,
    style: Style,
    part: Part,
    window: &Window<'_>,
    number: usize,
) -> Result<(), AllocError>
    requires before { length (window_view window.now).before ≤ 120 }
    requires marked { length (window_view window.now).marked ≤ 120 }
    requires following { length (window_view window.now).following ≤ 120 }
    ensures { OnOk result (string_bytes to.new
        ≡ string_bytes to.old ++ window_text style part number (window_view window.now)) }
{
    let number = number.to_string(alloc)?;
    let text = number.as_str();
    let digits = text.len().max(DIGITS);
    push_frame(alloc, to, style, digits, text)?;
    let (before, above) = push_window(to, window)?;
    to.push('\n')?;
    push_mark(alloc, to, style, part, digits, before, above)
}

// Adds the line of the mark, after so many columns and below so many.
fn push_mark(
    alloc: Global,
    to: &mut String,
    style: Style,
    part: Part,
    digits: usize,
    before: usize,
    above: usize,
) -> Result<(), AllocError>
    ensures { OnOk result (string_bytes to.new
        ≡ string_bytes to.old ++ mark_line style part digits before above) }
{
    let mut mark = String::new(alloc);
    push_repeated(&mut mark, '^', above.max(1))?;
    push_frame(alloc, to, style, digits, "")?;
    push_repeated(to, ' ', before)?;
    style.push(to, part, mark.as_str())?;
    to.push('\n')
}

// Adds what is before a line and before its mark: the number, or nothing, in so many columns, and a bar.
fn push_frame(
    alloc: Global,
    to: &mut String,
    style: Style,
    digits: usize,
    number: &str,
) -> Result<(), AllocError>
    ensures { OnOk result (string_bytes to.new
        ≡ string_bytes to.old ++ styled style parts.Frame (frame digits number.now)) }
{
    let mut text = String::new(alloc);
    push_repeated(&mut text, ' ', digits.saturating_sub(number.len()))?;
    text.push_str(number)?;
    text.push_str(" | ")?;
    style.push(to, Part::Frame, text.as_str())
}

// Adds the character so many times.
fn push_repeated(to: &mut String, character: char, count: usize) -> Result<(), AllocError>
    requires { character < 128 }
    ensures { OnOk result (string_bytes to.new
        ≡ string_bytes to.old ++ replicate count character) }
{
    for _time in 0..count {
        to.push(character)?;
    }
    Ok(())
}

// The characters of a line: those left out at its start, those shown before the mark, above it and after it, and those
// left out at its end.
#[derive(Drop)]
pub(crate) struct Window<'a> {
    left_out: &'a str,
    before: &'a str,
    marked: &'a str,
    following: &'a str,
    beyond: &'a str,
}

impl<'a> Window<'a> {
    // What is shown of the line, by where it is marked.
    pub(crate) fn of(line: &Line<'a>, mark: Marked) -> Window<'a>
        ensures { window_view result ≡ window_of (chars line.now) mark }
    {
        let length = line.characters();
        let start = mark.start.min(length);
        let end = mark.end.unwrap_or(length);
        let first = start
            .saturating_sub(BEFORE)
            .min(length.saturating_sub(SHOWN));
        let (left_out, rest) = line.split(first);
        let (shown, beyond) = split_characters(rest, SHOWN);
        let (before, from) = split_characters(shown, start - first);
        let (marked, following) = split_characters(from, end.saturating_sub(start));
        Window {
            left_out,
            before,
            marked,
            following,
            beyond,
        }
    }
}

// Adds the line as it is shown, and answers how many columns are before the mark, and how many above it.
fn push_window(to: &mut String, window: &Window<'_>) -> Result<(usize, usize), AllocError>
    requires before { length (window_view window.now).before ≤ 120 }
    requires marked { length (window_view window.now).marked ≤ 120 }
    requires following { length (window_view window.now).following ≤ 120 }
    ensures text { OnOk result (string_bytes to.new
        ≡ string_bytes to.old ++ encode_utf8_all (shown_line (window_view window.now))) }
    ensures columns { IfOk result (λ n. n ≡ (
      columns (shown_before (window_view window.now)),
      columns (shown (window_view window.now).marked),
    )) }
{
    let left_out = push_ellipsis(to, window.left_out)?;
    let before = left_out + push_shown(to, window.before)?;
    let above = push_shown(to, window.marked)?;
    push_shown(to, window.following)?;
    push_ellipsis(to, window.beyond)?;
    Ok((before, above))
}

// Adds what stands for characters that are left out, and answers how many columns it takes.
fn push_ellipsis(to: &mut String, left_out: &str) -> Result<usize, AllocError>
    ensures text { OnOk result (string_bytes to.new
        ≡ string_bytes to.old ++ encode_utf8_all (ellipsis_of (chars left_out.now))) }
    ensures columns { IfOk result (λ n. n ≡ columns (ellipsis_of (chars left_out.now))) }
    ensures few { IfOk result (λ n. n ≤ 4) }
{
    if left_out.is_empty() {
        return Ok(0);
    }
    push_character(to, '…')
}
