//! The difference of two texts, as it is printed.

ghost use Rattle.std.specs.Prelude.{◌≡◌, ◌+◌, ◌<◌, ◌^◌, ◌++◌, map, sum_by, string_bytes, IfOk, OnOk};
ghost use Rattle.std.specs.List.{flat_map, AllByRecursion};
ghost use Rattle.terminal_text.specs.Differences.{difference_text, head_text, styled_line, name_text, is_special as is_special_byte, quoted_character, hunk_text, range_text, edit_text, signed_line, without_end, end_text};
ghost use Rattle.terminal_text.specs.Edits.{texts_of, edit_view};
ghost use Rattle.terminal_text.specs.Hunks.{old_lines as all_old_lines, new_lines as all_new_lines, placed_view, cut_hunks, hunks_of, old_count, new_count, Fits};

use crate::edits::{Edit, edits_of, lines_of};
use crate::hunks::{Placed, is_hidden, new_lines, old_lines, placed_of};
use crate::style::{Part, Style};
use std::alloc::{AllocError, Global};

/// The difference of two texts in unified form, as `patch -p0` takes it: hunks with three lines around what differs;
/// and nothing where the texts are the same. The lines are compared one by one, the first with the first, so a line
/// that is put in makes all after it differ: it is for texts that have as many lines, of which some are written in
/// another way. The file is named as it is; in quotes, as C writes them, where it has a space, a quote, a backslash or
/// a control character.
pub fn difference(
    alloc: Global,
    style: Style,
    file: &str,
    old: &str,
    new: &str,
) -> Result<String, AllocError>
    ensures { IfOk result (λ t.
        string_bytes t ≡ difference_text style file.now old.now new.now) }
{
    let mut text = String::new(alloc);
    if old == new {
        return Ok(text);
    }
    push_head(alloc, &mut text, style, file)?;
    let old = lines_of(alloc, old)?;
    let new = lines_of(alloc, new)?;
    let edits = edits_of(alloc, old.as_slice(), new.as_slice())?;
    push_hunks(alloc, &mut text, style, edits.as_slice())?;
    Ok(text)
}

// The hunks of the edits.
fn push_hunks(
    alloc: Global,
    text: &mut String,
    style: Style,
    edits: &[Edit<'_>],
) -> Result<(), AllocError>
    requires old { all_old_lines (map edit_view edits.now) < 2 ^ 64 }
    requires new { all_new_lines (map edit_view edits.now) < 2 ^ 64 }
    ensures { OnOk result (string_bytes text.new ≡ string_bytes text.old
        ++ flat_map (hunk_text style) (hunks_of (map edit_view edits.now))) }
{
    let placed = placed_of(alloc, edits)?;
    push_cut(alloc, text, style, placed.as_slice())
}

// The hunks between the edits that no hunk shows.
fn push_cut(
    alloc: Global,
    text: &mut String,
    style: Style,
    placed: &[Placed<'_>],
) -> Result<(), AllocError>
    requires { AllByRecursion Fits (cut_hunks (map placed_view placed.now)) }
    ensures { OnOk result (string_bytes text.new ≡ string_bytes text.old
        ++ flat_map (hunk_text style) (cut_hunks (map placed_view placed.now))) }
{
    let mut start = 0;
    'hunks: for at in 0..placed.len() {
        if is_hidden(placed[at]) {
            push_hunk(alloc, text, style, &placed[start..at])?;
            start = at + 1;
        }
    }
    push_hunk(alloc, text, style, &placed[start..])
}

fn push_head(alloc: Global, text: &mut String, style: Style, file: &str) -> Result<(), AllocError>
    ensures { OnOk result (string_bytes text.new
        ≡ string_bytes text.old ++ head_text style file.now) }
{
    let name = name_of(alloc, file)?;
    let old = format!(in alloc; "--- {name}")?;
    push_styled(text, style, Part::Place, old.as_str())?;
    let new = format!(in alloc; "+++ {name}")?;
    push_styled(text, style, Part::Place, new.as_str())
}

// The text in the colour of its part, on a line of its own.
fn push_styled(text: &mut String, style: Style, part: Part, line: &str) -> Result<(), AllocError>
    ensures { OnOk result (string_bytes text.new
        ≡ string_bytes text.old ++ styled_line style part line.now) }
{
    style.push(text, part, line)?;
    text.push_str("\n")
}

// The name of the file, as the head of a difference has it.
fn name_of(alloc: Global, file: &str) -> Result<String, AllocError>
    ensures { IfOk result (λ t. string_bytes t ≡ name_text file.now) }
{
    if !file.as_bytes().iter().any(|byte| is_special(*byte)) {
        return String::from_str(alloc, file);
    }
    let mut name = String::new(alloc);
    name.push_str("\"")?;
    'characters: for character in file.chars() {
        push_quoted(alloc, &mut name, character)?;
    }
    name.push_str("\"")?;
    Ok(name)
}

fn is_special(byte: u8) -> bool
    ensures { result ≡ is_special_byte byte }
{
    matches!(byte, 0..=b' ' | b'"' | b'\\' | 127)
}

fn push_quoted(alloc: Global, name: &mut String, character: char) -> Result<(), AllocError>
    ensures { OnOk result (string_bytes name.new
        ≡ string_bytes name.old ++ quoted_character character) }
{
    match character {
        '"' => name.push_str("\\\""),
        '\\' => name.push_str("\\\\"),
        '\0'..' ' | '\u{7f}' => {
            let code = u32::from(character);
            let octal = format!(in alloc; "\\{}{}{}", code / 64, code / 8 % 8, code % 8)?;
            name.push_str(octal.as_str())
        }
        _ => name.push(character),
    }
}

// The hunk, if it has an edit.
fn push_hunk(
    alloc: Global,
    text: &mut String,
    style: Style,
    hunk: &[Placed<'_>],
) -> Result<(), AllocError>
    requires { Fits (map placed_view hunk.now) }
    ensures { OnOk result (string_bytes text.new
        ≡ string_bytes text.old ++ hunk_text style (map placed_view hunk.now)) }
{
    if let Some(first) = hunk.first() {
        let (old, new) = lines_in(hunk);
        let old = range_of(alloc, first.old, old)?;
        let new = range_of(alloc, first.new, new)?;
        let head = format!(in alloc; "@@ -{old} +{new} @@")?;
        push_styled(text, style, Part::Frame, head.as_str())?;
        'edits: for placed in hunk {
            push_edit(alloc, text, style, placed.edit)?;
        }
    }
    Ok(())
}

// How many lines of the old text the hunk has, and how many of the new one.
fn lines_in(hunk: &[Placed<'_>]) -> (usize, usize)
    requires old { sum_by old_count hunk.now < 2 ^ 64 }
    requires new { sum_by new_count hunk.now < 2 ^ 64 }
    ensures old { result.0 ≡ sum_by old_count hunk.now }
    ensures new { result.1 ≡ sum_by new_count hunk.now }
{
    let (mut old, mut new) = (0, 0);
    'edits: for placed in hunk {
        old += old_lines(placed.edit);
        new += new_lines(placed.edit);
    }
    (old, new)
}

// So many lines after those before them, by the number of the first.
fn range_of(alloc: Global, before: usize, count: usize) -> Result<String, AllocError>
    requires { before + count < 2 ^ 64 }
    ensures { IfOk result (λ t. string_bytes t ≡ range_text before count) }
{
    match count {
        0 => format!(in alloc; "{before},0"),
        1 => format!(in alloc; "{}", before + 1),
        _ => format!(in alloc; "{},{count}", before + 1),
    }
}

fn push_edit(
    alloc: Global,
    text: &mut String,
    style: Style,
    edit: Edit<'_>,
) -> Result<(), AllocError>
    ensures { OnOk result (string_bytes text.new
        ≡ string_bytes text.old ++ edit_text style (edit_view edit.entry)) }
{
    match edit {
        Edit::Same(line) => {
            let (body, end) = parts_of(line);
            text.push_str(" ")?;
            text.push_str(body)?;
            text.push_str(end)
        }
        Edit::Other(old, new) => {
            push_lines(alloc, text, style, Part::Gone, "-", old)?;
            push_lines(alloc, text, style, Part::New, "+", new)
        }
    }
}

fn push_lines(
    alloc: Global,
    text: &mut String,
    style: Style,
    part: Part,
    sign: &str,
    lines: &[&str],
) -> Result<(), AllocError>
    ensures { OnOk result (string_bytes text.new
        ≡ string_bytes text.old ++ flat_map (signed_line style part sign.now) (texts_of lines.now)) }
{
    'lines: for line in lines {
        push_line(alloc, text, style, part, sign, line)?;
    }
    Ok(())
}

// The line after its sign, in the colour of the part.
fn push_line(
    alloc: Global,
    text: &mut String,
    style: Style,
    part: Part,
    sign: &str,
    line: &str,
) -> Result<(), AllocError>
    ensures { OnOk result (string_bytes text.new
        ≡ string_bytes text.old ++ signed_line style part sign.now line.now) }
{
    let (body, end) = parts_of(line);
    let signed = format!(in alloc; "{sign}{body}")?;
    style.push(text, part, signed.as_str())?;
    text.push_str(end)
}

// The line less the line feed that ends it, and what is printed after it.
fn parts_of(line: &str) -> (&str, &str)
    ensures body { result.0.now ≡ without_end line.now }
    ensures end { result.1.now ≡ end_text line.now }
{
    match line.strip_suffix('\n') {
        Some(body) => (body, "\n"),
        None => (line, "\n\\ No newline at end of file\n"),
    }
}
