//! A finding as text for people.

ghost use Rattle.std.specs.Prelude.{◌≡◌, ◌++◌, ℕ, List, map, flat_map, string_bytes, IfOk, OnOk};
ghost use Rattle.tera_findings.specs.Findings.{finding_view, note_view};
ghost use Rattle.tera_report.specs.FullTexts.{place_text as text_of_place, help_line, marked_of, message_line, message as message_text, note_text, full_text, lines_of};
ghost use Rattle.terminal_text.specs.Files.{source_of};

use crate::role::Role;
use line_text::push_on_one_line;
use std::alloc::{AllocError, Global};
use tera_base::Span;
use tera_check::{Finding, Note, Place};
use terminal_text::{Marked, Part, Sources, Style, push_excerpt};

/// Adds the line of the finding, `FILE:LINE:COLUMN: error[RULE]: MESSAGE` or `.. warning[RULE]: ..`, and the lines of
/// its notes. Below each is the line of the source that it is about, if that is known. A text is on one line, escaped
/// by `push_on_one_line`.
pub fn push_full(
    alloc: Global,
    to: &mut String,
    style: Style,
    file: &str,
    sources: &mut Sources<'_>,
    finding: &Finding,
) -> Result<(), AllocError>
    ensures text { OnOk result (string_bytes to.new ≡ string_bytes to.old
        ++ full_text style (source_of sources.old) file.now (finding_view finding.now)) }
    ensures same { (other : List ℕ) → source_of sources.new other ≡ source_of sources.old other }
{
    let message = Message {
        role: Role::Finding(finding.kind, finding.severity),
        file,
        span: &finding.span,
        text: finding.message.as_str(),
    };
    push_message(alloc, to, style, sources, &message)?;
    push_notes(alloc, to, style, sources, &finding.notes)
}

/// Adds the line with what may have been meant, `FILE:LINE:COLUMN: help: TEXT`.
pub fn push_help(
    alloc: Global,
    to: &mut String,
    style: Style,
    file: &str,
    finding: &Finding,
    help: &str,
) -> Result<(), AllocError>
    ensures { OnOk result (string_bytes to.new
        ≡ string_bytes to.old ++ help_line style file.now finding.now.span help.now) }
{
    let message = Message {
        role: Role::Help,
        file,
        span: &finding.span,
        text: help,
    };
    push_line(alloc, to, style, &message)
}

/// Adds only the lines of the finding and of its notes, without colours and without sources.
#[tactic(auto, using(crate::proofs::Plain::plain_without))]
pub fn push_lines(
    alloc: Global,
    to: &mut String,
    file: &str,
    finding: &Finding,
) -> Result<(), AllocError>
    ensures { OnOk result (string_bytes to.new
        ≡ string_bytes to.old ++ lines_of file.now (finding_view finding.now)) }
{
    let mut sources = Sources::new(alloc);
    push_full(alloc, to, Style::Plain, file, &mut sources, finding)
}

fn push_notes(
    alloc: Global,
    to: &mut String,
    style: Style,
    sources: &mut Sources<'_>,
    notes: &Vec<Note>,
) -> Result<(), AllocError>
    ensures text { OnOk result (string_bytes to.new ≡ string_bytes to.old
        ++ flat_map (note_text style (source_of sources.old)) (map note_view notes.now.items)) }
    ensures same { (other : List ℕ) → source_of sources.new other ≡ source_of sources.old other }
{
    for note in notes {
        push_note(alloc, to, style, sources, note)?;
    }
    Ok(())
}

fn push_note(
    alloc: Global,
    to: &mut String,
    style: Style,
    sources: &mut Sources<'_>,
    note: &Note,
) -> Result<(), AllocError>
    ensures text { OnOk result (string_bytes to.new ≡ string_bytes to.old
        ++ note_text style (source_of sources.old) (note_view note.now)) }
    ensures same { (other : List ℕ) → source_of sources.new other ≡ source_of sources.old other }
{
    let message = Message {
        role: Role::Note,
        file: note.file.as_str(),
        span: &note.span,
        text: note.message.as_str(),
    };
    push_message(alloc, to, style, sources, &message)
}

// What is reported for a span of a file.
#[derive(Drop)]
struct Message<'a> {
    role: Role,
    file: &'a str,
    span: &'a Span,
    text: &'a str,
}

// Adds the message, and the line that it is about.
fn push_message(
    alloc: Global,
    to: &mut String,
    style: Style,
    sources: &mut Sources<'_>,
    message: &Message<'_>,
) -> Result<(), AllocError>
    ensures text { OnOk result (string_bytes to.new ≡ string_bytes to.old
        ++ message_text style (source_of sources.old) message.now.role message.now.file.now message.now.span.now message.now.text.now) }
    ensures same { (other : List ℕ) → source_of sources.new other ≡ source_of sources.old other }
{
    push_line(alloc, to, style, message)?;
    let part = message.role.part();
    let marked = marked(message.span);
    push_excerpt(alloc, to, style, part, sources, message.file, marked)
}

fn push_line(
    alloc: Global,
    to: &mut String,
    style: Style,
    message: &Message<'_>,
) -> Result<(), AllocError>
    ensures { OnOk result (string_bytes to.new ≡ string_bytes to.old
        ++ message_line style message.now.role message.now.file.now message.now.span.now message.now.text.now) }
{
    let place = place_text(alloc, message.file, Place::of(message.span))?;
    let word = message.role.word(alloc)?;
    style.push(to, Part::Place, place.as_str())?;
    to.push(' ')?;
    style.push(to, message.role.part(), word.as_str())?;
    to.push_str(": ")?;
    push_on_one_line(to, message.text)?;
    to.push('\n')
}

// The file, and the place in it.
fn place_text(alloc: Global, file: &str, place: Place) -> Result<String, AllocError>
    ensures { IfOk result (λ t. string_bytes t ≡ text_of_place file.now place) }
{
    let Place { line, column } = place;
    let following = format!(in alloc; ":{line}:{column}:")?;
    let mut text = String::new(alloc);
    push_on_one_line(&mut text, file)?;
    text.push_str(following.as_str())?;
    Ok(text)
}

// The characters of the span, as far as they are on its first line.
fn marked(span: &Span) -> Marked
    ensures { result ≡ marked_of span.now }
{
    let end = if span.end_line == span.start_line {
        Some(span.end_col)
    } else {
        None
    };
    Marked {
        line: span.start_line,
        start: span.start_col,
        end,
    }
}
