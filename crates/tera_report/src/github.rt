//! Findings as workflow commands, which GitHub shows next to the lines of a change.

ghost use Rattle.std.specs.Prelude.{◌≡◌, ◌++◌, string_bytes, IfOk, OnOk};
ghost use Rattle.line_text.specs.Line.{on_one_line};
ghost use Rattle.tera_findings.specs.Findings.{finding_view};
ghost use Rattle.tera_report.specs.Annotations.{annotation, command_of, escaped_character, escaped, property_character, property, span_text, column_of};

use line_text::push_on_one_line;
use std::alloc::{AllocError, Global};
use tera_base::Span;
use tera_check::{Finding, Severity};

/// Adds the line `::error file=..,line=..,col=..,endLine=..,endColumn=..,title=..::MESSAGE`, or `::warning ..`, whose
/// title is the name of the kind. Lines and columns count from 1, columns in characters, and `endColumn` is the one
/// after the last. The message is on one line, escaped by `push_on_one_line`; the file is named as it is. Notes are
/// left out, as a command has one place.
pub fn push_annotation(
    alloc: Global,
    to: &mut String,
    file: &str,
    finding: &Finding,
) -> Result<(), AllocError>
    ensures { OnOk result (string_bytes to.new
        ≡ string_bytes to.old ++ annotation file.now (finding_view finding.now)) }
{
    let place = span_of(alloc, &finding.span)?;
    to.push_str(command(finding.severity))?;
    push_property(to, file)?;
    to.push_str(place.as_str())?;
    to.push_str(",title=")?;
    to.push_str(finding.kind.name())?;
    to.push_str("::")?;
    push_message(alloc, to, finding.message.as_str())?;
    to.push_str("\n")?;
    Ok(())
}

// The command, up to the name of the file.
pub(crate) fn command(severity: Severity) -> &'static str
    ensures { result.now ≡ command_of severity }
{
    match severity {
        Severity::Error => "::error file=",
        Severity::Warning => "::warning file=",
    }
}

fn span_of(alloc: Global, span: &Span) -> Result<String, AllocError>
    ensures { IfOk result (λ t. string_bytes t ≡ span_text span.now) }
{
    let (line, end) = (span.start_line, span.end_line);
    let (col, end_col) = (column(span.start_col), column(span.end_col));
    format!(in alloc; ",line={line},col={col},endLine={end},endColumn={end_col}")
}

// The column counted from 1, for one counted from 0.
pub(crate) fn column(col: usize) -> usize
    ensures { result ≡ column_of col }
{
    col.saturating_add(1)
}

// Adds the message on one line, escaped for a command.
pub(crate) fn push_message(alloc: Global, to: &mut String, message: &str) -> Result<(), AllocError>
    ensures { OnOk result (string_bytes to.new
        ≡ string_bytes to.old ++ escaped (on_one_line message.now)) }
{
    let mut line = String::new(alloc);
    push_on_one_line(&mut line, message)?;
    push_escaped(to, line.as_str())
}

fn push_escaped(to: &mut String, text: &str) -> Result<(), AllocError>
    ensures { OnOk result (string_bytes to.new ≡ string_bytes to.old ++ escaped text.now) }
{
    'characters: for character in text.chars() {
        push_character(to, character)?;
    }
    Ok(())
}

fn push_character(to: &mut String, character: char) -> Result<(), AllocError>
    ensures { OnOk result (string_bytes to.new
        ≡ string_bytes to.old ++ escaped_character character) }
{
    match character {
        '%' => to.push_str("%25"),
        '\r' => to.push_str("%0D"),
        '\n' => to.push_str("%0A"),
        _ => to.push(character),
    }
}

pub(crate) fn push_property(to: &mut String, text: &str) -> Result<(), AllocError>
    ensures { OnOk result (string_bytes to.new ≡ string_bytes to.old ++ property text.now) }
{
    'characters: for character in text.chars() {
        push_property_character(to, character)?;
    }
    Ok(())
}

// Adds a character of a property, where a colon and a comma are escaped too, as they would end it.
fn push_property_character(to: &mut String, character: char) -> Result<(), AllocError>
    ensures { OnOk result (string_bytes to.new
        ≡ string_bytes to.old ++ property_character character) }
{
    match character {
        ':' => to.push_str("%3A"),
        ',' => to.push_str("%2C"),
        _ => push_character(to, character),
    }
}
