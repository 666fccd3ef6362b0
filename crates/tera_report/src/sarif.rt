//! Findings as a log in SARIF 2.1.0, which services that show findings read.

ghost use Rattle.std.specs.Prelude.{map};
ghost use Rattle.std.specs.List.{flat_map};
ghost use Rattle.json_members.specs.Written.{Puts};
ghost use Rattle.tera_findings.specs.Findings.{finding_view, note_view};
ghost use Rattle.tera_report.specs.Logs.{array_begin, corner, place, message, locations, note_object, notes_member, result_object, rule, log_begin, log_end};

use crate::github::column;
use file_uris::reference_of;
use json::{Token, Writer};
use json_members::{put_number, put_text, put_tokens};
use std::alloc::{AllocError, Global};
use tera_base::Span;
use tera_check::{Finding, KINDS, Kind, Note};

/// Begins a log of one run of the program, in this version of it.
pub fn begin_log(out: &mut Writer, version: &str) -> Result<(), AllocError>
    ensures { Puts result out.old out.new (log_begin version.now) }
{
    put_tokens(out, &BEFORE_THE_VERSION)?;
    put_text(out, "version", version)?;
    begin_array(out, "rules")?;
    put_rules(out, &KINDS)?;
    put_tokens(out, &AFTER_THE_RULES)
}

// The version of SARIF, the one run, and the name of the tool.
const BEFORE_THE_VERSION: [Token<'static>; 16] = [
    Token::BeginObject,
    Token::Key("$schema"),
    Token::String("https://json.schemastore.org/sarif-2.1.0.json"),
    Token::Key("version"),
    Token::String("2.1.0"),
    Token::Key("runs"),
    Token::BeginArray,
    Token::BeginObject,
    Token::Key("columnKind"),
    Token::String("unicodeCodePoints"),
    Token::Key("tool"),
    Token::BeginObject,
    Token::Key("driver"),
    Token::BeginObject,
    Token::Key("name"),
    Token::String("tera"),
];

// The rule for files that could not be read, and the beginning of the results.
const AFTER_THE_RULES: [Token<'static>; 9] = [
    Token::BeginObject,
    Token::Key("id"),
    Token::String("unread"),
    Token::EndObject,
    Token::EndArray,
    Token::EndObject,
    Token::EndObject,
    Token::Key("results"),
    Token::BeginArray,
];

/// Ends the log.
#[tactic(auto, unfolding(crate::specs::Logs::log_end))]
pub fn end_log(out: &mut Writer) -> Result<(), AllocError>
    ensures { Puts result out.old out.new log_end }
{
    put_tokens(
        out,
        &[
            Token::EndArray,
            Token::EndObject,
            Token::EndArray,
            Token::EndObject,
        ],
    )
}

/// Adds the result of a finding in the file. Its rule is the name of the kind; lines and columns count from 1, columns
/// in characters, and the end column is the one after the last.
#[tactic(auto, unfolding(crate::specs::Logs::result_object))]
pub fn put_result(
    alloc: Global,
    out: &mut Writer,
    file: &str,
    finding: &Finding,
) -> Result<(), AllocError>
    ensures { Puts result out.old out.new (result_object file.now (finding_view finding.now)) }
{
    out.begin_object()?;
    put_text(out, "ruleId", finding.kind.name())?;
    put_text(out, "level", finding.severity.name())?;
    put_message(out, finding.message.as_str())?;
    put_locations(alloc, out, file, &finding.span)?;
    put_notes(alloc, out, &finding.notes)?;
    out.end_object()
}

// An object with the name of each kind.
fn put_rules(out: &mut Writer, kinds: &[Kind]) -> Result<(), AllocError>
    ensures { Puts result out.old out.new (flat_map rule kinds.now) }
{
    for kind in kinds {
        put_rule(out, *kind)?;
    }
    Ok(())
}

fn put_rule(out: &mut Writer, kind: Kind) -> Result<(), AllocError>
    ensures { Puts result out.old out.new (rule kind) }
{
    out.begin_object()?;
    put_text(out, "id", kind.name())?;
    out.end_object()
}

pub(crate) fn put_locations(
    alloc: Global,
    out: &mut Writer,
    file: &str,
    span: &Span,
) -> Result<(), AllocError>
    ensures { Puts result out.old out.new (locations file.now span.now) }
{
    put_tokens(
        out,
        &[
            Token::Key("locations"),
            Token::BeginArray,
            Token::BeginObject,
        ],
    )?;
    put_place(alloc, out, file, span)?;
    put_tokens(out, &[Token::EndObject, Token::EndArray])
}

fn put_notes(alloc: Global, out: &mut Writer, notes: &Vec<Note>) -> Result<(), AllocError>
    ensures { Puts result out.old out.new (notes_member (map note_view notes.now.items)) }
{
    begin_array(out, "relatedLocations")?;
    for note in notes {
        put_note(alloc, out, note)?;
    }
    out.end_array()
}

#[tactic(auto, unfolding(crate::specs::Logs::note_object))]
fn put_note(alloc: Global, out: &mut Writer, note: &Note) -> Result<(), AllocError>
    ensures { Puts result out.old out.new (note_object (note_view note.now)) }
{
    out.begin_object()?;
    put_place(alloc, out, note.file.as_str(), &note.span)?;
    put_message(out, note.message.as_str())?;
    out.end_object()
}

// A span of a file.
fn put_place(alloc: Global, out: &mut Writer, file: &str, span: &Span) -> Result<(), AllocError>
    ensures { Puts result out.old out.new (place file.now span.now) }
{
    let uri = reference_of(alloc, file)?;
    put_tokens(
        out,
        &[
            Token::Key("physicalLocation"),
            Token::BeginObject,
            Token::Key("artifactLocation"),
            Token::BeginObject,
            Token::Key("uri"),
            Token::String(uri.as_str()),
            Token::EndObject,
            Token::Key("region"),
            Token::BeginObject,
        ],
    )?;
    put_corner(
        out,
        "startLine",
        span.start_line,
        "startColumn",
        span.start_col,
    )?;
    put_corner(out, "endLine", span.end_line, "endColumn", span.end_col)?;
    put_tokens(out, &[Token::EndObject, Token::EndObject])
}

// A line and a column, under these names.
fn put_corner(
    out: &mut Writer,
    line_name: &str,
    line: usize,
    column_name: &str,
    col: usize,
) -> Result<(), AllocError>
    ensures { Puts result out.old out.new (corner line_name.now line column_name.now col) }
{
    put_number(out, line_name, line)?;
    put_number(out, column_name, column(col))
}

pub(crate) fn put_message(out: &mut Writer, text: &str) -> Result<(), AllocError>
    ensures { Puts result out.old out.new (message text.now) }
{
    put_tokens(out, &[Token::Key("message"), Token::BeginObject])?;
    put_text(out, "text", text)?;
    out.end_object()
}

// Begins a member that is an array.
pub(crate) fn begin_array(out: &mut Writer, name: &str) -> Result<(), AllocError>
    ensures { Puts result out.old out.new (array_begin name.now) }
{
    out.key(name)?;
    out.begin_array()
}
