//! Findings as objects of JSON.

ghost use Rattle.std.specs.Prelude.{◌≡◌, ◌++◌, [], ◌∷◌, map, IfOk};
ghost use Rattle.json.specs.Print.{print};
ghost use Rattle.json_members.specs.Written.{Puts};
ghost use Rattle.tera_findings.specs.Findings.{finding_view, note_view};
ghost use Rattle.tera_findings.specs.Objects.{members, note_object, notes_member, object_with, object_of, unread_object};

use crate::finding::{Finding, Note, Place, Severity};
use crate::spans::first_span;
use json::Writer;
use json_members::{put_number, put_text};
use std::alloc::{AllocError, Global};
use tera_parser::value::Span;

/// The finding as an object of JSON, on one line, with the members `file`, `line`, `column`, `end_line`, `end_column`,
/// `message`, `severity`, `kind` and `notes`. Each note has the first six of them.
pub fn object_of(alloc: Global, file: &str, finding: &Finding) -> Result<Vec<u8>, AllocError>
    ensures { IfOk result (λ v. v.items
        ≡ print (object_of file.now (finding_view finding.now)) ++ 10 ∷ []) }
{
    let mut writer = Writer::new(Vec::new(alloc));
    put_object(&mut writer, file, finding)?;
    let mut object = writer.into_inner();
    object.push(b'\n')?;
    Ok(object)
}

/// Adds the object of the finding to other JSON.
pub fn put_object(writer: &mut Writer, file: &str, finding: &Finding) -> Result<(), AllocError>
    ensures { Puts result writer.old writer.new (object_of file.now (finding_view finding.now)) }
{
    let (message, notes) = (finding.message.as_str(), &finding.notes);
    let (severity, word) = (finding.severity, finding.kind.name());
    put_with(writer, file, &finding.span, message, severity, word, notes)
}

/// A file that could not be read, and why, as such an object. Its kind is `unread`, and its place is the start of the
/// file.
#[tactic(auto, unfolding(crate::specs::Objects::unread_object))]
pub fn unread_object_of(alloc: Global, file: &str, why: &str) -> Result<Vec<u8>, AllocError>
    ensures { IfOk result (λ v. v.items ≡ print (unread_object file.now why.now) ++ 10 ∷ []) }
{
    let (span, severity, notes) = (first_span(), Severity::Error, Vec::new(alloc));
    let mut writer = Writer::new(Vec::new(alloc));
    put_with(&mut writer, file, &span, why, severity, "unread", &notes)?;
    let mut object = writer.into_inner();
    object.push(b'\n')?;
    Ok(object)
}

#[tactic(auto, unfolding(crate::specs::Objects::object_with))]
fn put_with(
    writer: &mut Writer,
    file: &str,
    span: &Span,
    message: &str,
    severity: Severity,
    word: &str,
    notes: &Vec<Note>,
) -> Result<(), AllocError>
    ensures { Puts result writer.old writer.new
        (object_with file.now span.now message.now severity word.now
        (map note_view notes.now.items)) }
{
    writer.begin_object()?;
    write_members(writer, file, span, message)?;
    put_text(writer, "severity", severity.name())?;
    put_text(writer, "kind", word)?;
    write_notes(writer, notes)?;
    writer.end_object()
}

fn write_notes(writer: &mut Writer, notes: &Vec<Note>) -> Result<(), AllocError>
    ensures { Puts result writer.old writer.new (notes_member (map note_view notes.now.items)) }
{
    writer.key("notes")?;
    writer.begin_array()?;
    for note in notes {
        write_note(writer, note)?;
    }
    writer.end_array()
}

fn write_note(writer: &mut Writer, note: &Note) -> Result<(), AllocError>
    ensures { Puts result writer.old writer.new (note_object (note_view note.now)) }
{
    writer.begin_object()?;
    write_members(
        writer,
        note.file.as_str(),
        &note.span,
        note.message.as_str(),
    )?;
    writer.end_object()
}

#[tactic(auto, unfolding(crate::specs::Objects::members))]
fn write_members(
    writer: &mut Writer,
    file: &str,
    span: &Span,
    message: &str,
) -> Result<(), AllocError>
    ensures { Puts result writer.old writer.new (members file.now span.now message.now) }
{
    let start = Place::of(span);
    let end = Place::end_of(span);
    put_text(writer, "file", file)?;
    put_number(writer, "line", start.line)?;
    put_number(writer, "column", start.column)?;
    put_number(writer, "end_line", end.line)?;
    put_number(writer, "end_column", end.column)?;
    put_text(writer, "message", message)
}
