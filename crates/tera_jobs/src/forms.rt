//! Findings, and files that could not be read, as text in each form.

ghost use Rattle.std.specs.Prelude.{◌≡◌, ◌++◌, ◌∷◌, [], ℕ, List, IfOk, OnOk, map, string_bytes};
ghost use Rattle.json.specs.Print.{print};
ghost use Rattle.json_members.specs.Written.{Puts};
ghost use Rattle.std.specs.List.{flat_map};
ghost use Rattle.std.specs.Option.{option_map};
ghost use Rattle.tera_findings.specs.Findings.{finding_view};
ghost use Rattle.tera_report.specs.Logs.{result_object};
ghost use Rattle.terminal_text.specs.Files.{source_of};
ghost use Rattle.tera_report.specs.Unread.{unread_result};
ghost use Rattle.tera_jobs.specs.Forms.{text_of, all_from, each_from, finding_text, help_text, unread_text, log_of, of_each, of_unread};
ghost use Rattle.tera_jobs.specs.Helps.{help_in};
ghost use Rattle.tera_check.specs.Found.{found_view};
ghost use Rattle.tera_jobs.specs.Sources.{unreadable_view};

use crate::helps::help_at;
use crate::reading::Unreadable;
use json::Writer;
use std::alloc::{AllocError, Global};
use tera_answers::abilities::VERSION;
use tera_check::{Finding, Found, object_of, unread_object_of};
use tera_fixes::Suggestion;
use tera_options::job::Form;
use tera_report::{
    begin_log, end_log, push_annotation, push_full, push_help, push_lines, push_unread_annotation,
    put_result, put_unread,
};
use terminal_text::{Sources, Style};

// Most findings are reported in at most so many bytes.
const ROOM: usize = 1024;

/// The text of the files that could not be read, and of what is found in some templates, with suggestions.
pub(crate) fn text_of(
    alloc: Global,
    form: Form,
    style: Style,
    sources: &mut Sources<'_>,
    helps: &[Vec<Option<Suggestion>>],
    unread: &[Unreadable],
    all: &[Found<'_>],
) -> Result<Vec<u8>, AllocError>
    ensures { IfOk result (λ text. text.items ≡ text_of form style (source_of sources.old)
        (help_in helps.now) (map unreadable_view unread.now) (map found_view all.now)) }
{
    match form {
        Form::Sarif => log_of(alloc, unread, all),
        _ => {
            let mut text = unread_texts(alloc, form, unread)?;
            push_all(alloc, &mut text, form, style, sources, helps, all)?;
            Ok(text)
        }
    }
}

// The texts of files that could not be read, one after another.
fn unread_texts(alloc: Global, form: Form, unread: &[Unreadable]) -> Result<Vec<u8>, AllocError>
    ensures { IfOk result (λ text. text.items
        ≡ flat_map (unread_text form) (map unreadable_view unread.now)) }
{
    let mut text = Vec::new(alloc);
    for one in unread {
        push_unread(alloc, &mut text, form, one)?;
    }
    Ok(text)
}

fn push_unread(
    alloc: Global,
    to: &mut Vec<u8>,
    form: Form,
    one: &Unreadable,
) -> Result<(), AllocError>
    ensures { OnOk result (to.new.items ≡ to.old.items ++ unread_text form (unreadable_view one.now)) }
{
    let (file, why) = (one.file.as_str(), one.why.as_str());
    match form {
        Form::Json => to.extend_from_slice(unread_object_of(alloc, file, why)?.as_slice()),
        Form::Github => {
            let mut text = String::with_capacity(alloc, ROOM)?;
            push_unread_annotation(alloc, &mut text, file, why)?;
            to.extend_from_slice(text.as_bytes())
        }
        // For people standard error is enough, and a log has no text of single results.
        Form::Full | Form::Concise | Form::Sarif => Ok(()),
    }
}

// The texts of the findings, one after another.
fn push_all(
    alloc: Global,
    to: &mut Vec<u8>,
    form: Form,
    style: Style,
    sources: &mut Sources<'_>,
    helps: &[Vec<Option<Suggestion>>],
    all: &[Found<'_>],
) -> Result<(), AllocError>
    ensures { OnOk result (to.new.items ≡ to.old.items
        ++ all_from (finding_text form style (source_of sources.old)) (help_in helps.now) 0
        (map found_view all.now)) }
{
    for (number, found) in all.iter().enumerate() {
        push_found(alloc, to, form, style, sources, helps, number, found)?;
    }
    Ok(())
}

fn push_found(
    alloc: Global,
    to: &mut Vec<u8>,
    form: Form,
    style: Style,
    sources: &mut Sources<'_>,
    helps: &[Vec<Option<Suggestion>>],
    number: usize,
    found: &Found<'_>,
) -> Result<(), AllocError>
    ensures text { OnOk result (to.new.items ≡ to.old.items
        ++ each_from (finding_text form style (source_of sources.old) found.now.file.now)
        (help_in helps.now number) 0 (map finding_view found.now.findings.items)) }
    ensures same { (other : List ℕ) → source_of sources.new other ≡ source_of sources.old other }
{
    for (at, finding) in found.findings.iter().enumerate() {
        let help = help_at(helps, number, at);
        push_finding(alloc, to, form, style, sources, found.file, help, finding)?;
    }
    Ok(())
}

fn push_finding(
    alloc: Global,
    to: &mut Vec<u8>,
    form: Form,
    style: Style,
    sources: &mut Sources<'_>,
    file: &str,
    help: Option<&str>,
    finding: &Finding,
) -> Result<(), AllocError>
    ensures text { OnOk result (to.new.items ≡ to.old.items
        ++ finding_text form style (source_of sources.old) file.now
        (option_map (λ t. t.now) help.entry) (finding_view finding.now)) }
    ensures same { (other : List ℕ) → source_of sources.new other ≡ source_of sources.old other }
{
    match form {
        Form::Full => {
            let mut text = String::with_capacity(alloc, ROOM)?;
            push_full(alloc, &mut text, style, file, sources, finding)?;
            push_help_if_any(alloc, &mut text, style, file, help, finding)?;
            to.extend_from_slice(text.as_bytes())
        }
        Form::Concise => {
            let mut text = String::with_capacity(alloc, ROOM)?;
            push_lines(alloc, &mut text, file, finding)?;
            to.extend_from_slice(text.as_bytes())
        }
        Form::Json => to.extend_from_slice(object_of(alloc, file, finding)?.as_slice()),
        Form::Github => {
            let mut text = String::with_capacity(alloc, ROOM)?;
            push_annotation(alloc, &mut text, file, finding)?;
            to.extend_from_slice(text.as_bytes())
        }
        // A log has no text of single findings.
        Form::Sarif => Ok(()),
    }
}

// Adds the line of the suggestion for the finding, if there is one.
fn push_help_if_any(
    alloc: Global,
    to: &mut String,
    style: Style,
    file: &str,
    help: Option<&str>,
    finding: &Finding,
) -> Result<(), AllocError>
    ensures { OnOk result (string_bytes to.new ≡ string_bytes to.old
        ++ help_text style file.now (option_map (λ t. t.now) help.entry) (finding_view finding.now)) }
{
    match help {
        Some(help) => push_help(alloc, to, style, file, finding, help),
        None => Ok(()),
    }
}

// The log of all of this, and a line feed.
fn log_of(alloc: Global, unread: &[Unreadable], all: &[Found<'_>]) -> Result<Vec<u8>, AllocError>
    ensures { IfOk result (λ text. text.items
        ≡ print (log_of (map unreadable_view unread.now) (map found_view all.now)) ++ 10 ∷ []) }
{
    let mut out = Writer::new(Vec::new(alloc));
    begin_log(&mut out, VERSION)?;
    put_all_unread(alloc, &mut out, unread)?;
    put_all(alloc, &mut out, all)?;
    end_log(&mut out)?;
    let mut text = out.into_inner();
    text.push(b'\n')?;
    Ok(text)
}

fn put_all_unread(alloc: Global, out: &mut Writer, unread: &[Unreadable]) -> Result<(), AllocError>
    ensures { Puts result out.old out.new
        (flat_map (of_unread unread_result) (map unreadable_view unread.now)) }
{
    for one in unread {
        put_unread(alloc, out, one.file.as_str(), one.why.as_str())?;
    }
    Ok(())
}

fn put_all(alloc: Global, out: &mut Writer, all: &[Found<'_>]) -> Result<(), AllocError>
    ensures { Puts result out.old out.new
        (flat_map (of_each result_object) (map found_view all.now)) }
{
    for found in all {
        put_results(alloc, out, found.file, &found.findings)?;
    }
    Ok(())
}

fn put_results(
    alloc: Global,
    out: &mut Writer,
    file: &str,
    findings: &Vec<Finding>,
) -> Result<(), AllocError>
    ensures { Puts result out.old out.new
        (flat_map (result_object file.now) (map finding_view findings.now.items)) }
{
    for finding in findings {
        put_result(alloc, out, file, finding)?;
    }
    Ok(())
}
