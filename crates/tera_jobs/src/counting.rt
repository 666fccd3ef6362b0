//! The summary line.

ghost use Rattle.std.specs.Prelude.{◌≡◌, ◌++◌, IfOk, OnOk, string_bytes};
ghost use Rattle.terminal_text.specs.Counted.{counted};
ghost use Rattle.tera_jobs.specs.Counting.{again_text, checked_line, fixed_line, laid_out_line, listed_line, findings_text, done_text, left_text, with_count, with_number};

use std::alloc::{AllocError, Global};
use tera_options::job::Mode;
use terminal_text::counted;

/// What was checked.
#[derive(Clone, Copy, Debug)]
pub(crate) struct Checked {
    /// How many files were read to be checked.
    pub(crate) files: usize,
    pub(crate) findings: usize,
    /// How many files have a finding.
    pub(crate) faulty: usize,
    /// How many files and folders could not be read.
    pub(crate) unread: usize,
}

/// `8 files checked, 7 findings in 3 files, 1 could not be read`.
pub(crate) fn checked_line(alloc: Global, counts: Checked) -> Result<String, AllocError>
    ensures { IfOk result (λ line. string_bytes line ≡ checked_line counts) }
{
    let mut line = counted(alloc, counts.files, "file")?;
    line.push_str(" checked, ")?;
    push_findings(alloc, &mut line, counts.findings, counts.faulty)?;
    push_count(alloc, &mut line, counts.unread, "could not be read")?;
    Ok(line)
}

/// `3 findings fixed in 2 files` with a line feed, and that another run may fix more, if so.
pub(crate) fn fixed_line(
    alloc: Global,
    findings: usize,
    files: usize,
    more: bool,
) -> Result<String, AllocError>
    ensures { IfOk result (λ line. string_bytes line ≡ fixed_line findings files more) }
{
    if findings == 0 {
        return String::from_str(alloc, "nothing fixed\n");
    }
    let mut line = counted(alloc, findings, "finding")?;
    line.push_str(" fixed in ")?;
    push_counted(alloc, &mut line, files, "file")?;
    line.push_str(again(more))?;
    Ok(line)
}

fn again(more: bool) -> &'static str
    ensures { result.now ≡ again_text more }
{
    if more {
        ", run again to fix more\n"
    } else {
        "\n"
    }
}

fn push_findings(
    alloc: Global,
    line: &mut String,
    findings: usize,
    files: usize,
) -> Result<(), AllocError>
    ensures { OnOk result (string_bytes line.new
        ≡ string_bytes line.old ++ findings_text findings files) }
{
    if findings == 0 {
        return line.push_str("nothing found");
    }
    push_counted(alloc, line, findings, "finding")?;
    line.push_str(" in ")?;
    push_counted(alloc, line, files, "file")
}

// Adds the number with its noun.
fn push_counted(
    alloc: Global,
    line: &mut String,
    number: usize,
    noun: &str,
) -> Result<(), AllocError>
    ensures { OnOk result (string_bytes line.new
        ≡ string_bytes line.old ++ counted number noun.now) }
{
    line.push_str(counted(alloc, number, noun)?.as_str())
}

/// What was listed.
#[derive(Clone, Copy, Debug)]
pub(crate) struct Listed {
    pub(crate) components: usize,
    /// How many files were read.
    pub(crate) files: usize,
    /// How many of them are not templates.
    pub(crate) faulty: usize,
    /// How many files and folders could not be read.
    pub(crate) unread: usize,
}

/// `12 components in 5 files, 1 with a fault, 1 could not be read`.
pub(crate) fn listed_line(alloc: Global, counts: Listed) -> Result<String, AllocError>
    ensures { IfOk result (λ line. string_bytes line ≡ listed_line counts) }
{
    let mut line = counted(alloc, counts.components, "component")?;
    line.push_str(" in ")?;
    push_counted(alloc, &mut line, counts.files, "file")?;
    push_count(alloc, &mut line, counts.faulty, "with a fault")?;
    push_count(alloc, &mut line, counts.unread, "could not be read")?;
    Ok(line)
}

/// What was done with files.
#[derive(Clone, Copy, Debug)]
pub(crate) struct LaidOut {
    pub(crate) changed: usize,
    pub(crate) same: usize,
    /// How many are not templates.
    pub(crate) faulty: usize,
    pub(crate) failed: usize,
}

/// `3 files formatted, 7 unchanged, 2 with a fault, 1 failed`.
pub(crate) fn laid_out_line(
    alloc: Global,
    mode: Mode,
    counts: LaidOut,
) -> Result<String, AllocError>
    ensures { IfOk result (λ line. string_bytes line ≡ laid_out_line mode counts) }
{
    let mut line = counted(alloc, counts.changed, "file")?;
    line.push_str(done(mode))?;
    push_number(alloc, &mut line, counts.same, left(mode))?;
    push_count(alloc, &mut line, counts.faulty, "with a fault")?;
    push_count(alloc, &mut line, counts.failed, "failed")?;
    Ok(line)
}

fn done(mode: Mode) -> &'static str
    ensures { result.now ≡ done_text mode }
{
    match mode {
        Mode::Write => " formatted",
        Mode::Check | Mode::Diff => " would change",
    }
}

fn left(mode: Mode) -> &'static str
    ensures { result.now ≡ left_text mode }
{
    match mode {
        Mode::Write => "unchanged",
        Mode::Check | Mode::Diff => "would not",
    }
}

// Adds the number with this text, unless it is 0.
fn push_count(alloc: Global, line: &mut String, number: usize, what: &str) -> Result<(), AllocError>
    ensures { OnOk result (string_bytes line.new
        ≡ string_bytes line.old ++ with_count number what.now) }
{
    if number == 0 {
        Ok(())
    } else {
        push_number(alloc, line, number, what)
    }
}

fn push_number(
    alloc: Global,
    line: &mut String,
    number: usize,
    what: &str,
) -> Result<(), AllocError>
    ensures { OnOk result (string_bytes line.new
        ≡ string_bytes line.old ++ with_number number what.now) }
{
    let more = format!(in alloc; ", {number} {what}")?;
    line.push_str(more.as_str())
}
