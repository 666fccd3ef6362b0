//! `tera check`.

ghost use Rattle.std.specs.Prelude.{◌≡◌, ◌<◌, ◌^◌, ◌++◌, ◌∷◌, [], ℕ, Some, string_bytes, map, IfOk, IfSome, OnErr};
ghost use Rattle.std.specs.Fmt.{decimal};
ghost use Rattle.std.specs.Io.KnownBytes.{Keeps};
ghost use Rattle.tera_lexer.specs.grammar.Marks.{IsValid, marks_of};
ghost use Rattle.tera_files.specs.Names.{texts};
ghost use Rattle.tera_jobs.specs.Counting.{checked_line};
ghost use Rattle.tera_program_parts.specs.Views.{lists_view};
ghost use Rattle.tera_jobs.specs.Sources.{nothing, unreadable_view, with_sources};
ghost use Rattle.tera_check.specs.Levels.{level_of};
ghost use Rattle.tera_rules.specs.Registered.{registered_if_any};
ghost use Rattle.tera_jobs.specs.Report.{IsChecked, IsReported, counts_of, ended_of};
ghost use Rattle.tera_program_parts.specs.Settings.{or_none};

use crate::counting::{Checked, checked_line, fixed_line};
use crate::fixing::fix_all;
use crate::reading::{Reading, Templates, read_all};
use crate::reporting::{Report, write_findings};
use std::alloc::{AllocError, Global};
use std::io::Write;
use std::rt::{Env, Files};
use std::{fs, io};
use tera_check::Registered;
use tera_options::colours::{Terminals, style};
use tera_options::job::{Check, Form};
use tera_program_parts::markers::{other_markers_of, print_unfit};
use tera_program_parts::output::{print_error, print_stopped, put_error};
use tera_program_parts::site::names_below;
use tera_program_parts::status::Ended;
use terminal_text::Style;

/// Checks the files, together with those of the library.
///
/// The checked templates are before those of the library. So if both define a component of one name, theirs counts.
pub fn run<R: Files + Env + Input + Print + Eprint + AllocGlobal + Clone + Drop>(
    rt: &R,
    terminals: Terminals,
    job: &Check<'_, '_>,
    registered: Option<&Registered<'_>>,
) -> Ended {
    let style = style(rt, job.common.colours, terminals.out);
    let Some(files) = job.files else {
        return Ended::failed();
    };
    if let Some(why) = why_unfit(rt, job, files) {
        print_error(rt, "tera", why);
        return Ended::failed();
    }
    let Some(faults) = number_from_1(job.max_faults) else {
        print_error(rt, "tera", "--max-faults: expected a number from 1 on");
        return Ended::failed();
    };
    let markers = match other_markers_of(rt.alloc(), job.markers) {
        Ok(markers) => markers,
        Err(why) => {
            print_unfit(rt, &why);
            return Ended::failed();
        }
    };
    let reading = Reading {
        markers,
        faults,
        // Only excerpts and fixes need the sources.
        keeps_sources: job.fix || matches!(job.form, Form::Full),
    };
    match read_site(rt, job, files, &reading) {
        Ok(mut all) => {
            let is_fixed = !job.fix || fix(rt, job, &reading, &mut all);
            let (ended, is_said) = run_on(rt, style, job, registered, &all, &mut io::writer(rt));
            all.forget();
            ended.unless_said(is_said && is_fixed)
        }
        Err(_) => {
            print_error(rt, "tera", "out of memory");
            Ended::failed()
        }
    }
}

// Why the job cannot be done, if an option asks for something that cannot be.
fn why_unfit(rt: &impl Files, job: &Check<'_, '_>, files: &[&str]) -> Option<&'static str> {
    if has_input(job.library) {
        return Some("--library: expected a file or a folder");
    }
    if !is_folder_if_any(rt, job.root) {
        return Some("--root: expected a folder");
    }
    if job.fix && files.contains(&"-") {
        return Some("--fix: standard input cannot be changed");
    }
    None
}

// Writes what is suggested to the files, and says on standard error how much that was. The result is whether all went
// well.
fn fix<R: Files + Eprint + AllocGlobal>(
    rt: &R,
    job: &Check<'_, '_>,
    reading: &Reading,
    all: &mut Templates,
) -> bool
    requires { IfSome reading.now.markers (λ m. IsValid (marks_of m)) }
{
    match fix_all(rt, job, reading, all) {
        Ok(fixed) if is_counted(job) => {
            let line = fixed_line(rt.alloc(), fixed.findings, fixed.files, fixed.more);
            let is_said = match line {
                Ok(line) => put_error(rt, line.as_str()),
                Err(_) => false,
            };
            is_said && fixed.failed == 0
        }
        Ok(fixed) => fixed.failed == 0,
        Err(_) => {
            print_error(rt, "tera", "out of memory");
            false
        }
    }
}

// The number in the word, unless it is 0.
fn number_from_1(word: &str) -> Option<usize>
    ensures above { IfSome result (λ n. 0 < n) }
    ensures decimal { (n : ℕ) → 0 < n → n < 2 ^ 64 → word.now ≡ decimal n → result ≡ Some n }
{
    match word.parse::<usize>() {
        Ok(number) if number > 0 => Some(number),
        _ => None,
    }
}

// Reads the files and the library and, for a site, the rest of its templates and their names.
fn read_site<R: Files + Input + Eprint + AllocGlobal + Clone + Drop>(
    rt: &R,
    job: &Check<'_, '_>,
    files: &[&str],
    reading: &Reading,
) -> Result<Templates, AllocError>
    requires { IfSome reading.now.markers (λ m. IsValid (marks_of m)) }
{
    let Some(root) = job.root else {
        return read_all(rt, job.common, files, job.library, reading);
    };
    let library = with_root(rt.alloc(), job.library, root)?;
    let mut all = read_all(rt, job.common, files, Some(library.as_slice()), reading)?;
    all.names = Some(names_below(rt, root, &all.templates)?);
    Ok(all)
}

// The root, and the paths of the library, as the components of the site count before those of others.
fn with_root<'a>(
    alloc: Global,
    library: Option<&[&'a str]>,
    root: &'a str,
) -> Result<Vec<&'a str>, AllocError>
    ensures { IfOk result (λ paths. texts paths.items ≡ root.now ∷ or_none (lists_view library.entry)) }
{
    let mut paths = Vec::new(alloc);
    paths.push(root)?;
    if let Some(library) = library {
        paths.extend_from_slice(library)?;
    }
    Ok(paths)
}

fn is_folder_if_any(rt: &impl Files, root: Option<&str>) -> bool {
    match root {
        Some(root) => fs::metadata(rt, root).is_ok_and(|data| data.is_dir()),
        None => true,
    }
}

// Whether standard input is among the paths of the library.
fn has_input(library: Option<&[&str]>) -> bool {
    match library {
        Some(paths) => paths.contains(&"-"),
        None => false,
    }
}

// Writes what is found in the templates. The result is how the program ends by that, and whether standard error took
// what was written to it.
fn run_on<R: Eprint + AllocGlobal, W: Write>(
    rt: &R,
    style: Style,
    job: &Check<'_, '_>,
    registered: Option<&Registered<'_>>,
    all: &Templates,
    writer: &mut W,
) -> (Ended, bool)
    ensures { IsChecked job.now.form style (registered_if_any registered.entry)
        (level_of job.now.rules) job.now.error_on_warnings all.now
        (W.contents writer.old) (W.contents writer.new) result.0 }
{
    let report = write_all_findings(rt.alloc(), style, job, registered, all, writer);
    let is_said = match &report {
        Ok(report) => print_end(rt, job, all, report),
        Err(_) => {
            print_error(rt, "tera", "out of memory");
            false
        }
    };
    (
        ended(&report, job.error_on_warnings, all.unread.len()),
        is_said,
    )
}

fn write_all_findings<W: Write>(
    alloc: Global,
    style: Style,
    job: &Check<'_, '_>,
    registered: Option<&Registered<'_>>,
    all: &Templates,
    writer: &mut W,
) -> Result<Report, AllocError>
    ensures report { IfOk result (IsReported job.now.form style
        (with_sources nothing all.now.sources.items) (map unreadable_view all.now.unread.items)
        all.now.templates.items all.now.sources.items all.now.names (registered_if_any registered.entry)
        all.now.checked (level_of job.now.rules) (W.contents writer.old) (W.contents writer.new)) }
    ensures memory { OnErr result (Keeps (W.contents writer.old) (W.contents writer.new)) }
{
    let mut sources = all.texts(alloc)?;
    write_findings(
        alloc,
        writer,
        job.form,
        style,
        &mut sources,
        &all.unread,
        &all.templates,
        all.sources.as_slice(),
        &all.names,
        registered,
        all.checked,
        job.rules,
    )
}

// How the program ends if so many files could not be read. With `strict` a warning counts like an error.
fn ended(report: &Result<Report, AllocError>, strict: bool, unread: usize) -> Ended
    ensures { result ≡ ended_of report.now strict unread }
{
    match report {
        Ok(report) => Ended {
            found: report.errors || (strict && report.findings > 0),
            failed: unread > 0 || report.stopped.is_some(),
        },
        Err(_) => Ended::failed(),
    }
}

// Says on standard error why not all was written, or else the summary line. The result is whether that went well.
fn print_end<R: Eprint + AllocGlobal>(
    rt: &R,
    job: &Check<'_, '_>,
    all: &Templates,
    report: &Report,
) -> bool {
    match report.stopped {
        Some(error) => {
            print_stopped(rt, error);
            false
        }
        None if is_counted(job) => match last_line(rt.alloc(), all, report) {
            Ok(line) => put_error(rt, line.as_str()),
            Err(_) => false,
        },
        None => true,
    }
}

// Whether there is a summary line. The forms for other programs have none.
fn is_counted(job: &Check<'_, '_>) -> bool {
    !job.common.quiet && matches!(job.form, Form::Full | Form::Concise)
}

// The summary line, which counts what was written and the files that were read.
fn last_line(alloc: Global, all: &Templates, report: &Report) -> Result<String, AllocError>
    ensures { IfOk result (λ line. string_bytes line
        ≡ checked_line (counts_of all.now report.now) ++ 10 ∷ []) }
{
    let mut line = checked_line(alloc, counts_of(all, report))?;
    line.push('\n')?;
    Ok(line)
}

fn counts_of(all: &Templates, report: &Report) -> Checked
    ensures { result ≡ counts_of all.now report.now }
{
    Checked {
        files: all.checked,
        findings: report.findings,
        faulty: report.faulty,
        unread: all.unread.len(),
    }
}
