//! `tera format`.

ghost use Rattle.std.specs.Prelude.{◌≡◌, true};
ghost use Rattle.tera_layout.specs.Steady.{is_steady};
ghost use Rattle.tera_lexer.specs.grammar.Marks.{marks_of, IsValid};

use crate::counting::{LaidOut, laid_out_line};
use crate::plan::{Action, Plan, action_of, plan_of};
use crate::reading::{found, name_of, print_unlisted};
use crate::tree::fault_text;
use std::alloc::AllocError;
use std::rt::{Env, Files};
use tera_files::{Source, read_source, replace};
use tera_options::colours::{Terminals, style};
use tera_options::job::{Format, Mode};
use tera_parser::lexer::Delimiters;
use tera_program_parts::markers::{print_unfit, steady_markers_of};
use tera_program_parts::output::{
    difference_for, name_line, print_error, print_unread, print_unwritten, put, put_error,
};
use tera_program_parts::status::Ended;
use terminal_text::Style;

// What was done with one file.
#[derive(Clone, Copy)]
enum Became {
    Changed,
    Same,
    // It is not a template.
    Faulty,
    Failed,
    // Its name, layout or difference could not be written to standard output.
    Unreported,
}

impl Became {
    // For a template; `is_written` says whether its output was written.
    fn of_plan(plan: &Plan, is_written: bool) -> Became {
        match plan {
            _ if !is_written => Became::Unreported,
            Plan::Same => Became::Same,
            Plan::Layout(_) => Became::Changed,
        }
    }

    // For a file that is not a template; `is_written` says whether its fault was written.
    fn of_fault(is_written: bool) -> Became {
        if is_written {
            Became::Faulty
        } else {
            Became::Failed
        }
    }
}

// How messages are written.
#[derive(Clone, Copy)]
struct Styles {
    out: Style,
    err: Style,
    // Whether standard output is a terminal.
    is_terminal: bool,
}

/// Formats the files.
pub fn run<R: Files + Env + Input + Print + Eprint + AllocGlobal + Clone + Drop>(
    rt: &R,
    terminals: Terminals,
    job: &Format<'_, '_>,
) -> Ended {
    let colours = job.common.colours;
    let styles = Styles {
        out: style(rt, colours, terminals.out),
        err: style(rt, colours, terminals.err),
        is_terminal: terminals.out,
    };
    match steady_markers_of(rt.alloc(), job.markers) {
        Ok(markers) => match lay_out_all(rt, styles, job, &markers) {
            Ok(ended) => ended,
            Err(_) => {
                print_error(rt, "tera", "out of memory");
                Ended::failed()
            }
        },
        Err(why) => {
            print_unfit(rt, &why);
            Ended::failed()
        }
    }
}

fn lay_out_all<R: Files + Input + Print + Eprint + AllocGlobal + Clone + Drop>(
    rt: &R,
    styles: Styles,
    job: &Format<'_, '_>,
    markers: &Delimiters,
) -> Result<Ended, AllocError>
    requires valid { IsValid (marks_of markers.now) }
    requires steady { is_steady (marks_of markers.now) ≡ true }
{
    let Some(paths) = job.files else {
        return Ok(Ended::failed());
    };
    let files = found(rt, job.common, paths)?;
    print_unlisted(rt, job.common, &files)?;
    let mut counts = LaidOut {
        changed: 0,
        same: 0,
        faulty: 0,
        failed: files.unlisted.len(),
    };
    for file in &files.files {
        match lay_out(rt, styles, job, file.as_str(), markers)? {
            Became::Unreported => return Ok(Ended::failed()),
            became => counts = counted_with(counts, became),
        }
    }
    if !job.common.quiet && paths != ["-"].as_slice() {
        let mut line = laid_out_line(rt.alloc(), job.mode, counts)?;
        line.push('\n')?;
        if !put_error(rt, line.as_str()) {
            return Ok(Ended::failed());
        }
    }
    Ok(ended(job.mode, counts))
}

// How the program ends if this was done with the files.
fn ended(mode: Mode, counts: LaidOut) -> Ended {
    Ended {
        found: counts.faulty > 0 || (mode != Mode::Write && counts.changed > 0),
        failed: counts.failed > 0,
    }
}

fn counted_with(counts: LaidOut, became: Became) -> LaidOut {
    let mut counts = counts;
    let count = match became {
        Became::Changed => &mut counts.changed,
        Became::Same => &mut counts.same,
        Became::Faulty => &mut counts.faulty,
        Became::Failed | Became::Unreported => &mut counts.failed,
    };
    *count = count.saturating_add(1);
    counts
}

fn lay_out<R: Files + Input + Print + Eprint + AllocGlobal>(
    rt: &R,
    styles: Styles,
    job: &Format<'_, '_>,
    file: &str,
    markers: &Delimiters,
) -> Result<Became, AllocError>
    requires valid { IsValid (marks_of markers.now) }
    requires steady { is_steady (marks_of markers.now) ≡ true }
{
    let alloc = rt.alloc();
    let name = name_of(file, job.common.stdin);
    let source = match read_source(rt, file, name) {
        Ok(source) => source,
        Err(why) => {
            print_unread(rt, name, why);
            return Ok(Became::Failed);
        }
    };
    let plan = match plan_of(alloc, name, source.text.as_str(), markers) {
        Ok(plan) => plan,
        Err(error) => {
            let text = fault_text(alloc, styles.err, &source, &error)?;
            return Ok(Became::of_fault(put_error(rt, text.as_str())));
        }
    };
    let action = action_of(job.mode, file == "-", source.text.as_str(), &plan);
    let is_written = match action {
        Action::Replace(layout) => {
            if let Err(why) = replace(rt, file, source.text.as_str(), layout) {
                print_unwritten(rt, file, why);
                return Ok(Became::Failed);
            }
            put_name(rt, styles, name)?
        }
        _ => put_action(rt, styles, &source, action)?,
    };
    Ok(Became::of_plan(&plan, is_written))
}

// Writes the output of an action to standard output. This writes no file.
fn put_action<R: Print + Eprint + AllocGlobal>(
    rt: &R,
    styles: Styles,
    source: &Source,
    action: Action<'_>,
) -> Result<bool, AllocError> {
    let name = source.file.as_str();
    match action {
        Action::Nothing => Ok(true),
        Action::Show(text) => Ok(put(rt, text.as_bytes())),
        Action::Difference(layout) => {
            let text = difference_for(
                rt.alloc(),
                styles.out,
                styles.is_terminal,
                name,
                source.text.as_str(),
                layout,
            )?;
            Ok(put(rt, text.as_bytes()))
        }
        Action::Name | Action::Replace(_) => put_name(rt, styles, name),
    }
}

fn put_name<R: Print + Eprint + AllocGlobal>(
    rt: &R,
    styles: Styles,
    name: &str,
) -> Result<bool, AllocError> {
    let line = name_line(rt.alloc(), styles.is_terminal, name)?;
    Ok(put(rt, line.as_bytes()))
}
