//! `tera components`.

ghost use Rattle.std.specs.Prelude.{IfSome};
ghost use Rattle.tera_lexer.specs.grammar.Marks.{IsValid, marks_of};

use crate::counting::{Listed, listed_line};
use crate::reading::{Reading, Templates, read_all};
use std::alloc::{AllocError, Global};
use std::rt::{Env, Files};
use tera_catalogue::{Component, components_of, html_of, json_of};
use tera_check::finding_of_fault;
use tera_options::colours::{Terminals, style};
use tera_options::job::Components;
use tera_parser::lexer::Delimiters;
use tera_program_parts::markers::{other_markers_of, print_unfit};
use tera_program_parts::output::{print_error, put, put_error};
use tera_program_parts::status::Ended;
use tera_report::push_full;
use terminal_text::Style;

/// Lists the components of the files.
pub fn run<R: Files + Env + Input + Print + Eprint + AllocGlobal + Clone + Drop>(
    rt: &R,
    terminals: Terminals,
    job: &Components<'_, '_>,
) -> Ended {
    let markers = match other_markers_of(rt.alloc(), job.markers) {
        Ok(markers) => markers,
        Err(why) => {
            print_unfit(rt, &why);
            return Ended::failed();
        }
    };
    match listed(rt, terminals, job, markers) {
        Ok(ended) => ended,
        Err(_) => {
            print_error(rt, "tera", "out of memory");
            Ended::failed()
        }
    }
}

// The catalogue is also written if a file could not be read, or has a fault.
fn listed<R: Files + Env + Input + Print + Eprint + AllocGlobal + Clone + Drop>(
    rt: &R,
    terminals: Terminals,
    job: &Components<'_, '_>,
    markers: Option<Delimiters>,
) -> Result<Ended, AllocError>
    requires { IfSome markers (λ m. IsValid (marks_of m)) }
{
    let alloc = rt.alloc();
    let style = style(rt, job.common.colours, terminals.err);
    let Some(files) = job.files else {
        return Ok(Ended::failed());
    };
    let reading = Reading {
        markers,
        faults: 0,
        keeps_sources: true,
    };
    let all = read_all(rt, job.common, files, None, &reading)?;
    let faults = faults_of(alloc, style, &all)?;
    let mut said = put_error(rt, faults.text.as_str());
    let components = components_of(alloc, &all.templates)?;
    let text = catalogue(alloc, job.html, components.as_slice())?;
    let written = put(rt, text.as_slice());
    if written && !job.common.quiet {
        let counts = Listed {
            components: components.len(),
            files: all.templates.len(),
            faulty: faults.count,
            unread: all.unread.len(),
        };
        let mut line = listed_line(alloc, counts)?;
        line.push('\n')?;
        said = put_error(rt, line.as_str()) && said;
    }
    Ok(Ended {
        found: faults.count > 0,
        failed: !all.unread.is_empty() || !written || !said,
    })
}

fn catalogue(
    alloc: Global,
    html: bool,
    components: &[Component<'_>],
) -> Result<Vec<u8>, AllocError> {
    if html {
        html_of(alloc, components)
    } else {
        json_of(alloc, components)
    }
}

// The faults of templates, as text, and how many there are.
#[derive(Drop)]
struct Faults {
    text: String,
    count: usize,
}

fn faults_of(alloc: Global, style: Style, all: &Templates) -> Result<Faults, AllocError> {
    let mut sources = all.texts(alloc)?;
    let mut text = String::new(alloc);
    let mut count = 0usize;
    for template in &all.templates {
        if let Err(error) = &template.parsed {
            let file = template.file.as_str();
            let finding = finding_of_fault(alloc, file, error)?;
            push_full(alloc, &mut text, style, file, &mut sources, &finding)?;
            count = count.saturating_add(1);
        }
    }
    Ok(Faults { text, count })
}
