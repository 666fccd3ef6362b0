//! From the text of a file to its sections.

use crate::case::{CaseError, Section};
use crate::options::Options;
use crate::rows::{Line, cases_of};
use std::alloc::Global;

// A section that is being read.
#[derive(Drop)]
struct Open<'a> {
    title: &'a str,
    line: usize,
    options: Options,
    lines: Vec<Line<'a>>,
}

/// The sections of a file. What is before the first title is a remark.
pub fn read_cases(alloc: Global, text: &str) -> Result<Vec<Section>, CaseError> {
    let mut sections = Vec::new(alloc);
    let mut open = None;
    let mut number = 0usize;
    for text in text.split('\n') {
        number = number.saturating_add(1);
        if let Some(title) = text.strip_prefix("=== ") {
            close(alloc, &mut sections, open)?;
            open = Some(Open {
                title,
                line: number,
                options: Options::usual(alloc),
                lines: Vec::new(alloc),
            });
        } else if let Some(section) = &mut open {
            take(alloc, section, number, text)?;
        }
    }
    close(alloc, &mut sections, open)?;
    Ok(sections)
}

// A line after a title.
fn take<'a>(
    alloc: Global,
    section: &mut Open<'a>,
    number: usize,
    text: &'a str,
) -> Result<(), CaseError> {
    if section.lines.is_empty() {
        if let Some(option) = text.strip_prefix(": ") {
            return section.options.take(alloc, number, option);
        }
    }
    section.lines.push(Line { number, text })?;
    Ok(())
}

fn close(
    alloc: Global,
    sections: &mut Vec<Section>,
    open: Option<Open<'_>>,
) -> Result<(), CaseError> {
    let Some(section) = open else {
        return Ok(());
    };
    let lines = section.lines.as_slice();
    let cases = cases_of(alloc, section.line, &section.options, lines)?;
    sections.push(Section {
        title: String::from_str(alloc, section.title)?,
        line: section.line,
        options: section.options,
        cases,
    })?;
    Ok(())
}
