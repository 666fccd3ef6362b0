//! Beginnings of a source.

use crate::settings::Setting;
use crate::trees::{Use, read};
use std::alloc::{AllocError, Global};
use tera_base::{Error, ErrorKind};
use tera_parser::ParserOutput;

/// What a beginning of a source is.
#[derive(Clone, Copy)]
pub(crate) enum Beginning {
    Template,
    /// It has a fault that is in it.
    Refused,
    /// It has neither a tree nor such a fault.
    Wrong,
}

pub(crate) fn beginning_of(
    alloc: Global,
    setting: &Setting<'_>,
    source: &str,
) -> Result<Beginning, AllocError> {
    let length = source.len();
    read(alloc, setting, source, &Cutting { length })
}

// A source of this length.
#[derive(Drop)]
struct Cutting {
    length: usize,
}

impl Use for Cutting {
    type Made = Beginning;

    fn of_tree(&self, _alloc: Global, _output: &ParserOutput) -> Result<Beginning, AllocError> {
        Ok(Beginning::Template)
    }

    fn of_fault(&self, _alloc: Global, error: &Error) -> Result<Beginning, AllocError> {
        match &error.kind {
            ErrorKind::Memory => Err(AllocError),
            ErrorKind::Message(_) => Ok(Beginning::Wrong),
            ErrorKind::SyntaxError(report) => {
                let range = &report.span.range;
                if range.start <= range.end && range.end <= self.length {
                    Ok(Beginning::Refused)
                } else {
                    Ok(Beginning::Wrong)
                }
            }
        }
    }
}

// Beginnings that are read, from the shortest to the longest of those one after another.
#[derive(Clone, Copy)]
struct Run {
    first: usize,
    last: usize,
}

/// The lengths of those beginnings of the source that are read, as `0..4 13..14`.
pub(crate) fn lengths(
    alloc: Global,
    setting: &Setting<'_>,
    source: &str,
) -> Result<String, AllocError> {
    let mut all = String::new(alloc);
    let mut open: Option<Run> = None;
    for at in 0..=source.len() {
        let Some(beginning) = source.get(..at) else {
            continue;
        };
        open = match (open, beginning_of(alloc, setting, beginning)?) {
            (Some(run), Beginning::Template) => Some(Run { last: at, ..run }),
            (None, Beginning::Template) => Some(Run {
                first: at,
                last: at,
            }),
            (run, _) => {
                push_run(alloc, &mut all, run)?;
                None
            }
        };
    }
    push_run(alloc, &mut all, open)?;
    Ok(all)
}

fn push_run(alloc: Global, all: &mut String, run: Option<Run>) -> Result<(), AllocError> {
    let Some(Run { first, last }) = run else {
        return Ok(());
    };
    if !all.is_empty() {
        all.push_str(" ")?;
    }
    let text = format!(in alloc; "{first}..{last}")?;
    all.push_str(text.as_str())
}
