//! What `show` writes for a source between the usual markers.

use crate::settings::Setting;
use case_files::Options;
use line_text::push_on_one_line;
use std::alloc::{AllocError, Global};
use tera_show::{Outcome, ShowFault, show_with};

// More bytes than `show` writes beside those of the answer.
const MORE: usize = 32;

/// Whether `show` writes the answer: the lines of the tree, or the line of the fault.
///
/// What is written has room beforehand, so that memory is asked for by `show` alone, and not by the writer: where none
/// is found, nothing is written.
pub(crate) fn is_shown(
    alloc: Global,
    setting: &Setting<'_>,
    source: &str,
    answer: &str,
) -> Result<bool, AllocError> {
    let limits = setting.limits;
    if !limits.valid() {
        return Ok(false);
    }
    let mut line = String::new(alloc);
    push_on_one_line(&mut line, answer)?;
    let mut written = Vec::with_capacity(alloc, line.len().saturating_add(MORE))?;
    let mut rest = source.as_bytes();
    match show_with(alloc, &mut rest, &mut written, limits) {
        Ok(outcome) => match str::from_utf8(written.as_slice()) {
            Ok(text) => Ok(match outcome {
                Outcome::Tree => expected_lines(setting.options, text) == answer,
                Outcome::Syntax => is_fault(line.as_str(), text),
                Outcome::NotUtf8 => false,
            }),
            Err(_) => Ok(false),
        },
        Err(ShowFault::Memory) if written.is_empty() => Err(AllocError),
        Err(_) => Ok(false),
    }
}

// Whether the text is the fault of an answer that was put on one line.
fn is_fault(line: &str, text: &str) -> bool {
    match fault_of(text) {
        Some(fault) => begins(line, fault),
        None => false,
    }
}

/// The lines of a tree in an answer: of an expression that is all of it the text alone.
pub(crate) fn expected_lines<'a>(options: &Options, text: &'a str) -> &'a str {
    let lines = text.strip_suffix("\n").unwrap_or(text);
    if options.expressions {
        lines.strip_prefix("expr ").unwrap_or(lines)
    } else {
        lines
    }
}

// Whether this is all of the answer, or notes alone come after it.
fn begins(line: &str, fault: &str) -> bool {
    match line.strip_prefix(fault) {
        Some(notes) => notes.is_empty() || notes.starts_with("\\nnote "),
        None => false,
    }
}

fn fault_of(text: &str) -> Option<&str> {
    text.strip_prefix("syntax error at ")?.strip_suffix("\n")
}
