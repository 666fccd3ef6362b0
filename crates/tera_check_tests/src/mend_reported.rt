//! The result for a source, as text.

use std::alloc::{AllocError, Global};
use tera_mend::{Fault, Limit, Mended, mend};
use tera_parser::value::ErrorKind;
use tera_tree_text::tree_text;

/// The lines of `faults_reported`, and the tree.
pub(crate) fn reported(alloc: Global, source: &str, faults: usize) -> Result<String, AllocError> {
    match mend(alloc, "t", source, limit_of(faults)) {
        Ok(mended) => text_of(alloc, &mended),
        Err(error) => Err(error),
    }
}

/// A line for each fault, which begins with `alone` where its tag was read alone; and `cut` where there are more.
pub(crate) fn faults_reported(
    alloc: Global,
    source: &str,
    faults: usize,
) -> Result<String, AllocError> {
    match mend(alloc, "t", source, limit_of(faults)) {
        Ok(mended) => faults_of(alloc, &mended),
        Err(error) => Err(error),
    }
}

fn limit_of(faults: usize) -> Limit {
    Limit {
        faults,
        bytes: 1_000_000,
    }
}

fn text_of(alloc: Global, mended: &Mended) -> Result<String, AllocError> {
    let mut text = faults_of(alloc, mended)?;
    let tree = tree_text(alloc, &mended.output)?;
    text.push_str(tree.as_str())?;
    Ok(text)
}

fn faults_of(alloc: Global, mended: &Mended) -> Result<String, AllocError> {
    let mut text = String::new(alloc);
    for fault in &mended.faults {
        text.push_str(line_of(alloc, fault)?.as_str())?;
    }
    if mended.cut {
        text.push_str("cut\n")?;
    }
    Ok(text)
}

fn line_of(alloc: Global, fault: &Fault) -> Result<String, AllocError> {
    let ErrorKind::SyntaxError(report) = &fault.error.kind else {
        return String::from_str(alloc, "no syntax error\n");
    };
    let alone = if fault.alone { "alone " } else { "" };
    let (line, column) = (report.span.start_line, report.span.start_col);
    let (start, end) = (report.span.range.start, report.span.range.end);
    let message = report.message.as_str();
    format!(in alloc; "{alone}{line}:{column} ({start}..{end}): {message}\n")
}
