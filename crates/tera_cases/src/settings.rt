//! How the sources of a section are read.

use case_files::{Numbers, Options};
use std::alloc::{AllocError, Global};
use std::borrow::CowStr;
use tera_lexer::Delimiters;
use tera_parser::Limits;

/// Options of a section with their markers and limits, and the file that faults are about.
#[derive(Drop)]
pub(crate) struct Setting<'a> {
    pub(crate) file: &'a str,
    pub(crate) options: &'a Options,
    pub(crate) delimiters: Delimiters,
    pub(crate) limits: Limits,
}

/// The setting of the options, if a template can be read with them.
pub(crate) fn setting_of<'a>(
    alloc: Global,
    file: &'a str,
    options: &'a Options,
) -> Result<Option<Setting<'a>>, AllocError> {
    let delimiters = markers_of(options.markers.as_slice())?;
    let limits = limits_of(options.limits);
    if delimiters.validate(alloc).is_err() || !limits.valid() {
        return Ok(None);
    }
    Ok(Some(Setting {
        file,
        options,
        delimiters,
        limits,
    }))
}

/// These six markers; the usual ones in place of another number of them.
pub(crate) fn markers_of(words: &[String]) -> Result<Delimiters, AllocError> {
    let [
        block,
        block_end,
        variable,
        variable_end,
        comment,
        comment_end,
    ] = words
    else {
        return Ok(Delimiters::default());
    };
    Ok(Delimiters {
        block_start: CowStr::Owned(block.clone()?),
        block_end: CowStr::Owned(block_end.clone()?),
        variable_start: CowStr::Owned(variable.clone()?),
        variable_end: CowStr::Owned(variable_end.clone()?),
        comment_start: CowStr::Owned(comment.clone()?),
        comment_end: CowStr::Owned(comment_end.clone()?),
    })
}

/// These limits, and the usual ones where none is given.
pub(crate) fn limits_of(numbers: Numbers) -> Limits {
    let usual = Limits::default();
    Limits {
        depth: numbers.depth.unwrap_or(usual.depth),
        links: numbers.links.unwrap_or(usual.links),
        subscripts: numbers.subscripts.unwrap_or(usual.subscripts),
        arrays: numbers.arrays.unwrap_or(usual.arrays),
        bodies: numbers.bodies.unwrap_or(usual.bodies),
    }
}

/// What is read of a case: its source, in a variable tag where it is an expression.
pub(crate) fn source_of_case(
    alloc: Global,
    setting: &Setting<'_>,
    source: &str,
) -> Result<String, AllocError> {
    if !setting.options.expressions {
        return String::from_str(alloc, source);
    }
    let start = setting.delimiters.variable_start.as_str();
    let end = setting.delimiters.variable_end.as_str();
    format!(in alloc; "{start} {source} {end}")
}
