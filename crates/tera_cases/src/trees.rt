//! Templates that are read.
//!
//! A tree is held by one function, in which nothing else may stop; what is made of it takes a reference.

use crate::settings::Setting;
use std::alloc::{AllocError, Global};
use tera_base::Error;
use tera_lexer::Delimiters;
use tera_parser::{Parser, ParserOutput};

/// What is made of a template.
pub(crate) trait Use {
    type Made;

    /// What is made of its tree.
    fn of_tree(&self, alloc: Global, output: &ParserOutput) -> Result<Self::Made, AllocError>;

    /// What is made of its fault.
    fn of_fault(&self, alloc: Global, error: &Error) -> Result<Self::Made, AllocError>;
}

/// What is made of the source between the markers of the setting.
pub(crate) fn read<U: Use>(
    alloc: Global,
    setting: &Setting<'_>,
    source: &str,
    made: &U,
) -> Result<U::Made, AllocError> {
    let delimiters = setting.delimiters.clone()?;
    match parsed(alloc, setting, delimiters, source) {
        Ok(output) => made.of_tree(alloc, &output),
        Err(error) => made.of_fault(alloc, &error),
    }
}

fn parsed(
    alloc: Global,
    setting: &Setting<'_>,
    delimiters: Delimiters,
    source: &str,
) -> Result<ParserOutput, Error> {
    delimiters.validate(alloc)?;
    let limits = setting.limits;
    if !limits.valid() {
        return Err(Error::message(alloc, "no limits"));
    }
    Parser::with_limits(alloc, setting.file, source, delimiters, limits).parse()
}
