//! Source texts of expressions that were read.

use crate::faults::{Detail, error_text};
use crate::settings::Setting;
use std::alloc::{AllocError, Global};
use tera_parser::ParserOutput;
use tera_parser::expr::{reread, source_of};
use tera_tree::{Expression, Node};

/// The source text of the expression that is all of the template, where it is read as this expression.
pub(crate) fn written_back(
    alloc: Global,
    setting: &Setting<'_>,
    output: &ParserOutput,
) -> Result<String, AllocError> {
    let [Node::Expression(expression)] = output.nodes.as_slice() else {
        return String::from_str(alloc, "not one expression");
    };
    let first = match written_of(alloc, setting, expression)? {
        Ok(written) => written,
        Err(reported) => return Ok(reported),
    };
    let text = first.source.as_str();
    match written_again(alloc, setting, expression)? {
        Ok(second) if second == first => String::from_str(alloc, text),
        Ok(second) => format!(in alloc; "{text}, and then {}", second.source),
        Err(reported) => format!(in alloc; "{text}, and then {reported}"),
    }
}

/// Whether the source text of the expression is read as this expression, and written again.
pub(crate) fn is_kept(
    alloc: Global,
    setting: &Setting<'_>,
    expression: &Expression,
) -> Result<bool, AllocError> {
    let Ok(first) = written_of(alloc, setting, expression)? else {
        return Ok(false);
    };
    match written_again(alloc, setting, expression)? {
        Ok(second) => Ok(second == first),
        Err(_) => Ok(false),
    }
}

// What is written of an expression: its source text, and the text of its tree.
#[derive(Drop, PartialEq)]
struct Written {
    source: String,
    tree: String,
}

// What is written, or what a fault says.
type WrittenOr = Result<Written, String>;

fn written_of(
    alloc: Global,
    setting: &Setting<'_>,
    expression: &Expression,
) -> Result<WrittenOr, AllocError> {
    match source_of(alloc, expression) {
        Ok(source) => {
            let tree = format!(in alloc; "{expression}")?;
            Ok(Ok(Written { source, tree }))
        }
        Err(error) => Ok(Err(error_text(alloc, setting.file, Detail::Start, &error)?)),
    }
}

// The same of the expression that is read again from its source text.
fn written_again(
    alloc: Global,
    setting: &Setting<'_>,
    expression: &Expression,
) -> Result<WrittenOr, AllocError> {
    let limits = setting.limits;
    if !limits.valid() {
        return Ok(Err(String::from_str(alloc, "no limits")?));
    }
    match reread(alloc, expression, limits) {
        Ok(again) => written_of(alloc, setting, &again),
        Err(error) => Ok(Err(error_text(alloc, setting.file, Detail::Start, &error)?)),
    }
}
