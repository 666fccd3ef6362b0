//! What holds of each tree that is read: an expression has the text of what is in it, and a copy equals the tree.

use std::alloc::{AllocError, Global};
use tera_parser::ParserOutput;
use tera_tree::Expression;
use tera_tree::parts::{Part, top_parts};

/// What does not hold of the tree, if anything.
pub(crate) fn broken(
    alloc: Global,
    output: &ParserOutput,
) -> Result<Option<&'static str>, AllocError> {
    if !equals_its_copy(output)? {
        return Ok(Some("a copy that is another tree"));
    }
    let mut left = top_parts(alloc, &output.component_definitions, &output.nodes)?;
    for _part in 0..u64::MAX {
        let Some(part) = left.pop() else {
            break;
        };
        if !has_one_face(alloc, part)? {
            return Ok(Some("an expression with another text than what is in it"));
        }
        part.push_inside(&mut left)?;
    }
    Ok(None)
}

/// Whether a copy of the tree equals it.
pub(crate) fn equals_its_copy(output: &ParserOutput) -> Result<bool, AllocError> {
    match output.clone() {
        Ok(copy) => Ok(copy == *output),
        Err(error) => Err(error),
    }
}

fn has_one_face(alloc: Global, part: Part<'_>) -> Result<bool, AllocError> {
    let Part::Expression(expression) = part else {
        return Ok(true);
    };
    let whole = format!(in alloc; "{expression}")?;
    let inside = inside(alloc, expression)?;
    Ok(whole == inside)
}

// The text of what is in the expression; of a constant that of the expression.
fn inside(alloc: Global, expression: &Expression) -> Result<String, AllocError> {
    match expression {
        Expression::Const(_) => format!(in alloc; "{expression}"),
        Expression::Array(s) => format!(in alloc; "{}", s.node()),
        Expression::Map(s) => format!(in alloc; "{}", s.node()),
        Expression::Var(s) => format!(in alloc; "{}", s.node()),
        Expression::GetAttr(s) => format!(in alloc; "{}", s.node()),
        Expression::GetItem(s) => format!(in alloc; "{}", s.node()),
        Expression::Slice(s) => format!(in alloc; "{}", s.node()),
        Expression::Filter(s) => format!(in alloc; "{}", s.node()),
        Expression::Test(s) => format!(in alloc; "{}", s.node()),
        Expression::Ternary(s) => format!(in alloc; "{}", s.node()),
        Expression::ListComprehension(s) => format!(in alloc; "{}", s.node()),
        Expression::ComponentCall(s) => format!(in alloc; "{}", s.node()),
        Expression::FunctionCall(s) => format!(in alloc; "{}", s.node()),
        Expression::UnaryOperation(s) => format!(in alloc; "{}", s.node()),
        Expression::BinaryOperation(s) => format!(in alloc; "{}", s.node()),
    }
}
