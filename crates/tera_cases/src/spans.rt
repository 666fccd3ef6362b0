//! The places of a tree: of each expression, and of each name that has one.

use std::alloc::{AllocError, Global};
use tera_base::Span;
use tera_parser::ParserOutput;
use tera_tree::parts::{Part, Parts, top_parts};
use tera_tree::{Expression, Node};

/// A line for each expression and for each name of an included template or of a block, from left to right.
pub(crate) fn spans(alloc: Global, output: &ParserOutput) -> Result<String, AllocError> {
    let mut text = String::new(alloc);
    let mut left = top_parts(alloc, &output.component_definitions, &output.nodes)?;
    left.reverse();
    for _part in 0..u64::MAX {
        let Some(part) = left.pop() else {
            break;
        };
        show(alloc, &mut text, part)?;
        push_first(alloc, &mut left, part)?;
    }
    Ok(text)
}

// Puts what is in the part where it is taken next, from left to right.
fn push_first<'a>(alloc: Global, left: &mut Parts<'a>, part: Part<'a>) -> Result<(), AllocError> {
    let mut inside = Vec::new(alloc);
    part.push_inside(&mut inside)?;
    for next in inside.iter().rev() {
        left.push(*next)?;
    }
    Ok(())
}

// The line of the part, if it has one.
fn show(alloc: Global, text: &mut String, part: Part<'_>) -> Result<(), AllocError> {
    match part {
        Part::Expression(expression) => {
            let shown = shown_text(alloc, expression)?;
            push_line(
                alloc,
                text,
                kind(expression),
                expression.span(),
                shown.as_str(),
            )
        }
        Part::Node(Node::Include(include)) => {
            let name = &include.name;
            push_line(alloc, text, "Include", name.span(), name.node().as_str())
        }
        Part::Node(Node::Block(block)) => {
            let name = &block.name;
            push_line(alloc, text, "Block", name.span(), name.node().as_str())
        }
        Part::Node(_) => Ok(()),
    }
}

fn push_line(
    alloc: Global,
    text: &mut String,
    kind: &str,
    span: &Span,
    shown: &str,
) -> Result<(), AllocError> {
    let (line, column) = (span.start_line, span.start_col);
    let (last, end) = (span.end_line, span.end_col);
    let range = &span.range;
    if !text.is_empty() {
        text.push_str("\n")?;
    }
    let line = format!(in alloc; "{kind} {line}:{column}-{last}:{end} ({range:?}) {shown}")?;
    text.push_str(line.as_str())
}

// The text of the expression; of a call with a body the name alone.
fn shown_text(alloc: Global, expression: &Expression) -> Result<String, AllocError> {
    if let Expression::ComponentCall(call) = expression {
        if !call.node().self_closing {
            let name = call.node().name.as_str();
            return format!(in alloc; "<{name}>");
        }
    }
    format!(in alloc; "{expression}")
}

fn kind(expression: &Expression) -> &'static str {
    match expression {
        Expression::Const(_) => "Const",
        Expression::Array(_) => "Array",
        Expression::Map(_) => "Map",
        Expression::Var(_) => "Var",
        Expression::GetAttr(_) => "GetAttr",
        Expression::GetItem(_) => "GetItem",
        Expression::Slice(_) => "Slice",
        Expression::Filter(_) => "Filter",
        Expression::Test(_) => "Test",
        Expression::Ternary(_) => "Ternary",
        Expression::ListComprehension(_) => "ListComprehension",
        Expression::ComponentCall(_) => "ComponentCall",
        Expression::FunctionCall(_) => "FunctionCall",
        Expression::UnaryOperation(_) => "UnaryOperation",
        Expression::BinaryOperation(_) => "BinaryOperation",
    }
}
