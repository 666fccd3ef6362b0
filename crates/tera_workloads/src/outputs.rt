//! What of an output and of an error goes into a digest.

use crate::digest::Digest;
use tera_parser::ParserOutput;
use tera_parser::ast::{Expression, Node};
use tera_parser::value::{Error, ErrorKind, Span};

/// The parent, the definitions, and the nodes at the top.
pub(crate) fn put_output(digest: &mut Digest, output: &ParserOutput) {
    if let Some(parent) = &output.parent {
        digest.put_bytes(parent.as_bytes());
    }
    for definition in &output.component_definitions {
        digest.put_bytes(definition.name.as_bytes());
        put_nodes(digest, &definition.body);
    }
    put_nodes(digest, &output.nodes);
}

fn put_nodes(digest: &mut Digest, nodes: &Vec<Node>) {
    for node in nodes {
        put_node(digest, node);
    }
    digest.put(nodes.len() as u64);
}

fn put_node(digest: &mut Digest, node: &Node) {
    match node {
        Node::Content(text) => digest.put(text.len() as u64),
        Node::Expression(expression) => put_expression(digest, expression),
        Node::Block(block) => digest.put_bytes(block.name.node().as_bytes()),
        Node::Include(include) => digest.put_bytes(include.name.node().as_bytes()),
        Node::ForLoop(turn) => digest.put(turn.body.len() as u64),
        Node::If(choice) => digest.put(choice.body.len() as u64),
        _ => digest.put(1),
    }
}

fn put_expression(digest: &mut Digest, expression: &Expression) {
    match expression {
        Expression::Var(variable) => put_span(digest, variable.span()),
        Expression::GetAttr(field) => put_span(digest, field.span()),
        Expression::Filter(filter) => put_span(digest, filter.span()),
        Expression::FunctionCall(call) => put_span(digest, call.span()),
        Expression::Ternary(choice) => put_span(digest, choice.span()),
        Expression::ComponentCall(call) => put_span(digest, call.span()),
        _ => digest.put(2),
    }
}

fn put_span(digest: &mut Digest, span: &Span) {
    digest.put(span.start_line as u64);
    digest.put(span.start_col as u64);
    digest.put(span.end_line as u64);
    digest.put(span.end_col as u64);
    digest.put(span.range.start as u64);
    digest.put(span.range.end as u64);
}

/// The text, the place and the notes of a fault.
pub(crate) fn put_error(digest: &mut Digest, error: &Error) {
    match &error.kind {
        ErrorKind::SyntaxError(report) => {
            digest.put_bytes(report.message.as_bytes());
            put_span(digest, &report.span);
            digest.put(report.notes.len() as u64);
        }
        ErrorKind::Message(text) => digest.put_bytes(text.as_bytes()),
        ErrorKind::Memory => digest.put(3),
    }
}
