//! The parts at the top of a tree, and those that are in a part.

use crate::making::{Made, both, one, variable};
use std::alloc::{AllocError, Global};
use std::test::Fail;
use tera_base::Span;
use tera_tree::parts::{Part, Parts, top_parts};
use tera_tree::{ComponentDefinition, Expression, Node, build};

// The nodes of `{% if a %}{% break %}{% else %}{% continue %}{% endif %}`.
fn choice(alloc: Global) -> Made<Vec<Node>> {
    let bodies = both(one(alloc, Ok(Node::Break)), one(alloc, Ok(Node::Continue)));
    let (condition, (body, false_body)) = both(variable(alloc, "a", Span::default()), bodies)?;
    one(alloc, Ok(build::when(condition, body, false_body)))
}

// A definition with a text in its body.
fn definition(alloc: Global) -> Made<ComponentDefinition> {
    let mut definition = ComponentDefinition::empty(alloc);
    definition.body.push(Node::Content(String::new(alloc)))?;
    Ok(definition)
}

// A word for each part.
fn words(alloc: Global, parts: &Parts<'_>) -> Result<String, AllocError> {
    let mut text = String::new(alloc);
    for part in parts {
        text.push_str(word(*part))?;
    }
    Ok(text)
}

fn word(part: Part<'_>) -> &'static str {
    match part {
        Part::Node(Node::Content(_)) => "text ",
        Part::Node(Node::If(_)) => "if ",
        Part::Node(Node::Break) => "break ",
        Part::Node(Node::Continue) => "continue ",
        Part::Node(_) => "node ",
        Part::Expression(Expression::Var(_)) => "variable ",
        Part::Expression(_) => "expression ",
    }
}

#[test]
fn parts_come_from_left_to_right(rt: HostRuntime) -> Result<(), Fail> {
    let alloc = rt.alloc();
    let (definitions, nodes) = both(one(alloc, definition(alloc)), choice(alloc))?;
    let mut left = top_parts(alloc, &definitions, &nodes)?;
    let top = words(alloc, &left)?;
    assert!(rt; top.as_str() == "text if ");
    if let Some(last) = left.pop() {
        last.push_inside(&mut left)?;
    }
    let inside = words(alloc, &left)?;
    assert!(rt; inside.as_str() == "text variable break continue ");
    Ok(())
}
