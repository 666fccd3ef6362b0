//! A choice and its parts, and a long chain of `elif`s, which is taken apart.

use crate::making::{Made, both, one, variable};
use std::alloc::Global;
use std::test::Fail;
use tera_base::Span;
use tera_tree::{If, Node, build};

// A choice with this after it.
fn choice(alloc: Global, following: Made<Vec<Node>>) -> Made<Node> {
    let (condition, following) = both(variable(alloc, "a", Span::default()), following)?;
    Ok(build::when(condition, Vec::new(alloc), following))
}

// A chain with so many conditions.
fn chain(alloc: Global, conditions: u32) -> Made<Vec<Node>> {
    let mut nodes = Ok(Vec::new(alloc));
    for _ in 0..conditions {
        nodes = one(alloc, choice(alloc, nodes));
    }
    nodes
}

// How many choices are in the chain, each alone after the one before. Each is taken out of the one that holds it.
fn taken_apart(mut nodes: Vec<Node>) -> usize {
    for count in 0..20000 {
        let Some(node) = nodes.pop() else {
            return count;
        };
        let Ok(choice) = node.into_if() else {
            return count;
        };
        let (_condition, _body, following) = choice.into_parts();
        nodes = following;
    }
    20000
}

#[test]
fn a_long_chain_is_taken_apart(rt: HostRuntime) -> Result<(), Fail> {
    let nodes = chain(rt.alloc(), 10001)?;
    assert!(rt; taken_apart(nodes) == 10001);
    Ok(())
}

// Whether the parts are a variable, one node and none.
fn has_three_parts(choice: If) -> bool {
    let (condition, body, following) = choice.into_parts();
    !condition.is_literal() && body.len() == 1 && following.is_empty()
}

#[test]
fn a_choice_has_three_parts(rt: HostRuntime) -> Result<(), Fail> {
    let alloc = rt.alloc();
    let (expr, body) = both(
        variable(alloc, "a", Span::default()),
        one(alloc, Ok(Node::Break)),
    )?;
    let false_body = Vec::new(alloc);
    let choice = If {
        expr,
        body,
        false_body,
    };
    assert!(rt; has_three_parts(choice));
    Ok(())
}
