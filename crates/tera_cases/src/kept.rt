//! That each expression that is by itself in a tree is written so that it is read again.

use crate::settings::Setting;
use crate::written::is_kept;
use std::alloc::{AllocError, Global};
use tera_base::Key;
use tera_parser::ParserOutput;
use tera_tree::parts::{Part, top_parts};
use tera_tree::{Expression, MapEntry, Node};

/// Whether each expression that is by itself in the tree is kept.
pub(crate) fn are_kept(
    alloc: Global,
    setting: &Setting<'_>,
    output: &ParserOutput,
) -> Result<bool, AllocError> {
    let mut left = top_parts(alloc, &output.component_definitions, &output.nodes)?;
    for _part in 0..u64::MAX {
        let Some(part) = left.pop() else {
            break;
        };
        if let Part::Node(node) = part {
            if !is_node_kept(alloc, setting, node)? {
                return Ok(false);
            }
        }
        part.push_inside(&mut left)?;
    }
    Ok(true)
}

// The same of the expressions of the node outside of its bodies.
fn is_node_kept(alloc: Global, setting: &Setting<'_>, node: &Node) -> Result<bool, AllocError> {
    match node {
        Node::Expression(Expression::ComponentCall(call)) if !call.node().self_closing => {
            are_attributes_kept(alloc, setting, &call.node().kwargs)
        }
        Node::Expression(expression) => is_kept(alloc, setting, expression),
        Node::Set(set) => is_kept(alloc, setting, &set.value),
        Node::BlockSet(set) => are_filters_kept(alloc, setting, &set.filters),
        Node::ForLoop(turns) => is_kept(alloc, setting, &turns.target),
        Node::If(choice) => is_kept(alloc, setting, &choice.expr),
        Node::FilterSection(section) => are_filters_kept(alloc, setting, &section.filters),
        _ => Ok(true),
    }
}

// The same of the attributes of a call with a body.
fn are_attributes_kept(
    alloc: Global,
    setting: &Setting<'_>,
    attributes: &Vec<MapEntry>,
) -> Result<bool, AllocError> {
    for attribute in attributes {
        if !is_attribute_kept(alloc, setting, attribute)? {
            return Ok(false);
        }
    }
    Ok(true)
}

// A name alone is not an expression.
fn is_attribute_kept(
    alloc: Global,
    setting: &Setting<'_>,
    attribute: &MapEntry,
) -> Result<bool, AllocError> {
    match attribute {
        MapEntry::KeyValue { key, value } if is_name_alone(key, value) => Ok(true),
        MapEntry::KeyValue { key: _, value } => is_kept(alloc, setting, value),
        MapEntry::Spread(expression) => is_kept(alloc, setting, expression),
    }
}

fn is_name_alone(key: &Key, value: &Expression) -> bool {
    match (key, value) {
        (Key::String(name), Expression::Var(variable)) => {
            name.as_str() == variable.node().name.as_str()
        }
        _ => false,
    }
}

// The same of the arguments of filters that come after no expression.
fn are_filters_kept(
    alloc: Global,
    setting: &Setting<'_>,
    filters: &Vec<Expression>,
) -> Result<bool, AllocError> {
    for filter in filters {
        if !are_arguments_kept(alloc, setting, filter)? {
            return Ok(false);
        }
    }
    Ok(true)
}

fn are_arguments_kept(
    alloc: Global,
    setting: &Setting<'_>,
    filter: &Expression,
) -> Result<bool, AllocError> {
    let Expression::Filter(filter) = filter else {
        return Ok(true);
    };
    for (_name, value) in filter.node().kwargs.iter() {
        if !is_kept(alloc, setting, value)? {
            return Ok(false);
        }
    }
    Ok(true)
}
