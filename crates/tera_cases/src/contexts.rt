//! The context of a component that a template defines and calls.

use crate::faults::{Detail, error_text};
use std::alloc::{AllocError, Global};
use tera_base::{Context, Error, Key, Value};
use tera_parser::ParserOutput;
use tera_tree::{ComponentCall, ComponentDefinition, Expression, MapEntry, Node};

/// The names and values with which the first component of the template is shown by the call that is last.
///
/// An attribute that is a name alone is given without a value. What the template sets is found for an implicit
/// argument. The body of the call is its first text.
pub(crate) fn context(
    alloc: Global,
    file: &str,
    output: &ParserOutput,
) -> Result<String, AllocError> {
    let definition = output.component_definitions.first();
    let (Some(definition), Some(call)) = (definition, last_call(&output.nodes)) else {
        return String::from_str(alloc, "no component and its call");
    };
    match built(alloc, definition, call, &output.nodes) {
        Ok(made) => lines(alloc, &made),
        Err(error) => error_text(alloc, file, Detail::Start, &error),
    }
}

fn last_call(nodes: &Vec<Node>) -> Option<&ComponentCall> {
    match nodes.last() {
        Some(Node::Expression(Expression::ComponentCall(call))) => Some(call.node()),
        _ => None,
    }
}

fn built(
    alloc: Global,
    definition: &ComponentDefinition,
    call: &ComponentCall,
    nodes: &Vec<Node>,
) -> Result<Context, Error> {
    let names = names(alloc, &call.kwargs)?;
    let get_value = |name: &str| -> Result<Option<Value>, Error> { passed(&call.kwargs, name) };
    let get_implicit_value = |name: &str| -> Result<Value, Error> { found(nodes, name) };
    let body = body(call)?;
    let keys = names.iter().copied();
    definition.build_context(alloc, keys, get_value, get_implicit_value, body)
}

// The names that the call gives.
fn names(alloc: Global, attributes: &Vec<MapEntry>) -> Result<Vec<&str>, AllocError> {
    let mut all = Vec::new(alloc);
    for attribute in attributes {
        if let MapEntry::KeyValue {
            key: Key::String(name),
            value: _,
        } = attribute
        {
            all.push(name.as_str())?;
        }
    }
    Ok(all)
}

// The value that the call gives the name.
fn passed(attributes: &Vec<MapEntry>, expected: &str) -> Result<Option<Value>, Error> {
    for attribute in attributes {
        if let MapEntry::KeyValue {
            key: Key::String(name),
            value,
        } = attribute
        {
            if name.as_str() == expected {
                return constant(value);
            }
        }
    }
    Ok(None)
}

// The value that the template sets the name to.
fn found(nodes: &Vec<Node>, expected: &str) -> Result<Value, Error> {
    for node in nodes {
        if let Node::Set(set) = node {
            if set.name.as_str() == expected {
                return Ok(constant(&set.value)?.unwrap_or(Value::Undefined));
            }
        }
    }
    Ok(Value::Undefined)
}

fn constant(expression: &Expression) -> Result<Option<Value>, Error> {
    match expression {
        Expression::Const(constant) => Ok(Some(constant.node().clone()?)),
        _ => Ok(None),
    }
}

fn body(call: &ComponentCall) -> Result<Option<Value>, AllocError> {
    match call.body.first() {
        Some(Node::Content(text)) => Ok(Some(Value::String(text.clone()?))),
        _ => Ok(None),
    }
}

fn lines(alloc: Global, made: &Context) -> Result<String, AllocError> {
    let mut all = String::new(alloc);
    for (name, value) in made.iter() {
        if !all.is_empty() {
            all.push_str("\n")?;
        }
        let name = name.as_str();
        let line = format!(in alloc; "{name} = {value}")?;
        all.push_str(line.as_str())?;
    }
    Ok(all)
}
