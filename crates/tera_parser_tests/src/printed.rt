//! Printed texts of expressions and of their parts that no source says.

use crate::making::{Made, both, constant, one, variable};
use std::alloc::{AllocError, Global};
use std::test::Fail;
use tera_base::{Span, Value};
use tera_tree::{
    BinaryOperator, ComponentArgument, ComponentDefinition, Expression, Node, ParserOutput, build,
};
use tera_tree_text::tree_text;

// An operation on the variables `a` and `b`.
fn operation(alloc: Global, operator: BinaryOperator) -> Made<Expression> {
    let (left, right) = both(
        variable(alloc, "a", Span::default()),
        variable(alloc, "b", Span::default()),
    )?;
    build::binary(alloc, operator, left, right, Span::default())
}

// A call of a component with one node in its body.
fn call(alloc: Global) -> Made<Expression> {
    let (body, name) = both(one(alloc, Ok(Node::Break)), String::from_str(alloc, "box"))?;
    build::component_call(alloc, name, Vec::new(alloc), body, false, Span::default())
}

// Whether the expression shows as this text.
fn shows(alloc: Global, text: &str, made: Made<Expression>) -> Result<bool, AllocError> {
    let expression = made?;
    let shown = format!(in alloc; "{expression}");
    drop(expression);
    Ok(shown?.as_str() == text)
}

fn show_constants(alloc: Global) -> Result<bool, AllocError> {
    let bytes = Value::Bytes(Vec::from_array(alloc, [97u8])?);
    Ok(
        shows(alloc, "<bytes>", constant(alloc, bytes))?
            && shows(alloc, "undefined", constant(alloc, Value::Undefined))?,
    )
}

fn show_empty_ones(alloc: Global) -> Result<bool, AllocError> {
    let array = build::array(alloc, Vec::new(alloc), Span::default());
    let is_array = shows(alloc, "[]", array)?;
    let map = build::map(alloc, Vec::new(alloc), Span::default());
    Ok(shows(alloc, "{}", map)? && is_array)
}

fn show_operations(alloc: Global) -> Result<bool, AllocError> {
    Ok(
        shows(alloc, "(is a b)", operation(alloc, BinaryOperator::Is))?
            && shows(alloc, "(| a b)", operation(alloc, BinaryOperator::Pipe))?,
    )
}

#[test]
fn expressions_of_no_source(rt: HostRuntime) -> Result<(), Fail> {
    assert!(rt; show_constants(rt.alloc())?);
    assert!(rt; show_empty_ones(rt.alloc())?);
    assert!(rt; show_operations(rt.alloc())?);
    assert!(rt; shows(rt.alloc(), "<box{}>[nodes: 1]<box/>", call(rt.alloc()))?);
    Ok(())
}

// A definition of two arguments. The name of the first is not a name of the language.
fn definition(alloc: Global) -> Result<ComponentDefinition, AllocError> {
    let mut definition = ComponentDefinition::empty(alloc);
    for name in &["é", "z"] {
        let name = String::from_str(alloc, name)?;
        let argument = ComponentArgument::default();
        drop(definition.kwargs.insert(name, argument)?);
    }
    Ok(definition)
}

#[test]
fn an_argument_whose_name_is_no_name(rt: HostRuntime) -> Result<(), Fail> {
    let component_definitions = one(rt.alloc(), definition(rt.alloc()))?;
    let output = ParserOutput {
        parent: None,
        nodes: Vec::new(rt.alloc()),
        component_definitions,
    };
    let lines = tree_text(rt.alloc(), &output);
    drop(output);
    let lines = lines?;
    assert!(rt;
        lines.as_str() == "component \n  arg z\n  arg é\n",
        "{lines}"
    );
    Ok(())
}
