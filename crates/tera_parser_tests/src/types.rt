//! Types of arguments, and what is read, copied and compared of trees.

use crate::making::{both, constant, variable};
use std::alloc::{AllocError, Global};
use std::test::Fail;
use tera_base::{Error, Map, Span, Value};
use tera_tree::{
    ArgType as Type, ComponentArgument, ComponentDefinition, Expression, Node, UnaryOperator,
    build, laws,
};

const ALL: [(Type, &str); 7] = [
    (Type::String, "string"),
    (Type::Bool, "bool"),
    (Type::Integer, "integer"),
    (Type::Number, "number"),
    (Type::Array, "array"),
    (Type::Map, "map"),
    (Type::Bytes, "bytes"),
];

fn is_named(alloc: Global, typ: Type, name: &str) -> Result<bool, Error> {
    Ok(
        typ.as_str() == name
            && Type::from_str(alloc, name)? == typ
            && laws::type_of_its_name(alloc, typ)? == typ,
    )
}

#[test]
fn types_by_name(rt: HostRuntime) -> Result<(), Fail> {
    for (typ, name) in &ALL {
        assert!(rt; is_named(rt.alloc(), *typ, name)?, "{name}");
    }
    Ok(())
}

// The names of the types that the value matches.
fn matched(alloc: Global, value: &Value) -> Result<String, AllocError> {
    let mut names = String::new(alloc);
    for (typ, name) in &ALL {
        if typ.matches_value(value) {
            names.push_str(name)?;
            names.push_str(" ")?;
        }
    }
    Ok(names)
}

// Whether an argument without a type matches the value, and one of bytes where the value is bytes.
fn is_matched(value: &Value, is_bytes: bool) -> bool {
    let mut argument = ComponentArgument::default();
    let is_any = argument.type_matches(value);
    argument.typ = Some(Type::Bytes);
    is_any && argument.type_matches(value) == is_bytes
}

// Whether the value has this type, and matches these.
fn has_type(
    alloc: Global,
    value: &Value,
    typ: Option<Type>,
    names: &str,
) -> Result<bool, AllocError> {
    let matched = matched(alloc, value)?;
    Ok(
        Type::from_value(value) == typ
            && matched.as_str() == names
            && is_matched(value, names == "bytes "),
    )
}

// Values, their types, and the names of those that they match.
fn values(alloc: Global) -> [(Value, Option<Type>, &'static str); 11] {
    let text = Value::String(String::new(alloc));
    let (array, map) = (Value::Array(Vec::new(alloc)), Value::Map(Map::new(alloc)));
    let (integer, whole) = (Some(Type::Integer), "integer number ");
    [
        (Value::Undefined, None, ""),
        (Value::None, None, ""),
        (Value::Bool(true), Some(Type::Bool), "bool "),
        (Value::I64(1), integer, whole),
        (Value::U64(1), integer, whole),
        (Value::I128(1), integer, whole),
        (Value::U128(1), integer, whole),
        (text, Some(Type::String), "string "),
        (Value::Bytes(Vec::new(alloc)), Some(Type::Bytes), "bytes "),
        (array, Some(Type::Array), "array "),
        (map, Some(Type::Map), "map "),
    ]
}

#[test]
fn types_of_values(rt: HostRuntime) -> Result<(), Fail> {
    for (value, typ, names) in &values(rt.alloc()) {
        assert!(rt; has_type(rt.alloc(), value, *typ, names)?, "{value:?}");
    }
    Ok(())
}

fn place(start: usize, end: usize) -> Span {
    Span {
        start_col: start,
        end_col: end,
        range: start..end,
        ..Span::default()
    }
}

fn is_expanded(variable: &mut Expression) -> bool {
    variable.expand_span(&place(6, 9));
    !variable.is_literal() && variable.span().copied() == place(3, 9)
}

#[test]
fn an_expression_is_expanded(rt: HostRuntime) -> Result<(), Fail> {
    let mut e = variable(rt.alloc(), "a", place(3, 4))?;
    let is_expanded = is_expanded(&mut e);
    drop(e);
    let constant = constant(rt.alloc(), Value::I64(1))?;
    let is_literal = constant.is_literal();
    drop(constant);
    assert!(rt; is_expanded && is_literal);
    Ok(())
}

// The negation, at the same place, of a variable that begins here.
fn negated(alloc: Global, start: usize) -> Result<Expression, AllocError> {
    let operand = variable(alloc, "a", place(start, 3))?;
    build::unary(alloc, UnaryOperator::Not, operand, place(0, 3))
}

// Whether the copy of this equals it.
fn is_copied<T: Clone + PartialEq + Drop>(x: &T) -> Result<bool, AllocError> {
    let copy = x.clone()?;
    Ok(copy == *x)
}

#[test]
fn expressions_equal_with_their_places(rt: HostRuntime) -> Result<(), Fail> {
    let (one, other) = both(negated(rt.alloc(), 2), negated(rt.alloc(), 1))?;
    let are_same = laws::same_expression(&one, &other);
    let is_same = is_copied(&one);
    drop(one);
    drop(other);
    assert!(rt; is_same? && !are_same);
    Ok(())
}

fn definition(alloc: Global) -> Result<ComponentDefinition, AllocError> {
    let mut definition = ComponentDefinition::empty(alloc);
    let name = String::from_str(alloc, "a")?;
    definition
        .kwargs
        .insert(name, ComponentArgument::default())?;
    definition.body.push(Node::Break)?;
    Ok(definition)
}

fn are_copied(alloc: Global) -> Result<bool, AllocError> {
    let (definition, empty) = (definition(alloc)?, ComponentDefinition::empty(alloc));
    Ok(is_copied(&empty)? && is_copied(&definition)? && !laws::same_definition(&definition, &empty))
}

#[test]
fn nodes_and_definitions_equal_their_copies(rt: HostRuntime) -> Result<(), Fail> {
    assert!(rt; are_copied(rt.alloc())?);
    assert!(rt; laws::same_node(&Node::Break, &Node::Break));
    assert!(rt; !laws::same_node(&Node::Break, &Node::Continue));
    Ok(())
}
