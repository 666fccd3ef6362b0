//! Calls of components with a body, and trees that no parser made: their source texts, and what these are read as.

use std::alloc::{AllocError, Global};
use std::test::Fail;
use tera_base::{Error, ErrorKind, Key, Span, Value};
use tera_lexer::words;
use tera_parser::Limits;
use tera_parser::expr::reread;
use tera_source::source_of;
use tera_tree::{BinaryOperator, Expression, MapEntry, Node, UnaryOperator, build};

type Made = Result<Expression, AllocError>;

// The text of what was made.
fn text_of(alloc: Global, made: Made) -> Result<String, Error> {
    match made {
        Ok(e) => source_of(alloc, &e),
        Err(error) => Err(error.into()),
    }
}

// A call of a component with a text as its body.
fn call_with_body(alloc: Global) -> Made {
    let mut body = Vec::new(alloc);
    body.push(Node::Content(String::from_str(alloc, "hi")?))?;
    let name = String::from_str(alloc, "box")?;
    let attributes = Vec::new(alloc);
    build::component_call(alloc, name, attributes, body, false, Span::default())
}

// The negation of what was made.
fn negated(alloc: Global, made: Made) -> Made {
    match made {
        Ok(e) => build::unary(alloc, UnaryOperator::Not, e, Span::default()),
        Err(error) => Err(error),
    }
}

#[test]
fn what_holds_a_call_with_a_body_is_refused(rt: HostRuntime) -> Result<(), Fail> {
    let alloc = rt.alloc();
    let text = text_of(alloc, negated(alloc, call_with_body(alloc)));
    let refusal = Error::message(alloc, "A component call with a body has no expression text");
    assert!(rt; text == Err(refusal));
    Ok(())
}

// A variable of this name, whether it is one or not.
fn variable(alloc: Global, name: &str) -> Made {
    build::variable(alloc, String::from_str(alloc, name)?, Span::default())
}

// A map of a variable under this key.
fn map(alloc: Global, key: Key) -> Made {
    let value = variable(alloc, "a")?;
    let mut entries = Vec::new(alloc);
    entries.push(MapEntry::KeyValue { key, value })?;
    build::map(alloc, entries, Span::default())
}

// An operation that is a form of its own in every source.
fn operation(alloc: Global, operator: BinaryOperator) -> Made {
    let left = variable(alloc, "a")?;
    let right = variable(alloc, "b")?;
    build::binary(alloc, operator, left, right, Span::default())
}

fn values(alloc: Global) -> [Value; 6] {
    [
        Value::Bytes(Vec::new(alloc)),
        Value::Undefined,
        Value::I64(i64::MIN),
        Value::U64(u64::MAX),
        Value::I128(i128::MIN),
        Value::U128(u128::MAX),
    ]
}

fn constants_have_texts(alloc: Global) -> Result<(), Error> {
    for value in &values(alloc) {
        text_of(
            alloc,
            build::constant(alloc, value.clone()?, Span::default()),
        )?;
    }
    Ok(())
}

fn variables_have_texts(alloc: Global) -> Result<(), Error> {
    for name in &["", "a b", "not", "none", "1", "\u{e9}"] {
        text_of(alloc, variable(alloc, name))?;
    }
    Ok(())
}

#[test]
fn what_is_no_expression_of_a_source_has_some_text(rt: HostRuntime) -> Result<(), Fail> {
    let alloc = rt.alloc();
    variables_have_texts(alloc)?;
    text_of(alloc, map(alloc, Key::I64(-1)))?;
    text_of(alloc, operation(alloc, BinaryOperator::Is))?;
    text_of(alloc, operation(alloc, BinaryOperator::Pipe))?;
    constants_have_texts(alloc)?;
    Ok(())
}

// All operators between operands.
const OPERATORS: [BinaryOperator; 17] = [
    BinaryOperator::Mul,
    BinaryOperator::Div,
    BinaryOperator::Mod,
    BinaryOperator::Plus,
    BinaryOperator::Minus,
    BinaryOperator::FloorDiv,
    BinaryOperator::Power,
    BinaryOperator::LessThan,
    BinaryOperator::GreaterThan,
    BinaryOperator::LessThanOrEqual,
    BinaryOperator::GreaterThanOrEqual,
    BinaryOperator::Equal,
    BinaryOperator::NotEqual,
    BinaryOperator::And,
    BinaryOperator::Or,
    BinaryOperator::StrConcat,
    BinaryOperator::In,
];

// Whether the operator is a sign, or a word that the lists of the language have.
fn is_listed(alloc: Global, operator: BinaryOperator) -> Result<bool, Error> {
    let text = text_of(alloc, operation(alloc, operator))?;
    let inside = text
        .as_str()
        .strip_prefix("a")
        .and_then(|it| it.strip_suffix("b"));
    let word = inside.unwrap_or("").trim();
    Ok(!word.starts_with(|it: char| it.is_ascii_alphabetic()) || words::is_operator(word))
}

#[test]
fn each_operator_that_is_a_word_is_listed(rt: HostRuntime) -> Result<(), Fail> {
    for operator in &OPERATORS {
        assert!(rt; is_listed(rt.alloc(), *operator)?, "{operator:?}");
    }
    Ok(())
}

// What is read again of what was made.
fn again_of(alloc: Global, made: Made) -> Result<Expression, Error> {
    match made {
        Ok(e) => reread(alloc, &e, Limits::default()),
        Err(error) => Err(error.into()),
    }
}

// The text of what is read again.
fn text_again(alloc: Global, made: Made) -> Result<String, Error> {
    match again_of(alloc, made) {
        Ok(e) => source_of(alloc, &e),
        Err(error) => Err(error),
    }
}

#[test]
fn what_is_made_is_read_again(rt: HostRuntime) -> Result<(), Fail> {
    let alloc = rt.alloc();
    for operator in &OPERATORS {
        let text = text_of(alloc, operation(alloc, *operator))?;
        assert!(rt;
            text_again(alloc, operation(alloc, *operator))? == text,
            "{operator:?}"
        );
    }
    Ok(())
}

// Whether reading it again ends with a fault in its text.
fn is_faulty(alloc: Global, made: Made) -> bool {
    match again_of(alloc, made) {
        Ok(_) => false,
        Err(error) => matches!(error.kind, ErrorKind::SyntaxError(_)),
    }
}

#[test]
fn what_has_no_text_that_is_read_is_refused(rt: HostRuntime) -> Result<(), Fail> {
    let alloc = rt.alloc();
    for name in &["", "a b", "not"] {
        assert!(rt; is_faulty(alloc, variable(alloc, name)), "{name}");
    }
    let text = text_again(alloc, call_with_body(alloc));
    let refusal = Error::message(alloc, "A component call with a body has no expression text");
    assert!(rt; text == Err(refusal));
    let text = text_again(alloc, variable(alloc, "a }} and {{ b"));
    let refusal = Error::message(
        alloc,
        "The text of the expression is not read as one expression",
    );
    assert!(rt; text == Err(refusal));
    Ok(())
}
