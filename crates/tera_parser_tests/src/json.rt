//! The JSON of constants that no source says, beside that of a definition without parts.

use crate::making::{Made, both, constant, one};
use std::alloc::{AllocError, Global};
use std::test::Fail;
use tera_base::Value;
use tera_tree::{ComponentDefinition, Expression, Node, ParserOutput};
use tera_tree_json::tree_json;

const DEFINITION: &str =
    r#"{"name":"","kwargs":{},"rest_param_name":null,"metadata":{},"body":[]}"#;

const SPAN: &str = r#"{"start_line":0,"start_col":0,"end_line":0,"end_col":0,"start":0,"end":0}"#;

fn expression_node(expression: Made<Expression>) -> Made<Node> {
    Ok(Node::Expression(expression?))
}

// The JSON of this constant alone, with a definition.
fn written(alloc: Global, value: Value) -> Result<String, AllocError> {
    let nodes = one(alloc, expression_node(constant(alloc, value)));
    let definitions = one(alloc, Ok(ComponentDefinition::empty(alloc)));
    let (nodes, component_definitions) = both(nodes, definitions)?;
    let output = ParserOutput {
        parent: None,
        nodes,
        component_definitions,
    };
    let json = tree_json(alloc, &output);
    drop(output);
    json
}

// What has to be written where the constant has this JSON.
fn expected(alloc: Global, json: &str) -> Result<String, AllocError> {
    let head = r#"{"parent":null,"component_definitions":["#;
    let nodes = r#"],"nodes":[{"kind":"Expression","expr":{"kind":"Const","span":"#;
    format!(in alloc; "{head}{DEFINITION}{nodes}{SPAN},\"value\":{json}}}}}]}}")
}

fn constants(alloc: Global) -> Result<[(Value, &'static str); 11], AllocError> {
    let bytes = Value::Bytes(Vec::from_array(alloc, [0u8, 255])?);
    let great = r#"{"integer":"9007199254740992"}"#;
    let greatest = r#"{"integer":"18446744073709551615"}"#;
    let low = r#"{"integer":"-9007199254740992"}"#;
    Ok([
        (Value::I64(9007199254740991), "9007199254740991"),
        (Value::I64(9007199254740992), great),
        (Value::I64(-9007199254740992), low),
        (Value::U64(7), "7"),
        (Value::U64(u64::MAX), greatest),
        (Value::I128(-9007199254740991), "-9007199254740991"),
        (Value::I128(-9007199254740992), low),
        (Value::U128(0), "0"),
        (Value::U128(9007199254740992), great),
        (bytes, r#"{"bytes":[0,255]}"#),
        (Value::Undefined, r#"{"undefined":null}"#),
    ])
}

fn is_written(alloc: Global, value: &Value, json: &str) -> Result<bool, AllocError> {
    let (written, expected) = (written(alloc, value.clone()?)?, expected(alloc, json)?);
    Ok(written == expected)
}

#[test]
fn constants_of_each_kind(rt: HostRuntime) -> Result<(), Fail> {
    for (value, json) in &constants(rt.alloc())? {
        assert!(rt; is_written(rt.alloc(), value, json)?, "{json}");
    }
    Ok(())
}
