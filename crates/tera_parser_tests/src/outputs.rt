//! Copies and equality of outputs, and what is shown of them to who looks for a fault.

use std::alloc::{AllocError, Global};
use std::test::Fail;
use tera_parser::ast::{ComponentInfo, Node};
use tera_parser::laws::same_output;
use tera_parser::lexer::Delimiters;
use tera_parser::value::Error;
use tera_parser::{Parser, ParserOutput};

// Whether the copy of this equals it.
fn is_copied(output: &ParserOutput) -> Result<bool, AllocError> {
    match output.clone() {
        Ok(copy) => Ok(copy == *output),
        Err(error) => Err(error),
    }
}

#[test]
fn an_output_equals_its_copy(rt: HostRuntime) -> Result<(), Fail> {
    let empty = ParserOutput::empty(rt.alloc());
    let mut output = ParserOutput::empty(rt.alloc());
    let was_put = output.nodes.push(Node::Continue).is_ok();
    let are_copied = (is_copied(&empty), is_copied(&output));
    let are_same = (same_output(&empty, &empty), same_output(&output, &empty));
    drop(output);
    drop(empty);
    assert!(rt; was_put);
    assert_eq!(rt; are_copied, (Ok(true), Ok(true)));
    assert_eq!(rt; are_same, (true, false));
    Ok(())
}

// What is shown of the output, and of what is reported for its components.
fn debug_text(alloc: Global, output: &ParserOutput) -> Result<String, Error> {
    let mut all = format!(in alloc; "{output:?}")?;
    for definition in &output.component_definitions {
        let info = ComponentInfo::from_definition(alloc, definition)?;
        all.push_str(format!(in alloc; "{info:?}")?.as_str())?;
    }
    Ok(all)
}

fn shown_of(alloc: Global, source: &str) -> Result<String, Error> {
    match Parser::new(alloc, "page.html", source, Delimiters::default()).parse() {
        Ok(output) => debug_text(alloc, &output),
        Err(error) => Err(error),
    }
}

const SOURCE: &str = r#"{% component c(i: integer) %}{% endcomponent %}{% <c i="1"> %}x{% </c> %}
{% for v in [a, ...b] %}{% if a + -b ~ {1: c, ...d} %}{% break %}{% endif %}{% endfor %}"#;

#[test]
fn each_part_is_shown(rt: HostRuntime) -> Result<(), Fail> {
    let debug_text = shown_of(rt.alloc(), SOURCE)?;
    for part in [
        "nodes: [", "Content", "ForLoop", "Array", "Spread", "Var", "If(", "Concat", "Plus",
        "Minus", "Map", "KeyValue", "Break",
    ] {
        assert!(rt;
            debug_text.as_str().contains(part),
            "{part} in {debug_text}"
        );
    }
    for part in [
        "ComponentCall",
        "typ: Some(Integer)",
        "implicit: false",
        "rest_param_name: None",
        "arg_type: Some(Integer)",
        "rest_param: None",
    ] {
        assert!(rt;
            debug_text.as_str().contains(part),
            "{part} in {debug_text}"
        );
    }
    Ok(())
}
