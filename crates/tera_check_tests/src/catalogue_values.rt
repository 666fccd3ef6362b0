//! Constants that no template can write, in the metadata of a component that is made by hand.

use std::alloc::{AllocError, Global};
use std::test::Fail;
use tera_catalogue::{Component, call_of, json_of, offered};
use tera_check::Place;
use tera_parser::ast::{ComponentDefinition, ComponentInfo};
use tera_parser::value::{Error, Value};

const WANTED: &str = r#"[
  {
    "name": "",
    "file": "by_hand.html",
    "line": 1,
    "column": 1,
    "parameters": [],
    "rest": null,
    "metadata": {
      "bytes": "<bytes>",
      "great": "340282366920938463463374607431768211455",
      "least": "-170141183460469231731687303715884105728",
      "u64": "18446744073709551615",
      "undefined": "undefined"
    },
    "body": false,
    "call": null
  }
]
"#;

fn put_all(alloc: Global, definition: &mut ComponentDefinition) -> Result<(), AllocError> {
    for (name, value) in [
        ("bytes", Value::Bytes(Vec::new(alloc))),
        ("great", Value::U128(u128::MAX)),
        ("least", Value::I128(i128::MIN)),
        ("u64", Value::U64(u64::MAX)),
        ("undefined", Value::Undefined),
    ] {
        let name = String::from_str(alloc, name)?;
        definition.metadata.insert(name, value)?;
    }
    Ok(())
}

fn info(alloc: Global) -> Result<ComponentInfo, Error> {
    let mut definition = ComponentDefinition::empty(alloc);
    put_all(alloc, &mut definition)?;
    ComponentInfo::from_definition(alloc, &definition)
}

#[test]
fn a_value_that_is_no_constant_is_a_text(rt: HostRuntime) -> Result<(), Fail> {
    let info = info(rt.alloc())?;
    let component = Component {
        call: offered(rt.alloc(), &info)?,
        info,
        has_body: false,
        file: "by_hand.html",
        place: Place::first(),
        parameters: None,
    };
    let json = json_of(rt.alloc(), &[component])?;
    assert_eq!(rt; json.as_slice(), WANTED.as_bytes());
    Ok(())
}

#[test]
fn a_call_that_is_refused_is_not_offered(rt: HostRuntime) -> Result<(), Fail> {
    let call = call_of(rt.alloc(), &info(rt.alloc())?)?;
    assert_eq!(rt; call.as_str(), "{{ </> }}");
    Ok(())
}
