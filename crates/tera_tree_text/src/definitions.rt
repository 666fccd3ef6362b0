//! The lines of component definitions, at the end of a text.

ghost use Rattle.std.specs.Prelude.{◌≡◌, ◌++◌, [], map, if◌then◌else◌, codes, string_bytes, OnOk};
ghost use Rattle.std.specs.List.{flat_map};
ghost use Rattle.tera_base.specs.ValueView.{value_view};
ghost use Rattle.tera_base.specs.Text.{const_text, value_text};
ghost use Rattle.tera_ast.specs.View.{name_view, node_view};
ghost use Rattle.tera_tree.specs.View.{default_view, argument_view, definition_view};
ghost use Rattle.tera_tree_text.specs.TreeText.{typed_text, default_text, argument_text, rest_text, meta_text, body_text, definition_text};

use crate::lines::{push_line, push_nodes, push_word};
use crate::quoted::push_quoted;
use std::alloc::AllocError;
use std::collections::BTreeMap;
use std::fmt::Write;
use tera_base::Value;
use tera_tree::{ArgType, ComponentArgument, ComponentDefinition, Node};

/// The lines of a definition.
pub(crate) fn push_definition(
    out: &mut String,
    definition: &ComponentDefinition,
) -> Result<(), AllocError>
    ensures { OnOk result (string_bytes out.new
        ≡ string_bytes out.old ++ definition_text (definition_view definition.now)) }
{
    push_word(out, "", "component ", definition.name.as_str())?;
    push_arguments(out, &definition.kwargs)?;
    push_rest(out, &definition.rest_param_name)?;
    push_metadata(out, &definition.metadata)?;
    push_body(out, &definition.body)
}

fn push_arguments(
    out: &mut String,
    kwargs: &BTreeMap<String, ComponentArgument>,
) -> Result<(), AllocError>
    ensures { OnOk result (string_bytes out.new
        ≡ string_bytes out.old ++ flat_map argument_text
        (map (λ a. (string_bytes a.0, argument_view a.1)) kwargs.now.entries)) }
{
    for (name, argument) in kwargs.iter() {
        push_argument(out, name.as_str(), argument)?;
    }
    Ok(())
}

fn push_argument(
    out: &mut String,
    name: &str,
    argument: &ComponentArgument,
) -> Result<(), AllocError>
    ensures { OnOk result (string_bytes out.new
        ≡ string_bytes out.old ++ argument_text (name.now, argument_view argument.now)) }
{
    out.push_str("  ")?;
    out.push_str("arg ")?;
    out.push_str(if argument.implicit { "@" } else { "" })?;
    out.push_str(name)?;
    push_type(out, argument.typ)?;
    push_default(out, &argument.default)?;
    out.push('\n')
}

fn push_type(out: &mut String, typ: Option<ArgType>) -> Result<(), AllocError>
    ensures { OnOk result (string_bytes out.new ≡ string_bytes out.old ++ typed_text typ) }
{
    let Some(typ) = typ else {
        return Ok(());
    };
    out.push_str(": ")?;
    out.push_str(typ.as_str())
}

fn push_default(out: &mut String, default: &Option<Value>) -> Result<(), AllocError>
    ensures { OnOk result (string_bytes out.new
        ≡ string_bytes out.old ++ default_text (default_view default.now)) }
{
    let Some(value) = default else {
        return Ok(());
    };
    out.push_str(" = ")?;
    push_constant(out, value)
}

// A value as a constant of an expression.
fn push_constant(out: &mut String, value: &Value) -> Result<(), AllocError>
    ensures { OnOk result (string_bytes out.new
        ≡ string_bytes out.old ++ const_text (value_view value.now)) }
{
    match value {
        Value::String(text) => {
            out.push_str("'")?;
            out.push_str(text.as_str())?;
            out.push_str("'")
        }
        _ => push_value(out, value),
    }
}

fn push_value(out: &mut String, value: &Value) -> Result<(), AllocError>
    ensures { OnOk result (string_bytes out.new
        ≡ string_bytes out.old ++ value_text (value_view value.now)) }
{
    write!(out, "{value}")?;
    Ok(())
}

fn push_rest(out: &mut String, name: &Option<String>) -> Result<(), AllocError>
    ensures { OnOk result (string_bytes out.new
        ≡ string_bytes out.old ++ rest_text (name_view name.now)) }
{
    match name {
        Some(name) => push_word(out, "  ", "rest ", name.as_str()),
        None => Ok(()),
    }
}

fn push_metadata(out: &mut String, metadata: &BTreeMap<String, Value>) -> Result<(), AllocError>
    ensures { OnOk result (string_bytes out.new
        ≡ string_bytes out.old ++ flat_map meta_text
        (map (λ m. (string_bytes m.0, value_view m.1)) metadata.now.entries)) }
{
    for (key, value) in metadata.iter() {
        push_meta(out, key.as_str(), value)?;
    }
    Ok(())
}

fn push_meta(out: &mut String, key: &str, value: &Value) -> Result<(), AllocError>
    ensures { OnOk result (string_bytes out.new
        ≡ string_bytes out.old ++ meta_text (key.now, value_view value.now)) }
{
    out.push_str("  ")?;
    out.push_str("meta ")?;
    push_quoted(out, key)?;
    out.push_str(" = ")?;
    push_constant(out, value)?;
    out.push('\n')
}

fn push_body(out: &mut String, body: &Vec<Node>) -> Result<(), AllocError>
    ensures { OnOk result (string_bytes out.new
        ≡ string_bytes out.old ++ body_text (map node_view body.now.items)) }
{
    if body.is_empty() {
        return Ok(());
    }
    push_line(out, "  ", "body")?;
    push_nodes(out, "if ", "    ", body)
}
