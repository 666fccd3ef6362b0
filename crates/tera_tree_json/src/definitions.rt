//! Definitions of components.

ghost use Rattle.std.specs.Prelude.{◌∷◌, [], map, codes, string_bytes};
ghost use Rattle.json.specs.Json.{array, object};
ghost use Rattle.json.specs.Token.{key};
ghost use Rattle.json.specs.Tree.{json_tokens, members_tokens};
ghost use Rattle.tera_base.specs.ValueView.{value_view};
ghost use Rattle.tera_tree.specs.View.{default_view, argument_view, definition_view};
ghost use Rattle.tera_tree_json.specs.TreeJson.{type_json, default_json, argument_json, arguments_json, metadata_json, definition_json, definitions_json};
ghost use Rattle.json_members.specs.Written.{Puts, PutsJson};

use crate::constants::put_value;
use crate::fields::{put_flag, put_name};
use crate::nodes::put_nodes;
use json::Writer;
use json_members::put_text;
use std::alloc::AllocError;
use std::collections::BTreeMap;
use tera_base::Value;
use tera_tree::{ArgType, ComponentArgument, ComponentDefinition};

/// Definitions in their order.
pub(crate) fn put_definitions(
    out: &mut Writer,
    definitions: &Vec<ComponentDefinition>,
) -> Result<(), AllocError>
    ensures { PutsJson result out.old out.new
        (array (definitions_json (map definition_view definitions.now.items))) }
{
    out.begin_array()?;
    for definition in definitions {
        put_definition(out, definition)?;
    }
    out.end_array()
}

fn put_definition(out: &mut Writer, definition: &ComponentDefinition) -> Result<(), AllocError>
    ensures { PutsJson result out.old out.new (definition_json (definition_view definition.now)) }
{
    out.begin_object()?;
    put_text(out, "name", definition.name.as_str())?;
    put_arguments(out, &definition.kwargs)?;
    put_name(out, "rest_param_name", &definition.rest_param_name)?;
    put_metadata(out, &definition.metadata)?;
    out.key("body")?;
    put_nodes(out, &definition.body)?;
    out.end_object()
}

// The member of the arguments.
fn put_arguments(
    out: &mut Writer,
    kwargs: &BTreeMap<String, ComponentArgument>,
) -> Result<(), AllocError>
    ensures { Puts result out.old out.new (key (codes "kwargs")
        ∷ json_tokens (object (arguments_json
        (map (λ a. (string_bytes a.0, argument_view a.1)) kwargs.now.entries)))) }
{
    out.key("kwargs")?;
    out.begin_object()?;
    for (name, argument) in kwargs.iter() {
        out.key(name.as_str())?;
        put_argument(out, argument)?;
    }
    out.end_object()
}

fn put_argument(out: &mut Writer, argument: &ComponentArgument) -> Result<(), AllocError>
    ensures { PutsJson result out.old out.new (argument_json (argument_view argument.now)) }
{
    out.begin_object()?;
    put_type(out, argument.typ)?;
    put_flag(out, "implicit", argument.implicit)?;
    put_default(out, &argument.default)
}

// The member of the type.
fn put_type(out: &mut Writer, typ: Option<ArgType>) -> Result<(), AllocError>
    ensures { Puts result out.old out.new (key (codes "typ") ∷ json_tokens (type_json typ)) }
{
    out.key("typ")?;
    match typ {
        Some(typ) => out.string(typ.as_str()),
        None => out.null(),
    }
}

// The member of a default, if there is one, and the end of the object.
fn put_default(out: &mut Writer, default: &Option<Value>) -> Result<(), AllocError>
    ensures { Puts result out.old out.new
        (members_tokens (default_json (default_view default.now))) }
{
    let Some(value) = default else {
        return out.end_object();
    };
    out.key("default")?;
    put_value(out, value)?;
    out.end_object()
}

// The member of the metadata.
fn put_metadata(out: &mut Writer, metadata: &BTreeMap<String, Value>) -> Result<(), AllocError>
    ensures { Puts result out.old out.new (key (codes "metadata")
        ∷ json_tokens (object (metadata_json
        (map (λ m. (string_bytes m.0, value_view m.1)) metadata.now.entries)))) }
{
    out.key("metadata")?;
    out.begin_object()?;
    for (name, value) in metadata.iter() {
        out.key(name.as_str())?;
        put_value(out, value)?;
    }
    out.end_object()
}
