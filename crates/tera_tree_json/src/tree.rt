//! A whole tree.

ghost use Rattle.std.specs.Prelude.{◌≡◌, string_bytes, IfOk};
ghost use Rattle.tera_tree.specs.Outputs.{output_view};
ghost use Rattle.tera_tree_json.specs.TreeJson.{output_json, json_text};
ghost use Rattle.json_members.specs.Written.{PutsJson};

use crate::definitions::put_definitions;
use crate::fields::put_name;
use crate::nodes::put_nodes;
use json::Writer;
use std::alloc::{AllocError, Global};
use tera_tree::ParserOutput;

/// The JSON of a tree: of the name of the template that it extends, if there is one, of its definitions and its nodes.
pub fn tree_json(alloc: Global, output: &ParserOutput) -> Result<String, AllocError>
    ensures { IfOk result (λ text. string_bytes text ≡ json_text (output_view output.now)) }
{
    let mut out = Writer::new(Vec::new(alloc));
    put_tree(&mut out, output)?;
    match String::from_utf8(out.into_inner()) {
        Ok(text) => Ok(text),
        Err(_) => unreachable!(),
    }
}

/// Adds the JSON of a tree to other JSON.
pub fn put_tree(out: &mut Writer, output: &ParserOutput) -> Result<(), AllocError>
    ensures { PutsJson result out.old out.new (output_json (output_view output.now)) }
{
    out.begin_object()?;
    put_name(out, "parent", &output.parent)?;
    out.key("component_definitions")?;
    put_definitions(out, &output.component_definitions)?;
    out.key("nodes")?;
    put_nodes(out, &output.nodes)?;
    out.end_object()
}
