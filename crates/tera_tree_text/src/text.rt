//! The text of a tree.

ghost use Rattle.std.specs.Prelude.{◌≡◌, ◌++◌, map, string_bytes, IfOk, OnOk};
ghost use Rattle.std.specs.List.{flat_map};
ghost use Rattle.tera_ast.specs.View.{name_view};
ghost use Rattle.tera_tree.specs.Outputs.{output_view};
ghost use Rattle.tera_tree.specs.View.{definition_view};
ghost use Rattle.tera_tree_text.specs.TreeText.{parent_text, definition_text, text_of};

use crate::definitions::push_definition;
use crate::lines::{push_named, push_nodes};
use std::alloc::{AllocError, Global};
use tera_tree::{ComponentDefinition, ParserOutput};

/// The text of the tree: its parent, its definitions and its nodes, line by line.
pub fn tree_text(alloc: Global, output: &ParserOutput) -> Result<String, AllocError>
    ensures { IfOk result (λ text. string_bytes text ≡ text_of (output_view output.now)) }
{
    let mut text = String::new(alloc);
    push_parent(&mut text, &output.parent)?;
    push_definitions(&mut text, &output.component_definitions)?;
    push_nodes(&mut text, "if ", "", &output.nodes)?;
    Ok(text)
}

// The line of the parent, if there is one.
fn push_parent(text: &mut String, parent: &Option<String>) -> Result<(), AllocError>
    ensures { OnOk result (string_bytes text.new
        ≡ string_bytes text.old ++ parent_text (name_view parent.now)) }
{
    match parent {
        Some(name) => push_named(text, "", "parent ", name.as_str()),
        None => Ok(()),
    }
}

// The lines of the definitions, in order.
fn push_definitions(
    text: &mut String,
    definitions: &Vec<ComponentDefinition>,
) -> Result<(), AllocError>
    ensures { OnOk result (string_bytes text.new ≡ string_bytes text.old
        ++ flat_map definition_text (map definition_view definitions.now.items)) }
{
    for definition in definitions {
        push_definition(text, definition)?;
    }
    Ok(())
}
