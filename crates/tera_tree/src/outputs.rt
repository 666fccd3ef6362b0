//! What templates are read as.

ghost use Rattle.std.specs.Prelude.{◌≡◌, IfOk, map};
ghost use Rattle.std.specs.Cmp.Lexicographic.{pointwise};
ghost use Rattle.std.specs.Cmp.{on_equiv, on_per, partial_equiv_from_equiv};
ghost use Rattle.tera_ast.specs.Same.{stmt_eq};
ghost use Rattle.tera_ast.specs.View.{node_view};
ghost use Rattle.tera_tree.specs.DefinitionLaws.{output_equivalence};
ghost use Rattle.tera_tree.specs.Definitions.{definition_eq, empty_output, output_eq};
ghost use Rattle.tera_tree.specs.Outputs.{output_view};
ghost use Rattle.tera_tree.specs.View.{definition_view};

use crate::ast::ComponentDefinition;
use std::alloc::{AllocError, Global};
use tera_ast::Node;

/// What a template is read as.
#[derive(Debug, Drop)]
pub struct ParserOutput {
    /// The name of the template that this one extends.
    pub parent: Option<String>,
    /// The nodes of the template, in order.
    pub nodes: Vec<Node>,
    /// The components that the template defines, in order.
    pub component_definitions: Vec<ComponentDefinition>,
}

impl ParserOutput {
    /// An output with no parent, no nodes and no components.
    pub fn empty(alloc: Global) -> ParserOutput
        ensures { output_view result ≡ empty_output }
    {
        ParserOutput {
            parent: None,
            nodes: Vec::new(alloc),
            component_definitions: Vec::new(alloc),
        }
    }
}

impl PartialEq for ParserOutput {
    ghost eq = { λ a b. output_eq (output_view a) (output_view b) };

    ghost laws = { on_per output_view (partial_equiv_from_equiv output_equivalence) };

    fn eq(&self, other: &ParserOutput) -> bool {
        self.parent == other.parent
            && same_nodes(&self.nodes, &other.nodes)
            && same_definitions(&self.component_definitions, &other.component_definitions)
    }
}

impl Eq for ParserOutput {
    ghost laws = { on_equiv output_view output_equivalence };
}

fn same_nodes(a: &Vec<Node>, b: &Vec<Node>) -> bool
    ensures { result ≡ pointwise stmt_eq (map node_view a.now.items) (map node_view b.now.items) }
{
    a == b
}

fn same_definitions(a: &Vec<ComponentDefinition>, b: &Vec<ComponentDefinition>) -> bool
    ensures { result ≡ pointwise definition_eq (map definition_view a.now.items)
        (map definition_view b.now.items) }
{
    a == b
}

impl Clone for ParserOutput {
    ghost is_clone = { λ a b. output_view b ≡ output_view a };

    fn clone(&self) -> Result<ParserOutput, AllocError> {
        Ok(ParserOutput {
            parent: self.parent.clone()?,
            nodes: copy_nodes(&self.nodes)?,
            component_definitions: copy_definitions(&self.component_definitions)?,
        })
    }
}

fn copy_nodes(nodes: &Vec<Node>) -> Result<Vec<Node>, AllocError>
    ensures { IfOk result (λ c. map node_view c.items ≡ map node_view nodes.now.items) }
{
    let copies = nodes.clone()?;
    Ok(copies)
}

fn copy_definitions(
    definitions: &Vec<ComponentDefinition>,
) -> Result<Vec<ComponentDefinition>, AllocError>
    ensures { IfOk result (λ c.
        map definition_view c.items ≡ map definition_view definitions.now.items) }
{
    let copies = definitions.clone()?;
    Ok(copies)
}
