//! Definitions of components: an empty one, copies and equality.

ghost use Rattle.std.specs.Prelude.{◌≡◌, IfOk, map};
ghost use Rattle.std.specs.Cmp.Lexicographic.{pointwise};
ghost use Rattle.std.specs.Cmp.{on_equiv, on_per, partial_equiv_from_equiv};
ghost use Rattle.tera_ast.specs.View.{node_view};
ghost use Rattle.tera_tree.specs.View.{argument_view, definition_view};
ghost use Rattle.tera_tree.specs.Definitions.{argument_eq, named_argument, named_argument_eq, named_value, named_value_eq, definition_eq, empty_definition};
ghost use Rattle.tera_tree.specs.DefinitionLaws.{argument_equivalence, definition_equivalence};
ghost use Rattle.tera_ast.specs.Same.{stmt_eq};

use crate::ast::{ComponentArgument, ComponentDefinition};
use std::alloc::{AllocError, Global};
use std::collections::BTreeMap;
use tera_ast::Node;
use tera_base::Value;

impl ComponentDefinition {
    /// A definition whose name is empty, and that has nothing else.
    pub fn empty(alloc: Global) -> ComponentDefinition
        ensures { definition_view result ≡ empty_definition }
    {
        ComponentDefinition {
            name: String::new(alloc),
            kwargs: BTreeMap::new(alloc),
            rest_param_name: None,
            metadata: BTreeMap::new(alloc),
            body: Vec::new(alloc),
        }
    }
}

impl PartialEq for ComponentArgument {
    ghost eq = { λ a b. argument_eq (argument_view a) (argument_view b) };

    ghost laws = { on_per argument_view (partial_equiv_from_equiv argument_equivalence) };

    fn eq(&self, other: &ComponentArgument) -> bool {
        self.default == other.default && self.typ == other.typ && self.implicit == other.implicit
    }
}

impl Eq for ComponentArgument {
    ghost laws = { on_equiv argument_view argument_equivalence };
}

impl Clone for ComponentArgument {
    ghost is_clone = { λ a b. argument_view b ≡ argument_view a };

    fn clone(&self) -> Result<ComponentArgument, AllocError> {
        Ok(ComponentArgument {
            default: self.default.clone()?,
            typ: self.typ,
            implicit: self.implicit,
        })
    }
}

impl PartialEq for ComponentDefinition {
    ghost eq = { λ a b. definition_eq (definition_view a) (definition_view b) };

    ghost laws = { on_per definition_view (partial_equiv_from_equiv definition_equivalence) };

    fn eq(&self, other: &ComponentDefinition) -> bool {
        self.name == other.name
            && same_arguments(&self.kwargs, &other.kwargs)
            && self.rest_param_name == other.rest_param_name
            && same_metadata(&self.metadata, &other.metadata)
            && same_body(&self.body, &other.body)
    }
}

impl Eq for ComponentDefinition {
    ghost laws = { on_equiv definition_view definition_equivalence };
}

fn same_arguments(
    a: &BTreeMap<String, ComponentArgument>,
    b: &BTreeMap<String, ComponentArgument>,
) -> bool
    ensures { result ≡ pointwise named_argument_eq (map named_argument a.now.entries)
        (map named_argument b.now.entries) }
{
    a == b
}

fn same_metadata(a: &BTreeMap<String, Value>, b: &BTreeMap<String, Value>) -> bool
    ensures { result
        ≡ pointwise named_value_eq (map named_value a.now.entries) (map named_value b.now.entries) }
{
    a == b
}

fn same_body(a: &Vec<Node>, b: &Vec<Node>) -> bool
    ensures { result ≡ pointwise stmt_eq (map node_view a.now.items) (map node_view b.now.items) }
{
    a == b
}

impl Clone for ComponentDefinition {
    ghost is_clone = { λ a b. definition_view b ≡ definition_view a };

    fn clone(&self) -> Result<ComponentDefinition, AllocError> {
        Ok(ComponentDefinition {
            name: self.name.clone()?,
            kwargs: copy_arguments(&self.kwargs)?,
            rest_param_name: self.rest_param_name.clone()?,
            metadata: copy_metadata(&self.metadata)?,
            body: copy_body(&self.body)?,
        })
    }
}

fn copy_arguments(
    arguments: &BTreeMap<String, ComponentArgument>,
) -> Result<BTreeMap<String, ComponentArgument>, AllocError>
    ensures { IfOk result (λ c.
        map named_argument c.entries ≡ map named_argument arguments.now.entries) }
{
    let copies = arguments.clone()?;
    Ok(copies)
}

pub(crate) fn copy_metadata(
    metadata: &BTreeMap<String, Value>,
) -> Result<BTreeMap<String, Value>, AllocError>
    ensures { IfOk result (λ c. map named_value c.entries ≡ map named_value metadata.now.entries) }
{
    let copies = metadata.clone()?;
    Ok(copies)
}

fn copy_body(body: &Vec<Node>) -> Result<Vec<Node>, AllocError>
    ensures { IfOk result (λ c. map node_view c.items ≡ map node_view body.now.items) }
{
    let copies = body.clone()?;
    Ok(copies)
}
