//! What equality decides, and the names of types. Each function has the law as its promise.

ghost use Rattle.std.specs.Prelude.{◌≡◌, ◌↔◌, IsTrue, IsOk, IfOk};
ghost use Rattle.tera_tree.specs.View.{definition_view};

use crate::ast::{ArgType, ComponentDefinition};
use std::alloc::Global;
pub use tera_ast::laws::{same_expression, same_node};
use tera_base::Error;

/// The name of a type gives the type back.
pub fn type_of_its_name(alloc: Global, typ: ArgType) -> Result<ArgType, Error>
    ensures found { IsOk result }
    ensures same { IfOk result (λ t. t ≡ typ) }
{
    ArgType::from_str(alloc, typ.as_str())
}

/// Definitions of components are equal exactly where they mean the same.
pub fn same_definition(a: &ComponentDefinition, b: &ComponentDefinition) -> bool
    ensures { IsTrue result ↔ (definition_view a.now ≡ definition_view b.now) }
{
    a == b
}
