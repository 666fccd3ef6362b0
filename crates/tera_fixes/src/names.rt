//! The names that may be meant.

ghost use Rattle.std.specs.Prelude.{◌≡◌, ◌++◌, ◌∷◌, [], IfOk, OnOk};
ghost use Rattle.tera_settings.specs.Values.{texts};
ghost use Rattle.tera_tree.specs.View.{definition_view};
ghost use Rattle.tera_fixes.specs.Attributes.{call_view};
ghost use Rattle.tera_fixes.specs.Names.{component_names, free_of, free_parameters, parameter_names};

use crate::attributes::passes;
use std::alloc::{AllocError, Global};
use tera_check::Catalogue;
use tera_parser::ast::{ComponentCall, ComponentDefinition};

/// The names of the components.
pub(crate) fn component_names<'c>(
    alloc: Global,
    catalogue: &'c Catalogue<'_>,
) -> Result<Vec<&'c str>, AllocError>
    ensures { IfOk result (λ names. texts names.items ≡ component_names catalogue.now) }
{
    let mut names = Vec::new(alloc);
    for name in catalogue.keys() {
        names.push(name.as_str())?;
    }
    Ok(names)
}

/// The names of the parameters that the call has no attribute for.
pub(crate) fn free_parameters<'d>(
    alloc: Global,
    definition: &'d ComponentDefinition,
    call: &ComponentCall,
) -> Result<Vec<&'d str>, AllocError>
    ensures { IfOk result (λ names. texts names.items
        ≡ free_parameters (definition_view definition.now) (call_view call.now)) }
{
    let mut names = Vec::new(alloc);
    for name in parameters_of(alloc, definition)? {
        push_if_free(&mut names, call, name)?;
    }
    Ok(names)
}

fn parameters_of(alloc: Global, definition: &ComponentDefinition) -> Result<Vec<&str>, AllocError>
    ensures { IfOk result (λ names. texts names.items
        ≡ parameter_names (definition_view definition.now)) }
{
    match definition.kwargs_list(alloc) {
        Ok(names) => Ok(names),
        Err(_) => Err(AllocError),
    }
}

fn push_if_free<'d>(
    names: &mut Vec<&'d str>,
    call: &ComponentCall,
    name: &'d str,
) -> Result<(), AllocError>
    ensures { OnOk result (texts names.new.items
        ≡ texts names.old.items ++ free_of (call_view call.now) (name.now ∷ [])) }
{
    if passes(call, name) {
        return Ok(());
    }
    names.push(name)?;
    Ok(())
}
