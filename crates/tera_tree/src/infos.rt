//! What a catalogue of components has of one.

ghost use Rattle.std.specs.Prelude.{◌≡◌, IfOk, IfErr, map};
ghost use Rattle.std.specs.Cmp.Lexicographic.{slice_cmp};
ghost use Rattle.std.specs.List.Sorted.{IsStrictlySortedBy};
ghost use Rattle.std.specs.Option.{option_map};
ghost use Rattle.std.specs.Ordering.{nat_cmp};
ghost use Rattle.tera_base.specs.Errors.{IsMemory};
ghost use Rattle.tera_tree.specs.Calls.{arguments_view};
ghost use Rattle.tera_tree.specs.Definitions.{named_value};
ghost use Rattle.tera_tree.specs.Infos.{argument_info, info_of, arg_view, info_view};
ghost use Rattle.tera_tree.specs.View.{definition_view};

use crate::argument_infos::ComponentArg;
use crate::ast::{ComponentArgument, ComponentDefinition};
use crate::definitions::copy_metadata;
use std::alloc::{AllocError, Global};
use std::collections::BTreeMap;
use tera_base::{Error, Value};

/// A component, without its body.
#[derive(Debug, Drop)]
pub struct ComponentInfo {
    name: String,
    args: Vec<ComponentArg>,
    rest_param: Option<String>,
    metadata: BTreeMap<String, Value>,
}

impl ComponentInfo {
    /// What is reported for the definition. The only refusal is `Memory`.
    pub fn from_definition(
        alloc: Global,
        definition: &ComponentDefinition,
    ) -> Result<ComponentInfo, Error>
        ensures info { IfOk result (λ i. info_view i ≡ info_of (definition_view definition.now)) }
        ensures ordered { IfOk result (λ i.
            IsStrictlySortedBy (slice_cmp nat_cmp) (map (λ a. a.name) (info_view i).arguments)) }
        ensures refusal { IfErr result IsMemory }
    {
        Ok(ComponentInfo {
            name: definition.name.clone()?,
            args: argument_infos_of(alloc, &definition.kwargs)?,
            rest_param: definition.rest_param_name.clone()?,
            metadata: copy_metadata(&definition.metadata)?,
        })
    }

    /// The name of the component.
    pub fn name(&self) -> &str
        ensures { result.now ≡ (info_view self.now).name }
    {
        self.name.as_str()
    }

    /// Its arguments, in the byte order of their names.
    pub fn args(&self) -> &[ComponentArg]
        ensures { map arg_view result.now ≡ (info_view self.now).arguments }
    {
        self.args.as_slice()
    }

    /// The parameter that takes what is not an argument.
    pub fn rest_param(&self) -> Option<&str>
        ensures { option_map (λ n. n.now) result ≡ (info_view self.now).rest }
    {
        match &self.rest_param {
            Some(name) => Some(name.as_str()),
            None => None,
        }
    }

    /// Its metadata.
    pub fn metadata(&self) -> &BTreeMap<String, Value>
        ensures { map named_value result.now.entries ≡ (info_view self.now).metadata }
    {
        &self.metadata
    }
}

impl Clone for ComponentInfo {
    ghost is_clone = { λ i j. info_view j ≡ info_view i };

    fn clone(&self) -> Result<ComponentInfo, AllocError> {
        Ok(ComponentInfo {
            name: self.name.clone()?,
            args: copy_infos(&self.args)?,
            rest_param: self.rest_param.clone()?,
            metadata: copy_metadata(&self.metadata)?,
        })
    }
}

fn argument_infos_of(
    alloc: Global,
    arguments: &BTreeMap<String, ComponentArgument>,
) -> Result<Vec<ComponentArg>, AllocError>
    ensures described { IfOk result (λ described.
        map arg_view described.items ≡ map argument_info (arguments_view arguments.now.entries)) }
    ensures ordered { IfOk result (λ described.
        IsStrictlySortedBy (slice_cmp nat_cmp) (map (λ a. a.name) (map arg_view described.items))) }
{
    let mut described = Vec::new(alloc);
    for (name, argument) in arguments {
        described.push(ComponentArg::described(alloc, name.as_str(), argument)?)?;
    }
    Ok(described)
}

fn copy_infos(described: &Vec<ComponentArg>) -> Result<Vec<ComponentArg>, AllocError>
    ensures { IfOk result (λ c. map arg_view c.items ≡ map arg_view described.now.items) }
{
    let copies = described.clone()?;
    Ok(copies)
}
