//! The texts on calls that are refused.

ghost use Rattle.std.specs.Prelude.{◌≡◌, ◌++◌, IfOk, OnOk, string_bytes};
ghost use Rattle.tera_base.specs.ValueView.{value_view};
ghost use Rattle.tera_tree.specs.View.{definition_view};
ghost use Rattle.tera_tree.specs.Calls.{texts, once_each, quoted, names_text, possible_text, unknown_text, no_value_text, wrong_type_text, type_text, missing_text};

use crate::ast::{ArgType, ComponentDefinition};
use std::alloc::{AllocError, Global};
use std::collections::BTreeSet;
use tera_base::Value;

/// That nothing is passed for the argument, which has no default, and nothing found where it is implicit.
pub fn missing_argument(
    alloc: Global,
    name: &str,
    typ: Option<ArgType>,
    implicit: bool,
) -> Result<String, AllocError>
    ensures { IfOk result (λ m. string_bytes m ≡ missing_text name.now typ implicit) }
{
    let typ = type_part(alloc, typ)?;
    if implicit {
        format!(in alloc;
            "Implicit argument `{name}`{typ} not found in context or passed directly."
        )
    } else {
        format!(in alloc; "Argument `{name}`{typ} missing.")
    }
}

fn type_part(alloc: Global, typ: Option<ArgType>) -> Result<String, AllocError>
    ensures { IfOk result (λ m. string_bytes m ≡ type_text typ) }
{
    match typ {
        Some(typ) => {
            let name = typ.as_str();
            format!(in alloc; " (type: `{name}`)")
        }
        None => Ok(String::new(alloc)),
    }
}

/// That the value is of another type than the argument of this name.
pub fn wrong_type(
    alloc: Global,
    name: &str,
    value: &Value,
    typ: ArgType,
) -> Result<String, AllocError>
    ensures { IfOk result (λ m.
        string_bytes m ≡ wrong_type_text name.now (value_view value.now) typ) }
{
    let kind = value.name();
    let expected = typ.as_str();
    format!(in alloc;
        "Component argument `{name}` (type: `{kind}`) does not match expected type: `{expected}`"
    )
}

/// That the component has no arguments of these names, and which it has.
pub fn unknown_arguments(
    alloc: Global,
    names: &[&str],
    definition: &ComponentDefinition,
) -> Result<String, AllocError>
    ensures { IfOk result (λ m. string_bytes m
        ≡ unknown_text (texts names.now) (definition_view definition.now).arguments) }
{
    let arguments = definition.listed_arguments(alloc)?;
    let unknown = sorted_names(alloc, names)?;
    let mut message = String::from_str(alloc, "Unknown argument(s) ")?;
    push_names(&mut message, &unknown)?;
    message.push_str(" in component call.")?;
    push_possible(&mut message, &arguments)?;
    Ok(message)
}

// That a name which the rest parameter takes has no value.
pub(crate) fn no_value(alloc: Global, name: &str) -> Result<String, AllocError>
    ensures { IfOk result (λ m. string_bytes m ≡ no_value_text name.now) }
{
    format!(in alloc; "Argument `{name}` was given without a value.")
}

// The names once each, in byte order.
#[tactic(auto, using(crate::proofs::CallNames::texts_insert))]
pub(crate) fn sorted_names<'a>(alloc: Global, names: &[&'a str]) -> Result<Vec<&'a str>, AllocError>
    ensures { IfOk result (λ v. texts v.items ≡ once_each (texts names.now)) }
{
    let mut sorted = BTreeSet::new(alloc);
    for name in names {
        sorted.insert(*name)?;
    }
    listed_names(alloc, &sorted)
}

// The names of a set, in its order.
fn listed_names<'a>(alloc: Global, sorted: &BTreeSet<&'a str>) -> Result<Vec<&'a str>, AllocError>
    ensures { IfOk result (λ v. v.items ≡ sorted.now.keys) }
{
    let mut names = Vec::new(alloc);
    for name in sorted {
        names.push(*name)?;
    }
    Ok(names)
}

#[tactic(auto, using(crate::proofs::CallNames::possible_texts))]
fn push_possible(text: &mut String, names: &[&str]) -> Result<(), AllocError>
    ensures { OnOk result (string_bytes text.new
        ≡ string_bytes text.old ++ possible_text (texts names.now)) }
{
    if names.is_empty() {
        return Ok(());
    }
    text.push_str(" Possible argument(s) are: ")?;
    push_names(text, names)?;
    Ok(())
}

fn push_names(text: &mut String, names: &[&str]) -> Result<(), AllocError>
    ensures { OnOk result (string_bytes text.new
        ≡ string_bytes text.old ++ names_text (texts names.now)) }
{
    if let Some((first, others)) = names.split_first() {
        push_quoted(text, first)?;
        for name in others {
            text.push_str(", ")?;
            push_quoted(text, name)?;
        }
    }
    Ok(())
}

fn push_quoted(text: &mut String, name: &str) -> Result<(), AllocError>
    ensures { OnOk result (string_bytes text.new ≡ string_bytes text.old ++ quoted name.now) }
{
    text.push_str("`")?;
    text.push_str(name)?;
    text.push_str("`")
}
