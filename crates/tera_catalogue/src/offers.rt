//! Calls that are offered to copy.

ghost use Rattle.std.specs.Prelude.{◌≡◌, ◌++◌, map, string_bytes, IfOk, IfSome, OnOk, is_ok};
ghost use Rattle.std.specs.Bool.{OnTrue};
ghost use Rattle.std.specs.List.{flat_map};
ghost use Rattle.tera_tree.specs.Infos.{info_view, arg_view};
ghost use Rattle.tera_catalogue.specs.Offered.{constant_of, attribute_of, call_of, IsOffer, IsTemplateText};

use std::alloc::{AllocError, Global};
use tera_check::{Template, read_template};
use tera_parser::ast::{ComponentArg, ComponentArgType, ComponentInfo};
use tera_parser::value::ErrorKind;

/// A call of the component that is offered to copy: `call_of`, unless the parser does not accept that text.
pub fn offered(alloc: Global, info: &ComponentInfo) -> Result<Option<String>, AllocError>
    ensures { IfOk result (λ o. IfSome o (λ t. IsOffer (info_view info.now) (string_bytes t))) }
{
    let call = call_of(alloc, info)?;
    if is_template(alloc, call.as_str())? {
        Ok(Some(call))
    } else {
        Ok(None)
    }
}

/// A call of the component, as a template by itself. It passes each required argument: a constant of the type or, if
/// the type has none, the variable of the argument's name.
pub fn call_of(alloc: Global, info: &ComponentInfo) -> Result<String, AllocError>
    ensures { IfOk result (λ t. string_bytes t ≡ call_of (info_view info.now)) }
{
    let mut call = String::from_str(alloc, "{{ <")?;
    call.push_str(info.name())?;
    push_attributes(&mut call, info.args())?;
    call.push_str("/> }}")?;
    Ok(call)
}

fn push_attributes(call: &mut String, arguments: &[ComponentArg]) -> Result<(), AllocError>
    ensures { OnOk result (string_bytes call.new
        ≡ string_bytes call.old ++ flat_map attribute_of (map arg_view arguments.now)) }
{
    for argument in arguments {
        push_attribute(call, argument)?;
    }
    Ok(())
}

fn push_attribute(call: &mut String, argument: &ComponentArg) -> Result<(), AllocError>
    ensures { OnOk result (string_bytes call.new
        ≡ string_bytes call.old ++ attribute_of (arg_view argument.now)) }
{
    if !argument.is_required() {
        return Ok(());
    }
    call.push_str(" ")?;
    call.push_str(argument.name())?;
    call.push_str(constant_of(argument.arg_type()))
}

// What comes after the name of an attribute.
fn constant_of(typ: Option<ComponentArgType>) -> &'static str
    ensures { result.now ≡ constant_of typ }
{
    match typ {
        None | Some(ComponentArgType::String) => "=\"\"",
        Some(ComponentArgType::Bool) => "={false}",
        Some(ComponentArgType::Integer | ComponentArgType::Number) => "={0}",
        Some(ComponentArgType::Array) => "={[]}",
        Some(ComponentArgType::Map) => "={ {} }",
        Some(ComponentArgType::Bytes) => "",
    }
}

// Whether the parser accepts the text.
fn is_template(alloc: Global, text: &str) -> Result<bool, AllocError>
    ensures { IfOk result (λ b. OnTrue b (IsTemplateText text.now)) }
{
    let template = read_template(alloc, "", text, 0)?;
    is_accepted(&template)
}

fn is_accepted(template: &Template) -> Result<bool, AllocError>
    ensures { IfOk result (λ b. b ≡ is_ok template.now.parsed) }
{
    match &template.parsed {
        Ok(_) => Ok(true),
        Err(error) => match error.kind {
            ErrorKind::Memory => Err(AllocError),
            _ => Ok(false),
        },
    }
}
