//! The catalogue as JSON.

ghost use Rattle.std.specs.Prelude.{◌≡◌, ◌++◌, [], ◌∷◌, map, string_bytes, IfOk, OnOk};
ghost use Rattle.std.specs.Option.{option_map};
ghost use Rattle.json.specs.Layout.{pretty};
ghost use Rattle.json_members.specs.Members.{text_member, number_member};
ghost use Rattle.tera_base.specs.ValueView.{value_view};
ghost use Rattle.tera_tree.specs.Definitions.{named_value};
ghost use Rattle.tera_tree.specs.Infos.{arg_view, shown_type_name};
ghost use Rattle.tera_catalogue.specs.Listed.{listed_view};
ghost use Rattle.tera_catalogue.specs.Objects.{maybe_member, truth_member, place_members, parameter_place, default_member, parameter, parameters_member, rest_members, named, metadata_member, info_members, object_of, catalogue_tokens};

use crate::components::Component;
use crate::values::write_constant;
use json::{Pretty, Token};
use std::alloc::{AllocError, Global};
use std::collections::BTreeMap;
use tera_check::Place;
use tera_parser::ast::ComponentArg;
use tera_parser::value::{Span, Value};

/// The components as an array of JSON, an object for each, with a line for each member.
pub fn json_of(alloc: Global, components: &[Component<'_>]) -> Result<Vec<u8>, AllocError>
    ensures { IfOk result (λ v. v.items ≡ pretty (catalogue_tokens components.now) ++ 10 ∷ []) }
{
    let mut writer = Pretty::new(alloc);
    writer.token(Token::BeginArray)?;
    for component in components {
        write_component(alloc, &mut writer, component)?;
    }
    writer.token(Token::EndArray)?;
    let mut text = writer.into_inner();
    text.push(b'\n')?;
    Ok(text)
}

fn write_component(
    alloc: Global,
    writer: &mut Pretty,
    component: &Component<'_>,
) -> Result<(), AllocError>
    ensures { OnOk result (writer.new ≡ writer.old ++ object_of component.now) }
{
    writer.token(Token::BeginObject)?;
    write_text(writer, "name", component.info.name())?;
    write_text(writer, "file", component.file)?;
    write_place(alloc, writer, "line", "column", component.place)?;
    write_info(alloc, writer, component)?;
    write_truth(writer, "body", component.has_body)?;
    write_maybe(writer, "call", call_to_copy(component))?;
    writer.token(Token::EndObject)
}

fn write_info(
    alloc: Global,
    writer: &mut Pretty,
    component: &Component<'_>,
) -> Result<(), AllocError>
    ensures { OnOk result (writer.new ≡ writer.old ++ info_members (listed_view component.now)) }
{
    write_parameters(alloc, writer, component)?;
    write_rest(alloc, writer, component, component.info.rest_param())?;
    write_metadata(alloc, writer, component.info.metadata())
}

fn write_parameters(
    alloc: Global,
    writer: &mut Pretty,
    component: &Component<'_>,
) -> Result<(), AllocError>
    ensures { OnOk result (writer.new
        ≡ writer.old ++ parameters_member (listed_view component.now)) }
{
    writer.token(Token::Key("parameters"))?;
    writer.token(Token::BeginArray)?;
    for argument in component.info.args() {
        write_parameter(alloc, writer, component, argument)?;
    }
    writer.token(Token::EndArray)
}

fn write_parameter(
    alloc: Global,
    writer: &mut Pretty,
    component: &Component<'_>,
    argument: &ComponentArg,
) -> Result<(), AllocError>
    ensures { OnOk result (writer.new
        ≡ writer.old ++ parameter (listed_view component.now) (arg_view argument.now)) }
{
    let place = parameter_place(component, argument.name());
    writer.token(Token::BeginObject)?;
    write_text(writer, "name", argument.name())?;
    write_place(alloc, writer, "line", "column", place)?;
    write_maybe(writer, "type", type_name(argument))?;
    write_truth(writer, "required", argument.is_required())?;
    write_truth(writer, "implicit", argument.is_implicit())?;
    write_default(alloc, writer, argument.default())?;
    writer.token(Token::EndObject)
}

fn write_rest(
    alloc: Global,
    writer: &mut Pretty,
    component: &Component<'_>,
    rest: Option<&str>,
) -> Result<(), AllocError>
    ensures { OnOk result (writer.new ≡ writer.old
        ++ rest_members (listed_view component.now) (option_map (λ t. t.now) rest.entry)) }
{
    match rest {
        Some(name) => {
            let place = parameter_place(component, name);
            write_text(writer, "rest", name)?;
            write_place(alloc, writer, "rest_line", "rest_column", place)
        }
        None => write_maybe(writer, "rest", None),
    }
}

// Where the parameter of this name is; if that is not known, the start of the file.
fn parameter_place(component: &Component<'_>, name: &str) -> Place
    ensures { result ≡ parameter_place (listed_view component.now) name.now }
{
    match parameter_span(component, name) {
        Some(span) => Place::of(span),
        None => Place::first(),
    }
}

fn parameter_span<'c>(component: &'c Component<'_>, name: &str) -> Option<&'c Span>
    ensures { option_map (λ s. s.now) result ≡ (listed_view component.now).parameters name.now }
{
    component.parameters?.get(name)
}

fn write_default(
    alloc: Global,
    writer: &mut Pretty,
    default: Option<&Value>,
) -> Result<(), AllocError>
    ensures { OnOk result (writer.new
        ≡ writer.old ++ default_member (option_map (λ v. value_view v.now) default.entry)) }
{
    let Some(value) = default else {
        return Ok(());
    };
    writer.token(Token::Key("default"))?;
    write_constant(alloc, writer, value)
}

fn write_metadata(
    alloc: Global,
    writer: &mut Pretty,
    metadata: &BTreeMap<String, Value>,
) -> Result<(), AllocError>
    ensures { OnOk result (writer.new
        ≡ writer.old ++ metadata_member (map named_value metadata.now.entries)) }
{
    writer.token(Token::Key("metadata"))?;
    writer.token(Token::BeginObject)?;
    for (name, value) in metadata.iter() {
        write_named(alloc, writer, name.as_str(), value)?;
    }
    writer.token(Token::EndObject)
}

fn write_named(
    alloc: Global,
    writer: &mut Pretty,
    name: &str,
    value: &Value,
) -> Result<(), AllocError>
    ensures { OnOk result (writer.new ≡ writer.old ++ named (name.now, value_view value.now)) }
{
    writer.token(Token::Key(name))?;
    write_constant(alloc, writer, value)
}

/// The call to copy.
pub(crate) fn call_to_copy<'c>(component: &'c Component<'_>) -> Option<&'c str>
    ensures { option_map (λ t. t.now) result ≡ option_map string_bytes component.now.call }
{
    match &component.call {
        Some(call) => Some(call.as_str()),
        None => None,
    }
}

/// The name of the argument's type.
pub(crate) fn type_name(argument: &ComponentArg) -> Option<&'static str>
    ensures { option_map (λ t. t.now) result
        ≡ option_map shown_type_name (arg_view argument.now).typ }
{
    match argument.arg_type() {
        Some(typ) => Some(typ.as_str()),
        None => None,
    }
}

fn write_text(writer: &mut Pretty, name: &str, text: &str) -> Result<(), AllocError>
    ensures { OnOk result (writer.new ≡ writer.old ++ text_member name.now text.now) }
{
    writer.token(Token::Key(name))?;
    writer.token(Token::String(text))
}

// A text, or null.
fn write_maybe(writer: &mut Pretty, name: &str, text: Option<&str>) -> Result<(), AllocError>
    ensures { OnOk result (writer.new
        ≡ writer.old ++ maybe_member name.now (option_map (λ t. t.now) text.entry)) }
{
    writer.token(Token::Key(name))?;
    match text {
        Some(text) => writer.token(Token::String(text)),
        None => writer.token(Token::Null),
    }
}

fn write_truth(writer: &mut Pretty, name: &str, truth: bool) -> Result<(), AllocError>
    ensures { OnOk result (writer.new ≡ writer.old ++ truth_member name.now truth) }
{
    writer.token(Token::Key(name))?;
    writer.token(Token::Bool(truth))
}

fn write_place(
    alloc: Global,
    writer: &mut Pretty,
    line: &str,
    column: &str,
    place: Place,
) -> Result<(), AllocError>
    ensures { OnOk result (writer.new ≡ writer.old ++ place_members line.now column.now place) }
{
    write_number(alloc, writer, line, place.line)?;
    write_number(alloc, writer, column, place.column)
}

fn write_number(
    alloc: Global,
    writer: &mut Pretty,
    name: &str,
    number: usize,
) -> Result<(), AllocError>
    ensures { OnOk result (writer.new ≡ writer.old ++ number_member name.now number) }
{
    let text = format!(in alloc; "{number}")?;
    writer.token(Token::Key(name))?;
    writer.token(Token::Number(text.as_str()))
}
