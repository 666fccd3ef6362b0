//! The parts of a component's section, at the end of a page.

ghost use Rattle.std.specs.Prelude.{◌≡◌, ◌++◌, [], map, codes, if◌then◌else◌, IfOk, OnOk, string_bytes};
ghost use Rattle.std.specs.List.{flat_map};
ghost use Rattle.std.specs.Option.{option_map};
ghost use Rattle.tera_base.specs.Text.{inner_text};
ghost use Rattle.tera_base.specs.ValueView.{value_view};
ghost use Rattle.tera_tree.specs.Definitions.{named_value};
ghost use Rattle.tera_tree.specs.Infos.{arg_view, info_view};
ghost use Rattle.tera_catalogue.specs.Pages.{within, name_cell, type_cell, no_default, default_cell, row, rest_row, table, entry, entries, place_text, call_text};

use crate::escapes::{push, push_escaped};
use std::alloc::{AllocError, Global};
use std::collections::BTreeMap;
use tera_check::Place;
use tera_parser::ast::{ComponentArg, ComponentInfo};
use tera_parser::value::Value;

/// Adds the text between markup.
pub(crate) fn push_within(
    page: &mut Vec<u8>,
    start: &str,
    text: &str,
    end: &str,
) -> Result<(), AllocError>
    ensures { OnOk result (page.new.items
        ≡ page.old.items ++ within start.now text.now end.now) }
{
    push(page, start)?;
    push_escaped(page, text)?;
    push(page, end)
}

/// Adds where the component is defined.
pub(crate) fn push_place(
    alloc: Global,
    page: &mut Vec<u8>,
    file: &str,
    place: Place,
    has_body: bool,
) -> Result<(), AllocError>
    ensures { OnOk result (page.new.items
        ≡ page.old.items ++ place_text file.now place has_body) }
{
    let Place { line, column } = place;
    let (line, column) = (format!(in alloc; "{line}")?, format!(in alloc; "{column}")?);
    push_within(page, "<p class=\"place\">", file, ":")?;
    push(page, line.as_str())?;
    push(page, ":")?;
    push(page, column.as_str())?;
    push(page, after_place(has_body))
}

fn after_place(has_body: bool) -> &'static str
    ensures { result.now ≡ (if has_body then codes "</p>\n" else codes ", with an empty body</p>\n") }
{
    if has_body {
        "</p>\n"
    } else {
        ", with an empty body</p>\n"
    }
}

/// Adds the call to copy.
pub(crate) fn push_call(page: &mut Vec<u8>, call: Option<&str>) -> Result<(), AllocError>
    ensures { OnOk result (page.new.items
        ≡ page.old.items ++ call_text (option_map (λ t. t.now) call.entry)) }
{
    let Some(call) = call else {
        return Ok(());
    };
    let copy = "</code> <button type=\"button\">Copy</button></p>\n";
    push_within(page, "<p class=\"call\"><code>", call, copy)
}

/// Adds the table of the parameters.
pub(crate) fn push_table(
    alloc: Global,
    page: &mut Vec<u8>,
    info: &ComponentInfo,
) -> Result<(), AllocError>
    ensures { OnOk result (page.new.items ≡ page.old.items ++ table (info_view info.now)) }
{
    let arguments = info.args();
    let rest = info.rest_param();
    push(
        page,
        "<table>\n<thead><tr><th>Parameter</th><th>Type</th><th>Default</th></tr></thead>\n<tbody>\n",
    )?;
    push_rows(alloc, page, arguments)?;
    push_rest(page, rest)?;
    push(page, "</tbody>\n</table>\n")
}

fn push_rows(
    alloc: Global,
    page: &mut Vec<u8>,
    arguments: &[ComponentArg],
) -> Result<(), AllocError>
    ensures { OnOk result (page.new.items
        ≡ page.old.items ++ flat_map row (map arg_view arguments.now)) }
{
    for argument in arguments {
        push_row(alloc, page, argument)?;
    }
    Ok(())
}

fn push_row(alloc: Global, page: &mut Vec<u8>, argument: &ComponentArg) -> Result<(), AllocError>
    ensures { OnOk result (page.new.items ≡ page.old.items ++ row (arg_view argument.now)) }
{
    let typ = match argument.arg_type() {
        Some(typ) => Some(typ.as_str()),
        None => None,
    };
    push_name(page, argument.is_implicit(), argument.name())?;
    push_type(page, typ)?;
    push_default(alloc, page, argument.is_implicit(), argument.default())
}

fn push_name(page: &mut Vec<u8>, implicit: bool, name: &str) -> Result<(), AllocError>
    ensures { OnOk result (page.new.items ≡ page.old.items ++ name_cell implicit name.now) }
{
    push(page, "<tr><td><code>")?;
    push(page, sign(implicit))?;
    push_within(page, "", name, "</code></td>")
}

// The sign before the name.
fn sign(implicit: bool) -> &'static str
    ensures { result.now ≡ (if implicit then codes "@" else []) }
{
    if implicit { "@" } else { "" }
}

fn push_type(page: &mut Vec<u8>, typ: Option<&str>) -> Result<(), AllocError>
    ensures { OnOk result (page.new.items
        ≡ page.old.items ++ type_cell (option_map (λ t. t.now) typ.entry)) }
{
    match typ {
        Some(name) => push_within(page, "<td>", name, "</td>"),
        None => push(page, "<td></td>"),
    }
}

fn push_default(
    alloc: Global,
    page: &mut Vec<u8>,
    implicit: bool,
    default: Option<&Value>,
) -> Result<(), AllocError>
    ensures { OnOk result (page.new.items ≡ page.old.items
        ++ default_cell implicit (option_map (λ v. value_view v.now) default.entry)) }
{
    match default {
        Some(value) => push_value(alloc, page, value),
        None => push(page, no_default(implicit)),
    }
}

fn no_default(implicit: bool) -> &'static str
    ensures { result.now ≡ no_default implicit }
{
    if implicit {
        "<td>from the context</td></tr>\n"
    } else {
        "<td>required</td></tr>\n"
    }
}

fn push_value(alloc: Global, page: &mut Vec<u8>, value: &Value) -> Result<(), AllocError>
    ensures { OnOk result (page.new.items ≡ page.old.items
        ++ within (codes "<td><code>") (inner_text (value_view value.now)) (codes "</code></td></tr>\n")) }
{
    let text = inner_text(alloc, value)?;
    push_within(page, "<td><code>", text.as_str(), "</code></td></tr>\n")
}

// A value in the form that it has inside another one.
fn inner_text(alloc: Global, value: &Value) -> Result<String, AllocError>
    ensures { IfOk result (λ t. string_bytes t ≡ inner_text (value_view value.now)) }
{
    match value {
        Value::String(text) => quoted(alloc, text.as_str()),
        _ => format!(in alloc; "{value}"),
    }
}

fn quoted(alloc: Global, text: &str) -> Result<String, AllocError>
    ensures { IfOk result (λ t. string_bytes t ≡ codes "\"" ++ (text.now ++ codes "\"")) }
{
    format!(in alloc; "\"{text}\"")
}

fn push_rest(page: &mut Vec<u8>, name: Option<&str>) -> Result<(), AllocError>
    ensures { OnOk result (page.new.items
        ≡ page.old.items ++ rest_row (option_map (λ t. t.now) name.entry)) }
{
    let Some(name) = name else {
        return Ok(());
    };
    let end = "</code></td><td></td><td>all else that is passed</td></tr>\n";
    push_within(page, "<tr><td><code>...", name, end)
}

/// Adds the metadata.
pub(crate) fn push_metadata(
    alloc: Global,
    page: &mut Vec<u8>,
    metadata: &BTreeMap<String, Value>,
) -> Result<(), AllocError>
    ensures { OnOk result (page.new.items
        ≡ page.old.items ++ entries (map named_value metadata.now.entries)) }
{
    push(page, "<dl>\n")?;
    for (name, value) in metadata.iter() {
        push_entry(alloc, page, name.as_str(), value)?;
    }
    push(page, "</dl>\n")
}

fn push_entry(
    alloc: Global,
    page: &mut Vec<u8>,
    name: &str,
    value: &Value,
) -> Result<(), AllocError>
    ensures { OnOk result (page.new.items
        ≡ page.old.items ++ entry (name.now, value_view value.now)) }
{
    let text = format!(in alloc; "{value}")?;
    push_within(page, "<dt>", name, "</dt>")?;
    push_within(page, "<dd>", text.as_str(), "</dd>\n")
}
