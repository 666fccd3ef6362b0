//! The calls of a template, and their attributes, by their places.

ghost use Rattle.std.specs.Prelude.{◌≡◌, map};
ghost use Rattle.std.specs.Option.{option_map};
ghost use Rattle.tera_ast.specs.View.{entry_view};
ghost use Rattle.tera_fixes.specs.Attributes.{attribute_at, attribute_in, attribute_view, call_at, call_view, is_named, is_text, named_at, named_by_one, passes, text_of};

use tera_parser::ast::{ComponentCall, MapEntry};
use tera_parser::value::{Key, Spanned};

/// An attribute that passes a value under a name.
#[derive(Clone, Copy)]
pub(crate) struct Attribute<'a> {
    pub(crate) call: &'a ComponentCall,
    pub(crate) name: &'a str,
}

/// The first of the calls that begins with the byte.
pub(crate) fn call_at<'a>(
    calls: &[&'a Spanned<ComponentCall>],
    byte: usize,
) -> Option<&'a ComponentCall>
    ensures { option_map (λ c. call_view c.now) result ≡ call_at calls.now byte }
{
    for call in calls {
        if call.span().range.start == byte {
            return Some(call.node());
        }
    }
    None
}

/// The attribute whose value begins with the byte, in the first of the calls that has one.
pub(crate) fn attribute_at<'a>(
    calls: &[&'a Spanned<ComponentCall>],
    byte: usize,
) -> Option<Attribute<'a>>
    ensures { option_map attribute_view result ≡ attribute_at calls.now byte }
{
    for call in calls {
        if let Some(attribute) = attribute_in(call.node(), byte) {
            return Some(attribute);
        }
    }
    None
}

fn attribute_in(call: &ComponentCall, byte: usize) -> Option<Attribute<'_>>
    ensures { option_map attribute_view result ≡ attribute_in (call_view call.now) byte }
{
    let name = named_at(&call.kwargs, byte)?;
    Some(Attribute { call, name })
}

// The name of the first of the attributes whose value begins with the byte.
fn named_at(attributes: &Vec<MapEntry>, byte: usize) -> Option<&str>
    ensures { option_map (λ n. n.now) result
        ≡ named_at byte (map entry_view attributes.now.items) }
{
    for attribute in attributes {
        if let Some(name) = named_by_one(attribute, byte) {
            return Some(name);
        }
    }
    None
}

fn named_by_one(attribute: &MapEntry, byte: usize) -> Option<&str>
    ensures { option_map (λ n. n.now) result ≡ named_by_one byte (entry_view attribute.now) }
{
    match attribute {
        MapEntry::KeyValue { key, value } if value.span().range.start == byte => text_of(key),
        _ => None,
    }
}

fn text_of(key: &Key) -> Option<&str>
    ensures { option_map (λ n. n.now) result ≡ text_of key.now }
{
    match key {
        Key::String(name) => Some(name.as_str()),
        Key::I64(_) | Key::Bool(_) => None,
    }
}

/// Whether the call has an attribute of this name.
pub(crate) fn passes(call: &ComponentCall, name: &str) -> bool
    ensures { result ≡ passes (call_view call.now) name.now }
{
    for attribute in &call.kwargs {
        if is_named(attribute, name) {
            return true;
        }
    }
    false
}

fn is_named(attribute: &MapEntry, name: &str) -> bool
    ensures { result ≡ is_named name.now (entry_view attribute.now) }
{
    match attribute {
        MapEntry::KeyValue { key, .. } => is_text(key, name),
        MapEntry::Spread(_) => false,
    }
}

fn is_text(key: &Key, name: &str) -> bool
    ensures { result ≡ is_text name.now (text_of key.now) }
{
    match text_of(key) {
        Some(text) => text == name,
        None => false,
    }
}
