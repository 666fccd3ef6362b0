//! What may have been meant where something is found.

ghost use Rattle.std.specs.Prelude.{◌≡◌, IfOk};
ghost use Rattle.std.specs.Option.{option_map};
ghost use Rattle.tera_findings.specs.Findings.{finding_view};
ghost use Rattle.tera_check.specs.Named.{known_in};
ghost use Rattle.tera_fixes.specs.Attributes.{attribute_view, call_view};
ghost use Rattle.tera_fixes.specs.Components.{AreMeanings};
ghost use Rattle.tera_fixes.specs.Names.{component_names};
ghost use Rattle.tera_fixes.specs.Suggestions.{argument_for, component_for, context_view, meant_parameter, name_parts, removal, removal_for, renaming, suggestion_of, suggestion_view};

use crate::attributes::{Attribute, attribute_at, call_at};
use crate::components::{Meanings, meant_component};
use crate::meant::meant;
use crate::names::free_parameters;
use crate::parts::{Part, argument_part, name_before, part_after, part_before};
use std::alloc::{AllocError, Global};
use std::collections::BTreeMap;
use tera_check::{Catalogue, Finding, Kind};
use tera_parser::ast::ComponentCall;
use tera_parser::value::{Span, Spanned};

/// What may have been meant where something is found: one text that replaces each of some parts.
#[derive(Debug, Drop)]
pub struct Suggestion {
    /// What it does, as ``Replace `labl` with `label` ``.
    pub title: String,
    /// One part, or two for a call with a body, in the order of the text. They do not overlap.
    pub parts: Vec<Part>,
    pub text: String,
}

/// What is known around a finding.
#[derive(Clone, Copy)]
pub struct Context<'c, 'a> {
    /// The components that the templates define.
    pub catalogue: &'c Catalogue<'a>,
    /// The calls of the template ([`tera_check::calls_of`]).
    pub calls: &'c [&'c Spanned<ComponentCall>],
    /// The text of the template.
    pub source: &'c str,
}

/// What may have been meant where this is found in the template, if that is known.
///
/// - For a component that no template defines: the name of one that some template defines.
/// - For an argument that the component does not have: the name of a parameter that the call has no attribute for.
/// - For an argument that is given again, so that it does not count: nothing in its place.
///
/// A name is suggested if at most a third of its characters differ, and those of every other name differ more. Each
/// part is the name that is replaced, or an argument that is removed, by the text of the template.
pub fn suggestion_of(
    alloc: Global,
    context: Context<'_, '_>,
    finding: &Finding,
) -> Result<Option<Suggestion>, AllocError>
    ensures { IfOk result (λ s. option_map suggestion_view s
        ≡ suggestion_of (context_view context.entry) (finding_view finding.now)) }
{
    let mut meanings = BTreeMap::new(alloc);
    suggestion_by(alloc, &mut meanings, context, finding)
}

/// The same as `suggestion_of`, but a name that is in `meanings` is not compared again. The name of a component that no
/// template defines is added to it. At first it is empty, and all calls with it have the same components.
pub fn suggestion_by(
    alloc: Global,
    meanings: &mut Meanings,
    context: Context<'_, '_>,
    finding: &Finding,
) -> Result<Option<Suggestion>, AllocError>
    requires { AreMeanings (component_names context.catalogue.now) meanings.old }
    ensures suggestion { IfOk result (λ s. option_map suggestion_view s
        ≡ suggestion_of (context_view context.entry) (finding_view finding.now)) }
    ensures kept { AreMeanings (component_names context.entry.catalogue.now) meanings.new }
{
    let span = &finding.span;
    match finding.kind {
        Kind::UndefinedComponent => component_for(alloc, meanings, context, span),
        Kind::UnknownArgument => argument_for(alloc, context, span),
        Kind::RepeatedArgument => removal_for(alloc, context, span),
        _ => Ok(None),
    }
}

fn component_for(
    alloc: Global,
    meanings: &mut Meanings,
    context: Context<'_, '_>,
    span: &Span,
) -> Result<Option<Suggestion>, AllocError>
    requires { AreMeanings (component_names context.catalogue.now) meanings.old }
    ensures suggestion { IfOk result (λ s. option_map suggestion_view s
        ≡ component_for (context_view context.entry) span.now) }
    ensures kept { AreMeanings (component_names context.entry.catalogue.now) meanings.new }
{
    let Some(call) = call_at(context.calls, span.range.start) else {
        return Ok(None);
    };
    let word = call.name.as_str();
    let Some(name) = meant_component(alloc, context.catalogue, meanings, word)? else {
        return Ok(None);
    };
    match name_parts(alloc, context.source, call, span)? {
        Some(parts) => Ok(Some(renaming(alloc, word, name.as_str(), parts)?)),
        None => Ok(None),
    }
}

// Where the text has the name of the component: after the start of the call, and if it has a body, before its end.
fn name_parts(
    alloc: Global,
    source: &str,
    call: &ComponentCall,
    span: &Span,
) -> Result<Option<Vec<Part>>, AllocError>
    ensures { IfOk result (λ parts. option_map (λ v. v.items) parts
        ≡ name_parts source.now (call_view call.now) span.now) }
{
    let name = call.name.as_str();
    let Some(first) = part_after(source, name, span.range.start) else {
        return Ok(None);
    };
    let mut parts = Vec::new(alloc);
    parts.push(first)?;
    if call.self_closing {
        return Ok(Some(parts));
    }
    let Some(last) = part_before(source, name, span.range.end) else {
        return Ok(None);
    };
    parts.push(last)?;
    Ok(Some(parts))
}

fn argument_for(
    alloc: Global,
    context: Context<'_, '_>,
    span: &Span,
) -> Result<Option<Suggestion>, AllocError>
    ensures { IfOk result (λ s. option_map suggestion_view s
        ≡ argument_for (context_view context.entry) span.now) }
{
    let byte = span.range.start;
    let Some(attribute) = attribute_at(context.calls, byte) else {
        return Ok(None);
    };
    let Some(part) = name_before(context.source, attribute.name, byte) else {
        return Ok(None);
    };
    match meant_parameter(alloc, context.catalogue, attribute)? {
        Some(name) => {
            let mut parts = Vec::new(alloc);
            parts.push(part)?;
            Ok(Some(renaming(alloc, attribute.name, name, parts)?))
        }
        None => Ok(None),
    }
}

// The parameter of the component that the name of the attribute was meant to be.
fn meant_parameter<'c>(
    alloc: Global,
    catalogue: &'c Catalogue<'_>,
    attribute: Attribute<'_>,
) -> Result<Option<&'c str>, AllocError>
    ensures { IfOk result (λ name. option_map (λ n. n.now) name
        ≡ meant_parameter (known_in catalogue.now) (attribute_view attribute.entry)) }
{
    let Some(known) = catalogue.get(attribute.call.name.as_str()) else {
        return Ok(None);
    };
    let names = free_parameters(alloc, known.definition, attribute.call)?;
    meant(alloc, attribute.name, names.as_slice())
}

fn removal_for(
    alloc: Global,
    context: Context<'_, '_>,
    span: &Span,
) -> Result<Option<Suggestion>, AllocError>
    ensures { IfOk result (λ s. option_map suggestion_view s
        ≡ removal_for (context_view context.entry) span.now) }
{
    let byte = span.range.start;
    let Some(attribute) = attribute_at(context.calls, byte) else {
        return Ok(None);
    };
    let Some(name) = name_before(context.source, attribute.name, byte) else {
        return Ok(None);
    };
    match argument_part(context.source, name.start, span.range.end) {
        Some(part) => Ok(Some(removal(alloc, attribute.name, part)?)),
        None => Ok(None),
    }
}

// The suggestion to write the name in place of the parts, each of which is the word.
fn renaming(
    alloc: Global,
    word: &str,
    name: &str,
    parts: Vec<Part>,
) -> Result<Suggestion, AllocError>
    ensures { IfOk result (λ s. suggestion_view s ≡ renaming parts.items word.now name.now) }
{
    Ok(Suggestion {
        title: format!(in alloc; "Replace `{word}` with `{name}`")?,
        parts,
        text: String::from_str(alloc, name)?,
    })
}

// The suggestion to remove the argument of this name.
fn removal(alloc: Global, name: &str, part: Part) -> Result<Suggestion, AllocError>
    ensures { IfOk result (λ s. suggestion_view s ≡ removal name.now part) }
{
    let mut parts = Vec::new(alloc);
    parts.push(part)?;
    Ok(Suggestion {
        title: format!(in alloc; "Remove this `{name}`")?,
        parts,
        text: String::new(alloc),
    })
}
