//! The rules on what the program registers: `unknown-filter`, `unknown-test` and `unknown-function`.

ghost use Rattle.std.specs.Prelude.{◌≡◌, ◌++◌, ◌∷◌, [], false, map, string_bytes, IfOk, OnOk};
ghost use Rattle.std.specs.List.{filter, flat_map};
ghost use Rattle.tera_tree.specs.Outputs.{output_view};
ghost use Rattle.tera_tree.specs.Parts.{part_view, parts_view};
ghost use Rattle.tera_check.specs.Added.{IsAddedAt, IsWith};
ghost use Rattle.tera_check.specs.Due.{is_due};
ghost use Rattle.tera_findings.specs.Findings.{finding_view};
ghost use Rattle.tera_rules.specs.Registered.{registered_view};
ghost use Rattle.tera_check.specs.Unknown.{AreWithUnknown, due_unknown, unknown_findings, unknown_if, unknown_in, unknown_kind, unknown_text};
ghost use Rattle.tera_rules.specs.Within.{all_parts};

use crate::due::push_due;
use crate::found::Found;
use std::alloc::{AllocError, Global};
use tera_findings::{Finding, Kind, push_finding};
use tera_parser::ParserOutput;
use tera_parser::ast::{Expression, Part, Parts, top_parts};
use tera_parser::value::Span;
use tera_rules::registered::{Registered, Registry};
use tera_templates::{Template, tree_of};

/// Adds, to what is found in each of the first `checked` templates, the filters, tests and functions there that the
/// program does not have. What is found is in the order of the templates.
pub fn add_unknown(
    alloc: Global,
    registered: &Registered<'_>,
    templates: &Vec<Template>,
    checked: usize,
    all: &mut Vec<Found<'_>>,
) -> Result<(), AllocError>
    ensures { OnOk result (AreWithUnknown (registered_view registered.now) templates.now.items
        checked all.old.items all.new.items) }
{
    for number in 0..checked {
        add_at(alloc, registered, number, templates, all)?;
    }
    Ok(())
}

// Adds them to what is found in the template of this number.
#[tactic(auto, using(crate::proofs::AddedLemmas::replaced, crate::proofs::AddedLemmas::none_added, crate::proofs::AddedLemmas::none_found))]
fn add_at(
    alloc: Global,
    registered: &Registered<'_>,
    number: usize,
    templates: &Vec<Template>,
    all: &mut Vec<Found<'_>>,
) -> Result<(), AllocError>
    ensures { OnOk result (IsAddedAt (due_unknown (registered_view registered.now))
        templates.now.items number all.old.items all.new.items) }
{
    let Some(template) = templates.get(number) else {
        return Ok(());
    };
    match all.get_mut(number) {
        Some(found) => add_to(alloc, registered, template, found),
        None => Ok(()),
    }
}

fn add_to(
    alloc: Global,
    registered: &Registered<'_>,
    template: &Template,
    found: &mut Found<'_>,
) -> Result<(), AllocError>
    ensures { OnOk result (IsWith (due_unknown (registered_view registered.now) template.now)
        found.old found.new) }
{
    found.add(unknown_found(alloc, registered, template)?)
}

/// The filters, tests and functions in the template that the program does not have. Nothing is found that comes from
/// what was written for a fault.
pub fn unknown_found(
    alloc: Global,
    registered: &Registered<'_>,
    template: &Template,
) -> Result<Vec<Finding>, AllocError>
    ensures { IfOk result (λ v. map finding_view v.items
        ≡ due_unknown (registered_view registered.now) template.now) }
{
    match tree_of(template) {
        Some(output) => due_in_tree(alloc, registered, template, output),
        None => Ok(Vec::new(alloc)),
    }
}

fn due_in_tree(
    alloc: Global,
    registered: &Registered<'_>,
    template: &Template,
    output: &ParserOutput,
) -> Result<Vec<Finding>, AllocError>
    ensures { IfOk result (λ v. map finding_view v.items ≡ filter (is_due false template.now)
        (unknown_findings (registered_view registered.now) (output_view output.now))) }
{
    let mut found = Vec::new(alloc);
    push_all_unknown(alloc, &mut found, registered, output)?;
    let mut due = Vec::new(alloc);
    push_due(alloc, &mut due, false, template, found)?;
    Ok(due)
}

// Adds what these rules find in the tree. A tree of more parts than a `u64` counts gives an allocation failure.
fn push_all_unknown(
    alloc: Global,
    findings: &mut Vec<Finding>,
    registered: &Registered<'_>,
    output: &ParserOutput,
) -> Result<(), AllocError>
    ensures { OnOk result (map finding_view findings.new.items ≡ map finding_view findings.old.items
        ++ unknown_findings (registered_view registered.now) (output_view output.now)) }
{
    let mut left = top_parts(alloc, &output.component_definitions, &output.nodes)?;
    for _part in 0..u64::MAX {
        match left.pop() {
            Some(part) => take(alloc, findings, registered, &mut left, part)?,
            None => return Ok(()),
        }
    }
    Err(AllocError)
}

// Adds what these rules find in the part, and puts the parts inside it on the list.
#[tactic(auto, using(crate::proofs::UnknownLemmas::taken))]
fn take<'a>(
    alloc: Global,
    findings: &mut Vec<Finding>,
    registered: &Registered<'_>,
    left: &mut Parts<'a>,
    part: Part<'a>,
) -> Result<(), AllocError>
    ensures { let unknown = flat_map (unknown_in (registered_view registered.now)) in
        OnOk result (map finding_view findings.new.items
        ++ unknown (all_parts (parts_view left.new.items))
        ≡ map finding_view findings.old.items
        ++ unknown (all_parts (parts_view left.old.items ++ (part_view part.entry ∷ [])))) }
{
    push_unknown_in(alloc, findings, registered, part)?;
    part.push_inside(left)
}

// Adds a finding if the part names what the program does not have.
#[tactic(auto, using(crate::proofs::UnknownLemmas::filter_view, crate::proofs::UnknownLemmas::test_view, crate::proofs::UnknownLemmas::function_view))]
fn push_unknown_in(
    alloc: Global,
    findings: &mut Vec<Finding>,
    registered: &Registered<'_>,
    part: Part<'_>,
) -> Result<(), AllocError>
    ensures { OnOk result (map finding_view findings.new.items ≡ map finding_view findings.old.items
        ++ unknown_in (registered_view registered.now) (part_view part.entry)) }
{
    match part {
        Part::Expression(Expression::Filter(filter)) => {
            let (name, span) = (filter.node().name.as_str(), filter.span());
            push_if_unknown(alloc, findings, registered, Registry::Filters, name, span)
        }
        Part::Expression(Expression::Test(test)) => {
            let (name, span) = (test.node().name.as_str(), test.span());
            push_if_unknown(alloc, findings, registered, Registry::Tests, name, span)
        }
        Part::Expression(Expression::FunctionCall(call)) => {
            let (name, span) = (call.node().name.as_str(), call.span());
            push_if_unknown(alloc, findings, registered, Registry::Functions, name, span)
        }
        Part::Node(_) | Part::Expression(_) => Ok(()),
    }
}

fn push_if_unknown(
    alloc: Global,
    findings: &mut Vec<Finding>,
    registered: &Registered<'_>,
    registry: Registry,
    name: &str,
    span: &Span,
) -> Result<(), AllocError>
    ensures { OnOk result (map finding_view findings.new.items ≡ map finding_view findings.old.items
        ++ unknown_if (registered_view registered.now) registry name.now span.now) }
{
    if registered.has(registry, name) {
        return Ok(());
    }
    let message = unknown_text(alloc, registry, name)?;
    let kind = unknown_kind(registry);
    push_finding(findings, Finding::new(alloc, kind, span, message))
}

// The kind of the finding for a name that is not registered.
fn unknown_kind(registry: Registry) -> Kind
    ensures { result ≡ unknown_kind registry }
{
    match registry {
        Registry::Filters => Kind::UnknownFilter,
        Registry::Tests => Kind::UnknownTest,
        Registry::Functions => Kind::UnknownFunction,
    }
}

// The text that there is none of this name.
fn unknown_text(alloc: Global, registry: Registry, name: &str) -> Result<String, AllocError>
    ensures { IfOk result (λ m. string_bytes m ≡ unknown_text registry name.now) }
{
    match registry {
        Registry::Filters => format!(in alloc; "No filter is named `{name}`"),
        Registry::Tests => format!(in alloc; "No test is named `{name}`"),
        Registry::Functions => format!(in alloc; "No function is named `{name}`"),
    }
}
