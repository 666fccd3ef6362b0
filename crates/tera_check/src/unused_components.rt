//! The rule `unused-component`: over all templates together.

ghost use Rattle.std.specs.Prelude.{◌≡◌, ◌++◌, ◌||◌, ℕ, List, map, string_bytes, IfOk, OnOk};
ghost use Rattle.std.specs.List.{list_any};
ghost use Rattle.tera_check.specs.Added.{IsAddedAt, IsWith};
ghost use Rattle.tera_findings.specs.Findings.{finding_view};
ghost use Rattle.tera_templates.specs.Templates.{definitions_of};
ghost use Rattle.tera_check.specs.Named.{span_at};
ghost use Rattle.tera_rules.specs.Pending.{seen};
ghost use Rattle.tera_rules.specs.Registered.{has_name};
ghost use Rattle.tera_check.specs.UnusedComponents.{AreWithUnusedComponents, due_unused_components, is_call_of, is_called, may_be_called, may_call, unused_component, unused_component_if, unused_components};

use crate::catalogue::defined_at;
use crate::due::push_due;
use crate::found::Found;
use crate::messages;
use crate::parameters::may_be_unused;
use std::alloc::{AllocError, Global};
use std::collections::BTreeSet;
use tera_findings::{Finding, Kind, push_finding};
use tera_parser::ast::ComponentCall;
use tera_parser::value::{Span, Spanned};
use tera_rules::calls_of;
use tera_rules::registered::{Names, put_name};
use tera_templates::{Template, definitions_of};

// The components that templates call.
#[derive(Drop)]
struct Called<'a> {
    // Whether all may be called, as a template has a fault.
    all: bool,
    // The names of the components that are called.
    names: Names<'a>,
}

impl<'a> Called<'a> {
    ghost use Rattle.std.specs.Prelude.{◌≡◌};
    ghost use Rattle.tera_check.specs.UnusedComponents.{is_called};

    // Whether the component of this name may be called.
    fn has(&self, name: &str) -> bool
        ensures { result ≡ is_called self.now name.now }
    {
        self.all || self.names.contains(name)
    }
}

/// Adds, to what is found in each of the first `checked` templates, its components that no template calls. If any
/// template has a fault there are none, as it may call any. What is found is in the order of the templates.
pub fn add_unused_components(
    alloc: Global,
    templates: &Vec<Template>,
    checked: usize,
    all: &mut Vec<Found<'_>>,
) -> Result<(), AllocError>
    ensures { OnOk result (AreWithUnusedComponents templates.now.items checked
        all.old.items all.new.items) }
{
    let called = called_in(alloc, templates)?;
    for number in 0..checked {
        add_at(alloc, &called, number, templates, all)?;
    }
    Ok(())
}

// The components that some of the templates may call.
fn called_in(alloc: Global, templates: &Vec<Template>) -> Result<Called<'_>, AllocError>
    ensures { IfOk result (λ c. (n : List ℕ) →
        is_called c n ≡ may_be_called templates.now.items n) }
{
    let mut called = Called {
        all: false,
        names: BTreeSet::new(alloc),
    };
    for template in templates {
        put_called(alloc, &mut called, template)?;
    }
    Ok(called)
}

fn put_called<'a>(
    alloc: Global,
    called: &mut Called<'a>,
    template: &'a Template,
) -> Result<(), AllocError>
    ensures { OnOk result ((n : List ℕ) →
        is_called called.new n ≡ (is_called called.old n || may_call n template.now)) }
{
    match &template.parsed {
        Ok(output) => {
            let calls = calls_of(alloc, output)?;
            put_names(&mut called.names, calls)?;
            Ok(())
        }
        Err(_) => {
            called.all = true;
            Ok(())
        }
    }
}

fn put_names<'a>(
    names: &mut Names<'a>,
    calls: Vec<&'a Spanned<ComponentCall>>,
) -> Result<(), AllocError>
    ensures { OnOk result ((n : List ℕ) → has_name names.new n
        ≡ (has_name names.old n || list_any (is_call_of n) (map seen calls.entry.items))) }
{
    for call in calls {
        put_name(names, call.node().name.as_str())?;
    }
    Ok(())
}

// Adds them to what is found in the template of this number.
#[tactic(auto, using(crate::proofs::AddedLemmas::replaced, crate::proofs::AddedLemmas::none_added, crate::proofs::AddedLemmas::none_found))]
fn add_at(
    alloc: Global,
    called: &Called<'_>,
    number: usize,
    templates: &Vec<Template>,
    all: &mut Vec<Found<'_>>,
) -> Result<(), AllocError>
    ensures { OnOk result (IsAddedAt (due_unused_components (is_called called.now))
        templates.now.items number all.old.items all.new.items) }
{
    let Some(template) = templates.get(number) else {
        return Ok(());
    };
    match all.get_mut(number) {
        Some(found) => add_to(alloc, called, template, found),
        None => Ok(()),
    }
}

fn add_to(
    alloc: Global,
    called: &Called<'_>,
    template: &Template,
    found: &mut Found<'_>,
) -> Result<(), AllocError>
    ensures { OnOk result (IsWith (due_unused_components (is_called called.now) template.now)
        found.old found.new) }
{
    found.add(unused_in(alloc, called, template)?)
}

// The components of the template that are not called, except those that its ignores silence.
fn unused_in(
    alloc: Global,
    called: &Called<'_>,
    template: &Template,
) -> Result<Vec<Finding>, AllocError>
    ensures { IfOk result (λ v. map finding_view v.items
        ≡ due_unused_components (is_called called.now) template.now) }
{
    let mut found = Vec::new(alloc);
    push_all_unused(alloc, &mut found, called, template)?;
    let mut due = Vec::new(alloc);
    push_due(alloc, &mut due, false, template, found)?;
    Ok(due)
}

fn push_all_unused(
    alloc: Global,
    findings: &mut Vec<Finding>,
    called: &Called<'_>,
    template: &Template,
) -> Result<(), AllocError>
    ensures { OnOk result (map finding_view findings.new.items ≡ map finding_view findings.old.items
        ++ unused_components (is_called called.now) (span_at template.now) 0
        (definitions_of template.now)) }
{
    for (at, definition) in definitions_of(template).iter().enumerate() {
        let span = defined_at(template, at);
        push_if_unused(alloc, findings, called, definition.name.as_str(), &span)?;
    }
    Ok(())
}

fn push_if_unused(
    alloc: Global,
    findings: &mut Vec<Finding>,
    called: &Called<'_>,
    name: &str,
    span: &Span,
) -> Result<(), AllocError>
    ensures { OnOk result (map finding_view findings.new.items ≡ map finding_view findings.old.items
        ++ unused_component_if (is_called called.now) name.now span.now) }
{
    if may_be_unused(name) || called.has(name) {
        return Ok(());
    }
    push_finding(findings, unused_component(alloc, name, span)?)
}

fn unused_component(alloc: Global, name: &str, span: &Span) -> Result<Finding, AllocError>
    ensures { IfOk result (λ f. finding_view f ≡ unused_component name.now span.now) }
{
    let message = messages::unused_component(alloc, name)?;
    Ok(Finding::new(alloc, Kind::UnusedComponent, span, message))
}
