//! What is found of a call of a component.

ghost use Rattle.std.specs.Prelude.{◌≡◌, ◌++◌, map, string_bytes, IfOk, OnOk};
ghost use Rattle.std.specs.Option.{option_map};
ghost use Rattle.tera_base.specs.Spanned.{node_of, span_of};
ghost use Rattle.tera_ast.specs.View.{call_view, entries_view, nodes_view};
ghost use Rattle.tera_ast.specs.declared.ast.ComponentCall.{out-ComponentCall};
ghost use Rattle.tera_findings.specs.Findings.{finding_view};
ghost use Rattle.tera_rules.specs.Judged.{known_view, remark_view, undefined, judged, unused_body, unused_bodies, call_findings, refused_findings, missing_in};
ghost use Rattle.tera_rules.specs.Passed.{passed_by};
ghost use Rattle.tera_rules.specs.Repeated.{repeated_findings};
ghost use Rattle.tera_rules.specs.declared.repeated.Holder.TheVariants as holders;

use crate::arguments::{Remark, push_missing, push_refused, push_remark};
use crate::bodies::is_blank_body;
use crate::known::Known;
use crate::messages;
use crate::passed::passed_by;
use crate::repeated::{Holder, push_repeated};
use std::alloc::{AllocError, Global};
use tera_findings::{Finding, Kind, push_finding};
use tera_parser::ast::{ComponentCall, MapEntry, Node};
use tera_parser::value::{Span, Spanned};

/// Adds what is found in a call in the file. `known` is the component of its name, if there is one.
pub fn push_call(
    alloc: Global,
    findings: &mut Vec<Finding>,
    file: &str,
    known: Option<&Known<'_>>,
    call: &Spanned<ComponentCall>,
) -> Result<(), AllocError>
    ensures { let c = out-ComponentCall (node_of call.now) in
        OnOk result (map finding_view findings.new.items ≡ map finding_view findings.old.items
        ++ (repeated_findings holders.Call file.now (entries_view c.kwargs.items)
        ++ (judged (option_map (λ k. known_view k.now) known.entry) (string_bytes c.name)
        (span_of call.now) (passed_by (entries_view c.kwargs.items))
        ++ unused_bodies (option_map (λ k. known_view k.now) known.entry)
        (span_of call.now) (nodes_view c.body.items)))) }
{
    push_repeated(alloc, findings, file, Holder::Call, &call.node().kwargs)?;
    push_judged(alloc, findings, known, call)?;
    push_unused_body(alloc, findings, known, call)
}

// Adds a finding if the component never shows the body of the call.
fn push_unused_body(
    alloc: Global,
    findings: &mut Vec<Finding>,
    known: Option<&Known<'_>>,
    call: &Spanned<ComponentCall>,
) -> Result<(), AllocError>
    ensures { let c = out-ComponentCall (node_of call.now) in
        OnOk result (map finding_view findings.new.items ≡ map finding_view findings.old.items
        ++ unused_bodies (option_map (λ k. known_view k.now) known.entry)
        (span_of call.now) (nodes_view c.body.items)) }
{
    match known {
        Some(known) => {
            let remark = unused_body(alloc, known, &call.node().body)?;
            push_remark(alloc, findings, known, call.span(), remark)
        }
        None => Ok(()),
    }
}

// The remark that the component never shows the body, if it does not, and if the body is not only white space.
fn unused_body(
    alloc: Global,
    known: &Known<'_>,
    body: &Vec<Node>,
) -> Result<Option<Remark>, AllocError>
    ensures { let k = known_view known.now in IfOk result (λ r. option_map remark_view r
        ≡ unused_body k.shows_body k.definition.name (nodes_view body.now.items)) }
{
    if known.shows_body || is_blank_body(body) {
        return Ok(None);
    }
    Ok(Some(Remark {
        kind: Kind::UnusedBody,
        message: messages::unused_body(alloc, known.definition.name.as_str())?,
    }))
}

fn push_judged(
    alloc: Global,
    findings: &mut Vec<Finding>,
    known: Option<&Known<'_>>,
    call: &Spanned<ComponentCall>,
) -> Result<(), AllocError>
    ensures { let c = out-ComponentCall (node_of call.now) in
        OnOk result (map finding_view findings.new.items ≡ map finding_view findings.old.items
        ++ judged (option_map
        (λ k. known_view k.now) known.entry) (string_bytes c.name) (span_of call.now)
        (passed_by (entries_view c.kwargs.items))) }
{
    let span = call.span();
    match known {
        Some(known) => push_arguments(alloc, findings, known, span, &call.node().kwargs),
        None => {
            let name = call.node().name.as_str();
            push_finding(findings, undefined(alloc, span, name)?)
        }
    }
}

// Adds what is found in the arguments of a call of the component.
fn push_arguments(
    alloc: Global,
    findings: &mut Vec<Finding>,
    known: &Known<'_>,
    span: &Span,
    attributes: &Vec<MapEntry>,
) -> Result<(), AllocError>
    ensures { let ps = passed_by (entries_view attributes.now.items) in
        OnOk result (map finding_view findings.new.items ≡ map finding_view findings.old.items
        ++ (refused_findings (known_view known.now) ps
        ++ missing_in (known_view known.now) span.now ps)) }
{
    let passed = passed_by(alloc, attributes)?;
    let names = push_refused(alloc, findings, known, passed)?;
    push_missing(alloc, findings, known, &names, span)?;
    Ok(())
}

fn undefined(alloc: Global, span: &Span, name: &str) -> Result<Finding, AllocError>
    ensures { IfOk result (λ f. finding_view f ≡ undefined span.now name.now) }
{
    let message = messages::undefined_component(alloc, name)?;
    Ok(Finding::new(alloc, Kind::UndefinedComponent, span, message))
}
