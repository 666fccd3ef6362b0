//! What is found in one template among others.

ghost use Rattle.std.specs.Prelude.{◌≡◌, ◌∷◌, [], ◌++◌, List, map, Some, IfOk, OnOk};
ghost use Rattle.std.specs.List.{flat_map};
ghost use Rattle.std.specs.Option.{option_map};
ghost use Rattle.std.specs.List.Sorted.{IsPermutation};
ghost use Rattle.tera_base.specs.ErrorView.{error_view};
ghost use Rattle.tera_check.specs.Due.{due_findings};
ghost use Rattle.tera_templates.specs.FaultFindings.{AreFaultsOf};
ghost use Rattle.tera_findings.specs.Findings.{FindingVal, finding_view, note_view, IsOfError};
ghost use Rattle.tera_findings.specs.declared.finding.Finding.{Finding};
ghost use Rattle.tera_base.specs.Spanned.{node_of, span_of};
ghost use Rattle.tera_ast.specs.View.{call_view};
ghost use Rattle.tera_tree.specs.Outputs.{output_view};
ghost use Rattle.tera_tree.specs.View.{definition_view};
ghost use Rattle.tera_rules.specs.Calls.{calls_of};
ghost use Rattle.tera_findings.specs.Findings.{NoteOf, place_of};
ghost use Rattle.tera_rules.specs.Judged.{known_view, call_findings, again, defined_again, first_text, again_findings};
ghost use Rattle.tera_check.specs.Named.{known_in, span_at, tree_findings};
ghost use Rattle.tera_rules.specs.Pending.{seen};
ghost use Rattle.tera_check.specs.OrderAndStatus.{IsInOrder, status_of};

use crate::catalogue::{Catalogue, defined_at};
use crate::due::push_due;
use crate::parameters::push_all_unused;
use crate::silenced::push_unused_ignores;
use std::alloc::{AllocError, Global};
use tera_findings::{Finding, Kind, Note, finding_of_fault, push_finding};
use tera_parser::ParserOutput;
use tera_parser::ast::ComponentCall;
use tera_parser::value::{Error, Span, Spanned};
use tera_rules::messages::defined_again;
use tera_rules::{Known, calls_of, messages, push_all_small, push_call};
use tera_templates::{Template, findings_of_mended, tree_of};

/// What is found in the template of this number, in the order of the places:
/// - its faults;
/// - in its tree, or in the tree that it was mended to: components that a template before it defines too, parameters
///   that are never used, and the findings of its calls and of its parts by themselves, except what its ignores
///   silence;
/// - the ignores that silence nothing.
///
/// Nothing is found that comes from what was written for a fault. `is_open` says that a template may define more
/// components than the catalogue has ([`crate::is_open`]).
pub fn findings_of(
    alloc: Global,
    catalogue: &Catalogue<'_>,
    is_open: bool,
    number: usize,
    template: &Template,
) -> Result<Vec<Finding>, AllocError>
    ensures ordered { IfOk result (λ v. IsInOrder v.items) }
    ensures found { IfOk result (λ v. (faults : List FindingVal) × AreFaultsOf template.now faults
        × IsPermutation (faults ++ due_findings (known_in catalogue.now) is_open number template.now)
        (map finding_view v.items)) }
{
    let mut findings = known_faults(alloc, template)?;
    push_all_due(alloc, &mut findings, catalogue, is_open, number, template)?;
    put_in_order(&mut findings)?;
    Ok(findings)
}

// Adds the findings in the template's tree that are due, and its ignores that silence nothing.
fn push_all_due(
    alloc: Global,
    findings: &mut Vec<Finding>,
    catalogue: &Catalogue<'_>,
    is_open: bool,
    number: usize,
    template: &Template,
) -> Result<(), AllocError>
    ensures { OnOk result (map finding_view findings.new.items ≡ map finding_view findings.old.items
        ++ due_findings (known_in catalogue.now) is_open number template.now) }
{
    match tree_of(template) {
        Some(output) => {
            let found = findings_of_tree(alloc, catalogue, number, template, output)?;
            push_unused_ignores(alloc, findings, is_open, template, &found)?;
            push_due(alloc, findings, is_open, template, found)
        }
        None => Ok(()),
    }
}

/// The known faults of a template, in the order of their places.
pub fn faults_of(alloc: Global, template: &Template) -> Result<Vec<Finding>, AllocError>
    ensures ordered { IfOk result (λ v. IsInOrder v.items) }
    ensures faults { IfOk result (λ v. AreFaultsOf template.now (map finding_view v.items)) }
{
    let mut findings = known_faults(alloc, template)?;
    put_in_order(&mut findings)?;
    Ok(findings)
}

fn known_faults(alloc: Global, template: &Template) -> Result<Vec<Finding>, AllocError>
    ensures { IfOk result (λ v. AreFaultsOf template.now (map finding_view v.items)) }
{
    let file = template.file.as_str();
    match (&template.parsed, &template.mended) {
        (Ok(_), _) => Ok(Vec::new(alloc)),
        (Err(_), Some(mended)) => findings_of_mended(alloc, file, mended),
        (Err(error), None) => finding_alone(alloc, file, error),
    }
}

fn finding_alone(alloc: Global, file: &str, error: &Error) -> Result<Vec<Finding>, AllocError>
    ensures { IfOk result (λ v.
        (f : Finding) × (v.items ≡ f ∷ [])
        × IsOfError file.now (error_view error.now) (finding_view f)) }
{
    let finding = finding_of_fault(alloc, file, error)?;
    let mut findings = Vec::new(alloc);
    findings.push(finding)?;
    Ok(findings)
}

fn findings_of_tree(
    alloc: Global,
    catalogue: &Catalogue<'_>,
    number: usize,
    template: &Template,
    output: &ParserOutput,
) -> Result<Vec<Finding>, AllocError>
    ensures { IfOk result (λ v. map finding_view v.items
        ≡ tree_findings (known_in catalogue.now) number template.now (output_view output.now)) }
{
    let mut findings = Vec::new(alloc);
    push_all_again(alloc, &mut findings, catalogue, number, template, output)?;
    push_all_unused(alloc, &mut findings, catalogue, template, output)?;
    let file = template.file.as_str();
    push_calls(alloc, &mut findings, catalogue, file, output)?;
    push_all_small(alloc, &mut findings, file, output)?;
    Ok(findings)
}

/// Puts the findings in the order of their places.
pub fn put_in_order(findings: &mut Vec<Finding>) -> Result<(), AllocError>
    ensures ordered { OnOk result (IsInOrder findings.new.items) }
    ensures same { IsPermutation findings.old.items findings.new.items }
{
    findings.sort_by_key(|finding| order_of(finding))?;
    Ok(())
}

fn order_of(finding: &Finding) -> (usize, usize)
    ensures { let place = place_of finding.now.span in result ≡ (place.line, place.column) }
{
    let place = finding.place();
    (place.line, place.column)
}

/// The status of a program that checked some templates: 2 if one of them could not be read, else 1 if an error was
/// found, else 0. Warnings do not change it.
pub fn status(errors: bool, unread: bool) -> u8
    ensures { result ≡ status_of errors unread }
{
    if unread {
        2
    } else if errors {
        1
    } else {
        0
    }
}

// Adds a finding for each component that another template defines first.
fn push_all_again(
    alloc: Global,
    findings: &mut Vec<Finding>,
    catalogue: &Catalogue<'_>,
    number: usize,
    template: &Template,
    output: &ParserOutput,
) -> Result<(), AllocError>
    ensures { OnOk result (map finding_view findings.new.items ≡ map finding_view findings.old.items
        ++ again_findings (known_in catalogue.now) number (span_at template.now) 0
        (map definition_view output.now.component_definitions.items)) }
{
    for (at, definition) in output.component_definitions.iter().enumerate() {
        let known = known_as(catalogue, definition.name.as_str());
        push_again(alloc, findings, known, number, &defined_at(template, at))?;
    }
    Ok(())
}

// What the catalogue has under the name.
fn known_as<'c, 'a>(catalogue: &'c Catalogue<'a>, name: &str) -> Option<&'c Known<'a>>
    ensures { option_map (λ k. known_view k.now) result ≡ known_in catalogue.now name.now }
{
    catalogue.get(name)
}

fn push_again(
    alloc: Global,
    findings: &mut Vec<Finding>,
    known: Option<&Known<'_>>,
    number: usize,
    span: &Span,
) -> Result<(), AllocError>
    ensures { OnOk result (map finding_view findings.new.items ≡ map finding_view findings.old.items
        ++ defined_again number span.now (option_map (λ k. known_view k.now) known.entry)) }
{
    let Some(known) = known else {
        return Ok(());
    };
    if known.template == number {
        return Ok(());
    }
    push_finding(findings, again(alloc, known, span)?)
}

fn again(alloc: Global, known: &Known<'_>, span: &Span) -> Result<Finding, AllocError>
    ensures { IfOk result (λ f. finding_view f ≡ again (known_view known.now) span.now) }
{
    let name = known.definition.name.as_str();
    let note = first_defined(alloc, known)?;
    let message = defined_again(alloc, name)?;
    Finding::with_note(alloc, Kind::DefinedAgain, span, message, note)
}

fn first_defined(alloc: Global, known: &Known<'_>) -> Result<Note, AllocError>
    ensures { IfOk result (λ n. note_view n
        ≡ NoteOf known.now.file.now known.now.span first_text) }
{
    Ok(Note {
        file: String::from_str(alloc, known.file)?,
        span: known.span.copied(),
        message: messages::first_defined(alloc)?,
    })
}

fn push_calls(
    alloc: Global,
    findings: &mut Vec<Finding>,
    catalogue: &Catalogue<'_>,
    file: &str,
    output: &ParserOutput,
) -> Result<(), AllocError>
    ensures { OnOk result (map finding_view findings.new.items ≡ map finding_view findings.old.items
        ++ flat_map (call_findings file.now (known_in catalogue.now)) (calls_of (output_view output.now))) }
{
    let calls = calls_of(alloc, output)?;
    push_found(alloc, findings, catalogue, file, &calls)
}

fn push_found(
    alloc: Global,
    findings: &mut Vec<Finding>,
    catalogue: &Catalogue<'_>,
    file: &str,
    calls: &Vec<&Spanned<ComponentCall>>,
) -> Result<(), AllocError>
    ensures { OnOk result (map finding_view findings.new.items ≡ map finding_view findings.old.items
        ++ flat_map (call_findings file.now (known_in catalogue.now)) (map seen calls.now.items)) }
{
    for call in calls {
        push_found_in_call(alloc, findings, catalogue, file, call)?;
    }
    Ok(())
}

fn push_found_in_call(
    alloc: Global,
    findings: &mut Vec<Finding>,
    catalogue: &Catalogue<'_>,
    file: &str,
    call: &Spanned<ComponentCall>,
) -> Result<(), AllocError>
    ensures { OnOk result (map finding_view findings.new.items ≡ map finding_view findings.old.items
        ++ call_findings file.now (known_in catalogue.now)
        (call_view (node_of call.now) (span_of call.now))) }
{
    let known = known_as(catalogue, call.node().name.as_str());
    push_call(alloc, findings, file, known, call)
}
