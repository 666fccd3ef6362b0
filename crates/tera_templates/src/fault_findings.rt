//! The findings of the faults of a template.

ghost use Rattle.std.specs.Prelude.{◌≡◌, ◌++◌, ℕ, List, Option, IfOk, OnOk, map, take};
ghost use Rattle.std.specs.List.{All};
ghost use Rattle.std.specs.Option.{option_map};
ghost use Rattle.std.specs.List.Sorted.{IsPermutation};
ghost use Rattle.tera_base.specs.ErrorView.{error_view};
ghost use Rattle.tera_lexer.specs.grammar.Place.{span_of};
ghost use Rattle.tera_templates.specs.FaultFindings.{AreOfEach, AreOfFaults, IsAt, IsHintFor, IsOfFaultBy, IsWordOf, cause_notes, more_if, span_with, with_cause};
ghost use Rattle.tera_findings.specs.Findings.{finding_view, note_view};

use crate::causes::{Cause, Says, cause_of, ends_of};
use crate::hints::hint_in;
use crate::mended::Mended;
use crate::messages;
use crate::tags::Closed;
use crate::walk::Walk;
use std::alloc::{AllocError, Global};
use tera_findings::{Finding, Note, finding_of_fault, push_text, push_text_if_any};
use tera_mend::Fault;
use tera_parser::value::Span;

// A fault and its cause.
#[derive(Clone, Copy)]
struct Met<'m> {
    fault: &'m Fault,
    cause: Cause<'m>,
    is_last: bool,
}

/// The findings of the faults of a source in the file of this name. The notes of the parser are followed by a hint, if
/// there is one, and by the cause. The last finding also has a note if there are more faults.
pub fn findings_of_mended(
    alloc: Global,
    file: &str,
    mended: &Mended,
) -> Result<Vec<Finding>, AllocError>
    ensures { IfOk result (λ v. AreOfFaults file.now mended.now (map finding_view v.items)) }
{
    let source = mended.source.as_str();
    let ends = ends_of(alloc, mended)?;
    let all = all_met(alloc, source, mended.faults.as_slice(), &ends)?;
    let findings = findings_in(alloc, file, source, mended.cut, all.as_slice())?;
    Ok(findings)
}

// The faults in the order of their causes.
fn all_met<'m>(
    alloc: Global,
    source: &'m str,
    faults: &'m [Fault],
    ends: &Vec<Closed>,
) -> Result<Vec<Met<'m>>, AllocError>
    ensures words { IfOk result (λ v. All (λ m. IsWordOf source.now m.cause) v.items) }
    ensures same { IfOk result (λ v. IsPermutation faults.now (map (λ m. m.fault.now) v.items)) }
{
    let mut all = each_met(alloc, source, faults, ends)?;
    all.sort_by_key(|met| met.cause.start)?;
    Ok(all)
}

fn each_met<'m>(
    alloc: Global,
    source: &'m str,
    faults: &'m [Fault],
    ends: &Vec<Closed>,
) -> Result<Vec<Met<'m>>, AllocError>
    ensures words { IfOk result (λ v. All (λ m. IsWordOf source.now m.cause) v.items) }
    ensures same { IfOk result (λ v. map (λ m. m.fault.now) v.items ≡ faults.now) }
{
    let mut all = Vec::new(alloc);
    for (number, fault) in faults.iter().enumerate() {
        all.push(Met {
            fault,
            cause: cause_of(source, ends, fault),
            is_last: number.saturating_add(1) == faults.len(),
        })?;
    }
    Ok(all)
}

// The findings of the faults; `is_cut` says that there are more.
fn findings_in(
    alloc: Global,
    file: &str,
    source: &str,
    is_cut: bool,
    all: &[Met<'_>],
) -> Result<Vec<Finding>, AllocError>
    ensures { IfOk result (λ v. All (λ m. IsWordOf source.now m.cause) all.now →
        AreOfEach file.now source.now (map (λ m. m.fault.now) all.now) (map finding_view v.items)) }
{
    let mut findings = Vec::new(alloc);
    let mut walk = Walk::first();
    for met in all {
        walk = walk.to(source, met.cause.start);
        let finding = finding_of(alloc, file, source, met, is_cut && met.is_last, walk)?;
        findings.push(finding)?;
    }
    Ok(findings)
}

// The finding of a fault, whose cause begins at this place.
fn finding_of(
    alloc: Global,
    file: &str,
    source: &str,
    met: &Met<'_>,
    is_more: bool,
    walk: Walk,
) -> Result<Finding, AllocError>
    ensures { IfOk result (λ f. IsAt source.now walk → walk.byte ≡ met.now.cause.start →
        IsWordOf source.now met.now.cause →
        IsOfFaultBy file.now source.now (error_view met.now.fault.now.error) (finding_view f)) }
{
    let alone = finding_of_fault(alloc, file, &met.fault.error)?;
    let place = place_of(source, &met.cause, walk);
    let finding = with_cause(alloc, file, source, alone, &met.cause, &place, is_more)?;
    Ok(finding)
}

// The span of the word of the cause, which begins at this place.
fn place_of(source: &str, cause: &Cause<'_>, walk: Walk) -> Span
    ensures { IsAt source.now walk → walk.byte ≡ cause.now.start → IsWordOf source.now cause.now →
        result ≡ span_of (take cause.now.start source.now) cause.now.word.now }
{
    let end = cause.start.saturating_add(cause.word.len());
    walk.span_to(walk.to(source, end))
}

// The finding of a fault, with its cause at this place. If a tag has no end, the finding is at the tag, and a note is
// where the parser met the fault.
fn with_cause(
    alloc: Global,
    file: &str,
    source: &str,
    alone: Finding,
    cause: &Cause<'_>,
    place: &Span,
    is_more: bool,
) -> Result<Finding, AllocError>
    ensures { IfOk result (λ f. (hint : Option (List ℕ)) × IsHintFor source.now (finding_view alone) hint
        × (finding_view f ≡ with_cause file.now source.now place.now cause.now.word.now
        cause.now.says hint is_more (finding_view alone))) }
{
    let mut finding = alone;
    let span = span_with(source, &finding.span, cause.says, place);
    let hint = hint_for(source, &finding);
    push_text_if_any(alloc, &mut finding.notes, file, &span, hint)?;
    push_cause(alloc, &mut finding.notes, file, &finding.span, cause, place)?;
    let more = more_if(is_more);
    push_text_if_any(alloc, &mut finding.notes, file, &span, more)?;
    finding.span = span;
    Ok(finding)
}

// Where a fault is reported: at its cause if the fault is at the end of the source or after it, or if a tag has no end;
// else at its own place.
fn span_with(source: &str, at: &Span, says: Says, place: &Span) -> Span
    ensures { result ≡ span_with source.now at.now says place.now }
{
    if at.range.start >= source.len() || says == Says::NoEnd {
        place.copied()
    } else {
        at.copied()
    }
}

// The hint for a finding of a fault that begins at a character of the source.
fn hint_for(source: &str, finding: &Finding) -> Option<&'static str>
    ensures { IsHintFor source.now (finding_view finding.now) (option_map (λ h. h.now) result) }
{
    let (before, there) = source.split_at_checked(finding.span.range.start)?;
    hint_in(finding.message.as_str(), before, there)
}

// The text that there are more faults, if there are.
fn more_if(is_more: bool) -> Option<&'static str>
    ensures { option_map (λ t. t.now) result ≡ more_if is_more }
{
    if is_more {
        Some("there are more faults: the rest of the file is not checked")
    } else {
        None
    }
}

// Adds a note with the cause of a fault at this span.
fn push_cause(
    alloc: Global,
    notes: &mut Vec<Note>,
    file: &str,
    at: &Span,
    cause: &Cause<'_>,
    place: &Span,
) -> Result<(), AllocError>
    ensures { OnOk result (map note_view notes.new.items ≡ map note_view notes.old.items
        ++ cause_notes file.now at.now place.now cause.now.word.now cause.now.says) }
{
    match cause.says {
        Says::NotClosed => push_text(
            alloc,
            notes,
            file,
            place,
            messages::not_closed(alloc, cause.word)?,
        ),
        Says::ClosesNothing => push_text(
            alloc,
            notes,
            file,
            place,
            messages::closes_nothing(alloc, cause.word)?,
        ),
        Says::BelongsToNothing => push_text(
            alloc,
            notes,
            file,
            place,
            messages::belongs_to_nothing(alloc, cause.word)?,
        ),
        Says::NoEnd => push_text(alloc, notes, file, at, messages::met_here(alloc)?),
        Says::Nothing => Ok(()),
    }
}
