//! Which findings of a tree are due, if a part of its text was written for faults.

ghost use Rattle.std.specs.Prelude.{◌≡◌, ◌∷◌, [], ◌++◌, ◌&&◌, map, nat_le, nat_lt, OnOk};
ghost use Rattle.std.specs.BTreeSet.{keys};
ghost use Rattle.std.specs.List.{filter, find, list_any};
ghost use Rattle.std.specs.Option.{option_map};
ghost use Rattle.tera_check.specs.Due.{is_due, is_written, end_of_definition, is_doubtful, is_due_in, is_lost_between, mark_of, may_name, name_at};
ghost use Rattle.tera_findings.specs.Findings.{finding_view};
ghost use Rattle.tera_templates.specs.Ignores.{ignores_view};
ghost use Rattle.tera_check.specs.Silenced.{AreLinesOf, is_silenced, is_silenced_at};

use crate::silenced::{Lines, has_line, silenced_lines};
use std::alloc::{AllocError, Global};
use std::collections::BTreeSet;
use tera_findings::{Finding, Kind, push_finding};
use tera_parser::value::Span;
use tera_templates::{Mended, Template, is_same_part, text_at};

/// Adds the findings that are due; those that an ignore of the template silences are not. `is_open` says that a text
/// may define more components than are known.
pub fn push_due(
    alloc: Global,
    findings: &mut Vec<Finding>,
    is_open: bool,
    template: &Template,
    found: Vec<Finding>,
) -> Result<(), AllocError>
    ensures { OnOk result (map finding_view findings.new.items ≡ map finding_view findings.old.items
        ++ filter (is_due is_open template.now) (map finding_view found.items)) }
{
    let silenced = silenced_lines(alloc, &template.ignores)?;
    for finding in found {
        push_if_due(findings, is_open, template, &silenced, finding)?;
    }
    Ok(())
}

fn push_if_due(
    findings: &mut Vec<Finding>,
    is_open: bool,
    template: &Template,
    silenced: &Lines,
    finding: Finding,
) -> Result<(), AllocError>
    requires { AreLinesOf (is_silenced_at (ignores_view template.now.ignores.items)) silenced.now }
    ensures { OnOk result (map finding_view findings.new.items ≡ map finding_view findings.old.items
        ++ filter (is_due is_open template.now) (finding_view finding ∷ [])) }
{
    if is_due(is_open, template, silenced, &finding) {
        push_finding(findings, finding)
    } else {
        Ok(())
    }
}

fn is_due(is_open: bool, template: &Template, silenced: &Lines, finding: &Finding) -> bool
    requires { AreLinesOf (is_silenced_at (ignores_view template.now.ignores.items)) silenced.now }
    ensures { result ≡ is_due is_open template.now (finding_view finding.now) }
{
    if is_open && finding.kind == Kind::UndefinedComponent {
        return false;
    }
    is_due_in(&template.mended, finding) && !is_silenced(template, silenced, finding)
}

// Whether a fault cannot be the cause of the finding.
fn is_due_in(mended: &Option<Mended>, finding: &Finding) -> bool
    ensures { result ≡ is_due_in mended.now (finding_view finding.now) }
{
    match mended {
        Some(mended) => is_written(mended, finding) && !is_doubtful(mended, finding),
        None => true,
    }
}

// Whether an ignore of the template silences the finding; `silenced` has the lines that the ignores cover.
fn is_silenced(template: &Template, silenced: &Lines, finding: &Finding) -> bool
    requires { AreLinesOf (is_silenced_at (ignores_view template.now.ignores.items)) silenced.now }
    ensures { result ≡ is_silenced template.now (finding_view finding.now) }
{
    has_line(silenced, finding.kind.name(), finding.span.start_line)
}

// Whether the source has what the finding is about, at the same place.
fn is_written(mended: &Mended, finding: &Finding) -> bool
    ensures { result ≡ is_written mended.now (finding_view finding.now) }
{
    let (start, end) = mark_of(finding);
    is_same_part(mended.source.as_str(), mended.text.as_str(), start, end)
}

// The first byte that the finding is about, and the byte after the last. For a call it is only its `<`, as its body may
// have faults.
fn mark_of(finding: &Finding) -> (usize, usize)
    ensures { result ≡ mark_of (finding_view finding.now) }
{
    let range = &finding.span.range;
    match finding.kind {
        Kind::UndefinedComponent | Kind::MissingArgument => {
            (range.start, range.start.saturating_add(1))
        }
        _ => (range.start, range.end),
    }
}

// Whether something that was overwritten in the definition may name the parameter that is found to be unused.
fn is_doubtful(mended: &Mended, finding: &Finding) -> bool
    ensures { result ≡ is_doubtful mended.now (finding_view finding.now) }
{
    finding.kind == Kind::UnusedParameter && may_name(mended, &finding.span)
}

// Whether something that was overwritten in the definition may name the parameter at this span: a word, an `include`,
// the variable that shows all others, or a call.
fn may_name(mended: &Mended, span: &Span) -> bool
    ensures { result ≡ may_name mended.now span.now }
{
    let Some(name) = name_at(mended, span) else {
        return true;
    };
    let start = span.range.start;
    let end = end_of_definition(mended, start);
    is_lost(mended, name, start, end)
        || is_lost(mended, "include", start, end)
        || is_lost(mended, "__tera_context", start, end)
        || is_lost(mended, "<", start, end)
}

// What the source has at the span, if that is between characters.
fn name_at<'m>(mended: &'m Mended, span: &Span) -> Option<&'m str>
    ensures { option_map (λ n. n.now) result ≡ name_at mended.now span.now }
{
    text_at(mended.source.as_str(), span.range.start, span.range.end)
}

// The end of the definition that contains this byte.
fn end_of_definition(mended: &Mended, start: usize) -> usize
    ensures { result ≡ end_of_definition mended.now start }
{
    match first_from(&mended.ends, start) {
        Some(end) => end,
        None => mended.text.len(),
    }
}

fn first_from(places: &BTreeSet<usize>, start: usize) -> Option<usize>
    ensures { result ≡ find (λ at. nat_le start at) (keys places.now) }
{
    places.range(start..).next().copied()
}

// Whether the word is lost somewhere between these bytes.
fn is_lost(mended: &Mended, word: &str, start: usize, end: usize) -> bool
    ensures { result ≡ is_lost_between mended.now word.now start end }
{
    match mended.lost.get(word) {
        Some(places) => has_between(places, start, end),
        None => false,
    }
}

fn has_between(places: &BTreeSet<usize>, start: usize, end: usize) -> bool
    ensures { result ≡ list_any (λ at. nat_le start at && nat_lt at end) (keys places.now) }
{
    if end <= start {
        return false;
    }
    places.range(start..end).next().is_some()
}
