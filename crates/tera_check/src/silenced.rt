//! What the ignores of a template silence, and which of them silence nothing.

ghost use Rattle.std.specs.Prelude.{◌≡◌, ◌↔◌, ◌⊎◌, ◌∷◌, [], ◌++◌, ℕ, List, true, map, string_bytes, IfOk, OnOk};
ghost use Rattle.std.specs.BTreeSet.{keys};
ghost use Rattle.std.specs.Bool.{Decides};
ghost use Rattle.std.specs.List.{Contains, find, list_any};
ghost use Rattle.std.specs.Str.{bytes_eq};
ghost use Rattle.tera_findings.specs.Findings.{FindingVal, finding_view, kind_name};
ghost use Rattle.tera_templates.specs.Ignores.{ignore_view, ignores_view};
ghost use Rattle.tera_templates.specs.Lost.{places_under};
ghost use Rattle.tera_check.specs.Silenced.{AreLinesOf, has_finding_at, is_judged, is_known_kind, is_silenced_at, is_unused, kind_named, next_line, not_a_rule_text, silences, silences_at, unused_among, unused_ignore, unused_ignore_text, unused_ignores};

use crate::messages;
use std::alloc::{AllocError, Global};
use std::collections::{BTreeMap, BTreeSet};
use tera_findings::{Finding, KINDS, Kind, push_finding};
use tera_templates::{Ignore, Template, put_place};

/// Lines, by the names of rules.
pub(crate) type Lines = BTreeMap<String, BTreeSet<usize>>;

/// The lines on which findings of each rule are silenced.
pub(crate) fn silenced_lines(alloc: Global, ignores: &Vec<Ignore>) -> Result<Lines, AllocError>
    ensures { IfOk result (AreLinesOf (is_silenced_at (ignores_view ignores.now.items))) }
{
    let mut lines = BTreeMap::new(alloc);
    for ignore in ignores {
        put_ignore(alloc, &mut lines, ignore)?;
    }
    Ok(lines)
}

fn put_ignore(alloc: Global, lines: &mut Lines, ignore: &Ignore) -> Result<(), AllocError>
    ensures { OnOk result ((rule : List ℕ) (line : ℕ) → Contains (places_under lines.new rule) line
        ↔ (Contains (places_under lines.old rule) line
        ⊎ (silences_at (ignore_view ignore.now) rule line ≡ true))) }
{
    let rule = ignore.rule.as_str();
    put_place(alloc, lines, rule, ignore.span.start_line)?;
    if ignore.alone {
        put_place(alloc, lines, rule, next_line(ignore))
    } else {
        Ok(())
    }
}

// The line after the comment.
fn next_line(ignore: &Ignore) -> usize
    ensures { result ≡ next_line (ignore_view ignore.now) }
{
    ignore.span.end_line.saturating_add(1)
}

/// Whether the line is among the lines of the rule.
pub(crate) fn has_line(lines: &Lines, rule: &str, line: usize) -> bool
    ensures { Decides result (Contains (places_under lines.now rule.now) line) }
{
    match lines.get(rule) {
        Some(lines) => is_in(lines, line),
        None => false,
    }
}

fn is_in(lines: &BTreeSet<usize>, line: usize) -> bool
    ensures { Decides result (Contains (keys lines.now) line) }
{
    lines.contains(&line)
}

/// Adds a finding for each ignore of the template that silences nothing of what is found in its tree. If the template
/// has a fault, none is reported, as not all of its findings may be known.
pub(crate) fn push_unused_ignores(
    alloc: Global,
    findings: &mut Vec<Finding>,
    is_open: bool,
    template: &Template,
    found: &Vec<Finding>,
) -> Result<(), AllocError>
    ensures { OnOk result (map finding_view findings.new.items ≡ map finding_view findings.old.items
        ++ unused_ignores is_open template.now (map finding_view found.now.items)) }
{
    if template.mended.is_some() {
        return Ok(());
    }
    push_unused(alloc, findings, is_open, &template.ignores, found)
}

fn push_unused(
    alloc: Global,
    findings: &mut Vec<Finding>,
    is_open: bool,
    ignores: &Vec<Ignore>,
    found: &Vec<Finding>,
) -> Result<(), AllocError>
    ensures { OnOk result (map finding_view findings.new.items ≡ map finding_view findings.old.items
        ++ unused_among is_open (map finding_view found.now.items)
        (ignores_view ignores.now.items)) }
{
    if ignores.is_empty() {
        return Ok(());
    }
    let lines = lines_of(alloc, found)?;
    for ignore in ignores {
        push_if_unused(alloc, findings, is_open, &lines, ignore)?;
    }
    Ok(())
}

// The lines on which the findings begin.
fn lines_of(alloc: Global, found: &Vec<Finding>) -> Result<Lines, AllocError>
    ensures { IfOk result (AreLinesOf (has_finding_at (map finding_view found.now.items))) }
{
    let mut lines = BTreeMap::new(alloc);
    for finding in found {
        put_place(
            alloc,
            &mut lines,
            finding.kind.name(),
            finding.span.start_line,
        )?;
    }
    Ok(lines)
}

fn push_if_unused(
    alloc: Global,
    findings: &mut Vec<Finding>,
    is_open: bool,
    lines: &Lines,
    ignore: &Ignore,
) -> Result<(), AllocError>
    ensures { (found : List FindingVal) → AreLinesOf (has_finding_at found) lines.now →
        OnOk result (map finding_view findings.new.items ≡ map finding_view findings.old.items
        ++ unused_among is_open found (ignore_view ignore.now ∷ [])) }
{
    if is_unused(is_open, lines, ignore) {
        push_finding(findings, unused(alloc, ignore)?)
    } else {
        Ok(())
    }
}

// Whether it is known that the ignore silences nothing; `lines` are those on which findings begin.
fn is_unused(is_open: bool, lines: &Lines, ignore: &Ignore) -> bool
    ensures { (found : List FindingVal) → AreLinesOf (has_finding_at found) lines.now →
        result ≡ is_unused is_open found (ignore_view ignore.now) }
{
    is_judged(is_open, ignore.rule.as_str()) && !is_met(lines, ignore)
}

// Whether a finding of the rule begins on a line that the ignore covers.
fn is_met(lines: &Lines, ignore: &Ignore) -> bool
    ensures { (found : List FindingVal) → AreLinesOf (has_finding_at found) lines.now →
        result ≡ list_any (silences (ignore_view ignore.now)) found }
{
    let rule = ignore.rule.as_str();
    has_line(lines, rule, ignore.span.start_line)
        || (ignore.alone && has_line(lines, rule, next_line(ignore)))
}

// Whether all findings of the rule are known.
fn is_judged(is_open: bool, rule: &str) -> bool
    ensures { result ≡ is_judged is_open rule.now }
{
    match kind_named(rule) {
        Some(kind) => is_known_kind(is_open, kind),
        None => true,
    }
}

fn is_known_kind(is_open: bool, kind: Kind) -> bool
    ensures { result ≡ is_known_kind is_open kind }
{
    !kind.depends_on_others() && !(is_open && kind == Kind::UndefinedComponent)
}

// The kind whose word this is.
fn kind_named(rule: &str) -> Option<Kind>
    ensures { result ≡ kind_named rule.now }
{
    named_in(&KINDS, rule)
}

fn named_in(kinds: &[Kind], rule: &str) -> Option<Kind>
    ensures { result ≡ find (λ kind. bytes_eq (kind_name kind) rule.now) kinds.now }
{
    for kind in kinds {
        if kind.name() == rule {
            return Some(*kind);
        }
    }
    None
}

fn unused(alloc: Global, ignore: &Ignore) -> Result<Finding, AllocError>
    ensures { IfOk result (λ f. finding_view f ≡ unused_ignore (ignore_view ignore.now)) }
{
    let message = unused_text(alloc, ignore.rule.as_str())?;
    Ok(Finding::new(alloc, Kind::UnusedIgnore, &ignore.span, message))
}

fn unused_text(alloc: Global, rule: &str) -> Result<String, AllocError>
    ensures { IfOk result (λ m. string_bytes m ≡ unused_ignore_text rule.now) }
{
    match kind_named(rule) {
        Some(_) => messages::unused_ignore(alloc, rule),
        None => not_a_rule(alloc, rule),
    }
}

// The text for a word that is not a rule.
fn not_a_rule(alloc: Global, rule: &str) -> Result<String, AllocError>
    ensures { IfOk result (λ m. string_bytes m ≡ not_a_rule_text rule.now) }
{
    if rule.is_empty() {
        messages::missing_rule(alloc)
    } else {
        messages::unknown_rule(alloc, rule)
    }
}
