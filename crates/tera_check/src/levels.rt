//! What the findings of each rule count for, and which are reported.

ghost use Rattle.std.specs.Prelude.{◌≡◌, filter, map};
ghost use Rattle.tera_check.specs.Levels.{AreReportedOf, at_level, has_rule, is_fault, is_on, level_of, reported, selected_by, set_level};

use crate::found::Found;
use tera_findings::{Finding, Kind, Severity};

/// What a rule is set to. Without a level its findings are off.
#[derive(Clone, Copy, Debug)]
pub struct RuleLevel<'a> {
    pub rule: &'a str,
    pub level: Option<Severity>,
}

/// What the findings of each rule count for, by the settings.
#[derive(Clone, Copy, Debug)]
pub struct Levels<'b, 'a> {
    /// Only these rules are on, if they are given, even if they are set to be off.
    pub select: Option<&'b [&'a str]>,
    /// These rules are off.
    pub ignore: Option<&'b [&'a str]>,
    /// What rules are set to. All others have the level [`Kind::default_level`].
    pub set: &'b [RuleLevel<'a>],
}

impl<'b, 'a> Levels<'b, 'a> {
    ghost use Rattle.std.specs.Prelude.{◌≡◌, is_some};
    ghost use Rattle.tera_check.specs.Levels.{is_ignored, level_of, selected};

    /// The severity of findings of the kind, or none if they are off. Faults are always errors.
    pub fn level(self, kind: Kind) -> Option<Severity>
        ensures { result ≡ level_of self.entry kind }
    {
        if is_fault(kind) {
            return Some(kind.severity());
        }
        if self.is_ignored(kind) {
            return None;
        }
        self.selected(kind)
    }

    fn is_on(self, kind: Kind) -> bool
        ensures { result ≡ is_some (level_of self.entry kind) }
    {
        self.level(kind).is_some()
    }

    fn is_ignored(self, kind: Kind) -> bool
        ensures { result ≡ is_ignored self.entry kind }
    {
        match self.ignore {
            Some(rules) => has_rule(rules, kind),
            None => false,
        }
    }

    fn selected(self, kind: Kind) -> Option<Severity>
        ensures { result ≡ selected self.entry kind }
    {
        let set = set_level(self.set, kind);
        match self.select {
            Some(rules) => selected_by(rules, kind, set),
            None => set,
        }
    }
}

fn is_fault(kind: Kind) -> bool
    ensures { result ≡ is_fault kind }
{
    matches!(kind, Kind::Fault)
}

// Whether the rule of the kind is among these.
fn has_rule(rules: &[&str], kind: Kind) -> bool
    ensures { result ≡ has_rule rules.now kind }
{
    rules.contains(&kind.name())
}

// The level of findings of the kind if these rules are selected; `set` is what the rule is set to.
fn selected_by(rules: &[&str], kind: Kind, set: Option<Severity>) -> Option<Severity>
    ensures { result ≡ selected_by rules.now kind set }
{
    if has_rule(rules, kind) {
        Some(set.unwrap_or(kind.severity()))
    } else {
        None
    }
}

// The level of findings of the kind, by what the rules are set to.
fn set_level(set: &[RuleLevel<'_>], kind: Kind) -> Option<Severity>
    ensures { result ≡ set_level set.now kind }
{
    for rule in set {
        if rule.rule == kind.name() {
            return rule.level;
        }
    }
    kind.default_level()
}

/// Keeps the findings that are not off, each with the severity that its rule has.
pub fn leave_reported(all: &mut Vec<Found<'_>>, levels: Levels<'_, '_>)
    ensures { AreReportedOf (level_of levels.entry) all.old.items all.new.items }
{
    for found in all.iter_mut() {
        keep_reported(&mut found.findings, levels);
    }
}

fn keep_reported(findings: &mut Vec<Finding>, levels: Levels<'_, '_>)
    ensures { findings.new.items ≡ reported (level_of levels.entry) findings.old.items }
{
    keep_on(findings, levels);
    put_levels(findings, levels);
}

fn keep_on(findings: &mut Vec<Finding>, levels: Levels<'_, '_>)
    ensures { findings.new.items ≡ filter (is_on (level_of levels.entry)) findings.old.items }
{
    findings.retain(|finding| levels.is_on(finding.kind));
}

fn put_levels(findings: &mut Vec<Finding>, levels: Levels<'_, '_>)
    ensures { findings.new.items ≡ map (at_level (level_of levels.entry)) findings.old.items }
{
    for finding in findings.iter_mut() {
        put_level(finding, levels);
    }
}

fn put_level(finding: &mut Finding, levels: Levels<'_, '_>)
    ensures { finding.new ≡ at_level (level_of levels.entry) finding.old }
{
    finding.severity = levels.level(finding.kind).unwrap_or(finding.severity);
}
