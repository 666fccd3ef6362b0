//! Corrections of findings, written to the files.

ghost use Rattle.std.specs.Prelude.{◌≡◌, ◌&&◌, IfOk, IfSome, filter, map};
ghost use Rattle.std.specs.List.{list_any};
ghost use Rattle.std.specs.Option.{is_some};
ghost use Rattle.tera_lexer.specs.grammar.Marks.{IsValid, marks_of};
ghost use Rattle.tera_check.specs.Levels.{level_of};
ghost use Rattle.tera_fixes.specs.Components.{AreMeanings};
ghost use Rattle.tera_fixes.specs.Names.{component_names};
ghost use Rattle.tera_jobs.specs.Fixing.{IsFixOf, IsReadFix, is_corrected, takes};
ghost use Rattle.tera_jobs.specs.Sources.{marks_in};

use crate::reading::{Reading, Templates, template_of};
use std::alloc::{AllocError, Global};
use std::collections::BTreeMap;
use std::rt::Files;
use tera_check::{Catalogue, Finding, Kind, Levels, Template, catalogue_of, findings_of, is_open};
use tera_files::{Source, replace};
use tera_fixes::{Meanings, Suggestion, are_too_many, edited, fewer_in, suggestions_by};
use tera_options::job::Check;
use tera_program_parts::output::print_unwritten;

/// What was corrected.
#[derive(Clone, Copy, Debug)]
pub(crate) struct Fixed {
    /// How many findings were removed.
    pub(crate) findings: usize,
    /// In how many files.
    pub(crate) files: usize,
    /// How many files could not be written.
    pub(crate) failed: usize,
    /// Whether a file has more findings that may be corrected than are corrected at once.
    pub(crate) more: bool,
}

// A corrected text for a file.
#[derive(Drop)]
struct Fix {
    /// The number of its template.
    number: usize,
    text: String,
    /// The template that is read from it.
    template: Template,
    /// How many findings it has fewer.
    fewer: usize,
    /// Whether more findings may have a suggestion than got one.
    more: bool,
}

/// Writes what is suggested for the findings that are reported in the checked files. The templates and the sources are
/// then those of the files. Standard error says which file could not be written; it stays as it was.
pub(crate) fn fix_all<R: Files + Eprint + AllocGlobal>(
    rt: &R,
    job: &Check<'_, '_>,
    reading: &Reading,
    all: &mut Templates,
) -> Result<Fixed, AllocError>
    requires { IfSome reading.now.markers (λ m. IsValid (marks_of m)) }
{
    let mut fixed = Fixed {
        findings: 0,
        files: 0,
        failed: 0,
        more: false,
    };
    for fix in fixes_of(rt.alloc(), job.rules, reading, all)? {
        let (fewer, more) = (fix.fewer, fix.more);
        if put(rt, fix, all) {
            fixed.findings = fixed.findings.saturating_add(fewer);
            fixed.files = fixed.files.saturating_add(1);
            fixed.more = fixed.more || more;
        } else {
            fixed.failed = fixed.failed.saturating_add(1);
        }
    }
    Ok(fixed)
}

// Writes the text of a fix, and keeps the template that is read from it. The result is whether that went well.
fn put<R: Files + Eprint + AllocGlobal>(rt: &R, fix: Fix, all: &mut Templates) -> bool {
    let (Some(template), Some(source)) = (
        all.templates.get_mut(fix.number),
        all.sources.get_mut(fix.number),
    ) else {
        return false;
    };
    let written = replace(
        rt,
        source.file.as_str(),
        source.text.as_str(),
        fix.text.as_str(),
    );
    match written {
        Ok(()) => {
            source.text = fix.text;
            *template = fix.template;
            true
        }
        Err(why) => {
            print_unwritten(rt, source.file.as_str(), why);
            false
        }
    }
}

// What is known of the components of the checked templates.
#[derive(Clone, Copy)]
struct Known<'c, 'a> {
    catalogue: &'c Catalogue<'a>,
    /// Whether there may be more components: a fault in a template may hide one, or a file could not be read.
    is_open: bool,
}

// The fixes of the files that are checked.
fn fixes_of(
    alloc: Global,
    rules: Levels<'_, '_>,
    reading: &Reading,
    all: &Templates,
) -> Result<Vec<Fix>, AllocError>
    requires { IfSome reading.now.markers (λ m. IsValid (marks_of m)) }
{
    let catalogue = catalogue_of(alloc, &all.templates)?;
    let known = Known {
        catalogue: &catalogue,
        is_open: !all.unread.is_empty() || all.templates.iter().any(|template| is_open(template)),
    };
    let mut meanings = BTreeMap::new(alloc);
    let mut fixes = Vec::new(alloc);
    for (number, template) in all.templates.iter().enumerate() {
        if all.checked <= number {
            return Ok(fixes);
        }
        let Some(source) = all.sources.get(number) else {
            return Ok(fixes);
        };
        let fix = fix_of(
            alloc,
            rules,
            reading,
            known,
            &mut meanings,
            number,
            template,
            source,
        )?;
        if let Some(fix) = fix {
            fixes.push(fix)?;
        }
    }
    Ok(fixes)
}

// The findings whose suggestions are tried together.
#[derive(Clone, Copy)]
enum Choice {
    All,
    // Findings in the arguments of calls.
    Arguments,
    // Findings at the names of calls.
    Components,
}

impl Choice {
    ghost use Rattle.std.specs.Prelude.{◌≡◌};
    ghost use Rattle.tera_jobs.specs.Fixing.{takes};

    fn takes(self, kind: Kind) -> bool
        ensures { result ≡ takes self kind }
    {
        match self {
            Choice::All => true,
            Choice::Arguments => kind != Kind::UndefinedComponent,
            Choice::Components => kind == Kind::UndefinedComponent,
        }
    }
}

// The fix of a template, if it has a tree, the source is the source of its file, and a text with suggestions is better:
// with all of them, or else only with those for arguments, or only for components. A suggestion of one kind may show
// what is wrong with the other.
#[tactic(auto, using(crate::proofs::FixingLemmas::fix_of_found))]
fn fix_of(
    alloc: Global,
    rules: Levels<'_, '_>,
    reading: &Reading,
    known: Known<'_, '_>,
    meanings: &mut Meanings,
    number: usize,
    template: &Template,
    source: &Source,
) -> Result<Option<Fix>, AllocError>
    requires markers { IfSome reading.now.markers (λ m. IsValid (marks_of m)) }
    requires meant { AreMeanings (component_names known.catalogue.now) meanings.old }
    ensures fix { IfOk result (λ fix. IfSome fix (IsFixOf known.entry.catalogue.now known.entry.is_open
        (marks_in reading.now.markers) reading.now.faults rules.entry number template.now source.now)) }
    ensures kept { AreMeanings (component_names known.entry.catalogue.now) meanings.new }
{
    if template.parsed.is_err() || template.file != source.file {
        return Ok(None);
    }
    let found = findings_of(alloc, known.catalogue, known.is_open, number, template)?;
    for choice in [Choice::All, Choice::Arguments, Choice::Components] {
        let reported = reported_of(alloc, rules, choice, &found)?;
        let before = Before {
            number,
            template,
            source,
            found: &found,
        };
        let fix = fix_by(alloc, reading, known, meanings, before, reported.as_slice())?;
        if fix.is_some() {
            return Ok(fix);
        }
    }
    Ok(None)
}

// A template as it is, and what is found in it.
#[derive(Clone, Copy)]
struct Before<'t> {
    number: usize,
    template: &'t Template,
    source: &'t Source,
    found: &'t Vec<Finding>,
}

// The fix with the suggestions for these findings, if it is better.
#[tactic(auto, using(crate::proofs::FixingLemmas::read_fix))]
fn fix_by(
    alloc: Global,
    reading: &Reading,
    known: Known<'_, '_>,
    meanings: &mut Meanings,
    before: Before<'_>,
    findings: &[&Finding],
) -> Result<Option<Fix>, AllocError>
    requires markers { IfSome reading.now.markers (λ m. IsValid (marks_of m)) }
    requires meant { AreMeanings (component_names known.catalogue.now) meanings.old }
    ensures fix { IfOk result (λ fix. IfSome fix (IsReadFix known.entry.catalogue.now known.entry.is_open
        (marks_in reading.now.markers) reading.now.faults before.entry.number
        before.entry.template.now before.entry.source.now (map (λ f. f.now) findings.now)
        before.entry.found.now.items)) }
    ensures kept { AreMeanings (component_names known.entry.catalogue.now) meanings.new }
{
    let old_text = before.source.text.as_str();
    let suggestions = suggestions_by(
        alloc,
        meanings,
        known.catalogue,
        before.template,
        old_text,
        findings,
    )?;
    if !has_any(&suggestions) {
        return Ok(None);
    }
    let text = edited(alloc, old_text, suggestions.as_slice())?;
    let file = before.source.file.as_str();
    let template = template_of(alloc, file, text.as_str(), reading)?;
    let fewer = fewer_in(
        alloc,
        known.catalogue,
        known.is_open,
        before.number,
        &template,
        before.found.as_slice(),
    )?;
    match fewer {
        Some(fewer) => Ok(Some(Fix {
            number: before.number,
            text,
            template,
            fewer,
            more: are_too_many(findings),
        })),
        None => Ok(None),
    }
}

fn has_any(suggestions: &Vec<Option<Suggestion>>) -> bool
    ensures { result ≡ list_any (λ suggestion. is_some suggestion) suggestions.now.items }
{
    suggestions.iter().any(|suggestion| suggestion.is_some())
}

// The findings that are reported and taken by the choice.
fn reported_of<'f>(
    alloc: Global,
    rules: Levels<'_, '_>,
    choice: Choice,
    found: &'f Vec<Finding>,
) -> Result<Vec<&'f Finding>, AllocError>
    ensures { IfOk result (λ reported. map (λ f. f.now) reported.items
        ≡ filter (is_corrected rules.entry choice) found.now.items) }
{
    let mut reported = Vec::new(alloc);
    for finding in found {
        if is_corrected(rules, choice, finding.kind) {
            reported.push(finding)?;
        }
    }
    Ok(reported)
}

fn is_corrected(rules: Levels<'_, '_>, choice: Choice, kind: Kind) -> bool
    ensures { result ≡ (is_some (level_of rules.entry kind) && takes choice kind) }
{
    rules.level(kind).is_some() && choice.takes(kind)
}
