//! What is suggested for the findings of a template.

ghost use Rattle.std.specs.Prelude.{◌≡◌, ◌∷◌, ◌++◌, List, filter, length, map, IfOk};
ghost use Rattle.std.specs.Option.{option_map};
ghost use Rattle.tera_templates.specs.Templates.{tree_of};
ghost use Rattle.tera_findings.specs.declared.finding.Finding.{Finding as AFinding};
ghost use Rattle.tera_fixes.specs.All.{AreCallsIn, AreSuggestedIn, are_too_many, is_suggestible, gets_suggestion, suggested};
ghost use Rattle.tera_fixes.specs.Components.{AreMeanings};
ghost use Rattle.tera_fixes.specs.Names.{component_names};
ghost use Rattle.tera_fixes.specs.Suggestions.{context_view, suggestion_view};

use crate::components::Meanings;
use crate::suggestions::{Context, Suggestion, suggestion_by};
use std::alloc::{AllocError, Global};
use std::collections::BTreeMap;
use tera_check::{Catalogue, Finding, Kind, Template, calls_of, tree_of};
use tera_parser::ast::ComponentCall;
use tera_parser::value::Spanned;

/// The most findings of a template for which something is suggested, since many names may be compared for each.
const MOST: usize = 100;

/// What is suggested for each of the findings of the template, which has this source: for the first 100 of the kinds
/// that may have a suggestion, and nothing for the others.
pub fn suggestions_in(
    alloc: Global,
    catalogue: &Catalogue<'_>,
    template: &Template,
    source: &str,
    findings: &[&Finding],
) -> Result<Vec<Option<Suggestion>>, AllocError>
    ensures { IfOk result (λ v. AreSuggestedIn catalogue.now template.now source.now
        (map (λ f. f.now) findings.now) (map (option_map suggestion_view) v.items)) }
{
    let mut meanings = BTreeMap::new(alloc);
    suggestions_by(alloc, &mut meanings, catalogue, template, source, findings)
}

/// The same as `suggestions_in`, but a name that is in `meanings` is not compared again. Names of components that no
/// template defines are added to it. At first it is empty, and all calls with it have the same components.
pub fn suggestions_by(
    alloc: Global,
    meanings: &mut Meanings,
    catalogue: &Catalogue<'_>,
    template: &Template,
    source: &str,
    findings: &[&Finding],
) -> Result<Vec<Option<Suggestion>>, AllocError>
    requires { AreMeanings (component_names catalogue.now) meanings.old }
    ensures suggestions { IfOk result (λ v. AreSuggestedIn catalogue.now template.now source.now
        (map (λ f. f.now) findings.now) (map (option_map suggestion_view) v.items)) }
    ensures kept { AreMeanings (component_names catalogue.now) meanings.new }
{
    let calls = calls_in(alloc, template)?;
    let context = Context {
        catalogue,
        calls: calls.as_slice(),
        source,
    };
    suggestions_for(alloc, meanings, context, findings)
}

// The calls in the tree of the template, if it has one.
fn calls_in(alloc: Global, template: &Template) -> Result<Vec<&Spanned<ComponentCall>>, AllocError>
    ensures { IfOk result (λ calls. AreCallsIn (tree_of template.now) calls.items) }
{
    match tree_of(template) {
        Some(output) => calls_of(alloc, output),
        None => Ok(Vec::new(alloc)),
    }
}

fn suggestions_for(
    alloc: Global,
    meanings: &mut Meanings,
    context: Context<'_, '_>,
    findings: &[&Finding],
) -> Result<Vec<Option<Suggestion>>, AllocError>
    requires { AreMeanings (component_names context.catalogue.now) meanings.old }
    ensures suggestions { IfOk result (λ v. map (option_map suggestion_view) v.items
        ≡ suggested (context_view context.entry) 100 (map (λ f. f.now) findings.now)) }
    ensures kept { AreMeanings (component_names context.entry.catalogue.now) meanings.new }
{
    let mut suggestions = Vec::new(alloc);
    let mut left = MOST;
    for finding in findings {
        left = push_if_left(alloc, &mut suggestions, meanings, context, left, finding)?;
    }
    Ok(suggestions)
}

// Adds what is suggested for the finding, if its kind may have a suggestion and `left` is not 0. The result is how many
// are left then.
fn push_if_left(
    alloc: Global,
    suggestions: &mut Vec<Option<Suggestion>>,
    meanings: &mut Meanings,
    context: Context<'_, '_>,
    left: usize,
    finding: &Finding,
) -> Result<usize, AllocError>
    requires { AreMeanings (component_names context.catalogue.now) meanings.old }
    ensures suggestions { IfOk result (λ then. (rest : List AFinding) →
        map (option_map suggestion_view) suggestions.new.items
        ++ suggested (context_view context.entry) then rest
        ≡ map (option_map suggestion_view) suggestions.old.items
        ++ suggested (context_view context.entry) left (finding.now ∷ rest)) }
    ensures kept { AreMeanings (component_names context.entry.catalogue.now) meanings.new }
{
    if !gets_suggestion(left, finding.kind) {
        suggestions.push(None)?;
        return Ok(left);
    }
    let suggestion = suggestion_by(alloc, meanings, context, finding)?;
    suggestions.push(suggestion)?;
    Ok(left.saturating_sub(1))
}

fn gets_suggestion(left: usize, kind: Kind) -> bool
    ensures { result ≡ gets_suggestion left kind }
{
    0 < left && is_suggestible(kind)
}

/// Whether more of the findings may have a suggestion than get one.
pub fn are_too_many(findings: &[&Finding]) -> bool
    ensures { result ≡ are_too_many (map (λ f. f.now) findings.now) }
{
    suggestible_count(findings) > MOST
}

// How many of the findings may have a suggestion.
fn suggestible_count(findings: &[&Finding]) -> usize
    ensures { result ≡ length (filter (λ f. is_suggestible f.kind) (map (λ f. f.now) findings.now)) }
{
    findings
        .iter()
        .filter(|finding| is_suggestible(finding.kind))
        .count()
}

// Whether a finding of the kind may have a suggestion.
fn is_suggestible(kind: Kind) -> bool
    ensures { result ≡ is_suggestible kind }
{
    matches!(
        kind,
        Kind::UndefinedComponent | Kind::UnknownArgument | Kind::RepeatedArgument
    )
}
