//! What is to be reported for documents.

ghost use Rattle.std.specs.Prelude.{◌≡◌, ℕ, List, true, IfOk, length, map, string_bytes};
ghost use Rattle.std.specs.Bool.{Decides};
ghost use Rattle.tera_templates.specs.Lost.{are_open};
ghost use Rattle.tera_check.specs.Named.{known_in, first_named, defined_by};
ghost use Rattle.tera_workspace.specs.Kept.{IsWhole, AllWhole, NeedsAll, sources_of, templates_of, reported_of};
ghost use Rattle.tera_workspace.specs.Names.{is_among};
ghost use Rattle.tera_workspace.specs.Sources.{AreAscending};
ghost use Rattle.tera_workspace.specs.Reported.{IsNews, AreNews, AreOfOthers, reported_one, reported_each};

use crate::catalogue::catalogue_for;
use crate::diagnostics::{Diagnostic, diagnostics_of};
use crate::judged::{Judged, are_open};
use std::alloc::{AllocError, Global};
use std::collections::BTreeSet;
use tera_check::{Catalogue, findings_of};
use text_edits::Encoding;

/// What is to be reported for each document: what is found in it now, if it is stale.
pub(crate) fn news_of(
    alloc: Global,
    encoding: Encoding,
    all: &Vec<Judged>,
) -> Result<Vec<Option<Vec<Diagnostic>>>, AllocError>
    requires { AreAscending (sources_of all.now.items) }
    ensures as_many { IfOk result (λ v. length v.items ≡ length all.now.items) }
    ensures news { AllWhole all.now.items → IfOk result (λ v. AreNews encoding all.now.items v.items) }
{
    let needed = needed_of(alloc, all)?;
    let catalogue = catalogue_for(alloc, all, &needed)?;
    let is_open = are_open(all);
    let mut news = Vec::new(alloc);
    for (number, judged) in all.iter().enumerate() {
        news.push(news_of_one(alloc, encoding, &catalogue, is_open, all, number, judged)?)?;
    }
    Ok(news)
}

fn news_of_one(
    alloc: Global,
    encoding: Encoding,
    catalogue: &Catalogue<'_>,
    is_open: bool,
    all: &Vec<Judged>,
    number: usize,
    judged: &Judged,
) -> Result<Option<Vec<Diagnostic>>, AllocError>
    requires ordered { AreAscending (sources_of all.now.items) }
    requires is_open { is_open ≡ are_open (templates_of all.now.items) }
    requires known { judged.now.stale ≡ true → (n : List ℕ) →
        is_among n judged.now.names ≡ true →
        known_in catalogue.now n ≡ first_named n (defined_by 0 (templates_of all.now.items)) }
    ensures { IsWhole judged.now → IfOk result (λ news. IsNews encoding all.now.items number judged.now news) }
{
    if !judged.stale {
        return Ok(None);
    }
    let findings = findings_of(alloc, catalogue, is_open, number, &judged.template)?;
    let diagnostics = diagnostics_of(alloc, encoding, all, judged, findings)?;
    Ok(Some(diagnostics))
}

// The names of the components that the findings of stale documents depend on.
fn needed_of(alloc: Global, all: &Vec<Judged>) -> Result<BTreeSet<&str>, AllocError>
    ensures { IfOk result (λ s. NeedsAll s all.now.items) }
{
    let mut needed = BTreeSet::new(alloc);
    for judged in all {
        if judged.stale {
            for name in judged.names.as_slice() {
                needed.insert(name.as_str())?;
            }
        }
    }
    Ok(needed)
}

/// The names of the documents whose findings differ from those that were reported, in their order.
pub(crate) fn names_of(
    alloc: Global,
    all: &Vec<Judged>,
    news: &Vec<Option<Vec<Diagnostic>>>,
) -> Result<Vec<String>, AllocError>
    requires { length news.now.items ≡ length all.now.items }
    ensures { IfOk result (λ v. AreOfOthers all.now.items news.now.items (map string_bytes v.items)) }
{
    let mut names = Vec::new(alloc);
    for (number, judged) in all.iter().enumerate() {
        if !is_reported_already(judged, &news[number]) {
            names.push(judged.template.file.clone()?)?;
        }
    }
    Ok(names)
}

// Whether what is to be reported for the document is what was reported.
fn is_reported_already(judged: &Judged, news: &Option<Vec<Diagnostic>>) -> bool
    ensures { Decides result (reported_of (reported_one judged.now news.now) ≡ reported_of judged.now) }
{
    match news {
        Some(diagnostics) => *diagnostics == judged.reported,
        None => true,
    }
}

/// Keeps what is to be reported, as reported.
pub(crate) fn report(all: &mut Vec<Judged>, news: Vec<Option<Vec<Diagnostic>>>)
    requires { length news.items ≡ length all.old.items }
    ensures { all.new.items ≡ reported_each all.old.items news.items }
{
    let mut news = news;
    for number in 0..all.len() {
        if let Some(diagnostics) = news[number].take() {
            let judged = &mut all[number];
            judged.reported = diagnostics;
            judged.stale = false;
        }
    }
}
