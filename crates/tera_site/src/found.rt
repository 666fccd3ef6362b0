//! What is found of names, added to what else is found in the templates.

ghost use Rattle.std.specs.Prelude.{◌≡◌, ◌++◌, IfOk, OnOk, map};
ghost use Rattle.std.specs.List.{flat_map};
ghost use Rattle.std.specs.List.Sorted.{IsPermutation};
ghost use Rattle.tera_findings.specs.Findings.{finding_view};
ghost use Rattle.tera_check.specs.OrderAndStatus.{IsInOrder};
ghost use Rattle.tera_site.specs.Named.{due_names};
ghost use Rattle.tera_site.specs.Found.{AddsAt, AddsIf, AddsNames, IsWith, is_named};
ghost use Rattle.tera_site.specs.Pages.{page_of};
ghost use Rattle.tera_site.specs.Sites.{used_names};
ghost use Rattle.tera_site.specs.Views.{around_view, names_of};

use crate::named::names_found;
use crate::pages::page_of;
use crate::site::{Around, Site};
use std::alloc::{AllocError, Global};
use std::collections::BTreeSet;
use tera_check::{Finding, Found, Template, put_in_order};

/// The names of the templates of a site.
#[derive(Drop)]
pub struct SiteNames {
    /// For each template its name, if it is in the site.
    pub names: Vec<Option<String>>,
    /// The names of templates that are in the site and were not read.
    pub others: BTreeSet<String>,
}

/// Adds what is found of the names of templates to what else is found in the templates, which is in the same order. It
/// is added to each of the first `checked` templates that is in the site itself.
pub fn add_names<'s>(
    alloc: Global,
    names: &'s SiteNames,
    templates: &'s Vec<Template>,
    checked: usize,
    all: &mut Vec<Found<'_>>,
) -> Result<(), AllocError>
    ensures { OnOk result (AddsNames names.now templates.now.items checked all.old.items all.new.items) }
{
    let site = Site::of(alloc, &names.names, &names.others, templates)?;
    for number in 0..checked {
        add_if_named(alloc, site.around(number), names, number, templates, all)?;
    }
    Ok(())
}

// Adds it to what is found in the template of this number, if that is in the site.
fn add_if_named(
    alloc: Global,
    around: Around<'_, '_>,
    names: &SiteNames,
    number: usize,
    templates: &Vec<Template>,
    all: &mut Vec<Found<'_>>,
) -> Result<(), AllocError>
    ensures { OnOk result (AddsIf (is_named names.now number) (around_view around.entry)
        templates.now.items number all.old.items all.new.items) }
{
    if is_named(names, number) {
        add_at(alloc, around, number, templates, all)
    } else {
        Ok(())
    }
}

// Whether the template of this number is in the site.
fn is_named(names: &SiteNames, number: usize) -> bool
    ensures { result ≡ is_named names.now number }
{
    matches!(names.names.get(number), Some(Some(_)))
}

// Adds it to what is found in the template of this number.
fn add_at(
    alloc: Global,
    around: Around<'_, '_>,
    number: usize,
    templates: &Vec<Template>,
    all: &mut Vec<Found<'_>>,
) -> Result<(), AllocError>
    ensures { OnOk result (AddsAt (around_view around.entry) templates.now.items number
        all.old.items all.new.items) }
{
    let Some(template) = templates.get(number) else {
        return Ok(());
    };
    match all.get_mut(number) {
        Some(found) => add_to(alloc, around, template, found),
        None => Ok(()),
    }
}

// Adds what is found of the names that the template has to what is found in it.
fn add_to(
    alloc: Global,
    around: Around<'_, '_>,
    template: &Template,
    found: &mut Found<'_>,
) -> Result<(), AllocError>
    ensures { OnOk result (IsWith (around_view around.entry) template.now found.old found.new) }
{
    add_found(alloc, around, template, &mut found.findings)
}

/// Adds what is found of the names that the template has to what else is found in it, in the order of the places.
pub fn add_found(
    alloc: Global,
    around: Around<'_, '_>,
    template: &Template,
    findings: &mut Vec<Finding>,
) -> Result<(), AllocError>
    ensures ordered { OnOk result (IsInOrder findings.new.items) }
    ensures found { OnOk result (IsPermutation (map finding_view findings.old.items
        ++ due_names (around_view around.entry) template.now) (map finding_view findings.new.items)) }
{
    let mut names = names_found(alloc, around, template)?;
    findings.append(&mut names)?;
    put_in_order(findings)?;
    Ok(())
}

/// The names that the templates use: for each template what it extends and includes.
pub fn used_names(alloc: Global, templates: &Vec<Template>) -> Result<Vec<&str>, AllocError>
    ensures { IfOk result (λ v. names_of v.items ≡ flat_map used_names (map page_of templates.now.items)) }
{
    let mut used = Vec::new(alloc);
    for template in templates {
        push_used(alloc, &mut used, template)?;
    }
    Ok(used)
}

fn push_used<'a>(
    alloc: Global,
    used: &mut Vec<&'a str>,
    template: &'a Template,
) -> Result<(), AllocError>
    ensures { OnOk result (names_of used.new.items
        ≡ names_of used.old.items ++ used_names (page_of template.now)) }
{
    let page = page_of(alloc, template)?;
    page.push_used(used)
}
