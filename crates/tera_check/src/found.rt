//! What is found in templates together.

ghost use Rattle.std.specs.Prelude.{◌≡◌, IfOk};
ghost use Rattle.tera_check.specs.Found.{AreFound, IsFoundOf, known_by};
ghost use Rattle.tera_templates.specs.Lost.{are_open};
ghost use Rattle.tera_check.specs.Named.{known_in};

use crate::catalogue::{Catalogue, catalogue_of};
use crate::checked::{faults_of, findings_of, put_in_order};
use std::alloc::{AllocError, Global};
use tera_findings::Finding;
use tera_templates::{Template, is_open};

/// What is found in one template.
#[derive(Drop)]
pub struct Found<'a> {
    /// The name of its file.
    pub file: &'a str,
    pub findings: Vec<Finding>,
}

impl<'a> Found<'a> {
    ghost use Rattle.std.specs.Prelude.{OnOk, map};
    ghost use Rattle.tera_check.specs.Added.{IsWith};
    ghost use Rattle.tera_findings.specs.Findings.{finding_view};

    /// Adds more findings to those of the template, all in the order of the places.
    pub(crate) fn add(&mut self, mut more: Vec<Finding>) -> Result<(), AllocError>
        ensures { OnOk result (IsWith (map finding_view more.items) self.old self.new) }
    {
        self.findings.append(&mut more)?;
        put_in_order(&mut self.findings)?;
        Ok(())
    }
}

/// What is found in each of the templates, in their order, over the components that all of them define. Those after the
/// first `checked` are the library: only their faults are found.
pub fn all_found<'a>(
    alloc: Global,
    templates: &'a Vec<Template>,
    checked: usize,
) -> Result<Vec<Found<'a>>, AllocError>
    ensures { IfOk result (λ all.
        AreFound (known_by templates.now.items) (are_open templates.now.items) checked 0
        templates.now.items all.items) }
{
    let catalogue = catalogue_of(alloc, templates)?;
    let is_open = are_open(templates);
    let mut all = Vec::new(alloc);
    for (number, template) in templates.iter().enumerate() {
        all.push(Found {
            file: template.file.as_str(),
            findings: found_in(alloc, &catalogue, is_open, checked, number, template)?,
        })?;
    }
    Ok(all)
}

// Whether one of them may define more components than are known.
fn are_open(templates: &Vec<Template>) -> bool
    ensures { result ≡ are_open templates.now.items }
{
    for template in templates {
        if is_open(template) {
            return true;
        }
    }
    false
}

fn found_in(
    alloc: Global,
    catalogue: &Catalogue<'_>,
    is_open: bool,
    checked: usize,
    number: usize,
    template: &Template,
) -> Result<Vec<Finding>, AllocError>
    ensures { IfOk result (λ findings.
        IsFoundOf (known_in catalogue.now) is_open checked number template.now findings.items) }
{
    if number < checked {
        findings_of(alloc, catalogue, is_open, number, template)
    } else {
        faults_of(alloc, template)
    }
}
