//! The components that documents define, by their names.

ghost use Rattle.std.specs.Prelude.{◌≡◌, ℕ, List, true, IfOk, OnOk};
ghost use Rattle.std.specs.Option.{option_map};
ghost use Rattle.tera_rules.specs.Judged.{known_view};
ghost use Rattle.tera_check.specs.Named.{known_in, defined_in, defined_by, first_named, or_else};
ghost use Rattle.tera_workspace.specs.Kept.{templates_of};
ghost use Rattle.tera_workspace.specs.Names.{contains_name};

use crate::judged::Judged;
use std::alloc::{AllocError, Global};
use std::collections::{BTreeMap, BTreeSet};
use tera_check::{
    Catalogue, Known, Template, add_definitions, add_known, definitions_of, known_at,
};

/// The component of this name in the first document that defines one.
pub(crate) fn first_known<'a>(all: &'a Vec<Judged>, name: &str) -> Option<Known<'a>>
    ensures { option_map known_view result ≡ first_named name.now (defined_by 0 (templates_of all.now.items)) }
{
    for (number, judged) in all.iter().enumerate() {
        for (at, definition) in definitions_of(&judged.template).iter().enumerate() {
            if definition.name.as_str() == name {
                return Some(known_at(number, &judged.template, at, definition));
            }
        }
    }
    None
}

/// The components that the documents define; if several have one name, the first.
pub(crate) fn catalogue_of(alloc: Global, all: &Vec<Judged>) -> Result<Catalogue<'_>, AllocError>
    ensures { IfOk result (λ c. (n : List ℕ) →
        known_in c n ≡ first_named n (defined_by 0 (templates_of all.now.items))) }
{
    let mut catalogue = BTreeMap::new(alloc);
    for (number, judged) in all.iter().enumerate() {
        add_definitions(&mut catalogue, number, &judged.template)?;
    }
    Ok(catalogue)
}

/// The components of these names, each from the first document that defines one.
pub(crate) fn catalogue_for<'a>(
    alloc: Global,
    all: &'a Vec<Judged>,
    needed: &BTreeSet<&str>,
) -> Result<Catalogue<'a>, AllocError>
    ensures { IfOk result (λ c. (n : List ℕ) → contains_name needed.now n ≡ true →
        known_in c n ≡ first_named n (defined_by 0 (templates_of all.now.items))) }
{
    let mut catalogue = BTreeMap::new(alloc);
    for (number, judged) in all.iter().enumerate() {
        add_template(&mut catalogue, needed, number, &judged.template)?;
    }
    Ok(catalogue)
}

// Adds the components of these names that the template defines, except those whose names the catalogue has.
fn add_template<'a>(
    catalogue: &mut Catalogue<'a>,
    needed: &BTreeSet<&str>,
    number: usize,
    template: &'a Template,
) -> Result<(), AllocError>
    ensures { OnOk result ((n : List ℕ) → contains_name needed.now n ≡ true → known_in catalogue.new n
        ≡ or_else (known_in catalogue.old n) (first_named n (defined_in number template.now))) }
{
    for (at, definition) in definitions_of(template).iter().enumerate() {
        if needed.contains(definition.name.as_str()) {
            add_known(catalogue, known_at(number, template, at, definition))?;
        }
    }
    Ok(())
}
