//! The components that templates define, in a stable order.

ghost use Rattle.std.specs.Prelude.{◌≡◌, ◌++◌, map, IfOk, OnOk};
ghost use Rattle.std.specs.List.{All};
ghost use Rattle.std.specs.List.Sorted.{IsPermutation};
ghost use Rattle.tera_rules.specs.Judged.{known_view};
ghost use Rattle.tera_check.specs.Named.{defined_in, defined_by};
ghost use Rattle.tera_tree.specs.Infos.{info_of, info_view};
ghost use Rattle.tera_tree.specs.View.{definition_view};
ghost use Rattle.tera_catalogue.specs.Listed.{listed, listed_view, rank_of, rank_cmp, IsInOrder};
ghost use Rattle.tera_catalogue.specs.Offered.{IsOffered};

use crate::offers::offered;
use std::alloc::{AllocError, Global};
use std::cmp::Ordering;
use std::collections::BTreeMap;
use tera_check::{Known, Place, Template, definitions_of, known_at};
use tera_parser::ast::{ComponentDefinition, ComponentInfo};
use tera_parser::value::Span;

/// A component that is listed.
#[derive(Drop)]
pub struct Component<'a> {
    /// Its name, parameters and metadata.
    pub info: ComponentInfo,
    /// Whether something is in its body.
    pub has_body: bool,
    /// The file that defines it.
    pub file: &'a str,
    /// Where it is defined in the file.
    pub place: Place,
    /// Where its parameters are in the file, by their names.
    pub parameters: Option<&'a BTreeMap<String, Span>>,
    /// A call of it to copy, unless the parser does not accept it.
    pub call: Option<String>,
}

/// The components that the templates define, sorted by name, then by file, then by place. A template with a fault
/// defines those of its tree ([`tera_check::tree_of`]), if it has one. A component that is defined again is listed
/// again.
pub fn components_of<'a>(
    alloc: Global,
    templates: &'a Vec<Template>,
) -> Result<Vec<Component<'a>>, AllocError>
    ensures all { IfOk result (λ v. IsPermutation (map listed (defined_by 0 templates.now.items))
        (map listed_view v.items)) }
    ensures ordered { IfOk result (λ v. IsInOrder (map listed_view v.items)) }
    ensures offered { IfOk result (λ v. All IsOffered v.items) }
{
    let mut known = all_known(alloc, templates)?;
    put_in_order(&mut known)?;
    let components = components_in(alloc, &known)?;
    Ok(components)
}

// The components with what is listed of them.
fn components_in<'a>(
    alloc: Global,
    known: &Vec<Known<'a>>,
) -> Result<Vec<Component<'a>>, AllocError>
    ensures as_listed { IfOk result (λ v. map listed_view v.items
        ≡ map listed (map known_view known.now.items)) }
    ensures offered { IfOk result (λ v. All IsOffered v.items) }
{
    let mut components = Vec::new(alloc);
    for one in known {
        components.push(component_of(alloc, one)?)?;
    }
    Ok(components)
}

fn component_of<'a>(alloc: Global, known: &Known<'a>) -> Result<Component<'a>, AllocError>
    ensures as_listed { IfOk result (λ c. listed_view c ≡ listed (known_view known.now)) }
    ensures offered { IfOk result IsOffered }
{
    let info = info_of(alloc, known.definition)?;
    let call = offered(alloc, &info)?;
    Ok(Component {
        info,
        has_body: !known.definition.body.is_empty(),
        file: known.file,
        place: Place::of(&known.span),
        parameters: known.parameters,
        call,
    })
}

fn info_of(alloc: Global, definition: &ComponentDefinition) -> Result<ComponentInfo, AllocError>
    ensures { IfOk result (λ i. info_view i ≡ info_of (definition_view definition.now)) }
{
    match ComponentInfo::from_definition(alloc, definition) {
        Ok(info) => Ok(info),
        // The only error is an allocation failure.
        Err(_) => Err(AllocError),
    }
}

// Sorts them by name, file, line and column.
fn put_in_order(known: &mut Vec<Known<'_>>) -> Result<(), AllocError>
    ensures ordered { OnOk result (IsInOrder (map listed (map known_view known.new.items))) }
    ensures same { IsPermutation known.old.items known.new.items }
{
    known.sort_by(|one, other| order(one, other))?;
    Ok(())
}

fn order(one: &Known<'_>, other: &Known<'_>) -> Ordering
    ensures { result
        ≡ rank_cmp (rank_of (listed (known_view one.now))) (rank_of (listed (known_view other.now))) }
{
    let names = one
        .definition
        .name
        .as_str()
        .cmp(&other.definition.name.as_str());
    let files = one.file.cmp(&other.file);
    let (place, other) = (Place::of(&one.span), Place::of(&other.span));
    let lines = place.line.cmp(&other.line);
    let columns = place.column.cmp(&other.column);
    names.then(files).then(lines).then(columns)
}

// All components, template by template.
fn all_known<'a>(alloc: Global, templates: &'a Vec<Template>) -> Result<Vec<Known<'a>>, AllocError>
    ensures { IfOk result (λ v. map known_view v.items ≡ defined_by 0 templates.now.items) }
{
    let mut known = Vec::new(alloc);
    for (number, template) in templates.iter().enumerate() {
        push_defined(&mut known, number, template)?;
    }
    Ok(known)
}

// Adds the components of the template.
fn push_defined<'a>(
    known: &mut Vec<Known<'a>>,
    number: usize,
    template: &'a Template,
) -> Result<(), AllocError>
    ensures { OnOk result (map known_view known.new.items
        ≡ map known_view known.old.items ++ defined_in number template.now) }
{
    for (at, definition) in definitions_of(template).iter().enumerate() {
        known.push(known_at(number, template, at, definition))?;
    }
    Ok(())
}
