//! The components that templates define.

ghost use Rattle.std.specs.Prelude.{◌≡◌, ◌∷◌, [], ℕ, List, IfOk, OnOk};
ghost use Rattle.tera_tree.specs.View.{definition_view};
ghost use Rattle.tera_rules.specs.Judged.{known_view};
ghost use Rattle.tera_check.specs.Named.{known_in, span_at, known_at, defined_in, defined_by, first_named, or_else};

use std::alloc::{AllocError, Global};
use std::collections::BTreeMap;
use tera_findings::first_span;
use tera_parser::ast::ComponentDefinition;
use tera_parser::value::Span;
use tera_rules::Known;
use tera_templates::{Template, definitions_of};

/// The components that some templates define, by their names. If several have one name, it is the first.
pub type Catalogue<'a> = BTreeMap<String, Known<'a>>;

/// The components that the templates define. A template with a fault defines those of its tree ([`tree_of`]), if it has
/// one.
pub fn catalogue_of<'a>(
    alloc: Global,
    templates: &'a Vec<Template>,
) -> Result<Catalogue<'a>, AllocError>
    ensures { IfOk result (λ c. (n : List ℕ) → known_in c n
        ≡ first_named n (defined_by 0 templates.now.items)) }
{
    let mut catalogue = BTreeMap::new(alloc);
    for (number, template) in templates.iter().enumerate() {
        add_definitions(&mut catalogue, number, template)?;
    }
    Ok(catalogue)
}

/// Adds the components that the template of this number defines, except those whose names the catalogue has.
pub fn add_definitions<'a>(
    catalogue: &mut Catalogue<'a>,
    number: usize,
    template: &'a Template,
) -> Result<(), AllocError>
    ensures { OnOk result ((n : List ℕ) → known_in catalogue.new n
        ≡ or_else (known_in catalogue.old n) (first_named n (defined_in number template.now))) }
{
    for (at, definition) in definitions_of(template).iter().enumerate() {
        let known = known_at(number, template, at, definition);
        add_known(catalogue, known)?;
    }
    Ok(())
}

/// What is known of a component: `number` is the number of its template, and `at` the number of the definition there.
#[tactic(auto, using(crate::proofs::CatalogueLemmas::parameters_after))]
pub fn known_at<'a>(
    number: usize,
    template: &'a Template,
    at: usize,
    definition: &'a ComponentDefinition,
) -> Known<'a>
    ensures { known_view result ≡ known_at number template.now at (definition_view definition.now) }
{
    Known {
        definition,
        template: number,
        file: template.file.as_str(),
        span: defined_at(template, at),
        parameters: template.parameters_at.get(definition.name.as_str()),
        shows_body: !template.bodies_hidden.contains(definition.name.as_str()),
    }
}

/// Adds the component, unless there is one of its name.
pub fn add_known<'a>(catalogue: &mut Catalogue<'a>, known: Known<'a>) -> Result<(), AllocError>
    ensures { OnOk result ((n : List ℕ) → known_in catalogue.new n
        ≡ or_else (known_in catalogue.old n) (first_named n (known_view known.entry ∷ []))) }
{
    let name = known.definition.name.as_str();
    if catalogue.contains_key(name) {
        return Ok(());
    }
    catalogue.insert(known.definition.name.clone()?, known)?;
    Ok(())
}

/// Where the template defines the component of this number.
pub(crate) fn defined_at(template: &Template, at: usize) -> Span
    ensures { result ≡ span_at template.now at }
{
    match template.defined_at.get(at) {
        Some(span) => span.copied(),
        None => first_span(),
    }
}
