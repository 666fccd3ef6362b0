//! Suggestions for findings, if the form has them.

ghost use Rattle.std.specs.Prelude.{◌≡◌, IfOk, map};
ghost use Rattle.std.specs.Option.{option_map};
ghost use Rattle.tera_check.specs.Named.{known_in};
ghost use Rattle.tera_fixes.specs.Components.{AreMeanings};
ghost use Rattle.tera_fixes.specs.Names.{component_names};
ghost use Rattle.tera_jobs.specs.Helps.{AreHelps, AreHelpsIn, IsHelpOf, help_in};

use std::alloc::{AllocError, Global};
use std::collections::BTreeMap;
use tera_check::{Catalogue, Found, Template, catalogue_of};
use tera_files::Source;
use tera_fixes::{Meanings, Suggestion, suggestions_by};
use tera_options::job::Form;

/// For each template the suggestion for each of its findings, if there is one.
pub(crate) type Helps = Vec<Vec<Option<Suggestion>>>;

/// The suggestions for what is found in the templates, if the form has them. There is none for a template without its
/// source.
pub(crate) fn helps_for(
    alloc: Global,
    form: Form,
    templates: &Vec<Template>,
    sources: &[Source],
    all: &[Found<'_>],
) -> Result<Helps, AllocError>
    ensures { IfOk result (λ helps.
        AreHelps form templates.now.items sources.now all.now helps.items) }
{
    match form {
        Form::Full => helps_of(alloc, templates, sources, all),
        Form::Concise | Form::Json | Form::Github | Form::Sarif => Ok(Vec::new(alloc)),
    }
}

fn helps_of(
    alloc: Global,
    templates: &Vec<Template>,
    sources: &[Source],
    all: &[Found<'_>],
) -> Result<Helps, AllocError>
    ensures { IfOk result (λ helps.
        AreHelpsIn templates.now.items sources.now all.now helps.items) }
{
    let catalogue = catalogue_of(alloc, templates)?;
    let mut meanings = BTreeMap::new(alloc);
    let mut helps = Vec::new(alloc);
    for (number, found) in all.iter().enumerate() {
        let help = help_of(
            alloc,
            &catalogue,
            &mut meanings,
            templates.get(number),
            sources.get(number),
            found,
        )?;
        helps.push(help)?;
    }
    Ok(helps)
}

// The suggestions for the findings in one template. `meanings` has what is meant by the words that were compared
// before.
fn help_of(
    alloc: Global,
    catalogue: &Catalogue<'_>,
    meanings: &mut Meanings,
    template: Option<&Template>,
    source: Option<&Source>,
    found: &Found<'_>,
) -> Result<Vec<Option<Suggestion>>, AllocError>
    requires { AreMeanings (component_names catalogue.now) meanings.old }
    ensures help { IfOk result (IsHelpOf catalogue.now (option_map (λ t. t.now) template.entry)
        (option_map (λ s. s.now) source.entry) found.now) }
    ensures kept { AreMeanings (component_names catalogue.now) meanings.new }
{
    let (Some(template), Some(source)) = (template, source) else {
        return Ok(Vec::new(alloc));
    };
    let mut findings = Vec::new(alloc);
    for finding in &found.findings {
        findings.push(finding)?;
    }
    let text = source.text.as_str();
    suggestions_by(
        alloc,
        meanings,
        catalogue,
        template,
        text,
        findings.as_slice(),
    )
}

/// The title of the suggestion for finding `at` of template `number`.
pub(crate) fn help_at(helps: &[Vec<Option<Suggestion>>], number: usize, at: usize) -> Option<&str>
    ensures { option_map (λ t. t.now) result ≡ help_in helps.now number at }
{
    match helps.get(number)?.get(at)? {
        Some(suggestion) => Some(suggestion.title.as_str()),
        None => None,
    }
}
