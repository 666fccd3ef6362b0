//! Documents as they were read and checked.

ghost use Rattle.std.specs.Prelude.{◌≡◌, ◌++◌, IfOk, OnOk, map, string_bytes, MatchResult};
ghost use Rattle.std.specs.List.{flat_map};
ghost use Rattle.tera_tree.specs.View.{definition_view};
ghost use Rattle.tera_check.specs.Alike.{name_called};
ghost use Rattle.tera_templates.specs.Lost.{are_open};
ghost use Rattle.tera_rules.specs.Pending.{seen};
ghost use Rattle.tera_workspace.specs.Kept.{HasNames, IsNewlyRead, IsNumbered, IsNewPlace, sources_of, templates_of};
ghost use Rattle.tera_workspace.specs.Sources.{AreAscending};

use crate::diagnostics::Diagnostic;
use crate::lined_text::LinedText;
use crate::name_list::NameList;
use std::alloc::{AllocError, Global};
use tera_check::{Template, calls_of, is_open, read_template, tree_of};
use tera_parser::ast::{ComponentCall, ComponentDefinition};
use tera_parser::value::Spanned;
use tera_site::KeptPage;

/// How many faults of a document are reported at most.
const MOST_FAULTS: usize = 100;

/// A document: the text that was read, and what was reported for it.
#[derive(Drop)]
pub(crate) struct Judged {
    pub(crate) text: LinedText,
    pub(crate) template: Template,
    // The names of the components that it defines and calls, in their order.
    pub(crate) names: NameList,
    // What it says of other templates by their names.
    pub(crate) page: KeptPage,
    // Whether its findings may be others than those that were reported.
    pub(crate) stale: bool,
    pub(crate) reported: Vec<Diagnostic>,
}

impl Judged {
    /// Reads the document of this name and text, for which nothing was reported yet.
    pub(crate) fn read(alloc: Global, name: &str, text: &str) -> Result<Judged, AllocError>
        ensures { IfOk result (IsNewlyRead name.now text.now) }
    {
        let lined = LinedText::of(alloc, text)?;
        let template = read_template(alloc, name, text, MOST_FAULTS)?;
        let names = names_of(alloc, &template)?;
        let page = KeptPage::of(alloc, &template)?;
        let names = NameList::of(names);
        Ok(Judged {
            text: lined,
            template,
            names,
            page,
            stale: true,
            reported: Vec::new(alloc),
        })
    }
}

/// Whether one of the documents may define more components than its tree has.
pub(crate) fn are_open(all: &Vec<Judged>) -> bool
    ensures { result ≡ are_open (templates_of all.now.items) }
{
    all.iter().any(|judged| is_open(&judged.template))
}

/// Adds the names of the components that have these definitions.
pub(crate) fn push_defined(
    names: &mut Vec<String>,
    definitions: &[ComponentDefinition],
) -> Result<(), AllocError>
    ensures { OnOk result (map string_bytes names.new.items ≡ map string_bytes names.old.items
        ++ map (λ d. d.name) (map definition_view definitions.now)) }
{
    for definition in definitions {
        names.push(definition.name.clone()?)?;
    }
    Ok(())
}

fn names_of(alloc: Global, template: &Template) -> Result<Vec<String>, AllocError>
    ensures { IfOk result (λ v. HasNames (map string_bytes v.items) template.now) }
{
    let mut names = Vec::new(alloc);
    let Some(output) = tree_of(template) else {
        return Ok(names);
    };
    push_defined(&mut names, output.component_definitions.as_slice())?;
    push_called(&mut names, &calls_of(alloc, output)?)?;
    Ok(names)
}

// Adds the names of the components that are called.
fn push_called(
    names: &mut Vec<String>,
    calls: &Vec<&Spanned<ComponentCall>>,
) -> Result<(), AllocError>
    ensures { OnOk result (map string_bytes names.new.items ≡ map string_bytes names.old.items
        ++ flat_map name_called (map seen calls.now.items)) }
{
    for call in calls {
        names.push(call.node().name.clone()?)?;
    }
    Ok(())
}

/// The number of the document of this name; or else the number that it would have in the order of the names.
pub(crate) fn place_of(all: &Vec<Judged>, name: &str) -> Result<usize, usize>
    requires { AreAscending (sources_of all.now.items) }
    ensures { MatchResult result (IsNumbered name.now all.now.items) (IsNewPlace name.now all.now.items) }
{
    all.binary_search_by(|judged| judged.template.file.as_str().cmp(name))
}
