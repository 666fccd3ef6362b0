//! Names that were met, each with where it is.

ghost use Rattle.std.specs.Prelude.{◌≡◌, IfErr, IfOk, OnOk};
ghost use Rattle.std.specs.Option.{option_copied};
ghost use Rattle.tera_base.specs.Errors.{IsMemory};
ghost use Rattle.tera_expect.specs.Taking.{name_in};
ghost use Rattle.tera_grammar.specs.statements.Reading.Meeting.{group, locate, nothing_seen};
ghost use Rattle.tera_tags.specs.Known.{grouped_of, located_of, seen_of};

use std::alloc::{AllocError, Global};
use std::collections::BTreeMap;
use std::default::Emptied;
use tera_base::{Error, Span};

/// Names that were met, each with where it is.
pub type Known = BTreeMap<String, Span>;

/// Names of parameters, under those of their components.
pub(crate) type Groups = BTreeMap<String, Known>;

/// Where the name is, if it was met.
pub fn place_of<'b>(names: &'b Known, name: &str) -> Option<&'b Span>
    ensures { option_copied result ≡ located_of names.now name.now }
{
    names.get(name)
}

/// Keeps a name, with where it is.
pub fn keep_name(alloc: Global, names: &mut Known, name: &str, span: &Span) -> Result<(), Error>
    ensures kept { OnOk result
        (located_of names.new ≡ locate (name_in name.now span.now) (located_of names.old)) }
    ensures refusal { IfErr result IsMemory }
{
    let name = String::from_str(alloc, name)?;
    let _before = names.insert(name, span.copied())?;
    Ok(())
}

/// Keeps the names of the parameters of a component.
pub(crate) fn keep_parameters(
    alloc: Global,
    groups: &mut Groups,
    component: &str,
    names: Known,
) -> Result<(), Error>
    ensures kept { OnOk result (grouped_of groups.new
        ≡ group component.now (located_of names) (grouped_of groups.old)) }
    ensures refusal { IfErr result IsMemory }
{
    let component = String::from_str(alloc, component)?;
    let _before = groups.insert(component, names)?;
    Ok(())
}

/// The names that a template defines, each with where it is in the tag that opens its block or its definition.
#[derive(Debug, PartialEq, Eq, Drop)]
pub struct Names {
    /// Of each block its name.
    pub blocks: BTreeMap<String, Span>,
    /// Of each component its name, at the place of the last part: for `ui.button` that of `button`.
    pub components: BTreeMap<String, Span>,
    /// Under the name of each component the names of its parameters, that of the rest parameter among them.
    pub parameters: BTreeMap<String, BTreeMap<String, Span>>,
}

impl Names {
    /// No names.
    pub fn new(alloc: Global) -> Names
        ensures { seen_of result ≡ nothing_seen }
    {
        Names {
            blocks: Known::new(alloc),
            components: Known::new(alloc),
            parameters: Groups::new(alloc),
        }
    }
}

impl Clone for Names {
    ghost is_clone = { λ a b. seen_of b ≡ seen_of a };

    fn clone(&self) -> Result<Names, AllocError> {
        Ok(Names {
            blocks: copy(&self.blocks)?,
            components: copy(&self.components)?,
            parameters: copy_groups(&self.parameters)?,
        })
    }
}

fn copy(names: &Known) -> Result<Known, AllocError>
    ensures { IfOk result (λ c. located_of c ≡ located_of names.now) }
{
    let mut copies = Known::emptied(names)?;
    'entries: for (name, span) in names.iter() {
        let _before = copies.insert(name.clone()?, span.copied())?;
    }
    Ok(copies)
}

fn copy_groups(groups: &Groups) -> Result<Groups, AllocError>
    ensures { IfOk result (λ c. grouped_of c ≡ grouped_of groups.now) }
{
    let mut copies = Groups::emptied(groups)?;
    'entries: for (component, names) in groups.iter() {
        let component = component.clone()?;
        let _before = copies.insert(component, copy(names)?)?;
    }
    Ok(copies)
}
