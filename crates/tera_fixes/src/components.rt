//! The components that the names of calls were meant to be.

ghost use Rattle.std.specs.Prelude.{◌≡◌, IfOk};
ghost use Rattle.tera_fixes.specs.Components.{AreMeanings, meaning_view};
ghost use Rattle.tera_fixes.specs.Meant.{meant};
ghost use Rattle.tera_fixes.specs.Names.{component_names};

use crate::meant::meant;
use crate::names::component_names;
use std::alloc::{AllocError, Global};
use std::collections::BTreeMap;
use tera_check::Catalogue;

/// What is meant by the words that were compared with the names of the components: one of the names, or none.
pub type Meanings = BTreeMap<String, Option<String>>;

/// The name of the component that is meant by the word, if there is one. The word is compared with the names only if it
/// is not in `meanings`.
pub(crate) fn meant_component(
    alloc: Global,
    catalogue: &Catalogue<'_>,
    meanings: &mut Meanings,
    word: &str,
) -> Result<Option<String>, AllocError>
    requires { AreMeanings (component_names catalogue.now) meanings.old }
    ensures meant { IfOk result (λ name. meaning_view name
        ≡ meant word.now (component_names catalogue.now)) }
    ensures kept { AreMeanings (component_names catalogue.now) meanings.new }
{
    if let Some(name) = meanings.get(word) {
        return copied(alloc, name);
    }
    let name = meant_among_all(alloc, catalogue, word)?;
    let kept = copied(alloc, &name)?;
    meanings.insert(String::from_str(alloc, word)?, kept)?;
    Ok(name)
}

// The same, by a comparison with each name.
fn meant_among_all(
    alloc: Global,
    catalogue: &Catalogue<'_>,
    word: &str,
) -> Result<Option<String>, AllocError>
    ensures { IfOk result (λ name. meaning_view name
        ≡ meant word.now (component_names catalogue.now)) }
{
    let names = component_names(alloc, catalogue)?;
    match meant(alloc, word, names.as_slice())? {
        Some(name) => Ok(Some(String::from_str(alloc, name)?)),
        None => Ok(None),
    }
}

fn copied(alloc: Global, name: &Option<String>) -> Result<Option<String>, AllocError>
    ensures { IfOk result (λ copy. meaning_view copy ≡ meaning_view name.now) }
{
    match name {
        Some(name) => Ok(Some(String::from_str(alloc, name.as_str())?)),
        None => Ok(None),
    }
}
