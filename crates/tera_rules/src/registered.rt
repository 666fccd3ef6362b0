//! The names that a program registers for its templates.

ghost use Rattle.std.specs.Prelude.{◌≡◌, ◌||◌, ℕ, List, bytes_eq, map, string_bytes, IfOk, OnOk};
ghost use Rattle.std.specs.List.{list_any};
ghost use Rattle.tera_rules.specs.Registered.{has_name, is_listed, list_view, may_be};

use std::alloc::{AllocError, Global};
use std::collections::BTreeSet;

/// Names of filters, of tests, of functions or of components.
pub type Names<'a> = BTreeSet<&'a str>;

/// The kinds of what a program registers under names.
#[derive(Clone, Copy)]
pub enum Registry {
    Filters,
    Tests,
    Functions,
}

/// The filters, tests and functions that templates may name, if they are known: all those of the program that renders
/// the templates.
#[derive(Debug, Drop)]
pub struct Registered<'a> {
    filters: Option<Names<'a>>,
    tests: Option<Names<'a>>,
    functions: Option<Names<'a>>,
}

impl<'a> Registered<'a> {
    ghost use Rattle.std.specs.Prelude.{◌≡◌, IfOk};
    ghost use Rattle.tera_rules.specs.Registered.{AreListed, has, list_view, registered_view};

    /// The names in these lists. If a list is absent, every name is taken as registered.
    pub fn of(
        alloc: Global,
        filters: Option<&'a [String]>,
        tests: Option<&'a [String]>,
        functions: Option<&'a [String]>,
    ) -> Result<Registered<'a>, AllocError>
        ensures { IfOk result (λ r.
            AreListed (list_view filters.entry) (list_view tests.entry) (list_view functions.entry)
            (registered_view r)) }
    {
        Ok(Registered {
            filters: listed(alloc, filters)?,
            tests: listed(alloc, tests)?,
            functions: listed(alloc, functions)?,
        })
    }

    /// Whether there may be one of this name. `super` is a function of every program.
    pub fn has(&self, registry: Registry, name: &str) -> bool
        ensures { result ≡ has (registered_view self.now) registry name.now }
    {
        match registry {
            Registry::Filters => may_be(&self.filters, name),
            Registry::Tests => may_be(&self.tests, name),
            Registry::Functions => may_be(&self.functions, name) || name == "super",
        }
    }
}

fn may_be(names: &Option<Names<'_>>, name: &str) -> bool
    ensures { result ≡ may_be names.now name.now }
{
    match names {
        Some(names) => names.contains(name),
        None => true,
    }
}

fn listed<'a>(alloc: Global, list: Option<&'a [String]>) -> Result<Option<Names<'a>>, AllocError>
    ensures { IfOk result (λ names. (n : List ℕ) →
        may_be names n ≡ is_listed (list_view list.entry) n) }
{
    match list {
        Some(list) => Ok(Some(names_in(alloc, list)?)),
        None => Ok(None),
    }
}

fn names_in<'a>(alloc: Global, list: &'a [String]) -> Result<Names<'a>, AllocError>
    ensures { IfOk result (λ names. (n : List ℕ) →
        has_name names n ≡ list_any (λ name. bytes_eq name n) (map string_bytes list.now)) }
{
    let mut names = BTreeSet::new(alloc);
    for name in list {
        put_name(&mut names, name.as_str())?;
    }
    Ok(names)
}

/// Puts the name among the others.
pub fn put_name<'a>(names: &mut Names<'a>, name: &'a str) -> Result<(), AllocError>
    ensures { OnOk result ((n : List ℕ) →
        has_name names.new n ≡ (has_name names.old n || bytes_eq name.now n)) }
{
    names.insert(name)?;
    Ok(())
}
