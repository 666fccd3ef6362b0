//! Contexts: names with values.

ghost use Rattle.std.specs.Prelude.{◌≡◌, OnOk, OnErr, IfErr, [], map};
ghost use Rattle.std.specs.Cmp.Lexicographic.{slice_cmp};
ghost use Rattle.std.specs.List.Sorted.{IsStrictlySortedBy};
ghost use Rattle.std.specs.Map.{keys_of};
ghost use Rattle.std.specs.Option.{option_map};
ghost use Rattle.std.specs.Ordering.{nat_cmp};
ghost use Rattle.tera_base.specs.Contexts.{put, found, context_view, named_value};
ghost use Rattle.tera_base.specs.ValueView.{value_view};
ghost use Rattle.tera_base.specs.Errors.{IsMemory};

use crate::errors::Error;
use crate::values::Value;
use std::alloc::Global;
use std::collections::BTreeMap;
use std::collections::btree_map::Iter;

/// Names in byte order, each with its value.
#[derive(Debug, Drop)]
pub struct Context {
    values: BTreeMap<String, Value>,
    alloc: Global,
}

impl Context {
    /// A context without names. It takes no memory.
    pub fn new(alloc: Global) -> Context
        ensures { context_view result ≡ [] }
    {
        Context {
            values: BTreeMap::new(alloc),
            alloc,
        }
    }

    /// Puts a value under a name, in the place of a value that was put there before. The only refusal is
    /// `Memory`: it drops the value, and nothing changes.
    #[tactic(auto, using(crate::proofs::ContextViews::put_entry))]
    pub fn insert_value(&mut self, name: &str, value: Value) -> Result<(), Error>
        ensures pairs { OnOk result (context_view self.new
            ≡ put name.now (value_view value) (context_view self.old)) }
        ensures unchanged { OnErr result (context_view self.new ≡ context_view self.old) }
        ensures refusal { IfErr result IsMemory }
    {
        let name = String::from_str(self.alloc, name)?;
        drop(self.values.insert(name, value)?);
        Ok(())
    }

    /// The value under a name.
    #[tactic(auto, using(crate::proofs::ContextViews::found_entry))]
    pub fn get(&self, name: &str) -> Option<&Value>
        ensures { option_map (λ v. value_view v.now) result
            ≡ found name.now (context_view self.now) }
    {
        self.values.get(name)
    }

    /// The names with their values, in byte order. No name comes twice.
    pub fn iter(&self) -> Iter<'_, String, Value>
        ensures pairs { map named_value result ≡ context_view self.now }
        ensures ordered { IsStrictlySortedBy (slice_cmp nat_cmp) (keys_of (context_view self.now)) }
    {
        self.values.iter()
    }
}
