//! The keys of a map.

ghost use Rattle.std.specs.Prelude.{◌≡◌, [], ◌∷◌, ◌++◌, false, IfOk, OnOk, OnErr, is_some, length, map, position};
ghost use Rattle.std.specs.List.{list_any, IsDistinct};
ghost use Rattle.tera_base.specs.Pairs.{same_key};
ghost use Rattle.tera_base.specs.ValueView.{key_view};

use crate::values::Key;
use indexmap::IndexSet;
use std::alloc::{AllocError, Global};
use std::hash::{BuildHasherDefault, DefaultHasher};
use std::marker::Model;

// SipHash: keys of a source that were chosen so that their hashes are equal are harder to find than under the
// hash that a set has by itself.
type KeySet = IndexSet<Key, BuildHasherDefault<DefaultHasher>>;

/// Keys in the order in which they came, none twice. They are apart from the map, so that a value is small; the first
/// key takes memory for it.
#[derive(Debug, Drop)]
pub(crate) struct Keys {
    alloc: Global,
    set: Option<Box<KeySet>>,
}

impl Model for Keys {
    ghost use Rattle.std.specs.Prelude.{List};
    ghost use Rattle.std.specs.Coded.{coded_list};
    ghost use Rattle.tera_base.specs.declared.values.Key.{Key as Stored};
    ghost use Rattle.tera_base.specs.contracts.values.Key.{the_row};
    ghost use Rattle.tera_base.specs.Keys.{keys_in};

    ghost Value = { List Stored };

    ghost coded = { coded_list the_row.coded };

    ghost view = { λ k. keys_in k.set };
}

impl Keys {
    /// No keys.
    pub fn new(alloc: Global) -> Keys
        ensures { result ≡ [] }
    {
        Keys { alloc, set: None }
    }

    /// The keys, in the order in which they came.
    #[tactic(auto, using(crate::proofs::Puts::distinct_derived))]
    pub fn as_slice(&self) -> &[Key]
        ensures keys { result.now ≡ self.now }
        ensures distinct { IsDistinct same_key self.now }
    {
        match &self.set {
            Some(set) => set.as_slice(),
            None => &[],
        }
    }

    /// How many keys there are.
    pub fn len(&self) -> usize
        ensures { result ≡ length self.now }
    {
        self.as_slice().len()
    }

    /// The place of a key.
    #[tactic(auto, using(crate::proofs::Puts::place_derived, crate::proofs::Puts::found_derived))]
    pub fn place_of(&self, key: &Key) -> Option<usize>
        ensures place { result ≡ position (same_key key.now) self.now }
        ensures found { is_some result ≡ list_any (same_key key.now) self.now }
    {
        match &self.set {
            Some(set) => set.get_index_of(key),
            None => None,
        }
    }

    /// Puts a new key last.
    #[tactic(auto, using(crate::proofs::Puts::new_key))]
    pub fn push(&mut self, key: Key) -> Result<(), AllocError>
        requires { list_any (same_key key) self.old ≡ false }
        ensures pushed { OnOk result (self.new ≡ self.old ++ key ∷ []) }
        ensures unchanged { OnErr result (self.new ≡ self.old) }
    {
        match &mut self.set {
            Some(set) => {
                set.insert(key)?;
            }
            None => {
                let mut set = IndexSet::with_hasher(self.alloc, BuildHasherDefault::new());
                set.insert(key)?;
                self.set = Some(Box::new(self.alloc, set)?);
            }
        }
        Ok(())
    }

    /// The keys once more.
    pub fn copied(&self) -> Result<Keys, AllocError>
        ensures same { IfOk result (λ c. map key_view c ≡ map key_view self.now) }
        ensures len { IfOk result (λ c. length c ≡ length self.now) }
    {
        let set = match &self.set {
            Some(set) => Some(Box::new(self.alloc, copy_set(set)?)?),
            None => None,
        };
        Ok(Keys {
            alloc: self.alloc,
            set,
        })
    }
}

#[tactic(auto, using(crate::proofs::KeysAndValues::copied_keys, crate::proofs::KeysAndValues::copied_len))]
fn copy_set(keys: &KeySet) -> Result<KeySet, AllocError>
    ensures same { IfOk result (λ c. map key_view c.keys ≡ map key_view keys.now.keys) }
    ensures len { IfOk result (λ c. length c.keys ≡ length keys.now.keys) }
{
    let copies = keys.clone()?;
    Ok(copies)
}
