//! Values, and the keys of their maps.

ghost use Rattle.std.specs.Prelude.{◌≡◌, ◌↔◌, [], ◌∷◌, ◌++◌, false, IsTrue, IfOk, OnOk, OnErr, IfErr, length, map, option_copied};
ghost use Rattle.std.specs.Iterator.Adapters.{zip_first, zip_second};
ghost use Rattle.std.specs.List.{zip, list_any, IsDistinct};
ghost use Rattle.std.specs.Slice.Iter.{iter_rest};
ghost use Rattle.tera_base.specs.Errors.{IsMemory};
ghost use Rattle.tera_base.specs.Pairs.{same_key, put, value_at};
ghost use Rattle.tera_base.specs.ValueView.{key_view};

use crate::errors::Error;
use crate::keys::Keys;
use std::alloc::{AllocError, Global};
use std::iter::Zip;
use std::marker::Model;
use std::mem::replace;
use std::slice;

/// What a value of a map is found by.
#[derive(Debug, PartialEq, Eq, Hash, Drop)]
pub enum Key {
    String(String),
    I64(i64),
    Bool(bool),
}

/// A constant of a template.
#[derive(Debug, Drop)]
pub enum Value {
    Undefined,
    None,
    Bool(bool),
    I64(i64),
    U64(u64),
    I128(i128),
    U128(u128),
    String(String),
    Bytes(Vec<u8>),
    Array(Vec<Value>),
    Map(Map),
}

/// Keys in the order in which they came, each with its value.
pub type Map = MapOf<Value>;

/// Keys in the order in which they came, each with what belongs to it: the keys in a set, the others at
/// the same places.
#[derive(Debug, Drop)]
pub struct MapOf<V> {
    keys: Keys,
    values: Vec<V>,
}

impl<V> Model for MapOf<V> {
    ghost use Rattle.std.specs.Prelude.{◌≡◌, List, length};
    ghost use Rattle.std.specs.List.{zip};
    ghost use Rattle.std.specs.Coded.{coded_list, coded×};
    ghost use Rattle.tera_base.specs.declared.values.Key.{Key};
    ghost use Rattle.tera_base.specs.contracts.values.Key.{the_row};

    ghost Value = { List (Key × V) };

    ghost coded = { coded_list (coded× the_row.coded V.code) };

    ghost view = { λ m. zip m.keys m.values.items };

    ghost invariant = { λ m. length m.values.items ≡ length m.keys };
}

impl<V> MapOf<V> {
    ghost use Rattle.std.specs.Map.{keys_of, values_of};

    /// A map without pairs.
    pub fn new(alloc: Global) -> MapOf<V>
        ensures { result ≡ [] }
    {
        MapOf {
            keys: Keys::new(alloc),
            values: Vec::new(alloc),
        }
    }

    /// Puts a pair: a new key goes last; a key that is there keeps its place and takes the value, and the
    /// value before is answered. The only refusal is `Memory`: it drops the pair, and nothing changes.
    pub fn insert(&mut self, key: Key, value: V) -> Result<Option<V>, Error>
    where
        V: Drop,
        ensures before { IfOk result (λ before. before ≡ value_at key self.old) }
        ensures pairs { OnOk result (self.new ≡ put key value self.old) }
        ensures unchanged { OnErr result (self.new ≡ self.old) }
        ensures refusal { IfErr result IsMemory }
    {
        put_pair(&mut self.keys, &mut self.values, key, value)
    }

    /// What belongs to the key.
    pub fn get(&self, key: &Key) -> Option<&V>
        ensures { option_copied result ≡ value_at key.now self.now }
    {
        match self.keys.place_of(key) {
            Some(place) => Some(&self.values[place]),
            None => None,
        }
    }

    /// Whether there is no pair.
    pub fn is_empty(&self) -> bool
        ensures { IsTrue result ↔ (self.now ≡ []) }
    {
        self.len() == 0
    }

    /// How many pairs there are.
    pub fn len(&self) -> usize
        ensures { result ≡ length self.now }
    {
        self.keys.len()
    }

    /// The pairs, in the order in which their keys came. No key comes twice.
    pub fn iter(&self) -> Zip<slice::Iter<'_, Key>, slice::Iter<'_, V>>
        ensures pairs { zip (iter_rest (zip_first result)) (iter_rest (zip_second result))
            ≡ self.now }
        ensures distinct { IsDistinct same_key (keys_of self.now) }
    {
        self.keys.as_slice().iter().zip(self.values.iter())
    }

    /// The keys, in the order in which they came.
    pub(crate) fn keys(&self) -> &[Key]
        ensures { result.now ≡ keys_of self.now }
    {
        self.keys.as_slice()
    }

    /// What belongs to the keys, in their order.
    pub(crate) fn values(&self) -> &[V]
        ensures { result.now ≡ values_of self.now }
    {
        self.values.as_slice()
    }

    /// The allocator with which it grows.
    pub(crate) fn allocator(&self) -> Global {
        *self.values.allocator()
    }

    /// Copies of the keys, each with what is at its place.
    pub(crate) fn with_values(&self, values: Vec<V>) -> Result<MapOf<V>, AllocError>
    where
        V: Drop,
        requires { length values.items ≡ length self.now }
        ensures keys { IfOk result (λ m.
            map key_view (keys_of m) ≡ map key_view (keys_of self.now)) }
        ensures values { IfOk result (λ m. values_of m ≡ values.items) }
    {
        let keys = self.keys.copied()?;
        Ok(MapOf { keys, values })
    }
}

// Puts a pair among keys and values that are at the same places.
#[tactic(auto, using(crate::proofs::Puts::put_found, crate::proofs::Puts::put_new, crate::proofs::Puts::value_found, crate::proofs::Puts::value_new, crate::proofs::Puts::place_within))]
fn put_pair<V: Drop>(
    keys: &mut Keys,
    values: &mut Vec<V>,
    key: Key,
    value: V,
) -> Result<Option<V>, Error>
    requires { length values.old.items ≡ length keys.old }
    ensures beside { length values.new.items ≡ length keys.new }
    ensures before { IfOk result (λ before. before ≡ value_at key (zip keys.old values.old.items)) }
    ensures pairs { OnOk result (zip keys.new values.new.items
        ≡ put key value (zip keys.old values.old.items)) }
    ensures unchanged { OnErr result (zip keys.new values.new.items
        ≡ zip keys.old values.old.items) }
    ensures refusal { IfErr result IsMemory }
{
    match keys.place_of(&key) {
        Some(place) => {
            drop(key);
            Ok(Some(replace(&mut values[place], value)))
        }
        None => {
            push_pair(keys, values, key, value)?;
            Ok(None)
        }
    }
}

// Puts a new key and its value last.
fn push_pair<V: Drop>(
    keys: &mut Keys,
    values: &mut Vec<V>,
    key: Key,
    value: V,
) -> Result<(), AllocError>
    requires { list_any (same_key key) keys.old ≡ false }
    ensures keys { OnOk result (keys.new ≡ keys.old ++ key ∷ []) }
    ensures values { OnOk result (values.new.items ≡ values.old.items ++ value ∷ []) }
    ensures same_keys { OnErr result (keys.new ≡ keys.old) }
    ensures same_values { OnErr result (values.new.items ≡ values.old.items) }
{
    values.reserve(1)?;
    keys.push(key)?;
    values.push(value)?;
    Ok(())
}
