//! Names that are searched often.

ghost use Rattle.std.specs.Prelude.{◌≡◌, ◌<◌, map, string_bytes};
ghost use Rattle.std.specs.List.{list_any};
ghost use Rattle.tera_workspace.specs.NameBits.{bit_of};
ghost use Rattle.tera_workspace.specs.Names.{is_among};

use std::marker::Model;

/// Names in their order. That none of some others is among them is mostly known without reading one.
#[derive(Drop)]
pub(crate) struct NameList {
    names: Vec<String>,
    // The bit of each name is set.
    bits: u128,
}

impl Model for NameList {
    ghost use Rattle.std.specs.Prelude.{ℕ, List, map, string_bytes};
    ghost use Rattle.tera_workspace.specs.NameBits.{HasBits};

    ghost Value = { List (List ℕ) };

    ghost view = { λ l. map string_bytes l.names.items };

    ghost invariant = { λ l. HasBits l.bits (map string_bytes l.names.items) };
}

impl NameList {
    pub(crate) fn of(names: Vec<String>) -> NameList
        ensures { result ≡ map string_bytes names.items }
    {
        let mut bits = 0;
        for name in &names {
            bits |= 1 << bit_of(name.as_str());
        }
        NameList { names, bits }
    }

    pub(crate) fn as_slice(&self) -> &[String]
        ensures { map string_bytes result.now ≡ self.now }
    {
        self.names.as_slice()
    }

    /// Whether one of the others is among the names.
    pub(crate) fn has_any_of(&self, others: &NameList) -> bool
        ensures { result ≡ list_any (λ n. is_among n self.now) others.now }
    {
        let shared = self.bits & others.bits;
        shared != 0 && have_common(&self.names, &others.names)
    }
}

// The number of the bit for a name.
fn bit_of(name: &str) -> u32
    ensures bit { result ≡ bit_of name.now }
    ensures within { result < 128 }
{
    let mut bit = 0;
    for byte in name.as_bytes() {
        bit = (bit * 37 + u32::from(*byte)) % 128;
    }
    bit
}

// Whether one of the others is among the names.
fn have_common(names: &Vec<String>, others: &Vec<String>) -> bool
    ensures { result ≡ list_any (λ n. is_among n (map string_bytes names.now.items))
        (map string_bytes others.now.items) }
{
    for name in others {
        if names.contains(name) {
            return true;
        }
    }
    false
}
