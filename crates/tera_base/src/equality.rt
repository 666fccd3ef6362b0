//! Equality of values and maps.

ghost use Rattle.std.specs.Prelude.{◌≡◌};
ghost use Rattle.std.specs.Cmp.Lexicographic.{pointwise};
ghost use Rattle.std.specs.Cmp.{on_equiv, on_per, partial_equiv_from_equiv};
ghost use Rattle.tera_base.specs.ValueView.{value_view, vals_view, pairs_view};
ghost use Rattle.tera_base.specs.Pairs.{same_key};
ghost use Rattle.tera_base.specs.Same.{value_eq, vals_eq, pairs_eq};
ghost use Rattle.tera_base.specs.SameLaws.{value_equivalence, pairs_equivalence};

use crate::values::{Key, Map, MapOf, Value};

impl PartialEq for Value {
    ghost eq = { λ v w. value_eq (value_view v) (value_view w) };

    ghost laws = { on_per value_view (partial_equiv_from_equiv value_equivalence) };

    fn eq(&self, other: &Value) -> bool {
        same(self, other)
    }
}

impl Eq for Value {
    ghost laws = { on_equiv value_view value_equivalence };
}

/// Maps are equal where their pairs are, in the same order.
impl PartialEq for MapOf<Value> {
    ghost eq = { λ m n. pairs_eq (pairs_view m) (pairs_view n) };

    ghost laws = { on_per pairs_view (partial_equiv_from_equiv pairs_equivalence) };

    fn eq(&self, other: &MapOf<Value>) -> bool {
        same_pairs(self, other)
    }
}

impl Eq for MapOf<Value> {
    ghost laws = { on_equiv pairs_view pairs_equivalence };
}

#[cycle(same)]
fn same(a: &Value, b: &Value) -> bool
    ensures { result ≡ value_eq (value_view a.now) (value_view b.now) }
{
    match (a, b) {
        (Value::Undefined, Value::Undefined) | (Value::None, Value::None) => true,
        (Value::Bool(x), Value::Bool(y)) => x == y,
        (Value::I64(x), Value::I64(y)) => x == y,
        (Value::U64(x), Value::U64(y)) => x == y,
        (Value::I128(x), Value::I128(y)) => x == y,
        (Value::U128(x), Value::U128(y)) => x == y,
        (Value::String(x), Value::String(y)) => x.as_str() == y.as_str(),
        (Value::Bytes(x), Value::Bytes(y)) => x.as_slice() == y.as_slice(),
        (Value::Array(x), Value::Array(y)) => same_values(x.as_slice(), y.as_slice()),
        (Value::Map(x), Value::Map(y)) => same_pairs(x, y),
        _ => false,
    }
}

#[cycle(same)]
fn same_values(a: &[Value], b: &[Value]) -> bool
    ensures { result ≡ vals_eq (vals_view a.now) (vals_view b.now) }
{
    let mut others = b.iter();
    for x in a {
        match others.next() {
            Some(y) => {
                if !same(x, y) {
                    return false;
                }
            }
            None => return false,
        }
    }
    others.next().is_none()
}

#[cycle(same)]
#[tactic(auto, using(crate::proofs::Equals::keys_same, crate::proofs::Equals::keys_differ))]
fn same_pairs(a: &Map, b: &Map) -> bool
    ensures { result ≡ pairs_eq (pairs_view a.now) (pairs_view b.now) }
{
    same_keys(a.keys(), b.keys()) && same_values(a.values(), b.values())
}

#[tactic(auto, using(crate::proofs::Equals::derived_keys))]
fn same_keys(a: &[Key], b: &[Key]) -> bool
    ensures { result ≡ pointwise same_key a.now b.now }
{
    a == b
}
