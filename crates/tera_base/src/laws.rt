//! What equality decides, and that it agrees with hashes. Each function has the law as its promise.

ghost use Rattle.std.specs.Prelude.{◌≡◌, ◌↔◌, IsTrue, fold};
ghost use Rattle.tera_base.specs.contracts.values.KeyHash.TheImpl as derived_hash;
ghost use Rattle.tera_base.specs.ErrorView.{error_view, report_view, note_view};
ghost use Rattle.tera_base.specs.Spanned.{node_of, span_of};
ghost use Rattle.tera_base.specs.ValueView.{key_view, value_view, pairs_view};

use crate::errors::{Error, Note, ReportError};
use crate::utils::Spanned;
use crate::values::{Key, Map, Value};
use std::hash::{Hash, Hasher};

/// Keys are equal exactly where they mean the same.
pub fn same_key(a: &Key, b: &Key) -> bool
    ensures { IsTrue result ↔ (key_view a.now ≡ key_view b.now) }
{
    a == b
}

/// Equal keys hash alike: they take one state of a hasher to one state.
pub fn hashes_agree<H: Hasher>(a: &Key, b: &Key, first: &mut H, second: &mut H)
    ensures alike { key_view a.now ≡ key_view b.now → first.old ≡ second.old →
        first.new ≡ second.new }
    ensures first { first.new ≡ fold H.write first.old (derived_hash.ghosts.hash_input a.now) }
    ensures second { second.new ≡ fold H.write second.old (derived_hash.ghosts.hash_input b.now) }
{
    a.hash(first);
    b.hash(second);
}

/// Values are equal exactly where they mean the same.
#[tactic(auto, using(crate::specs::SameLaws::value_decides))]
pub fn same_value(a: &Value, b: &Value) -> bool
    ensures { IsTrue result ↔ (value_view a.now ≡ value_view b.now) }
{
    a == b
}

/// Maps are equal exactly where their pairs mean the same, in the same order.
#[tactic(auto, using(crate::specs::SameLaws::pairs_decide))]
pub fn same_map(a: &Map, b: &Map) -> bool
    ensures { IsTrue result ↔ (pairs_view a.now ≡ pairs_view b.now) }
{
    a == b
}

/// Nodes with places are equal exactly where the nodes are and the places are the same.
pub fn same_spanned<T: PartialEq>(a: &Spanned<T>, b: &Spanned<T>) -> bool
    ensures { IsTrue result
        ↔ (IsTrue (T.eq (node_of a.now) (node_of b.now)) × (span_of a.now ≡ span_of b.now)) }
{
    a == b
}

/// Notes are equal exactly where they mean the same.
pub fn same_note(a: &Note, b: &Note) -> bool
    ensures { IsTrue result ↔ (note_view a.now ≡ note_view b.now) }
{
    a == b
}

/// Reports are equal exactly where they mean the same: text, place, and notes in their order.
pub fn same_report(a: &ReportError, b: &ReportError) -> bool
    ensures { IsTrue result ↔ (report_view a.now ≡ report_view b.now) }
{
    a == b
}

/// Errors are equal exactly where they mean the same.
pub fn same_error(a: &Error, b: &Error) -> bool
    ensures { IsTrue result ↔ (error_view a.now ≡ error_view b.now) }
{
    a == b
}
