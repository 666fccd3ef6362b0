//! What a call of a component passes by its attributes.

ghost use Rattle.std.specs.Prelude.{◌≡◌, ◌++◌, ◌∷◌, [], map, IfOk, OnOk};
ghost use Rattle.std.specs.Option.{option_map};
ghost use Rattle.tera_base.specs.ValueView.{key_view, value_view, pairs_view};
ghost use Rattle.tera_ast.specs.Spans.{expr_span};
ghost use Rattle.tera_ast.specs.View.{expression_view, entry_view, entries_view};
ghost use Rattle.tera_rules.specs.Passed.{Whatever, passed_view, constant_of, under_key, by_pairs, by_constant, by_spread, passed_by, passed_by_one};

use std::alloc::{AllocError, Global};
use std::collections::BTreeSet;
use tera_parser::ast::{Expression, MapEntry};
use tera_parser::value::{Key, Map, Span, Value};

/// What an attribute passes.
#[derive(Clone, Copy)]
pub(crate) enum Passed<'a> {
    Named(Named<'a>),
    /// Whatever a spread has that is not a constant map.
    Any,
}

/// A value under a name.
#[derive(Clone, Copy)]
pub(crate) struct Named<'a> {
    pub(crate) name: &'a String,
    /// Where the value is.
    pub(crate) span: &'a Span,
    /// The value, where it is a constant.
    pub(crate) constant: Option<&'a Value>,
}

/// What the attributes pass, in their order.
#[tactic(auto, using(crate::proofs::PassedLemmas::attribute_more))]
pub(crate) fn passed_by<'a>(
    alloc: Global,
    attributes: &'a Vec<MapEntry>,
) -> Result<Vec<Passed<'a>>, AllocError>
    ensures { IfOk result (λ v. map passed_view v.items
        ≡ passed_by (entries_view attributes.now.items)) }
{
    let mut passed = Vec::new(alloc);
    for attribute in attributes {
        push_attribute(&mut passed, attribute)?;
    }
    Ok(passed)
}

fn push_attribute<'a>(
    passed: &mut Vec<Passed<'a>>,
    attribute: &'a MapEntry,
) -> Result<(), AllocError>
    ensures { OnOk result (map passed_view passed.new.items ≡ map passed_view passed.old.items
        ++ passed_by_one (entry_view attribute.now)) }
{
    match attribute {
        MapEntry::KeyValue { key, value } => {
            push_value(passed, key, value.span(), constant_of(value))
        }
        MapEntry::Spread(spread) => push_spread(passed, spread),
    }
}

#[tactic(auto, using(crate::proofs::PassedLemmas::passed_more))]
fn push_value<'a>(
    passed: &mut Vec<Passed<'a>>,
    key: &'a Key,
    span: &'a Span,
    constant: Option<&'a Value>,
) -> Result<(), AllocError>
    ensures { OnOk result (map passed_view passed.new.items ≡ map passed_view passed.old.items
        ++ under_key (key_view key.now) span.now
        (option_map (λ v. value_view v.now) constant.entry)) }
{
    match key {
        Key::String(name) => {
            let named = Named {
                name,
                span,
                constant,
            };
            passed.push(Passed::Named(named))?;
            Ok(())
        }
        Key::I64(_) => Ok(()),
        Key::Bool(_) => Ok(()),
    }
}

fn push_spread<'a>(passed: &mut Vec<Passed<'a>>, spread: &'a Expression) -> Result<(), AllocError>
    ensures { OnOk result (map passed_view passed.new.items ≡ map passed_view passed.old.items
        ++ by_spread (constant_of (expression_view spread.now)) (expr_span (expression_view
        spread.now))) }
{
    match constant_of(spread) {
        Some(value) => push_constant(passed, value, spread.span()),
        None => push_any(passed),
    }
}

fn push_constant<'a>(
    passed: &mut Vec<Passed<'a>>,
    value: &'a Value,
    span: &'a Span,
) -> Result<(), AllocError>
    ensures { OnOk result (map passed_view passed.new.items ≡ map passed_view passed.old.items
        ++ by_constant (value_view value.now) span.now) }
{
    match value {
        Value::Map(map) => push_pairs(passed, map, span),
        _other => push_any(passed),
    }
}

#[tactic(auto, using(crate::proofs::PassedLemmas::passed_more))]
fn push_any(passed: &mut Vec<Passed<'_>>) -> Result<(), AllocError>
    ensures { OnOk result (map passed_view passed.new.items
        ≡ map passed_view passed.old.items ++ (Whatever ∷ [])) }
{
    passed.push(Passed::Any)?;
    Ok(())
}

// Adds the pairs of a map, each at this span.
fn push_pairs<'a>(
    passed: &mut Vec<Passed<'a>>,
    pairs: &'a Map,
    span: &'a Span,
) -> Result<(), AllocError>
    ensures { OnOk result (map passed_view passed.new.items ≡ map passed_view passed.old.items
        ++ by_pairs span.now (pairs_view pairs.now)) }
{
    for (key, value) in pairs.iter() {
        push_value(passed, key, span, Some(value))?;
    }
    Ok(())
}

fn constant_of(expression: &Expression) -> Option<&Value>
    ensures { option_map (λ v. value_view v.now) result
        ≡ constant_of (expression_view expression.now) }
{
    match expression {
        Expression::Const(constant) => Some(constant.node()),
        _other => None,
    }
}

/// The names of what is passed.
#[derive(Drop)]
pub(crate) struct Names {
    pub(crate) under: BTreeSet<String>,
    /// Whether something is passed whose names are not known.
    pub(crate) more: bool,
}

impl Names {
    ghost use Rattle.std.specs.Prelude.{◌≡◌, [], OnOk, ℕ, List, true, if◌then◌else◌};
    ghost use Rattle.std.specs.BTreeSet.{contains_text};
    ghost use Rattle.tera_rules.specs.Passed.{passed_view, is_under, is_whatever, AreNamesOf};

    /// The names if nothing is passed.
    pub(crate) fn none(alloc: Global) -> Names
        ensures { AreNamesOf result [] }
    {
        Names {
            under: BTreeSet::new(alloc),
            more: false,
        }
    }

    /// Adds the name of one more.
    pub(crate) fn add(&mut self, one: &Passed<'_>) -> Result<(), AllocError>
        ensures under { OnOk result ((n : List ℕ) → contains_text self.new.under n
            ≡ (if is_under n (passed_view one.now) then true else contains_text self.old.under n)) }
        ensures more { OnOk result (self.new.more
            ≡ (if is_whatever (passed_view one.now) then true else self.old.more)) }
    {
        match one {
            Passed::Named(named) => {
                self.under.insert(named.name.clone()?)?;
                Ok(())
            }
            Passed::Any => {
                self.more = true;
                Ok(())
            }
        }
    }
}
