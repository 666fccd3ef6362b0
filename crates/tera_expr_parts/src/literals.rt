//! Arrays and maps, which are constants where all that is in them is.

ghost use Rattle.std.specs.Prelude.{◌≡◌, IfErr, IfOk, OnOk, Some, map};
ghost use Rattle.std.specs.List.{flat_map, fold, list_all};
ghost use Rattle.std.specs.Option.{option_map};
ghost use Rattle.tera_base.specs.Errors.{IsMemory};
ghost use Rattle.tera_base.specs.Values.{NoPairs};
ghost use Rattle.tera_base.specs.ValueView.{pairs_view, value_view};
ghost use Rattle.tera_ast.specs.View.{entries_view, entry_view, expression_view, item_view, items_view};
ghost use Rattle.tera_grammar.specs.expressions.Output.{array_of, map_of};
ghost use Rattle.tera_expr_parts.specs.Folding.{constant_of, is_constant_entry, is_constant_item, item_values, option_list, put_entry};

use std::alloc::{AllocError, Global};
use tera_base::{Error, Map, Span, Value};
use tera_tree::{ArrayEntry, Expression, MapEntry, build};

/// An array, which is a constant where its items are.
pub fn array_or_constant(
    alloc: Global,
    items: Vec<ArrayEntry>,
    span: Span,
) -> Result<Expression, AllocError>
    ensures { IfOk result (λ e. expression_view e ≡ array_of (items_view items.items) span) }
{
    if are_constants(&items) {
        let values = Value::Array(constants(alloc, items)?);
        build::constant(alloc, values, span)
    } else {
        build::array(alloc, items, span)
    }
}

// Whether each item is a constant.
fn are_constants(items: &[ArrayEntry]) -> bool
    ensures { result ≡ list_all (λ i. is_constant_item (item_view i)) items.now }
{
    items.iter().all(is_constant_item)
}

fn is_constant_item(item: &ArrayEntry) -> bool
    ensures { result ≡ is_constant_item (item_view item.now) }
{
    matches!(item, ArrayEntry::Item(Expression::Const(_)))
}

// The values of items that are constants.
fn constants(alloc: Global, items: Vec<ArrayEntry>) -> Result<Vec<Value>, AllocError>
    ensures { IfOk result (λ v.
        map value_view v.items ≡ flat_map item_values (map item_view items.items)) }
{
    let mut values = Vec::new(alloc);
    for item in items {
        if let Some(value) = item_value(item) {
            values.push(value)?;
        }
    }
    Ok(values)
}

// The value of an item that is a constant.
fn item_value(item: ArrayEntry) -> Option<Value>
    ensures { option_list (option_map value_view result) ≡ item_values (item_view item) }
{
    match item {
        ArrayEntry::Item(item) => constant(item),
        ArrayEntry::Spread(_spread) => None,
    }
}

/// The value of a constant.
pub fn constant(expression: Expression) -> Option<Value>
    ensures { option_map value_view result ≡ constant_of (expression_view expression) }
{
    let (value, _span) = expression.into_constant()?.into_parts();
    Some(value)
}

/// A map, which is a constant where its entries are. The only refusal is `Memory`.
pub fn map_or_constant(
    alloc: Global,
    entries: Vec<MapEntry>,
    span: Span,
) -> Result<Expression, Error>
    ensures gives { IfOk result (λ e.
        expression_view e ≡ map_of (entries_view entries.items) span) }
    ensures refusal { IfErr result IsMemory }
{
    if are_constant_entries(&entries) {
        let pairs = Value::Map(constant_pairs(alloc, entries)?);
        Ok(build::constant(alloc, pairs, span)?)
    } else {
        Ok(build::map(alloc, entries, span)?)
    }
}

// Whether each entry is a pair of a key and a constant.
fn are_constant_entries(entries: &[MapEntry]) -> bool
    ensures { result ≡ list_all (λ e. is_constant_entry (entry_view e)) entries.now }
{
    entries.iter().all(is_constant_entry)
}

fn is_constant_entry(entry: &MapEntry) -> bool
    ensures { result ≡ is_constant_entry (entry_view entry.now) }
{
    matches!(
        entry,
        MapEntry::KeyValue {
            value: Expression::Const(_),
            ..
        }
    )
}

// The pairs of entries that are constants.
fn constant_pairs(alloc: Global, entries: Vec<MapEntry>) -> Result<Map, Error>
    ensures pairs { IfOk result (λ m.
        pairs_view m ≡ fold put_entry NoPairs (map entry_view entries.items)) }
    ensures refusal { IfErr result IsMemory }
{
    let mut pairs = Map::new(alloc);
    for entry in entries {
        put_entry(&mut pairs, entry)?;
    }
    Ok(pairs)
}

// Puts the pair of an entry that is a constant.
fn put_entry(pairs: &mut Map, entry: MapEntry) -> Result<(), Error>
    ensures puts { OnOk result (pairs_view pairs.new
        ≡ put_entry (pairs_view pairs.old) (entry_view entry)) }
    ensures refusal { IfErr result IsMemory }
{
    let MapEntry::KeyValue { key, value } = entry else {
        return Ok(());
    };
    let Some(value) = constant(value) else {
        return Ok(());
    };
    let _before = pairs.insert(key, value)?;
    Ok(())
}
