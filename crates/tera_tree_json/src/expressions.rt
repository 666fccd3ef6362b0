//! Expressions.

ghost use Rattle.std.specs.Prelude.{◌∷◌, [], ◌++◌, codes, string_bytes};
ghost use Rattle.json.specs.Json.{array, object};
ghost use Rattle.json.specs.Token.{key};
ghost use Rattle.json.specs.Tree.{json_tokens};
ghost use Rattle.tera_base.specs.ValueView.{key_view, value_view};
ghost use Rattle.tera_ast.specs.View.{expression_view, name_view, maybe_view, args_view, item_view, items_view, entry_view, entries_view, nodes_view};
ghost use Rattle.tera_ast.specs.declared.ast.ComponentCall.{out-ComponentCall};
ghost use Rattle.tera_tree_json.specs.Constants.{key_json, value_json};
ghost use Rattle.tera_tree_json.specs.Forms.{name_json, const_json, array_json, map_json, var_json, get_attr_json, get_item_json, slice_json, call_json, ternary_json, comprehension_json, component_call_json, function_call_json, unary_json, binary_json, part_json, pair_json};
ghost use Rattle.tera_tree_json.specs.TreeJson.{expr_json, maybe_json, args_json, items_json, item_json, entries_json, entry_json, nodes_json};
ghost use Rattle.json_members.specs.Written.{Puts, PutsJson};

use crate::constants::{put_key, put_value};
use crate::fields::{begin, begin_at, binary_name, put_flag, put_name, unary_name};
use crate::nodes::put_nodes;
use json::Writer;
use json_members::put_text;
use std::alloc::AllocError;
use std::collections::BTreeMap;
use tera_base::{Key, Span, Value};
use tera_tree::{
    Array, ArrayEntry, BinaryOperation, ComponentCall, Expression, Filter, FunctionCall, GetAttr,
    GetItem, ListComprehension, Map, MapEntry, Slice, Ternary, Test, UnaryOperation,
};

/// An expression.
#[cycle(tree)]
pub(crate) fn put_expression(out: &mut Writer, e: &Expression) -> Result<(), AllocError>
    ensures { PutsJson result out.old out.new (expr_json (expression_view e.now)) }
{
    match e {
        Expression::Const(s) => put_const(out, s.span(), s.node()),
        Expression::Array(s) => put_array(out, s.span(), s.node()),
        Expression::Map(s) => put_map(out, s.span(), s.node()),
        Expression::Var(s) => put_var(out, s.span(), s.node().name.as_str()),
        Expression::GetAttr(s) => put_get_attr(out, s.span(), s.node()),
        Expression::GetItem(s) => put_get_item(out, s.span(), s.node()),
        Expression::Slice(s) => put_slice(out, s.span(), s.node()),
        Expression::Filter(s) => put_filter(out, s.span(), s.node()),
        Expression::Test(s) => put_test(out, s.span(), s.node()),
        Expression::Ternary(s) => put_ternary(out, s.span(), s.node()),
        Expression::ListComprehension(s) => put_comprehension(out, s.span(), s.node()),
        Expression::ComponentCall(s) => put_component_call(out, s.span(), s.node()),
        Expression::FunctionCall(s) => put_function_call(out, s.span(), s.node()),
        Expression::UnaryOperation(s) => put_unary(out, s.span(), s.node()),
        Expression::BinaryOperation(s) => put_binary(out, s.span(), s.node()),
    }
}

fn put_const(out: &mut Writer, span: &Span, value: &Value) -> Result<(), AllocError>
    ensures { PutsJson result out.old out.new
        (const_json span.now (value_json (value_view value.now))) }
{
    begin_at(out, "Const", span)?;
    out.key("value")?;
    put_value(out, value)?;
    out.end_object()
}

fn put_var(out: &mut Writer, span: &Span, name: &str) -> Result<(), AllocError>
    ensures { PutsJson result out.old out.new (var_json span.now name.now) }
{
    begin_at(out, "Var", span)?;
    put_text(out, "name", name)?;
    out.end_object()
}

#[cycle(tree)]
fn put_array(out: &mut Writer, span: &Span, list: &Array) -> Result<(), AllocError>
    ensures { PutsJson result out.old out.new
        (array_json span.now (items_json (items_view list.now.items.items))) }
{
    begin_at(out, "Array", span)?;
    out.key("items")?;
    put_items(out, &list.items)?;
    out.end_object()
}

#[cycle(tree)]
fn put_map(out: &mut Writer, span: &Span, pairs: &Map) -> Result<(), AllocError>
    ensures { PutsJson result out.old out.new
        (map_json span.now (entries_json (entries_view pairs.now.entries.items))) }
{
    begin_at(out, "Map", span)?;
    out.key("entries")?;
    put_entries(out, &pairs.entries)?;
    out.end_object()
}

#[cycle(tree)]
fn put_get_attr(out: &mut Writer, span: &Span, field: &GetAttr) -> Result<(), AllocError>
    ensures { PutsJson result out.old out.new (get_attr_json span.now
        (expr_json (expression_view field.now.expr)) (string_bytes field.now.name)
        field.now.optional) }
{
    begin_at(out, "GetAttr", span)?;
    put_part(out, "expr", &field.expr)?;
    put_text(out, "name", field.name.as_str())?;
    put_flag(out, "optional", field.optional)?;
    out.end_object()
}

#[cycle(tree)]
fn put_get_item(out: &mut Writer, span: &Span, field: &GetItem) -> Result<(), AllocError>
    ensures { PutsJson result out.old out.new (get_item_json span.now
        (expr_json (expression_view field.now.expr)) (expr_json (expression_view field.now.sub_expr))
        field.now.optional) }
{
    begin_at(out, "GetItem", span)?;
    put_part(out, "expr", &field.expr)?;
    put_part(out, "sub_expr", &field.sub_expr)?;
    put_flag(out, "optional", field.optional)?;
    out.end_object()
}

#[cycle(tree)]
fn put_slice(out: &mut Writer, span: &Span, part: &Slice) -> Result<(), AllocError>
    ensures { PutsJson result out.old out.new (slice_json span.now
        (expr_json (expression_view part.now.expr)) (maybe_json (maybe_view part.now.start))
        (maybe_json (maybe_view part.now.end)) (maybe_json (maybe_view part.now.step))
        part.now.optional) }
{
    begin_at(out, "Slice", span)?;
    put_part(out, "expr", &part.expr)?;
    put_maybe(out, "start", &part.start)?;
    put_maybe(out, "end", &part.end)?;
    put_maybe(out, "step", &part.step)?;
    put_flag(out, "optional", part.optional)?;
    out.end_object()
}

#[cycle(tree)]
fn put_filter(out: &mut Writer, span: &Span, filter: &Filter) -> Result<(), AllocError>
    ensures { PutsJson result out.old out.new (call_json (codes "Filter") span.now
        (expr_json (expression_view filter.now.expr)) (string_bytes filter.now.name)
        (args_json (args_view filter.now.kwargs.entries))) }
{
    begin_at(out, "Filter", span)?;
    put_part(out, "expr", &filter.expr)?;
    put_text(out, "name", filter.name.as_str())?;
    put_arguments(out, &filter.kwargs)?;
    out.end_object()
}

#[cycle(tree)]
fn put_test(out: &mut Writer, span: &Span, test: &Test) -> Result<(), AllocError>
    ensures { PutsJson result out.old out.new (call_json (codes "Test") span.now
        (expr_json (expression_view test.now.expr)) (string_bytes test.now.name)
        (args_json (args_view test.now.kwargs.entries))) }
{
    begin_at(out, "Test", span)?;
    put_part(out, "expr", &test.expr)?;
    put_text(out, "name", test.name.as_str())?;
    put_arguments(out, &test.kwargs)?;
    out.end_object()
}

#[cycle(tree)]
fn put_ternary(out: &mut Writer, span: &Span, choice: &Ternary) -> Result<(), AllocError>
    ensures { PutsJson result out.old out.new (ternary_json span.now
        (expr_json (expression_view choice.now.expr))
        (expr_json (expression_view choice.now.true_expr))
        (expr_json (expression_view choice.now.false_expr))) }
{
    begin_at(out, "Ternary", span)?;
    put_part(out, "expr", &choice.expr)?;
    put_part(out, "true_expr", &choice.true_expr)?;
    put_part(out, "false_expr", &choice.false_expr)?;
    out.end_object()
}

#[cycle(tree)]
fn put_comprehension(
    out: &mut Writer,
    span: &Span,
    list: &ListComprehension,
) -> Result<(), AllocError>
    ensures { PutsJson result out.old out.new (comprehension_json span.now
        (expr_json (expression_view list.now.expr)) (name_json (name_view list.now.key))
        (string_bytes list.now.value) (expr_json (expression_view list.now.target))
        (maybe_json (maybe_view list.now.condition))) }
{
    begin_at(out, "ListComprehension", span)?;
    put_part(out, "expr", &list.expr)?;
    put_name(out, "key", &list.key)?;
    put_text(out, "value", list.value.as_str())?;
    put_part(out, "target", &list.target)?;
    put_maybe(out, "condition", &list.condition)?;
    out.end_object()
}

#[cycle(tree)]
fn put_component_call(out: &mut Writer, span: &Span, call: &ComponentCall) -> Result<(), AllocError>
    ensures { let c = out-ComponentCall call.now in
        PutsJson result out.old out.new (component_call_json span.now (string_bytes c.name)
        (entries_json (entries_view c.kwargs.items)) (nodes_json (nodes_view c.body.items))
        c.self_closing) }
{
    begin_at(out, "ComponentCall", span)?;
    put_text(out, "name", call.name.as_str())?;
    out.key("kwargs")?;
    put_entries(out, &call.kwargs)?;
    out.key("body")?;
    put_nodes(out, &call.body)?;
    put_flag(out, "self_closing", call.self_closing)?;
    out.end_object()
}

#[cycle(tree)]
fn put_function_call(out: &mut Writer, span: &Span, call: &FunctionCall) -> Result<(), AllocError>
    ensures { PutsJson result out.old out.new (function_call_json span.now
        (string_bytes call.now.name) (args_json (args_view call.now.kwargs.entries))) }
{
    begin_at(out, "FunctionCall", span)?;
    put_text(out, "name", call.name.as_str())?;
    put_arguments(out, &call.kwargs)?;
    out.end_object()
}

#[cycle(tree)]
fn put_unary(out: &mut Writer, span: &Span, operation: &UnaryOperation) -> Result<(), AllocError>
    ensures { PutsJson result out.old out.new (unary_json span.now operation.now.op
        (expr_json (expression_view operation.now.expr))) }
{
    begin_at(out, "UnaryOperation", span)?;
    put_text(out, "op", unary_name(operation.op))?;
    put_part(out, "expr", &operation.expr)?;
    out.end_object()
}

#[cycle(tree)]
fn put_binary(out: &mut Writer, span: &Span, operation: &BinaryOperation) -> Result<(), AllocError>
    ensures { PutsJson result out.old out.new (binary_json span.now operation.now.op
        (expr_json (expression_view operation.now.left))
        (expr_json (expression_view operation.now.right))) }
{
    begin_at(out, "BinaryOperation", span)?;
    put_text(out, "op", binary_name(operation.op))?;
    put_part(out, "left", &operation.left)?;
    put_part(out, "right", &operation.right)?;
    out.end_object()
}

/// A member that is an expression.
#[cycle(tree)]
pub(crate) fn put_part(out: &mut Writer, name: &str, e: &Expression) -> Result<(), AllocError>
    ensures { Puts result out.old out.new
        (key name.now ∷ json_tokens (expr_json (expression_view e.now))) }
{
    out.key(name)?;
    put_expression(out, e)
}

// A member that is an expression, if there is one.
#[cycle(tree)]
fn put_maybe(out: &mut Writer, name: &str, e: &Option<Expression>) -> Result<(), AllocError>
    ensures { Puts result out.old out.new
        (key name.now ∷ json_tokens (maybe_json (maybe_view e.now))) }
{
    out.key(name)?;
    match e {
        Some(e) => put_expression(out, e),
        None => out.null(),
    }
}

// The member of the arguments.
#[cycle(tree)]
fn put_arguments(out: &mut Writer, kwargs: &BTreeMap<String, Expression>) -> Result<(), AllocError>
    ensures { Puts result out.old out.new (key (codes "kwargs")
        ∷ json_tokens (object (args_json (args_view kwargs.now.entries)))) }
{
    out.key("kwargs")?;
    out.begin_object()?;
    for (name, e) in kwargs.iter() {
        put_part(out, name.as_str(), e)?;
    }
    out.end_object()
}

#[cycle(tree)]
fn put_items(out: &mut Writer, items: &Vec<ArrayEntry>) -> Result<(), AllocError>
    ensures { PutsJson result out.old out.new (array (items_json (items_view items.now.items))) }
{
    out.begin_array()?;
    for item in items {
        put_item(out, item)?;
    }
    out.end_array()
}

#[cycle(tree)]
fn put_item(out: &mut Writer, item: &ArrayEntry) -> Result<(), AllocError>
    ensures { PutsJson result out.old out.new (item_json (item_view item.now)) }
{
    match item {
        ArrayEntry::Item(e) => put_alone(out, "Item", e),
        ArrayEntry::Spread(e) => put_alone(out, "Spread", e),
    }
}

// An object of an expression alone.
#[cycle(tree)]
fn put_alone(out: &mut Writer, kind: &str, e: &Expression) -> Result<(), AllocError>
    ensures { PutsJson result out.old out.new
        (part_json kind.now (expr_json (expression_view e.now))) }
{
    begin(out, kind)?;
    put_part(out, "expr", e)?;
    out.end_object()
}

#[cycle(tree)]
fn put_entries(out: &mut Writer, entries: &Vec<MapEntry>) -> Result<(), AllocError>
    ensures { PutsJson result out.old out.new
        (array (entries_json (entries_view entries.now.items))) }
{
    out.begin_array()?;
    for entry in entries {
        put_entry(out, entry)?;
    }
    out.end_array()
}

#[cycle(tree)]
fn put_entry(out: &mut Writer, entry: &MapEntry) -> Result<(), AllocError>
    ensures { PutsJson result out.old out.new (entry_json (entry_view entry.now)) }
{
    match entry {
        MapEntry::KeyValue { key, value } => put_pair(out, key, value),
        MapEntry::Spread(e) => put_alone(out, "Spread", e),
    }
}

#[cycle(tree)]
fn put_pair(out: &mut Writer, key: &Key, value: &Expression) -> Result<(), AllocError>
    ensures { PutsJson result out.old out.new
        (pair_json (key_json (key_view key.now)) (expr_json (expression_view value.now))) }
{
    begin(out, "KeyValue")?;
    out.key("key")?;
    put_key(out, key)?;
    put_part(out, "value", value)?;
    out.end_object()
}
