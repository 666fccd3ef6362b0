//! Expressions, written at the end of a text.

ghost use Rattle.std.specs.Prelude.{◌≡◌, ◌++◌, ◌||◌, ℕ, suc, not, false, codes, string_bytes, OnOk};
ghost use Rattle.tera_base.specs.ValueView.{key_view, value_view};
ghost use Rattle.tera_ast.specs.View.{expression_view, name_view, maybe_view, args_view, item_view, items_view, entry_view, entries_view};
ghost use Rattle.tera_ast.specs.declared.ast.ComponentCall.{out-ComponentCall};
ghost use Rattle.tera_source.specs.Bodies.{has_body, maybe_has_body, args_have_body, item_has_body, items_have_body, entry_has_body, entries_have_body};
ghost use Rattle.tera_source.specs.Contexts as at;
ghost use Rattle.tera_source.specs.Contexts.{before, following, after_prefix, above, left_of, right_of};
ghost use Rattle.tera_source.specs.Unwritten.{Finds};
ghost use Rattle.tera_source.specs.Writing.{comma_text, dotted, dot_text, bracket_text, names_text, test_text, operator_text, has_args, optional_args, is_bare, attribute_value, attribute_text, text, unary_text, written, maybe_text, args_text, item_text, items_text, key_source, entry_text, entries_text, one_attribute, attributes_text};

use crate::constants::{push_comma, push_constant, push_key};
use crate::context::{Context, takes_negation};
use crate::operators::{
    CLOSED, FILTER_POWER, MINUS_POWER, NEGATION_POWER, TERNARY_POWER, TEST_POWER, operator_text,
};
use crate::refusal::Refusal;
use crate::texts::{push_dotted, push_quoted};
use std::alloc::AllocError;
use std::collections::BTreeMap;
use std::fmt::Write;
use tera_base::{Key, Value};
use tera_tree::{
    Array, ArrayEntry, BinaryOperation, ComponentCall, Expression, Filter, FunctionCall, GetAttr,
    GetItem, ListComprehension, Map, MapEntry, Slice, Ternary, Test, UnaryOperation, UnaryOperator,
};

/// An expression where it is, in parentheses if it breaks what is asked there.
#[cycle(writing)]
pub(crate) fn push_expression(
    out: &mut String,
    e: &Expression,
    context: Context,
) -> Result<(), Refusal>
    ensures text { OnOk result (string_bytes out.new
        ≡ string_bytes out.old ++ written (expression_view e.now) context) }
    ensures body { Finds result (has_body (expression_view e.now)) }
{
    if !context.bars(e) {
        return push_bare(out, e, false, context);
    }
    out.push_str("( ")?;
    push_bare(out, e, false, Context::free())?;
    Ok(out.push_str(" )")?)
}

// An expression without parentheses around it. A test and `in` may be negated.
#[cycle(writing)]
#[tactic(auto, using(tera_ast::proofs::Views::view_const, tera_ast::proofs::Views::view_array, tera_ast::proofs::Views::view_var, tera_ast::proofs::Views::view_get_attr, tera_ast::proofs::Views::view_get_item, tera_ast::proofs::Views::view_slice, tera_ast::proofs::Views::view_filter, tera_ast::proofs::Views::view_test, tera_ast::proofs::Views::view_ternary, tera_ast::proofs::Views::view_comprehension, tera_ast::proofs::Views::view_call, tera_ast::proofs::Views::view_function_call, tera_ast::proofs::Views::view_unary, tera_ast::proofs::Views::view_binary, tera_ast::proofs::Views::view_map))]
fn push_bare(
    out: &mut String,
    e: &Expression,
    negated: bool,
    context: Context,
) -> Result<(), Refusal>
    ensures text { OnOk result (string_bytes out.new
        ≡ string_bytes out.old ++ text negated (expression_view e.now) context) }
    ensures body { Finds result (has_body (expression_view e.now)) }
{
    match e {
        Expression::Const(s) => Ok(push_constant(out, s.node())?),
        Expression::Array(s) => push_array(out, s.node()),
        Expression::Map(s) => push_map(out, s.node()),
        Expression::Var(s) => Ok(out.push_str(s.node().name.as_str())?),
        Expression::GetAttr(s) => push_get_attr(out, s.node(), context),
        Expression::GetItem(s) => push_get_item(out, s.node(), context),
        Expression::Slice(s) => push_slice(out, s.node(), context),
        Expression::Filter(s) => push_filter(out, s.node(), context),
        Expression::Test(s) => push_test(out, s.node(), negated, context),
        Expression::Ternary(s) => push_ternary(out, s.node(), context),
        Expression::ListComprehension(s) => push_comprehension(out, s.node()),
        Expression::ComponentCall(s) => push_component_call(out, s.node()),
        Expression::FunctionCall(s) => push_function_call(out, s.node()),
        Expression::UnaryOperation(s) => push_unary(out, s.node(), context),
        Expression::BinaryOperation(s) => push_binary(out, s.node(), negated, context),
    }
}

#[cycle(writing)]
fn push_array(out: &mut String, array: &Array) -> Result<(), Refusal>
    ensures text { OnOk result (string_bytes out.new ≡ string_bytes out.old ++ (codes "["
        ++ (items_text false (items_view array.now.items.items) ++ codes " ]"))) }
    ensures body { Finds result (items_have_body (items_view array.now.items.items)) }
{
    out.push_str("[")?;
    push_items(out, &array.items)?;
    Ok(out.push_str(" ]")?)
}

#[cycle(writing)]
fn push_map(out: &mut String, map: &Map) -> Result<(), Refusal>
    ensures text { OnOk result (string_bytes out.new ≡ string_bytes out.old ++ (codes "{"
        ++ (entries_text false (entries_view map.now.entries.items) ++ codes " }"))) }
    ensures body { Finds result (entries_have_body (entries_view map.now.entries.items)) }
{
    out.push_str("{")?;
    push_entries(out, &map.entries)?;
    Ok(out.push_str(" }")?)
}

#[cycle(writing)]
fn push_get_attr(out: &mut String, field: &GetAttr, context: Context) -> Result<(), Refusal>
    ensures text { OnOk result (string_bytes out.new
        ≡ string_bytes out.old ++ (written (expression_view field.now.expr) (before 21 context)
        ++ (dot_text field.now.optional ++ string_bytes field.now.name))) }
    ensures body { Finds result (has_body (expression_view field.now.expr)) }
{
    push_expression(out, &field.expr, context.before(CLOSED))?;
    out.push_str(if field.optional { " ?. " } else { " . " })?;
    Ok(out.push_str(field.name.as_str())?)
}

#[cycle(writing)]
fn push_get_item(out: &mut String, field: &GetItem, context: Context) -> Result<(), Refusal>
    ensures text { OnOk result (string_bytes out.new
        ≡ string_bytes out.old ++ (written (expression_view field.now.expr) (before 21 context)
        ++ (bracket_text field.now.optional
        ++ (codes " " ++ (written (expression_view field.now.sub_expr) at.free ++ codes " ]"))))) }
    ensures body { Finds result (has_body (expression_view field.now.expr)
        || has_body (expression_view field.now.sub_expr)) }
{
    push_expression(out, &field.expr, context.before(CLOSED))?;
    push_bracket(out, field.optional)?;
    out.push_str(" ")?;
    push_expression(out, &field.sub_expr, Context::free())?;
    Ok(out.push_str(" ]")?)
}

#[cycle(writing)]
fn push_slice(out: &mut String, part: &Slice, context: Context) -> Result<(), Refusal>
    ensures text { OnOk result (string_bytes out.new
        ≡ string_bytes out.old ++ (written (expression_view part.now.expr) (before 21 context)
        ++ (bracket_text part.now.optional ++ (maybe_text (codes " ") 0 (maybe_view part.now.start)
        ++ (codes " :" ++ (maybe_text (codes " ") 0 (maybe_view part.now.end)
        ++ (maybe_text (codes " : ") 0 (maybe_view part.now.step) ++ codes " ]"))))))) }
    ensures body { Finds result (has_body (expression_view part.now.expr)
        || (maybe_has_body (maybe_view part.now.start) || (maybe_has_body (maybe_view part.now.end)
        || maybe_has_body (maybe_view part.now.step)))) }
{
    push_expression(out, &part.expr, context.before(CLOSED))?;
    push_bracket(out, part.optional)?;
    push_maybe(out, " ", &part.start, Context::free())?;
    out.push_str(" :")?;
    push_maybe(out, " ", &part.end, Context::free())?;
    push_maybe(out, " : ", &part.step, Context::free())?;
    Ok(out.push_str(" ]")?)
}

fn push_bracket(out: &mut String, optional: bool) -> Result<(), AllocError>
    ensures { OnOk result (string_bytes out.new ≡ string_bytes out.old ++ bracket_text optional) }
{
    out.push_str(if optional { " ?[" } else { " [" })
}

#[cycle(writing)]
fn push_filter(out: &mut String, filter: &Filter, context: Context) -> Result<(), Refusal>
    ensures text { OnOk result (string_bytes out.new
        ≡ string_bytes out.old ++ (written (expression_view filter.now.expr) (before 18 context)
        ++ (codes " | " ++ (string_bytes filter.now.name
        ++ optional_args (args_view filter.now.kwargs.entries)
        (args_text false (args_view filter.now.kwargs.entries)))))) }
    ensures body { Finds result (has_body (expression_view filter.now.expr)
        || args_have_body (args_view filter.now.kwargs.entries)) }
{
    push_expression(out, &filter.expr, context.before(FILTER_POWER + 1))?;
    out.push_str(" | ")?;
    out.push_str(filter.name.as_str())?;
    push_optional_args(out, &filter.kwargs)
}

#[cycle(writing)]
fn push_test(out: &mut String, test: &Test, negated: bool, context: Context) -> Result<(), Refusal>
    ensures text { OnOk result (string_bytes out.new
        ≡ string_bytes out.old ++ (written (expression_view test.now.expr) (before 6 context)
        ++ (test_text negated ++ (string_bytes test.now.name
        ++ optional_args (args_view test.now.kwargs.entries)
        (args_text false (args_view test.now.kwargs.entries)))))) }
    ensures body { Finds result (has_body (expression_view test.now.expr)
        || args_have_body (args_view test.now.kwargs.entries)) }
{
    push_expression(out, &test.expr, context.before(TEST_POWER + 1))?;
    out.push_str(if negated { " is not " } else { " is " })?;
    out.push_str(test.name.as_str())?;
    push_optional_args(out, &test.kwargs)
}

#[cycle(writing)]
fn push_ternary(out: &mut String, choice: &Ternary, context: Context) -> Result<(), Refusal>
    ensures text { OnOk result (string_bytes out.new
        ≡ string_bytes out.old ++ (written (expression_view choice.now.true_expr) (before 1 context)
        ++ (codes " if " ++ (written (expression_view choice.now.expr) at.free ++ (codes " else "
        ++ written (expression_view choice.now.false_expr) (following 0 context)))))) }
    ensures body { Finds result (has_body (expression_view choice.now.expr)
        || (has_body (expression_view choice.now.true_expr)
        || has_body (expression_view choice.now.false_expr))) }
{
    push_expression(out, &choice.true_expr, context.before(TERNARY_POWER + 1))?;
    out.push_str(" if ")?;
    push_expression(out, &choice.expr, Context::free())?;
    out.push_str(" else ")?;
    push_expression(out, &choice.false_expr, context.following(TERNARY_POWER))
}

#[cycle(writing)]
fn push_comprehension(out: &mut String, list: &ListComprehension) -> Result<(), Refusal>
    ensures text { OnOk result (string_bytes out.new
        ≡ string_bytes out.old ++ (codes "[ " ++ (written (expression_view list.now.expr) at.free
        ++ (codes " for " ++ (names_text (name_view list.now.key) (string_bytes list.now.value)
        ++ (codes " in " ++ (written (expression_view list.now.target) (above 1)
        ++ (maybe_text (codes " if ") 1 (maybe_view list.now.condition) ++ codes " ]")))))))) }
    ensures body { Finds result (has_body (expression_view list.now.expr)
        || (has_body (expression_view list.now.target)
        || maybe_has_body (maybe_view list.now.condition))) }
{
    out.push_str("[ ")?;
    push_expression(out, &list.expr, Context::free())?;
    out.push_str(" for ")?;
    push_names(out, &list.key, list.value.as_str())?;
    push_target(out, list)
}

// What a comprehension goes over, to its end.
#[cycle(writing)]
fn push_target(out: &mut String, list: &ListComprehension) -> Result<(), Refusal>
    ensures text { OnOk result (string_bytes out.new ≡ string_bytes out.old ++ (codes " in "
        ++ (written (expression_view list.now.target) (above 1)
        ++ (maybe_text (codes " if ") 1 (maybe_view list.now.condition) ++ codes " ]")))) }
    ensures body { Finds result (has_body (expression_view list.now.target)
        || maybe_has_body (maybe_view list.now.condition)) }
{
    out.push_str(" in ")?;
    push_expression(out, &list.target, Context::above(TERNARY_POWER + 1))?;
    push_maybe(
        out,
        " if ",
        &list.condition,
        Context::above(TERNARY_POWER + 1),
    )?;
    Ok(out.push_str(" ]")?)
}

// The variables of a comprehension.
fn push_names(out: &mut String, key: &Option<String>, value: &str) -> Result<(), AllocError>
    ensures { OnOk result (string_bytes out.new
        ≡ string_bytes out.old ++ names_text (name_view key.now) value.now) }
{
    if let Some(key) = key {
        out.push_str(key.as_str())?;
        out.push_str(" , ")?;
    }
    out.push_str(value)
}

#[cycle(writing)]
fn push_component_call(out: &mut String, call: &ComponentCall) -> Result<(), Refusal>
    ensures text { let c = out-ComponentCall call.now in OnOk result (string_bytes out.new
        ≡ string_bytes out.old ++ (codes "< " ++ (dotted (string_bytes c.name)
        ++ (attributes_text (entries_view c.kwargs.items) ++ codes " / >")))) }
    ensures body { let c = out-ComponentCall call.now in
        Finds result (not c.self_closing || entries_have_body (entries_view c.kwargs.items)) }
{
    if !call.self_closing {
        return Err(Refusal::Body);
    }
    out.push_str("< ")?;
    push_dotted(out, call.name.as_str())?;
    push_attributes(out, &call.kwargs)?;
    Ok(out.push_str(" / >")?)
}

#[cycle(writing)]
fn push_function_call(out: &mut String, call: &FunctionCall) -> Result<(), Refusal>
    ensures text { OnOk result (string_bytes out.new
        ≡ string_bytes out.old ++ (string_bytes call.now.name
        ++ (codes " (" ++ (args_text false (args_view call.now.kwargs.entries) ++ codes " )")))) }
    ensures body { Finds result (args_have_body (args_view call.now.kwargs.entries)) }
{
    out.push_str(call.name.as_str())?;
    push_args(out, &call.kwargs)
}

#[cycle(writing)]
fn push_unary(out: &mut String, operation: &UnaryOperation, context: Context) -> Result<(), Refusal>
    ensures text { OnOk result (string_bytes out.new ≡ string_bytes out.old
        ++ unary_text operation.now.op (expression_view operation.now.expr) context) }
    ensures body { Finds result (has_body (expression_view operation.now.expr)) }
{
    match operation.op {
        UnaryOperator::Minus => {
            out.push_str("- ")?;
            push_expression(out, &operation.expr, context.after_prefix(MINUS_POWER))
        }
        UnaryOperator::Not => push_negation(out, &operation.expr, context),
    }
}

#[cycle(writing)]
fn push_negation(out: &mut String, e: &Expression, context: Context) -> Result<(), Refusal>
    ensures text { OnOk result (string_bytes out.new
        ≡ string_bytes out.old ++ unary_text UnaryOperator.Not (expression_view e.now) context) }
    ensures body { Finds result (has_body (expression_view e.now)) }
{
    if takes_negation(e) {
        return push_bare(out, e, true, context);
    }
    out.push_str("not ")?;
    push_expression(out, e, context.after_prefix(NEGATION_POWER))
}

#[cycle(writing)]
fn push_binary(
    out: &mut String,
    operation: &BinaryOperation,
    negated: bool,
    context: Context,
) -> Result<(), Refusal>
    ensures text { OnOk result (string_bytes out.new
        ≡ string_bytes out.old ++ (written (expression_view operation.now.left)
        (before (suc (left_of operation.now.op)) context) ++ (operator_text negated operation.now.op
        ++ written (expression_view operation.now.right)
        (following (right_of operation.now.op) context)))) }
    ensures body { Finds result (has_body (expression_view operation.now.left)
        || has_body (expression_view operation.now.right)) }
{
    let op = operation.op;
    push_expression(out, &operation.left, context.before_operator(op))?;
    out.push_str(operator_text(op, negated))?;
    push_expression(out, &operation.right, context.after_operator(op))
}

// An expression that may be there, after what is before it.
#[cycle(writing)]
fn push_maybe(
    out: &mut String,
    before: &str,
    e: &Option<Expression>,
    context: Context,
) -> Result<(), Refusal>
    ensures text { (power : ℕ) → context ≡ above power → OnOk result (string_bytes out.new
        ≡ string_bytes out.old ++ maybe_text before.now power (maybe_view e.now)) }
    ensures body { Finds result (maybe_has_body (maybe_view e.now)) }
{
    match e {
        Some(e) => push_after(out, before, e, context),
        None => Ok(()),
    }
}

#[cycle(writing)]
fn push_after(
    out: &mut String,
    before: &str,
    e: &Expression,
    context: Context,
) -> Result<(), Refusal>
    ensures text { OnOk result (string_bytes out.new
        ≡ string_bytes out.old ++ (before.now ++ written (expression_view e.now) context)) }
    ensures body { Finds result (has_body (expression_view e.now)) }
{
    out.push_str(before)?;
    push_expression(out, e, context)
}

// The arguments of a test or a filter, which has parentheses only around some.
#[cycle(writing)]
fn push_optional_args(out: &mut String, args: &BTreeMap<String, Expression>) -> Result<(), Refusal>
    ensures text { OnOk result (string_bytes out.new
        ≡ string_bytes out.old ++ optional_args (args_view args.now.entries)
        (args_text false (args_view args.now.entries))) }
    ensures body { Finds result (args_have_body (args_view args.now.entries)) }
{
    if has_args(args) {
        push_args(out, args)
    } else {
        Ok(())
    }
}

#[tactic(auto, using(crate::proofs::FromFirst::has_none, crate::proofs::FromFirst::has_some))]
fn has_args(args: &BTreeMap<String, Expression>) -> bool
    ensures { result ≡ has_args (args_view args.now.entries) }
{
    !args.is_empty()
}

#[cycle(writing)]
fn push_args(out: &mut String, args: &BTreeMap<String, Expression>) -> Result<(), Refusal>
    ensures text { OnOk result (string_bytes out.new ≡ string_bytes out.old ++ (codes " ("
        ++ (args_text false (args_view args.now.entries) ++ codes " )"))) }
    ensures body { Finds result (args_have_body (args_view args.now.entries)) }
{
    out.push_str(" (")?;
    let mut later = false;
    for (name, e) in args.iter() {
        push_arg(out, later, name.as_str(), e)?;
        later = true;
    }
    Ok(out.push_str(" )")?)
}

// One of several arguments.
#[cycle(writing)]
fn push_arg(out: &mut String, later: bool, name: &str, e: &Expression) -> Result<(), Refusal>
    ensures text { OnOk result (string_bytes out.new ≡ string_bytes out.old ++ (comma_text later
        ++ (name.now ++ (codes " = " ++ written (expression_view e.now) at.free)))) }
    ensures body { Finds result (has_body (expression_view e.now)) }
{
    push_comma(out, later)?;
    out.push_str(name)?;
    push_after(out, " = ", e, Context::free())
}

#[cycle(writing)]
fn push_items(out: &mut String, items: &Vec<ArrayEntry>) -> Result<(), Refusal>
    ensures text { OnOk result (string_bytes out.new
        ≡ string_bytes out.old ++ items_text false (items_view items.now.items)) }
    ensures body { Finds result (items_have_body (items_view items.now.items)) }
{
    let mut later = false;
    for item in items {
        push_item(out, later, item)?;
        later = true;
    }
    Ok(())
}

// One of several items.
#[cycle(writing)]
fn push_item(out: &mut String, later: bool, item: &ArrayEntry) -> Result<(), Refusal>
    ensures text { OnOk result (string_bytes out.new
        ≡ string_bytes out.old ++ (comma_text later ++ item_text (item_view item.now))) }
    ensures body { Finds result (item_has_body (item_view item.now)) }
{
    push_comma(out, later)?;
    match item {
        ArrayEntry::Item(e) => push_expression(out, e, Context::free()),
        ArrayEntry::Spread(e) => push_after(out, "... ", e, Context::free()),
    }
}

#[cycle(writing)]
fn push_entries(out: &mut String, entries: &Vec<MapEntry>) -> Result<(), Refusal>
    ensures text { OnOk result (string_bytes out.new
        ≡ string_bytes out.old ++ entries_text false (entries_view entries.now.items)) }
    ensures body { Finds result (entries_have_body (entries_view entries.now.items)) }
{
    let mut later = false;
    for entry in entries {
        push_entry(out, later, entry)?;
        later = true;
    }
    Ok(())
}

// One of several entries of a map.
#[cycle(writing)]
fn push_entry(out: &mut String, later: bool, entry: &MapEntry) -> Result<(), Refusal>
    ensures text { OnOk result (string_bytes out.new
        ≡ string_bytes out.old ++ (comma_text later ++ entry_text (entry_view entry.now))) }
    ensures body { Finds result (entry_has_body (entry_view entry.now)) }
{
    push_comma(out, later)?;
    match entry {
        MapEntry::KeyValue { key, value } => push_pair(out, key, value),
        MapEntry::Spread(e) => push_after(out, "... ", e, Context::free()),
    }
}

#[cycle(writing)]
fn push_pair(out: &mut String, key: &Key, value: &Expression) -> Result<(), Refusal>
    ensures text { OnOk result (string_bytes out.new
        ≡ string_bytes out.old ++ (key_source (key_view key.now)
        ++ (codes " : " ++ written (expression_view value.now) at.free))) }
    ensures body { Finds result (has_body (expression_view value.now)) }
{
    push_key(out, key)?;
    push_after(out, " : ", value, Context::free())
}

#[cycle(writing)]
fn push_attributes(out: &mut String, attributes: &Vec<MapEntry>) -> Result<(), Refusal>
    ensures text { OnOk result (string_bytes out.new
        ≡ string_bytes out.old ++ attributes_text (entries_view attributes.now.items)) }
    ensures body { Finds result (entries_have_body (entries_view attributes.now.items)) }
{
    for attribute in attributes {
        out.push_str(" ")?;
        push_attribute(out, attribute)?;
    }
    Ok(())
}

#[cycle(writing)]
fn push_attribute(out: &mut String, attribute: &MapEntry) -> Result<(), Refusal>
    ensures text { OnOk result (string_bytes out.new
        ≡ string_bytes out.old ++ one_attribute (entry_view attribute.now)) }
    ensures body { Finds result (entry_has_body (entry_view attribute.now)) }
{
    match attribute {
        MapEntry::KeyValue { key, value } => push_named(out, key, value),
        MapEntry::Spread(e) => push_braced(out, "{ ... ", e),
    }
}

// A name alone is the variable of that name.
#[cycle(writing)]
#[tactic(auto, using(crate::proofs::Bodiless::bare_bodiless))]
fn push_named(out: &mut String, name: &Key, value: &Expression) -> Result<(), Refusal>
    ensures text { OnOk result (string_bytes out.new
        ≡ string_bytes out.old ++ attribute_text (key_view name.now) (expression_view value.now)
        (written (expression_view value.now) at.free)) }
    ensures body { Finds result (has_body (expression_view value.now)) }
{
    write!(out, "{name}")?;
    if is_bare(name, value) {
        return Ok(());
    }
    out.push_str(" = ")?;
    push_attribute_value(out, value)
}

#[tactic(auto, using(tera_ast::proofs::Views::view_var))]
fn is_bare(name: &Key, value: &Expression) -> bool
    ensures { result ≡ is_bare (key_view name.now) (expression_view value.now) }
{
    match (name, value) {
        (Key::String(name), Expression::Var(variable)) => *name == variable.node().name,
        _ => false,
    }
}

#[cycle(writing)]
fn push_attribute_value(out: &mut String, value: &Expression) -> Result<(), Refusal>
    ensures text { OnOk result (string_bytes out.new
        ≡ string_bytes out.old ++ attribute_value
        (expression_view value.now) (written (expression_view value.now) at.free)) }
    ensures body { Finds result (has_body (expression_view value.now)) }
{
    if let Expression::Const(s) = value
        && let Value::String(text) = s.node()
    {
        return Ok(push_quoted(out, text.as_str())?);
    }
    push_braced(out, "{ ", value)
}

// An expression in braces, of which the first is given.
#[cycle(writing)]
fn push_braced(out: &mut String, brace: &str, e: &Expression) -> Result<(), Refusal>
    ensures text { OnOk result (string_bytes out.new ≡ string_bytes out.old ++ (brace.now
        ++ (written (expression_view e.now) at.free ++ codes " }"))) }
    ensures body { Finds result (has_body (expression_view e.now)) }
{
    push_after(out, brace, e, Context::free())?;
    Ok(out.push_str(" }")?)
}
