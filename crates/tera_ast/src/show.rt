//! Expressions as they are shown.

ghost use Rattle.std.specs.Prelude.{◌≡◌, Some, false, ◌++◌, [], codes, string_bytes};
ghost use Rattle.std.specs.Fmt.{WritesOnOk};
ghost use Rattle.tera_base.specs.ValueView.{key_view, value_view};
ghost use Rattle.tera_base.specs.Text.{key_text, const_text, comma_text};
ghost use Rattle.tera_ast.specs.View.{expression_view, name_view, maybe_view, args_view, item_view, items_view, entry_view, entries_view, nodes_view};
ghost use Rattle.tera_ast.specs.Text.{text, unary_text, binary_text, dot_text, bracket_text, names_text, call_text, closing_text, count_of, maybe_text, args_text, item_text, items_text, entry_text, entries_text};
ghost use Rattle.tera_ast.specs.declared.ast.ComponentCall.{out-ComponentCall};

use crate::ast::{
    Array, ArrayEntry, BinaryOperation, BinaryOperator, ComponentCall, Expression, Filter,
    FunctionCall, GetAttr, GetItem, ListComprehension, Map, MapEntry, Node, Slice, Ternary, Test,
    UnaryOperation, UnaryOperator,
};
use std::collections::BTreeMap;
use std::fmt;
use std::fmt::{Display, Formatter, Write};
use tera_base::{Key, Value};

impl Display for UnaryOperator {
    ghost output = { λ o. Some (unary_text o) };

    fn fmt<W: Write>(&self, f: &mut Formatter<W>) -> fmt::Result {
        f.write_str(match self {
            UnaryOperator::Not => "not",
            UnaryOperator::Minus => "-",
        })
    }
}

impl Display for BinaryOperator {
    ghost output = { λ o. Some (binary_text o) };

    fn fmt<W: Write>(&self, f: &mut Formatter<W>) -> fmt::Result {
        f.write_str(match self {
            BinaryOperator::Mul => "*",
            BinaryOperator::Div => "/",
            BinaryOperator::Mod => "%",
            BinaryOperator::Plus => "+",
            BinaryOperator::Minus => "-",
            BinaryOperator::FloorDiv => "//",
            BinaryOperator::Power => "**",
            BinaryOperator::LessThan => "<",
            BinaryOperator::GreaterThan => ">",
            BinaryOperator::LessThanOrEqual => "<=",
            BinaryOperator::GreaterThanOrEqual => ">=",
            BinaryOperator::Equal => "==",
            BinaryOperator::NotEqual => "!=",
            BinaryOperator::And => "and",
            BinaryOperator::Or => "or",
            BinaryOperator::StrConcat => "~",
            BinaryOperator::In => "in",
            BinaryOperator::Is => "is",
            BinaryOperator::Pipe => "|",
        })
    }
}

impl Display for Expression {
    ghost output = { λ e. Some (text (expression_view e)) };

    fn fmt<W: Write>(&self, f: &mut Formatter<W>) -> fmt::Result {
        show(self, f)
    }
}

#[cycle(show)]
#[tactic(auto, using(crate::proofs::Views::view_const, crate::proofs::Views::view_array, crate::proofs::Views::view_var, crate::proofs::Views::view_get_attr, crate::proofs::Views::view_get_item, crate::proofs::Views::view_slice, crate::proofs::Views::view_filter, crate::proofs::Views::view_test, crate::proofs::Views::view_ternary, crate::proofs::Views::view_comprehension, crate::proofs::Views::view_call, crate::proofs::Views::view_function_call, crate::proofs::Views::view_unary, crate::proofs::Views::view_binary, crate::proofs::Views::view_map))]
fn show<W: Write>(e: &Expression, f: &mut Formatter<W>) -> fmt::Result
    ensures { WritesOnOk W.write_str_gives f.old result (text (expression_view e.now)) f.new }
{
    match e {
        Expression::Const(s) => show_constant(s.node(), f),
        Expression::Array(s) => show_array(s.node(), f),
        Expression::Map(s) => show_map(s.node(), f),
        Expression::Var(s) => f.write_str(s.node().name.as_str()),
        Expression::GetAttr(s) => show_get_attr(s.node(), f),
        Expression::GetItem(s) => show_get_item(s.node(), f),
        Expression::Slice(s) => show_slice(s.node(), f),
        Expression::Filter(s) => show_filter(s.node(), f),
        Expression::Test(s) => show_test(s.node(), f),
        Expression::Ternary(s) => show_ternary(s.node(), f),
        Expression::ListComprehension(s) => show_comprehension(s.node(), f),
        Expression::ComponentCall(s) => show_component_call(s.node(), f),
        Expression::FunctionCall(s) => show_function_call(s.node(), f),
        Expression::UnaryOperation(s) => show_unary(s.node(), f),
        Expression::BinaryOperation(s) => show_binary(s.node(), f),
    }
}

fn show_constant<W: Write>(value: &Value, f: &mut Formatter<W>) -> fmt::Result
    ensures { WritesOnOk W.write_str_gives f.old result (const_text (value_view value.now)) f.new }
{
    match value {
        Value::String(text) => {
            f.write_str("'")?;
            f.write_str(text.as_str())?;
            f.write_str("'")
        }
        _ => value.fmt(f),
    }
}

// What opens a field.
fn show_dot<W: Write>(optional: bool, f: &mut Formatter<W>) -> fmt::Result
    ensures { WritesOnOk W.write_str_gives f.old result (dot_text optional) f.new }
{
    f.write_str(if optional { "?." } else { "." })
}

fn show_bracket<W: Write>(optional: bool, f: &mut Formatter<W>) -> fmt::Result
    ensures { WritesOnOk W.write_str_gives f.old result (bracket_text optional) f.new }
{
    f.write_str(if optional { "?[" } else { "[" })
}

// The names of a comprehension.
fn show_names<W: Write>(key: &Option<String>, value: &str, f: &mut Formatter<W>) -> fmt::Result
    ensures { WritesOnOk W.write_str_gives f.old result
        (names_text (name_view key.now) value.now) f.new }
{
    if let Some(key) = key {
        f.write_str(key.as_str())?;
        f.write_str(", ")?;
    }
    f.write_str(value)
}

#[tactic(auto, using(crate::proofs::Texts::count_of_nodes_view))]
fn count(nodes: &Vec<Node>) -> usize
    ensures { result ≡ count_of (nodes_view nodes.now.items) }
{
    nodes.len()
}

// What comes after the attributes of a component call with so many nodes in its body.
fn show_closing<W: Write>(
    name: &str,
    self_closing: bool,
    nodes: usize,
    f: &mut Formatter<W>,
) -> fmt::Result
    ensures { WritesOnOk W.write_str_gives f.old result
        (closing_text name.now self_closing nodes) f.new }
{
    if self_closing {
        return f.write_str("/>");
    }
    f.write_str(">[nodes: ")?;
    nodes.fmt(f)?;
    f.write_str("]<")?;
    f.write_str(name)?;
    f.write_str("/>")
}

#[cycle(show)]
pub(crate) fn show_array<W: Write>(array: &Array, f: &mut Formatter<W>) -> fmt::Result
    ensures { WritesOnOk W.write_str_gives f.old result
        (codes "[" ++ (items_text false (items_view array.now.items.items) ++ codes "]")) f.new }
{
    f.write_str("[")?;
    show_items(&array.items, f)?;
    f.write_str("]")
}

#[cycle(show)]
pub(crate) fn show_map<W: Write>(map: &Map, f: &mut Formatter<W>) -> fmt::Result
    ensures { WritesOnOk W.write_str_gives f.old result
        (codes "{"
        ++ (entries_text false (entries_view map.now.entries.items) ++ codes "}")) f.new }
{
    f.write_str("{")?;
    show_entries(&map.entries, f)?;
    f.write_str("}")
}

#[cycle(show)]
pub(crate) fn show_get_attr<W: Write>(field: &GetAttr, f: &mut Formatter<W>) -> fmt::Result
    ensures { WritesOnOk W.write_str_gives f.old result
        (text (expression_view field.now.expr)
        ++ (dot_text field.now.optional ++ string_bytes field.now.name)) f.new }
{
    show(&field.expr, f)?;
    show_dot(field.optional, f)?;
    f.write_str(field.name.as_str())
}

#[cycle(show)]
pub(crate) fn show_get_item<W: Write>(field: &GetItem, f: &mut Formatter<W>) -> fmt::Result
    ensures { WritesOnOk W.write_str_gives f.old result
        (text (expression_view field.now.expr) ++ (bracket_text field.now.optional
        ++ (text (expression_view field.now.sub_expr) ++ codes "]"))) f.new }
{
    show(&field.expr, f)?;
    show_bracket(field.optional, f)?;
    show(&field.sub_expr, f)?;
    f.write_str("]")
}

#[cycle(show)]
pub(crate) fn show_slice<W: Write>(part: &Slice, f: &mut Formatter<W>) -> fmt::Result
    ensures { WritesOnOk W.write_str_gives f.old result
        (text (expression_view part.now.expr) ++ (bracket_text part.now.optional ++ (maybe_text []
        (maybe_view part.now.start) ++ (maybe_text (codes ":") (maybe_view part.now.end)
        ++ (maybe_text (codes ":") (maybe_view part.now.step) ++ codes "]"))))) f.new }
{
    show(&part.expr, f)?;
    show_bracket(part.optional, f)?;
    show_maybe("", &part.start, f)?;
    show_maybe(":", &part.end, f)?;
    show_maybe(":", &part.step, f)?;
    f.write_str("]")
}

#[cycle(show)]
pub(crate) fn show_filter<W: Write>(filter: &Filter, f: &mut Formatter<W>) -> fmt::Result
    ensures { WritesOnOk W.write_str_gives f.old result
        (codes "(| " ++ (text (expression_view filter.now.expr) ++ (codes " " ++ (call_text
        (string_bytes filter.now.name) (args_text false (args_view filter.now.kwargs.entries))
        ++ codes ")")))) f.new }
{
    f.write_str("(| ")?;
    show(&filter.expr, f)?;
    f.write_str(" ")?;
    show_call(filter.name.as_str(), &filter.kwargs, f)?;
    f.write_str(")")
}

#[cycle(show)]
pub(crate) fn show_test<W: Write>(test: &Test, f: &mut Formatter<W>) -> fmt::Result
    ensures { WritesOnOk W.write_str_gives f.old result
        (codes "(is " ++ (text (expression_view test.now.expr) ++ (codes " " ++ (call_text
        (string_bytes test.now.name) (args_text false (args_view test.now.kwargs.entries))
        ++ codes ")")))) f.new }
{
    f.write_str("(is ")?;
    show(&test.expr, f)?;
    f.write_str(" ")?;
    show_call(test.name.as_str(), &test.kwargs, f)?;
    f.write_str(")")
}

#[cycle(show)]
pub(crate) fn show_ternary<W: Write>(choice: &Ternary, f: &mut Formatter<W>) -> fmt::Result
    ensures { WritesOnOk W.write_str_gives f.old result
        (text (expression_view choice.now.true_expr)
        ++ (codes " if " ++ (text (expression_view choice.now.expr)
        ++ (codes " else " ++ text (expression_view choice.now.false_expr))))) f.new }
{
    show(&choice.true_expr, f)?;
    f.write_str(" if ")?;
    show(&choice.expr, f)?;
    f.write_str(" else ")?;
    show(&choice.false_expr, f)
}

#[cycle(show)]
pub(crate) fn show_comprehension<W: Write>(
    list: &ListComprehension,
    f: &mut Formatter<W>,
) -> fmt::Result
    ensures { WritesOnOk W.write_str_gives f.old result
        (codes "[" ++ (text (expression_view list.now.expr) ++ (codes " for " ++ (names_text
        (name_view list.now.key) (string_bytes list.now.value)
        ++ (codes " in " ++ (text (expression_view list.now.target)
        ++ (maybe_text (codes " if ") (maybe_view list.now.condition) ++ codes "]"))))))) f.new }
{
    f.write_str("[")?;
    show(&list.expr, f)?;
    f.write_str(" for ")?;
    show_names(&list.key, list.value.as_str(), f)?;
    show_target(list, f)
}

// What a comprehension goes over, to its end.
#[cycle(show)]
fn show_target<W: Write>(list: &ListComprehension, f: &mut Formatter<W>) -> fmt::Result
    ensures { WritesOnOk W.write_str_gives f.old result
        (codes " in " ++ (text (expression_view list.now.target)
        ++ (maybe_text (codes " if ") (maybe_view list.now.condition) ++ codes "]"))) f.new }
{
    f.write_str(" in ")?;
    show(&list.target, f)?;
    show_maybe(" if ", &list.condition, f)?;
    f.write_str("]")
}

#[cycle(show)]
pub(crate) fn show_component_call<W: Write>(
    call: &ComponentCall,
    f: &mut Formatter<W>,
) -> fmt::Result
    ensures { let c = out-ComponentCall call.now in
        WritesOnOk W.write_str_gives f.old result (codes "<" ++ (call_text (string_bytes c.name)
        (entries_text false (entries_view c.kwargs.items)) ++ closing_text
        (string_bytes c.name) c.self_closing (count_of (nodes_view c.body.items)))) f.new }
{
    f.write_str("<")?;
    show_attributes(call.name.as_str(), &call.kwargs, f)?;
    show_closing(call.name.as_str(), call.self_closing, count(&call.body), f)
}

#[cycle(show)]
pub(crate) fn show_attributes<W: Write>(
    name: &str,
    kwargs: &Vec<MapEntry>,
    f: &mut Formatter<W>,
) -> fmt::Result
    ensures { WritesOnOk W.write_str_gives f.old result
        (call_text name.now (entries_text false (entries_view kwargs.now.items))) f.new }
{
    f.write_str(name)?;
    f.write_str("{")?;
    show_entries(kwargs, f)?;
    f.write_str("}")
}

#[cycle(show)]
pub(crate) fn show_function_call<W: Write>(call: &FunctionCall, f: &mut Formatter<W>) -> fmt::Result
    ensures { WritesOnOk W.write_str_gives f.old result
        (call_text (string_bytes call.now.name)
        (args_text false (args_view call.now.kwargs.entries))) f.new }
{
    show_call(call.name.as_str(), &call.kwargs, f)
}

#[cycle(show)]
pub(crate) fn show_unary<W: Write>(operation: &UnaryOperation, f: &mut Formatter<W>) -> fmt::Result
    ensures { WritesOnOk W.write_str_gives f.old result (codes "(" ++ (unary_text operation.now.op
        ++ (codes " " ++ (text (expression_view operation.now.expr) ++ codes ")")))) f.new }
{
    f.write_str("(")?;
    operation.op.fmt(f)?;
    f.write_str(" ")?;
    show(&operation.expr, f)?;
    f.write_str(")")
}

#[cycle(show)]
pub(crate) fn show_binary<W: Write>(
    operation: &BinaryOperation,
    f: &mut Formatter<W>,
) -> fmt::Result
    ensures { WritesOnOk W.write_str_gives f.old result
        (codes "("
        ++ (binary_text operation.now.op ++ (codes " " ++ (text (expression_view operation.now.left)
        ++ (codes " " ++ (text (expression_view operation.now.right) ++ codes ")")))))) f.new }
{
    f.write_str("(")?;
    operation.op.fmt(f)?;
    f.write_str(" ")?;
    show_operands(operation, f)
}

#[cycle(show)]
fn show_operands<W: Write>(operation: &BinaryOperation, f: &mut Formatter<W>) -> fmt::Result
    ensures { WritesOnOk W.write_str_gives f.old result
        (text (expression_view operation.now.left)
        ++ (codes " " ++ (text (expression_view operation.now.right) ++ codes ")"))) f.new }
{
    show(&operation.left, f)?;
    f.write_str(" ")?;
    show(&operation.right, f)?;
    f.write_str(")")
}

// An expression that may be there, after what is before it.
#[cycle(show)]
fn show_maybe<W: Write>(before: &str, e: &Option<Expression>, f: &mut Formatter<W>) -> fmt::Result
    ensures { WritesOnOk W.write_str_gives f.old result
        (maybe_text before.now (maybe_view e.now)) f.new }
{
    match e {
        Some(e) => show_after(before, e, f),
        None => Ok(()),
    }
}

#[cycle(show)]
fn show_after<W: Write>(before: &str, e: &Expression, f: &mut Formatter<W>) -> fmt::Result
    ensures { WritesOnOk W.write_str_gives f.old result
        (before.now ++ text (expression_view e.now)) f.new }
{
    f.write_str(before)?;
    show(e, f)
}

// A name with its arguments.
#[cycle(show)]
pub(crate) fn show_call<W: Write>(
    name: &str,
    kwargs: &BTreeMap<String, Expression>,
    f: &mut Formatter<W>,
) -> fmt::Result
    ensures { WritesOnOk W.write_str_gives f.old result
        (call_text name.now (args_text false (args_view kwargs.now.entries))) f.new }
{
    f.write_str(name)?;
    f.write_str("{")?;
    show_args(kwargs, f)?;
    f.write_str("}")
}

#[cycle(show)]
fn show_args<W: Write>(args: &BTreeMap<String, Expression>, f: &mut Formatter<W>) -> fmt::Result
    ensures { WritesOnOk W.write_str_gives f.old result
        (args_text false (args_view args.now.entries)) f.new }
{
    let mut later = false;
    for (name, e) in args.iter() {
        show_arg(later, name.as_str(), e, f)?;
        later = true;
    }
    Ok(())
}

// One of several arguments.
#[cycle(show)]
fn show_arg<W: Write>(later: bool, name: &str, e: &Expression, f: &mut Formatter<W>) -> fmt::Result
    ensures { WritesOnOk W.write_str_gives f.old result
        (comma_text later ++ (name.now ++ (codes "=" ++ text (expression_view e.now)))) f.new }
{
    if later {
        f.write_str(", ")?;
    }
    f.write_str(name)?;
    f.write_str("=")?;
    show(e, f)
}

#[cycle(show)]
fn show_items<W: Write>(items: &Vec<ArrayEntry>, f: &mut Formatter<W>) -> fmt::Result
    ensures { WritesOnOk W.write_str_gives f.old result
        (items_text false (items_view items.now.items)) f.new }
{
    let mut later = false;
    for item in items {
        show_item(later, item, f)?;
        later = true;
    }
    Ok(())
}

// One of several items.
#[cycle(show)]
pub(crate) fn show_item<W: Write>(
    later: bool,
    item: &ArrayEntry,
    f: &mut Formatter<W>,
) -> fmt::Result
    ensures { WritesOnOk W.write_str_gives f.old result
        (comma_text later ++ item_text (item_view item.now)) f.new }
{
    if later {
        f.write_str(", ")?;
    }
    match item {
        ArrayEntry::Item(e) => show(e, f),
        ArrayEntry::Spread(e) => show_after("...", e, f),
    }
}

#[cycle(show)]
fn show_entries<W: Write>(entries: &Vec<MapEntry>, f: &mut Formatter<W>) -> fmt::Result
    ensures { WritesOnOk W.write_str_gives f.old result
        (entries_text false (entries_view entries.now.items)) f.new }
{
    let mut later = false;
    for entry in entries {
        show_entry(later, entry, f)?;
        later = true;
    }
    Ok(())
}

// One of several entries.
#[cycle(show)]
pub(crate) fn show_entry<W: Write>(
    later: bool,
    entry: &MapEntry,
    f: &mut Formatter<W>,
) -> fmt::Result
    ensures { WritesOnOk W.write_str_gives f.old result
        (comma_text later ++ entry_text (entry_view entry.now)) f.new }
{
    if later {
        f.write_str(", ")?;
    }
    match entry {
        MapEntry::KeyValue { key, value } => show_pair(key, value, f),
        MapEntry::Spread(e) => show_after("...", e, f),
    }
}

#[cycle(show)]
fn show_pair<W: Write>(key: &Key, e: &Expression, f: &mut Formatter<W>) -> fmt::Result
    ensures { WritesOnOk W.write_str_gives f.old result
        (key_text (key_view key.now) ++ (codes ": " ++ text (expression_view e.now))) f.new }
{
    key.fmt(f)?;
    f.write_str(": ")?;
    show(e, f)
}
