//! Makes expressions and nodes, so that no caller looks into what they stand for.

ghost use Rattle.std.specs.Prelude.{◌≡◌, IfOk, string_bytes};
ghost use Rattle.tera_base.specs.ValueView.{value_view};
ghost use Rattle.tera_base.specs.Spanned.{node_of, span_of};
ghost use Rattle.tera_ast.specs.Tree as tree;
ghost use Rattle.tera_ast.specs.View.{expression_view, node_view, name_view, maybe_view, filters_view, args_view, items_view, entries_view, nodes_view};

use crate::ast::{
    Array, ArrayEntry, BinaryOperation, BinaryOperator, Block, BlockSet, ComponentCall, Expression,
    Filter, FilterSection, ForLoop, FunctionCall, GetAttr, GetItem, If, Include, ListComprehension,
    Map, MapEntry, Node, Set, Slice, Ternary, Test, UnaryOperation, UnaryOperator, Var,
};
use std::alloc::{AllocError, Global};
use std::collections::BTreeMap;
use tera_base::{Span, Spanned, Value};

/// A constant.
pub fn constant(alloc: Global, value: Value, span: Span) -> Result<Expression, AllocError>
    ensures { IfOk result (λ e. expression_view e ≡ tree.Const (value_view value) span) }
{
    Ok(Expression::Const(Spanned::new(alloc, value, span)?))
}

/// An array.
#[tactic(auto, using(crate::proofs::Views::view_array))]
pub fn array(alloc: Global, items: Vec<ArrayEntry>, span: Span) -> Result<Expression, AllocError>
    ensures { IfOk result (λ e. expression_view e ≡ tree.Array (items_view items.items) span) }
{
    let node = Array { items };
    Ok(Expression::Array(Spanned::new(alloc, node, span)?))
}

/// A map.
#[tactic(auto, using(crate::proofs::Views::view_map))]
pub fn map(alloc: Global, entries: Vec<MapEntry>, span: Span) -> Result<Expression, AllocError>
    ensures { IfOk result (λ e. expression_view e ≡ tree.Map (entries_view entries.items) span) }
{
    let node = Map { entries };
    Ok(Expression::Map(Spanned::new(alloc, node, span)?))
}

/// A variable.
pub fn variable(alloc: Global, name: String, span: Span) -> Result<Expression, AllocError>
    ensures { IfOk result (λ e. expression_view e ≡ tree.Var (string_bytes name) span) }
{
    let node = Var { name };
    Ok(Expression::Var(Spanned::new(alloc, node, span)?))
}

/// A field by its name.
pub fn get_attr(
    alloc: Global,
    expr: Expression,
    name: String,
    optional: bool,
    span: Span,
) -> Result<Expression, AllocError>
    ensures { IfOk result (λ e.
        expression_view e ≡ tree.GetAttr (expression_view expr) (string_bytes name) optional span) }
{
    let node = GetAttr {
        expr,
        name,
        optional,
    };
    Ok(Expression::GetAttr(Spanned::new(alloc, node, span)?))
}

/// A field by an expression.
pub fn get_item(
    alloc: Global,
    expr: Expression,
    sub_expr: Expression,
    optional: bool,
    span: Span,
) -> Result<Expression, AllocError>
    ensures { IfOk result (λ e. expression_view e
        ≡ tree.GetItem (expression_view expr) (expression_view sub_expr) optional span) }
{
    let node = GetItem {
        expr,
        sub_expr,
        optional,
    };
    Ok(Expression::GetItem(Spanned::new(alloc, node, span)?))
}

/// A part of a list.
#[tactic(auto, using(crate::proofs::Views::view_slice))]
pub fn slice(
    alloc: Global,
    expr: Expression,
    start: Option<Expression>,
    end: Option<Expression>,
    step: Option<Expression>,
    optional: bool,
    span: Span,
) -> Result<Expression, AllocError>
    ensures { IfOk result (λ e.
        expression_view e ≡ tree.Slice (expression_view expr) (maybe_view start) (maybe_view end)
        (maybe_view step) optional span) }
{
    let node = Slice {
        expr,
        start,
        end,
        step,
        optional,
    };
    Ok(Expression::Slice(Spanned::new(alloc, node, span)?))
}

/// A filter on an expression.
#[tactic(auto, using(crate::proofs::Views::view_filter))]
pub fn filter(
    alloc: Global,
    expr: Expression,
    name: String,
    kwargs: BTreeMap<String, Expression>,
    span: Span,
) -> Result<Expression, AllocError>
    ensures { IfOk result (λ e. expression_view e
        ≡ tree.Filter (expression_view expr) (string_bytes name) (args_view kwargs.entries) span) }
{
    let node = Filter { expr, name, kwargs };
    Ok(Expression::Filter(Spanned::new(alloc, node, span)?))
}

/// A test of an expression.
#[tactic(auto, using(crate::proofs::Views::view_test))]
pub fn test(
    alloc: Global,
    expr: Expression,
    name: String,
    kwargs: BTreeMap<String, Expression>,
    span: Span,
) -> Result<Expression, AllocError>
    ensures { IfOk result (λ e. expression_view e
        ≡ tree.Test (expression_view expr) (string_bytes name) (args_view kwargs.entries) span) }
{
    let node = Test { expr, name, kwargs };
    Ok(Expression::Test(Spanned::new(alloc, node, span)?))
}

/// One of two expressions, by a condition.
pub fn ternary(
    alloc: Global,
    expr: Expression,
    true_expr: Expression,
    false_expr: Expression,
    span: Span,
) -> Result<Expression, AllocError>
    ensures { IfOk result (λ e.
        expression_view e ≡ tree.Ternary (expression_view expr) (expression_view true_expr)
        (expression_view false_expr) span) }
{
    let node = Ternary {
        expr,
        true_expr,
        false_expr,
    };
    Ok(Expression::Ternary(Spanned::new(alloc, node, span)?))
}

/// An expression for each item of a target.
#[tactic(auto, using(crate::proofs::Views::view_comprehension))]
pub fn comprehension(
    alloc: Global,
    expr: Expression,
    key: Option<String>,
    value: String,
    target: Expression,
    condition: Option<Expression>,
    span: Span,
) -> Result<Expression, AllocError>
    ensures { IfOk result (λ e.
        expression_view e ≡ tree.ListComprehension (expression_view expr) (name_view key)
        (string_bytes value) (expression_view target) (maybe_view condition) span) }
{
    let node = ListComprehension {
        expr,
        key,
        value,
        target,
        condition,
    };
    Ok(Expression::ListComprehension(Spanned::new(alloc, node, span)?))
}

/// A call of a component.
#[tactic(auto, using(crate::proofs::Views::view_call))]
pub fn component_call(
    alloc: Global,
    name: String,
    kwargs: Vec<MapEntry>,
    body: Vec<Node>,
    self_closing: bool,
    span: Span,
) -> Result<Expression, AllocError>
    ensures { IfOk result (λ e.
        expression_view e ≡ tree.ComponentCall (string_bytes name) (entries_view kwargs.items)
        (nodes_view body.items) self_closing span) }
{
    let node = ComponentCall {
        name,
        kwargs,
        body,
        self_closing,
    };
    Ok(Expression::ComponentCall(Spanned::new(alloc, node, span)?))
}

/// A call of a function.
#[tactic(auto, using(crate::proofs::Views::view_function_call))]
pub fn function_call(
    alloc: Global,
    name: String,
    kwargs: BTreeMap<String, Expression>,
    span: Span,
) -> Result<Expression, AllocError>
    ensures { IfOk result (λ e.
        expression_view e ≡ tree.FunctionCall (string_bytes name) (args_view kwargs.entries) span) }
{
    let node = FunctionCall { name, kwargs };
    Ok(Expression::FunctionCall(Spanned::new(alloc, node, span)?))
}

/// An operator and its operand.
pub fn unary(
    alloc: Global,
    op: UnaryOperator,
    expr: Expression,
    span: Span,
) -> Result<Expression, AllocError>
    ensures { IfOk result (λ e.
        expression_view e ≡ tree.UnaryOperation op (expression_view expr) span) }
{
    let node = UnaryOperation { op, expr };
    Ok(Expression::UnaryOperation(Spanned::new(alloc, node, span)?))
}

/// An operator between its operands.
pub fn binary(
    alloc: Global,
    op: BinaryOperator,
    left: Expression,
    right: Expression,
    span: Span,
) -> Result<Expression, AllocError>
    ensures { IfOk result (λ e. expression_view e
        ≡ tree.BinaryOperation op (expression_view left) (expression_view right) span) }
{
    let node = BinaryOperation { op, left, right };
    Ok(Expression::BinaryOperation(Spanned::new(alloc, node, span)?))
}

/// A variable that takes a value.
pub fn set(name: String, value: Expression, global: bool) -> Node
    ensures { node_view result ≡ tree.Set (string_bytes name) (expression_view value) global }
{
    Node::Set(Set {
        name,
        value,
        global,
    })
}

/// A variable that takes what a body is shown as.
#[tactic(auto, using(crate::proofs::Views::view_block_set))]
pub fn block_set(name: String, filters: Vec<Expression>, body: Vec<Node>, global: bool) -> Node
    ensures { node_view result ≡ tree.BlockSet (string_bytes name) (filters_view filters.items)
        (nodes_view body.items) global }
{
    Node::BlockSet(BlockSet {
        name,
        filters,
        body,
        global,
    })
}

/// Another template at this place.
pub fn include(name: Spanned<String>) -> Node
    ensures { node_view result ≡ tree.Include (string_bytes (node_of name)) (span_of name) }
{
    Node::Include(Include { name })
}

/// A body with a name.
#[tactic(auto, using(crate::proofs::Views::view_block))]
pub fn block(name: Spanned<String>, body: Vec<Node>) -> Node
    ensures { node_view result
        ≡ tree.Block (string_bytes (node_of name)) (span_of name) (nodes_view body.items) }
{
    Node::Block(Block { name, body })
}

/// A body for each item of a target.
#[tactic(auto, using(crate::proofs::Views::view_for))]
pub fn for_loop(
    key: Option<String>,
    value: String,
    target: Expression,
    body: Vec<Node>,
    else_body: Vec<Node>,
) -> Node
    ensures { node_view result ≡ tree.ForLoop (name_view key) (string_bytes value)
        (expression_view target) (nodes_view body.items) (nodes_view else_body.items) }
{
    Node::ForLoop(ForLoop {
        key,
        value,
        target,
        body,
        else_body,
    })
}

/// A body under a condition, and one without it.
#[tactic(auto, using(crate::proofs::Views::view_if))]
pub fn when(expr: Expression, body: Vec<Node>, false_body: Vec<Node>) -> Node
    ensures { node_view result
        ≡ tree.If (expression_view expr) (nodes_view body.items) (nodes_view false_body.items) }
{
    Node::If(If {
        expr,
        body,
        false_body,
    })
}

/// A body that filters change.
#[tactic(auto, using(crate::proofs::Views::view_section))]
pub fn filter_section(filters: Vec<Expression>, body: Vec<Node>) -> Node
    ensures { node_view result
        ≡ tree.FilterSection (filters_view filters.items) (nodes_view body.items) }
{
    Node::FilterSection(FilterSection { filters, body })
}
