//! Equality of expressions and nodes: where each part is counts too.

mod bodies;

ghost use Rattle.std.specs.Prelude.{◌≡◌, string_bytes};
ghost use Rattle.std.specs.Cmp.{on_equiv, on_per, partial_equiv_from_equiv};
ghost use Rattle.std.specs.Str.{bytes_eq};
ghost use Rattle.tera_base.specs.Spanned.{node_of, span_of};
ghost use Rattle.tera_ast.specs.View.{expression_view, node_view, block_set_view, for_view, if_view, section_view, name_view, maybe_view, filters_view, args_view, item_view, items_view, entry_view, entries_view, nodes_view};
ghost use Rattle.tera_ast.specs.Same.{span_eq, unary_eq, binary_eq, name_eq, expr_eq, maybe_eq, filters_eq, args_eq, entry_eq, entries_eq, item_eq, items_eq, stmt_eq, nodes_eq};
ghost use Rattle.tera_ast.specs.SameLaws.{expr_equivalence, stmt_equivalence};

use crate::ast::{
    ArrayEntry, BinaryOperator, BlockSet, Expression, FilterSection, ForLoop, If, MapEntry, Node,
    UnaryOperator,
};
use std::collections::BTreeMap;
use tera_base::Span;

impl PartialEq for Expression {
    ghost eq = { λ d e. expr_eq (expression_view d) (expression_view e) };

    ghost laws = { on_per expression_view (partial_equiv_from_equiv expr_equivalence) };

    fn eq(&self, other: &Expression) -> bool {
        same(self, other)
    }
}

impl Eq for Expression {
    ghost laws = { on_equiv expression_view expr_equivalence };
}

impl PartialEq for Node {
    ghost eq = { λ m n. stmt_eq (node_view m) (node_view n) };

    ghost laws = { on_per node_view (partial_equiv_from_equiv stmt_equivalence) };

    fn eq(&self, other: &Node) -> bool {
        same_node(self, other)
    }
}

impl Eq for Node {
    ghost laws = { on_equiv node_view stmt_equivalence };
}

#[cycle(same)]
#[tactic(auto, using(crate::proofs::Views::view_const, crate::proofs::Views::view_array, crate::proofs::Views::view_var, crate::proofs::Views::view_get_attr, crate::proofs::Views::view_get_item, crate::proofs::Views::view_slice, crate::proofs::Views::view_filter, crate::proofs::Views::view_test, crate::proofs::Views::view_ternary, crate::proofs::Views::view_comprehension, crate::proofs::Views::view_call, crate::proofs::Views::view_function_call, crate::proofs::Views::view_unary, crate::proofs::Views::view_binary, crate::proofs::Views::view_map))]
fn same(a: &Expression, b: &Expression) -> bool
    ensures { result ≡ expr_eq (expression_view a.now) (expression_view b.now) }
{
    match (a, b) {
        (Expression::Const(s), Expression::Const(t)) => {
            same_span(s.span(), t.span()) && s.node() == t.node()
        }
        (Expression::Array(s), Expression::Array(t)) => {
            same_span(s.span(), t.span()) && same_items(&s.node().items, &t.node().items)
        }
        (Expression::Map(s), Expression::Map(t)) => {
            same_span(s.span(), t.span()) && same_entries(&s.node().entries, &t.node().entries)
        }
        (Expression::Var(s), Expression::Var(t)) => {
            same_span(s.span(), t.span()) && same_text(&s.node().name, &t.node().name)
        }
        (Expression::GetAttr(s), Expression::GetAttr(t)) => {
            let (x, y) = (s.node(), t.node());
            same_span(s.span(), t.span())
                && same(&x.expr, &y.expr)
                && same_text(&x.name, &y.name)
                && x.optional == y.optional
        }
        (Expression::GetItem(s), Expression::GetItem(t)) => {
            let (x, y) = (s.node(), t.node());
            same_span(s.span(), t.span())
                && same(&x.expr, &y.expr)
                && same(&x.sub_expr, &y.sub_expr)
                && x.optional == y.optional
        }
        (Expression::Slice(s), Expression::Slice(t)) => {
            let (x, y) = (s.node(), t.node());
            same_span(s.span(), t.span())
                && same(&x.expr, &y.expr)
                && same_maybe(&x.start, &y.start)
                && same_maybe(&x.end, &y.end)
                && same_maybe(&x.step, &y.step)
                && x.optional == y.optional
        }
        (Expression::Filter(s), Expression::Filter(t)) => {
            let (x, y) = (s.node(), t.node());
            same_span(s.span(), t.span())
                && same(&x.expr, &y.expr)
                && same_text(&x.name, &y.name)
                && same_args(&x.kwargs, &y.kwargs)
        }
        (Expression::Test(s), Expression::Test(t)) => {
            let (x, y) = (s.node(), t.node());
            same_span(s.span(), t.span())
                && same(&x.expr, &y.expr)
                && same_text(&x.name, &y.name)
                && same_args(&x.kwargs, &y.kwargs)
        }
        (Expression::Ternary(s), Expression::Ternary(t)) => {
            let (x, y) = (s.node(), t.node());
            same_span(s.span(), t.span())
                && same(&x.expr, &y.expr)
                && same(&x.true_expr, &y.true_expr)
                && same(&x.false_expr, &y.false_expr)
        }
        (Expression::ListComprehension(s), Expression::ListComprehension(t)) => {
            let (x, y) = (s.node(), t.node());
            same_span(s.span(), t.span())
                && same(&x.expr, &y.expr)
                && same_name(&x.key, &y.key)
                && same_text(&x.value, &y.value)
                && same(&x.target, &y.target)
                && same_maybe(&x.condition, &y.condition)
        }
        (Expression::ComponentCall(s), Expression::ComponentCall(t)) => {
            let (x, y) = (s.node(), t.node());
            same_span(s.span(), t.span())
                && same_text(&x.name, &y.name)
                && same_entries(&x.kwargs, &y.kwargs)
                && same_nodes(&x.body, &y.body)
                && x.self_closing == y.self_closing
        }
        (Expression::FunctionCall(s), Expression::FunctionCall(t)) => {
            let (x, y) = (s.node(), t.node());
            same_span(s.span(), t.span())
                && same_text(&x.name, &y.name)
                && same_args(&x.kwargs, &y.kwargs)
        }
        (Expression::UnaryOperation(s), Expression::UnaryOperation(t)) => {
            let (x, y) = (s.node(), t.node());
            same_span(s.span(), t.span()) && same_unary(x.op, y.op) && same(&x.expr, &y.expr)
        }
        (Expression::BinaryOperation(s), Expression::BinaryOperation(t)) => {
            let (x, y) = (s.node(), t.node());
            same_span(s.span(), t.span())
                && same_binary(x.op, y.op)
                && same(&x.left, &y.left)
                && same(&x.right, &y.right)
        }
        _ => false,
    }
}

fn same_span(a: &Span, b: &Span) -> bool
    ensures { result ≡ span_eq a.now b.now }
{
    a == b
}

fn same_text(a: &String, b: &String) -> bool
    ensures { result ≡ bytes_eq (string_bytes a.now) (string_bytes b.now) }
{
    a.as_str() == b.as_str()
}

fn same_unary(a: UnaryOperator, b: UnaryOperator) -> bool
    ensures { result ≡ unary_eq a b }
{
    a == b
}

fn same_binary(a: BinaryOperator, b: BinaryOperator) -> bool
    ensures { result ≡ binary_eq a b }
{
    a == b
}

fn same_name(a: &Option<String>, b: &Option<String>) -> bool
    ensures { result ≡ name_eq (name_view a.now) (name_view b.now) }
{
    match (a, b) {
        (Some(x), Some(y)) => same_text(x, y),
        (None, None) => true,
        _ => false,
    }
}

#[cycle(same)]
fn same_maybe(a: &Option<Expression>, b: &Option<Expression>) -> bool
    ensures { result ≡ maybe_eq (maybe_view a.now) (maybe_view b.now) }
{
    match (a, b) {
        (Some(x), Some(y)) => same(x, y),
        (None, None) => true,
        _ => false,
    }
}

#[cycle(same)]
fn same_filters(a: &Vec<Expression>, b: &Vec<Expression>) -> bool
    ensures { result ≡ filters_eq (filters_view a.now.items) (filters_view b.now.items) }
{
    let mut others = b.iter();
    for x in a {
        match others.next() {
            Some(y) => {
                if !same(x, y) {
                    return false;
                }
            }
            None => return false,
        }
    }
    others.next().is_none()
}

#[cycle(same)]
fn same_args(a: &BTreeMap<String, Expression>, b: &BTreeMap<String, Expression>) -> bool
    ensures { result ≡ args_eq (args_view a.now.entries) (args_view b.now.entries) }
{
    let mut others = b.iter();
    for (name, e) in a.iter() {
        match others.next() {
            Some((other, d)) => {
                if name.as_str() != other.as_str() || !same(e, d) {
                    return false;
                }
            }
            None => return false,
        }
    }
    others.next().is_none()
}

#[cycle(same)]
fn same_entry(a: &MapEntry, b: &MapEntry) -> bool
    ensures { result ≡ entry_eq (entry_view a.now) (entry_view b.now) }
{
    match (a, b) {
        (MapEntry::KeyValue { key: k, value: x }, MapEntry::KeyValue { key: l, value: y }) => {
            k == l && same(x, y)
        }
        (MapEntry::Spread(x), MapEntry::Spread(y)) => same(x, y),
        _ => false,
    }
}

#[cycle(same)]
fn same_entries(a: &Vec<MapEntry>, b: &Vec<MapEntry>) -> bool
    ensures { result ≡ entries_eq (entries_view a.now.items) (entries_view b.now.items) }
{
    let mut others = b.iter();
    for x in a {
        match others.next() {
            Some(y) => {
                if !same_entry(x, y) {
                    return false;
                }
            }
            None => return false,
        }
    }
    others.next().is_none()
}

#[cycle(same)]
fn same_item(a: &ArrayEntry, b: &ArrayEntry) -> bool
    ensures { result ≡ item_eq (item_view a.now) (item_view b.now) }
{
    match (a, b) {
        (ArrayEntry::Item(x), ArrayEntry::Item(y)) => same(x, y),
        (ArrayEntry::Spread(x), ArrayEntry::Spread(y)) => same(x, y),
        _ => false,
    }
}

#[cycle(same)]
fn same_items(a: &Vec<ArrayEntry>, b: &Vec<ArrayEntry>) -> bool
    ensures { result ≡ items_eq (items_view a.now.items) (items_view b.now.items) }
{
    let mut others = b.iter();
    for x in a {
        match others.next() {
            Some(y) => {
                if !same_item(x, y) {
                    return false;
                }
            }
            None => return false,
        }
    }
    others.next().is_none()
}

#[cycle(same)]
fn same_nodes(a: &Vec<Node>, b: &Vec<Node>) -> bool
    ensures { result ≡ nodes_eq (nodes_view a.now.items) (nodes_view b.now.items) }
{
    let mut others = b.iter();
    for x in a {
        match others.next() {
            Some(y) => {
                if !same_node(x, y) {
                    return false;
                }
            }
            None => return false,
        }
    }
    others.next().is_none()
}

#[cycle(same)]
#[tactic(auto, using(crate::proofs::Views::view_shown, crate::proofs::Views::view_set, crate::proofs::Views::view_block, crate::proofs::Views::view_block_set, crate::proofs::Views::view_for, crate::proofs::Views::view_if, crate::proofs::Views::view_section))]
fn same_node(a: &Node, b: &Node) -> bool
    ensures { result ≡ stmt_eq (node_view a.now) (node_view b.now) }
{
    match (a, b) {
        (Node::Content(x), Node::Content(y)) => same_text(x, y),
        (Node::Expression(x), Node::Expression(y)) => same(x, y),
        (Node::Set(x), Node::Set(y)) => {
            same_text(&x.name, &y.name) && same(&x.value, &y.value) && x.global == y.global
        }
        (Node::BlockSet(x), Node::BlockSet(y)) => same_block_set(x, y),
        (Node::Include(x), Node::Include(y)) => {
            same_span(x.name.span(), y.name.span()) && same_text(x.name.node(), y.name.node())
        }
        (Node::Block(x), Node::Block(y)) => {
            same_span(x.name.span(), y.name.span())
                && same_text(x.name.node(), y.name.node())
                && same_nodes(&x.body, &y.body)
        }
        (Node::ForLoop(x), Node::ForLoop(y)) => same_loop(x, y),
        (Node::Break, Node::Break) | (Node::Continue, Node::Continue) => true,
        (Node::If(x), Node::If(y)) => same_choice(x, y),
        (Node::FilterSection(x), Node::FilterSection(y)) => same_section(x, y),
        _ => false,
    }
}

#[cycle(same)]
#[tactic(auto, using(crate::proofs::Views::block_set_out))]
fn same_block_set(a: &BlockSet, b: &BlockSet) -> bool
    ensures { result ≡ stmt_eq (block_set_view a.now) (block_set_view b.now) }
{
    same_text(&a.name, &b.name)
        && same_filters(&a.filters, &b.filters)
        && same_nodes(&a.body, &b.body)
        && a.global == b.global
}

#[cycle(same)]
#[tactic(auto, using(crate::proofs::Views::for_out))]
fn same_loop(a: &ForLoop, b: &ForLoop) -> bool
    ensures { result ≡ stmt_eq (for_view a.now) (for_view b.now) }
{
    same_name(&a.key, &b.key)
        && same_text(&a.value, &b.value)
        && same(&a.target, &b.target)
        && same_nodes(&a.body, &b.body)
        && same_nodes(&a.else_body, &b.else_body)
}

#[cycle(same)]
#[tactic(auto, using(crate::proofs::Views::if_out))]
fn same_choice(a: &If, b: &If) -> bool
    ensures { result ≡ stmt_eq (if_view a.now) (if_view b.now) }
{
    same(&a.expr, &b.expr)
        && same_nodes(&a.body, &b.body)
        && same_nodes(&a.false_body, &b.false_body)
}

#[cycle(same)]
#[tactic(auto, using(crate::proofs::Views::section_out))]
fn same_section(a: &FilterSection, b: &FilterSection) -> bool
    ensures { result ≡ stmt_eq (section_view a.now) (section_view b.now) }
{
    same_filters(&a.filters, &b.filters) && same_nodes(&a.body, &b.body)
}
