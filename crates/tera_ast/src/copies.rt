//! Copies of expressions and nodes, which may fail to allocate.

mod bodies;

ghost use Rattle.std.specs.Prelude.{◌≡◌, IfOk, map, string_bytes};
ghost use Rattle.tera_ast.specs.View.{expression_view, node_view, block_set_view, for_view, if_view, section_view, name_view, maybe_view, args_view, item_view, keyed_view, entries_view};
ghost use Rattle.tera_base.specs.Spanned.{node_of, span_of};

use crate::ast::{ArrayEntry, BlockSet, Expression, FilterSection, ForLoop, If, MapEntry, Node};
use crate::build;
use std::alloc::{AllocError, Global};
use std::collections::BTreeMap;
use tera_base::Spanned;

impl Clone for Expression {
    ghost is_clone = { λ e c. expression_view c ≡ expression_view e };

    fn clone(&self) -> Result<Expression, AllocError> {
        copy(self)
    }
}

#[cycle(copy)]
#[tactic(auto, using(crate::proofs::Views::view_const, crate::proofs::Views::view_array, crate::proofs::Views::view_var, crate::proofs::Views::view_get_attr, crate::proofs::Views::view_get_item, crate::proofs::Views::view_slice, crate::proofs::Views::view_filter, crate::proofs::Views::view_test, crate::proofs::Views::view_ternary, crate::proofs::Views::view_comprehension, crate::proofs::Views::view_call, crate::proofs::Views::view_function_call, crate::proofs::Views::view_unary, crate::proofs::Views::view_binary, crate::proofs::Views::view_map))]
fn copy(e: &Expression) -> Result<Expression, AllocError>
    ensures { IfOk result (λ c. expression_view c ≡ expression_view e.now) }
{
    match e {
        Expression::Const(s) => {
            let value = s.node().clone()?;
            build::constant(s.allocator(), value, s.span().copied())
        }
        Expression::Array(s) => {
            let node = s.node();
            let alloc = s.allocator();
            let items = copy_items(alloc, &node.items)?;
            build::array(alloc, items, s.span().copied())
        }
        Expression::Map(s) => {
            let node = s.node();
            let alloc = s.allocator();
            let entries = copy_attributes(alloc, &node.entries)?;
            build::map(alloc, entries, s.span().copied())
        }
        Expression::Var(s) => {
            let node = s.node();
            let alloc = s.allocator();
            let name = node.name.clone()?;
            build::variable(alloc, name, s.span().copied())
        }
        Expression::GetAttr(s) => {
            let node = s.node();
            let alloc = s.allocator();
            let expr = copy(&node.expr)?;
            let name = node.name.clone()?;
            build::get_attr(alloc, expr, name, node.optional, s.span().copied())
        }
        Expression::GetItem(s) => {
            let node = s.node();
            let alloc = s.allocator();
            let expr = copy(&node.expr)?;
            let sub_expr = copy(&node.sub_expr)?;
            build::get_item(alloc, expr, sub_expr, node.optional, s.span().copied())
        }
        Expression::Slice(s) => {
            let node = s.node();
            let alloc = s.allocator();
            let expr = copy(&node.expr)?;
            let start = copy_maybe(&node.start)?;
            let end = copy_maybe(&node.end)?;
            let step = copy_maybe(&node.step)?;
            build::slice(
                alloc,
                expr,
                start,
                end,
                step,
                node.optional,
                s.span().copied(),
            )
        }
        Expression::Filter(s) => {
            let node = s.node();
            let alloc = s.allocator();
            let expr = copy(&node.expr)?;
            let name = node.name.clone()?;
            let kwargs = copy_args(alloc, &node.kwargs)?;
            build::filter(alloc, expr, name, kwargs, s.span().copied())
        }
        Expression::Test(s) => {
            let node = s.node();
            let alloc = s.allocator();
            let expr = copy(&node.expr)?;
            let name = node.name.clone()?;
            let kwargs = copy_args(alloc, &node.kwargs)?;
            build::test(alloc, expr, name, kwargs, s.span().copied())
        }
        Expression::Ternary(s) => {
            let node = s.node();
            let alloc = s.allocator();
            let expr = copy(&node.expr)?;
            let true_expr = copy(&node.true_expr)?;
            let false_expr = copy(&node.false_expr)?;
            build::ternary(alloc, expr, true_expr, false_expr, s.span().copied())
        }
        Expression::ListComprehension(s) => {
            let node = s.node();
            let alloc = s.allocator();
            let expr = copy(&node.expr)?;
            let key = copy_name(&node.key)?;
            let value = node.value.clone()?;
            let target = copy(&node.target)?;
            let condition = copy_maybe(&node.condition)?;
            build::comprehension(
                alloc,
                expr,
                key,
                value,
                target,
                condition,
                s.span().copied(),
            )
        }
        Expression::ComponentCall(s) => {
            let node = s.node();
            let alloc = s.allocator();
            let name = node.name.clone()?;
            let kwargs = copy_attributes(alloc, &node.kwargs)?;
            let body = copy_nodes(alloc, &node.body)?;
            build::component_call(
                alloc,
                name,
                kwargs,
                body,
                node.self_closing,
                s.span().copied(),
            )
        }
        Expression::FunctionCall(s) => {
            let node = s.node();
            let alloc = s.allocator();
            let name = node.name.clone()?;
            let kwargs = copy_args(alloc, &node.kwargs)?;
            build::function_call(alloc, name, kwargs, s.span().copied())
        }
        Expression::UnaryOperation(s) => {
            let node = s.node();
            let alloc = s.allocator();
            let expr = copy(&node.expr)?;
            build::unary(alloc, node.op, expr, s.span().copied())
        }
        Expression::BinaryOperation(s) => {
            let node = s.node();
            let alloc = s.allocator();
            let left = copy(&node.left)?;
            let right = copy(&node.right)?;
            build::binary(alloc, node.op, left, right, s.span().copied())
        }
    }
}

fn copy_name(name: &Option<String>) -> Result<Option<String>, AllocError>
    ensures { IfOk result (λ n. name_view n ≡ name_view name.now) }
{
    match name {
        Some(s) => Ok(Some(s.clone()?)),
        None => Ok(None),
    }
}

#[cycle(copy)]
fn copy_maybe(e: &Option<Expression>) -> Result<Option<Expression>, AllocError>
    ensures { IfOk result (λ c. maybe_view c ≡ maybe_view e.now) }
{
    match e {
        Some(e) => Ok(Some(copy(e)?)),
        None => Ok(None),
    }
}

#[cycle(copy)]
fn copy_args(
    alloc: Global,
    args: &BTreeMap<String, Expression>,
) -> Result<BTreeMap<String, Expression>, AllocError>
    ensures { IfOk result (λ c. args_view c.entries ≡ args_view args.now.entries) }
{
    let mut copies = BTreeMap::new(alloc);
    for (name, e) in args.iter() {
        let name = name.clone()?;
        drop(copies.insert(name, copy(e)?)?);
    }
    Ok(copies)
}

#[cycle(copy)]
fn copy_items(alloc: Global, items: &Vec<ArrayEntry>) -> Result<Vec<ArrayEntry>, AllocError>
    ensures { IfOk result (λ c. map item_view c.items ≡ map item_view items.now.items) }
{
    let mut copies = Vec::with_capacity(alloc, items.len())?;
    for item in items {
        let item = match item {
            ArrayEntry::Item(e) => ArrayEntry::Item(copy(e)?),
            ArrayEntry::Spread(e) => ArrayEntry::Spread(copy(e)?),
        };
        copies.push(item)?;
    }
    Ok(copies)
}

#[cycle(copy)]
fn copy_filters(alloc: Global, filters: &Vec<Expression>) -> Result<Vec<Expression>, AllocError>
    ensures { IfOk result (λ c.
        map expression_view c.items ≡ map expression_view filters.now.items) }
{
    let mut copies = Vec::with_capacity(alloc, filters.len())?;
    for filter in filters {
        copies.push(copy(filter)?)?;
    }
    Ok(copies)
}

#[cycle(copy)]
fn copy_entries(alloc: Global, entries: &Vec<MapEntry>) -> Result<Vec<MapEntry>, AllocError>
    ensures { IfOk result (λ c. map keyed_view c.items ≡ map keyed_view entries.now.items) }
{
    let mut copies = Vec::with_capacity(alloc, entries.len())?;
    for entry in entries {
        let entry = match entry {
            MapEntry::KeyValue { key, value } => {
                let key = key.clone()?;
                let value = copy(value)?;
                MapEntry::KeyValue { key, value }
            }
            MapEntry::Spread(e) => MapEntry::Spread(copy(e)?),
        };
        copies.push(entry)?;
    }
    Ok(copies)
}

#[cycle(copy)]
fn copy_nodes(alloc: Global, nodes: &Vec<Node>) -> Result<Vec<Node>, AllocError>
    ensures { IfOk result (λ c. map node_view c.items ≡ map node_view nodes.now.items) }
{
    let mut copies = Vec::with_capacity(alloc, nodes.len())?;
    for node in nodes {
        copies.push(copy_node(node)?)?;
    }
    Ok(copies)
}

impl Clone for Node {
    ghost is_clone = { λ n c. node_view c ≡ node_view n };

    fn clone(&self) -> Result<Node, AllocError> {
        copy_node(self)
    }
}

#[cycle(copy)]
#[tactic(auto, using(crate::proofs::Views::view_shown, crate::proofs::Views::view_set, crate::proofs::Views::view_block, crate::proofs::Views::view_block_set, crate::proofs::Views::view_for, crate::proofs::Views::view_if, crate::proofs::Views::view_section))]
fn copy_node(node: &Node) -> Result<Node, AllocError>
    ensures { IfOk result (λ c. node_view c ≡ node_view node.now) }
{
    match node {
        Node::Content(text) => Ok(Node::Content(text.clone()?)),
        Node::Expression(e) => Ok(Node::Expression(copy(e)?)),
        Node::Set(set) => {
            let name = set.name.clone()?;
            let value = copy(&set.value)?;
            Ok(build::set(name, value, set.global))
        }
        Node::BlockSet(set) => Ok(Node::BlockSet(copy_block_set(set)?)),
        Node::Include(include) => Ok(build::include(copy_named(&include.name)?)),
        Node::Block(block) => {
            let name = copy_named(&block.name)?;
            let body = copy_nodes(*block.body.allocator(), &block.body)?;
            Ok(build::block(name, body))
        }
        Node::ForLoop(turns) => Ok(Node::ForLoop(copy_loop(turns)?)),
        Node::Break => Ok(Node::Break),
        Node::Continue => Ok(Node::Continue),
        Node::If(choice) => Ok(Node::If(copy_choice(choice)?)),
        Node::FilterSection(section) => Ok(Node::FilterSection(copy_section(section)?)),
    }
}

#[cycle(copy)]
#[tactic(auto, using(crate::proofs::Views::block_set_out))]
fn copy_block_set(set: &BlockSet) -> Result<BlockSet, AllocError>
    ensures { IfOk result (λ c. block_set_view c ≡ block_set_view set.now) }
{
    let name = set.name.clone()?;
    let filters = copy_filters(*set.filters.allocator(), &set.filters)?;
    let body = copy_nodes(*set.body.allocator(), &set.body)?;
    Ok(BlockSet {
        name,
        filters,
        body,
        global: set.global,
    })
}

#[cycle(copy)]
#[tactic(auto, using(crate::proofs::Views::for_out))]
fn copy_loop(turns: &ForLoop) -> Result<ForLoop, AllocError>
    ensures { IfOk result (λ c. for_view c ≡ for_view turns.now) }
{
    let key = copy_name(&turns.key)?;
    let value = turns.value.clone()?;
    let target = copy(&turns.target)?;
    let body = copy_nodes(*turns.body.allocator(), &turns.body)?;
    let else_body = copy_nodes(*turns.else_body.allocator(), &turns.else_body)?;
    Ok(ForLoop {
        key,
        value,
        target,
        body,
        else_body,
    })
}

#[cycle(copy)]
#[tactic(auto, using(crate::proofs::Views::if_out))]
fn copy_choice(choice: &If) -> Result<If, AllocError>
    ensures { IfOk result (λ c. if_view c ≡ if_view choice.now) }
{
    let expr = copy(&choice.expr)?;
    let body = copy_nodes(*choice.body.allocator(), &choice.body)?;
    let false_body = copy_nodes(*choice.false_body.allocator(), &choice.false_body)?;
    Ok(If {
        expr,
        body,
        false_body,
    })
}

#[cycle(copy)]
#[tactic(auto, using(crate::proofs::Views::section_out))]
fn copy_section(section: &FilterSection) -> Result<FilterSection, AllocError>
    ensures { IfOk result (λ c. section_view c ≡ section_view section.now) }
{
    let filters = copy_filters(*section.filters.allocator(), &section.filters)?;
    let body = copy_nodes(*section.body.allocator(), &section.body)?;
    Ok(FilterSection { filters, body })
}

fn copy_named(name: &Spanned<String>) -> Result<Spanned<String>, AllocError>
    ensures node { IfOk result (λ s. string_bytes (node_of s) ≡ string_bytes (node_of name.now)) }
    ensures span { IfOk result (λ s. span_of s ≡ span_of name.now) }
{
    let text = name.node().clone()?;
    Spanned::new(name.allocator(), text, name.span().copied())
}

#[cycle(copy)]
#[tactic(auto, using(crate::proofs::Copying::entries_same))]
fn copy_attributes(alloc: Global, entries: &Vec<MapEntry>) -> Result<Vec<MapEntry>, AllocError>
    ensures { IfOk result (λ c. entries_view c.items ≡ entries_view entries.now.items) }
{
    let copies = copy_entries(alloc, entries)?;
    Ok(copies)
}
