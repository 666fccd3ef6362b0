//! The parts of a tree: its nodes and expressions, and what is in each, one level down.
//!
//! A walk takes a part from a stack and puts what is in it there: so it goes along a chain of `elif`s, however long.

ghost use Rattle.std.specs.Prelude.{◌≡◌, [], ◌∷◌, ◌++◌, map, IfOk, OnOk};
ghost use Rattle.std.specs.List.{flat_map};
ghost use Rattle.tera_ast.specs.View.{expression_view, node_view, maybe_view, filters_view, args_view, item_view, items_view, entry_view, entries_view, nodes_of, nodes_view};
ghost use Rattle.tera_ast.specs.declared.ast.BlockSet.{out-BlockSet};
ghost use Rattle.tera_ast.specs.declared.ast.ComponentCall.{out-ComponentCall};
ghost use Rattle.tera_ast.specs.declared.ast.FilterSection.{out-FilterSection};
ghost use Rattle.tera_ast.specs.declared.ast.ForLoop.{out-ForLoop};
ghost use Rattle.tera_ast.specs.declared.ast.If.{out-If};
ghost use Rattle.tera_tree.specs.View.{definition_view};
ghost use Rattle.tera_tree.specs.Parts.{NodePart, ExpressionPart, part_view, parts_view, parts_of_maybe, parts_of_filters, parts_of_args, in_item, parts_of_items, in_entry, parts_of_entries, parts_of_nodes, parts_in_expression, parts_in_node, children, top_parts};

use crate::ast::ComponentDefinition;
use std::alloc::{AllocError, Global};
use std::collections::BTreeMap;
use tera_ast::{
    ArrayEntry, BlockSet, ComponentCall, Expression, FilterSection, ForLoop, If, ListComprehension,
    MapEntry, Node, Slice, Ternary,
};

/// A part of a tree.
#[derive(Clone, Copy)]
pub enum Part<'a> {
    Node(&'a Node),
    Expression(&'a Expression),
}

/// Parts of a tree, from left to right. A walk that takes the last goes from right to left.
pub type Parts<'a> = Vec<Part<'a>>;

/// The parts at the top of a tree: the nodes in the bodies of its definitions, and then its own.
pub fn top_parts<'a>(
    alloc: Global,
    definitions: &'a Vec<ComponentDefinition>,
    nodes: &'a Vec<Node>,
) -> Result<Parts<'a>, AllocError>
    ensures { IfOk result (λ v. parts_view v.items
        ≡ top_parts (map definition_view definitions.now.items) (map node_view nodes.now.items)) }
{
    let mut parts = Vec::new(alloc);
    push_definitions(&mut parts, definitions)?;
    push_nodes(&mut parts, nodes)?;
    Ok(parts)
}

impl<'a> Part<'a> {
    /// Puts what is in the part, one level down, after the parts that are there.
    pub fn push_inside(self, parts: &mut Parts<'a>) -> Result<(), AllocError>
        ensures { OnOk result (parts_view parts.new.items
            ≡ parts_view parts.old.items ++ children (part_view self.entry)) }
    {
        match self {
            Part::Node(node) => push_inside_node(parts, node),
            Part::Expression(expression) => push_inside_expression(parts, expression),
        }
    }
}

fn push_definitions<'a>(
    parts: &mut Parts<'a>,
    definitions: &'a Vec<ComponentDefinition>,
) -> Result<(), AllocError>
    ensures { OnOk result (parts_view parts.new.items ≡ parts_view parts.old.items
        ++ flat_map (λ d. parts_of_nodes (nodes_of d.body))
        (map definition_view definitions.now.items)) }
{
    for definition in definitions {
        push_nodes(parts, &definition.body)?;
    }
    Ok(())
}

/// Puts the nodes after the parts that are there.
pub fn push_nodes<'a>(parts: &mut Parts<'a>, nodes: &'a Vec<Node>) -> Result<(), AllocError>
    ensures { OnOk result (parts_view parts.new.items ≡ parts_view parts.old.items
        ++ parts_of_nodes (nodes_view nodes.now.items)) }
{
    for node in nodes {
        parts.push(Part::Node(node))?;
    }
    Ok(())
}

fn push<'a>(parts: &mut Parts<'a>, expression: &'a Expression) -> Result<(), AllocError>
    ensures { OnOk result (parts_view parts.new.items ≡ parts_view parts.old.items
        ++ (ExpressionPart (expression_view expression.now) ∷ [])) }
{
    parts.push(Part::Expression(expression))?;
    Ok(())
}

fn push_some<'a>(parts: &mut Parts<'a>, some: &'a Option<Expression>) -> Result<(), AllocError>
    ensures { OnOk result (parts_view parts.new.items
        ≡ parts_view parts.old.items ++ parts_of_maybe (maybe_view some.now)) }
{
    match some {
        Some(expression) => push(parts, expression),
        None => Ok(()),
    }
}

fn push_filters<'a>(parts: &mut Parts<'a>, filters: &'a Vec<Expression>) -> Result<(), AllocError>
    ensures { OnOk result (parts_view parts.new.items ≡ parts_view parts.old.items
        ++ parts_of_filters (filters_view filters.now.items)) }
{
    for filter in filters {
        push(parts, filter)?;
    }
    Ok(())
}

fn push_arguments<'a>(
    parts: &mut Parts<'a>,
    arguments: &'a BTreeMap<String, Expression>,
) -> Result<(), AllocError>
    ensures { OnOk result (parts_view parts.new.items ≡ parts_view parts.old.items
        ++ parts_of_args (args_view arguments.now.entries)) }
{
    for (_name, value) in arguments.iter() {
        push(parts, value)?;
    }
    Ok(())
}

#[tactic(auto, using(crate::proofs::PartLemmas::items_more))]
fn push_items<'a>(parts: &mut Parts<'a>, items: &'a Vec<ArrayEntry>) -> Result<(), AllocError>
    ensures { OnOk result (parts_view parts.new.items ≡ parts_view parts.old.items
        ++ parts_of_items (items_view items.now.items)) }
{
    for item in items {
        push_item(parts, item)?;
    }
    Ok(())
}

fn push_item<'a>(parts: &mut Parts<'a>, item: &'a ArrayEntry) -> Result<(), AllocError>
    ensures { OnOk result (parts_view parts.new.items ≡ parts_view parts.old.items
        ++ (ExpressionPart (in_item (item_view item.now)) ∷ [])) }
{
    match item {
        ArrayEntry::Item(expression) => push(parts, expression),
        ArrayEntry::Spread(expression) => push(parts, expression),
    }
}

#[tactic(auto, using(crate::proofs::PartLemmas::entries_more))]
fn push_entries<'a>(parts: &mut Parts<'a>, entries: &'a Vec<MapEntry>) -> Result<(), AllocError>
    ensures { OnOk result (parts_view parts.new.items ≡ parts_view parts.old.items
        ++ parts_of_entries (entries_view entries.now.items)) }
{
    for entry in entries {
        push_entry(parts, entry)?;
    }
    Ok(())
}

fn push_entry<'a>(parts: &mut Parts<'a>, entry: &'a MapEntry) -> Result<(), AllocError>
    ensures { OnOk result (parts_view parts.new.items ≡ parts_view parts.old.items
        ++ (ExpressionPart (in_entry (entry_view entry.now)) ∷ [])) }
{
    match entry {
        MapEntry::KeyValue { key: _, value } => push(parts, value),
        MapEntry::Spread(expression) => push(parts, expression),
    }
}

fn push_inside_node<'a>(parts: &mut Parts<'a>, node: &'a Node) -> Result<(), AllocError>
    ensures { OnOk result (parts_view parts.new.items
        ≡ parts_view parts.old.items ++ parts_in_node (node_view node.now)) }
{
    match node {
        Node::Content(_) => Ok(()),
        Node::Expression(expression) => push(parts, expression),
        Node::Set(set) => push(parts, &set.value),
        Node::BlockSet(set) => push_block_set(parts, set),
        Node::Include(_) => Ok(()),
        Node::Block(block) => push_nodes(parts, &block.body),
        Node::ForLoop(turns) => push_loop(parts, turns),
        Node::Break => Ok(()),
        Node::Continue => Ok(()),
        Node::If(choice) => push_choice(parts, choice),
        Node::FilterSection(section) => push_section(parts, section),
    }
}

fn push_block_set<'a>(parts: &mut Parts<'a>, set: &'a BlockSet) -> Result<(), AllocError>
    ensures { let s = out-BlockSet set.now in OnOk result (parts_view parts.new.items
        ≡ parts_view parts.old.items
        ++ (parts_of_filters (filters_view s.filters.items)
        ++ parts_of_nodes (nodes_view s.body.items))) }
{
    push_filters(parts, &set.filters)?;
    push_nodes(parts, &set.body)
}

fn push_section<'a>(parts: &mut Parts<'a>, section: &'a FilterSection) -> Result<(), AllocError>
    ensures { let s = out-FilterSection section.now in OnOk result (parts_view parts.new.items
        ≡ parts_view parts.old.items
        ++ (parts_of_filters (filters_view s.filters.items)
        ++ parts_of_nodes (nodes_view s.body.items))) }
{
    push_filters(parts, &section.filters)?;
    push_nodes(parts, &section.body)
}

fn push_loop<'a>(parts: &mut Parts<'a>, turns: &'a ForLoop) -> Result<(), AllocError>
    ensures { let t = out-ForLoop turns.now in OnOk result (parts_view parts.new.items
        ≡ parts_view parts.old.items
        ++ (ExpressionPart (expression_view t.target)
        ∷ (parts_of_nodes (nodes_view t.body.items)
        ++ parts_of_nodes (nodes_view t.else_body.items)))) }
{
    push(parts, &turns.target)?;
    push_nodes(parts, &turns.body)?;
    push_nodes(parts, &turns.else_body)
}

fn push_choice<'a>(parts: &mut Parts<'a>, choice: &'a If) -> Result<(), AllocError>
    ensures { let i = out-If choice.now in OnOk result (parts_view parts.new.items
        ≡ parts_view parts.old.items
        ++ (ExpressionPart (expression_view i.expr)
        ∷ (parts_of_nodes (nodes_view i.body.items)
        ++ parts_of_nodes (nodes_view i.false_body.items)))) }
{
    push(parts, &choice.expr)?;
    push_nodes(parts, &choice.body)?;
    push_nodes(parts, &choice.false_body)
}

fn push_inside_expression<'a>(
    parts: &mut Parts<'a>,
    expression: &'a Expression,
) -> Result<(), AllocError>
    ensures { OnOk result (parts_view parts.new.items ≡ parts_view parts.old.items
        ++ parts_in_expression (expression_view expression.now)) }
{
    match expression {
        Expression::Const(_) => Ok(()),
        Expression::Array(array) => push_items(parts, &array.node().items),
        Expression::Map(map) => push_entries(parts, &map.node().entries),
        Expression::Var(_) => Ok(()),
        Expression::GetAttr(field) => push(parts, &field.node().expr),
        Expression::GetItem(item) => push_both(parts, &item.node().expr, &item.node().sub_expr),
        Expression::Slice(slice) => push_slice(parts, slice.node()),
        Expression::Filter(filter) => push_with(parts, &filter.node().expr, &filter.node().kwargs),
        Expression::Test(test) => push_with(parts, &test.node().expr, &test.node().kwargs),
        Expression::Ternary(choice) => push_ternary(parts, choice.node()),
        Expression::ListComprehension(list) => push_comprehension(parts, list.node()),
        Expression::ComponentCall(call) => push_call(parts, call.node()),
        Expression::FunctionCall(call) => push_arguments(parts, &call.node().kwargs),
        Expression::UnaryOperation(operation) => push(parts, &operation.node().expr),
        Expression::BinaryOperation(operation) => {
            push_both(parts, &operation.node().left, &operation.node().right)
        }
    }
}

fn push_both<'a>(
    parts: &mut Parts<'a>,
    first: &'a Expression,
    second: &'a Expression,
) -> Result<(), AllocError>
    ensures { OnOk result (parts_view parts.new.items ≡ parts_view parts.old.items
        ++ (ExpressionPart (expression_view first.now)
        ∷ ExpressionPart (expression_view second.now) ∷ [])) }
{
    push(parts, first)?;
    push(parts, second)
}

// An expression, and after it arguments by their names.
fn push_with<'a>(
    parts: &mut Parts<'a>,
    expression: &'a Expression,
    arguments: &'a BTreeMap<String, Expression>,
) -> Result<(), AllocError>
    ensures { OnOk result (parts_view parts.new.items ≡ parts_view parts.old.items
        ++ (ExpressionPart (expression_view expression.now)
        ∷ parts_of_args (args_view arguments.now.entries))) }
{
    push(parts, expression)?;
    push_arguments(parts, arguments)
}

fn push_slice<'a>(parts: &mut Parts<'a>, slice: &'a Slice) -> Result<(), AllocError>
    ensures { OnOk result (parts_view parts.new.items ≡ parts_view parts.old.items
        ++ (ExpressionPart (expression_view slice.now.expr)
        ∷ (parts_of_maybe (maybe_view slice.now.start)
        ++ (parts_of_maybe (maybe_view slice.now.end)
        ++ parts_of_maybe (maybe_view slice.now.step))))) }
{
    push(parts, &slice.expr)?;
    push_some(parts, &slice.start)?;
    push_some(parts, &slice.end)?;
    push_some(parts, &slice.step)
}

fn push_ternary<'a>(parts: &mut Parts<'a>, choice: &'a Ternary) -> Result<(), AllocError>
    ensures { OnOk result (parts_view parts.new.items ≡ parts_view parts.old.items
        ++ (ExpressionPart (expression_view choice.now.true_expr)
        ∷ ExpressionPart (expression_view choice.now.expr)
        ∷ ExpressionPart (expression_view choice.now.false_expr) ∷ [])) }
{
    push(parts, &choice.true_expr)?;
    push(parts, &choice.expr)?;
    push(parts, &choice.false_expr)
}

fn push_comprehension<'a>(
    parts: &mut Parts<'a>,
    list: &'a ListComprehension,
) -> Result<(), AllocError>
    ensures { OnOk result (parts_view parts.new.items ≡ parts_view parts.old.items
        ++ (ExpressionPart (expression_view list.now.expr)
        ∷ ExpressionPart (expression_view list.now.target)
        ∷ parts_of_maybe (maybe_view list.now.condition))) }
{
    push(parts, &list.expr)?;
    push(parts, &list.target)?;
    push_some(parts, &list.condition)
}

fn push_call<'a>(parts: &mut Parts<'a>, call: &'a ComponentCall) -> Result<(), AllocError>
    ensures { let c = out-ComponentCall call.now in OnOk result (parts_view parts.new.items
        ≡ parts_view parts.old.items
        ++ (parts_of_entries (entries_view c.kwargs.items)
        ++ parts_of_nodes (nodes_view c.body.items))) }
{
    push_entries(parts, &call.kwargs)?;
    push_nodes(parts, &call.body)
}
