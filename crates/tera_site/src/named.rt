//! What is found of the names of templates, and of blocks: what a template extends and includes is there, and does not
//! lead back to it; its blocks are blocks of what it extends; and each `super()` has a block to show.

ghost use Rattle.std.specs.Prelude.{◌≡◌, ◌++◌, ◌∷◌, [], ℕ, List, false, Option, Some, MatchOption, map, OnOk, IfOk, string_bytes};
ghost use Rattle.std.specs.List.{filter, flat_map};
ghost use Rattle.std.specs.List.Sorted.{IsPermutation};
ghost use Rattle.std.specs.Option.{option_map};
ghost use Rattle.tera_base.specs.Spanned.{node_of, span_of};
ghost use Rattle.tera_ast.specs.Tree.{Block};
ghost use Rattle.tera_ast.specs.View.{node_view, nodes_view};
ghost use Rattle.tera_tree.specs.Outputs.{output_view};
ghost use Rattle.tera_tree.specs.Parts.{NodePart, children, part_view};
ghost use Rattle.tera_check.specs.Due.{is_due};
ghost use Rattle.tera_findings.specs.Findings.{FindingOf, finding_view, span_if_any};
ghost use Rattle.tera_check.specs.OrderAndStatus.{IsInOrder};
ghost use Rattle.tera_site.specs.Inside.{inside_parts, to_come};
ghost use Rattle.tera_site.specs.Views.{around_view};
ghost use Rattle.tera_site.specs.Named.{missing, parent_findings, include_findings, blocks_findings, block_findings, inherited_block, super_call, super_findings, super_outside, site_part, names_findings, due_names};
ghost use Rattle.tera_site.specs.Placed.{all_placed, around_in, placed_in, placed_nodes, placed_parts_of};

use crate::messages;
use crate::site::Around;
use std::alloc::{AllocError, Global};
use tera_check::{Finding, Kind, Template, push_due, put_in_order, tree_of};
use tera_parser::ParserOutput;
use tera_parser::ast::{
    Block, Expression, FunctionCall, Include, Node, Part, Parts, push_nodes, top_parts,
};
use tera_parser::value::{Span, Spanned};

/// What is found of the names that the template has, by what is around it, in the order of the places. Nothing is found
/// that comes from what was written for a fault, or that an ignore of the template silences.
pub fn names_found(
    alloc: Global,
    around: Around<'_, '_>,
    template: &Template,
) -> Result<Vec<Finding>, AllocError>
    ensures ordered { IfOk result (λ v. IsInOrder v.items) }
    ensures found { IfOk result (λ v. IsPermutation (due_names (around_view around.entry) template.now)
        (map finding_view v.items)) }
{
    let mut due = names_due(alloc, around, template)?;
    put_in_order(&mut due)?;
    Ok(due)
}

/// The same in another order: what it extends, then its blocks, then what is in their bodies and beside them.
pub fn names_due(
    alloc: Global,
    around: Around<'_, '_>,
    template: &Template,
) -> Result<Vec<Finding>, AllocError>
    ensures { IfOk result (λ v. map finding_view v.items
        ≡ due_names (around_view around.entry) template.now) }
{
    match tree_of(template) {
        Some(output) => due_in_tree(alloc, around, template, output),
        None => Ok(Vec::new(alloc)),
    }
}

fn due_in_tree(
    alloc: Global,
    around: Around<'_, '_>,
    template: &Template,
    output: &ParserOutput,
) -> Result<Vec<Finding>, AllocError>
    ensures { let span = span_if_any template.now.parent_at in
        IfOk result (λ v. map finding_view v.items ≡ filter (is_due false template.now)
        (names_findings (around_view around.entry) span (output_view output.now))) }
{
    let mut found = Vec::new(alloc);
    push_names(alloc, &mut found, around, template, output)?;
    let mut due = Vec::new(alloc);
    push_due(alloc, &mut due, false, template, found)?;
    Ok(due)
}

// Adds what is found in the tree.
fn push_names(
    alloc: Global,
    findings: &mut Vec<Finding>,
    around: Around<'_, '_>,
    template: &Template,
    output: &ParserOutput,
) -> Result<(), AllocError>
    ensures { OnOk result (map finding_view findings.new.items ≡ map finding_view findings.old.items
        ++ names_findings (around_view around.entry) (span_if_any template.now.parent_at) (output_view output.now)) }
{
    push_parent(alloc, findings, around, template, output)?;
    push_blocks(alloc, findings, around, output)?;
    push_parts(alloc, findings, around, output)
}

fn push_parent(
    alloc: Global,
    findings: &mut Vec<Finding>,
    around: Around<'_, '_>,
    template: &Template,
    output: &ParserOutput,
) -> Result<(), AllocError>
    ensures { OnOk result (map finding_view findings.new.items ≡ map finding_view findings.old.items
        ++ parent_findings (around_view around.entry) (span_if_any template.now.parent_at) (output_view output.now).parent) }
{
    match &output.parent {
        Some(parent) => {
            let span = parent_span(template);
            push_parent_named(alloc, findings, around, parent.as_str(), &span)
        }
        None => Ok(()),
    }
}

// Where the name of the template that it extends is; if that is not known, the start of the file.
fn parent_span(template: &Template) -> Span
    ensures { result ≡ span_if_any template.now.parent_at }
{
    match &template.parent_at {
        Some(span) => span.copied(),
        None => Span {
            start_line: 1,
            start_col: 0,
            end_line: 1,
            end_col: 0,
            range: 0..0,
        },
    }
}

fn push_parent_named(
    alloc: Global,
    findings: &mut Vec<Finding>,
    around: Around<'_, '_>,
    name: &str,
    span: &Span,
) -> Result<(), AllocError>
    ensures { OnOk result (map finding_view findings.new.items ≡ map finding_view findings.old.items
        ++ parent_findings (around_view around.entry) span.now (Some name.now)) }
{
    if !around.has(name) {
        return push_missing(alloc, findings, name, span);
    }
    if around.extends_itself() {
        let message = messages::circular_extends(alloc, name)?;
        return push_found(alloc, findings, Kind::CircularExtends, span, message);
    }
    Ok(())
}

fn push_missing(
    alloc: Global,
    findings: &mut Vec<Finding>,
    name: &str,
    span: &Span,
) -> Result<(), AllocError>
    ensures { OnOk result (map finding_view findings.new.items ≡ map finding_view findings.old.items
        ++ (missing name.now span.now ∷ [])) }
{
    let message = messages::missing_template(alloc, name)?;
    push_found(alloc, findings, Kind::MissingTemplate, span, message)
}

fn push_include(
    alloc: Global,
    findings: &mut Vec<Finding>,
    around: Around<'_, '_>,
    include: &Include,
) -> Result<(), AllocError>
    ensures { OnOk result (map finding_view findings.new.items ≡ map finding_view findings.old.items
        ++ include_findings (around_view around.entry) (string_bytes (node_of include.now.name)) (span_of include.now.name)) }
{
    let name = include.name.node().as_str();
    let span = include.name.span();
    if !around.has(name) {
        return push_missing(alloc, findings, name, span);
    }
    if around.comes_back(name) {
        let message = messages::circular_include(alloc, name)?;
        return push_found(alloc, findings, Kind::CircularInclude, span, message);
    }
    Ok(())
}

// Adds the blocks at the top of a template that extends another. A block that is in another one is shown with that.
fn push_blocks(
    alloc: Global,
    findings: &mut Vec<Finding>,
    around: Around<'_, '_>,
    output: &ParserOutput,
) -> Result<(), AllocError>
    ensures { let o = output_view output.now in
        OnOk result (map finding_view findings.new.items ≡ map finding_view findings.old.items
        ++ blocks_findings (around_view around.entry) o.parent o.nodes) }
{
    match &output.parent {
        Some(_) => push_all_blocks(alloc, findings, around, &output.nodes),
        None => Ok(()),
    }
}

fn push_all_blocks(
    alloc: Global,
    findings: &mut Vec<Finding>,
    around: Around<'_, '_>,
    nodes: &Vec<Node>,
) -> Result<(), AllocError>
    ensures { OnOk result (map finding_view findings.new.items ≡ map finding_view findings.old.items
        ++ flat_map (block_findings (around_view around.entry)) (map node_view nodes.now.items)) }
{
    for node in nodes {
        push_if_block(alloc, findings, around, node)?;
    }
    Ok(())
}

fn push_if_block(
    alloc: Global,
    findings: &mut Vec<Finding>,
    around: Around<'_, '_>,
    node: &Node,
) -> Result<(), AllocError>
    ensures { OnOk result (map finding_view findings.new.items ≡ map finding_view findings.old.items
        ++ block_findings (around_view around.entry) (node_view node.now)) }
{
    if let Node::Block(block) = node {
        return push_block(alloc, findings, around, &block.name);
    }
    Ok(())
}

fn push_block(
    alloc: Global,
    findings: &mut Vec<Finding>,
    around: Around<'_, '_>,
    block: &Spanned<String>,
) -> Result<(), AllocError>
    ensures { OnOk result (map finding_view findings.new.items ≡ map finding_view findings.old.items
        ++ inherited_block (around_view around.entry) (string_bytes (node_of block.now)) (span_of block.now)) }
{
    let name = block.node().as_str();
    if around.lacks(name) {
        let message = messages::undefined_block(alloc, name)?;
        return push_found(alloc, findings, Kind::UndefinedBlock, block.span(), message);
    }
    Ok(())
}

// Parts that are still to be taken, and the name of the block around them.
#[derive(Drop)]
struct Inside<'a> {
    block: Option<&'a str>,
    parts: Parts<'a>,
}

fn push_parts(
    alloc: Global,
    findings: &mut Vec<Finding>,
    around: Around<'_, '_>,
    output: &ParserOutput,
) -> Result<(), AllocError>
    ensures { OnOk result (map finding_view findings.new.items ≡ map finding_view findings.old.items
        ++ flat_map (site_part (around_view around.entry)) (placed_parts_of (output_view output.now))) }
{
    let mut left = Vec::new(alloc);
    let parts = top_parts(alloc, &output.component_definitions, &output.nodes)?;
    left.push(Inside { block: None, parts })?;
    for _part in 0..u64::MAX {
        match left.pop() {
            Some(inside) => take_last(alloc, findings, around, &mut left, inside)?,
            None => return Ok(()),
        }
    }
    Err(AllocError)
}

// Takes the last part, if there is one. The parts inside it come next.
fn take_last<'a>(
    alloc: Global,
    findings: &mut Vec<Finding>,
    around: Around<'_, '_>,
    left: &mut Vec<Inside<'a>>,
    mut inside: Inside<'a>,
) -> Result<(), AllocError>
    ensures { let found = flat_map (site_part (around_view around.entry)) in
        OnOk result (map finding_view findings.new.items ++ found (to_come left.new.items)
        ≡ map finding_view findings.old.items ++ found (to_come (left.old.items ++ inside.entry ∷ []))) }
{
    match inside.parts.pop() {
        Some(part) => {
            push_part(alloc, findings, around, inside.block, part)?;
            put_inside(alloc, left, inside, part)?;
            Ok(())
        }
        None => Ok(()),
    }
}

// Puts what is in the part next, before the others.
fn put_inside<'a>(
    alloc: Global,
    left: &mut Vec<Inside<'a>>,
    inside: Inside<'a>,
    part: Part<'a>,
) -> Result<(), AllocError>
    ensures { OnOk result (to_come left.new.items
        ≡ placed_in (option_map (λ b. b.now) inside.entry.block) (part_view part.entry)
        ++ (inside_parts inside.entry ++ to_come left.old.items)) }
{
    match block_in(part) {
        Some(block) => {
            put_block(alloc, left, inside, block)?;
            Ok(())
        }
        None => {
            put_parts(left, inside, part)?;
            Ok(())
        }
    }
}

// The block that the part is, if it is one.
fn block_in<'a>(part: Part<'a>) -> Option<&'a Block>
    ensures { (b : Option (List ℕ)) → MatchOption result
        (around_in b (part_view part.entry) ≡ b)
        (λ block. part_view part.entry ≡ NodePart (Block (string_bytes (node_of block.now.name))
        (span_of block.now.name) (nodes_view block.now.body.items))) }
{
    match part {
        Part::Node(Node::Block(block)) => Some(block),
        Part::Node(_) | Part::Expression(_) => None,
    }
}

fn put_block<'a>(
    alloc: Global,
    left: &mut Vec<Inside<'a>>,
    inside: Inside<'a>,
    block: &'a Block,
) -> Result<(), AllocError>
    ensures { OnOk result (to_come left.new.items
        ≡ placed_nodes (Some (string_bytes (node_of block.now.name))) (nodes_view block.now.body.items)
        ++ (inside_parts inside.entry ++ to_come left.old.items)) }
{
    left.push(inside)?;
    left.push(inside_block(alloc, block)?)?;
    Ok(())
}

fn put_parts<'a>(
    left: &mut Vec<Inside<'a>>,
    mut inside: Inside<'a>,
    part: Part<'a>,
) -> Result<(), AllocError>
    ensures { let b = option_map (λ b. b.now) inside.entry.block in
        OnOk result (to_come left.new.items ≡ all_placed b (children (part_view part.entry))
        ++ (inside_parts inside.entry ++ to_come left.old.items)) }
{
    part.push_inside(&mut inside.parts)?;
    left.push(inside)?;
    Ok(())
}

fn inside_block(alloc: Global, block: &Block) -> Result<Inside<'_>, AllocError>
    ensures { IfOk result (λ s. inside_parts s
        ≡ placed_nodes (Some (string_bytes (node_of block.now.name))) (nodes_view block.now.body.items)) }
{
    let mut parts = Vec::new(alloc);
    push_nodes(&mut parts, &block.body)?;
    Ok(Inside {
        block: Some(block.name.node().as_str()),
        parts,
    })
}

// Adds what is found in a part by itself; `block` is the block that it is in.
fn push_part(
    alloc: Global,
    findings: &mut Vec<Finding>,
    around: Around<'_, '_>,
    block: Option<&str>,
    part: Part<'_>,
) -> Result<(), AllocError>
    ensures { OnOk result (map finding_view findings.new.items ≡ map finding_view findings.old.items
        ++ site_part (around_view around.entry) (option_map (λ b. b.now) block.entry, part_view part.entry)) }
{
    match part {
        Part::Node(Node::Include(include)) => push_include(alloc, findings, around, include),
        Part::Expression(Expression::FunctionCall(call)) => {
            push_if_super(alloc, findings, around, block, call)
        }
        Part::Node(_) | Part::Expression(_) => Ok(()),
    }
}

fn push_if_super(
    alloc: Global,
    findings: &mut Vec<Finding>,
    around: Around<'_, '_>,
    block: Option<&str>,
    call: &Spanned<FunctionCall>,
) -> Result<(), AllocError>
    ensures { OnOk result (map finding_view findings.new.items ≡ map finding_view findings.old.items
        ++ super_call (around_view around.entry) (option_map (λ b. b.now) block.entry)
        (string_bytes (node_of call.now).name) (span_of call.now)) }
{
    if call.node().name.as_str() != "super" {
        return Ok(());
    }
    match block {
        Some(block) => push_super(alloc, findings, around, block, call.span()),
        None => push_super_outside(alloc, findings, call.span()),
    }
}

fn push_super(
    alloc: Global,
    findings: &mut Vec<Finding>,
    around: Around<'_, '_>,
    block: &str,
    span: &Span,
) -> Result<(), AllocError>
    ensures { OnOk result (map finding_view findings.new.items ≡ map finding_view findings.old.items
        ++ super_findings (around_view around.entry) (Some block.now) span.now) }
{
    if around.lacks(block) {
        let message = messages::super_without_parent(alloc, block)?;
        return push_found(alloc, findings, Kind::SuperWithoutParent, span, message);
    }
    Ok(())
}

fn push_super_outside(
    alloc: Global,
    findings: &mut Vec<Finding>,
    span: &Span,
) -> Result<(), AllocError>
    ensures { OnOk result (map finding_view findings.new.items ≡ map finding_view findings.old.items
        ++ (super_outside span.now ∷ [])) }
{
    let message = messages::super_outside(alloc)?;
    push_found(alloc, findings, Kind::SuperWithoutParent, span, message)
}

fn push_found(
    alloc: Global,
    findings: &mut Vec<Finding>,
    kind: Kind,
    span: &Span,
    message: String,
) -> Result<(), AllocError>
    ensures { OnOk result (map finding_view findings.new.items ≡ map finding_view findings.old.items
        ++ (FindingOf kind span.now (string_bytes message) [] ∷ [])) }
{
    findings.push(Finding::new(alloc, kind, span, message))?;
    Ok(())
}
