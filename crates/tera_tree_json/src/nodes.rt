//! Nodes.

ghost use Rattle.std.specs.Prelude.{◌≡◌, ◌∷◌, [], ◌++◌, codes, string_bytes, IfSome, IfNone};
ghost use Rattle.json.specs.Json.{array, item, no_items, no_members};
ghost use Rattle.json.specs.Token.{key};
ghost use Rattle.json.specs.Tree.{json_tokens};
ghost use Rattle.tera_base.specs.Spanned.{node_of, span_of};
ghost use Rattle.tera_ast.specs.View.{expression_view, name_view, filters_view, node_view, nodes_view};
ghost use Rattle.tera_ast.specs.declared.ast.BlockSet.{out-BlockSet};
ghost use Rattle.tera_ast.specs.declared.ast.FilterSection.{out-FilterSection};
ghost use Rattle.tera_ast.specs.declared.ast.ForLoop.{out-ForLoop};
ghost use Rattle.tera_ast.specs.declared.ast.If.{out-If};
ghost use Rattle.tera_tree_json.specs.Forms.{node, name_json, content_json, shown_json, set_json, block_set_json, include_json, block_json, for_json, branch_json, if_json, section_json};
ghost use Rattle.tera_tree_json.specs.TreeJson.{expr_json, filters_json, node_json, nodes_json, chain_json};
ghost use Rattle.json_members.specs.Written.{Puts, PutsJson};

use crate::expressions::{put_expression, put_part};
use crate::fields::{begin, begin_at, put_flag, put_name};
use json::Writer;
use json_members::put_text;
use std::alloc::AllocError;
use tera_tree::{Block, BlockSet, Expression, FilterSection, ForLoop, If, Include, Node, Set};

/// Nodes in their order.
#[cycle(tree)]
pub(crate) fn put_nodes(out: &mut Writer, nodes: &Vec<Node>) -> Result<(), AllocError>
    ensures { PutsJson result out.old out.new (array (nodes_json (nodes_view nodes.now.items))) }
{
    out.begin_array()?;
    for node in nodes {
        put_node(out, node)?;
    }
    out.end_array()
}

#[cycle(tree)]
fn put_node(out: &mut Writer, node: &Node) -> Result<(), AllocError>
    ensures { PutsJson result out.old out.new (node_json (node_view node.now)) }
{
    match node {
        Node::Content(text) => put_content(out, text.as_str()),
        Node::Expression(e) => put_shown(out, e),
        Node::Set(set) => put_set(out, set),
        Node::BlockSet(set) => put_block_set(out, set),
        Node::Include(include) => put_include(out, include),
        Node::Block(block) => put_block(out, block),
        Node::ForLoop(parts) => put_for(out, parts),
        Node::Break => put_word(out, "Break"),
        Node::Continue => put_word(out, "Continue"),
        Node::If(parts) => put_if(out, parts),
        Node::FilterSection(section) => put_section(out, section),
    }
}

fn put_content(out: &mut Writer, text: &str) -> Result<(), AllocError>
    ensures { PutsJson result out.old out.new (content_json text.now) }
{
    begin(out, "Content")?;
    put_text(out, "text", text)?;
    out.end_object()
}

// A node of its kind alone.
fn put_word(out: &mut Writer, kind: &str) -> Result<(), AllocError>
    ensures { PutsJson result out.old out.new (node kind.now no_members) }
{
    begin(out, kind)?;
    out.end_object()
}

fn put_include(out: &mut Writer, include: &Include) -> Result<(), AllocError>
    ensures { PutsJson result out.old out.new
        (include_json (span_of include.now.name) (string_bytes (node_of include.now.name))) }
{
    begin_at(out, "Include", include.name.span())?;
    put_text(out, "name", include.name.node().as_str())?;
    out.end_object()
}

#[cycle(tree)]
fn put_shown(out: &mut Writer, e: &Expression) -> Result<(), AllocError>
    ensures { PutsJson result out.old out.new (shown_json (expr_json (expression_view e.now))) }
{
    begin(out, "Expression")?;
    put_part(out, "expr", e)?;
    out.end_object()
}

#[cycle(tree)]
fn put_set(out: &mut Writer, set: &Set) -> Result<(), AllocError>
    ensures { PutsJson result out.old out.new (set_json (string_bytes set.now.name)
        (expr_json (expression_view set.now.value)) set.now.global) }
{
    begin(out, "Set")?;
    put_text(out, "name", set.name.as_str())?;
    put_part(out, "value", &set.value)?;
    put_flag(out, "global", set.global)?;
    out.end_object()
}

#[cycle(tree)]
fn put_block_set(out: &mut Writer, set: &BlockSet) -> Result<(), AllocError>
    ensures { let s = out-BlockSet set.now in
        PutsJson result out.old out.new (block_set_json (string_bytes s.name)
        (filters_json (filters_view s.filters.items)) (nodes_json (nodes_view s.body.items))
        s.global) }
{
    begin(out, "BlockSet")?;
    put_text(out, "name", set.name.as_str())?;
    put_filters(out, &set.filters)?;
    put_body(out, "body", &set.body)?;
    put_flag(out, "global", set.global)?;
    out.end_object()
}

#[cycle(tree)]
fn put_block(out: &mut Writer, block: &Block) -> Result<(), AllocError>
    ensures { PutsJson result out.old out.new (block_json (span_of block.now.name)
        (string_bytes (node_of block.now.name)) (nodes_json (nodes_view block.now.body.items))) }
{
    begin_at(out, "Block", block.name.span())?;
    put_text(out, "name", block.name.node().as_str())?;
    put_body(out, "body", &block.body)?;
    out.end_object()
}

#[cycle(tree)]
fn put_for(out: &mut Writer, parts: &ForLoop) -> Result<(), AllocError>
    ensures { let p = out-ForLoop parts.now in
        PutsJson result out.old out.new (for_json (name_json (name_view p.key))
        (string_bytes p.value) (expr_json (expression_view p.target))
        (nodes_json (nodes_view p.body.items)) (nodes_json (nodes_view p.else_body.items))) }
{
    begin(out, "ForLoop")?;
    put_name(out, "key", &parts.key)?;
    put_text(out, "value", parts.value.as_str())?;
    put_part(out, "target", &parts.target)?;
    put_body(out, "body", &parts.body)?;
    put_body(out, "else_body", &parts.else_body)?;
    out.end_object()
}

// An `If` with the branches of its `elif`s: each of these is an `If` that is alone in the body of the one before.
#[cycle(tree)]
fn put_if(out: &mut Writer, parts: &If) -> Result<(), AllocError>
    ensures { let p = out-If parts.now in
        let chain = chain_json (nodes_view p.false_body.items) in
        PutsJson result out.old out.new (if_json (item (branch_json
        (expr_json (expression_view p.expr)) (nodes_json (nodes_view p.body.items))) chain.0)
        chain.1) }
{
    begin(out, "If")?;
    out.key("branches")?;
    out.begin_array()?;
    let mut last = parts;
    put_branch(out, last)?;
    while let Some(next) = elif_of(&last.false_body) {
        put_branch(out, next)?;
        last = next;
    }
    out.end_array()?;
    put_body(out, "false_body", &last.false_body)?;
    out.end_object()
}

// A branch: its condition and its body.
#[cycle(tree)]
fn put_branch(out: &mut Writer, parts: &If) -> Result<(), AllocError>
    ensures { let p = out-If parts.now in
        PutsJson result out.old out.new (branch_json (expr_json (expression_view p.expr))
        (nodes_json (nodes_view p.body.items))) }
{
    out.begin_object()?;
    put_part(out, "expr", &parts.expr)?;
    put_body(out, "body", &parts.body)?;
    out.end_object()
}

// The `If` that is alone in a body.
#[tactic(auto, using(crate::proofs::Elifs::not_lone, crate::proofs::Elifs::lone))]
fn elif_of(nodes: &Vec<Node>) -> Option<&If>
    ensures some { IfSome result (λ next. nodes.now.items ≡ Node.If next.now ∷ []) }
    ensures none { IfNone result (chain_json (nodes_view nodes.now.items)
        ≡ (no_items, nodes_json (nodes_view nodes.now.items))) }
{
    match nodes.as_slice() {
        [only] => match only {
            Node::If(parts) => Some(parts),
            _ => None,
        },
        _ => None,
    }
}

#[cycle(tree)]
fn put_section(out: &mut Writer, section: &FilterSection) -> Result<(), AllocError>
    ensures { let s = out-FilterSection section.now in
        PutsJson result out.old out.new (section_json (filters_json (filters_view s.filters.items))
        (nodes_json (nodes_view s.body.items))) }
{
    begin(out, "FilterSection")?;
    put_filters(out, &section.filters)?;
    put_body(out, "body", &section.body)?;
    out.end_object()
}

// A member that is a body.
#[cycle(tree)]
fn put_body(out: &mut Writer, name: &str, nodes: &Vec<Node>) -> Result<(), AllocError>
    ensures { Puts result out.old out.new
        (key name.now ∷ json_tokens (array (nodes_json (nodes_view nodes.now.items)))) }
{
    out.key(name)?;
    put_nodes(out, nodes)
}

// The member of the filters.
#[cycle(tree)]
fn put_filters(out: &mut Writer, filters: &Vec<Expression>) -> Result<(), AllocError>
    ensures { Puts result out.old out.new (key (codes "filters")
        ∷ json_tokens (array (filters_json (filters_view filters.now.items)))) }
{
    out.key("filters")?;
    out.begin_array()?;
    for filter in filters {
        put_expression(out, filter)?;
    }
    out.end_array()
}
