//! The lines of nodes, at the end of a text.

ghost use Rattle.std.specs.Prelude.{◌≡◌, ◌++◌, [], ◌∷◌, false, true, not, if◌then◌else◌, codes, string_bytes, IfOk, OnOk, IfSome, IfNone};
ghost use Rattle.tera_ast.specs.View.{expression_view, node_view, if_view, name_view, filters_view, args_view, entries_view, nodes_view};
ghost use Rattle.tera_ast.specs.Text.{text, names_text, call_text, args_text, entries_text};
ghost use Rattle.tera_base.specs.Spanned.{node_of};
ghost use Rattle.tera_ast.specs.declared.ast.BlockSet.{out-BlockSet};
ghost use Rattle.tera_ast.specs.declared.ast.ComponentCall.{out-ComponentCall};
ghost use Rattle.tera_ast.specs.declared.ast.FilterSection.{out-FilterSection};
ghost use Rattle.tera_ast.specs.declared.ast.ForLoop.{out-ForLoop};
ghost use Rattle.tera_tree_text.specs.Quoted.{quoted};
ghost use Rattle.tera_tree_text.specs.TreeText.{line, deeper, filter_text, filters_text, set_text, is_lone_if, has_nodes, else_text, node_text, shown_text, nodes_text};

use crate::quoted::push_quoted;
use std::alloc::AllocError;
use std::collections::BTreeMap;
use std::fmt::Write;
use tera_tree::{
    Block, BlockSet, ComponentCall, Expression, FilterSection, ForLoop, If, MapEntry, Node, Set,
    WithArguments, WithAttributes,
};

// An expression.
fn push_expression(out: &mut String, e: &Expression) -> Result<(), AllocError>
    ensures { OnOk result (string_bytes out.new
        ≡ string_bytes out.old ++ text (expression_view e.now)) }
{
    write!(out, "{e}")?;
    Ok(())
}

// A line.
pub(crate) fn push_line(out: &mut String, indent: &str, words: &str) -> Result<(), AllocError>
    ensures { OnOk result (string_bytes out.new
        ≡ string_bytes out.old ++ line indent.now words.now) }
{
    out.push_str(indent)?;
    out.push_str(words)?;
    out.push('\n')
}

// A line of a word and an expression.
pub(crate) fn push_worded(
    out: &mut String,
    indent: &str,
    word: &str,
    e: &Expression,
) -> Result<(), AllocError>
    ensures { OnOk result (string_bytes out.new
        ≡ string_bytes out.old ++ line indent.now (word.now ++ text (expression_view e.now))) }
{
    out.push_str(indent)?;
    out.push_str(word)?;
    push_expression(out, e)?;
    out.push('\n')
}

/// A line of a word and a text between quotes.
pub(crate) fn push_named(
    out: &mut String,
    indent: &str,
    word: &str,
    name: &str,
) -> Result<(), AllocError>
    ensures { OnOk result (string_bytes out.new
        ≡ string_bytes out.old ++ line indent.now (word.now ++ quoted name.now)) }
{
    out.push_str(indent)?;
    out.push_str(word)?;
    push_quoted(out, name)?;
    out.push('\n')
}

fn set_word(global: bool) -> &'static str
    ensures { result.now ≡ (if global then codes "set_global " else codes "set ") }
{
    if global { "set_global " } else { "set " }
}

// What begins the setting of a variable.
fn push_set_name(out: &mut String, global: bool, name: &str) -> Result<(), AllocError>
    ensures { OnOk result (string_bytes out.new
        ≡ string_bytes out.old ++ set_text global name.now) }
{
    out.push_str(set_word(global))?;
    out.push_str(name)
}

fn push_set(out: &mut String, indent: &str, set: &Set) -> Result<(), AllocError>
    ensures { OnOk result (string_bytes out.new ≡ string_bytes out.old
        ++ line indent.now (set_text set.now.global (string_bytes set.now.name)
        ++ (codes " = " ++ text (expression_view set.now.value)))) }
{
    out.push_str(indent)?;
    push_set_name(out, set.global, set.name.as_str())?;
    out.push_str(" = ")?;
    push_expression(out, &set.value)?;
    out.push('\n')
}

// A line of a word and a name.
pub(crate) fn push_word(
    out: &mut String,
    indent: &str,
    word: &str,
    name: &str,
) -> Result<(), AllocError>
    ensures { OnOk result (string_bytes out.new
        ≡ string_bytes out.old ++ line indent.now (word.now ++ name.now)) }
{
    out.push_str(indent)?;
    out.push_str(word)?;
    out.push_str(name)?;
    out.push('\n')
}

// A filter without what it changes.
fn push_filter(out: &mut String, filter: &Expression) -> Result<(), AllocError>
    ensures { OnOk result (string_bytes out.new
        ≡ string_bytes out.old ++ filter_text (expression_view filter.now)) }
{
    match filter {
        Expression::Filter(s) => push_arguments(out, s.node().name.as_str(), &s.node().kwargs),
        _ => push_expression(out, filter),
    }
}

// A name with its arguments.
fn push_arguments(
    out: &mut String,
    name: &str,
    kwargs: &BTreeMap<String, Expression>,
) -> Result<(), AllocError>
    ensures { OnOk result (string_bytes out.new ≡ string_bytes out.old
        ++ call_text name.now (args_text false (args_view kwargs.now.entries))) }
{
    let shown = WithArguments { name, kwargs };
    write!(out, "{shown}")?;
    Ok(())
}

// A name with its attributes.
fn push_attributes(out: &mut String, name: &str, kwargs: &Vec<MapEntry>) -> Result<(), AllocError>
    ensures { OnOk result (string_bytes out.new ≡ string_bytes out.old
        ++ call_text name.now (entries_text false (entries_view kwargs.now.items))) }
{
    let shown = WithAttributes { name, kwargs };
    write!(out, "{shown}")?;
    Ok(())
}

// Filters with bars between them, and one before the first if something is before it.
fn push_filters(
    out: &mut String,
    following: bool,
    filters: &Vec<Expression>,
) -> Result<(), AllocError>
    ensures { OnOk result (string_bytes out.new
        ≡ string_bytes out.old ++ filters_text following (filters_view filters.now.items)) }
{
    let mut later = following;
    for filter in filters {
        push_later(out, later, filter)?;
        later = true;
    }
    Ok(())
}

fn push_later(out: &mut String, later: bool, filter: &Expression) -> Result<(), AllocError>
    ensures { OnOk result (string_bytes out.new ≡ string_bytes out.old
        ++ ((if later then codes " | " else []) ++ filter_text (expression_view filter.now))) }
{
    if later {
        out.push_str(" | ")?;
    }
    push_filter(out, filter)
}

fn push_call_line(out: &mut String, indent: &str, call: &ComponentCall) -> Result<(), AllocError>
    ensures { let c = out-ComponentCall call.now in
        OnOk result (string_bytes out.new ≡ string_bytes out.old ++ line indent.now (codes "call <"
        ++ (call_text (string_bytes c.name) (entries_text false (entries_view c.kwargs.items))
        ++ codes ">"))) }
{
    out.push_str(indent)?;
    out.push_str("call <")?;
    push_attributes(out, call.name.as_str(), &call.kwargs)?;
    out.push_str(">")?;
    out.push('\n')
}

fn push_block_set_line(out: &mut String, indent: &str, set: &BlockSet) -> Result<(), AllocError>
    ensures { let s = out-BlockSet set.now in OnOk result (string_bytes out.new
        ≡ string_bytes out.old ++ line indent.now (set_text s.global (string_bytes s.name)
        ++ filters_text true (filters_view s.filters.items))) }
{
    out.push_str(indent)?;
    push_set_name(out, set.global, set.name.as_str())?;
    push_filters(out, true, &set.filters)?;
    out.push('\n')
}

fn push_section_line(
    out: &mut String,
    indent: &str,
    section: &FilterSection,
) -> Result<(), AllocError>
    ensures { let s = out-FilterSection section.now in
        OnOk result (string_bytes out.new ≡ string_bytes out.old ++ line indent.now (codes "filter "
        ++ filters_text false (filters_view s.filters.items))) }
{
    out.push_str(indent)?;
    out.push_str("filter ")?;
    push_filters(out, false, &section.filters)?;
    out.push('\n')
}

fn push_for_line(out: &mut String, indent: &str, parts: &ForLoop) -> Result<(), AllocError>
    ensures { let p = out-ForLoop parts.now in
        OnOk result (string_bytes out.new ≡ string_bytes out.old ++ line indent.now (codes "for "
        ++ (names_text (name_view p.key) (string_bytes p.value)
        ++ (codes " in " ++ text (expression_view p.target))))) }
{
    out.push_str(indent)?;
    out.push_str("for ")?;
    push_names(out, &parts.key, parts.value.as_str())?;
    out.push_str(" in ")?;
    push_expression(out, &parts.target)?;
    out.push('\n')
}

fn push_names(out: &mut String, key: &Option<String>, value: &str) -> Result<(), AllocError>
    ensures { OnOk result (string_bytes out.new
        ≡ string_bytes out.old ++ names_text (name_view key.now) value.now) }
{
    if let Some(key) = key {
        out.push_str(key.as_str())?;
        out.push_str(", ")?;
    }
    out.push_str(value)
}

// One level deeper.
fn deeper(out: &String, indent: &str) -> Result<String, AllocError>
    ensures { IfOk result (λ s. string_bytes s ≡ deeper indent.now) }
{
    let mut below = String::from_str(*out.allocator(), indent)?;
    below.push_str("  ")?;
    Ok(below)
}

/// The lines of the nodes; an `If` begins with the word.
#[cycle(lines)]
pub(crate) fn push_nodes(
    out: &mut String,
    word: &str,
    indent: &str,
    nodes: &Vec<Node>,
) -> Result<(), AllocError>
    ensures { OnOk result (string_bytes out.new
        ≡ string_bytes out.old ++ nodes_text word.now indent.now (nodes_view nodes.now.items)) }
{
    for node in nodes {
        push_node(out, word, indent, node)?;
    }
    Ok(())
}

#[cycle(lines)]
fn push_node(out: &mut String, word: &str, indent: &str, node: &Node) -> Result<(), AllocError>
    ensures { OnOk result (string_bytes out.new
        ≡ string_bytes out.old ++ node_text word.now indent.now (node_view node.now)) }
{
    match node {
        Node::Content(s) => push_named(out, indent, "text ", s.as_str()),
        Node::Expression(e) => push_shown(out, indent, e),
        Node::Set(set) => push_set(out, indent, set),
        Node::BlockSet(set) => push_block_set(out, indent, set),
        Node::Include(include) => push_named(out, indent, "include ", include.name.node().as_str()),
        Node::Block(block) => push_block(out, indent, block),
        Node::ForLoop(parts) => push_for(out, indent, parts),
        Node::Break => push_line(out, indent, "break"),
        Node::Continue => push_line(out, indent, "continue"),
        Node::If(parts) => push_if(out, word, indent, parts),
        Node::FilterSection(section) => push_section(out, indent, section),
    }
}

// The lines of a body one level deeper.
#[cycle(lines)]
fn push_body(out: &mut String, indent: &str, nodes: &Vec<Node>) -> Result<(), AllocError>
    ensures { OnOk result (string_bytes out.new ≡ string_bytes out.old
        ++ nodes_text (codes "if ") (deeper indent.now) (nodes_view nodes.now.items)) }
{
    let below = deeper(out, indent)?;
    push_nodes(out, "if ", below.as_str(), nodes)
}

// An expression that is shown: a call with a body has the lines of its body.
#[cycle(lines)]
fn push_shown(out: &mut String, indent: &str, e: &Expression) -> Result<(), AllocError>
    ensures { OnOk result (string_bytes out.new
        ≡ string_bytes out.old ++ shown_text indent.now (expression_view e.now)) }
{
    if let Expression::ComponentCall(call) = e
        && !call.node().self_closing
    {
        return push_call(out, indent, call.node());
    }
    push_worded(out, indent, "expr ", e)
}

#[cycle(lines)]
fn push_call(out: &mut String, indent: &str, call: &ComponentCall) -> Result<(), AllocError>
    ensures { let c = out-ComponentCall call.now in OnOk result (string_bytes out.new
        ≡ string_bytes out.old ++ (line indent.now (codes "call <" ++ (call_text
        (string_bytes c.name) (entries_text false (entries_view c.kwargs.items)) ++ codes ">"))
        ++ nodes_text (codes "if ") (deeper indent.now) (nodes_view c.body.items))) }
{
    push_call_line(out, indent, call)?;
    push_body(out, indent, &call.body)
}

#[cycle(lines)]
fn push_block(out: &mut String, indent: &str, block: &Block) -> Result<(), AllocError>
    ensures { OnOk result (string_bytes out.new ≡ string_bytes out.old
        ++ (line indent.now (codes "block " ++ string_bytes (node_of block.now.name))
        ++ nodes_text (codes "if ") (deeper indent.now) (nodes_view block.now.body.items))) }
{
    push_word(out, indent, "block ", block.name.node().as_str())?;
    push_body(out, indent, &block.body)
}

#[cycle(lines)]
fn push_block_set(out: &mut String, indent: &str, set: &BlockSet) -> Result<(), AllocError>
    ensures { let s = out-BlockSet set.now in OnOk result (string_bytes out.new
        ≡ string_bytes out.old ++ (line indent.now (set_text s.global (string_bytes s.name)
        ++ filters_text true (filters_view s.filters.items))
        ++ nodes_text (codes "if ") (deeper indent.now) (nodes_view s.body.items))) }
{
    push_block_set_line(out, indent, set)?;
    push_body(out, indent, &set.body)
}

#[cycle(lines)]
fn push_section(out: &mut String, indent: &str, section: &FilterSection) -> Result<(), AllocError>
    ensures { let s = out-FilterSection section.now in
        OnOk result (string_bytes out.new ≡ string_bytes out.old
        ++ (line indent.now (codes "filter " ++ filters_text false (filters_view s.filters.items))
        ++ nodes_text (codes "if ") (deeper indent.now) (nodes_view s.body.items))) }
{
    push_section_line(out, indent, section)?;
    push_body(out, indent, &section.body)
}

#[cycle(lines)]
fn push_for(out: &mut String, indent: &str, parts: &ForLoop) -> Result<(), AllocError>
    ensures { let p = out-ForLoop parts.now in OnOk result (string_bytes out.new
        ≡ string_bytes out.old ++ (line indent.now (codes "for " ++ (names_text (name_view p.key)
        (string_bytes p.value) ++ (codes " in " ++ text (expression_view p.target))))
        ++ (nodes_text (codes "if ") (deeper indent.now) (nodes_view p.body.items)
        ++ else_text (nodes_view p.else_body.items) indent.now
        (nodes_text (codes "if ") (deeper indent.now) (nodes_view p.else_body.items))))) }
{
    push_for_line(out, indent, parts)?;
    push_body(out, indent, &parts.body)?;
    push_else(out, indent, &parts.else_body)
}

// What comes after the body of a loop, or of the last `If` of a chain.
#[cycle(lines)]
fn push_else(out: &mut String, indent: &str, nodes: &Vec<Node>) -> Result<(), AllocError>
    ensures { let ns = nodes_view nodes.now.items in
        OnOk result (string_bytes out.new ≡ string_bytes out.old
        ++ else_text ns indent.now (nodes_text (codes "if ") (deeper indent.now) ns)) }
{
    if has_none(nodes) {
        return Ok(());
    }
    push_line(out, indent, "else")?;
    push_body(out, indent, nodes)
}

// An `If`, and the `elif`s after it.
#[cycle(lines)]
#[tactic(auto, using(crate::proofs::Elifs::elif_text, crate::proofs::Elifs::last_text))]
fn push_if(out: &mut String, word: &str, indent: &str, parts: &If) -> Result<(), AllocError>
    ensures { OnOk result (string_bytes out.new
        ≡ string_bytes out.old ++ node_text word.now indent.now (if_view parts.now)) }
{
    let mut word = word;
    let mut parts = parts;
    loop {
        push_worded(out, indent, word, &parts.expr)?;
        push_body(out, indent, &parts.body)?;
        match elif_of(&parts.false_body) {
            Some(next) => {
                word = "elif ";
                parts = next;
            }
            None => return push_else(out, indent, &parts.false_body),
        }
    }
}

// The `If` that is alone in a body.
#[tactic(auto, using(crate::proofs::Elifs::not_lone, crate::proofs::Elifs::one))]
fn elif_of(nodes: &Vec<Node>) -> Option<&If>
    ensures some { IfSome result (λ next. nodes.now.items ≡ Node.If next.now ∷ []) }
    ensures none { IfNone result (is_lone_if (nodes_view nodes.now.items) ≡ false) }
{
    match nodes.as_slice() {
        [only] => match only {
            Node::If(parts) => Some(parts),
            _ => None,
        },
        _ => None,
    }
}

#[tactic(auto, using(crate::proofs::Elifs::not_none))]
fn has_none(nodes: &Vec<Node>) -> bool
    ensures { result ≡ not (has_nodes (nodes_view nodes.now.items)) }
{
    match nodes.as_slice() {
        [] => true,
        _ => false,
    }
}
