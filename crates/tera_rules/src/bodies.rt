//! Bodies of calls, and components that never show theirs.

ghost use Rattle.std.specs.Prelude.{◌≡◌, ◌∷◌, [], ◌++◌, ◌||◌, ℕ, List, map, IfOk, OnOk};
ghost use Rattle.std.specs.BTreeSet.{contains_text};
ghost use Rattle.std.specs.List.{list_any};
ghost use Rattle.tera_ast.specs.View.{node_view, nodes_view};
ghost use Rattle.tera_grammar.specs.statements.Top.{is_blank};
ghost use Rattle.tera_tree.specs.Parts.{part_view, parts_view};
ghost use Rattle.tera_tree.specs.View.{definition_view};
ghost use Rattle.tera_rules.specs.Bodies.{is_blank_body, is_blank_node, is_hidden_in, may_show, shows_body};
ghost use Rattle.tera_rules.specs.Within.{all_parts};

use std::alloc::{AllocError, Global};
use std::collections::BTreeSet;
use tera_parser::ast::{ComponentDefinition, Expression, Node, Part, Parts, push_nodes};

/// The names of the components that never show their body.
pub fn hidden_bodies(
    alloc: Global,
    definitions: &Vec<ComponentDefinition>,
) -> Result<BTreeSet<String>, AllocError>
    ensures { IfOk result (λ hidden. (n : List ℕ) → contains_text hidden n
        ≡ is_hidden_in (map definition_view definitions.now.items) n) }
{
    let mut hidden = BTreeSet::new(alloc);
    for definition in definitions {
        put_if_hidden(alloc, &mut hidden, definition)?;
    }
    Ok(hidden)
}

fn put_if_hidden(
    alloc: Global,
    hidden: &mut BTreeSet<String>,
    definition: &ComponentDefinition,
) -> Result<(), AllocError>
    ensures { OnOk result ((n : List ℕ) → contains_text hidden.new n ≡ (contains_text hidden.old n
        || is_hidden_in (definition_view definition.now ∷ []) n)) }
{
    if shows_body(alloc, definition)? {
        return Ok(());
    }
    hidden.insert(definition.name.clone()?)?;
    Ok(())
}

// Whether some part of the definition may show the body. A definition of more parts than a `u64` counts, which no
// memory holds, gives an allocation failure.
fn shows_body(alloc: Global, definition: &ComponentDefinition) -> Result<bool, AllocError>
    ensures { IfOk result (λ shows. shows ≡ shows_body (definition_view definition.now)) }
{
    let mut left = Vec::new(alloc);
    push_nodes(&mut left, &definition.body)?;
    for _part in 0..u64::MAX {
        match left.pop() {
            Some(part) => {
                if take(&mut left, part)? {
                    return Ok(true);
                }
            }
            None => return Ok(false),
        }
    }
    Err(AllocError)
}

// Puts the parts inside this one on the list. The result is whether this part by itself may show the body.
#[tactic(auto, using(crate::proofs::BodiesLemmas::taken))]
fn take<'a>(left: &mut Parts<'a>, part: Part<'a>) -> Result<bool, AllocError>
    ensures { IfOk result (λ shows. (shows || list_any may_show (all_parts (parts_view left.new.items)))
        ≡ list_any may_show (all_parts (parts_view left.old.items ++ (part_view part.entry ∷ [])))) }
{
    part.push_inside(left)?;
    Ok(may_show(part))
}

fn may_show(part: Part<'_>) -> bool
    ensures { result ≡ may_show (part_view part.entry) }
{
    match part {
        Part::Node(Node::Include(_)) => true,
        Part::Expression(Expression::Var(variable)) => {
            let name = variable.node().name.as_str();
            name == "body" || name == "__tera_context"
        }
        Part::Node(_) | Part::Expression(_) => false,
    }
}

/// Whether the body is only white space.
pub(crate) fn is_blank_body(body: &Vec<Node>) -> bool
    ensures { result ≡ is_blank_body (nodes_view body.now.items) }
{
    for node in body {
        if !is_blank_node(node) {
            return false;
        }
    }
    true
}

fn is_blank_node(node: &Node) -> bool
    ensures { result ≡ is_blank_node (node_view node.now) }
{
    match node {
        Node::Content(text) => is_blank(text.as_str()),
        _ => false,
    }
}

fn is_blank(text: &str) -> bool
    ensures { result ≡ is_blank text.now }
{
    text.trim_start().is_empty()
}
