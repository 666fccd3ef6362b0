//! Bodies.

ghost use Rattle.std.specs.Prelude.{◌≡◌, ◌∷◌, IfErr, IfOk, false, is_none, map};
ghost use Rattle.tera_grammar.specs.statements.Grammar.{Path, in_loop};
ghost use Rattle.tera_statements.specs.Adding.{GivesHere, IsBody, here};
ghost use Rattle.tera_statements.specs.Items.{BeginWithoutText, GivesNode, GoesByItem};
ghost use Rattle.tera_statements.specs.Around.{Represents, context_of};
ghost use Rattle.tera_tags.specs.Settings.{bodies_under, limits_under};
ghost use Rattle.tera_expect.specs.Taking.{GoesOn, Refuses, RefusesIn};
ghost use Rattle.tera_ast.specs.View.{node_view};

use crate::added::{push_node, push_text};
use crate::around::{Around, Opening};
use crate::faults::too_deep;
use crate::items::{eat_text, item};
use crate::simple::Extension;
use tera_base::Error;
use tera_lexer::Cursor;
use tera_tags::names::Names;
use tera_tags::settings::Setting;
use tera_tree::Node;

/// Reads a body inside of what was opened, where so many may still open.
#[cycle(bodies)]
#[tactic(auto, using(tera_expect::proofs::TakingLemmas::on_the_way, tera_tags::proofs::RefusalLemmas::inside_further))]
pub(crate) fn body(
    setting: &Setting<'_>,
    cursor: &mut Cursor<'_>,
    names: &mut Names,
    around: &Around,
    opening: &Opening,
    depth: usize,
) -> Result<Vec<Node>, Error>
    ensures gives { (path : Path) → Represents path around.now →
        GivesHere (λ ns b. IsBody (in_loop (context_of opening.now.context ∷ path)) ns.items b) result
        (here names.new cursor.new)
        (bodies_under setting.now depth (context_of opening.now.context ∷ path)
        (here names.old cursor.old)) }
    ensures refusal { IfErr result (Refuses cursor.old cursor.new) }
    ensures later { IfOk result (λ _. GoesOn cursor.old cursor.new) }
{
    if depth == 0 {
        return Err(too_deep(cursor));
    }
    let inside = around.inside(opening);
    let mut nodes = Vec::new(cursor.alloc());
    let mut extension = Extension::following(setting.parent);
    'items: while let Some(later) = next_node(
        setting,
        cursor,
        names,
        &mut nodes,
        &inside,
        extension,
        depth - 1,
    )? {
        extension = later;
    }
    Ok(nodes)
}

// Takes the next item of a body, where one is there, and returns what keeps a template from extending another after it.
#[cycle(bodies)]
#[tactic(auto, using(tera_tags::proofs::RefusalLemmas::memory_inside))]
fn next_node<'p>(
    setting: &Setting<'_>,
    cursor: &mut Cursor<'_>,
    names: &mut Names,
    nodes: &mut Vec<Node>,
    around: &Around,
    extension: Extension<'p>,
    depth: usize,
) -> Result<Option<Extension<'p>>, Error>
    requires { is_none around.now.innermost ≡ false }
    ensures gives { (path : Path) → Represents path around.now →
        GivesNode (limits_under setting.now) depth path result (map node_view nodes.new.items)
        (map node_view nodes.old.items) (here names.new cursor.new) (here names.old cursor.old) }
    ensures refusal { IfErr result (RefusesIn cursor.old cursor.new) }
    ensures later { GoesByItem result cursor.old cursor.new }
{
    match eat_text(cursor) {
        Some(text) => {
            push_text(nodes, cursor.alloc(), text)?;
            Ok(Some(extension.later_text(text)))
        }
        None => item_node(setting, cursor, names, nodes, around, extension, depth),
    }
}

// Takes what the next item of a body adds, where one is there, which is not a text, and returns the same.
#[cycle(bodies)]
#[tactic(auto, using(tera_tags::proofs::RefusalLemmas::memory_inside))]
fn item_node<'p>(
    setting: &Setting<'_>,
    cursor: &mut Cursor<'_>,
    names: &mut Names,
    nodes: &mut Vec<Node>,
    around: &Around,
    extension: Extension<'p>,
    depth: usize,
) -> Result<Option<Extension<'p>>, Error>
    requires inner { is_none around.now.innermost ≡ false }
    requires text { BeginWithoutText cursor.old.left }
    ensures gives { (path : Path) → Represents path around.now →
        GivesNode (limits_under setting.now) depth path result (map node_view nodes.new.items)
        (map node_view nodes.old.items) (here names.new cursor.new) (here names.old cursor.old) }
    ensures refusal { IfErr result (RefusesIn cursor.old cursor.new) }
    ensures later { GoesByItem result cursor.old cursor.new }
{
    let Some(added) = item(setting, cursor, names, around, extension, depth)? else {
        return Ok(None);
    };
    push_node(nodes, added)?;
    Ok(Some(extension.later()))
}
