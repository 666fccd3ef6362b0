//! Loops, and the `else` of loops and conditions.

ghost use Rattle.std.specs.Prelude.{IfErr, IfOk, ◌∷◌};
ghost use Rattle.tera_grammar.specs.statements.Grammar.{Path, in_loop};
ghost use Rattle.tera_grammar.specs.statements.Reading.{else_of, for_of};
ghost use Rattle.tera_statements.specs.Adding.{GivesHere, AddsBy, IsElse, here, seen_of};
ghost use Rattle.tera_statements.specs.Around.{Represents, context_of};
ghost use Rattle.tera_tags.specs.Settings.{bodies_under, limits_under};
ghost use Rattle.tera_expect.specs.Taking.{GoesOn, Refuses, Took};

use crate::added::Added;
use crate::around::{Around, Context, Opening};
use crate::bodies::body;
use tera_base::Error;
use tera_lexer::Cursor;
use tera_tags::fronts::Closer;
use tera_tags::heads::loop_to_end;
use tera_tags::names::Names;
use tera_tags::settings::Setting;
use tera_tags::tag_parts::{closed_tag, closes, finish, take_closer};
use tera_tree::{Node, build};

/// Reads the rest of a `for`, whose word was taken last.
#[cycle(bodies)]
#[tactic(auto, using(tera_tags::proofs::OnTheWay::through_tags))]
pub(crate) fn for_loop(
    setting: &Setting<'_>,
    cursor: &mut Cursor<'_>,
    names: &mut Names,
    around: &Around,
    depth: usize,
) -> Result<Added, Error>
    ensures gives { AddsBy around.now result (here names.new cursor.new) (λ path start.
        for_of (limits_under setting.now) (bodies_under setting.now depth) path start
        cursor.old.span (seen_of names.old) cursor.old.left) }
    ensures refusal { IfErr result (Refuses cursor.old cursor.new) }
    ensures later { IfOk result (λ _. Took cursor.old cursor.new) }
{
    let opening = Opening {
        context: Context::Loop,
        at: cursor.current_span().copied(),
    };
    let head = loop_to_end(setting, cursor)?;
    let inside = body(setting, cursor, names, around, &opening, depth)?;
    let otherwise = Opening {
        context: Context::LoopElse,
        at: opening.at.copied(),
    };
    let otherwise = else_body(setting, cursor, names, around, &otherwise, depth)?;
    closed_tag(cursor, Closer::EndFor)?;
    Ok(Added::Node(build::for_loop(head.key, head.value, head.target, inside, otherwise)))
}

/// Reads an `else` with its body, where one is there.
#[cycle(bodies)]
#[tactic(auto, using(tera_expect::proofs::TakingLemmas::on_the_way))]
pub(crate) fn else_body(
    setting: &Setting<'_>,
    cursor: &mut Cursor<'_>,
    names: &mut Names,
    around: &Around,
    opening: &Opening,
    depth: usize,
) -> Result<Vec<Node>, Error>
    ensures gives { (path : Path) → Represents path around.now →
        GivesHere (λ ns o. IsElse (in_loop (context_of opening.now.context ∷ path)) ns.items o) result
        (here names.new cursor.new) (else_of (bodies_under setting.now depth)
        (context_of opening.now.context ∷ path) (here names.old cursor.old)) }
    ensures refusal { IfErr result (Refuses cursor.old cursor.new) }
    ensures later { IfOk result (λ _. GoesOn cursor.old cursor.new) }
{
    if !closes(cursor, Closer::Else) {
        return Ok(Vec::new(cursor.alloc()));
    }
    take_closer(cursor, Closer::Else)?;
    finish(cursor)?;
    body(setting, cursor, names, around, opening, depth)
}
