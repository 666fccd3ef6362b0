//! Conditions.

ghost use Rattle.std.specs.Prelude.{◌≡◌, ◌∷◌, IfErr, IfOk, map};
ghost use Rattle.tera_base.specs.Errors.{IsMemory};
ghost use Rattle.tera_grammar.specs.statements.Grammar.{InIf, Path, in_loop};
ghost use Rattle.tera_grammar.specs.statements.Reading.{branches, if_of};
ghost use Rattle.tera_grammar.specs.statements.Reading.Loops.{nest};
ghost use Rattle.tera_statements.specs.Adding.{GivesHere, AddsBy, AreBranches, here, seen_of};
ghost use Rattle.tera_statements.specs.Around.{Represents};
ghost use Rattle.tera_statements.specs.Conditions.{GivesBranch, branch_view};
ghost use Rattle.tera_tags.specs.Settings.{bodies_under, limits_under};
ghost use Rattle.tera_expect.specs.Taking.{GoesOn, Refuses, Took};
ghost use Rattle.tera_ast.specs.View.{node_view};

use crate::added::Added;
use crate::around::{Around, Context, Opening};
use crate::bodies::body;
use crate::loops::else_body;
use std::alloc::Global;
use tera_base::{Error, Span};
use tera_lexer::Cursor;
use tera_tags::fronts::Closer;
use tera_tags::heads::expression_to_end;
use tera_tags::names::Names;
use tera_tags::settings::Setting;
use tera_tags::tag_parts::{closed_tag, closes, take_closer};
use tera_tree::{Expression, Node, build};

/// A condition, and the body under it.
#[derive(Drop)]
pub(crate) struct Branch {
    pub condition: Expression,
    pub body: Vec<Node>,
}

/// Reads the rest of an `if`, whose word was taken last.
#[cycle(bodies)]
#[tactic(auto, using(tera_tags::proofs::OnTheWay::through_tags))]
pub(crate) fn condition(
    setting: &Setting<'_>,
    cursor: &mut Cursor<'_>,
    names: &mut Names,
    around: &Around,
    depth: usize,
) -> Result<Added, Error>
    ensures gives { AddsBy around.now result (here names.new cursor.new) (λ path start.
        if_of (limits_under setting.now) (bodies_under setting.now depth) path start
        cursor.old.span (seen_of names.old) cursor.old.left) }
    ensures refusal { IfErr result (Refuses cursor.old cursor.new) }
    ensures later { IfOk result (λ _. Took cursor.old cursor.new) }
{
    let word = cursor.current_span().copied();
    let first = read_branch(setting, cursor, names, around, &word, depth)?;
    let others = other_branches(setting, cursor, names, around, word, depth)?;
    closed_tag(cursor, Closer::EndIf)?;
    Ok(Added::Node(build::when(first.condition, first.body, others)))
}

// A condition, the end of its tag, and the body under it; the word before it is at the span.
#[cycle(bodies)]
#[tactic(auto, using(tera_tags::proofs::OnTheWay::through_tags))]
fn read_branch(
    setting: &Setting<'_>,
    cursor: &mut Cursor<'_>,
    names: &mut Names,
    around: &Around,
    word: &Span,
    depth: usize,
) -> Result<Branch, Error>
    ensures gives { (path : Path) → Represents path around.now →
        GivesBranch (limits_under setting.now) depth (InIf ∷ path) result
        (here names.new cursor.new) (here names.old cursor.old) }
    ensures refusal { IfErr result (Refuses cursor.old cursor.new) }
    ensures later { IfOk result (λ _. Took cursor.old cursor.new) }
{
    let condition = expression_to_end(setting, cursor, around.in_loop)?;
    let opening = Opening {
        context: Context::Condition,
        at: word.copied(),
    };
    let body = body(setting, cursor, names, around, &opening, depth)?;
    Ok(Branch { condition, body })
}

// The branches after the first one, whose word is at the span: any number of `elif`, and an `else` or none.
#[cycle(bodies)]
#[tactic(auto, using(tera_expect::proofs::TakingLemmas::on_the_way))]
fn other_branches(
    setting: &Setting<'_>,
    cursor: &mut Cursor<'_>,
    names: &mut Names,
    around: &Around,
    word: Span,
    depth: usize,
) -> Result<Vec<Node>, Error>
    ensures gives { (path : Path) → Represents path around.now →
        GivesHere (λ ns bs. AreBranches (in_loop path) ns.items bs) result (here names.new cursor.new)
        (branches (limits_under setting.now) (bodies_under setting.now depth)
        (InIf ∷ path) (here names.old cursor.old)) }
    ensures refusal { IfErr result (Refuses cursor.old cursor.new) }
    ensures later { IfOk result (λ _. GoesOn cursor.old cursor.new) }
{
    let alloc = cursor.alloc();
    let mut word = word;
    let mut branches = Vec::new(alloc);
    'branches: while closes(cursor, Closer::Elif) {
        take_closer(cursor, Closer::Elif)?;
        word = cursor.current_span().copied();
        let branch = read_branch(setting, cursor, names, around, &word, depth)?;
        branches.push(branch)?;
    }
    let opening = Opening {
        context: Context::Condition,
        at: word,
    };
    let otherwise = else_body(setting, cursor, names, around, &opening, depth)?;
    nested(alloc, branches, otherwise)
}

// The branches, each with those after it as what is under no condition.
fn nested(alloc: Global, branches: Vec<Branch>, otherwise: Vec<Node>) -> Result<Vec<Node>, Error>
    ensures nested { IfOk result (λ ns. map node_view ns.items
        ≡ nest (map branch_view branches.items) (map node_view otherwise.items)) }
    ensures refusal { IfErr result IsMemory }
{
    let mut branches = branches;
    let mut nodes = otherwise;
    'branches: while let Some(branch) = branches.pop() {
        let node = build::when(branch.condition, branch.body, nodes);
        nodes = vec![in alloc; node]?;
    }
    Ok(nodes)
}
