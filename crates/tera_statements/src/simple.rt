//! The statements that hold no body.

ghost use Rattle.std.specs.Prelude.{◌≡◌, ◌⊎◌, IfErr, IfOk, false, is_none, true};
ghost use Rattle.tera_base.specs.Errors.{IsMemory};
ghost use Rattle.tera_grammar.specs.statements.Reading.{break_of, extends_of, include_of};
ghost use Rattle.tera_statements.specs.Adding.{AddsAlone};
ghost use Rattle.tera_statements.specs.Around.{holds_breaks};
ghost use Rattle.tera_statements.specs.Simple.{is_free, jump_item, jump_output};
ghost use Rattle.tera_expect.specs.Taking.{Refuses, Took};
ghost use Rattle.tera_ast.specs.View.{node_view};

use crate::added::{Added, is_blank};
use crate::around::{Around, Breaks};
use crate::faults::{
    again_extended, barred_block, captured_jump, jump_in_no_loop, late_extended, nested_extends,
};
use tera_base::{Error, Spanned};
use tera_lexer::Cursor;
use tera_tags::tag_parts::{finish, quote};
use tera_tree::{Node, build};

/// Reads the rest of an `include`.
#[tactic(auto, using(tera_expect::proofs::TakingLemmas::after_tokens))]
pub(crate) fn include(cursor: &mut Cursor<'_>, around: &Around) -> Result<Added, Error>
    ensures gives { AddsAlone around.now result cursor.new (λ path start seen.
        include_of start cursor.old.span seen cursor.old.left) }
    ensures refusal { IfErr result (Refuses cursor.old cursor.new) }
    ensures later { IfOk result (λ _. Took cursor.old cursor.new) }
{
    let (name, span) = quote(cursor)?;
    finish(cursor)?;
    let name = Spanned::new(cursor.alloc(), name, span)?;
    Ok(Added::Node(build::include(name)))
}

/// The two words that act on a loop.
#[derive(Clone, Copy)]
pub(crate) enum Jump {
    Break,
    Continue,
}

impl Jump {
    // The word.
    fn word(self) -> &'static str {
        match self {
            Jump::Break => "break",
            Jump::Continue => "continue",
        }
    }

    // Its node.
    fn node(self) -> Node
        ensures { node_view result ≡ jump_output self }
    {
        match self {
            Jump::Break => Node::Break,
            Jump::Continue => Node::Continue,
        }
    }
}

/// Reads the rest of a `break` or a `continue`.
#[tactic(auto, using(tera_expect::proofs::TakingLemmas::after_tokens))]
pub(crate) fn read_jump(
    cursor: &mut Cursor<'_>,
    around: &Around,
    jump: Jump,
) -> Result<Added, Error>
    ensures gives { AddsAlone around.now result cursor.new (λ path start seen.
        break_of path (jump_item jump) start cursor.old.span seen cursor.old.left) }
    ensures refusal { IfErr result (Refuses cursor.old cursor.new) }
    ensures later { IfOk result (λ _. Took cursor.old cursor.new) }
{
    check_jump(cursor, around, jump)?;
    finish(cursor)?;
    Ok(Added::Node(jump.node()))
}

// Refuses a `break` or a `continue`, whose word was taken last, where neither may be.
fn check_jump(cursor: &Cursor<'_>, around: &Around, jump: Jump) -> Result<(), Error>
    ensures represents { IfOk result (λ _. holds_breaks around.now.breaks ≡ true) }
    ensures fails { IfErr result (λ e. IsMemory e ⊎ (holds_breaks around.now.breaks ≡ false)) }
    ensures refusal { IfErr result (Refuses cursor.now cursor.now) }
{
    let word = jump.word();
    match &around.breaks {
        Breaks::Loop => Ok(()),
        Breaks::Capture(opening) => Err(captured_jump(cursor, word, opening)),
        Breaks::Nothing => Err(jump_in_no_loop(cursor, word)),
    }
}

/// What keeps a template from extending another at a place, if anything does.
#[derive(Clone, Copy)]
pub(crate) enum Extension<'p> {
    /// Nothing but what is around.
    Free,
    /// Something that comes before.
    Late,
    /// It extends this template.
    Again(&'p str),
}

impl<'p> Extension<'p> {
    /// What keeps it at the start of a body, in a template that extends this one, as far as it is known.
    pub fn following(parent: Option<&'p str>) -> Extension<'p> {
        match parent {
            Some(parent) => Extension::Again(parent),
            None => Extension::Free,
        }
    }

    /// What keeps it after an item of the body that is not a text.
    pub fn later(self) -> Extension<'p> {
        match self {
            Extension::Free => Extension::Late,
            other => other,
        }
    }

    /// What keeps it after a text of the body.
    pub fn later_text(self, text: &str) -> Extension<'p> {
        match self {
            Extension::Free if !is_blank(text) => Extension::Late,
            other => other,
        }
    }
}

/// Reads the rest of an `extends`.
#[tactic(auto, using(tera_expect::proofs::TakingLemmas::after_tokens))]
pub(crate) fn extends(
    cursor: &mut Cursor<'_>,
    around: &Around,
    extension: Extension<'_>,
) -> Result<Added, Error>
    requires { is_none around.now.innermost ≡ true → is_free extension ≡ true }
    ensures gives { AddsAlone around.now result cursor.new (λ path start seen.
        extends_of path start cursor.old.span seen cursor.old.left) }
    ensures refusal { IfErr result (Refuses cursor.old cursor.new) }
    ensures later { IfOk result (λ _. Took cursor.old cursor.new) }
{
    let (parent, _) = quote(cursor)?;
    check_extension(cursor, around, extension)?;
    finish(cursor)?;
    Ok(Added::Parent(parent))
}

// Refuses to extend a template, whose name was taken last, where that may not be.
fn check_extension(
    cursor: &Cursor<'_>,
    around: &Around,
    extension: Extension<'_>,
) -> Result<(), Error>
    requires { is_none around.now.innermost ≡ true → is_free extension ≡ true }
    ensures represents { IfOk result (λ _. is_none around.now.innermost ≡ true) }
    ensures fails { IfErr result (λ e. IsMemory e ⊎ (is_none around.now.innermost ≡ false)) }
    ensures refusal { IfErr result (Refuses cursor.now cursor.now) }
{
    match extension {
        Extension::Again(parent) => Err(again_extended(cursor, parent)),
        Extension::Late => Err(late_extended(cursor)),
        Extension::Free => match &around.innermost {
            None => Ok(()),
            Some(opening) => Err(nested_extends(cursor, opening)),
        },
    }
}

/// Refuses a block, whose word was taken last, where none may be.
pub(crate) fn check_block(cursor: &Cursor<'_>, around: &Around) -> Result<(), Error>
    ensures represents { IfOk result (λ _. is_none around.now.barrier ≡ true) }
    ensures fails { IfErr result (λ e. IsMemory e ⊎ (is_none around.now.barrier ≡ false)) }
    ensures refusal { IfErr result (Refuses cursor.now cursor.now) }
{
    match &around.barrier {
        None => Ok(()),
        Some(opening) => Err(barred_block(cursor, opening)),
    }
}
