//! The names of arguments.

ghost use Rattle.std.specs.Prelude.{◌≡◌, IfErr, IfOk, OnOk};
ghost use Rattle.tera_base.specs.Errors.{IsMemory};
ghost use Rattle.tera_ast.specs.View.{args_view, expression_view};
ghost use Rattle.tera_grammar.specs.expressions.Output.{put_arg};
ghost use Rattle.tera_expr_parts.specs.CommaLists.{new_name_at};
ghost use Rattle.tera_expr_parts.specs.Kept.{AreKept};
ghost use Rattle.tera_lexer.specs.code.Cursors.{Position};
ghost use Rattle.tera_expect.specs.Taking.{GivesAs, GoesOn, Refuses, Took, name_at};

use crate::faults::repeated_argument;
use std::alloc::Global;
use std::collections::BTreeMap;
use tera_base::{Error, Span};
use tera_expect::name;
use tera_lexer::Cursor;
use tera_tree::Expression;

/// The name of an argument, which no argument before it has. It is kept, with where it is.
#[tactic(auto, using(tera_expect::proofs::TakingLemmas::after_tokens))]
pub fn argument_name<'a>(
    cursor: &mut Cursor<'a>,
    arguments: &BTreeMap<String, Expression>,
    names: &mut Vec<(&'a str, Span)>,
) -> Result<&'a str, Error>
    ensures gives { GivesAs (name_at cursor.new.span) result cursor.new.left
        (new_name_at (args_view arguments.now.entries) cursor.old.left) }
    ensures kept { (start : Position) → GoesOn start cursor.old →
        AreKept names.old.items cursor.old.left start.left →
        IfOk result (λ _. AreKept names.new.items cursor.new.left start.left) }
    ensures refusal { (start : Position) → GoesOn start cursor.old →
        AreKept names.old.items cursor.old.left start.left →
        IfErr result (Refuses start cursor.new) }
    ensures later { IfOk result (λ _. Took cursor.old cursor.new) }
{
    let name = name(cursor)?;
    if arguments.contains_key(name) {
        return Err(repeated_argument(cursor, name, names));
    }
    names.push((name, cursor.current_span().copied()))?;
    Ok(name)
}

/// Puts an argument to those that are there.
pub fn put_argument(
    alloc: Global,
    arguments: &mut BTreeMap<String, Expression>,
    name: &str,
    value: Expression,
) -> Result<(), Error>
    ensures puts { OnOk result (args_view arguments.new.entries
        ≡ put_arg name.now (expression_view value) (args_view arguments.old.entries)) }
    ensures refusal { IfErr result IsMemory }
{
    let name = String::from_str(alloc, name)?;
    let _before = arguments.insert(name, value)?;
    Ok(())
}
