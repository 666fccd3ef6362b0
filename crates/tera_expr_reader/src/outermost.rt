//! What tags hold of expressions, each outermost expression with all limits of its own.

ghost use Rattle.std.specs.Prelude.{IfErr, IfOk};
ghost use Rattle.tera_grammar.specs.expressions.Reading.Whole.{kwargs_of};
ghost use Rattle.tera_grammar.specs.statements.Reading.Expressions.{array_of, attributes_of, component_of, expression_of, filter_of, map_of};
ghost use Rattle.tera_expr_parts.specs.Allowed.{limits_of};
ghost use Rattle.tera_expr_reader.specs.Outermost.{AreAttributes, AreKwargs, IsArray, IsComponent, IsExpression, IsFilter, IsMap};
ghost use Rattle.tera_expect.specs.Taking.{GivesBy, GoesOn, Refuses, Took};

use crate::arguments::arguments;
use crate::arrays::array;
use crate::calls::filter_with;
use crate::faults::{array_not_constant, map_not_constant};
use crate::maps::map;
use std::collections::BTreeMap;
use tera_base::{Error, Value};
use tera_expect::{Fixed, expect};
use tera_expr_parts::{Limits, Room, Scope, Values, constant, dotted_name, leaves};
use tera_lexer::Cursor;
use tera_tree::{Expression, MapEntry};

/// Reads an expression.
pub fn expression(cursor: &mut Cursor<'_>, scope: Scope) -> Result<Expression, Error>
    ensures gives { GivesBy (IsExpression scope.in_loop) result cursor.new.left
        (expression_of (limits_of scope.limits) scope.in_loop cursor.old.left) }
    ensures refusal { IfErr result (Refuses cursor.old cursor.new) }
    ensures later { IfOk result (λ _. Took cursor.old cursor.new) }
{
    let mut links = scope.limits.links;
    let room = Room::widest(scope);
    crate::stack::expression(cursor, &mut links, room, scope.limits.depth, 0)
}

/// Reads the attributes of a call of a component, as many as are there.
pub fn attributes(cursor: &mut Cursor<'_>, scope: Scope) -> Result<Vec<MapEntry>, Error>
    ensures gives { GivesBy (λ es a. AreAttributes scope.in_loop es.items a) result cursor.new.left
        (attributes_of (limits_of scope.limits) scope.in_loop cursor.old.left) }
    ensures refusal { IfErr result (Refuses cursor.old cursor.new) }
    ensures later { IfOk result (λ _. GoesOn cursor.old cursor.new) }
{
    let mut links = 0;
    crate::component_calls::attributes(cursor, &mut links, Values::outermost(scope))
}

/// Reads arguments with their parentheses.
#[tactic(auto, using(tera_expect::proofs::TakingLemmas::after_tokens))]
pub fn kwargs(cursor: &mut Cursor<'_>, scope: Scope) -> Result<BTreeMap<String, Expression>, Error>
    ensures gives { GivesBy (λ m x. AreKwargs scope.in_loop m.entries x) result cursor.new.left
        (kwargs_of (limits_of scope.limits) scope.in_loop cursor.old.left) }
    ensures refusal { IfErr result (Refuses cursor.old cursor.new) }
    ensures later { IfOk result (λ _. Took cursor.old cursor.new) }
{
    expect(cursor, Fixed::LeftParen)?;
    let mut links = 0;
    arguments(cursor, &mut links, Values::outermost(scope))
}

/// Reads the name of a filter and its arguments. What it filters is not a value, at the token taken last before.
#[tactic(auto, using(tera_expect::proofs::TakingLemmas::memory_refused))]
pub fn filter(cursor: &mut Cursor<'_>, scope: Scope) -> Result<Expression, Error>
    ensures gives { GivesBy (IsFilter scope.in_loop cursor.old.span) result cursor.new.left
        (filter_of (limits_of scope.limits) scope.in_loop cursor.old.left) }
    ensures refusal { IfErr result (Refuses cursor.old cursor.new) }
    ensures later { IfOk result (λ _. Took cursor.old cursor.new) }
{
    let input = leaves::none(cursor.alloc(), cursor.current_span().copied())?;
    let mut links = 0;
    filter_with(cursor, &mut links, Values::outermost(scope), input)
}

/// Reads names joined by dots.
pub fn component_name(cursor: &mut Cursor<'_>) -> Result<String, Error>
    ensures gives { GivesBy IsComponent result cursor.new.left (component_of cursor.old.left) }
    ensures refusal { IfErr result (Refuses cursor.old cursor.new) }
    ensures later { IfOk result (λ _. Took cursor.old cursor.new) }
{
    dotted_name(cursor)
}

/// Reads an array of constants from its bracket on.
#[tactic(auto, using(tera_expect::proofs::TakingLemmas::after_tokens))]
pub fn literal_array(cursor: &mut Cursor<'_>, limits: Limits) -> Result<Value, Error>
    ensures gives { GivesBy IsArray result cursor.new.left
        (array_of (limits_of limits) cursor.old.left) }
    ensures refusal { IfErr result (Refuses cursor.old cursor.new) }
    ensures later { IfOk result (λ _. Took cursor.old cursor.new) }
{
    expect(cursor, Fixed::LeftBracket)?;
    let first = cursor.current_span().copied();
    let mut links = 0;
    let values = Values::outermost(Scope {
        in_loop: false,
        limits,
    });
    let array = array(cursor, &mut links, values, &first)?;
    match constant(array) {
        Some(value) => Ok(value),
        None => Err(array_not_constant(cursor, &first)),
    }
}

/// Reads a map of constants from its brace on; a fault reports what it is in as the context.
#[tactic(auto, using(tera_expect::proofs::TakingLemmas::after_tokens))]
pub fn literal_map(cursor: &mut Cursor<'_>, context: &str, limits: Limits) -> Result<Value, Error>
    ensures gives { GivesBy IsMap result cursor.new.left
        (map_of (limits_of limits) cursor.old.left) }
    ensures refusal { IfErr result (Refuses cursor.old cursor.new) }
    ensures later { IfOk result (λ _. Took cursor.old cursor.new) }
{
    expect(cursor, Fixed::LeftBrace)?;
    let first = cursor.current_span().copied();
    let mut links = 0;
    let values = Values::outermost(Scope {
        in_loop: false,
        limits,
    });
    let map = map(cursor, &mut links, values, &first)?;
    match constant(map) {
        Some(value) => Ok(value),
        None => Err(map_not_constant(cursor, &first, context)),
    }
}
