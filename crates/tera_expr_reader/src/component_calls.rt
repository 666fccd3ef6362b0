//! Calls of components that close themselves, and their attributes.

ghost use Rattle.std.specs.Prelude.{IfErr, IfOk};
ghost use Rattle.tera_ast.specs.View.{expression_view};
ghost use Rattle.tera_grammar.specs.expressions.Marks.{Assign, LeftBrace};
ghost use Rattle.tera_grammar.specs.expressions.Reading.Atoms.{component_of};
ghost use Rattle.tera_grammar.specs.expressions.Reading.Front.{at, name_of, skip};
ghost use Rattle.tera_grammar.specs.expressions.Reading.Loop.{expr};
ghost use Rattle.tera_grammar.specs.expressions.Reading.Bracketed.{attribute_at, attributes_of, named_at};
ghost use Rattle.tera_grammar.specs.expressions.Stack.{HeadGives};
ghost use Rattle.tera_expr_reader.specs.Attributes.{AttributeGives, IsBraced, ListsAttributes, MaybeGives, MaybeTook, ValueGives, braced_of};
ghost use Rattle.tera_expr_parts.specs.Literals.{MayBeNegated};
ghost use Rattle.tera_expr_parts.specs.Rooms.{room_of};
ghost use Rattle.tera_expr_parts.specs.CommaLists.{reader_of};
ghost use Rattle.tera_expect.specs.Taking.{GivesAt, GoesOn, Refuses, Took, name_in};

use crate::rows::value;
use tera_base::{Error, Key, Span};
use tera_expect::{Fixed, begins_name, eat, eat_name, expect};
use tera_expr_parts::{
    Room, Values, close_component, dotted_name, leaves, no_component_name, quote, spanning,
};
use tera_lexer::Cursor;
use tera_tree::{Expression, MapEntry, build};

/// A call of a component that closes itself, after its `<`, which is at the span and was taken last.
#[cycle(reader)]
#[tactic(auto, using(tera_expect::proofs::TakingLemmas::on_the_way))]
pub(crate) fn component(
    cursor: &mut Cursor<'_>,
    links: &mut usize,
    room: Room,
    depth: usize,
    first: &Span,
) -> Result<Expression, Error>
    ensures gives { HeadGives expression_view room.scope.in_loop result cursor.new.span
        (at links.new cursor.new.left)
        (component_of (expr depth) (room_of room) first.now (at links.old cursor.old.left)) }
    ensures negatable { IfOk result (λ e. MayBeNegated (expression_view e)) }
    ensures refusal { IfErr result (Refuses cursor.old cursor.new) }
    ensures later { IfOk result (λ _. Took cursor.old cursor.new) }
{
    let alloc = cursor.alloc();
    if !begins_name(cursor) {
        return Err(no_component_name(cursor));
    }
    let name = dotted_name(cursor)?;
    let values = Values {
        room,
        depth,
        own: None,
    };
    let kwargs = attributes(cursor, links, values)?;
    close_component(cursor)?;
    let span = spanning(first, cursor.current_span());
    let body = Vec::new(alloc);
    Ok(build::component_call(alloc, name, kwargs, body, true, span)?)
}

/// The attributes of a call of a component.
#[cycle(reader)]
#[tactic(auto, using(tera_expect::proofs::TakingLemmas::on_the_way))]
pub(crate) fn attributes(
    cursor: &mut Cursor<'_>,
    links: &mut usize,
    values: Values,
) -> Result<Vec<MapEntry>, Error>
    ensures gives { GivesAt
        (ListsAttributes values.room.scope.in_loop) result (at links.new cursor.new.left)
        (attributes_of (reader_of values) (room_of values.room) (at links.old cursor.old.left)) }
    ensures refusal { IfErr result (Refuses cursor.old cursor.new) }
    ensures later { IfOk result (λ _. GoesOn cursor.old cursor.new) }
{
    let mut attributes = Vec::new(cursor.alloc());
    'reading: while let Some(next) = attribute(cursor, links, values)? {
        attributes.push(next)?;
    }
    Ok(attributes)
}

// An attribute, where one is.
#[cycle(reader)]
#[tactic(auto, using(tera_expect::proofs::TakingLemmas::on_the_way))]
fn attribute(
    cursor: &mut Cursor<'_>,
    links: &mut usize,
    values: Values,
) -> Result<Option<MapEntry>, Error>
    ensures gives { MaybeGives values.room.scope.in_loop result (at links.old cursor.old.left)
        (at links.new cursor.new.left) (λ more.
        attribute_at more (reader_of values) (room_of values.room) (at links.old cursor.old.left)
        (name_of (at links.old cursor.old.left)) (skip LeftBrace (at links.old cursor.old.left))) }
    ensures refusal { IfErr result (Refuses cursor.old cursor.new) }
    ensures later { IfOk result (MaybeTook cursor.old cursor.new) }
{
    if let Some(name) = eat_name(cursor) {
        let named = named_attribute(cursor, links, values, name)?;
        return Ok(Some(named));
    }
    if !eat(cursor, Fixed::LeftBrace) {
        return Ok(None);
    }
    expect(cursor, Fixed::Spread)?;
    let spread = braced(cursor, links, values)?;
    Ok(Some(MapEntry::Spread(spread)))
}

// An attribute after its name, which was taken last.
#[cycle(reader)]
#[tactic(auto, using(tera_expect::proofs::TakingLemmas::on_the_way))]
fn named_attribute(
    cursor: &mut Cursor<'_>,
    links: &mut usize,
    values: Values,
    name: &str,
) -> Result<MapEntry, Error>
    ensures gives { AttributeGives values.room.scope.in_loop result
        (at links.new cursor.new.left) (λ more.
        named_at more (reader_of values) (room_of values.room) (name_in name.now cursor.old.span)
        (at links.old cursor.old.left) (skip Assign (at links.old cursor.old.left))) }
    ensures refusal { IfErr result (Refuses cursor.old cursor.new) }
    ensures later { IfOk result (λ _. GoesOn cursor.old cursor.new) }
{
    let alloc = cursor.alloc();
    let key = Key::String(String::from_str(alloc, name)?);
    if !eat(cursor, Fixed::Assign) {
        let variable = leaves::variable(alloc, name, cursor.current_span().copied())?;
        return Ok(MapEntry::KeyValue {
            key,
            value: variable,
        });
    }
    let value = attribute_value(cursor, links, values)?;
    Ok(MapEntry::KeyValue { key, value })
}

// The value of an attribute: a string, or an expression between braces.
#[cycle(reader)]
#[tactic(auto, using(tera_expect::proofs::TakingLemmas::after_tokens))]
fn attribute_value(
    cursor: &mut Cursor<'_>,
    links: &mut usize,
    values: Values,
) -> Result<Expression, Error>
    ensures gives { ValueGives values.room.scope.in_loop result (at links.new cursor.new.left)
        (reader_of values) (room_of values.room) (at links.old cursor.old.left) }
    ensures refusal { IfErr result (Refuses cursor.old cursor.new) }
    ensures later { IfOk result (λ _. Took cursor.old cursor.new) }
{
    if eat(cursor, Fixed::LeftBrace) {
        return braced(cursor, links, values);
    }
    quote(cursor)
}

// A value and the brace after it.
#[cycle(reader)]
#[tactic(auto, using(tera_expect::proofs::TakingLemmas::after_tokens))]
fn braced(cursor: &mut Cursor<'_>, links: &mut usize, values: Values) -> Result<Expression, Error>
    ensures gives { GivesAt
        (IsBraced values.room.scope.in_loop) result (at links.new cursor.new.left)
        (braced_of (reader_of values) (room_of values.room) (at links.old cursor.old.left)) }
    ensures refusal { IfErr result (Refuses cursor.old cursor.new) }
    ensures later { IfOk result (λ _. Took cursor.old cursor.new) }
{
    let inside = value(cursor, links, values, 0)?;
    expect(cursor, Fixed::RightBrace)?;
    Ok(inside)
}
