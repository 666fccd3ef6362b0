//! The parameters of components.

ghost use Rattle.std.specs.Prelude.{◌≡◌, ◌⊎◌, ◌||◌, IfErr, IfOk, OnOk, None, Some, false, string_bytes, true};
ghost use Rattle.tera_base.specs.Errors.{IsMemory};
ghost use Rattle.tera_base.specs.ValueView.{value_view};
ghost use Rattle.tera_base.specs.Values.{Nothing};
ghost use Rattle.tera_grammar.specs.Words.{is_none};
ghost use Rattle.tera_grammar.specs.expressions.Marks.{Assign, Colon};
ghost use Rattle.tera_grammar.specs.expressions.Reading.Front.{takes};
ghost use Rattle.tera_grammar.specs.statements.Components.{is_nothing};
ghost use Rattle.tera_grammar.specs.Reads.{first_as};
ghost use Rattle.tera_grammar.specs.statements.Reading.Components.{annotation_in, assigned_in, default_of, fresh_name, minus_kind, parameter_of, parameters_of};
ghost use Rattle.tera_grammar.specs.statements.Types.{has_type, put_name, type_named};
ghost use Rattle.tera_grammar.specs.statements.Reading.Meeting.{Located, nothing_met};
ghost use Rattle.tera_tags.specs.Known.{CameBefore, Keeps, located_of, met_of};
ghost use Rattle.tera_tags.specs.Knowing.{MeetsAgain, RefusesKnowing};
ghost use Rattle.tera_tags.specs.Parameters.{ArePlaced, IsAssigned, IsDefault, IsParameter, IsType, argument_as, arguments_view, has_default, taken_rest};
ghost use Rattle.tera_tags.specs.Settings.{limits_under};
ghost use Rattle.tera_lexer.specs.code.Cursors.{Position};
ghost use Rattle.tera_expect.specs.Taking.{GivesAs, GivesBy, GoesOn, Refuses, Took, name_at};
ghost use Rattle.tera_tree.specs.View.{argument_view, default_view};

use crate::faults::{
    mistyped, no_default, no_named_type, no_number, no_type, parameter_named_body,
    repeated_parameter, rest_is_not_last, rest_is_parameter,
};
use crate::names::{Known, keep_name, place_of};
use crate::settings::Setting;
use std::collections::BTreeMap;
use tera_base::{Error, Span, Value};
use tera_expect::{Fixed, begins, eat, expect, name, take};
use tera_expr_parts::is_none;
use tera_expr_reader::{literal_array, literal_map};
use tera_lexer::{Cursor, Token};
use tera_tree::{ArgType, ComponentArgument};

/// The parameters of a component: its arguments, and the name of the one that takes the rest.
#[derive(Drop)]
pub struct Parameters {
    pub arguments: BTreeMap<String, ComponentArgument>,
    pub rest: Option<String>,
}

/// Reads the parameters of a component, after their opening parenthesis, with where the names of all of them are.
#[tactic(auto, using(tera_expect::proofs::TakingLemmas::on_the_way))]
pub(crate) fn read_parameters(
    setting: &Setting<'_>,
    cursor: &mut Cursor<'_>,
) -> Result<(Parameters, Known), Error>
    ensures gives { GivesBy ArePlaced result cursor.new.left
        (parameters_of (limits_under setting.now) nothing_met cursor.old.left) }
    ensures refusal { IfErr result (Refuses cursor.old cursor.new) }
    ensures later { IfOk result (λ _. Took cursor.old cursor.new) }
{
    let alloc = cursor.alloc();
    let mut arguments = BTreeMap::new(alloc);
    let mut seen = Known::new(alloc);
    'parameters: loop {
        if eat(cursor, Fixed::RightParen) {
            let rest = None;
            return Ok((Parameters { arguments, rest }, seen));
        }
        if eat(cursor, Fixed::Spread) {
            let rest = Some(rest_parameter(cursor, &mut seen)?);
            return Ok((Parameters { arguments, rest }, seen));
        }
        let (name, argument) = parameter(setting, cursor, &mut seen)?;
        put_argument(&mut arguments, name, argument)?;
        if eat(cursor, Fixed::RightParen) {
            let rest = None;
            return Ok((Parameters { arguments, rest }, seen));
        }
        expect(cursor, Fixed::Comma)?;
    }
}

// A default: a literal, a negative number, a word for no value, a constant array or a constant map.
#[tactic(auto, using(tera_expect::proofs::TakingLemmas::after_tokens))]
fn default_value(setting: &Setting<'_>, cursor: &mut Cursor<'_>) -> Result<Value, Error>
    ensures gives { GivesBy IsDefault result cursor.new.left
        (default_of (limits_under setting.now) cursor.old.left) }
    ensures refusal { IfErr result (Refuses cursor.old cursor.new) }
    ensures later { IfOk result (λ _. Took cursor.old cursor.new) }
{
    if begins(cursor, Fixed::LeftBracket) {
        return literal_array(cursor, setting.limits);
    }
    if begins(cursor, Fixed::LeftBrace) {
        return literal_map(cursor, "default argument", setting.limits);
    }
    let (token, _) = take(cursor)?;
    match token {
        Token::Integer(n) => Ok(Value::I64(n)),
        Token::Bool(b) => Ok(Value::Bool(b)),
        Token::Str(text) => Ok(Value::String(String::from_str(cursor.alloc(), text)?)),
        Token::String(text) => Ok(Value::String(text)),
        Token::Ident(name) => no_value(cursor, name),
        Token::Minus => negative(cursor),
        token => Err(no_default(cursor, &token)),
    }
}

// The number after a minus, which was taken last.
#[tactic(auto, using(tera_expect::proofs::TakingLemmas::after_tokens))]
fn negative(cursor: &mut Cursor<'_>) -> Result<Value, Error>
    ensures gives { GivesBy IsDefault result cursor.new.left
        (first_as (minus_kind cursor.old.span) cursor.old.left) }
    ensures refusal { IfErr result (Refuses cursor.old cursor.new) }
    ensures later { IfOk result (λ _. Took cursor.old cursor.new) }
{
    let (token, _) = take(cursor)?;
    match token {
        Token::Integer(n) => Ok(Value::I64(-n)),
        token => Err(no_number(cursor, &token)),
    }
}

// No value, where the name, which was taken last, is a word for it.
fn no_value(cursor: &Cursor<'_>, name: &str) -> Result<Value, Error>
    ensures given { IfOk result (λ v. (is_none name.now ≡ true) × (value_view v ≡ Nothing)) }
    ensures fails { IfErr result (λ e. IsMemory e ⊎ (is_none name.now ≡ false)) }
    ensures refusal { IfErr result (Refuses cursor.now cursor.now) }
{
    if is_none(name) {
        Ok(Value::None)
    } else {
        Err(no_default(cursor, &Token::Ident(name)))
    }
}

// The type after a colon, where one is.
#[tactic(auto, using(tera_expect::proofs::TakingLemmas::on_the_way))]
fn argument_type(cursor: &mut Cursor<'_>) -> Result<Option<ArgType>, Error>
    ensures gives { GivesBy IsType result cursor.new.left
        (annotation_in cursor.old.left (takes Colon cursor.old.left)) }
    ensures refusal { IfErr result (Refuses cursor.old cursor.new) }
    ensures later { IfOk result (λ _. GoesOn cursor.old cursor.new) }
{
    if !eat(cursor, Fixed::Colon) {
        return Ok(None);
    }
    let (token, _) = take(cursor)?;
    match token {
        Token::Ident(name) => Ok(Some(named_type(cursor, name)?)),
        token => Err(no_type(cursor, &token)),
    }
}

// The type of this name, which was taken last.
fn named_type(cursor: &Cursor<'_>, name: &str) -> Result<ArgType, Error>
    ensures named { IfOk result (λ t. type_named name.now ≡ Some t) }
    ensures unnamed { IfErr result (λ e. IsMemory e ⊎ (type_named name.now ≡ None)) }
    ensures refusal { IfErr result (Refuses cursor.now cursor.now) }
{
    match ArgType::from_str(cursor.alloc(), name) {
        Ok(typ) => Ok(typ),
        Err(error) => Err(no_named_type(cursor, error)),
    }
}

// The default after an equals sign, where one is.
#[tactic(auto, using(tera_expect::proofs::TakingLemmas::on_the_way))]
fn assigned(setting: &Setting<'_>, cursor: &mut Cursor<'_>) -> Result<Option<Value>, Error>
    ensures gives { GivesBy IsAssigned result cursor.new.left
        (assigned_in (limits_under setting.now) cursor.old.left (takes Assign cursor.old.left)) }
    ensures refusal { IfErr result (Refuses cursor.old cursor.new) }
    ensures later { IfOk result (λ _. GoesOn cursor.old cursor.new) }
{
    if !eat(cursor, Fixed::Assign) {
        return Ok(None);
    }
    Ok(Some(default_value(setting, cursor)?))
}

// A name that is neither `body` nor that of an earlier parameter.
fn fresh_name<'a>(cursor: &mut Cursor<'a>, seen: &Known, rest: bool) -> Result<&'a str, Error>
    ensures gives { GivesAs (name_at cursor.new.span) result cursor.new.left
        (fresh_name (met_of seen.now) cursor.old.left) }
    ensures refusal { IfErr result
        (RefusesKnowing (located_of seen.now) cursor.old cursor.new) }
    ensures later { IfOk result (λ _. Took cursor.old cursor.new) }
{
    let name = name(cursor)?;
    if name == "body" {
        return Err(parameter_named_body(cursor));
    }
    match place_of(seen, name) {
        Some(first) => Err(repeated(cursor, name, first, rest)),
        None => Ok(name),
    }
}

// That the name, which was taken last, is that of the parameter whose name is at the span.
fn repeated(cursor: &Cursor<'_>, name: &str, first: &Span, rest: bool) -> Error
    ensures { (known : Located) (old : Position) → MeetsAgain known name.now first.now old cursor.now →
        RefusesKnowing known old cursor.now result }
{
    if rest {
        rest_is_parameter(cursor, name)
    } else {
        repeated_parameter(cursor, name, first)
    }
}

// The name of the rest parameter, after its dots, and the closing parenthesis. The name is kept.
#[tactic(auto, using(tera_expect::proofs::TakingLemmas::after_tokens, crate::proofs::KnowingLemmas::memory_knowing))]
fn rest_parameter(cursor: &mut Cursor<'_>, seen: &mut Known) -> Result<String, Error>
    ensures gives { GivesBy (λ s n. (string_bytes s ≡ n.text) × Keeps seen.old seen.new n)
        result cursor.new.left (taken_rest (met_of seen.old) cursor.old.left) }
    ensures refusal { IfErr result
        (RefusesKnowing (located_of seen.old) cursor.old cursor.new) }
    ensures later { IfOk result (λ _. Took cursor.old cursor.new) }
{
    let name = fresh_name(cursor, seen, true)?;
    keep_name(cursor.alloc(), seen, name, cursor.current_span())?;
    if !eat(cursor, Fixed::RightParen) {
        return Err(rest_is_not_last(cursor));
    }
    Ok(String::from_str(cursor.alloc(), name)?)
}

// A parameter, whose name is kept.
#[tactic(auto, using(crate::proofs::OnTheWay::through_tags, tera_expect::proofs::TakingLemmas::goes_further, crate::proofs::KnowingLemmas::memory_knowing))]
fn parameter(
    setting: &Setting<'_>,
    cursor: &mut Cursor<'_>,
    seen: &mut Known,
) -> Result<(String, ComponentArgument), Error>
    ensures gives { GivesBy (λ p q. IsParameter p q × Keeps seen.old seen.new q.name)
        result cursor.new.left
        (parameter_of (limits_under setting.now) (met_of seen.old) cursor.old.left) }
    ensures kept { (start : Position) → GoesOn start cursor.old →
        CameBefore (located_of seen.old) cursor.old.left start.left →
        IfOk result (λ _. CameBefore (located_of seen.new) cursor.new.left start.left) }
    ensures refusal { IfErr result
        (RefusesKnowing (located_of seen.old) cursor.old cursor.new) }
    ensures later { IfOk result (λ _. Took cursor.old cursor.new) }
{
    let alloc = cursor.alloc();
    let implicit = eat(cursor, Fixed::At);
    let name = fresh_name(cursor, seen, false)?;
    keep_name(alloc, seen, name, cursor.current_span())?;
    let typ = argument_type(cursor)?;
    let default = assigned(setting, cursor)?;
    let argument = argument(typ, default, implicit);
    check_default(cursor, name, &argument)?;
    Ok((String::from_str(alloc, name)?, argument))
}

// An argument of this type, or that of its default.
fn argument(typ: Option<ArgType>, default: Option<Value>, implicit: bool) -> ComponentArgument
    ensures { argument_view result ≡ argument_as typ (default_view default) implicit }
{
    let typ = match (typ, &default) {
        (Some(typ), _) => Some(typ),
        (None, Some(value)) => ArgType::from_value(value),
        (None, None) => None,
    };
    ComponentArgument {
        default,
        typ,
        implicit,
    }
}

// Refuses a default that is a value and not of the type of its argument.
fn check_default(cursor: &Cursor<'_>, name: &str, argument: &ComponentArgument) -> Result<(), Error>
    ensures fits { IfOk result (λ _. has_default (argument_view argument.now) ≡ true) }
    ensures fails { IfErr result (λ e.
        IsMemory e ⊎ (has_default (argument_view argument.now) ≡ false)) }
    ensures refusal { IfErr result (Refuses cursor.now cursor.now) }
{
    match (&argument.typ, &argument.default) {
        (Some(typ), Some(value)) if !fits(typ, value) => { Err(mistyped(cursor, name, typ, value)) }
        _ => Ok(()),
    }
}

// Whether a value is of the type, or is not a value.
fn fits(typ: &ArgType, value: &Value) -> bool
    ensures { result
        ≡ (is_nothing (value_view value.now) || has_type typ.now (value_view value.now)) }
{
    matches!(value, Value::None) || typ.matches_value(value)
}

// Puts an argument to those that are there.
fn put_argument(
    arguments: &mut BTreeMap<String, ComponentArgument>,
    name: String,
    argument: ComponentArgument,
) -> Result<(), Error>
    ensures puts { OnOk result (arguments_view arguments.new.entries
        ≡ put_name (string_bytes name) (argument_view argument)
        (arguments_view arguments.old.entries)) }
    ensures refusal { IfErr result IsMemory }
{
    let _before = arguments.insert(name, argument)?;
    Ok(())
}
