//! What is in opening tags, up to their end.

ghost use Rattle.std.specs.Prelude.{IfErr, IfOk};
ghost use Rattle.tera_grammar.specs.statements.Reading.Heads.{filters_of};
ghost use Rattle.tera_tags.specs.Heads.{AreAllFilters, AreFilters, IsLoop, attributes_to_end, expression_to_end, filters_to_end, loop_to_end, section_to_end};
ghost use Rattle.tera_tags.specs.Reading.{AreAttributes, IsExpression};
ghost use Rattle.tera_tags.specs.Settings.{limits_under};
ghost use Rattle.tera_expect.specs.Taking.{GivesBy, GoesOn, Refuses, Took};

use crate::settings::Setting;
use crate::tag_parts::{finish, tag_expression};
use tera_base::Error;
use tera_expect::{Fixed, eat, expect};
use tera_expr_parts::variables;
use tera_expr_reader::{attributes, filter};
use tera_lexer::Cursor;
use tera_tree::{Expression, MapEntry};

/// Reads an expression, and the end of its tag.
#[tactic(auto, using(tera_expect::proofs::TakingLemmas::after_tokens))]
pub fn expression_to_end(
    setting: &Setting<'_>,
    cursor: &mut Cursor<'_>,
    in_loop: bool,
) -> Result<Expression, Error>
    ensures gives { GivesBy (λ e x. IsExpression in_loop e x.0) result cursor.new.left
        (expression_to_end (limits_under setting.now) in_loop cursor.old.left) }
    ensures refusal { IfErr result (Refuses cursor.old cursor.new) }
    ensures later { IfOk result (λ _. Took cursor.old cursor.new) }
{
    let expr = tag_expression(setting, cursor, in_loop)?;
    finish(cursor)?;
    Ok(expr)
}

/// The head of a loop: the names of the key, if any, and of the value, and what the loop goes over.
#[derive(Drop)]
pub struct LoopHead {
    pub key: Option<String>,
    pub value: String,
    pub target: Expression,
}

/// Reads the head of a loop, and the end of its tag.
#[tactic(auto, using(tera_expect::proofs::TakingLemmas::after_tokens))]
pub fn loop_to_end(setting: &Setting<'_>, cursor: &mut Cursor<'_>) -> Result<LoopHead, Error>
    ensures gives { GivesBy (λ h x. IsLoop h x.0) result cursor.new.left
        (loop_to_end (limits_under setting.now) cursor.old.left) }
    ensures refusal { IfErr result (Refuses cursor.old cursor.new) }
    ensures later { IfOk result (λ _. Took cursor.old cursor.new) }
{
    let (key, value) = variables(cursor, "used as a loop variable.")?;
    expect(cursor, Fixed::In)?;
    let target = expression_to_end(setting, cursor, true)?;
    Ok(LoopHead { key, value, target })
}

// Filters, each after its bar, which are put after those that are given.
#[tactic(auto, using(tera_expect::proofs::TakingLemmas::on_the_way))]
fn more_filters(
    setting: &Setting<'_>,
    cursor: &mut Cursor<'_>,
    in_loop: bool,
    before: Vec<Expression>,
) -> Result<Vec<Expression>, Error>
    ensures gives { GivesBy (λ es fs. AreFilters in_loop before.items es.items fs)
        result cursor.new.left (filters_of (limits_under setting.now) in_loop cursor.old.left) }
    ensures refusal { IfErr result (Refuses cursor.old cursor.new) }
    ensures later { IfOk result (λ _. GoesOn cursor.old cursor.new) }
{
    let mut filters = before;
    'filters: while eat(cursor, Fixed::Bar) {
        let filter = filter(cursor, setting.scope(in_loop))?;
        filters.push(filter)?;
    }
    Ok(filters)
}

/// Reads filters, each after its bar, and the end of their tag, and puts them after those that are given.
#[tactic(auto, using(crate::proofs::OnTheWay::through_tags))]
pub fn filters_to_end(
    setting: &Setting<'_>,
    cursor: &mut Cursor<'_>,
    in_loop: bool,
    before: Vec<Expression>,
) -> Result<Vec<Expression>, Error>
    ensures gives { GivesBy (λ es x. AreFilters in_loop before.items es.items x.0) result
        cursor.new.left (filters_to_end (limits_under setting.now) in_loop cursor.old.left) }
    ensures refusal { IfErr result (Refuses cursor.old cursor.new) }
    ensures later { IfOk result (λ _. Took cursor.old cursor.new) }
{
    let filters = more_filters(setting, cursor, in_loop, before)?;
    finish(cursor)?;
    Ok(filters)
}

/// Reads a filter and others, each of those after its bar, and the end of their tag.
#[tactic(auto, using(tera_expect::proofs::TakingLemmas::after_tokens))]
pub fn section_to_end(
    setting: &Setting<'_>,
    cursor: &mut Cursor<'_>,
    in_loop: bool,
) -> Result<Vec<Expression>, Error>
    ensures gives { GivesBy (λ es x. AreAllFilters in_loop cursor.old.span es.items x.0 x.1) result
        cursor.new.left (section_to_end (limits_under setting.now) in_loop cursor.old.left) }
    ensures refusal { IfErr result (Refuses cursor.old cursor.new) }
    ensures later { IfOk result (λ _. Took cursor.old cursor.new) }
{
    let mut first = Vec::new(cursor.alloc());
    let one = filter(cursor, setting.scope(in_loop))?;
    first.push(one)?;
    filters_to_end(setting, cursor, in_loop, first)
}

/// Reads the attributes of a call of a component, the `>` after them, and the end of their tag.
#[tactic(auto, using(crate::proofs::OnTheWay::through_tags))]
pub fn attributes_to_end(
    setting: &Setting<'_>,
    cursor: &mut Cursor<'_>,
    in_loop: bool,
) -> Result<Vec<MapEntry>, Error>
    ensures gives { GivesBy (λ es x. AreAttributes in_loop es.items x.0) result cursor.new.left
        (attributes_to_end (limits_under setting.now) in_loop cursor.old.left) }
    ensures refusal { IfErr result (Refuses cursor.old cursor.new) }
    ensures later { IfOk result (λ _. Took cursor.old cursor.new) }
{
    let entries = attributes(cursor, setting.scope(in_loop))?;
    expect(cursor, Fixed::GreaterThan)?;
    finish(cursor)?;
    Ok(entries)
}
