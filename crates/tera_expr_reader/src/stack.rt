//! Reads expressions over a stack of those that are open.

ghost use Rattle.std.specs.Prelude.{◌≡◌, ◌+◌, ℕ, IfErr, IfOk};
ghost use Rattle.tera_ast.specs.View.{expression_view};
ghost use Rattle.tera_grammar.specs.Reads.{found};
ghost use Rattle.tera_grammar.specs.expressions.Spans.{spanning};
ghost use Rattle.tera_grammar.specs.expressions.Reading.Front.{at};
ghost use Rattle.tera_grammar.specs.expressions.Reading.Loop.{expr};
ghost use Rattle.tera_grammar.specs.expressions.Stack as stack;
ghost use Rattle.tera_grammar.specs.expressions.Stack.{work};
ghost use Rattle.tera_expr_parts.specs.declared.limits.Room.{Room};
ghost use Rattle.tera_expr_reader.specs.Frames.{Falls, HoldsNegatable, Keeps, after_sign, after_word, frame_view, level_view, operand_at, operand_view, unwind};
ghost use Rattle.tera_expr_parts.specs.Literals.{MayBeNegated};
ghost use Rattle.tera_expr_parts.specs.Fronts.{sign_of};
ghost use Rattle.tera_expr_parts.specs.Rooms.{room_of};
ghost use Rattle.tera_expect.specs.Taking.{GoesOn, Refuses, Took, name_in};

use crate::arrays::array;
use crate::calls::suffix;
use crate::chains::chain;
use crate::component_calls::component;
use crate::frames::{Frame, Level, Operand, State};
use crate::lone::lone;
use crate::maps::map;
use tera_base::{Error, Span};
use tera_expect::{Fixed, expect, take};
use tera_expr_parts::{
    Front, Room, Values, begins_prefix, consecutive, count_link, count_operator, is_none, is_not,
    joined, leaves, literal, misplaced_not, prefix_power, refuse_prefix, signed, spanning,
    take_condition, take_ending, take_operator, too_complex,
};
use tera_lexer::{Cursor, Token};
use tera_tree::{Expression, UnaryOperator, build};

/// Reads an expression, from a least power on, where so many may open.
#[cycle(reader)]
#[tactic(auto, using(tera_expect::proofs::TakingLemmas::memory_refused))]
pub(crate) fn expression(
    cursor: &mut Cursor<'_>,
    links: &mut usize,
    room: Room,
    depth: usize,
    least: u8,
) -> Result<Expression, Error>
    ensures gives { stack.Gives expression_view room.scope.in_loop result
        (at links.new cursor.new.left)
        (expr depth (room_of room) least (at links.old cursor.old.left)) }
    ensures refusal { IfErr result (Refuses cursor.old cursor.new) }
    ensures later { IfOk result (λ _. Took cursor.old cursor.new) }
{
    if let Some(expr) = lone(cursor, depth)? {
        return Ok(expr);
    }
    let mut frames = Vec::new(cursor.alloc());
    let mut state = State::Needs(depth, least);
    'steps: loop {
        let next = match state {
            State::Needs(depth, least) => {
                operand(cursor, links, &mut frames, room, depth, least)?
            }
            State::Holds(level, left) => { turn(cursor, links, &mut frames, room, level, left)? }
            State::Done(whole) => return Ok(whole.expr),
        };
        state = next;
    }
}

// Opens an expression, where one may still open.
#[inline(always)]
#[cycle(reader)]
fn operand(
    cursor: &mut Cursor<'_>,
    links: &mut usize,
    frames: &mut Vec<Frame>,
    room: Room,
    depth: usize,
    least: u8,
) -> Result<State, Error>
    ensures keeps { Keeps room result frames.new.items (at links.new cursor.new.left)
        (unwind room frames.old.items
        (stack.coming depth (room_of room) least (at links.old cursor.old.left))) }
    ensures falls { Falls result frames.new.items (at links.new cursor.new.left)
        (work frames.old.items (at links.old cursor.old.left)) }
    ensures negatable { IfOk result HoldsNegatable }
    ensures refusal { IfErr result (Refuses cursor.old cursor.new) }
    ensures later { IfOk result (λ _. Took cursor.old cursor.new) }
{
    if depth == 0 {
        return Err(too_complex(cursor));
    }
    let level = Level {
        depth: depth - 1,
        least,
    };
    head(cursor, links, frames, room, level)
}

// Takes the first token of an operand: it is one by itself, or begins one.
#[inline(always)]
#[cycle(reader)]
#[tactic(auto, using(tera_expect::proofs::TakingLemmas::on_the_way))]
fn head(
    cursor: &mut Cursor<'_>,
    links: &mut usize,
    frames: &mut Vec<Frame>,
    room: Room,
    level: Level,
) -> Result<State, Error>
    ensures keeps { Keeps room result frames.new.items (at links.new cursor.new.left)
        (unwind room frames.old.items
        (stack.heading (room_of room) (level_view level) (at links.old cursor.old.left))) }
    ensures falls { Falls result frames.new.items
        (at links.new cursor.new.left) (work frames.old.items (at links.old cursor.old.left)) }
    ensures negatable { IfOk result HoldsNegatable }
    ensures refusal { IfErr result (Refuses cursor.old cursor.new) }
    ensures later { IfOk result (λ _. Took cursor.old cursor.new) }
{
    let (token, span) = take(cursor)?;
    let values = Values {
        room,
        depth: level.depth,
        own: None,
    };
    match token {
        Token::Minus => return prefix(cursor, frames, level, UnaryOperator::Minus, span),
        Token::LeftParen => {
            frames.push(Frame::Paren(level, span))?;
            return Ok(State::Needs(level.depth, 0));
        }
        Token::Ident(name) => return word(cursor, links, frames, room, level, name, span),
        Token::LeftBracket => {
            let expr = array(cursor, links, values, &span)?;
            return Ok(holds(cursor, level, expr, &span));
        }
        Token::LeftBrace => {
            let expr = map(cursor, links, values, &span)?;
            return Ok(holds(cursor, level, expr, &span));
        }
        Token::LessThan => {
            let expr = component(cursor, links, room, level.depth, &span)?;
            return Ok(holds(cursor, level, expr, &span));
        }
        token => {
            let expr = literal(cursor, token, &span)?;
            return Ok(holds(cursor, level, expr, &span));
        }
    }
}

// An operand from its first token up to that which was taken last.
#[inline(always)]
fn holds(cursor: &Cursor<'_>, level: Level, expr: Expression, first: &Span) -> State
    ensures { result ≡ operand_at level expr (spanning first.now cursor.now.span) }
{
    let span = spanning(first, cursor.current_span());
    State::Holds(level, Operand { expr, span })
}

// A word at the start of an operand, which is at the span and was taken last.
#[inline(always)]
#[cycle(reader)]
#[tactic(auto, using(tera_expect::proofs::TakingLemmas::on_the_way))]
fn word(
    cursor: &mut Cursor<'_>,
    links: &mut usize,
    frames: &mut Vec<Frame>,
    room: Room,
    level: Level,
    name: &str,
    span: Span,
) -> Result<State, Error>
    requires { cursor.old.span ≡ span }
    ensures keeps { Keeps room result frames.new.items (at links.new cursor.new.left)
        (unwind room frames.old.items
        (after_word room level (name_in name.now span) (at links.old cursor.old.left))) }
    ensures falls { Falls result frames.new.items (at links.new cursor.new.left)
        (work frames.old.items (at links.old cursor.old.left) + 2) }
    ensures negatable { IfOk result HoldsNegatable }
    ensures refusal { IfErr result (Refuses cursor.old cursor.new) }
    ensures later { IfOk result (λ _. GoesOn cursor.old cursor.new) }
{
    if is_none(name) {
        let expr = leaves::none(cursor.alloc(), span.copied())?;
        return Ok(holds(cursor, level, expr, &span));
    }
    if is_not(name) {
        return prefix(cursor, frames, level, UnaryOperator::Not, span);
    }
    let expr = chain(cursor, links, room, level.depth, name, &span)?;
    Ok(holds(cursor, level, expr, &span))
}

// Opens the operand of a prefix, which is at the span and was taken.
#[inline(always)]
#[tactic(auto, using(tera_expect::proofs::TakingLemmas::on_the_way))]
fn prefix(
    cursor: &mut Cursor<'_>,
    frames: &mut Vec<Frame>,
    level: Level,
    sign: UnaryOperator,
    span: Span,
) -> Result<State, Error>
    ensures keeps { (room : Room) (links : ℕ) →
        Keeps room result frames.new.items (at links cursor.new.left) (unwind room frames.old.items
        (after_sign room level (sign_of sign span) (at links cursor.old.left))) }
    ensures falls { (links : ℕ) → Falls result frames.new.items (at links cursor.new.left)
        (work frames.old.items (at links cursor.old.left) + 2) }
    ensures negatable { IfOk result HoldsNegatable }
    ensures refusal { IfErr result (Refuses cursor.old cursor.new) }
    ensures later { IfOk result (λ _. GoesOn cursor.old cursor.new) }
{
    if begins_prefix(cursor) {
        return Err(consecutive(cursor));
    }
    frames.push(Frame::Prefix(level, sign, span))?;
    Ok(State::Needs(level.depth, prefix_power(sign)))
}

// One turn: what the operand is followed by, if the power lets it in.
#[inline(always)]
#[cycle(reader)]
#[tactic(auto, using(tera_expect::proofs::TakingLemmas::on_the_way))]
fn turn(
    cursor: &mut Cursor<'_>,
    links: &mut usize,
    frames: &mut Vec<Frame>,
    room: Room,
    level: Level,
    left: Operand,
) -> Result<State, Error>
    requires { MayBeNegated (expression_view left.expr) }
    ensures keeps { Keeps room result frames.new.items (at links.new cursor.new.left)
        (unwind room frames.old.items (stack.going (room_of room) (level_view level)
        (operand_view left) (at links.old cursor.old.left))) }
    ensures falls { Falls result frames.new.items (at links.new cursor.new.left)
        (work frames.old.items (at links.old cursor.old.left) + 1) }
    ensures negatable { IfOk result HoldsNegatable }
    ensures refusal { IfErr result (Refuses cursor.old cursor.new) }
    ensures later { IfOk result (λ _. GoesOn cursor.old cursor.new) }
{
    let front = Front::at(cursor);
    if front.stops(level.least) {
        return close(cursor, frames, left);
    }
    match front {
        Front::Joins(operator, negated) => {
            count_operator(cursor, links, negated)?;
            take_operator(cursor, operator, negated);
            frames.push(Frame::Binary {
                level,
                operator,
                negated,
                left,
            })?;
            Ok(State::Needs(level.depth, operator.right_power()))
        }
        Front::Chooses => {
            take_condition(cursor);
            frames.push(Frame::TernaryCondition { level, left })?;
            Ok(State::Needs(level.depth, 0))
        }
        Front::Closes(ending) => {
            count_link(cursor, links)?;
            take_ending(cursor, ending);
            let Operand { expr, span } = left;
            let expr = suffix(cursor, links, room, level.depth, ending, expr, &span)?;
            let span = spanning(&span, cursor.current_span());
            Ok(State::Holds(level, Operand { expr, span }))
        }
        Front::Nothing | Front::Misplaced => Err(misplaced_not(cursor)),
    }
}

// Hands an expression to the frame that it was read inside of, if there is one.
#[inline(always)]
#[tactic(auto, using(tera_expect::proofs::TakingLemmas::on_the_way))]
fn close(cursor: &mut Cursor<'_>, frames: &mut Vec<Frame>, inside: Operand) -> Result<State, Error>
    requires { MayBeNegated (expression_view inside.expr) }
    ensures keeps { (room : Room) (links : ℕ) →
        Keeps room result frames.new.items (at links cursor.new.left)
        (unwind room frames.old.items (found (operand_view inside, at links cursor.old.left))) }
    ensures falls { (links : ℕ) → Falls result frames.new.items (at links cursor.new.left)
        (work frames.old.items (at links cursor.old.left) + 1) }
    ensures negatable { IfOk result HoldsNegatable }
    ensures refusal { IfErr result (Refuses cursor.old cursor.new) }
    ensures later { IfOk result (λ _. GoesOn cursor.old cursor.new) }
{
    match frames.pop() {
        None => Ok(State::Done(inside)),
        Some(frame) => resume(cursor, frames, frame, inside),
    }
}

// Goes on with a frame, from the expression that was read inside of it.
#[inline(always)]
#[tactic(auto, using(tera_expect::proofs::TakingLemmas::on_the_way))]
fn resume(
    cursor: &mut Cursor<'_>,
    frames: &mut Vec<Frame>,
    frame: Frame,
    inside: Operand,
) -> Result<State, Error>
    requires { MayBeNegated (expression_view inside.expr) }
    ensures keeps { (room : Room) (links : ℕ) →
        Keeps room result frames.new.items (at links cursor.new.left) (unwind room frames.old.items
        (stack.resume (room_of room) (frame_view frame)
        (operand_view inside, at links cursor.old.left))) }
    ensures falls { (links : ℕ) → Falls result frames.new.items
        (at links cursor.new.left) (work frames.old.items (at links cursor.old.left) + 2) }
    ensures negatable { IfOk result HoldsNegatable }
    ensures refusal { IfErr result (Refuses cursor.old cursor.new) }
    ensures later { IfOk result (λ _. GoesOn cursor.old cursor.new) }
{
    let alloc = cursor.alloc();
    match frame {
        Frame::Paren(level, start) => {
            expect(cursor, Fixed::RightParen)?;
            let span = spanning(&start, cursor.current_span());
            let expr = inside.expr;
            Ok(State::Holds(level, Operand { expr, span }))
        }
        Frame::Prefix(level, sign, start) => {
            let span = spanning(&start, &inside.span);
            let expr = signed(alloc, sign, inside.expr, span.copied())?;
            Ok(State::Holds(level, Operand { expr, span }))
        }
        Frame::Binary {
            level,
            operator,
            negated,
            left,
        } => {
            refuse_prefix(cursor, operator, &inside.expr)?;
            let span = spanning(&left.span, &inside.span);
            let expr = joined(
                alloc,
                operator,
                negated,
                left.expr,
                inside.expr,
                span.copied(),
            )?;
            Ok(State::Holds(level, Operand { expr, span }))
        }
        Frame::TernaryCondition { level, left } => {
            expect(cursor, Fixed::Else)?;
            let condition = inside.expr;
            frames.push(Frame::TernaryLast {
                level,
                left,
                condition,
            })?;
            Ok(State::Needs(level.depth, 0))
        }
        Frame::TernaryLast {
            level,
            left,
            condition,
        } => {
            let span = spanning(&left.span, &inside.span);
            let expr = build::ternary(alloc, condition, left.expr, inside.expr, span.copied())?;
            Ok(State::Holds(level, Operand { expr, span }))
        }
    }
}
