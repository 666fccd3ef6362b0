//! Chains and calls of functions.

ghost use Rattle.std.specs.Prelude.{◌≡◌, ◌≢◌, ◌&&◌, IfErr, IfOk};
ghost use Rattle.tera_ast.specs.View.{expression_view};
ghost use Rattle.tera_grammar.specs.Words.{is_loop, is_loop_field};
ghost use Rattle.tera_grammar.specs.expressions.Output.{of_loop};
ghost use Rattle.tera_grammar.specs.expressions.Reading.Front as reading;
ghost use Rattle.tera_grammar.specs.expressions.Reading.Front.{at};
ghost use Rattle.tera_grammar.specs.expressions.Reading.Bracketed.{arguments_of, links_at, links_of};
ghost use Rattle.tera_grammar.specs.expressions.Reading.Atoms.{chain_of};
ghost use Rattle.tera_grammar.specs.expressions.Reading.Loop.{expr};
ghost use Rattle.tera_grammar.specs.expressions.Stack.{HeadGives};
ghost use Rattle.tera_expr_reader.specs.Chains.{FieldGives, IsCallOf, IsChain, LinkAt, LinkedGives, LinkedGoes, link_kind, taken_field};
ghost use Rattle.tera_expr_parts.specs.Literals.{MayBeNegated};
ghost use Rattle.tera_expr_parts.specs.Rooms.{room_of};
ghost use Rattle.tera_expect.specs.Taking.{GivesAt, GoesOn, Refuses, Took, name_in};
ghost use Rattle.tera_expr_reader.specs.declared.chains.Link.TheVariants as variants;

use crate::arguments::arguments;
use crate::faults::{call_after_link, no_loop_field};
use crate::subscripts::{read_subscript, with_subscript};
use tera_base::{Error, Span};
use tera_expect::{Fixed, eat, name};
use tera_expr_parts::{Room, Values, count_link, leaves};
use tera_lexer::{Cursor, Token};
use tera_tree::{Expression, build};

/// What the tokens after a chain begin with.
#[derive(Clone, Copy)]
pub(crate) enum Link {
    /// Nothing that goes on with the chain.
    Nothing,
    /// A parenthesis, which calls nothing there.
    Called,
    /// A dot; whether it is the optional one.
    Field(bool),
    /// A bracket; whether it is the optional one.
    Item(bool),
}

impl Link {
    /// What the next token is.
    #[tactic(auto, unfolding(crate::specs::Unfold::link_of))]
    pub fn at(cursor: &Cursor<'_>) -> Link
        ensures { result ≡ link_kind (reading.link_of cursor.now.left) }
    {
        match cursor.first() {
            Some(Token::Dot) => Link::Field(false),
            Some(Token::QuestionMarkDot) => Link::Field(true),
            Some(Token::LeftBracket) => Link::Item(false),
            Some(Token::QuestionMarkLeftBracket) => Link::Item(true),
            Some(Token::LeftParen) => Link::Called,
            _ => Link::Nothing,
        }
    }
}

/// A chain after which nothing goes on with it, or one with a link more.
#[derive(Drop)]
pub(crate) enum Linked {
    Whole(Expression),
    Longer(Expression),
}

/// Reads a chain or a call of a function, whose name is at the span and was taken last.
#[cycle(reader)]
#[tactic(auto, unfolding(crate::specs::Unfold::chain_of, crate::specs::Unfold::skip), using(tera_expect::proofs::TakingLemmas::on_the_way, crate::proofs::ChainsLemmas::chain_negatable, crate::proofs::ChainsLemmas::call_negatable))]
pub(crate) fn chain(
    cursor: &mut Cursor<'_>,
    links: &mut usize,
    room: Room,
    depth: usize,
    name: &str,
    first: &Span,
) -> Result<Expression, Error>
    requires { cursor.old.span ≡ first.now }
    ensures gives { HeadGives expression_view room.scope.in_loop result cursor.new.span
        (at links.new cursor.new.left)
        (chain_of (expr depth) (room_of room) (name_in name.now first.now)
        (at links.old cursor.old.left)) }
    ensures negatable { IfOk result (λ e. MayBeNegated (expression_view e)) }
    ensures refusal { IfErr result (Refuses cursor.old cursor.new) }
    ensures later { IfOk result (λ _. GoesOn cursor.old cursor.new) }
{
    if eat(cursor, Fixed::LeftParen) {
        function_call(cursor, links, room, depth, name, first)
    } else {
        with_links(cursor, links, room, depth, name, first)
    }
}

// A call of a function, whose name is at the span and whose opening parenthesis was taken last.
#[cycle(reader)]
#[tactic(auto, using(tera_expect::proofs::TakingLemmas::after_tokens))]
fn function_call(
    cursor: &mut Cursor<'_>,
    links: &mut usize,
    room: Room,
    depth: usize,
    name: &str,
    first: &Span,
) -> Result<Expression, Error>
    ensures gives { GivesAt
        (IsCallOf room.scope.in_loop (name_in name.now first.now) cursor.new.span) result
        (at links.new cursor.new.left)
        (arguments_of (expr depth) (room_of room) (at links.old cursor.old.left)) }
    ensures refusal { IfErr result (Refuses cursor.old cursor.new) }
    ensures later { IfOk result (λ _. Took cursor.old cursor.new) }
{
    let alloc = cursor.alloc();
    let values = Values {
        room,
        depth,
        own: None,
    };
    let kwargs = arguments(cursor, links, values)?;
    let mut span = first.copied();
    span.expand(cursor.current_span());
    let name = String::from_str(alloc, name)?;
    Ok(build::function_call(alloc, name, kwargs, span)?)
}

// The links of a chain, whose name is at the span.
#[cycle(reader)]
#[tactic(auto, using(tera_expect::proofs::TakingLemmas::on_the_way))]
fn with_links(
    cursor: &mut Cursor<'_>,
    links: &mut usize,
    room: Room,
    depth: usize,
    name: &str,
    first: &Span,
) -> Result<Expression, Error>
    requires { cursor.old.span ≡ first.now }
    ensures gives { GivesAt
        (IsChain room.scope.in_loop (name_in name.now first.now) cursor.new.span) result
        (at links.new cursor.new.left)
        (links_of (expr depth) (room_of room)
        (of_loop room.scope.in_loop (name_in name.now first.now)) (at links.old cursor.old.left)) }
    ensures refusal { IfErr result (Refuses cursor.old cursor.new) }
    ensures later { IfOk result (λ _. GoesOn cursor.old cursor.new) }
{
    let fields_of_loop = is_loop(room.scope.in_loop, name);
    let mut chain = leaves::variable(cursor.alloc(), name, first.copied())?;
    'growing: loop {
        match with_link(cursor, links, room, depth, fields_of_loop, chain)? {
            Linked::Whole(whole) => return Ok(whole),
            Linked::Longer(longer) => chain = longer,
        }
    }
}

// Whether the fields of a chain of this name are those of a loop.
fn is_loop(in_loop: bool, name: &str) -> bool
    ensures { result ≡ (in_loop && is_loop name.now) }
{
    in_loop && name == "loop"
}

// A chain with its next link, which counts, if one is there.
#[cycle(reader)]
#[tactic(auto, using(tera_expect::proofs::TakingLemmas::after_tokens))]
fn with_link(
    cursor: &mut Cursor<'_>,
    links: &mut usize,
    room: Room,
    depth: usize,
    fields_of_loop: bool,
    chain: Expression,
) -> Result<Linked, Error>
    ensures gives { LinkedGives room.scope.in_loop fields_of_loop chain result cursor.new
        (at links.old cursor.old.left) (at links.new cursor.new.left) (λ more.
        links_at more (expr depth) (room_of room) fields_of_loop (at links.old cursor.old.left)
        (reading.link_of cursor.old.left)) }
    ensures refusal { IfErr result (Refuses cursor.old cursor.new) }
    ensures later { IfOk result (LinkedGoes Took cursor.old cursor.new) }
{
    match Link::at(cursor) {
        Link::Nothing => Ok(Linked::Whole(chain)),
        Link::Called => Err(call_after_link(cursor)),
        Link::Field(optional) => {
            count_link(cursor, links)?;
            take_link(cursor);
            let longer = field(cursor, fields_of_loop, chain, optional)?;
            Ok(Linked::Longer(longer))
        }
        Link::Item(optional) => {
            count_link(cursor, links)?;
            take_link(cursor);
            let item = read_subscript(cursor, links, room, depth)?;
            let last = cursor.current_span();
            Ok(Linked::Longer(with_subscript(cursor.alloc(), chain, item, optional, last)?))
        }
    }
}

// Takes the first token of a link, which takes no memory, so it is in sight.
fn take_link(cursor: &mut Cursor<'_>)
    requires { link_kind (reading.link_of cursor.old.left) ≢ variants.Nothing }
    ensures past { LinkAt (reading.link_of cursor.old.left) cursor.new.span cursor.new.left }
    ensures later { Took cursor.old cursor.new }
{
    let _ = cursor.skip();
}

// A field of a chain, whose dot was taken last.
#[tactic(auto, using(tera_expect::proofs::TakingLemmas::after_tokens))]
fn field(
    cursor: &mut Cursor<'_>,
    of_loop: bool,
    chain: Expression,
    optional: bool,
) -> Result<Expression, Error>
    ensures gives { FieldGives of_loop optional (expression_view chain) result cursor.new
        (taken_field of_loop cursor.old.left) }
    ensures refusal { IfErr result (Refuses cursor.old cursor.new) }
    ensures later { IfOk result (λ _. Took cursor.old cursor.new) }
{
    let alloc = cursor.alloc();
    let name = name(cursor)?;
    let span = cursor.current_span().copied();
    if !of_loop {
        let name = String::from_str(alloc, name)?;
        return Ok(build::get_attr(alloc, chain, name, optional, span)?);
    }
    if !is_loop_field(name) {
        return Err(no_loop_field(cursor, name));
    }
    let name = format!(in alloc; "__tera_loop_{name}")?;
    Ok(build::variable(alloc, name, span)?)
}

// Whether `loop` has the field in a loop.
#[tactic(auto, unfolding(crate::specs::Unfold::is_loop_field))]
fn is_loop_field(name: &str) -> bool
    ensures { result ≡ is_loop_field name.now }
{
    matches!(name, "index" | "index0" | "first" | "last" | "length")
}
