//! What comes after an operand.

ghost use Rattle.std.specs.Prelude.{◌≡◌, ◌⊎◌, ◌<◌};
ghost use Rattle.tera_base.specs.declared.utils.Span.{Span};
ghost use Rattle.tera_lexer.specs.code.Seen.{seen};
ghost use Rattle.tera_lexer.specs.grammar.Tokens.{Items};
ghost use Rattle.tera_grammar.specs.expressions.Reading.Front as reading;
ghost use Rattle.tera_grammar.specs.expressions.Reading.Front.{begins_sign};
ghost use Rattle.tera_expr_parts.specs.Fronts.{IsName, IsOperatorBefore, chosen, ending_kind, ending_of, front_kind, joined_by, keeps_off, kind_of, operator_of, second_is_in, word_kind};
ghost use Rattle.tera_expect.specs.Taking.{Took};

use crate::operators::{FILTER_POWER, Operator, TEST_POWER};
use tera_expect::{Fixed, begins};
use tera_lexer::{Cursor, Token};

/// What goes on with an operand and is closed on its right.
#[derive(Clone, Copy)]
pub enum Ending {
    /// `is`.
    Test,
    /// The bar.
    Filter,
    /// `[`.
    Subscript,
}

/// What the tokens after an operand begin with.
#[derive(Clone, Copy)]
pub enum Front {
    /// Nothing that goes on with the operand.
    Nothing,
    /// An operator between two operands, and whether `not` is before it.
    Joins(Operator, bool),
    /// `if`, of a ternary.
    Chooses,
    /// A test, a filter or a subscript.
    Closes(Ending),
    /// A `not` without `in`.
    Misplaced,
}

impl Front {
    /// What the next tokens are.
    pub fn at(cursor: &Cursor<'_>) -> Front
        ensures { front_kind result ≡ kind_of (reading.front cursor.now.left) }
    {
        match cursor.first() {
            Some(Token::Ident(word)) => word_front(word, in_is_second(cursor)),
            Some(token) => symbol_front(token),
            None => Front::Nothing,
        }
    }

    /// Whether it does not go on with an operand, at this least power.
    pub fn stops(self, least: u8) -> bool
        ensures { result ≡ keeps_off least (front_kind self) }
    {
        match self {
            Front::Nothing => true,
            Front::Joins(operator, _) => operator.left_power() < least,
            Front::Chooses => 0 < least,
            Front::Closes(Ending::Test) | Front::Misplaced => TEST_POWER < least,
            Front::Closes(Ending::Filter) => FILTER_POWER < least,
            Front::Closes(Ending::Subscript) => false,
        }
    }
}

// What a token begins that is not a name.
#[tactic(auto, unfolding(crate::specs::Unfold::front_of_token))]
fn symbol_front(token: &Token<'_>) -> Front
    ensures { IsName (seen token.now) ⊎ ((span : Span) (items : Items) →
        front_kind result ≡ kind_of (reading.front_of_token (seen token.now) span items)) }
{
    match token {
        Token::Pipe => Front::Closes(Ending::Filter),
        Token::LeftBracket => Front::Closes(Ending::Subscript),
        Token::Mul => Front::Joins(Operator::Mul, false),
        Token::Div => Front::Joins(Operator::Div, false),
        Token::Mod => Front::Joins(Operator::Mod, false),
        Token::Plus => Front::Joins(Operator::Plus, false),
        Token::Minus => Front::Joins(Operator::Minus, false),
        Token::FloorDiv => Front::Joins(Operator::FloorDiv, false),
        Token::Power => Front::Joins(Operator::Power, false),
        Token::LessThan => Front::Joins(Operator::LessThan, false),
        Token::GreaterThan => Front::Joins(Operator::GreaterThan, false),
        Token::LessThanOrEqual => Front::Joins(Operator::LessThanOrEqual, false),
        Token::GreaterThanOrEqual => Front::Joins(Operator::GreaterThanOrEqual, false),
        Token::Equal => Front::Joins(Operator::Equal, false),
        Token::NotEqual => Front::Joins(Operator::NotEqual, false),
        Token::Tilde => Front::Joins(Operator::StrConcat, false),
        _ => Front::Nothing,
    }
}

// What a word begins, where `in` comes after it or not.
fn word_front(word: &str, before_in: bool) -> Front
    ensures { front_kind result ≡ word_kind word.now before_in }
{
    match word.as_bytes() {
        b"or" => Front::Joins(Operator::Or, false),
        b"and" => Front::Joins(Operator::And, false),
        b"in" => Front::Joins(Operator::In, false),
        b"not" if before_in => Front::Joins(Operator::In, true),
        b"not" => Front::Misplaced,
        b"is" => Front::Closes(Ending::Test),
        b"if" => Front::Chooses,
        _ => Front::Nothing,
    }
}

// Whether the token after the next one is the word `in`.
fn in_is_second(cursor: &Cursor<'_>) -> bool
    requires { 0 < cursor.now.sight }
    ensures { result ≡ second_is_in cursor.now.left }
{
    match cursor.second() {
        Some(Token::Ident(word)) => matches!(word.as_bytes(), b"in"),
        _ => false,
    }
}

/// Takes the tokens of an operator. No token of these takes memory, so they are in sight and `skip` takes them.
#[tactic(auto, unfolding(tera_expect::specs::Taking::Took))]
pub fn take_operator(cursor: &mut Cursor<'_>, operator: Operator, negated: bool)
    requires { joined_by (operator_of operator) negated ≡ kind_of (reading.front cursor.old.left) }
    ensures past { IsOperatorBefore (reading.front cursor.old.left)
        (operator_of operator) negated cursor.new.left }
    ensures later { Took cursor.old cursor.new }
{
    let _ = cursor.skip();
    if negated {
        let _ = cursor.skip();
    }
}

/// Takes the `if` of a ternary, which is in sight as well.
#[tactic(auto, unfolding(tera_expect::specs::Taking::Took))]
pub fn take_condition(cursor: &mut Cursor<'_>)
    requires { chosen ≡ kind_of (reading.front cursor.old.left) }
    ensures past { reading.front cursor.old.left
        ≡ reading.joins (reading.leads_condition cursor.new.span) cursor.new.left }
    ensures later { Took cursor.old cursor.new }
{
    let _ = cursor.skip();
}

/// Takes the first token of a test, a filter or a subscript, which is in sight as well.
#[tactic(auto, unfolding(tera_expect::specs::Taking::Took))]
pub fn take_ending(cursor: &mut Cursor<'_>, ending: Ending)
    requires { ending_kind ending ≡ kind_of (reading.front cursor.old.left) }
    ensures past { reading.front cursor.old.left
        ≡ reading.closes (ending_of ending cursor.new.span) cursor.new.left }
    ensures later { Took cursor.old cursor.new }
{
    let _ = cursor.skip();
}

/// Whether a prefix begins here.
pub fn begins_prefix(cursor: &Cursor<'_>) -> bool
    ensures { result ≡ begins_sign cursor.now.left }
{
    begins(cursor, Fixed::Minus) || begins(cursor, Fixed::Not)
}
