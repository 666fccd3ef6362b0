//! What the tokens of a tag are to those beside them, as far as white space goes.

ghost use Rattle.std.specs.Prelude.{◌≡◌};
ghost use Rattle.tera_lexer.specs.code.Seen.{seen};
ghost use Rattle.tera_layout.specs.Sides as sides;
ghost use Rattle.tera_layout.specs.WrittenLayout.{is_finish, join_of};

use tera_lexer::{Token, words};

/// What a token is to those beside it.
#[derive(Clone, Copy)]
pub(crate) enum Side {
    /// The start of a tag.
    Start,
    /// What is outside of tags, and the end of one.
    Outside,
    /// A word after which an expression begins.
    Word,
    /// Another name, or a truth.
    Name,
    Number,
    /// A string.
    Quoted,
    /// `(`.
    Paren,
    /// `[` and `?[`.
    Bracket,
    /// `{`.
    Brace,
    /// `)` and `]`.
    Closing,
    /// `}`.
    ClosingBrace,
    /// `,`, and the `:` after a key or a parameter.
    Comma,
    /// Another `:`.
    Colon,
    /// `.` and `?.`.
    Dot,
    /// What is before a name: `...`, `@`, `</`, and a `<` after no value.
    Prefix,
    /// The `=` of an argument.
    Equals,
    /// A `-` after no value.
    Minus,
    /// A `<`.
    Less,
    /// What is between two values, and the `=` of a name that is set.
    Operator,
    Other,
}

/// Whose the next `=` of a tag is.
#[derive(Clone, Copy)]
pub(crate) enum Owner {
    /// An argument's, or an attribute's.
    Argument,
    /// That of the name that is set.
    Target,
    /// A parameter's, before its default.
    Parameter,
}

/// What is on the left.
#[derive(Clone, Copy)]
pub(crate) struct Left {
    pub(crate) side: Side,
    pub(crate) owner: Owner,
}

/// What is in the place of a gap that holds no line feed.
#[derive(Clone, Copy)]
pub(crate) enum Join {
    /// One space.
    Space,
    /// Nothing.
    Nothing,
    /// One space for white space, and nothing for nothing.
    Kept,
}

impl Left {
    /// Outside of tags.
    pub(crate) fn outside() -> Left
        ensures { result ≡ sides.outside }
    {
        Left {
            side: Side::Outside,
            owner: Owner::Argument,
        }
    }

    /// After the token.
    pub(crate) fn following(self, token: &Token<'_>) -> Left
        ensures { result ≡ sides.following self (seen token.now) }
    {
        let side = side_of(token);
        Left {
            side: self.placed(side),
            owner: self.owner_after(token, side),
        }
    }

    /// What is in the place of the gap before the token. The next is what is on the left after the token.
    pub(crate) fn join(self, token: &Token<'_>, next: Left) -> Join
        requires { next ≡ sides.following self (seen token.now) }
        ensures { result ≡ join_of self (seen token.now) }
    {
        if matches!(self.side, Side::Start) || is_end(token) {
            Join::Space
        } else {
            join_between(self.side, next.side)
        }
    }

    // What a token is to those beside it, after what is on the left.
    fn placed(self, side: Side) -> Side
        ensures { result ≡ sides.placed self side }
    {
        match side {
            Side::Equals => equals_of(self.owner),
            Side::Minus if ends_a_value(self.side) => Side::Operator,
            Side::Less if ends_a_value(self.side) => Side::Operator,
            Side::Less => Side::Prefix,
            Side::Colon if self.has_no_slice() => Side::Comma,
            side => side,
        }
    }

    // Whether a `:` there is that of a key or of a parameter.
    fn has_no_slice(self) -> bool
        ensures { result ≡ sides.has_no_slice self }
    {
        matches!(self.side, Side::Quoted) || matches!(self.owner, Owner::Parameter)
    }

    // Whose the next `=` is after the token, which is so to those beside it.
    fn owner_after(self, token: &Token<'_>, side: Side) -> Owner
        ensures { result ≡ sides.owner_after self (seen token.now) side }
    {
        if matches!(side, Side::Start | Side::Outside) {
            Owner::Argument
        } else if matches!(self.side, Side::Start) {
            owner_named(token)
        } else {
            owner_past(self.owner, side)
        }
    }
}

// Whether the token is the end of a tag.
fn is_end(token: &Token<'_>) -> bool
    ensures { result ≡ is_finish (seen token.now) }
{
    matches!(token, Token::VariableEnd(_) | Token::TagEnd(_))
}

// What the token is to those beside it, wherever it is.
fn side_of(token: &Token<'_>) -> Side
    ensures { result ≡ sides.side_of (seen token.now) }
{
    match token {
        Token::VariableStart(_) | Token::TagStart(_) => Side::Start,
        Token::VariableEnd(_) | Token::TagEnd(_) => Side::Outside,
        Token::Content(_) | Token::RawContent(..) | Token::Comment(..) => Side::Outside,
        Token::Ident(name) => word_side(name),
        Token::Bool(_) => Side::Name,
        Token::Integer(_) => Side::Number,
        Token::Str(_) | Token::String(_) => Side::Quoted,
        Token::LeftParen => Side::Paren,
        Token::LeftBracket | Token::QuestionMarkLeftBracket => Side::Bracket,
        Token::LeftBrace => Side::Brace,
        Token::RightParen | Token::RightBracket => Side::Closing,
        Token::RightBrace => Side::ClosingBrace,
        Token::Comma => Side::Comma,
        Token::Colon => Side::Colon,
        Token::Dot | Token::QuestionMarkDot => Side::Dot,
        Token::Spread | Token::At | Token::ClosingTagStart => Side::Prefix,
        Token::Assign => Side::Equals,
        Token::Minus => Side::Minus,
        Token::LessThan => Side::Less,
        Token::Div | Token::GreaterThan | Token::Bang => Side::Other,
        _ => Side::Operator,
    }
}

// What a name is to those beside it.
fn word_side(name: &str) -> Side
    ensures { result ≡ sides.word_side name.now }
{
    match name {
        "if" | "elif" | "else" => Side::Word,
        _ if words::is_operator(name) => Side::Word,
        _ => Side::Name,
    }
}

// What an `=` is to those beside it.
fn equals_of(owner: Owner) -> Side
    ensures { result ≡ sides.equals_of owner }
{
    match owner {
        Owner::Argument => Side::Equals,
        Owner::Target => Side::Operator,
        Owner::Parameter => Side::Other,
    }
}

// Whose the next `=` is after the first token of a tag.
fn owner_named(token: &Token<'_>) -> Owner
    ensures { result ≡ sides.owner_named (seen token.now) }
{
    match token {
        Token::Ident(name) => owner_of(name),
        _ => Owner::Argument,
    }
}

// Whose the next `=` is after the first name of a tag.
fn owner_of(name: &str) -> Owner
    ensures { result ≡ sides.owner_of name.now }
{
    match name {
        "set" | "set_global" => Owner::Target,
        "component" => Owner::Parameter,
        _ => Owner::Argument,
    }
}

// Whose the next `=` is after a token that is not a first one.
fn owner_past(owner: Owner, side: Side) -> Owner
    ensures { result ≡ sides.owner_past owner side }
{
    if matches!(owner, Owner::Target) && !matches!(side, Side::Name | Side::Word) {
        Owner::Argument
    } else {
        owner
    }
}

// What is between two tokens that are so to each other.
fn join_between(left: Side, right: Side) -> Join
    ensures { result ≡ sides.join_between left right }
{
    if are_together(left, right) {
        Join::Nothing
    } else if are_apart(left, right) {
        Join::Space
    } else {
        Join::Kept
    }
}

// Whether nothing is between them.
fn are_together(left: Side, right: Side) -> bool
    ensures { result ≡ sides.are_together left right }
{
    matches!(right, Side::Closing | Side::Comma | Side::Colon) || goes_on(left, right)
}

// Whether what is so on the right goes on with what is so on the left.
fn goes_on(left: Side, right: Side) -> bool
    ensures { result ≡ sides.goes_on left right }
{
    match left {
        Side::Paren | Side::Bracket | Side::Brace => true,
        Side::Name => matches!(
            right,
            Side::Dot | Side::Paren | Side::Bracket | Side::ClosingBrace | Side::Equals
        ),
        Side::Quoted | Side::Closing => {
            matches!(right, Side::Dot | Side::Bracket | Side::ClosingBrace)
        }
        Side::Number | Side::Comma => matches!(right, Side::ClosingBrace),
        Side::Dot | Side::Prefix => matches!(right, Side::Name | Side::Word),
        Side::Minus => matches!(right, Side::Name | Side::Number | Side::Paren),
        Side::Equals => begins_a_value(right),
        _ => false,
    }
}

// Whether one space is between them, where they are not together.
fn are_apart(left: Side, right: Side) -> bool
    ensures { result ≡ sides.are_apart left right }
{
    match left {
        Side::Operator | Side::Comma => true,
        Side::Word => matches!(right, Side::Operator) || begins_a_value(right),
        Side::Name | Side::Number | Side::Quoted | Side::Closing | Side::ClosingBrace => {
            matches!(right, Side::Operator) || begins_apart(right)
        }
        _ => matches!(right, Side::Operator),
    }
}

// Whether a value ends there.
fn ends_a_value(side: Side) -> bool
    ensures { result ≡ sides.ends_a_value side }
{
    matches!(
        side,
        Side::Name | Side::Number | Side::Quoted | Side::Closing | Side::ClosingBrace
    )
}

// Whether a value begins there.
fn begins_a_value(side: Side) -> bool
    ensures { result ≡ sides.begins_a_value side }
{
    matches!(
        side,
        Side::Paren | Side::Bracket | Side::Prefix | Side::Minus
    ) || begins_apart(side)
}

// Whether it does not go on with a value before it.
fn begins_apart(side: Side) -> bool
    ensures { result ≡ sides.begins_apart side }
{
    matches!(
        side,
        Side::Word | Side::Name | Side::Number | Side::Quoted | Side::Brace
    )
}
