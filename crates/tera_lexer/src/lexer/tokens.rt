//! The tokens of a source.

use std::fmt;

/// A token of a source, whose texts it borrows.
#[derive(Debug, PartialEq, Eq, Drop)]
pub enum Token<'a> {
    /// A text between tags, or the body of a raw piece, each without the white space that dashes trim; and an
    /// empty text for a comment.
    Content(&'a str),
    /// A raw piece before it is trimmed, with the dashes of its start and its end. No source gives it.
    RawContent(bool, &'a str, bool),
    /// A comment as such, with the dashes of its start and its end. No source gives it.
    Comment(bool, bool),
    /// The start of a variable tag, and whether it has a dash.
    VariableStart(bool),
    /// The end of a variable tag, and whether it has a dash.
    VariableEnd(bool),
    /// The start of a block tag, and whether it has a dash.
    TagStart(bool),
    /// The end of a block tag, and whether it has a dash.
    TagEnd(bool),
    /// A name.
    Ident(&'a str),
    /// The text of a string with escapes, each replaced by its character.
    String(String),
    /// The text between the quotes of a string without escapes.
    Str(&'a str),
    /// A number without a point.
    Integer(i64),
    /// One of the words `true`, `True`, `false` and `False`.
    Bool(bool),
    Mul,
    Div,
    FloorDiv,
    Mod,
    Plus,
    Minus,
    Power,
    LessThan,
    ClosingTagStart,
    GreaterThan,
    LessThanOrEqual,
    GreaterThanOrEqual,
    Equal,
    NotEqual,
    Tilde,
    Pipe,
    Assign,
    Dot,
    QuestionMarkDot,
    QuestionMarkLeftBracket,
    Comma,
    Colon,
    Bang,
    LeftBracket,
    RightBracket,
    LeftParen,
    RightParen,
    LeftBrace,
    RightBrace,
    Spread,
    At,
}

impl Token<'_> {
    ghost use Rattle.std.specs.Prelude.{◌≡◌};
    ghost use Rattle.tera_lexer.specs.code.Seen.{seen, displayed};

    // What messages call it.
    fn name(&self) -> &'static str
        ensures { result.now ≡ displayed (seen self.now) }
    {
        match self {
            Token::Content(_) => "content",
            Token::RawContent(..) => "raw content",
            Token::Comment(..) => "comment",
            Token::VariableStart(_) => "`{{`",
            Token::VariableEnd(_) => "`}}`",
            Token::TagStart(_) => "`{%`",
            Token::TagEnd(_) => "`%}`",
            Token::Ident(_) => "identifier",
            Token::String(_) => "string",
            Token::Str(_) => "string",
            Token::Integer(_) => "integer",
            Token::Bool(_) => "bool",
            Token::Mul => "`*`",
            Token::Div => "`/`",
            Token::FloorDiv => "`//`",
            Token::Mod => "`%`",
            Token::Plus => "`+`",
            Token::Minus => "`-`",
            Token::Power => "`**`",
            Token::LessThan => "`<`",
            Token::ClosingTagStart => "`</`",
            Token::GreaterThan => "`>`",
            Token::LessThanOrEqual => "`<=`",
            Token::GreaterThanOrEqual => "`>=`",
            Token::Equal => "`==`",
            Token::NotEqual => "`!=`",
            Token::Tilde => "`~`",
            Token::Pipe => "`|`",
            Token::Assign => "`=`",
            Token::Dot => "`.`",
            Token::QuestionMarkDot => "`?.`",
            Token::QuestionMarkLeftBracket => "`?[`",
            Token::Comma => "`,`",
            Token::Colon => "`:`",
            Token::Bang => "`!`",
            Token::LeftBracket => "`[`",
            Token::RightBracket => "`]`",
            Token::LeftParen => "`(`",
            Token::RightParen => "`)`",
            Token::LeftBrace => "`{`",
            Token::RightBrace => "`}`",
            Token::Spread => "`...`",
            Token::At => "`@`",
        }
    }
}

impl fmt::Display for Token<'_> {
    ghost use Rattle.std.specs.Prelude.{Some};
    ghost use Rattle.tera_lexer.specs.code.Seen.{seen, displayed};

    ghost output = { λ t. Some (displayed (seen t)) };

    fn fmt<W: fmt::Write>(&self, f: &mut fmt::Formatter<W>) -> fmt::Result {
        f.write_str(self.name())
    }
}
