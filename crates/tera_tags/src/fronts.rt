//! What the tokens of a body begin with.

ghost use Rattle.std.specs.Prelude.{◌≡◌};
ghost use Rattle.tera_lexer.specs.code.Seen.{seen};
ghost use Rattle.tera_lexer.specs.grammar.Tokens as toks;
ghost use Rattle.tera_grammar.specs.expressions.Reading.Front.{same_token};
ghost use Rattle.tera_grammar.specs.statements.TagParts.{closer_token};
ghost use Rattle.tera_grammar.specs.statements.Reading.TagParts.{front, role};
ghost use Rattle.tera_tags.specs.Kinds.{closer_of, kind_of, role_kind};

use tera_lexer::{Cursor, Token};

/// What the first token of a tag opens.
#[derive(Clone, Copy)]
pub enum Opener {
    Set { global: bool },
    Include,
    Extends,
    Block,
    For,
    If,
    Filter,
    Component,
    Break,
    Continue,
    Call,
}

/// What the first token of a tag closes.
#[derive(Clone, Copy)]
pub enum Closer {
    Elif,
    Else,
    EndSet,
    EndBlock,
    EndFor,
    EndIf,
    EndFilter,
    EndComponent,
    EndCall,
}

/// What the tokens of a body begin with.
#[derive(Clone, Copy)]
pub enum Front {
    Ends,
    Closes(Closer),
    Holds,
    Shows,
    Opens(Opener),
    Wrong,
}

impl Closer {
    /// Whether it is the other one.
    pub fn is(self, other: Closer) -> bool
        ensures { result
            ≡ same_token (closer_token (closer_of self)) (closer_token (closer_of other)) }
    {
        match self {
            Closer::Elif => matches!(other, Closer::Elif),
            Closer::Else => matches!(other, Closer::Else),
            Closer::EndSet => matches!(other, Closer::EndSet),
            Closer::EndBlock => matches!(other, Closer::EndBlock),
            Closer::EndFor => matches!(other, Closer::EndFor),
            Closer::EndIf => matches!(other, Closer::EndIf),
            Closer::EndFilter => matches!(other, Closer::EndFilter),
            Closer::EndComponent => matches!(other, Closer::EndComponent),
            Closer::EndCall => matches!(other, Closer::EndCall),
        }
    }
}

impl Front {
    /// What the tokens that are left begin with.
    pub fn at(cursor: &Cursor<'_>) -> Front
        ensures { result ≡ kind_of (front cursor.now.left) }
    {
        match cursor.first() {
            Some(Token::Content(_)) => Front::Holds,
            Some(Token::VariableStart(_)) => Front::Shows,
            Some(Token::TagStart(_)) => match cursor.second() {
                Some(token) => role(token),
                None => Front::Wrong,
            },
            Some(_) => Front::Wrong,
            None if cursor.at_end() => Front::Ends,
            None => Front::Wrong,
        }
    }
}

// What the first token of a tag does.
fn role(token: &Token<'_>) -> Front
    ensures { result ≡ role_kind (role (seen token.now)) }
{
    match token {
        Token::Ident(word) => word_role(word),
        Token::LessThan => Front::Opens(Opener::Call),
        Token::ClosingTagStart => Front::Closes(Closer::EndCall),
        _ => Front::Wrong,
    }
}

// What a word does as the first token of a tag.
fn word_role(word: &str) -> Front
    ensures { result ≡ role_kind (role (toks.Ident word.now)) }
{
    match word {
        // The words of most tags come first, since they are compared in turn.
        "endif" => Front::Closes(Closer::EndIf),
        "if" => Front::Opens(Opener::If),
        "endfor" => Front::Closes(Closer::EndFor),
        "for" => Front::Opens(Opener::For),
        "else" => Front::Closes(Closer::Else),
        "elif" => Front::Closes(Closer::Elif),
        "set" => Front::Opens(Opener::Set { global: false }),
        "block" => Front::Opens(Opener::Block),
        "endblock" => Front::Closes(Closer::EndBlock),
        "include" => Front::Opens(Opener::Include),
        "endset" => Front::Closes(Closer::EndSet),
        "set_global" => Front::Opens(Opener::Set { global: true }),
        "extends" => Front::Opens(Opener::Extends),
        "filter" => Front::Opens(Opener::Filter),
        "component" => Front::Opens(Opener::Component),
        "break" => Front::Opens(Opener::Break),
        "continue" => Front::Opens(Opener::Continue),
        "endfilter" => Front::Closes(Closer::EndFilter),
        "endcomponent" => Front::Closes(Closer::EndComponent),
        _ => Front::Wrong,
    }
}
