//! How requests are named.

ghost use Rattle.std.specs.Prelude.{◌≡◌, ◌≤◌, length};
ghost use Rattle.json.specs.Print.{IsNumber, IsPrintable};
ghost use Rattle.json.specs.Reads.{token_of};
ghost use Rattle.json_rpc.specs.Ids.{NullId, NumberId, TextId, is_null, max_id};
ghost use Rattle.json_rpc.specs.Writing.{id_token};

use json::Token;
use std::marker::Model;

/// How many bytes the number or the text of an id has at most.
pub(crate) const MAX_ID: usize = 128;

/// How a request is named, which its answer repeats.
#[derive(Debug, Drop)]
pub struct Id<'a> {
    pub(crate) name: Name<'a>,
}

#[derive(Clone, Copy, Debug)]
pub(crate) enum Name<'a> {
    Null,
    Number(&'a str),
    Text(&'a str),
}

impl<'a> Model for Id<'a> {
    ghost use Rattle.json_rpc.specs.Ids.{IdVal, id_code, IsId, name_view};

    ghost Value = { IdVal };

    ghost coded = { id_code };

    ghost view = { λ i. name_view i.name };

    ghost invariant = { λ i. IsId (name_view i.name) };
}

impl<'a> Id<'a> {
    /// The id of an answer to what has none.
    pub fn null() -> Id<'a>
        ensures { result ≡ NullId }
    {
        Id { name: Name::Null }
    }

    pub fn text(text: &'a str) -> Id<'a>
        requires { length text.now ≤ max_id }
        ensures { result ≡ TextId text.now }
    {
        Id {
            name: Name::Text(text),
        }
    }

    // The number of this text.
    pub(crate) fn number(text: &'a str) -> Id<'a>
        requires short { length text.now ≤ max_id }
        requires number { IsNumber text.now }
        ensures { result ≡ NumberId text.now }
    {
        Id {
            name: Name::Number(text),
        }
    }

    /// Whether it is the id of what has none.
    pub fn is_null(&self) -> bool
        ensures { result ≡ is_null self.now }
    {
        matches!(self.name, Name::Null)
    }

    // The token that is written for it.
    pub(crate) fn token(&self) -> Token<'a>
        ensures token { token_of result ≡ id_token self.now }
        ensures printable { IsPrintable (token_of result) }
    {
        match self.name {
            Name::Null => Token::Null,
            Name::Number(text) => Token::Number(text),
            Name::Text(text) => Token::String(text),
        }
    }
}
