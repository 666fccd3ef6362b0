//! The variables that a text binds.

ghost use Rattle.std.specs.Prelude.{◌≡◌, ◌<◌, ◌++◌, map, option_map, IfOk, OnOk};
ghost use Rattle.std.specs.Option.{option_to_list};
ghost use Rattle.tera_lexer.specs.code.Seen.{seen};
ghost use Rattle.tera_outline.specs.Pieces.{part_of};
ghost use Rattle.tera_outline.specs.Bound as specs;
ghost use Rattle.tera_outline.specs.Bound.{bound_of};

use crate::pieces::Piece;
use crate::signatures::Place as InHead;
use std::alloc::{AllocError, Global};
use tera_lexer::Token;

/// The names of the variables that are bound in a text that is in these pieces, in order: by `for`, by `set` and
/// `set_global`, and the parameters of the components that are defined.
pub fn bound_of<'a>(alloc: Global, pieces: &[Piece<'a>]) -> Result<Vec<&'a str>, AllocError>
    ensures { IfOk result (λ v. map (λ n. n.now) v.items ≡ bound_of (map part_of pieces.now)) }
{
    let mut bound = Vec::new(alloc);
    let mut place = Place::Other;
    for piece in pieces {
        push_if_bound(&mut bound, place, &piece.token)?;
        place = place.after(&piece.token);
    }
    Ok(bound)
}

fn push_if_bound<'a>(
    bound: &mut Vec<&'a str>,
    place: Place,
    token: &Token<'a>,
) -> Result<(), AllocError>
    ensures { OnOk result (map (λ n. n.now) bound.new.items ≡ map (λ n. n.now) bound.old.items
        ++ option_to_list (specs.bound_by place (seen token.now))) }
{
    match bound_by(place, token) {
        Some(name) => {
            bound.push(name)?;
            Ok(())
        }
        None => Ok(()),
    }
}

// The variable that the token binds at the place, if it is the name of one.
fn bound_by<'a>(place: Place, token: &Token<'a>) -> Option<&'a str>
    ensures { option_map (λ n. n.now) result ≡ specs.bound_by place (seen token.now) }
{
    match token {
        Token::Ident(name) if place.binds() => Some(*name),
        _ => None,
    }
}

// Where a token is.
#[derive(Clone, Copy)]
enum Place {
    // After the start of a tag.
    Tag,
    // After `for`, and after the comma between its two names.
    For,
    // After the first name of a `for`.
    Pair,
    // After `set` and `set_global`.
    Set,
    // In the head of a component that is defined.
    Head(InHead),
    Other,
}

impl Place {
    fn binds(self) -> bool
        ensures { result ≡ specs.binds self }
    {
        match self {
            Place::For | Place::Set => true,
            Place::Head(place) => place.is_due(),
            _ => false,
        }
    }

    // Where the next token is after this one.
    fn after(self, token: &Token<'_>) -> Place
        requires { specs.depth_of self < usize.MAX }
        ensures { result ≡ specs.place_after self (seen token.now) }
    {
        match token {
            Token::TagStart(_) => Place::Tag,
            Token::TagEnd(_) => Place::Other,
            _ => self.within(token),
        }
    }

    // After a token within a tag.
    fn within(self, token: &Token<'_>) -> Place
        requires { specs.depth_of self < usize.MAX }
        ensures { result ≡ specs.within self (seen token.now) }
    {
        match self {
            Place::Tag => after_statement(token),
            Place::For => after_name(token),
            Place::Pair => after_pair(token),
            Place::Head(place) => Place::Head(place.after(token)),
            Place::Set | Place::Other => Place::Other,
        }
    }
}

// After the first token of a tag.
fn after_statement(token: &Token<'_>) -> Place
    ensures { result ≡ specs.after_statement (seen token.now) }
{
    match token {
        Token::Ident("for") => Place::For,
        Token::Ident("set" | "set_global") => Place::Set,
        Token::Ident("component") => Place::Head(InHead::Name),
        _ => Place::Other,
    }
}

// After a token that may be a name of a `for`.
fn after_name(token: &Token<'_>) -> Place
    ensures { result ≡ specs.after_name (seen token.now) }
{
    match token {
        Token::Ident(_) => Place::Pair,
        _ => Place::Other,
    }
}

// After a token that may be the comma of a `for`.
fn after_pair(token: &Token<'_>) -> Place
    ensures { result ≡ specs.after_pair (seen token.now) }
{
    match token {
        Token::Comma => Place::For,
        _ => Place::Other,
    }
}
