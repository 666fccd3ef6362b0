//! The heads of definitions, with their parameters.

ghost use Rattle.std.specs.Prelude.{◌≡◌, ◌<◌, ◌++◌, List, map, option_map, IfOk, OnOk};
ghost use Rattle.std.specs.Option.{option_to_list};
ghost use Rattle.tera_lexer.specs.code.Seen.{seen};
ghost use Rattle.tera_outline.specs.Pieces.{Part, part_of, ArePartsOf};
ghost use Rattle.tera_outline.specs.Signatures as specs;
ghost use Rattle.tera_outline.specs.Signatures.{parameter_view, signature_view};
ghost use Rattle.tera_outline.specs.Symbols.{outlined};

use crate::heads::{definition_in, head_end, head_in};
use crate::pieces::{Piece, pieces_of};
use crate::symbols::{Symbol, symbols_in};
use std::alloc::{AllocError, Global};
use tera_lexer::Token;

/// The head of the definition of a component.
#[derive(Debug, Drop)]
pub struct Signature<'t> {
    /// From its name to the end of its tag, as it is in the text.
    pub head: &'t str,
    /// What it takes, in the order of the head.
    pub parameters: Vec<Parameter<'t>>,
}

/// A parameter in the head of a definition.
#[derive(Clone, Copy, Debug, PartialEq, Eq)]
pub struct Parameter<'t> {
    pub name: &'t str,
    /// The byte of the head with which the name begins.
    pub start: usize,
    /// The byte after it.
    pub end: usize,
}

/// The head of the first definition of the component in the text, with a fault or without one, as `head_of` gives it,
/// and its parameters, with the rest parameter. The markers are the default ones.
pub fn signature_of<'t>(
    alloc: Global,
    text: &'t str,
    name: &str,
) -> Result<Option<Signature<'t>>, AllocError>
    ensures { IfOk result (λ s. (parts : List Part) × ArePartsOf text.now parts
        × (option_map signature_view s ≡ specs.signature_of text.now parts name.now)) }
{
    let found = pieces_of(alloc, text)?;
    let pieces = found.as_slice();
    let outline = symbols_in(alloc, pieces, text.len())?;
    let symbols = outline.as_slice();
    let Some(head) = head_in(text, pieces, symbols, name) else {
        return Ok(None);
    };
    let parameters = parameters_of(alloc, pieces, symbols, name)?;
    Ok(Some(Signature { head, parameters }))
}

// The parameters of the first definition of the component among the symbols.
fn parameters_of<'t>(
    alloc: Global,
    pieces: &[Piece<'t>],
    symbols: &[Symbol],
    name: &str,
) -> Result<Vec<Parameter<'t>>, AllocError>
    ensures { IfOk result (λ v. map parameter_view v.items
        ≡ specs.parameters_of (map outlined symbols.now) (map part_of pieces.now) name.now) }
{
    let Some(symbol) = definition_in(symbols, name) else {
        return Ok(Vec::new(alloc));
    };
    let end = head_end(symbol.name_end, pieces);
    parameters_between(alloc, pieces, symbol.name_start, end)
}

// The parameters in the head between the bytes, by the bytes after the first of these.
fn parameters_between<'t>(
    alloc: Global,
    pieces: &[Piece<'t>],
    from: usize,
    to: usize,
) -> Result<Vec<Parameter<'t>>, AllocError>
    ensures { IfOk result (λ v. map parameter_view v.items
        ≡ specs.parameters_between from to (map part_of pieces.now)) }
{
    let mut parameters = Vec::new(alloc);
    let mut place = Place::Name;
    for piece in pieces {
        if is_between(from, to, piece) {
            push_if_parameter(&mut parameters, place, from, piece)?;
            place = place.after(&piece.token);
        }
    }
    Ok(parameters)
}

fn is_between(from: usize, to: usize, piece: &Piece<'_>) -> bool
    ensures { result ≡ specs.is_between from to (part_of piece.now) }
{
    from <= piece.start && piece.end <= to
}

fn push_if_parameter<'t>(
    parameters: &mut Vec<Parameter<'t>>,
    place: Place,
    from: usize,
    piece: &Piece<'t>,
) -> Result<(), AllocError>
    ensures { OnOk result (map parameter_view parameters.new.items ≡ map parameter_view parameters.old.items
        ++ option_to_list (specs.parameter_at from (specs.is_due place) (part_of piece.now))) }
{
    match parameter_at(place, from, piece) {
        Some(parameter) => {
            parameters.push(parameter)?;
            Ok(())
        }
        None => Ok(()),
    }
}

// The parameter whose name the piece is at the place.
fn parameter_at<'t>(place: Place, from: usize, piece: &Piece<'t>) -> Option<Parameter<'t>>
    ensures { option_map parameter_view result
        ≡ specs.parameter_at from (specs.is_due place) (part_of piece.now) }
{
    match &piece.token {
        Token::Ident(name) if place.is_due() => Some(Parameter {
            name: *name,
            start: piece.start.saturating_sub(from),
            end: piece.end.saturating_sub(from),
        }),
        _ => None,
    }
}

/// Where in a head a token is.
#[derive(Clone, Copy)]
pub(crate) enum Place {
    /// Before the parenthesis that opens the list of parameters.
    Name,
    /// In the list, with so many inner brackets open. The name of a parameter is due until it has come.
    Parameters { depth: usize, due: bool },
    /// After the list.
    Rest,
}

impl Place {
    /// Whether a name is that of a parameter.
    pub(crate) fn is_due(self) -> bool
        ensures { result ≡ specs.is_due self }
    {
        match self {
            Place::Parameters { depth, due } => depth == 0 && due,
            _ => false,
        }
    }

    /// Where the next token is after this one.
    pub(crate) fn after(self, token: &Token<'_>) -> Place
        requires { specs.depth_of self < usize.MAX }
        ensures { result ≡ specs.place_after self (seen token.now) }
    {
        match self {
            Place::Name => after_name(token),
            Place::Parameters { depth, due } => after_listed(depth, due, token),
            Place::Rest => Place::Rest,
        }
    }
}

// After a token that is before the list, or opens it.
fn after_name(token: &Token<'_>) -> Place
    ensures { result ≡ specs.after_name (seen token.now) }
{
    match token {
        Token::LeftParen => Place::Parameters {
            depth: 0,
            due: true,
        },
        _ => Place::Name,
    }
}

// After a token in the list, or the bracket that closes it.
fn after_listed(depth: usize, due: bool, token: &Token<'_>) -> Place
    requires { depth < usize.MAX }
    ensures { result ≡ specs.after_listed depth due (seen token.now) }
{
    match token {
        Token::LeftBrace | Token::LeftParen | Token::LeftBracket => Place::Parameters {
            depth: depth + 1,
            due,
        },
        Token::RightBrace | Token::RightParen | Token::RightBracket => after_closing(depth, due),
        _ => Place::Parameters {
            depth,
            due: due_in(depth, due, token),
        },
    }
}

// After a bracket that closes one within the list, or the list.
fn after_closing(depth: usize, due: bool) -> Place
    ensures { result ≡ specs.after_closing depth due }
{
    if depth == 0 {
        Place::Rest
    } else {
        Place::Parameters {
            depth: depth - 1,
            due,
        }
    }
}

// Whether the name of a parameter is due after a token in the list that is not a bracket.
fn due_in(depth: usize, due: bool, token: &Token<'_>) -> bool
    ensures { result ≡ specs.due_in depth due (seen token.now) }
{
    if depth == 0 {
        due_after(due, token)
    } else {
        due
    }
}

fn due_after(due: bool, token: &Token<'_>) -> bool
    ensures { result ≡ specs.due_after due (seen token.now) }
{
    match token {
        Token::Ident(_) => false,
        Token::Comma => true,
        _ => due,
    }
}
