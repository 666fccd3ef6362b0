//! The tokens of a text that an editor colours.

ghost use Rattle.std.specs.Prelude.{◌≡◌, ◌≤◌, ◌++◌, OnOk};
ghost use Rattle.std.specs.List.{flat_map};
ghost use Rattle.json.specs.Json.{Json};
ghost use Rattle.json.specs.Tree.{json_tokens};
ghost use Rattle.json_members.specs.Written.{Puts};
ghost use Rattle.tera_outline.specs.SemanticTokens.{IsOnLine, AreOnLines};
ghost use Rattle.text_edits.specs.Laws.{IsUpTo};
ghost use Rattle.text_edits.specs.Positions.{boundary_to};
ghost use Rattle.text_edits.specs.Walks.{IsReached};
ghost use Rattle.tera_answers.specs.SemanticTokens as specs;
ghost use Rattle.tera_answers.specs.SemanticTokens.{AreTokens, data_of, numbers, number_tokens};

use json::{Token, Writer};
use json_members::put_tokens;
use std::alloc::{AllocError, Global};
use tera_outline::{SemanticKind, SemanticToken, semantic_tokens_of};
use text_edits::{Encoding, Position, Walk};

/// Writes the tokens of the text, with a fault or without one. Each is at a distance from the one before.
pub fn put_semantic_tokens(
    alloc: Global,
    out: &mut Writer,
    encoding: Encoding,
    text: &str,
) -> Result<(), AllocError>
    ensures tokens { OnOk result ((j : Json) × AreTokens encoding text.now j
        × (out.new.tokens ≡ out.old.tokens ++ json_tokens j)) }
    ensures before { out.new.before ≡ out.old.before }
{
    let tokens = semantic_tokens_of(alloc, text)?;
    put_tokens(
        out,
        &[Token::BeginObject, Token::Key("data"), Token::BeginArray],
    )?;
    put_data(out, encoding, text, tokens.as_slice())?;
    put_tokens(out, &[Token::EndArray, Token::EndObject])
}

fn put_data(
    out: &mut Writer,
    encoding: Encoding,
    text: &str,
    tokens: &[SemanticToken],
) -> Result<(), AllocError>
    requires { AreOnLines 0 text.now tokens.now }
    ensures { Puts result out.old out.new
        (flat_map number_tokens (data_of encoding text.now tokens.now)) }
{
    let mut walk = Walk::first();
    let mut last = walk.position;
    for token in tokens {
        let (placed, following) = place(encoding, text, walk, *token);
        put_placed(out, last, placed)?;
        last = placed.start;
        walk = following;
    }
    Ok(())
}

// A token with its position.
#[derive(Clone, Copy)]
struct Placed {
    start: Position,
    length: usize,
    kind: SemanticKind,
}

// The position of a token after a place, and the place after it.
fn place(encoding: Encoding, text: &str, walk: Walk, token: SemanticToken) -> (Placed, Walk)
    requires reached { IsReached encoding text.now walk }
    requires order { walk.byte ≤ boundary_to text.now token.start }
    requires line { IsOnLine text.now token }
    ensures placed { result.0 ≡ specs.placed encoding text.now token }
    ensures byte { result.1.byte ≡ boundary_to text.now token.end }
    ensures reached { IsReached encoding text.now result.1 }
{
    let start = walk.onward(text, encoding, token.start);
    let end = start.onward(text, encoding, token.end);
    let placed = Placed {
        start: start.position,
        length: end.position.character - start.position.character,
        kind: token.kind,
    };
    (placed, end)
}

// Writes the five numbers of a token after one that begins at the position.
fn put_placed(out: &mut Writer, last: Position, placed: Placed) -> Result<(), AllocError>
    requires { IsUpTo last placed.start }
    ensures { Puts result out.old out.new (flat_map number_tokens (numbers last placed)) }
{
    put_numbers(
        out,
        &[
            placed.start.line - last.line,
            distance(last, placed.start),
            placed.length,
            kind_number(placed.kind),
            0,
        ],
    )
}

// How many units are before the position on its line, or between the two if `last` is on the line too.
fn distance(last: Position, position: Position) -> usize
    requires { IsUpTo last position }
    ensures { result ≡ specs.distance last position }
{
    if position.line == last.line {
        position.character - last.character
    } else {
        position.character
    }
}

#[tactic(auto, unfolding(crate::specs::SemanticTokens::number_tokens))]
pub(crate) fn put_numbers(out: &mut Writer, numbers: &[usize]) -> Result<(), AllocError>
    ensures { Puts result out.old out.new (flat_map number_tokens numbers.now) }
{
    for number in numbers {
        out.u64(*number as u64)?;
    }
    Ok(())
}

// Its number in the legend, which is among the tokens of `abilities`.
fn kind_number(kind: SemanticKind) -> usize
    ensures { result ≡ specs.kind_number kind }
{
    match kind {
        SemanticKind::Comment => 0,
        SemanticKind::Keyword => 1,
        SemanticKind::String => 2,
        SemanticKind::Number => 3,
        SemanticKind::Operator => 4,
        SemanticKind::Namespace => 5,
        SemanticKind::Class => 6,
        SemanticKind::Type => 7,
        SemanticKind::Function => 8,
        SemanticKind::Parameter => 9,
        SemanticKind::Property => 10,
        SemanticKind::Variable => 11,
    }
}
