//! The outline of a text: its blocks and the definitions of its components.

ghost use Rattle.std.specs.Prelude.{◌≡◌, ◌++◌, map, reverse, OnOk};
ghost use Rattle.json.specs.Json.{Json};
ghost use Rattle.json.specs.Tree.{json_tokens, items_tokens};
ghost use Rattle.json_members.specs.Written.{Puts};
ghost use Rattle.tera_outline.specs.Symbols.{outlined};
ghost use Rattle.text_edits.specs.Places.{AreLinesOf};
ghost use Rattle.protocol_values.specs.Writing.{member_tokens, range_json};
ghost use Rattle.tera_answers.specs.Positions.{position_at};
ghost use Rattle.tera_answers.specs.Outlines.{IsOutline, nested, symbol_items, symbol_begin, end_tokens, open_at, all_ended, kind_name, kind_number};

use json::{Token, Writer};
use json_members::{put_number, put_tokens};
use protocol_values::put_range;
use std::alloc::{AllocError, Global};
use tera_outline::{Symbol, SymbolKind, symbols_of};
use text_edits::{Encoding, Lines, position_at};

/// Writes the symbols of the text, with a fault or without one, each with those that are in it.
pub fn put_outline(
    alloc: Global,
    out: &mut Writer,
    encoding: Encoding,
    text: &str,
) -> Result<(), AllocError>
    ensures tokens { OnOk result ((j : Json) × IsOutline encoding text.now j
        × (out.new.tokens ≡ out.old.tokens ++ json_tokens j)) }
    ensures before { out.new.before ≡ out.old.before }
{
    let symbols = symbols_of(alloc, text)?;
    let lines = Lines::for_many(alloc, text)?;
    out.begin_array()?;
    put_nested(alloc, out, encoding, text, &lines, symbols.as_slice())
}

// Writes the symbols, and ends their array.
fn put_nested(
    alloc: Global,
    out: &mut Writer,
    encoding: Encoding,
    text: &str,
    lines: &Lines,
    symbols: &[Symbol],
) -> Result<(), AllocError>
    requires { AreLinesOf text.now lines.now }
    ensures { Puts result out.old out.new
        (items_tokens (symbol_items encoding text.now (nested (map outlined symbols.now)))) }
{
    // The ends of the symbols that are open, the innermost last.
    let mut open = Vec::new(alloc);
    for symbol in symbols {
        end_before(out, &mut open, symbol.start)?;
        begin_symbol(out, encoding, text, lines, symbol)?;
        open.push(symbol.end)?;
    }
    end_all(out, &mut open)?;
    out.end_array()
}

// The end of a symbol, after those inside it.
const SYMBOL_END: [Token<'static>; 2] = [Token::EndArray, Token::EndObject];

// Ends the symbols that end at or before the byte.
fn end_before(out: &mut Writer, open: &mut Vec<usize>, byte: usize) -> Result<(), AllocError>
    ensures puts { Puts result out.old out.new (end_tokens byte (reverse open.old.items)) }
    ensures open { OnOk result (reverse open.new.items ≡ open_at byte (reverse open.old.items)) }
{
    'open: while let Some(end) = open.last().copied() {
        if byte < end {
            return Ok(());
        }
        open.pop();
        put_tokens(out, &SYMBOL_END)?;
    }
    Ok(())
}

fn end_all(out: &mut Writer, open: &mut Vec<usize>) -> Result<(), AllocError>
    ensures { Puts result out.old out.new (all_ended (reverse open.old.items)) }
{
    'open: while let Some(_) = open.pop() {
        put_tokens(out, &SYMBOL_END)?;
    }
    Ok(())
}

fn begin_symbol(
    out: &mut Writer,
    encoding: Encoding,
    text: &str,
    lines: &Lines,
    symbol: &Symbol,
) -> Result<(), AllocError>
    requires { AreLinesOf text.now lines.now }
    ensures { Puts result out.old out.new (symbol_begin encoding text.now (outlined symbol.now)) }
{
    put_tokens(
        out,
        &[
            Token::BeginObject,
            Token::Key("name"),
            Token::String(symbol.name.as_str()),
            Token::Key("detail"),
            Token::String(kind_name(symbol.kind)),
        ],
    )?;
    put_number(out, "kind", kind_number(symbol.kind))?;
    let bytes = (symbol.start, symbol.end);
    put_part(out, "range", encoding, text, lines, bytes)?;
    let name = (symbol.name_start, symbol.name_end);
    put_part(out, "selectionRange", encoding, text, lines, name)?;
    put_tokens(out, &[Token::Key("children"), Token::BeginArray])
}

// Writes the member that is the range between two bytes.
fn put_part(
    out: &mut Writer,
    member: &str,
    encoding: Encoding,
    text: &str,
    lines: &Lines,
    bytes: (usize, usize),
) -> Result<(), AllocError>
    requires { AreLinesOf text.now lines.now }
    ensures { Puts result out.old out.new
        (member_tokens member.now (range_json (position_at encoding text.now bytes.0)
        (position_at encoding text.now bytes.1))) }
{
    let start = position_at(text, lines, encoding, bytes.0);
    let end = position_at(text, lines, encoding, bytes.1);
    put_range(out, member, start, end)
}

fn kind_name(kind: SymbolKind) -> &'static str
    ensures { result.now ≡ kind_name kind }
{
    match kind {
        SymbolKind::Block => "block",
        SymbolKind::Component => "component",
    }
}

// The number for a namespace, or for a function.
fn kind_number(kind: SymbolKind) -> usize
    ensures { result ≡ kind_number kind }
{
    match kind {
        SymbolKind::Block => 3,
        SymbolKind::Component => 12,
    }
}
