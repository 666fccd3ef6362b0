//! The heads of definitions.

ghost use Rattle.std.specs.Prelude.{◌≡◌, List, length, map, option_map, IfOk};
ghost use Rattle.std.specs.List.{find};
ghost use Rattle.tera_outline.specs.Heads as specs;
ghost use Rattle.tera_outline.specs.Pieces.{Part, part_of, ArePartsOf};
ghost use Rattle.tera_outline.specs.Symbols.{outlined, outline_of};

use crate::pieces::{Piece, pieces_of};
use crate::symbols::{Symbol, SymbolKind, symbols_in};
use std::alloc::{AllocError, Global};
use tera_lexer::Token;

/// The head of the first definition of the component in the text, with a fault or without one: from its name to the end
/// of its tag, as it is there. The markers are the default ones.
pub fn head_of<'t>(alloc: Global, text: &'t str, name: &str) -> Result<Option<&'t str>, AllocError>
    ensures { IfOk result (λ head. (parts : List Part) × ArePartsOf text.now parts
        × (option_map (λ h. h.now) head ≡ specs.head_of text.now parts name.now)) }
{
    let pieces = pieces_of(alloc, text)?;
    let symbols = symbols_in(alloc, pieces.as_slice(), text.len())?;
    Ok(head_in(text, pieces.as_slice(), symbols.as_slice(), name))
}

// By the pieces and the symbols of the text.
pub(crate) fn head_in<'t>(
    text: &'t str,
    pieces: &[Piece<'_>],
    symbols: &[Symbol],
    name: &str,
) -> Option<&'t str>
    requires parts { ArePartsOf text.now (map part_of pieces.now) }
    requires outline { map outlined symbols.now ≡ outline_of (length text.now) (map part_of pieces.now) }
    ensures { option_map (λ h. h.now) result ≡ specs.head_of text.now (map part_of pieces.now) name.now }
{
    let symbol = definition_in(symbols, name)?;
    let end = head_end(symbol.name_end, pieces);
    Some(&text[symbol.name_start..end])
}

// The first definition of the component among the symbols.
pub(crate) fn definition_in<'s>(symbols: &'s [Symbol], name: &str) -> Option<&'s Symbol>
    ensures { option_map (λ s. outlined s.now) result
        ≡ find (specs.defines name.now) (map outlined symbols.now) }
{
    for symbol in symbols {
        if symbol.kind == SymbolKind::Component && symbol.name.as_str() == name {
            return Some(symbol);
        }
    }
    None
}

// The end of the last of the pieces that comes after the byte in the same tag; or the byte, where none does.
pub(crate) fn head_end(byte: usize, pieces: &[Piece<'_>]) -> usize
    ensures { result ≡ specs.head_end byte (map part_of pieces.now) }
{
    let mut end = byte;
    let mut rest = pieces;
    'pieces: while let [piece, following @ ..] = rest {
        if end <= piece.start {
            if matches!(piece.token, Token::TagStart(_) | Token::TagEnd(_)) {
                return end;
            }
            end = piece.end;
        }
        rest = following;
    }
    end
}
