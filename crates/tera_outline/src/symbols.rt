//! The outline of a text: its blocks and the definitions of its components.

ghost use Rattle.std.specs.Prelude.{◌≡◌, List, length, map, option_map, IfOk, OnOk};
ghost use Rattle.tera_lexer.specs.code.Seen.{seen};
ghost use Rattle.tera_outline.specs.Pieces.{Part, part_of, ArePartsOf};
ghost use Rattle.tera_outline.specs.Symbols as specs;
ghost use Rattle.tera_outline.specs.Symbols.{outlined, outline_of, same_kind};
ghost use Rattle.tera_outline.specs.Opened.{mark_view, state_of, kinds_of, other as other_kind, opened_with, took, unwound, all_ended, AreNumbered, KnowsOthers};

use crate::dotted::{dotted, end_of, start_of, text_of};
use crate::pieces::{Piece, pieces_of};
use std::alloc::{AllocError, Global};
use tera_lexer::Token;

/// What is outlined.
#[derive(Clone, Copy, Debug, PartialEq, Eq)]
pub enum SymbolKind {
    Block,
    /// The definition of a component.
    Component,
}

/// A block or the definition of a component.
#[derive(Debug, PartialEq, Eq, Drop)]
pub struct Symbol {
    pub kind: SymbolKind,
    /// The name, without the white space that may be around its dots.
    pub name: String,
    /// The byte with which its first tag begins.
    pub start: usize,
    /// The byte after the tag that closes it; that with which the tag begins which closes one around it; or the end of
    /// the text.
    pub end: usize,
    /// The byte with which its name begins.
    pub name_start: usize,
    /// The byte after its name.
    pub name_end: usize,
}

/// The blocks and the definitions of components of a text, with a fault or without one, in the order of their starts:
/// of two, the later is in the earlier or after it. An end tag closes the last open one of its kind, and at its start
/// what is open in that; an end tag that fits none is passed over, and what is never closed goes to the end of the
/// text. The markers are the default ones.
pub fn symbols_of(alloc: Global, text: &str) -> Result<Vec<Symbol>, AllocError>
    ensures { IfOk result (λ symbols. (parts : List Part) × ArePartsOf text.now parts
        × (map outlined symbols.items ≡ outline_of (length text.now) parts)) }
{
    let pieces = pieces_of(alloc, text)?;
    symbols_in(alloc, pieces.as_slice(), text.len())
}

/// Those of the pieces, in a text that ends at the byte.
pub(crate) fn symbols_in(
    alloc: Global,
    pieces: &[Piece<'_>],
    last: usize,
) -> Result<Vec<Symbol>, AllocError>
    ensures { IfOk result (λ symbols.
        map outlined symbols.items ≡ outline_of last (map part_of pieces.now)) }
{
    let mut outline = Outline {
        symbols: Vec::new(alloc),
        open: Vec::new(alloc),
    };
    let mut rest = pieces;
    'tags: while let [_, following @ ..] = rest {
        if let Some(mark) = mark_of(rest, last) {
            outline.take(alloc, mark)?;
        }
        rest = following;
    }
    outline.end_all(last);
    Ok(outline.symbols)
}

// A tag that opens a symbol, by its kind, its first byte and its name; or one that closes one, by its kind and the
// bytes between which it is.
#[derive(Clone, Copy)]
enum Mark<'p, 'a> {
    Opens(SymbolKind, usize, &'p [Piece<'a>]),
    Closes(SymbolKind, usize, usize),
}

// What tag begins with the pieces, in a text that ends at the byte.
fn mark_of<'p, 'a>(pieces: &'p [Piece<'a>], last: usize) -> Option<Mark<'p, 'a>>
    ensures { option_map mark_view result ≡ specs.mark_of last (map part_of pieces.now) }
{
    match pieces {
        [tag, word, following @ ..] if matches!(tag.token, Token::TagStart(_)) => {
            word_mark(last, tag.start, &word.token, following)
        }
        _ => None,
    }
}

// What tag it is that begins at the byte with the token.
fn word_mark<'p, 'a>(
    last: usize,
    start: usize,
    token: &Token<'a>,
    following: &'p [Piece<'a>],
) -> Option<Mark<'p, 'a>>
    ensures { option_map mark_view result
        ≡ specs.word_mark last start (seen token.now) (map part_of following.now) }
{
    let Token::Ident(word) = token else {
        return None;
    };
    match *word {
        "block" => opening(SymbolKind::Block, start, dotted(following)),
        "component" => opening(SymbolKind::Component, start, dotted(following)),
        "endblock" => Some(Mark::Closes(SymbolKind::Block, start, tag_end(last, following))),
        "endcomponent" => Some(Mark::Closes(
            SymbolKind::Component,
            start,
            tag_end(last, following),
        )),
        _ => None,
    }
}

fn opening<'p, 'a>(kind: SymbolKind, start: usize, name: &'p [Piece<'a>]) -> Option<Mark<'p, 'a>>
    ensures { option_map mark_view result ≡ specs.opening kind start (map part_of name.now) }
{
    match name {
        [] => None,
        name => Some(Mark::Opens(kind, start, name)),
    }
}

// The end of the tag in which the pieces are.
fn tag_end(last: usize, pieces: &[Piece<'_>]) -> usize
    ensures { result ≡ specs.tag_end last (map part_of pieces.now) }
{
    let mut rest = pieces;
    'pieces: while let [piece, following @ ..] = rest {
        match piece.token {
            Token::TagEnd(_) => return piece.end,
            Token::TagStart(_) => return piece.start,
            _ => rest = following,
        }
    }
    last
}

fn is_same(kind: SymbolKind, other: SymbolKind) -> bool
    ensures { result ≡ same_kind kind other }
{
    kind == other
}

// The symbol that is opened at the byte with the name, with which it ends until it is closed.
fn opened(
    alloc: Global,
    kind: SymbolKind,
    start: usize,
    name: &[Piece<'_>],
) -> Result<Symbol, AllocError>
    ensures { IfOk result (λ symbol. outlined symbol ≡ opened_with kind start (map part_of name.now)) }
{
    Ok(Symbol {
        kind,
        name: text_of(alloc, name)?,
        start,
        end: end_of(name),
        name_start: start_of(name),
        name_end: end_of(name),
    })
}

// The kind that this one is not.
fn other(kind: SymbolKind) -> SymbolKind
    ensures { result ≡ other_kind kind }
{
    match kind {
        SymbolKind::Block => SymbolKind::Component,
        SymbolKind::Component => SymbolKind::Block,
    }
}

// A symbol that is open, by its number.
#[derive(Clone, Copy)]
struct Open {
    number: usize,
    kind: SymbolKind,
    // Whether one of the other kind is open around it.
    is_in_other: bool,
}

// The symbols so far, and those of them that are open, the outermost first.
#[derive(Drop)]
struct Outline {
    symbols: Vec<Symbol>,
    open: Vec<Open>,
}

impl Outline {
    // Takes the next tag that opens a symbol or closes one.
    fn take(&mut self, alloc: Global, mark: Mark<'_, '_>) -> Result<(), AllocError>
        requires numbered { AreNumbered self.old }
        requires others { KnowsOthers self.old }
        ensures took { OnOk result (state_of self.new
            ≡ took (mark_view mark.entry) (state_of self.old)) }
        ensures numbered { OnOk result (AreNumbered self.new) }
        ensures others { OnOk result (KnowsOthers self.new) }
    {
        match mark {
            Mark::Opens(kind, start, name) => self.add(alloc, kind, start, name),
            Mark::Closes(kind, start, end) => {
                if self.has_open(kind) {
                    self.close(kind, start, end);
                }
                Ok(())
            }
        }
    }

    // Opens one.
    fn add(
        &mut self,
        alloc: Global,
        kind: SymbolKind,
        start: usize,
        name: &[Piece<'_>],
    ) -> Result<(), AllocError>
        requires numbered { AreNumbered self.old }
        requires others { KnowsOthers self.old }
        ensures took { OnOk result (state_of self.new
            ≡ took (specs.Opens kind start (map part_of name.now)) (state_of self.old)) }
        ensures numbered { OnOk result (AreNumbered self.new) }
        ensures others { OnOk result (KnowsOthers self.new) }
    {
        let number = self.symbols.len();
        let is_in_other = self.has_open(other(kind));
        self.symbols.push(opened(alloc, kind, start, name)?)?;
        self.open.push(Open {
            number,
            kind,
            is_in_other,
        })?;
        Ok(())
    }

    // Whether one of the kind is open.
    fn has_open(&self, kind: SymbolKind) -> bool
        requires { KnowsOthers self.now }
        ensures { result ≡ specs.is_open kind (kinds_of (state_of self.now).opened) }
    {
        match self.open.as_slice() {
            [.., last] => is_same(kind, last.kind) || last.is_in_other,
            [] => false,
        }
    }

    // Closes the last open one of the kind, and at the start of the tag those that are open in it.
    fn close(&mut self, kind: SymbolKind, start: usize, end: usize)
        requires numbered { AreNumbered self.old }
        requires others { KnowsOthers self.old }
        ensures closed { state_of self.new ≡ unwound kind start end (state_of self.old) }
        ensures numbered { AreNumbered self.new }
        ensures others { KnowsOthers self.new }
    {
        'inner: while let Some(inner) = self.open.pop() {
            if is_same(kind, inner.kind) {
                self.symbols[inner.number].end = end;
                return;
            }
            self.symbols[inner.number].end = start;
        }
    }

    // Ends those that are still open with the text.
    fn end_all(&mut self, last: usize)
        requires { AreNumbered self.old }
        ensures { map outlined self.new.symbols.items ≡ all_ended last (state_of self.old) }
    {
        'left: while let Some(left) = self.open.pop() {
            self.symbols[left.number].end = last;
        }
    }
}
