//! What the pieces, the coloured tokens and the symbols of a text are: each function has the law as its promise and
//! does nothing.

ghost use Rattle.std.specs.Prelude.{◌≡◌, ℕ, List, length, All};
ghost use Rattle.tera_base.specs.declared.utils.Span.{Span};
ghost use Rattle.tera_lexer.specs.grammar.Faults.{IsFaultOf};
ghost use Rattle.tera_lexer.specs.grammar.Marks.{default_marks};
ghost use Rattle.tera_lexer.specs.grammar.Tokens.{Items, AreTokensOf};
ghost use Rattle.tera_outline.specs.Pieces.{Part, parts_in, ArePartsOf, AreBetween};
ghost use Rattle.tera_outline.specs.SemanticTokens.{semantic_tokens_of, AreOnLines};
ghost use Rattle.tera_outline.specs.Symbols.{outline_of, AreNested, IsWithin};

/// A text has one list of pieces. Without a lexical fault these are its tokens.
pub fn one_list_of_pieces()
    ensures one { (text : List ℕ) (one other : List Part) → ArePartsOf text one →
        ArePartsOf text other → one ≡ other }
    ensures tokens { (text : List ℕ) (parts : List Part) (items : Items) → ArePartsOf text parts →
        AreTokensOf default_marks text items →
        ((message : List ℕ) (span : Span) → IsFaultOf items message span → ⊥) →
        parts ≡ parts_in items }
{}

/// The pieces of a text are in it one after the other, and none is empty.
pub fn pieces_in_order()
    ensures { (text : List ℕ) (parts : List Part) → ArePartsOf text parts →
        AreBetween 0 (length text) parts }
{}

/// The tokens that are coloured are in a text one after the other; none is empty, and none goes over the end of a line.
pub fn semantic_tokens_in_order()
    ensures { (text : List ℕ) (parts : List Part) → ArePartsOf text parts →
        AreOnLines 0 text (semantic_tokens_of text parts) }
{}

/// Of two symbols of a text the later begins after the start of the earlier, and either at or after its end, or ends no
/// later.
pub fn symbols_nest()
    ensures { (text : List ℕ) (parts : List Part) → ArePartsOf text parts →
        AreNested (outline_of (length text) parts) }
{}

/// The name of a symbol is within the symbol, after its start, and the symbol within the text.
pub fn symbols_in_text()
    ensures { (text : List ℕ) (parts : List Part) → ArePartsOf text parts →
        All (IsWithin (length text)) (outline_of (length text) parts) }
{}
