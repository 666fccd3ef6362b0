//! Laws of the definitions: each function has the law as its promise and does nothing.

ghost use Rattle.std.specs.Prelude.{◌≡◌, ◌++◌, ℕ, List, [], false, slice_range, IsUtf8};
ghost use Rattle.tera_lexer.specs.grammar.Place.{span_of};
ghost use Rattle.tera_lexer.specs.grammar.Marks.{Marks, IsValid, AreTexts};
ghost use Rattle.tera_lexer.specs.grammar.Division.{Piece, Ending, IsDivision};
ghost use Rattle.tera_lexer.specs.grammar.Tokens.{Items, AreTokensOf};
ghost use Rattle.tera_lexer.specs.grammar.Tiling.{Tile};
ghost use Rattle.tera_lexer.specs.code.Steps.{EachIsAt};

/// Each source has one division into pieces and an ending.
pub fn one_division()
    ensures exists { (m : Marks) → IsValid m → (source : List ℕ) →
        (pieces : List Piece) × (ending : Ending) × IsDivision m pieces ending source }
    ensures unique { (m : Marks) → IsValid m →
        (one other : List Piece) (end last : Ending) (source : List ℕ) →
        IsDivision m one end source → IsDivision m other last source →
        (one ≡ other) × (end ≡ last) }
{}

/// Each source has one list of tokens.
pub fn one_token_list()
    ensures exists { (m : Marks) → IsValid m → (source : List ℕ) →
        (items : Items) × AreTokensOf m source items }
    ensures unique { (m : Marks) → IsValid m → (source : List ℕ) (one other : Items) →
        AreTokensOf m source one → AreTokensOf m source other → one ≡ other }
{}

/// The range of a text's span cuts that text out of the source.
pub fn one_slice()
    ensures { (front text rest : List ℕ) → slice_range (front ++ (text ++ rest))
        (span_of front text).range.start (span_of front text).range.end ≡ text }
{}

/// The tokens of a source are in it one after the other, each with the bytes of its span: a name and an operator are
/// those bytes, the inside of a string without escapes is between its quotes there, and a text is a part of them,
/// trimmed or not. Between two tokens is nothing but white space, and that only inside a tag. In a source that is a
/// text, between markers that are, each token is as `Tokens::next` says: its span lies between characters, and what is
/// left of a text that is trimmed is itself a part of the bytes.
pub fn tokens_tile()
    ensures tile { (m : Marks) → IsValid m → (source : List ℕ) (items : Items) →
        AreTokensOf m source items → Tile false [] source items }
    ensures stand { (m : Marks) → IsValid m → AreTexts m → (source : List ℕ) → IsUtf8 source →
        (items : Items) → AreTokensOf m source items → EachIsAt source items }
{}
