//! Laws of white space in tags: each function has the law as its promise and does nothing.

ghost use Rattle.std.specs.Prelude.{◌≡◌, ◌==◌, ◌↔◌, ℕ, true, List, Some, count_by};
ghost use Rattle.tera_lexer.specs.grammar.Bytes.{line_feed};
ghost use Rattle.tera_lexer.specs.grammar.Division.{Piece, Complete, IsDivision};
ghost use Rattle.tera_lexer.specs.grammar.Marks.{Marks, IsValid, default_marks};
ghost use Rattle.tera_lexer.specs.grammar.Lexeme.{Lexeme, IsLexeme, spelled};
ghost use Rattle.tera_lexer.specs.grammar.Tokens.{token_of};
ghost use Rattle.tera_layout.specs.declared.sides.Left.{Left};
ghost use Rattle.tera_layout.specs.Alike.{AreAlikeSources};
ghost use Rattle.tera_layout.specs.Layout.{join_after, join_inside, IsLaidOut, laid_out};
ghost use Rattle.tera_layout.specs.Narrowed.{AreNarrowed};
ghost use Rattle.tera_layout.specs.Respaced.{IsRespaced, without_white};
ghost use Rattle.tera_layout.specs.Sides.{following};
ghost use Rattle.tera_layout.specs.Steady.{is_steady};
ghost use Rattle.tera_layout.specs.Widened.{pieces_bytes, AreWidened};

/// A source is the bytes of its pieces. So sources that differ in the white space inside tags alone are the same, byte
/// for byte, elsewhere. They have the same bytes except white space, and the same tokens apart from places.
pub fn respaced()
    ensures bytes { (m : Marks) (ps : List Piece) (source : List ℕ) →
        IsDivision m ps Complete source → source ≡ pieces_bytes m ps }
    ensures others { (m : Marks) (one other : List ℕ) → IsRespaced m one other →
        without_white one ≡ without_white other }
    ensures tokens { (m : Marks) (one other : List ℕ) → IsRespaced m one other →
        AreAlikeSources m one m other }
{}

/// Between steady markers other white space may be written in the tags of a source, as long as what was apart stays
/// apart: the source that comes of it differs in that white space alone.
pub fn widened()
    ensures { (m : Marks) → IsValid m → is_steady m ≡ true →
        (ps qs : List Piece) (one : List ℕ) → IsDivision m ps Complete one →
        AreWidened ps qs → IsRespaced m one (pieces_bytes m qs) }
{}

/// White space may be taken out as well between lexemes that stay apart by themselves, as a name and a
/// bracket do, and a number and a point do not.
pub fn narrowed()
    ensures { (m : Marks) → IsValid m → is_steady m ≡ true →
        (ps qs : List Piece) (one : List ℕ) → IsDivision m ps Complete one →
        AreNarrowed m ps qs → IsRespaced m one (pieces_bytes m qs) }
{}

/// Each source without a fault and without an open tag has a layout. Between steady markers the layout
/// differs from it in white space inside tags alone, so it has the same tokens apart from places; and
/// the layout of a layout is itself.
pub fn layout()
    ensures exists { (m : Marks) (ps : List Piece) (one : List ℕ) →
        IsDivision m ps Complete one → (other : List ℕ) × IsLaidOut m one other }
    ensures read { (m : Marks) → IsValid m → (one other : List ℕ) →
        (laid_out m one ≡ Some other) ↔ IsLaidOut m one other }
    ensures kept { (m : Marks) → IsValid m → is_steady m ≡ true →
        (one other : List ℕ) → IsLaidOut m one other → IsRespaced m one other }
    ensures tokens { (m : Marks) → IsValid m → is_steady m ≡ true →
        (one other : List ℕ) → IsLaidOut m one other → AreAlikeSources m one m other }
    ensures settled { (m : Marks) → IsValid m → is_steady m ≡ true →
        (one other : List ℕ) → IsLaidOut m one other → IsLaidOut m other other }
    ensures twice { (m : Marks) → IsValid m → is_steady m ≡ true → (one other third : List ℕ) →
        IsLaidOut m one other → IsLaidOut m other third → third ≡ other }
{}

/// A layout has as many line feeds as its source: white space with a line feed stays as it is, and other white space
/// comes and goes without one. So the lines of the two are side by side.
pub fn lines_kept()
    ensures { (m : Marks) (one other : List ℕ) → IsLaidOut m one other →
        count_by (λ b. b == line_feed) one ≡ count_by (λ b. b == line_feed) other }
{}

/// Between the default markers no white space stays for its loss to end a tag: what joins two lexemes
/// says the table alone.
pub fn defaults()
    ensures { (l r : Lexeme) (more rest : List ℕ) (before : Left) →
        IsLexeme l more → IsLexeme r rest →
        join_after default_marks (spelled l) (following before (token_of l)) r
        ≡ join_inside (following before (token_of l)) (token_of r) }
{}
