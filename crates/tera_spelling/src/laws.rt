//! Laws of the text of tokens: each function has the law as its promise and does nothing.

ghost use Rattle.std.specs.Prelude.{ℕ, List};
ghost use Rattle.tera_lexer.specs.grammar.Marks.{Marks, default_marks};
ghost use Rattle.tera_lexer.specs.grammar.Tokens.{Items, AreTokensOf};
ghost use Rattle.tera_spelling.specs.Spelling.{AreSpelled, tokens_text};
ghost use Rattle.tera_spelling.specs.Sources.{in_tag, IsTagOf};
ghost use Rattle.tera_spelling.specs.Given.{EachToken, IsGiven};

/// The text of tokens that can be spelled, in a variable tag between the default markers, has tokens, and they are the
/// start of the tag, these tokens, and the end of the tag, apart from where each is.
pub fn read_back()
    ensures exists { (items : Items) → AreSpelled items → (read : Items) ×
        AreTokensOf default_marks (in_tag (tokens_text items)) read × IsTagOf items read }
    ensures each { (items read : Items) → AreSpelled items →
        AreTokensOf default_marks (in_tag (tokens_text items)) read → IsTagOf items read }
{}

/// The names, the numbers and the operators of each source can be spelled.
pub fn given_tokens()
    ensures { (m : Marks) (source : List ℕ) (items : Items) → AreTokensOf m source items →
        EachToken IsGiven items }
{}
