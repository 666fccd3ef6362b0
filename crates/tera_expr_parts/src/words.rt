//! Names that mean something.

ghost use Rattle.std.specs.Prelude.{◌≡◌};
ghost use Rattle.tera_grammar.specs.Words.{is_none, is_not, is_reserved};

use tera_lexer::words;

/// Whether the name is a word for no value.
#[tactic(auto, unfolding(crate::specs::Unfold::is_none))]
pub fn is_none(name: &str) -> bool
    ensures { result ≡ is_none name.now }
{
    words::is_none(name)
}

/// Whether the name is the negation.
pub fn is_not(name: &str) -> bool
    ensures { result ≡ is_not name.now }
{
    matches!(name.as_bytes(), b"not")
}

/// Whether no variable has the name.
#[tactic(auto, unfolding(crate::specs::Unfold::is_reserved))]
pub(crate) fn is_reserved(name: &str) -> bool
    ensures { result ≡ is_reserved name.now }
{
    matches!(name, "loop" | "self" | "continue" | "break")
        || words::is_operator(name)
        || words::is_none(name)
}
