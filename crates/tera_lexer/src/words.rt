//! The words of the language, which its readers, layout, outline, colours and completion share.

ghost use Rattle.std.specs.Prelude.{◌≡◌};
ghost use Rattle.tera_lexer.specs.grammar.Words.{is_one_of, none_words, operator_words};

/// The words with which the tags of statements begin.
pub const STATEMENTS: [&str; 20] = [
    "if",
    "for",
    "block",
    "filter",
    "component",
    "set",
    "set_global",
    "endif",
    "endfor",
    "endblock",
    "endfilter",
    "endcomponent",
    "endset",
    "else",
    "elif",
    "include",
    "extends",
    "break",
    "continue",
    "raw",
];

/// Whether the name is an operator.
pub fn is_operator(name: &str) -> bool
    ensures { result ≡ is_one_of operator_words name.now }
{
    matches!(name, "and" | "or" | "not" | "in" | "is")
}

/// Whether the name is a word for no value.
pub fn is_none(name: &str) -> bool
    ensures { result ≡ is_one_of none_words name.now }
{
    matches!(name, "none" | "None" | "null")
}
