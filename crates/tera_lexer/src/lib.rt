//! The lexer of the template engine Tera: from a source to its tokens.
//!
//! It takes a source and six markers. It gives the tokens, one at a time (`AreTokensOf`), and a cursor over them, which
//! shows two and takes one (`Position`). It depends on `tera_base`, and on `memchr` of the kit, which searches for
//! markers.
//!
//! In the order of reading, in the folder `lexer`: `tokens`, the types; `delimiters`, the markers; `stream`, the tokens
//! of a source; `cursor`; specs `grammar`, what tokens a source has, `reading`, how they are found, and `code`, what
//! the values of the code mean. Then what finds them: `scanner`, by `markers`, `lexeme` and `place`. Then `words`, the
//! words of the language, and `laws`.
#![tactic(auto)]

pub mod laws;
mod lexer;
pub mod words;

pub use lexer::cursor::Cursor;
pub use lexer::delimiters::Delimiters;
pub use lexer::stream::{Tokens, tokenize};
pub use lexer::tokens::Token;
