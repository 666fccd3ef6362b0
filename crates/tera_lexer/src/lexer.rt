//! The parts of the lexer.

pub mod cursor;
pub mod delimiters;
mod lexeme;
mod markers;
mod place;
mod scanner;
pub mod stream;
pub mod tokens;
