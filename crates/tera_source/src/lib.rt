//! The source text of expressions: text that is read as the expression.
//!
//! It takes an expression, and returns its source text (`source_text`), or says that there is none. A law says that the
//! text is read as the expression, apart from places (`PrintsBack`). It depends on `tera_grammar` and `tera_spelling`.
//!
//! In the order of reading: specs `Source` and `Printing`; `source`, the call; `refusal`, where it writes nothing;
//! `writing`, a function for each form; `context` and `operators`, where parentheses have to be; `constants` and
//! `texts`. Then `laws`.
#![tactic(auto)]

mod constants;
mod context;
pub mod laws;
mod operators;
mod refusal;
mod source;
mod texts;
mod writing;

pub use source::source_of;
