//! Tokens of the template engine Tera as text, and the law that this text is read back as these tokens. Nothing in it
//! runs.
//!
//! It says what is written for tokens (`tokens_text`), which tokens can be written, and that the lexer reads them back
//! between the markers of a variable tag (`IsTagOf`). It depends on `tera_lexer`, and knows no expression.
//!
//! In the order of reading: specs `Spelling`, `Sources` and `Given`; `laws`.
#![tactic(auto)]

pub mod laws;
