//! What a reader of expressions and statements requires of the next token: a token that must come, one that may come,
//! and the fault if there is another.
//!
//! It takes a cursor and the expected token, and returns this token, which is then taken, or a fault. `GivesAs` says
//! what was read, `Took` that the cursor went on, and `Refuses` where a fault may be. It depends on `tera_lexer`, and
//! on `tera_grammar` for what tokens begin with. Expressions and statements depend on it.
//!
//! In the order of reading: specs `Taking`, and `Notes` for the notes of faults; `fixed`, the tokens of fixed places; `faults`.
#![tactic(auto)]

mod faults;
mod fixed;

pub use faults::{fault, first_defined, noted, reported, unexpected};
pub use fixed::{Fixed, begins, begins_name, eat, eat_name, expect, name, take};
