//! The statements of the template engine Tera, and whole templates.
//!
//! It takes a cursor and limits, and returns a `ParserOutput` with its `Names` (`seen_of`), as `template` of
//! `tera_grammar` reads it. It depends on `tera_tags` for what is in tags, and passes `Names` on. Items hold bodies and
//! bodies hold items, so their functions are proved together, as the cycle `bodies`; the answers to their goals are in
//! `proofs/+bodies`.
//!
//! In the order of reading: `templates`, the top level; `bodies`; `items`; the statements: `simple`, those without a
//! body, `blocks`, `loops`, `conditions` and `captures`; `around` and `added`, what these hand on; `faults`.
#![tactic(auto)]

mod added;
mod around;
mod blocks;
mod bodies;
mod captures;
mod conditions;
mod faults;
mod items;
mod loops;
mod simple;
mod templates;

pub use templates::read_output;
pub use tera_tags::names::Names;
pub use tera_tree::ParserOutput;
