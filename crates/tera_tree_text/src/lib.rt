//! The text of a tree, line by line.
//!
//! It takes a `ParserOutput`, and gives its lines (`text_of`). It depends on `tera_tree`, and needs no parser.
//!
//! In the order of reading: specs `TreeText` and `Quoted`, what is written; `text`, of a whole tree; `lines`, of nodes;
//! `definitions`, of components; `quoted`, of texts, by their bytes (specs `QuotedBytes`).
#![tactic(auto)]

mod definitions;
mod lines;
mod quoted;
mod text;

pub use text::tree_text;
