//! The JSON of a tree, with the places of its expressions.
//!
//! It takes a `ParserOutput`, and gives its JSON (`json_text`), an object for each node. It depends on `tera_tree`, on
//! `json_members` and on `json` of the kit, and needs no parser.
//!
//! In the order of reading: specs `TreeJson`, what is written, `Forms`, of each form of node, and `Constants`; `tree`;
//! `nodes` and `expressions`, which call one another; `definitions`, of components; `constants`; `fields`, what they
//! share.
#![tactic(auto)]

mod constants;
mod definitions;
mod expressions;
mod fields;
mod nodes;
mod tree;

pub use tree::{put_tree, tree_json};
