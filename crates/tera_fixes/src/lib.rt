//! What may have been meant where something is found in a template, and the text with it.
//!
//! It takes what is known around a finding and the text of the template, and suggests another text for parts of it
//! (`suggestion_of`, and for all findings of a template `suggestions_in`). For several templates each name is compared
//! with the others only once (`suggestions_by`, `Meanings`). It gives the text with suggestions (`edited`), and says
//! whether a template that was read from it is better (`fewer_in`). It depends on `tera_check`, whose findings it does
//! not change, and on `tera_settings` for what a word resembles.
//!
//! In the order of reading: specs `Meant` and `meant`, the name that a word was meant to be; specs `Parts` and `parts`,
//! where a text has a word; specs `Attributes` and `attributes`; specs `Names` and `names`; specs `Components` and
//! `components`; specs `Suggestions` and `suggestions`; specs `All` and `all`; specs `Edited` and `edits`; specs
//! `Better` and `better`; specs `Laws` and `laws`.
#![tactic(auto)]

mod all;
mod attributes;
mod better;
mod components;
mod edits;
pub mod laws;
mod meant;
mod names;
mod parts;
mod suggestions;

pub use all::{are_too_many, suggestions_by, suggestions_in};
pub use better::fewer_in;
pub use components::Meanings;
pub use edits::edited;
pub use parts::Part;
pub use suggestions::{Context, Suggestion, suggestion_by, suggestion_of};
