//! The components that templates define, for people who call them: as JSON, and as a page of HTML.
//!
//! It takes templates that `tera_check` has read. It returns their components in a stable order (`listed`), each with a
//! call to copy that the parser accepts (`IsOffered`), and writes them as JSON (`catalogue_tokens`) or as a page
//! (`page_of`). It depends on `tera_check` and `tera_parser`, and its code names nothing below them; of the kit it uses
//! `json`.
//!
//! In the order of reading: specs `Listed`, `Offered`; `components`, which uses `offers`; then `values` and `objects`,
//! the JSON (specs `Constants`, `Objects`), and `escapes`, `cells`, `frame` and `pages`, the HTML (specs `Escapes`,
//! `Pages`).
#![tactic(auto)]

mod cells;
mod components;
mod escapes;
mod frame;
mod objects;
mod offers;
mod pages;
mod values;

pub use components::{Component, components_of};
pub use escapes::escaped;
pub use objects::json_of;
pub use offers::{call_of, offered};
pub use pages::html_of;
