//! The layout of templates of the engine Tera: white space in tags as it is usually written.
//!
//! It takes a source and returns its layout (`format`; `format_between` for other markers), or the fault because of
//! which there is none. It depends on `tera_lexer`.
//!
//! In the order of reading: specs `Sides`, which tokens touch and which are apart, and `Layout`, and of `Widened` what
//! the bytes of pieces are; `sides`, and `formatting`, which writes the layout, with the specs `WrittenLayout`;
//! `steady`, between which markers. Then `laws`, with the specs `Respaced`, `Alike`, `Widened`, `Apart` and `Narrowed`.
//! `Examples` in `proofs` runs the layout.
#![tactic(auto)]

mod formatting;
pub mod laws;
mod sides;
mod steady;

pub use formatting::{format, format_between};
pub use steady::are_steady;
