//! Laws on sources that have the same tokens apart from places, for the template engine Tera. Nothing in it runs.
//!
//! Such sources have derivations within the same limits, with the same output apart from places. This holds of a source
//! and its layout. It depends on `tera_layout`, `tera_grammar` and `tera_source`.
//!
//! In the order of reading: specs `Outputs`, then `laws`.
#![tactic(auto)]

pub mod laws;
