//! The results of the requests of an editor about templates, as JSON.
//!
//! It takes the documents that `tera_workspace` keeps, and what `tera_editor` knows. It writes what the server can do, and
//! the result of each request about a text or a position; which request asks for what, `tera_server` says. It depends on
//! `tera_layout`, on `tera_fixes` for corrections, and on `tera_outline` for outlines, names, coloured tokens and what may
//! be typed.
//!
//! In the order of reading: specs `Positions`; `abilities` (specs `Abilities`), what the server can do; `layouts` (specs
//! `Layouts`) and `symbols` (specs `Outlines`), of a text; `definitions`, `hovers` and `references`, of a name, with specs
//! of the same names; `completions` and `signatures`, of a position; `semantic_tokens`, of a text; `actions`, of a range.
#![tactic(auto)]

pub mod abilities;
pub mod actions;
pub mod completions;
pub mod definitions;
pub mod hovers;
pub mod layouts;
pub mod references;
pub mod semantic_tokens;
pub mod signatures;
pub mod symbols;
