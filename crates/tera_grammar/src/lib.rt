//! The grammar of templates of the engine Tera, and its laws. Nothing in it runs.
//!
//! It says which tokens are a template, and with which tree (`IsTemplate`; for a source `Derives`), how they are read
//! (`expression_of`, `template`), and that these agree. It depends on `tera_lexer` and `tera_tree`.
//!
//! In the order of reading: specs `Limits` and `Words`, then the folders `expressions` and `statements` except
//! `Reading` and `Stack`: what promises name, of which docs/GRAMMAR.md is a guide. Then these two and `Options`: what
//! the code equals. `laws` has what is proved of all this; `Examples`, in both folders of `proofs`, runs it.
#![tactic(auto)]

pub mod laws;
