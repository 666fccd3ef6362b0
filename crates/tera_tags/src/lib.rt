//! What is in the tags of statements: their first tokens, their heads and ends, and the parameters of components.
//!
//! It takes a cursor and a setting (`limits_under`). It returns what the reading functions of `tera_grammar` give for
//! the parts of a tag (the clauses `gives`), and keeps the names that a template defines (`seen_of`). It knows no
//! bodies. It depends on `tera_expr_reader`; `tera_statements` depends on it.
//!
//! In the order of reading: `fronts`, what comes next in a body; `settings`, what a tag is read with; `tag_parts`, the
//! start and the end of tags, and what is alone in them; `heads`, opening tags up to their end; `names`, those that
//! were met; `components`, the tags of a definition, with `parameters`; `faults`.
#![tactic(auto)]

pub mod components;
pub mod faults;
pub mod fronts;
pub mod heads;
pub mod names;
pub mod parameters;
pub mod settings;
pub mod tag_parts;
