//! Reads expressions over a stack of open expressions, and what is in them between brackets.
//!
//! It takes a cursor, and where an expression is (`Scope`). It returns what the reading function of `tera_grammar`
//! gives (the clauses `gives`). It depends on `tera_expr_parts`. Its functions call one another and are proved
//! together, as the cycle `reader`; the answers to their goals are in `proofs/+reader`.
//!
//! In the order of reading: `outermost`, the calls for the crates above; `lone`, expressions of one token; `frames` and
//! `stack`, the loop over what is open; `chains` and `subscripts`; `calls` and `arguments`; `rows`, `arrays` and
//! `maps`; `component_calls`; `faults`.
#![tactic(auto)]

mod arguments;
mod arrays;
mod calls;
mod chains;
mod component_calls;
mod faults;
mod frames;
mod lone;
mod maps;
mod outermost;
mod rows;
mod stack;
mod subscripts;

pub use outermost::{
    attributes, component_name, expression, filter, kwargs, literal_array, literal_map,
};
