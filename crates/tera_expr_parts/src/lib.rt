//! The parts of expressions that are read without reading an expression in them.
//!
//! It takes a cursor. It has operators and what else may follow an operand (`kind_of`), constants, names, keys, the
//! marks between elements (`Continues`), how many more may open (`room_of`), and the faults of all these. It depends on
//! `tera_expect`; `tera_expr_reader` and `tera_statements` depend on it.
//!
//! In the order of reading: `limits`; `operators`; `front`, what comes after an operand; `parts` and `leaves`, which
//! make expressions; `literals`, arrays and maps that may be constants; `rows`, what is between elements; `words`,
//! `names`, `arguments`, `keys`, `components` and `attributes`; `faults`.
#![tactic(auto)]

mod arguments;
mod attributes;
mod components;
mod faults;
mod front;
mod keys;
pub mod leaves;
mod limits;
mod literals;
mod names;
mod operators;
mod parts;
mod rows;
mod words;

pub use arguments::{argument_name, put_argument};
pub use attributes::{close_component, quote};
pub use components::dotted_name;
pub use faults::{
    consecutive, misplaced_not, no_component_name, reported_from, too_complex, up_to_last,
};
pub use front::{Ending, Front, begins_prefix, take_condition, take_ending, take_operator};
pub use keys::key;
pub use limits::{Limits, Room, Scope, count_link, count_operator};
pub use literals::{array_or_constant, constant, map_or_constant};
pub use names::{free_name, variables};
pub use operators::{Operator, prefix_power};
pub use parts::{joined, literal, negation, refuse_prefix, signed, spanning};
pub use rows::{Values, more};
pub use words::{is_none, is_not};
