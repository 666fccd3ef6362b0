//! The rules that look at one tree: what they find in a call, in a map and in the conditions of an `if`.
//!
//! It takes trees, and of a call what is known of its component (`KnownVal`). It finds what is wrong in a call
//! (`call_findings`), and in each part by itself (`small_findings`). It knows nothing of templates with faults. It
//! depends on `tera_parser`, and its code names nothing below it.
//!
//! In the order of reading: specs `Calls`, `Passed`, `Repeated`, `Bodies`, `Judged`, `Within`, `Rules`; `calls`, over
//! the parts of a tree (specs `Pending`); `bodies`, of calls, and what shows them; `known`, a component; `repeated`,
//! `passed`, `arguments` and `judged`, of one call; `rules`, of each part by itself, with `repeated_keys` and
//! `repeated_conditions` (specs `RepeatedKeys`, `RepeatedConditions`); `registered`, the names that a program registers
//! (specs `Registered`); `messages`, texts.
#![tactic(auto)]

mod arguments;
mod bodies;
mod calls;
mod judged;
mod known;
pub mod messages;
mod passed;
pub mod registered;
mod repeated;
mod repeated_conditions;
mod repeated_keys;
mod rules;

pub use bodies::hidden_bodies;
pub use calls::calls_of;
pub use judged::push_call;
pub use known::Known;
pub use repeated::{Spans, put_span};
pub use rules::push_all_small;
