//! Numbered things with links from each to others.
//!
//! It takes the links of each thing, by their numbers. It gives the number of each thing's group, in which things are
//! reached from each other (`AreGroups`); which things are on a circle (`AreOnCircles`); and what links to each
//! (`AreReversed`). The time grows with the things and the links. It depends on the standard library alone.
//!
//! In the order of reading: specs `Groups`; `groups`; specs `Walks` and `walk`; `circles`; specs `Ends` and `ends`.
#![tactic(auto)]

mod circles;
mod ends;
mod groups;
mod walk;

pub use circles::{leads_back, on_circles};
pub use ends::reversed;
pub use groups::groups_of;
