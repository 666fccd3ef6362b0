//! Tests of groups of things that are reached from each other.
#![tactic(auto)]

#[cfg(test)]
mod large;
#[cfg(test)]
mod small;
