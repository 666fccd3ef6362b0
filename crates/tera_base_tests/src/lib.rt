//! Tests of values, their texts, places and errors.
#![tactic(auto)]

#[cfg(test)]
mod errors;
#[cfg(test)]
mod lanes;
#[cfg(test)]
mod values;
