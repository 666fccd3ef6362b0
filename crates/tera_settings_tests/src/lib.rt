//! Tests of the settings of a site: what files mean, the errors of those that are wrong, and allocations that fail.
#![tactic(auto)]

#[cfg(test)]
mod faults;
#[cfg(test)]
mod meanings;
#[cfg(test)]
mod memory;
#[cfg(test)]
mod shown;
