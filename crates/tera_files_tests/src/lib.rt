//! Tests of the files of a program: in folders of the system, with each call on files failing in turn, and without memory.
#![tactic(auto)]

#[cfg(test)]
mod failing;
#[cfg(test)]
mod folders;
#[cfg(test)]
mod memory;
#[cfg(test)]
mod reading;
#[cfg(test)]
mod replacing;
#[cfg(test)]
mod room;
