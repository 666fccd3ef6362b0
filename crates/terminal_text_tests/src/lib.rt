//! Tests of what a terminal shows: excerpts of a source, messages on one line, colours, counts and differences.
#![tactic(auto)]

#[cfg(test)]
mod difference;
#[cfg(test)]
mod excerpts;
#[cfg(test)]
mod texts;
