//! Tests of maps, contexts and notes that fail to allocate when they grow. They take all the memory that the process
//! can get, so they are run as they are proved, by `rt test` or `rt ci`, and not by `rt try`.
#![tactic(auto)]

#[cfg(test)]
mod growing;
