//! Tests of what no case can show: trees, tokens and expressions that are made by hand, outputs, and readers and writers
//! that fail.
//!
//! Of trees: `making`, with which they are made; `by_value`, `chains`, `components`, `json`, `parts`, `printed`, `types`.
//! Of the parser: `tokens`, and what comes after a fault; `made`, the source text of expressions; `outputs`; `names`;
//! `words`. Of `tera_show`: `streams` and `shown`.
#![tactic(auto)]

#[cfg(test)]
mod by_value;
#[cfg(test)]
mod chains;
#[cfg(test)]
mod components;
#[cfg(test)]
mod json;
#[cfg(test)]
mod made;
#[cfg(test)]
mod making;
#[cfg(test)]
mod names;
#[cfg(test)]
mod outputs;
#[cfg(test)]
mod parts;
#[cfg(test)]
mod printed;
#[cfg(test)]
mod shown;
#[cfg(test)]
mod streams;
#[cfg(test)]
mod tokens;
#[cfg(test)]
mod types;
#[cfg(test)]
mod words;
