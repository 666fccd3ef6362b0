//! The lexer, the parser and the writing of expressions for the benchmark in `bench`, which is not Rattle.
#![tactic(auto)]

use std::alloc::Global;
use tera_lexer::{Delimiters, tokenize};
use tera_parser::Parser;
use tera_source::source_of;
use tera_tree::Node;

/// How many tokens the source has, to its end or to its fault; none if it is not text.
#[unsafe(no_mangle)]
pub extern "C" fn tera_bench_tokens(alloc: Global, source: &[u8]) -> u64 {
    let Ok(text) = str::from_utf8(source) else {
        return 0;
    };
    let mut count = 0u64;
    for item in tokenize(alloc, text, Delimiters::default()) {
        if item.is_err() {
            return count;
        }
        count = count.wrapping_add(1);
    }
    count
}

/// How many bytes the source has if it is a text; none else.
#[unsafe(no_mangle)]
pub extern "C" fn tera_bench_text(source: &[u8]) -> u64 {
    match str::from_utf8(source) {
        Ok(text) => text.len() as u64,
        Err(_) => 0,
    }
}

/// How many nodes the tree of the source has at its top; none if it is refused or no text.
#[unsafe(no_mangle)]
pub extern "C" fn tera_bench_nodes(alloc: Global, source: &[u8]) -> u64 {
    let Ok(text) = str::from_utf8(source) else {
        return 0;
    };
    let parser = Parser::new(alloc, "input", text, Delimiters::default());
    match parser.parse() {
        Ok(output) => output.nodes.len() as u64,
        Err(_) => 0,
    }
}

/// How many bytes the source texts of the expressions at the top of the tree have, each written for itself; none if
/// the source is refused or no text.
#[unsafe(no_mangle)]
pub extern "C" fn tera_bench_written(alloc: Global, source: &[u8]) -> u64 {
    let Ok(text) = str::from_utf8(source) else {
        return 0;
    };
    let parser = Parser::new(alloc, "input", text, Delimiters::default());
    match parser.parse() {
        Ok(output) => written(alloc, &output.nodes),
        Err(_) => 0,
    }
}

fn written(alloc: Global, nodes: &Vec<Node>) -> u64 {
    let mut count = 0u64;
    for node in nodes {
        if let Node::Expression(e) = node
            && let Ok(text) = source_of(alloc, e)
        {
            count = count.wrapping_add(text.len() as u64);
        }
    }
    count
}
