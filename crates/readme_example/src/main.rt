//! The example of the README: the variables that templates show by themselves, each with its line, or where a template
//! is wrong: `readme_example FILE..`.
//!
//! `tools/readme_example` compares `print_variables` with the README.
#![tactic(auto)]

use std::{env, fs};
use tera_parser::Parser;
use tera_parser::ast::{Expression, Node};
use tera_parser::lexer::Delimiters;
use tera_parser::value::ErrorKind;

fn print_variables(rt: &HostRuntime, source: &str) {
    match Parser::new(rt.alloc(), "page.html", source, Delimiters::default()).parse() {
        Ok(output) => {
            for node in &output.nodes {
                if let Node::Expression(Expression::Var(variable)) = node {
                    let (name, line) = (variable.node().name.as_str(), variable.span().start_line);
                    let _ = println!(rt; "{name} on line {line}");
                }
            }
        }
        Err(error) => match error.kind {
            ErrorKind::SyntaxError(report) => {
                let (text, line) = (report.message.as_str(), report.span.start_line);
                let _ = println!(rt; "line {line}: {text}");
            }
            _ => {} // an allocation failed
        },
    }
}

fn main(rt: HostRuntime) {
    let Ok(mut words) = env::args(&rt) else {
        return;
    };
    let _program = words.next();
    for file in words {
        if let Ok(source) = fs::read_to_string(&rt, file.as_str()) {
            print_variables(&rt, source.as_str());
        }
    }
}
