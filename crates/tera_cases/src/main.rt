//! Compares what the parser answers, what places and edits of texts are, and what is reported for streams of messages,
//! with files of cases: `tera_cases FILE..`.
//!
//! `docs/CASES.md` says what is in a file.
#![tactic(auto)]

mod answers;
mod beginnings;
mod contexts;
mod cursors;
mod edits;
mod faces;
mod faults;
mod frames;
mod fronts;
mod kept;
mod layouts;
mod parameters;
mod places;
mod refusals;
mod settings;
mod shown;
mod soundness;
mod spans;
mod subject;
mod tokens;
mod trees;
mod words;
mod written;

use crate::subject::{Count, Stop, compare_all};
use case_files::{CaseError, read_cases};
use std::process::ExitCode;
use std::{env, fs};

// How a run ended.
#[derive(Clone, Copy)]
enum End {
    // Each answer is the expected one.
    Equal,
    // Some answer is not.
    Different,
    // A file is not a file of cases, or something failed.
    Stopped,
}

// Says on standard error why the file was not compared to its end.
fn print_stop(rt: &HostRuntime, file: &str, stop: Stop) -> End {
    let _ = match stop {
        Stop::Memory => eprintln!(rt; "{file}: out of memory"),
        Stop::Read => eprintln!(rt; "{file}: it cannot be read"),
        Stop::Write => eprintln!(rt; "{file}: writing failed"),
        Stop::Wrong { line, what } => eprintln!(rt; "{file}:{line}: {what}"),
    };
    End::Stopped
}

// Compares the cases of the file, and prints how many they are.
fn compared(rt: &HostRuntime, file: &str) -> Result<Count, Stop> {
    let Ok(text) = fs::read_to_string(rt, file) else {
        return Err(Stop::Read);
    };
    let sections = match read_cases(rt.alloc(), text.as_str()) {
        Ok(sections) => sections,
        Err(CaseError::Memory) => return Err(Stop::Memory),
        Err(CaseError::Wrong { line, what }) => return Err(Stop::Wrong { line, what }),
    };
    let count = compare_all(rt, file, &sections)?;
    let Count {
        cases,
        beginnings,
        different: _,
    } = count;
    match println!(rt; "{file}: {cases} cases, {beginnings} beginnings") {
        Ok(()) => Ok(count),
        Err(_) => Err(Stop::Write),
    }
}

fn end_of(rt: &HostRuntime, file: &str) -> End {
    match compared(rt, file) {
        Ok(count) if count.different == 0 => End::Equal,
        Ok(_) => End::Different,
        Err(stop) => print_stop(rt, file, stop),
    }
}

// The status that the program ends with: 1 where an answer differs, 2 where something stopped it.
fn run(rt: &HostRuntime) -> u8 {
    let Ok(mut words) = env::args(rt) else {
        return 2;
    };
    let _program = words.next();
    let mut status = 0;
    for file in words {
        match end_of(rt, file.as_str()) {
            End::Equal => (),
            End::Different => status = 1,
            End::Stopped => return 2,
        }
    }
    status
}

fn main(rt: HostRuntime) -> ExitCode {
    ExitCode::from(run(&rt))
}
