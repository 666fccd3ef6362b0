//! Shows the tree of a template: `tera_show [FILE]`.
#![tactic(auto)]

use std::fs::File;
use std::process::ExitCode;
use std::{env, io};
use tera_show::{Outcome, ShowFault, show, status};

// Shows the file, or standard input without one.
fn answer_of(rt: &HostRuntime, file: Option<String>) -> Result<Outcome, ShowFault> {
    let Some(path) = file else {
        return show(rt.alloc(), &mut rt.stdin(), &mut io::writer(rt));
    };
    match File::open(rt, path) {
        Ok(mut opened) => show(rt.alloc(), &mut opened, &mut io::writer(rt)),
        Err(error) => Err(fault_of(&error)),
    }
}

fn fault_of(error: &io::Error) -> ShowFault {
    if error.kind() == io::ErrorKind::OutOfMemory {
        ShowFault::Memory
    } else {
        ShowFault::Read
    }
}

// Says on standard error why nothing, or not all, was shown.
fn print_error(rt: &HostRuntime, answer: &Result<Outcome, ShowFault>) {
    let _ = match answer {
        Ok(_) => Ok(()),
        Err(ShowFault::Memory) => eprintln!(rt; "out of memory"),
        Err(ShowFault::Read) => eprintln!(rt; "reading failed"),
        Err(ShowFault::Write) => eprintln!(rt; "writing failed"),
    };
}

// The status that the program ends with.
fn run(rt: &HostRuntime) -> u8 {
    let answer = match env::args(rt) {
        Ok(mut words) => {
            if words.len() > 2 {
                let _ = eprintln!(rt; "usage: tera_show [FILE]");
                return 5;
            }
            let _ = words.next();
            answer_of(rt, words.next())
        }
        // An argument that is not text names no file that could be opened.
        Err(error) => Err(fault_of(&error)),
    };
    print_error(rt, &answer);
    status(&answer)
}

fn main(rt: HostRuntime) -> ExitCode {
    ExitCode::from(run(&rt))
}
