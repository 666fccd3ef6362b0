//! The program `tera`, which works on templates.
#![tactic(auto)]

use std::io::IsTerminal;
use std::process::ExitCode;
use tera_program::{Terminals, run};

fn main(rt: HostRuntime) -> ExitCode {
    let terminals = Terminals {
        out: rt.stdout().is_terminal(),
        err: rt.stderr().is_terminal(),
    };
    ExitCode::from(run(&rt, terminals))
}
