//! The program `tera`: the job that its words ask for, done with the settings that count for it.
//!
//! It takes a runtime and returns the status with which the process ends (`run`), so the program consists of this call.
//! It depends on `tera_options` for the command line and the job, on `tera_program_parts` for what a file of settings
//! says and for the status, on `tera_jobs` for what a subcommand does, and on `tera_exchange` for `tera server`.
#![tactic(auto)]

ghost use Rattle.std.specs.Prelude.{◌≤◌};

use clap::Error;
use std::rt::{Env, Files};
use std::{env, io};
use tera_check::Registered;
use tera_exchange::server;
use tera_jobs::settings::site_of;
use tera_jobs::{check, components, explain, format, tree};
pub use tera_options::colours::Terminals;
use tera_options::job::Job;
use tera_options::options::command;
use tera_program_parts::output::{print_error, print_stopped};
use tera_program_parts::settings::{Words, print_unset};
use tera_program_parts::status::{Ended, status_of};

/// Does what the arguments of the process ask for, and returns the status: 0 if all was done and nothing but warnings
/// was found; 1 if an error was found, or with `--check` or `--diff` a file that would change; 2 if not all could be
/// done or reported.
pub fn run<R: Files + Env + Input + Print + Eprint + AllocGlobal + Clone + Drop>(
    rt: &R,
    terminals: Terminals,
) -> u8
    ensures { result ≤ 2 }
{
    match words_of(rt) {
        Ok(words) => run_words(rt, terminals, words.as_slice()),
        Err(error) => {
            print_error(rt, "tera", why(&error));
            2
        }
    }
}

// The words of the command line.
fn words_of<R: Env + AllocGlobal>(rt: &R) -> io::Result<Vec<String>> {
    let mut words = Vec::new(rt.alloc());
    for word in env::args(rt)? {
        words.push(word)?;
    }
    Ok(words)
}

fn why(error: &io::Error) -> &'static str {
    if error.kind() == io::ErrorKind::InvalidData {
        "an argument is not UTF-8"
    } else {
        "out of memory"
    }
}

fn run_words<R: Files + Env + Input + Print + Eprint + AllocGlobal + Clone + Drop>(
    rt: &R,
    terminals: Terminals,
    words: &[String],
) -> u8
    ensures { result ≤ 2 }
{
    match done(rt, terminals, words) {
        Ok(ended) => status_of(ended),
        Err(error) => print_answer(rt, &error),
    }
}

// Prints the error of the words, or the text that they ask for, and returns the status.
fn print_answer<R: Print + Eprint + AllocGlobal>(rt: &R, error: &Error) -> u8
    ensures { result ≤ 2 }
{
    let printed = error.print(rt);
    if error.use_stderr() {
        return 2;
    }
    match printed {
        Ok(()) => 0,
        Err(error) => {
            print_stopped(rt, error);
            2
        }
    }
}

// Does what the words ask for. The error is one of the words, or a text that they ask for.
fn done<R: Files + Env + Input + Print + Eprint + AllocGlobal + Clone + Drop>(
    rt: &R,
    terminals: Terminals,
    words: &[String],
) -> Result<Ended, Error> {
    let matches = command(rt.alloc())?.try_get_matches_from(words)?;
    let ended = match Job::of(&matches) {
        Some(job) if job.names_unread_input() => {
            let why = "--stdin-filename: standard input is not read, as no file is `-`";
            print_error(rt, "tera", why);
            Ended::failed()
        }
        Some(job) => run_configured(rt, terminals, job),
        None => Ended::failed(),
    };
    Ok(ended)
}

// Does the job with the settings that count for it.
fn run_configured<R: Files + Env + Input + Print + Eprint + AllocGlobal + Clone + Drop>(
    rt: &R,
    terminals: Terminals,
    job: Job<'_, '_>,
) -> Ended {
    let site = match site_of(rt, &job) {
        Ok(site) => site,
        Err(why) => {
            print_unset(rt, &why);
            return Ended::failed();
        }
    };
    match site.words(rt.alloc()) {
        Ok(words) => run_with(rt, terminals, job, &words),
        Err(_) => {
            print_error(rt, "tera", "out of memory");
            Ended::failed()
        }
    }
}

// Both have the same lifetimes here, and so have what they are made into.
fn run_with<'w, 's, R: Files + Env + Input + Print + Eprint + AllocGlobal + Clone + Drop>(
    rt: &R,
    terminals: Terminals,
    job: Job<'w, 's>,
    words: &'w Words<'s>,
) -> Ended {
    run_job(
        rt,
        terminals,
        job.with(words.defaults()),
        words.registered(),
    )
}

fn run_job<R: Files + Env + Input + Print + Eprint + AllocGlobal + Clone + Drop>(
    rt: &R,
    terminals: Terminals,
    job: Job<'_, '_>,
    registered: Option<&Registered<'_>>,
) -> Ended {
    match job {
        Job::Check(job) => check::run(rt, terminals, &job, registered),
        Job::Tree(job) => tree::run(rt, terminals, &job),
        Job::Components(job) => components::run(rt, terminals, &job),
        Job::Format(job) => format::run(rt, terminals, &job),
        Job::Explain(rule) => explain::run(rt, rule),
        Job::Server(markers) => server::run(rt, markers),
    }
}
