//! Does a job of those that people wait for, over sources that it makes, and prints a digest of what comes of it:
//! `tera_workloads JOB COUNT SEED`.
//!
//! In the order of reading: `jobs`; `pages`, `libraries` and `awkward`, the sources, over `expressions` and `pen`;
//! `outputs` and `digest`; `draws`.
#![tactic(auto)]

mod awkward;
mod digest;
mod draws;
mod expressions;
mod jobs;
mod libraries;
mod outputs;
mod pages;
mod pen;

use crate::jobs::{Job, done};
use std::env;
use std::process::ExitCode;

/// What is asked: a job, how often it is done, and the seed of its sources.
#[derive(Clone, Copy)]
struct Asked {
    job: Job,
    count: u64,
    seed: u64,
}

fn job_of(word: &str) -> Option<Job> {
    match word {
        "read" => Some(Job::Read),
        "read_tops" => Some(Job::ReadTops),
        "format" => Some(Job::Format),
        "check" => Some(Job::Check),
        "hand_on" => Some(Job::HandOn),
        "list" => Some(Job::List),
        "awkward" => Some(Job::Awkward),
        "all" => Some(Job::All),
        _ => None,
    }
}

fn asked_of(rt: &HostRuntime) -> Option<Asked> {
    let mut words = env::args(rt).ok()?;
    let _program = words.next();
    let job = words.next()?;
    let count = words.next()?;
    let seed = words.next()?;
    Some(Asked {
        job: job_of(job.as_str())?,
        count: count.as_str().parse::<u64>().ok()?,
        seed: seed.as_str().parse::<u64>().ok()?,
    })
}

// The status: 2 where nothing that is known is asked, 1 if an allocation fails or nothing can be written.
fn run(rt: &HostRuntime) -> u8 {
    let Some(Asked { job, count, seed }) = asked_of(rt) else {
        let _ = eprintln!(rt;
            "usage: tera_workloads read|read_tops|format|check|hand_on|list|awkward|all COUNT SEED"
        );
        return 2;
    };
    let Ok(digest) = done(rt.alloc(), job, count, seed) else {
        let _ = eprintln!(rt; "tera_workloads: out of memory");
        return 1;
    };
    match println!(rt; "{digest:016x}") {
        Ok(()) => 0,
        Err(_) => 1,
    }
}

fn main(rt: HostRuntime) -> ExitCode {
    ExitCode::from(run(&rt))
}
