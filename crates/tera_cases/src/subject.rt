//! The cases of one file, compared.

use crate::answers::answer;
use crate::beginnings::{Beginning, beginning_of};
use crate::places::wrong_place;
use crate::refusals::wrong_refusals;
use crate::settings::{Setting, setting_of, source_of_case};
use crate::soundness::{Soundness, soundness_of};
use crate::words::are_listed;
use case_files::{Case, Options, Section, Shown};
use std::alloc::AllocError;

/// How many cases were compared.
#[derive(Clone, Copy)]
pub(crate) struct Count {
    pub(crate) cases: u64,
    /// The beginnings of accepted sources that were read.
    pub(crate) beginnings: u64,
    pub(crate) different: u64,
}

/// Why a file was not compared to its end.
#[derive(Clone, Copy)]
pub(crate) enum Stop {
    Memory,
    Read,
    Write,
    Wrong { line: usize, what: &'static str },
}

impl From<AllocError> for Stop {
    fn from(_error: AllocError) -> Stop {
        Stop::Memory
    }
}

/// Compares each case of the sections, and prints each difference.
pub(crate) fn compare_all(
    rt: &HostRuntime,
    file: &str,
    sections: &Vec<Section>,
) -> Result<Count, Stop> {
    let mut count = Count {
        cases: 0,
        beginnings: 0,
        different: 0,
    };
    for section in sections {
        compare_section(rt, file, section, &mut count)?;
    }
    Ok(count)
}

fn compare_section(
    rt: &HostRuntime,
    file: &str,
    section: &Section,
    count: &mut Count,
) -> Result<(), Stop> {
    let Some(setting) = setting_of(rt.alloc(), file, &section.options)? else {
        let what = "markers or limits that no template can be read with";
        return Err(Stop::Wrong {
            line: section.line,
            what,
        });
    };
    compare_cases(rt, &setting, section, count)
}

fn compare_cases(
    rt: &HostRuntime,
    setting: &Setting<'_>,
    section: &Section,
    count: &mut Count,
) -> Result<(), Stop> {
    for case in &section.cases {
        count.cases = count.cases.saturating_add(1);
        if !compare(rt, setting, case, count)? {
            count.different = count.different.saturating_add(1);
        }
    }
    Ok(())
}

// Whether the answer is the one that is expected, and what else is asked of the case holds.
fn compare(
    rt: &HostRuntime,
    setting: &Setting<'_>,
    case: &Case,
    count: &mut Count,
) -> Result<bool, Stop> {
    let alloc = rt.alloc();
    let source = source_of_case(alloc, setting, case.source.as_str())?;
    let source = source.as_str();
    let found = answer(alloc, setting, source)?;
    let expected = case.expected.as_str();
    if found.as_str() != expected {
        return differs(rt, setting.file, case, source, found.as_str());
    }
    let options = setting.options;
    if options.refused {
        return match wrong_refusals(alloc, &*setting, source, expected)? {
            Some(what) => fails(rt, setting.file, case, what),
            None => Ok(true),
        };
    }
    if options.uncut || !is_cut(options.shown) {
        return Ok(true);
    }
    compare_tree(rt, setting, case, source, count)
}

// Whether the tree of the source, if it has one, is sound, the words of its tags are listed, and each beginning of the
// source has an answer.
fn compare_tree(
    rt: &HostRuntime,
    setting: &Setting<'_>,
    case: &Case,
    source: &str,
    count: &mut Count,
) -> Result<bool, Stop> {
    match soundness_of(rt.alloc(), setting, source)? {
        Soundness::NoTree => placed(rt, setting, case, source),
        Soundness::Broken(what) => fails(rt, setting.file, case, what),
        Soundness::Sound if !are_listed(rt.alloc(), setting, source)? => {
            let what = "a tag whose word is not among those of statements";
            fails(rt, setting.file, case, what)
        }
        Soundness::Sound => cut(rt, setting, case, source, count),
    }
}

// Whether the fault of the source is where it may be.
fn placed(
    rt: &HostRuntime,
    setting: &Setting<'_>,
    case: &Case,
    source: &str,
) -> Result<bool, Stop> {
    match wrong_place(rt.alloc(), setting, source)? {
        Some(what) => fails(rt, setting.file, case, what),
        None => Ok(true),
    }
}

// Whether each beginning of the source is read.
fn is_cut(shown: Shown) -> bool {
    matches!(
        shown,
        Shown::Tree | Shown::Ends | Shown::Spans | Shown::Beginnings | Shown::WrittenBack
    )
}

// Whether each beginning of the source is a template, or has a fault that is in it.
fn cut(
    rt: &HostRuntime,
    setting: &Setting<'_>,
    case: &Case,
    source: &str,
    count: &mut Count,
) -> Result<bool, Stop> {
    for at in 0..=source.len() {
        let Some(beginning) = source.get(..at) else {
            continue;
        };
        count.beginnings = count.beginnings.saturating_add(1);
        if let Beginning::Wrong = beginning_of(rt.alloc(), setting, beginning)? {
            return badly_cut(rt, setting.file, case, at);
        }
    }
    Ok(true)
}

fn differs(
    rt: &HostRuntime,
    file: &str,
    case: &Case,
    source: &str,
    found: &str,
) -> Result<bool, Stop> {
    let line = case.line;
    let expected = case.expected.as_str();
    match println!(rt; "{file}:{line}: {source:?}\n  expected {expected:?}\n  found    {found:?}") {
        Ok(()) => Ok(false),
        Err(_) => Err(Stop::Write),
    }
}

fn fails(rt: &HostRuntime, file: &str, case: &Case, what: &str) -> Result<bool, Stop> {
    let line = case.line;
    match println!(rt; "{file}:{line}: it has {what}") {
        Ok(()) => Ok(false),
        Err(_) => Err(Stop::Write),
    }
}

fn badly_cut(rt: &HostRuntime, file: &str, case: &Case, at: usize) -> Result<bool, Stop> {
    let line = case.line;
    let what = "neither a tree nor a fault that is in it";
    match println!(rt; "{file}:{line}: cut off after {at} bytes it has {what}") {
        Ok(()) => Ok(false),
        Err(_) => Err(Stop::Write),
    }
}
