//! Sections of a file, their cases, and what may be wrong with a file.

use crate::options::Options;
use std::alloc::{AllocError, AllocFailed};

/// Cases under a title, which share their options.
#[derive(Drop)]
pub struct Section {
    /// What is written after the mark of a title.
    pub title: String,
    /// The line of the title, from 1.
    pub line: usize,
    pub options: Options,
    pub cases: Vec<Case>,
}

/// A source, and what is wanted of it.
#[derive(Drop)]
pub struct Case {
    /// The line on which the source begins, from 1.
    pub line: usize,
    pub source: String,
    /// The answer, without the line feed at its end.
    pub expected: String,
}

/// Why the cases of a file were not read.
#[derive(Clone, Copy, Debug, PartialEq, Eq)]
pub enum CaseError {
    Memory,
    /// What is wrong, and on which line.
    Wrong { line: usize, what: &'static str },
}

impl From<AllocError> for CaseError {
    fn from(_error: AllocError) -> CaseError {
        CaseError::Memory
    }
}

impl<T: Drop> From<AllocFailed<T>> for CaseError {
    fn from(_error: AllocFailed<T>) -> CaseError {
        CaseError::Memory
    }
}

/// The error that this is wrong on the line.
pub(crate) fn wrong<T>(line: usize, what: &'static str) -> Result<T, CaseError> {
    Err(CaseError::Wrong { line, what })
}
