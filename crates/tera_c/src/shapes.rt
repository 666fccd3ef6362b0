//! What is passed from and to other languages.

/// The greatest numbers that a template may have, as [`tera_parser::Limits`] has them.
#[repr(C)]
#[derive(Clone, Copy, Debug, PartialEq, Eq)]
pub struct AskedLimits {
    pub depth: usize,
    pub links: usize,
    pub subscripts: usize,
    pub arrays: usize,
    pub bodies: usize,
}

/// Where something is in its source: lines from 1, columns from 0 in characters, and the range in bytes.
#[repr(C)]
#[derive(Clone, Copy, Debug, PartialEq, Eq)]
pub struct Place {
    pub start_line: usize,
    pub start_column: usize,
    pub end_line: usize,
    pub end_column: usize,
    pub start: usize,
    pub end: usize,
}

/// Where a fault is, and how many notes it has.
#[repr(C)]
#[derive(Clone, Copy, Debug, PartialEq, Eq)]
pub struct Fault {
    pub place: Place,
    pub notes: usize,
}

/// A template and the name of its file, each as bytes of UTF-8.
#[repr(C)]
#[derive(Clone, Copy)]
pub struct AskedFile<'a> {
    pub name: &'a [u8],
    pub source: &'a [u8],
}
