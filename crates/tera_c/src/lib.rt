//! The parser for other languages: a static library. It writes the text of a template's tree, its JSON, or the text of
//! its fault into a buffer of the caller's.
//!
//! Each call takes a source, limits, and six markers of two bytes, one after the other. It parses the source and
//! returns the number of a [`Status`]. `WritesTree`, `WritesJson`, `WritesFault` and `WritesNote` say what is then in
//! the buffer, and what else is returned, in the terms of `tera_parser`, `tera_tree_text` and `tera_tree_json`, on
//! which it depends.
//!
//! In the order of reading: `status` and `shapes`, the types; specs `Statuses`, what a buffer holds, `Asked`, what can
//! be read, and `Results`. Then `buffer`; `markers`; `parsed`, with specs `WithoutTree`; `trees`; `faults`; `layouts`,
//! with specs `Layouts`; `files`, with specs `Files`; `findings` and `components`, with specs `FilesTogether`; `mended`,
//! with specs `TreesWithFaults`.
#![tactic(auto)]

mod buffer;
mod components;
mod faults;
mod files;
mod findings;
mod layouts;
mod markers;
mod mended;
mod parsed;
mod shapes;
mod status;
mod trees;

ghost use Rattle.std.specs.Prelude.{◌≡◌};
ghost use Rattle.tera_c.specs.Asked.{limits_at};
ghost use Rattle.tera_c.specs.FilesTogether.{WritesFindings, WritesComponents};
ghost use Rattle.tera_c.specs.Layouts.{WritesLayout};
ghost use Rattle.tera_c.specs.Statuses.{number_of};
ghost use Rattle.tera_c.specs.Results.{WritesTree, WritesJson, WritesFault, WritesNote};
ghost use Rattle.tera_c.specs.TreesWithFaults.{WritesTreeLine};

use buffer::{put, put_bytes};
use components::components_in;
use faults::{put_fault, put_note};
use findings::findings_in;
use layouts::layout_of;
use mended::tree_line_in;
use parsed::{Refusal, parsed};
pub use shapes::{AskedFile, AskedLimits, Fault, Place};
pub use status::Status;
use std::alloc::Global;
use trees::{json_of, tree_of};

/// Writes the text of the tree of the source.
///
/// What is needed is reported in any case, and 0 where nothing is to be written.
#[unsafe(no_mangle)]
pub extern "C" fn tera_c_tree(
    alloc: Global,
    source: &[u8],
    markers: &[u8],
    limits: &AskedLimits,
    text: &mut [u8],
    needed: &mut usize,
) -> u32
    ensures { (status : Status) × (result ≡ number_of status)
        × WritesTree (limits_at limits.now) markers.now source.now status
        text.old text.new needed.new }
{
    *needed = 0;
    match tree_of(alloc, source, markers, limits) {
        Ok(tree) => put(tree.as_str(), text, needed).number(),
        Err(status) => status.number(),
    }
}

/// Writes the JSON of the tree of the source.
///
/// What is needed is reported in any case, and 0 where nothing is to be written.
#[unsafe(no_mangle)]
pub extern "C" fn tera_c_json(
    alloc: Global,
    source: &[u8],
    markers: &[u8],
    limits: &AskedLimits,
    text: &mut [u8],
    needed: &mut usize,
) -> u32
    ensures { (status : Status) × (result ≡ number_of status)
        × WritesJson (limits_at limits.now) markers.now source.now status
        text.old text.new needed.new }
{
    *needed = 0;
    match json_of(alloc, source, markers, limits) {
        Ok(json) => put(json.as_str(), text, needed).number(),
        Err(status) => status.number(),
    }
}

/// Writes the text of the fault of the source, and says where it is and how many notes it has.
///
/// Both are reported also where the buffer is too short for the text.
#[unsafe(no_mangle)]
pub extern "C" fn tera_c_fault(
    alloc: Global,
    source: &[u8],
    markers: &[u8],
    limits: &AskedLimits,
    text: &mut [u8],
    needed: &mut usize,
    fault: &mut Fault,
) -> u32
    ensures { (status : Status) × (result ≡ number_of status)
        × WritesFault (limits_at limits.now) markers.now source.now status
        text.old text.new needed.new fault.old fault.new }
{
    *needed = 0;
    match parsed(alloc, source, markers, limits) {
        Ok(_) => Status::Nothing.number(),
        Err(Refusal::Fault(report)) => put_fault(&report, text, needed, fault).number(),
        Err(Refusal::NoResult(status)) => status.number(),
    }
}

/// Writes the label of the note of this number, from 0, of the fault of the source, and says where it is.
///
/// It is about the source.
#[unsafe(no_mangle)]
pub extern "C" fn tera_c_note(
    alloc: Global,
    source: &[u8],
    markers: &[u8],
    limits: &AskedLimits,
    index: usize,
    text: &mut [u8],
    needed: &mut usize,
    place: &mut Place,
) -> u32
    ensures { (status : Status) × (result ≡ number_of status)
        × WritesNote (limits_at limits.now) markers.now source.now index status
        text.old text.new needed.new place.old place.new }
{
    *needed = 0;
    match parsed(alloc, source, markers, limits) {
        Ok(_) => Status::Nothing.number(),
        Err(Refusal::Fault(report)) => put_note(&report, index, text, needed, place).number(),
        Err(Refusal::NoResult(status)) => status.number(),
    }
}

/// Writes the layout of the source.
///
/// What is needed is reported in any case, and 0 where nothing is to be written.
#[unsafe(no_mangle)]
pub extern "C" fn tera_c_format(
    alloc: Global,
    source: &[u8],
    markers: &[u8],
    text: &mut [u8],
    needed: &mut usize,
) -> u32
    ensures { (status : Status) × (result ≡ number_of status)
        × WritesLayout markers.now source.now status text.old text.new needed.new }
{
    *needed = 0;
    match layout_of(alloc, source, markers) {
        Ok(layout) => put(layout.as_str(), text, needed).number(),
        Err(status) => status.number(),
    }
}

/// Writes what is found in the files, an object of JSON a line: at most so many faults of each. The files after the first
/// `checked` are a library: of them the faults alone are found, and their components may be called.
///
/// What is needed is reported in any case, and 0 where nothing is to be written.
#[unsafe(no_mangle)]
pub extern "C" fn tera_c_check(
    alloc: Global,
    files: &[AskedFile<'_>],
    checked: usize,
    faults: usize,
    text: &mut [u8],
    needed: &mut usize,
) -> u32
    ensures { (status : Status) × (result ≡ number_of status)
        × WritesFindings checked faults files.now status text.old text.new needed.new }
{
    *needed = 0;
    match findings_in(alloc, files, checked, faults) {
        Ok(found) => put_bytes(found.as_slice(), text, needed).number(),
        Err(status) => status.number(),
    }
}

/// Writes the components that the files define, as an array of JSON.
///
/// What is needed is reported in any case, and 0 where nothing is to be written.
#[unsafe(no_mangle)]
pub extern "C" fn tera_c_components(
    alloc: Global,
    files: &[AskedFile<'_>],
    text: &mut [u8],
    needed: &mut usize,
) -> u32
    ensures { (status : Status) × (result ≡ number_of status)
        × WritesComponents files.now status text.old text.new needed.new }
{
    *needed = 0;
    match components_in(alloc, files) {
        Ok(found) => put_bytes(found.as_slice(), text, needed).number(),
        Err(status) => status.number(),
    }
}

/// Writes the tree of the file, whatever faults it has, and at most so many of these, as a line of JSON.
///
/// What is needed is reported in any case, and 0 where nothing is to be written.
#[unsafe(no_mangle)]
pub extern "C" fn tera_c_mend(
    alloc: Global,
    file: &AskedFile<'_>,
    faults: usize,
    text: &mut [u8],
    needed: &mut usize,
) -> u32
    ensures { (status : Status) × (result ≡ number_of status)
        × WritesTreeLine faults file.now status text.old text.new needed.new }
{
    *needed = 0;
    match tree_line_in(alloc, file, faults) {
        Ok(line) => put_bytes(line.as_slice(), text, needed).number(),
        Err(status) => status.number(),
    }
}
