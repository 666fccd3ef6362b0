//! What holds of each tree that is read, beside that it is the one that is wanted.

use crate::faces::broken;
use crate::kept::are_kept;
use crate::settings::Setting;
use crate::trees::{Use, read};
use std::alloc::{AllocError, Global};
use tera_base::Error;
use tera_parser::ParserOutput;

/// Whether a source has a tree, and all that has to hold of it does.
#[derive(Clone, Copy)]
pub(crate) enum Soundness {
    NoTree,
    Sound,
    /// What does not hold.
    Broken(&'static str),
}

/// Whether the source has such a tree.
pub(crate) fn soundness_of(
    alloc: Global,
    setting: &Setting<'_>,
    source: &str,
) -> Result<Soundness, AllocError> {
    read(alloc, setting, source, &Sounding { setting })
}

#[derive(Drop)]
struct Sounding<'a> {
    setting: &'a Setting<'a>,
}

impl Use for Sounding<'_> {
    type Made = Soundness;

    fn of_tree(&self, alloc: Global, output: &ParserOutput) -> Result<Soundness, AllocError> {
        of_tree(alloc, self.setting, output)
    }

    fn of_fault(&self, _alloc: Global, _error: &Error) -> Result<Soundness, AllocError> {
        Ok(Soundness::NoTree)
    }
}

fn of_tree(
    alloc: Global,
    setting: &Setting<'_>,
    output: &ParserOutput,
) -> Result<Soundness, AllocError> {
    if let Some(what) = broken(alloc, output)? {
        return Ok(Soundness::Broken(what));
    }
    if are_kept(alloc, setting, output)? {
        Ok(Soundness::Sound)
    } else {
        let what = "an expression whose source text is not read as it";
        Ok(Soundness::Broken(what))
    }
}
