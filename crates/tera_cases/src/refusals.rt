//! Answers that are computed again while allocations fail.

use crate::answers::{answer, is_template, of_tree};
use crate::faces::equals_its_copy;
use crate::settings::Setting;
use crate::trees::{Use, read};
use scarce_memory::{Attempt, Seen, Verdict, refuse};
use std::alloc::{AllocError, Global};
use tera_base::Error;
use tera_parser::ParserOutput;

// A source, and the answer that it has with ample memory.
#[derive(Drop)]
struct Asked<'a> {
    setting: &'a Setting<'a>,
    source: &'a str,
    expected: &'a str,
}

/// What is wrong with the answers to the source while allocations fail, if anything is.
pub(crate) fn wrong_refusals<'x>(
    alloc: Global,
    setting: &'x Setting<'x>,
    source: &'x str,
    expected: &'x str,
) -> Result<Option<&'static str>, AllocError> {
    let asked = Asked {
        setting,
        source,
        expected,
    };
    if let Some(what) = wrong(refuse(alloc, &asked)?) {
        return Ok(Some(what));
    }
    if is_template(setting.options.shown) {
        read(alloc, setting, source, &asked)
    } else {
        Ok(None)
    }
}

fn wrong(verdict: Verdict) -> Option<&'static str> {
    match verdict {
        Verdict::Refused(0) => Some("an answer that asks for no memory"),
        Verdict::Refused(_) => None,
        Verdict::Other(_) => Some("another answer where memory is refused"),
        Verdict::NeverUsual => Some("no answer, however much memory there is"),
    }
}

// The source is read, and what is wanted of it shown.
impl Attempt for Asked<'_> {
    fn attempt(&self, alloc: Global) -> Seen {
        match answer(alloc, self.setting, self.source) {
            Ok(found) => Seen::answer(found.as_str() == self.expected),
            Err(_) => Seen::Memory,
        }
    }
}

// The tree that was read with ample memory is shown, beside a copy that was made before.
impl Use for Asked<'_> {
    type Made = Option<&'static str>;

    fn of_tree(
        &self,
        alloc: Global,
        output: &ParserOutput,
    ) -> Result<Option<&'static str>, AllocError> {
        match output.clone() {
            Ok(before) => shown_again(alloc, self, output, &before),
            Err(error) => Err(error),
        }
    }

    fn of_fault(&self, _alloc: Global, _error: &Error) -> Result<Option<&'static str>, AllocError> {
        Ok(None)
    }
}

fn shown_again<'x>(
    alloc: Global,
    asked: &'x Asked<'x>,
    output: &'x ParserOutput,
    before: &'x ParserOutput,
) -> Result<Option<&'static str>, AllocError> {
    let kept = Kept {
        asked,
        output,
        before,
    };
    Ok(wrong(refuse(alloc, &kept)?))
}

// A tree that stays as it was.
#[derive(Drop)]
struct Kept<'a> {
    asked: &'a Asked<'a>,
    output: &'a ParserOutput,
    before: &'a ParserOutput,
}

impl Attempt for Kept<'_> {
    fn attempt(&self, alloc: Global) -> Seen {
        let is_copied = equals_its_copy(self.output);
        let found = of_tree(alloc, self.asked.setting, self.output);
        if self.output != self.before {
            return Seen::Other;
        }
        match (is_copied, found) {
            (Ok(is_copied), Ok(found)) => {
                Seen::answer(is_copied && found.as_str() == self.asked.expected)
            }
            _ => Seen::Memory,
        }
    }
}
