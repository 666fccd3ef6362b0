//! `tera explain`.

ghost use Rattle.std.specs.Prelude.{◌≡◌, ◌++◌, IfOk, IfSome, string_bytes};
ghost use Rattle.tera_findings.specs.Findings.{kind_name};
ghost use Rattle.tera_jobs.specs.Rules.{heading};

use std::alloc::{AllocError, Global};
use tera_check::{KINDS, Kind};
use tera_program_parts::explanations::{UNREAD, explanation};
use tera_program_parts::output::{print_error, put};
use tera_program_parts::status::Ended;

/// Prints the explanation of the rule of this name.
pub fn run<R: Print + Eprint + AllocGlobal>(rt: &R, rule: &str) -> Ended {
    match text_of(rt.alloc(), rule) {
        Ok(text) => Ended {
            found: false,
            failed: !put(rt, text.as_bytes()),
        },
        Err(_) => {
            print_error(rt, "tera", "out of memory");
            Ended::failed()
        }
    }
}

// The rule with its severity, and its section. A rule that is not a kind of findings is the one for files that could
// not be read.
fn text_of(alloc: Global, rule: &str) -> Result<String, AllocError> {
    match kind_named(rule) {
        Some(kind) => text_with(alloc, kind, explanation(kind)),
        None => format!(in alloc; "unread: error\n{UNREAD}"),
    }
}

fn text_with(alloc: Global, kind: Kind, section: &str) -> Result<String, AllocError>
    ensures { IfOk result (λ text. string_bytes text ≡ heading kind ++ section.now) }
{
    let (rule, severity) = (kind.name(), kind.severity().name());
    format!(in alloc; "{rule}: {severity}\n{section}")
}

/// The kind of findings with this name.
pub(crate) fn kind_named(word: &str) -> Option<Kind>
    ensures { IfSome result (λ kind. kind_name kind ≡ word.now) }
{
    for kind in &KINDS {
        if kind.name() == word {
            return Some(*kind);
        }
    }
    None
}
