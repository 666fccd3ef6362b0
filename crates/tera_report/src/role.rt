//! The role of a message.

ghost use Rattle.std.specs.Prelude.{◌≡◌, IfOk, string_bytes};
ghost use Rattle.tera_report.specs.FullTexts.{colour_of, word_of, part_of};

use std::alloc::{AllocError, Global};
use tera_check::{Kind, Severity};
use terminal_text::Part;

/// A finding, a note that explains one, or a text that may have been meant.
#[derive(Clone, Copy)]
pub(crate) enum Role {
    /// A finding of this kind and severity.
    Finding(Kind, Severity),
    /// A note that explains a finding.
    Note,
    /// What may have been meant.
    Help,
}

impl Role {
    /// The word for it, with the rule of a finding.
    pub(crate) fn word(self, alloc: Global) -> Result<String, AllocError>
        ensures { IfOk result (λ word. string_bytes word ≡ word_of self) }
    {
        match self {
            Role::Finding(kind, severity) => kind.label(alloc, severity),
            Role::Note => String::from_str(alloc, "note"),
            Role::Help => String::from_str(alloc, "help"),
        }
    }

    /// The colour of it.
    pub(crate) fn part(self) -> Part
        ensures { result ≡ part_of self }
    {
        match self {
            Role::Finding(_, severity) => colour(severity),
            Role::Note | Role::Help => Part::Note,
        }
    }
}

fn colour(severity: Severity) -> Part
    ensures { result ≡ colour_of severity }
{
    match severity {
        Severity::Error => Part::Error,
        Severity::Warning => Part::Warning,
    }
}
