//! The texts of notes that say what a fault comes of.

ghost use Rattle.std.specs.Prelude.{◌≡◌, IfOk, string_bytes};
ghost use Rattle.tera_templates.specs.FaultFindings.{not_closed_text, closes_nothing_text, belongs_to_nothing_text, met_text};

use std::alloc::{AllocError, Global};

/// That nothing closes what the word opens.
pub(crate) fn not_closed(alloc: Global, word: &str) -> Result<String, AllocError>
    ensures { IfOk result (λ m. string_bytes m ≡ not_closed_text word.now) }
{
    format!(in alloc; "`{word}` opened here is not closed")
}

/// That the word closes nothing that is open.
pub(crate) fn closes_nothing(alloc: Global, word: &str) -> Result<String, AllocError>
    ensures { IfOk result (λ m. string_bytes m ≡ closes_nothing_text word.now) }
{
    format!(in alloc; "`{word}` closes nothing")
}

/// That nothing is open to which the word belongs.
pub(crate) fn belongs_to_nothing(alloc: Global, word: &str) -> Result<String, AllocError>
    ensures { IfOk result (λ m. string_bytes m ≡ belongs_to_nothing_text word.now) }
{
    format!(in alloc; "`{word}` matches no open tag")
}

/// Where a fault was met, if its tag has no end.
pub(crate) fn met_here(alloc: Global) -> Result<String, AllocError>
    ensures { IfOk result (λ m. string_bytes m ≡ met_text) }
{
    String::from_str(alloc, "found here, because the tag is not closed")
}
