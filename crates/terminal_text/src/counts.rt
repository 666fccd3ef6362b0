//! How many of something there are.

ghost use Rattle.std.specs.Prelude.{◌≡◌, ◌==◌, if◌then◌else◌, [], codes, string_bytes, IfOk};
ghost use Rattle.terminal_text.specs.Counted.{counted as counted_text};

use std::alloc::{AllocError, Global};

/// The number with its noun, as `1 file` and `2 files`.
pub fn counted(alloc: Global, number: usize, noun: &str) -> Result<String, AllocError>
    ensures { IfOk result (λ t. string_bytes t ≡ counted_text number noun.now) }
{
    format!(in alloc; "{number} {noun}{}", plural(number))
}

// What the noun ends with.
fn plural(number: usize) -> &'static str
    ensures { result.now ≡ (if number == 1 then [] else codes "s") }
{
    if number == 1 { "" } else { "s" }
}
