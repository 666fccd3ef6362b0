//! Why an expression is not written.

ghost use Rattle.tera_source.specs.Unwritten.{IsMemory};

use std::alloc::AllocError;

/// Memory is short, or a component is called with a body in the expression.
pub(crate) enum Refusal {
    Memory,
    Body,
}

impl From<AllocError> for Refusal {
    ghost from_gives = { λ _ refusal. IsMemory refusal };

    fn from(_error: AllocError) -> Refusal {
        Refusal::Memory
    }
}
