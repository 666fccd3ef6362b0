//! What a template is read with.

ghost use Rattle.tera_expr_parts.specs.Allowed.{AreValid, limits_of};

use tera_expr_parts::{Limits, Scope};

/// What stays the same while an item of the top level is read.
#[derive(Drop)]
pub struct Setting<'a> {
    /// What the template is read within.
    pub limits: Limits,
    /// The template that is extended, as far as it is known.
    pub parent: Option<&'a str>,
    /// That [`Limits::valid`] accepts these.
    pub ghost valid: { AreValid (limits_of limits) },
}

impl Setting<'_> {
    ghost use Rattle.std.specs.Prelude.{◌≡◌};

    /// Where an expression is, in a loop or not.
    pub fn scope(&self, in_loop: bool) -> Scope
        ensures in_loop { result.in_loop ≡ in_loop }
        ensures limits { result.limits ≡ self.now.limits }
    {
        Scope {
            in_loop,
            limits: self.limits,
        }
    }
}
