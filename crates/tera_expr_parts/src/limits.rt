//! How far expressions may go.

ghost use Rattle.std.specs.Prelude.{◌≡◌, ◌⊎◌, ◌≤◌, true, false, IfErr, IfOk, Some, None};
ghost use Rattle.tera_base.specs.Errors.{IsMemory};
ghost use Rattle.tera_grammar.specs.expressions.Marks.{Not};
ghost use Rattle.tera_grammar.specs.expressions.Reading.Front.{begins};
ghost use Rattle.tera_grammar.specs.expressions.Reading.Rooms.{inside_array, inside_subscript};
ghost use Rattle.tera_grammar.specs.expressions.Reading.Whole.{widest};
ghost use Rattle.tera_expr_parts.specs.Allowed.{limits_of};
ghost use Rattle.tera_expr_parts.specs.Rooms.{Decides, lowered, room_of};
ghost use Rattle.tera_expect.specs.Taking.{Refuses, TookFirst};

use crate::faults::{too_complex, too_many_arrays, too_many_subscripts, uncounted_not};
use tera_base::Error;
use tera_lexer::Cursor;

/// The greatest numbers that a template may have.
///
/// The default is 40, 256, 4, 2 and 40.
#[derive(Clone, Copy, Debug, PartialEq, Eq)]
pub struct Limits {
    /// Expressions that are open one in another.
    pub depth: usize,
    /// Binary operators, tests, filters, and dots and subscripts of chains, of one outermost expression.
    pub links: usize,
    /// Subscripts that are open one in another.
    pub subscripts: usize,
    /// Arrays that are open one in another.
    pub arrays: usize,
    /// Bodies that are open one in another.
    pub bodies: usize,
}

impl Default for Limits {
    ghost use Rattle.std.specs.Prelude.{◌≡◌};
    ghost use Rattle.tera_grammar.specs.Limits.{usual};
    ghost use Rattle.tera_expr_parts.specs.Allowed.{AreValid, limits_of};

    ghost is_default = { λ l. (limits_of l ≡ usual) × AreValid (limits_of l) };

    fn default() -> Limits {
        Limits {
            depth: 40,
            links: 256,
            subscripts: 4,
            arrays: 2,
            bodies: 40,
        }
    }
}

impl Limits {
    ghost use Rattle.tera_expr_parts.specs.Allowed.{AreValid};

    /// Whether templates are read within these limits: each is at least 1, and they are at most 100, 4096, 16, 8
    /// and 100.
    pub fn valid(&self) -> bool
        ensures { Decides result (AreValid (limits_of self.now)) }
    {
        lies(self.depth, 100)
            && lies(self.links, 4096)
            && lies(self.subscripts, 16)
            && lies(self.arrays, 8)
            && lies(self.bodies, 100)
    }
}

// Whether the number is at least 1, and at most so great.
fn lies(n: usize, most: usize) -> bool
    ensures { Decides result ((1 ≤ n) × (n ≤ most)) }
{
    (1..=most).contains(&n)
}

/// Where an expression is, and how far it may go.
#[derive(Clone, Copy, Debug, PartialEq, Eq)]
pub struct Scope {
    /// Whether it is in the body of a loop, or is what a loop goes over.
    pub in_loop: bool,
    /// What the template is read within.
    pub limits: Limits,
}

/// What may still open inside of an expression, beside expressions.
#[derive(Clone, Copy)]
pub struct Room {
    /// Where the outermost expression is.
    pub scope: Scope,
    /// Subscripts, one in another.
    pub subscripts: usize,
    /// Arrays, one in another.
    pub arrays: usize,
}

impl Room {
    /// The room of an outermost expression.
    pub fn widest(scope: Scope) -> Room
        ensures room { room_of result ≡ widest (limits_of scope.limits) scope.in_loop }
        ensures scope { result.scope ≡ scope }
    {
        Room {
            scope,
            subscripts: scope.limits.subscripts,
            arrays: scope.limits.arrays,
        }
    }

    /// The room inside of a subscript, whose bracket was taken last.
    #[tactic(auto, unfolding(crate::specs::Unfold::inside_subscript))]
    pub fn in_subscript(self, cursor: &Cursor<'_>) -> Result<Room, Error>
        ensures opens { IfOk result (λ r.
            (inside_subscript (room_of self) ≡ Some (room_of r)) × (r.scope ≡ self.scope)) }
        ensures fails { IfErr result (λ e. IsMemory e ⊎ (inside_subscript (room_of self) ≡ None)) }
        ensures refusal { IfErr result (Refuses cursor.now cursor.now) }
    {
        if self.subscripts == 0 {
            return Err(too_many_subscripts(cursor, self.scope.limits.subscripts));
        }
        Ok(Room {
            subscripts: self.subscripts - 1,
            ..self
        })
    }

    /// The room of the items of an array, whose bracket was taken last.
    #[tactic(auto, unfolding(crate::specs::Unfold::inside_array))]
    pub fn in_array(self, cursor: &Cursor<'_>) -> Result<Room, Error>
        ensures opens { IfOk result (λ r.
            (inside_array (room_of self) ≡ Some (room_of r)) × (r.scope ≡ self.scope)) }
        ensures fails { IfErr result (λ e. IsMemory e ⊎ (inside_array (room_of self) ≡ None)) }
        ensures refusal { IfErr result (Refuses cursor.now cursor.now) }
    {
        if self.arrays == 0 {
            return Err(too_many_arrays(cursor, self.scope.limits.arrays));
        }
        Ok(Room {
            arrays: self.arrays - 1,
            ..self
        })
    }
}

/// Counts one link, after the token taken last, where one may still come.
pub fn count_link(cursor: &Cursor<'_>, links: &mut usize) -> Result<(), Error>
    ensures counts { IfOk result (λ _. lowered links.old ≡ Some links.new) }
    ensures fails { IfErr result (λ e. IsMemory e ⊎ (lowered links.old ≡ None)) }
    ensures refusal { IfErr result (Refuses cursor.now cursor.now) }
{
    if *links == 0 {
        return Err(too_complex(cursor));
    }
    *links -= 1;
    Ok(())
}

/// Counts the link of a binary operator, which comes next, where one may still come. Where none may, the `not` of a
/// `not in` is taken and reported about.
pub fn count_operator(
    cursor: &mut Cursor<'_>,
    links: &mut usize,
    negated: bool,
) -> Result<(), Error>
    ensures counts { IfOk result (λ _. lowered links.old ≡ Some links.new) }
    ensures fails { IfErr result (λ e. IsMemory e ⊎ (lowered links.old ≡ None)) }
    ensures refusal { IfErr result (Refuses cursor.old cursor.new) }
    ensures stays { IfOk result (λ _. cursor.new ≡ cursor.old) }
    ensures single { IfErr result (λ _. negated ≡ false → cursor.new ≡ cursor.old) }
    ensures takes { IfErr result (λ e. negated ≡ true → begins Not cursor.old.left ≡ true →
        IsMemory e ⊎ TookFirst cursor.old.left cursor.new.left) }
{
    if negated && *links == 0 {
        return Err(uncounted_not(cursor));
    }
    count_link(cursor, links)
}
