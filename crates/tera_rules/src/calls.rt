//! The calls of components in a tree.

ghost use Rattle.std.specs.Prelude.{◌≡◌, ◌++◌, map, reverse, IfOk, OnOk};
ghost use Rattle.tera_tree.specs.Outputs.{output_view};
ghost use Rattle.tera_tree.specs.Parts.{part_view};
ghost use Rattle.tera_rules.specs.Calls.{calls_of};
ghost use Rattle.tera_rules.specs.Pending.{seen, calls_in_part, itself, to_come};

use std::alloc::{AllocError, Global};
use tera_parser::ParserOutput;
use tera_parser::ast::{ComponentCall, Expression, Part, Parts, top_parts};
use tera_parser::value::Spanned;

/// The calls of components in the tree, with a body or without: first those in the bodies of its definitions, then
/// those in its nodes. Each list is from left to right, and a call comes after the calls inside it. A tree of more
/// parts than a `u64` counts, which no memory holds, gives an allocation failure.
pub fn calls_of(
    alloc: Global,
    output: &ParserOutput,
) -> Result<Vec<&Spanned<ComponentCall>>, AllocError>
    ensures { IfOk result (λ v. map seen v.items ≡ calls_of (output_view output.now)) }
{
    let mut calls = Vec::new(alloc);
    let mut left = top_parts(alloc, &output.component_definitions, &output.nodes)?;
    for _part in 0..u64::MAX {
        match left.pop() {
            Some(part) => take(&mut calls, &mut left, part)?,
            None => return Ok(turned(calls)),
        }
    }
    Err(AllocError)
}

// The calls in reverse order.
fn turned<'a>(calls: Vec<&'a Spanned<ComponentCall>>) -> Vec<&'a Spanned<ComponentCall>>
    ensures { result.items ≡ reverse calls.entry.items }
{
    let mut calls = calls;
    calls.reverse();
    calls
}

// Adds the part if it is a call, and puts the parts inside it on the list. The calls are from right to left.
#[tactic(auto, using(crate::proofs::Pending::taken))]
fn take<'a>(
    calls: &mut Vec<&'a Spanned<ComponentCall>>,
    left: &mut Parts<'a>,
    part: Part<'a>,
) -> Result<(), AllocError>
    ensures { OnOk result (to_come left.new.items ++ reverse (map seen calls.new.items)
        ≡ to_come left.old.items ++ (calls_in_part (part_view part.entry)
        ++ reverse (map seen calls.old.items))) }
{
    push_itself(calls, part)?;
    part.push_inside(left)
}

// Adds the part if it is a call.
#[tactic(auto, using(crate::proofs::Pending::found_more, crate::proofs::Pending::itself_call))]
fn push_itself<'a>(
    calls: &mut Vec<&'a Spanned<ComponentCall>>,
    part: Part<'a>,
) -> Result<(), AllocError>
    ensures { OnOk result (reverse (map seen calls.new.items)
        ≡ itself (part_view part.entry) ++ reverse (map seen calls.old.items)) }
{
    if let Part::Expression(Expression::ComponentCall(call)) = part {
        calls.push(call)?;
    }
    Ok(())
}
