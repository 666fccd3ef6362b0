//! The rules that look at one part of a tree by itself.
//!
//! Each is a module, with specs of the same name: it takes a part, and adds what it finds there. `push_found_in` has a
//! line for each.

ghost use Rattle.std.specs.Prelude.{◌≡◌, ◌∷◌, [], ◌++◌, map, OnOk};
ghost use Rattle.std.specs.List.{flat_map};
ghost use Rattle.tera_tree.specs.Outputs.{output_view};
ghost use Rattle.tera_tree.specs.Parts.{part_view, parts_view};
ghost use Rattle.tera_findings.specs.Findings.{finding_view};
ghost use Rattle.tera_rules.specs.RepeatedConditions.{IsKept, IsKeptFor, kept, nexts_after, nexts_of};
ghost use Rattle.tera_rules.specs.Rules.{part_findings, small_findings};
ghost use Rattle.tera_rules.specs.Within.{all_parts};

use crate::repeated_conditions::{Chain, push_repeated_conditions};
use crate::repeated_keys::push_repeated_keys;
use std::alloc::{AllocError, Global};
use tera_findings::Finding;
use tera_parser::ParserOutput;
use tera_parser::ast::{Part, Parts, top_parts};

/// Adds what these rules find in the tree. A tree of more parts than a `u64` counts, which no memory holds, gives an
/// allocation failure.
pub fn push_all_small(
    alloc: Global,
    findings: &mut Vec<Finding>,
    file: &str,
    output: &ParserOutput,
) -> Result<(), AllocError>
    ensures { OnOk result (map finding_view findings.new.items ≡ map finding_view findings.old.items
        ++ small_findings file.now (output_view output.now)) }
{
    let mut left = top_parts(alloc, &output.component_definitions, &output.nodes)?;
    let mut chain = Chain::none(alloc);
    for _part in 0..u64::MAX {
        match left.pop() {
            Some(part) => take(alloc, findings, file, &mut chain, &mut left, part)?,
            None => return Ok(()),
        }
    }
    Err(AllocError)
}

// Adds what these rules find in the part, and puts the parts inside it on the list.
#[tactic(auto, using(crate::proofs::RulesLemmas::taken))]
fn take<'a>(
    alloc: Global,
    findings: &mut Vec<Finding>,
    file: &str,
    chain: &mut Chain<'a>,
    left: &mut Parts<'a>,
    part: Part<'a>,
) -> Result<(), AllocError>
    requires { IsKept (kept chain.old) (nexts_of (part_view part)) }
    ensures chain { OnOk result (IsKeptFor chain.new (parts_view left.new.items)) }
    ensures findings { OnOk result (map finding_view findings.new.items
        ++ flat_map (part_findings file.now) (all_parts (parts_view left.new.items))
        ≡ map finding_view findings.old.items
        ++ flat_map (part_findings file.now) (all_parts (parts_view left.old.items ++ (part_view part.entry ∷ [])))) }
{
    push_found_in(alloc, findings, file, chain, part)?;
    part.push_inside(left)
}

// Adds what each rule finds in the part.
fn push_found_in<'a>(
    alloc: Global,
    findings: &mut Vec<Finding>,
    file: &str,
    chain: &mut Chain<'a>,
    part: Part<'a>,
) -> Result<(), AllocError>
    requires { IsKept (kept chain.old) (nexts_of (part_view part)) }
    ensures chain { OnOk result (IsKept (kept chain.new) (nexts_after (part_view part.entry))) }
    ensures findings { OnOk result (map finding_view findings.new.items ≡ map finding_view findings.old.items
        ++ part_findings file.now (part_view part.entry)) }
{
    push_repeated_keys(alloc, findings, file, part)?;
    push_repeated_conditions(alloc, findings, file, chain, part)
}
