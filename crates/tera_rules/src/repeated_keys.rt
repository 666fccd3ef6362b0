//! The rule `repeated-key`.

ghost use Rattle.std.specs.Prelude.{◌≡◌, ◌++◌, map, OnOk};
ghost use Rattle.tera_tree.specs.Parts.{part_view};
ghost use Rattle.tera_findings.specs.Findings.{finding_view};
ghost use Rattle.tera_rules.specs.RepeatedKeys.{repeated_keys};

use crate::repeated::{Holder, push_repeated};
use std::alloc::{AllocError, Global};
use tera_findings::Finding;
use tera_parser::ast::{Expression, Part};

/// Adds a finding for each value of a map whose key is written again after it in the map.
#[tactic(auto, using(crate::proofs::RulesLemmas::keys_of_map))]
pub(crate) fn push_repeated_keys(
    alloc: Global,
    findings: &mut Vec<Finding>,
    file: &str,
    part: Part<'_>,
) -> Result<(), AllocError>
    ensures { OnOk result (map finding_view findings.new.items ≡ map finding_view findings.old.items
        ++ repeated_keys file.now (part_view part.entry)) }
{
    if let Part::Expression(Expression::Map(map)) = part {
        return push_repeated(alloc, findings, file, Holder::Map, &map.node().entries);
    }
    Ok(())
}
