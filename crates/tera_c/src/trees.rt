//! The text of a tree and its JSON, or why there is none.

ghost use Rattle.std.specs.Prelude.{◌≡◌, ◌⊎◌, IfOk, IfErr, string_bytes};
ghost use Rattle.tera_base.specs.ErrorView.{ReportVal};
ghost use Rattle.tera_tree.specs.Tree.{Output};
ghost use Rattle.tera_tree_json.specs.TreeJson.{json_text};
ghost use Rattle.tera_tree_text.specs.TreeText.{text_of};
ghost use Rattle.tera_c.specs.Asked.{limits_at};
ghost use Rattle.tera_c.specs.Results.{HasTree, HasFault, HasNoResult};

use crate::parsed::{Refusal, parsed};
use crate::shapes::AskedLimits;
use crate::status::Status;
use std::alloc::Global;
use tera_tree_json::tree_json;
use tera_tree_text::tree_text;

/// The text of the tree of the source, between the markers that are in these bytes.
pub(crate) fn tree_of(
    alloc: Global,
    source: &[u8],
    markers: &[u8],
    limits: &AskedLimits,
) -> Result<String, Status>
    ensures ok { IfOk result (λ text. (output : Output)
        × HasTree (limits_at limits.now) markers.now source.now output
        × (string_bytes text ≡ text_of output)) }
    ensures err { IfErr result (λ status.
        HasNoResult (limits_at limits.now) markers.now source.now status
        ⊎ ((status ≡ Status.Faulty) × ((report : ReportVal)
        × HasFault (limits_at limits.now) markers.now source.now report))) }
{
    match parsed(alloc, source, markers, limits) {
        Ok(output) => match tree_text(alloc, &output) {
            Ok(text) => Ok(text),
            Err(_) => Err(Status::Memory),
        },
        Err(Refusal::Fault(_)) => Err(Status::Faulty),
        Err(Refusal::NoResult(status)) => Err(status),
    }
}

/// The JSON of the tree of the source, between the markers that are in these bytes.
pub(crate) fn json_of(
    alloc: Global,
    source: &[u8],
    markers: &[u8],
    limits: &AskedLimits,
) -> Result<String, Status>
    ensures ok { IfOk result (λ text. (output : Output)
        × HasTree (limits_at limits.now) markers.now source.now output
        × (string_bytes text ≡ json_text output)) }
    ensures err { IfErr result (λ status.
        HasNoResult (limits_at limits.now) markers.now source.now status
        ⊎ ((status ≡ Status.Faulty) × ((report : ReportVal)
        × HasFault (limits_at limits.now) markers.now source.now report))) }
{
    match parsed(alloc, source, markers, limits) {
        Ok(output) => match tree_json(alloc, &output) {
            Ok(json) => Ok(json),
            Err(_) => Err(Status::Memory),
        },
        Err(Refusal::Fault(_)) => Err(Status::Faulty),
        Err(Refusal::NoResult(status)) => Err(status),
    }
}
