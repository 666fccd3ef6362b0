//! A file that could not be read, in the forms of GitHub and of SARIF.

ghost use Rattle.std.specs.Prelude.{◌≡◌, ◌++◌, string_bytes, OnOk};
ghost use Rattle.json_members.specs.Written.{Puts};
ghost use Rattle.tera_report.specs.Unread.{unread_annotation, unread_result};

use crate::github::{command, push_message, push_property};
use crate::sarif::{put_locations, put_message};
use json::Writer;
use json_members::put_text;
use std::alloc::{AllocError, Global};
use tera_check::{Severity, first_span};

/// Adds the line `::error file=..,title=unread::WHY`.
pub fn push_unread_annotation(
    alloc: Global,
    to: &mut String,
    file: &str,
    why: &str,
) -> Result<(), AllocError>
    ensures { OnOk result (string_bytes to.new
        ≡ string_bytes to.old ++ unread_annotation file.now why.now) }
{
    to.push_str(command(Severity::Error))?;
    push_property(to, file)?;
    to.push_str(",title=unread::")?;
    push_message(alloc, to, why)?;
    to.push_str("\n")?;
    Ok(())
}

/// Adds a result of the rule `unread`. Its place is the start of the file.
#[tactic(auto, unfolding(crate::specs::Unread::unread_result))]
pub fn put_unread(alloc: Global, out: &mut Writer, file: &str, why: &str) -> Result<(), AllocError>
    ensures { Puts result out.old out.new (unread_result file.now why.now) }
{
    out.begin_object()?;
    put_text(out, "ruleId", "unread")?;
    put_text(out, "level", "error")?;
    put_message(out, why)?;
    put_locations(alloc, out, file, &first_span())?;
    out.end_object()
}
