//! A tree with faults, as JSON.

ghost use Rattle.std.specs.Prelude.{◌≡◌, map, option_map, string_bytes, IfOk};
ghost use Rattle.json_members.specs.Written.{Puts};
ghost use Rattle.tera_findings.specs.Findings.{finding_view};
ghost use Rattle.tera_templates.specs.Templates.{tree_of};
ghost use Rattle.tera_tree.specs.Outputs.{output_view};
ghost use Rattle.tera_report.specs.Trees.{IsTreeLine, faults_member, has_more, tree_object, tree_tokens};

use crate::sarif::begin_array;
use json::{Token, Writer};
use json_members::put_tokens;
use std::alloc::{AllocError, Global};
use tera_check::{Finding, Template, faults_of, put_object, tree_of};
use tera_tree_json::put_tree;

/// The tree of the template, or of what it is read as, and its faults: an object of JSON on a line. Its members are
/// `tree`, which is null if there is none; `faults`, the objects of `tera_check` in the order of their places; and
/// `more`, whether there are more faults than these.
pub fn tree_line_of(alloc: Global, template: &Template) -> Result<Vec<u8>, AllocError>
    ensures { IfOk result (λ v. IsTreeLine template.now v.items) }
{
    let faults = faults_of(alloc, template)?;
    let mut out = Writer::new(Vec::new(alloc));
    put_tree_object(&mut out, template, &faults)?;
    let mut line = out.into_inner();
    line.push(b'\n')?;
    Ok(line)
}

#[tactic(auto, unfolding(crate::specs::Trees::tree_object))]
fn put_tree_object(
    out: &mut Writer,
    template: &Template,
    faults: &Vec<Finding>,
) -> Result<(), AllocError>
    ensures { Puts result out.old out.new
        (tree_object (string_bytes template.now.file) (option_map output_view (tree_of template.now))
        (map finding_view faults.now.items) (has_more template.now)) }
{
    put_tokens(out, &[Token::BeginObject, Token::Key("tree")])?;
    put_tree_or_null(out, template)?;
    put_faults(out, template.file.as_str(), faults)?;
    put_tokens(
        out,
        &[
            Token::Key("more"),
            Token::Bool(has_more(template)),
            Token::EndObject,
        ],
    )
}

fn put_tree_or_null(out: &mut Writer, template: &Template) -> Result<(), AllocError>
    ensures { Puts result out.old out.new
        (tree_tokens (option_map output_view (tree_of template.now))) }
{
    match tree_of(template) {
        Some(output) => put_tree(out, output),
        None => out.null(),
    }
}

fn put_faults(out: &mut Writer, file: &str, faults: &Vec<Finding>) -> Result<(), AllocError>
    ensures { Puts result out.old out.new
        (faults_member file.now (map finding_view faults.now.items)) }
{
    begin_array(out, "faults")?;
    for fault in faults {
        put_object(out, file, fault)?;
    }
    out.end_array()
}

// Whether it has more faults than are known.
fn has_more(template: &Template) -> bool
    ensures { result ≡ has_more template.now }
{
    match (&template.parsed, &template.mended) {
        (Ok(_), _) => false,
        (Err(_), Some(mended)) => mended.cut,
        (Err(_), None) => true,
    }
}
