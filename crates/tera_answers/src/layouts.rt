//! The layout of a text, as edits of its white space.

ghost use Rattle.std.specs.Prelude.{◌≡◌, ◌++◌, List, true, false, map, option_map, string_bytes, IfOk, OnOk};
ghost use Rattle.std.specs.List.{flat_map};
ghost use Rattle.json.specs.Json.{Json, array};
ghost use Rattle.json.specs.Tree.{json_tokens};
ghost use Rattle.json.specs.Value.{items_of};
ghost use Rattle.tera_layout.specs.Respaced.{without_white};
ghost use Rattle.tera_layout.specs.Steady.{is_steady};
ghost use Rattle.tera_lexer.specs.grammar.Marks.{IsValid, marks_of};
ghost use Rattle.text_edits.specs.Places.{AreLinesOf};
ghost use Rattle.tera_answers.specs.Layouts.{edit_json, edit_tokens, AreEdits, IsTemplate, IsLaidOut, IsLayout, IsLayoutIf};
ghost use Rattle.tera_outline.specs.declared.edits.Edit.{Edit as AnEdit};

use json::Writer;
use protocol_values::put_edit;
use std::alloc::{AllocError, Global};
use tera_base::ErrorKind;
use tera_check::read_template_between;
use tera_layout::{are_steady, format_between};
use tera_lexer::Delimiters;
use tera_outline::{Edit, edits_of};
use tera_workspace::Markers;
use text_edits::{Encoding, Lines, position_at};

/// Writes the edits that make the text its layout between these markers, or `null` if it has none, or is not a
/// template.
pub fn put_layout(
    alloc: Global,
    out: &mut Writer,
    encoding: Encoding,
    markers: &Delimiters,
    text: &str,
) -> Result<(), AllocError>
    requires valid { IsValid (marks_of markers.now) }
    requires steady { is_steady (marks_of markers.now) ≡ true }
    ensures tokens { OnOk result ((j : Json) × IsLayout (marks_of markers.now) encoding text.now j
        × (out.new.tokens ≡ out.old.tokens ++ json_tokens j)) }
    ensures before { out.new.before ≡ out.old.before }
{
    match layout_of(alloc, markers, text)? {
        Some(layout) => put_edits_to(alloc, out, encoding, text, layout.as_str()),
        None => out.null(),
    }
}

/// Writes the same for other markers, or `null` if these are not steady.
pub fn put_layout_if_steady(
    alloc: Global,
    out: &mut Writer,
    encoding: Encoding,
    markers: &Markers,
    text: &str,
) -> Result<(), AllocError>
    ensures tokens { OnOk result ((j : Json) × IsLayoutIf (is_steady markers.now) markers.now encoding text.now j
        × (out.new.tokens ≡ out.old.tokens ++ json_tokens j)) }
    ensures before { out.new.before ≡ out.old.before }
{
    let delimiters = markers.delimiters();
    if are_steady(delimiters) {
        put_layout(alloc, out, encoding, delimiters, text)
    } else {
        out.null()
    }
}

// The layout, if the text has one. A text that is not a template has none, as under `tera format`.
fn layout_of(alloc: Global, markers: &Delimiters, text: &str) -> Result<Option<String>, AllocError>
    requires valid { IsValid (marks_of markers.now) }
    requires steady { is_steady (marks_of markers.now) ≡ true }
    ensures { IfOk result (λ o. IsLaidOut (marks_of markers.now) text.now (option_map string_bytes o)) }
{
    if !is_template(alloc, markers, text)? {
        return Ok(None);
    }
    match format_between(alloc, text, markers) {
        Ok(layout) => Ok(Some(layout)),
        Err(error) => match error.kind {
            ErrorKind::Memory => Err(AllocError),
            _ => Ok(None),
        },
    }
}

fn is_template(alloc: Global, markers: &Delimiters, text: &str) -> Result<bool, AllocError>
    requires { IsValid (marks_of markers.now) }
    ensures template { IfOk result (λ is. is ≡ true → IsTemplate (marks_of markers.now) text.now) }
    ensures none { IfOk result (λ is. is ≡ false → ¬ (IsTemplate (marks_of markers.now) text.now)) }
{
    let template = read_template_between(alloc, "", text, markers.clone()?)?;
    Ok(template.parsed.is_ok())
}

#[tactic(auto, unfolding(crate::specs::Layouts::edit_tokens))]
fn put_edits_to(
    alloc: Global,
    out: &mut Writer,
    encoding: Encoding,
    text: &str,
    layout: &str,
) -> Result<(), AllocError>
    requires { without_white text.now ≡ without_white layout.now }
    ensures tokens { OnOk result ((edits : List AnEdit) × AreEdits text.now layout.now edits
        × (out.new.tokens ≡ out.old.tokens
        ++ json_tokens (array (items_of (map (edit_json encoding text.now) edits))))) }
    ensures before { out.new.before ≡ out.old.before }
{
    let edits = edits_of(alloc, text, layout)?;
    let lines = Lines::for_many(alloc, text)?;
    out.begin_array()?;
    for edit in &edits {
        let start = position_at(text, &lines, encoding, edit.start);
        let end = position_at(text, &lines, encoding, edit.end);
        put_edit(out, start, end, edit.text)?;
    }
    out.end_array()
}
