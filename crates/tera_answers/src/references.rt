//! Where a component or a template is named, in all documents.

ghost use Rattle.std.specs.Prelude.{◌≡◌, ◌++◌, List, map, OnOk};
ghost use Rattle.std.specs.List.{flat_map};
ghost use Rattle.json.specs.Json.{Json};
ghost use Rattle.json.specs.Tree.{json_tokens};
ghost use Rattle.json_members.specs.Written.{Puts};
ghost use Rattle.tera_outline.specs.Names.{name_view};
ghost use Rattle.tera_workspace.specs.Definitions.{text_view};
ghost use Rattle.text_edits.specs.Places.{AreLinesOf};
ghost use Rattle.tera_editor.specs.Editors.{seen_of, uri_in};
ghost use Rattle.tera_answers.specs.References.{looked_for_by, refers, AreReferencesIn, IsList, reference_tokens};

use crate::definitions::is_component;
use json::Writer;
use protocol_values::put_location;
use std::alloc::{AllocError, Global};
use tera_editor::editor::{Editor, uri_by};
use tera_outline::{Name, NameKind, names_of, pieces_of};
use tera_workspace::FileText;
use text_edits::{Encoding, Lines, position_at};

/// What is looked for, and how its places are reported.
#[derive(Clone, Copy)]
pub struct Search<'s> {
    pub name: &'s Name,
    /// Whether definitions count.
    pub declared: bool,
    pub editor: &'s Editor,
    pub encoding: Encoding,
}

/// Writes the places in these texts where what is looked for is named.
pub fn put_references(
    alloc: Global,
    out: &mut Writer,
    search: Search<'_>,
    texts: &[FileText<'_>],
) -> Result<(), AllocError>
    ensures tokens { OnOk result ((j : Json) × IsList (looked_for_by search.entry) (map text_view texts.now) j
        × (out.new.tokens ≡ out.old.tokens ++ json_tokens j)) }
    ensures before { out.new.before ≡ out.old.before }
{
    out.begin_array()?;
    for text in texts {
        put_in(alloc, out, search, text)?;
    }
    out.end_array()
}

fn put_in(
    alloc: Global,
    out: &mut Writer,
    search: Search<'_>,
    text: &FileText<'_>,
) -> Result<(), AllocError>
    ensures tokens { OnOk result ((js : List Json) × AreReferencesIn (looked_for_by search.entry) (text_view text.now) js
        × (out.new.tokens ≡ out.old.tokens ++ flat_map json_tokens js)) }
    ensures before { out.new.before ≡ out.old.before }
{
    let pieces = pieces_of(alloc, text.text)?;
    let names = names_of(alloc, pieces.as_slice())?;
    let lines = Lines::for_many(alloc, text.text)?;
    let uri = uri_by(alloc, search.editor, text.file)?;
    put_names(out, search, *text, &lines, uri.as_str(), names.as_slice())
}

// Writes the names in a text that count.
#[tactic(auto, unfolding(crate::specs::References::reference_tokens))]
fn put_names(
    out: &mut Writer,
    search: Search<'_>,
    text: FileText<'_>,
    lines: &Lines,
    uri: &str,
    names: &[Name],
) -> Result<(), AllocError>
    requires lines { AreLinesOf text.text.now lines.now }
    requires uri { uri.now ≡ uri_in text.file.now (seen_of search.editor.now text.file.now) }
    ensures { Puts result out.old out.new
        (flat_map (reference_tokens (looked_for_by search.entry) (text_view text.entry))
        (map name_view names.now)) }
{
    for name in names {
        if refers(search, name) {
            let start = position_at(text.text, lines, search.encoding, name.start);
            let end = position_at(text.text, lines, search.encoding, name.end);
            put_location(out, uri, start, end)?;
        }
    }
    Ok(())
}

// Whether the name stands for what is looked for, and counts as a place.
fn refers(search: Search<'_>, name: &Name) -> bool
    ensures { result ≡ refers (looked_for_by search.entry) (name_view name.now) }
{
    is_component(search.name.kind) == is_component(name.kind)
        && name.text.as_str() == search.name.text.as_str()
        && (search.declared || !matches!(name.kind, NameKind::Defined))
}
