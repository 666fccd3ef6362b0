//! Where what is named in a text is defined.

ghost use Rattle.std.specs.Prelude.{◌≡◌, IfOk};
ghost use Rattle.std.specs.Option.{option_map};
ghost use Rattle.json_members.specs.Written.{PutsJson};
ghost use Rattle.tera_outline.specs.Names.{name_view};
ghost use Rattle.tera_workspace.specs.Definitions.{definition_view};
ghost use Rattle.tera_answers.specs.Definitions.{IsNamedAt, is_component, template_place, place_of, place_json};
ghost use Rattle.tera_editor.specs.Templates.{roots_view};

use crate::completions::Offering;
use json::Writer;
use protocol_values::put_location;
use std::alloc::{AllocError, Global};
use tera_editor::editor::{Editor, uri_by};
use tera_editor::templates::template_in;
use tera_outline::{Name, NameKind, pieces_of, under};
use tera_workspace::Definition;
use text_edits::{Encoding, Lines, Position, byte_at};

/// The name of a component or a template at the position, if there is one.
pub fn name_at(
    alloc: Global,
    encoding: Encoding,
    text: &str,
    position: Position,
) -> Result<Option<Name>, AllocError>
    ensures { IfOk result (λ name. IsNamedAt encoding text.now position (option_map name_view name)) }
{
    let pieces = pieces_of(alloc, text)?;
    let lines = Lines::of(alloc, text)?;
    let byte = byte_at(text, &lines, encoding, position);
    under(alloc, pieces.as_slice(), byte)
}

/// Writes the place that the name leads to, or `null`.
pub fn put_definition(
    alloc: Global,
    out: &mut Writer,
    offering: Offering<'_>,
    editor: &Editor,
    name: &Option<Name>,
) -> Result<(), AllocError>
    ensures { PutsJson result out.old out.new
        (place_json editor.now (place_of offering.entry.workspace.now
        (roots_view offering.entry.roots) (option_map name_view name.now))) }
{
    match place_of(alloc, offering, name)? {
        Some(place) => {
            let uri = uri_by(alloc, editor, place.file.as_str())?;
            put_location(out, uri.as_str(), place.start, place.end)
        }
        None => out.null(),
    }
}

fn place_of(
    alloc: Global,
    offering: Offering<'_>,
    name: &Option<Name>,
) -> Result<Option<Definition>, AllocError>
    ensures { IfOk result (λ place. option_map definition_view place ≡ place_of offering.entry.workspace.now
        (roots_view offering.entry.roots) (option_map name_view name.now)) }
{
    match name {
        Some(name) if is_component(name.kind) => {
            offering.workspace.definition_of(alloc, name.text.as_str())
        }
        Some(name) => template_place(alloc, offering, name.text.as_str()),
        None => Ok(None),
    }
}

/// Whether a name of this kind is the name of a component, and not of a template.
pub(crate) fn is_component(kind: NameKind) -> bool
    ensures { result ≡ is_component kind }
{
    matches!(
        kind,
        NameKind::Called | NameKind::Closed | NameKind::Defined
    )
}

// The beginning of the file with the name.
fn template_place(
    alloc: Global,
    offering: Offering<'_>,
    name: &str,
) -> Result<Option<Definition>, AllocError>
    ensures { IfOk result (λ place. option_map definition_view place ≡ template_place offering.entry.workspace.now
        (roots_view offering.entry.roots) name.now) }
{
    let files = offering.workspace.files(alloc)?;
    let Some(file) = template_in(alloc, offering.roots, files.as_slice(), name)? else {
        return Ok(None);
    };
    let first = Position {
        line: 0,
        character: 0,
    };
    Ok(Some(Definition {
        file: String::from_str(alloc, file)?,
        start: first,
        end: first,
    }))
}
