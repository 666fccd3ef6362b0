//! Writing what is found in templates.

ghost use Rattle.std.specs.Prelude.{◌≡◌, IfOk, OnErr, OnOk, map};
ghost use Rattle.std.specs.Io.KnownBytes.{Keeps};
ghost use Rattle.terminal_text.specs.Files.{source_of};
ghost use Rattle.tera_jobs.specs.Sources.{unreadable_view};
ghost use Rattle.tera_check.specs.Levels.{level_of};
ghost use Rattle.tera_rules.specs.Registered.{registered_if_any};
ghost use Rattle.tera_jobs.specs.Report.{AreAllFound, AreWithNames, AreWithUnknownIf, AreWithUnusedIf, IsReported, looks_for_unused};

use crate::forms::text_of;
use crate::found::{count_of, faulty_of, has_error};
use crate::helps::helps_for;
use crate::reading::Unreadable;
use std::alloc::{AllocError, Global};
use std::io;
use std::io::Write;
use tera_check::{
    Found, Kind, Levels, Registered, Template, add_unknown, add_unused_components, all_found,
    leave_reported,
};
use tera_files::Source;
use tera_options::job::Form;
use tera_show::write_all;
use tera_site::{SiteNames, add_names};
use terminal_text::{Sources, Style};

/// What was reported.
#[derive(Clone, Copy, Debug)]
pub(crate) struct Report {
    /// Whether an error was found.
    pub(crate) errors: bool,
    /// How many findings there are.
    pub(crate) findings: usize,
    /// How many templates have one.
    pub(crate) faulty: usize,
    /// Why not all was written.
    pub(crate) stopped: Option<io::Error>,
}

/// Writes the text of what could not be read, and of all that is found in the templates and is to be reported. For
/// those after the first `checked` only faults are. Nothing is written before the whole text is ready.
pub(crate) fn write_findings<'t, W: Write>(
    alloc: Global,
    writer: &mut W,
    form: Form,
    style: Style,
    sources: &mut Sources<'_>,
    unread: &Vec<Unreadable>,
    templates: &'t Vec<Template>,
    texts: &[Source],
    names: &'t Option<SiteNames>,
    registered: Option<&Registered<'_>>,
    checked: usize,
    levels: Levels<'_, '_>,
) -> Result<Report, AllocError>
    ensures report { IfOk result (IsReported form style (source_of sources.old)
        (map unreadable_view unread.now.items) templates.now.items texts.now names.now
        (registered_if_any registered.entry) checked (level_of levels.entry)
        (W.contents writer.old) (W.contents writer.new)) }
    ensures memory { OnErr result (Keeps (W.contents writer.old) (W.contents writer.new)) }
{
    let mut all = found_in(alloc, unread, templates, names, registered, checked, levels)?;
    leave_reported(&mut all, levels);
    let helps = helps_for(alloc, form, templates, texts, all.as_slice())?;
    let text = text_of(
        alloc,
        form,
        style,
        sources,
        helps.as_slice(),
        unread.as_slice(),
        all.as_slice(),
    )?;
    Ok(Report {
        errors: has_error(all.as_slice()),
        findings: count_of(all.as_slice()),
        faulty: faulty_of(all.as_slice()),
        stopped: write_all(writer, text.as_slice()).err(),
    })
}

// What is found in each template: in itself and of its components; of names, and of what the program registers, if
// these are known; and of components that no template calls, if these are looked for.
fn found_in<'a>(
    alloc: Global,
    unread: &Vec<Unreadable>,
    templates: &'a Vec<Template>,
    names: &'a Option<SiteNames>,
    registered: Option<&Registered<'_>>,
    checked: usize,
    levels: Levels<'_, '_>,
) -> Result<Vec<Found<'a>>, AllocError>
    ensures { IfOk result (λ all. AreAllFound (map unreadable_view unread.now.items)
        templates.now.items names.now (registered_if_any registered.entry) checked
        (level_of levels.entry) all.items) }
{
    let mut all = all_found(alloc, templates, checked)?;
    add_if_named(alloc, names, templates, checked, &mut all)?;
    add_if_registered(alloc, registered, templates, checked, &mut all)?;
    let looks = looks_for_unused(unread, levels);
    add_unused_if(alloc, looks, templates, checked, &mut all)?;
    Ok(all)
}

fn add_if_named<'a>(
    alloc: Global,
    names: &'a Option<SiteNames>,
    templates: &'a Vec<Template>,
    checked: usize,
    all: &mut Vec<Found<'_>>,
) -> Result<(), AllocError>
    ensures { OnOk result (AreWithNames names.now templates.now.items checked
        all.old.items all.new.items) }
{
    match names {
        Some(names) => add_names(alloc, names, templates, checked, all),
        None => Ok(()),
    }
}

fn add_if_registered(
    alloc: Global,
    registered: Option<&Registered<'_>>,
    templates: &Vec<Template>,
    checked: usize,
    all: &mut Vec<Found<'_>>,
) -> Result<(), AllocError>
    ensures { OnOk result (AreWithUnknownIf (registered_if_any registered.entry)
        templates.now.items checked all.old.items all.new.items) }
{
    match registered {
        Some(registered) => add_unknown(alloc, registered, templates, checked, all),
        None => Ok(()),
    }
}

// Whether components that no template calls are looked for: their rule is on, and all files could be read. A file that
// could not be read may call any.
fn looks_for_unused(unread: &Vec<Unreadable>, levels: Levels<'_, '_>) -> bool
    ensures { result ≡ looks_for_unused (map unreadable_view unread.now.items)
        (level_of levels.entry) }
{
    unread.is_empty() && levels.level(Kind::UnusedComponent).is_some()
}

fn add_unused_if(
    alloc: Global,
    looks: bool,
    templates: &Vec<Template>,
    checked: usize,
    all: &mut Vec<Found<'_>>,
) -> Result<(), AllocError>
    ensures { OnOk result (AreWithUnusedIf looks templates.now.items checked
        all.old.items all.new.items) }
{
    if looks {
        add_unused_components(alloc, templates, checked, all)
    } else {
        Ok(())
    }
}
