//! The settings that count for the templates in a folder, as a server has them.

ghost use Rattle.std.specs.Prelude.{◌≡◌, ◌-◌, Some, map, IfOk, string_bytes};
ghost use Rattle.tera_settings.specs.Values.{texts_view};
ghost use Rattle.tera_editor.specs.Settings.{rule_view};
ghost use Rattle.tera_program_parts.specs.Excluded.{AreOfPaths};
ghost use Rattle.tera_program_parts.specs.Settings.{or_none, set_of};

use crate::aside::has_left_out;
use settings_files::{Configured, Unfit, WrongFile, settings_above};
use std::alloc::{AllocError, Global};
use std::path::Path;
use std::rt::Files;
use tera_program_parts::excluded::{Paths, paths_of};
use tera_program_parts::explanations::OPTIONAL_RULES;
use tera_program_parts::extensions::without_point;
use tera_program_parts::markers;
use tera_program_parts::markers::other_markers_of;
use tera_program_parts::output::why_unread;
use tera_program_parts::settings::{Site, references, severity_at, site_in};
use tera_program_parts::site::{below, itself_of};
use tera_server::{FolderSettings, FoundSettings, Markers, Reason, RuleSetting};

// What the rules are set to, in the form of a server.
fn rules_of(
    alloc: Global,
    rules: &[tera_settings::RuleLevel],
) -> Result<Vec<RuleSetting>, AllocError>
    ensures { IfOk result (λ set. map rule_view set.items ≡ map set_of rules.now) }
{
    let mut set = Vec::new(alloc);
    for rule in rules {
        let level = severity_at(rule.level);
        set.push(RuleSetting {
            rule: rule.rule.clone()?,
            level,
        })?;
    }
    Ok(set)
}

/// The settings for the templates in a folder: those of the nearest file in it or above it.
pub(crate) fn found_for_folder<R: Files + Input + AllocGlobal>(
    rt: &R,
    folder: &str,
) -> Result<FoundSettings, AllocError> {
    match settings_above(rt, OPTIONAL_RULES.as_slice(), folder) {
        Ok(Some(file)) => found_in(rt, folder, file),
        Ok(None) => Ok(FoundSettings::Nothing),
        Err(why) => wrong_for(rt, why),
    }
}

fn found_in<R: Files + AllocGlobal>(
    rt: &R,
    folder: &str,
    file: Configured,
) -> Result<FoundSettings, AllocError> {
    let path = whole_path(rt, file.source.file.as_str())?;
    match site_in(rt, false, file) {
        Ok(site) => {
            let markers = markers_in(rt.alloc(), &site.markers)?;
            let settings = folder_settings(rt, folder, site, markers)?;
            Ok(FoundSettings::Set(path, settings))
        }
        Err(why) => wrong_for(rt, why),
    }
}

// The markers in these words, if they can be used and are not the usual ones.
fn markers_in(alloc: Global, words: &Option<String>) -> Result<Option<Markers>, AllocError> {
    let Some(words) = words else {
        return Ok(None);
    };
    match other_markers_of(alloc, Some(words.as_str())) {
        Ok(Some(markers)) => Ok(Markers::of(alloc, markers)),
        Ok(None) => Ok(None),
        Err(markers::Unfit::Memory) => Err(AllocError),
        Err(_) => Ok(None),
    }
}

fn folder_settings<R: Files + AllocGlobal>(
    rt: &R,
    folder: &str,
    site: Site,
    markers: Option<Markers>,
) -> Result<FolderSettings, AllocError>
    ensures markers { IfOk result (λ s. s.markers ≡ markers) }
    ensures rules { IfOk result (λ s. map rule_view s.rules.items ≡ map set_of site.rules.items) }
    ensures exclude { IfOk result (λ s. AreOfPaths (or_none (texts_view site.exclude)) s.exclude) }
    ensures known { IfOk result (λ s.
        (s.filters ≡ site.known.filters) × (s.tests ≡ site.known.tests)
        × (s.functions ≡ site.known.functions)) }
{
    let Site {
        root,
        extensions,
        exclude,
        library,
        rules,
        known,
        ..
    } = site;
    let mut libraries = known_paths(rt, &or_empty(rt.alloc(), library))?;
    let root = root_seen_from(rt, folder, &root)?;
    if let Some(root) = &root {
        add_root_if_apart(folder, root, &mut libraries)?;
    }
    Ok(FolderSettings {
        extensions: without_points(rt.alloc(), &extensions)?,
        libraries,
        exclude: paths_in(rt.alloc(), exclude)?,
        markers,
        rules: rules_of(rt.alloc(), rules.as_slice())?,
        root,
        filters: known.filters,
        tests: known.tests,
        functions: known.functions,
    })
}

// The path of the root, without a slash at its end, as the files below it are given: by the path of the folder, if it is
// there or in it, or as the system knows it, if the folder is in the root. If it is elsewhere, no file of the folder has
// a name; nor has one if a link leads to a folder that is in the root.
fn root_seen_from<R: Files + AllocGlobal>(
    rt: &R,
    folder: &str,
    root: &Option<String>,
) -> Result<Option<String>, AllocError> {
    let Some(root) = root else {
        return Ok(None);
    };
    let (Some(root), Some(itself)) = (itself_of(rt, root.as_str())?, itself_of(rt, folder)?) else {
        return Ok(None);
    };
    if let Some(rest) = below(itself.as_str(), root.as_str()) {
        return Ok(Some(path_in(rt.alloc(), folder, rest)?));
    }
    if itself.as_str() == folder && below(root.as_str(), folder).is_some() {
        Ok(Some(without_slash(rt.alloc(), root.as_str())?))
    } else {
        Ok(None)
    }
}

// The path of what is at this path in the folder, or of the folder itself.
fn path_in(alloc: Global, folder: &str, rest: &str) -> Result<String, AllocError> {
    if rest.is_empty() {
        return without_slash(alloc, folder);
    }
    Ok(Path::new(folder).join(alloc, rest)?.into_string())
}

// The path without the slash that the root of the system has at its end.
fn without_slash(alloc: Global, folder: &str) -> Result<String, AllocError> {
    if folder == "/" {
        Ok(String::new(alloc))
    } else {
        String::from_str(alloc, folder)
    }
}

// A root that is not read with the folder is read as a library is, unless it is the root of the system.
fn add_root_if_apart(
    folder: &str,
    root: &String,
    libraries: &mut Vec<String>,
) -> Result<(), AllocError> {
    if !root.is_empty() && !is_read_with(folder, root.as_str()) {
        libraries.push(root.clone()?)?;
    }
    Ok(())
}

// Whether the root is the folder, or is in it and is not left out when that is read.
fn is_read_with(folder: &str, root: &str) -> bool {
    match root.strip_prefix(folder) {
        Some(rest) => !has_left_out(rest),
        None => false,
    }
}

fn or_empty(alloc: Global, texts: Option<Vec<String>>) -> Vec<String>
    ensures { map string_bytes result.items ≡ or_none (texts_view texts) }
{
    match texts {
        Some(texts) => texts,
        None => Vec::new(alloc),
    }
}

// The paths that are left out.
fn paths_in(alloc: Global, exclude: Option<Vec<String>>) -> Result<Paths, AllocError>
    ensures { IfOk result (AreOfPaths (or_none (texts_view exclude))) }
{
    let exclude = or_empty(alloc, exclude);
    paths_of(alloc, references(alloc, &exclude)?.as_slice())
}

// The paths by which the system knows these files, without those that it does not know.
fn known_paths<R: Files + AllocGlobal>(
    rt: &R,
    paths: &Vec<String>,
) -> Result<Vec<String>, AllocError> {
    let mut known = Vec::new(rt.alloc());
    for path in paths {
        if let Some(itself) = itself_of(rt, path.as_str())? {
            known.push(itself)?;
        }
    }
    Ok(known)
}

fn without_points(
    alloc: Global,
    given: &Option<Vec<String>>,
) -> Result<Option<Vec<String>>, AllocError> {
    let Some(given) = given else {
        return Ok(None);
    };
    let mut extensions = Vec::new(alloc);
    for extension in given {
        extensions.push(String::from_str(alloc, without_point(extension.as_str()))?)?;
    }
    Ok(Some(extensions))
}

// What is reported if there are no settings for this reason.
fn wrong_for<R: Files + AllocGlobal>(rt: &R, why: Unfit) -> Result<FoundSettings, AllocError> {
    match why {
        Unfit::Memory => Err(AllocError),
        Unfit::Unread(file, why) => {
            let path = whole_path(rt, file.as_str())?;
            let message = why_unread(rt.alloc(), why)?;
            Ok(FoundSettings::Wrong(
                path,
                Reason {
                    line: None,
                    message,
                },
            ))
        }
        Unfit::Wrong(wrong) => {
            let path = whole_path(rt, wrong.file.as_str())?;
            let reason = reason_of(wrong);
            Ok(FoundSettings::Wrong(path, reason))
        }
    }
}

// What is wrong, with its line counted from 0.
fn reason_of(wrong: WrongFile) -> Reason
    ensures line { result.line ≡ Some (wrong.line - 1) }
    ensures message { result.message ≡ wrong.message }
{
    Reason {
        line: Some(wrong.line.saturating_sub(1)),
        message: wrong.message,
    }
}

// The absolute path of one that is relative to the folder in which the program runs.
fn whole_path<R: Files + AllocGlobal>(rt: &R, path: &str) -> Result<String, AllocError> {
    match itself_of(rt, ".")? {
        Some(here) => Ok(
            Path::new(here.as_str())
                .join(rt.alloc(), path)?
                .into_string(),
        ),
        None => String::from_str(rt.alloc(), path),
    }
}
