//! Reading templates.

ghost use Rattle.std.specs.Prelude.{◌≡◌, ◌++◌, ℕ, List, IfOk, IfSome, OnOk, codes, string_bytes};
ghost use Rattle.tera_lexer.specs.grammar.Marks.{IsValid, marks_of};
ghost use Rattle.terminal_text.specs.Files.{source_of};
ghost use Rattle.tera_jobs.specs.Sources.{AddsRead, AddsUnread, IsReadFrom, marks_in, nothing, with_source, with_sources};

use std::alloc::{AllocError, Global};
use std::mem;
use std::rt::Files;
use tera_check::{Template, read_template, read_template_between};
use tera_files::{Found, Selection, Source, Unlisted, Unread, files_of, read_source};
use tera_options::job::Common;
use tera_parser::lexer::Delimiters;
use tera_program_parts::excluded::leave_out;
use tera_program_parts::extensions::{EXTENSIONS, without_point};
use tera_program_parts::output::{print_error, why_unread};
use tera_site::SiteNames;
use terminal_text::Sources;

/// Templates, with the sources that they were read from.
#[derive(Drop)]
pub(crate) struct Templates {
    pub(crate) templates: Vec<Template>,
    /// The sources; empty, if they are not needed.
    pub(crate) sources: Vec<Source>,
    /// How many of the templates were asked for; those of the library come after them.
    pub(crate) checked: usize,
    /// What could not be read.
    pub(crate) unread: Vec<Unreadable>,
    /// The names of the templates, if they are those of a site.
    pub(crate) names: Option<SiteNames>,
}

/// How templates are read.
#[derive(Debug, Drop)]
pub(crate) struct Reading {
    /// The markers, if they are not the usual ones.
    pub(crate) markers: Option<Delimiters>,
    /// How many faults of each are looked for with the usual markers. With others only the first is.
    pub(crate) faults: usize,
    /// Whether the sources are kept.
    pub(crate) keeps_sources: bool,
}

/// A file or a folder that could not be read.
#[derive(Drop)]
pub(crate) struct Unreadable {
    pub(crate) file: String,
    /// Why, in the words of the forms for other programs.
    pub(crate) why: String,
}

impl Templates {
    fn none(alloc: Global) -> Templates {
        Templates {
            templates: Vec::new(alloc),
            sources: Vec::new(alloc),
            checked: 0,
            unread: Vec::new(alloc),
            names: None,
        }
    }

    /// The sources, by the names of their files.
    pub(crate) fn texts(&self, alloc: Global) -> Result<Sources<'_>, AllocError>
        ensures { IfOk result (λ sources. (file : List ℕ) → source_of sources file
            ≡ with_sources nothing self.now.sources.items file) }
    {
        let mut texts = Sources::new(alloc);
        for source in &self.sources {
            texts.add(source.file.as_str(), source.text.as_str())?;
        }
        Ok(texts)
    }

    /// Leaves their memory to the process, which ends soon: to free it tree by tree takes a tenth of all instructions.
    pub(crate) fn forget(self) {
        mem::forget(self);
    }

    // Adds a file that could not be read.
    fn add_unread(&mut self, file: String, why: String) -> Result<(), AllocError>
        ensures { OnOk result (AddsUnread (string_bytes file) (string_bytes why) self.old self.new) }
    {
        self.unread.push(Unreadable { file, why })?;
        Ok(())
    }
}

/// Only this source.
pub(crate) fn text_of(alloc: Global, source: &Source) -> Result<Sources<'_>, AllocError>
    ensures { IfOk result (λ sources. (file : List ℕ) → source_of sources file
        ≡ with_source nothing source.now file) }
{
    let mut texts = Sources::new(alloc);
    texts.add(source.file.as_str(), source.text.as_str())?;
    Ok(texts)
}

/// The name by which a file is reported.
pub(crate) fn name_of<'a>(file: &'a str, stdin: &'a str) -> &'a str {
    if file == "-" { stdin } else { file }
}

/// The files that the paths lead to, without those that are left out.
pub(crate) fn found<R: Files + AllocGlobal + Clone + Drop>(
    rt: &R,
    common: Common<'_, '_>,
    paths: &[&str],
) -> Result<Found, AllocError> {
    let extensions = extensions_of(rt.alloc(), common)?;
    let selection = Selection {
        extensions: extensions.as_slice(),
        stdin: common.stdin,
    };
    let found = files_of(rt, selection, paths)?;
    match common.exclude {
        Some(exclude) => leave_out(rt, exclude, found),
        None => Ok(found),
    }
}

// How the names of templates end, without the point.
fn extensions_of<'a>(alloc: Global, common: Common<'_, 'a>) -> Result<Vec<&'a str>, AllocError> {
    let mut extensions = Vec::new(alloc);
    match common.extensions {
        Some(given) => {
            for extension in given {
                extensions.push(without_point(extension))?;
            }
        }
        None => extensions.extend_from_slice(EXTENSIONS.as_slice())?,
    }
    Ok(extensions)
}

/// Says on standard error which folders cannot be listed, or contain no template.
pub(crate) fn print_unlisted<R: Eprint + AllocGlobal>(
    rt: &R,
    common: Common<'_, '_>,
    found: &Found,
) -> Result<(), AllocError> {
    for one in &found.unlisted {
        let why = why_unlisted(rt.alloc(), common, one)?;
        print_error(rt, one.folder.as_str(), why.as_str());
    }
    Ok(())
}

fn why_unlisted(
    alloc: Global,
    common: Common<'_, '_>,
    one: &Unlisted,
) -> Result<String, AllocError> {
    match one.error {
        Some(error) => why_unread(alloc, Unread::Failed(error)),
        None => without_templates(alloc, common),
    }
}

// The text that no template was found, and what was looked for.
fn without_templates(alloc: Global, common: Common<'_, '_>) -> Result<String, AllocError> {
    let extensions = extensions_of(alloc, common)?;
    if extensions.is_empty() {
        return String::from_str(
            alloc,
            "no template is below this folder: `extensions` is empty",
        );
    }
    let mut why = String::from_str(alloc, "no template is below this folder: no name ends in ")?;
    for (number, extension) in extensions.iter().enumerate() {
        why.push_str(if number == 0 { "." } else { " or ." })?;
        why.push_str(extension)?;
    }
    Ok(why)
}

/// Reads the templates that the paths lead to, and after them those of the library that are not among these. Standard
/// error says which cannot be read.
pub(crate) fn read_all<R: Files + Input + Eprint + AllocGlobal + Clone + Drop>(
    rt: &R,
    common: Common<'_, '_>,
    paths: &[&str],
    library: Option<&[&str]>,
    reading: &Reading,
) -> Result<Templates, AllocError>
    requires { IfSome reading.now.markers (λ m. IsValid (marks_of m)) }
{
    let (found, asked) = found_with(rt, common, paths, library)?;
    print_unlisted(rt, common, &found)?;
    let mut all = Templates::none(rt.alloc());
    add_unlisted(rt.alloc(), common, &found, &mut all)?;
    for (number, file) in found.files.iter().enumerate() {
        let name = name_of(file.as_str(), common.stdin);
        if let Err(why) = add(rt, file.as_str(), name, reading, &mut all) {
            refuse(rt, name, why, &mut all)?;
        }
        if number < asked {
            all.checked = all.templates.len();
        }
    }
    Ok(all)
}

// Adds what could not be listed to what could not be read.
fn add_unlisted(
    alloc: Global,
    common: Common<'_, '_>,
    found: &Found,
    all: &mut Templates,
) -> Result<(), AllocError> {
    for one in &found.unlisted {
        let why = why_unlisted(alloc, common, one)?;
        let why = match one.error {
            Some(_) => cannot_be_read(alloc, why.as_str())?,
            None => why,
        };
        all.add_unread(String::from_str(alloc, one.folder.as_str())?, why)?;
    }
    Ok(())
}

// Says on standard error why a file cannot be read, and adds it to the unread ones.
fn refuse<R: Eprint + AllocGlobal>(
    rt: &R,
    name: &str,
    why: Unread,
    all: &mut Templates,
) -> Result<(), AllocError> {
    let alloc = rt.alloc();
    let why = match why_unread(alloc, why) {
        Ok(why) => why,
        Err(_) => String::from_str(alloc, "out of memory")?,
    };
    print_error(rt, name, why.as_str());
    let why = cannot_be_read(alloc, why.as_str())?;
    all.add_unread(String::from_str(alloc, name)?, why)
}

fn cannot_be_read(alloc: Global, why: &str) -> Result<String, AllocError>
    ensures { IfOk result (λ text. string_bytes text ≡ codes "cannot be read: " ++ why.now) }
{
    let mut text = String::from_str(alloc, "cannot be read: ")?;
    text.push_str(why)?;
    Ok(text)
}

// The files of the paths, and after them those of the library; and how many come from the paths. A file of both counts
// as one of the paths.
fn found_with<R: Files + AllocGlobal + Clone + Drop>(
    rt: &R,
    common: Common<'_, '_>,
    paths: &[&str],
    library: Option<&[&str]>,
) -> Result<(Found, usize), AllocError> {
    let asked = found(rt, common, paths)?;
    let count = asked.files.len();
    let Some(library) = library else {
        return Ok((asked, count));
    };
    let mut both = Vec::new(rt.alloc());
    both.extend_from_slice(paths)?;
    both.extend_from_slice(library)?;
    Ok((found(rt, common, both.as_slice())?, count))
}

// Reads the template of a file, and puts it after the others.
fn add<R: Files + Input + AllocGlobal>(
    rt: &R,
    file: &str,
    name: &str,
    reading: &Reading,
    all: &mut Templates,
) -> Result<(), Unread>
    requires { IfSome reading.now.markers (λ m. IsValid (marks_of m)) }
    ensures { OnOk result ((text : List ℕ) × AddsRead (marks_in reading.now.markers) name.now text
        reading.now.faults reading.now.keeps_sources all.old all.new) }
{
    let source = read_source(rt, file, name)?;
    Ok(add_source(rt.alloc(), source, reading, all)?)
}

// Reads the template of a source, and puts it after the others; also the source, if it is kept.
fn add_source(
    alloc: Global,
    source: Source,
    reading: &Reading,
    all: &mut Templates,
) -> Result<(), AllocError>
    requires { IfSome reading.now.markers (λ m. IsValid (marks_of m)) }
    ensures { OnOk result (AddsRead (marks_in reading.now.markers) (string_bytes source.file)
        (string_bytes source.text) reading.now.faults reading.now.keeps_sources all.old all.new) }
{
    let template = template_of(alloc, source.file.as_str(), source.text.as_str(), reading)?;
    all.templates.push(template)?;
    if reading.keeps_sources {
        all.sources.push(source)?;
    }
    Ok(())
}

/// The template of the source of a file.
pub(crate) fn template_of(
    alloc: Global,
    file: &str,
    source: &str,
    reading: &Reading,
) -> Result<Template, AllocError>
    requires { IfSome reading.now.markers (λ m. IsValid (marks_of m)) }
    ensures { IfOk result (IsReadFrom (marks_in reading.now.markers) file.now source.now
        reading.now.faults) }
{
    match &reading.markers {
        Some(markers) => read_template_between(alloc, file, source, markers.clone()?),
        None => read_template(alloc, file, source, reading.faults),
    }
}
