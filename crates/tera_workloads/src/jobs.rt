//! The jobs, each over sources that it makes and drops one by one.

use crate::awkward::{ALL, Awkward, awkward_source};
use crate::digest::Digest;
use crate::draws::Draws;
use crate::libraries::{DEFINING, calling_source, defining_source};
use crate::outputs::{put_error, put_output};
use crate::pages::{Kind, site_source, source};
use std::alloc::{AllocError, Global};
use tera_catalogue::{components_of, html_of, json_of};
use tera_check::{Template, catalogue_of, findings_of, object_of, read_template};
use tera_layout::format;
use tera_parser::ast::Node;
use tera_parser::expr::source_of;
use tera_parser::lexer::Delimiters;
use tera_parser::value::Error;
use tera_parser::{Parser, ParserOutput};
use tera_report::push_lines;
use tera_tree_json::tree_json;
use tera_tree_text::tree_text;

/// A job.
#[derive(Clone, Copy)]
pub(crate) enum Job {
    /// Reads the templates of a site.
    Read,
    /// Reads them, with the whole tree of one in forty alone in the digest.
    ReadTops,
    /// Reads them, and lays them out.
    Format,
    /// Checks libraries of components, and the templates that call them.
    Check,
    /// Reads templates, and hands their trees on as text and as JSON, and their expressions as source.
    HandOn,
    /// Lists the components of libraries, as JSON and as a page.
    List,
    /// Reads sources that are awkward, hands their trees on, and lays them out.
    Awkward,
    /// Each of these in turn.
    All,
}

/// The digest of the job, done so often.
pub(crate) fn done(alloc: Global, job: Job, count: u64, seed: u64) -> Result<u64, AllocError> {
    let mut draws = Draws::new(seed);
    let mut digest = Digest::new();
    for number in 0..count {
        do_once(alloc, &mut digest, &mut draws, job, number)?;
    }
    Ok(digest.value())
}

fn do_once(
    alloc: Global,
    digest: &mut Digest,
    draws: &mut Draws,
    job: Job,
    number: u64,
) -> Result<(), AllocError> {
    match job {
        Job::Read => read(alloc, digest, draws, number, true),
        Job::ReadTops => read(alloc, digest, draws, number, number % 40 == 0),
        Job::Format => laid_out(alloc, digest, draws, number),
        Job::Check => checked(alloc, digest, draws, number),
        Job::HandOn => handed_on(alloc, digest, draws, number),
        Job::List => listed(alloc, digest, draws),
        Job::Awkward => awkward(alloc, digest, draws),
        Job::All => do_all(alloc, digest, draws, number),
    }
}

fn do_all(
    alloc: Global,
    digest: &mut Digest,
    draws: &mut Draws,
    number: u64,
) -> Result<(), AllocError> {
    read(alloc, digest, draws, number, true)?;
    laid_out(alloc, digest, draws, number)?;
    checked(alloc, digest, draws, number)?;
    handed_on(alloc, digest, draws, number)?;
    listed(alloc, digest, draws)?;
    awkward(alloc, digest, draws)
}

// The next source of a site. One in five thousand is great.
fn next_source(alloc: Global, draws: &mut Draws, number: u64) -> Result<String, AllocError> {
    if number % 5_000 == 1_999 {
        let seed = draws.next();
        return source(alloc, seed, Kind::Page, 400_000);
    }
    site_source(alloc, draws)
}

fn parsed(alloc: Global, source: &str) -> Result<ParserOutput, Error> {
    Parser::new(alloc, "page.html", source, Delimiters::default()).parse()
}

// Reads a source. The top of its tree is in the digest, and where that is wanted the whole.
fn read(
    alloc: Global,
    digest: &mut Digest,
    draws: &mut Draws,
    number: u64,
    is_whole: bool,
) -> Result<(), AllocError> {
    let source = next_source(alloc, draws, number)?;
    match parsed(alloc, source.as_str()) {
        Ok(output) => {
            put_output(digest, &output);
            if is_whole {
                put_text(alloc, digest, &output)?;
            }
        }
        Err(error) => put_error(digest, &error),
    }
    Ok(())
}

fn put_text(alloc: Global, digest: &mut Digest, output: &ParserOutput) -> Result<(), AllocError> {
    let text = tree_text(alloc, output)?;
    digest.put_bytes(text.as_bytes());
    Ok(())
}

fn laid_out(
    alloc: Global,
    digest: &mut Digest,
    draws: &mut Draws,
    number: u64,
) -> Result<(), AllocError> {
    let source = next_source(alloc, draws, number)?;
    match parsed(alloc, source.as_str()) {
        Ok(output) => put_output(digest, &output),
        Err(error) => put_error(digest, &error),
    }
    put_layout(alloc, digest, source.as_str());
    Ok(())
}

fn put_layout(alloc: Global, digest: &mut Digest, source: &str) {
    match format(alloc, source) {
        Ok(text) => digest.put_bytes(text.as_bytes()),
        Err(error) => put_error(digest, &error),
    }
}

fn handed_on(
    alloc: Global,
    digest: &mut Digest,
    draws: &mut Draws,
    number: u64,
) -> Result<(), AllocError> {
    let source = next_source(alloc, draws, number)?;
    hand_on(alloc, digest, source.as_str())
}

fn hand_on(alloc: Global, digest: &mut Digest, source: &str) -> Result<(), AllocError> {
    match parsed(alloc, source) {
        Ok(output) => {
            put_text(alloc, digest, &output)?;
            put_json(alloc, digest, &output)?;
            put_sources(alloc, digest, &output.nodes);
        }
        Err(error) => put_error(digest, &error),
    }
    Ok(())
}

fn put_json(alloc: Global, digest: &mut Digest, output: &ParserOutput) -> Result<(), AllocError> {
    let json = tree_json(alloc, output)?;
    digest.put_bytes(json.as_bytes());
    Ok(())
}

// The source of each expression at the top.
fn put_sources(alloc: Global, digest: &mut Digest, nodes: &Vec<Node>) {
    for node in nodes {
        if let Node::Expression(expression) = node {
            match source_of(alloc, expression) {
                Ok(text) => digest.put_bytes(text.as_bytes()),
                Err(error) => put_error(digest, &error),
            }
        }
    }
}

// A library, and templates that call it.
fn library(alloc: Global, draws: &mut Draws, calling: u64) -> Result<Vec<Template>, AllocError> {
    let mut templates = Vec::new(alloc);
    for file in 0..DEFINING {
        let source = defining_source(alloc, draws.next(), file)?;
        let name = format!(in alloc; "components/part_{file}.html")?;
        templates.push(read_template(alloc, name.as_str(), source.as_str(), 100)?)?;
    }
    for file in 0..calling {
        let source = calling_source(alloc, draws.next())?;
        let name = format!(in alloc; "pages/page_{file}.html")?;
        templates.push(read_template(alloc, name.as_str(), source.as_str(), 100)?)?;
    }
    Ok(templates)
}

// Checks a library. Every third time the findings are objects.
fn checked(
    alloc: Global,
    digest: &mut Digest,
    draws: &mut Draws,
    number: u64,
) -> Result<(), AllocError> {
    let templates = library(alloc, draws, 500)?;
    let catalogue = catalogue_of(alloc, &templates)?;
    for (at, template) in templates.iter().enumerate() {
        let findings = findings_of(alloc, &catalogue, false, at, template)?;
        for finding in &findings {
            let file = template.file.as_str();
            if number % 3 == 2 {
                digest.put_bytes(object_of(alloc, file, finding)?.as_slice());
            } else {
                let mut lines = String::new(alloc);
                push_lines(alloc, &mut lines, file, finding)?;
                digest.put_bytes(lines.as_bytes());
            }
        }
    }
    Ok(())
}

fn listed(alloc: Global, digest: &mut Digest, draws: &mut Draws) -> Result<(), AllocError> {
    let templates = library(alloc, draws, 20)?;
    let components = components_of(alloc, &templates)?;
    let page = html_of(alloc, components.as_slice())?;
    digest.put_bytes(page.as_slice());
    let json = json_of(alloc, components.as_slice())?;
    digest.put_bytes(json.as_slice());
    Ok(())
}

fn awkward(alloc: Global, digest: &mut Digest, draws: &mut Draws) -> Result<(), AllocError> {
    for kind in &ALL {
        let len = 20_000 + draws.below(200_000);
        let seed = draws.next();
        read_awkward(alloc, digest, seed, *kind, len)?;
    }
    Ok(())
}

fn read_awkward(
    alloc: Global,
    digest: &mut Digest,
    seed: u64,
    kind: Awkward,
    len: u64,
) -> Result<(), AllocError> {
    let source = awkward_source(alloc, seed, kind, len)?;
    hand_on(alloc, digest, source.as_str())?;
    put_layout(alloc, digest, source.as_str());
    Ok(())
}
