//! `tera tree`.

ghost use Rattle.std.specs.Prelude.{◌≡◌, ◌++◌, map, option_map, IfOk, IfSome, OnOk, string_bytes};
ghost use Rattle.std.specs.List.{flat_map};
ghost use Rattle.tera_findings.specs.Findings.{finding_view};
ghost use Rattle.tera_templates.specs.Templates.{tree_of};
ghost use Rattle.tera_lexer.specs.grammar.Marks.{IsValid, default_marks, marks_of};
ghost use Rattle.tera_report.specs.FullTexts.{full_text};
ghost use Rattle.tera_tree.specs.Outputs.{output_view};
ghost use Rattle.tera_tree_text.specs.TreeText.{text_of};
ghost use Rattle.terminal_text.specs.Files.{source_of};
ghost use Rattle.tera_program_parts.specs.Lines.{lines_for};
ghost use Rattle.tera_jobs.specs.Sources.{marks_in};
ghost use Rattle.tera_jobs.specs.Trees.{IsShown, IsShownOf, IsTemplateOf, faults_text, tree_lines};

use crate::reading::{name_of, text_of};
use std::alloc::{AllocError, Global};
use std::rt::{Env, Files};
use tera_check::{
    Finding, Template, faults_of, finding_of_fault, read_template, read_template_between, tree_of,
};
use tera_files::{Source, read_source};
use tera_options::colours::{Terminals, style};
use tera_options::job::Tree;
use tera_parser::lexer::Delimiters;
use tera_parser::value::Error;
use tera_parser::{Parser, ParserOutput};
use tera_program_parts::markers::{other_markers_of, print_unfit};
use tera_program_parts::output::{lines_for, print_error, print_unread, put, put_error};
use tera_program_parts::status::Ended;
use tera_report::{push_full, tree_line_of};
use tera_show::tree_text;
use tera_tree_json::tree_json;
use terminal_text::{Sources, Style};

/// Shows the tree of the file.
pub fn run<R: Files + Env + Input + Print + Eprint + AllocGlobal>(
    rt: &R,
    terminals: Terminals,
    job: &Tree<'_, '_>,
) -> Ended {
    let markers = match other_markers_of(rt.alloc(), job.markers) {
        Ok(markers) => markers,
        Err(why) => {
            print_unfit(rt, &why);
            return Ended::failed();
        }
    };
    let name = name_of(job.file, job.common.stdin);
    let source = match read_source(rt, job.file, name) {
        Ok(source) => source,
        Err(why) => {
            print_unread(rt, name, why);
            return Ended::failed();
        }
    };
    let style = style(rt, job.common.colours, terminals.err);
    let shape = Shape {
        json: job.json,
        is_terminal: terminals.out,
    };
    let shown = if job.faulty {
        print_with_faults(rt, style, shape, markers, &source)
    } else {
        print_tree(rt, style, shape, markers, &source)
    };
    match shown {
        Ok(ended) => ended,
        Err(_) => {
            print_error(rt, name, "out of memory");
            Ended::failed()
        }
    }
}

// How a tree is written.
#[derive(Clone, Copy)]
struct Shape {
    json: bool,
    is_terminal: bool,
}

fn print_tree<R: Print + Eprint + AllocGlobal>(
    rt: &R,
    style: Style,
    shape: Shape,
    markers: Option<Delimiters>,
    source: &Source,
) -> Result<Ended, AllocError>
    requires { IfSome markers (λ m. IsValid (marks_of m)) }
{
    let alloc = rt.alloc();
    let (file, text) = (source.file.as_str(), source.text.as_str());
    let markers = match markers {
        Some(markers) => markers,
        None => Delimiters::default(),
    };
    match Parser::new(alloc, file, text, markers).parse() {
        Ok(output) => {
            let text = text_of_tree(alloc, shape, &output)?;
            Ok(Ended {
                found: false,
                failed: !put(rt, text.as_bytes()),
            })
        }
        Err(error) => {
            let text = fault_text(alloc, style, source, &error)?;
            Ok(Ended {
                found: true,
                failed: !put_error(rt, text.as_str()),
            })
        }
    }
}

// The text of the tree. JSON is exact on a terminal too, as it is for other programs.
fn text_of_tree(alloc: Global, shape: Shape, output: &ParserOutput) -> Result<String, AllocError> {
    if !shape.json {
        return lines_of_tree(alloc, shape.is_terminal, output);
    }
    let mut text = tree_json(alloc, output)?;
    text.push('\n')?;
    Ok(text)
}

fn lines_of_tree(
    alloc: Global,
    is_terminal: bool,
    output: &ParserOutput,
) -> Result<String, AllocError>
    ensures { IfOk result (λ t. string_bytes t
        ≡ lines_for is_terminal (text_of (output_view output.now))) }
{
    lines_for(alloc, is_terminal, tree_text(alloc, output)?)
}

// How many syntax errors of a source are reported with a tree.
const MAX_FAULTS: usize = 100;

// What is shown of a source, whatever faults it has.
#[derive(Drop)]
struct Shown {
    // The tree, which as JSON has the faults too.
    tree: Vec<u8>,
    // The faults, for people.
    faults: String,
    is_faulty: bool,
}

// Shows the tree of a source, whatever faults it has, and the faults.
fn print_with_faults<R: Print + Eprint + AllocGlobal>(
    rt: &R,
    style: Style,
    shape: Shape,
    markers: Option<Delimiters>,
    source: &Source,
) -> Result<Ended, AllocError>
    requires { IfSome markers (λ m. IsValid (marks_of m)) }
{
    let shown = shown_with_faults(rt.alloc(), style, shape, markers, source)?;
    let is_written = put(rt, shown.tree.as_slice());
    Ok(Ended {
        found: shown.is_faulty,
        failed: !is_written || !put_error(rt, shown.faults.as_str()),
    })
}

fn shown_with_faults(
    alloc: Global,
    style: Style,
    shape: Shape,
    markers: Option<Delimiters>,
    source: &Source,
) -> Result<Shown, AllocError>
    requires { IfSome markers (λ m. IsValid (marks_of m)) }
    ensures { IfOk result (IsShown style shape (marks_in markers) source.now) }
{
    let template = template_of(alloc, markers, source)?;
    let shown = shown_of(alloc, style, shape, source, &template)?;
    Ok(shown)
}

fn template_of(
    alloc: Global,
    markers: Option<Delimiters>,
    source: &Source,
) -> Result<Template, AllocError>
    requires { IfSome markers (λ m. IsValid (marks_of m)) }
    ensures { IfOk result (IsTemplateOf (marks_in markers) source.now) }
{
    match markers {
        Some(markers) => template_between(alloc, markers, source),
        None => usual_template(alloc, source),
    }
}

fn usual_template(alloc: Global, source: &Source) -> Result<Template, AllocError>
    ensures { IfOk result (IsTemplateOf default_marks source.now) }
{
    let (file, text) = (source.file.as_str(), source.text.as_str());
    let template = read_template(alloc, file, text, MAX_FAULTS)?;
    Ok(template)
}

// The template with other markers. Only its first fault is known.
fn template_between(
    alloc: Global,
    markers: Delimiters,
    source: &Source,
) -> Result<Template, AllocError>
    requires { IsValid (marks_of markers) }
    ensures { IfOk result (IsTemplateOf (marks_of markers) source.now) }
{
    let (file, text) = (source.file.as_str(), source.text.as_str());
    let template = read_template_between(alloc, file, text, markers)?;
    Ok(template)
}

// What is shown of the template that was read from a source.
fn shown_of(
    alloc: Global,
    style: Style,
    shape: Shape,
    source: &Source,
    template: &Template,
) -> Result<Shown, AllocError>
    ensures { IfOk result (IsShownOf style shape source.now template.now) }
{
    let is_faulty = template.parsed.is_err();
    if shape.json {
        return Ok(Shown {
            tree: tree_line_of(alloc, template)?,
            faults: String::new(alloc),
            is_faulty,
        });
    }
    let faults = faults_of(alloc, template)?;
    Ok(Shown {
        tree: lines_if_any(alloc, shape.is_terminal, template)?.into_bytes(),
        faults: faults_text(alloc, style, source, &faults)?,
        is_faulty,
    })
}

// The lines of the tree, if there is one.
fn lines_if_any(alloc: Global, is_terminal: bool, template: &Template) -> Result<String, AllocError>
    ensures { IfOk result (λ t. string_bytes t
        ≡ tree_lines is_terminal (option_map output_view (tree_of template.now))) }
{
    match tree_of(template) {
        Some(output) => lines_of_tree(alloc, is_terminal, output),
        None => Ok(String::new(alloc)),
    }
}

// The texts of the faults of a source, one after another.
fn faults_text(
    alloc: Global,
    style: Style,
    source: &Source,
    faults: &Vec<Finding>,
) -> Result<String, AllocError>
    ensures { IfOk result (λ t. string_bytes t
        ≡ faults_text style source.now (map finding_view faults.now.items)) }
{
    let mut sources = text_of(alloc, source)?;
    let mut text = String::new(alloc);
    push_faults(
        alloc,
        &mut text,
        style,
        source.file.as_str(),
        &mut sources,
        faults,
    )?;
    Ok(text)
}

fn push_faults(
    alloc: Global,
    to: &mut String,
    style: Style,
    file: &str,
    sources: &mut Sources<'_>,
    faults: &Vec<Finding>,
) -> Result<(), AllocError>
    ensures { OnOk result (string_bytes to.new ≡ string_bytes to.old ++ flat_map
        (full_text style (source_of sources.old) file.now) (map finding_view faults.now.items)) }
{
    for fault in faults {
        push_full(alloc, to, style, file, sources, fault)?;
    }
    Ok(())
}

/// The text of the fault of a source.
pub(crate) fn fault_text(
    alloc: Global,
    style: Style,
    source: &Source,
    error: &Error,
) -> Result<String, AllocError> {
    let file = source.file.as_str();
    let finding = finding_of_fault(alloc, file, error)?;
    let mut sources = text_of(alloc, source)?;
    let mut text = String::new(alloc);
    push_full(alloc, &mut text, style, file, &mut sources, &finding)?;
    Ok(text)
}
