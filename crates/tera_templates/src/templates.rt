//! Templates that are read.

ghost use Rattle.std.specs.Prelude.{◌≡◌, [], None, Err, IfOk, IfErr, IfSome, MatchOption, MatchResult, map, option_map, string_bytes};
ghost use Rattle.tera_base.specs.Errors.{IsMemory};
ghost use Rattle.tera_lexer.specs.grammar.Marks.{IsValid, default_marks, marks_of};
ghost use Rattle.tera_grammar.specs.Limits.{usual};
ghost use Rattle.tera_grammar.specs.statements.Places.{Places};
ghost use Rattle.tera_grammar.specs.statements.Top.{Derives, DerivesNames};
ghost use Rattle.tera_parser.specs.Notes.{NotesName};
ghost use Rattle.tera_parser.specs.Refusal.{LosesSource, Refuses};
ghost use Rattle.tera_grammar.specs.statements.Reading.Meeting.{group_all, nothing_grouped};
ghost use Rattle.tera_tags.specs.Known.{AreNames, grouped_of};
ghost use Rattle.tera_tree.specs.Outputs.{output_view};
ghost use Rattle.tera_tree.specs.Tree.{Output};
ghost use Rattle.tera_tree.specs.View.{definition_view};
ghost use Rattle.tera_templates.specs.Templates.{HasHidden, definitions_of, tree_of};
ghost use Rattle.tera_findings.specs.Faults.{IsSyntaxError};
ghost use Rattle.tera_templates.specs.Ignores.{AreIgnoresIn, AreIgnoresOfMended, ignore_view, ignores_view, is_kept};
ghost use Rattle.tera_templates.specs.Mended.{IsMended, text_of};
ghost use Rattle.tera_templates.specs.Lost.{is_open};
ghost use Rattle.tera_templates.specs.Parents.{IsParentAt};

use crate::boundaries::is_same_part;
use crate::ignores::{Ignore, ignores_of};
use crate::mended::{Mended, read_mended};
use crate::parents::parent_at;
use crate::spans::spans_of;
use std::alloc::{AllocError, Global};
use std::collections::{BTreeMap, BTreeSet};
use tera_findings::is_memory;
use tera_parser::ast::ComponentDefinition;
use tera_parser::lexer::Delimiters;
use tera_parser::value::{Error, Span};
use tera_parser::{Names, Parser, ParserOutput};
use tera_rules::hidden_bodies;

/// A template that was read within the usual limits.
#[derive(Drop)]
pub struct Template {
    /// The name of its file.
    pub file: String,
    /// Its tree, or its first fault, which is a syntax error.
    pub parsed: Result<ParserOutput, Error>,
    /// If it has a fault and more than the first may be reported, what it is read as. Its tree is [`tree_of`] then.
    pub mended: Option<Mended>,
    /// Where each component of its tree is defined: the last part of its name, `button` for `ui.button`.
    pub defined_at: Vec<Span>,
    /// Where the parameters of each component are, by the name of the component and their own.
    pub parameters_at: BTreeMap<String, BTreeMap<String, Span>>,
    /// Where the name of the template that it extends is: the string.
    pub parent_at: Option<Span>,
    /// The rules that its comments silence.
    pub ignores: Vec<Ignore>,
    /// The names of its components that never show the body that they are given. If the template has a fault, none is
    /// known.
    pub bodies_hidden: BTreeSet<String>,
}

/// Reads the template in the file of this name. At most `faults` of its faults are reported; with 0 only the first is
/// known, and there is no tree of the rest. Faults are in the result, and an allocation failure is the error.
pub fn read_template(
    alloc: Global,
    file: &str,
    source: &str,
    faults: usize,
) -> Result<Template, AllocError>
    ensures file { IfOk result (λ t. string_bytes t.file ≡ file.now) }
    ensures sound { IfOk result (λ t. IfOk t.parsed
        (λ o. Derives usual default_marks source.now (output_view o))) }
    ensures complete { (output : Output) → Derives usual default_marks source.now output →
        IfOk result (λ t. MatchResult t.parsed (λ o. output_view o ≡ output) (λ _. ⊥)) }
    ensures fault { IfOk result (λ t. IfErr t.parsed IsSyntaxError) }
    ensures refusal { IfOk result (λ t. IfErr t.parsed (Refuses default_marks source.now)) }
    ensures lost { IfOk result (λ t. IfErr t.parsed (LosesSource usual default_marks source.now)) }
    ensures notes { IfOk result (λ t. IfErr t.parsed (NotesName file.now)) }
    ensures whole { IfOk result (λ t. IfOk t.parsed (λ _. t.mended ≡ None)) }
    ensures mended { IfOk result (λ t. IfSome t.mended (IsMended file.now source.now faults)) }
    ensures places { IfOk result (λ t. MatchOption (tree_of t)
        ((t.defined_at.items ≡ []) × (grouped_of t.parameters_at ≡ nothing_grouped))
        (λ o. (names : Places)
        × DerivesNames usual default_marks (text_of source.now t) (output_view o) names
        × (t.defined_at.items ≡ map (λ n. n.span) names.components)
        × (grouped_of t.parameters_at ≡ group_all names.parameters nothing_grouped))) }
    ensures parent { IfOk result (λ t. MatchOption (tree_of t) (t.parent_at ≡ None)
        (λ o. IsParentAt (text_of source.now t) (output_view o).parent t.parent_at)) }
    ensures ignores { IfOk result (AreIgnoresIn default_marks source.now) }
    ensures hidden { IfOk result HasHidden }
{
    let Template {
        file: name,
        parsed,
        defined_at,
        parameters_at,
        ignores,
        bodies_hidden,
        ..
    } = read_template_between(alloc, file, source, Delimiters::default())?;
    match parsed {
        Ok(output) => {
            let parent_at = parent_if_any(alloc, &output, source)?;
            Ok(Template {
                file: name,
                parsed: Ok(output),
                mended: None,
                defined_at,
                parameters_at,
                parent_at,
                ignores,
                bodies_hidden,
            })
        }
        Err(error) => with_fault(alloc, name, source, error, faults),
    }
}

/// Reads the template in the file of this name between other markers. Only the first of its faults is known, and then
/// there is no tree. The place of the name of a template that it extends is not known.
pub fn read_template_between(
    alloc: Global,
    file: &str,
    source: &str,
    markers: Delimiters,
) -> Result<Template, AllocError>
    requires { IsValid (marks_of markers) }
    ensures file { IfOk result (λ t. string_bytes t.file ≡ file.now) }
    ensures sound { IfOk result (λ t. IfOk t.parsed
        (λ o. Derives usual (marks_of markers) source.now (output_view o))) }
    ensures complete { (output : Output) → Derives usual (marks_of markers) source.now output →
        IfOk result (λ t. MatchResult t.parsed (λ o. output_view o ≡ output) (λ _. ⊥)) }
    ensures fault { IfOk result (λ t. IfErr t.parsed IsSyntaxError) }
    ensures refusal { IfOk result (λ t. IfErr t.parsed (Refuses (marks_of markers) source.now)) }
    ensures lost { IfOk result (λ t. IfErr t.parsed
        (LosesSource usual (marks_of markers) source.now)) }
    ensures notes { IfOk result (λ t. IfErr t.parsed (NotesName file.now)) }
    ensures alone { IfOk result (λ t. t.mended ≡ None) }
    ensures parent { IfOk result (λ t. t.parent_at ≡ None) }
    ensures ignores { IfOk result (AreIgnoresIn (marks_of markers) source.now) }
    ensures hidden { IfOk result HasHidden }
    ensures places { IfOk result (λ t. MatchOption (tree_of t)
        ((t.defined_at.items ≡ []) × (grouped_of t.parameters_at ≡ nothing_grouped))
        (λ o. (names : Places)
        × DerivesNames usual (marks_of markers) source.now (output_view o) names
        × (t.defined_at.items ≡ map (λ n. n.span) names.components)
        × (grouped_of t.parameters_at ≡ group_all names.parameters nothing_grouped))) }
{
    let name = String::from_str(alloc, file)?;
    let ignores = ignores_of(alloc, source, &markers)?;
    match parsed(alloc, file, source, markers) {
        Ok((output, names)) => {
            let bodies_hidden = hidden_bodies(alloc, &output.component_definitions)?;
            let defined_at = spans_of(alloc, &names, &output.component_definitions)?;
            Ok(Template {
                file: name,
                parsed: Ok(output),
                mended: None,
                defined_at,
                parameters_at: names.parameters,
                parent_at: None,
                ignores,
                bodies_hidden,
            })
        }
        Err(error) => {
            if is_memory(&error) {
                return Err(AllocError);
            }
            Ok(without_tree(alloc, name, error))
        }
    }
}

// A template with a fault.
fn with_fault(
    alloc: Global,
    file: String,
    source: &str,
    error: Error,
    faults: usize,
) -> Result<Template, AllocError>
    ensures file { IfOk result (λ t. t.file ≡ file) }
    ensures parsed { IfOk result (λ t. t.parsed ≡ Err error) }
    ensures mended { IfOk result (λ t.
        IfSome t.mended (IsMended (string_bytes file) source.now faults)) }
    ensures places { IfOk result (λ t. MatchOption t.mended
        ((t.defined_at.items ≡ []) × (grouped_of t.parameters_at ≡ nothing_grouped))
        (λ m. (names : Places)
        × DerivesNames usual default_marks (string_bytes m.text) (output_view m.output) names
        × (t.defined_at.items ≡ map (λ n. n.span) names.components)
        × (grouped_of t.parameters_at ≡ group_all names.parameters nothing_grouped))) }
    ensures parent { IfOk result (λ t. MatchOption t.mended (t.parent_at ≡ None)
        (λ m. IsParentAt (string_bytes m.text) (output_view m.output).parent t.parent_at)) }
    ensures ignores { IfOk result (λ t. MatchOption t.mended (t.ignores.items ≡ [])
        (λ m. AreIgnoresOfMended source.now m (ignores_view t.ignores.items))) }
    ensures hidden { IfOk result HasHidden }
{
    let Some((mended, names)) = read_mended(alloc, file.as_str(), source, faults)? else {
        return Ok(without_tree(alloc, file, error));
    };
    let defined_at = spans_of(alloc, &names, &mended.output.component_definitions)?;
    let parent_at = parent_if_any(alloc, &mended.output, mended.text.as_str())?;
    let ignores = ignores_of_mended(alloc, source, &mended)?;
    Ok(Template {
        file,
        parsed: Err(error),
        mended: Some(mended),
        defined_at,
        parameters_at: names.parameters,
        parent_at,
        ignores,
        bodies_hidden: BTreeSet::new(alloc),
    })
}

// A template of which only a fault is known.
fn without_tree(alloc: Global, file: String, error: Error) -> Template
    ensures { (result.file ≡ file) × (result.parsed ≡ Err error) × (result.mended ≡ None)
        × (result.defined_at.items ≡ []) × (grouped_of result.parameters_at ≡ nothing_grouped)
        × (result.parent_at ≡ None) × (result.ignores.items ≡ []) × HasHidden result }
{
    Template {
        file,
        parsed: Err(error),
        mended: None,
        defined_at: Vec::new(alloc),
        parameters_at: BTreeMap::new(alloc),
        parent_at: None,
        ignores: Vec::new(alloc),
        bodies_hidden: BTreeSet::new(alloc),
    }
}

// The ignores of a source with faults.
fn ignores_of_mended(
    alloc: Global,
    source: &str,
    mended: &Mended,
) -> Result<Vec<Ignore>, AllocError>
    ensures { IfOk result (λ v. AreIgnoresOfMended source.now mended.now (ignores_view v.items)) }
{
    let text = mended.text.as_str();
    let mut ignores = ignores_of(alloc, text, &Delimiters::default())?;
    ignores.retain(|ignore| is_kept(source, text, ignore));
    Ok(ignores)
}

// Whether the source has the comment of the ignore at the same place as the text.
fn is_kept(source: &str, text: &str, ignore: &Ignore) -> bool
    ensures { result ≡ is_kept source.now text.now (ignore_view ignore.now) }
{
    is_same_part(source, text, ignore.span.range.start, ignore.span.range.end)
}

// Where the text of this tree names the template that it extends.
fn parent_if_any(
    alloc: Global,
    output: &ParserOutput,
    text: &str,
) -> Result<Option<Span>, AllocError>
    ensures { IfOk result (IsParentAt text.now (output_view output.now).parent) }
{
    match &output.parent {
        Some(_) => parent_at(alloc, text),
        None => Ok(None),
    }
}

/// The tree of the template; if it has faults, the tree that it was mended to, if there is one.
pub fn tree_of(template: &Template) -> Option<&ParserOutput>
    ensures { option_map (λ o. o.now) result ≡ tree_of template.now }
{
    match (&template.parsed, &template.mended) {
        (Ok(output), _) => Some(output),
        (Err(_), Some(mended)) => Some(&mended.output),
        (Err(_), None) => None,
    }
}

/// The components that the template defines, by its tree.
pub fn definitions_of(template: &Template) -> &[ComponentDefinition]
    ensures { map definition_view result.now ≡ definitions_of template.now }
{
    match tree_of(template) {
        Some(output) => output.component_definitions.as_slice(),
        None => &[],
    }
}

/// Whether the template may define more components than its tree has: it has a fault and no tree, or the head or the
/// end of a definition was overwritten.
pub fn is_open(template: &Template) -> bool
    ensures { result ≡ is_open template.now }
{
    match (&template.parsed, &template.mended) {
        (Ok(_), _) => false,
        (Err(_), Some(mended)) => {
            mended.lost.contains_key("component") || mended.lost.contains_key("endcomponent")
        }
        (Err(_), None) => true,
    }
}

fn parsed(
    alloc: Global,
    file: &str,
    source: &str,
    markers: Delimiters,
) -> Result<(ParserOutput, Names), Error>
    requires { IsValid (marks_of markers) }
    ensures sound { IfOk result (λ p. (names : Places)
        × DerivesNames usual (marks_of markers) source.now (output_view p.0) names
        × AreNames p.1 names) }
    ensures complete { (output : Output) (names : Places) →
        DerivesNames usual (marks_of markers) source.now output names →
        MatchResult result (λ p. (output_view p.0 ≡ output) × AreNames p.1 names) IsMemory }
    ensures refusal { IfErr result (Refuses (marks_of markers) source.now) }
    ensures lost { IfErr result (LosesSource usual (marks_of markers) source.now) }
    ensures notes { IfErr result (NotesName file.now) }
{
    let parser = Parser::new(alloc, file, source, markers);
    parser.parse_with_names()
}
