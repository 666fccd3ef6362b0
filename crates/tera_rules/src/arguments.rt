//! The arguments of a call, compared with the parameters of the component.

ghost use Rattle.std.specs.Prelude.{◌≡◌, [], ◌++◌, ◌&&◌, not, if◌then◌else◌, Some, map, string_bytes, IfOk, OnOk};
ghost use Rattle.std.specs.BTreeSet.{contains_text};
ghost use Rattle.std.specs.Option.{option_map};
ghost use Rattle.tera_base.specs.Contexts.{found};
ghost use Rattle.tera_base.specs.ValueView.{value_view};
ghost use Rattle.tera_tree.specs.View.{argument_view, definition_view};
ghost use Rattle.tera_findings.specs.Findings.{finding_view, note_view};
ghost use Rattle.tera_rules.specs.Judged.{known_view, remark_view, defined_here, about, remarked, is_required, missed, refused_type, refused_name, refusal, counted, refused, refused_one, refused_findings, missing_findings};
ghost use Rattle.tera_rules.specs.Passed.{passed_view, named_view, is_in, AreNamesOf};

use crate::known::Known;
use crate::messages;
use crate::passed::{Named, Names, Passed};
use std::alloc::{AllocError, Global};
use tera_findings::{Finding, Kind, Note, push_finding};
use tera_parser::ast::ComponentArgument;
use tera_parser::refusals::{missing_argument, unknown_arguments, wrong_type};
use tera_parser::value::{Span, Value};

/// Adds a finding for each argument that the component does not accept, at the place of its value, from the last to the
/// first. If a name is passed more than once, its last value counts. The result is the names of all that is passed.
pub(crate) fn push_refused(
    alloc: Global,
    findings: &mut Vec<Finding>,
    known: &Known<'_>,
    mut passed: Vec<Passed<'_>>,
) -> Result<Names, AllocError>
    ensures findings { OnOk result (map finding_view findings.new.items
        ≡ map finding_view findings.old.items
        ++ refused_findings (known_view known.now) (map passed_view passed.entry.items)) }
    ensures names { IfOk result (λ names. AreNamesOf names (map passed_view passed.entry.items)) }
{
    let mut later = Names::none(alloc);
    'values: while let Some(one) = passed.pop() {
        push_if_refused(alloc, findings, known, &later, &one)?;
        later.add(&one)?;
    }
    Ok(later)
}

fn push_if_refused(
    alloc: Global,
    findings: &mut Vec<Finding>,
    known: &Known<'_>,
    later: &Names,
    one: &Passed<'_>,
) -> Result<(), AllocError>
    ensures { OnOk result (map finding_view findings.new.items ≡ map finding_view findings.old.items
        ++ refused_one (known_view known.now) (is_in later.now (passed_view one.now))
        later.now.more (passed_view one.now)) }
{
    let Passed::Named(named) = one else {
        return Ok(());
    };
    if later.under.contains(named.name.as_str()) {
        return Ok(());
    }
    push_named(alloc, findings, known, later.more, named)
}

fn push_named(
    alloc: Global,
    findings: &mut Vec<Finding>,
    known: &Known<'_>,
    more: bool,
    named: &Named<'_>,
) -> Result<(), AllocError>
    ensures { OnOk result (map finding_view findings.new.items ≡ map finding_view findings.old.items
        ++ refused (known_view known.now) more (named_view named.now)) }
{
    let remark = refusal(alloc, known, named.name.as_str(), counted(more, named))?;
    push_remark(alloc, findings, known, named.span, remark)
}

// The constant, unless a spread comes after it: that may pass another value, which counts then.
fn counted<'a>(more: bool, named: &Named<'a>) -> Option<&'a Value>
    ensures { option_map (λ v. value_view v.now) result
        ≡ counted more (named_view named.now).constant }
{
    if more { None } else { named.constant }
}

/// The kind of a finding about a call, and its text.
#[derive(Drop)]
pub(crate) struct Remark {
    pub(crate) kind: Kind,
    pub(crate) message: String,
}

/// Adds a finding with the remark, if there is one.
pub(crate) fn push_remark(
    alloc: Global,
    findings: &mut Vec<Finding>,
    known: &Known<'_>,
    span: &Span,
    remark: Option<Remark>,
) -> Result<(), AllocError>
    ensures { OnOk result (map finding_view findings.new.items ≡ map finding_view findings.old.items
        ++ remarked (known_view known.now) span.now (option_map remark_view remark)) }
{
    match remark {
        Some(remark) => push_finding(findings, about(alloc, known, span, remark)?),
        None => Ok(()),
    }
}

// A finding about a call of the component, with a note at the component's definition.
fn about(
    alloc: Global,
    known: &Known<'_>,
    span: &Span,
    remark: Remark,
) -> Result<Finding, AllocError>
    ensures { IfOk result (λ f. finding_view f
        ≡ about (known_view known.now) span.now (remark_view remark)) }
{
    let note = defined_here(alloc, known)?;
    Finding::with_note(alloc, remark.kind, span, remark.message, note)
}

fn defined_here(alloc: Global, known: &Known<'_>) -> Result<Note, AllocError>
    ensures { IfOk result (λ n. note_view n ≡ defined_here (known_view known.now)) }
{
    let name = known.definition.name.as_str();
    Ok(Note {
        file: String::from_str(alloc, known.file)?,
        span: known.span.copied(),
        message: messages::defined_here(alloc, name)?,
    })
}

// Why the component does not accept a value under the name, if it does not. The type of a value is known only if it is
// a constant.
fn refusal(
    alloc: Global,
    known: &Known<'_>,
    name: &str,
    constant: Option<&Value>,
) -> Result<Option<Remark>, AllocError>
    ensures { IfOk result (λ r. option_map remark_view r
        ≡ refusal (definition_view known.now.definition.now) name.now
        (option_map (λ v. value_view v.now) constant.entry)) }
{
    match argument_of(known, name) {
        Some(argument) => refused_type(alloc, name, argument, constant),
        None => refused_name(alloc, known, name),
    }
}

fn argument_of<'a>(known: &Known<'a>, name: &str) -> Option<&'a ComponentArgument>
    ensures { option_map (λ a. argument_view a.now) result
        ≡ found name.now (definition_view known.now.definition.now).arguments }
{
    known.definition.kwargs.get(name)
}

// The remark that the constant has another type than the argument, if it has.
fn refused_type(
    alloc: Global,
    name: &str,
    argument: &ComponentArgument,
    constant: Option<&Value>,
) -> Result<Option<Remark>, AllocError>
    ensures { IfOk result (λ r. option_map remark_view r
        ≡ refused_type argument.now.typ name.now
        (option_map (λ v. value_view v.now) constant.entry)) }
{
    match constant {
        Some(value) => wrong_value(alloc, name, argument, value),
        None => Ok(None),
    }
}

fn wrong_value(
    alloc: Global,
    name: &str,
    argument: &ComponentArgument,
    value: &Value,
) -> Result<Option<Remark>, AllocError>
    ensures { IfOk result (λ r. option_map remark_view r
        ≡ refused_type argument.now.typ name.now (Some (value_view value.now))) }
{
    if argument.type_matches(value) {
        return Ok(None);
    }
    match argument.typ {
        Some(typ) => Ok(Some(Remark {
            kind: Kind::WrongType,
            message: wrong_type(alloc, name, value, typ)?,
        })),
        None => Ok(None),
    }
}

// The remark on a name that is none of the component's arguments, unless the component takes any others.
fn refused_name(alloc: Global, known: &Known<'_>, name: &str) -> Result<Option<Remark>, AllocError>
    ensures { IfOk result (λ r. option_map remark_view r
        ≡ refused_name (definition_view known.now.definition.now) name.now) }
{
    match &known.definition.rest_param_name {
        Some(_) => Ok(None),
        None => Ok(Some(Remark {
            kind: Kind::UnknownArgument,
            message: unknown_arguments(alloc, &[name], known.definition)?,
        })),
    }
}

/// Adds a finding for each argument that has to be given and is not passed, at the place of the call.
pub(crate) fn push_missing(
    alloc: Global,
    findings: &mut Vec<Finding>,
    known: &Known<'_>,
    passed: &Names,
    span: &Span,
) -> Result<(), AllocError>
    ensures { OnOk result (map finding_view findings.new.items ≡ map finding_view findings.old.items
        ++ (if passed.now.more then [] else missing_findings (known_view known.now) (contains_text
        passed.now.under) span.now)) }
{
    if passed.more {
        return Ok(());
    }
    for (name, argument) in known.definition.kwargs.iter() {
        let remark = missed(alloc, passed, name.as_str(), argument)?;
        push_remark(alloc, findings, known, span, remark)?;
    }
    Ok(())
}

// The remark that nothing is passed for the argument, if something has to be.
fn missed(
    alloc: Global,
    passed: &Names,
    name: &str,
    argument: &ComponentArgument,
) -> Result<Option<Remark>, AllocError>
    ensures { IfOk result (λ r. option_map remark_view r
        ≡ missed (contains_text passed.now.under) (name.now, argument_view argument.now)) }
{
    if is_missing(passed, name, argument) {
        Ok(Some(Remark {
            kind: Kind::MissingArgument,
            message: missing_argument(alloc, name, argument.typ, false)?,
        }))
    } else {
        Ok(None)
    }
}

fn is_missing(passed: &Names, name: &str, argument: &ComponentArgument) -> bool
    ensures { result
        ≡ (is_required (argument_view argument.now) && not (contains_text passed.now.under
        name.now)) }
{
    is_required(argument) && !passed.under.contains(name)
}

// Whether the argument has to be given.
fn is_required(argument: &ComponentArgument) -> bool
    ensures { result ≡ is_required (argument_view argument.now) }
{
    !argument.implicit && argument.default.is_none()
}
