//! What is found in a template.

ghost use Rattle.std.specs.Prelude.{◌≡◌, ◌∷◌, [], ◌++◌, map, OnOk};
ghost use Rattle.tera_findings.specs.Findings.{finding_view};

use std::alloc::{AllocError, Global};
use tera_parser::value::Span;

/// A place in a file: its line from 1, and its column from 1 in characters.
#[derive(Clone, Copy, Debug, PartialEq, Eq)]
pub struct Place {
    pub line: usize,
    pub column: usize,
}

/// The kind of a finding.
#[derive(Clone, Copy, Debug, PartialEq, Eq)]
pub enum Kind {
    /// The fault of a template.
    Fault,
    /// A call of a component that no template defines.
    UndefinedComponent,
    /// An argument that has to be given, and is not.
    MissingArgument,
    /// An argument that the component does not have.
    UnknownArgument,
    /// A constant of another type than its argument.
    WrongType,
    /// A value whose argument is given again in the same call, so that it does not count.
    RepeatedArgument,
    /// A body that is given to a component that never shows it.
    UnusedBody,
    /// A parameter that nothing in the body of its component names.
    UnusedParameter,
    /// A component that no template calls.
    UnusedComponent,
    /// A component that another template defines first.
    DefinedAgain,
    /// A value whose key is given again in the same map, so that it does not count.
    RepeatedKey,
    /// A condition of an `if` or an `elif` that is the same as one before it in the chain.
    RepeatedCondition,
    /// A rule that a comment names, though it silences no finding of the rule.
    UnusedIgnore,
    /// A name that a template extends or includes, but that no template has.
    MissingTemplate,
    /// A template that extends itself, by way of the templates that it extends.
    CircularExtends,
    /// An include that leads back to its own template.
    CircularInclude,
    /// A block at the top of a template that none of the templates that it extends has.
    UndefinedBlock,
    /// A `super()` outside of a block, or in a block that none of the templates that this one extends has.
    SuperWithoutParent,
    /// A filter that the program does not have.
    UnknownFilter,
    /// A test that the program does not have.
    UnknownTest,
    /// A function that the program does not have.
    UnknownFunction,
}

/// All kinds of findings.
pub const KINDS: [Kind; 21] = [
    Kind::Fault,
    Kind::UndefinedComponent,
    Kind::MissingArgument,
    Kind::UnknownArgument,
    Kind::WrongType,
    Kind::RepeatedArgument,
    Kind::UnusedBody,
    Kind::UnusedParameter,
    Kind::UnusedComponent,
    Kind::DefinedAgain,
    Kind::RepeatedKey,
    Kind::RepeatedCondition,
    Kind::UnusedIgnore,
    Kind::MissingTemplate,
    Kind::CircularExtends,
    Kind::CircularInclude,
    Kind::UndefinedBlock,
    Kind::SuperWithoutParent,
    Kind::UnknownFilter,
    Kind::UnknownTest,
    Kind::UnknownFunction,
];

/// The severity of a finding.
#[derive(Clone, Copy, Debug, PartialEq, Eq)]
pub enum Severity {
    /// The parser or Tera does not accept the template, or a call in it.
    Error,
    /// It is accepted, but it may not be what was meant.
    Warning,
}

/// What is found in a template: the span that it is about, its text, and notes that explain it.
#[derive(Debug, Drop)]
pub struct Finding {
    pub kind: Kind,
    pub severity: Severity,
    pub span: Span,
    pub message: String,
    pub notes: Vec<Note>,
}

/// A note that explains a finding, at a span of any file.
#[derive(Debug, Drop)]
pub struct Note {
    pub file: String,
    pub span: Span,
    pub message: String,
}

impl Place {
    ghost use Rattle.std.specs.Prelude.{◌≡◌};
    ghost use Rattle.tera_findings.specs.Findings.{place_of, end_of};

    /// Where the span begins.
    pub fn of(span: &Span) -> Place
        ensures { result ≡ place_of span.now }
    {
        Place {
            line: span.start_line,
            column: span.start_col.saturating_add(1),
        }
    }

    /// Where the span ends: the column after its last character.
    pub fn end_of(span: &Span) -> Place
        ensures { result ≡ end_of span.now }
    {
        Place {
            line: span.end_line,
            column: span.end_col.saturating_add(1),
        }
    }

    /// Where a file begins.
    pub fn first() -> Place
        ensures { result ≡ record { line = 1; column = 1 } }
    {
        Place { line: 1, column: 1 }
    }
}

impl Kind {
    ghost use Rattle.std.specs.Prelude.{◌≡◌, IfOk, string_bytes};
    ghost use Rattle.tera_findings.specs.Findings.{kind_name, severity_of, default_level, depends_on_others, label_of};

    /// The word for the kind, which stays the same from version to version.
    pub fn name(self) -> &'static str
        ensures { result.now ≡ kind_name self }
    {
        match self {
            Kind::Fault => "fault",
            Kind::UndefinedComponent => "undefined-component",
            Kind::MissingArgument => "missing-argument",
            Kind::UnknownArgument => "unknown-argument",
            Kind::WrongType => "wrong-type",
            Kind::RepeatedArgument => "repeated-argument",
            Kind::UnusedBody => "unused-body",
            Kind::UnusedParameter => "unused-parameter",
            Kind::UnusedComponent => "unused-component",
            Kind::DefinedAgain => "defined-again",
            Kind::RepeatedKey => "repeated-key",
            Kind::RepeatedCondition => "repeated-condition",
            Kind::UnusedIgnore => "unused-ignore",
            Kind::MissingTemplate => "missing-template",
            Kind::CircularExtends => "circular-extends",
            Kind::CircularInclude => "circular-include",
            Kind::UndefinedBlock => "undefined-block",
            Kind::SuperWithoutParent => "super-without-parent",
            Kind::UnknownFilter => "unknown-filter",
            Kind::UnknownTest => "unknown-test",
            Kind::UnknownFunction => "unknown-function",
        }
    }

    /// The severity of findings of the kind, unless another one is set for it.
    pub fn severity(self) -> Severity
        ensures { result ≡ severity_of self }
    {
        match self {
            Kind::Fault
            | Kind::UndefinedComponent
            | Kind::MissingArgument
            | Kind::UnknownArgument
            | Kind::WrongType
            | Kind::DefinedAgain
            | Kind::MissingTemplate
            | Kind::UnknownFilter
            | Kind::UnknownTest
            | Kind::UnknownFunction
            | Kind::CircularExtends => Severity::Error,
            Kind::RepeatedArgument
            | Kind::UnusedBody
            | Kind::UnusedParameter
            | Kind::UnusedComponent
            | Kind::RepeatedKey
            | Kind::RepeatedCondition
            | Kind::UnusedIgnore
            | Kind::CircularInclude
            | Kind::UndefinedBlock
            | Kind::SuperWithoutParent => Severity::Warning,
        }
    }

    /// What findings of the kind count for, unless something else is set. Unused components are not reported, as the
    /// program may call them.
    pub fn default_level(self) -> Option<Severity>
        ensures { result ≡ default_level self }
    {
        match self {
            Kind::UnusedComponent => None,
            _ => Some(self.severity()),
        }
    }

    /// Whether findings of the kind depend on what other files define or call, on the names of templates or on what a
    /// program registers. These may not be known.
    pub fn depends_on_others(self) -> bool
        ensures { result ≡ depends_on_others self }
    {
        match self {
            Kind::UnusedComponent
            | Kind::UnusedBody
            | Kind::DefinedAgain
            | Kind::MissingArgument
            | Kind::UnknownArgument
            | Kind::WrongType
            | Kind::MissingTemplate
            | Kind::CircularExtends
            | Kind::CircularInclude
            | Kind::UndefinedBlock
            | Kind::SuperWithoutParent
            | Kind::UnknownFilter
            | Kind::UnknownTest
            | Kind::UnknownFunction => true,
            Kind::Fault
            | Kind::UndefinedComponent
            | Kind::RepeatedArgument
            | Kind::UnusedParameter
            | Kind::RepeatedKey
            | Kind::RepeatedCondition
            | Kind::UnusedIgnore => false,
        }
    }

    /// How lines of text name a finding of this kind and severity, as `error[missing-argument]`.
    pub fn label(self, alloc: Global, severity: Severity) -> Result<String, AllocError>
        ensures { IfOk result (λ label. string_bytes label ≡ label_of self severity) }
    {
        let (severity, rule) = (severity.name(), self.name());
        format!(in alloc; "{severity}[{rule}]")
    }
}

impl Severity {
    ghost use Rattle.std.specs.Prelude.{◌≡◌};
    ghost use Rattle.tera_findings.specs.Findings.{severity_name};

    /// The word for it in lines of text.
    pub fn name(self) -> &'static str
        ensures { result.now ≡ severity_name self }
    {
        match self {
            Severity::Error => "error",
            Severity::Warning => "warning",
        }
    }
}

impl Finding {
    ghost use Rattle.std.specs.Prelude.{◌≡◌, ◌∷◌, [], IfOk, string_bytes};
    ghost use Rattle.tera_findings.specs.Findings.{place_of, FindingOf, finding_view, note_view};

    /// Where what it is about begins.
    pub fn place(&self) -> Place
        ensures { result ≡ place_of self.now.span }
    {
        Place::of(&self.span)
    }

    /// A finding without notes, with the severity of its kind.
    pub fn new(alloc: Global, kind: Kind, span: &Span, message: String) -> Finding
        ensures { finding_view result ≡ FindingOf kind span.now (string_bytes message) [] }
    {
        Finding {
            kind,
            severity: kind.severity(),
            span: span.copied(),
            message,
            notes: Vec::new(alloc),
        }
    }

    /// A finding with one note, as grave as its kind is.
    pub fn with_note(
        alloc: Global,
        kind: Kind,
        span: &Span,
        message: String,
        note: Note,
    ) -> Result<Finding, AllocError>
        ensures { IfOk result (λ f. finding_view f
            ≡ FindingOf kind span.now (string_bytes message) (note_view note ∷ [])) }
    {
        let mut finding = Finding::new(alloc, kind, span, message);
        finding.notes.push(note)?;
        Ok(finding)
    }
}

impl Note {
    ghost use Rattle.std.specs.Prelude.{◌≡◌};
    ghost use Rattle.tera_findings.specs.Findings.{place_of};

    /// Where what it is about begins.
    pub fn place(&self) -> Place
        ensures { result ≡ place_of self.now.span }
    {
        Place::of(&self.span)
    }
}

/// Adds the finding after the others.
#[tactic(auto, using(crate::proofs::FindingsLemmas::finding_more))]
pub fn push_finding(findings: &mut Vec<Finding>, finding: Finding) -> Result<(), AllocError>
    ensures { OnOk result (map finding_view findings.new.items
        ≡ map finding_view findings.old.items ++ (finding_view finding ∷ [])) }
{
    findings.push(finding)?;
    Ok(())
}
