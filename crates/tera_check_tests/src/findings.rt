//! Findings as objects of JSON, and those of errors without a place.

use std::alloc::{AllocError, Global};
use std::test::Fail;
use tera_check::{Finding, KINDS, Kind, Note, Place, Severity, finding_of_fault, object_of};
use tera_parser::value::{Error, Span};

const OBJECT: &str =
    r#"{"file":"a","line":3,"column":4,"end_line":3,"end_column":9,"message":"\"x\"\n","severity":"error","kind":"wrong-type","notes":[{"file":"b","line":1,"column":2,"end_line":1,"end_column":7,"message":"h"}]}
"#;

fn span(line: usize, column: usize, end: usize) -> Span {
    Span {
        start_line: line,
        start_col: column,
        end_line: line,
        end_col: end,
        ..Span::default()
    }
}

fn finding(alloc: Global, kind: Kind) -> Result<Finding, AllocError> {
    let mut notes = Vec::new(alloc);
    notes.push(Note {
        file: String::from_str(alloc, "b")?,
        span: span(1, 1, 6),
        message: String::from_str(alloc, "h")?,
    })?;
    Ok(Finding {
        kind,
        severity: kind.severity(),
        span: span(3, 3, 8),
        message: String::from_str(alloc, "\"x\"\n")?,
        notes,
    })
}

#[test]
fn a_finding_is_an_object(rt: HostRuntime) -> Result<(), Fail> {
    let object = object_of(rt.alloc(), "a", &finding(rt.alloc(), Kind::WrongType)?)?;
    assert!(rt; object.as_slice() == OBJECT.as_bytes());
    Ok(())
}

#[test]
fn what_is_not_used_is_a_warning(rt: HostRuntime) {
    for kind in &KINDS {
        let unused = matches!(
            kind,
            Kind::RepeatedArgument
                | Kind::UnusedBody
                | Kind::UnusedParameter
                | Kind::UnusedComponent
                | Kind::RepeatedKey
                | Kind::RepeatedCondition
                | Kind::UnusedIgnore
                | Kind::CircularInclude
                | Kind::UndefinedBlock
                | Kind::SuperWithoutParent
        );
        assert!(rt;
            (kind.severity() == Severity::Warning) == unused,
            "{kind:?}"
        );
    }
    assert_eq!(&rt; Severity::Error.name(), "error");
    assert_eq!(&rt; Severity::Warning.name(), "warning");
}

fn is_at_the_beginning(finding: &Finding, message: &str) -> bool {
    finding.kind == Kind::Fault
        && finding.place() == Place::first()
        && finding.message.as_str() == message
        && finding.notes.is_empty()
}

#[test]
fn a_message_is_where_a_file_begins(rt: HostRuntime) -> Result<(), Fail> {
    let error = Error::message(rt.alloc(), "refused");
    let finding = finding_of_fault(rt.alloc(), "a", &error)?;
    assert!(rt; is_at_the_beginning(&finding, "refused"));
    Ok(())
}

#[test]
fn each_kind_has_a_word_of_its_own(rt: HostRuntime) {
    for (number, kind) in KINDS.iter().enumerate() {
        for other in &KINDS[..number] {
            assert!(rt; kind.name() != other.name(), "{kind:?}");
        }
    }
}
