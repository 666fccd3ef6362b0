//! What the findings of rules count for.

use std::test::Fail;
use tera_check::{KINDS, Kind, Levels, RuleLevel, Severity};

fn level<'b, 'a>(
    select: Option<&'b [&'a str]>,
    ignore: Option<&'b [&'a str]>,
    kind: Kind,
) -> Option<Severity> {
    let set = [
        RuleLevel {
            rule: "fault",
            level: None,
        },
        RuleLevel {
            rule: "unused-parameter",
            level: Some(Severity::Error),
        },
        RuleLevel {
            rule: "missing-argument",
            level: Some(Severity::Warning),
        },
        RuleLevel {
            rule: "repeated-key",
            level: None,
        },
    ];
    let levels = Levels {
        select,
        ignore,
        set: &set,
    };
    levels.level(kind)
}

#[test]
fn a_rule_counts_for_what_it_is_set_to(rt: HostRuntime) {
    assert_eq!(&rt;
        level(None, None, Kind::UnusedParameter),
        Some(Severity::Error)
    );
    assert_eq!(&rt;
        level(None, None, Kind::MissingArgument),
        Some(Severity::Warning)
    );
    assert_eq!(&rt; level(None, None, Kind::RepeatedKey), None);
    assert_eq!(&rt;
        level(None, None, Kind::RepeatedArgument),
        Some(Severity::Warning)
    );
    assert_eq!(&rt; level(None, None, Kind::WrongType), Some(Severity::Error));
}

#[test]
fn a_rule_that_is_selected_is_on(rt: HostRuntime) {
    let select = ["repeated-key", "unused-parameter"];
    assert_eq!(&rt;
        level(Some(&select), None, Kind::RepeatedKey),
        Some(Severity::Warning)
    );
    assert_eq!(&rt;
        level(Some(&select), None, Kind::UnusedParameter),
        Some(Severity::Error)
    );
    assert_eq!(&rt; level(Some(&select), None, Kind::MissingArgument), None);
}

#[test]
fn a_rule_that_is_ignored_is_off(rt: HostRuntime) {
    let ignore = ["unused-parameter", "wrong-type"];
    assert_eq!(&rt; level(None, Some(&ignore), Kind::UnusedParameter), None);
    assert_eq!(&rt; level(Some(&ignore), Some(&ignore), Kind::WrongType), None);
    assert_eq!(&rt;
        level(None, Some(&ignore), Kind::MissingArgument),
        Some(Severity::Warning)
    );
}

#[test]
fn faults_are_errors(rt: HostRuntime) {
    let all = ["fault"];
    assert_eq!(&rt; level(None, None, Kind::Fault), Some(Severity::Error));
    assert_eq!(&rt; level(None, Some(&all), Kind::Fault), Some(Severity::Error));
    assert_eq!(&rt; level(Some(&[]), None, Kind::Fault), Some(Severity::Error));
}

#[test]
fn without_settings_each_kind_counts_as_it_is_if_it_is_on(rt: HostRuntime) -> Result<(), Fail> {
    let levels = Levels {
        select: None,
        ignore: None,
        set: &[],
    };
    for kind in &KINDS {
        let is_off = *kind == Kind::UnusedComponent;
        let level = if is_off { None } else { Some(kind.severity()) };
        assert_eq!(&rt; levels.level(*kind), level);
    }
    Ok(())
}

#[test]
fn a_rule_that_is_off_by_itself_is_on_where_it_is_set_or_selected(rt: HostRuntime) {
    let rules = ["unused-component"];
    let set = [RuleLevel {
        rule: "unused-component",
        level: Some(Severity::Error),
    }];
    assert_eq!(&rt; level(None, None, Kind::UnusedComponent), None);
    assert_eq!(&rt;
        level(Some(&rules), None, Kind::UnusedComponent),
        Some(Severity::Warning)
    );
    let levels = Levels {
        select: None,
        ignore: None,
        set: &set,
    };
    assert_eq!(&rt; levels.level(Kind::UnusedComponent), Some(Severity::Error));
}
