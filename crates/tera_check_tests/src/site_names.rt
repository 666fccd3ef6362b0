//! What is found of the names of templates in a site: one fault of each kind, beside look-alikes that are right.

use std::alloc::{AllocError, Global};
use std::collections::BTreeSet;
use std::test::Fail;
use tera_check::{Template, all_found, read_template};
use tera_report::push_lines;
use tera_site::{
    Around, KeptPage, Site, SiteNames, Surroundings, add_found, add_names, used_names,
};

const PLANTED: [(&str, &str); 16] = [
    (
        "base",
        "{% block a %}{% block inner %}{% endblock %}{% endblock %}{% include \"part\" %}",
    ),
    ("part", "{% include \"unread\" %}"),
    (
        "child",
        "{% extends \"base\" %}{% block a %}{{ super() }}{% block new %}{{ super() }}{% endblock %}{% endblock %}\n{% block b %}{{ super() }}{% endblock %}",
    ),
    (
        "grand",
        "{% extends \"child\" %}{% block inner %}{{ super() }}{% endblock %}{% block b %}{{ super() }}{% endblock %}\n{% block c %}{% endblock %}",
    ),
    (
        "lost",
        "{# #}{% extends \"nowhere\" %}{% block x %}{{ super() }}{% endblock %}",
    ),
    ("below", "{% extends \"lost\" %}{% block y %}{% endblock %}"),
    (
        "itself",
        "{% extends \"itself\" %}{% block a %}{% endblock %}",
    ),
    ("one", "{% extends \"two\" %}"),
    ("two", "{% extends \"one\" %}"),
    (
        "three",
        "{% extends \"one\" %}{% block a %}{{ super() }}{% endblock %}",
    ),
    ("again", "{% if x %}{% include \"again\" %}{% endif %}"),
    ("first", "{% include \"second\" %}{% include \"base\" %}"),
    (
        "second",
        "{% for x in y %}{% include \"third\" %}{% endfor %}",
    ),
    ("third", "{% extends \"first\" %}"),
    (
        "includes",
        "{% include \"absent\" %}{% include \"first\" %}",
    ),
    (
        "alone",
        "{{ super() }}{% block z %}{{ super() | upper }}{% endblock %}{{ other.super }}",
    ),
];

const FOUND: &str =
    "child:1:65: warning[super-without-parent]: `super()` has no value: no parent template has a block named `new`
child:2:10: warning[undefined-block]: No parent template has a block named `b`
child:2:17: warning[super-without-parent]: `super()` has no value: no parent template has a block named `b`
grand:2:10: warning[undefined-block]: No parent template has a block named `c`
lost:1:17: error[missing-template]: No template is named `nowhere`
itself:1:12: error[circular-extends]: This template extends `itself`, which in turn extends this template
one:1:12: error[circular-extends]: This template extends `two`, which in turn extends this template
two:1:12: error[circular-extends]: This template extends `one`, which in turn extends this template
again:1:22: warning[circular-include]: This template includes `again`, which in turn includes or extends this template
first:1:12: warning[circular-include]: This template includes `second`, which in turn includes or extends this template
second:1:28: warning[circular-include]: This template includes `third`, which in turn includes or extends this template
includes:1:12: error[missing-template]: No template is named `absent`
alone:1:4: warning[super-without-parent]: `super()` is not in a block
alone:1:30: warning[super-without-parent]: `super()` has no value: no parent template has a block named `z`
";

#[derive(Drop)]
struct Read {
    names: SiteNames,
    templates: Vec<Template>,
}

// The planted site.
fn planted(alloc: Global) -> Result<Read, AllocError> {
    let mut names = Vec::new(alloc);
    let mut templates = Vec::new(alloc);
    for (name, source) in &PLANTED {
        names.push(Some(String::from_str(alloc, name)?))?;
        templates.push(read_template(alloc, name, source, 100)?)?;
    }
    let mut others = BTreeSet::new(alloc);
    others.insert(String::from_str(alloc, "unread")?)?;
    Ok(Read {
        names: SiteNames { names, others },
        templates,
    })
}

// What is found in the first so many templates.
fn found_in(alloc: Global, read: &Read, checked: usize) -> Result<String, AllocError> {
    let mut all = all_found(alloc, &read.templates, checked)?;
    add_names(alloc, &read.names, &read.templates, checked, &mut all)?;
    let mut lines = String::new(alloc);
    for found in &all {
        for finding in &found.findings {
            push_lines(alloc, &mut lines, found.file, finding)?;
        }
    }
    Ok(lines)
}

// What is found of names by what is kept of the pages, and of what is around them.
fn found_by_kept(alloc: Global, read: &Read) -> Result<String, AllocError> {
    let mut kept = Vec::new(alloc);
    for template in &read.templates {
        kept.push(KeptPage::of(alloc, template)?)?;
    }
    let mut pages = Vec::new(alloc);
    for page in &kept {
        pages.push(page.page(alloc)?)?;
    }
    let site = Site::of_pages(alloc, &read.names.names, &read.names.others, &pages)?;
    let mut lines = String::new(alloc);
    for (number, page) in pages.iter().enumerate() {
        let surroundings = Surroundings::of(alloc, site.around(number), page)?;
        if let Some(template) = read.templates.get(number) {
            push_found(alloc, &mut lines, &surroundings, template)?;
        }
    }
    Ok(lines)
}

fn push_found(
    alloc: Global,
    lines: &mut String,
    surroundings: &Surroundings,
    template: &Template,
) -> Result<(), AllocError> {
    let mut findings = Vec::new(alloc);
    add_found(alloc, Around::Kept(surroundings), template, &mut findings)?;
    for finding in &findings {
        push_lines(alloc, lines, template.file.as_str(), finding)?;
    }
    Ok(())
}

#[test]
fn the_same_is_found_by_what_is_kept(rt: HostRuntime) -> Result<(), Fail> {
    let read = planted(rt.alloc())?;
    let lines = found_by_kept(rt.alloc(), &read)?;
    assert_eq!(&rt; lines.as_str(), FOUND);
    Ok(())
}

#[test]
fn a_planted_site_has_these_findings(rt: HostRuntime) -> Result<(), Fail> {
    let read = planted(rt.alloc())?;
    let lines = found_in(rt.alloc(), &read, PLANTED.len())?;
    assert_eq!(&rt; lines.as_str(), FOUND);
    Ok(())
}

#[test]
fn templates_that_are_not_checked_have_none(rt: HostRuntime) -> Result<(), Fail> {
    let read = planted(rt.alloc())?;
    let lines = found_in(rt.alloc(), &read, 2)?;
    assert_eq!(&rt; lines.as_str(), "");
    Ok(())
}

#[test]
fn parents_and_includes_are_used(rt: HostRuntime) -> Result<(), Fail> {
    let read = planted(rt.alloc())?;
    let used = used_names(rt.alloc(), &read.templates)?;
    assert!(rt; used.contains(&"nowhere"));
    assert!(rt; used.contains(&"absent"));
    assert!(rt; !used.contains(&"alone"));
    Ok(())
}

#[test]
fn what_is_kept_says_what_a_template_extends(rt: HostRuntime) -> Result<(), Fail> {
    let extends = read_template(rt.alloc(), "a", "{% extends \"base\" %}", 100)?;
    let includes = read_template(rt.alloc(), "b", "{% include \"base\" %}", 100)?;
    let above = KeptPage::of(rt.alloc(), &extends)?;
    let beside = KeptPage::of(rt.alloc(), &includes)?;
    assert_eq!(&rt; above.parent(), Some("base"));
    assert_eq!(&rt; beside.parent(), None);
    Ok(())
}
