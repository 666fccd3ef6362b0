//! Templates that are read while allocations fail.

use scarce_memory::{Attempt, Seen, Verdict, refuse};
use std::alloc::{AllocError, Global};
use std::test::Fail;
use tera_check::{Template, read_template};

// Definitions, blocks, calls, a fault, and several.
const SOURCES: [&str; 6] = [
    "",
    "{% component ui.button(label: string, size: integer = 1) %}{{ label }}{% endcomponent %}",
    "{% component a.b() %}{% endcomponent %}{% component b() %}{% block c %}{% endblock %}{% endcomponent %}",
    "{% block a %}{% block b %}{{<ui.button label=\"x\"/>}}{% endblock %}{% endblock a %}",
    "{% component a() %}{% endcomponent %}\n{% component a() %}{% endcomponent %}",
    "{% component a(b c) %}{{ d e }}{% if f %}{% endcomponent %}{{ <a g=\"h\"/> }}{% endfor %}",
];

// A source, and what is read with ample memory.
#[derive(Drop)]
struct Reading<'a> {
    source: &'a str,
    expected: &'a Template,
}

impl Attempt for Reading<'_> {
    fn attempt(&self, alloc: Global) -> Seen {
        match read_template(alloc, "t", self.source, 100) {
            Ok(read) => Seen::answer(are_same(&read, self.expected)),
            Err(_) => Seen::Memory,
        }
    }
}

fn are_same(one: &Template, other: &Template) -> bool {
    one.parsed == other.parsed
        && one.defined_at == other.defined_at
        && one.parameters_at == other.parameters_at
        && text_read(one) == text_read(other)
}

// The text that was read in the place of a source with faults.
fn text_read(template: &Template) -> Option<&str> {
    match &template.mended {
        Some(mended) => Some(mended.text.as_str()),
        None => None,
    }
}

fn is_refused(alloc: Global, source: &str) -> Result<bool, AllocError> {
    let expected = &read_template(alloc, "t", source, 100)?;
    let verdict = refuse(alloc, &Reading { source, expected })?;
    Ok(matches!(verdict, Verdict::Refused(n) if n > 0))
}

#[test]
fn each_request_of_memory_may_be_refused(rt: HostRuntime) -> Result<(), Fail> {
    for source in &SOURCES {
        assert!(rt; is_refused(rt.alloc(), source)?, "{source}");
    }
    Ok(())
}
