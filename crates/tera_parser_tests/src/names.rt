//! The names that a template defines, with their places.

use std::alloc::Global;
use std::test::Fail;
use tera_parser::lexer::Delimiters;
use tera_parser::value::{Error, Span};
use tera_parser::{Names, Parser};

const SOURCE: &str = "é{% block head %}{% endblock head %}
{% component ui . button() %}{% endcomponent %}{% component b(title, @n = 1, ...rest) %}{% endcomponent %}
{% if w %}{% block head_end %}x{% endblock %}{% endif %}";

fn names_of(alloc: Global, source: &str) -> Result<Names, Error> {
    let parser = Parser::new(alloc, "page.html", source, Delimiters::default());
    let (_output, names) = parser.parse_with_names()?;
    Ok(names)
}

// Whether the span is that of a name of so many characters, which begins here.
fn is_span_at(span: Option<&Span>, line: usize, column: usize, len: usize) -> bool {
    match span {
        Some(span) => {
            span.start_line == line
                && span.start_col == column
                && span.end_line == line
                && span.end_col == column.saturating_add(len)
        }
        None => false,
    }
}

#[test]
fn each_name_has_its_place(rt: HostRuntime) -> Result<(), Fail> {
    let names = names_of(rt.alloc(), SOURCE)?;
    assert_eq!(rt; (names.blocks.len(), names.components.len()), (2, 2));
    assert!(rt; is_span_at(names.blocks.get("head"), 1, 10, 4), "{names:?}");
    assert!(rt;
        is_span_at(names.blocks.get("head_end"), 3, 19, 8),
        "{names:?}"
    );
    assert!(rt;
        is_span_at(names.components.get("ui.button"), 2, 18, 6),
        "{names:?}"
    );
    assert!(rt;
        is_span_at(names.components.get("b"), 2, 60, 1),
        "{names:?}"
    );
    Ok(())
}

#[test]
fn each_parameter_has_its_place(rt: HostRuntime) -> Result<(), Fail> {
    let names = names_of(rt.alloc(), SOURCE)?;
    assert_eq!(rt; names.parameters.len(), 2);
    match names.parameters.get("ui.button") {
        Some(none) => assert_eq!(rt; none.len(), 0),
        None => assert!(rt; false, "{names:?}"),
    }
    match names.parameters.get("b") {
        Some(parameters) => {
            assert_eq!(rt; parameters.len(), 3);
            assert!(rt; is_span_at(parameters.get("title"), 2, 62, 5), "{names:?}");
            assert!(rt; is_span_at(parameters.get("n"), 2, 70, 1), "{names:?}");
            assert!(rt; is_span_at(parameters.get("rest"), 2, 80, 4), "{names:?}");
        }
        None => assert!(rt; false, "{names:?}"),
    }
    Ok(())
}

#[test]
fn names_equal_their_copy(rt: HostRuntime) -> Result<(), Fail> {
    let names = names_of(rt.alloc(), SOURCE)?;
    let copy = names.clone()?;
    let is_copied = copy == names;
    let is_empty = Names::new(rt.alloc()) == names;
    assert!(rt; is_copied);
    assert!(rt; !is_empty);
    assert!(rt; names_of(rt.alloc(), "{{ a }}")? == Names::new(rt.alloc()));
    Ok(())
}
