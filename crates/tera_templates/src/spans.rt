//! Where a template defines its components.

ghost use Rattle.std.specs.Prelude.{◌≡◌, IfOk, map};
ghost use Rattle.tera_tags.specs.Known.{located_of};
ghost use Rattle.tera_tree.specs.View.{definition_view};
ghost use Rattle.tera_findings.specs.Findings.{span_if_any};

use std::alloc::{AllocError, Global};
use tera_findings::first_span;
use tera_parser::Names;
use tera_parser::ast::ComponentDefinition;
use tera_parser::value::Span;

/// Where the names of the components with these definitions are, in their order: the last part of each name.
pub(crate) fn spans_of(
    alloc: Global,
    names: &Names,
    definitions: &Vec<ComponentDefinition>,
) -> Result<Vec<Span>, AllocError>
    ensures { IfOk result (λ v. v.items
        ≡ map (λ d. span_if_any (located_of names.now.components d.name))
        (map definition_view definitions.now.items)) }
{
    let mut spans = Vec::new(alloc);
    'definitions: for definition in definitions {
        spans.push(span_named(names, definition.name.as_str()))?;
    }
    Ok(spans)
}

// Where the name of this component is; if the template has no place for it, the start of the file.
fn span_named(names: &Names, name: &str) -> Span
    ensures { result ≡ span_if_any (located_of names.now.components name.now) }
{
    match names.components.get(name) {
        Some(span) => span.copied(),
        None => first_span(),
    }
}
