//! A component that is known.

use std::collections::BTreeMap;
use tera_parser::ast::ComponentDefinition;
use tera_parser::value::Span;

/// A component, and where it is defined.
#[derive(Drop)]
pub struct Known<'a> {
    pub definition: &'a ComponentDefinition,
    /// The number of its template among all templates.
    pub template: usize,
    pub file: &'a str,
    /// Where its name is in that file: the last part of the name.
    pub span: Span,
    /// Where its parameters are in that file, by their names.
    pub parameters: Option<&'a BTreeMap<String, Span>>,
    /// Whether it may show the body that it is given.
    pub shows_body: bool,
}
