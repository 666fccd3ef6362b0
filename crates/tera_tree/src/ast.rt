//! Definitions of components.

use std::collections::BTreeMap;
use tera_ast::Node;
use tera_base::Value;

/// What an argument of a component may be. Outside this crate it is `Type`, a word that contracts have for
/// themselves.
#[derive(Clone, Copy, Debug, PartialEq, Eq)]
pub enum ArgType {
    String,
    Bool,
    Integer,
    Number,
    Array,
    Map,
    Bytes,
}

/// An argument of a component.
#[derive(Debug, Default, Drop)]
pub struct ComponentArgument {
    pub default: Option<Value>,
    pub typ: Option<ArgType>,
    pub implicit: bool,
}

/// The definition of a component.
#[derive(Debug, Drop)]
pub struct ComponentDefinition {
    pub name: String,
    pub kwargs: BTreeMap<String, ComponentArgument>,
    pub rest_param_name: Option<String>,
    pub metadata: BTreeMap<String, Value>,
    pub body: Vec<Node>,
}
