//! The parser of the template engine Tera: from the text of one template to its tree.
//!
//! It takes a file's name, a source, markers and limits, and gives the tree (`Derives`) or the fault (`Refuses`), whose
//! notes name the file. It depends on `tera_statements` and `tera_source`, and passes the public names on that a user
//! of it needs.
//!
//! For one expression, or a part of a tag that is made of expressions, it takes a cursor and a `Scope`. It gives what
//! `tera_expr_reader` gives, promised by the grammar: `TookExpression` and similar ones say what was taken, `TakesOnly`
//! that nothing else was.
//!
//! In the order of reading: `parsing`, the parser; the modules below, its names; `notes`; specs `Job`, `Refusal`,
//! `Notes` and `Comments`; specs `Promises`; `whole`, an expression; `outermost`, what else tags hold; `components`,
//! their names; `rereading`, an expression that is written back and parsed again. Then `laws`.
#![tactic(auto)]

mod components;
pub mod laws;
mod notes;
mod outermost;
mod parsing;
mod rereading;
mod whole;

pub use parsing::Parser;
pub use tera_expr_parts::Limits;
pub use tera_statements::{Names, ParserOutput};

/// Spans, errors and values.
pub mod value {
    pub use tera_base::{
        Context, Error, ErrorKind, Key, Map, MapOf, Note, ReportError, Span, Spanned, Value,
        ValueKind,
    };
}

/// The tree of a template.
pub mod ast {
    pub use tera_tree::parts::{Part, Parts, push_nodes, top_parts};
    pub use tera_tree::{
        ArgType as Type, Array, ArrayEntry, ArrayEntryOf, ArrayOf, BinaryOperation,
        BinaryOperationOf, BinaryOperator, Block, BlockOf, BlockSet, ComponentArg,
        ComponentArgType, ComponentArgument, ComponentCall, ComponentDefinition, ComponentInfo,
        Expression, ExpressionForm, Filter, FilterOf, FilterSection, ForLoop, FunctionCall,
        FunctionCallOf, GetAttr, GetAttrOf, GetItem, GetItemOf, If, Include, ListComprehension,
        ListComprehensionOf, Map, MapEntry, MapEntryOf, MapOf, Node, NodeForm, Set, SetOf, Slice,
        SliceOf, Ternary, TernaryOf, Test, TestOf, UnaryOperation, UnaryOperationOf, UnaryOperator,
        Var,
    };
}

/// The texts on calls of components that are refused.
pub mod refusals {
    pub use tera_tree::refusals::{missing_argument, unknown_arguments, wrong_type};
}

/// The markers of a template, its tokens, and the cursor over them.
pub mod lexer {
    pub use tera_lexer::{Cursor, Delimiters, Token, Tokens, tokenize};
}

/// The reading of expressions, and their source text.
pub mod expr {
    pub use crate::components::component_name;
    pub use crate::outermost::{attributes, filter, kwargs, literal_array, literal_map};
    pub use crate::rereading::reread;
    pub use crate::whole::expression;
    pub use tera_expr_parts::{Limits, Scope};
    pub use tera_source::source_of;
}
