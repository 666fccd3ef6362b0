//! Expressions and nodes of a template of the engine Tera.
//!
//! It takes the parts of a node and its place, and makes expressions and nodes. It has their copies, their equality,
//! and the text of an expression. `expression_view` and `node_view` are what they represent, wherever they are in
//! memory. It depends on `tera_base`, and `tera_tree` re-exports its public names.
//!
//! In the order of reading: `ast`, the types; `forms`, to match them by value; `build`, which makes them; `read`, what
//! the form alone says; `show` and `parts`, their texts; specs `Tree`, `View` and `Text`. Then `comparison`, `copies`
//! and `laws`.
#![tactic(auto)]

mod ast;
pub mod build;
mod comparison;
mod copies;
mod forms;
pub mod laws;
mod parts;
mod read;
mod show;

pub use ast::{
    Array, ArrayEntry, ArrayEntryOf, ArrayOf, BinaryOperation, BinaryOperationOf, BinaryOperator,
    Block, BlockOf, BlockSet, ComponentCall, Expression, Filter, FilterOf, FilterSection, ForLoop,
    FunctionCall, FunctionCallOf, GetAttr, GetAttrOf, GetItem, GetItemOf, If, Include,
    ListComprehension, ListComprehensionOf, Map, MapEntry, MapEntryOf, MapOf, Node, Set, SetOf,
    Slice, SliceOf, Ternary, TernaryOf, Test, TestOf, UnaryOperation, UnaryOperationOf,
    UnaryOperator, Var,
};
pub use forms::{ExpressionForm, NodeForm};
pub use parts::{WithArguments, WithAttributes};
