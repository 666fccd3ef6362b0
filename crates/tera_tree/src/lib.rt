//! The tree of a template of the engine Tera: a `ParserOutput` of definitions of components, with the expressions and
//! nodes of `tera_ast`.
//!
//! It has definitions of components, and the context of a call or the reason why there is none (`BuildsContext`). It
//! also has what a catalogue shows of components, what a template is read as (`output_view`), and the parts of a tree
//! (`children`). It depends on `tera_ast`, and re-exports its public names.
//!
//! In the order of reading: `ast` and `types`; `arguments`, what one takes; `refusals`, texts; `calls`, the contexts;
//! `infos` and `argument_infos`, for a catalogue; `parts`, for a walk over a tree; `definitions`, copies and equality;
//! `outputs`, whole trees; specs `Tree`, `View`, `Outputs`, `Calls`, `Outcomes` and `Parts`. Then `laws`.
#![tactic(auto)]

mod argument_infos;
mod arguments;
mod ast;
mod calls;
mod definitions;
mod infos;
pub mod laws;
mod outputs;
pub mod parts;
pub mod refusals;
mod types;

pub use argument_infos::{ComponentArg, ComponentArgType};
pub use ast::{ArgType, ComponentArgument, ComponentDefinition};
pub use infos::ComponentInfo;
pub use outputs::ParserOutput;
pub use tera_ast::{
    Array, ArrayEntry, ArrayEntryOf, ArrayOf, BinaryOperation, BinaryOperationOf, BinaryOperator,
    Block, BlockOf, BlockSet, ComponentCall, Expression, ExpressionForm, Filter, FilterOf,
    FilterSection, ForLoop, FunctionCall, FunctionCallOf, GetAttr, GetAttrOf, GetItem, GetItemOf,
    If, Include, ListComprehension, ListComprehensionOf, Map, MapEntry, MapEntryOf, MapOf, Node,
    NodeForm, Set, SetOf, Slice, SliceOf, Ternary, TernaryOf, Test, TestOf, UnaryOperation,
    UnaryOperationOf, UnaryOperator, Var, WithArguments, WithAttributes, build,
};
