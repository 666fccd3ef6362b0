//! Spans, errors and values of the template engine Tera.
//!
//! It takes texts, keys and values, and has spans, errors, maps of values and contexts. `value_view` is what a value
//! represents, and `Reports` says that an error has a text and a span. It depends on `indexmap` and `std_collections`
//! of the kit, and all other crates of templates depend on it.
//!
//! In the order of reading: `utils`, spans, and nodes with spans; `errors`; `kinds`, of values; `values`, with their
//! maps, and `keys`; `contexts`, names with values; `show`, values as text; `lanes`, of bytes; specs `Values`,
//! `ValueView`, `Errors`, `ErrorView` and `Pairs`. Then `copies`, `equality` and `laws`.
#![tactic(auto)]

mod contexts;
mod copies;
mod equality;
mod errors;
mod keys;
mod kinds;
pub mod lanes;
pub mod laws;
mod show;
mod utils;
mod values;

pub use contexts::Context;
pub use errors::{Error, ErrorKind, Note, ReportError};
pub use kinds::ValueKind;
pub use utils::{Span, Spanned};
pub use values::{Key, Map, MapOf, Value};
