//! A checker of templates: the fault of each, and over all of them together how components are defined and called.
//!
//! It takes templates that were read (`tera_templates`). It finds the faults of each, and what is wrong in its tree
//! (`tree_findings`), beside the others and by the rules of `tera_rules`; and it says what of that is reported. It
//! passes on the public names of `tera_findings` and `tera_templates`, which a caller needs. It depends on
//! `tera_parser`, and its code names nothing below it.
//!
//! In the order of reading: specs `Parameters`, `Named`, `OrderAndStatus`, `Alike`; `catalogue`; `parameters`, of one
//! component (specs `Scopes`); `silenced` (specs `Silenced`), and `due`, what of that is reported beside faults (specs
//! `Due`); `checked`, of a template, and `found`, of all; `unknown`, of each part by what a program registers (specs
//! `Unknown`); `unused_components`, over all templates (specs `UnusedComponents`; `Added`, what these add); `levels`,
//! what of all that is reported (specs `Levels`); `messages`, texts; `laws`.
#![tactic(auto)]

mod catalogue;
mod checked;
mod due;
mod found;
pub mod laws;
mod levels;
mod messages;
mod parameters;
mod silenced;
mod unknown;
mod unused_components;

pub use catalogue::{Catalogue, add_definitions, add_known, catalogue_of, known_at};
pub use checked::{faults_of, findings_of, put_in_order, status};
pub use due::push_due;
pub use found::{Found, all_found};
pub use levels::{Levels, RuleLevel, leave_reported};
pub use tera_findings::{
    Finding, KINDS, Kind, Note, Place, Severity, finding_of_fault, first_span, object_of,
    put_object, unread_object_of,
};
pub use tera_rules::registered::Registered;
pub use tera_rules::{Known, calls_of};
pub use tera_templates::{
    Ignore, Mended, Template, definitions_of, is_open, read_template, read_template_between,
    tree_of,
};
pub use unknown::{add_unknown, unknown_found};
pub use unused_components::add_unused_components;
