//! The templates of a site by their names: what each extends and includes, and what is found of that.
//!
//! It takes templates that were read, with their names. It gives what is around each (`IsSite`), and finds names that
//! no template has or that lead back to their template, and blocks that have none above them (`due_names`). What is
//! found of components is in `tera_check`.
//!
//! In the order of reading: specs `Pages` and `pages`; specs `Sites`, `site` and `above`; specs `Placed` and `Named`,
//! `named`; `messages`; specs `Found` and `found`, added to what else is found; specs `Kept` and `kept`, what is kept
//! apart from trees; specs `Alike` and `laws`.
#![tactic(auto)]

mod above;
mod found;
mod kept;
pub mod laws;
mod messages;
mod named;
mod pages;
mod site;

pub use found::{SiteNames, add_found, add_names, used_names};
pub use kept::{KeptPage, Surroundings};
pub use named::{names_due, names_found};
pub use pages::Page;
pub use site::{Around, Site};
