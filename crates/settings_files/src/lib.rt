//! The file of settings that counts for a path.
//!
//! It looks for the file `tera.toml` in the folder of a path and in the folders above it (`settings_above`), or takes
//! the one that is named (`settings_at`). It returns what the file means, and where its paths lead (`places_of`), or
//! what is wrong in it, with line and column. It depends on `tera_files` for the text of the file, on `tera_settings`
//! for what the text means, and on `text_edits` for lines.
//!
//! In the order of reading: `unfit`; spec `Configured` and `configured`, of a text; `above`; spec `Paths` and `places`.
#![tactic(auto)]

mod above;
mod configured;
mod places;
mod unfit;

pub use above::{NAME, settings_above, settings_at};
pub use configured::{Configured, settings_in};
pub use places::{Places, places_of};
pub use unfit::{Unfit, WrongFile};
