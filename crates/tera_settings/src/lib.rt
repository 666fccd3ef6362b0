//! The settings of a site: what its file `tera.toml` means.
//!
//! It takes the text of the file and the names of the rules, and returns the settings (`settings_of`), or what is wrong
//! in the file, where (`Fault::place`), and what may have been meant (`Fault::message`). It depends on `toml` of the kit
//! for the text, and on `strsim` for what a word resembles.
//!
//! In the order of reading: `settings`; `fault`; specs `Values` and `Levels`, what values say, and `Meaning`, what a
//! table means; `section` and `reading`; specs `Places` and `places`; spec `Near` and `near`; spec `Messages` and
//! `messages`.
#![tactic(auto)]

mod fault;
mod messages;
mod near;
mod places;
mod reading;
mod section;
mod settings;

pub use fault::{Fault, Why, Wrong};
pub use near::nearest;
pub use places::place_of;
pub use reading::settings_of;
pub use settings::{Known, Level, RuleLevel, Settings};
