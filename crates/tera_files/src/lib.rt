//! The files that a program is asked to work on: which they are, their texts, and their replacement.
//!
//! It takes paths from a command line. It finds the files that they mean (`files_of`), reads the text of one
//! (`read_source`), or replaces the text of one (`replace`). It depends on `indexmap` of the kit, and knows nothing of
//! templates except their file extensions.
//!
//! In the order of reading: specs `Names` and `Paths`, what names say and the paths that they have in folders, and
//! `names`; `itself`, by which paths the system knows files; `listing`, files that were met; specs `Seen` and `seen`,
//! what is in a folder; specs `Below` and `below`, the templates below one; specs `Finding` and `finding`, of paths;
//! `reading`; specs `Beside` and `beside`, new files; specs `Replacing` and `replacing`.
#![tactic(auto)]

mod below;
mod beside;
mod finding;
mod itself;
mod listing;
mod names;
mod reading;
mod replacing;
mod seen;

pub use finding::{Found, Selection, Unlisted, files_of};
pub use names::{ends_in, is_left_out};
pub use reading::{Source, Unread, read_source, source_of};
pub use replacing::{Unwritten, replace};
