//! A language server for templates: it takes messages of the Language Server Protocol, and returns messages.
//!
//! It takes the bytes of messages as they come (`Server::handle`), and the texts of files that it asks for
//! (`Server::load`). When no message waits, it publishes what is found in the current texts (`Server::settle`). It does
//! no input or output. It depends on `json_rpc` for messages, on `tera_workspace` for documents and what is found in
//! them, on `tera_editor` for what is known of the editor and of files, and on `tera_answers` for the results of
//! requests. It passes on the public names of the last two that a caller needs.
//!
//! In the order of reading: specs `States`, `Requests`, `Notes`, `Steps`, `Settling`; `server`, and the two kinds of
//! messages, `requests` and `notes`; `configuring`, the settings of folders; `naming`, templates by their names below a
//! root; `between`, what is found between other markers; `findings`, which publishes what is found; `laws`.
#![tactic(auto)]

mod between;
mod configuring;
mod findings;
pub mod laws;
mod naming;
mod notes;
mod requests;
mod server;

pub use configuring::FoundSettings;
pub use server::{Ended, Needed, OnDisk, Server};
pub use tera_answers::abilities::VERSION;
pub use tera_editor::settings::{FolderSettings, RuleSetting};
pub use tera_editor::sites::UsedName;
pub use tera_editor::unread::Reason;
pub use tera_workspace::Markers;
