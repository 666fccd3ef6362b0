//! What a server knows of an editor and of files: values that it keeps from message to message.
//!
//! It takes what the messages of the editor say of it and of documents, the settings of folders, and which files exist.
//! It knows nothing of messages, and does no input or output. It depends on `tera_workspace` for what is around the
//! templates of a site, on `tera_check` for the levels of rules, on `protocol_values` for what a client offers, and on
//! `file_uris`.
//!
//! In the order of reading: specs `Clients`, `Editors`; `client`, what the client can do, and `editor`, the documents that
//! it has open; `known` (specs `KnownFiles`) and `unread` (specs `UnreadFiles`), files that exist, or cannot be read;
//! `templates` (specs `Templates`), which files have which names; `settings` (specs `Settings`), by folders; `sites`
//! (specs `Sites`), templates by their names below a root.
#![tactic(auto)]

pub mod client;
pub mod editor;
pub mod known;
pub mod settings;
pub mod sites;
pub mod templates;
pub mod unread;
