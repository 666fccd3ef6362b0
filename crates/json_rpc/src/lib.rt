//! Messages of JSON-RPC 2.0 as the Language Server Protocol has them, without batches.
//!
//! [`Incoming`] reads the bytes of a message, and [`Message`] says what it is. If an allocation fails, [`id_to_answer`]
//! finds the id with a scratch alone. A message to send is begun and ended by the functions of `writing`, and the
//! caller writes the value between. [`Outbox`] holds messages to send, and memory in reserve, so that each request has
//! an answer. It depends on `json` of the kit alone. It knows no methods, and nothing of the headers before messages in
//! a stream.
//!
//! A message is an object; its member `jsonrpc` is not read. If two members have one name, the last counts. An id is a
//! number or a text of at most 128 bytes, and the text of the number is kept as it was written.
//!
//! In the order of reading: specs `Ids`, `Messages` and `Read`; `id`, `message` and `incoming`, with `Shown`; specs
//! `Codes` and `Writing`; `code` and `writing`; `Outgoing`; `outbox`, and `refusing` with `Room`; `unread`, with
//! `Outline`, `OutlineRead` and `Outlined`; `laws`, with `Laws`.
#![tactic(auto)]

mod code;
mod id;
mod incoming;
pub mod laws;
mod message;
mod outbox;
mod refusing;
mod unread;
mod writing;

pub use code::Code;
pub use id::Id;
pub use incoming::Incoming;
pub use message::Message;
pub use outbox::Outbox;
pub use unread::id_to_answer;
pub use writing::{begin_answer, begin_notification, begin_request, end_message};
