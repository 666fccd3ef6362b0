//! Messages that come.

ghost use Rattle.std.specs.Prelude.{codes, option_map, option_and_then};
ghost use Rattle.std.proofs.Props.{props};
ghost use Rattle.json.specs.Find.{get};
ghost use Rattle.json.specs.Value.{value_view};
ghost use Rattle.json_rpc.specs.Ids.{HasNumberText};

use crate::message::{Message, message_in};
use json::{Error, Scratch, Value};
use std::alloc::{AllocError, Global};

/// What came, read as JSON.
#[derive(Debug, Drop)]
pub struct Incoming<'a> {
    // None where it is not JSON.
    tree: Option<Value<'a>>,
    ghost number: { HasNumberText (option_and_then (get (codes "id")) (option_map value_view tree)) } by { Prim.hlevel props },
}

impl<'a> Incoming<'a> {
    ghost use Rattle.std.specs.Prelude.{◌≡◌, IfOk};
    ghost use Rattle.json_rpc.specs.Messages.{json_of, message_in};
    ghost use Rattle.json_rpc.specs.Read.{incoming_view};
    ghost use Rattle.json_rpc.specs.Shown.{message_view};

    /// Reads bytes. What is not UTF-8, is not JSON, or nests deeper than 128 is read as [`Message::NotJson`].
    pub fn read(
        alloc: Global,
        bytes: &'a [u8],
        scratch: &'a mut Scratch,
    ) -> Result<Incoming<'a>, AllocError>
        ensures { IfOk result (λ i. incoming_view i ≡ json_of bytes.now) }
    {
        match Value::from_slice(alloc, bytes, scratch) {
            Ok(tree) => Ok(Incoming { tree: Some(tree) }),
            Err(Error::Invalid) => Ok(Incoming { tree: None }),
            Err(_) => Err(AllocError),
        }
    }

    /// What it says.
    pub fn message(&self) -> Message<'_, 'a>
        ensures { message_view result ≡ message_in (incoming_view self.now) }
    {
        match &self.tree {
            Some(tree) => message_in(tree),
            None => Message::NotJson,
        }
    }
}
