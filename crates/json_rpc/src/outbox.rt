//! Messages that are to be sent.

ghost use Rattle.std.specs.Prelude.{◌≡◌, ◌↔◌, [], length, IsTrue, IfOk, OnOk, OnErr, MatchResult, option_map, slice_get};
ghost use Rattle.json_rpc.specs.Outgoing.{nothing, more, with_refusal, IsAnswered};
ghost use Rattle.json_rpc.specs.Writing.{body, refusal};

use crate::code::Code;
use crate::id::Id;
use crate::refusing::{REFUSAL, push_refusal};
use std::alloc::{AllocError, Global};
use std::marker::Model;

/// Messages that are to be sent, and memory in reserve for one answer.
#[derive(Debug, Drop)]
pub struct Outbox {
    messages: Vec<Vec<u8>>,
    // Free, or the last of the messages.
    reserve: Vec<u8>,
}

impl Model for Outbox {
    ghost use Rattle.std.specs.Prelude.{◌≤◌, ◌++◌, map, vec_capacity};
    ghost use Rattle.json_rpc.specs.Outgoing.{Outgoing, in_reserve, is_free};
    ghost use Rattle.json_rpc.specs.declared.refusing.TheConstants.{REFUSAL};

    ghost Value = { Outgoing };

    ghost view = { λ o. record { sent = map (λ m. m.items) o.messages.items ++ in_reserve o.reserve.items; reserved = is_free o.reserve.items } };

    ghost invariant = { λ o. REFUSAL ≤ vec_capacity o.reserve };
}

impl Outbox {
    /// Nothing is to be sent.
    pub fn new(alloc: Global) -> Result<Outbox, AllocError>
        ensures { IfOk result (λ o. o ≡ nothing) }
    {
        Ok(Outbox {
            messages: Vec::new(alloc),
            reserve: Vec::with_capacity(alloc, REFUSAL)?,
        })
    }

    /// How many messages are to be sent.
    pub fn len(&self) -> usize
        ensures { result ≡ length self.now.sent }
    {
        if self.reserve.is_empty() {
            self.messages.len()
        } else {
            self.messages.len() + 1
        }
    }

    pub fn is_empty(&self) -> bool
        ensures { IsTrue result ↔ (self.now.sent ≡ []) }
    {
        self.messages.is_empty() && self.reserve.is_empty()
    }

    /// The bytes of the message of this number, from 0.
    pub fn get(&self, number: usize) -> Option<&[u8]>
        ensures { option_map (λ m. m.now) result ≡ slice_get self.now.sent number }
    {
        let len = self.messages.len();
        if number < len {
            Some(self.messages[number].as_slice())
        } else if number == len && !self.reserve.is_empty() {
            Some(self.reserve.as_slice())
        } else {
            None
        }
    }

    /// All were sent: nothing is to be sent, and the reserve is free.
    pub fn clear(&mut self)
        ensures { self.new ≡ nothing }
    {
        self.messages.clear();
        self.reserve.clear();
    }

    /// Whether the reserve is free. It holds an answer from an allocation failure on until the next [`Outbox::clear`].
    pub fn has_reserve(&self) -> bool
        ensures { result ≡ self.now.reserved }
    {
        self.reserve.is_empty()
    }

    /// Adds a message. Where the reserve is not free it is refused because an allocation failed.
    pub fn push(&mut self, message: Vec<u8>) -> Result<(), AllocError>
        ensures ok { OnOk result (self.new ≡ more self.old message.items) }
        ensures err { OnErr result (self.new ≡ self.old) }
    {
        if !self.reserve.is_empty() {
            return Err(AllocError);
        }
        self.messages.push(message)?;
        Ok(())
    }

    /// Answers a request by its result, a message that [`crate::begin_answer`] began, or refuses it. If an allocation
    /// fails for that, it is refused because an allocation failed, in the reserve, which is not free from then on.
    pub fn answer(&mut self, alloc: Global, id: &Id<'_>, result_or_code: Result<Vec<u8>, Code>)
        requires { IsTrue self.old.reserved }
        ensures { MatchResult result_or_code
            (λ message. IsAnswered self.old self.new id.now message.items)
            (λ code. IsAnswered self.old self.new id.now (body (refusal id.now code))) }
    {
        if self.try_answer(alloc, id, result_or_code).is_err() {
            self.refuse(id);
        }
    }

    // The same, where there is memory for it.
    fn try_answer(
        &mut self,
        alloc: Global,
        id: &Id<'_>,
        result_or_code: Result<Vec<u8>, Code>,
    ) -> Result<(), AllocError>
        ensures ok { MatchResult result_or_code
            (λ message. OnOk result (self.new ≡ more self.old message.items))
            (λ code. OnOk result (self.new ≡ more self.old (body (refusal id.now code)))) }
        ensures err { OnErr result (self.new ≡ self.old) }
    {
        match result_or_code {
            Ok(message) => self.push(message),
            Err(code) => {
                let mut message = Vec::new(alloc);
                push_refusal(&mut message, id, code)?;
                self.push(message)
            }
        }
    }

    // Refuses a request because an allocation failed, in the reserve.
    fn refuse(&mut self, id: &Id<'_>)
        requires { IsTrue self.old.reserved }
        ensures { self.new ≡ with_refusal self.old id.now }
    {
        match push_refusal(&mut self.reserve, id, Code::InternalError) {
            Ok(()) => {}
            Err(_) => unreachable!(),
        }
    }
}
