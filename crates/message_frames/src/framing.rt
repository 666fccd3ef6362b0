//! The messages of a stream, in the pieces in which it comes.

ghost use Rattle.std.specs.Prelude.{◌≡◌, ◌+◌, ◌<◌, ◌≤◌, List, ℕ, [], ◌++◌, drop, length, IfOk, OnOk, OnErr};
ghost use Rattle.message_frames.specs.Shown.{Message, shown};
ghost use Rattle.message_frames.specs.Representing.{Represents, IsNext, IsWholeNext, HoldsWhole, IsLittle, IsNearer};
ghost use Rattle.message_frames.specs.Steps.{HeaderRead, IsAtStage, IsLittleHeader, IsNearerHeader, passed_of, stage_after};
ghost use Rattle.message_frames.specs.declared.framing.Stage.TheVariants as stages;

use crate::field::Stated;
use crate::lines::{Lines, read_lines};
use std::alloc::{AllocError, Global};
use std::fmt;
use std::marker::Model;

/// What is next in the stream.
#[derive(Debug, Drop, PartialEq, Eq)]
pub enum Frame {
    /// The bytes of a message.
    Message(Vec<u8>),
    /// A message of this many bytes, more than the limit, was passed over.
    TooLong(usize),
    /// In the place of a header were lines that are none, up to an empty line; they were passed over.
    Bad,
    /// Not all of the next message has come.
    Wait,
}

/// What of the next message has come.
#[derive(Clone, Copy)]
enum Stage {
    /// Lines, which say this. Before so many of the bytes that are held no line end is.
    Lines { stated: Stated, searched: usize },
    /// The header of a message of so many bytes.
    Message { len: usize },
    /// The header of a message beyond the limit, of which so many bytes are still to come.
    TooLong { len: usize, left: usize },
}

impl Stage {
    const START: Stage = Stage::Lines {
        stated: Stated::Nothing,
        searched: 0,
    };

    // How many of so many bytes that come are passed over.
    fn passed(self, came: usize) -> usize
        ensures { result ≡ passed_of self came }
    {
        match self {
            Stage::TooLong { left, .. } => left.min(came),
            _ => 0,
        }
    }

    // The stage when so many were passed over.
    fn following(self, passed: usize) -> Stage
        ensures { result ≡ stage_after self passed }
    {
        match self {
            Stage::TooLong { len, left } => Stage::TooLong {
                len,
                left: left.saturating_sub(passed),
            },
            _ => self,
        }
    }
}

/// A stream of messages: bytes go in as they come, and frames come out.
///
/// No byte is searched twice for the end of a line, and what is held is moved only where more was handed out than is
/// left: so reading takes time by the bytes that come, in whatever pieces.
#[derive(Drop)]
pub struct Frames {
    limit: usize,
    stage: Stage,
    held: Vec<u8>,
    // So many of the bytes in front were handed out.
    taken: usize,
}

impl Model for Frames {
    ghost use Rattle.std.specs.Prelude.{◌≤◌, drop, length};
    ghost use Rattle.message_frames.specs.Held.{Held, IsStage};

    ghost Value = { Held };

    ghost view = { λ f. record { limit = f.limit; stage = f.stage; bytes = drop f.taken f.held.items } };

    ghost invariant = { λ f. (f.taken ≤ length f.held.items) × IsStage f.limit f.stage (drop f.taken f.held.items) };
}

// How many bytes are held, and not which.
impl fmt::Debug for Frames {
    fn fmt<W: fmt::Write>(&self, f: &mut fmt::Formatter<W>) -> fmt::Result {
        f.debug_struct("Frames")
            .field("limit", &self.limit)
            .field("held", &self.held())
            .finish()
    }
}

// How far a header was read.
#[derive(Clone, Copy)]
enum Header {
    Open,
    Malformed,
    Message(usize),
    TooLong(usize, usize),
}

// Lets go of the bytes in front where they are more than the rest, and answers how many are still there.
fn let_go(held: &mut Vec<u8>, taken: usize) -> usize
    requires { taken ≤ length held.old.items }
    ensures within { result ≤ length held.new.items }
    ensures rest { drop result held.new.items ≡ drop taken held.old.items }
{
    let left = held.len() - taken;
    if taken <= left {
        return taken;
    }
    held.copy_within(taken.., 0);
    held.truncate(left);
    0
}

impl Frames {
    /// A stream of which nothing has come. A message of more than `limit` bytes is passed over.
    pub fn new(alloc: Global, limit: usize) -> Frames
        ensures limit { result.limit ≡ limit }
        ensures represents { Represents result [] }
    {
        Frames {
            limit,
            stage: Stage::START,
            held: Vec::new(alloc),
            taken: 0,
        }
    }

    /// Adds bytes that came. After an allocation failure nothing changes.
    pub fn push(&mut self, bytes: &[u8]) -> Result<(), AllocError>
        ensures limit { self.new.limit ≡ self.old.limit }
        ensures represents { OnOk result ((pending : List ℕ) → Represents self.old pending →
            Represents self.new (pending ++ bytes.now)) }
        ensures err { OnErr result (self.new ≡ self.old) }
    {
        let passed = self.stage.passed(bytes.len());
        let (_, kept) = bytes.split_at(passed);
        self.taken = let_go(&mut self.held, self.taken);
        self.held.extend_from_slice(kept)?;
        self.stage = self.stage.following(passed);
        Ok(())
    }

    /// Takes the next frame. A message that fails to allocate stays, and is the next frame still; [`Frames::skip`]
    /// passes over it.
    ///
    /// [`Frame::Bad`] is reported for what ends with the first empty line and is not a header; reading goes on after
    /// that line. [`Frame::TooLong`] is reported when the last byte of the message has come.
    pub fn next(&mut self, alloc: Global) -> Result<Frame, AllocError>
        ensures limit { self.new.limit ≡ self.old.limit }
        ensures next { IfOk result (λ frame. (pending : List ℕ) → Represents self.old pending →
            IsNext self.old.limit pending (shown frame) self.new) }
        ensures held { IfOk result (λ frame. IsLittle (shown frame) self.new) }
        ensures nearer { IfOk result (λ frame. IsNearer (shown frame) self.old self.new) }
        ensures err { OnErr result ((pending : List ℕ) → Represents self.old pending → Represents self.new pending) }
        ensures memory { OnErr result ((pending : List ℕ) → Represents self.old pending →
            IsWholeNext self.old.limit pending) }
        ensures whole { OnErr result (HoldsWhole self.new) }
    {
        match self.read_header() {
            Header::Open => Ok(Frame::Wait),
            Header::Malformed => Ok(Frame::Bad),
            Header::Message(len) => self.take_message(alloc, len),
            Header::TooLong(len, left) => Ok(self.pass_over(len, left)),
        }
    }

    /// Passes over the message that [`Frames::next`] failed to allocate for. Where none is there, nothing changes.
    pub fn skip(&mut self)
        ensures limit { self.new.limit ≡ self.old.limit }
        ensures skipped { HoldsWhole self.old → (pending : List ℕ) → Represents self.old pending →
            (message : List ℕ) × IsNext self.old.limit pending (Message message) self.new }
        ensures none { (HoldsWhole self.old → ⊥) → self.new ≡ self.old }
    {
        if let Stage::Message { len } = self.stage {
            if len <= self.held() {
                self.taken += len;
                self.stage = Stage::START;
            }
        }
    }

    /// How many bytes are held. While a frame waits, these are fewer than the limit, or are a front of one line of a
    /// header, which has no limit of its own.
    pub fn held(&self) -> usize
        ensures { result ≡ length self.now.bytes }
    {
        self.held.len() - self.taken
    }

    // Reads lines of a header, unless it was read before.
    fn read_header(&mut self) -> Header
        ensures limit { self.new.limit ≡ self.old.limit }
        ensures read { (pending : List ℕ) → Represents self.old pending → HeaderRead result pending self.new }
        ensures stage { IsAtStage result self.new }
        ensures held { IsLittleHeader result self.new }
        ensures nearer { IsNearerHeader result self.old self.new }
    {
        let (stated, searched) = match self.stage {
            Stage::Lines { stated, searched } => (stated, searched),
            Stage::Message { len } => return Header::Message(len),
            Stage::TooLong { len, left } => return Header::TooLong(len, left),
        };
        let (_, rest) = self.held.as_slice().split_at(self.taken);
        match read_lines(rest, stated, searched) {
            Lines::Open {
                len,
                stated,
                searched,
            } => {
                self.taken += len;
                self.stage = Stage::Lines { stated, searched };
                Header::Open
            }
            Lines::Ended { len, stated } => {
                let Stated::Length(length) = stated else {
                    self.taken += len;
                    self.stage = Stage::START;
                    return Header::Malformed;
                };
                if length <= self.limit {
                    self.taken += len;
                    self.stage = Stage::Message { len: length };
                    return Header::Message(length);
                }
                let passed = length.min(rest.len() - len);
                let left = length - passed;
                self.taken += len + passed;
                self.stage = Stage::TooLong { len: length, left };
                Header::TooLong(length, left)
            }
        }
    }

    // The message after a header, when it has come whole.
    fn take_message(&mut self, alloc: Global, len: usize) -> Result<Frame, AllocError>
        requires { self.old.stage ≡ stages.Message len }
        ensures limit { self.new.limit ≡ self.old.limit }
        ensures next { IfOk result (λ frame. (pending : List ℕ) → Represents self.old pending →
            IsNext self.old.limit pending (shown frame) self.new) }
        ensures held { IfOk result (λ frame. IsLittle (shown frame) self.new) }
        ensures nearer { IfOk result (λ frame. IsNearer (shown frame) self.old self.new) }
        ensures err { OnErr result (self.new ≡ self.old) }
        ensures memory { OnErr result ((pending : List ℕ) → Represents self.old pending →
            IsWholeNext self.old.limit pending) }
        ensures whole { OnErr result (HoldsWhole self.old) }
    {
        let (_, rest) = self.held.as_slice().split_at(self.taken);
        if rest.len() < len {
            return Ok(Frame::Wait);
        }
        let (message, _) = rest.split_at(len);
        let message = Vec::from_slice(alloc, message)?;
        self.taken += len;
        self.stage = Stage::START;
        Ok(Frame::Message(message))
    }

    // Reports a message beyond the limit, when so many bytes are left of it.
    fn pass_over(&mut self, len: usize, left: usize) -> Frame
        requires stage { self.old.stage ≡ stages.TooLong len left }
        requires none { 0 < left → length self.old.bytes ≡ 0 }
        ensures limit { self.new.limit ≡ self.old.limit }
        ensures next { (pending : List ℕ) → Represents self.old pending →
            IsNext self.old.limit pending (shown result) self.new }
        ensures held { IsLittle (shown result) self.new }
        ensures nearer { IsNearer (shown result) self.old self.new }
    {
        if left > 0 {
            return Frame::Wait;
        }
        self.stage = Stage::START;
        Frame::TooLong(len)
    }
}
