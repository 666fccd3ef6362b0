//! A reader and a writer that move one byte a call, and fail at a call of the test's choice.

use std::alloc::Global;
use std::io;
use std::io::{Read, Write};

/// At which call a writer fails, and how.
#[derive(Clone, Copy, PartialEq, Eq)]
pub enum Failing {
    ByError(u32),
    ByNone(u32),
}

#[derive(Drop)]
pub struct OneByteReader<'a> {
    rest: &'a [u8],
    pub calls: u32,
    failing: u32,
}

impl Read for OneByteReader<'_> {
    fn read(&mut self, buf: &mut [u8]) -> io::Result<usize> {
        self.calls = self.calls.saturating_add(1);
        if self.failing == self.calls {
            return Err(io::Error::from(io::ErrorKind::Other));
        }
        let Some((first, rest)) = self.rest.split_first() else {
            return Ok(0);
        };
        if buf.is_empty() {
            return Ok(0);
        }
        buf[0] = *first;
        self.rest = rest;
        Ok(1)
    }
}

#[derive(Drop)]
pub struct OneByteWriter {
    pub taken: Vec<u8>,
    calls: u32,
    failing: Failing,
}

impl Write for OneByteWriter {
    fn write(&mut self, buf: &[u8]) -> io::Result<usize> {
        self.calls = self.calls.saturating_add(1);
        if self.failing == Failing::ByError(self.calls) {
            return Err(io::Error::from(io::ErrorKind::Other));
        }
        if self.failing == Failing::ByNone(self.calls) {
            return Ok(0);
        }
        let Some(first) = buf.first() else {
            return Ok(0);
        };
        self.taken.push(*first)?;
        Ok(1)
    }

    fn flush(&mut self) -> io::Result<()> {
        Ok(())
    }
}

/// A reader of `{{ a }}`, which is read by eight calls, that fails at this one.
pub fn reader(failing: u32) -> OneByteReader<'static> {
    OneByteReader {
        rest: "{{ a }}".as_bytes(),
        calls: 0,
        failing,
    }
}

/// A writer that has taken nothing.
pub fn writer(alloc: Global, failing: Failing) -> OneByteWriter {
    OneByteWriter {
        taken: Vec::new(alloc),
        calls: 0,
        failing,
    }
}
