//! A runtime whose calls on files fail.

use std::alloc::{Allocator, Global};
use std::cell::Cell;
use std::fs::{File, Metadata, OpenFile, OpenOptions, Permissions};
use std::io;
use std::io::{BufRead, Cursor, Lines, Read, Seek, SeekFrom, Write};
use std::path::PathBuf;
use std::rt::Files;

/// Which calls fail, by their numbers.
#[derive(Clone, Copy)]
pub(crate) enum Fault {
    At(u32),
    From(u32),
}

/// What is typed.
pub(crate) const TYPED: &[u8] = b"{{ typed }}\n";

/// The system, except the calls that fail. A write takes four bytes at most.
#[derive(Clone, Copy)]
pub(crate) struct Failing<'a> {
    pub(crate) rt: &'a HostRuntime,
    pub(crate) calls: &'a Cell<u32>,
    pub(crate) fault: Fault,
    /// The error of a call that fails.
    pub(crate) kind: io::ErrorKind,
}

impl Failing<'_> {
    fn call(&self) -> io::Result<()> {
        let number = self.calls.get();
        self.calls.set(number.saturating_add(1));
        let fails = match self.fault {
            Fault::At(call) => number == call,
            Fault::From(call) => number >= call,
        };
        if fails {
            Err(io::Error::from(self.kind))
        } else {
            Ok(())
        }
    }

    /// Whether a call has failed.
    pub(crate) fn has_failed(&self) -> bool {
        match self.fault {
            Fault::At(call) | Fault::From(call) => self.calls.get() > call,
        }
    }
}

impl Alloc for Failing<'_> {
    type A = Global;

    fn alloc(&self) -> Global {
        self.rt.alloc()
    }
}

impl Input for Failing<'_> {
    type Reader = Cursor<&'static [u8]>;

    fn read_line<A: Allocator + Clone>(&self, buf: &mut String<A>) -> io::Result<usize> {
        self.reader().read_line(buf)
    }

    fn lines<A: Allocator>(&self, alloc: A) -> Lines<Cursor<&'static [u8]>, A> {
        self.reader().lines(alloc)
    }

    fn reader(&self) -> Cursor<&'static [u8]> {
        Cursor::new(TYPED)
    }
}

/// An open file, or an open folder.
#[derive(Drop)]
pub(crate) struct Opened<'a, F> {
    opened: F,
    runtime: Failing<'a>,
}

impl<F: Read> Read for Opened<'_, F> {
    fn read(&mut self, buf: &mut [u8]) -> io::Result<usize> {
        self.runtime.call()?;
        self.opened.read(buf)
    }
}

impl Write for Opened<'_, File> {
    fn write(&mut self, buf: &[u8]) -> io::Result<usize> {
        self.runtime.call()?;
        let some = buf.len().min(4);
        self.opened.write(&buf[..some])
    }

    fn flush(&mut self) -> io::Result<()> {
        self.opened.flush()
    }
}

impl Seek for Opened<'_, File> {
    fn seek(&mut self, to: SeekFrom) -> io::Result<u64> {
        self.runtime.call()?;
        self.opened.seek(to)
    }
}

impl OpenFile for Opened<'_, File> {
    fn metadata(&self) -> io::Result<Metadata> {
        self.runtime.call()?;
        self.opened.metadata()
    }

    fn set_len(&self, size: u64) -> io::Result<()> {
        self.runtime.call()?;
        self.opened.set_len(size)
    }

    fn sync_all(&self) -> io::Result<()> {
        self.runtime.call()?;
        self.opened.sync_all()
    }

    fn sync_data(&self) -> io::Result<()> {
        self.runtime.call()?;
        self.opened.sync_data()
    }

    fn set_permissions(&self, perm: Permissions) -> io::Result<()> {
        self.runtime.call()?;
        self.opened.set_permissions(perm)
    }
}

impl<'a> Files for Failing<'a> {
    type File = Opened<'a, File>;

    type Dir = Opened<'a, <HostRuntime as Files>::Dir>;

    fn open_file(&self, how: &OpenOptions, path: &str) -> io::Result<Opened<'a, File>> {
        self.call()?;
        let opened = self.rt.open_file(how, path)?;
        let runtime = *self;
        Ok(Opened { opened, runtime })
    }

    fn open_dir(&self, path: &str) -> io::Result<Opened<'a, <HostRuntime as Files>::Dir>> {
        self.call()?;
        let opened = self.rt.open_dir(path)?;
        let runtime = *self;
        Ok(Opened { opened, runtime })
    }

    fn metadata(&self, path: &str) -> io::Result<Metadata> {
        self.call()?;
        self.rt.metadata(path)
    }

    fn symlink_metadata(&self, path: &str) -> io::Result<Metadata> {
        self.call()?;
        self.rt.symlink_metadata(path)
    }

    fn copy(&self, from: &str, to: &str) -> io::Result<u64> {
        self.call()?;
        self.rt.copy(from, to)
    }

    fn rename(&self, from: &str, to: &str) -> io::Result<()> {
        self.call()?;
        self.rt.rename(from, to)
    }

    fn remove_file(&self, path: &str) -> io::Result<()> {
        self.call()?;
        self.rt.remove_file(path)
    }

    fn create_dir(&self, path: &str) -> io::Result<()> {
        self.call()?;
        self.rt.create_dir(path)
    }

    fn remove_dir(&self, path: &str) -> io::Result<()> {
        self.call()?;
        self.rt.remove_dir(path)
    }

    fn remove_dir_all<B: Allocator>(&self, alloc: B, path: &str) -> io::Result<()> {
        self.call()?;
        self.rt.remove_dir_all(alloc, path)
    }

    fn canonicalize<B: Allocator>(&self, alloc: B, path: &str) -> io::Result<PathBuf<B>> {
        self.call()?;
        self.rt.canonicalize(alloc, path)
    }
}
