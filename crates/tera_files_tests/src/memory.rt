//! Calls whose allocations fail.

use crate::room::{Room, expect};
use scarce_memory::{Attempt, Seen, Verdict, refuse};
use std::alloc::Global;
use std::io::ErrorKind;
use std::test::Fail;
use tera_files::{Selection, Unread, Unwritten, files_of, read_source, replace};

#[derive(Clone, Copy)]
struct Finding<'a> {
    rt: &'a HostRuntime,
    top: &'a str,
}

impl Attempt for Finding<'_> {
    fn attempt(&self, _alloc: Global) -> Seen {
        let selection = Selection {
            extensions: &["html"],
            stdin: "-",
        };
        match files_of(self.rt, selection, &[self.top, "absent.html"]) {
            Ok(found) => Seen::answer(found.files.len() == 3 && found.unlisted.is_empty()),
            Err(_) => Seen::Memory,
        }
    }
}

#[derive(Clone, Copy)]
struct Reading<'a> {
    rt: &'a HostRuntime,
    path: &'a str,
}

impl Attempt for Reading<'_> {
    fn attempt(&self, _alloc: Global) -> Seen {
        match read_source(self.rt, self.path, "a") {
            Ok(source) => Seen::answer(source.text.as_str() == "{{ a }}"),
            Err(Unread::Memory) => Seen::Memory,
            Err(_) => Seen::Other,
        }
    }
}

#[derive(Clone, Copy)]
struct Replacing<'a> {
    rt: &'a HostRuntime,
    path: &'a str,
}

impl Attempt for Replacing<'_> {
    fn attempt(&self, _alloc: Global) -> Seen {
        match replace(self.rt, self.path, "{{ a }}", "{{ a }}") {
            Ok(()) => Seen::Usual,
            Err(Unwritten::Failed(error)) if error.kind() == ErrorKind::OutOfMemory => Seen::Memory,
            Err(_) => Seen::Other,
        }
    }
}

// Whether allocations of the attempt fail, and it gives its usual result in the end.
fn is_refused(rt: &HostRuntime, attempt: &impl Attempt) -> Result<bool, Fail> {
    let verdict = refuse(rt.alloc(), attempt)?;
    Ok(matches!(verdict, Verdict::Refused(times) if times > 0))
}

fn all_are_refused(rt: &HostRuntime, top: &str, path: &str) -> Result<(), Fail> {
    expect(is_refused(rt, &Finding { rt, top })?, "finding")?;
    expect(is_refused(rt, &Reading { rt, path })?, "reading")?;
    expect(is_refused(rt, &Replacing { rt, path })?, "replacing")
}

fn fill(room: &Room<'_>) -> Result<(), Fail> {
    room.make_folder("below")?;
    room.write("a.html", b"{{ a }}")?;
    room.write("below/b.html", b"{{ b }}")
}

#[test]
fn memory_is_refused(rt: HostRuntime) -> Result<(), Fail> {
    let room = Room::new(&rt, "memory_is_refused")?;
    fill(&room)?;
    all_are_refused(&rt, room.at(".")?.as_str(), room.at("a.html")?.as_str())?;
    expect(room.holds("a.html", "{{ a }}")?, "the text")?;
    room.remove()
}
