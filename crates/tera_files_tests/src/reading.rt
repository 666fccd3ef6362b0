//! What is in a file.

use crate::failing::{Failing, Fault, TYPED};
use crate::room::{Room, expect};
use std::cell::Cell;
use std::io::ErrorKind;
use std::test::Fail;
use tera_files::{Source, Unread, read_source};

fn is_read(read: Result<Source, Unread>, name: &str, text: &[u8]) -> bool {
    match read {
        Ok(source) => source.file.as_str() == name && source.text.as_bytes() == text,
        Err(_) => false,
    }
}

fn texts_are_read(rt: &HostRuntime, room: &Room<'_>) -> Result<(), Fail> {
    for text in &["", "a", "{{ é }}\n"] {
        room.write("a.html", text.as_bytes())?;
        let read = read_source(rt, room.at("a.html")?.as_str(), "name");
        expect(is_read(read, "name", text.as_bytes()), text)?;
    }
    Ok(())
}

#[test]
fn a_text_is_read(rt: HostRuntime) -> Result<(), Fail> {
    let room = Room::new(&rt, "a_text_is_read")?;
    texts_are_read(&rt, &room)?;
    room.remove()
}

// Bytes, and the first that is in no text.
const NO_TEXTS: [(&[u8], usize); 4] = [
    (b"\xff", 0),
    (b"ab\xc3", 2),
    (b"\xc3\xa9\x80z", 2),
    (b"a\x00\xed\xa0\x80", 2),
];

fn is_no_text(read: Result<Source, Unread>, at: usize) -> bool {
    matches!(read, Err(Unread::NotUtf8(byte)) if byte == at)
}

fn is_absent(read: Result<Source, Unread>) -> bool {
    match read {
        Err(Unread::Failed(error)) => error.kind() == ErrorKind::NotFound,
        _ => false,
    }
}

fn no_texts_are_reported(rt: &HostRuntime, room: &Room<'_>) -> Result<(), Fail> {
    for (bytes, at) in &NO_TEXTS {
        room.write("a.html", bytes)?;
        let read = read_source(rt, room.at("a.html")?.as_str(), "name");
        expect(is_no_text(read, *at), "no text, or another byte")?;
    }
    Ok(())
}

#[test]
fn what_is_no_text_is_reported(rt: HostRuntime) -> Result<(), Fail> {
    let room = Room::new(&rt, "what_is_no_text")?;
    let read = read_source(&rt, room.at("absent.html")?.as_str(), "name");
    expect(is_absent(read), "absent")?;
    no_texts_are_reported(&rt, &room)?;
    room.remove()
}

// Whether there is a call of this number while the file is read. It fails, which has to be reported.
fn fails(rt: &HostRuntime, room: &Room<'_>, call: u32) -> Result<bool, Fail> {
    let calls = Cell::new(0);
    let runtime = Failing {
        rt,
        calls: &calls,
        fault: Fault::At(call),
        kind: ErrorKind::Other,
    };
    let read = read_source(&runtime, room.at("a.html")?.as_str(), "name");
    let has_failed = runtime.has_failed();
    let is_reported = if has_failed {
        matches!(read, Err(Unread::Failed(_)))
    } else {
        read.is_ok()
    };
    expect(is_reported, "a call that fails is not reported")?;
    Ok(has_failed)
}

#[test]
fn each_call_of_reading_fails_in_turn(rt: HostRuntime) -> Result<(), Fail> {
    let room = Room::new(&rt, "each_call_of_reading")?;
    room.write("a.html", b"{{ a }}")?;
    let mut turns = 0u32;
    for call in 0..20 {
        if !fails(&rt, &room, call)? {
            break;
        }
        turns = turns.saturating_add(1);
    }
    assert!(rt; turns > 1 && turns < 20, "{turns} turns");
    room.remove()
}

#[test]
fn what_is_typed_is_read(rt: HostRuntime) {
    let calls = Cell::new(0);
    let runtime = Failing {
        rt: &rt,
        calls: &calls,
        fault: Fault::From(0),
        kind: ErrorKind::Other,
    };
    let read = read_source(&runtime, "-", "typed.html");
    assert!(rt; is_read(read, "typed.html", TYPED));
}
