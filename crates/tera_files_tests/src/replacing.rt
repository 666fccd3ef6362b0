//! How the text of a file is replaced.

use crate::failing::{Failing, Fault};
use crate::room::{Room, expect};
use std::cell::Cell;
use std::fs;
use std::fs::Permissions;
use std::io::ErrorKind;
use std::os::unix::fs::{MetadataExt, PermissionsExt, chown};
use std::rt::Files;
use std::test::Fail;
use tera_files::{Unwritten, replace};

const OLD: &str = "{{old}} {{old}} {{old}}";

const NEW: &str = "{{ new }} {{ new }}";

// Replaces the text of this file alone: the new text is there then, and nothing that was made beside it.
fn renew(rt: &HostRuntime, room: &Room<'_>, name: &str) -> Result<(), Fail> {
    let Ok(()) = replace(rt, room.at(name)?.as_str(), OLD, NEW) else {
        return Err(Fail::new(name));
    };
    let beside = format!(in rt.alloc(); "{name}.1.tera-new")?;
    let (is_new, is_more) = (room.holds(name, NEW)?, room.has(beside.as_str())?);
    expect(is_new && !is_more, name)
}

// The mode of a file, and its number.
fn mode_and_number(rt: &HostRuntime, path: &str) -> Result<(u32, u64), Fail> {
    let metadata = fs::metadata(rt, path)?;
    Ok((metadata.mode(), metadata.ino()))
}

// Another file is there, of the same mode.
fn a_mode_stays(rt: &HostRuntime, room: &Room<'_>) -> Result<(), Fail> {
    let path = room.at("a.html")?;
    fs::set_permissions(rt, path.as_str(), Permissions::from_mode(0o640))?;
    let (mode, number) = mode_and_number(rt, path.as_str())?;
    renew(rt, room, "a.html")?;
    let (new_mode, new_number) = mode_and_number(rt, path.as_str())?;
    expect(new_mode == mode, "the mode")?;
    expect(new_number != number, "the number")
}

#[test]
fn a_text_is_replaced(rt: HostRuntime) -> Result<(), Fail> {
    let room = Room::new(&rt, "a_text_is_replaced")?;
    room.write("a.html", OLD.as_bytes())?;
    a_mode_stays(&rt, &room)?;
    room.remove()
}

fn a_link_stays(rt: &HostRuntime, room: &Room<'_>) -> Result<(), Fail> {
    room.make_folder("below")?;
    room.write("below/a.html", OLD.as_bytes())?;
    room.link("link.html", "below/a.html")?;
    renew(rt, room, "link.html")?;
    let link = fs::symlink_metadata(rt, room.at("link.html")?.as_str())?;
    let is_new = room.holds("below/a.html", NEW)?;
    expect(is_new && link.is_symlink(), "a link")
}

// A file of two names has the new text under both.
fn names_stay(rt: &HostRuntime, room: &Room<'_>) -> Result<(), Fail> {
    room.write("one.html", OLD.as_bytes())?;
    rt.hard_link(
        room.at("one.html")?.as_str(),
        room.at("other.html")?.as_str(),
    )?;
    renew(rt, room, "one.html")?;
    expect(room.holds("other.html", NEW)?, "the other name")
}

#[test]
fn links_and_names_stay(rt: HostRuntime) -> Result<(), Fail> {
    let room = Room::new(&rt, "links_and_names_stay")?;
    a_link_stays(&rt, &room)?;
    names_stay(&rt, &room)?;
    room.remove()
}

// Where a new file would have another owner, which only the system's administrator can see to.
fn an_owner_stays(rt: &HostRuntime, room: &Room<'_>) -> Result<(), Fail> {
    room.write("b.html", OLD.as_bytes())?;
    let path = room.at("b.html")?;
    let is_given = chown(rt, path.as_str(), Some(1), Some(1)).is_ok();
    renew(rt, room, "b.html")?;
    let owner = fs::metadata(rt, path.as_str())?.uid();
    expect(!is_given || owner == 1, "the owner")
}

#[test]
fn a_text_is_overwritten(rt: HostRuntime) -> Result<(), Fail> {
    let room = Room::new(&rt, "a_text_is_overwritten")?;
    an_owner_stays(&rt, &room)?;
    room.remove()
}

// A file that a killed run left beside it changes nothing: another name is taken, and that file stays.
fn what_is_left_stays(rt: &HostRuntime, room: &Room<'_>) -> Result<(), Fail> {
    room.write("a.html", OLD.as_bytes())?;
    room.write("a.html.1.tera-new", b"left")?;
    let path = room.at("a.html")?;
    let (_, number) = mode_and_number(rt, path.as_str())?;
    let is_replaced = replace(rt, path.as_str(), OLD, NEW).is_ok();
    let (_, new_number) = mode_and_number(rt, path.as_str())?;
    expect(is_replaced && room.holds("a.html", NEW)?, "the new text")?;
    expect(new_number != number, "a new file")?;
    let is_left = room.holds("a.html.1.tera-new", "left")?;
    expect(is_left && !room.has("a.html.2.tera-new")?, "what is left")
}

// The longest name that a file has.
fn a_long_name_is_cut(rt: &HostRuntime, room: &Room<'_>) -> Result<(), Fail> {
    let front = "\u{e9}".repeat(rt.alloc(), 125)?;
    let name = format!(in rt.alloc(); "{front}.html")?;
    room.write(name.as_str(), OLD.as_bytes())?;
    let path = room.at(name.as_str())?;
    let (_, number) = mode_and_number(rt, path.as_str())?;
    let is_replaced = replace(rt, path.as_str(), OLD, NEW).is_ok();
    let (_, new_number) = mode_and_number(rt, path.as_str())?;
    let is_new = room.holds(name.as_str(), NEW)?;
    expect(is_replaced && is_new && new_number != number, "a long name")
}

#[test]
fn a_name_is_found(rt: HostRuntime) -> Result<(), Fail> {
    let room = Room::new(&rt, "a_name_is_found")?;
    what_is_left_stays(&rt, &room)?;
    a_long_name_is_cut(&rt, &room)?;
    room.remove()
}

fn is_changed(rt: &HostRuntime, room: &Room<'_>, name: &str) -> Result<bool, Fail> {
    let replaced = replace(rt, room.at(name)?.as_str(), OLD, NEW);
    Ok(matches!(replaced, Err(Unwritten::Changed)))
}

// A file that was saved since it was read is left alone, also where it would be overwritten.
fn changed_files_stay(rt: &HostRuntime, room: &Room<'_>) -> Result<(), Fail> {
    for text in &["{{old}} {{old}} {{odd}}", "", "{{old}} {{old}} {{old}}\n"] {
        room.write("a.html", text.as_bytes())?;
        let is_changed = is_changed(rt, room, "a.html")?;
        expect(is_changed && room.holds("a.html", text)?, text)?;
        expect(!room.has("a.html.1.tera-new")?, "nothing is beside it")?;
    }
    Ok(())
}

#[test]
fn a_changed_file_is_left(rt: HostRuntime) -> Result<(), Fail> {
    let room = Room::new(&rt, "a_changed_file_is_left")?;
    changed_files_stay(&rt, &room)?;
    let (path, other) = (room.at("a.html")?, room.at("b.html")?);
    rt.hard_link(path.as_str(), other.as_str())?;
    changed_files_stay(&rt, &room)?;
    room.remove()
}

// Which calls fail, and with which error; whether the file has two names; its text, and the new one.
#[derive(Clone, Copy)]
struct Try<'a> {
    fault: Fault,
    kind: ErrorKind,
    has_two_names: bool,
    texts: (&'a str, &'a str),
}

// What a call comes to.
#[derive(Clone, Copy)]
struct Outcome {
    has_failed: bool,
    is_kept: bool,
}

// Whether at an error the old text is there whole, and else the new one. Where the file is overwritten and all calls
// after one fail, the error may say that it is incomplete.
fn is_whole(room: &Room<'_>, it: Try<'_>, replaced: Result<(), Unwritten>) -> Result<bool, Fail> {
    let (old, new) = it.texts;
    match replaced {
        Ok(()) => room.holds("a.html", new),
        Err(Unwritten::Incomplete(_)) => {
            Ok(it.has_two_names && matches!(it.fault, Fault::From(_)))
        }
        Err(_) => room.holds("a.html", old),
    }
}

// Whether nothing stays beside it. What was made can only stay where it cannot be removed.
fn is_alone(room: &Room<'_>, it: Try<'_>) -> Result<bool, Fail> {
    Ok(!room.has("a.html.1.tera-new")? || matches!(it.fault, Fault::From(_)))
}

fn put_the_old(rt: &HostRuntime, room: &Room<'_>, it: Try<'_>) -> Result<(), Fail> {
    for name in &["a.html.1.tera-new", "a.html", "b.html"] {
        let _ = fs::remove_file(rt, room.at(name)?.as_str());
    }
    room.write("a.html", it.texts.0.as_bytes())?;
    if it.has_two_names {
        rt.hard_link(room.at("a.html")?.as_str(), room.at("b.html")?.as_str())?;
    }
    Ok(())
}

fn replace_failing(rt: &HostRuntime, room: &Room<'_>, it: Try<'_>) -> Result<Outcome, Fail> {
    put_the_old(rt, room, it)?;
    let calls = Cell::new(0);
    let runtime = Failing {
        rt,
        calls: &calls,
        fault: it.fault,
        kind: it.kind,
    };
    let replaced = replace(
        &runtime,
        room.at("a.html")?.as_str(),
        it.texts.0,
        it.texts.1,
    );
    let has_failed = runtime.has_failed();
    let is_kept = is_whole(room, it, replaced)?
        && is_alone(room, it)?
        && (replaced.is_ok() || has_failed);
    Ok(Outcome {
        has_failed,
        is_kept,
    })
}

// Whether this call of replacing fails. The text is kept then, also where all calls after it fail.
fn fails(rt: &HostRuntime, room: &Room<'_>, it: Try<'_>, call: u32) -> Result<bool, Fail> {
    let once = replace_failing(
        rt,
        room,
        Try {
            fault: Fault::At(call),
            ..it
        },
    )?;
    let on = replace_failing(
        rt,
        room,
        Try {
            fault: Fault::From(call),
            ..it
        },
    )?;
    expect(once.is_kept && on.is_kept, "a text is not kept")?;
    Ok(once.has_failed)
}

// Each call in turn, until none is left.
fn each_fails(rt: &HostRuntime, room: &Room<'_>, it: Try<'_>) -> Result<u32, Fail> {
    let mut turns = 0u32;
    for call in 0..80 {
        if !fails(rt, room, it, call)? {
            break;
        }
        turns = turns.saturating_add(1);
    }
    Ok(turns)
}

// Errors of a disk that is full, of a folder that takes no new file, and others.
const KINDS: [ErrorKind; 6] = [
    ErrorKind::Other,
    ErrorKind::StorageFull,
    ErrorKind::FileTooLarge,
    ErrorKind::PermissionDenied,
    ErrorKind::ResourceBusy,
    ErrorKind::AlreadyExists,
];

fn all_fail(rt: &HostRuntime, room: &Room<'_>, has_two_names: bool) -> Result<(), Fail> {
    for kind in &KINDS {
        for texts in &[(OLD, NEW), (NEW, OLD)] {
            let it = Try {
                fault: Fault::At(0),
                kind: *kind,
                has_two_names,
                texts: *texts,
            };
            let turns = each_fails(rt, room, it)?;
            expect(turns > 8 && turns < 80, "the turns")?;
        }
    }
    Ok(())
}

#[test]
fn each_call_of_replacing_fails_in_turn(rt: HostRuntime) -> Result<(), Fail> {
    let room = Room::new(&rt, "each_call_of_replacing")?;
    all_fail(&rt, &room, false)?;
    room.remove()
}

#[test]
fn each_call_of_overwriting_fails_in_turn(rt: HostRuntime) -> Result<(), Fail> {
    let room = Room::new(&rt, "each_call_of_overwriting")?;
    all_fail(&rt, &room, true)?;
    room.remove()
}

// Where the file cannot be put back either, the error says that it is incomplete.
#[test]
fn what_is_not_put_back_is_incomplete(rt: HostRuntime) -> Result<(), Fail> {
    let room = Room::new(&rt, "what_is_not_put_back")?;
    let mut incomplete = 0u32;
    for call in 0..40 {
        let it = Try {
            fault: Fault::From(call),
            kind: ErrorKind::StorageFull,
            has_two_names: true,
            texts: (OLD, NEW),
        };
        if is_incomplete(&rt, &room, it)? {
            incomplete = incomplete.saturating_add(1);
        }
    }
    assert!(rt; incomplete > 0, "no text was left incomplete");
    room.remove()
}

fn is_incomplete(rt: &HostRuntime, room: &Room<'_>, it: Try<'_>) -> Result<bool, Fail> {
    put_the_old(rt, room, it)?;
    let calls = Cell::new(0);
    let runtime = Failing {
        rt,
        calls: &calls,
        fault: it.fault,
        kind: it.kind,
    };
    let replaced = replace(&runtime, room.at("a.html")?.as_str(), OLD, NEW);
    Ok(matches!(replaced, Err(Unwritten::Incomplete(_))))
}
