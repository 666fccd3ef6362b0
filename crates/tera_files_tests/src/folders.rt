//! Which files paths mean.

use crate::failing::{Failing, Fault};
use crate::room::{Room, expect};
use std::cell::Cell;
use std::io::ErrorKind;
use std::test::Fail;
use tera_files::{Found, Selection, files_of};

const EXTENSIONS: [&str; 2] = ["html", "tera"];

const FOLDERS: [&str; 5] = [
    "site/a",
    "site/.git",
    "site/node_modules",
    "outside",
    "empty",
];

const FILES: [&str; 9] = [
    "site/b.html",
    "site/a.tera",
    "site/a/z.html",
    "site/a.html",
    "site/notes.txt",
    "site/.hidden.html",
    "site/.git/x.html",
    "site/node_modules/p.html",
    "outside/o.html",
];

const LINKS: [(&str, &str); 7] = [
    ("site/outside.html", "../outside/o.html"),
    ("site/twice.html", "b.html"),
    ("site/folder.html", "../outside"),
    ("site/around", "."),
    ("site/round.html", "round.html"),
    ("site/nowhere.html", "nowhere"),
    ("linked", "site"),
];

fn site<'a>(rt: &'a HostRuntime, name: &str) -> Result<Room<'a>, Fail> {
    let room = Room::new(rt, name)?;
    fill(&room)?;
    Ok(room)
}

fn fill(room: &Room<'_>) -> Result<(), Fail> {
    for folder in &FOLDERS {
        room.make_folder(folder)?;
    }
    for file in &FILES {
        room.write(file, b"{{ a }}")?;
    }
    for (name, to) in &LINKS {
        room.link(name, to)?;
    }
    Ok(())
}

// The files that some paths in the room mean, each on a line.
fn meant(rt: &HostRuntime, room: &Room<'_>, stdin: &str, names: &[&str]) -> Result<String, Fail> {
    let mut paths = Vec::new(rt.alloc());
    for name in names {
        paths.push(path_of(rt, room, name)?)?;
    }
    let mut words = Vec::new(rt.alloc());
    for path in &paths {
        words.push(path.as_str())?;
    }
    let stdin = path_of(rt, room, stdin)?;
    let selection = Selection {
        extensions: &EXTENSIONS,
        stdin: stdin.as_str(),
    };
    let found = files_of(rt, selection, words.as_slice())?;
    reported(rt, room, &found)
}

fn path_of(rt: &HostRuntime, room: &Room<'_>, name: &str) -> Result<String, Fail> {
    if name == "-" {
        return Ok(String::from_str(rt.alloc(), name)?);
    }
    room.at(name)
}

fn reported(rt: &HostRuntime, room: &Room<'_>, found: &Found) -> Result<String, Fail> {
    let mut text = String::new(rt.alloc());
    for file in &found.files {
        text.push_str(room.name(file.as_str()))?;
        text.push('\n')?;
    }
    for one in &found.unlisted {
        text.push_str(room.name(one.folder.as_str()))?;
        text.push_str(if one.error.is_none() {
            ": none\n"
        } else {
            ": error\n"
        })?;
    }
    Ok(text)
}

// What standard input stands for, the paths, and the files that they mean.
const CASES: [(&str, &[&str], &str); 9] = [
    (
        "-",
        &["site"],
        "site/a.html\nsite/a.tera\nsite/a/z.html\nsite/b.html\nsite/outside.html\n",
    ),
    ("-", &["site/a/"], "site/a/z.html\n"),
    // A file that is met again, by whatever path, is left out.
    (
        "-",
        &[
            "site/b.html",
            "site/../site/b.html",
            "site",
            "linked",
            "outside",
        ],
        "site/b.html\nsite/a.html\nsite/a.tera\nsite/a/z.html\nsite/outside.html\n",
    ),
    (
        "-",
        &["site/a/../a/z.html", "linked", "site"],
        "site/a/../a/z.html\nlinked/a.html\nlinked/a.tera\nlinked/b.html\nlinked/outside.html\n",
    ),
    // What is named is taken, whatever it is.
    (
        "-",
        &["absent.html", "site/notes.txt", "absent.html", "site/.git"],
        "absent.html\nsite/notes.txt\nsite/.git/x.html\n",
    ),
    ("-", &["empty", "site/a"], "site/a/z.html\nempty: none\n"),
    ("-", &["-", "-"], "-\n"),
    (
        "site/a.html",
        &["site", "-"],
        "site/a.tera\nsite/a/z.html\nsite/b.html\nsite/outside.html\n-\n",
    ),
    ("site/a.html", &["site/a.html"], "site/a.html\n"),
];

#[test]
fn paths_mean_files(rt: HostRuntime) -> Result<(), Fail> {
    let room = site(&rt, "paths_mean_files")?;
    for (stdin, names, files) in &CASES {
        let meant = meant(&rt, &room, stdin, names)?;
        assert!(rt; meant.as_str() == *files, "{meant} for {files}");
    }
    room.remove()
}

// Of a call that fails something is reported: a folder that was not listed, or the path itself as that of a file.
fn is_reported(found: &Found, top: &str) -> bool {
    found.files.len() >= 5
        || found.files.iter().any(|file| file.as_str() == top)
        || found.unlisted.iter().any(|one| one.error.is_some())
}

// Whether calls fail by this fault; then something is reported.
fn fails(rt: &HostRuntime, top: &str, fault: Fault) -> Result<bool, Fail> {
    let calls = Cell::new(0);
    let runtime = Failing {
        rt,
        calls: &calls,
        fault,
        kind: ErrorKind::Other,
    };
    let selection = Selection {
        extensions: &EXTENSIONS,
        stdin: "-",
    };
    let found = files_of(&runtime, selection, &[top])?;
    let has_failed = runtime.has_failed();
    expect(
        !has_failed || is_reported(&found, top),
        "a call that fails is not reported",
    )?;
    Ok(has_failed)
}

#[test]
fn each_call_on_folders_fails_in_turn(rt: HostRuntime) -> Result<(), Fail> {
    let room = site(&rt, "each_call_on_folders")?;
    let top = room.at("site")?;
    let mut turns = 0u32;
    for call in 0..100 {
        if !fails(&rt, top.as_str(), Fault::At(call))? {
            break;
        }
        // A folder whose reading fails again and again is read once.
        fails(&rt, top.as_str(), Fault::From(call))?;
        turns = turns.saturating_add(1);
    }
    assert!(rt; turns > 20 && turns < 100, "{turns} turns");
    room.remove()
}
