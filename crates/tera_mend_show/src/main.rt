//! Shows the faults of templates, what is written for them, and the trees of what came of them:
//! `tera_mend_show FILE..`.
//!
//! Of each file it prints
//!
//! - a line `file NAME`;
//! - for each fault a line `fault START END LINE ALONE MESSAGE`, with the bytes and the line of its place and whether
//!   it is of a tag that was read alone, and after that a line `edit AT BYTES` for each of its edits, in hexadecimal;
//! - a line `cut` where there are more faults, and after it the last edits;
//! - the tree as JSON.
#![tactic(auto)]

use std::{env, fs};
use tera_mend::{Edit, Fault, Limit, Mended, mend};
use tera_parser::value::ErrorKind;
use tera_tree_json::tree_json;

fn main(rt: HostRuntime) {
    let Ok(mut words) = env::args(&rt) else {
        return;
    };
    let _program = words.next();
    for file in words {
        if let Ok(source) = fs::read_to_string(&rt, file.as_str()) {
            show(&rt, file.as_str(), source.as_str());
        }
    }
}

fn show(rt: &HostRuntime, file: &str, source: &str) {
    let limit = Limit {
        faults: 100,
        bytes: 10_000_000,
    };
    let _ = println!(rt; "file {file}");
    if let Ok(mended) = mend(rt.alloc(), file, source, limit) {
        show_mended(rt, &mended);
    }
}

fn show_mended(rt: &HostRuntime, mended: &Mended) {
    for fault in &mended.faults {
        show_fault(rt, fault);
    }
    if mended.cut {
        let _ = println!(rt; "cut");
        show_edits(rt, &mended.rest);
    }
    if let Ok(tree) = tree_json(rt.alloc(), &mended.output) {
        let _ = println!(rt; "{tree}");
    }
}

fn show_fault(rt: &HostRuntime, fault: &Fault) {
    if let ErrorKind::SyntaxError(report) = &fault.error.kind {
        let (start, end) = (report.span.range.start, report.span.range.end);
        let (line, message) = (report.span.start_line, report.message.as_str());
        let alone = fault.alone;
        let _ = println!(rt; "fault {start} {end} {line} {alone} {message}");
    }
    show_edits(rt, &fault.edits);
}

fn show_edits(rt: &HostRuntime, edits: &Vec<Edit>) {
    for edit in edits {
        let at = edit.at;
        let _ = print!(rt; "edit {at} ");
        for byte in &edit.bytes {
            let _ = print!(rt; "{byte:02x}");
        }
        let _ = println!(rt; "");
    }
}
