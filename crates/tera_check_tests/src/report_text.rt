//! Findings as people read them.

use std::alloc::{AllocError, Global};
use std::test::Fail;
use tera_base::Span;
use tera_check::{Finding, KINDS, Kind, Note, Severity};
use tera_report::{push_full, push_lines};
use terminal_text::{Sources, Style};

fn span(line: usize, start: usize, end_line: usize, end: usize) -> Span {
    Span {
        start_line: line,
        start_col: start,
        end_line,
        end_col: end,
        range: 0..0,
    }
}

// A finding with a note in another file.
fn finding(alloc: Global) -> Result<Finding, AllocError> {
    let mut notes = Vec::new(alloc);
    let note = Note {
        file: String::from_str(alloc, "ui.html")?,
        span: span(1, 3, 2, 1),
        message: String::from_str(alloc, "`button` is defined here")?,
    };
    notes.push(note)?;
    Ok(Finding {
        kind: Kind::UnknownArgument,
        severity: Severity::Error,
        span: span(2, 11, 2, 15),
        message: String::from_str(alloc, "Unknown\nargument")?,
        notes,
    })
}

#[test]
fn finding_with_a_note(rt: HostRuntime) -> Result<(), Fail> {
    let alloc = rt.alloc();
    let mut sources = Sources::new(alloc);
    sources.add("page.html", "one\n{{<button labl=1/>}}\n")?;
    sources.add("ui.html", "{% component button() %}\n{% endcomponent %}")?;
    let mut text = String::new(alloc);
    let finding = finding(alloc)?;
    push_full(
        alloc,
        &mut text,
        Style::Plain,
        "page.html",
        &mut sources,
        &finding,
    )?;
    assert_eq!(&rt;
        text.as_str(),
        "page.html:2:12: error[unknown-argument]: Unknown\\nargument\n    2 | {{<button labl=1/>}}\n      |            ^^^^\nui.html:1:4: note: `button` is defined here\n    1 | {% component button() %}\n      |    ^^^^^^^^^^^^^^^^^^^^^\n"
    );
    Ok(())
}

#[test]
fn without_sources(rt: HostRuntime) -> Result<(), Fail> {
    let alloc = rt.alloc();
    let mut sources = Sources::new(alloc);
    let mut text = String::new(alloc);
    let finding = finding(alloc)?;
    push_full(
        alloc,
        &mut text,
        Style::Coloured,
        "page.html",
        &mut sources,
        &finding,
    )?;
    assert_eq!(&rt;
        text.as_str(),
        "\u{1b}[1mpage.html:2:12:\u{1b}[0m \u{1b}[1;31merror[unknown-argument]\u{1b}[0m: Unknown\\nargument\n\u{1b}[1mui.html:1:4:\u{1b}[0m \u{1b}[1;36mnote\u{1b}[0m: `button` is defined here\n"
    );
    Ok(())
}

#[test]
fn warning_without_sources(rt: HostRuntime) -> Result<(), Fail> {
    let alloc = rt.alloc();
    let mut sources = Sources::new(alloc);
    let mut text = String::new(alloc);
    let finding = Finding {
        kind: Kind::RepeatedArgument,
        severity: Severity::Warning,
        span: span(1, 2, 1, 3),
        message: String::from_str(alloc, "Given again")?,
        notes: Vec::new(alloc),
    };
    push_full(
        alloc,
        &mut text,
        Style::Coloured,
        "page.html",
        &mut sources,
        &finding,
    )?;
    assert_eq!(&rt;
        text.as_str(),
        "\u{1b}[1mpage.html:1:3:\u{1b}[0m \u{1b}[1;33mwarning[repeated-argument]\u{1b}[0m: Given again\n"
    );
    Ok(())
}

#[test]
fn a_line_says_how_grave_it_is(rt: HostRuntime) -> Result<(), Fail> {
    let alloc = rt.alloc();
    for kind in &KINDS {
        for severity in &[Severity::Error, Severity::Warning] {
            let finding = Finding {
                kind: *kind,
                severity: *severity,
                ..finding(alloc)?
            };
            let mut text = String::new(alloc);
            push_lines(alloc, &mut text, "a", &finding)?;
            let (word, rule) = (severity.name(), kind.name());
            let lines = format!(in alloc;
                "a:2:12: {word}[{rule}]: Unknown\\nargument\nui.html:1:4: note: `button` is defined here\n"
            )?;
            assert_eq!(&rt; text.as_str(), lines.as_str());
        }
    }
    Ok(())
}
