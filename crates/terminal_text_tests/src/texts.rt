//! Messages on one line, colours and counts.

use line_text::{push_on_lines, push_on_one_line};
use std::test::Fail;
use terminal_text::{Part, Style, counted};

#[test]
fn one_line(rt: HostRuntime) -> Result<(), Fail> {
    let mut text = String::new(rt.alloc());
    push_on_one_line(
        &mut text,
        "a\r\nb\tc\u{1b}[0m \u{2067}ü\u{7f} \u{9b}\u{2028}日",
    )?;
    let expected = "a\\r\\nb\\tc\\u001b[0m \\u2067ü\\u007f \\u009b\\u2028日";
    assert!(rt; text.as_str() == expected, "{text}");
    Ok(())
}

#[test]
fn several_lines(rt: HostRuntime) -> Result<(), Fail> {
    let mut text = String::new(rt.alloc());
    push_on_lines(&mut text, "a\n\tb\r\n\u{1b}[0m\u{7}")?;
    assert!(rt; text.as_str() == "a\n\tb\\r\n\\u001b[0m\\u0007", "{text}");
    Ok(())
}

const PARTS: [Part; 7] = [
    Part::Error,
    Part::Warning,
    Part::Note,
    Part::Place,
    Part::Frame,
    Part::Gone,
    Part::New,
];

const COLOURS: &str =
    "\u{1b}[1;31mx\u{1b}[0my\u{1b}[1;33mx\u{1b}[0my\u{1b}[1;36mx\u{1b}[0my\u{1b}[1mx\u{1b}[0my\u{1b}[34mx\u{1b}[0my\u{1b}[31mx\u{1b}[0my\u{1b}[32mx\u{1b}[0my";

#[test]
fn colours(rt: HostRuntime) -> Result<(), Fail> {
    let mut text = String::new(rt.alloc());
    for part in &PARTS {
        Style::Coloured.push(&mut text, *part, "x")?;
        Style::Plain.push(&mut text, *part, "y")?;
    }
    assert!(rt; text.as_str() == COLOURS, "{text}");
    Ok(())
}

#[test]
fn counts(rt: HostRuntime) -> Result<(), Fail> {
    for (count, what, expected) in &[
        (0, "file", "0 files"),
        (1, "file", "1 file"),
        (12, "finding", "12 findings"),
    ] {
        let text = counted(rt.alloc(), *count, what)?;
        assert!(rt; text.as_str() == *expected, "{text}");
    }
    Ok(())
}
