//! Lines of a source with a mark below them.

use std::alloc::{AllocError, Global};
use std::test::Fail;
use terminal_text::{Marked, Part, Sources, Style, push_excerpt};

const LINES: &str = "one\n{{ two }}\r\nthree\n";

const BEHIND: &str = "    1 | {% if a\n      |        ^\n";

// A source; a line of it, and where the mark starts and ends there, or None for the end of the line; and the excerpt.
const EXCERPTS: [(&str, usize, usize, Option<usize>, &str); 15] = [
    (LINES, 2, 3, Some(6), "    2 | {{ two }}\n      |    ^^^\n"),
    (LINES, 3, 2, None, "    3 | three\n      |   ^^^\n"),
    // An empty line comes after the last line feed.
    (LINES, 4, 0, Some(0), "    4 | \n      | ^\n"),
    (LINES, 5, 0, Some(0), ""),
    (LINES, 0, 0, Some(0), ""),
    // The end of a line.
    ("{% if a", 1, 7, Some(9), BEHIND),
    ("{% if a\r\n", 1, 20, Some(30), BEHIND),
    ("{% if a\r", 1, 7, None, BEHIND),
    // Wide characters.
    (
        "日本 {{ x }} 日",
        1,
        6,
        Some(7),
        "    1 | 日本 {{ x }} 日\n      |         ^\n",
    ),
    (
        "日本 {{ x }} 日",
        1,
        1,
        Some(3),
        "    1 | 日本 {{ x }} 日\n      |   ^^^\n",
    ),
    // Combining marks. The mark of a character without columns takes one.
    (
        "e\u{301}a",
        1,
        2,
        Some(3),
        "    1 | e\u{301}a\n      |  ^\n",
    ),
    (
        "e\u{301}a",
        1,
        1,
        Some(2),
        "    1 | e\u{301}a\n      |  ^\n",
    ),
    // Tabs and controls.
    (
        "\ta\tb",
        1,
        1,
        Some(3),
        "    1 |     a    b\n      |     ^^^^^\n",
    ),
    (
        "\ta\tb",
        1,
        2,
        Some(3),
        "    1 |     a    b\n      |      ^^^^\n",
    ),
    (
        "\u{1b}[31m\u{202e}\u{9b}\u{200f}x",
        1,
        8,
        Some(9),
        "    1 | �[31m���x\n      |         ^\n",
    ),
];

fn excerpt_of(
    alloc: Global,
    source: &str,
    line: usize,
    start: usize,
    end: Option<usize>,
) -> Result<String, AllocError> {
    let mut sources = Sources::new(alloc);
    sources.add("page.html", source)?;
    let mut text = String::new(alloc);
    let marked = Marked { line, start, end };
    push_excerpt(
        alloc,
        &mut text,
        Style::Plain,
        Part::Error,
        &mut sources,
        "page.html",
        marked,
    )?;
    Ok(text)
}

#[test]
fn excerpts(rt: HostRuntime) -> Result<(), Fail> {
    for (source, line, start, end, expected) in &EXCERPTS {
        let text = excerpt_of(rt.alloc(), source, *line, *start, *end)?;
        assert!(rt; text.as_str() == *expected, "{text} for {expected}");
    }
    Ok(())
}

// A note on the first line of each of these files, where it is there.
fn notes_on(alloc: Global, sources: &mut Sources, files: &[&str]) -> Result<String, AllocError> {
    let mut text = String::new(alloc);
    for file in files {
        let marked = Marked {
            line: 1,
            start: 0,
            end: None,
        };
        push_excerpt(
            alloc,
            &mut text,
            Style::Coloured,
            Part::Note,
            sources,
            file,
            marked,
        )?;
    }
    Ok(text)
}

const NOTES: &str =
    "\u{1b}[34m    1 | \u{1b}[0mb\n\u{1b}[34m      | \u{1b}[0m\u{1b}[1;36m^\u{1b}[0m\n\u{1b}[34m    1 | \u{1b}[0mnew\n\u{1b}[34m      | \u{1b}[0m\u{1b}[1;36m^^^\u{1b}[0m\n";

#[test]
fn other_files(rt: HostRuntime) -> Result<(), Fail> {
    let mut sources = Sources::new(rt.alloc());
    sources.add("a.html", "old")?;
    sources.add("b.html", "b")?;
    sources.add("a.html", "new")?;
    let text = notes_on(rt.alloc(), &mut sources, &["b.html", "c.html", "a.html"])?;
    assert!(rt; text.as_str() == NOTES, "{text}");
    Ok(())
}

const TENS: &str =
    "0123456789012345678901234567890123456789012345678901234567890123456789012345678901234567890123456789";

// Where the mark starts and ends in a long line; what is around the tens that are shown, and the mark's line.
const LONG: [(usize, Option<usize>, &str, &str, usize, &str); 3] = [
    (0, Some(10), "", "01234567890123456789…", 0, "^^^^^^^^^^"),
    (65, Some(70), "…56789", "012345678901234…", 61, "^^^^^"),
    (130, None, "…3456789", "0123456789end", 118, "^^^"),
];

#[test]
fn long_lines(rt: HostRuntime) -> Result<(), Fail> {
    let line = format!(in rt.alloc(); "{TENS}012345678901234567890123456789end")?;
    for (start, end, before, following, columns, mark) in &LONG {
        let text = excerpt_of(rt.alloc(), line.as_str(), 1, *start, *end)?;
        let columns = *columns;
        let expected = format!(in rt.alloc();
            "    1 | {before}{TENS}{following}\n      | {:columns$}{mark}\n",
            ""
        )?;
        assert!(rt; text.as_str() == expected.as_str(), "{text} for {expected}");
    }
    Ok(())
}

// A place far from the start of a line of characters that have three bytes each.
#[test]
fn long_line_of_wide_characters(rt: HostRuntime) -> Result<(), Fail> {
    let many = "日".repeat(rt.alloc(), 1000)?;
    let line = format!(in rt.alloc(); "{many}x{many}")?;
    let text = excerpt_of(rt.alloc(), line.as_str(), 1, 1000, Some(1001))?;
    let (before, after) = ("日".repeat(rt.alloc(), 60)?, "日".repeat(rt.alloc(), 59)?);
    let columns = 121;
    let expected = format!(in rt.alloc();
        "    1 | …{before}x{after}…\n      | {:columns$}^\n",
        ""
    )?;
    assert!(rt; text.as_str() == expected.as_str(), "{text} for {expected}");
    Ok(())
}
