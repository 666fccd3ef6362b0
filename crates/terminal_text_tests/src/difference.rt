//! The difference of two texts, as it is printed.

use std::test::Fail;
use terminal_text::{Style, difference};

const OLD: &str = "a\nb\nc\nd\ne\nf\ng\nh\ni\nj\nk\nl";

const NEW: &str = "a\nB\nc\nd\ne\nf\ng\nh\ni\nj\nk\nL\n";

#[test]
fn hunks(rt: HostRuntime) -> Result<(), Fail> {
    let text = difference(rt.alloc(), Style::Plain, "a.txt", OLD, NEW)?;
    let expected =
        "--- a.txt\n+++ a.txt\n@@ -1,5 +1,5 @@\n a\n-b\n+B\n c\n d\n e\n@@ -9,4 +9,4 @@\n i\n j\n k\n-l\n\\ No newline at end of file\n+L\n";
    assert!(rt; text.as_str() == expected, "{text}");
    Ok(())
}

#[test]
fn colours(rt: HostRuntime) -> Result<(), Fail> {
    let text = difference(rt.alloc(), Style::Coloured, "a b", "x\n", "y\n")?;
    let expected =
        "\u{1b}[1m--- \"a b\"\u{1b}[0m\n\u{1b}[1m+++ \"a b\"\u{1b}[0m\n\u{1b}[34m@@ -1 +1 @@\u{1b}[0m\n\u{1b}[31m-x\u{1b}[0m\n\u{1b}[32m+y\u{1b}[0m\n";
    assert!(rt; text.as_str() == expected, "{text}");
    Ok(())
}

#[test]
fn same(rt: HostRuntime) -> Result<(), Fail> {
    assert!(rt; difference(rt.alloc(), Style::Plain, "a", OLD, OLD)?.is_empty());
    Ok(())
}
