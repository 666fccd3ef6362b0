//! What is written for each kind of fault, by what is left of the tree.

use crate::mend_reported::reported;
use std::test::Fail;

#[test]
fn a_head_stays_a_head(rt: HostRuntime) -> Result<(), Fail> {
    let alloc = rt.alloc();
    let found = reported(alloc, "{% if a b %}x{% endif %}{{ c }}", 9)?;
    let expected = "1:8 (8..9): Found identifier but expected %}.
if 0
  text \"x\"
expr c
";
    assert_eq!(rt; found.as_str(), expected);
    let found = reported(alloc, "{% for x in y z %}{{ x }}{% endfor %}", 9)?;
    let expected = "1:14 (14..15): Found identifier but expected %}.
for x in 0
  expr x
";
    assert_eq!(rt; found.as_str(), expected);
    let found = reported(alloc, "{% component a(x y) %}t{% endcomponent %}", 9)?;
    let expected = "1:17 (17..18): Found identifier but expected ,.
component a
  rest r
  body
    text \"t\"
";
    assert_eq!(rt; found.as_str(), expected);
    Ok(())
}

#[test]
fn a_head_without_an_end_becomes_a_comment(rt: HostRuntime) -> Result<(), Fail> {
    let found = reported(rt.alloc(), "{% if a b %}x", 9)?;
    let expected = "1:8 (8..9): Found identifier but expected %}.
text \"x\"
";
    assert_eq!(rt; found.as_str(), expected);
    Ok(())
}

#[test]
fn a_word_becomes_the_one_that_is_near(rt: HostRuntime) -> Result<(), Fail> {
    let alloc = rt.alloc();
    let found = reported(alloc, "{% iff a %}x{% endif %}", 9)?;
    let expected = "1:3 (3..6): Unknown tag
if a
  text \"x\"
";
    assert_eq!(rt; found.as_str(), expected);
    let found = reported(alloc, "{% trans %}x{% endtrans %}{{ a }}", 9)?;
    let expected = "1:3 (3..8): Unknown tag
text \"x\"
expr a
";
    assert_eq!(rt; found.as_str(), expected);
    Ok(())
}

#[test]
fn an_end_past_a_head_takes_that_head(rt: HostRuntime) -> Result<(), Fail> {
    let found = reported(rt.alloc(), "{% for x in y %}{% if a %}t{% endfor %}", 9)?;
    let expected = "1:30 (30..36): Unknown tag
for x in y
  text \"t\"
";
    assert_eq!(rt; found.as_str(), expected);
    Ok(())
}

#[test]
fn an_end_is_written_after_the_text(rt: HostRuntime) -> Result<(), Fail> {
    let found = reported(rt.alloc(), "{% if a %}x", 9)?;
    let expected = "1:11 (10..11): Unexpected end of input
if a
  text \"x\"
";
    assert_eq!(rt; found.as_str(), expected);
    Ok(())
}

#[test]
fn a_tag_that_is_not_closed_ends_with_its_line(rt: HostRuntime) -> Result<(), Fail> {
    let found = reported(rt.alloc(), "{{ a\n{{ b }}", 9)?;
    let expected = "2:0 (5..6): Found `{` but expected }}.
text \"\\n\"
expr b
";
    assert_eq!(rt; found.as_str(), expected);
    Ok(())
}

#[test]
fn a_name_that_is_there_becomes_another(rt: HostRuntime) -> Result<(), Fail> {
    let source = "{% block a %}{% endblock %}{% block a %}{% endblock a %}";
    let found = reported(rt.alloc(), source, 9)?;
    let expected = "1:36 (36..37): Template already contains a block named `a`
block a
block _
";
    assert_eq!(rt; found.as_str(), expected);
    Ok(())
}

#[test]
fn what_comes_before_a_cut_stays(rt: HostRuntime) -> Result<(), Fail> {
    let found = reported(rt.alloc(), "{% if a %}t{{ b c }}{{ d }}", 0)?;
    let expected = "cut
if a
  text \"t\"
";
    assert_eq!(rt; found.as_str(), expected);
    Ok(())
}
