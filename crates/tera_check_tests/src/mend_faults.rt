//! Faults of a source with several, and the tree of what is right in it. A tag that is wrong becomes a comment.

use crate::mend_reported::{faults_reported, reported};
use std::test::Fail;

#[test]
fn a_template_has_its_tree(rt: HostRuntime) -> Result<(), Fail> {
    let alloc = rt.alloc();
    assert_eq!(rt; reported(alloc, "", 9)?.as_str(), "");
    assert_eq!(rt; reported(alloc, "{{ a }}", 9)?.as_str(), "expr a\n");
    assert_eq!(rt; reported(alloc, "{{ a }}", 0)?.as_str(), "expr a\n");
    Ok(())
}

#[test]
fn the_rest_of_a_faulty_template_has_its_tree(rt: HostRuntime) -> Result<(), Fail> {
    let found = reported(rt.alloc(), "{{ a b }}{{ c }}{% endif %}{{ d }}", 9)?;
    let expected = "1:5 (5..6): Found identifier but expected }}.
1:19 (19..24): Unknown tag
expr c
expr d
";
    assert_eq!(rt; found.as_str(), expected);
    Ok(())
}

#[test]
fn tags_that_are_read_alone_have_faults_at_their_places(rt: HostRuntime) -> Result<(), Fail> {
    let source = "{{ a b }}{{ c d }}\n{{ \u{e9} }}{{ e }}\n\u{e9}{{ f\ng }}{{ h i }}";
    let found = reported(rt.alloc(), source, 9)?;
    let expected = "1:5 (5..6): Found identifier but expected }}.
alone 1:14 (14..15): Found identifier but expected }}.
alone 2:3 (22..22): Unexpected character
alone 4:0 (42..43): Found identifier but expected }}.
alone 4:9 (51..52): Found identifier but expected }}.
text \"\\n\"
expr e
text \"\\né\"
";
    assert_eq!(rt; found.as_str(), expected);
    Ok(())
}

#[test]
fn no_more_faults_than_the_limit(rt: HostRuntime) -> Result<(), Fail> {
    let source = "{{ a b }}{{ c d }}{{ e f }}";
    let first = "1:5 (5..6): Found identifier but expected }}.\ncut\n";
    let both = "1:5 (5..6): Found identifier but expected }}.
alone 1:14 (14..15): Found identifier but expected }}.
cut
";
    assert_eq!(rt; faults_reported(rt.alloc(), source, 0)?.as_str(), "cut\n");
    assert_eq!(rt; faults_reported(rt.alloc(), source, 1)?.as_str(), first);
    assert_eq!(rt; faults_reported(rt.alloc(), source, 2)?.as_str(), both);
    Ok(())
}
