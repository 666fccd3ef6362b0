//! The errors of files that are wrong.

use crate::shown::shown;
use std::test::Fail;

#[test]
fn a_key_that_no_setting_has(rt: HostRuntime) -> Result<(), Fail> {
    let alloc = rt.alloc();
    let found = shown(alloc, "markers = \"\"\n  rot = \"templates\"\n")?;
    assert_eq!(rt;
        found.as_str(),
        "15: unknown key `rot`: did you mean `root`?"
    );
    let found = shown(alloc, "[known]\nfilter = []\n")?;
    assert_eq!(rt;
        found.as_str(),
        "8: unknown key `filter`: did you mean `filters`?"
    );
    let found = shown(alloc, "[theme]\nroot = \"a\"\n")?;
    assert_eq!(rt; found.as_str(), "1: unknown key `theme`");
    let found = shown(alloc, "foo = 1\n")?;
    assert_eq!(rt; found.as_str(), "0: unknown key `foo`");
    let found = shown(alloc, "tests = []\n")?;
    assert_eq!(rt;
        found.as_str(),
        "0: unknown key `tests`: it is a key of the table `known`"
    );
    Ok(())
}

#[test]
fn a_key_of_the_top_in_a_table(rt: HostRuntime) -> Result<(), Fail> {
    let alloc = rt.alloc();
    let found = shown(alloc, "[known]\nfilters = []\nroot = \"a\"\n")?;
    let expected =
        "21: unknown key `root`: it belongs at the top of the file, before the first table";
    assert_eq!(rt; found.as_str(), expected);
    let found = shown(alloc, "[rules]\nexclude = []\n")?;
    let expected =
        "8: unknown rule `exclude`: it belongs at the top of the file, before the first table";
    assert_eq!(rt; found.as_str(), expected);
    Ok(())
}

#[test]
fn a_key_after_what_is_no_key(rt: HostRuntime) -> Result<(), Fail> {
    let alloc = rt.alloc();
    let found = shown(alloc, "\u{feff}[rules]\nfault = \"off\"\n")?;
    let expected = "11: `fault` cannot be set: a syntax error is always an error";
    assert_eq!(rt; found.as_str(), expected);
    let found = shown(alloc, "root = \"\"\"\nrot = 1\n\"\"\"\nrot = 2\n")?;
    assert_eq!(rt;
        found.as_str(),
        "23: unknown key `rot`: did you mean `root`?"
    );
    let found = shown(alloc, "exclude = [ # [\n[\"rot\"],\n]\nrot = 2\n")?;
    assert_eq!(rt;
        found.as_str(),
        "27: unknown key `rot`: did you mean `root`?"
    );
    Ok(())
}

#[test]
fn a_rule_that_is_not_known(rt: HostRuntime) -> Result<(), Fail> {
    let alloc = rt.alloc();
    let expected = "8: unknown rule `unused-paramter`: did you mean `unused-parameter`?";
    let found = shown(alloc, "[rules]\nunused-paramter = \"off\"\n")?;
    assert_eq!(rt; found.as_str(), expected);
    let found = shown(alloc, "rules = { fault = \"off\" }\n")?;
    let expected = "0: `fault` cannot be set: a syntax error is always an error";
    assert_eq!(rt; found.as_str(), expected);
    let expected = "8: `unread` cannot be set: a file that cannot be read is always an error";
    let found = shown(alloc, "[rules]\nunread = \"error\"\n")?;
    assert_eq!(rt; found.as_str(), expected);
    Ok(())
}

#[test]
fn a_value_of_another_type(rt: HostRuntime) -> Result<(), Fail> {
    let alloc = rt.alloc();
    let found = shown(alloc, "root = [\"a\"]\n")?;
    assert_eq!(rt; found.as_str(), "0: `root`: expected a string");
    let found = shown(alloc, "exclude = \"a\"\n")?;
    assert_eq!(rt;
        found.as_str(),
        "0: `exclude`: expected an array of strings"
    );
    let found = shown(alloc, "extensions = [\"a\", 1]\n")?;
    assert_eq!(rt;
        found.as_str(),
        "0: `extensions`: expected an array of strings"
    );
    let found = shown(alloc, "known = 1\n")?;
    assert_eq!(rt; found.as_str(), "0: `known`: expected a table");
    let expected = "0: `wrong-type`: expected \"off\", \"warning\" or \"error\"";
    let found = shown(alloc, "rules.wrong-type = \"on\"\n")?;
    assert_eq!(rt; found.as_str(), expected);
    Ok(())
}

#[test]
fn a_text_that_is_not_toml(rt: HostRuntime) -> Result<(), Fail> {
    let found = shown(rt.alloc(), "root \"a\"\n")?;
    assert_eq!(rt; found.as_str(), "5: key with no value, expected `=`");
    Ok(())
}
