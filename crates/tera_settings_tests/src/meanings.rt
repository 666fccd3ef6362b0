//! What files mean.

use crate::shown::shown;
use std::test::Fail;

#[test]
fn a_file_with_all_settings(rt: HostRuntime) -> Result<(), Fail> {
    let text = "root = \"templates\"
extensions = [\"html\", \"xml\"]
exclude = [\"templates/vendor\"]  # generated
libraries = [\"../theme\"]
markers = \"{% %} {{ }} {# #}\"

[rules]
wrong-type = \"warning\"
unused-component = \"error\"
unused-parameter = \"off\"

[known]
filters = [\"upper\", \"markdown\"]
tests = []
functions = [\"url\"]
";
    let expected = "root: templates
extensions: html xml
exclude: templates/vendor
libraries: ../theme
markers: {% %} {{ }} {# #}
unused-component is an error
unused-parameter is off
wrong-type is a warning
filters: upper markdown
tests:
functions: url
";
    let found = shown(rt.alloc(), text)?;
    assert_eq!(rt; found.as_str(), expected);
    Ok(())
}

#[test]
fn a_file_without_settings(rt: HostRuntime) -> Result<(), Fail> {
    let found = shown(rt.alloc(), "# nothing is set\n[rules]\n[known]\n")?;
    assert_eq!(rt; found.as_str(), "");
    Ok(())
}

#[test]
fn tables_in_braces(rt: HostRuntime) -> Result<(), Fail> {
    let text = "rules = { unused-parameter = \"off\" }\nknown.tests = [\"odd\"]\n";
    let found = shown(rt.alloc(), text)?;
    assert_eq!(rt; found.as_str(), "unused-parameter is off\ntests: odd\n");
    Ok(())
}
