//! What is suggested, and the text that results.

use crate::fixes_shown::suggested;
use std::test::Fail;

const LIBRARY: &str =
    "{% component ui.button(label, size = 1) %}{{ label }}{{ size }}{% endcomponent %}
{% component box(title, titles = 1, x = 1) %}{{ title }}{{ titles }}{{ x }}{{ body }}{% endcomponent %}
{% component boz(a = 1) %}{{ a }}{% endcomponent %}";

// The library, a source, and what is suggested for it with the text that results.
const SUGGESTED: [(&str, &str); 15] = [
    (
        r#"{{<ui.buton label={1}/>}}"#,
        r#"Replace `ui.buton` with `ui.button`; {{<ui.button label={1}/>}}"#,
    ),
    (
        r#"{{< ui.butten label={1}/>}}"#,
        r#"Replace `ui.butten` with `ui.button`; {{< ui.button label={1}/>}}"#,
    ),
    (
        r#"{{<ui . buton label={1}/>}}"#,
        r#"{{<ui . buton label={1}/>}}"#,
    ),
    (
        r#"{% <bx title="a"> %}{{<ui.buton label={bx}/>}}{% </ bx > %}"#,
        r#"Replace `bx` with `box`; Replace `ui.buton` with `ui.button`; {% <box title="a"> %}{{<ui.button label={bx}/>}}{% </ box > %}"#,
    ),
    (
        r#"{{<ui.button labl="Buy"/>}}"#,
        r#"Replace `labl` with `label`; {{<ui.button label="Buy"/>}}"#,
    ),
    (
        r#"{{<ui.button labl = { (a) + 1 }/>}}"#,
        r#"Replace `labl` with `label`; {{<ui.button label = { (a) + 1 }/>}}"#,
    ),
    (
        r#"{{<ui.button labl={ (a) }/>}}"#,
        r#"Replace `labl` with `label`; {{<ui.button label={ (a) }/>}}"#,
    ),
    (r#"{{<ui.button labl/>}}"#, r#"{{<ui.button labl/>}}"#),
    (
        r#"{{<ui.button {...{"labl": 1}}/>}}"#,
        r#"{{<ui.button {...{"labl": 1}}/>}}"#,
    ),
    (
        r#"{{<ui.button label="Pay" labl="Buy"/>}}"#,
        r#"{{<ui.button label="Pay" labl="Buy"/>}}"#,
    ),
    (
        r#"{{<ui.button label="Pay" siez={2} label="Buy"/>}}"#,
        r#"Remove this `label`; Replace `siez` with `size`; {{<ui.button size={2} label="Buy"/>}}"#,
    ),
    (
        r#"{{<ui.button label={ (<ui.buton label={1}/>) }{...a} label="Buy"/>}}"#,
        r#"Replace `ui.buton` with `ui.button`; Remove this `label`; {{<ui.button {...a} label="Buy"/>}}"#,
    ),
    (
        r#"{{<box titl="a"/>}}{{<box title={1} y={2}/>}}{{<bo/>}}{{<bor/>}}"#,
        r#"Replace `titl` with `title`; {{<box title="a"/>}}{{<box title={1} y={2}/>}}{{<bo/>}}{{<bor/>}}"#,
    ),
    (
        r#"{{<ui.buton/>}}{{<x/>}}{{<ui.buton/>}}{{<x/>}}{{<bax/>}}"#,
        r#"Replace `ui.buton` with `ui.button`; Replace `ui.buton` with `ui.button`; Replace `bax` with `box`; {{<ui.button/>}}{{<x/>}}{{<ui.button/>}}{{<x/>}}{{<box/>}}"#,
    ),
    (
        r#"é{{<ui.buton label="é"/>}}"#,
        r#"Replace `ui.buton` with `ui.button`; é{{<ui.button label="é"/>}}"#,
    ),
];

#[test]
fn each_is_as_it_is_written_here(rt: HostRuntime) -> Result<(), Fail> {
    for (source, answer) in SUGGESTED {
        let text = suggested(rt.alloc(), LIBRARY, source)?;
        assert!(rt; text.as_str() == answer, "{source}: {text}");
    }
    Ok(())
}

// A name of 100 characters is corrected, and a longer one is not.
#[test]
fn long_names_are_not_corrected(rt: HostRuntime) -> Result<(), Fail> {
    for (length, is_corrected) in [(99, true), (100, false)] {
        let front = "a".repeat(rt.alloc(), length)?;
        let library = format!(in rt.alloc();
            "{{% component {front}a(x = 1) %}}{{{{ x }}}}{{% endcomponent %}}"
        )?;
        let source = format!(in rt.alloc(); "{{{{<{front}b/>}}}}")?;
        let text = suggested(rt.alloc(), library.as_str(), source.as_str())?;
        assert!(rt; text.starts_with("Replace `a") == is_corrected, "{text}");
    }
    Ok(())
}
