//! A page of two components.

use std::alloc::{AllocError, Global};
use std::test::Fail;
use tera_catalogue::{components_of, escaped, html_of};
use tera_check::read_template;

const SOURCE: &str =
    r#"{% component Button(label: String, size: Integer = 1, variant = "<b>", @by, ...restant)
{"doc": "It's \"this\""} %}x{% endcomponent %}
{% component ui.none() %}{% endcomponent %}"#;

const SECTIONS: &str = r#"
<section>
<h2>Button</h2>
<p class="place">a&amp;b.html:1:14</p>
<p class="call"><code>{{ &lt;Button label=&quot;&quot;/&gt; }}</code> <button type="button">Copy</button></p>
<table>
<thead><tr><th>Parameter</th><th>Type</th><th>Default</th></tr></thead>
<tbody>
<tr><td><code>@by</code></td><td></td><td>from the context</td></tr>
<tr><td><code>label</code></td><td>string</td><td>required</td></tr>
<tr><td><code>size</code></td><td>integer</td><td><code>1</code></td></tr>
<tr><td><code>variant</code></td><td>string</td><td><code>&quot;&lt;b&gt;&quot;</code></td></tr>
<tr><td><code>...restant</code></td><td></td><td>all else that is passed</td></tr>
</tbody>
</table>
<dl>
<dt>doc</dt><dd>It&#39;s &quot;this&quot;</dd>
</dl>
</section>
<section>
<h2>ui.none</h2>
<p class="place">a&amp;b.html:3:17, with an empty body</p>
<p class="call"><code>{{ &lt;ui.none/&gt; }}</code> <button type="button">Copy</button></p>
<table>
<thead><tr><th>Parameter</th><th>Type</th><th>Default</th></tr></thead>
<tbody>
</tbody>
</table>
<dl>
</dl>
</section>
<p id="none" hidden>"#;

fn page_of(alloc: Global, source: &str) -> Result<Vec<u8>, AllocError> {
    let mut templates = Vec::new(alloc);
    templates.push(read_template(alloc, "a&b.html", source, 0)?)?;
    let components = components_of(alloc, &templates)?;
    html_of(alloc, components.as_slice())
}

#[test]
fn a_component_has_a_section(rt: HostRuntime) -> Result<(), Fail> {
    let page = page_of(rt.alloc(), SOURCE)?;
    assert!(rt; page.starts_with(b"<!DOCTYPE html>\n"));
    assert!(rt; str::from_utf8(page.as_slice()).is_ok_and(|text| text.contains(SECTIONS)));
    assert!(rt; page.ends_with(b"</html>\n"));
    Ok(())
}

#[test]
fn a_text_is_escaped(rt: HostRuntime) -> Result<(), Fail> {
    let text = escaped(rt.alloc(), "<a b=\"c\" d='e'>&amp;é")?;
    let expected = "&lt;a b=&quot;c&quot; d=&#39;e&#39;&gt;&amp;amp;é";
    assert_eq!(rt; text.as_slice(), expected.as_bytes());
    Ok(())
}
