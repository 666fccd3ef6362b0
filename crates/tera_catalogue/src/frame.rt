//! What is before and after the sections of a page.

ghost use Rattle.std.specs.Prelude.{◌≡◌, ◌++◌, OnOk};
ghost use Rattle.tera_catalogue.specs.Pages.{head, tail};

use crate::escapes::push;
use std::alloc::AllocError;

/// Adds the beginning of a page.
#[tactic(auto, unfolding(crate::specs::Pages::head))]
pub(crate) fn push_head(page: &mut Vec<u8>) -> Result<(), AllocError>
    ensures { OnOk result (page.new.items ≡ page.old.items ++ head) }
{
    push(page, HEAD)
}

/// Adds the end of a page.
#[tactic(auto, unfolding(crate::specs::Pages::tail))]
pub(crate) fn push_tail(page: &mut Vec<u8>) -> Result<(), AllocError>
    ensures { OnOk result (page.new.items ≡ page.old.items ++ tail) }
{
    push(page, TAIL)
}

// The beginning of a page, up to its first section.
const HEAD: &str = r#"<!DOCTYPE html>
<html lang="en">
<head>
<meta charset="utf-8">
<meta name="viewport" content="width=device-width, initial-scale=1">
<meta http-equiv="Content-Security-Policy"
  content="default-src 'none'; style-src 'unsafe-inline'; script-src 'unsafe-inline'">
<title>Components</title>
<style>
body { font: 16px/1.5 sans-serif; max-width: 60rem; margin: 0 auto; padding: 1rem; }
h2 { margin: 0; }
section { border-top: 1px solid silver; padding: 1rem 0; }
code { font-family: monospace; white-space: pre-wrap; }
table { border-collapse: collapse; }
table:not(:has(td)) { display: none; }
th, td { border: 1px solid silver; padding: 0.25rem 0.5rem; text-align: left; }
.place { color: dimgray; margin: 0; }
.call code { background: whitesmoke; padding: 0.25rem; }
input { font: inherit; width: 100%; box-sizing: border-box; }
dt { font-weight: bold; }
dd { white-space: pre-wrap; }
</style>
</head>
<body>
<h1>Components</h1>
<p><input type="search" id="search" placeholder="Search" aria-label="Search" autofocus></p>
"#;

// The end of a page, after its last section.
const TAIL: &str = r#"<p id="none" hidden>No component has these words.</p>
<script>
const search = document.getElementById("search");
const sections = Array.from(document.querySelectorAll("section"));
function find() {
  const words = search.value.toLowerCase().split(/\s+/);
  for (const section of sections) {
    const text = section.textContent.toLowerCase();
    section.hidden = !words.every((word) => text.includes(word));
  }
  document.getElementById("none").hidden = sections.some((section) => !section.hidden);
}
search.addEventListener("input", find);
find();
document.addEventListener("click", (event) => {
  if (!event.target.matches(".call button")) return;
  getSelection().selectAllChildren(event.target.previousElementSibling);
  document.execCommand("copy");
  event.target.textContent = "Copied";
});
</script>
</body>
</html>
"#;
