//! The texts of findings.

ghost use Rattle.std.specs.Prelude.{◌≡◌, IfOk, string_bytes};
ghost use Rattle.tera_site.specs.Named.{missing_text, circular_extends_text, circular_include_text, undefined_block_text, super_text, super_outside_text};

use std::alloc::{AllocError, Global};

/// That no template has this name.
pub(crate) fn missing_template(alloc: Global, name: &str) -> Result<String, AllocError>
    ensures { IfOk result (λ m. string_bytes m ≡ missing_text name.now) }
{
    format!(in alloc; "No template is named `{name}`")
}

/// That the template of this name, which this template extends, extends it in turn.
pub(crate) fn circular_extends(alloc: Global, name: &str) -> Result<String, AllocError>
    ensures { IfOk result (λ m. string_bytes m ≡ circular_extends_text name.now) }
{
    format!(in alloc; "This template extends `{name}`, which in turn extends this template")
}

/// That the template of this name, which this template includes, includes or extends it in turn.
pub(crate) fn circular_include(alloc: Global, name: &str) -> Result<String, AllocError>
    ensures { IfOk result (λ m. string_bytes m ≡ circular_include_text name.now) }
{
    format!(in alloc;
        "This template includes `{name}`, which in turn includes or extends this template"
    )
}

/// That none of the templates that the template extends has this block.
pub(crate) fn undefined_block(alloc: Global, name: &str) -> Result<String, AllocError>
    ensures { IfOk result (λ m. string_bytes m ≡ undefined_block_text name.now) }
{
    format!(in alloc; "No parent template has a block named `{name}`")
}

/// That `super()` has no value in this block.
pub(crate) fn super_without_parent(alloc: Global, name: &str) -> Result<String, AllocError>
    ensures { IfOk result (λ m. string_bytes m ≡ super_text name.now) }
{
    format!(in alloc; "`super()` has no value: no parent template has a block named `{name}`")
}

/// That `super()` is not in a block.
pub(crate) fn super_outside(alloc: Global) -> Result<String, AllocError>
    ensures { IfOk result (λ m. string_bytes m ≡ super_outside_text) }
{
    String::from_str(alloc, "`super()` is not in a block")
}
