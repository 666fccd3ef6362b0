//! The texts of findings in one tree and of their notes. Arguments that are refused are reported as the tree says them.

ghost use Rattle.std.specs.Prelude.{◌≡◌, IfOk, string_bytes};
ghost use Rattle.tera_base.specs.Text.{key_text};
ghost use Rattle.tera_base.specs.ValueView.{key_view};
ghost use Rattle.tera_rules.specs.Judged.{undefined_text, here_text, again_text, first_text, unused_body_text};
ghost use Rattle.tera_rules.specs.Repeated.{repeated_text, next_text};
ghost use Rattle.tera_rules.specs.RepeatedConditions.{again_condition_text, earlier_text};
ghost use Rattle.tera_rules.specs.declared.repeated.Holder.TheVariants as holders;

use std::alloc::{AllocError, Global};
use tera_parser::value::Key;

/// That there is no component of this name.
pub(crate) fn undefined_component(alloc: Global, name: &str) -> Result<String, AllocError>
    ensures { IfOk result (λ m. string_bytes m ≡ undefined_text name.now) }
{
    format!(in alloc; "No template defines a component named `{name}`")
}

/// That the value does not count, since the argument is given again.
pub(crate) fn repeated_argument(alloc: Global, key: &Key) -> Result<String, AllocError>
    ensures { IfOk result (λ m. string_bytes m
        ≡ repeated_text holders.Call (key_text (key_view key.now))) }
{
    format!(in alloc;
        "Argument `{key}` is given more than once in component call. This value is ignored."
    )
}

/// That the value does not count, since its key is given again in the map.
pub(crate) fn repeated_key(alloc: Global, key: &Key) -> Result<String, AllocError>
    ensures { IfOk result (λ m. string_bytes m
        ≡ repeated_text holders.Map (key_text (key_view key.now))) }
{
    format!(in alloc; "Key `{key}` is given more than once in the map. This value is ignored.")
}

/// That the condition is the same as one before it in the chain.
pub(crate) fn condition_again(alloc: Global) -> Result<String, AllocError>
    ensures { IfOk result (λ m. string_bytes m ≡ again_condition_text) }
{
    String::from_str(alloc, "This condition is the same as one before it")
}

/// Where the earlier condition is.
pub(crate) fn earlier_condition(alloc: Global) -> Result<String, AllocError>
    ensures { IfOk result (λ m. string_bytes m ≡ earlier_text) }
{
    String::from_str(alloc, "the same condition")
}

/// Where the argument or the key is given again.
pub(crate) fn given_again(alloc: Global) -> Result<String, AllocError>
    ensures { IfOk result (λ m. string_bytes m ≡ next_text) }
{
    String::from_str(alloc, "given again here")
}

/// That the component never shows the body that a call gives it.
pub(crate) fn unused_body(alloc: Global, name: &str) -> Result<String, AllocError>
    ensures { IfOk result (λ m. string_bytes m ≡ unused_body_text name.now) }
{
    format!(in alloc; "Component `{name}` never renders the body it is given")
}

/// Where the called component is defined.
pub(crate) fn defined_here(alloc: Global, name: &str) -> Result<String, AllocError>
    ensures { IfOk result (λ m. string_bytes m ≡ here_text name.now) }
{
    format!(in alloc; "`{name}` is defined here")
}

/// That another template defines a component of this name first.
pub fn defined_again(alloc: Global, name: &str) -> Result<String, AllocError>
    ensures { IfOk result (λ m. string_bytes m ≡ again_text name.now) }
{
    format!(in alloc; "Another template already contains a component named `{name}`")
}

/// Where the first one is defined.
pub fn first_defined(alloc: Global) -> Result<String, AllocError>
    ensures { IfOk result (λ m. string_bytes m ≡ first_text) }
{
    String::from_str(alloc, "first defined here")
}
