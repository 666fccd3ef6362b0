//! The texts of findings that depend on a whole template, or on all templates.

ghost use Rattle.std.specs.Prelude.{◌≡◌, IfOk, string_bytes};
ghost use Rattle.tera_check.specs.Parameters.{unused_text};
ghost use Rattle.tera_check.specs.Silenced.{missing_rule_text, no_finding_text, no_rule_text};
ghost use Rattle.tera_check.specs.UnusedComponents.{unused_component_text};

use std::alloc::{AllocError, Global};

/// That nothing in the body of the component names the parameter.
pub(crate) fn unused_parameter(
    alloc: Global,
    component: &str,
    name: &str,
) -> Result<String, AllocError>
    ensures { IfOk result (λ m. string_bytes m ≡ unused_text component.now name.now) }
{
    format!(in alloc; "Parameter `{name}` is never used in the body of component `{component}`")
}

/// That no template calls the component.
pub(crate) fn unused_component(alloc: Global, name: &str) -> Result<String, AllocError>
    ensures { IfOk result (λ m. string_bytes m ≡ unused_component_text name.now) }
{
    format!(in alloc; "No template calls the component `{name}`")
}

/// That the ignore silences no finding of the rule.
pub(crate) fn unused_ignore(alloc: Global, rule: &str) -> Result<String, AllocError>
    ensures { IfOk result (λ m. string_bytes m ≡ no_finding_text rule.now) }
{
    format!(in alloc; "This comment silences no finding of the rule `{rule}`")
}

/// That the ignore names something that is not a rule.
pub(crate) fn unknown_rule(alloc: Global, rule: &str) -> Result<String, AllocError>
    ensures { IfOk result (λ m. string_bytes m ≡ no_rule_text rule.now) }
{
    format!(in alloc; "No rule is named `{rule}`")
}

/// That the ignore lacks the name of a rule.
pub(crate) fn missing_rule(alloc: Global) -> Result<String, AllocError>
    ensures { IfOk result (λ m. string_bytes m ≡ missing_rule_text) }
{
    String::from_str(alloc, "The name of a rule is missing")
}
