//! The settings of a file, or its fault, as a text.

use std::alloc::{AllocError, Global};
use tera_settings::{Fault, Level, RuleLevel, Settings, settings_of};

const RULES: [&str; 3] = ["unused-component", "unused-parameter", "wrong-type"];

/// What a file means: a line for each setting, or one for what is wrong, with its byte.
pub(crate) fn shown(alloc: Global, text: &str) -> Result<String, AllocError> {
    match settings_of(alloc, &RULES, text) {
        Ok(settings) => shown_settings(alloc, &settings),
        Err(fault) => shown_fault(alloc, text, &fault),
    }
}

fn shown_settings(alloc: Global, settings: &Settings) -> Result<String, AllocError> {
    let mut shown = String::new(alloc);
    push_text(&mut shown, "root", &settings.root)?;
    push_texts(&mut shown, "extensions", &settings.extensions)?;
    push_texts(&mut shown, "exclude", &settings.exclude)?;
    push_texts(&mut shown, "libraries", &settings.libraries)?;
    push_text(&mut shown, "markers", &settings.markers)?;
    push_rules(&mut shown, &settings.rules)?;
    push_texts(&mut shown, "filters", &settings.known.filters)?;
    push_texts(&mut shown, "tests", &settings.known.tests)?;
    push_texts(&mut shown, "functions", &settings.known.functions)?;
    Ok(shown)
}

fn push_text(shown: &mut String, name: &str, text: &Option<String>) -> Result<(), AllocError> {
    let Some(text) = text else {
        return Ok(());
    };
    shown.push_str(name)?;
    shown.push_str(": ")?;
    shown.push_str(text.as_str())?;
    shown.push_str("\n")
}

fn push_texts(
    shown: &mut String,
    name: &str,
    texts: &Option<Vec<String>>,
) -> Result<(), AllocError> {
    let Some(texts) = texts else {
        return Ok(());
    };
    shown.push_str(name)?;
    shown.push_str(":")?;
    for text in texts {
        shown.push_str(" ")?;
        shown.push_str(text.as_str())?;
    }
    shown.push_str("\n")
}

fn push_rules(shown: &mut String, rules: &Vec<RuleLevel>) -> Result<(), AllocError> {
    for rule in rules {
        shown.push_str(rule.rule.as_str())?;
        shown.push_str(word(rule.level))?;
    }
    Ok(())
}

fn word(level: Level) -> &'static str {
    match level {
        Level::Off => " is off\n",
        Level::Warning => " is a warning\n",
        Level::Error => " is an error\n",
    }
}

fn shown_fault(alloc: Global, text: &str, fault: &Fault) -> Result<String, AllocError> {
    let message = fault.message(alloc, &RULES)?;
    match fault.place(alloc, text)? {
        Some(place) => format!(in alloc; "{place}: {message}"),
        None => Ok(message),
    }
}
