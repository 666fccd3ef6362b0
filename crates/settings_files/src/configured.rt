//! What the text of a file of settings means.

ghost use Rattle.std.specs.Prelude.{◌≡◌, IfOk, IfErr, string_bytes};
ghost use Rattle.tera_settings.specs.Meaning.{IsMeantBy};
ghost use Rattle.tera_settings.specs.Values.{texts};
ghost use Rattle.tera_settings.specs.declared.settings.Settings.{Settings};
ghost use Rattle.settings_files.specs.Configured.{IsConfigured, IsMemory, IsPlaced};

use crate::unfit::{Unfit, WrongFile};
use std::alloc::{AllocError, Global};
use tera_files::Source;
use tera_settings::{Fault, Settings, place_of, settings_of};
use text_edits::{Encoding, Lines, position_at};

/// A file of settings, and what it means.
#[derive(Debug, Drop)]
pub struct Configured {
    pub source: Source,
    pub settings: Settings,
}

/// The settings that the source means, where the rules have these names.
pub fn settings_in(alloc: Global, rules: &[&str], source: Source) -> Result<Configured, Unfit>
    ensures meant { IfOk result (IsConfigured (texts rules.now)) }
    ensures named { IfOk result (λ c. string_bytes c.source.file ≡ string_bytes source.file) }
    ensures refused { IfErr result (λ e. ¬ IsMemory e
        → (s : Settings) → ¬ IsMeantBy (texts rules.now) (string_bytes source.text) s) }
{
    match settings_of(alloc, rules, source.text.as_str()) {
        Ok(settings) => Ok(Configured { source, settings }),
        Err(Fault::Memory) => Err(Unfit::Memory),
        Err(fault) => Err(unfit(alloc, rules, &source, &fault)),
    }
}

impl Configured {
    /// That the member of this key is wrong, in its table or in the file.
    pub fn wrong(
        &self,
        alloc: Global,
        table: Option<&'static str>,
        key: &str,
        message: String,
    ) -> Unfit {
        match wrong_member(alloc, &self.source, table, key, message) {
            Ok(wrong) => Unfit::Wrong(wrong),
            Err(_) => Unfit::Memory,
        }
    }
}

fn unfit(alloc: Global, rules: &[&str], source: &Source, fault: &Fault) -> Unfit {
    match wrong(alloc, rules, source, fault) {
        Ok(wrong) => Unfit::Wrong(wrong),
        Err(_) => Unfit::Memory,
    }
}

// What is wrong in the text, and where. If that is not known, it is where the file begins.
fn wrong(
    alloc: Global,
    rules: &[&str],
    source: &Source,
    fault: &Fault,
) -> Result<WrongFile, AllocError> {
    let message = fault.message(alloc, rules)?;
    let byte = fault.place(alloc, source.text.as_str())?.unwrap_or(0);
    placed(alloc, source, byte, message)
}

fn wrong_member(
    alloc: Global,
    source: &Source,
    table: Option<&'static str>,
    key: &str,
    message: String,
) -> Result<WrongFile, AllocError> {
    let byte = place_of(alloc, source.text.as_str(), table, key)?.unwrap_or(0);
    placed(alloc, source, byte, message)
}

// The message at a byte of the source.
fn placed(
    alloc: Global,
    source: &Source,
    byte: usize,
    message: String,
) -> Result<WrongFile, AllocError>
    ensures { IfOk result (IsPlaced source.now byte (string_bytes message)) }
{
    let text = source.text.as_str();
    let lines = Lines::of(alloc, text)?;
    let position = position_at(text, &lines, Encoding::Utf32, byte);
    Ok(WrongFile {
        file: String::from_str(alloc, source.file.as_str())?,
        line: position.line.saturating_add(1),
        column: position.character.saturating_add(1),
        message,
    })
}
