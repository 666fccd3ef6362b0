//! Files that cannot be read, or are wrong as a whole.

ghost use Rattle.std.specs.Prelude.{◌≡◌, ℕ, List, None, OnOk, OnErr, string_bytes};
ghost use Rattle.std.specs.Option.{option_eq, option_map};
ghost use Rattle.tera_editor.specs.UnreadFiles as specs;
ghost use Rattle.tera_editor.specs.UnreadFiles.{is_same, reason_view, why_of, IsWhyAt};

use std::alloc::{AllocError, Global};
use std::collections::BTreeMap;

/// Why a file cannot be read, or what is wrong in a file of settings.
#[derive(Debug, Drop)]
pub struct Reason {
    /// The line of the file that is wrong, from 0, if the file was read.
    pub line: Option<usize>,
    pub message: String,
}

impl Reason {
    /// The reason of a file that cannot be read.
    pub fn unread(why: String) -> Reason
        ensures { reason_view result ≡ specs.unread (string_bytes why) }
    {
        Reason {
            line: None,
            message: why,
        }
    }

    fn is_same(&self, other: &Reason) -> bool
        ensures { result ≡ is_same (reason_view self.now) (reason_view other.now) }
    {
        self.line == other.line && self.message == other.message
    }
}

/// Why files cannot be read, or are wrong, by their names.
#[derive(Drop)]
pub struct UnreadFiles {
    why: BTreeMap<String, Reason>,
}

impl UnreadFiles {
    pub fn new(alloc: Global) -> UnreadFiles
        ensures { (n : List ℕ) → why_of result n ≡ None }
    {
        UnreadFiles {
            why: BTreeMap::new(alloc),
        }
    }

    /// Why the file of this name cannot be read, or what is wrong in it.
    pub fn of(&self, name: &str) -> Option<&Reason>
        ensures { option_map (λ r. reason_view r.now) result ≡ why_of self.now name.now }
    {
        self.why.get(name)
    }

    /// Whether this is the reason that is known for it, or none is.
    pub fn is(&self, name: &str, why: &Option<Reason>) -> bool
        ensures { result ≡ option_eq is_same (why_of self.now name.now) (option_map reason_view why.now) }
    {
        match self.of(name) {
            Some(known) => match why {
                Some(why) => known.is_same(why),
                None => false,
            },
            None => why.is_none(),
        }
    }

    /// Sets why it cannot be read; `None` removes the reason. After an allocation failure nothing changes.
    pub fn set(&mut self, alloc: Global, name: &str, why: Option<Reason>) -> Result<(), AllocError>
        ensures set { OnOk result (IsWhyAt name.now (option_map reason_view why) self.old self.new) }
        ensures err { OnErr result ((n : List ℕ) → why_of self.new n ≡ why_of self.old n) }
    {
        let Some(why) = why else {
            self.why.remove(name);
            return Ok(());
        };
        self.why.insert(String::from_str(alloc, name)?, why)?;
        Ok(())
    }
}
