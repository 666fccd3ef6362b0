//! A folder for the files of a test.

use std::rt::Files;
use std::test::Fail;
use std::{env, fs, process};

/// Fails, and says this, unless something holds.
pub(crate) fn expect(holds: bool, what: &str) -> Result<(), Fail> {
    if holds { Ok(()) } else { Err(Fail::new(what)) }
}

/// A folder that no other test uses.
#[derive(Drop)]
pub(crate) struct Room<'a> {
    rt: &'a HostRuntime,
    path: String,
}

impl<'a> Room<'a> {
    /// Makes the folder again.
    pub(crate) fn new(rt: &'a HostRuntime, name: &str) -> Result<Room<'a>, Fail> {
        let (all, process) = (env::temp_dir(rt)?.into_string(), process::id(rt.process()));
        let path = format!(in rt.alloc(); "{all}/tera_files_{name}_{process}")?;
        let _ = fs::remove_dir_all(rt, path.as_str());
        fs::create_dir_all(rt, path.as_str())?;
        Ok(Room { rt, path })
    }

    /// The path of what is in the folder.
    pub(crate) fn at(&self, name: &str) -> Result<String, Fail> {
        let path = self.path.as_str();
        Ok(format!(in self.rt.alloc(); "{path}/{name}")?)
    }

    /// The path without that of the folder.
    pub(crate) fn name<'p>(&self, path: &'p str) -> &'p str {
        let inside = path.strip_prefix(self.path.as_str()).unwrap_or(path);
        inside.strip_prefix("/").unwrap_or(inside)
    }

    pub(crate) fn make_folder(&self, name: &str) -> Result<(), Fail> {
        fs::create_dir_all(self.rt, self.at(name)?.as_str())?;
        Ok(())
    }

    pub(crate) fn write(&self, name: &str, text: &[u8]) -> Result<(), Fail> {
        fs::write(self.rt, self.at(name)?.as_str(), text)?;
        Ok(())
    }

    /// Makes a link.
    pub(crate) fn link(&self, name: &str, to: &str) -> Result<(), Fail> {
        self.rt.symlink(to, self.at(name)?.as_str())?;
        Ok(())
    }

    /// Whether the file has this text.
    pub(crate) fn holds(&self, name: &str, text: &str) -> Result<bool, Fail> {
        let sound = fs::read_to_string(self.rt, self.at(name)?.as_str())?;
        Ok(sound.as_str() == text)
    }

    pub(crate) fn has(&self, name: &str) -> Result<bool, Fail> {
        Ok(fs::exists(self.rt, self.at(name)?.as_str())?)
    }

    pub(crate) fn remove(self) -> Result<(), Fail> {
        fs::remove_dir_all(self.rt, self.path.as_str())?;
        Ok(())
    }
}
