//! The names of templates, by the sites of the folders that are open.

ghost use Rattle.std.specs.Prelude.{◌≡◌, [], map, IfOk, OnOk};
ghost use Rattle.tera_server.specs.Naming.{AddsNamed, AreNamesRead, IsPresenceSaid, OnlyNames};
ghost use Rattle.tera_editor.specs.Sites.{AreAround, AreDueAgain, KeepsKnown, due_of_sites, used_view};

use crate::server::Server;
use std::alloc::{AllocError, Global};
use tera_editor::sites::UsedName;

impl Server {
    /// Reads the documents that changed, and finds again what is around the templates below roots. Then `due_names` has
    /// the names for which the caller has to look for a file. After an allocation failure a part of that may be done.
    pub fn read_names(&mut self, alloc: Global) -> Result<(), AllocError>
        ensures only { OnlyNames self.old self.new }
        ensures due { AddsNamed self.old self.new }
        ensures known { KeepsKnown self.old.sites self.new.sites }
        ensures read { OnOk result (AreNamesRead self.old self.new) }
    {
        // What was not published yet is published with what is reported then.
        self.edited.append(&mut self.unpublished)?;
        self.workspace.read(alloc)?;
        self.sites.renew(alloc, &self.workspace, &mut self.edited)
    }

    /// The names that templates use and none has, as far as it is not known whether there is a file of the name.
    pub fn due_names(&self, alloc: Global) -> Result<Vec<UsedName>, AllocError>
        ensures { IfOk result (λ v. map used_view v.items ≡ due_of_sites self.now.sites) }
    {
        self.sites.due(alloc)
    }

    /// Sets whether there may be a file of this name below the root. Until that is set, there may be one.
    pub fn set_presence(
        &mut self,
        alloc: Global,
        used: &UsedName,
        is_there: bool,
    ) -> Result<(), AllocError>
        ensures only { OnlyNames self.old self.new }
        ensures around { AreAround [] self.old.sites self.new.sites }
        ensures said { OnOk result (IsPresenceSaid (used_view used.now) is_there self.old self.new) }
    {
        self.sites.set_presence(alloc, used, is_there)
    }

    /// Files may have come or gone: each name that templates use and none has is due again, and each that may have a file.
    /// Of others nothing is known any more.
    pub fn look_again(&mut self)
        ensures same { self.new ≡ record self.old { sites = self.new.sites } }
        ensures only { OnlyNames self.old self.new }
        ensures around { AreAround [] self.old.sites self.new.sites }
        ensures due { AreDueAgain self.old.sites self.new.sites }
    {
        self.sites.look_again();
    }
}
