//! Queries of the documents that were read.

ghost use Rattle.std.specs.Prelude.{◌≡◌, IfOk, map};
ghost use Rattle.std.specs.Option.{option_map};
ghost use Rattle.tera_workspace.specs.Components.{components_of, parameters_of_name, files_of};
ghost use Rattle.tera_workspace.specs.Definitions.{definition_view, definition_of_name, text_view, texts_read};

use crate::catalogue::first_known;
use crate::diagnostics::ends_in;
use crate::workspace::Workspace;
use std::alloc::{AllocError, Global};
use tera_check::definitions_of;
use text_edits::Position;

/// Where a component is defined: a file, and the part of its text that is the last part of its name, `button` for
/// `ui.button`.
#[derive(Debug, Drop, PartialEq, Eq)]
pub struct Definition {
    pub file: String,
    pub start: Position,
    pub end: Position,
}

/// The name of a file, and its text.
#[derive(Clone, Copy, Debug, PartialEq, Eq)]
pub struct FileText<'w> {
    pub file: &'w str,
    pub text: &'w str,
}

impl Workspace {
    /// Where the component of this name is defined: in the first document, by the order of the names, that was read and
    /// defines it.
    pub fn definition_of(&self, alloc: Global, name: &str) -> Result<Option<Definition>, AllocError>
        ensures { IfOk result (λ d. option_map definition_view d ≡ definition_of_name self.now name.now) }
    {
        match first_known(&self.judged, name) {
            Some(known) => {
                let file = String::from_str(alloc, known.file)?;
                let (start, end) = ends_in(self.encoding, &self.judged, known.file, &known.span);
                Ok(Some(Definition { file, start, end }))
            }
            None => Ok(None),
        }
    }

    /// The files that were read, in the order of their names, each with its text. A file that is gone has an empty
    /// text, or is not among them.
    pub fn texts(&self, alloc: Global) -> Result<Vec<FileText<'_>>, AllocError>
        ensures { IfOk result (λ texts. map text_view texts.items ≡ texts_read self.now) }
    {
        let mut texts = Vec::new(alloc);
        for judged in &self.judged {
            texts.push(FileText {
                file: judged.template.file.as_str(),
                text: judged.text.as_str(),
            })?;
        }
        Ok(texts)
    }

    /// The names of the components that the read documents define, in the order of the documents and of their
    /// definitions. A document with a fault defines those of its mended tree.
    pub fn components(&self, alloc: Global) -> Result<Vec<&str>, AllocError>
        ensures { IfOk result (λ v. map (λ n. n.now) v.items ≡ components_of self.now) }
    {
        let mut names = Vec::new(alloc);
        for judged in &self.judged {
            for definition in definitions_of(&judged.template) {
                names.push(definition.name.as_str())?;
            }
        }
        Ok(names)
    }

    /// The names of the parameters of a component, in their order: of the first definition in a document that was read;
    /// empty if there is none.
    pub fn parameters_of(&self, alloc: Global, name: &str) -> Result<Vec<&str>, AllocError>
        ensures { IfOk result (λ v. map (λ n. n.now) v.items ≡ parameters_of_name self.now name.now) }
    {
        let Some(known) = first_known(&self.judged, name) else {
            return Ok(Vec::new(alloc));
        };
        match known.definition.kwargs_list(alloc) {
            Ok(parameters) => Ok(parameters),
            Err(_) => Err(AllocError),
        }
    }

    /// The files that were read and are there, in the order of their names.
    pub fn files(&self, alloc: Global) -> Result<Vec<&str>, AllocError>
        ensures { IfOk result (λ v. map (λ f. f.now) v.items ≡ files_of self.now) }
    {
        let mut files = Vec::new(alloc);
        for judged in &self.judged {
            let file = judged.template.file.as_str();
            if self.documents.text(file).is_some() {
                files.push(file)?;
            }
        }
        Ok(files)
    }
}
