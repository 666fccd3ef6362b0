//! What is read of a text, between the usual markers and within the usual limits.

ghost use Rattle.std.specs.Prelude.{◌≡◌, [], IfOk, IfErr, IsOk, IsTrue, ◌↔◌, MatchResult};
ghost use Rattle.tera_base.specs.Errors.{IsMemory};
ghost use Rattle.tera_grammar.specs.Limits.{usual};
ghost use Rattle.tera_grammar.specs.statements.Places.{Places};
ghost use Rattle.tera_grammar.specs.statements.Top.{DerivesNames};
ghost use Rattle.tera_lexer.specs.grammar.Marks.{default_marks};
ghost use Rattle.tera_mend.specs.Readings.{AreOf, IsReadingOf};
ghost use Rattle.tera_parser.specs.Comments.{IsCommentsAlone};
ghost use Rattle.tera_parser.specs.Notes.{NotesName};
ghost use Rattle.tera_parser.specs.Refusal.{LosesSource, Refuses};
ghost use Rattle.tera_tags.specs.Known.{AreNames};
ghost use Rattle.tera_tree.specs.Outputs.{output_view};
ghost use Rattle.tera_tree.specs.Tree.{Output};

use std::alloc::{AllocError, Global};
use tera_parser::lexer::Delimiters;
use tera_parser::value::{Error, ErrorKind};
use tera_parser::{Names, Parser, ParserOutput};

/// A tree, or a fault, which is a syntax error.
#[derive(Drop)]
pub(crate) enum Reading {
    Tree(ParserOutput, Names),
    Fault(Error),
}

/// Reads the text in the file of this name. That an allocation failed is the error.
pub(crate) fn read(alloc: Global, file: &str, text: &str) -> Result<Reading, AllocError>
    ensures { IfOk result (IsReadingOf file.now text.now) }
{
    match parsed(alloc, file, text) {
        Ok((output, names)) => Ok(Reading::Tree(output, names)),
        Err(error) => {
            if is_memory(&error) {
                return Err(AllocError);
            }
            Ok(Reading::Fault(error))
        }
    }
}

// Whether an allocation failed.
fn is_memory(error: &Error) -> bool
    ensures { IsTrue result ↔ IsMemory error.now }
{
    match error.kind {
        ErrorKind::Memory => true,
        ErrorKind::Message(_) => false,
        ErrorKind::SyntaxError(_) => false,
    }
}

/// Reads nothing, which has a tree.
pub(crate) fn read_nothing(alloc: Global) -> (ParserOutput, Names)
    ensures { AreOf [] result.0 result.1 }
{
    match parsed(alloc, "", "") {
        Ok(read) => read,
        Err(_) => unreachable!(),
    }
}

fn parsed(alloc: Global, file: &str, text: &str) -> Result<(ParserOutput, Names), Error>
    ensures sound { IfOk result (λ p. AreOf text.now p.0 p.1) }
    ensures complete { (output : Output) (names : Places) →
        DerivesNames usual default_marks text.now output names →
        MatchResult result (λ p. (output_view p.0 ≡ output) × AreNames p.1 names) IsMemory }
    ensures refusal { IfErr result (Refuses default_marks text.now) }
    ensures lost { IfErr result (LosesSource usual default_marks text.now) }
    ensures notes { IfErr result (NotesName file.now) }
    ensures empty { IsCommentsAlone default_marks text.now → IsOk result }
{
    let parser = Parser::new(alloc, file, text, Delimiters::default());
    parser.parse_with_names()
}
