//! From a source to its tree.

ghost use Rattle.std.specs.Prelude.{◌≡◌, IfOk, IfErr, IsOk, MatchResult};
ghost use Rattle.tera_lexer.specs.grammar.Marks.{marks_of, IsValid};
ghost use Rattle.tera_base.specs.Errors.{IsMemory};
ghost use Rattle.tera_expr_parts.specs.Allowed.{AreValid, limits_of};
ghost use Rattle.tera_grammar.specs.statements.Top.{Derives, DerivesNames};
ghost use Rattle.tera_parser.specs.Comments.{IsCommentsAlone};
ghost use Rattle.tera_parser.specs.Notes.{NotesFirst, NotesName};
ghost use Rattle.tera_parser.specs.Refusal.{LosesSource, Refuses};

use crate::notes::in_file;
use std::alloc::Global;
use std::marker::Model;
use tera_base::Error;
use tera_expr_parts::Limits;
use tera_lexer::{Cursor, Delimiters, tokenize};
use tera_statements::{Names, ParserOutput, read_output};

/// A template that is to be parsed.
#[derive(Drop)]
pub struct Parser<'a> {
    alloc: Global,
    filename: &'a str,
    source: &'a str,
    delimiters: Delimiters,
    limits: Limits,
}

impl<'a> Model for Parser<'a> {
    ghost use Rattle.tera_parser.specs.Job.{Job};

    ghost Value = { Job };

    ghost use Rattle.tera_parser.specs.JobView.{job_of, IsReadable};

    ghost view = { job_of };

    ghost invariant = { IsReadable };
}

impl<'a> Parser<'a> {
    ghost use Rattle.tera_tags.specs.Known.{AreNames};
    ghost use Rattle.tera_tree.specs.Outputs.{output_view};
    ghost use Rattle.tera_grammar.specs.statements.Places.{Places};
    ghost use Rattle.tera_tree.specs.Tree.{Output};
    ghost use Rattle.tera_grammar.specs.Limits.{usual};

    /// A parser of the source, which is in a file of this name, between markers that [`Delimiters::validate`] accepts,
    /// with the default limits. The name is shown in notes alone.
    pub fn new(
        alloc: Global,
        filename: &'a str,
        source: &'a str,
        delimiters: Delimiters,
    ) -> Parser<'a>
        requires { IsValid (marks_of delimiters) }
        ensures { result ≡ record {
          filename = filename.now;
          source = source.now;
          marks = marks_of delimiters;
          limits = usual;
        } }
    {
        Parser::with_limits(alloc, filename, source, delimiters, Limits::default())
    }

    /// The same with limits of the caller's, which [`Limits::valid`] accepts.
    pub fn with_limits(
        alloc: Global,
        filename: &'a str,
        source: &'a str,
        delimiters: Delimiters,
        limits: Limits,
    ) -> Parser<'a>
        requires marks { IsValid (marks_of delimiters) }
        requires limits { AreValid (limits_of limits) }
        ensures { result ≡ record {
          filename = filename.now;
          source = source.now;
          marks = marks_of delimiters;
          limits = limits_of limits;
        } }
    {
        Parser {
            alloc,
            filename,
            source,
            delimiters,
            limits,
        }
    }

    /// The tree of the source, within the limits.
    ///
    /// It is read from left to right, and the first fault that is met is reported. The one other refusal is `Memory`.
    /// No template within the limits has the same tokens up to the end of the fault's range, and the same next step,
    /// which is a token, the end, or the lexical fault (`lost`).
    ///
    /// The notes of a fault are about the parser's file. A note on where an argument, a parameter or a component is
    /// defined first is at that name.
    pub fn parse(self) -> Result<ParserOutput, Error>
        ensures sound { IfOk result (λ o.
            Derives self.entry.limits self.entry.marks self.entry.source (output_view o)) }
        ensures complete { (output : Output) →
            Derives self.entry.limits self.entry.marks self.entry.source output →
            MatchResult result (λ o. output_view o ≡ output) IsMemory }
        ensures refusal { IfErr result (Refuses self.entry.marks self.entry.source) }
        ensures lost { IfErr result (LosesSource self.entry.limits
            self.entry.marks self.entry.source) }
        ensures notes { IfErr result (NotesName self.entry.filename) }
        ensures first { IfErr result (NotesFirst self.entry.marks self.entry.source) }
        ensures empty { IsCommentsAlone self.entry.marks self.entry.source → IsOk result }
    {
        let (output, _names) = self.parse_with_names()?;
        Ok(output)
    }

    /// The tree of the source as [`Parser::parse`] gives it, and where the names are of the blocks and of the
    /// components that it defines, and those of the parameters of these.
    pub fn parse_with_names(self) -> Result<(ParserOutput, Names), Error>
        ensures sound { IfOk result (λ p. (names : Places) × DerivesNames self.entry.limits
            self.entry.marks self.entry.source (output_view p.0) names × AreNames p.1 names) }
        ensures complete { (output : Output) (names : Places) → DerivesNames self.entry.limits
            self.entry.marks self.entry.source output names →
            MatchResult result (λ p. (output_view p.0 ≡ output) × AreNames p.1 names) IsMemory }
        ensures refusal { IfErr result (Refuses self.entry.marks self.entry.source) }
        ensures lost { IfErr result (LosesSource self.entry.limits
            self.entry.marks self.entry.source) }
        ensures notes { IfErr result (NotesName self.entry.filename) }
        ensures first { IfErr result (NotesFirst self.entry.marks self.entry.source) }
        ensures empty { IsCommentsAlone self.entry.marks self.entry.source → IsOk result }
    {
        let tokens = tokenize(self.alloc, self.source, self.delimiters);
        let cursor = Cursor::new(tokens);
        match read_output(cursor, self.limits) {
            Ok(read) => Ok(read),
            Err(error) => Err(in_file(self.alloc, error, self.filename)),
        }
    }
}
