//! What the words of the command line ask for.

ghost use Rattle.std.specs.Prelude.{◌≡◌, [], option_map, option_and_then, unwrap_or, codes};
ghost use Rattle.clap.specs.Words.{found_of, rows_of, first_of, all_of, subcommand_rows_of};
ghost use Rattle.tera_files.specs.Names.{texts};
ghost use Rattle.tera_options.specs.Jobs.{are_unread, check_of, check_view, colours_of, common_of, common_view, common_with, components_of, components_view, form_of, format_of, format_view, is_set, is_text, is_unread, job_of, job_view, mode_of, names_unread_input, tree_of, tree_view, with_defaults};

use crate::colours::Colours;
use clap::ArgMatches;
use tera_check::{Levels, RuleLevel};
use tera_program_parts::settings::Defaults;

/// What to do.
#[derive(Clone, Copy, Debug)]
pub enum Job<'b, 'a> {
    Check(Check<'b, 'a>),
    Tree(Tree<'b, 'a>),
    Components(Components<'b, 'a>),
    Format(Format<'b, 'a>),
    /// Explain the rule of this name.
    Explain(&'a str),
    /// Serve an editor. Six markers in one word are those of all templates, whatever files of settings say.
    Server(Option<&'a str>),
}

/// What each job gets from the command line.
#[derive(Clone, Copy, Debug)]
pub struct Common<'b, 'a> {
    /// The extensions of templates in folders, if not the usual ones.
    pub extensions: Option<&'b [&'a str]>,
    /// Files and folders that are left out, by the paths by which the system knows them.
    pub exclude: Option<&'b [&'a str]>,
    /// The name of standard input.
    pub stdin: &'a str,
    pub colours: Colours,
    pub quiet: bool,
    /// The file of settings, if it is not the nearest one.
    pub config: Option<&'a str>,
    /// Whether no file of settings is read.
    pub no_config: bool,
}

/// `tera check`, as its options and settings have it.
#[derive(Clone, Copy, Debug)]
pub struct Check<'b, 'a> {
    pub form: Form,
    /// Paths with more components that may be called.
    pub library: Option<&'b [&'a str]>,
    /// The folder below which the templates of the site have their names.
    pub root: Option<&'a str>,
    /// How many faults of a file are reported at most: a word, which may not be a number.
    pub max_faults: &'a str,
    pub rules: Levels<'b, 'a>,
    /// Whether warnings count like errors for the status.
    pub error_on_warnings: bool,
    /// Whether what is suggested is written to the files.
    pub fix: bool,
    /// Six markers in one word, if they are not the usual ones.
    pub markers: Option<&'a str>,
    pub files: Option<&'b [&'a str]>,
    pub common: Common<'b, 'a>,
}

/// How findings are reported.
#[derive(Clone, Copy, Debug, PartialEq, Eq)]
pub enum Form {
    Full,
    Concise,
    Json,
    Github,
    Sarif,
}

/// `tera tree`, in the same way.
#[derive(Clone, Copy, Debug)]
pub struct Tree<'b, 'a> {
    pub json: bool,
    /// Whether the tree of a template with faults is shown too, together with the faults.
    pub faulty: bool,
    /// Six markers in one word, if they are not the usual ones.
    pub markers: Option<&'a str>,
    pub file: &'a str,
    pub common: Common<'b, 'a>,
}

/// `tera components`, in the same way.
#[derive(Clone, Copy, Debug)]
pub struct Components<'b, 'a> {
    pub html: bool,
    /// Six markers in one word, if they are not the usual ones.
    pub markers: Option<&'a str>,
    pub files: Option<&'b [&'a str]>,
    pub common: Common<'b, 'a>,
}

/// `tera format`, in the same way.
#[derive(Clone, Copy, Debug)]
pub struct Format<'b, 'a> {
    pub mode: Mode,
    /// Six markers in one word, if they are not the usual ones.
    pub markers: Option<&'a str>,
    pub files: Option<&'b [&'a str]>,
    pub common: Common<'b, 'a>,
}

/// What to do with a layout.
#[derive(Clone, Copy, Debug, PartialEq, Eq)]
pub enum Mode {
    Write,
    Check,
    Diff,
}

impl<'b, 'a> Job<'b, 'a> {
    /// What the matches of `options::command` ask for.
    pub fn of(matches: &'b ArgMatches<'a>) -> Option<Job<'b, 'a>>
        ensures { option_map job_view result
            ≡ option_and_then job_of (subcommand_rows_of matches.now) }
    {
        let (name, found) = matches.subcommand()?;
        match name {
            "check" => Some(Job::Check(check_in(found))),
            "tree" => Some(Job::Tree(tree_in(found))),
            "components" => Some(Job::Components(components_in(found))),
            "format" => Some(Job::Format(format_in(found))),
            "explain" => Some(Job::Explain(text_or(found, "rule", ""))),
            "server" => Some(Job::Server(text(found, "markers"))),
            _ => None,
        }
    }

    /// Whether standard input is given the name of a file, and is not read.
    pub fn names_unread_input(&self) -> bool
        ensures { result ≡ names_unread_input self.now }
    {
        match self {
            Job::Check(job) => are_unread(job.common, job.files),
            Job::Tree(job) => is_unread(job.common, &[job.file]),
            Job::Components(job) => are_unread(job.common, job.files),
            Job::Format(job) => are_unread(job.common, job.files),
            Job::Explain(_) | Job::Server(_) => false,
        }
    }

    /// The same job, with what a file of settings says for all that no option sets.
    #[tactic(auto, using(crate::proofs::Defaults::or_map))]
    pub fn with(self, defaults: Defaults<'b, 'a>) -> Job<'b, 'a>
        ensures { job_view result ≡ with_defaults defaults.entry (job_view self.entry) }
    {
        match self {
            Job::Check(job) => Job::Check(job.with(defaults)),
            Job::Tree(job) => Job::Tree(Tree {
                markers: job.markers.or(defaults.markers),
                ..job
            }),
            Job::Components(job) => Job::Components(Components {
                markers: job.markers.or(defaults.markers),
                common: job.common.with(defaults),
                ..job
            }),
            Job::Format(job) => Job::Format(Format {
                markers: job.markers.or(defaults.markers),
                common: job.common.with(defaults),
                ..job
            }),
            Job::Explain(_) | Job::Server(_) => self,
        }
    }
}

impl<'b, 'a> Check<'b, 'a> {
    #[tactic(auto, using(crate::proofs::Defaults::or_map))]
    fn with(self, defaults: Defaults<'b, 'a>) -> Check<'b, 'a>
        ensures { check_view result ≡ with_defaults defaults.entry (check_view self.entry) }
    {
        Check {
            library: self.library.or(defaults.library),
            root: self.root.or(defaults.root),
            rules: Levels {
                set: defaults.set,
                ..self.rules
            },
            markers: self.markers.or(defaults.markers),
            common: self.common.with(defaults),
            ..self
        }
    }
}

impl<'b, 'a> Common<'b, 'a> {
    #[tactic(auto, using(crate::proofs::Defaults::or_map))]
    fn with(self, defaults: Defaults<'b, 'a>) -> Common<'b, 'a>
        ensures { common_view result ≡ common_with defaults.entry (common_view self.entry) }
    {
        Common {
            extensions: self.extensions.or(defaults.extensions),
            exclude: defaults.exclude,
            ..self
        }
    }
}

fn are_unread(common: Common<'_, '_>, files: Option<&[&str]>) -> bool
    ensures { result ≡ are_unread common.entry files.entry }
{
    match files {
        Some(files) => is_unread(common, files),
        None => false,
    }
}

// Whether standard input has another name than its own, and is not among the files.
fn is_unread(common: Common<'_, '_>, files: &[&str]) -> bool
    ensures { result ≡ is_unread common.entry files.now }
{
    common.stdin != "-" && !files.contains(&"-")
}

fn check_in<'b, 'a>(found: &'b ArgMatches<'a>) -> Check<'b, 'a>
    ensures { check_view result ≡ check_of (rows_of (found_of found.now)) }
{
    Check {
        form: form_named(text(found, "output-format")),
        library: texts_in(found, "library"),
        root: text(found, "root"),
        max_faults: text_or(found, "max-faults", ""),
        rules: Levels {
            select: texts_in(found, "select"),
            ignore: texts_in(found, "ignore"),
            set: none_set(),
        },
        error_on_warnings: is_set(found, "error-on-warnings"),
        fix: is_set(found, "fix"),
        markers: text(found, "markers"),
        files: texts_in(found, "files"),
        common: common_in(found),
    }
}

// No option sets a rule.
fn none_set<'b, 'a>() -> &'b [RuleLevel<'a>]
    ensures { result.now ≡ [] }
{
    &[]
}

fn tree_in<'b, 'a>(found: &'b ArgMatches<'a>) -> Tree<'b, 'a>
    ensures { tree_view result ≡ tree_of (rows_of (found_of found.now)) }
{
    Tree {
        json: is_set(found, "json"),
        faulty: is_set(found, "faulty"),
        markers: text(found, "markers"),
        file: text_or(found, "file", "-"),
        common: common_in(found),
    }
}

fn components_in<'b, 'a>(found: &'b ArgMatches<'a>) -> Components<'b, 'a>
    ensures { components_view result ≡ components_of (rows_of (found_of found.now)) }
{
    Components {
        html: is_word(text(found, "output-format"), "html"),
        markers: text(found, "markers"),
        files: texts_in(found, "files"),
        common: common_in(found),
    }
}

fn format_in<'b, 'a>(found: &'b ArgMatches<'a>) -> Format<'b, 'a>
    ensures { format_view result ≡ format_of (rows_of (found_of found.now)) }
{
    Format {
        mode: mode_in(found),
        markers: text(found, "markers"),
        files: texts_in(found, "files"),
        common: common_in(found),
    }
}

fn common_in<'b, 'a>(found: &'b ArgMatches<'a>) -> Common<'b, 'a>
    ensures { common_view result ≡ common_of (rows_of (found_of found.now)) }
{
    Common {
        extensions: texts_in(found, "extension"),
        exclude: None,
        stdin: text_or(found, "stdin-filename", "-"),
        colours: colours_named(text(found, "color")),
        quiet: is_set(found, "quiet"),
        config: text(found, "config"),
        no_config: is_set(found, "no-config"),
    }
}

fn form_named(word: Option<&str>) -> Form
    ensures { result ≡ form_of (option_map (λ t. t.now) word.entry) }
{
    if is_word(word, "concise") {
        Form::Concise
    } else if is_word(word, "json") {
        Form::Json
    } else if is_word(word, "github") {
        Form::Github
    } else if is_word(word, "sarif") {
        Form::Sarif
    } else {
        Form::Full
    }
}

fn colours_named(word: Option<&str>) -> Colours
    ensures { result ≡ colours_of (option_map (λ t. t.now) word.entry) }
{
    if is_word(word, "always") {
        Colours::Always
    } else if is_word(word, "never") {
        Colours::Never
    } else {
        Colours::Auto
    }
}

// If both are asked for, the difference is shown.
fn mode_in(found: &ArgMatches<'_>) -> Mode
    ensures { result ≡ mode_of (rows_of (found_of found.now)) }
{
    if is_set(found, "diff") {
        Mode::Diff
    } else if is_set(found, "check") {
        Mode::Check
    } else {
        Mode::Write
    }
}

// The value of an option.
fn text<'a>(found: &ArgMatches<'a>, id: &str) -> Option<&'a str>
    ensures { option_map (λ t. t.now) result ≡ first_of id.now (rows_of (found_of found.now)) }
{
    found.get_str(id)
}

fn text_or<'a>(found: &ArgMatches<'a>, id: &str, default: &'a str) -> &'a str
    ensures { result.now
        ≡ unwrap_or (first_of id.now (rows_of (found_of found.now))) default.entry.now }
{
    text(found, id).unwrap_or(default)
}

// The values of an option that may be given again.
fn texts_in<'b, 'a>(found: &'b ArgMatches<'a>, id: &str) -> Option<&'b [&'a str]>
    ensures { option_map (λ t. texts t.now) result
        ≡ all_of id.now (rows_of (found_of found.now)) }
{
    found.get_strs(id)
}

// Whether a flag is given.
fn is_set(found: &ArgMatches<'_>, id: &str) -> bool
    ensures { result ≡ is_set id.now (rows_of (found_of found.now)) }
{
    is_word(text(found, id), "true")
}

// Whether there is a text, and it is this word.
fn is_word(text: Option<&str>, word: &str) -> bool
    ensures { result ≡ is_text word.now (option_map (λ t. t.now) text.entry) }
{
    match text {
        Some(text) => text == word,
        None => false,
    }
}
