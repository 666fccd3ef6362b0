//! The command line: which words there are, and what help says of them.

use clap::{Arg, ArgAction, Command};
use std::alloc::{AllocError, Global};
use tera_answers::abilities::VERSION;
use tera_program_parts::explanations::{OPTIONAL_RULES, RULES};

/// How many syntax errors of a file are reported, if nothing else is asked for.
const MAX_FAULTS: &str = "100";

static FORMATS: [&str; 5] = ["full", "concise", "json", "github", "sarif"];

static CATALOGUES: [&str; 2] = ["json", "html"];

static COLOURS: [&str; 3] = ["auto", "always", "never"];

const OF_ALL: &str = "\
Examples:
  tera check templates                   check the templates of a folder
  tera format --diff templates           show what formatting would change
  tera components templates > ui.json    list the components that they define

Exit status:
  0  everything was done, and no error was found (there may be warnings)
  1  an error was found, or under --check or --diff a file would change
  2  something could not be done: a file could not be read or written, or the arguments are wrong

`tera help COMMAND` prints the help of a command.";

const OF_CHECK: &str = "\
A folder means the templates below it: the files whose names end in .html, .htm, .xml or .tera, except hidden files and
those in `node_modules`. A file that is given twice is checked once.

All syntax errors of a file are reported, and the findings in the rest of it. Findings that a syntax error may have
caused are not reported: while the tag of a definition has an error, no component counts as undefined. With other
markers (--markers) only the first syntax error of a file is reported, and nothing else is found in it.

With --fix the files are changed where a finding has one safe correction, and the remaining findings are reported. A
file stays unchanged if its new text would have a syntax error, or a finding that it did not have before.

With --root the names that templates extend and include are checked too: a name is a path below the root.

This parser does not read floating-point numbers. Tera does: a tag that has one gets the error `Float literals are not
supported`, and is not checked.

Settings are read from the nearest `tera.toml`, next to the first FILE or in a folder above it. Options override that
file.

Examples:
  tera check templates
  tera check --root templates templates
  tera check templates/page.html --library templates/components
  tera check --output-format github templates
  tera check --stdin-filename page.html --library templates - < page.html

Exit status: 0 if no error was found (there may be warnings), 1 if an error was found, 2 if a file could not be read.";

const OF_FORMAT: &str = "\
Files are formatted in place, and the names of the files that changed are printed. A file with a syntax error stays
unchanged. Standard input is formatted to standard output.

Examples:
  tera format templates
  tera format --check templates
  tera format --diff templates | less -R
  tera format --markers '[% %] [[ ]] [# #]' page.html

Exit status: 0 if every file is formatted, 1 if a template has a syntax error or a file would change under --check or
--diff, 2 if a file could not be read or written.";

const OF_COMPONENTS: &str = "\
Examples:
  tera components templates > components.json
  tera components --output-format html templates > components.html

Exit status: 0 if every template was read, 1 if one has a syntax error, 2 if a file could not be read.";

const OF_TREE: &str = "\
With --faulty the tree of a template with syntax errors is shown too: of its text in which a replacement stands for each
part with an error. Up to 100 errors are reported. With --json they are in the output: an object with `tree`, `faults`
and `more`, which says whether there are more errors.

Examples:
  tera tree page.html
  tera tree --json < page.html
  tera tree --faulty page.html

Exit status: 0 if the template has no syntax error, 1 if it has one, 2 if it could not be read.";

const OF_EXPLAIN: &str = "\
Examples:
  tera explain missing-argument

Exit status: 0 if the rule was explained, 2 if no rule has this name.";

const OF_SERVER: &str = "\
An editor starts it and ends it. It reports findings while templates are edited, over all files below the open folders,
and formats templates. With other markers only the first syntax error of a file is reported. --markers takes precedence
over the markers in a tera.toml.

Exit status: 0 after the request `shutdown`, 1 without it, 2 if the markers cannot be used, or if standard input or
output failed.";

/// The program, with its subcommands.
pub fn command<'a>(alloc: Global) -> Result<Command<'a>, AllocError> {
    Command::new(alloc, "tera")
        .bin_name("tera")?
        .version(VERSION)
        .about("Checks and formats templates of Tera 2, and lists their components")
        .after_help(OF_ALL)
        .subcommand_required(true)
        .arg_required_else_help(true)
        .subcommand(check(alloc)?)?
        .subcommand(format(alloc)?)?
        .subcommand(components(alloc)?)?
        .subcommand(tree(alloc)?)?
        .subcommand(explain(alloc)?)?
        .subcommand(server(alloc)?)
}

fn check<'a>(alloc: Global) -> Result<Command<'a>, AllocError> {
    let command = Command::new(alloc, "check")
        .about("Checks templates: syntax, and how components are defined and called")
        .after_help(OF_CHECK)
        .arg(choice(
            alloc,
            "output-format",
            "FORMAT",
            FORMATS.as_slice(),
            "full",
            "Format of the findings",
        ))?
        .arg(option(
            alloc,
            "max-faults",
            "NUMBER",
            "Report at most this many syntax errors of a file, from 1 on",
        )
        .default_value(MAX_FAULTS))?
        .arg(rules(
            alloc,
            "select",
            RULES.as_slice(),
            "Report only findings of these rules, and syntax errors",
        ))?
        .arg(rules(
            alloc,
            "ignore",
            OPTIONAL_RULES.as_slice(),
            "Report no findings of these rules",
        ))?
        .arg(flag(
            alloc,
            "error-on-warnings",
            "End with status 1 also if there are only warnings",
        ))?
        .arg(flag(
            alloc,
            "fix",
            "Correct misspelled names of components and arguments, and remove repeated arguments",
        ))?
        .arg(markers(alloc))?
        .arg(several(
            alloc,
            "library",
            "PATH",
            "File or folder whose components may be called; it is not checked itself",
        ))?
        .arg(option(
            alloc,
            "root",
            "FOLDER",
            "Root folder of the templates of a site; what they extend and include is checked",
        ))?;
    with_files(alloc, command)
}

fn format<'a>(alloc: Global) -> Result<Command<'a>, AllocError> {
    let command = Command::new(alloc, "format")
        .about("Formats the white space in tags, and changes nothing else")
        .after_help(OF_FORMAT)
        .arg(flag(
            alloc,
            "check",
            "Write no file, and print the names of those that would change",
        ))?
        .arg(flag(alloc, "diff", "Write no file, and show what would change"))?
        .arg(markers(alloc))?;
    with_files(alloc, command)
}

fn components<'a>(alloc: Global) -> Result<Command<'a>, AllocError> {
    let command = Command::new(alloc, "components")
        .about("Lists components with their parameters and an example call")
        .after_help(OF_COMPONENTS)
        .arg(choice(
            alloc,
            "output-format",
            "FORMAT",
            CATALOGUES.as_slice(),
            "json",
            "Format of the list",
        ))?
        .arg(markers(alloc))?;
    with_files(alloc, command)
}

fn tree<'a>(alloc: Global) -> Result<Command<'a>, AllocError> {
    Command::new(alloc, "tree")
        .about("Shows the tree of a template")
        .after_help(OF_TREE)
        .arg(flag(
            alloc,
            "json",
            "Show it as JSON, with the positions of its expressions",
        ))?
        .arg(flag(
            alloc,
            "faulty",
            "Report every syntax error, and show the tree of the rest",
        ))?
        .arg(markers(alloc))?
        .arg(stdin_filename(alloc))?
        .arg(config(alloc)?)?
        .arg(no_config(alloc))?
        .arg(colour(alloc))?
        .arg(
            Arg::new(alloc, "file")
                .value_name("FILE")
                .default_value("-")
                .help("A file, or - for standard input"),
        )
}

fn explain<'a>(alloc: Global) -> Result<Command<'a>, AllocError> {
    Command::new(alloc, "explain")
        .about("Explains a rule of the findings")
        .after_help(OF_EXPLAIN)
        .arg(
            Arg::new(alloc, "rule")
                .value_name("RULE")
                .required(true)
                .value_parser(&*RULES.as_slice())
                .help("Name of the rule, as in the brackets of a finding"),
        )
}

fn server<'a>(alloc: Global) -> Result<Command<'a>, AllocError> {
    Command::new(alloc, "server")
        .about("Speaks the Language Server Protocol with an editor, over standard input and output")
        .after_help(OF_SERVER)
        .arg(markers(alloc))?
        .arg(flag(
            alloc,
            "stdio",
            "Accepted for compatibility: standard input and output are always used",
        ))
}

// Adds the options of each command that reads several files.
fn with_files<'a>(alloc: Global, command: Command<'a>) -> Result<Command<'a>, AllocError> {
    command
        .arg(stdin_filename(alloc))?
        .arg(config(alloc)?)?
        .arg(no_config(alloc))?
        .arg(colour(alloc))?
        .arg(quiet(alloc))?
        .arg(extension(alloc))?
        .arg(files(alloc))
}

fn flag<'a>(alloc: Global, name: &'a str, help: &'a str) -> Arg<'a> {
    Arg::new(alloc, name)
        .long(name)
        .action(ArgAction::SetTrue)
        .help(help)
}

fn option<'a>(alloc: Global, name: &'a str, value: &'a str, help: &'a str) -> Arg<'a> {
    Arg::new(alloc, name)
        .long(name)
        .value_name(value)
        .action(ArgAction::Set)
        .help(help)
}

fn several<'a>(alloc: Global, name: &'a str, value: &'a str, help: &'a str) -> Arg<'a> {
    option(alloc, name, value, help).action(ArgAction::Append)
}

fn choice<'a>(
    alloc: Global,
    name: &'a str,
    value: &'a str,
    among: &'static [&'static str],
    default: &'a str,
    help: &'a str,
) -> Arg<'a> {
    option(alloc, name, value, help)
        .value_parser(&*among)
        .default_value(default)
}

fn rules<'a>(
    alloc: Global,
    name: &'a str,
    among: &'static [&'static str],
    help: &'a str,
) -> Arg<'a> {
    several(alloc, name, "RULES", help)
        .value_delimiter(',')
        .value_parser(&*among)
}

fn markers<'a>(alloc: Global) -> Arg<'a> {
    option(
        alloc,
        "markers",
        "WORDS",
        "Six other markers in one word, for example '[% %] [[ ]] [# #]'",
    )
}

fn stdin_filename<'a>(alloc: Global) -> Arg<'a> {
    option(
        alloc,
        "stdin-filename",
        "NAME",
        "Name of the file that standard input stands for",
    )
}

fn config<'a>(alloc: Global) -> Result<Arg<'a>, AllocError> {
    option(
        alloc,
        "config",
        "FILE",
        "File of settings, instead of the nearest `tera.toml`",
    )
    .conflicts_with("no-config")
}

fn no_config<'a>(alloc: Global) -> Arg<'a> {
    flag(alloc, "no-config", "Read no file of settings")
}

fn colour<'a>(alloc: Global) -> Arg<'a> {
    choice(
        alloc,
        "color",
        "WHEN",
        COLOURS.as_slice(),
        "auto",
        "Whether messages have colours",
    )
}

fn quiet<'a>(alloc: Global) -> Arg<'a> {
    flag(alloc, "quiet", "Do not print the summary line").short('q')
}

fn extension<'a>(alloc: Global) -> Arg<'a> {
    several(
        alloc,
        "extension",
        "NAME",
        "File extensions of templates in folders, in place of html, htm, xml and tera",
    )
}

fn files<'a>(alloc: Global) -> Arg<'a> {
    Arg::new(alloc, "files")
        .value_name("FILE")
        .default_value(".")
        .num_args(1..)
        .action(ArgAction::Append)
        .help("Files, folders, or - for standard input")
}
