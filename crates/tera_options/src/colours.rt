//! Whether messages have colours.

ghost use Rattle.std.specs.Prelude.{◌≡◌};
ghost use Rattle.tera_options.specs.Colours.{style_of};

use std::env;
use std::rt::Env;
use terminal_text::Style;

/// Which of the streams of a process are terminals.
#[derive(Clone, Copy, Debug)]
pub struct Terminals {
    /// Standard output.
    pub out: bool,
    /// Standard error.
    pub err: bool,
}

/// When messages have colours.
#[derive(Clone, Copy, Debug, PartialEq, Eq)]
pub enum Colours {
    /// On a terminal, unless `NO_COLOR` is set and not empty, or `TERM` is `dumb`.
    Auto,
    Always,
    Never,
}

/// How messages to a stream are written.
pub fn style<R: Env + AllocGlobal>(rt: &R, colours: Colours, terminal: bool) -> Style {
    style_of(colours, terminal && !is_set(rt, "NO_COLOR") && !is_dumb(rt))
}

// Colours, if they are asked for, or if nothing is asked for and the stream shows them.
fn style_of(colours: Colours, shows_colours: bool) -> Style
    ensures { result ≡ style_of colours shows_colours }
{
    match colours {
        Colours::Auto if shows_colours => Style::Coloured,
        Colours::Always => Style::Coloured,
        Colours::Auto | Colours::Never => Style::Plain,
    }
}

fn is_set<R: Env + AllocGlobal>(rt: &R, name: &str) -> bool {
    env::var(rt, name).is_ok_and(|value| !value.is_empty())
}

// Whether the terminal says that it does not obey escapes.
fn is_dumb<R: Env + AllocGlobal>(rt: &R) -> bool {
    env::var(rt, "TERM").is_ok_and(|value| value.as_str() == "dumb")
}
