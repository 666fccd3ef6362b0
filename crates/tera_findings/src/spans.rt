//! The span of nothing.

ghost use Rattle.std.specs.Prelude.{◌≡◌};
ghost use Rattle.tera_findings.specs.Findings.{first_span};

use tera_parser::value::Span;

/// An empty span at the start of a file.
pub fn first_span() -> Span
    ensures { result ≡ first_span }
{
    Span {
        start_line: 1,
        start_col: 0,
        end_line: 1,
        end_col: 0,
        range: 0..0,
    }
}
