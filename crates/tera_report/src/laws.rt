//! Laws of findings as text: each function has the law as its promise and does nothing.

ghost use Rattle.std.specs.Prelude.{◌≡◌, ◌<◌, ◌^◌, ℕ, List, None};
ghost use Rattle.tera_base.specs.declared.utils.Span.{Span};
ghost use Rattle.tera_findings.specs.Findings.{FindingVal, NoteVal, FoundAs};
ghost use Rattle.tera_findings.specs.declared.finding.Kind.{Kind};
ghost use Rattle.tera_findings.specs.declared.finding.Severity.{Severity};
ghost use Rattle.tera_report.specs.Annotations.{annotation as annotation_text, IsOneLine};
ghost use Rattle.tera_report.specs.FullTexts.{full_text, lines_of};
ghost use Rattle.terminal_text.specs.declared.style.Style.TheVariants.{Plain};

/// Without colours and without sources a finding is printed as its lines (`lines_of`).
pub fn plain()
    ensures { (file : List ℕ) (finding : FindingVal) →
        full_text Plain (λ _. None) file finding ≡ lines_of file finding }
{}

/// Whatever the name of the file and the message are, an annotation is one line.
pub fn annotation()
    ensures { (file : List ℕ) (kind : Kind) (severity : Severity) (s : Span)
        (text : List ℕ) (notes : List NoteVal) →
        s.start_line < 2 ^ 64 → s.end_line < 2 ^ 64 →
        IsOneLine (annotation_text file (FoundAs kind severity s text notes)) }
{}
