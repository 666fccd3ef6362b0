//! What a text on one line is, in other words: each function has the law as its promise and does nothing.

ghost use Rattle.std.specs.Prelude.{◌≡◌, ℕ, List, All};
ghost use Rattle.line_text.specs.Line.{IsSafe, safe_line};

/// Whatever the text is, what is shown of it is safe: so it is one line, and a terminal obeys nothing in it.
pub fn safe()
    ensures { (text : List ℕ) → All IsSafe (safe_line text) }
{}

/// A text that is safe is shown as it is.
pub fn same()
    ensures { (text : List ℕ) → All IsSafe text → safe_line text ≡ text }
{}
