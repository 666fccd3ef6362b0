//! What excerpts and differences are, in other words: each function has the law as its promise and does nothing.

ghost use Rattle.std.specs.Prelude.{◌≡◌, ◌+◌, ◌<◌, ◌^◌, ◌==◌, ℕ, [], List, Some, false, nat_lt, All, filter, count_by, chars};
ghost use Rattle.std.specs.List.{flat_map, concat, AllByRecursion};
ghost use Rattle.line_text.specs.Line.{IsSafe};
ghost use Rattle.terminal_text.specs.Edits.{EditView, old_side, new_side, lines_of, edits_of};
ghost use Rattle.terminal_text.specs.Excerpt.{window_of, excerpt};
ghost use Rattle.terminal_text.specs.Hunks.{placed_edits, hunks_of, changes, taken_side};
ghost use Rattle.terminal_text.specs.Laws.{IsWindow, IsMarkedBelow, escapes};
ghost use Rattle.terminal_text.specs.Shown.{shown};
ghost use Rattle.terminal_text.specs.declared.style.Style.TheVariants.{Plain};

use crate::excerpt::Marked;
use crate::style::{Part, Style};

/// What is shown of a line: its characters in their order, 120 if it has as many, with those that are marked.
pub fn window()
    ensures { (line : List ℕ) (m : Marked) → IsWindow line m (window_of line m) }
{}

/// The mark comes after as many columns as are shown before the characters that it marks, and takes as many as they do,
/// but one at least.
pub fn mark_below()
    ensures { (part : Part) (m : Marked) (line : List ℕ) → m.line < 2 ^ 64 →
        IsMarkedBelow (excerpt Plain part m (Some line)) (window_of (chars line) m) }
{}

/// Whatever is in a source, a terminal gets nothing to obey but the two line feeds of an excerpt
/// and the escapes of its colours.
pub fn no_controls()
    ensures feeds { (style : Style) (part : Part) (m : Marked) (line : List ℕ) → m.line < 2 ^ 64 →
        count_by (λ b. b == 10) (excerpt style part m (Some line)) ≡ 2 }
    ensures escapes { (style : Style) (part : Part) (m : Marked) (line : List ℕ) → m.line < 2 ^ 64 →
        count_by (λ b. b == 27) (excerpt style part m (Some line)) ≡ escapes style }
    ensures others { (style : Style) (part : Part) (m : Marked) (line : List ℕ) → m.line < 2 ^ 64 →
        count_by (λ b. nat_lt b 32) (excerpt style part m (Some line)) ≡ 2 + escapes style }
    ensures shown { (text : List ℕ) → All IsSafe (shown text) }
{}

/// The old sides of the edits of two texts are the lines of the old text, and their new sides those of the new one.
pub fn both_sides()
    ensures old { (old new : List ℕ) →
        concat (flat_map old_side (edits_of (lines_of old) (lines_of new))) ≡ old }
    ensures new { (old new : List ℕ) →
        concat (flat_map new_side (edits_of (lines_of old) (lines_of new))) ≡ new }
{}

/// The hunks of edits show some of these, in their order, and each that changes lines.
pub fn shown()
    ensures order { (es : List EditView) →
        flat_map (λ h. h) (hunks_of es) ≡ filter (λ p. p.shown) (placed_edits [] es) }
    ensures others { (es : List EditView) →
        AllByRecursion (λ p. p.shown ≡ false → changes p.edit ≡ false) (placed_edits [] es) }
{}

/// So whoever puts the new sides of the hunks in the place of their old sides, and leaves the lines that no hunk shows
/// as they are in the old text, gets the new one.
pub fn applied()
    ensures { (old new : List ℕ) →
        concat (flat_map taken_side (placed_edits [] (edits_of (lines_of old) (lines_of new))))
        ≡ new }
{}
