//! Laws of tokens and of sources that are the same apart from places: each function has the law as
//! its promise and does nothing.

ghost use Rattle.std.specs.Prelude.{◌≡◌, ◌↔◌, ℕ, true, List};
ghost use Rattle.tera_lexer.specs.grammar.Marks.{Marks, IsValid};
ghost use Rattle.tera_lexer.specs.grammar.Tokens.{Items};
ghost use Rattle.tera_tree.specs.Tree.{Output};
ghost use Rattle.tera_grammar.specs.Limits.{Limits};
ghost use Rattle.tera_grammar.specs.statements.Grammar.{Body};
ghost use Rattle.tera_grammar.specs.statements.Top.{IsTemplate, Derives};
ghost use Rattle.tera_layout.specs.Alike.{AreAlike, AreAlikeSources};
ghost use Rattle.tera_layout.specs.Layout.{IsLaidOut};
ghost use Rattle.tera_layout.specs.Respaced.{IsRespaced};
ghost use Rattle.tera_layout.specs.Steady.{is_steady};
ghost use Rattle.tera_alike.specs.Outputs.{placeless_output, IsAlike};

/// Where tokens are the same apart from places, a template of the one within the limits gives one of
/// the other, with the same output apart from places.
pub fn templates()
    ensures { (limits : Limits) (a b : Items) → AreAlike a b →
        (x : Body) → IsTemplate limits a x → (y : Body) × IsTemplate limits b y × IsAlike x y }
{}

/// Where the tokens of two sources are the same apart from places, the one has a derivation within
/// the limits exactly where the other has, and the outputs are the same apart from places.
pub fn sources()
    ensures derived { (limits : Limits) (m n : Marks) (one other : List ℕ) →
        IsValid m → IsValid n → AreAlikeSources m one n other →
        ((x : Output) × Derives limits m one x) ↔ ((y : Output) × Derives limits n other y) }
    ensures same { (limits : Limits) (m n : Marks) (one other : List ℕ) →
        IsValid m → IsValid n → AreAlikeSources m one n other →
        (x y : Output) → Derives limits m one x → Derives limits n other y →
        placeless_output x ≡ placeless_output y }
{}

/// So it is of sources that differ in the white space inside tags alone.
pub fn respaced()
    ensures derived { (limits : Limits) (m : Marks) (one other : List ℕ) →
        IsValid m → IsRespaced m one other →
        ((x : Output) × Derives limits m one x) ↔ ((y : Output) × Derives limits m other y) }
    ensures same { (limits : Limits) (m : Marks) (one other : List ℕ) →
        IsValid m → IsRespaced m one other →
        (x y : Output) → Derives limits m one x → Derives limits m other y →
        placeless_output x ≡ placeless_output y }
{}

/// So it is of a source and its layout between steady markers.
pub fn layout()
    ensures derived { (limits : Limits) (m : Marks) → IsValid m → is_steady m ≡ true →
        (one other : List ℕ) → IsLaidOut m one other →
        ((x : Output) × Derives limits m one x)
        ↔ ((y : Output) × Derives limits m other y) }
    ensures same { (limits : Limits) (m : Marks) → IsValid m → is_steady m ≡ true →
        (one other : List ℕ) (x y : Output) → IsLaidOut m one other →
        Derives limits m one x → Derives limits m other y →
        placeless_output x ≡ placeless_output y }
{}
