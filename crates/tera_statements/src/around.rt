//! What is around a statement, and what may be there for that.

ghost use Rattle.std.specs.Prelude.{◌≡◌, ◌∷◌, ◌&&◌, [], false, is_none};
ghost use Rattle.tera_grammar.specs.statements.Grammar as grammar;
ghost use Rattle.tera_grammar.specs.statements.Grammar.{Path, may_break};
ghost use Rattle.tera_statements.specs.Around.{Represents, context_of, holds_breaks, is_loop};

use tera_base::Span;

/// What a statement can be in: the body of a loop, or its `else`; a block; a branch of an `if`; the definition of a
/// component; and what takes its body as a value: a `set`, a `filter`, a call of a component.
#[derive(Clone, Copy)]
pub(crate) enum Context {
    Loop,
    LoopElse,
    Block,
    Condition,
    Definition,
    Set,
    Filter,
    Call,
}

impl Context {
    /// What messages call it.
    pub fn name(self) -> &'static str {
        match self {
            Context::Loop | Context::LoopElse => "for loop",
            Context::Block => "block",
            Context::Condition => "if statement",
            Context::Definition => "component definition",
            Context::Set => "`set` block",
            Context::Filter => "filter section",
            Context::Call => "component body",
        }
    }

    // Whether blocks may be inside.
    fn holds_blocks(self) -> bool
        ensures { result ≡ grammar.holds_blocks (context_of self) }
    {
        !matches!(self, Context::Loop | Context::Definition)
    }

    // Whether it is the body of a loop.
    fn is_loop(self) -> bool
        ensures { result ≡ is_loop self }
    {
        matches!(self, Context::Loop)
    }
}

/// Something that is around, and where the token is that opened it.
#[derive(Drop)]
pub(crate) struct Opening {
    pub context: Context,
    pub at: Span,
}

impl Opening {
    /// The same once more.
    pub fn copied(&self) -> Opening
        ensures { result ≡ self.now }
    {
        Opening {
            context: self.context,
            at: self.at.copied(),
        }
    }
}

/// What a `break` or a `continue` finds around it.
#[derive(Drop)]
pub(crate) enum Breaks {
    Nothing,
    Loop,
    Capture(Opening),
}

impl Breaks {
    // The same once more.
    fn copied(&self) -> Breaks
        ensures { result ≡ self.now }
    {
        match self {
            Breaks::Nothing => Breaks::Nothing,
            Breaks::Loop => Breaks::Loop,
            Breaks::Capture(opening) => Breaks::Capture(opening.copied()),
        }
    }

    // What they find inside of another context.
    fn inside(&self, opening: &Opening) -> Breaks
        ensures { (path : Path) → holds_breaks self.now ≡ may_break path →
            holds_breaks result ≡ may_break (context_of opening.now.context ∷ path) }
    {
        match opening.context {
            Context::Loop => Breaks::Loop,
            Context::Set | Context::Filter | Context::Call => Breaks::Capture(opening.copied()),
            _ => self.copied(),
        }
    }
}

/// All that is around a statement, as far as it determines what may be there.
#[derive(Drop)]
pub(crate) struct Around {
    /// The innermost.
    pub innermost: Option<Opening>,
    /// The outermost that holds no blocks.
    pub barrier: Option<Opening>,
    /// What `break` and `continue` find.
    pub breaks: Breaks,
    /// Whether the body of a loop is around.
    pub in_loop: bool,
}

impl Around {
    /// What is around a whole template.
    pub fn nothing() -> Around
        ensures { Represents [] result }
    {
        Around {
            innermost: None,
            barrier: None,
            breaks: Breaks::Nothing,
            in_loop: false,
        }
    }

    /// What is around inside of another context.
    pub fn inside(&self, opening: &Opening) -> Around
        ensures represents { (path : Path) → Represents path self.now →
            Represents (context_of opening.now.context ∷ path) result }
        ensures inner { is_none result.innermost ≡ false }
    {
        Around {
            innermost: Some(opening.copied()),
            barrier: self.barrier_inside(opening),
            breaks: self.breaks.inside(opening),
            in_loop: self.in_loop || opening.context.is_loop(),
        }
    }

    // The outermost that holds no blocks, inside of another context.
    fn barrier_inside(&self, opening: &Opening) -> Option<Opening>
        ensures { is_none result
            ≡ (grammar.holds_blocks (context_of opening.now.context) && is_none self.now.barrier) }
    {
        match &self.barrier {
            Some(barrier) => Some(barrier.copied()),
            None if opening.context.holds_blocks() => None,
            None => Some(opening.copied()),
        }
    }
}
