//! Equality of the parts that hold bodies.

ghost use Rattle.std.specs.Cmp.{on_equiv, on_per, partial_equiv_from_equiv};
ghost use Rattle.tera_ast.specs.Spans.{nowhere};
ghost use Rattle.tera_ast.specs.Same.{expr_eq, stmt_eq};
ghost use Rattle.tera_ast.specs.SameLaws.{expr_equivalence, stmt_equivalence};
ghost use Rattle.tera_ast.specs.View.{call_view, block_set_view, for_view, if_view, section_view};

use super::{
    same_block_set, same_choice, same_entries, same_loop, same_nodes, same_section, same_text,
};
use crate::ast::{BlockSet, ComponentCall, FilterSection, ForLoop, If};

impl PartialEq for ComponentCall {
    ghost eq = { λ c d. expr_eq (call_view c nowhere) (call_view d nowhere) };

    ghost laws = { on_per (λ c. call_view c nowhere) (partial_equiv_from_equiv expr_equivalence) };

    #[tactic(auto, using(crate::proofs::Views::call_out))]
    fn eq(&self, other: &ComponentCall) -> bool {
        same_text(&self.name, &other.name)
            && same_entries(&self.kwargs, &other.kwargs)
            && same_nodes(&self.body, &other.body)
            && self.self_closing == other.self_closing
    }
}

impl Eq for ComponentCall {
    ghost laws = { on_equiv (λ c. call_view c nowhere) expr_equivalence };
}

impl PartialEq for BlockSet {
    ghost eq = { λ x y. stmt_eq (block_set_view x) (block_set_view y) };

    ghost laws = { on_per block_set_view (partial_equiv_from_equiv stmt_equivalence) };

    fn eq(&self, other: &BlockSet) -> bool {
        same_block_set(self, other)
    }
}

impl Eq for BlockSet {
    ghost laws = { on_equiv block_set_view stmt_equivalence };
}

impl PartialEq for ForLoop {
    ghost eq = { λ x y. stmt_eq (for_view x) (for_view y) };

    ghost laws = { on_per for_view (partial_equiv_from_equiv stmt_equivalence) };

    fn eq(&self, other: &ForLoop) -> bool {
        same_loop(self, other)
    }
}

impl Eq for ForLoop {
    ghost laws = { on_equiv for_view stmt_equivalence };
}

impl PartialEq for If {
    ghost eq = { λ x y. stmt_eq (if_view x) (if_view y) };

    ghost laws = { on_per if_view (partial_equiv_from_equiv stmt_equivalence) };

    fn eq(&self, other: &If) -> bool {
        same_choice(self, other)
    }
}

impl Eq for If {
    ghost laws = { on_equiv if_view stmt_equivalence };
}

impl PartialEq for FilterSection {
    ghost eq = { λ x y. stmt_eq (section_view x) (section_view y) };

    ghost laws = { on_per section_view (partial_equiv_from_equiv stmt_equivalence) };

    fn eq(&self, other: &FilterSection) -> bool {
        same_section(self, other)
    }
}

impl Eq for FilterSection {
    ghost laws = { on_equiv section_view stmt_equivalence };
}
