//! Copies of the parts that hold bodies.

ghost use Rattle.std.specs.Prelude.{◌≡◌};
ghost use Rattle.tera_ast.specs.Spans.{nowhere};
ghost use Rattle.tera_ast.specs.View.{call_view, block_set_view, for_view, if_view, section_view};

use super::{copy_attributes, copy_block_set, copy_choice, copy_loop, copy_nodes, copy_section};
use crate::ast::{BlockSet, ComponentCall, FilterSection, ForLoop, If};
use std::alloc::AllocError;

impl Clone for ComponentCall {
    ghost is_clone = { λ c d. call_view d nowhere ≡ call_view c nowhere };

    #[tactic(auto, using(crate::proofs::Views::call_out))]
    fn clone(&self) -> Result<ComponentCall, AllocError> {
        let name = self.name.clone()?;
        let kwargs = copy_attributes(*self.kwargs.allocator(), &self.kwargs)?;
        let body = copy_nodes(*self.body.allocator(), &self.body)?;
        Ok(ComponentCall {
            name,
            kwargs,
            body,
            self_closing: self.self_closing,
        })
    }
}

impl Clone for BlockSet {
    ghost is_clone = { λ x y. block_set_view y ≡ block_set_view x };

    fn clone(&self) -> Result<BlockSet, AllocError> {
        copy_block_set(self)
    }
}

impl Clone for ForLoop {
    ghost is_clone = { λ x y. for_view y ≡ for_view x };

    fn clone(&self) -> Result<ForLoop, AllocError> {
        copy_loop(self)
    }
}

impl Clone for If {
    ghost is_clone = { λ x y. if_view y ≡ if_view x };

    fn clone(&self) -> Result<If, AllocError> {
        copy_choice(self)
    }
}

impl Clone for FilterSection {
    ghost is_clone = { λ x y. section_view y ≡ section_view x };

    fn clone(&self) -> Result<FilterSection, AllocError> {
        copy_section(self)
    }
}
