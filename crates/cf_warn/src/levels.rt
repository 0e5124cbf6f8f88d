//! Relations over other levels.
ghost use Rattle.std.specs.Prelude.{◌≡◌, IfOk};
ghost use Rattle.cf_tree.specs.RelTree.{set_var, term_var};
ghost use Rattle.cf_tree.specs.RelView.{rel_tree};
ghost use Rattle.cf_warn.specs.Questions.{rel_at};
ghost use Rattle.cf_warn.specs.Writing.{level_of};

use cf_linear::place;
use cf_tree::{Leaves, NoMemory, Rel, SetTerm, Term, add_u32, to_u32};
use std::alloc::Global;

// Where the variables of a choose stand in a question: its parameters first, and so many levels behind them its outputs.
#[derive(Drop)]
pub(crate) struct Levels {
    pub(crate) scope: u32,
    pub(crate) params: Vec<u32>,
    pub(crate) gap: u32,
}

impl Levels {
    // The level in the question. Levels past 32 bits are want of memory.
    fn of(&self, x: u32) -> Result<u32, NoMemory>
        ensures { IfOk result (λ y. y ≡ level_of self.now x) }
    {
        if x < self.scope {
            to_u32(place(x, &self.params))
        } else {
            let first = add_u32(to_u32(self.params.len())?, self.gap)?;
            add_u32(first, x - self.scope)
        }
    }

    // The relation over the levels of the question.
    pub(crate) fn boxed_rel(&self, alloc: Global, rel: &Rel) -> Result<Box<Rel>, NoMemory>
        ensures { IfOk result (λ new. rel_tree new.value ≡ rel_at (level_of self.now) (rel_tree rel.now)) }
    {
        rel.rebuilt_box(alloc, self)
    }
}

impl Leaves for Levels {
    ghost becomes_term = { λ levels x. term_var (level_of levels x) };

    ghost becomes_set = { λ levels x. set_var (level_of levels x) };

    fn term(&self, level: u32) -> Result<Term, NoMemory> {
        Ok(Term::Var(self.of(level)?))
    }

    fn set(&self, level: u32) -> Result<SetTerm, NoMemory> {
        Ok(SetTerm::Var(self.of(level)?))
    }
}
