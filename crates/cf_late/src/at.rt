//! Relations at the values of the variables in scope.
ghost use Rattle.std.specs.Prelude.{◌≡◌, IfOk};
ghost use Rattle.cf_tree.specs.RelTree.{set_var};
ghost use Rattle.cf_tree.specs.RelView.{term_tree, rel_tree};
ghost use Rattle.cf_tree.specs.Values.{number_of, value_at};
ghost use Rattle.cf_eval.specs.Seen.{plains};
ghost use Rattle.cf_late.specs.At.{variable_known, rel_known};

use cf_eval::{Value, number_in};
use cf_tree::{Leaves, NoMemory, Rel, SetTerm, Term};
use std::alloc::Global;

// The number of level x, 0 where none stands there.
fn number_at(x: u32, env: &[Value]) -> i128
    ensures { result ≡ number_of (value_at (plains env.now) x) }
{
    match env.get(x as usize) {
        Some(value) => number_in(value),
        None => 0,
    }
}

// A number variable, where so many variables are in scope: one of them is the literal of its value.
fn variable_at(scope: usize, x: u32, env: &[Value]) -> Term
    ensures { term_tree result ≡ variable_known scope x (plains env.now) }
{
    if (x as usize) < scope {
        Term::Lit(number_at(x, env))
    } else {
        Term::Var(x)
    }
}

// So many variables in scope and their values: their numbers stand in their place, and sets and outputs stay.
#[derive(Clone, Copy)]
struct Known<'a> {
    scope: usize,
    env: &'a [Value],
}

impl<'a> Leaves for Known<'a> {
    ghost becomes_term = { λ known x. variable_known known.scope x (plains known.env.now) };

    ghost becomes_set = { λ _ x. set_var x };

    fn term(&self, level: u32) -> Result<Term, NoMemory> {
        Ok(variable_at(self.scope, level, self.env))
    }

    fn set(&self, level: u32) -> Result<SetTerm, NoMemory> {
        Ok(SetTerm::Var(level))
    }
}

// The relation of a choose with so many variables in scope, which have these values.
pub(crate) fn rel_at(alloc: Global, scope: usize, rel: &Rel, env: &[Value]) -> Result<Rel, NoMemory>
    ensures { IfOk result (λ new. rel_tree new ≡ rel_known scope (rel_tree rel.now) (plains env.now)) }
{
    rel.rebuilt(alloc, &Known { scope, env })
}
