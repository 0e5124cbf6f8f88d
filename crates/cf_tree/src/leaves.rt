//! Relations with other forms in the place of their variables.
ghost use Rattle.std.specs.Prelude.{◌≡◌, ℕ, IfOk};
ghost use Rattle.cf_tree.specs.RelTree.{SetTree, TermTree};
ghost use Rattle.cf_tree.specs.Leaves.{set_with, term_with, rel_with};
ghost use Rattle.cf_tree.specs.RelView.{set_tree, term_tree, rel_tree};

use crate::memory::NoMemory;
use crate::rel::{Rel, SetTerm, Term};
use crate::term_over_one;
use std::alloc::Global;

/// What stands in the place of the variables of a relation.
pub trait Leaves {
    /// The number form in the place of a number variable.
    ghost becomes_term: { Self → ℕ → TermTree };

    /// The set form in the place of a set variable.
    ghost becomes_set: { Self → ℕ → SetTree };

    /// The number form in the place of the number variable of that level.
    ///
    /// # Errors
    /// `NoMemory` where memory ran out.
    fn term(&self, level: u32) -> Result<Term, NoMemory>
        ensures { IfOk result (λ new. term_tree new ≡ becomes_term self.now level) };

    /// The set form in the place of the set variable of that level.
    ///
    /// # Errors
    /// `NoMemory` where memory ran out.
    fn set(&self, level: u32) -> Result<SetTerm, NoMemory>
        ensures { IfOk result (λ new. set_tree new ≡ becomes_set self.now level) };
}

impl SetTerm {
    /// The set form with what stands in the place of its variables.
    #[cycle(rebuilt_set)]
    pub fn rebuilt<L: Leaves>(&self, alloc: Global, leaves: &L) -> Result<SetTerm, NoMemory>
        ensures { IfOk result (λ new. set_tree new ≡ set_with (L.becomes_set leaves.now) (set_tree self.now)) }
    {
        match self {
            SetTerm::Empty => Ok(SetTerm::Empty),
            SetTerm::Var(x) => leaves.set(*x),
            SetTerm::Union(a, b) | SetTerm::Inter(a, b) | SetTerm::Diff(a, b) => {
                let first = a.rebuilt_box(alloc, leaves)?;
                let second = b.rebuilt_box(alloc, leaves)?;
                Ok(self.over_two(first, second))
            }
        }
    }

    #[cycle(rebuilt_set)]
    fn rebuilt_box<L: Leaves>(&self, alloc: Global, leaves: &L) -> Result<Box<SetTerm>, NoMemory>
        ensures { IfOk result (λ new. set_tree new.value ≡ set_with (L.becomes_set leaves.now) (set_tree self.now)) }
    {
        Ok(Box::new(alloc, self.rebuilt(alloc, leaves)?)?)
    }
}

impl Term {
    /// The number form with what stands in the place of its variables.
    #[cycle(rebuilt_term)]
    pub fn rebuilt<L: Leaves>(&self, alloc: Global, leaves: &L) -> Result<Term, NoMemory>
        ensures { IfOk result (λ new. term_tree new ≡ term_with (L.becomes_term leaves.now) (L.becomes_set leaves.now) (term_tree self.now)) }
    {
        match self {
            Term::Lit(n) => Ok(Term::Lit(*n)),
            Term::Var(x) => leaves.term(*x),
            Term::Card(set) => Ok(Term::Card(set.rebuilt_box(alloc, leaves)?)),
            term_over_one!(a) => {
                let part = a.rebuilt_box(alloc, leaves)?;
                Ok(self.over_one(part))
            }
            Term::Add(a, b) | Term::Sub(a, b) | Term::Mul(a, b) => {
                let first = a.rebuilt_box(alloc, leaves)?;
                let second = b.rebuilt_box(alloc, leaves)?;
                Ok(self.over_two(first, second))
            }
        }
    }

    #[cycle(rebuilt_term)]
    fn rebuilt_box<L: Leaves>(&self, alloc: Global, leaves: &L) -> Result<Box<Term>, NoMemory>
        ensures { IfOk result (λ new. term_tree new.value ≡ term_with (L.becomes_term leaves.now) (L.becomes_set leaves.now) (term_tree self.now)) }
    {
        Ok(Box::new(alloc, self.rebuilt(alloc, leaves)?)?)
    }
}

impl Rel {
    /// The relation with what stands in the place of its variables.
    #[cycle(rebuilt_rel)]
    pub fn rebuilt<L: Leaves>(&self, alloc: Global, leaves: &L) -> Result<Rel, NoMemory>
        ensures { IfOk result (λ new. rel_tree new ≡ rel_with (L.becomes_term leaves.now) (L.becomes_set leaves.now) (rel_tree self.now)) }
    {
        match self {
            Rel::True => Ok(Rel::True),
            Rel::False => Ok(Rel::False),
            Rel::Compare { order, left, right } => {
                let left = left.rebuilt_box(alloc, leaves)?;
                let right = right.rebuilt_box(alloc, leaves)?;
                let order = *order;
                Ok(Rel::Compare { order, left, right })
            }
            Rel::SameSet(a, b) | Rel::OtherSet(a, b) | Rel::Subset(a, b) => {
                let first = a.rebuilt_box(alloc, leaves)?;
                let second = b.rebuilt_box(alloc, leaves)?;
                Ok(self.over_sets(first, second))
            }
            Rel::Divides { k, of } => {
                let of = of.rebuilt_box(alloc, leaves)?;
                Ok(Rel::Divides { k: *k, of })
            }
            Rel::And(a, b) | Rel::Or(a, b) => {
                let first = a.rebuilt_box(alloc, leaves)?;
                let second = b.rebuilt_box(alloc, leaves)?;
                Ok(self.over_two(first, second))
            }
            Rel::Not(a) => Ok(Rel::Not(a.rebuilt_box(alloc, leaves)?)),
        }
    }

    /// The same in a box.
    #[cycle(rebuilt_rel)]
    pub fn rebuilt_box<L: Leaves>(&self, alloc: Global, leaves: &L) -> Result<Box<Rel>, NoMemory>
        ensures { IfOk result (λ new. rel_tree new.value ≡ rel_with (L.becomes_term leaves.now) (L.becomes_set leaves.now) (rel_tree self.now)) }
    {
        Ok(Box::new(alloc, self.rebuilt(alloc, leaves)?)?)
    }
}
