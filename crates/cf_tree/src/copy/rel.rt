//! Copies of relations and of their parts.
ghost use Rattle.std.specs.Prelude.{◌≡◌, IfOk};
ghost use Rattle.cf_tree.specs.OverTerms.{set_over_two, SetHasTwoParts, term_over_one, TermHasOnePart, term_over_two, TermHasTwoParts};
ghost use Rattle.cf_tree.specs.OverTerms.{rel_over_sets, RelHasSets, rel_over_two, RelHasTwoParts};
ghost use Rattle.cf_tree.specs.RelTree.{set_var, term_var};
ghost use Rattle.cf_tree.specs.RelView.{set_tree, term_tree, rel_tree};

use crate::leaves::Leaves;
use crate::memory::NoMemory;
use crate::rel::{Rel, SetTerm, Term};
use std::alloc::Global;

// Variables that stay as they are.
struct Same;

impl Leaves for Same {
    ghost becomes_term = { λ _ x. term_var x };

    ghost becomes_set = { λ _ x. set_var x };

    fn term(&self, level: u32) -> Result<Term, NoMemory> {
        Ok(Term::Var(level))
    }

    fn set(&self, level: u32) -> Result<SetTerm, NoMemory> {
        Ok(SetTerm::Var(level))
    }
}

impl SetTerm {
    /// An equal tree.
    #[tactic(auto, using(crate::proofs::LeavesLaws::set_itself))]
    pub fn try_copy(&self, alloc: Global) -> Result<SetTerm, NoMemory>
        ensures { IfOk result (λ new. set_tree new ≡ set_tree self.now) }
    {
        self.rebuilt(alloc, &Same)
    }

    /// The same form over two other parts.
    pub fn over_two(&self, a: Box<SetTerm>, b: Box<SetTerm>) -> SetTerm
        requires { SetHasTwoParts (set_tree self.now) }
        ensures { set_tree result ≡ set_over_two (set_tree self.now) (set_tree a.value) (set_tree b.value) }
    {
        match self {
            SetTerm::Union(_, _) => SetTerm::Union(a, b),
            SetTerm::Inter(_, _) => SetTerm::Inter(a, b),
            SetTerm::Diff(_, _) => SetTerm::Diff(a, b),
            _ => unreachable!(),
        }
    }
}

impl Term {
    /// An equal tree.
    #[tactic(auto, using(crate::proofs::LeavesLaws::term_itself))]
    pub fn try_copy(&self, alloc: Global) -> Result<Term, NoMemory>
        ensures { IfOk result (λ new. term_tree new ≡ term_tree self.now) }
    {
        self.rebuilt(alloc, &Same)
    }

    /// The same form over another part.
    pub fn over_one(&self, a: Box<Term>) -> Term
        requires { TermHasOnePart (term_tree self.now) }
        ensures { term_tree result ≡ term_over_one (term_tree self.now) (term_tree a.value) }
    {
        match self {
            Term::Neg(_) => Term::Neg(a),
            Term::Div(_, k) => Term::Div(a, *k),
            Term::Mod(_, k) => Term::Mod(a, *k),
            Term::Abs(_) => Term::Abs(a),
            _ => unreachable!(),
        }
    }

    /// The same form over two other parts.
    pub fn over_two(&self, a: Box<Term>, b: Box<Term>) -> Term
        requires { TermHasTwoParts (term_tree self.now) }
        ensures { term_tree result ≡ term_over_two (term_tree self.now) (term_tree a.value) (term_tree b.value) }
    {
        match self {
            Term::Add(_, _) => Term::Add(a, b),
            Term::Sub(_, _) => Term::Sub(a, b),
            Term::Mul(_, _) => Term::Mul(a, b),
            _ => unreachable!(),
        }
    }
}

impl Rel {
    /// An equal tree.
    #[tactic(auto, using(crate::proofs::LeavesLaws::rel_itself))]
    pub fn try_copy(&self, alloc: Global) -> Result<Rel, NoMemory>
        ensures { IfOk result (λ new. rel_tree new ≡ rel_tree self.now) }
    {
        self.rebuilt(alloc, &Same)
    }

    pub(crate) fn boxed(&self, alloc: Global) -> Result<Box<Rel>, NoMemory>
        ensures { IfOk result (λ new. rel_tree new.value ≡ rel_tree self.now) }
    {
        Ok(Box::new(alloc, self.try_copy(alloc)?)?)
    }

    /// The same relation of two other set forms.
    pub fn over_sets(&self, a: Box<SetTerm>, b: Box<SetTerm>) -> Rel
        requires { RelHasSets (rel_tree self.now) }
        ensures { rel_tree result ≡ rel_over_sets (rel_tree self.now) (set_tree a.value) (set_tree b.value) }
    {
        match self {
            Rel::SameSet(_, _) => Rel::SameSet(a, b),
            Rel::OtherSet(_, _) => Rel::OtherSet(a, b),
            Rel::Subset(_, _) => Rel::Subset(a, b),
            _ => unreachable!(),
        }
    }

    /// The same relation of two other relations.
    pub fn over_two(&self, a: Box<Rel>, b: Box<Rel>) -> Rel
        requires { RelHasTwoParts (rel_tree self.now) }
        ensures { rel_tree result ≡ rel_over_two (rel_tree self.now) (rel_tree a.value) (rel_tree b.value) }
    {
        match self {
            Rel::And(_, _) => Rel::And(a, b),
            Rel::Or(_, _) => Rel::Or(a, b),
            _ => unreachable!(),
        }
    }
}
