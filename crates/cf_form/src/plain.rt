//! Wide forms in which no new form stands.
ghost use Rattle.std.specs.Prelude.{◌≡◌, true, IfOk};
ghost use Rattle.cf_tree.specs.RelView.{set_tree, term_tree};
ghost use Rattle.cf_form.specs.Atoms.{set_over_two, term_over_one, term_over_two, plain_set, plain_term};
ghost use Rattle.cf_form.specs.Wide.{is_plain, is_plain_term, is_plain_set};
ghost use Rattle.cf_form.specs.WideView.{wide_term, wide_set_of, wide_rel};

use crate::wide::{Room, WideRel, WideSet, WideTerm};
use cf_tree::{NoMemory, SetTerm, Term};
use std::alloc::Global;

impl WideSet {
    /// Whether no new form stands there.
    pub fn is_plain(&self) -> bool
        ensures { result ≡ is_plain_set (wide_set_of self.now) }
    {
        match self {
            WideSet::Empty | WideSet::SetVar(_) => true,
            WideSet::Union(a, b) | WideSet::Inter(a, b) | WideSet::Diff(a, b) => {
                a.is_plain() && b.is_plain()
            }
            WideSet::IfSet { .. } => false,
        }
    }

    /// The set form that it is.
    #[tactic(auto, using(crate::proofs::PlainLaws::first_of_both, crate::proofs::PlainLaws::second_of_both))]
    pub(crate) fn plain(&self, alloc: Global, room: &mut Room) -> Result<Box<SetTerm>, NoMemory>
        requires { is_plain_set (wide_set_of self.now) ≡ true }
        ensures { IfOk result (λ s. set_tree s.value ≡ plain_set (wide_set_of self.now)) }
    {
        room.take()?;
        match self {
            WideSet::Empty => Ok(Box::new(alloc, SetTerm::Empty)?),
            WideSet::SetVar(x) => Ok(Box::new(alloc, SetTerm::Var(*x))?),
            WideSet::Union(a, b) | WideSet::Inter(a, b) | WideSet::Diff(a, b) => {
                let first = a.plain(alloc, room)?;
                let second = b.plain(alloc, room)?;
                Ok(Box::new(alloc, self.plain_over_two(first, second))?)
            }
            WideSet::IfSet { .. } => unreachable!(),
        }
    }

    /// The same form of these parts.
    pub(crate) fn plain_over_two(&self, a: Box<SetTerm>, b: Box<SetTerm>) -> SetTerm
        ensures { set_tree result ≡ set_over_two (wide_set_of self.now) (set_tree a.value) (set_tree b.value) }
    {
        match self {
            WideSet::Union(_, _) => SetTerm::Union(a, b),
            WideSet::Inter(_, _) => SetTerm::Inter(a, b),
            WideSet::Diff(_, _) | WideSet::Empty | WideSet::SetVar(_) | WideSet::IfSet { .. } =>
                SetTerm::Diff(a, b),
        }
    }
}

impl WideTerm {
    /// Whether no new form stands there.
    pub fn is_plain(&self) -> bool
        ensures { result ≡ is_plain_term (wide_term self.now) }
    {
        match self {
            WideTerm::Lit(_) | WideTerm::Var(_) => true,
            WideTerm::Card(s) => s.is_plain(),
            WideTerm::Neg(a) | WideTerm::Div(a, _) | WideTerm::Mod(a, _) | WideTerm::Abs(a) => {
                a.is_plain()
            }
            WideTerm::Add(a, b) | WideTerm::Sub(a, b) | WideTerm::Mul(a, b) => {
                a.is_plain() && b.is_plain()
            }
            WideTerm::If { .. } | WideTerm::Min(_) | WideTerm::Max(_) => false,
        }
    }

    /// The number form that it is.
    #[tactic(auto, using(crate::proofs::PlainLaws::first_of_both, crate::proofs::PlainLaws::second_of_both))]
    pub(crate) fn plain(&self, alloc: Global, room: &mut Room) -> Result<Box<Term>, NoMemory>
        requires { is_plain_term (wide_term self.now) ≡ true }
        ensures { IfOk result (λ t. term_tree t.value ≡ plain_term (wide_term self.now)) }
    {
        room.take()?;
        match self {
            WideTerm::Lit(k) => Ok(Box::new(alloc, Term::Lit(*k))?),
            WideTerm::Var(x) => Ok(Box::new(alloc, Term::Var(*x))?),
            WideTerm::Card(s) => {
                let s = s.plain(alloc, room)?;
                Ok(Box::new(alloc, Term::Card(s))?)
            }
            WideTerm::Neg(a) | WideTerm::Div(a, _) | WideTerm::Mod(a, _) | WideTerm::Abs(a) => {
                let part = a.plain(alloc, room)?;
                Ok(Box::new(alloc, self.plain_over_one(part))?)
            }
            WideTerm::Add(a, b) | WideTerm::Sub(a, b) | WideTerm::Mul(a, b) => {
                let first = a.plain(alloc, room)?;
                let second = b.plain(alloc, room)?;
                Ok(Box::new(alloc, self.plain_over_two(first, second))?)
            }
            WideTerm::If { .. } | WideTerm::Min(_) | WideTerm::Max(_) => unreachable!(),
        }
    }

    /// The same form of this part.
    pub(crate) fn plain_over_one(&self, a: Box<Term>) -> Term
        ensures { term_tree result ≡ term_over_one (wide_term self.now) (term_tree a.value) }
    {
        match self {
            WideTerm::Neg(_) => Term::Neg(a),
            WideTerm::Div(_, k) => Term::Div(a, *k),
            WideTerm::Mod(_, k) => Term::Mod(a, *k),
            WideTerm::Abs(_)
            | WideTerm::Lit(_)
            | WideTerm::Var(_)
            | WideTerm::Card(_)
            | WideTerm::Add(_, _)
            | WideTerm::Sub(_, _)
            | WideTerm::Mul(_, _)
            | WideTerm::If { .. }
            | WideTerm::Min(_)
            | WideTerm::Max(_) => Term::Abs(a),
        }
    }

    /// The same form of these parts.
    pub(crate) fn plain_over_two(&self, a: Box<Term>, b: Box<Term>) -> Term
        ensures { term_tree result ≡ term_over_two (wide_term self.now) (term_tree a.value) (term_tree b.value) }
    {
        match self {
            WideTerm::Add(_, _) => Term::Add(a, b),
            WideTerm::Sub(_, _) => Term::Sub(a, b),
            WideTerm::Mul(_, _)
            | WideTerm::Lit(_)
            | WideTerm::Var(_)
            | WideTerm::Card(_)
            | WideTerm::Neg(_)
            | WideTerm::Div(_, _)
            | WideTerm::Mod(_, _)
            | WideTerm::Abs(_)
            | WideTerm::If { .. }
            | WideTerm::Min(_)
            | WideTerm::Max(_) => Term::Mul(a, b),
        }
    }
}

impl WideRel {
    /// Whether no new form stands there.
    pub fn is_plain(&self) -> bool
        ensures { result ≡ is_plain (wide_rel self.now) }
    {
        match self {
            WideRel::True | WideRel::False => true,
            WideRel::Compare { left, right, .. } => left.is_plain() && right.is_plain(),
            WideRel::SameSet(a, b) | WideRel::OtherSet(a, b) | WideRel::Subset(a, b) => {
                a.is_plain() && b.is_plain()
            }
            WideRel::Divides { of, .. } => of.is_plain(),
            WideRel::Not(p) => p.is_plain(),
            WideRel::And(p, q) | WideRel::Or(p, q) => p.is_plain() && q.is_plain(),
            WideRel::Truth(_)
            | WideRel::Implies(_, _)
            | WideRel::Same(_, _)
            | WideRel::Other(_, _)
            | WideRel::IfTruth { .. }
            | WideRel::Chain { .. } => false,
        }
    }
}
