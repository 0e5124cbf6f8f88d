//! Sizes and depths of relations and of their parts.
ghost use Rattle.std.specs.Prelude.{◌≡◌};
ghost use Rattle.cf_tree.specs.RelSize.{capped, set_size, set_depth, term_size, term_depth, rel_size, rel_depth};
ghost use Rattle.cf_tree.specs.RelView.{set_tree, term_tree, rel_tree};

use crate::rel::{Rel, SetTerm, Term};

impl SetTerm {
    /// How many nodes it has, but never more than the greatest number of 64 bits.
    pub fn size(&self) -> u64
        ensures { result ≡ capped (set_size (set_tree self.now)) }
    {
        match self {
            SetTerm::Empty | SetTerm::Var(_) => 1,
            SetTerm::Union(a, b) | SetTerm::Inter(a, b) | SetTerm::Diff(a, b) => a
                .size()
                .saturating_add(b.size())
                .saturating_add(1),
        }
    }

    /// How deep it is: 1 for a leaf. Never more than the greatest number of 64 bits.
    pub fn depth(&self) -> u64
        ensures { result ≡ capped (set_depth (set_tree self.now)) }
    {
        match self {
            SetTerm::Empty | SetTerm::Var(_) => 1,
            SetTerm::Union(a, b) | SetTerm::Inter(a, b) | SetTerm::Diff(a, b) => a
                .depth()
                .max(b.depth())
                .saturating_add(1),
        }
    }
}

impl Term {
    /// How many nodes it has, but never more than the greatest number of 64 bits.
    pub fn size(&self) -> u64
        ensures { result ≡ capped (term_size (term_tree self.now)) }
    {
        match self {
            Term::Lit(_) | Term::Var(_) => 1,
            Term::Card(a) => a.size().saturating_add(1),
            Term::Neg(a) | Term::Abs(a) => a.size().saturating_add(1),
            Term::Add(a, b) | Term::Sub(a, b) | Term::Mul(a, b) => a
                .size()
                .saturating_add(b.size())
                .saturating_add(1),
            Term::Div(a, _) | Term::Mod(a, _) => a.size().saturating_add(1),
        }
    }

    /// How deep it is: 1 for a leaf. Never more than the greatest number of 64 bits.
    pub fn depth(&self) -> u64
        ensures { result ≡ capped (term_depth (term_tree self.now)) }
    {
        match self {
            Term::Lit(_) | Term::Var(_) => 1,
            Term::Card(a) => a.depth().saturating_add(1),
            Term::Neg(a) | Term::Abs(a) => a.depth().saturating_add(1),
            Term::Add(a, b) | Term::Sub(a, b) | Term::Mul(a, b) => a
                .depth()
                .max(b.depth())
                .saturating_add(1),
            Term::Div(a, _) | Term::Mod(a, _) => a.depth().saturating_add(1),
        }
    }
}

impl Rel {
    /// How many nodes it has, but never more than the greatest number of 64 bits.
    pub fn size(&self) -> u64
        ensures { result ≡ capped (rel_size (rel_tree self.now)) }
    {
        match self {
            Rel::True | Rel::False => 1,
            Rel::Compare { left, right, .. } => left
                .size()
                .saturating_add(right.size())
                .saturating_add(1),
            Rel::SameSet(a, b) | Rel::OtherSet(a, b) | Rel::Subset(a, b) => a
                .size()
                .saturating_add(b.size())
                .saturating_add(1),
            Rel::Divides { of, .. } => of.size().saturating_add(1),
            Rel::And(a, b) | Rel::Or(a, b) => a.size().saturating_add(b.size()).saturating_add(1),
            Rel::Not(a) => a.size().saturating_add(1),
        }
    }

    /// How deep it is: 1 for a leaf. Never more than the greatest number of 64 bits.
    pub fn depth(&self) -> u64
        ensures { result ≡ capped (rel_depth (rel_tree self.now)) }
    {
        match self {
            Rel::True | Rel::False => 1,
            Rel::Compare { left, right, .. } => left.depth().max(right.depth()).saturating_add(1),
            Rel::SameSet(a, b) | Rel::OtherSet(a, b) | Rel::Subset(a, b) => a
                .depth()
                .max(b.depth())
                .saturating_add(1),
            Rel::Divides { of, .. } => of.depth().saturating_add(1),
            Rel::And(a, b) | Rel::Or(a, b) => a.depth().max(b.depth()).saturating_add(1),
            Rel::Not(a) => a.depth().saturating_add(1),
        }
    }
}
