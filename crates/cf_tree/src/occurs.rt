//! Which variables occur in relations.
ghost use Rattle.std.specs.Prelude.{◌≡◌};
ghost use Rattle.cf_tree.specs.RelView.{set_tree, term_tree, rel_tree};
ghost use Rattle.cf_tree.specs.Occurs.{set_holds, term_holds, rel_holds};

use crate::rel::{Rel, SetTerm, Term};
use crate::term_over_one;

fn set_holds(set: &SetTerm, level: u32) -> bool
    ensures { result ≡ set_holds level (set_tree set.now) }
{
    match set {
        SetTerm::Empty => false,
        SetTerm::Var(x) => level == *x,
        SetTerm::Union(a, b) | SetTerm::Inter(a, b) | SetTerm::Diff(a, b) => {
            set_holds(a, level) || set_holds(b, level)
        }
    }
}

fn term_holds(term: &Term, level: u32) -> bool
    ensures { result ≡ term_holds level (term_tree term.now) }
{
    match term {
        Term::Lit(_) => false,
        Term::Var(x) => level == *x,
        Term::Card(s) => set_holds(s, level),
        term_over_one!(a) => term_holds(a, level),
        Term::Add(a, b) | Term::Sub(a, b) | Term::Mul(a, b) => {
            term_holds(a, level) || term_holds(b, level)
        }
    }
}

/// Whether the variable of that level occurs in a relation.
pub fn rel_holds(rel: &Rel, level: u32) -> bool
    ensures { result ≡ rel_holds level (rel_tree rel.now) }
{
    match rel {
        Rel::True | Rel::False => false,
        Rel::Compare { left, right, .. } => term_holds(left, level) || term_holds(right, level),
        Rel::SameSet(a, b) | Rel::OtherSet(a, b) | Rel::Subset(a, b) => {
            set_holds(a, level) || set_holds(b, level)
        }
        Rel::Divides { of, .. } => term_holds(of, level),
        Rel::And(p, q) | Rel::Or(p, q) => rel_holds(p, level) || rel_holds(q, level),
        Rel::Not(p) => rel_holds(p, level),
    }
}
