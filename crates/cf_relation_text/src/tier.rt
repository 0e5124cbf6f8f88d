//! How tightly the forms of a relation bind.
ghost use Rattle.std.specs.Prelude.{◌≡◌};
ghost use Rattle.cf_tree.specs.RelView.{set_tree, term_tree, rel_tree};
ghost use Rattle.cf_relation_text.specs.RelationText.{rank, is_looser, set_tier, term_tier, rel_tier};

use cf_tree::{Rel, SetTerm, Term};

/// The rows of the grammar in which forms stand, from loosest to tightest.
#[derive(Clone, Copy)]
pub(crate) enum Tier {
    Ors,
    Ands,
    Comparisons,
    Sums,
    Products,
    Unary,
}

impl Tier {
    // How far inside a tier is.
    fn rank(self) -> u8
        ensures { result ≡ rank self }
    {
        match self {
            Tier::Ors => 0,
            Tier::Ands => 1,
            Tier::Comparisons => 2,
            Tier::Sums => 3,
            Tier::Products => 4,
            Tier::Unary => 5,
        }
    }

    /// Whether forms of this tier bind more loosely than those of another.
    pub(crate) fn is_looser(self, than: Tier) -> bool
        ensures { result ≡ is_looser self than }
    {
        self.rank() < than.rank()
    }
}

/// The tier of a set form.
pub(crate) fn set_tier(set: &SetTerm) -> Tier
    ensures { result ≡ set_tier (set_tree set.now) }
{
    match set {
        SetTerm::Union(_, _) | SetTerm::Diff(_, _) => Tier::Sums,
        SetTerm::Inter(_, _) => Tier::Products,
        SetTerm::Empty | SetTerm::Var(_) => Tier::Unary,
    }
}

/// The tier of a number form.
pub(crate) fn term_tier(term: &Term) -> Tier
    ensures { result ≡ term_tier (term_tree term.now) }
{
    match term {
        Term::Add(_, _) | Term::Sub(_, _) => Tier::Sums,
        Term::Mul(_, _) => Tier::Products,
        Term::Lit(_)
        | Term::Var(_)
        | Term::Card(_)
        | Term::Neg(_)
        | Term::Div(_, _)
        | Term::Mod(_, _)
        | Term::Abs(_) => Tier::Unary,
    }
}

/// The tier of a relation.
pub(crate) fn rel_tier(rel: &Rel) -> Tier
    ensures { result ≡ rel_tier (rel_tree rel.now) }
{
    match rel {
        Rel::Or(_, _) => Tier::Ors,
        Rel::And(_, _) => Tier::Ands,
        Rel::Compare { .. }
        | Rel::SameSet(_, _)
        | Rel::OtherSet(_, _)
        | Rel::Subset(_, _)
        | Rel::Divides { .. } => Tier::Comparisons,
        Rel::True | Rel::False | Rel::Not(_) => Tier::Unary,
    }
}
