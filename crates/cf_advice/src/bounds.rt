//! Numbers that nothing bounds in a relation.
ghost use Rattle.std.specs.Prelude.{◌≡◌, pos, true};
ghost use Rattle.cf_tree.specs.RelView.{rel_tree, term_tree};
ghost use Rattle.cf_advice.specs.Bounds.{IsUnbounded};
ghost use Rattle.cf_advice.specs.Factors.{IsFlat, IsLevel, factor as the_factor};

use crate::factors::factor;
use cf_tree::{Rel, Term};

/// Whether the relation holds with any number of this level wherever it holds with one: no where that is not found.
#[tactic(auto, using(crate::proofs::BoundLaws::is_unbounded))]
pub fn nothing_bounds(rel: &Rel, level: u32) -> bool
    ensures { result ≡ true → IsUnbounded level (rel_tree rel.now) }
{
    is_level(rel, level)
}

// Whether the number of this level counts as often on both sides of each comparison, and 0 times in what is divided.
fn is_level(rel: &Rel, level: u32) -> bool
    ensures { result ≡ true → IsLevel level (rel_tree rel.now) }
{
    match rel {
        Rel::True | Rel::False => true,
        Rel::Compare {
            order: _,
            left,
            right,
        } => counts_alike(left, right, level),
        Rel::SameSet(_, _) | Rel::OtherSet(_, _) | Rel::Subset(_, _) => true,
        Rel::Divides { k: _, of } => counts_none(of, level),
        Rel::And(p, q) | Rel::Or(p, q) => is_level(p, level) && is_level(q, level),
        Rel::Not(p) => is_level(p, level),
    }
}

// Whether it counts as often in both.
fn counts_alike(left: &Term, right: &Term, level: u32) -> bool
    ensures { result ≡ true → IsFlat level (term_tree left.now) × IsFlat level (term_tree right.now)
        × (the_factor level (term_tree left.now) ≡ the_factor level (term_tree right.now)) }
{
    match factor(left, level) {
        Some(k) => counts(right, level, &k),
        None => false,
    }
}

// Whether it counts 0 times.
fn counts_none(term: &Term, level: u32) -> bool
    ensures { result ≡ true → IsFlat level (term_tree term.now) × (the_factor level (term_tree term.now) ≡ pos 0) }
{
    counts(term, level, &0)
}

// Whether it counts so often.
fn counts(term: &Term, level: u32, times: &i128) -> bool
    ensures { result ≡ true → IsFlat level (term_tree term.now) × (the_factor level (term_tree term.now) ≡ times.now) }
{
    match factor(term, level) {
        Some(k) => k == *times,
        None => false,
    }
}
