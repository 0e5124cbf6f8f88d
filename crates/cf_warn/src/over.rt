//! Whether a relation is one over variables of some bases.
ghost use Rattle.std.specs.Prelude.{◌≡◌, true, Some, slice_get};
ghost use Rattle.cf_num.specs.Limit.{IsWithin};
ghost use Rattle.cf_tree.specs.declared.base.Base.TheVariants.{Int, Set};
ghost use Rattle.cf_tree.specs.RelView.{set_tree, term_tree, rel_tree};
ghost use Rattle.cf_tree.specs.Relation.{IsDivisor, IsLinear, IsLinearTerm, IsTyped, IsTypedSet, IsTypedTerm, is_fixed as is_fixed_of};

use cf_tree::{Base, Rel, SetTerm, Term};

/// Whether a relation is linear and over variables of these bases, by level. Each relation of a typed
/// program is.
pub fn is_over(bases: &[Base], rel: &Rel) -> bool
    ensures { result ≡ true → IsTyped bases.now (rel_tree rel.now) × IsLinear (rel_tree rel.now) }
{
    match rel {
        Rel::True | Rel::False => true,
        Rel::Compare {
            order: _,
            left,
            right,
        } => term_over(bases, left) && term_over(bases, right),
        Rel::SameSet(a, b) | Rel::OtherSet(a, b) | Rel::Subset(a, b) => {
            set_over(bases, a) && set_over(bases, b)
        }
        Rel::Divides { k, of } => is_divisor(*k) && term_over(bases, of),
        Rel::And(a, b) | Rel::Or(a, b) => is_over(bases, a) && is_over(bases, b),
        Rel::Not(a) => is_over(bases, a),
    }
}

fn term_over(bases: &[Base], term: &Term) -> bool
    ensures { result ≡ true → IsTypedTerm bases.now (term_tree term.now) × IsLinearTerm (term_tree term.now) }
{
    match term {
        Term::Lit(n) => is_within(*n),
        Term::Var(x) => is_number(bases, *x),
        Term::Card(set) => set_over(bases, set),
        Term::Neg(a) | Term::Abs(a) => term_over(bases, a),
        Term::Add(a, b) | Term::Sub(a, b) => term_over(bases, a) && term_over(bases, b),
        Term::Mul(a, b) => {
            term_over(bases, a) && term_over(bases, b) && (is_fixed(a) || is_fixed(b))
        }
        Term::Div(a, k) | Term::Mod(a, k) => is_divisor(*k) && term_over(bases, a),
    }
}

fn set_over(bases: &[Base], set: &SetTerm) -> bool
    ensures { result ≡ true → IsTypedSet bases.now (set_tree set.now) }
{
    match set {
        SetTerm::Empty => true,
        SetTerm::Var(x) => is_set(bases, *x),
        SetTerm::Union(a, b) | SetTerm::Inter(a, b) | SetTerm::Diff(a, b) => {
            set_over(bases, a) && set_over(bases, b)
        }
    }
}

// Whether a number form holds no variable, no `card`, no `div` and no `mod`.
fn is_fixed(term: &Term) -> bool
    ensures { result ≡ is_fixed_of (term_tree term.now) }
{
    match term {
        Term::Lit(_) => true,
        Term::Var(_) | Term::Card(_) | Term::Div(_, _) | Term::Mod(_, _) => false,
        Term::Neg(a) | Term::Abs(a) => is_fixed(a),
        Term::Add(a, b) | Term::Sub(a, b) | Term::Mul(a, b) => is_fixed(a) && is_fixed(b),
    }
}

fn is_number(bases: &[Base], x: u32) -> bool
    ensures { result ≡ true → slice_get bases.now x ≡ Some Int }
{
    match bases.get(x as usize) {
        Some(Base::Int) => true,
        _ => false,
    }
}

fn is_set(bases: &[Base], x: u32) -> bool
    ensures { result ≡ true → slice_get bases.now x ≡ Some Set }
{
    match bases.get(x as usize) {
        Some(Base::Set) => true,
        _ => false,
    }
}

fn is_divisor(k: i128) -> bool
    ensures { result ≡ true → IsDivisor k }
{
    k >= 1
}

fn is_within(n: i128) -> bool
    ensures { result ≡ true → IsWithin n }
{
    n != i128::MIN
}
