//! How many alternatives the atoms of wide relations have.
ghost use Rattle.std.specs.Prelude.{◌≡◌, ◌*◌, ◌-◌, ◌^◌, ◌∷◌, []};
ghost use Rattle.cf_tree.specs.RelSize.{capped};
ghost use Rattle.cf_form.specs.Alternatives.{set_count, term_count, product_count, parts_of};
ghost use Rattle.cf_form.specs.Counted.{set_counted, term_counted, side_counted, link_passed as link_passed_of};
ghost use Rattle.cf_form.specs.Passed.{above as above_of, earlier as earlier_of, first_of, sides, inners as inners_of, links_passed as links_passed_of, set_passed as set_passed_of, term_passed as term_passed_of, passed as passed_of};
ghost use Rattle.cf_form.specs.WideView.{wide_term, wide_terms, wide_set_of, wide_rel};

use crate::limits::MOST_ALTERNATIVES;
use crate::wide::{WideRel, WideSet, WideTerm};

impl WideSet {
    // How many alternatives it has, but never more than the greatest number of 64 bits.
    fn count(&self) -> u64
        ensures { result ≡ set_counted (wide_set_of self.now) }
    {
        match self {
            WideSet::Empty | WideSet::SetVar(_) => 1,
            WideSet::Union(a, b) | WideSet::Inter(a, b) | WideSet::Diff(a, b) => {
                a.count().saturating_mul(b.count())
            }
            WideSet::IfSet { yes, no, .. } => yes.count().saturating_add(no.count()),
        }
    }
}

impl WideTerm {
    // How many alternatives it has, but never more than the greatest number of 64 bits.
    #[cycle(count)]
    fn count(&self) -> u64
        ensures { result ≡ term_counted (wide_term self.now) }
    {
        match self {
            WideTerm::Lit(_) | WideTerm::Var(_) => 1,
            WideTerm::Card(s) => s.count(),
            WideTerm::Neg(a) | WideTerm::Div(a, _) | WideTerm::Mod(a, _) | WideTerm::Abs(a) => {
                a.count()
            }
            WideTerm::Add(a, b) | WideTerm::Sub(a, b) | WideTerm::Mul(a, b) => {
                a.count().saturating_mul(b.count())
            }
            WideTerm::If { yes, no, .. } => yes.count().saturating_add(no.count()),
            WideTerm::Min(parts) | WideTerm::Max(parts) => {
                product(parts).saturating_mul(choices(parts))
            }
        }
    }
}

#[cycle(count)]
fn product(parts: &[WideTerm]) -> u64
    ensures { result ≡ capped (product_count (wide_terms parts.now)) }
{
    let mut product: u64 = 1;
    for part in parts {
        let count = part.count();
        product = product.saturating_mul(count);
    }
    product
}

// Two for each part behind the first.
fn choices(parts: &[WideTerm]) -> u64
    ensures { result ≡ capped (2 ^ (parts_of (wide_terms parts.now) - 1)) }
{
    power_of_two(parts.len().saturating_sub(1))
}

fn power_of_two(exponent: usize) -> u64
    ensures { result ≡ capped (2 ^ exponent) }
{
    let mut power: u64 = 1;
    for _step in 0..exponent {
        power = power.saturating_mul(2);
    }
    power
}

fn above(count: u64) -> Option<u64>
    ensures { result ≡ above_of count }
{
    if count <= MOST_ALTERNATIVES {
        None
    } else {
        Some(count)
    }
}

#[tactic(auto, using(crate::proofs::CountLaws::terms_above_is))]
fn terms_above(a: &WideTerm, b: &WideTerm) -> Option<u64>
    ensures { result ≡ above_of (term_count (wide_term a.now) * term_count (wide_term b.now)) }
{
    above(a.count().saturating_mul(b.count()))
}

#[tactic(auto, using(crate::proofs::CountLaws::sets_above_is))]
fn sets_above(a: &WideSet, b: &WideSet) -> Option<u64>
    ensures { result ≡ above_of (set_count (wide_set_of a.now) * set_count (wide_set_of b.now)) }
{
    above(a.count().saturating_mul(b.count()))
}

#[tactic(auto, using(crate::proofs::CountLaws::term_above_is))]
fn term_above(a: &WideTerm) -> Option<u64>
    ensures { result ≡ above_of (term_count (wide_term a.now)) }
{
    above(a.count())
}

fn earlier(a: Option<u64>, b: Option<u64>) -> Option<u64>
    ensures { result ≡ earlier_of a b }
{
    match a {
        Some(count) => Some(count),
        None => b,
    }
}

fn first_of_three(a: Option<u64>, b: Option<u64>, c: Option<u64>) -> Option<u64>
    ensures { result ≡ first_of (a ∷ b ∷ c ∷ []) }
{
    match a {
        Some(count) => Some(count),
        None => match b {
            Some(count) => Some(count),
            None => c,
        },
    }
}

/// How many alternatives the first atom has that has more than `MOST_ALTERNATIVES`, but never more
/// than the greatest number of 64 bits. An atom comes before the tests in it.
#[cycle(passed)]
pub(crate) fn passed(rel: &WideRel) -> Option<u64>
    ensures { result ≡ passed_of (wide_rel rel.now) }
{
    match rel {
        WideRel::True | WideRel::False | WideRel::Truth(_) => None,
        WideRel::Compare { left, right, .. } => {
            let here = terms_above(left, right);
            first_of_three(here, term_passed(left), term_passed(right))
        }
        WideRel::SameSet(a, b) | WideRel::OtherSet(a, b) | WideRel::Subset(a, b) => {
            let here = sets_above(a, b);
            first_of_three(here, set_passed(a), set_passed(b))
        }
        WideRel::Divides { of, .. } => earlier(term_above(of), term_passed(of)),
        WideRel::Not(p) => passed(p),
        WideRel::And(p, q)
        | WideRel::Or(p, q)
        | WideRel::Implies(p, q)
        | WideRel::Same(p, q)
        | WideRel::Other(p, q) => earlier(passed(p), passed(q)),
        WideRel::IfTruth { test, yes, no } => first_of_three(passed(test), passed(yes), passed(no)),
        WideRel::Chain { parts, .. } => links_passed(parts),
    }
}

#[cycle(passed)]
fn set_passed(set: &WideSet) -> Option<u64>
    ensures { result ≡ set_passed_of (wide_set_of set.now) }
{
    match set {
        WideSet::Empty | WideSet::SetVar(_) => None,
        WideSet::Union(a, b) | WideSet::Inter(a, b) | WideSet::Diff(a, b) => {
            earlier(set_passed(a), set_passed(b))
        }
        WideSet::IfSet { test, yes, no } => {
            earlier(set_passed(yes), earlier(set_passed(no), passed(test)))
        }
    }
}

#[cycle(passed)]
fn term_passed(term: &WideTerm) -> Option<u64>
    ensures { result ≡ term_passed_of (wide_term term.now) }
{
    match term {
        WideTerm::Lit(_) | WideTerm::Var(_) => None,
        WideTerm::Card(s) => set_passed(s),
        WideTerm::Neg(a) | WideTerm::Div(a, _) | WideTerm::Mod(a, _) | WideTerm::Abs(a) => {
            term_passed(a)
        }
        WideTerm::Add(a, b) | WideTerm::Sub(a, b) | WideTerm::Mul(a, b) => {
            earlier(term_passed(a), term_passed(b))
        }
        WideTerm::If { test, yes, no } => {
            earlier(term_passed(yes), earlier(term_passed(no), passed(test)))
        }
        WideTerm::Min(parts) | WideTerm::Max(parts) => inners(parts),
    }
}

#[cycle(passed)]
fn inners(parts: &[WideTerm]) -> Option<u64>
    ensures { result ≡ inners_of (sides (wide_terms parts.now)) }
{
    let mut found = None;
    for part in parts {
        let inner = term_passed(part);
        found = earlier(found, inner);
    }
    found
}

// A side of a comparison: how many alternatives it has, and what is above the limit in its tests.
#[derive(Clone, Copy)]
struct Side {
    count: u64,
    inner: Option<u64>,
}

#[cycle(passed)]
fn links_passed(parts: &[WideTerm]) -> Option<u64>
    ensures { result ≡ links_passed_of (sides (wide_terms parts.now)) }
{
    let mut found = None;
    let mut before = None;
    for part in parts {
        let inner = term_passed(part);
        let side = counted(part, inner);
        found = earlier(found, link_passed(before, side));
        before = Some(side);
    }
    found
}

fn counted(part: &WideTerm, inner: Option<u64>) -> Side
    ensures { result ≡ side_counted (wide_term part.now) inner }
{
    let count = part.count();
    Side { count, inner }
}

// A comparison of a side with the one before it.
#[tactic(auto, using(crate::proofs::CountLaws::above_capped))]
fn link_passed(before: Option<Side>, side: Side) -> Option<u64>
    ensures { result ≡ link_passed_of before side }
{
    match before {
        None => None,
        Some(first) => {
            let here = above(first.count.saturating_mul(side.count));
            earlier(here, earlier(first.inner, side.inner))
        }
    }
}
