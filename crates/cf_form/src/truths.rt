//! The truth variables that stand in wide relations.
ghost use Rattle.std.specs.Prelude.{◌≡◌, ◌||◌};
ghost use Rattle.cf_form.specs.Wide.{has_truth, term_has_truth, set_has_truth, some_has_truth};
ghost use Rattle.cf_form.specs.WideView.{wide_term, wide_terms, wide_set_of, wide_rel};

use crate::wide::{WideRel, WideSet, WideTerm};

impl WideTerm {
    /// Whether the truth variable of that level stands there.
    #[cycle(has_truth)]
    pub fn has_truth(&self, level: u32) -> bool
        ensures { result ≡ term_has_truth level (wide_term self.now) }
    {
        match self {
            WideTerm::Lit(_) | WideTerm::Var(_) => false,
            WideTerm::Card(s) => s.has_truth(level),
            WideTerm::Neg(a) | WideTerm::Div(a, _) | WideTerm::Mod(a, _) | WideTerm::Abs(a) => {
                a.has_truth(level)
            }
            WideTerm::Add(a, b) | WideTerm::Sub(a, b) | WideTerm::Mul(a, b) => {
                a.has_truth(level) || b.has_truth(level)
            }
            WideTerm::If { test, yes, no } => {
                test.has_truth(level) || yes.has_truth(level) || no.has_truth(level)
            }
            WideTerm::Min(parts) | WideTerm::Max(parts) => some_has_truth(parts, level),
        }
    }
}

#[cycle(has_truth)]
fn some_has_truth(parts: &[WideTerm], level: u32) -> bool
    ensures { result ≡ some_has_truth level (wide_terms parts.now) }
{
    let mut found = false;
    for part in parts {
        let here = part.has_truth(level);
        found = either(found, here);
    }
    found
}

fn either(a: bool, b: bool) -> bool
    ensures { result ≡ a || b }
{
    a || b
}

impl WideSet {
    /// Whether the truth variable of that level stands there.
    #[cycle(has_truth)]
    pub fn has_truth(&self, level: u32) -> bool
        ensures { result ≡ set_has_truth level (wide_set_of self.now) }
    {
        match self {
            WideSet::Empty | WideSet::SetVar(_) => false,
            WideSet::Union(a, b) | WideSet::Inter(a, b) | WideSet::Diff(a, b) => {
                a.has_truth(level) || b.has_truth(level)
            }
            WideSet::IfSet { test, yes, no } => {
                test.has_truth(level) || yes.has_truth(level) || no.has_truth(level)
            }
        }
    }
}

impl WideRel {
    /// Whether the truth variable of that level stands there.
    #[cycle(has_truth)]
    pub fn has_truth(&self, level: u32) -> bool
        ensures { result ≡ has_truth level (wide_rel self.now) }
    {
        match self {
            WideRel::True | WideRel::False => false,
            WideRel::Truth(x) => level == *x,
            WideRel::Compare { left, right, .. } => left.has_truth(level) || right.has_truth(level),
            WideRel::SameSet(a, b) | WideRel::OtherSet(a, b) | WideRel::Subset(a, b) => {
                a.has_truth(level) || b.has_truth(level)
            }
            WideRel::Divides { of, .. } => of.has_truth(level),
            WideRel::Not(p) => p.has_truth(level),
            WideRel::And(p, q)
            | WideRel::Or(p, q)
            | WideRel::Implies(p, q)
            | WideRel::Same(p, q)
            | WideRel::Other(p, q) => p.has_truth(level) || q.has_truth(level),
            WideRel::IfTruth { test, yes, no } => {
                test.has_truth(level) || yes.has_truth(level) || no.has_truth(level)
            }
            WideRel::Chain { parts, .. } => some_has_truth(parts, level),
        }
    }
}
