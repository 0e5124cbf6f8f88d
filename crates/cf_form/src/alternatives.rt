//! What number forms and set forms may be, each alternative behind its guards.
ghost use Rattle.std.specs.Prelude.{◌≡◌, true, IfOk, map};
ghost use Rattle.cf_tree.specs.RelView.{rel_tree};
ghost use Rattle.cf_form.specs.Alternatives.{alone};
ghost use Rattle.cf_form.specs.Atoms.{plain_set as plain_set_of, plain_term as plain_term_of};
ghost use Rattle.cf_form.specs.Branches.{values_in};
ghost use Rattle.cf_form.specs.GuardedView.{guarded_set, guarded_term, guarded_terms};
ghost use Rattle.cf_form.specs.Polarity.{alternatives as alternatives_of, all_alternatives as all_alternatives_of, set_alternatives as set_alternatives_of, holding as held, failing as failed};
ghost use Rattle.cf_form.specs.ToldView.{truth_at};
ghost use Rattle.cf_form.specs.Wide.{is_plain_set, is_plain_term};
ghost use Rattle.cf_form.specs.WideView.{wide_term, wide_terms, wide_set_of, wide_rel};

use crate::best::best_of;
use crate::guarded::{
    GuardedSet, GuardedTerm, Tested, alone_set, alone_term, cards, either_set, either_term,
    over_terms, over_two_sets, over_two_terms,
};
use crate::polarity::{failing, holding};
use crate::told::TruthAt;
use crate::wide::{Room, WideRel, WideSet, WideTerm};
use cf_tree::{NoMemory, Order, without};
use std::alloc::Global;

/// The alternatives of a number form, where truth variables of the scope have these values.
#[cycle(polarity)]
#[tactic(auto, using(crate::proofs::PlainLaws::one_term))]
pub(crate) fn alternatives(
    alloc: Global,
    room: &mut Room,
    truths: &[TruthAt],
    term: &WideTerm,
) -> Result<Vec<GuardedTerm>, NoMemory>
    ensures { IfOk result (λ xs. map guarded_term xs.items ≡ alternatives_of (values_in (map truth_at truths.now)) (wide_term term.now)) }
{
    if term.is_plain() {
        return plain_term(alloc, room, term);
    }
    match term {
        WideTerm::Lit(_) | WideTerm::Var(_) => plain_term(alloc, room, term),
        WideTerm::Card(s) => cards(alloc, set_alternatives(alloc, room, truths, s)?),
        WideTerm::Neg(a) | WideTerm::Div(a, _) | WideTerm::Mod(a, _) | WideTerm::Abs(a) => {
            Ok(over_terms(alloc, term, alternatives(alloc, room, truths, a)?)?)
        }
        WideTerm::Add(a, b) | WideTerm::Sub(a, b) | WideTerm::Mul(a, b) => {
            let xs = alternatives(alloc, room, truths, a)?;
            match alternatives(alloc, room, truths, b) {
                Ok(ys) => Ok(over_two_terms(alloc, room, term, &xs, &ys)?),
                Err(fault) => Err(without(xs, fault)),
            }
        }
        WideTerm::If { test, yes, no } => {
            let test = tested(alloc, room, truths, test)?;
            let yes = alternatives(alloc, room, truths, yes)?;
            match alternatives(alloc, room, truths, no) {
                Ok(no) => either_term(alloc, room, &test, yes, no),
                Err(fault) => Err(without(yes, fault)),
            }
        }
        WideTerm::Min(parts) => {
            let parts = all_alternatives(alloc, room, truths, parts)?;
            best_of(alloc, room, Order::Le, Order::Gt, parts)
        }
        WideTerm::Max(parts) => {
            let parts = all_alternatives(alloc, room, truths, parts)?;
            best_of(alloc, room, Order::Ge, Order::Lt, parts)
        }
    }
}

/// Those of each of some number forms.
#[cycle(polarity)]
pub(crate) fn all_alternatives(
    alloc: Global,
    room: &mut Room,
    truths: &[TruthAt],
    terms: &[WideTerm],
) -> Result<Vec<Vec<GuardedTerm>>, NoMemory>
    ensures { IfOk result (λ all. map guarded_terms all.items ≡ all_alternatives_of (values_in (map truth_at truths.now)) (wide_terms terms.now)) }
{
    let mut all = Vec::new(alloc);
    for term in terms {
        all.push(alternatives(alloc, room, truths, term)?)?;
    }
    Ok(all)
}

/// Those of a set form.
#[cycle(polarity)]
#[tactic(auto, using(crate::proofs::PlainLaws::one_set))]
pub(crate) fn set_alternatives(
    alloc: Global,
    room: &mut Room,
    truths: &[TruthAt],
    set: &WideSet,
) -> Result<Vec<GuardedSet>, NoMemory>
    ensures { IfOk result (λ xs. map guarded_set xs.items ≡ set_alternatives_of (values_in (map truth_at truths.now)) (wide_set_of set.now)) }
{
    if set.is_plain() {
        return plain_set(alloc, room, set);
    }
    match set {
        WideSet::Empty | WideSet::SetVar(_) => plain_set(alloc, room, set),
        WideSet::Union(a, b) | WideSet::Inter(a, b) | WideSet::Diff(a, b) => {
            let xs = set_alternatives(alloc, room, truths, a)?;
            match set_alternatives(alloc, room, truths, b) {
                Ok(ys) => Ok(over_two_sets(alloc, room, set, &xs, &ys)?),
                Err(fault) => Err(without(xs, fault)),
            }
        }
        WideSet::IfSet { test, yes, no } => {
            let test = tested(alloc, room, truths, test)?;
            let yes = set_alternatives(alloc, room, truths, yes)?;
            match set_alternatives(alloc, room, truths, no) {
                Ok(no) => either_set(alloc, room, &test, yes, no),
                Err(fault) => Err(without(yes, fault)),
            }
        }
    }
}

#[cycle(polarity)]
fn tested(
    alloc: Global,
    room: &mut Room,
    truths: &[TruthAt],
    test: &WideRel,
) -> Result<Tested, NoMemory>
    ensures { IfOk result (λ t. (rel_tree t.holds.value ≡ held (values_in (map truth_at truths.now)) (wide_rel test.now))
        × (rel_tree t.fails.value ≡ failed (values_in (map truth_at truths.now)) (wide_rel test.now))) }
{
    let holds = holding(alloc, room, truths, test)?;
    match failing(alloc, room, truths, test) {
        Ok(fails) => Ok(Tested { holds, fails }),
        Err(fault) => Err(without(holds, fault)),
    }
}

fn plain_term(alloc: Global, room: &mut Room, term: &WideTerm) -> Result<Vec<GuardedTerm>, NoMemory>
    requires { is_plain_term (wide_term term.now) ≡ true }
    ensures { IfOk result (λ xs. map guarded_term xs.items ≡ alone (plain_term_of (wide_term term.now))) }
{
    alone_term(alloc, term.plain(alloc, room)?)
}

fn plain_set(alloc: Global, room: &mut Room, set: &WideSet) -> Result<Vec<GuardedSet>, NoMemory>
    requires { is_plain_set (wide_set_of set.now) ≡ true }
    ensures { IfOk result (λ xs. map guarded_set xs.items ≡ alone (plain_set_of (wide_set_of set.now))) }
{
    alone_set(alloc, set.plain(alloc, room)?)
}
