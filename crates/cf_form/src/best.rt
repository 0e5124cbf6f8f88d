//! The alternatives of the least or the greatest of some number forms.
ghost use Rattle.std.specs.Prelude.{◌≡◌, ◌++◌, ◌∷◌, [], IfOk, map, reverse};
ghost use Rattle.cf_tree.specs.RelTree.{rel_compare};
ghost use Rattle.cf_tree.specs.RelView.{term_tree, rel_tree};
ghost use Rattle.cf_form.specs.Alternatives.{one_of as one_of_two, one_of_each as each_of_two, best_of_two as best_of_both, best_behind as best_with, best_of as best_of_all};
ghost use Rattle.cf_form.specs.GuardedView.{guarded_term, guarded_terms};

use crate::copies::{copy_both, copy_compared, copy_term, with_last};
use crate::guarded::GuardedTerm;
use crate::wide::Room;
use cf_tree::{NoMemory, Order, Rel, Term, without};
use std::alloc::Global;

/// The best of all parts: of two of them the first where `first` holds of both, and the second where
/// `other` does.
#[tactic(auto, using(crate::proofs::AlternativeSteps::best_taken))]
pub(crate) fn best_of(
    alloc: Global,
    room: &mut Room,
    first: Order,
    other: Order,
    parts: Vec<Vec<GuardedTerm>>,
) -> Result<Vec<GuardedTerm>, NoMemory>
    ensures { IfOk result (λ xs. map guarded_term xs.items ≡ best_of_all first other (map guarded_terms parts.items)) }
{
    let mut left = parts;
    left.reverse();
    match left.pop() {
        Some(part) => best_behind(alloc, room, first, other, part, left),
        None => Ok(Vec::new(alloc)),
    }
}

// The best of a part and of others, of which the last stands first.
fn best_behind(
    alloc: Global,
    room: &mut Room,
    first: Order,
    other: Order,
    part: Vec<GuardedTerm>,
    others: Vec<Vec<GuardedTerm>>,
) -> Result<Vec<GuardedTerm>, NoMemory>
    ensures { IfOk result (λ xs. map guarded_term xs.items ≡ best_with first other (map guarded_term part.items) (map guarded_terms (reverse others.items))) }
{
    let mut best = part;
    let mut left = others;
    while let Some(next) = left.pop() {
        best = best_of_two(alloc, room, first, other, &best, &next)?;
    }
    Ok(best)
}

fn best_of_two(
    alloc: Global,
    room: &mut Room,
    first: Order,
    other: Order,
    xs: &[GuardedTerm],
    ys: &[GuardedTerm],
) -> Result<Vec<GuardedTerm>, NoMemory>
    ensures { IfOk result (λ zs. map guarded_term zs.items ≡ best_of_both first other (map guarded_term xs.now) (map guarded_term ys.now)) }
{
    let mut all = Vec::new(alloc);
    let mut rest = xs;
    while let Some((x, more)) = rest.split_first() {
        let mut some = one_of_each(alloc, room, first, other, x, ys)?;
        all.append(&mut some)?;
        rest = more;
    }
    Ok(all)
}

fn one_of_each(
    alloc: Global,
    room: &mut Room,
    first: Order,
    other: Order,
    x: &GuardedTerm,
    ys: &[GuardedTerm],
) -> Result<Vec<GuardedTerm>, NoMemory>
    ensures { IfOk result (λ zs. map guarded_term zs.items ≡ each_of_two first other (guarded_term x.now) (map guarded_term ys.now)) }
{
    let mut all = Vec::new(alloc);
    let mut rest = ys;
    while let Some((y, more)) = rest.split_first() {
        let mut some = one_of(alloc, room, first, other, x, y)?;
        all.append(&mut some)?;
        rest = more;
    }
    Ok(all)
}

fn one_of(
    alloc: Global,
    room: &mut Room,
    first: Order,
    other: Order,
    x: &GuardedTerm,
    y: &GuardedTerm,
) -> Result<Vec<GuardedTerm>, NoMemory>
    ensures { IfOk result (λ zs. map guarded_term zs.items ≡ one_of_two first other (guarded_term x.now) (guarded_term y.now)) }
{
    let yes = chosen(alloc, room, first, x, y, &x.form)?;
    match chosen(alloc, room, other, x, y, &y.form) {
        Ok(no) => two(alloc, yes, no),
        Err(fault) => Err(without(yes, fault)),
    }
}

fn two(alloc: Global, a: GuardedTerm, b: GuardedTerm) -> Result<Vec<GuardedTerm>, NoMemory>
    ensures { IfOk result (λ zs. zs.items ≡ a ∷ b ∷ []) }
{
    let mut all = Vec::new(alloc);
    match all.push(a) {
        Ok(()) => {
            all.push(b)?;
            Ok(all)
        }
        Err(_) => Err(without(b, NoMemory)),
    }
}

// A form that stands where the forms of the two compare so.
fn chosen(
    alloc: Global,
    room: &mut Room,
    order: Order,
    x: &GuardedTerm,
    y: &GuardedTerm,
    form: &Term,
) -> Result<GuardedTerm, NoMemory>
    ensures { IfOk result (λ z. guarded_term z ≡ record {
      guards = (guarded_term x.now).guards ++ (guarded_term y.now).guards ++ rel_compare order (guarded_term x.now).form (guarded_term y.now).form ∷ [];
      form = term_tree form.now;
    }) }
{
    let form = copy_term(alloc, room, form)?;
    match guards_with(alloc, room, order, x, y) {
        Ok(guards) => Ok(GuardedTerm { guards, form }),
        Err(fault) => Err(without(form, fault)),
    }
}

fn guards_with(
    alloc: Global,
    room: &mut Room,
    order: Order,
    x: &GuardedTerm,
    y: &GuardedTerm,
) -> Result<Vec<Rel>, NoMemory>
    ensures { IfOk result (λ rs. map rel_tree rs.items ≡
        (guarded_term x.now).guards ++ (guarded_term y.now).guards ++ rel_compare order (guarded_term x.now).form (guarded_term y.now).form ∷ []) }
{
    let guards = copy_both(alloc, room, &x.guards, &y.guards)?;
    match copy_compared(alloc, room, order, &x.form, &y.form) {
        Ok(last) => with_last(guards, last),
        Err(fault) => Err(without(guards, fault)),
    }
}
