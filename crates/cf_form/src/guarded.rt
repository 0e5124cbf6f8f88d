//! Alternatives: forms behind guards, which are relations that hold exactly where the form stands.
ghost use Rattle.std.specs.Prelude.{◌≡◌, ◌++◌, IfOk, map};
ghost use Rattle.cf_tree.specs.RelTree.{term_card};
ghost use Rattle.cf_tree.specs.RelView.{set_tree, term_tree, rel_tree};
ghost use Rattle.cf_form.specs.Alternatives.{alone, over_one, over_two, behind};
ghost use Rattle.cf_form.specs.Atoms.{set_over_two, term_over_one, term_over_two};
ghost use Rattle.cf_form.specs.GuardedView.{guarded_set, guarded_term, with_form, with_guard, pair_of};
ghost use Rattle.cf_form.specs.WideView.{wide_term, wide_set_of};

use crate::copies::{behind_copy, copy_both, copy_set, copy_term};
use crate::wide::{Room, WideSet, WideTerm};
use cf_tree::{NoMemory, Rel, SetTerm, Term, without};
use std::alloc::Global;

/// A number form that stands where all of the guards hold.
#[derive(Drop)]
pub(crate) struct GuardedTerm {
    pub guards: Vec<Rel>,
    pub form: Box<Term>,
}

/// A set form that stands where all of the guards hold.
#[derive(Drop)]
pub(crate) struct GuardedSet {
    pub guards: Vec<Rel>,
    pub form: Box<SetTerm>,
}

/// A test: where it holds, and where it fails.
#[derive(Drop)]
pub(crate) struct Tested {
    pub holds: Box<Rel>,
    pub fails: Box<Rel>,
}

// ---- number forms

pub(crate) fn alone_term(alloc: Global, form: Box<Term>) -> Result<Vec<GuardedTerm>, NoMemory>
    ensures { IfOk result (λ xs. map guarded_term xs.items ≡ alone (term_tree form.value)) }
{
    let guards = Vec::new(alloc);
    let mut all = Vec::new(alloc);
    all.push(GuardedTerm { guards, form })?;
    Ok(all)
}

/// The same form of each part.
pub(crate) fn over_terms(
    alloc: Global,
    term: &WideTerm,
    parts: Vec<GuardedTerm>,
) -> Result<Vec<GuardedTerm>, NoMemory>
    ensures { IfOk result (λ xs. map guarded_term xs.items ≡ over_one (term_over_one (wide_term term.now)) (map guarded_term parts.items)) }
{
    let mut left = parts;
    left.reverse();
    let mut all = Vec::new(alloc);
    while let Some(part) = left.pop() {
        all.push(over_term(alloc, term, part)?)?;
    }
    Ok(all)
}

fn over_term(alloc: Global, term: &WideTerm, part: GuardedTerm) -> Result<GuardedTerm, NoMemory>
    ensures { IfOk result (λ x. guarded_term x ≡ with_form (term_over_one (wide_term term.now)) (guarded_term part)) }
{
    let GuardedTerm { guards, form } = part;
    match Box::new(alloc, term.plain_over_one(form)) {
        Ok(form) => Ok(GuardedTerm { guards, form }),
        Err(_) => Err(without(guards, NoMemory)),
    }
}

/// How many elements each set has.
pub(crate) fn cards(alloc: Global, parts: Vec<GuardedSet>) -> Result<Vec<GuardedTerm>, NoMemory>
    ensures { IfOk result (λ xs. map guarded_term xs.items ≡ over_one term_card (map guarded_set parts.items)) }
{
    let mut left = parts;
    left.reverse();
    let mut all = Vec::new(alloc);
    while let Some(part) = left.pop() {
        all.push(card(alloc, part)?)?;
    }
    Ok(all)
}

fn card(alloc: Global, part: GuardedSet) -> Result<GuardedTerm, NoMemory>
    ensures { IfOk result (λ x. guarded_term x ≡ with_form term_card (guarded_set part)) }
{
    let GuardedSet { guards, form } = part;
    match Box::new(alloc, Term::Card(form)) {
        Ok(form) => Ok(GuardedTerm { guards, form }),
        Err(_) => Err(without(guards, NoMemory)),
    }
}

/// The same form of each of the first with each of the second.
pub(crate) fn over_two_terms(
    alloc: Global,
    room: &mut Room,
    term: &WideTerm,
    xs: &[GuardedTerm],
    ys: &[GuardedTerm],
) -> Result<Vec<GuardedTerm>, NoMemory>
    ensures { IfOk result (λ zs. map guarded_term zs.items ≡ over_two (term_over_two (wide_term term.now)) (map guarded_term xs.now) (map guarded_term ys.now)) }
{
    let mut all = Vec::new(alloc);
    let mut rest = xs;
    while let Some((x, more)) = rest.split_first() {
        let mut pairs = term_pairs(alloc, room, term, x, ys)?;
        all.append(&mut pairs)?;
        rest = more;
    }
    Ok(all)
}

fn term_pairs(
    alloc: Global,
    room: &mut Room,
    term: &WideTerm,
    x: &GuardedTerm,
    ys: &[GuardedTerm],
) -> Result<Vec<GuardedTerm>, NoMemory>
    ensures { IfOk result (λ zs. map guarded_term zs.items ≡ map (pair_of (term_over_two (wide_term term.now)) (guarded_term x.now)) (map guarded_term ys.now)) }
{
    let mut all = Vec::new(alloc);
    let mut rest = ys;
    while let Some((y, more)) = rest.split_first() {
        all.push(term_pair(alloc, room, term, x, y)?)?;
        rest = more;
    }
    Ok(all)
}

fn term_pair(
    alloc: Global,
    room: &mut Room,
    term: &WideTerm,
    x: &GuardedTerm,
    y: &GuardedTerm,
) -> Result<GuardedTerm, NoMemory>
    ensures { IfOk result (λ z. guarded_term z ≡ pair_of (term_over_two (wide_term term.now)) (guarded_term x.now) (guarded_term y.now)) }
{
    let form = term_of_two(alloc, room, term, &x.form, &y.form)?;
    match copy_both(alloc, room, &x.guards, &y.guards) {
        Ok(guards) => Ok(GuardedTerm { guards, form }),
        Err(fault) => Err(without(form, fault)),
    }
}

fn term_of_two(
    alloc: Global,
    room: &mut Room,
    term: &WideTerm,
    x: &Term,
    y: &Term,
) -> Result<Box<Term>, NoMemory>
    ensures { IfOk result (λ t. term_tree t.value ≡ term_over_two (wide_term term.now) (term_tree x.now) (term_tree y.now)) }
{
    let first = copy_term(alloc, room, x)?;
    match copy_term(alloc, room, y) {
        Ok(second) => Ok(Box::new(alloc, term.plain_over_two(first, second))?),
        Err(fault) => Err(without(first, fault)),
    }
}

/// The alternatives of the first where the test holds, and of the second where it fails.
pub(crate) fn either_term(
    alloc: Global,
    room: &mut Room,
    test: &Tested,
    yes: Vec<GuardedTerm>,
    no: Vec<GuardedTerm>,
) -> Result<Vec<GuardedTerm>, NoMemory>
    ensures { IfOk result (λ xs. map guarded_term xs.items ≡
        behind (rel_tree test.now.holds.value) (map guarded_term yes.items) ++ behind (rel_tree test.now.fails.value) (map guarded_term no.items)) }
{
    match terms_behind(alloc, room, &test.holds, yes) {
        Ok(mut all) => match terms_behind(alloc, room, &test.fails, no) {
            Ok(mut more) => {
                all.append(&mut more)?;
                Ok(all)
            }
            Err(fault) => Err(without(all, fault)),
        },
        Err(fault) => Err(without(no, fault)),
    }
}

fn terms_behind(
    alloc: Global,
    room: &mut Room,
    guard: &Rel,
    parts: Vec<GuardedTerm>,
) -> Result<Vec<GuardedTerm>, NoMemory>
    ensures { IfOk result (λ xs. map guarded_term xs.items ≡ behind (rel_tree guard.now) (map guarded_term parts.items)) }
{
    let mut left = parts;
    left.reverse();
    let mut all = Vec::new(alloc);
    while let Some(part) = left.pop() {
        all.push(term_behind(alloc, room, guard, part)?)?;
    }
    Ok(all)
}

fn term_behind(
    alloc: Global,
    room: &mut Room,
    guard: &Rel,
    part: GuardedTerm,
) -> Result<GuardedTerm, NoMemory>
    ensures { IfOk result (λ x. guarded_term x ≡ with_guard (rel_tree guard.now) (guarded_term part)) }
{
    let GuardedTerm { guards, form } = part;
    match behind_copy(alloc, room, guard, guards) {
        Ok(guards) => Ok(GuardedTerm { guards, form }),
        Err(fault) => Err(without(form, fault)),
    }
}

// ---- set forms

pub(crate) fn alone_set(alloc: Global, form: Box<SetTerm>) -> Result<Vec<GuardedSet>, NoMemory>
    ensures { IfOk result (λ xs. map guarded_set xs.items ≡ alone (set_tree form.value)) }
{
    let guards = Vec::new(alloc);
    let mut all = Vec::new(alloc);
    all.push(GuardedSet { guards, form })?;
    Ok(all)
}

/// The same form of each of the first with each of the second.
pub(crate) fn over_two_sets(
    alloc: Global,
    room: &mut Room,
    set: &WideSet,
    xs: &[GuardedSet],
    ys: &[GuardedSet],
) -> Result<Vec<GuardedSet>, NoMemory>
    ensures { IfOk result (λ zs. map guarded_set zs.items ≡ over_two (set_over_two (wide_set_of set.now)) (map guarded_set xs.now) (map guarded_set ys.now)) }
{
    let mut all = Vec::new(alloc);
    let mut rest = xs;
    while let Some((x, more)) = rest.split_first() {
        let mut pairs = set_pairs(alloc, room, set, x, ys)?;
        all.append(&mut pairs)?;
        rest = more;
    }
    Ok(all)
}

fn set_pairs(
    alloc: Global,
    room: &mut Room,
    set: &WideSet,
    x: &GuardedSet,
    ys: &[GuardedSet],
) -> Result<Vec<GuardedSet>, NoMemory>
    ensures { IfOk result (λ zs. map guarded_set zs.items ≡ map (pair_of (set_over_two (wide_set_of set.now)) (guarded_set x.now)) (map guarded_set ys.now)) }
{
    let mut all = Vec::new(alloc);
    let mut rest = ys;
    while let Some((y, more)) = rest.split_first() {
        all.push(set_pair(alloc, room, set, x, y)?)?;
        rest = more;
    }
    Ok(all)
}

fn set_pair(
    alloc: Global,
    room: &mut Room,
    set: &WideSet,
    x: &GuardedSet,
    y: &GuardedSet,
) -> Result<GuardedSet, NoMemory>
    ensures { IfOk result (λ z. guarded_set z ≡ pair_of (set_over_two (wide_set_of set.now)) (guarded_set x.now) (guarded_set y.now)) }
{
    let form = set_of_two(alloc, room, set, &x.form, &y.form)?;
    match copy_both(alloc, room, &x.guards, &y.guards) {
        Ok(guards) => Ok(GuardedSet { guards, form }),
        Err(fault) => Err(without(form, fault)),
    }
}

fn set_of_two(
    alloc: Global,
    room: &mut Room,
    set: &WideSet,
    x: &SetTerm,
    y: &SetTerm,
) -> Result<Box<SetTerm>, NoMemory>
    ensures { IfOk result (λ s. set_tree s.value ≡ set_over_two (wide_set_of set.now) (set_tree x.now) (set_tree y.now)) }
{
    let first = copy_set(alloc, room, x)?;
    match copy_set(alloc, room, y) {
        Ok(second) => Ok(Box::new(alloc, set.plain_over_two(first, second))?),
        Err(fault) => Err(without(first, fault)),
    }
}

/// The alternatives of the first where the test holds, and of the second where it fails.
pub(crate) fn either_set(
    alloc: Global,
    room: &mut Room,
    test: &Tested,
    yes: Vec<GuardedSet>,
    no: Vec<GuardedSet>,
) -> Result<Vec<GuardedSet>, NoMemory>
    ensures { IfOk result (λ xs. map guarded_set xs.items ≡
        behind (rel_tree test.now.holds.value) (map guarded_set yes.items) ++ behind (rel_tree test.now.fails.value) (map guarded_set no.items)) }
{
    match sets_behind(alloc, room, &test.holds, yes) {
        Ok(mut all) => match sets_behind(alloc, room, &test.fails, no) {
            Ok(mut more) => {
                all.append(&mut more)?;
                Ok(all)
            }
            Err(fault) => Err(without(all, fault)),
        },
        Err(fault) => Err(without(no, fault)),
    }
}

fn sets_behind(
    alloc: Global,
    room: &mut Room,
    guard: &Rel,
    parts: Vec<GuardedSet>,
) -> Result<Vec<GuardedSet>, NoMemory>
    ensures { IfOk result (λ xs. map guarded_set xs.items ≡ behind (rel_tree guard.now) (map guarded_set parts.items)) }
{
    let mut left = parts;
    left.reverse();
    let mut all = Vec::new(alloc);
    while let Some(part) = left.pop() {
        all.push(set_behind(alloc, room, guard, part)?)?;
    }
    Ok(all)
}

fn set_behind(
    alloc: Global,
    room: &mut Room,
    guard: &Rel,
    part: GuardedSet,
) -> Result<GuardedSet, NoMemory>
    ensures { IfOk result (λ x. guarded_set x ≡ with_guard (rel_tree guard.now) (guarded_set part)) }
{
    let GuardedSet { guards, form } = part;
    match behind_copy(alloc, room, guard, guards) {
        Ok(guards) => Ok(GuardedSet { guards, form }),
        Err(fault) => Err(without(form, fault)),
    }
}
