//! Nodes that are made of nodes.
ghost use Rattle.std.specs.Prelude.{◌≡◌, ℕ, ◌++◌, ◌∷◌, ◌<◌, [], true, length, get_or, slice_set, is_ok, if◌then◌else◌, IfOk, IfSome};
ghost use Rattle.cf_close.specs.Facts.{NeverHold};
ghost use Rattle.cf_close.specs.Problems.{Conjunction as PlainConjunction};
ghost use Rattle.cf_close.specs.Nodes.{removed, branches, with_fact, at_least_0, IsMade, IsRoot, IsWeaker, IsSplit, IsCut, IsPlace, IsBranch, HasNoBranch, IsBelow, IsOther};
ghost use Rattle.cf_close.specs.Branches.{IsNarrowed, AreParted};

use crate::fact::{Conflict, Fact, FactKind, check_conflict, fact_of, opposite};
use crate::fault::Fault;
use crate::problem::{Conjunction, Or, Problem};
use cf_linear::Row;
use std::alloc::Global;

fn copy_facts(alloc: Global, facts: &[Fact]) -> Result<Vec<Fact>, Fault>
    ensures { IfOk result (λ all. all.items ≡ facts.now) }
{
    let mut all = Vec::new(alloc);
    for fact in facts {
        push_fact(&mut all, fact.try_copy(alloc)?)?;
    }
    Ok(all)
}

fn joined_facts(alloc: Global, facts: &[Fact], more: &[Fact]) -> Result<Vec<Fact>, Fault>
    ensures { IfOk result (λ all. all.items ≡ facts.now ++ more.now) }
{
    let mut all = copy_facts(alloc, facts)?;
    for fact in more {
        push_fact(&mut all, fact.try_copy(alloc)?)?;
    }
    Ok(all)
}

fn copy_ors(alloc: Global, ors: &[Or]) -> Result<Vec<Or>, Fault>
    ensures { IfOk result (λ all. all.items ≡ ors.now) }
{
    let mut all = Vec::new(alloc);
    for or in ors {
        push_or(&mut all, or.try_copy(alloc)?)?;
    }
    Ok(all)
}

fn joined_ors(alloc: Global, ors: &[Or], more: &[Or]) -> Result<Vec<Or>, Fault>
    ensures { IfOk result (λ all. all.items ≡ ors.now ++ more.now) }
{
    let mut all = copy_ors(alloc, ors)?;
    for or in more {
        push_or(&mut all, or.try_copy(alloc)?)?;
    }
    Ok(all)
}

fn push_fact(facts: &mut Vec<Fact>, fact: Fact) -> Result<(), Fault>
    ensures { facts.new.items ≡ (if is_ok result then facts.old.items ++ fact ∷ [] else facts.old.items) }
{
    match facts.push(fact) {
        Ok(()) => Ok(()),
        Err(_) => Err(Fault::NoMemory),
    }
}

fn push_or(ors: &mut Vec<Or>, or: Or) -> Result<(), Fault>
    ensures { ors.new.items ≡ (if is_ok result then ors.old.items ++ or ∷ [] else ors.old.items) }
{
    match ors.push(or) {
        Ok(()) => Ok(()),
        Err(_) => Err(Fault::NoMemory),
    }
}

// An equal node.
fn copied(alloc: Global, node: &Conjunction) -> Result<Conjunction, Fault>
    ensures { IfOk result (λ c. IsMade node.now.facts node.now.ors c) }
{
    let facts = copy_facts(alloc, node.facts())?;
    let ors = copy_ors(alloc, node.ors())?;
    Ok(Conjunction::new(facts, ors))
}

// The node with what the other holds besides.
fn joined(alloc: Global, node: &Conjunction, more: &Conjunction) -> Result<Conjunction, Fault>
    ensures { IfOk result (λ c. IsMade (node.now.facts ++ more.now.facts) (node.now.ors ++ more.now.ors) c) }
{
    let facts = joined_facts(alloc, node.facts(), more.facts())?;
    let ors = joined_ors(alloc, node.ors(), more.ors())?;
    Ok(Conjunction::new(facts, ors))
}

/// The node of a problem with which a search of it begins.
pub(crate) fn root_of(alloc: Global, problem: &Problem) -> Result<Conjunction, Fault>
    ensures { IfOk result (λ c. IsRoot problem.now c) }
{
    match problem.conjunctions().get(problem.root() as usize) {
        Some(root) => copied(alloc, root),
        None => Err(Fault::Unfit),
    }
}

fn or_at(node: &Conjunction, or: usize) -> Option<&Or>
    ensures { IfSome result (λ o. (or < length node.now.ors) × (o.now ≡ branches or node.now)) }
{
    match node.ors().get(or) {
        Some(places) => Some(places),
        None => None,
    }
}

fn branch_at(or: &Or, branch: usize) -> Option<u32>
    ensures { IfSome result (λ i. (branch < length or.now) × (i ≡ get_or or.now branch 0)) }
{
    match or.branches().get(branch) {
        Some(place) => Some(*place),
        None => None,
    }
}

fn place_of(node: &Conjunction, or: usize, branch: usize) -> Option<u32>
    ensures { IfSome result (λ i. IsPlace node.now or branch i) }
{
    match or_at(node, or) {
        Some(places) => branch_at(places, branch),
        None => None,
    }
}

// The conjunction of a branch.
fn branch_of<'a>(
    problem: &'a Problem,
    node: &Conjunction,
    or: usize,
    branch: usize,
) -> Option<&'a Conjunction>
    ensures { IfSome result (λ c. IsBranch problem.now node.now or branch c.now) }
{
    match place_of(node, or, branch) {
        Some(place) => conjunction_at(problem, place),
        None => None,
    }
}

// The conjunction at the place of a branch, whichever.
fn conjunction_at(problem: &Problem, place: u32) -> Option<&Conjunction>
    ensures { (node : PlainConjunction) (o k : ℕ) → IsPlace node o k place → IfSome result (λ c. IsBranch problem.now node o k c.now) }
{
    match problem.conjunctions().get(place as usize) {
        Some(conjunction) => Some(conjunction),
        None => None,
    }
}

/// Whether the or has no branches.
pub(crate) fn has_no_branch(node: &Conjunction, or: usize) -> bool
    ensures { result ≡ true → HasNoBranch node.now or }
{
    match or_at(node, or) {
        Some(places) => places.branches().len() == 0,
        None => false,
    }
}

fn has_one_branch(node: &Conjunction, or: usize) -> bool
    ensures { result ≡ true → length (branches or node.now) ≡ 1 }
{
    match or_at(node, or) {
        Some(places) => places.branches().len() == 1,
        None => false,
    }
}

// The node in which the or gives way to a branch of it.
fn taken(
    alloc: Global,
    node: &Conjunction,
    or: usize,
    branch: &Conjunction,
) -> Result<Conjunction, Fault>
    ensures { IfOk result (λ c. IsMade (node.now.facts ++ branch.now.facts) (removed or node.now.ors ++ branch.now.ors) c) }
{
    let mut rest = copied(alloc, node)?;
    rest.remove_or(or)?;
    let all = joined(alloc, &rest, branch)?;
    Ok(all)
}

// The node in which the or lacks a branch.
fn narrowed(
    alloc: Global,
    node: &Conjunction,
    or: usize,
    branch: usize,
) -> Result<Conjunction, Fault>
    ensures { IfOk result (λ c. IsMade node.now.facts (slice_set node.now.ors or (removed branch (branches or node.now))) c) }
{
    match or_at(node, or) {
        Some(places) => with_fewer(alloc, node, or, places, branch),
        None => Err(Fault::Unfit),
    }
}

fn with_fewer(
    alloc: Global,
    node: &Conjunction,
    or: usize,
    places: &Or,
    branch: usize,
) -> Result<Conjunction, Fault>
    ensures { IfOk result (λ c. IsMade node.now.facts (slice_set node.now.ors or (removed branch places.now)) c) }
{
    let mut fewer = places.try_copy(alloc)?;
    fewer.remove(branch)?;
    let mut rest = copied(alloc, node)?;
    rest.set_or(or, fewer)?;
    Ok(rest)
}

/// The node in which an or lacks a branch that is in conflict with the facts of the node.
pub(crate) fn without_branch(
    alloc: Global,
    problem: &Problem,
    node: &Conjunction,
    or: usize,
    branch: usize,
    conflict: &Conflict,
) -> Result<Conjunction, Fault>
    ensures { IfOk result (λ c. IsWeaker problem.now node.now c) }
{
    match branch_of(problem, node, or, branch) {
        Some(fails) => with_conflict(alloc, node, or, branch, fails, conflict),
        None => Err(Fault::Unfit),
    }
}

fn with_conflict(
    alloc: Global,
    node: &Conjunction,
    or: usize,
    branch: usize,
    fails: &Conjunction,
    conflict: &Conflict,
) -> Result<Conjunction, Fault>
    ensures { IfOk result (λ c. IsNarrowed node.now or branch fails.now c) }
{
    check_branch(alloc, node.facts(), fails, conflict)?;
    let rest = narrowed(alloc, node, or, branch)?;
    Ok(rest)
}

// Unfit unless the facts and those of the branch are in conflict.
fn check_branch(
    alloc: Global,
    facts: &[Fact],
    branch: &Conjunction,
    conflict: &Conflict,
) -> Result<(), Fault>
    ensures { IfOk result (λ _. NeverHold facts.now branch.now.facts) }
{
    check_conflict(alloc, facts, branch.facts(), conflict)
}

/// The node in which an or of one branch gives way to it.
pub(crate) fn with_only_branch(
    alloc: Global,
    problem: &Problem,
    node: &Conjunction,
    or: usize,
) -> Result<Conjunction, Fault>
    ensures { IfOk result (λ c. IsWeaker problem.now node.now c) }
{
    if !has_one_branch(node, or) {
        return Err(Fault::Unfit);
    }
    match branch_of(problem, node, or, 0) {
        Some(only) => taken(alloc, node, or, only),
        None => Err(Fault::Unfit),
    }
}

/// Two nodes. Each solution that holds at the node that was split holds at one of them.
#[derive(Drop)]
pub(crate) struct Split {
    pub first: Conjunction,
    pub second: Conjunction,
}

/// The node where a branch of an or holds, and the node where another one does.
pub(crate) fn split_or(
    alloc: Global,
    problem: &Problem,
    node: &Conjunction,
    or: usize,
    branch: usize,
) -> Result<Split, Fault>
    ensures { IfOk result (λ s. IsSplit problem.now node.now s.first s.second) }
{
    match branch_of(problem, node, or, branch) {
        Some(holds) => split_by(alloc, node, or, branch, holds),
        None => Err(Fault::Unfit),
    }
}

fn split_by(
    alloc: Global,
    node: &Conjunction,
    or: usize,
    branch: usize,
    holds: &Conjunction,
) -> Result<Split, Fault>
    ensures { IfOk result (λ s. AreParted node.now or branch holds.now s.first s.second) }
{
    let first = taken(alloc, node, or, holds)?;
    let second = others(alloc, node, or, branch, holds)?;
    Ok(Split { first, second })
}

// The node in which the or lacks the branch, which fails if it is one inequality.
fn others(
    alloc: Global,
    node: &Conjunction,
    or: usize,
    branch: usize,
    holds: &Conjunction,
) -> Result<Conjunction, Fault>
    ensures { IfOk result (λ c. IsOther holds.now node.now or branch c) }
{
    let rest = narrowed(alloc, node, or, branch)?;
    match holds.only() {
        Some(row) => with_opposite(alloc, rest, row),
        None => Ok(rest),
    }
}

// The node with `-row - 1 >= 0` besides.
fn with_opposite(alloc: Global, node: Conjunction, row: &Row) -> Result<Conjunction, Fault>
    ensures { IfOk result (λ c. IsBelow row.now node c) }
{
    let fact = opposite(alloc, row)?;
    let mut below = node;
    below.push_fact(fact)?;
    Ok(below)
}

// The node with `row >= 0` besides.
fn with_row(alloc: Global, node: Conjunction, row: &Row) -> Result<Conjunction, Fault>
    ensures { IfOk result (λ c. c ≡ with_fact (at_least_0 row.now) node) }
{
    let copy = row.try_copy(alloc)?;
    let mut above = node;
    above.push_fact(fact_of(FactKind::Inequality, copy))?;
    Ok(above)
}

/// The node where the row is at least 0, and the node where it is below.
pub(crate) fn split_row(alloc: Global, node: &Conjunction, row: &Row) -> Result<Split, Fault>
    ensures { IfOk result (λ s. IsCut node.now s.first s.second) }
{
    let one = copied(alloc, node)?;
    let first = with_row(alloc, one, row)?;
    let two = copied(alloc, node)?;
    let second = with_opposite(alloc, two, row)?;
    Ok(Split { first, second })
}
