//! The `and` and the `or` of formulas, in normal form.
ghost use Rattle.std.specs.Prelude.{◌≡◌, ◌++◌, ◌∷◌, [], map, filter, not, IfOk, OnOk};
ghost use Rattle.std.specs.List.{list_any, flat_map};
ghost use Rattle.cf_formula.specs.Formulas.{never};
ghost use Rattle.cf_formula.specs.FormulaView.{formula_tree, formula_trees, IsSplit};
ghost use Rattle.cf_formula.specs.Members.{is_among, conjuncts, is_needless_or, and_of, conj};
ghost use Rattle.cf_formula.specs.Members.{disjuncts, is_needless_and, is_covered, or_of, disj};

use crate::formula::Formula;
use crate::lists::{all_of, any_of, distinct, is_among, unmarked};
use crate::opposites::has_opposites;
use cf_tree::NoMemory;
use std::alloc::Global;

/// The `and` of the formulas: flat, each member once, and without an `or` that has a member in common with it.
///
/// # Errors
/// `NoMemory` where memory ran out.
pub fn conj(alloc: Global, parts: Vec<Formula>) -> Result<Formula, NoMemory>
    ensures { IfOk result (λ f. formula_tree f ≡ conj (formula_trees parts.items)) }
{
    let members = all_conjuncts(alloc, parts)?;
    let members = distinct(alloc, members)?;
    and_of(alloc, members)
}

/// The `or` of the formulas: flat, each member once, and without an `and` that has a member in common with it.
/// Where two members hold everywhere together, it always holds.
///
/// # Errors
/// `NoMemory` where memory ran out.
pub fn disj(alloc: Global, parts: Vec<Formula>) -> Result<Formula, NoMemory>
    ensures { IfOk result (λ f. formula_tree f ≡ disj (formula_trees parts.items)) }
{
    let members = all_disjuncts(alloc, parts)?;
    let members = distinct(alloc, members)?;
    or_of(alloc, members)
}

/// The members of the formula as an `or`.
///
/// # Errors
/// `NoMemory` where memory ran out.
pub fn disjuncts(alloc: Global, formula: Formula) -> Result<Vec<Formula>, NoMemory>
    ensures { IfOk result (λ v. formula_trees v.items ≡ disjuncts (formula_tree formula)) }
{
    let mut parts = Vec::new(alloc);
    parts.push(formula)?;
    let members = all_disjuncts(alloc, parts)?;
    Ok(members)
}

fn and_of(alloc: Global, members: Vec<Formula>) -> Result<Formula, NoMemory>
    ensures { IfOk result (λ f. formula_tree f ≡ and_of (formula_trees members.items)) }
{
    if has_never(&members) {
        return Ok(Formula::Never);
    }
    let needed = without_needless_ors(alloc, members)?;
    let all = all_of(alloc, needed)?;
    Ok(all)
}

fn or_of(alloc: Global, members: Vec<Formula>) -> Result<Formula, NoMemory>
    ensures { IfOk result (λ f. formula_tree f ≡ or_of (formula_trees members.items)) }
{
    if is_covered(alloc, &members)? {
        return Ok(Formula::Always);
    }
    let needed = without_needless_ands(alloc, members)?;
    let any = any_of(alloc, needed)?;
    Ok(any)
}

// The members but for each `or` with a member among them.
fn without_needless_ors(alloc: Global, members: Vec<Formula>) -> Result<Vec<Formula>, NoMemory>
    ensures { IfOk result (λ v. formula_trees v.items ≡ filter (λ f. not (is_needless_or (formula_trees members.items) f)) (formula_trees members.items)) }
{
    let needless = needless_ors(alloc, &members)?;
    let needed = unmarked(alloc, members, &needless)?;
    Ok(needed)
}

// The members but for each `and` with a member among them.
fn without_needless_ands(alloc: Global, members: Vec<Formula>) -> Result<Vec<Formula>, NoMemory>
    ensures { IfOk result (λ v. formula_trees v.items ≡ filter (λ f. not (is_needless_and (formula_trees members.items) f)) (formula_trees members.items)) }
{
    let needless = needless_ands(alloc, &members)?;
    let needed = unmarked(alloc, members, &needless)?;
    Ok(needed)
}

// Whether a member is never true.
fn has_never(members: &[Formula]) -> bool
    ensures { result ≡ is_among (formula_trees members.now) never }
{
    let never = Formula::Never;
    is_among(members, &never)
}

// Whether a member is always true, or two of them are at least 0 everywhere together.
fn is_covered(alloc: Global, members: &[Formula]) -> Result<bool, NoMemory>
    ensures { IfOk result (λ b. b ≡ is_covered (formula_trees members.now)) }
{
    let always = Formula::Always;
    if is_among(members, &always) {
        return Ok(true);
    }
    let found = has_opposites(alloc, members)?;
    Ok(found)
}

// The members of the `and` of all parts.
fn all_conjuncts(alloc: Global, parts: Vec<Formula>) -> Result<Vec<Formula>, NoMemory>
    ensures { IfOk result (λ v. formula_trees v.items ≡ flat_map conjuncts (formula_trees parts.items)) }
{
    let mut left = parts;
    left.reverse();
    let mut out = Vec::new(alloc);
    while let Some(part) = left.pop() {
        part.split_and(&mut left, &mut out)?;
    }
    Ok(out)
}

// The members of the `or` of all parts.
fn all_disjuncts(alloc: Global, parts: Vec<Formula>) -> Result<Vec<Formula>, NoMemory>
    ensures { IfOk result (λ v. formula_trees v.items ≡ flat_map disjuncts (formula_trees parts.items)) }
{
    let mut left = parts;
    left.reverse();
    let mut out = Vec::new(alloc);
    while let Some(part) = left.pop() {
        part.split_or(&mut left, &mut out)?;
    }
    Ok(out)
}

// Of each member whether it is an `or` with a member among them.
fn needless_ors(alloc: Global, members: &[Formula]) -> Result<Vec<bool>, NoMemory>
    ensures { IfOk result (λ v. v.items ≡ map (is_needless_or (formula_trees members.now)) (formula_trees members.now)) }
{
    let mut marks = Vec::new(alloc);
    for formula in members {
        marks.push(formula.is_needless_or(members))?;
    }
    Ok(marks)
}

// Of each member whether it is an `and` with a member among them.
fn needless_ands(alloc: Global, members: &[Formula]) -> Result<Vec<bool>, NoMemory>
    ensures { IfOk result (λ v. v.items ≡ map (is_needless_and (formula_trees members.now)) (formula_trees members.now)) }
{
    let mut marks = Vec::new(alloc);
    for formula in members {
        marks.push(formula.is_needless_and(members))?;
    }
    Ok(marks)
}

impl Formula {
    // Adds the formula to the end, or the parts of an `and` to those that are left, where the last one is the next.
    #[tactic(auto, using(crate::proofs::MemberCode::none_left, crate::proofs::MemberCode::one_out, crate::proofs::MemberCode::both_and))]
    fn split_and(self, left: &mut Vec<Formula>, out: &mut Vec<Formula>) -> Result<(), NoMemory>
        ensures { OnOk result (IsSplit conjuncts (formula_tree self) left.old.items left.new.items out.old.items out.new.items) }
    {
        match self {
            Formula::Always => Ok(()),
            Formula::Never => {
                push(out, Formula::Never)?;
                Ok(())
            }
            Formula::AtLeast(row) => {
                push(out, Formula::AtLeast(row))?;
                Ok(())
            }
            Formula::Equal(row) => {
                push(out, Formula::Equal(row))?;
                Ok(())
            }
            Formula::Both(a, b) => {
                left.push(Box::into_inner(b))?;
                left.push(Box::into_inner(a))?;
                Ok(())
            }
            Formula::Either(a, b) => {
                push(out, Formula::Either(a, b))?;
                Ok(())
            }
        }
    }

    // Adds the formula to the end, or the parts of an `or` to those that are left, where the last one is the next.
    #[tactic(auto, using(crate::proofs::MemberCode::none_left, crate::proofs::MemberCode::one_out, crate::proofs::MemberCode::either_or))]
    fn split_or(self, left: &mut Vec<Formula>, out: &mut Vec<Formula>) -> Result<(), NoMemory>
        ensures { OnOk result (IsSplit disjuncts (formula_tree self) left.old.items left.new.items out.old.items out.new.items) }
    {
        match self {
            Formula::Never => Ok(()),
            Formula::Always => {
                push(out, Formula::Always)?;
                Ok(())
            }
            Formula::AtLeast(row) => {
                push(out, Formula::AtLeast(row))?;
                Ok(())
            }
            Formula::Equal(row) => {
                push(out, Formula::Equal(row))?;
                Ok(())
            }
            Formula::Either(a, b) => {
                left.push(Box::into_inner(b))?;
                left.push(Box::into_inner(a))?;
                Ok(())
            }
            Formula::Both(a, b) => {
                push(out, Formula::Both(a, b))?;
                Ok(())
            }
        }
    }

    // Whether it is an `or` with a member among these.
    fn is_needless_or(&self, members: &[Formula]) -> bool
        ensures { result ≡ is_needless_or (formula_trees members.now) (formula_tree self.now) }
    {
        match self {
            Formula::Either(_, _) => self.has_disjunct(members),
            Formula::Always | Formula::Never | Formula::Both(_, _) => false,
            Formula::AtLeast(_) | Formula::Equal(_) => false,
        }
    }

    // Whether it is an `and` with a member among these.
    fn is_needless_and(&self, members: &[Formula]) -> bool
        ensures { result ≡ is_needless_and (formula_trees members.now) (formula_tree self.now) }
    {
        match self {
            Formula::Both(_, _) => self.has_conjunct(members),
            Formula::Always | Formula::Never | Formula::Either(_, _) => false,
            Formula::AtLeast(_) | Formula::Equal(_) => false,
        }
    }

    // Whether one of its members as an `or` is among these.
    // for the proof: an arm for each form that is its own member
    #[tactic(auto, using(crate::proofs::FormulaLists::any_append, crate::proofs::FormulaLists::any_one))]
    fn has_disjunct(&self, members: &[Formula]) -> bool
        ensures { result ≡ list_any (is_among (formula_trees members.now)) (disjuncts (formula_tree self.now)) }
    {
        match self {
            Formula::Never => false,
            Formula::Either(a, b) => a.has_disjunct(members) || b.has_disjunct(members),
            Formula::Always => is_among(members, self),
            Formula::AtLeast(_) => is_among(members, self),
            Formula::Equal(_) => is_among(members, self),
            Formula::Both(_, _) => is_among(members, self),
        }
    }

    // Whether one of its members as an `and` is among these.
    // for the proof: an arm for each form that is its own member
    #[tactic(auto, using(crate::proofs::FormulaLists::any_append, crate::proofs::FormulaLists::any_one))]
    fn has_conjunct(&self, members: &[Formula]) -> bool
        ensures { result ≡ list_any (is_among (formula_trees members.now)) (conjuncts (formula_tree self.now)) }
    {
        match self {
            Formula::Always => false,
            Formula::Both(a, b) => a.has_conjunct(members) || b.has_conjunct(members),
            Formula::Never => is_among(members, self),
            Formula::AtLeast(_) => is_among(members, self),
            Formula::Equal(_) => is_among(members, self),
            Formula::Either(_, _) => is_among(members, self),
        }
    }
}

// Adds the formula to the end.
fn push(out: &mut Vec<Formula>, formula: Formula) -> Result<(), NoMemory>
    ensures { OnOk result (formula_trees out.new.items ≡ formula_trees out.old.items ++ (formula_tree formula ∷ [])) }
{
    out.push(formula)?;
    Ok(())
}
