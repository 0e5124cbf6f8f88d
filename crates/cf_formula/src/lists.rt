//! Lists of formulas.
ghost use Rattle.std.specs.Prelude.{◌≡◌, ◌++◌, ◌∷◌, [], if◌then◌else◌, IfOk, OnOk};
ghost use Rattle.cf_formula.specs.Formulas.{both, either};
ghost use Rattle.cf_formula.specs.FormulaView.{formula_tree, formula_trees, IsMoved};
ghost use Rattle.cf_formula.specs.Members.{is_among, distinct_formulas, unmarked, all_of, any_of};

use crate::formula::Formula;
use cf_tree::NoMemory;
use std::alloc::Global;

/// Whether the formula is among the formulas.
#[tactic(auto, using(crate::proofs::FormulaLists::among_next, crate::proofs::FormulaLists::among_end))]
pub(crate) fn is_among(formulas: &[Formula], formula: &Formula) -> bool
    ensures { result ≡ is_among (formula_trees formulas.now) (formula_tree formula.now) }
{
    for other in formulas {
        if formula.same(other) {
            return true;
        }
    }
    false
}

/// The formulas without those that are equal to an earlier one.
///
/// # Errors
/// `NoMemory` where memory ran out.
pub(crate) fn distinct(alloc: Global, formulas: Vec<Formula>) -> Result<Vec<Formula>, NoMemory>
    ensures { IfOk result (λ v. formula_trees v.items ≡ distinct_formulas [] (formula_trees formulas.items)) }
{
    let mut left = formulas;
    left.reverse();
    let mut kept: Vec<Formula> = Vec::new(alloc);
    while let Some(formula) = left.pop() {
        let is_new = !is_among(&kept, &formula);
        push_if(&mut kept, formula, is_new)?;
    }
    Ok(kept)
}

/// The formulas whose marks are false.
///
/// # Errors
/// `NoMemory` where memory ran out.
pub(crate) fn unmarked(
    alloc: Global,
    formulas: Vec<Formula>,
    marks: &[bool],
) -> Result<Vec<Formula>, NoMemory>
    ensures { IfOk result (λ v. formula_trees v.items ≡ unmarked marks.now (formula_trees formulas.items)) }
{
    let mut left = formulas;
    left.reverse();
    let mut out = Vec::new(alloc);
    for mark in marks {
        move_if(&mut left, &mut out, !*mark)?;
    }
    Ok(out)
}

/// The formula that holds exactly where each of these does.
///
/// # Errors
/// `NoMemory` where memory ran out.
#[tactic(auto, using(crate::proofs::FormulaLists::last_tree, crate::proofs::FormulaLists::no_trees))]
pub(crate) fn all_of(alloc: Global, formulas: Vec<Formula>) -> Result<Formula, NoMemory>
    ensures { IfOk result (λ f. formula_tree f ≡ all_of (formula_trees formulas.items)) }
{
    let mut left = formulas;
    match left.pop() {
        Some(last) => {
            let all = all_with(alloc, left, last)?;
            Ok(all)
        }
        None => Ok(Formula::Always),
    }
}

/// The formula that holds exactly where one of these does.
///
/// # Errors
/// `NoMemory` where memory ran out.
#[tactic(auto, using(crate::proofs::FormulaLists::last_tree, crate::proofs::FormulaLists::no_trees))]
pub(crate) fn any_of(alloc: Global, formulas: Vec<Formula>) -> Result<Formula, NoMemory>
    ensures { IfOk result (λ f. formula_tree f ≡ any_of (formula_trees formulas.items)) }
{
    let mut left = formulas;
    match left.pop() {
        Some(last) => {
            let any = any_with(alloc, left, last)?;
            Ok(any)
        }
        None => Ok(Formula::Never),
    }
}

/// The formula that holds exactly where each of these and the last one does.
///
/// # Errors
/// `NoMemory` where memory ran out.
pub(crate) fn all_with(
    alloc: Global,
    formulas: Vec<Formula>,
    last: Formula,
) -> Result<Formula, NoMemory>
    ensures { IfOk result (λ f. formula_tree f ≡ all_of (formula_trees formulas.items ++ (formula_tree last ∷ []))) }
{
    let mut left = formulas;
    let mut all = last;
    while let Some(formula) = left.pop() {
        all = both(alloc, formula, all)?;
    }
    Ok(all)
}

/// The formula that holds exactly where one of these or the last one does.
///
/// # Errors
/// `NoMemory` where memory ran out.
pub(crate) fn any_with(
    alloc: Global,
    formulas: Vec<Formula>,
    last: Formula,
) -> Result<Formula, NoMemory>
    ensures { IfOk result (λ f. formula_tree f ≡ any_of (formula_trees formulas.items ++ (formula_tree last ∷ []))) }
{
    let mut left = formulas;
    let mut any = last;
    while let Some(formula) = left.pop() {
        any = either(alloc, formula, any)?;
    }
    Ok(any)
}

fn both(alloc: Global, a: Formula, b: Formula) -> Result<Formula, NoMemory>
    ensures { IfOk result (λ f. formula_tree f ≡ both (formula_tree a) (formula_tree b)) }
{
    let first = Box::new(alloc, a)?;
    let second = Box::new(alloc, b)?;
    Ok(Formula::Both(first, second))
}

fn either(alloc: Global, a: Formula, b: Formula) -> Result<Formula, NoMemory>
    ensures { IfOk result (λ f. formula_tree f ≡ either (formula_tree a) (formula_tree b)) }
{
    let first = Box::new(alloc, a)?;
    let second = Box::new(alloc, b)?;
    Ok(Formula::Either(first, second))
}

// Moves the last one that is left to the end, if it is wanted, and else drops it.
#[tactic(auto, using(crate::proofs::FormulaLists::one_moved, crate::proofs::FormulaLists::none_moved))]
fn move_if(left: &mut Vec<Formula>, out: &mut Vec<Formula>, wanted: bool) -> Result<(), NoMemory>
    ensures { OnOk result (IsMoved wanted left.old.items left.new.items out.old.items out.new.items) }
{
    match left.pop() {
        Some(formula) => {
            push_if(out, formula, wanted)?;
            Ok(())
        }
        None => Ok(()),
    }
}

// Adds the value to the end, if it is wanted.
fn push_if<T: Drop>(out: &mut Vec<T>, value: T, wanted: bool) -> Result<(), NoMemory>
    ensures { OnOk result (out.new.items ≡ out.old.items ++ (if wanted then value ∷ [] else [])) }
{
    if wanted {
        out.push(value)?;
    }
    Ok(())
}
