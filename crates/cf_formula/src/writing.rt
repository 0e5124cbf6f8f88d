//! A relation as one formula over rows.
ghost use Rattle.std.specs.Prelude.{◌≡◌, ◌+◌, ◌-◌, ◌<◌, ◌≤◌, ◌^◌, ◌++◌, false, IfOk, OnOk};
ghost use Rattle.std.specs.List.{range_with_len};
ghost use Rattle.cf_tree.specs.RelView.{rel_tree};
ghost use Rattle.cf_linear.specs.declared.refusal.TheConstants.{MOST_SETS};
ghost use Rattle.cf_linear.specs.Cases.{negation_normal};
ghost use Rattle.cf_linear.specs.Layout.{set_count, first_free};
ghost use Rattle.cf_linear.specs.Views.{plain_layout};
ghost use Rattle.cf_cases.specs.Holding.{IsPlacedRel};
ghost use Rattle.cf_formula.specs.ConditionsView.{conditions_of};
ghost use Rattle.cf_formula.specs.FormulaView.{formula_tree, formula_trees};
ghost use Rattle.cf_formula.specs.States.{add, no_conditions};
ghost use Rattle.cf_formula.specs.StateView.{columns_of};
ghost use Rattle.cf_formula.specs.Writing.{written, normal_written, region_formulas};
ghost use Rattle.cf_formula.specs.WritingAnswers.{IsAtom, written_of, relation_passes, normal_passes, joined_written, flat_in, flat_in_passes};
ghost use Rattle.cf_formula.specs.WritingAnswers.{WrittenAnswer, FlatFormulaAnswer, with_region_formulas, first_columns_of};

use crate::conditions::Conditions;
use crate::flat::{flat_formula, joined};
use crate::formula::Formula;
use crate::members::conj;
use crate::state::Columns;
use crate::ways::{Written, push_at_least, push_equal, ways_written};
use cf_cases::{add_counts, add_inputs, order_as};
use cf_linear::{Layout, RowFault, first_free, known_count};
use cf_tree::{NoMemory, Rel, without};
use std::alloc::Global;

/// The relation as one positive formula over rows; the columns behind those of the layout are of quotients. It
/// says of the counts of regions too that they are at least 0 and add up to those of the input regions.
///
/// # Errors
/// `Past` exactly where a number that is written passes the limit, and `NoMemory` where memory ran out, or where
/// the columns have no numbers left.
pub fn written(alloc: Global, layout: &Layout, rel: &Rel) -> Result<Written, RowFault>
    requires placed { IsPlacedRel (plain_layout layout.now) (rel_tree rel.now) }
    requires sets { set_count (plain_layout layout.now) ≤ MOST_SETS }
    requires room { first_free (plain_layout layout.now) < 2 ^ 32 }
    ensures gives { WrittenAnswer (relation_passes (plain_layout layout.now) (rel_tree rel.now)) (written (plain_layout layout.now) (rel_tree rel.now)) result }
    ensures above { IfOk result (λ w. first_free (plain_layout layout.now) ≤ w.next) }
{
    let first = first_free(layout);
    let main = part_written(alloc, layout, rel, true, first)?;
    Ok(with_regions(alloc, layout, main)?)
}

// The formula with those of the counts of regions.
fn with_regions(alloc: Global, layout: &Layout, main: Written) -> Result<Written, NoMemory>
    requires sets { set_count (plain_layout layout.now) ≤ MOST_SETS }
    requires room { first_free (plain_layout layout.now) < 2 ^ 32 }
    ensures gives { IfOk result (λ w. written_of w ≡ with_region_formulas (plain_layout layout.now) (written_of main)) }
    ensures next { IfOk result (λ w. w.next ≡ main.next) }
{
    let next = main.next;
    let mut parts = Vec::new(alloc);
    parts.push(main.formula)?;
    push_regions(alloc, layout, &mut parts)?;
    let formula = conj(alloc, parts)?;
    Ok(Written { formula, next })
}

// Adds the formulas of the counts of regions.
fn push_regions(alloc: Global, layout: &Layout, parts: &mut Vec<Formula>) -> Result<(), NoMemory>
    requires sets { set_count (plain_layout layout.now) ≤ MOST_SETS }
    requires room { first_free (plain_layout layout.now) < 2 ^ 32 }
    ensures { OnOk result (formula_trees parts.new.items ≡ formula_trees parts.old.items ++ region_formulas (plain_layout layout.now)) }
{
    let mut sums = Vec::new(alloc);
    add_inputs(alloc, layout, &mut sums)?;
    push_equal(alloc, &sums, parts)?;
    let mut counts = Vec::new(alloc);
    add_counts(alloc, layout, &mut counts)?;
    push_at_least(alloc, &counts, parts)?;
    Ok(())
}

// The formula of the relation, where `holds`, or of its negation; quotients take the columns from `next` on.
#[cycle(part_written)]
#[tactic(auto, using(crate::proofs::WritingCode::and_made, crate::proofs::WritingCode::and_first, crate::proofs::WritingCode::and_second, crate::proofs::WritingCode::or_made, crate::proofs::WritingCode::or_first, crate::proofs::WritingCode::or_second))]
fn part_written(
    alloc: Global,
    layout: &Layout,
    rel: &Rel,
    holds: bool,
    next: u32,
) -> Result<Written, RowFault>
    requires placed { IsPlacedRel (plain_layout layout.now) (rel_tree rel.now) }
    requires sets { set_count (plain_layout layout.now) ≤ MOST_SETS }
    requires above { first_free (plain_layout layout.now) ≤ next }
    ensures gives { WrittenAnswer (normal_passes (plain_layout layout.now) (negation_normal holds (rel_tree rel.now)) next)
        (normal_written (plain_layout layout.now) (negation_normal holds (rel_tree rel.now)) next) result }
    ensures more { IfOk result (λ w. next ≤ w.next) }
{
    match rel {
        Rel::True | Rel::False => atom_written(alloc, layout, rel, holds, next),
        Rel::Compare { .. } | Rel::Divides { .. } => atom_written(alloc, layout, rel, holds, next),
        Rel::SameSet(_, _) | Rel::OtherSet(_, _) | Rel::Subset(_, _) => {
            atom_written(alloc, layout, rel, holds, next)
        }
        Rel::And(a, b) => {
            let first = part_written(alloc, layout, a, holds, next)?;
            match part_written(alloc, layout, b, holds, first.next) {
                Ok(second) => joined_written(alloc, holds, first, second),
                Err(fault) => Err(without(first, fault)),
            }
        }
        Rel::Or(a, b) => {
            let first = part_written(alloc, layout, a, holds, next)?;
            match part_written(alloc, layout, b, holds, first.next) {
                Ok(second) => joined_written(alloc, !holds, first, second),
                Err(fault) => Err(without(first, fault)),
            }
        }
        Rel::Not(a) => part_written(alloc, layout, a, !holds, next),
    }
}

// Both formulas, where `both`, or either; the second was written after the first.
fn joined_written(
    alloc: Global,
    both: bool,
    first: Written,
    second: Written,
) -> Result<Written, RowFault>
    ensures gives { WrittenAnswer false (joined_written both (written_of first) (written_of second)) result }
    ensures next { IfOk result (λ w. w.next ≡ second.next) }
{
    let next = second.next;
    let formula = joined(alloc, both, first.formula, second.formula)?;
    Ok(Written { formula, next })
}

// The formula of the atom, where `holds`, or of its negation.
#[tactic(auto, using(crate::proofs::WritingCode::flat_atom, crate::proofs::WritingCode::ways_atom, crate::proofs::WritingCode::flat_fault))]
fn atom_written(
    alloc: Global,
    layout: &Layout,
    rel: &Rel,
    holds: bool,
    next: u32,
) -> Result<Written, RowFault>
    requires placed { IsPlacedRel (plain_layout layout.now) (rel_tree rel.now) }
    requires atom { IsAtom (rel_tree rel.now) }
    requires sets { set_count (plain_layout layout.now) ≤ MOST_SETS }
    requires above { first_free (plain_layout layout.now) ≤ next }
    ensures gives { WrittenAnswer (normal_passes (plain_layout layout.now) (negation_normal holds (rel_tree rel.now)) next)
        (normal_written (plain_layout layout.now) (negation_normal holds (rel_tree rel.now)) next) result }
    ensures more { IfOk result (λ w. next ≤ w.next) }
{
    match flat_of(alloc, layout, rel, holds)? {
        Some(formula) => Ok(Written { formula, next }),
        None => ways_written(alloc, layout, rel, holds, next),
    }
}

// The formula of the atom, or of its negation, without ways, if it has one.
fn flat_of(
    alloc: Global,
    layout: &Layout,
    rel: &Rel,
    holds: bool,
) -> Result<Option<Formula>, RowFault>
    requires placed { IsPlacedRel (plain_layout layout.now) (rel_tree rel.now) }
    requires atom { IsAtom (rel_tree rel.now) }
    requires sets { set_count (plain_layout layout.now) ≤ MOST_SETS }
    requires room { first_free (plain_layout layout.now) < 2 ^ 32 }
    ensures { FlatFormulaAnswer (flat_in_passes (plain_layout layout.now) holds (rel_tree rel.now))
        (flat_in (plain_layout layout.now) holds (rel_tree rel.now)) result }
{
    match rel {
        Rel::Compare { order, left, right } => {
            flat_formula(alloc, layout, order_as(*order, holds), left, right)
        }
        Rel::True | Rel::False | Rel::Divides { .. } => Ok(None),
        Rel::SameSet(_, _) | Rel::OtherSet(_, _) | Rel::Subset(_, _) => Ok(None),
        Rel::And(_, _) | Rel::Or(_, _) | Rel::Not(_) => unreachable!(),
    }
}

/// The columns of a relation of which the formula was written: the known ones, and those up to `next`.
///
/// # Errors
/// `NoMemory` where memory ran out.
pub fn first_columns(alloc: Global, layout: &Layout, next: u32) -> Result<Columns, NoMemory>
    requires sets { set_count (plain_layout layout.now) ≤ MOST_SETS }
    requires room { first_free (plain_layout layout.now) < 2 ^ 32 }
    requires above { first_free (plain_layout layout.now) ≤ next }
    ensures { IfOk result (λ c. columns_of c ≡ first_columns_of (plain_layout layout.now) next) }
{
    let count = known_count(layout);
    let known = columns(alloc, 0, count)?;
    let unknown = columns(alloc, count, next)?;
    Ok(Columns {
        known,
        unknown,
        next,
    })
}

// The columns from the first on below the second.
fn columns(alloc: Global, from: u32, to: u32) -> Result<Vec<u32>, NoMemory>
    requires { from ≤ to }
    ensures { IfOk result (λ all. all.items ≡ range_with_len from (to - from)) }
{
    let mut all = Vec::new(alloc);
    for column in from..to {
        all.push(column)?;
    }
    Ok(all)
}

/// The conditions that the formula holds.
///
/// # Errors
/// `NoMemory` where memory ran out.
pub fn first_conditions(alloc: Global, formula: Formula) -> Result<Conditions, NoMemory>
    ensures { IfOk result (λ c. conditions_of c ≡ add (formula_tree formula) no_conditions) }
{
    let mut conditions = Conditions::none(alloc);
    conditions.add(formula)?;
    Ok(conditions)
}
