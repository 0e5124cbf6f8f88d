//! Atoms of a relation by their ways.
ghost use Rattle.std.specs.Prelude.{◌≡◌, ◌+◌, ◌<◌, ◌≤◌, ◌^◌, ◌++◌, ◌∷◌, [], map, IfOk, OnOk};
ghost use Rattle.cf_tree.specs.RelView.{rel_tree};
ghost use Rattle.cf_linear.specs.declared.refusal.TheConstants.{MOST_SETS};
ghost use Rattle.cf_linear.specs.Cases.{negation_normal, atom_cases};
ghost use Rattle.cf_linear.specs.Layout.{set_count, first_free};
ghost use Rattle.cf_linear.specs.Views.{plain_layout};
ghost use Rattle.cf_cases.specs.Holding.{IsPlacedRel};
ghost use Rattle.cf_cases.specs.Picking.{case_by};
ghost use Rattle.cf_cases.specs.SystemBuilders.{rows_of, with_case, BuilderAnswer, rel_quotients};
ghost use Rattle.cf_formula.specs.Atoms.{ge, eq};
ghost use Rattle.cf_formula.specs.FormulaView.{formula_tree, formula_trees};
ghost use Rattle.cf_formula.specs.Members.{conj};
ghost use Rattle.cf_formula.specs.Writing.{ways_written};
ghost use Rattle.cf_formula.specs.WritingAnswers.{IsAtom, atom_in, way_count, empty_rows, ways_pass, with_rows_way, ways_of, all_ways, WrittenAnswer, WaysAnswer, RowsAnswer};

use crate::atoms::{eq, ge};
use crate::flat::{has_room, quotient_count, total};
use crate::formula::Formula;
use crate::members::{conj, disj};
use cf_cases::{
    Regions, SystemBuilder, abs_count, add_apart, add_compare, add_constant, add_divides, order_as,
    order_ways,
};
use cf_linear::{Layout, Row, RowFault};
use cf_tree::{NoMemory, Rel};
use std::alloc::Global;

/// A formula, and the next free column.
#[derive(Drop)]
pub struct Written {
    pub formula: Formula,
    pub next: u32,
}

// The formulas of the ways that are written so far, and the next free column; further ones take memory from `alloc`.
#[derive(Drop)]
pub(crate) struct Ways {
    alloc: Global,
    formulas: Vec<Formula>,
    next: u32,
}

// The formula of the atom, where `holds`, or of its negation, by its ways; quotients take the columns from `next` on.
pub(crate) fn ways_written(
    alloc: Global,
    layout: &Layout,
    rel: &Rel,
    holds: bool,
    next: u32,
) -> Result<Written, RowFault>
    requires placed { IsPlacedRel (plain_layout layout.now) (rel_tree rel.now) }
    requires atom { IsAtom (rel_tree rel.now) }
    requires sets { set_count (plain_layout layout.now) ≤ MOST_SETS }
    requires above { first_free (plain_layout layout.now) ≤ next }
    ensures gives { WrittenAnswer (ways_pass (plain_layout layout.now) (atom_cases (atom_in (negation_normal holds (rel_tree rel.now)))) next)
        (ways_written (plain_layout layout.now) (atom_in (negation_normal holds (rel_tree rel.now))) next) result }
    ensures more { IfOk result (λ w. next ≤ w.next) }
{
    let mut ways = Ways {
        alloc,
        formulas: Vec::new(alloc),
        next,
    };
    add_ways(rel, holds, layout, &mut ways)?;
    let formula = disj(alloc, ways.formulas)?;
    Ok(Written {
        formula,
        next: ways.next,
    })
}

// Adds all ways of the atom, where `holds`, or of its negation.
fn add_ways(rel: &Rel, holds: bool, layout: &Layout, ways: &mut Ways) -> Result<(), RowFault>
    requires placed { IsPlacedRel (plain_layout layout.now) (rel_tree rel.now) }
    requires atom { IsAtom (rel_tree rel.now) }
    requires sets { set_count (plain_layout layout.now) ≤ MOST_SETS }
    requires above { first_free (plain_layout layout.now) ≤ ways.old.next }
    ensures gives { WaysAnswer (ways_pass (plain_layout layout.now) (atom_cases (atom_in (negation_normal holds (rel_tree rel.now)))) ways.old.next)
        (all_ways (plain_layout layout.now) (ways_of ways.old) (atom_cases (atom_in (negation_normal holds (rel_tree rel.now))))) ways.new result }
    ensures more { IfOk result (λ _. ways.old.next ≤ ways.new.next) }
{
    let count = ways_len(rel, holds)?;
    for index in 0..count {
        add_way(rel, holds, index, layout, ways)?;
    }
    Ok(())
}

// Adds the way with this index.
fn add_way(
    rel: &Rel,
    holds: bool,
    index: u128,
    layout: &Layout,
    ways: &mut Ways,
) -> Result<(), RowFault>
    requires placed { IsPlacedRel (plain_layout layout.now) (rel_tree rel.now) }
    requires atom { IsAtom (rel_tree rel.now) }
    requires small { index < 2 ^ 64 }
    requires sets { set_count (plain_layout layout.now) ≤ MOST_SETS }
    requires above { first_free (plain_layout layout.now) ≤ ways.old.next }
    ensures gives { WaysAnswer
        (with_case (plain_layout layout.now) (empty_rows ways.old.next) (case_by (negation_normal holds (rel_tree rel.now)) index)).passes
        (with_rows_way (ways_of ways.old)
        (with_case (plain_layout layout.now) (empty_rows ways.old.next) (case_by (negation_normal holds (rel_tree rel.now)) index)))
        ways.new result }
    ensures more { IfOk result (λ _. ways.old.next ≤ ways.new.next) }
{
    let rows = rows_of(ways.alloc, rel, holds, index, layout, ways.next)?;
    let formula = rows_formula(ways.alloc, &rows.equations, &rows.inequalities)?;
    ways.next = rows.next;
    ways.formulas.push(formula)?;
    Ok(())
}

// The rows of the way with this index; `NoMemory` too where its quotients have no numbers of columns left.
fn rows_of(
    alloc: Global,
    rel: &Rel,
    holds: bool,
    index: u128,
    layout: &Layout,
    next: u32,
) -> Result<SystemBuilder, RowFault>
    requires placed { IsPlacedRel (plain_layout layout.now) (rel_tree rel.now) }
    requires atom { IsAtom (rel_tree rel.now) }
    requires small { index < 2 ^ 64 }
    requires sets { set_count (plain_layout layout.now) ≤ MOST_SETS }
    requires above { first_free (plain_layout layout.now) ≤ next }
    ensures gives { RowsAnswer (with_case (plain_layout layout.now) (empty_rows next) (case_by (negation_normal holds (rel_tree rel.now)) index)) result }
    ensures more { IfOk result (λ d. next ≤ d.next) }
{
    if !has_room(next, rel_quotients(rel)?) {
        return Err(RowFault::NoMemory);
    }
    let mut builder = SystemBuilder {
        alloc,
        equations: Vec::new(alloc),
        inequalities: Vec::new(alloc),
        next,
    };
    add_rows(rel, holds, index, layout, &mut builder)?;
    Ok(builder)
}

// Adds the rows of the way with this index of the atom, where `holds`, or of its negation.
fn add_rows(
    rel: &Rel,
    holds: bool,
    index: u128,
    layout: &Layout,
    builder: &mut SystemBuilder,
) -> Result<(), RowFault>
    requires placed { IsPlacedRel (plain_layout layout.now) (rel_tree rel.now) }
    requires atom { IsAtom (rel_tree rel.now) }
    requires small { index < 2 ^ 64 }
    requires sets { set_count (plain_layout layout.now) ≤ MOST_SETS }
    requires above { first_free (plain_layout layout.now) ≤ builder.old.next }
    requires room { builder.old.next + rel_quotients (rel_tree rel.now) < 2 ^ 32 }
    ensures gives { BuilderAnswer (with_case (plain_layout layout.now) (rows_of builder.old) (case_by (negation_normal holds (rel_tree rel.now)) index))
        builder.new result }
    ensures more { IfOk result (λ _. builder.old.next ≤ builder.new.next) }
{
    match rel {
        Rel::True => add_constant(holds, builder),
        Rel::False => add_constant(!holds, builder),
        Rel::SameSet(a, b) => add_apart(Regions::InOne, holds, a, b, layout, builder),
        Rel::OtherSet(a, b) => add_apart(Regions::InOne, !holds, a, b, layout, builder),
        Rel::Subset(a, b) => add_apart(Regions::InFirst, holds, a, b, layout, builder),
        Rel::Compare { order, left, right } => {
            let order = order_as(*order, holds);
            add_compare(order, left, right, index, layout, builder)
        }
        Rel::Divides { k, of } => add_divides(holds, k, of, index, layout, builder),
        Rel::And(_, _) | Rel::Or(_, _) | Rel::Not(_) => unreachable!(),
    }
}

// How many ways there are. Each has a formula of its own, so that no memory holds 2^64 of them.
fn ways_len(rel: &Rel, holds: bool) -> Result<u128, NoMemory>
    requires atom { IsAtom (rel_tree rel.now) }
    ensures count { IfOk result (λ n. n ≡ way_count holds (rel_tree rel.now)) }
    ensures small { IfOk result (λ n. n ≤ 2 ^ 64) }
{
    match rel {
        Rel::True | Rel::False => Ok(1),
        Rel::SameSet(_, _) | Rel::OtherSet(_, _) | Rel::Subset(_, _) => Ok(1),
        Rel::Compare { order, left, right } => {
            let signs = choices(abs_count(left)?, abs_count(right)?)?;
            Ok(order_ways(order_as(*order, holds)) * signs)
        }
        Rel::Divides { k: _, of } => choices(abs_count(of)?, 0),
        Rel::And(_, _) | Rel::Or(_, _) | Rel::Not(_) => unreachable!(),
    }
}

// The number of choices of so many signs and so many more.
fn choices(first: usize, second: usize) -> Result<u128, NoMemory>
    ensures count { IfOk result (λ n. n ≡ 2 ^ (first + second)) }
    ensures small { IfOk result (λ n. n ≤ 2 ^ 62) }
{
    match first.checked_add(second) {
        Some(signs) => power(signs),
        None => Err(NoMemory),
    }
}

fn power(n: usize) -> Result<u128, NoMemory>
    ensures count { IfOk result (λ p. p ≡ 2 ^ n) }
    ensures small { IfOk result (λ p. p ≤ 2 ^ 62) }
{
    if n <= 62 {
        Ok(1u128 << n)
    } else {
        Err(NoMemory)
    }
}

// How many quotients one way of it has.
fn rel_quotients(rel: &Rel) -> Result<u32, NoMemory>
    ensures { IfOk result (λ n. n ≡ rel_quotients (rel_tree rel.now)) }
{
    match rel {
        Rel::True | Rel::False => Ok(0),
        Rel::SameSet(_, _) | Rel::OtherSet(_, _) | Rel::Subset(_, _) => Ok(0),
        Rel::Compare {
            order: _,
            left,
            right,
        } => { total(quotient_count(left)?, quotient_count(right)?) }
        Rel::Divides { k: _, of } => total(quotient_count(of)?, 1),
        Rel::And(a, b) | Rel::Or(a, b) => total(rel_quotients(a)?, rel_quotients(b)?),
        Rel::Not(a) => rel_quotients(a),
    }
}

// All rows at once.
fn rows_formula(alloc: Global, equations: &[Row], inequalities: &[Row]) -> Result<Formula, NoMemory>
    ensures { IfOk result (λ f. formula_tree f ≡ conj (map eq equations.now ++ map ge inequalities.now)) }
{
    let mut parts = Vec::new(alloc);
    push_equal(alloc, equations, &mut parts)?;
    push_at_least(alloc, inequalities, &mut parts)?;
    conj(alloc, parts)
}

// Adds the formulas that the rows are 0.
#[tactic(auto, using(crate::proofs::WritingCode::mapped_step))]
pub(crate) fn push_equal(
    alloc: Global,
    rows: &[Row],
    parts: &mut Vec<Formula>,
) -> Result<(), NoMemory>
    ensures { OnOk result (formula_trees parts.new.items ≡ formula_trees parts.old.items ++ map eq rows.now) }
{
    let mut rest = rows;
    while let Some((row, more)) = rest.split_first() {
        let formula = eq(alloc, row.try_copy(alloc)?)?;
        push(formula, parts)?;
        rest = more;
    }
    Ok(())
}

// Adds the formulas that the rows are at least 0.
#[tactic(auto, using(crate::proofs::WritingCode::mapped_step))]
pub(crate) fn push_at_least(
    alloc: Global,
    rows: &[Row],
    parts: &mut Vec<Formula>,
) -> Result<(), NoMemory>
    ensures { OnOk result (formula_trees parts.new.items ≡ formula_trees parts.old.items ++ map ge rows.now) }
{
    let mut rest = rows;
    while let Some((row, more)) = rest.split_first() {
        let formula = ge(alloc, row.try_copy(alloc)?)?;
        push(formula, parts)?;
        rest = more;
    }
    Ok(())
}

fn push(formula: Formula, parts: &mut Vec<Formula>) -> Result<(), NoMemory>
    ensures { OnOk result (formula_trees parts.new.items ≡ formula_trees parts.old.items ++ (formula_tree formula ∷ [])) }
{
    parts.push(formula)?;
    Ok(())
}
