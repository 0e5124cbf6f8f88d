//! The first system of a case.
ghost use Rattle.std.specs.Prelude.{◌≡◌, ◌+◌, ◌-◌, ◌<◌, ◌≤◌, ◌^◌, ◌++◌, [], true, false, Err, IfOk, get_or};
ghost use Rattle.std.specs.List.{range_with_len};
ghost use Rattle.cf_tree.specs.RelView.{rel_tree};
ghost use Rattle.cf_linear.specs.declared.refusal.TheConstants.{MOST_SETS};
ghost use Rattle.cf_linear.specs.Layout.{set_count, first_free};
ghost use Rattle.cf_linear.specs.Views.{plain_layout, system_of};
ghost use Rattle.cf_linear.specs.Cases.{negation_normal, disjuncts, case_count, case_rows, system_of_case};
ghost use Rattle.cf_cases.specs.Holding.{IsPlacedRel};
ghost use Rattle.cf_cases.specs.Picking.{case_by, joined, parts_at, part_by, IsIndex};
ghost use Rattle.cf_cases.specs.Counts.{count_tree, left_in, right_in, counts_of};
ghost use Rattle.cf_cases.specs.SystemBuilders.{rows_of, with_case, BuilderAnswer, system_with, first_system, rel_quotients};

use crate::atom::{add_compare, add_constant, add_divides};
use crate::counting::{CountedRel, Counts, order_as};
use crate::regions::{Regions, add_apart, add_counts, add_inputs};
use crate::system_builder::SystemBuilder;
use cf_linear::{Layout, RowFault, System, first_free, known_count};
use cf_tree::{NoMemory, Rel};
use std::alloc::Global;

/// The first system of the case with this index of the relation. Past exactly where a row of the
/// case, or of a part of one of its forms, passes the limit.
pub fn case_of(
    alloc: Global,
    counted: &CountedRel,
    layout: &Layout,
    index: u64,
) -> Result<System, RowFault>
    requires placed { IsPlacedRel (plain_layout layout.now) (rel_tree counted.now) }
    requires sets { set_count (plain_layout layout.now) ≤ MOST_SETS }
    requires index { index < case_count (negation_normal true (rel_tree counted.now)) }
    requires room { first_free (plain_layout layout.now) + rel_quotients (rel_tree counted.now) < 2 ^ 32 }
    ensures system { IfOk result (λ s. system_of s ≡ system_of_case (plain_layout layout.now)
        (get_or (disjuncts (negation_normal true (rel_tree counted.now))) index [])) }
    ensures fits { IfOk result (λ s. (case_rows (plain_layout layout.now) (get_or (disjuncts (negation_normal true (rel_tree counted.now))) index [])).passes ≡
        false) }
    ensures past { result ≡ Err RowFault.Past →
        (case_rows (plain_layout layout.now) (get_or (disjuncts (negation_normal true (rel_tree counted.now))) index [])).passes ≡ true }
{
    let mut builder = SystemBuilder {
        alloc,
        equations: Vec::new(alloc),
        inequalities: Vec::new(alloc),
        next: first_free(layout),
    };
    let rel = counted.rel();
    let counts = counted.counts();
    add_case(rel, counts, true, index as u128, layout, &mut builder)?;
    Ok(first_system(alloc, layout, builder)?)
}

// The first system of these rows.
fn first_system(
    alloc: Global,
    layout: &Layout,
    mut builder: SystemBuilder,
) -> Result<System, NoMemory>
    requires sets { set_count (plain_layout layout.now) ≤ MOST_SETS }
    requires above { first_free (plain_layout layout.now) ≤ builder.next }
    ensures { IfOk result (λ s. system_of s ≡ first_system (plain_layout layout.now) (rows_of builder)) }
{
    add_inputs(alloc, layout, &mut builder.equations)?;
    add_counts(alloc, layout, &mut builder.inequalities)?;
    system_of(alloc, layout, builder)
}

// The system of these rows.
fn system_of(alloc: Global, layout: &Layout, builder: SystemBuilder) -> Result<System, NoMemory>
    requires sets { set_count (plain_layout layout.now) ≤ MOST_SETS }
    requires above { first_free (plain_layout layout.now) ≤ builder.next }
    ensures { IfOk result (λ s. system_of s ≡ system_with (plain_layout layout.now) builder.next builder.equations.items builder.inequalities.items) }
{
    let count = known_count(layout);
    let known = columns(alloc, 0, count)?;
    let unknown = columns(alloc, count, builder.next)?;
    Ok(System {
        known,
        unknown,
        next: builder.next,
        equations: builder.equations,
        inequalities: builder.inequalities,
        needs: 0,
    })
}

// The columns from the first on below the second.
fn columns(alloc: Global, from: u32, to: u32) -> Result<Vec<u32>, NoMemory>
    requires { from ≤ to }
    ensures { IfOk result (λ all. all.items ≡ range_with_len from (to - from)) }
{
    let mut all = Vec::new(alloc);
    for column in from..to {
        all.push(column)?;
    }
    Ok(all)
}

// Adds the rows of the case with this index of the relation, where `holds`, or of its negation.
#[cycle(add_case)]
fn add_case(
    rel: &Rel,
    counts: &Counts,
    holds: bool,
    index: u128,
    layout: &Layout,
    builder: &mut SystemBuilder,
) -> Result<(), RowFault>
    requires placed { IsPlacedRel (plain_layout layout.now) (rel_tree rel.now) }
    requires counts { count_tree counts.now ≡ counts_of (negation_normal holds (rel_tree rel.now)) }
    requires index { index < case_count (negation_normal holds (rel_tree rel.now)) }
    requires small { index < 2 ^ 64 }
    requires sets { set_count (plain_layout layout.now) ≤ MOST_SETS }
    requires above { first_free (plain_layout layout.now) ≤ builder.old.next }
    requires room { builder.old.next + rel_quotients (rel_tree rel.now) < 2 ^ 32 }
    ensures gives { BuilderAnswer (with_case (plain_layout layout.now) (rows_of builder.old) (case_by (negation_normal holds (rel_tree rel.now)) index))
        builder.new result }
    ensures more { IfOk result (λ _. builder.old.next ≤ builder.new.next) }
    ensures room { IfOk result (λ _. builder.new.next ≤ builder.old.next + rel_quotients (rel_tree rel.now)) }
{
    match rel {
        Rel::True => add_constant(holds, builder),
        Rel::False => add_constant(!holds, builder),
        Rel::SameSet(a, b) => add_apart(Regions::InOne, holds, a, b, layout, builder),
        Rel::OtherSet(a, b) => add_apart(Regions::InOne, !holds, a, b, layout, builder),
        Rel::Subset(a, b) => add_apart(Regions::InFirst, holds, a, b, layout, builder),
        Rel::Compare { order, left, right } => {
            let order = order_as(*order, holds);
            add_compare(order, left, right, index, layout, builder)
        }
        Rel::Divides { k, of } => add_divides(holds, k, of, index, layout, builder),
        Rel::And(a, b) => {
            let (first, second) = parts_of(a, b, counts, holds, holds, index);
            add_part(a, counts.left(), holds, first, layout, builder)?;
            add_part(b, counts.right(), holds, second, layout, builder)
        }
        Rel::Or(a, b) => {
            let (first, second) = parts_of(a, b, counts, holds, !holds, index);
            add_part(a, counts.left(), holds, first, layout, builder)?;
            add_part(b, counts.right(), holds, second, layout, builder)
        }
        Rel::Not(a) => add_case(a, counts, !holds, index, layout, builder),
    }
}

// Adds the rows of the case with this index, if any.
#[cycle(add_case)]
fn add_part(
    rel: &Rel,
    counts: &Counts,
    holds: bool,
    index: Option<u128>,
    layout: &Layout,
    builder: &mut SystemBuilder,
) -> Result<(), RowFault>
    requires placed { IsPlacedRel (plain_layout layout.now) (rel_tree rel.now) }
    requires counts { count_tree counts.now ≡ counts_of (negation_normal holds (rel_tree rel.now)) }
    requires index { IsIndex (negation_normal holds (rel_tree rel.now)) index }
    requires sets { set_count (plain_layout layout.now) ≤ MOST_SETS }
    requires above { first_free (plain_layout layout.now) ≤ builder.old.next }
    requires room { builder.old.next + rel_quotients (rel_tree rel.now) < 2 ^ 32 }
    ensures gives { BuilderAnswer (with_case (plain_layout layout.now) (rows_of builder.old) (part_by (negation_normal holds (rel_tree rel.now)) index))
        builder.new result }
    ensures more { IfOk result (λ _. builder.old.next ≤ builder.new.next) }
    ensures room { IfOk result (λ _. builder.new.next ≤ builder.old.next + rel_quotients (rel_tree rel.now)) }
{
    match index {
        Some(i) => add_case(rel, counts, holds, i, layout, builder),
        None => Ok(()),
    }
}

// The indices of the cases of the two sides, where `holds`, or of their negations, that make up the
// case with this index of both, where `both`, or of either; the counts are those of both or either.
// for the proof: the sides are named by the clauses alone.
fn parts_of(
    _a: &Rel,
    _b: &Rel,
    counts: &Counts,
    holds: bool,
    both: bool,
    index: u128,
) -> (Option<u128>, Option<u128>)
    requires counts { count_tree counts.now ≡ counts_of (joined both (negation_normal holds (rel_tree _a.now)) (negation_normal holds (rel_tree _b.now))) }
    requires index { index < case_count (joined both (negation_normal holds (rel_tree _a.now)) (negation_normal holds (rel_tree _b.now))) }
    requires small { index < 2 ^ 64 }
    ensures left { left_in (count_tree counts.now) ≡ counts_of (negation_normal holds (rel_tree _a.now)) }
    ensures right { right_in (count_tree counts.now) ≡ counts_of (negation_normal holds (rel_tree _b.now)) }
    ensures first { IsIndex (negation_normal holds (rel_tree _a.now)) result.0 }
    ensures second { IsIndex (negation_normal holds (rel_tree _b.now)) result.1 }
    ensures whole { case_by (joined both (negation_normal holds (rel_tree _a.now)) (negation_normal holds (rel_tree _b.now))) index ≡ part_by
        (negation_normal holds (rel_tree _a.now)) result.0 ++ part_by (negation_normal holds (rel_tree _b.now)) result.1 }
{
    split(both, counts.left().count(), counts.right().count(), index)
}

// The same for two parts that have so many cases.
fn split(both: bool, left: u128, right: u128, index: u128) -> (Option<u128>, Option<u128>)
    requires { 1 ≤ right }
    ensures first { result.0 ≡ (parts_at both left right index).0 }
    ensures second { result.1 ≡ (parts_at both left right index).1 }
{
    if both {
        (Some(index / right), Some(index % right))
    } else if index < left {
        (Some(index), None)
    } else {
        (None, Some(index - left))
    }
}
