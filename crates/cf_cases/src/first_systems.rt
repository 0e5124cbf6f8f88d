//! The first systems of the cases of a relation.
ghost use Rattle.std.specs.Prelude.{◌≡◌, ◌+◌, ◌<◌, ◌≤◌, ◌^◌, map, true, IfOk};
ghost use Rattle.cf_tree.specs.RelView.{rel_tree};
ghost use Rattle.cf_linear.specs.declared.refusal.TheConstants.{MOST_SETS, MOST_CASES};
ghost use Rattle.cf_linear.specs.Cases.{negation_normal, case_count};
ghost use Rattle.cf_linear.specs.Keep.{Formed, Differ};
ghost use Rattle.cf_linear.specs.Layout.{set_count, first_free};
ghost use Rattle.cf_linear.specs.Views.{plain_layout, system_of};
ghost use Rattle.cf_cases.specs.SystemBuilders.{rel_quotients};
ghost use Rattle.cf_cases.specs.Holding.{IsPlacedRel, EachOf};
ghost use Rattle.cf_cases.specs.declared.first_systems.TheConstants.{LEVEL_LIMIT};
ghost use Rattle.cf_cases.specs.FirstSystems.{SystemsAre};

use crate::case::case_of;
use crate::counting::CountedRel;
use cf_linear::{Layout, RowFault, System};
use cf_tree::Rel;
use std::alloc::Global;

/// Of variables in scope, of numbers among them, of outputs and of what an elimination makes there are
/// fewer than this, so that levels and columns are numbers of 32 bits.
pub const LEVEL_LIMIT: usize = 1 << 29;

/// The first systems of the cases of the relation, in order. Its layout is the choose's.
///
/// # Errors
/// `Past` exactly where a written or guard row passes the limit of numbers, and `NoMemory` where memory
/// ran out.
pub fn systems(alloc: Global, layout: &Layout, rel: &Rel) -> Result<Vec<System>, RowFault>
    requires placed { IsPlacedRel (plain_layout layout.now) (rel_tree rel.now) }
    requires sets { set_count (plain_layout layout.now) ≤ MOST_SETS }
    requires few { case_count (negation_normal true (rel_tree rel.now)) ≤ MOST_CASES }
    ensures systems { SystemsAre (plain_layout layout.now) (rel_tree rel.now) result }
    ensures ready { IfOk result (λ v. EachOf (λ m. Formed m × Differ m.unknown) (map system_of v.items)) }
{
    if !has_columns(layout, rel) {
        return Err(RowFault::NoMemory);
    }
    let counted = CountedRel::of(alloc, rel)?;
    each_system(alloc, layout, &counted)
}

// The same, where the cases are counted.
fn each_system(
    alloc: Global,
    layout: &Layout,
    counted: &CountedRel,
) -> Result<Vec<System>, RowFault>
    requires placed { IsPlacedRel (plain_layout layout.now) (rel_tree counted.now) }
    requires sets { set_count (plain_layout layout.now) ≤ MOST_SETS }
    requires few { case_count (negation_normal true (rel_tree counted.now)) ≤ MOST_CASES }
    requires room { first_free (plain_layout layout.now) + rel_quotients (rel_tree counted.now) < 2 ^ 32 }
    ensures systems { SystemsAre (plain_layout layout.now) (rel_tree counted.now) result }
    ensures ready { IfOk result (λ v. EachOf (λ m. Formed m × Differ m.unknown) (map system_of v.items)) }
{
    let mut all = Vec::new(alloc);
    for index in 0..counted.cases_len() {
        all.push(case_of(alloc, counted, layout, index)?)?;
    }
    Ok(all)
}

// Whether the columns of the layout and those of the quotients of the relation are surely numbers of
// 32 bits.
fn has_columns(layout: &Layout, rel: &Rel) -> bool
    requires { set_count (plain_layout layout.now) ≤ MOST_SETS }
    ensures { result ≡ true → first_free (plain_layout layout.now) + rel_quotients (rel_tree rel.now) < 2 ^ 32 }
{
    are_few(layout.numbers.len(), layout.out_numbers.len(), rel.size())
}

// Whether variables and nodes are so few that each has a column.
fn are_few(numbers: usize, outputs: usize, nodes: u64) -> bool
    ensures { result ≡ true → (numbers < LEVEL_LIMIT) × (outputs < LEVEL_LIMIT) × (nodes < LEVEL_LIMIT) }
{
    numbers < LEVEL_LIMIT && outputs < LEVEL_LIMIT && nodes < LEVEL_LIMIT as u64
}
