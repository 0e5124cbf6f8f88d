//! The number forms of the known columns of a choose: its constant, its number parameters, and the counts of its input regions.
ghost use Rattle.std.specs.Prelude.{◌≡◌, ◌≤◌, ◌++◌, IfOk, OnOk, map, filter, length};
ghost use Rattle.std.specs.List.{fold};
ghost use Rattle.cf_tree.specs.RelTree.{set_var, term_var, term_card};
ghost use Rattle.cf_tree.specs.RelView.{set_tree, term_tree};
ghost use Rattle.cf_linear.specs.declared.refusal.TheConstants.{MOST_SETS};
ghost use Rattle.cf_linear.specs.Layout.{masks, place, set_count};
ghost use Rattle.cf_linear.specs.Views.{plain_layout};
ghost use Rattle.cf_warn.specs.Missing.{inter_of_all, region_form};
ghost use Rattle.cf_warn.specs.Writing.{both_sets, is_beside, first_list};

use cf_linear::{Layout, has_bit, place};
use cf_setwit::push_if;
use cf_tree::{NoMemory, SetTerm, Term, to_u32};
use std::alloc::Global;

// The sets of a mask, or the others.
#[derive(Clone, Copy, Debug, PartialEq, Eq)]
enum Side {
    Inside,
    Outside,
}

// How sets are joined: what they have in common, or the first without the others.
#[derive(Clone, Copy, Debug, PartialEq, Eq)]
enum SetJoin {
    Inter,
    Diff,
}

// The forms of the columns of the choose with these parameters, by column.
pub(crate) fn first_forms(
    alloc: Global,
    layout: &Layout,
    params: &[u32],
) -> Result<Vec<Term>, NoMemory>
    requires { set_count (plain_layout layout.now) ≤ MOST_SETS }
    ensures { IfOk result (λ ts. map term_tree ts.items ≡ first_list (plain_layout layout.now) (λ x. place x params.now)) }
{
    let mut first = Vec::new(alloc);
    first.push(Term::Lit(1))?;
    push_numbers(&mut first, &layout.numbers, params)?;
    push_counts(alloc, &mut first, layout, params)?;
    Ok(first)
}

// The number parameters.
fn push_numbers(first: &mut Vec<Term>, numbers: &[u32], params: &[u32]) -> Result<(), NoMemory>
    ensures { OnOk result (map term_tree first.new.items ≡ map term_tree first.old.items ++ map (λ x. term_var (place x params.now)) numbers.now) }
{
    for x in numbers {
        first.push(Term::Var(to_u32(place(*x, params))?))?;
    }
    Ok(())
}

// The counts of the input regions.
fn push_counts(
    alloc: Global,
    first: &mut Vec<Term>,
    layout: &Layout,
    params: &[u32],
) -> Result<(), NoMemory>
    requires { set_count (plain_layout layout.now) ≤ MOST_SETS }
    ensures { OnOk result (map term_tree first.new.items ≡ map term_tree first.old.items ++ map
        (λ m. term_card (region_form (plain_layout layout.now) (λ x. place x params.now) m)) (masks (length layout.now.inputs.items))) }
{
    for mask in 1..layout.input_regions() {
        first.push(count(alloc, layout, params, mask)?)?;
    }
    Ok(())
}

// How many elements the region with the mask has.
fn count(alloc: Global, layout: &Layout, params: &[u32], mask: u32) -> Result<Term, NoMemory>
    requires { set_count (plain_layout layout.now) ≤ MOST_SETS }
    ensures { IfOk result (λ t. term_tree t ≡ term_card (region_form (plain_layout layout.now) (λ x. place x params.now) mask)) }
{
    let inside = levels(alloc, &layout.inputs, params, mask, Side::Inside)?;
    let others = levels(alloc, &layout.inputs, params, mask, Side::Outside)?;
    let common = common(alloc, &inside)?;
    let region = fold_sets(alloc, SetJoin::Diff, common, &others)?;
    Ok(Term::Card(Box::new(alloc, region)?))
}

// The levels in the question of the input sets in the mask, or of the others.
fn levels(
    alloc: Global,
    inputs: &[u32],
    params: &[u32],
    mask: u32,
    side: Side,
) -> Result<Vec<u32>, NoMemory>
    requires { length inputs.now ≤ MOST_SETS }
    ensures { IfOk result (λ v. v.items ≡ map (λ x. place x params.now) (filter (is_beside side inputs.now mask) inputs.now)) }
{
    let mut levels = Vec::new(alloc);
    for x in inputs {
        push_if(
            &mut levels,
            is_beside(side, inputs, mask, *x),
            to_u32(place(*x, params))?,
        )?;
    }
    Ok(levels)
}

// Whether the input set is on that side of the mask.
fn is_beside(side: Side, inputs: &[u32], mask: u32, x: u32) -> bool
    requires { length inputs.now ≤ MOST_SETS }
    ensures { result ≡ is_beside side inputs.now mask x }
{
    let has = has_bit(place(x, inputs), mask);
    match side {
        Side::Inside => has,
        Side::Outside => !has,
    }
}

// What the sets with the levels have in common.
fn common(alloc: Global, levels: &[u32]) -> Result<SetTerm, NoMemory>
    ensures { IfOk result (λ s. set_tree s ≡ inter_of_all (map (λ x. set_var x) levels.now)) }
{
    match levels.split_first() {
        Some((x, others)) => fold_sets(alloc, SetJoin::Inter, SetTerm::Var(*x), others),
        None => Ok(SetTerm::Empty),
    }
}

// The set joined with the sets with the levels, one after the other.
fn fold_sets(alloc: Global, how: SetJoin, set: SetTerm, levels: &[u32]) -> Result<SetTerm, NoMemory>
    ensures { IfOk result (λ s. set_tree s ≡ fold (both_sets how) (set_tree set) (map (λ x. set_var x) levels.now)) }
{
    let mut all = set;
    for x in levels {
        all = both_sets(alloc, how, all, *x)?;
    }
    Ok(all)
}

// The set joined with the set with the level.
fn both_sets(alloc: Global, how: SetJoin, set: SetTerm, x: u32) -> Result<SetTerm, NoMemory>
    ensures { IfOk result (λ s. set_tree s ≡ both_sets how (set_tree set) (set_var x)) }
{
    let left = Box::new(alloc, set)?;
    let right = Box::new(alloc, SetTerm::Var(x))?;
    match how {
        SetJoin::Inter => Ok(SetTerm::Inter(left, right)),
        SetJoin::Diff => Ok(SetTerm::Diff(left, right)),
    }
}
