//! Sums of counts of regions, and that they are counts.
ghost use Rattle.std.specs.Prelude.{◌≡◌, ◌≤◌, pos, if◌then◌else◌, IfOk};
ghost use Rattle.cf_tree.specs.declared.base.Order.TheVariants.{Ge};
ghost use Rattle.cf_tree.specs.RelTree.{rel_and, rel_compare, term_add, term_lit, term_var};
ghost use Rattle.cf_tree.specs.RelView.{rel_tree, set_tree, term_tree};
ghost use Rattle.cf_linear.specs.Layout.{covers, masks, set_count};
ghost use Rattle.cf_linear.specs.Views.{plain_layout};
ghost use Rattle.cf_counts.specs.declared.regions.TheConstants.{MOST_COUNTED_SETS};
ghost use Rattle.cf_counts.specs.Counted.{are_counts, count_level, size_of};

use crate::regions::{covers, mask_end};
use cf_linear::Layout;
use cf_tree::{NoMemory, Order, Rel, SetTerm, Term, add_u32, without};
use std::alloc::Global;

// How many elements a set form has, where the first count has this level.
pub(crate) fn size_of(
    alloc: Global,
    layout: &Layout,
    first: u32,
    set: &SetTerm,
) -> Result<Term, NoMemory>
    requires { set_count (plain_layout layout.now) ≤ MOST_COUNTED_SETS }
    ensures { IfOk result (λ t. term_tree t ≡ size_of (plain_layout layout.now) first (set_tree set.now)) }
{
    let end = mask_end(layout);
    let mut sum = Term::Lit(0);
    for k in 1..end {
        let inside = covers(layout, set, end - k);
        sum = plus_if(alloc, first, end - k, inside, sum)?;
    }
    Ok(sum)
}

// The sum with the count of the region of the mask, if that is inside.
fn plus_if(alloc: Global, first: u32, mask: u32, inside: bool, sum: Term) -> Result<Term, NoMemory>
    requires { 1 ≤ mask }
    ensures { IfOk result (λ t. term_tree t ≡
        (if inside then term_add (term_var (count_level first mask)) (term_tree sum) else term_tree sum)) }
{
    if inside {
        match count(alloc, first, mask) {
            Ok(count) => Ok(Term::Add(count, Box::new(alloc, sum)?)),
            Err(fault) => Err(without(sum, fault)),
        }
    } else {
        Ok(sum)
    }
}

// The variable of the count of a region.
fn count(alloc: Global, first: u32, mask: u32) -> Result<Box<Term>, NoMemory>
    requires { 1 ≤ mask }
    ensures { IfOk result (λ t. term_tree t.value ≡ term_var (count_level first mask)) }
{
    let level = add_u32(first, mask - 1)?;
    Ok(Box::new(alloc, Term::Var(level))?)
}

// That the counts of all regions are at least 0.
pub(crate) fn are_counts(alloc: Global, layout: &Layout, first: u32) -> Result<Rel, NoMemory>
    requires { set_count (plain_layout layout.now) ≤ MOST_COUNTED_SETS }
    ensures { IfOk result (λ r. rel_tree r ≡ are_counts first (masks (set_count (plain_layout layout.now)))) }
{
    let end = mask_end(layout);
    let mut all = Rel::True;
    for k in 1..end {
        all = and_count(alloc, first, end - k, all)?;
    }
    Ok(all)
}

// That the count of a region is at least 0, and the relation holds.
fn and_count(alloc: Global, first: u32, mask: u32, all: Rel) -> Result<Rel, NoMemory>
    requires { 1 ≤ mask }
    ensures { IfOk result (λ r. rel_tree r ≡ rel_and (rel_compare Ge (term_var (count_level first mask)) (term_lit (pos 0))) (rel_tree all)) }
{
    match is_count(alloc, first, mask) {
        Ok(one) => Ok(Rel::And(one, Box::new(alloc, all)?)),
        Err(fault) => Err(without(all, fault)),
    }
}

fn is_count(alloc: Global, first: u32, mask: u32) -> Result<Box<Rel>, NoMemory>
    requires { 1 ≤ mask }
    ensures { IfOk result (λ r. rel_tree r.value ≡ rel_compare Ge (term_var (count_level first mask)) (term_lit (pos 0))) }
{
    let left = count(alloc, first, mask)?;
    let right = Box::new(alloc, Term::Lit(0))?;
    let order = Order::Ge;
    Ok(Box::new(alloc, Rel::Compare { order, left, right })?)
}
