//! Masks of regions: bit `i` is of input set `i`, and the bits after those of the input sets are of
//! the output sets.
ghost use Rattle.std.specs.Prelude.{◌≡◌, ◌+◌, ◌≤◌, ◌<◌, ◌^◌, length, filter, not, IfOk};
ghost use Rattle.cf_linear.specs.declared.refusal.TheConstants.{MOST_SETS};
ghost use Rattle.cf_linear.specs.Layout.{bit, masks, place, set_count};
ghost use Rattle.cf_linear.specs.Views.{plain_layout};

use crate::lists::push_if;
use cf_linear::{Layout, has_bit, place};
use cf_tree::NoMemory;
use std::alloc::Global;

// The input sets in the mask.
pub(crate) fn sets_in(alloc: Global, inputs: &[u32], mask: u32) -> Result<Vec<u32>, NoMemory>
    requires { length inputs.now ≤ MOST_SETS }
    ensures { IfOk result (λ v. v.items ≡ filter (λ x. bit (place x inputs.now) mask) inputs.now) }
{
    let mut sets = Vec::new(alloc);
    for x in inputs {
        push_if(&mut sets, is_in(inputs, *x, mask), *x)?;
    }
    Ok(sets)
}

// The input sets that are not in the mask.
pub(crate) fn sets_out(alloc: Global, inputs: &[u32], mask: u32) -> Result<Vec<u32>, NoMemory>
    requires { length inputs.now ≤ MOST_SETS }
    ensures { IfOk result (λ v. v.items ≡ filter (λ x. not (bit (place x inputs.now) mask)) inputs.now) }
{
    let mut sets = Vec::new(alloc);
    for x in inputs {
        push_if(&mut sets, !is_in(inputs, *x, mask), *x)?;
    }
    Ok(sets)
}

// Whether the input set is in the mask.
fn is_in(inputs: &[u32], x: u32, mask: u32) -> bool
    requires { length inputs.now ≤ MOST_SETS }
    ensures { result ≡ bit (place x inputs.now) mask }
{
    has_bit(place(x, inputs), mask)
}

// The masks of output set `j`, in rising order.
pub(crate) fn masks_of(alloc: Global, layout: &Layout, j: usize) -> Result<Vec<u32>, NoMemory>
    requires sets { set_count (plain_layout layout.now) ≤ MOST_SETS }
    requires set { j < length layout.now.out_sets.items }
    ensures { IfOk result (λ v. v.items ≡ filter (bit (length layout.now.inputs.items + j)) (masks (set_count (plain_layout layout.now)))) }
{
    let i = layout.inputs.len() + j;
    let mut masks = Vec::new(alloc);
    for mask in 1..layout.regions() {
        push_if(&mut masks, has_bit(i, mask), mask)?;
    }
    Ok(masks)
}

// How many masks of output sets there are, with the mask 0.
pub(crate) fn output_masks(layout: &Layout) -> u32
    requires { set_count (plain_layout layout.now) ≤ MOST_SETS }
    ensures { result ≡ 2 ^ length layout.now.out_sets.items }
{
    1u32 << layout.out_sets.len()
}
