//! The regions of the sets of a layout, by their masks.
ghost use Rattle.std.specs.Prelude.{◌≡◌, ◌≤◌, ◌<◌, ◌^◌, ◌++◌};
ghost use Rattle.cf_tree.specs.RelView.{set_tree};
ghost use Rattle.cf_linear.specs.Layout.{bit, covers, place, set_count};
ghost use Rattle.cf_linear.specs.Views.{plain_layout};
ghost use Rattle.cf_counts.specs.declared.regions.TheConstants.{MOST_COUNTED_SETS};

use cf_linear::{Layout, place};
use cf_tree::SetTerm;

/// The most sets whose regions are counted.
pub const MOST_COUNTED_SETS: usize = 8;

// The mask behind the last one.
pub(crate) fn mask_end(layout: &Layout) -> u32
    requires { set_count (plain_layout layout.now) ≤ MOST_COUNTED_SETS }
    ensures { result ≡ 2 ^ set_count (plain_layout layout.now) }
{
    1u32 << (layout.inputs.len() + layout.out_sets.len())
}

// Whether the region of the mask lies in the set form.
pub(crate) fn covers(layout: &Layout, set: &SetTerm, mask: u32) -> bool
    requires { set_count (plain_layout layout.now) ≤ MOST_COUNTED_SETS }
    ensures { result ≡ covers (plain_layout layout.now) (set_tree set.now) mask }
{
    match set {
        SetTerm::Empty => false,
        SetTerm::Var(x) => has_bit(set_place(layout, *x), mask),
        SetTerm::Union(a, b) => covers(layout, a, mask) || covers(layout, b, mask),
        SetTerm::Inter(a, b) => covers(layout, a, mask) && covers(layout, b, mask),
        SetTerm::Diff(a, b) => covers(layout, a, mask) && !covers(layout, b, mask),
    }
}

// The place of a set among the input sets and then the output sets.
fn set_place(layout: &Layout, x: u32) -> usize
    requires { set_count (plain_layout layout.now) ≤ MOST_COUNTED_SETS }
    ensures value { result ≡ place x ((plain_layout layout.now).inputs ++ (plain_layout layout.now).out_sets) }
    ensures bound { result ≤ MOST_COUNTED_SETS }
{
    let at = place(x, &layout.inputs);
    if at < layout.inputs.len() {
        at
    } else {
        at + place(x, &layout.out_sets)
    }
}

// Whether the mask has the bit.
fn has_bit(i: usize, mask: u32) -> bool
    requires { i ≤ MOST_COUNTED_SETS }
    ensures { result ≡ bit i mask }
{
    (mask >> i) & 1 == 1
}
