//! The columns of a layout.
ghost use Rattle.std.specs.Prelude.{◌≡◌, ◌+◌, ◌≤◌, ◌<◌, ◌^◌, ◌++◌, ◌||◌, length, IsTrue, IfOk};
ghost use Rattle.cf_tree.specs.RelView.{set_tree};
ghost use Rattle.cf_linear.specs.Layout.{bit, place, has_level, covers, set_count, known_count, input_column, number_column, region_column, region_row, first_free};
ghost use Rattle.cf_linear.specs.declared.refusal.TheConstants.{MOST_SETS};
ghost use Rattle.cf_linear.specs.Views.{plain_layout};

use crate::row::Row;
use crate::system::Layout;
use cf_tree::{NoMemory, SetTerm};
use std::alloc::Global;

impl Layout {
    /// How many masks of sets there are, that of no set included. The regions have the masks from 1 on:
    /// bit `i` of a mask is of input set `i`, and the bits after those are of the output sets.
    pub fn regions(&self) -> u32
        requires { set_count (plain_layout self.now) ≤ MOST_SETS }
        ensures { result ≡ 2 ^ set_count (plain_layout self.now) }
    {
        1u32 << (self.inputs.len() + self.out_sets.len())
    }

    /// How many masks of input sets there are, that of no set included.
    pub fn input_regions(&self) -> u32
        requires { set_count (plain_layout self.now) ≤ MOST_SETS }
        ensures value { result ≡ 2 ^ length self.now.inputs.items }
        ensures some { 1 ≤ result }
    {
        1u32 << self.inputs.len()
    }

    /// The column of the number of elements in exactly the sets of the mask.
    pub fn region_column(&self, mask: u32) -> u32
        requires sets { set_count (plain_layout self.now) ≤ MOST_SETS }
        requires room { first_free (plain_layout self.now) < 2 ^ 32 }
        requires mask { mask < 2 ^ set_count (plain_layout self.now) }
        ensures { result ≡ region_column (plain_layout self.now) mask }
    {
        known_count(self) + self.out_numbers.len() as u32 + mask - 1
    }

    /// The column of the number of elements in exactly the input sets of the mask.
    pub fn input_column(&self, mask: u32) -> u32
        requires sets { set_count (plain_layout self.now) ≤ MOST_SETS }
        requires room { first_free (plain_layout self.now) < 2 ^ 32 }
        requires mask { mask < 2 ^ length self.now.inputs.items }
        ensures { result ≡ input_column (plain_layout self.now) mask }
    {
        self.numbers.len() as u32 + mask
    }
}

/// The column of a number variable.
pub fn number_column(layout: &Layout, x: u32) -> u32
    requires sets { set_count (plain_layout layout.now) ≤ MOST_SETS }
    requires room { first_free (plain_layout layout.now) < 2 ^ 32 }
    ensures { result ≡ number_column (plain_layout layout.now) x }
{
    let at = place(x, &layout.numbers);
    if at < layout.numbers.len() {
        1 + at as u32
    } else {
        known_count(layout) + place(x, &layout.out_numbers) as u32
    }
}

/// The sum of the counts of the regions in the set form.
pub fn region_row(alloc: Global, layout: &Layout, set: &SetTerm) -> Result<Row, NoMemory>
    requires sets { set_count (plain_layout layout.now) ≤ MOST_SETS }
    requires room { first_free (plain_layout layout.now) < 2 ^ 32 }
    ensures { IfOk result (λ r. r ≡ region_row (plain_layout layout.now) (covers (plain_layout layout.now) (set_tree set.now))) }
{
    let end = layout.regions();
    let mut out = Row::empty(alloc);
    for mask in 1..end {
        let column = layout.region_column(mask);
        if covers(layout, set, mask) {
            out.append(column, 1)?;
        }
    }
    Ok(out)
}

/// The column after those of the layout.
pub fn first_free(layout: &Layout) -> u32
    requires sets { set_count (plain_layout layout.now) ≤ MOST_SETS }
    requires room { first_free (plain_layout layout.now) < 2 ^ 32 }
    ensures { result ≡ first_free (plain_layout layout.now) }
{
    known_count(layout) + layout.out_numbers.len() as u32 + (layout.regions() - 1)
}

/// How many known columns there are.
pub fn known_count(layout: &Layout) -> u32
    requires sets { set_count (plain_layout layout.now) ≤ MOST_SETS }
    requires room { first_free (plain_layout layout.now) < 2 ^ 32 }
    ensures { result ≡ known_count (plain_layout layout.now) }
{
    layout.numbers.len() as u32 + layout.input_regions()
}

// Whether the region of the mask lies in the set form.
fn covers(layout: &Layout, set: &SetTerm, mask: u32) -> bool
    requires sets { set_count (plain_layout layout.now) ≤ MOST_SETS }
    ensures { result ≡ covers (plain_layout layout.now) (set_tree set.now) mask }
{
    match set {
        SetTerm::Empty => false,
        SetTerm::Var(x) => has_bit(set_place(layout, *x), mask),
        SetTerm::Union(a, b) => covers(layout, a, mask) || covers(layout, b, mask),
        SetTerm::Inter(a, b) => covers(layout, a, mask) && covers(layout, b, mask),
        SetTerm::Diff(a, b) => covers(layout, a, mask) && !covers(layout, b, mask),
    }
}

// The place of a set among the input sets and then the output sets.
fn set_place(layout: &Layout, x: u32) -> usize
    requires sets { set_count (plain_layout layout.now) ≤ MOST_SETS }
    ensures value { result ≡ place x ((plain_layout layout.now).inputs ++ (plain_layout layout.now).out_sets) }
    ensures bound { result ≤ MOST_SETS }
{
    let at = place(x, &layout.inputs);
    if at < layout.inputs.len() {
        at
    } else {
        at + place(x, &layout.out_sets)
    }
}

/// The place of the level, or how many levels there are.
pub fn place(x: u32, levels: &[u32]) -> usize
    ensures value { result ≡ place x levels.now }
    ensures bound { result ≤ length levels.now }
{
    for i in 0..levels.len() {
        if levels[i] == x {
            return i;
        }
    }
    levels.len()
}

/// Whether the mask has the bit.
pub fn has_bit(i: usize, mask: u32) -> bool
    requires { i ≤ MOST_SETS }
    ensures { result ≡ bit i mask }
{
    (mask >> i) & 1 == 1
}
