//! The codes of the fresh numbers and of the output sets.
ghost use Rattle.std.specs.Prelude.{◌≡◌, ◌+◌, ◌-◌, ◌*◌, ◌≤◌, ◌<◌, ◌^◌, ◌==◌, length, map, All, IfOk, if◌then◌else◌};
ghost use Rattle.cf_tree.specs.CodeTree.{code_var, code_slice, code_fresh};
ghost use Rattle.cf_tree.specs.CodeView.{code_tree};
ghost use Rattle.cf_linear.specs.declared.refusal.TheConstants.{MOST_SETS};
ghost use Rattle.cf_linear.specs.Arm.{level_of, sum_of, earlier_counts, piece_code, set_code, fresh_code};
ghost use Rattle.cf_linear.specs.Layout.{set_count, first_free, region_column};
ghost use Rattle.cf_linear.specs.Views.{plain_layout};
ghost use Rattle.cf_setwit.specs.Sources.{level_from};

use crate::lists::push_if;
use crate::masks::{masks_of, output_masks};
use crate::names::ColumnLevels;
use crate::regions::variables;
use crate::several::{sum_of, union_of_all};
use cf_linear::Layout;
use cf_tree::{Code, NoMemory};
use std::alloc::Global;

/// The sets that pieces are cut from: the level of the region of mask 1, after which each further
/// region has the level two higher, and the level of the fresh numbers.
#[derive(Clone, Copy, Debug, PartialEq, Eq)]
pub struct Sources {
    pub regions: u32,
    pub fresh: u32,
}

/// As many numbers outside all input sets as the regions that lie in no input set have elements.
///
/// # Errors
/// `NoMemory` where memory ran out.
pub fn fresh_code(alloc: Global, layout: &Layout, names: &ColumnLevels) -> Result<Code, NoMemory>
    requires sets { set_count (plain_layout layout.now) ≤ MOST_SETS }
    requires room { first_free (plain_layout layout.now) < 2 ^ 32 }
    ensures { IfOk result (λ c. code_tree c ≡ fresh_code (plain_layout layout.now) names.now) }
{
    let inputs = union_of_all(variables(alloc, &layout.inputs)?);
    let inputs = Box::new(alloc, inputs)?;
    let n = sum_of_earlier(alloc, layout, names, 0, output_masks(layout))?;
    let n = Box::new(alloc, n)?;
    Ok(numbers_outside(inputs, n))
}

/// Output set `j`, counted from 0: the pieces of all regions that lie in it, in rising order of
/// their masks.
///
/// # Errors
/// `NoMemory` where memory ran out.
pub fn set_code(
    alloc: Global,
    layout: &Layout,
    names: &ColumnLevels,
    sources: Sources,
    j: usize,
) -> Result<Code, NoMemory>
    requires sets { set_count (plain_layout layout.now) ≤ MOST_SETS }
    requires room { first_free (plain_layout layout.now) < 2 ^ 32 }
    requires levels { sources.regions + 2 * (2 ^ length layout.now.inputs.items - 1) < 2 ^ 32 }
    requires set { j < length layout.now.out_sets.items }
    ensures { IfOk result (λ c. code_tree c ≡ set_code (plain_layout layout.now) names.now (level_from sources.regions) sources.fresh j) }
{
    let masks = masks_of(alloc, layout, j)?;
    Ok(union_of_all(pieces(alloc, layout, names, sources, &masks)?))
}

// The pieces of the regions with the masks, in their order.
fn pieces(
    alloc: Global,
    layout: &Layout,
    names: &ColumnLevels,
    sources: Sources,
    masks: &[u32],
) -> Result<Vec<Code>, NoMemory>
    requires sets { set_count (plain_layout layout.now) ≤ MOST_SETS }
    requires room { first_free (plain_layout layout.now) < 2 ^ 32 }
    requires levels { sources.regions + 2 * (2 ^ length layout.now.inputs.items - 1) < 2 ^ 32 }
    requires masks { All (λ m. m < 2 ^ set_count (plain_layout layout.now)) masks.now }
    ensures { IfOk result (λ cs. map code_tree cs.items ≡ map (piece_code (plain_layout layout.now) names.now (level_from sources.regions) sources.fresh)
        masks.now) }
{
    let mut pieces = Vec::new(alloc);
    for mask in masks {
        pieces.push(piece_code(alloc, layout, names, sources, *mask)?)?;
    }
    Ok(pieces)
}

/// The piece of the region with the mask: a slice of the input region that it lies in, or of the
/// fresh numbers where it lies in no input set. The regions with smaller masks take what comes
/// before it.
///
/// # Errors
/// `NoMemory` where memory ran out.
pub fn piece_code(
    alloc: Global,
    layout: &Layout,
    names: &ColumnLevels,
    sources: Sources,
    mask: u32,
) -> Result<Code, NoMemory>
    requires sets { set_count (plain_layout layout.now) ≤ MOST_SETS }
    requires room { first_free (plain_layout layout.now) < 2 ^ 32 }
    requires levels { sources.regions + 2 * (2 ^ length layout.now.inputs.items - 1) < 2 ^ 32 }
    requires mask { mask < 2 ^ set_count (plain_layout layout.now) }
    ensures { IfOk result (λ c. code_tree c ≡ piece_code (plain_layout layout.now) names.now (level_from sources.regions) sources.fresh mask) }
{
    let input = mask % layout.input_regions();
    let earlier = mask / layout.input_regions();
    let from = sum_of_earlier(alloc, layout, names, input, earlier)?;
    let from = Box::new(alloc, from)?;
    let n = Box::new(alloc, count_of(layout, names, mask))?;
    let set = Box::new(alloc, Code::Var(source_level(sources, input)))?;
    Ok(slice(set, from, n))
}

/// The sum of the counts of the regions that lie in exactly the input sets of the mask and have
/// one of the first `n` masks of output sets. What lies in no set at all is no region and has no
/// count.
///
/// # Errors
/// `NoMemory` where memory ran out.
pub fn sum_of_earlier(
    alloc: Global,
    layout: &Layout,
    names: &ColumnLevels,
    mask: u32,
    n: u32,
) -> Result<Code, NoMemory>
    requires sets { set_count (plain_layout layout.now) ≤ MOST_SETS }
    requires room { first_free (plain_layout layout.now) < 2 ^ 32 }
    requires mask { mask < 2 ^ length layout.now.inputs.items }
    requires count { n ≤ 2 ^ length layout.now.out_sets.items }
    ensures { IfOk result (λ c. code_tree c ≡ sum_of (earlier_counts (plain_layout layout.now) names.now mask n)) }
{
    let step = layout.input_regions();
    let mut counts = Vec::new(alloc);
    for o in 0..n {
        let earlier = mask + step * o;
        let count = count_of(layout, names, earlier);
        push_if(&mut counts, earlier != 0, count)?;
    }
    Ok(sum_of(counts))
}

// How many elements the region with the mask has.
fn count_of(layout: &Layout, names: &ColumnLevels, mask: u32) -> Code
    requires sets { set_count (plain_layout layout.now) ≤ MOST_SETS }
    requires room { first_free (plain_layout layout.now) < 2 ^ 32 }
    requires mask { mask < 2 ^ set_count (plain_layout layout.now) }
    ensures { code_tree result ≡ code_var (level_of names.now (region_column (plain_layout layout.now) mask)) }
{
    let column = layout.region_column(mask);
    Code::Var(names.level_of(column))
}

// The level of the input region with the mask, or of the fresh numbers for the mask 0.
fn source_level(sources: Sources, mask: u32) -> u32
    requires { sources.regions + 2 * mask < 2 ^ 32 }
    ensures { result ≡ (if mask == 0 then sources.fresh else level_from sources.regions mask) }
{
    if mask == 0 {
        sources.fresh
    } else {
        sources.regions + 2 * (mask - 1)
    }
}

// The elements of the set at `n` places from `from` on.
fn slice(set: Box<Code>, from: Box<Code>, n: Box<Code>) -> Code
    ensures { code_tree result ≡ code_slice (code_tree set.value) (code_tree from.value) (code_tree n.value) }
{
    Code::Slice { set, from, n }
}

// The `n` least numbers outside the set.
fn numbers_outside(set: Box<Code>, n: Box<Code>) -> Code
    ensures { code_tree result ≡ code_fresh (code_tree set.value) (code_tree n.value) }
{
    Code::Fresh { avoid: set, n }
}
