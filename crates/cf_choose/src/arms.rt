//! The arm of a case.
ghost use Rattle.std.specs.Prelude.{◌≡◌, ◌+◌, ◌*◌, ◌≤◌, ◌<◌, ◌^◌, map, length, IfOk};
ghost use Rattle.std.specs.List.{range_with_len};
ghost use Rattle.cf_tree.specs.CodeTree.{arm_of, items_of, codes_of};
ghost use Rattle.cf_tree.specs.CodeView.{code_tree, item_tree, arm_tree};
ghost use Rattle.cf_linear.specs.declared.refusal.TheConstants.{MOST_SETS};
ghost use Rattle.cf_linear.specs.Arm.{begun, search_names, first_names, arm};
ghost use Rattle.cf_linear.specs.Layout.{set_count, first_free};
ghost use Rattle.cf_linear.specs.Views.{plain_layout, step_of, back_of, bound_of};
ghost use Rattle.cf_choose.specs.ArmBuilders.{builder_of, SameBuilder, SameColumnLevels, answer_of, IsBuilt, StepsFit, BackFits, output_code, HasOutputs};

use crate::arm_builder::ArmBuilder;
use cf_linear::{Back, Layout, Search, Step, number_column, place};
use cf_setwit::{ColumnLevels, Sources, set_code};
use cf_tree::{Arm, Code, Item, NoMemory};
use std::alloc::Global;

/// The arm of a case, with the searches, lets and needs that its elimination made, in order, and how its
/// unknowns are computed, in the order in which they are.
///
/// # Errors
/// `NoMemory` where memory ran out.
pub fn arm(
    alloc: Global,
    layout: &Layout,
    bounds: &[Search],
    steps: &[Step],
    back: &[Back],
) -> Result<Arm, NoMemory>
    requires outputs { HasOutputs (plain_layout layout.now) }
    requires sets { set_count (plain_layout layout.now) ≤ MOST_SETS }
    requires room { first_free (plain_layout layout.now) < 2 ^ 32 }
    requires levels { layout.now.scope + length bounds.now + 2 * 2 ^ length layout.now.inputs.items < 2 ^ 32 }
    requires last { layout.now.scope + (length layout.now.out_numbers.items + length layout.now.out_sets.items) < 2 ^ 32 }
    ensures tree { IfOk result (λ a. arm_tree a ≡ arm (plain_layout layout.now) (answer_of bounds.now steps.now back.now)) }
    ensures steps { IfOk result (λ _. StepsFit (map step_of steps.now)) }
    ensures back { IfOk result (λ _. BackFits (map back_of back.now)) }
{
    let mut builder = start(alloc, layout, bounds)?;
    let gives = build(alloc, layout, steps, back, &mut builder)?;
    Ok(with_bounds(alloc, bounds, builder.items, gives)?)
}

// The lets and needs of the arm, and its outputs.
fn build(
    alloc: Global,
    layout: &Layout,
    steps: &[Step],
    back: &[Back],
    builder: &mut ArmBuilder,
) -> Result<Vec<Code>, NoMemory>
    requires outputs { HasOutputs (plain_layout layout.now) }
    requires sets { set_count (plain_layout layout.now) ≤ MOST_SETS }
    requires room { first_free (plain_layout layout.now) < 2 ^ 32 }
    requires levels { builder.old.level + 2 * 2 ^ length layout.now.inputs.items < 2 ^ 32 }
    requires last { layout.now.scope + (length layout.now.out_numbers.items + length layout.now.out_sets.items) < 2 ^ 32 }
    ensures built { IfOk result (λ gives. IsBuilt (plain_layout layout.now) steps.now back.now (builder_of builder.old) (map item_tree builder.new.items.items)
        (map code_tree gives.items)) }
    ensures steps { IfOk result (λ _. StepsFit (map step_of steps.now)) }
    ensures back { IfOk result (λ _. BackFits (map back_of back.now)) }
{
    let regions = builder.level;
    builder.regions(alloc, layout)?;
    builder.steps(alloc, steps)?;
    builder.back(alloc, back)?;
    let fresh = builder.level;
    let gives = gives(alloc, layout, &builder.names, Sources { regions, fresh })?;
    builder.fresh(alloc, layout)?;
    Ok(gives)
}

/// The arm with these searches, which has no items yet: the parameters and then the search columns have levels.
///
/// # Errors
/// `NoMemory` where memory ran out.
pub fn start(alloc: Global, layout: &Layout, bounds: &[Search]) -> Result<ArmBuilder, NoMemory>
    requires sets { set_count (plain_layout layout.now) ≤ MOST_SETS }
    requires room { first_free (plain_layout layout.now) < 2 ^ 32 }
    requires levels { layout.now.scope + length bounds.now < 2 ^ 32 }
    ensures made { IfOk result (λ b. SameBuilder (builder_of b) (begun (plain_layout layout.now) (map bound_of bounds.now))) }
    ensures level { IfOk result (λ b. b.level ≡ layout.now.scope + length bounds.now) }
{
    let names = first_names(alloc, layout, bounds)?;
    Ok(ArmBuilder {
        level: layout.scope + bounds.len() as u32,
        names,
        items: Vec::new(alloc),
    })
}

// The names of the parameters and then of the search columns.
fn first_names(alloc: Global, layout: &Layout, bounds: &[Search]) -> Result<ColumnLevels, NoMemory>
    requires sets { set_count (plain_layout layout.now) ≤ MOST_SETS }
    requires room { first_free (plain_layout layout.now) < 2 ^ 32 }
    requires levels { layout.now.scope + length bounds.now < 2 ^ 32 }
    ensures { IfOk result (λ n. SameColumnLevels n (first_names (plain_layout layout.now) (map bound_of bounds.now))) }
{
    let mut names = search_names(alloc, layout.scope, bounds)?;
    let mut i = layout.numbers.len();
    while i > 0 {
        i -= 1;
        let level = layout.numbers[i];
        names.name(number_column(layout, level), level)?;
    }
    Ok(names)
}

// The names of the search columns, from a level on.
fn search_names(alloc: Global, level: u32, bounds: &[Search]) -> Result<ColumnLevels, NoMemory>
    requires { level + length bounds.now < 2 ^ 32 }
    ensures { IfOk result (λ n. SameColumnLevels n (search_names level (map bound_of bounds.now))) }
{
    let mut names = ColumnLevels::new(alloc);
    let mut i = bounds.len();
    while i > 0 {
        i -= 1;
        names.name(bounds[i].column, level + i as u32)?;
    }
    Ok(names)
}

// The outputs, in the order of the choose.
fn gives(
    alloc: Global,
    layout: &Layout,
    names: &ColumnLevels,
    sources: Sources,
) -> Result<Vec<Code>, NoMemory>
    requires outputs { HasOutputs (plain_layout layout.now) }
    requires sets { set_count (plain_layout layout.now) ≤ MOST_SETS }
    requires room { first_free (plain_layout layout.now) < 2 ^ 32 }
    requires levels { sources.regions + 2 * 2 ^ length layout.now.inputs.items < 2 ^ 32 }
    requires last { layout.now.scope + (length layout.now.out_numbers.items + length layout.now.out_sets.items) < 2 ^ 32 }
    ensures { IfOk result (λ cs. map code_tree cs.items ≡ map (output_code (plain_layout layout.now) names.now sources.regions sources.fresh)
        (range_with_len layout.now.scope (length layout.now.out_numbers.items + length layout.now.out_sets.items))) }
{
    let mut codes = Vec::new(alloc);
    for i in 0..layout.out_numbers.len() + layout.out_sets.len() {
        let code = output(alloc, layout, names, sources, layout.scope + i as u32)?;
        codes.push(code)?;
    }
    Ok(codes)
}

// The output with that level.
fn output(
    alloc: Global,
    layout: &Layout,
    names: &ColumnLevels,
    sources: Sources,
    x: u32,
) -> Result<Code, NoMemory>
    requires outputs { HasOutputs (plain_layout layout.now) }
    requires sets { set_count (plain_layout layout.now) ≤ MOST_SETS }
    requires room { first_free (plain_layout layout.now) < 2 ^ 32 }
    requires levels { sources.regions + 2 * 2 ^ length layout.now.inputs.items < 2 ^ 32 }
    requires after { layout.now.scope ≤ x }
    requires before { x < layout.now.scope + (length layout.now.out_numbers.items + length layout.now.out_sets.items) }
    ensures { IfOk result (λ c. code_tree c ≡ output_code (plain_layout layout.now) names.now sources.regions sources.fresh x) }
{
    let at = place(x, &layout.out_sets);
    if at < layout.out_sets.len() {
        return set_code(alloc, layout, names, sources, at);
    }
    let column = number_column(layout, x);
    Ok(Code::Var(names.level_of(column)))
}

// The bounds of the searches.
fn bounds_of(alloc: Global, bounds: &[Search]) -> Result<Vec<u32>, NoMemory>
    ensures { IfOk result (λ v. v.items ≡ map (λ s. s.bound) bounds.now) }
{
    let mut all = Vec::new(alloc);
    for search in bounds {
        all.push(search.bound)?;
    }
    Ok(all)
}

// The arm with these parts and the bounds of the searches.
fn with_bounds(
    alloc: Global,
    bounds: &[Search],
    items: Vec<Item>,
    gives: Vec<Code>,
) -> Result<Arm, NoMemory>
    ensures { IfOk result (λ a. arm_tree a ≡ arm_of (map (λ s. s.bound) bounds.now) (items_of (map item_tree items.items)) (codes_of (map code_tree gives.items))) }
{
    let bounds = bounds_of(alloc, bounds)?;
    Ok(with_parts(bounds, items, gives))
}

fn with_parts(bounds: Vec<u32>, items: Vec<Item>, gives: Vec<Code>) -> Arm
    ensures { arm_tree result ≡ arm_of bounds.items (items_of (map item_tree items.items)) (codes_of (map code_tree gives.items)) }
{
    Arm {
        bounds,
        items,
        gives,
    }
}
