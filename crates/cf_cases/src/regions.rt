//! Rows over the counts of regions.
ghost use Rattle.std.specs.Prelude.{◌≡◌, ◌++◌, ◌+◌, ◌≤◌, ◌<◌, ◌^◌, ◌%◌, ◌==◌, [], map, length, pos, IfOk, OnOk};
ghost use Rattle.cf_tree.specs.RelView.{set_tree};
ghost use Rattle.cf_tree.specs.RelTree.{diff_of};
ghost use Rattle.cf_linear.specs.Rows.{put, AreBelow};
ghost use Rattle.cf_linear.specs.declared.refusal.TheConstants.{MOST_SETS};
ghost use Rattle.cf_linear.specs.Layout.{set_count, first_free, region_row, masks, region_column};
ghost use Rattle.cf_linear.specs.Views.{plain_layout};
ghost use Rattle.cf_linear.specs.Cases.{input_row};
ghost use Rattle.cf_cases.specs.SystemBuilders.{rows_of, region_rows, apart, apart_form, entries_if, BuilderAnswer};

use crate::system_builder::{SystemBuilder, add_columns, add_positive};
use cf_linear::{Layout, Row, RowFault, region_row};
use cf_tree::{NoMemory, SetTerm};
use std::alloc::Global;

/// The regions that tell two set forms apart.
#[derive(Clone, Copy)]
pub enum Regions {
    /// Those in exactly one of them.
    InOne,
    /// Those in the first and not in the second.
    InFirst,
}

/// Adds the rows that say of these regions that each is empty, where `empty`, or that some is not.
///
/// # Errors
/// `Past` where an entry passes the limit, `NoMemory` where memory ran out.
pub fn add_apart(
    regions: Regions,
    empty: bool,
    a: &SetTerm,
    b: &SetTerm,
    layout: &Layout,
    builder: &mut SystemBuilder,
) -> Result<(), RowFault>
    requires sets { set_count (plain_layout layout.now) ≤ MOST_SETS }
    requires room { first_free (plain_layout layout.now) < 2 ^ 32 }
    ensures gives { BuilderAnswer (region_rows empty (rows_of builder.old) (plain_layout layout.now)
        (apart regions (plain_layout layout.now) (set_tree a.now) (set_tree b.now))) builder.new result }
    ensures next { IfOk result (λ _. builder.new.next ≡ builder.old.next) }
{
    let row = apart(builder.alloc, regions, a, b, layout)?;
    if empty {
        let added = add_columns(builder.alloc, &row, &mut builder.equations);
        drop(row);
        added?;
        Ok(())
    } else {
        let added = add_positive(&row, builder);
        drop(row);
        added
    }
}

// The sum of the counts of those regions.
fn apart(
    alloc: Global,
    regions: Regions,
    a: &SetTerm,
    b: &SetTerm,
    layout: &Layout,
) -> Result<Row, NoMemory>
    requires sets { set_count (plain_layout layout.now) ≤ MOST_SETS }
    requires room { first_free (plain_layout layout.now) < 2 ^ 32 }
    ensures { IfOk result (λ row. row ≡ region_row (plain_layout layout.now) (apart regions (plain_layout layout.now) (set_tree a.now) (set_tree b.now))) }
{
    let form = apart_form(alloc, regions, a, b)?;
    region_row(alloc, layout, &form)
}

// What lies in these regions.
fn apart_form(
    alloc: Global,
    regions: Regions,
    a: &SetTerm,
    b: &SetTerm,
) -> Result<SetTerm, NoMemory>
    ensures { IfOk result (λ s. set_tree s ≡ apart_form regions (set_tree a.now) (set_tree b.now)) }
{
    match regions {
        Regions::InOne => {
            let left = difference(alloc, a, b)?;
            let right = difference(alloc, b, a)?;
            Ok(SetTerm::Union(Box::new(alloc, left)?, Box::new(alloc, right)?))
        }
        Regions::InFirst => difference(alloc, a, b),
    }
}

// What lies in the first set form and not in the second.
fn difference(alloc: Global, a: &SetTerm, b: &SetTerm) -> Result<SetTerm, NoMemory>
    ensures { IfOk result (λ s. set_tree s ≡ diff_of (set_tree a.now) (set_tree b.now)) }
{
    let left = a.try_copy(alloc)?;
    let right = b.try_copy(alloc)?;
    Ok(SetTerm::Diff(Box::new(alloc, left)?, Box::new(alloc, right)?))
}

/// Adds of each choice of input sets the row of what lies in exactly these.
///
/// # Errors
/// `NoMemory` where memory ran out.
pub fn add_inputs(alloc: Global, layout: &Layout, rows: &mut Vec<Row>) -> Result<(), NoMemory>
    requires sets { set_count (plain_layout layout.now) ≤ MOST_SETS }
    requires room { first_free (plain_layout layout.now) < 2 ^ 32 }
    ensures { OnOk result (rows.new.items ≡ rows.old.items ++ map (input_row (plain_layout layout.now)) (masks (length layout.now.inputs.items))) }
{
    for mask in 1..layout.input_regions() {
        let row = input_row(alloc, layout, mask)?;
        rows.push(row)?;
    }
    Ok(())
}

// The sum of the counts of the regions in exactly the input sets of the mask, less the count of that
// input region.
fn input_row(alloc: Global, layout: &Layout, mask: u32) -> Result<Row, NoMemory>
    requires sets { set_count (plain_layout layout.now) ≤ MOST_SETS }
    requires room { first_free (plain_layout layout.now) < 2 ^ 32 }
    requires mask { mask < 2 ^ length layout.now.inputs.items }
    ensures { IfOk result (λ row. row ≡ input_row (plain_layout layout.now) mask) }
{
    let end = layout.regions();
    let choices = layout.input_regions();
    let mut row = Row::unit(alloc, layout.input_column(mask), -1)?;
    for region in 1..end {
        let column = layout.region_column(region);
        let inside = is_inside(region, choices, mask);
        append_if(&mut row, column, inside)?;
    }
    Ok(row)
}

// Whether the region lies in exactly the input sets of the mask.
fn is_inside(region: u32, choices: u32, mask: u32) -> bool
    requires { 1 ≤ choices }
    ensures { result ≡ (region % choices == mask) }
{
    region % choices == mask
}

// Adds the entry 1 at the column, which is above those of the row, where `wanted`.
fn append_if(row: &mut Row, column: u32, wanted: bool) -> Result<(), NoMemory>
    requires { AreBelow column row.old }
    ensures { OnOk result (row.new ≡ row.old ++ entries_if wanted column) }
{
    if wanted {
        row.append(column, 1)?;
    }
    Ok(())
}

/// Adds the row of the count of each region.
///
/// # Errors
/// `NoMemory` where memory ran out.
pub fn add_counts(alloc: Global, layout: &Layout, rows: &mut Vec<Row>) -> Result<(), NoMemory>
    requires sets { set_count (plain_layout layout.now) ≤ MOST_SETS }
    requires room { first_free (plain_layout layout.now) < 2 ^ 32 }
    ensures { OnOk result (rows.new.items ≡ rows.old.items ++ map (λ m. put (region_column (plain_layout layout.now) m) (pos 1) [])
        (masks (set_count (plain_layout layout.now)))) }
{
    for region in 1..layout.regions() {
        let row = Row::unit(alloc, layout.region_column(region), 1)?;
        rows.push(row)?;
    }
    Ok(())
}
