//! The lets and needs of an arm as they are made.
ghost use Rattle.std.specs.Prelude.{◌≡◌, ◌≤◌, ◌<◌, ◌^◌, map, length, IfOk, OnOk};
ghost use Rattle.std.specs.List.{fold};
ghost use Rattle.cf_tree.specs.CodeView.{code_tree, item_tree};
ghost use Rattle.cf_linear.specs.declared.refusal.TheConstants.{MOST_SETS};
ghost use Rattle.cf_linear.specs.Arm.{let_named, let_region, need, step_item, back_item, with_fresh};
ghost use Rattle.cf_linear.specs.Layout.{masks, set_count, first_free};
ghost use Rattle.cf_linear.specs.Views.{plain_layout, step_of, back_of};
ghost use Rattle.cf_choose.specs.ArmBuilders.{builder_of, let_alone, SameBuilder, StepFits, StepsFit, BackFits};

use crate::codes::{divides_code, how_code, need_code, quotient_code};
use cf_linear::{Back, Layout, Step};
use cf_setwit::{ColumnLevels, fresh_code, region_code, size_code};
use cf_tree::{Code, Item, NoMemory, Order};
use std::alloc::Global;

/// An arm on the way: the next level, the levels of the columns that are named so far, and the items so far.
#[derive(Drop)]
pub struct ArmBuilder {
    pub level: u32,
    pub names: ColumnLevels,
    pub items: Vec<Item>,
}

impl ArmBuilder {
    // A let that is no column's, and its level.
    fn let_alone(&mut self, code: Code) -> Result<u32, NoMemory>
        ensures made { OnOk result (SameBuilder (builder_of self.new) (let_alone (builder_of self.old) (code_tree code))) }
        ensures level { IfOk result (λ n. n ≡ self.old.level) }
    {
        self.items.push(Item::Let(code))?;
        let level = self.level;
        match level.checked_add(1) {
            Some(next) => self.level = next,
            None => return Err(NoMemory),
        }
        Ok(level)
    }

    /// A let whose level is the name of the column.
    ///
    /// # Errors
    /// `NoMemory` where memory ran out.
    pub fn let_named(&mut self, column: u32, code: Code) -> Result<(), NoMemory>
        ensures { OnOk result (SameBuilder (builder_of self.new) (let_named (builder_of self.old) column (code_tree code))) }
    {
        let level = self.let_alone(code)?;
        self.names.name(column, level)?;
        Ok(())
    }

    // The region with the mask and its size.
    fn region(&mut self, alloc: Global, layout: &Layout, mask: u32) -> Result<(), NoMemory>
        requires sets { set_count (plain_layout layout.now) ≤ MOST_SETS }
        requires room { first_free (plain_layout layout.now) < 2 ^ 32 }
        requires mask { mask < 2 ^ length layout.now.inputs.items }
        ensures { OnOk result (SameBuilder (builder_of self.new) (let_region (plain_layout layout.now) (builder_of self.old) mask)) }
    {
        let region = region_code(alloc, layout, mask)?;
        let level = self.let_alone(region)?;
        let size = size_code(alloc, level)?;
        self.let_named(layout.input_column(mask), size)?;
        Ok(())
    }

    /// All regions of the input sets and their sizes.
    ///
    /// # Errors
    /// `NoMemory` where memory ran out.
    pub fn regions(&mut self, alloc: Global, layout: &Layout) -> Result<(), NoMemory>
        requires sets { set_count (plain_layout layout.now) ≤ MOST_SETS }
        requires room { first_free (plain_layout layout.now) < 2 ^ 32 }
        ensures { OnOk result (SameBuilder (builder_of self.new)
            (fold (let_region (plain_layout layout.now)) (builder_of self.old) (masks (length layout.now.inputs.items)))) }
    {
        for mask in 1..layout.input_regions() {
            self.region(alloc, layout, mask)?;
        }
        Ok(())
    }

    /// The fresh numbers, where there are output sets.
    ///
    /// # Errors
    /// `NoMemory` where memory ran out.
    pub fn fresh(&mut self, alloc: Global, layout: &Layout) -> Result<(), NoMemory>
        requires sets { set_count (plain_layout layout.now) ≤ MOST_SETS }
        requires room { first_free (plain_layout layout.now) < 2 ^ 32 }
        ensures { OnOk result (map item_tree self.new.items.items ≡ with_fresh (plain_layout layout.now) (builder_of self.old)) }
    {
        if !layout.out_sets.is_empty() {
            let code = fresh_code(alloc, layout, &self.names)?;
            self.let_alone(code)?;
        }
        Ok(())
    }

    /// A need of the code.
    ///
    /// # Errors
    /// `NoMemory` where memory ran out.
    pub fn need(&mut self, code: Code) -> Result<(), NoMemory>
        ensures { OnOk result (SameBuilder (builder_of self.new) (need (builder_of self.old) (code_tree code))) }
    {
        self.items.push(Item::Need(code))?;
        Ok(())
    }

    // A let or a need of the elimination.
    fn step(&mut self, alloc: Global, step: &Step) -> Result<(), NoMemory>
        ensures made { OnOk result (SameBuilder (builder_of self.new) (step_item (builder_of self.old) (step_of step.now))) }
        ensures fits { OnOk result (StepFits (step_of step.now)) }
    {
        match step {
            Step::Let(column, row, g) => {
                let code = quotient_code(alloc, &self.names, row, *g)?;
                self.let_named(*column, code)
            }
            Step::NeedNonneg(row) => {
                let code = need_code(alloc, &self.names, Order::Ge, row)?;
                self.need(code)
            }
            Step::NeedZero(row) => {
                let code = need_code(alloc, &self.names, Order::Eq, row)?;
                self.need(code)
            }
            Step::NeedDivides(g, row) => {
                let code = divides_code(alloc, &self.names, *g, row)?;
                self.need(code)
            }
        }
    }

    // All lets and needs of the elimination, in order.
    pub(crate) fn steps(&mut self, alloc: Global, steps: &[Step]) -> Result<(), NoMemory>
        ensures made { OnOk result (SameBuilder (builder_of self.new) (fold step_item (builder_of self.old) (map step_of steps.now))) }
        ensures fits { OnOk result (StepsFit (map step_of steps.now)) }
    {
        for step in steps {
            self.step(alloc, step)?;
        }
        Ok(())
    }

    // The unknowns, in order.
    pub(crate) fn back(&mut self, alloc: Global, back: &[Back]) -> Result<(), NoMemory>
        ensures made { OnOk result (SameBuilder (builder_of self.new) (fold back_item (builder_of self.old) (map back_of back.now))) }
        ensures fits { OnOk result (BackFits (map back_of back.now)) }
    {
        for one in back {
            let code = how_code(alloc, &self.names, &one.how)?;
            self.let_named(one.unknown, code)?;
        }
        Ok(())
    }
}
