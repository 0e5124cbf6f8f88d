//! What a question says of the cases of a choose, one tuple after the other.
ghost use Rattle.std.specs.Prelude.{◌≡◌, ◌<◌, [], ◌∷◌, OnOk, map};
ghost use Rattle.std.specs.List.{fold};
ghost use Rattle.cf_tree.specs.Meaning.{count_below, tuple_at};
ghost use Rattle.cf_tree.specs.RelView.{rel_tree};
ghost use Rattle.cf_linear.specs.Systems.{floor_of};
ghost use Rattle.cf_linear.specs.Views.{step_of};
ghost use Rattle.cf_warn.specs.Missing.{turns_of, turns, traced};
ghost use Rattle.cf_warn.specs.Writing.{bounds_in, case_of, draft_of, SameDraft, step_written, IsWritten};

use crate::forms::{Forms, Made};
use crate::halves::{Join, joined};
use crate::rows::{compare_fails, divides_fails, high, low};
use crate::tuples::tuples_below;
use cf_choose::Solved;
use cf_linear::{Row, Search, Step};
use cf_tree::{NoMemory, Order, Rel, Term, add_u32};
use std::alloc::Global;

// The forms of the columns, the level of the next let, what is said so far, and the needs of this tuple so far, each negated.
#[derive(Drop)]
pub(crate) struct Draft {
    pub(crate) forms: Forms,
    pub(crate) level: u32,
    pub(crate) says: Vec<Rel>,
    pub(crate) fails: Vec<Rel>,
}

impl Draft {
    // Nothing is said, and the next let has the level.
    pub(crate) fn new(alloc: Global, first: Vec<Term>, level: u32) -> Draft
        ensures first { result.forms.first ≡ first }
        ensures level { result.level ≡ level }
        ensures says { result.says.items ≡ [] }
    {
        Draft {
            forms: Forms::new(alloc, first),
            level,
            says: Vec::new(alloc),
            fails: Vec::new(alloc),
        }
    }

    // All tuples of all cases, in order.
    pub(crate) fn cases(&mut self, alloc: Global, solved: &Solved) -> Result<(), NoMemory>
        ensures { OnOk result (IsWritten self.old self.new (turns (traced solved.now.scope.items solved.now.outputs.items (rel_tree solved.now.rel)))) }
    {
        for case in 0..solved.cases_len() {
            self.tuples(alloc, solved.bounds(case), solved.steps(case))?;
        }
        Ok(())
    }

    // All tuples of a case, in order.
    fn tuples(&mut self, alloc: Global, bounds: &[Search], steps: &[Step]) -> Result<(), NoMemory>
        ensures { OnOk result (IsWritten self.old self.new (turns_of (case_of bounds.now steps.now))) }
    {
        for number in 0..tuples_below(bounds)? {
            self.tuple(alloc, bounds, steps, number)?;
        }
        Ok(())
    }

    // The lets of a tuple, and that one of its needs fails.
    fn tuple(
        &mut self,
        alloc: Global,
        bounds: &[Search],
        steps: &[Step],
        number: u64,
    ) -> Result<(), NoMemory>
        requires { number < count_below (bounds_in bounds.now) }
        ensures { OnOk result (IsWritten self.old self.new ((case_of bounds.now steps.now, tuple_at (bounds_in bounds.now) number) ∷ [])) }
    {
        self.forms.search(bounds, number)?;
        self.fails.clear();
        self.steps(alloc, steps)?;
        let some_fails = joined(alloc, Join::Or, &self.fails)?;
        self.says.push(some_fails)?;
        Ok(())
    }

    // The lets and needs of a tuple, in order.
    fn steps(&mut self, alloc: Global, steps: &[Step]) -> Result<(), NoMemory>
        ensures written { OnOk result (draft_of self.new ≡ fold step_written (draft_of self.old) (map step_of steps.now)) }
        ensures first { OnOk result (self.new.forms.first ≡ self.old.forms.first) }
    {
        for step in steps {
            self.step(alloc, step)?;
        }
        Ok(())
    }

    // A let, or the negated need.
    fn step(&mut self, alloc: Global, step: &Step) -> Result<(), NoMemory>
        ensures written { OnOk result (SameDraft (draft_of self.new) (step_written (draft_of self.old) (step_of step.now))) }
        ensures first { OnOk result (self.new.forms.first ≡ self.old.forms.first) }
    {
        match step {
            Step::Let(column, row, g) => self.floor(alloc, *column, row, *g)?,
            Step::NeedNonneg(row) => self
                .fails
                .push(compare_fails(alloc, &self.forms, Order::Ge, row)?)?,
            Step::NeedZero(row) => self
                .fails
                .push(compare_fails(alloc, &self.forms, Order::Eq, row)?)?,
            Step::NeedDivides(g, row) => self
                .fails
                .push(divides_fails(alloc, &self.forms, *g, row)?)?,
        }
        Ok(())
    }

    // The let of a column, which has the next level.
    fn floor(&mut self, alloc: Global, column: u32, row: &Row, g: i128) -> Result<(), NoMemory>
        ensures written { OnOk result (SameDraft (draft_of self.new) (step_written (draft_of self.old) (floor_of column row.now g))) }
        ensures first { OnOk result (self.new.forms.first ≡ self.old.forms.first) }
    {
        let low = low(alloc, &self.forms, row, g, self.level)?;
        self.says.push(low)?;
        let high = high(alloc, &self.forms, row, g, self.level)?;
        self.says.push(high)?;
        self.forms.name(column, Made::Let(self.level))?;
        self.level = add_u32(self.level, 1)?;
        Ok(())
    }
}
