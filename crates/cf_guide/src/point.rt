//! The values of all columns at a point of the rows, and what holds there.
use crate::frame::{Frame, Solved};
use crate::numbers::{sum_of, whole};
use crate::plan::without;
use cf_close::{Conjunction, Fact, FactKind, Or};
use cf_linear::Row;
use cf_simplex::{Ratio, Simplex, Stop, opposite};
use std::alloc::Global;

/// Values by column.
#[derive(Drop)]
pub(crate) struct Point {
    pub values: Vec<Ratio>,
}

impl Point {
    /// The point of a simplex, with the solved columns computed backwards.
    pub(crate) fn of(
        alloc: Global,
        frame: &Frame,
        facts: &[Fact],
        simplex: &Simplex,
        columns: u32,
    ) -> Result<Point, Stop> {
        let values = values_of(alloc, simplex, columns)?;
        let mut point = Point { values };
        match point.solve_all(facts, &frame.solved) {
            Ok(()) => Ok(point),
            Err(stop) => Err(without(point, stop)),
        }
    }

    // Each solved column, the last first.
    fn solve_all(&mut self, facts: &[Fact], columns: &[Solved]) -> Result<(), Stop> {
        for i in 0..columns.len() {
            self.solve(facts, columns[columns.len() - 1 - i])?;
        }
        Ok(())
    }

    fn solve(&mut self, facts: &[Fact], solved: Solved) -> Result<(), Stop> {
        if let Some(fact) = facts.get(solved.fact) {
            let rest = self.value_but(&fact.row, solved.column)?;
            let value = if fact.row.entry(solved.column) > 0 {
                Ratio {
                    numerator: opposite(rest.numerator)?,
                    denominator: rest.denominator,
                }
            } else {
                rest
            };
            if let Some(place) = self.values.get_mut(solved.column as usize) {
                *place = value;
            }
        }
        Ok(())
    }

    pub(crate) fn at(&self, column: u32) -> Ratio {
        match self.values.get(column as usize) {
            Some(value) => *value,
            None => whole(0),
        }
    }

    // The value of the row, without one of its columns.
    fn value_but(&self, row: &Row, left_out: u32) -> Result<Ratio, Stop> {
        let mut sum = whole(0);
        for i in 0..row.len() {
            let (column, entry) = row.at(i);
            if column != left_out {
                sum = sum_of(sum, entry, self.at(column))?;
            }
        }
        Ok(sum)
    }

    fn holds(&self, fact: &Fact) -> Result<bool, Stop> {
        let value = self.value_but(&fact.row, u32::MAX)?;
        Ok(match fact.kind {
            FactKind::Equation => value.numerator == 0,
            FactKind::Inequality => value.numerator >= 0,
        })
    }

    /// Which conjunctions hold, by place. Branches stand before the conjunctions that name them.
    pub(crate) fn marks(
        &self,
        alloc: Global,
        conjunctions: &[Conjunction],
    ) -> Result<Vec<bool>, Stop> {
        let mut marks = Vec::new(alloc);
        for conjunction in conjunctions {
            let holds = self.all_hold(conjunction.facts())?
                && all_marked(&marks, conjunction.ors());
            marks.push(holds)?;
        }
        Ok(marks)
    }

    fn all_hold(&self, facts: &[Fact]) -> Result<bool, Stop> {
        for fact in facts {
            if !self.holds(fact)? {
                return Ok(false);
            }
        }
        Ok(true)
    }

    /// All values, if they are whole.
    pub(crate) fn whole_values(&self, alloc: Global) -> Result<Option<Vec<i128>>, Stop> {
        let mut all = Vec::new(alloc);
        for value in &self.values {
            if value.denominator != 1 {
                return Ok(None);
            }
            all.push(value.numerator)?;
        }
        Ok(Some(all))
    }
}

// The values of the columns below the number, of which column 0 is 1.
fn values_of(alloc: Global, simplex: &Simplex, columns: u32) -> Result<Vec<Ratio>, Stop> {
    let mut values = Vec::new(alloc);
    values.push(whole(1))?;
    for column in 1..columns {
        values.push(simplex.value(column)?)?;
    }
    Ok(values)
}

fn all_marked(marks: &[bool], ors: &[Or]) -> bool {
    for or in ors {
        if first_marked(marks, or).is_none() {
            return false;
        }
    }
    true
}

/// The first branch that holds.
pub(crate) fn first_marked(marks: &[bool], or: &Or) -> Option<usize> {
    for (branch, place) in or.branches().iter().enumerate() {
        if let Some(holds) = marks.get(*place as usize) {
            if *holds {
                return Some(branch);
            }
        }
    }
    None
}
