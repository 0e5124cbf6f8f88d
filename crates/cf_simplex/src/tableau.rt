//! Basic variables in terms of the others.
use crate::effort::Stop;
use crate::numbers::{
    combination, common, common_of, copied, negated, opposite, plus, product, quotient, reduced,
    size,
};
use cf_linear::Row;
use std::alloc::Global;

/// The variable times `denominator` is the sum of the row's entries times their variables.
#[derive(Drop)]
pub(crate) struct Basic {
    pub variable: u32,
    pub denominator: i128,
    pub row: Row,
}

impl Basic {
    pub(crate) fn try_copy(&self, alloc: Global) -> Result<Basic, Stop> {
        Ok(Basic {
            variable: self.variable,
            denominator: self.denominator,
            row: copied(alloc, &self.row)?,
        })
    }

    /// The same without a common divisor.
    fn reduced(alloc: Global, variable: u32, denominator: i128, row: Row) -> Result<Basic, Stop> {
        let g = common_of(denominator, &row);
        let denominator = quotient(denominator, g);
        let row = reduced(alloc, row, g)?;
        Ok(Basic {
            variable,
            denominator,
            row,
        })
    }

    /// The row solved for one of its variables, which takes the place of its own.
    pub(crate) fn solved_for(&self, alloc: Global, variable: u32) -> Result<Basic, Stop> {
        let entry = self.row.entry(variable);
        let denominator = size(entry)?;
        let own = opposite(self.denominator)?;
        let rest = self.without(alloc, variable)?;
        let turned = plus(alloc, rest, self.variable, own)?;
        let row = if entry > 0 {
            negated(alloc, turned)?
        } else {
            turned
        };
        Basic::reduced(alloc, variable, denominator, row)
    }

    // The row without one of its variables.
    fn without(&self, alloc: Global, variable: u32) -> Result<Row, Stop> {
        let less = opposite(self.row.entry(variable))?;
        let row = copied(alloc, &self.row)?;
        plus(alloc, row, variable, less)
    }

    /// The row with what another variable is in the place of it.
    pub(crate) fn with(&self, alloc: Global, other: &Basic) -> Result<Basic, Stop> {
        let entry = self.row.entry(other.variable);
        let rest = self.without(alloc, other.variable)?;
        self.plus(alloc, rest, entry, other)
    }

    // The sum of the rest and `entry` times the other variable.
    fn plus(&self, alloc: Global, rest: Row, entry: i128, other: &Basic) -> Result<Basic, Stop> {
        let shares = self.shares(entry, other)?;
        let row = combined(alloc, shares.own, rest, shares.other, &other.row)?;
        Basic::reduced(alloc, self.variable, shares.denominator, row)
    }

    // What the rest and the other row are multiplied by, and the denominator of their sum.
    fn shares(&self, entry: i128, other: &Basic) -> Result<Shares, Stop> {
        let g = common(entry, self.denominator);
        let whole = product(quotient(self.denominator, g), other.denominator)?;
        let h = common(self.denominator, whole);
        let own = quotient(whole, h);
        let times = quotient(self.denominator, h);
        Ok(Shares {
            own,
            other: product(times, quotient(entry, g))?,
            denominator: product(self.denominator, own)?,
        })
    }

    /// The row with so many times another variable besides.
    pub(crate) fn plus_variable(
        &self,
        alloc: Global,
        entry: i128,
        variable: u32,
    ) -> Result<Basic, Stop> {
        let more = product(entry, self.denominator)?;
        let copy = copied(alloc, &self.row)?;
        let row = plus(alloc, copy, variable, more)?;
        Basic::reduced(alloc, self.variable, self.denominator, row)
    }

    /// The row with so many times another basic variable besides.
    pub(crate) fn plus_basic(
        &self,
        alloc: Global,
        entry: i128,
        other: &Basic,
    ) -> Result<Basic, Stop> {
        let times = product(entry, self.denominator)?;
        let copy = copied(alloc, &self.row)?;
        self.plus(alloc, copy, times, other)
    }
}

/// Factors of two rows, and the denominator of their sum.
#[derive(Clone, Copy)]
struct Shares {
    own: i128,
    other: i128,
    denominator: i128,
}

// `a * x + b * y`.
fn combined(alloc: Global, a: i128, x: Row, b: i128, y: &Row) -> Result<Row, Stop> {
    combination(alloc, a, &x, b, y)
}
