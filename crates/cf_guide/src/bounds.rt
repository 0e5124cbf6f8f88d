//! Bounds of columns, and of rows by them.
use crate::plan::without;
use crate::rows::{column_count, last_entry};
use cf_close::{Fact, FactKind, Multiple};
use cf_linear::Row;
use cf_simplex::{Stop, opposite, product, size, total};
use std::alloc::Global;

/// A bound of a column, and the fact that says so.
#[derive(Clone, Copy)]
pub(crate) struct Bound {
    pub value: i128,
    pub fact: usize,
}

/// The bounds of columns, as facts of one column say.
#[derive(Drop)]
pub(crate) struct Bounds {
    low: Vec<Option<Bound>>,
    high: Vec<Option<Bound>>,
}

impl Bounds {
    /// Those of columns below the number.
    pub(crate) fn of(alloc: Global, facts: &[Fact], columns: u32) -> Result<Bounds, Stop> {
        let low = no_bounds(alloc, columns)?;
        let high = no_bounds(alloc, columns)?;
        let mut bounds = Bounds { low, high };
        match bounds.add_all(facts) {
            Ok(()) => Ok(bounds),
            Err(stop) => Err(without(bounds, stop)),
        }
    }

    fn add_all(&mut self, facts: &[Fact]) -> Result<(), Stop> {
        for (place, fact) in facts.iter().enumerate() {
            self.add(fact, place)?;
        }
        Ok(())
    }

    fn add(&mut self, fact: &Fact, place: usize) -> Result<(), Stop> {
        if fact.kind == FactKind::Equation || column_count(&fact.row) != 1 {
            return Ok(());
        }
        let (column, entry) = last_entry(&fact.row);
        let k = fact.row.entry(0);
        if entry == 1 {
            let value = opposite(k)?;
            self.raise(column, Bound { value, fact: place });
        } else if entry == -1 {
            let bound = Bound {
                value: k,
                fact: place,
            };
            self.lower(column, bound);
        }
        Ok(())
    }

    // Has the column at least at the bound.
    fn raise(&mut self, column: u32, bound: Bound) {
        if let Some(low) = self.low.get_mut(column as usize) {
            *low = Some(match *low {
                Some(old) => { if bound.value > old.value { bound } else { old } }
                None => bound,
            });
        }
    }

    // Has the column at most at the bound.
    fn lower(&mut self, column: u32, bound: Bound) {
        if let Some(high) = self.high.get_mut(column as usize) {
            *high = Some(match *high {
                Some(old) => { if bound.value < old.value { bound } else { old } }
                None => bound,
            });
        }
    }

    pub(crate) fn low(&self, column: u32) -> Option<Bound> {
        *self.low.get(column as usize)?
    }

    pub(crate) fn high(&self, column: u32) -> Option<Bound> {
        *self.high.get(column as usize)?
    }

    /// The bound past which a column with this entry makes the row no greater.
    pub(crate) fn greatest(&self, column: u32, entry: i128) -> Option<Bound> {
        if entry > 0 {
            self.high(column)
        } else {
            self.low(column)
        }
    }
}

fn no_bounds(alloc: Global, columns: u32) -> Result<Vec<Option<Bound>>, Stop> {
    let mut bounds = Vec::new(alloc);
    for _ in 0..columns {
        bounds.push(None)?;
    }
    Ok(bounds)
}

/// The value of a row at bounds of its columns, and the facts that say so.
#[derive(Drop)]
pub(crate) struct Sum {
    pub value: i128,
    pub multiples: Vec<Multiple>,
}

/// The greatest value of `sign` times a row where the bounds hold, if there is one.
pub(crate) fn greatest_value(
    alloc: Global,
    row: &Row,
    sign: i128,
    bounds: &Bounds,
) -> Result<Option<Sum>, Stop> {
    let mut value = product(sign, row.entry(0))?;
    let mut multiples = Vec::new(alloc);
    for i in 0..row.len() {
        let (column, entry) = row.at(i);
        if column != 0 {
            let entry = product(sign, entry)?;
            match bounds.greatest(column, entry) {
                Some(bound) => {
                    value = total(value, product(entry, bound.value)?)?;
                    multiples.push(Multiple {
                        fact: bound.fact,
                        factor: size(entry)?,
                    })?;
                }
                None => return Ok(None),
            }
        }
    }
    Ok(Some(Sum { value, multiples }))
}
