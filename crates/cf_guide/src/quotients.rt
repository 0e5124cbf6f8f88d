//! Equal quotients: of two columns that facts hold to one sum or one difference, one is put in terms of the other.
use crate::frame::{Frame, live_count};
use crate::plan::{Plan, Work};
use crate::rows::{is_opposite, two};
use cf_close::{Action, Fact, FactKind};
use cf_linear::Row;
use cf_simplex::{Stop, quotient};
use std::alloc::Global;

/// The most sums of two facts that are compared.
const MOST_SUMS: usize = 400;

/// A column with its entry.
#[derive(Clone, Copy)]
struct Entry {
    column: u32,
    entry: i128,
}

/// The sum of two facts, in which two columns are left, the lower one first: both have an entry of this size.
#[derive(Clone, Copy)]
struct Sum {
    first: Entry,
    second: Entry,
    size: i128,
    /// The constant, once the sum is divided.
    constant: i128,
    facts: (usize, usize),
}

/// Equates two columns, one and the opposite of the other, or one and the sum of the other and a number, where facts leave
/// nothing between them.
pub(crate) fn equate_quotients(
    alloc: Global,
    frame: &Frame,
    facts: &[Fact],
    work: &mut Work,
) -> Result<(), Stop> {
    work.effort.step(live_count(frame, facts) as usize)?;
    let sums = sums_of(alloc, frame, facts)?;
    equate_all(alloc, &sums, facts.len(), &mut work.plan)
}

// Equates columns by sums that are opposite, each column once. So many facts are there before.
fn equate_all(alloc: Global, sums: &[Sum], count: usize, plan: &mut Plan) -> Result<(), Stop> {
    let mut equated: Vec<u32> = Vec::new(alloc);
    let mut next = count;
    for (place, sum) in sums.iter().enumerate() {
        if let Some(opposite) = opposite_before(sums, place, sum) {
            if !equated.contains(&sum.first.column) && !equated.contains(&sum.second.column) {
                equated.push(sum.first.column)?;
                equated.push(sum.second.column)?;
                equate(alloc, sum, &opposite, next, plan)?;
                next = next.saturating_add(2);
            }
        }
    }
    Ok(())
}

// The first of the sums before that has the opposite columns, where the constants add up to 0.
fn opposite_before(sums: &[Sum], place: usize, sum: &Sum) -> Option<Sum> {
    for (other, candidate) in sums.iter().enumerate() {
        if other >= place {
            return None;
        }
        if are_opposite(sum, candidate) {
            return Some(*candidate);
        }
    }
    None
}

fn are_opposite(x: &Sum, y: &Sum) -> bool {
    are_turned(&x.first, &y.first, x.size, y.size)
        && are_turned(&x.second, &y.second, x.size, y.size)
        && is_opposite(x.constant, y.constant)
}

// Whether these are entries at one column with other signs, where they have these sizes.
fn are_turned(x: &Entry, y: &Entry, x_size: i128, y_size: i128) -> bool {
    x.column == y.column && is_opposite(quotient(x.entry, x_size), quotient(y.entry, y_size))
}

// Adds two opposite sums as the facts at that place and the next, and makes one equation of them.
fn equate(alloc: Global, x: &Sum, y: &Sum, place: usize, plan: &mut Plan) -> Result<(), Stop> {
    let other = place.saturating_add(1);
    plan.push(Action::Add(two(alloc, (x.facts.0, 1), (x.facts.1, 1))?))?;
    plan.push(Action::Add(two(alloc, (y.facts.0, 1), (y.facts.1, 1))?))?;
    plan.push(Action::Tighten(place, x.size))?;
    plan.push(Action::Tighten(other, y.size))?;
    plan.push(Action::Equate(place, other))?;
    plan.push(Action::Replace(other, Vec::new(alloc)))
}

fn sums_of(alloc: Global, frame: &Frame, facts: &[Fact]) -> Result<Vec<Sum>, Stop> {
    let mut sums = Vec::new(alloc);
    for (place, fact) in facts.iter().enumerate() {
        if is_long_inequality(frame, fact, place) {
            push_sums(frame, facts, place, &fact.row, &mut sums)?;
        }
    }
    Ok(sums)
}

fn is_long_inequality(frame: &Frame, fact: &Fact, place: usize) -> bool {
    fact.kind == FactKind::Inequality && fact.row.len() >= 2 && frame.is_live(fact, place)
}

// Adds the sums of a row with facts before it.
fn push_sums(
    frame: &Frame,
    facts: &[Fact],
    place: usize,
    row: &Row,
    sums: &mut Vec<Sum>,
) -> Result<(), Stop> {
    for (other, fact) in facts.iter().enumerate() {
        if other >= place || sums.len() >= MOST_SUMS {
            return Ok(());
        }
        if is_long_inequality(frame, fact, other) {
            if let Some(sum) = sum_of(row, &fact.row, (place, other)) {
                sums.push(sum)?;
            }
        }
    }
    Ok(())
}

// The sum of two rows, if it leaves one column of each, with entries of one size that is not 1.
fn sum_of(x: &Row, y: &Row, facts: (usize, usize)) -> Option<Sum> {
    let left = lone_entry(x, y)?;
    let right = lone_entry(y, x)?;
    let size = size_of(left.entry)?;
    let constant = x.entry(0).checked_add(y.entry(0))?;
    if size < 2 || size_of(right.entry)? != size {
        return None;
    }
    Some(Sum {
        first: lower_of(left, right),
        second: upper_of(left, right),
        size,
        constant: quotient(constant, size),
        facts,
    })
}

fn size_of(entry: i128) -> Option<i128> {
    if entry < 0 {
        entry.checked_neg()
    } else {
        Some(entry)
    }
}

fn lower_of(left: Entry, right: Entry) -> Entry {
    if left.column < right.column {
        left
    } else {
        right
    }
}

fn upper_of(left: Entry, right: Entry) -> Entry {
    if left.column < right.column {
        right
    } else {
        left
    }
}

// The one column of a row at which the other has not the opposite entry, but none.
fn lone_entry(x: &Row, y: &Row) -> Option<Entry> {
    let mut found = None;
    for i in 0..x.len() {
        let (column, entry) = x.at(i);
        if column != 0 && !is_opposite(entry, y.entry(column)) {
            if found.is_some() || y.entry(column) != 0 {
                return None;
            }
            found = Some(Entry { column, entry });
        }
    }
    found
}
