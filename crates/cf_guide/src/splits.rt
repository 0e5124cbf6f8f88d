//! What is split, where a point of the rows is no model.
use crate::frame::Frame;
use crate::limits::Limit;
use crate::point::{Point, first_marked};
use cf_close::Or;
use cf_linear::Row;
use cf_simplex::{Ratio, Simplex, Span, Stop, combination, product, quotient, size, total, unit};
use std::alloc::Global;

/// So many splits at fractions in a row, and ors that are left are split first.
const MOST_FRACTIONS: u64 = 2;

/// After so many splits at fractions all is simplified again.
const FRACTIONS_AGAIN: u64 = 4;

/// What is to be split.
#[derive(Drop)]
pub(crate) enum Split {
    /// An or, beginning with a branch.
    Or(usize, usize),
    /// A row that is at least 0 first, and then below; both nodes keep the point's rows.
    Warm(Row),
    /// The same, and both nodes are simplified again.
    Cold(Row),
    /// Nothing: the point is a model.
    Model(Vec<i128>),
    /// Nothing: the search ends at a limit.
    Stop(Limit),
}

/// Chooses.
pub(crate) fn choose(
    alloc: Global,
    frame: &Frame,
    simplex: &Simplex,
    point: &Point,
    marks: &[bool],
    ors: &[Or],
) -> Result<Split, Stop> {
    if let Some(or) = shortest(Candidates::Violated, ors, marks) {
        return Ok(Split::Or(or, 0));
    }
    let Some(fraction) = narrowest_fraction(frame, simplex, point)? else {
        return model(alloc, point);
    };
    if frame.fractions >= MOST_FRACTIONS {
        if let Some(or) = shortest(Candidates::All, ors, marks) {
            return Ok(Split::Or(or, branch_at(ors, or, marks)));
        }
    }
    if fraction.width.is_none() {
        if let Some(span) = simplex.narrowest() {
            return halves(alloc, simplex, span);
        }
    }
    let row = at_fraction(alloc, fraction.column, fraction.value)?;
    if frame.fractions % FRACTIONS_AGAIN == FRACTIONS_AGAIN - 1 {
        Ok(Split::Cold(row))
    } else {
        Ok(Split::Warm(row))
    }
}

fn model(alloc: Global, point: &Point) -> Result<Split, Stop> {
    match point.whole_values(alloc)? {
        Some(values) => Ok(Split::Model(values)),
        None => Err(Stop::Past),
    }
}

/// Which ors may be split.
#[derive(Clone, Copy)]
enum Candidates {
    All,
    /// Those of which no branch holds.
    Violated,
}

impl Candidates {
    fn include(self, marks: &[bool], or: &Or) -> bool {
        match self {
            Candidates::All => true,
            Candidates::Violated => first_marked(marks, or).is_none(),
        }
    }
}

// The or with the fewest branches.
fn shortest(candidates: Candidates, ors: &[Or], marks: &[bool]) -> Option<usize> {
    let mut best: Option<(usize, usize)> = None;
    for (place, or) in ors.iter().enumerate() {
        if candidates.include(marks, or) {
            best = Some(shorter(best, (place, or.branches().len())));
        }
    }
    match best {
        Some((place, _)) => Some(place),
        None => None,
    }
}

// Of two ors with the numbers of their branches the shorter one, the first of equals.
fn shorter(best: Option<(usize, usize)>, new: (usize, usize)) -> (usize, usize) {
    match best {
        Some(old) => { if new.1 < old.1 { new } else { old } }
        None => new,
    }
}

fn branch_at(ors: &[Or], or: usize, marks: &[bool]) -> usize {
    match ors.get(or) {
        Some(or) => match first_marked(marks, or) {
            Some(branch) => branch,
            None => 0,
        },
        None => 0,
    }
}

/// A column that is not whole at the point, and how many numbers its bounds leave, if it has both.
#[derive(Clone, Copy)]
struct Fraction {
    column: u32,
    value: Ratio,
    width: Option<i128>,
    size: i128,
}

fn narrowest_fraction(
    frame: &Frame,
    simplex: &Simplex,
    point: &Point,
) -> Result<Option<Fraction>, Stop> {
    let mut best: Option<Fraction> = None;
    let mut next: u32 = 0;
    for value in &point.values {
        let column = next;
        next = next.saturating_add(1);
        if value.denominator != 1 && !frame.has_solved(column) {
            let width = match simplex.span_of_column(column) {
                Some(span) => Some(span.high.saturating_sub(span.low)),
                None => None,
            };
            let new = Fraction {
                column,
                value: *value,
                width,
                size: quotient(size(value.numerator)?, value.denominator),
            };
            best = Some(narrower(best, new));
        }
    }
    Ok(best)
}

fn narrower(best: Option<Fraction>, new: Fraction) -> Fraction {
    match best {
        Some(old) => {
            let is_narrower = match (old.width, new.width) {
                (Some(a), Some(b)) => b < a,
                (Some(_), None) => false,
                (None, Some(_)) => true,
                (None, None) => new.size < old.size,
            };
            if is_narrower { new } else { old }
        }
        None => new,
    }
}

// The side of the column's fraction that is nearer to 0.
fn at_fraction(alloc: Global, column: u32, value: Ratio) -> Result<Row, Stop> {
    let down = quotient(value.numerator, value.denominator);
    if down < 0 {
        let least = total(down, 1)?;
        above(alloc, &unit(alloc, column, 1)?, least)
    } else {
        below(alloc, &unit(alloc, column, 1)?, down)
    }
}

// `row - k`.
fn above(alloc: Global, row: &Row, k: i128) -> Result<Row, Stop> {
    let constant = unit(alloc, 0, k)?;
    combination(alloc, 1, row, -1, &constant)
}

// `k - row`.
fn below(alloc: Global, row: &Row, k: i128) -> Result<Row, Stop> {
    let constant = unit(alloc, 0, k)?;
    combination(alloc, -1, row, 1, &constant)
}

// The half of a range in which the point lies, first.
fn halves(alloc: Global, simplex: &Simplex, span: Span) -> Result<Split, Stop> {
    let middle = quotient(total(span.low, span.high)?, 2);
    let at = simplex.value_at(span.variable)?;
    let row = if at.numerator > product(middle, at.denominator)? {
        let least = total(middle, 1)?;
        above(alloc, &simplex.row_of(alloc, span.variable)?, least)?
    } else {
        below(alloc, &simplex.row_of(alloc, span.variable)?, middle)?
    };
    Ok(Split::Cold(row))
}
