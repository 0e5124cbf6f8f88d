//! Facts without common divisors, no two of which say the same.
use crate::frame::Frame;
use crate::plan::Plan;
use crate::rows::{Likeness, column_count, compared, divisor, is_opposite, last_entry, lone, two};
use cf_close::{Action, Fact, FactKind};
use cf_linear::Row;
use cf_simplex::{Stop, total};
use std::alloc::Global;

/// Divides facts by their divisors, or refutes the node by one of them.
pub(crate) fn divide(
    alloc: Global,
    frame: &Frame,
    facts: &[Fact],
    plan: &mut Plan,
) -> Result<(), Stop> {
    for (place, fact) in facts.iter().enumerate() {
        if is_false(fact) {
            return plan.refute(alloc, lone(alloc, place, 1)?);
        }
        if frame.is_live(fact, place) {
            divide_fact(fact, place, plan)?;
        }
    }
    Ok(())
}

fn divide_fact(fact: &Fact, place: usize, plan: &mut Plan) -> Result<(), Stop> {
    let g = divisor(&fact.row);
    if g > 1 {
        plan.push(Action::Tighten(place, g))
    } else {
        Ok(())
    }
}

fn is_false(fact: &Fact) -> bool {
    let k = fact.row.entry(0);
    if column_count(&fact.row) != 0 {
        return false;
    }
    match fact.kind {
        FactKind::Equation => k != 0,
        FactKind::Inequality => k < 0,
    }
}

/// Of inequalities with the same columns the tightest stays; two with opposite columns are in conflict, or an
/// equation where nothing is between them.
pub(crate) fn settle_pairs(
    alloc: Global,
    frame: &Frame,
    facts: &[Fact],
    plan: &mut Plan,
) -> Result<(), Stop> {
    for (place, fact) in facts.iter().enumerate() {
        if is_inequality(frame, fact, place) {
            match against(frame, facts, place, fact)? {
                Pair::Weaker(weaker) => {
                    plan.push(Action::Replace(weaker, Vec::new(alloc)))?;
                }
                Pair::Equal(other) => return plan.only(Action::Equate(other, place)),
                Pair::Conflict(other) => {
                    return plan.refute(alloc, two(alloc, (other, 1), (place, 1))?);
                }
                Pair::Apart => {}
            }
        }
    }
    Ok(())
}

fn is_inequality(frame: &Frame, fact: &Fact, place: usize) -> bool {
    fact.kind == FactKind::Inequality && frame.is_live(fact, place)
}

/// What an inequality and an earlier one come to.
#[derive(Clone, Copy)]
enum Pair {
    /// The one at this place says no more than the other.
    Weaker(usize),
    /// Nothing is between it and the earlier one at this place.
    Equal(usize),
    /// It is in conflict with the earlier one at this place.
    Conflict(usize),
    Apart,
}

// What an inequality and the first earlier one that it has to do with come to.
fn against(frame: &Frame, facts: &[Fact], place: usize, fact: &Fact) -> Result<Pair, Stop> {
    for (other, earlier) in facts.iter().enumerate() {
        if other >= place {
            return Ok(Pair::Apart);
        }
        if ends_alike(&earlier.row, &fact.row) && is_inequality(frame, earlier, other) {
            match between(other, earlier, place, fact)? {
                Pair::Apart => {}
                pair => return Ok(pair),
            }
        }
    }
    Ok(Pair::Apart)
}

// Whether two rows end in one column with the same or the opposite entry, as those do that have all in common.
fn ends_alike(x: &Row, y: &Row) -> bool {
    let (column, entry) = last_entry(x);
    let (other, number) = last_entry(y);
    column == other && (entry == number || is_opposite(entry, number))
}

fn between(other: usize, earlier: &Fact, place: usize, fact: &Fact) -> Result<Pair, Stop> {
    let (k, m) = (earlier.row.entry(0), fact.row.entry(0));
    match compared(&earlier.row, &fact.row) {
        Likeness::Same => {
            if k <= m {
                Ok(Pair::Weaker(place))
            } else {
                Ok(Pair::Weaker(other))
            }
        }
        Likeness::Opposite => {
            let room = total(k, m)?;
            if room < 0 {
                Ok(Pair::Conflict(other))
            } else if room == 0 {
                Ok(Pair::Equal(other))
            } else {
                Ok(Pair::Apart)
            }
        }
        Likeness::Other => Ok(Pair::Apart),
    }
}
