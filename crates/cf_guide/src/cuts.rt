//! Residue cuts: columns that a number does not divide give way to their bounds, so that the rest has a divisor.
use crate::branches::Known;
use crate::numbers::divides;
use crate::plan::{Plan, Work, without};
use crate::rows::{column_count, is_opposite, lone};
use cf_close::{Action, Fact, FactKind, Multiple};
use cf_linear::Row;
use cf_simplex::{Stop, common, product, quotient, size, total};
use std::alloc::Global;

/// The most cuts at once.
const MOST_CUTS: usize = 200;

/// The most facts that cuts are added to.
const MOST_CUT_FACTS: usize = 250;

/// The most columns of a row that is cut.
const MOST_CUT_COLUMNS: usize = 24;

/// Adds cuts.
pub(crate) fn cut(alloc: Global, known: &Known<'_>, work: &mut Work) -> Result<(), Stop> {
    for (place, fact) in known.facts.iter().enumerate() {
        if has_room(known.facts, &work.plan) && is_cuttable(known, fact, place) {
            cut_row(alloc, known, place, &fact.row, work)?;
        }
    }
    Ok(())
}

fn has_room(facts: &[Fact], plan: &Plan) -> bool {
    let count = plan.len();
    count < MOST_CUTS && count < MOST_CUT_FACTS.saturating_sub(facts.len())
}

fn is_cuttable(known: &Known<'_>, fact: &Fact, place: usize) -> bool {
    let count = column_count(&fact.row);
    fact.kind == FactKind::Inequality
        && count >= 2
        && count <= MOST_CUT_COLUMNS
        && known.frame.is_live(fact, place)
}

// The cuts of a row by each of its entries.
fn cut_row(
    alloc: Global,
    known: &Known<'_>,
    place: usize,
    row: &Row,
    work: &mut Work,
) -> Result<(), Stop> {
    for i in 0..row.len() {
        let (column, entry) = row.at(i);
        let g = size(entry)?;
        if column != 0 && g > 1 && is_first(row, i, g) {
            work.effort.step(row.len())?;
            add_cut(alloc, known, place, row, g, &mut work.plan)?;
        }
    }
    Ok(())
}

// Whether no earlier column has the entry or its opposite.
fn is_first(row: &Row, place: usize, g: i128) -> bool {
    for i in 0..row.len() {
        if i >= place {
            return true;
        }
        let (column, entry) = row.at(i);
        if column != 0 && (entry == g || is_opposite(entry, g)) {
            return false;
        }
    }
    true
}

// Adds the cut by an entry, if there is one that says more than a fact.
fn add_cut(
    alloc: Global,
    known: &Known<'_>,
    place: usize,
    row: &Row,
    g: i128,
    plan: &mut Plan,
) -> Result<(), Stop> {
    let mut residue = Residue::of(alloc, row, place, g)?;
    if let Err(stop) = residue.add_all(known, row) {
        return Err(without(residue, stop));
    }
    if residue.is_cut() && is_new(known.facts, row, &residue) {
        plan.push(Action::Add(residue.multiples))
    } else {
        drop(residue);
        Ok(())
    }
}

/// A cut: the columns that the number divides are left, and the facts make it.
#[derive(Drop)]
struct Residue {
    kept: i128,
    /// The greatest common divisor of the columns that are left.
    divisor: i128,
    constant: i128,
    multiples: Vec<Multiple>,
    /// Whether each column so far is left or has a bound.
    goes_on: bool,
}

impl Residue {
    // The row itself, with none of its columns.
    fn of(alloc: Global, row: &Row, place: usize, g: i128) -> Result<Residue, Stop> {
        Ok(Residue {
            kept: g,
            divisor: 0,
            constant: row.entry(0),
            multiples: lone(alloc, place, 1)?,
            goes_on: true,
        })
    }

    // Each column of the row in turn, until one has no bound.
    fn add_all(&mut self, known: &Known<'_>, row: &Row) -> Result<(), Stop> {
        for i in 0..row.len() {
            let (column, entry) = row.at(i);
            if column != 0 && self.goes_on {
                self.add(known, column, entry)?;
            }
        }
        Ok(())
    }

    // Leaves the column, or puts its bound in its place.
    fn add(&mut self, known: &Known<'_>, column: u32, entry: i128) -> Result<(), Stop> {
        if divides(self.kept, entry) {
            self.divisor = common(self.divisor, entry);
            return Ok(());
        }
        let Some(bound) = known.bounds.greatest(column, entry) else {
            self.goes_on = false;
            return Ok(());
        };
        self.constant = total(self.constant, product(entry, bound.value)?)?;
        self.multiples.push(Multiple {
            fact: bound.fact,
            factor: size(entry)?,
        })?;
        Ok(())
    }

    // Whether a bound was put in the place of a column, and the rest has a divisor.
    fn is_cut(&self) -> bool {
        self.goes_on && self.multiples.len() >= 2 && self.divisor >= 2
    }

    // The constant, once the divisor is taken out.
    fn tight_constant(&self) -> i128 {
        quotient(self.constant, self.divisor)
    }
}

// Whether no fact says as much.
fn is_new(facts: &[Fact], row: &Row, cut: &Residue) -> bool {
    for fact in facts {
        if says_cut(fact, row, cut) {
            return false;
        }
    }
    true
}

fn says_cut(fact: &Fact, row: &Row, cut: &Residue) -> bool {
    fact.kind == FactKind::Inequality
        && fact.row.entry(0) <= cut.tight_constant()
        && has_columns(&fact.row, row, cut)
}

// Whether a row has the columns of the cut.
fn has_columns(known: &Row, row: &Row, cut: &Residue) -> bool {
    let mut count = 0usize;
    for i in 0..row.len() {
        let (column, entry) = row.at(i);
        if column != 0 && divides(cut.kept, entry) {
            if known.entry(column) != quotient(entry, cut.divisor) {
                return false;
            }
            count = count.saturating_add(1);
        }
    }
    column_count(known) == count
}
