//! Branches of ors that the bounds refute or imply.
use crate::bounds::{Bounds, greatest_value};
use crate::frame::{Frame, Solved};
use crate::numbers::divides;
use crate::plan::{Work, without};
use crate::rows::{Likeness, column_count, compared, divisor, lone};
use cf_close::{Action, Conflict, Conjunction, Fact, FactKind, Multiple, Or};
use cf_linear::Row;
use cf_simplex::{Stop, combination, opposite, product, total};
use std::alloc::Global;

/// What the node says.
#[derive(Clone, Copy)]
pub(crate) struct Known<'a> {
    pub frame: &'a Frame,
    pub facts: &'a [Fact],
    pub bounds: &'a Bounds,
}

impl<'a> Known<'a> {
    pub(crate) fn of(frame: &'a Frame, facts: &'a [Fact], bounds: &'a Bounds) -> Known<'a> {
        Known {
            frame,
            facts,
            bounds,
        }
    }
}

/// Leaves out branches that are refuted and ors that are implied; an or with one branch gives way to it.
pub(crate) fn judge(
    alloc: Global,
    known: &Known<'_>,
    conjunctions: &[Conjunction],
    ors: &[Or],
    work: &mut Work,
) -> Result<(), Stop> {
    for (place, or) in ors.iter().enumerate() {
        match or.branches().len() {
            0 => return work.plan.only(Action::RefuteOr(place)),
            1 => return work.plan.only(Action::TakeBranch(place)),
            _ => {}
        }
        if is_implied(alloc, known, conjunctions, place, or, work)? {
            return work.plan.only(Action::DropOr(place));
        }
    }
    Ok(())
}

// Whether a branch of an or is implied; until then those that are refuted are left out, the last first.
fn is_implied(
    alloc: Global,
    known: &Known<'_>,
    conjunctions: &[Conjunction],
    place: usize,
    or: &Or,
    work: &mut Work,
) -> Result<bool, Stop> {
    for (branch, at) in or.branches().iter().enumerate().rev() {
        if let Some(conjunction) = conjunctions.get(*at as usize) {
            work.effort
                .step(conjunction.facts().len().saturating_add(2))?;
            match branch_verdict(alloc, known, conjunction)? {
                Verdict::Refuted(conflict) => {
                    work.plan
                        .push(Action::RefuteBranch(place, branch, conflict))?;
                }
                Verdict::Implied => return Ok(true),
                Verdict::Open => {}
            }
        }
    }
    Ok(false)
}

fn branch_verdict(
    alloc: Global,
    known: &Known<'_>,
    conjunction: &Conjunction,
) -> Result<Verdict, Stop> {
    let mut implied = conjunction.ors().len() == 0;
    for (place, fact) in conjunction.facts().iter().enumerate() {
        match verdict_of(alloc, known, fact, place)? {
            Verdict::Refuted(conflict) => return Ok(Verdict::Refuted(conflict)),
            Verdict::Implied => {}
            Verdict::Open => implied = false,
        }
    }
    Ok(if implied {
        Verdict::Implied
    } else {
        Verdict::Open
    })
}

/// What is known of a branch at a node.
#[derive(Drop)]
enum Verdict {
    /// It is in conflict with the node.
    Refuted(Conflict),
    Implied,
    Open,
}

/// What is known of a fact in which no solved column stands.
#[derive(Drop)]
enum Judgement {
    Refuted(Refusal),
    Implied,
    Open,
}

/// So many times a fact of a branch never holds beside these facts of the node.
#[derive(Drop)]
struct Refusal {
    sign: i128,
    node: Vec<Multiple>,
    divisor: i128,
}

/// A fact of a branch by its place, without solved columns, and the facts that took them out.
#[derive(Drop)]
struct Cleaned {
    row: Row,
    place: usize,
    multiples: Vec<Multiple>,
}

impl Cleaned {
    fn of(alloc: Global, known: &Known<'_>, row: &Row, place: usize) -> Result<Cleaned, Stop> {
        let mut cleaned = Cleaned {
            row: row.try_copy(alloc)?,
            place,
            multiples: Vec::new(alloc),
        };
        match cleaned.take_all_out(alloc, known) {
            Ok(()) => Ok(cleaned),
            Err(stop) => Err(without(cleaned, stop)),
        }
    }

    fn take_all_out(&mut self, alloc: Global, known: &Known<'_>) -> Result<(), Stop> {
        for solved in &known.frame.solved {
            if let Some(equation) = known.facts.get(solved.fact) {
                self.take_out(alloc, *solved, &equation.row)?;
            }
        }
        Ok(())
    }

    // Takes a column out by its equation.
    fn take_out(&mut self, alloc: Global, solved: Solved, equation: &Row) -> Result<(), Stop> {
        let entry = self.row.entry(solved.column);
        if entry == 0 {
            return Ok(());
        }
        let factor = if equation.entry(solved.column) > 0 {
            opposite(entry)?
        } else {
            entry
        };
        let row = combination(alloc, 1, &self.row, factor, equation)?;
        self.row = row;
        self.multiples.push(Multiple {
            fact: solved.fact,
            factor,
        })?;
        Ok(())
    }

    // The conflict of the branch with the node.
    fn conflict(&self, alloc: Global, refusal: &Refusal) -> Result<Conflict, Stop> {
        let node = joined(alloc, &self.multiples, refusal.sign, &refusal.node)?;
        match lone(alloc, self.place, refusal.sign) {
            Ok(branch) => Ok(Conflict {
                node,
                branch,
                divisor: refusal.divisor,
            }),
            Err(stop) => Err(without(node, stop)),
        }
    }
}

// `sign` times the first, and the second.
fn joined(
    alloc: Global,
    first: &[Multiple],
    sign: i128,
    second: &[Multiple],
) -> Result<Vec<Multiple>, Stop> {
    let mut all = Vec::new(alloc);
    for multiple in first {
        all.push(Multiple {
            fact: multiple.fact,
            factor: product(sign, multiple.factor)?,
        })?;
    }
    all.extend_from_slice(second)?;
    Ok(all)
}

fn verdict_of(
    alloc: Global,
    known: &Known<'_>,
    fact: &Fact,
    place: usize,
) -> Result<Verdict, Stop> {
    let cleaned = Cleaned::of(alloc, known, &fact.row, place)?;
    let found = verdict_by(alloc, known, fact.kind, &cleaned);
    drop(cleaned);
    found
}

fn verdict_by(
    alloc: Global,
    known: &Known<'_>,
    kind: FactKind,
    cleaned: &Cleaned,
) -> Result<Verdict, Stop> {
    match judged(alloc, known, kind, &cleaned.row)? {
        Judgement::Refuted(refusal) => {
            let conflict = cleaned.conflict(alloc, &refusal);
            drop(refusal);
            Ok(Verdict::Refuted(conflict?))
        }
        Judgement::Implied => Ok(Verdict::Implied),
        Judgement::Open => Ok(Verdict::Open),
    }
}

fn judged(alloc: Global, known: &Known<'_>, kind: FactKind, row: &Row) -> Result<Judgement, Stop> {
    match kind {
        FactKind::Equation => judged_equation(alloc, row, known.bounds),
        FactKind::Inequality => judged_inequality(alloc, known, row),
    }
}

fn judged_equation(alloc: Global, row: &Row, bounds: &Bounds) -> Result<Judgement, Stop> {
    let k = row.entry(0);
    if column_count(row) == 0 {
        if k == 0 {
            return Ok(Judgement::Implied);
        }
        return Ok(refused(1, Vec::new(alloc), 1));
    }
    let g = divisor(row);
    if g > 1 && !divides(g, k) {
        return Ok(refused(1, Vec::new(alloc), g));
    }
    if let Some(node) = below(alloc, row, 1, bounds)? {
        return Ok(refused(1, node, 1));
    }
    if let Some(node) = below(alloc, row, -1, bounds)? {
        return Ok(refused(-1, node, 1));
    }
    Ok(Judgement::Open)
}

fn refused(sign: i128, node: Vec<Multiple>, divisor: i128) -> Judgement {
    Judgement::Refuted(Refusal {
        sign,
        node,
        divisor,
    })
}

// The facts by which `sign` times a row is always below 0, if it is.
fn below(
    alloc: Global,
    row: &Row,
    sign: i128,
    bounds: &Bounds,
) -> Result<Option<Vec<Multiple>>, Stop> {
    match greatest_value(alloc, row, sign, bounds)? {
        Some(most) => {
            if most.value < 0 {
                return Ok(Some(most.multiples));
            }
            drop(most);
            Ok(None)
        }
        None => Ok(None),
    }
}

fn judged_inequality(alloc: Global, known: &Known<'_>, row: &Row) -> Result<Judgement, Stop> {
    if let Some(node) = below(alloc, row, 1, known.bounds)? {
        return Ok(refused(1, node, 1));
    }
    if is_never_below(alloc, row, known.bounds)? {
        return Ok(Judgement::Implied);
    }
    match find_alike(known, row)? {
        Alike::Opposite(fact) => Ok(refused(1, lone(alloc, fact, 1)?, 1)),
        Alike::Same => Ok(Judgement::Implied),
        Alike::Other => Ok(Judgement::Open),
    }
}

// Whether the row is at least 0 wherever the bounds hold.
fn is_never_below(alloc: Global, row: &Row, bounds: &Bounds) -> Result<bool, Stop> {
    match greatest_value(alloc, row, -1, bounds)? {
        Some(least) => Ok(least.value <= 0),
        None => Ok(false),
    }
}

/// A fact of the node beside an inequality.
#[derive(Clone, Copy)]
enum Alike {
    /// One with the opposite columns, which is in conflict with it.
    Opposite(usize),
    /// One with the same columns that implies it.
    Same,
    Other,
}

fn find_alike(known: &Known<'_>, row: &Row) -> Result<Alike, Stop> {
    for (place, fact) in known.facts.iter().enumerate() {
        if fact.kind == FactKind::Inequality {
            match compared_with(fact, place, row)? {
                Alike::Other => {}
                found => return Ok(found),
            }
        }
    }
    Ok(Alike::Other)
}

fn compared_with(fact: &Fact, place: usize, row: &Row) -> Result<Alike, Stop> {
    let (k, m) = (fact.row.entry(0), row.entry(0));
    match compared(&fact.row, row) {
        Likeness::Opposite => {
            if total(k, m)? < 0 {
                Ok(Alike::Opposite(place))
            } else {
                Ok(Alike::Other)
            }
        }
        Likeness::Same => Ok(if k <= m { Alike::Same } else { Alike::Other }),
        Likeness::Other => Ok(Alike::Other),
    }
}
