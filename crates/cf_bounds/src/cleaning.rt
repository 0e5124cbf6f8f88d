//! Clean: rows without unknowns become needs, the inequalities are tightened, and equal ones are dropped.
ghost use Rattle.std.specs.Prelude.{◌≡◌, ◌≤◌, ◌++◌, ◌∷◌, if◌then◌else◌, pos, ◌<ℤ◌, Option, Some, None, map, filter, not, [], IfOk, OnOk};
ghost use Rattle.std.specs.List.{list_any};
ghost use Rattle.cf_num.specs.Limit.{IsWithin};
ghost use Rattle.cf_linear.specs.Rows.{AreBelow, same_row, comb};
ghost use Rattle.cf_linear.specs.Systems.{EachRow, need_zero, need_nonneg, floor_of};
ghost use Rattle.cf_linear.specs.Steps.{has_unknown, unknown_part, common, tighten_row, next_tightened, tighten_all, distinct_after, one_at, clean};
ghost use Rattle.cf_linear.specs.Keep.{Formed};
ghost use Rattle.cf_linear.specs.Solved.{Owes};
ghost use Rattle.cf_linear.specs.Views.{system_of, step_of};
ghost use Rattle.cf_linear.specs.RowParts.{divided_by};
ghost use Rattle.cf_bounds.specs.CleanAnswers.{cleaned, tight_of, tightened_of};
ghost use Rattle.cf_bounds.specs.Cleaning.{held_of, joined, with_let};

use crate::lists::{add_row, joined_columns};
use cf_linear::{
    Row, Step, System, Unknowns, common, divided, divides_known, has_unknown, known_part,
    unknown_part,
};
use cf_tree::NoMemory;
use std::alloc::Global;

/// A cleaned system, with the needs and lets that were made of it, in order.
#[derive(Drop)]
pub struct Cleaned {
    pub system: System,
    pub steps: Vec<Step>,
}

// A system whose rows all hold an unknown, and the equations and inequalities that hold none.
#[derive(Drop)]
pub(crate) struct PartedSystem {
    pub(crate) held: System,
    pub(crate) zeros: Vec<Row>,
    pub(crate) nonnegs: Vec<Row>,
}

// Rows that hold an unknown, and the others.
#[derive(Drop)]
pub(crate) struct PartedRows {
    pub(crate) held: Vec<Row>,
    pub(crate) bare: Vec<Row>,
}

// A row after the tightening, with the let of its new column where it got one.
#[derive(Drop)]
pub(crate) struct Tight {
    pub(crate) step: Option<Step>,
    pub(crate) row: Row,
}

// The rows that were tightened so far, with the new columns and their lets.
#[derive(Drop)]
pub(crate) struct TightenedRows {
    pub(crate) next: u32,
    pub(crate) made: Vec<u32>,
    pub(crate) steps: Vec<Step>,
    pub(crate) rows: Vec<Row>,
}

/// Rows without unknowns become needs, equations first. The other inequalities are divided by the
/// greatest common divisor of their unknowns' coefficients, where the known part is rounded down or
/// gives way to a new column, and of equal ones the first stays.
pub fn clean(alloc: Global, system: System) -> Result<Cleaned, NoMemory>
    requires { Formed (system_of system) }
    ensures next { IfOk result (λ c. cleaned c ≡ clean (system_of system)) }
    ensures owes { IfOk result (λ c. Owes (system_of system) (cleaned c)) }
    ensures formed { IfOk result (λ c. Formed (system_of c.system)) }
{
    cleaned_system(alloc, system)
}

fn cleaned_system(alloc: Global, system: System) -> Result<Cleaned, NoMemory>
    requires { EachRow (AreBelow (system_of system).next) (system_of system).inequalities }
    ensures { IfOk result (λ c. cleaned c ≡ clean (system_of system)) }
{
    let unknown = Unknowns::of(alloc, &system.unknown)?;
    let parted = parted_system(alloc, &unknown, system)?;
    let needs = needs_of(alloc, parted.zeros, parted.nonnegs)?;
    joined(alloc, &unknown, parted.held, needs)
}

// The system with its rows that hold an unknown, and the others.
fn parted_system(
    alloc: Global,
    unknown: &Unknowns,
    system: System,
) -> Result<PartedSystem, NoMemory>
    ensures held { IfOk result (λ p. system_of p.held ≡ held_of unknown.now (system_of system)) }
    ensures zeros { IfOk result (λ p. p.zeros.items ≡ filter (λ r. not (has_unknown unknown.now r)) system.equations.items) }
    ensures nonnegs { IfOk result (λ p. p.nonnegs.items ≡ filter (λ r. not (has_unknown unknown.now r)) system.inequalities.items) }
{
    let equations = parted(alloc, unknown, system.equations)?;
    let inequalities = parted(alloc, unknown, system.inequalities)?;
    Ok(PartedSystem {
        held: System {
            known: system.known,
            unknown: system.unknown,
            next: system.next,
            equations: equations.held,
            inequalities: inequalities.held,
            needs: system.needs,
        },
        zeros: equations.bare,
        nonnegs: inequalities.bare,
    })
}

fn parted(alloc: Global, unknown: &Unknowns, rows: Vec<Row>) -> Result<PartedRows, NoMemory>
    ensures held { IfOk result (λ p. p.held.items ≡ filter (has_unknown unknown.now) rows.items) }
    ensures bare { IfOk result (λ p. p.bare.items ≡ filter (λ r. not (has_unknown unknown.now r)) rows.items) }
{
    let mut left = rows;
    left.reverse();
    let mut held = Vec::new(alloc);
    let mut bare = Vec::new(alloc);
    while let Some(row) = left.pop() {
        let holds = has_unknown(unknown, &row);
        add_to_one(&mut held, &mut bare, row, holds)?;
    }
    Ok(PartedRows { held, bare })
}

// Adds the row to the first rows if they are its place, and to the others if not.
fn add_to_one(
    first: &mut Vec<Row>,
    others: &mut Vec<Row>,
    row: Row,
    is_first: bool,
) -> Result<(), NoMemory>
    ensures first { OnOk result (first.new.items ≡ first.old.items ++ (if is_first then row ∷ [] else [])) }
    ensures others { OnOk result (others.new.items ≡ others.old.items ++ (if is_first then [] else row ∷ [])) }
{
    if is_first {
        first.push(row)?;
    } else {
        others.push(row)?;
    }
    Ok(())
}

// The new system of rows that hold an unknown, and the needs and then the lets.
fn joined(
    alloc: Global,
    unknown: &Unknowns,
    system: System,
    needs: Vec<Step>,
) -> Result<Cleaned, NoMemory>
    requires { EachRow (AreBelow system.next) system.inequalities.items }
    ensures { IfOk result (λ c. cleaned c ≡ joined (system_of system) system.equations.items
        (tighten_all unknown.now system.next system.inequalities.items) (map step_of needs.items)) }
{
    let Some(count) = system.needs.checked_add(needs.len() as u64) else {
        return Err(NoMemory);
    };
    let tight = tighten_all(alloc, unknown, system.next, system.inequalities)?;
    let inequalities = distinct(alloc, tight.rows)?;
    let known = joined_columns(system.known, &tight.made)?;
    let steps = both_steps(needs, tight.steps)?;
    Ok(Cleaned {
        system: System {
            known,
            unknown: system.unknown,
            next: tight.next,
            equations: system.equations,
            inequalities,
            needs: count,
        },
        steps,
    })
}

fn both_steps(first: Vec<Step>, second: Vec<Step>) -> Result<Vec<Step>, NoMemory>
    ensures { IfOk result (λ all. all.items ≡ first.items ++ second.items) }
{
    let mut all = first;
    let mut more = second;
    all.append(&mut more)?;
    Ok(all)
}

// The needs of the equations without unknowns, and then of the inequalities.
#[tactic(auto, using(crate::proofs::CleanLaws::steps_append))]
fn needs_of(alloc: Global, zeros: Vec<Row>, nonnegs: Vec<Row>) -> Result<Vec<Step>, NoMemory>
    ensures { IfOk result (λ s. map step_of s.items ≡ map need_zero zeros.items ++ map need_nonneg nonnegs.items) }
{
    let first = zero_needs(alloc, zeros)?;
    let second = nonneg_needs(alloc, nonnegs)?;
    let steps = both_steps(first, second)?;
    Ok(steps)
}

fn zero_needs(alloc: Global, rows: Vec<Row>) -> Result<Vec<Step>, NoMemory>
    ensures { IfOk result (λ s. map step_of s.items ≡ map need_zero rows.items) }
{
    let mut left = rows;
    left.reverse();
    let mut out = Vec::new(alloc);
    while let Some(row) = left.pop() {
        out.push(Step::NeedZero(row))?;
    }
    Ok(out)
}

fn nonneg_needs(alloc: Global, rows: Vec<Row>) -> Result<Vec<Step>, NoMemory>
    ensures { IfOk result (λ s. map step_of s.items ≡ map need_nonneg rows.items) }
{
    let mut left = rows;
    left.reverse();
    let mut out = Vec::new(alloc);
    while let Some(row) = left.pop() {
        out.push(Step::NeedNonneg(row))?;
    }
    Ok(out)
}

// The rows without those that are equal to an earlier one.
fn distinct(alloc: Global, rows: Vec<Row>) -> Result<Vec<Row>, NoMemory>
    ensures { IfOk result (λ s. s.items ≡ distinct_after [] rows.items) }
{
    let mut left = rows;
    left.reverse();
    let mut out: Vec<Row> = Vec::new(alloc);
    while let Some(row) = left.pop() {
        let is_new = !has_row(&row, &out);
        add_row(&mut out, row, is_new)?;
    }
    Ok(out)
}

// Whether the row is one of the rows.
fn has_row(row: &Row, rows: &[Row]) -> bool
    ensures { result ≡ list_any (same_row row.now) rows.now }
{
    rows.iter().any(|r| row.same(r))
}

// The rows, tightened.
fn tighten_all(
    alloc: Global,
    unknown: &Unknowns,
    next: u32,
    rows: Vec<Row>,
) -> Result<TightenedRows, NoMemory>
    requires { EachRow (AreBelow next) rows.items }
    ensures { IfOk result (λ t. tightened_of t ≡ tighten_all unknown.now next rows.items) }
{
    let mut left = rows;
    left.reverse();
    let mut all = TightenedRows {
        next,
        made: Vec::new(alloc),
        steps: Vec::new(alloc),
        rows: Vec::new(alloc),
    };
    while let Some(row) = left.pop() {
        let tight = tighten_row(alloc, unknown, all.next, row)?;
        all.add(tight)?;
    }
    Ok(all)
}

// The row, tightened by the greatest common divisor of its unknowns' coefficients. A row with the
// divisor 1 stays as it is.
#[tactic(auto, using(crate::proofs::CleanLaws::unchanged_row))]
fn tighten_row(alloc: Global, unknown: &Unknowns, next: u32, row: Row) -> Result<Tight, NoMemory>
    requires { AreBelow next row }
    ensures { IfOk result (λ t. tight_of t ≡ tighten_row unknown.now next row) }
{
    let g = common(unknown, &row);
    if g <= 1 {
        return Ok(Tight { step: None, row });
    }
    tighten_by(alloc, unknown, next, &row, g)
}

// The same by a divisor above 1.
#[tactic(auto, using(crate::proofs::CleanLaws::rounded_row, crate::proofs::CleanLaws::floored_row, cf_linear::proofs::PartLemmas::part_below))]
fn tighten_by(
    alloc: Global,
    unknown: &Unknowns,
    next: u32,
    row: &Row,
    g: i128,
) -> Result<Tight, NoMemory>
    requires divisor { g ≡ pos (common (unknown_part unknown.now row.now)) }
    requires great { pos 1 <ℤ g }
    requires below { AreBelow next row.now }
    requires g_in { IsWithin g }
    ensures { IfOk result (λ t. tight_of t ≡ tighten_row unknown.now next row.now) }
{
    let known = known_part(alloc, unknown, row)?;
    if divides_known(&known, g) {
        return rounded(alloc, row, g);
    }
    let unknowns = unknown_part(alloc, unknown, row)?;
    floored(alloc, &unknowns, known, g, next)
}

// The row, divided and rounded down.
fn rounded(alloc: Global, row: &Row, g: i128) -> Result<Tight, NoMemory>
    requires g_in { IsWithin g }
    requires positive { pos 0 <ℤ g }
    ensures { IfOk result (λ t. tight_of t ≡ (None, divided_by g row.now)) }
{
    let row = divided(alloc, row, g)?;
    Ok(Tight { step: None, row })
}

// The unknowns, divided, and the new column, which holds the known part divided and rounded down.
#[tactic(auto, using(cf_linear::proofs::PartColumns::floored_is, cf_linear::proofs::PartColumns::divided_low))]
fn floored(alloc: Global, unknowns: &Row, known: Row, g: i128, next: u32) -> Result<Tight, NoMemory>
    requires below { AreBelow next unknowns.now }
    requires g_in { IsWithin g }
    requires positive { pos 0 <ℤ g }
    ensures { IfOk result (λ t. tight_of t ≡ (Some (floor_of next known g), comb (pos 1) (divided_by g unknowns.now) (pos 1) (one_at next))) }
{
    let mut row = divided(alloc, unknowns, g)?;
    row.append(next, 1)?;
    Ok(Tight {
        step: Some(Step::Let(next, known, g)),
        row,
    })
}

impl TightenedRows {
    // Adds a row, and the new column that it got.
    fn add(&mut self, tight: Tight) -> Result<(), NoMemory>
        ensures value { OnOk result (tightened_of self.new ≡ next_tightened (tightened_of self.old) (tight_of tight)) }
        ensures grown { OnOk result (self.old.next ≤ self.new.next) }
    {
        let Tight { step, row } = tight;
        if let Some(step) = step {
            self.add_let(step)?;
        }
        self.rows.push(row)?;
        Ok(())
    }

    // Adds the let of the next column.
    fn add_let(&mut self, step: Step) -> Result<(), NoMemory>
        ensures value { OnOk result (tightened_of self.new ≡ with_let (tightened_of self.old) (step_of step)) }
        ensures grown { OnOk result (self.old.next ≤ self.new.next) }
    {
        self.steps.push(step)?;
        let Some(next) = self.next.checked_add(1) else {
            return Err(NoMemory);
        };
        self.made.push(self.next)?;
        self.next = next;
        Ok(())
    }
}
