//! The end of an equation: its one unknown is computed.
ghost use Rattle.std.specs.Prelude.{◌≡◌, ◌<◌, ◌∷◌, ◌++◌, List, [], pos, neg_ℤ, true, false, length, map, drop, Err, IfOk};
ghost use Rattle.std.specs.List.{list_any};
ghost use Rattle.cf_num.specs.Limit.{IsWithin};
ghost use Rattle.cf_linear.specs.Rows.{entry, without, comb, subst_passes};
ghost use Rattle.cf_linear.specs.Systems.{row_how};
ghost use Rattle.cf_linear.specs.Steps.{is_unit, last, last_passes};
ghost use Rattle.cf_linear.specs.Views.{system_of, back_of};
ghost use Rattle.cf_equation.specs.Equations.{reduced, first_of, rest_of};
ghost use Rattle.cf_equation.specs.Ending.{IsLeft, IsSolution};

use crate::replace::{Left, subst_rows};
use crate::step::Reduced;
use cf_linear::{Back, How, Row, RowFault, Step, System, division, others, size_of};
use cf_num::neg;
use cf_tree::NoMemory;
use std::alloc::Global;

// An unknown as a row, with the known columns, needs and steps that come with it.
#[derive(Drop)]
pub(crate) struct Solution {
    pub(crate) row: Row,
    pub(crate) known: Vec<u32>,
    pub(crate) next: u32,
    pub(crate) needs: u64,
    pub(crate) steps: Vec<Step>,
}

// The first equation has the one unknown u, which is computed by the rest of it.
pub(crate) fn end(alloc: Global, system: System, u: u32) -> Result<Reduced, RowFault>
    requires some { 0 < length system.equations.items }
    ensures value { IfOk result (λ r. reduced r ≡ last (system_of system) (first_of (system_of system)) (rest_of (system_of system)) u) }
    ensures fits { IfOk result (λ r. last_passes (system_of system) (first_of (system_of system)) (rest_of (system_of system)) u ≡ false) }
    ensures past { result ≡ Err RowFault.Past → last_passes (system_of system) (first_of (system_of system)) (rest_of (system_of system)) u ≡ true }
{
    let solved = solved_for(alloc, &system, u)?;
    match left_after(alloc, system, u, &solved.row) {
        Ok(left) => Ok(Reduced {
            system: System {
                known: solved.known,
                unknown: left.unknown,
                next: solved.next,
                equations: left.equations,
                inequalities: left.inequalities,
                needs: solved.needs,
            },
            steps: solved.steps,
            back: one_row(alloc, u, solved.row)?,
        }),
        Err(fault) => Err(fault),
    }
}

// The unknown u of the first equation, which has no other.
fn solved_for(alloc: Global, system: &System, u: u32) -> Result<Solution, NoMemory>
    requires some { 0 < length system.now.equations.items }
    ensures { IfOk result (λ s. IsSolution (system_of system.now) (entry (first_of (system_of system.now)) u) (without u (first_of (system_of system.now))) s) }
{
    let c = system.equations[0].entry(u);
    let rest = system.equations[0].without(alloc, u)?;
    let known = Vec::from_slice(alloc, &system.known)?;
    if c == 1 || c == -1 {
        whole_solution(alloc, system, known, c, rest)
    } else {
        divided_solution(alloc, system, known, c, rest)
    }
}

// The unknown of `c * u + rest = 0` for c of 1 or -1.
#[tactic(auto, using(crate::proofs::EndValues::unit_solution))]
fn whole_solution(
    alloc: Global,
    system: &System,
    known: Vec<u32>,
    c: i128,
    rest: Row,
) -> Result<Solution, NoMemory>
    requires unit { is_unit c ≡ true }
    requires c_in { IsWithin c }
    requires known { known.items ≡ system.now.known.items }
    ensures { IfOk result (λ s. IsSolution (system_of system.now) c rest s) }
{
    Ok(Solution {
        row: unit_multiple(alloc, &rest, c)?,
        known,
        next: system.next,
        needs: system.needs,
        steps: Vec::new(alloc),
    })
}

// `-c` times the row, for c of 1 or -1.
fn unit_multiple(alloc: Global, row: &Row, c: i128) -> Result<Row, NoMemory>
    requires unit { is_unit c ≡ true }
    requires c_in { IsWithin c }
    ensures { IfOk result (λ r. r ≡ comb (neg_ℤ c) row.now (pos 0) []) }
{
    let none = Row::empty(alloc);
    match row.combine(alloc, neg(c), &none, 0) {
        Ok(out) => Ok(out),
        Err(RowFault::NoMemory) => Err(NoMemory),
        Err(RowFault::Past) => unreachable!(),
    }
}

// The unknown of `c * u + rest = 0` for another c: a new column holds the quotient by |c|, which is to
// divide the rest.
fn divided_solution(
    alloc: Global,
    system: &System,
    known: Vec<u32>,
    c: i128,
    rest: Row,
) -> Result<Solution, NoMemory>
    requires other { is_unit c ≡ false }
    requires c_in { IsWithin c }
    requires known { known.items ≡ system.now.known.items }
    ensures { IfOk result (λ s. IsSolution (system_of system.now) c rest s) }
{
    let column = system.next;
    let (next, needs) = match (column.checked_add(1), system.needs.checked_add(1)) {
        (Some(next), Some(needs)) => (next, needs),
        _ => {
            drop(known);
            drop(rest);
            return Err(NoMemory);
        }
    };
    let (size, sign) = size_of(c);
    let steps = division(alloc, column, rest, size)?;
    let known = with_column(known, column)?;
    Ok(Solution {
        row: Row::unit(alloc, column, sign)?,
        known,
        next,
        needs,
        steps,
    })
}

// The columns, and this one at the end.
fn with_column(columns: Vec<u32>, column: u32) -> Result<Vec<u32>, NoMemory>
    ensures { IfOk result (λ v. v.items ≡ columns.items ++ (column ∷ [])) }
{
    let mut all = columns;
    all.push(column)?;
    Ok(all)
}

// The unknown with the row that it is.
fn one_row(alloc: Global, u: u32, row: Row) -> Result<Vec<Back>, NoMemory>
    ensures { IfOk result (λ v. map back_of v.items ≡ ((u, row_how row) ∷ [])) }
{
    let mut back = Vec::new(alloc);
    back.push(Back {
        unknown: u,
        how: How::Row(row),
    })?;
    Ok(back)
}

// What is left of the system with the row in the place of u, without its first equation.
#[tactic(auto, using(crate::proofs::AnyLemmas::either_false, crate::proofs::AnyLemmas::left_true, crate::proofs::AnyLemmas::right_true))]
fn left_after(alloc: Global, system: System, u: u32, row: &Row) -> Result<Left, RowFault>
    requires { 0 < length system.equations.items }
    ensures value { IfOk result (λ l. IsLeft (system_of system) u row.now l) }
    ensures fits { IfOk result (λ l. list_any (subst_passes u row.now) (rest_of (system_of system) ++ (system_of system).inequalities) ≡ false) }
    ensures past { result ≡ Err RowFault.Past →
        list_any (subst_passes u row.now) (rest_of (system_of system) ++ (system_of system).inequalities) ≡ true }
{
    let rest = without_first(system.equations);
    let equations = match subst_rows(alloc, rest, u, row) {
        Ok(rows) => rows,
        Err(fault) => return Err(fault),
    };
    let inequalities = match subst_rows(alloc, system.inequalities, u, row) {
        Ok(rows) => rows,
        Err(fault) => return Err(fault),
    };
    Ok(Left {
        unknown: others(alloc, &system.unknown, u)?,
        equations,
        inequalities,
    })
}

// The rows but the first.
fn without_first(rows: Vec<Row>) -> Vec<Row>
    requires { 0 < length rows.items }
    ensures { result.items ≡ drop 1 rows.items }
{
    let mut rest = rows;
    rest.remove(0);
    rest
}
