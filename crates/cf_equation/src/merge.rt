//! Merge: two unknowns give way to two new ones.
ghost use Rattle.std.specs.Prelude.{◌≡◌, ◌≢◌, ◌<◌, ◌+◌, ◌^◌, ◌++◌, length, pos, true, false, List, [], ◌∷◌, map, Err, IfOk};
ghost use Rattle.std.specs.List.{list_any};
ghost use Rattle.cf_num.specs.Limit.{IsWithin};
ghost use Rattle.cf_linear.specs.Rows.{entry};
ghost use Rattle.cf_linear.specs.Systems.{row_how};
ghost use Rattle.cf_linear.specs.Steps.{two_at, subst_all, replaced, mix, mix_passes, merge, merge_passes};
ghost use Rattle.cf_linear.specs.Views.{system_of, back_of};
ghost use Rattle.cf_equation.specs.Equations.{reduced, first_of};
ghost use Rattle.cf_linear.specs.Factors.{WithinFactors};
ghost use Rattle.cf_equation.specs.Merging.{mix_row_passes, mixed_system, mixed_answer, with_back};

use crate::replace::subst_rows;
use crate::step::Reduced;
use cf_linear::{Back, How, MergeFactors, Row, RowFault, System, factors};
use cf_tree::NoMemory;
use std::alloc::Global;

// The rows of two unknowns that go.
#[derive(Drop)]
pub(crate) struct NewRows {
    pub(crate) first: Row,
    pub(crate) second: Row,
}

// Two new unknowns, of which the first equation holds the first alone, take the places of x and y.
pub(crate) fn merge(alloc: Global, system: System, x: u32, y: u32) -> Result<Reduced, RowFault>
    requires some { 0 < length system.equations.items }
    requires first { entry (first_of (system_of system)) x ≢ pos 0 }
    requires second { entry (first_of (system_of system)) y ≢ pos 0 }
    ensures value { IfOk result (λ r. reduced r ≡ merge (system_of system) (first_of (system_of system)) x y) }
    ensures fits { IfOk result (λ r. merge_passes (system_of system) (first_of (system_of system)) x y ≡ false) }
    ensures past { result ≡ Err RowFault.Past → merge_passes (system_of system) (first_of (system_of system)) x y ≡ true }
{
    let a = first_entry(&system, x);
    let b = first_entry(&system, y);
    mix(alloc, system, x, y, factors(a, b))
}

// The entry of the first equation at the column.
fn first_entry(system: &System, x: u32) -> i128
    requires { 0 < length system.now.equations.items }
    ensures value { result ≡ entry (first_of (system_of system.now)) x }
    ensures fits { IsWithin result }
{
    system.equations[0].entry(x)
}

/// The system with two new unknowns, which these factors tell, in the places of x and y. The unknowns
/// that went are x and then y, each with its row of new ones.
///
/// # Errors
/// `Past` exactly where a product or a sum that makes an entry of a new row passes the limit of
/// numbers, and `NoMemory` where memory ran out.
pub fn mix(
    alloc: Global,
    system: System,
    x: u32,
    y: u32,
    f: MergeFactors,
) -> Result<Reduced, RowFault>
    requires within { WithinFactors f }
    ensures value { IfOk result (λ r. reduced r ≡ mix (system_of system) x y f.s f.m f.t f.n) }
    ensures fits { IfOk result (λ r. mix_passes (system_of system) x y f.s f.m f.t f.n ≡ false) }
    ensures past { result ≡ Err RowFault.Past → mix_passes (system_of system) x y f.s f.m f.t f.n ≡ true }
{
    let u = system.next;
    if u.checked_add(2).is_none() {
        drop(system);
        return Err(RowFault::NoMemory);
    }
    match new_rows(alloc, u, f) {
        Ok(rows) => mixed_by(alloc, system, x, y, rows),
        Err(NoMemory) => {
            drop(system);
            Err(RowFault::NoMemory)
        }
    }
}

// The rows of the two unknowns that go, u being the first new one.
fn new_rows(alloc: Global, u: u32, f: MergeFactors) -> Result<NewRows, NoMemory>
    requires room { u + 2 < 2 ^ 32 }
    requires within { WithinFactors f }
    ensures { IfOk result (λ r. (r.first ≡ two_at f.s u f.m (u + 1)) × (r.second ≡ two_at f.t u f.n (u + 1))) }
{
    let first = Row::two_at(alloc, f.s, u, f.m, u + 1)?;
    let second = Row::two_at(alloc, f.t, u, f.n, u + 1)?;
    Ok(NewRows { first, second })
}

// The system with the rows in the places of x and y, which are computed by them.
fn mixed_by(
    alloc: Global,
    system: System,
    x: u32,
    y: u32,
    rows: NewRows,
) -> Result<Reduced, RowFault>
    requires { system.next + 2 < 2 ^ 32 }
    ensures value { IfOk result (λ r. reduced r ≡ mixed_answer (system_of system) x rows.first y rows.second) }
    ensures fits { IfOk result (λ r. list_any (mix_row_passes x rows.first y rows.second) (system.equations.items ++ system.inequalities.items) ≡ false) }
    ensures past { result ≡ Err RowFault.Past →
        list_any (mix_row_passes x rows.first y rows.second) (system.equations.items ++ system.inequalities.items) ≡ true }
{
    let NewRows { first, second } = rows;
    match mixed_system(alloc, system, x, &first, y, &second) {
        Ok(system) => returned(alloc, system, x, first, y, second),
        Err(fault) => {
            drop(first);
            drop(second);
            Err(fault)
        }
    }
}

// The system, where x and y are computed by these rows.
fn returned(
    alloc: Global,
    system: System,
    x: u32,
    first: Row,
    y: u32,
    second: Row,
) -> Result<Reduced, RowFault>
    ensures value { IfOk result (λ r. reduced r ≡ with_back (system_of system) ((x, row_how first) ∷ (y, row_how second) ∷ [])) }
    ensures fits { result ≢ Err RowFault.Past }
{
    match two_rows(alloc, x, first, y, second) {
        Ok(back) => Ok(Reduced {
            system,
            steps: Vec::new(alloc),
            back,
        }),
        Err(NoMemory) => {
            drop(system);
            Err(RowFault::NoMemory)
        }
    }
}

// The system with `second` in the place of y and then `first` in the place of x.
#[tactic(auto, using(crate::proofs::AnyLemmas::either_false, crate::proofs::AnyLemmas::left_true, crate::proofs::AnyLemmas::right_true))]
fn mixed_system(
    alloc: Global,
    system: System,
    x: u32,
    first: &Row,
    y: u32,
    second: &Row,
) -> Result<System, RowFault>
    requires { system.next + 2 < 2 ^ 32 }
    ensures value { IfOk result (λ s. system_of s ≡ mixed_system (system_of system) x first.now y second.now) }
    ensures fits { IfOk result (λ s. list_any (mix_row_passes x first.now y second.now) (system.equations.items ++ system.inequalities.items) ≡ false) }
    ensures past { result ≡ Err RowFault.Past →
        list_any (mix_row_passes x first.now y second.now) (system.equations.items ++ system.inequalities.items) ≡ true }
{
    let equations = match mixed(alloc, system.equations, x, first, y, second) {
        Ok(rows) => rows,
        Err(fault) => return Err(fault),
    };
    let inequalities = match mixed(alloc, system.inequalities, x, first, y, second) {
        Ok(rows) => rows,
        Err(fault) => return Err(fault),
    };
    let half = replaced(alloc, &system.unknown, y, system.next + 1)?;
    Ok(System {
        known: system.known,
        unknown: replaced(alloc, &half, x, system.next)?,
        next: system.next + 2,
        equations,
        inequalities,
        needs: system.needs,
    })
}

// The rows, each with `second` in the place of y and then `first` in the place of x.
#[tactic(auto, using(crate::proofs::AnyLemmas::mixed_fits, crate::proofs::AnyLemmas::mixed_past_first, crate::proofs::AnyLemmas::mixed_past_second))]
fn mixed(
    alloc: Global,
    rows: Vec<Row>,
    x: u32,
    first: &Row,
    y: u32,
    second: &Row,
) -> Result<Vec<Row>, RowFault>
    ensures value { IfOk result (λ v. v.items ≡ subst_all x first.now (subst_all y second.now rows.items)) }
    ensures fits { IfOk result (λ v. list_any (mix_row_passes x first.now y second.now) rows.items ≡ false) }
    ensures past { result ≡ Err RowFault.Past → list_any (mix_row_passes x first.now y second.now) rows.items ≡ true }
{
    match subst_rows(alloc, rows, y, second) {
        Ok(half) => subst_rows(alloc, half, x, first),
        Err(fault) => Err(fault),
    }
}

// The columns with u in the place of x.
fn replaced(alloc: Global, columns: &[u32], x: u32, u: u32) -> Result<Vec<u32>, NoMemory>
    ensures { IfOk result (λ v. v.items ≡ replaced x u columns.now) }
{
    let mut out = Vec::new(alloc);
    for c in columns {
        out.push(if *c == x { u } else { *c })?;
    }
    Ok(out)
}

// x and then y, each computed by its row.
fn two_rows(alloc: Global, x: u32, first: Row, y: u32, second: Row) -> Result<Vec<Back>, NoMemory>
    ensures { IfOk result (λ v. map back_of v.items ≡ ((x, row_how first) ∷ (y, row_how second) ∷ [])) }
{
    let mut back = Vec::new(alloc);
    back.push(Back {
        unknown: x,
        how: How::Row(first),
    })?;
    back.push(Back {
        unknown: y,
        how: How::Row(second),
    })?;
    Ok(back)
}
