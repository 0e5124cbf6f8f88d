//! Two unknowns give way to two new ones.
ghost use Rattle.std.specs.Prelude.{◌≡◌, ◌==◌, ◌&&◌, ◌||◌, not};
ghost use Rattle.cf_linear.specs.Steps.{has_column, is_unit};
ghost use Rattle.cf_linear.specs.Views.{system_of};
ghost use Rattle.cf_linear.specs.Factors.{WithinFactors};
ghost use Rattle.cf_cert.specs.Applying.{mix_applied, mix_kept};
ghost use Rattle.cf_cert.specs.Stepping.{ApplyIs, DeterminantIs};

use crate::bounding::is_unknown;
use crate::next::{ApplyFault, Next, after_equation};
use crate::verdict::Why;
use cf_equation::mix;
use cf_linear::{MergeFactors, Refusal, RowFault, System};
use cf_num::{mul, sub};
use std::alloc::Global;

// The factors tell the unknowns x and y by the new ones, and have a determinant of 1 or -1.
pub(crate) fn mix_unknowns(
    alloc: Global,
    system: System,
    x: u32,
    y: u32,
    factors: MergeFactors,
) -> Result<Next, ApplyFault>
    requires { WithinFactors factors }
    ensures { ApplyIs (mix_applied (system_of system) x y factors.s factors.m factors.t factors.n) result }
{
    if are_not_two(&system.unknown, x, y) {
        drop(system);
        return Err(ApplyFault::Rejected(Why::Unknown));
    }
    let determinant = match determinant(factors) {
        Some(determinant) => determinant,
        None => {
            drop(system);
            return Err(ApplyFault::Rejected(Why::Refused(Refusal::Past)));
        }
    };
    if !is_unit(&determinant) {
        drop(system);
        return Err(ApplyFault::Rejected(Why::Factor));
    }
    mixed(alloc, system, x, y, factors)
}

// Whether x and y are not two of the columns.
fn are_not_two(columns: &[u32], x: u32, y: u32) -> bool
    ensures { result ≡ (not (has_column columns.now x && has_column columns.now y) || (x == y)) }
{
    !(is_unknown(columns, x) && is_unknown(columns, y)) || x == y
}

// The determinant, or none where a product or the difference passes the limit.
fn determinant(factors: MergeFactors) -> Option<i128>
    requires { WithinFactors factors }
    ensures { DeterminantIs factors.s factors.m factors.t factors.n result }
{
    let down = mul(factors.s, factors.n)?;
    let up = mul(factors.m, factors.t)?;
    sub(down, up)
}

fn is_unit(k: &i128) -> bool
    ensures { result ≡ is_unit k.now }
{
    *k == 1 || *k == -1
}

// The mix, whose determinant is 1 or -1.
fn mixed(
    alloc: Global,
    system: System,
    x: u32,
    y: u32,
    factors: MergeFactors,
) -> Result<Next, ApplyFault>
    requires { WithinFactors factors }
    ensures { ApplyIs (mix_kept (system_of system) x y factors.s factors.m factors.t factors.n) result }
{
    match mix(alloc, system, x, y, factors) {
        Ok(reduced) => Ok(after_equation(alloc, reduced)),
        Err(RowFault::Past) => Err(ApplyFault::Rejected(Why::Refused(Refusal::Past))),
        Err(RowFault::NoMemory) => Err(ApplyFault::NoMemory),
    }
}
