//! A Bound step between counted systems.
ghost use Rattle.std.specs.Prelude.{◌≡◌, ◌≤◌, ◌<◌, [], pos, int_lt, length, IfOk, OnOk};
ghost use Rattle.cf_linear.specs.Keep.{In, Formed};
ghost use Rattle.cf_linear.specs.Rows.{is_zero};
ghost use Rattle.cf_linear.specs.Stages.{unknown_stage, first_count, limits};
ghost use Rattle.cf_linear.specs.Steps.{dropped, is_positive, lowers, uppers, free_of};
ghost use Rattle.cf_linear.specs.Views.{system_of};
ghost use Rattle.cf_bounds.specs.Exact.{IsFree, AreExact};
ghost use Rattle.cf_bounds.specs.Picking.{pick_of};
ghost use Rattle.cf_elim.specs.Acts.{AreAdded, unknown_acts};
ghost use Rattle.cf_elim.specs.Stages.{StageIs, IsReady, past_clean, CountIs};
ghost use Rattle.cf_elim.specs.Bounds.{IsSearched, DropIs, GoesDropped, SearchedIs};

use crate::act::Act;
use crate::acts::put_bound;
use crate::counts::{narrowed, other_count, sum, within};
use crate::fault::ElimFault;
use crate::output::StepOutput;
use crate::stage::{Stage, State};
use cf_bounds::{Dropped, Pick, Searched, drop_output, remainder_step, select};
use cf_linear::{LimitKind, MOST_TUPLES, Refusal, Row, RowFault, Search, System};
use cf_tree::NoMemory;
use std::alloc::Global;

pub(crate) fn bound_stage(
    alloc: Global,
    acts: &mut Vec<Act>,
    system: System,
    tuples: u64,
) -> Result<Stage, ElimFault>
    requires ready { IsReady (system_of system) }
    requires none { system.equations.items ≡ [] }
    requires some { 0 < length system.unknown.items }
    ensures acts { OnOk result (AreAdded acts.old.items (unknown_acts (system_of system) system.unknown.items) acts.new.items) }
    ensures stage { StageIs (past_clean (system_of system) tuples) (unknown_stage limits (past_clean (system_of system) tuples) system.unknown.items) result }
{
    if system.inequalities.len() > u32::MAX as usize {
        drop(system);
        return Err(ElimFault::NoMemory);
    }
    let pick = select(&system);
    let tuples = tuples.saturating_mul(pick.product);
    if tuples > MOST_TUPLES {
        drop(system);
        return Err(ElimFault::Refused(Refusal::Limit {
            kind: LimitKind::Search,
            number: tuples,
        }));
    }
    match put_bound(acts, &pick) {
        Ok(()) => {}
        Err(_) => {
            drop(system);
            return Err(ElimFault::NoMemory);
        }
    }
    match searched_by(alloc, system, &pick) {
        Ok(searched) => searched_stage(alloc, searched, pick.unknown, tuples),
        Err(_) => Err(ElimFault::NoMemory),
    }
}

// The drop of x after its search.
fn searched_stage(
    alloc: Global,
    searched: Searched,
    x: u32,
    tuples: u64,
) -> Result<Stage, ElimFault>
    requires formed { Formed (system_of searched.system) }
    requires unknown { In x searched.system.unknown.items }
    requires free { IsFree x searched.system.equations.items }
    requires exact { AreExact x searched.system.inequalities.items }
    ensures { SearchedIs searched x tuples result }
{
    let Searched { system, bounds } = searched;
    match dropped_within(alloc, system, x) {
        Ok(dropped) => goes(alloc, bounds, dropped, tuples),
        Err(fault) => Err(fault),
    }
}

// On to what the drop leaves.
fn goes(
    alloc: Global,
    bounds: Vec<Search>,
    dropped: Dropped,
    tuples: u64,
) -> Result<Stage, ElimFault>
    ensures { GoesDropped bounds.items dropped tuples result }
{
    let mut back = Vec::new(alloc);
    match back.push(dropped.back) {
        Ok(()) => Ok(Stage::Goes(
            State {
                system: dropped.system,
                tuples,
                is_past_clean: false,
            },
            StepOutput {
                bounds,
                steps: Vec::new(alloc),
                back,
            },
        )),
        Err(_) => {
            drop(dropped.system);
            drop(bounds);
            Err(ElimFault::NoMemory)
        }
    }
}

// The search, where the picked product is above 1.
fn searched_by(alloc: Global, system: System, pick: &Pick) -> Result<Searched, NoMemory>
    requires ready { IsReady (system_of system) }
    requires none { system.equations.items ≡ [] }
    requires unknown { In pick.now.unknown system.unknown.items }
    requires exact { pick.now.product ≤ 1 → AreExact pick.now.unknown system.inequalities.items }
    ensures { IfOk result (λ s. IsSearched (system_of system) (pick_of pick.now) s) }
{
    if pick.product <= 1 {
        return Ok(Searched {
            system,
            bounds: Vec::new(alloc),
        });
    }
    remainder_step(alloc, system, pick)
}

/// The system without the unknown x, which no equation holds and of whose bounds each pair has a
/// coefficient 1 or -1, and how x is computed.
///
/// # Errors
/// `Refused` exactly where the rows or else the columns that this leaves, or else a product or a sum
/// that makes an entry of a new row, pass their limit, and `NoMemory` where memory ran out, which is asked
/// for once the counts are within theirs.
pub fn dropped_within(alloc: Global, system: System, x: u32) -> Result<Dropped, ElimFault>
    requires formed { Formed (system_of system) }
    requires unknown { In x system.unknown.items }
    requires free { IsFree x system.equations.items }
    requires exact { AreExact x system.inequalities.items }
    ensures { DropIs (system_of system) x result }
{
    match within_drop(&system, x) {
        Ok(()) => {}
        Err(fault) => {
            drop(system);
            return Err(fault);
        }
    }
    match drop_output(alloc, system, x) {
        Ok(dropped) => Ok(dropped),
        Err(RowFault::Past) => Err(ElimFault::Refused(Refusal::Past)),
        Err(RowFault::NoMemory) => Err(ElimFault::NoMemory),
    }
}

// Whether the rows and columns that the drop of x leaves are within the limits: each lower bound with each
// upper one makes a row.
fn within_drop(system: &System, x: u32) -> Result<(), ElimFault>
    ensures { CountIs (first_count limits (dropped (system_of system.now) x).system) result }
{
    let low = low_count(&system.inequalities, x) as u128;
    let high = high_count(&system.inequalities, x) as u128;
    let free = free_count(&system.inequalities, x) as u128;
    let kept = system.equations.len() as u128 + system.needs as u128 + free;
    let rows = narrowed(low.saturating_mul(high).saturating_add(kept));
    let columns = sum(system.known.len(), other_count(&system.unknown, x), 0, 0);
    within(rows, columns)
}

// How many lower bounds the unknown has.
#[tactic(auto, using(crate::proofs::BoundLaws::count_low))]
fn low_count(rows: &[Row], x: u32) -> usize
    ensures { result ≡ length (lowers x rows.now) }
{
    rows.iter().filter(|r| is_low(r.entry(x))).count()
}

// How many upper bounds the unknown has.
#[tactic(auto, using(crate::proofs::BoundLaws::count_high))]
fn high_count(rows: &[Row], x: u32) -> usize
    ensures { result ≡ length (uppers x rows.now) }
{
    rows.iter().filter(|r| is_high(r.entry(x))).count()
}

// How many rows do not have the unknown.
#[tactic(auto, using(crate::proofs::BoundLaws::count_free))]
fn free_count(rows: &[Row], x: u32) -> usize
    ensures { result ≡ length (free_of x rows.now) }
{
    rows.iter().filter(|r| is_none(r.entry(x))).count()
}

fn is_low(k: i128) -> bool
    ensures { result ≡ is_positive k }
{
    k > 0
}

fn is_high(k: i128) -> bool
    ensures { result ≡ int_lt k (pos 0) }
{
    k < 0
}

fn is_none(k: i128) -> bool
    ensures { result ≡ is_zero k }
{
    k == 0
}
