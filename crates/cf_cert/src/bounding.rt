//! The search of an unknown on one side, and its drop.
ghost use Rattle.std.specs.Prelude.{◌≡◌, ◌&&◌, ◌*◌, ◌-◌, ◌^◌, nat_lt, min, not, map, unsigned_abs, Ok, if◌then◌else◌};
ghost use Rattle.std.specs.List.{list_any, fold};
ghost use Rattle.cf_linear.specs.Rows.{entry, is_zero};
ghost use Rattle.cf_linear.specs.Sides.{is_lower, is_side};
ghost use Rattle.cf_linear.specs.Stages.{limits, times_bound};
ghost use Rattle.cf_linear.specs.Steps.{has_column};
ghost use Rattle.cf_linear.specs.Views.{system_of, bound_of};
ghost use Rattle.cf_bounds.specs.Dropping.{dropped_answer};
ghost use Rattle.cf_bounds.specs.Searching.{searched_answer};
ghost use Rattle.cf_bounds.specs.Sides.{is_great};
ghost use Rattle.cf_elim.specs.Stages.{IsReady, made_answer};
ghost use Rattle.cf_cert.specs.Applying.{has_inexact, search_applied, drop_applied};
ghost use Rattle.cf_cert.specs.Stepping.{ApplyIs, unheld_fault, times_great};

use crate::next::{ApplyFault, Next, refusal_of};
use crate::verdict::Why;
use cf_bounds::{Dropped, Pick, Searched, remainder_step};
use cf_elim::{StepOutput, dropped_within};
use cf_linear::{LimitKind, MOST_TUPLES, Refusal, Row, Search, Side, System};
use std::alloc::Global;

// The bounds of x on the side with a coefficient above 1 get search variables, if their tuples with those
// of the searches before them are within the limit.
pub(crate) fn search_side(
    alloc: Global,
    system: System,
    tuples: u64,
    x: u32,
    lower: bool,
) -> Result<Next, ApplyFault>
    requires { IsReady (system_of system) }
    ensures { ApplyIs (search_applied limits tuples (system_of system) x lower) result }
{
    match unheld_fault(&system, x) {
        Some(why) => {
            drop(system);
            return Err(ApplyFault::Rejected(why));
        }
        None => {}
    }
    let number = tuples_after(&system.inequalities, x, Side::of(lower), tuples);
    if number > MOST_TUPLES {
        drop(system);
        return Err(ApplyFault::Rejected(Why::Refused(Refusal::Limit {
            kind: LimitKind::Search,
            number,
        })));
    }
    // the search looks at the unknown and the side alone
    let pick = Pick {
        unknown: x,
        lower,
        product: 1,
        pairs: 0,
    };
    match remainder_step(alloc, system, &pick) {
        Ok(searched) => Ok(after_search(alloc, searched)),
        Err(_) => Err(ApplyFault::NoMemory),
    }
}

// So many tuples, times those of a search of x on the side.
fn tuples_after(rows: &[Row], x: u32, side: Side, tuples: u64) -> u64
    ensures { result ≡ fold (times_great (is_lower side) x) tuples rows.now }
{
    let mut product = tuples;
    for row in rows {
        product = times_great(product, side, row.entry(x));
    }
    product
}

// `n`, times the size of the coefficient where that is one above 1 of a bound on the side. The product
// stops at the greatest number.
fn times_great(n: u64, side: Side, k: i128) -> u64
    ensures { result ≡ (if is_side (is_lower side) k && nat_lt 1 (unsigned_abs k) then min (n * unsigned_abs k) (2 ^ 64 - 1) else n) }
{
    if !side.has_great(k) {
        return n;
    }
    let product = (n as u128).saturating_mul(k.unsigned_abs());
    if product > u64::MAX as u128 {
        u64::MAX
    } else {
        product as u64
    }
}

// What a search leaves.
fn after_search(alloc: Global, searched: Searched) -> Next
    ensures { made_answer (system_of result.system) result.made ≡ searched_answer searched }
{
    Next {
        system: searched.system,
        made: StepOutput {
            bounds: searched.bounds,
            steps: Vec::new(alloc),
            back: Vec::new(alloc),
        },
    }
}

// So many tuples, times the bounds of the searches.
pub(crate) fn tuples_with(tuples: u64, bounds: &[Search]) -> u64
    ensures { result ≡ fold times_bound tuples (map bound_of bounds.now) }
{
    let mut product = tuples;
    for search in bounds {
        product = product.saturating_mul(u64::from(search.bound));
    }
    product
}

// The unknown x is dropped.
pub(crate) fn drop_unknown(alloc: Global, system: System, x: u32) -> Result<Next, ApplyFault>
    requires { IsReady (system_of system) }
    ensures { ApplyIs (drop_applied limits (system_of system) x) result }
{
    match unheld_fault(&system, x) {
        Some(why) => {
            drop(system);
            return Err(ApplyFault::Rejected(why));
        }
        None => {}
    }
    if has_inexact(&system.inequalities, x) {
        drop(system);
        return Err(ApplyFault::Rejected(Why::Exact));
    }
    match dropped_within(alloc, system, x) {
        Ok(dropped) => after_drop(alloc, dropped),
        Err(fault) => Err(refusal_of(fault)),
    }
}

// What a drop leaves.
fn after_drop(alloc: Global, dropped: Dropped) -> Result<Next, ApplyFault>
    ensures { ApplyIs (Ok (dropped_answer dropped)) result }
{
    let mut back = Vec::new(alloc);
    match back.push(dropped.back) {
        Ok(()) => Ok(Next {
            system: dropped.system,
            made: StepOutput {
                bounds: Vec::new(alloc),
                steps: Vec::new(alloc),
                back,
            },
        }),
        Err(_) => Err(ApplyFault::NoMemory),
    }
}

// Why x is none that a search or a drop may name: it is no unknown, or an equation holds it.
fn unheld_fault(system: &System, x: u32) -> Option<Why>
    ensures { result ≡ unheld_fault (system_of system.now) x }
{
    if !is_unknown(&system.unknown, x) {
        return Some(Why::Unknown);
    }
    if is_held(&system.equations, x) {
        return Some(Why::Held);
    }
    None
}

// Whether x is one of the columns.
pub(crate) fn is_unknown(columns: &[u32], x: u32) -> bool
    ensures { result ≡ has_column columns.now x }
{
    columns.iter().any(|u| *u == x)
}

// Whether one of the rows holds x.
fn is_held(rows: &[Row], x: u32) -> bool
    ensures { result ≡ list_any (λ r. not (is_zero (entry r x))) rows.now }
{
    for row in rows {
        if row.entry(x) != 0 {
            return true;
        }
    }
    false
}

// Whether a lower and an upper bound of x both have a coefficient above 1.
fn has_inexact(rows: &[Row], x: u32) -> bool
    ensures { result ≡ has_inexact rows.now x }
{
    both(
        has_great(rows, x, Side::Lower),
        has_great(rows, x, Side::Upper),
    )
}

// Whether both hold.
pub(crate) fn both(left: bool, right: bool) -> bool
    ensures { result ≡ (left && right) }
{
    left && right
}

// Whether x has a bound on the side with a coefficient above 1.
fn has_great(rows: &[Row], x: u32, side: Side) -> bool
    ensures { result ≡ list_any (is_great (is_lower side) x) rows.now }
{
    for row in rows {
        if side.has_great(row.entry(x)) {
            return true;
        }
    }
    false
}
