//! Rows and columns against their limits.
ghost use Rattle.std.specs.Prelude.{◌≡◌, ◌+◌, ◌==◌, not, filter, length};
ghost use Rattle.cf_linear.specs.Stages.{first_count, limits};
ghost use Rattle.cf_linear.specs.Views.{system_of};
ghost use Rattle.cf_elim.specs.Stages.{CountIs, IsCount, counted};

use crate::fault::ElimFault;
use cf_linear::{LimitKind, MOST_COLUMNS, MOST_ROWS, Refusal, System};

/// Whether the rows and the columns of the system are within the limits.
///
/// # Errors
/// `Refused` exactly where the rows or else the columns pass their limit, but `NoMemory` where that is
/// by 2^64 of them or more.
pub fn within_counts(system: &System) -> Result<(), ElimFault>
    ensures { CountIs (first_count limits (system_of system.now)) result }
{
    let rows = sum(
        system.equations.len(),
        system.inequalities.len(),
        system.needs,
        0,
    );
    let columns = sum(system.known.len(), system.unknown.len(), 0, 0);
    within(rows, columns)
}

// Whether as many rows and columns are within the limits.
pub(crate) fn within(rows: Option<u64>, columns: Option<u64>) -> Result<(), ElimFault>
    ensures { result ≡ counted rows columns }
{
    let Some(rows) = rows else {
        return Err(ElimFault::NoMemory);
    };
    if rows > MOST_ROWS {
        return Err(refused(LimitKind::Rows, rows));
    }
    let Some(columns) = columns else {
        return Err(ElimFault::NoMemory);
    };
    if columns > MOST_COLUMNS {
        return Err(refused(LimitKind::Columns, columns));
    }
    Ok(())
}

fn refused(kind: LimitKind, number: u64) -> ElimFault
    ensures { result ≡ ElimFault.Refused (Refusal.Limit kind number) }
{
    ElimFault::Refused(Refusal::Limit { kind, number })
}

// The sum, or none where it is 2^64 or more.
pub(crate) fn sum(a: usize, b: usize, c: u64, d: u64) -> Option<u64>
    ensures { IsCount (a + b + c + d) result }
{
    narrowed(a as u128 + b as u128 + c as u128 + d as u128)
}

// The number, or none where it is 2^64 or more.
pub(crate) fn narrowed(n: u128) -> Option<u64>
    ensures { IsCount n result }
{
    if n > u64::MAX as u128 {
        return None;
    }
    Some(n as u64)
}

// How many columns differ from u.
pub(crate) fn other_count(columns: &[u32], u: u32) -> usize
    ensures { result ≡ length (filter (λ w. not (w == u)) columns.now) }
{
    let mut n = 0;
    for c in columns {
        if *c != u {
            n += 1;
        }
    }
    n
}
