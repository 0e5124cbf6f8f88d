//! The rows and the columns that a Clean leaves, counted before memory is asked for.
ghost use Rattle.std.specs.Prelude.{◌≡◌, ◌≤◌, ◌<◌, ◌+◌, ◌^◌, ◌<ℤ◌, ◌-ℤ◌, [], pos, filter, length, take, drop};
ghost use Rattle.std.specs.List.{list_any};
ghost use Rattle.std.specs.Int.{int_div_euclid};
ghost use Rattle.cf_num.specs.Limit.{IsWithin};
ghost use Rattle.cf_linear.specs.Rows.{IsRow, is_zero, same_row};
ghost use Rattle.cf_linear.specs.RowParts.{divided_by};
ghost use Rattle.cf_linear.specs.Stages.{first_count, limits};
ghost use Rattle.cf_linear.specs.Steps.{unknown_part, common, clean};
ghost use Rattle.cf_linear.specs.Systems.{rows_of, columns_of};
ghost use Rattle.cf_linear.specs.Views.{system_of};
ghost use Rattle.cf_elim.specs.Stages.{CountIs, IsReady};
ghost use Rattle.cf_cert.specs.Counting.{divisor, is_divided, gets_column, is_equal, repeats, agrees, AreAtMost};

use crate::bounding::{both, is_unknown};
use cf_elim::ElimFault;
use cf_linear::{LimitKind, MOST_COLUMNS, MOST_ROWS, Refusal, Row, System, divides_known};
use cf_num::{fdiv, gcd};

// Whether the rows and the columns that a Clean leaves are within the limits.
pub(crate) fn within_clean(system: &System) -> Result<(), ElimFault>
    requires { IsReady (system_of system.now) }
    ensures { CountIs (first_count limits (clean (system_of system.now)).system) result }
{
    match within_rows(system) {
        Ok(()) => within_columns(system),
        Err(fault) => Err(fault),
    }
}

// Every row stays, or becomes a need, but for inequalities that are repeated.
#[tactic(auto, using(crate::proofs::CountLaws::rows_low))]
fn within_rows(system: &System) -> Result<(), ElimFault>
    requires { IsReady (system_of system.now) }
    ensures { AreAtMost LimitKind.Rows limits.rows (rows_of (clean (system_of system.now)).system) result }
{
    let rows = row_count(system);
    if rows <= MOST_ROWS as u128 {
        return Ok(());
    }
    let gone = repeats(&system.unknown, &system.inequalities);
    within(LimitKind::Rows, MOST_ROWS, rows - gone as u128)
}

// Every column stays, and some inequalities get a new one.
#[tactic(auto, using(crate::proofs::CountLaws::columns_low))]
fn within_columns(system: &System) -> Result<(), ElimFault>
    requires { IsReady (system_of system.now) }
    ensures { AreAtMost LimitKind.Columns limits.columns (columns_of (clean (system_of system.now)).system) result }
{
    let columns = column_count(system);
    if columns + system.inequalities.len() as u128 <= MOST_COLUMNS as u128 {
        return Ok(());
    }
    let made = made_columns(&system.unknown, &system.inequalities);
    within(LimitKind::Columns, MOST_COLUMNS, columns + made as u128)
}

fn row_count(system: &System) -> u128
    ensures value { result ≡ rows_of (system_of system.now) }
    ensures bound { result < 2 ^ 66 }
{
    system.equations.len() as u128 + system.inequalities.len() as u128 + system.needs as u128
}

fn column_count(system: &System) -> u128
    ensures value { result ≡ columns_of (system_of system.now) }
    ensures bound { result < 2 ^ 66 }
{
    system.known.len() as u128 + system.unknown.len() as u128
}

// Whether so many of a kind are within their limit.
fn within(kind: LimitKind, most: u64, number: u128) -> Result<(), ElimFault>
    ensures { AreAtMost kind most number result }
{
    if number <= most as u128 {
        return Ok(());
    }
    if number > u64::MAX as u128 {
        return Err(ElimFault::NoMemory);
    }
    Err(ElimFault::Refused(Refusal::Limit {
        kind,
        number: number as u64,
    }))
}

// How many of the rows get a column when they are tightened.
fn made_columns(unknown: &[u32], rows: &[Row]) -> usize
    ensures value { result ≡ length (filter (gets_column unknown.now) rows.now) }
    ensures bound { result ≤ length rows.now }
{
    let mut made = 0;
    for row in rows {
        if gets_column(unknown, row) {
            made += 1;
        }
    }
    made
}

// How many of the rows are equal to one before them when they are tightened.
fn repeats(unknown: &[u32], rows: &[Row]) -> usize
    ensures value { result ≡ repeats unknown.now [] rows.now }
    ensures bound { result ≤ length rows.now }
{
    let mut number = 0;
    for i in 0..rows.len() {
        number = repeats_with(unknown, rows, i, number);
    }
    number
}

// The same of the rows up to the place, with it, where so many of those before it are repeated.
#[tactic(auto, using(crate::proofs::CountLaws::repeat_more, crate::proofs::CountLaws::repeat_same))]
fn repeats_with(unknown: &[u32], rows: &[Row], i: usize, so_far: usize) -> usize
    requires place { i < length rows.now }
    requires low { so_far ≤ i }
    requires before { so_far ≡ repeats unknown.now [] (take i rows.now) }
    ensures low { result ≤ i + 1 }
    ensures value { result ≡ repeats unknown.now [] (take (i + 1) rows.now) }
{
    if is_repeated(unknown, &rows[..i], &rows[i]) {
        so_far + 1
    } else {
        so_far
    }
}

// Whether the row is equal to one of those before it.
fn is_repeated(unknown: &[u32], before: &[Row], row: &Row) -> bool
    ensures { result ≡ list_any (is_equal unknown.now row.now) before.now }
{
    for other in before {
        if is_equal(unknown, row, other) {
            return true;
        }
    }
    false
}

// Whether both rows are equal when they are tightened.
fn is_equal(unknown: &[u32], row: &Row, other: &Row) -> bool
    ensures { result ≡ is_equal unknown.now row.now other.now }
{
    let g = divisor(unknown, row);
    if !is_divided(unknown, row, g) {
        return false;
    }
    let h = divisor(unknown, other);
    if !is_divided(unknown, other, h) {
        return false;
    }
    is_same(row, g, other, h)
}

// Whether the row is divided by its divisor `g`, and gets no column.
fn is_divided(unknown: &[u32], row: &Row, g: i128) -> bool
    requires value { g ≡ pos (divisor unknown.now row.now) }
    requires g_in { IsWithin g }
    ensures { result ≡ is_divided unknown.now row.now }
{
    g > 0 && divides_known(row, g)
}

// Whether the row gets a column when it is tightened.
fn gets_column(unknown: &[u32], row: &Row) -> bool
    ensures { result ≡ gets_column unknown.now row.now }
{
    let g = divisor(unknown, row);
    g > 0 && !divides_known(row, g)
}

// The divisor by which a Clean tightens the row, 0 where it holds no unknown.
#[tactic(auto, using(cf_linear::proofs::PartLemmas::common_end))]
fn divisor(unknown: &[u32], row: &Row) -> i128
    ensures value { result ≡ pos (common (unknown_part unknown.now row.now)) }
    ensures fits { IsWithin result }
{
    let mut g = 0;
    let mut i = row.len();
    while i > 0 {
        i -= 1;
        g = divisor_from(unknown, row, i, g);
    }
    g
}

// The same of the entries from the place on, `g` being that of the later ones.
#[tactic(auto, using(cf_linear::proofs::PartLemmas::common_more, cf_linear::proofs::PartLemmas::common_same))]
fn divisor_from(unknown: &[u32], row: &Row, i: usize, g: i128) -> i128
    requires place { i < length row.now }
    requires g_in { IsWithin g }
    requires later { g ≡ pos (common (unknown_part unknown.now (drop (i + 1) row.now))) }
    ensures value { result ≡ pos (common (unknown_part unknown.now (drop i row.now))) }
    ensures fits { IsWithin result }
{
    let (column, k) = row.at(i);
    if is_unknown(unknown, column) {
        gcd(k, g)
    } else {
        g
    }
}

// Whether the first row divided by `g` and the second divided by `h` are the same.
fn is_same(first: &Row, g: i128, second: &Row, h: i128) -> bool
    requires g_in { IsWithin g }
    requires g_positive { pos 0 <ℤ g }
    requires h_in { IsWithin h }
    requires h_positive { pos 0 <ℤ h }
    ensures { result ≡ same_row (divided_by g first.now) (divided_by h second.now) }
{
    both(agrees(first, g, second, h), agrees(second, h, first, g))
}

// Whether each entry of the first row divided by `g` is that of the second divided by `h`.
#[tactic(auto, using(crate::proofs::CountLaws::agrees_next, crate::proofs::CountLaws::agrees_end))]
fn agrees(first: &Row, g: i128, second: &Row, h: i128) -> bool
    requires g_in { IsWithin g }
    requires g_positive { pos 0 <ℤ g }
    requires h_in { IsWithin h }
    requires h_positive { pos 0 <ℤ h }
    ensures value { result ≡ agrees g h second.now first.now }
    ensures row { IsRow first.now }
{
    for i in 0..first.len() {
        let (column, k) = first.at(i);
        if !same_quotients(k, g, second.entry(column), h) {
            return false;
        }
    }
    true
}

// Whether `k` divided by `g` and `m` divided by `h`, both rounded down, are the same.
fn same_quotients(k: i128, g: i128, m: i128, h: i128) -> bool
    requires k_in { IsWithin k }
    requires g_in { IsWithin g }
    requires g_positive { pos 0 <ℤ g }
    requires m_in { IsWithin m }
    requires h_in { IsWithin h }
    requires h_positive { pos 0 <ℤ h }
    ensures { result ≡ is_zero (int_div_euclid k g -ℤ int_div_euclid m h) }
{
    fdiv(k, g) == fdiv(m, h)
}
