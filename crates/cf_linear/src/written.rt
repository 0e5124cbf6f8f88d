//! Written number forms.
ghost use Rattle.std.specs.Prelude.{◌≡◌, [], ◌+◌, ◌≤◌, ◌<◌, ◌^◌, pos, negsuc, length, map, drop, true, false, Err, IfOk};
ghost use Rattle.cf_num.specs.Limit.{IsWithin};
ghost use Rattle.cf_tree.specs.RelView.{set_tree, term_tree};
ghost use Rattle.cf_tree.specs.Relation.{IsLinearTerm, is_fixed, IsDivisor};
ghost use Rattle.cf_linear.specs.Rows.{Values, IsRow, value, put, comb, row_passes};
ghost use Rattle.cf_linear.specs.Layout.{set_count, first_free, covers, region_row};
ghost use Rattle.cf_linear.specs.Written.{first_sign, other_signs, plus, above_quotient, below_quotient, product_by, write, val_at, GuardsHold, IsPlaced, abs_count, quotient_count, sign_guard};
ghost use Rattle.cf_linear.specs.Parts.{WrittenAnswer, guards_of, RowAnswer, DividedAnswer, AbsoluteAnswer, SignedAnswer, GuardAnswer, BackAnswer, Tested};
ghost use Rattle.cf_linear.specs.Views.{plain_layout, guard_of};
ghost use Rattle.cf_linear.specs.declared.refusal.TheConstants.{MOST_SETS};

use crate::columns::{number_column, region_row};
use crate::refusal::RowFault;
use crate::row::Row;
use crate::system::Layout;
use cf_num::neg;
use cf_tree::{SetTerm, Term};
use std::alloc::Global;

/// A row that is to be at least 0, or a column that is to hold the quotient of a row by `k`, rounded
/// down.
#[derive(Drop)]
pub enum Guard {
    Sign(Row),
    Quotient { column: u32, of: Row, k: i128 },
}

/// The row of a number form, the guards of its parts in order, and the next free column.
#[derive(Drop)]
pub struct Written {
    pub row: Row,
    pub guards: Vec<Guard>,
    pub next: u32,
}

/// The row of a number form over the columns of the layout, in a choice of one sign for each `abs`,
/// true being minus; quotients take the columns from `next` on. Wherever the guards hold, the row has
/// the value of the form. Past exactly where an entry of the row of a part, or of a guard row, passes
/// the limit.
pub fn row_of(
    alloc: Global,
    term: &Term,
    layout: &Layout,
    signs: &[bool],
    next: u32,
) -> Result<Written, RowFault>
    requires linear { IsLinearTerm (term_tree term.now) }
    requires placed { IsPlaced (plain_layout layout.now) (term_tree term.now) }
    requires sets { set_count (plain_layout layout.now) ≤ MOST_SETS }
    requires signs { length signs.now ≡ abs_count (term_tree term.now) }
    requires above { first_free (plain_layout layout.now) ≤ next }
    requires room { next + quotient_count (term_tree term.now) < 2 ^ 32 }
    ensures row { IfOk result (λ w. w.row ≡ (write (plain_layout layout.now) (term_tree term.now) signs.now next).row) }
    ensures guards { IfOk result (λ w. map guard_of w.guards.items ≡ (write (plain_layout layout.now) (term_tree term.now) signs.now next).guards) }
    ensures next { IfOk result (λ w. w.next ≡ (write (plain_layout layout.now) (term_tree term.now) signs.now next).next) }
    ensures value { IfOk result (λ w. (v : Values) → v 0 ≡ pos 1 → GuardsHold v (map guard_of w.guards.items) →
        value v w.row ≡ val_at (plain_layout layout.now) v (term_tree term.now)) }
    ensures fits { IfOk result (λ w. (write (plain_layout layout.now) (term_tree term.now) signs.now next).passes ≡ false) }
    ensures past { result ≡ Err RowFault.Past → (write (plain_layout layout.now) (term_tree term.now) signs.now next).passes ≡ true }
{
    let mut writer = Writer {
        alloc,
        guards: Vec::new(alloc),
        next,
        used: 0,
    };
    let row = part_of(term, layout, signs, &mut writer)?;
    Ok(Written {
        row,
        guards: writer.guards,
        next: writer.next,
    })
}

/// What is left of the row where the column holds its quotient by `k`. Past exactly where an entry of
/// the answer passes the limit.
pub fn above_quotient(alloc: Global, column: u32, of: &Row, k: &i128) -> Result<Row, RowFault>
    requires { IsDivisor k.now }
    ensures gives { RowAnswer (above_quotient column of.now k.now) result }
    ensures rows { result ≡ Err RowFault.Past → IsRow of.now }
{
    let quotient = Row::unit(alloc, column, 1)?;
    of.sum(alloc, 1, &quotient, neg(*k))
}

/// The row that is at least 0 where the column is at least the quotient of the row by `k`. Past exactly
/// where an entry of the answer passes the limit.
pub fn below_quotient(alloc: Global, column: u32, of: &Row, k: &i128) -> Result<Row, RowFault>
    requires column { 1 ≤ column }
    requires divisor { IsDivisor k.now }
    ensures { RowAnswer (below_quotient column of.now k.now) result }
{
    let quotient = Row::unit(alloc, column, 1)?;
    let turned = of.sum(alloc, -1, &quotient, *k)?;
    plus(alloc, &turned, *k - 1)
}

/// The row with `n` more at the constant. Past exactly where an entry of the answer passes the limit.
pub fn plus(alloc: Global, row: &Row, n: i128) -> Result<Row, RowFault>
    requires { IsWithin n }
    ensures { RowAnswer (plus row.now n) result }
{
    let constant = Row::unit(alloc, 0, n)?;
    added(alloc, row, &constant)
}

// What is written of a form beside its row: the guards of its parts, the next free column, and how many
// signs are used.
#[derive(Drop)]
struct Writer {
    alloc: Global,
    guards: Vec<Guard>,
    next: u32,
    used: usize,
}

// The row of a form; its guards, columns and signs are those after the ones of the writer.
fn part_of(
    term: &Term,
    layout: &Layout,
    signs: &[bool],
    writer: &mut Writer,
) -> Result<Row, RowFault>
    requires placed { IsPlaced (plain_layout layout.now) (term_tree term.now) }
    requires sets { set_count (plain_layout layout.now) ≤ MOST_SETS }
    requires above { first_free (plain_layout layout.now) ≤ writer.old.next }
    requires room { writer.old.next + quotient_count (term_tree term.now) < 2 ^ 32 }
    ensures gives { WrittenAnswer (write (plain_layout layout.now) (term_tree term.now) (drop writer.old.used signs.now) writer.old.next) signs.now
        (guards_of writer.old) writer.new result }
    ensures next { IfOk result (λ _. writer.new.next ≡ writer.old.next + quotient_count (term_tree term.now)) }
{
    match term {
        Term::Lit(n) => unit_of(writer.alloc, 0, n),
        Term::Var(x) => unit_of(writer.alloc, number_column(layout, *x), &1),
        Term::Card(set) => count_of(writer.alloc, layout, set),
        Term::Neg(a) => {
            let row = part_of(a, layout, signs, writer)?;
            row.times(writer.alloc, -1)
        }
        Term::Add(a, b) => {
            let left = part_of(a, layout, signs, writer)?;
            let right = part_of(b, layout, signs, writer)?;
            added(writer.alloc, &left, &right)
        }
        Term::Sub(a, b) => {
            let left = part_of(a, layout, signs, writer)?;
            let right = part_of(b, layout, signs, writer)?;
            subtracted(writer.alloc, &left, &right)
        }
        Term::Mul(a, b) => {
            let left = part_of(a, layout, signs, writer)?;
            let right = part_of(b, layout, signs, writer)?;
            multiplied(writer.alloc, is_fixed(a), &left, &right)
        }
        Term::Div(a, k) => {
            let row = part_of(a, layout, signs, writer)?;
            quotient_of(writer, row, k)
        }
        Term::Mod(a, k) => {
            let row = part_of(a, layout, signs, writer)?;
            remainder_of(writer, row, k)
        }
        Term::Abs(a) => {
            let row = part_of(a, layout, signs, writer)?;
            absolute_of(writer, signs, row)
        }
    }
}

// The fault, when the value has been dropped.
fn without<T: Drop>(_value: T, fault: RowFault) -> RowFault
    ensures { result ≡ fault }
{
    fault
}

// `n` times a column.
fn unit_of(alloc: Global, column: u32, n: &i128) -> Result<Row, RowFault>
    requires { IsWithin n.now }
    ensures { RowAnswer (put column n.now []) result }
{
    Ok(Row::unit(alloc, column, *n)?)
}

// The sum of the counts of the regions in the set form.
fn count_of(alloc: Global, layout: &Layout, set: &SetTerm) -> Result<Row, RowFault>
    requires sets { set_count (plain_layout layout.now) ≤ MOST_SETS }
    requires room { first_free (plain_layout layout.now) < 2 ^ 32 }
    ensures { RowAnswer (region_row (plain_layout layout.now) (covers (plain_layout layout.now) (set_tree set.now))) result }
{
    Ok(region_row(alloc, layout, set)?)
}

// The quotient of the row by `k`, in a column of its own.
fn quotient_of(writer: &mut Writer, of: Row, k: &i128) -> Result<Row, RowFault>
    requires column { 1 ≤ writer.old.next }
    requires room { writer.old.next + 1 < 2 ^ 32 }
    requires divisor { IsDivisor k.now }
    ensures { DividedAnswer (put writer.old.next (pos 1) []) of k.now writer.old writer.new result }
{
    let column = writer.next;
    remainder_of(writer, of, k)?;
    Ok(Row::unit(writer.alloc, column, 1)?)
}

// The remainder of the row by `k`, the quotient in a column of its own, of which the guard is added.
fn remainder_of(writer: &mut Writer, of: Row, k: &i128) -> Result<Row, RowFault>
    requires column { 1 ≤ writer.old.next }
    requires room { writer.old.next + 1 < 2 ^ 32 }
    requires divisor { IsDivisor k.now }
    ensures { DividedAnswer (above_quotient writer.old.next of k.now) of k.now writer.old writer.new result }
{
    let column = writer.next;
    let above = above_quotient(writer.alloc, column, &of, k)?;
    test_below(writer.alloc, column, &of, k)?;
    writer.guards.push(Guard::Quotient { column, of, k: *k })?;
    writer.next = column + 1;
    Ok(above)
}

// The row with the next sign.
fn absolute_of(writer: &mut Writer, signs: &[bool], row: Row) -> Result<Row, RowFault>
    ensures { AbsoluteAnswer (drop writer.old.used signs.now) signs.now row writer.old writer.new result }
{
    let (minus, used) = take_sign(signs, writer.used);
    writer.used = used;
    add_sign(writer.alloc, &mut writer.guards, minus, row)
}

// The sum of two rows.
fn added(alloc: Global, left: &Row, right: &Row) -> Result<Row, RowFault>
    ensures { RowAnswer (comb (pos 1) left.now (pos 1) right.now) result }
{
    left.sum(alloc, 1, right, 1)
}

/// The difference of two rows. Past exactly where an entry of the answer passes the limit.
pub fn subtracted(alloc: Global, left: &Row, right: &Row) -> Result<Row, RowFault>
    ensures gives { RowAnswer (comb (pos 1) left.now (negsuc 0) right.now) result }
    ensures rows { IsRow left.now × IsRow right.now }
{
    left.combine(alloc, 1, right, -1)
}

// The product of two rows, of which the left one is of the constant alone, or else the right one.
fn multiplied(alloc: Global, is_left_fixed: bool, left: &Row, right: &Row) -> Result<Row, RowFault>
    ensures { RowAnswer (product_by is_left_fixed left.now right.now) result }
{
    if is_left_fixed {
        right.times(alloc, left.entry(0))
    } else {
        left.times(alloc, right.entry(0))
    }
}

// Past exactly where an entry passes the limit of the row that is at least 0 where the column is at
// least the quotient.
fn test_below(alloc: Global, column: u32, of: &Row, k: &i128) -> Result<(), RowFault>
    requires column { 1 ≤ column }
    requires divisor { IsDivisor k.now }
    ensures { Tested (below_quotient column of.now k.now) result }
{
    below_quotient(alloc, column, of, k)?;
    Ok(())
}

// Adds the guard of the sign, true being minus, and gives the row with the sign.
fn add_sign(alloc: Global, guards: &mut Vec<Guard>, minus: bool, row: Row) -> Result<Row, RowFault>
    ensures { SignedAnswer minus row (map guard_of guards.old.items) (map guard_of guards.new.items) result }
{
    if minus {
        let negated = row.negated(alloc);
        drop(row);
        add_minus(alloc, guards, negated?)
    } else {
        add_plus(alloc, guards, row)
    }
}

// Adds the guard of a minus, and gives the row back, which has the sign.
fn add_minus(alloc: Global, guards: &mut Vec<Guard>, row: Row) -> Result<Row, RowFault>
    ensures { BackAnswer row (row_passes (plus row (negsuc 0))) (sign_guard (plus row (negsuc 0))) (map guard_of guards.old.items)
        (map guard_of guards.new.items) result }
{
    match add_less(alloc, guards, &row) {
        Ok(()) => Ok(row),
        Err(fault) => Err(without(row, fault)),
    }
}

// Adds the guard that the row is at least 1.
fn add_less(alloc: Global, guards: &mut Vec<Guard>, row: &Row) -> Result<(), RowFault>
    ensures { GuardAnswer (row_passes (plus row.now (negsuc 0))) (sign_guard (plus row.now (negsuc 0))) (map guard_of guards.old.items)
        (map guard_of guards.new.items) result }
{
    let guard = plus(alloc, row, -1)?;
    guards.push(Guard::Sign(guard))?;
    Ok(())
}

// Adds the guard that the row is at least 0, and gives the row back.
fn add_plus(alloc: Global, guards: &mut Vec<Guard>, row: Row) -> Result<Row, RowFault>
    ensures { BackAnswer row false (sign_guard row) (map guard_of guards.old.items) (map guard_of guards.new.items) result }
{
    match add_copy(alloc, guards, &row) {
        Ok(()) => Ok(row),
        Err(fault) => Err(without(row, fault)),
    }
}

// Adds the guard that the row is at least 0.
fn add_copy(alloc: Global, guards: &mut Vec<Guard>, row: &Row) -> Result<(), RowFault>
    ensures { GuardAnswer false (sign_guard row.now) (map guard_of guards.old.items) (map guard_of guards.new.items) result }
{
    let guard = row.try_copy(alloc)?;
    guards.push(Guard::Sign(guard))?;
    Ok(())
}

// The next sign, and how many are used with it.
fn take_sign(signs: &[bool], used: usize) -> (bool, usize)
    ensures sign { result.0 ≡ first_sign (drop used signs.now) }
    ensures rest { drop result.1 signs.now ≡ other_signs (drop used signs.now) }
{
    match signs.get(used) {
        Some(minus) => (*minus, used + 1),
        None => (false, used),
    }
}

// Whether a form holds no variable, no `card`, no `div` and no `mod`.
fn is_fixed(term: &Term) -> bool
    ensures { result ≡ is_fixed (term_tree term.now) }
{
    match term {
        Term::Lit(_) => true,
        Term::Var(_) | Term::Card(_) | Term::Div(_, _) | Term::Mod(_, _) => false,
        Term::Neg(a) | Term::Abs(a) => is_fixed(a),
        Term::Add(a, b) | Term::Sub(a, b) | Term::Mul(a, b) => is_fixed(a) && is_fixed(b),
    }
}
