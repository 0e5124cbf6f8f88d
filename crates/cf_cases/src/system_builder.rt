//! The rows of the atoms that are written so far.
ghost use Rattle.std.specs.Prelude.{◌≡◌, ◌≤◌, ◌<◌, ◌+◌, ◌^◌, [], ◌∷◌, ◌++◌, map, negsuc, IfOk, OnOk, Ok, Err};
ghost use Rattle.cf_tree.specs.Relation.{IsDivisor};
ghost use Rattle.cf_linear.specs.Parts.{RowAnswer};
ghost use Rattle.cf_linear.specs.Written.{constant_row, plus, above_quotient, below_quotient};
ghost use Rattle.cf_linear.specs.Views.{guard_of};
ghost use Rattle.cf_linear.specs.Cases.{less};
ghost use Rattle.cf_cases.specs.Holding.{EachOf};
ghost use Rattle.cf_cases.specs.SystemBuilders.{rows_of, rows_more, with_rows, with_guards, with_comparison, divided, column_rows, written_as, BuilderAnswer, IsFine, NotPast};

use cf_linear::{Guard, Row, RowFault, Written, above_quotient, below_quotient, plus, subtracted};
use cf_tree::{NoMemory, Order};
use std::alloc::Global;

/// The rows of the atoms that are written so far, and the next free column; further rows take memory
/// from `alloc`.
#[derive(Drop)]
pub struct SystemBuilder {
    pub alloc: Global,
    pub equations: Vec<Row>,
    pub inequalities: Vec<Row>,
    pub next: u32,
}

// Adds the rows of a comparison of two written forms.
pub(crate) fn add_written(
    order: Order,
    first: &Written,
    second: &Written,
    builder: &mut SystemBuilder,
) -> Result<(), RowFault>
    requires first { EachOf IsFine (map guard_of first.now.guards.items) }
    requires second { EachOf IsFine (map guard_of second.now.guards.items) }
    ensures gives { BuilderAnswer (with_comparison (rows_of builder.old) order first.now.row (map guard_of first.now.guards.items)
        (written_as second.now.row (map guard_of second.now.guards.items) second.now.next)) builder.new result }
    ensures next { IfOk result (λ _. builder.new.next ≡ second.now.next) }
{
    builder.next = second.next;
    add_guards(&first.guards, builder)?;
    add_guards(&second.guards, builder)?;
    add_compared(order, &first.row, &second.row, builder)
}

// Adds the rows of a comparison of two rows.
fn add_compared(
    order: Order,
    left: &Row,
    right: &Row,
    builder: &mut SystemBuilder,
) -> Result<(), RowFault>
    ensures gives { BuilderAnswer (with_comparison (rows_of builder.old) order left.now [] (written_as right.now [] builder.old.next)) builder.new result }
    ensures next { IfOk result (λ _. builder.new.next ≡ builder.old.next) }
{
    let alloc = builder.alloc;
    match order {
        Order::Eq => builder.equations.push(subtracted(alloc, left, right)?)?,
        Order::Ne => {}
        Order::Lt => builder.inequalities.push(less_one(alloc, right, left)?)?,
        Order::Le => builder.inequalities.push(subtracted(alloc, right, left)?)?,
        Order::Gt => builder.inequalities.push(less_one(alloc, left, right)?)?,
        Order::Ge => builder.inequalities.push(subtracted(alloc, left, right)?)?,
    }
    Ok(())
}

// Adds the rows of the atom that `k` divides a written form, where `holds`, or that it does not.
pub(crate) fn add_divided(
    holds: bool,
    k: &i128,
    written: &Written,
    builder: &mut SystemBuilder,
) -> Result<(), RowFault>
    requires divisor { IsDivisor k.now }
    requires guards { EachOf IsFine (map guard_of written.now.guards.items) }
    requires column { 1 ≤ written.now.next }
    requires room { written.now.next + 1 < 2 ^ 32 }
    ensures gives { BuilderAnswer (rows_more (rows_of builder.old)
        (divided holds k.now (written_as written.now.row (map guard_of written.now.guards.items) written.now.next))) builder.new result }
    ensures next { IfOk result (λ _. builder.new.next ≡ written.now.next + 1) }
{
    builder.next = written.next + 1;
    add_guards(&written.guards, builder)?;
    if holds {
        let above = above_quotient(builder.alloc, written.next, &written.row, k)?;
        builder.equations.push(above)?;
    } else {
        let above = above_one(builder.alloc, written.next, &written.row, k)?;
        builder.inequalities.push(above)?;
        let below = below_quotient(builder.alloc, written.next, &written.row, k)?;
        builder.inequalities.push(below)?;
    }
    Ok(())
}

// Adds the inequality `-1 >= 0`.
pub(crate) fn add_false(builder: &mut SystemBuilder) -> Result<(), NoMemory>
    ensures { OnOk result (rows_of builder.new ≡ with_rows (rows_of builder.old) [] (constant_row (negsuc 0) ∷ [])) }
{
    let row = Row::unit(builder.alloc, 0, -1)?;
    builder.inequalities.push(row)?;
    Ok(())
}

// Adds for each column of the row the row of the column alone.
pub(crate) fn add_columns(alloc: Global, row: &Row, rows: &mut Vec<Row>) -> Result<(), NoMemory>
    ensures { OnOk result (rows.new.items ≡ rows.old.items ++ column_rows row.now) }
{
    for i in 0..row.len() {
        let column = Row::unit(alloc, row.at(i).0, 1)?;
        rows.push(column)?;
    }
    Ok(())
}

// Adds the inequality that the row's value is at least 1.
pub(crate) fn add_positive(row: &Row, builder: &mut SystemBuilder) -> Result<(), RowFault>
    ensures gives { BuilderAnswer (with_rows (rows_of builder.old) [] (plus row.now (negsuc 0) ∷ [])) builder.new result }
    ensures next { IfOk result (λ _. builder.new.next ≡ builder.old.next) }
{
    let lower = plus(builder.alloc, row, -1)?;
    builder.inequalities.push(lower)?;
    Ok(())
}

// Adds the rows of the guards.
fn add_guards(guards: &[Guard], builder: &mut SystemBuilder) -> Result<(), NoMemory>
    requires { EachOf IsFine (map guard_of guards.now) }
    ensures { OnOk result (rows_of builder.new ≡ with_guards (rows_of builder.old) (map guard_of guards.now)) }
{
    for guard in guards {
        add_guard(guard, builder)?;
    }
    Ok(())
}

// Adds the rows of a guard.
fn add_guard(guard: &Guard, builder: &mut SystemBuilder) -> Result<(), NoMemory>
    requires { IsFine (guard_of guard.now) }
    ensures { OnOk result (rows_of builder.new ≡ with_guards (rows_of builder.old) (guard_of guard.now ∷ [])) }
{
    match guard {
        Guard::Sign(row) => {
            let copy = row.try_copy(builder.alloc)?;
            builder.inequalities.push(copy)?;
        }
        Guard::Quotient { column, of, k } => {
            let above = fitting(above_quotient(builder.alloc, *column, of, k))?;
            builder.inequalities.push(above)?;
            let below = fitting(below_quotient(builder.alloc, *column, of, k))?;
            builder.inequalities.push(below)?;
        }
    }
    Ok(())
}

// What is left of the row where the column holds its quotient by `k`, less 1.
fn above_one(alloc: Global, column: u32, of: &Row, k: &i128) -> Result<Row, RowFault>
    requires divisor { IsDivisor k.now }
    requires column { 1 ≤ column }
    ensures { RowAnswer (plus (above_quotient column of.now k.now) (negsuc 0)) result }
{
    let above = above_quotient(alloc, column, of, k)?;
    plus(alloc, &above, -1)
}

// The row, of which no entry passes the limit.
fn fitting(made: Result<Row, RowFault>) -> Result<Row, NoMemory>
    requires { NotPast made }
    ensures { IfOk result (λ row. made ≡ Ok row) }
{
    match made {
        Ok(row) => Ok(row),
        Err(RowFault::NoMemory) => Err(NoMemory),
        Err(RowFault::Past) => unreachable!(),
    }
}

// The difference of two rows, less 1: the 1 is first taken from a positive constant, so that no
// entry on the way passes the limit where none of the answer does.
fn less_one(alloc: Global, left: &Row, right: &Row) -> Result<Row, RowFault>
    ensures { RowAnswer (plus (less left.now right.now) (negsuc 0)) result }
{
    if left.entry(0) > 0 {
        let lower = plus(alloc, left, -1)?;
        subtracted(alloc, &lower, right)
    } else {
        let row = subtracted(alloc, left, right)?;
        plus(alloc, &row, -1)
    }
}
