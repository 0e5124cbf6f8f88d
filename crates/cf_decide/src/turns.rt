//! Numbers at which a need of the arms turns. Nothing is promised of them.
use crate::trials::push_new;
use cf_choose::Solved;
use cf_linear::{Row, Step, place};
use cf_tree::{NoMemory, to_u32};

/// The most cases whose needs are looked at.
const MOST_CASES: usize = 64;

/// The most numbers in a list to which numbers are added.
const MOST_NUMBERS: usize = 48;

/// Adds the numbers at which a need or a let over the number of that level alone turns, and those beside them.
pub(crate) fn push_turns(
    numbers: &mut Vec<i128>,
    solved: &Solved,
    level: u32,
) -> Result<(), NoMemory> {
    let column = column_of(solved, level)?;
    for case in 0..solved.cases_len() {
        if case < MOST_CASES {
            push_turns_in(numbers, solved.steps(case), column)?;
        }
    }
    Ok(())
}

// The column of the number of that level: numbers stand behind the constant.
fn column_of(solved: &Solved, level: u32) -> Result<u32, NoMemory> {
    let number = to_u32(place(level, &solved.layout().numbers))?;
    Ok(number.saturating_add(1))
}

fn push_turns_in(numbers: &mut Vec<i128>, steps: &[Step], column: u32) -> Result<(), NoMemory> {
    for step in steps {
        let row = row_of(step);
        if has_only(row, column) {
            push_turn(numbers, row.entry(0), row.entry(column))?;
        }
    }
    Ok(())
}

fn row_of(step: &Step) -> &Row {
    match step {
        Step::Let(_, row, _) => row,
        Step::NeedNonneg(row) => row,
        Step::NeedZero(row) => row,
        Step::NeedDivides(_, row) => row,
    }
}

// Whether the row has this column, and no other but the constant.
fn has_only(row: &Row, column: u32) -> bool {
    let constants: usize = if row.entry(0) == 0 { 0 } else { 1 };
    row.entry(column) != 0 && row.len().saturating_sub(constants) == 1
}

// Adds the number at which a row with this constant and this entry turns, and those beside it.
fn push_turn(numbers: &mut Vec<i128>, constant: i128, entry: i128) -> Result<(), NoMemory> {
    if numbers.len() > MOST_NUMBERS {
        return Ok(());
    }
    let Some(turn) = turn_of(constant, entry) else {
        return Ok(());
    };
    push_new(numbers, turn)?;
    push_new(numbers, turn.saturating_add(1))?;
    push_new(numbers, turn.saturating_sub(1))
}

// The greatest number at which the row is at most 0, or the least, if its entry is below 0.
fn turn_of(constant: i128, entry: i128) -> Option<i128> {
    if entry > 0 {
        divided(constant.checked_neg()?, entry)
    } else {
        divided(constant, entry.checked_neg()?)
    }
}

fn divided(number: i128, by: i128) -> Option<i128> {
    if by > 0 {
        Some(number.div_euclid(by))
    } else {
        None
    }
}
