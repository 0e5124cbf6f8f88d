//! What is looked up in rows.
use cf_close::Multiple;
use cf_linear::Row;
use cf_simplex::{Stop, common};
use std::alloc::Global;

/// How many columns a row has but the constant.
pub(crate) fn column_count(row: &Row) -> usize {
    if row.entry(0) == 0 {
        row.len()
    } else {
        row.len().saturating_sub(1)
    }
}

/// The greatest common divisor of the entries but the constant.
pub(crate) fn divisor(row: &Row) -> i128 {
    let mut g = 0;
    for i in 0..row.len() {
        let (column, entry) = row.at(i);
        if column != 0 {
            g = common(g, entry);
            if g == 1 {
                return 1;
            }
        }
    }
    g
}

/// How the columns of two rows compare, apart from the constant.
#[derive(Clone, Copy)]
pub(crate) enum Likeness {
    Same,
    Opposite,
    Other,
}

/// Whether two rows have the same columns with the same entries, or with the opposite ones.
pub(crate) fn compared(x: &Row, y: &Row) -> Likeness {
    if column_count(x) != column_count(y) {
        return Likeness::Other;
    }
    if are_same(x, y) {
        Likeness::Same
    } else if are_opposite(x, y) {
        Likeness::Opposite
    } else {
        Likeness::Other
    }
}

fn are_same(x: &Row, y: &Row) -> bool {
    for i in 0..x.len() {
        let (column, entry) = x.at(i);
        if column != 0 && entry != y.entry(column) {
            return false;
        }
    }
    true
}

fn are_opposite(x: &Row, y: &Row) -> bool {
    for i in 0..x.len() {
        let (column, entry) = x.at(i);
        if column != 0 && !is_opposite(entry, y.entry(column)) {
            return false;
        }
    }
    true
}

/// Whether `a` is `-b`.
pub(crate) fn is_opposite(a: i128, b: i128) -> bool {
    match a.checked_neg() {
        Some(k) => k == b,
        None => false,
    }
}

/// A fact with its factor.
pub(crate) fn lone(alloc: Global, fact: usize, factor: i128) -> Result<Vec<Multiple>, Stop> {
    Ok(Vec::from_array(alloc, [Multiple { fact, factor }])?)
}

/// Two facts with their factors.
pub(crate) fn two(
    alloc: Global,
    first: (usize, i128),
    second: (usize, i128),
) -> Result<Vec<Multiple>, Stop> {
    let first = Multiple {
        fact: first.0,
        factor: first.1,
    };
    let second = Multiple {
        fact: second.0,
        factor: second.1,
    };
    Ok(Vec::from_array(alloc, [first, second])?)
}

/// The last column with its entry, or the constant 0 of an empty row.
pub(crate) fn last_entry(row: &Row) -> (u32, i128) {
    let count = row.len();
    if count == 0 {
        (0, 0)
    } else {
        row.at(count - 1)
    }
}
