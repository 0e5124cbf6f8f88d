//! Numbers and rows that are given up past the limit.
use crate::effort::Stop;
use cf_linear::{Row, divided};
use cf_num::gcd;
use std::alloc::Global;

/// `a * b`.
pub fn product(a: i128, b: i128) -> Result<i128, Stop> {
    match a.checked_mul(b) {
        Some(k) => Ok(k),
        None => Err(Stop::Past),
    }
}

/// `a + b`.
pub fn total(a: i128, b: i128) -> Result<i128, Stop> {
    match a.checked_add(b) {
        Some(k) => Ok(k),
        None => Err(Stop::Past),
    }
}

/// `-a`.
pub fn opposite(a: i128) -> Result<i128, Stop> {
    match a.checked_neg() {
        Some(k) => Ok(k),
        None => Err(Stop::Past),
    }
}

/// The absolute value.
pub fn size(a: i128) -> Result<i128, Stop> {
    if a < 0 { opposite(a) } else { Ok(a) }
}

/// `a * x + b * y`.
pub fn combination(alloc: Global, a: i128, x: &Row, b: i128, y: &Row) -> Result<Row, Stop> {
    if a == i128::MIN || b == i128::MIN {
        return Err(Stop::Past);
    }
    match x.combine(alloc, a, y, b) {
        Ok(row) => Ok(row),
        Err(fault) => Err(Stop::from(fault)),
    }
}

/// The row with the one entry `k` at the column.
pub fn unit(alloc: Global, column: u32, k: i128) -> Result<Row, Stop> {
    if k == i128::MIN {
        return Err(Stop::Past);
    }
    match Row::unit(alloc, column, k) {
        Ok(row) => Ok(row),
        Err(_) => Err(Stop::NoMemory),
    }
}

/// An equal row.
pub(crate) fn copied(alloc: Global, row: &Row) -> Result<Row, Stop> {
    match row.try_copy(alloc) {
        Ok(copy) => Ok(copy),
        Err(_) => Err(Stop::NoMemory),
    }
}

/// The row with so much more at a column.
pub fn plus(alloc: Global, row: Row, column: u32, k: i128) -> Result<Row, Stop> {
    let more = unit(alloc, column, k)?;
    combination(alloc, 1, &row, 1, &more)
}

/// The row with the other signs.
pub(crate) fn negated(alloc: Global, row: Row) -> Result<Row, Stop> {
    match row.negated(alloc) {
        Ok(new) => Ok(new),
        Err(_) => Err(Stop::NoMemory),
    }
}

/// The greatest common divisor of two numbers, or 1 where one is past the limit.
pub fn common(a: i128, b: i128) -> i128 {
    if a == i128::MIN || b == i128::MIN {
        1
    } else {
        gcd(a, b)
    }
}

/// The greatest common divisor of a number and the entries of a row.
pub(crate) fn common_of(k: i128, row: &Row) -> i128 {
    let mut g = k;
    for i in 0..row.len() {
        let (_, entry) = row.at(i);
        g = common(g, entry);
        if g == 1 {
            return 1;
        }
    }
    g
}

/// `a / g` rounded down, for a divisor above 0; `a` for any other.
pub fn quotient(a: i128, g: i128) -> i128 {
    if g <= 1 { a } else { a.div_euclid(g) }
}

/// The row divided by a common divisor of its entries.
pub(crate) fn reduced(alloc: Global, row: Row, g: i128) -> Result<Row, Stop> {
    if g <= 1 {
        return Ok(row);
    }
    match divided(alloc, &row, g) {
        Ok(new) => Ok(new),
        Err(_) => Err(Stop::NoMemory),
    }
}
