//! Systems of rows, and what the steps of an elimination leave of them.
use crate::row::Row;

/// The levels of the variables of a `choose`: how many are in scope, and those of the number
/// parameters, the input sets, the number outputs and the output sets.
#[derive(Drop)]
pub struct Layout {
    pub scope: u32,
    pub numbers: Vec<u32>,
    pub inputs: Vec<u32>,
    pub out_numbers: Vec<u32>,
    pub out_sets: Vec<u32>,
}

/// The known and the unknown columns in order, the number of the next column, the rows that are to
/// be 0 and those that are to be at least 0, and how many needs were made so far.
#[derive(Drop)]
pub struct System {
    pub known: Vec<u32>,
    pub unknown: Vec<u32>,
    pub next: u32,
    pub equations: Vec<Row>,
    pub inequalities: Vec<Row>,
    pub needs: u64,
}

/// A let of a new known column, which holds the row divided by the number and rounded down, or a
/// need.
#[derive(Drop)]
pub enum Step {
    Let(u32, Row, i128),
    NeedNonneg(Row),
    NeedZero(Row),
    NeedDivides(i128, Row),
}

/// The column of a search variable, which goes from 0 up to the bound, not with it.
#[derive(Clone, Copy, Debug, PartialEq, Eq)]
pub struct Search {
    pub column: u32,
    pub bound: u32,
}

/// How an unknown is computed.
#[derive(Drop)]
pub struct Back {
    pub unknown: u32,
    pub how: How,
}

/// A row's value, the greatest of lower bounds, or the least of upper bounds. A lower bound of `x`
/// holds `l` and `p` of `p * x + l >= 0`, an upper one `m` and `q` of `-q * x + m >= 0`.
#[derive(Drop)]
pub enum How {
    Row(Row),
    Greatest(Vec<Divided>),
    Least(Vec<Divided>),
}

/// A bound's row and its divisor.
#[derive(Drop)]
pub struct Divided {
    pub row: Row,
    pub k: i128,
}
