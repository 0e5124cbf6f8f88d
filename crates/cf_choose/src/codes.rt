//! The codes of rows, of bounds and of ways back.
ghost use Rattle.std.specs.Prelude.{◌≡◌, pos, map, IfOk};
ghost use Rattle.cf_tree.specs.CodeTree.{code_lit, code_div, code_compare, code_divides};
ghost use Rattle.cf_tree.specs.CodeView.{code_tree};
ghost use Rattle.cf_linear.specs.Arm.{entry_code, row_code, lower_code, upper_code, greatest_code, least_code, how_code, negated};
ghost use Rattle.cf_linear.specs.Rows.{IsRow};
ghost use Rattle.cf_linear.specs.Views.{how_of};
ghost use Rattle.cf_choose.specs.Fitting.{pair_of, Fits, PairsFit, HowFits};

use cf_linear::{Divided, How, Row};
use cf_setwit::{ColumnLevels, sum_of};
use cf_tree::{Code, NoMemory, Order};
use std::alloc::Global;

// The code of an entry.
fn entry_code(alloc: Global, names: &ColumnLevels, column: u32, k: i128) -> Result<Code, NoMemory>
    ensures { IfOk result (λ c. code_tree c ≡ entry_code names.now (column, k)) }
{
    if column == 0 {
        return Ok(Code::Lit(k));
    }
    let level = names.level_of(column);
    if k == 1 {
        return Ok(Code::Var(level));
    }
    let factor = Box::new(alloc, Code::Lit(k))?;
    let variable = Box::new(alloc, Code::Var(level))?;
    Ok(Code::Mul(factor, variable))
}

// One code alone, or the greatest of several.
fn greatest_of(codes: Vec<Code>) -> Code
    ensures { code_tree result ≡ greatest_code (map code_tree codes.items) }
{
    let mut codes = codes;
    if codes.len() > 1 {
        return Code::Max(codes);
    }
    match codes.pop() {
        Some(code) => code,
        None => Code::Lit(0),
    }
}

// One code alone, or the least of several.
fn least_of(codes: Vec<Code>) -> Code
    ensures { code_tree result ≡ least_code (map code_tree codes.items) }
{
    let mut codes = codes;
    if codes.len() > 1 {
        return Code::Min(codes);
    }
    match codes.pop() {
        Some(code) => code,
        None => Code::Lit(0),
    }
}

/// The sum of the entries of the row, over the levels of its columns.
///
/// # Errors
/// `NoMemory` where memory ran out.
pub fn row_code(alloc: Global, names: &ColumnLevels, row: &Row) -> Result<Code, NoMemory>
    ensures code { IfOk result (λ c. code_tree c ≡ row_code names.now row.now) }
    ensures is_row { IsRow row.now }
{
    let mut parts = Vec::new(alloc);
    for i in 0..row.len() {
        let (column, k) = row.at(i);
        parts.push(entry_code(alloc, names, column, k)?)?;
    }
    Ok(sum_of(parts))
}

/// The row divided by the number and rounded down.
///
/// # Errors
/// `NoMemory` where memory ran out.
pub fn quotient_code(
    alloc: Global,
    names: &ColumnLevels,
    row: &Row,
    k: i128,
) -> Result<Code, NoMemory>
    ensures code { IfOk result (λ c. code_tree c ≡ code_div (row_code names.now row.now) k) }
    ensures is_row { IsRow row.now }
{
    let of = row_code(alloc, names, row)?;
    Ok(Code::Div {
        of: Box::new(alloc, of)?,
        k,
    })
}

/// Whether the row is so to 0 as the order says.
///
/// # Errors
/// `NoMemory` where memory ran out.
pub fn need_code(
    alloc: Global,
    names: &ColumnLevels,
    order: Order,
    row: &Row,
) -> Result<Code, NoMemory>
    ensures code { IfOk result (λ c. code_tree c ≡ code_compare order (row_code names.now row.now) (code_lit (pos 0))) }
    ensures is_row { IsRow row.now }
{
    let value = row_code(alloc, names, row)?;
    Ok(Code::Compare {
        order,
        left: Box::new(alloc, value)?,
        right: Box::new(alloc, Code::Lit(0))?,
    })
}

/// Whether the number divides the row.
///
/// # Errors
/// `NoMemory` where memory ran out.
pub fn divides_code(
    alloc: Global,
    names: &ColumnLevels,
    k: i128,
    row: &Row,
) -> Result<Code, NoMemory>
    ensures code { IfOk result (λ c. code_tree c ≡ code_divides k (row_code names.now row.now)) }
    ensures is_row { IsRow row.now }
{
    let of = row_code(alloc, names, row)?;
    Ok(Code::Divides {
        k,
        of: Box::new(alloc, of)?,
    })
}

// The sum of the entries with their signs turned.
fn turned_code(alloc: Global, names: &ColumnLevels, row: &Row) -> Result<Code, NoMemory>
    ensures code { IfOk result (λ c. code_tree c ≡ row_code names.now (negated row.now)) }
    ensures is_row { IsRow row.now }
{
    let _size = row.len();
    let turned = row.negated(alloc)?;
    row_code(alloc, names, &turned)
}

// The least number that meets a lower bound.
fn lower_code(alloc: Global, names: &ColumnLevels, bound: &Divided) -> Result<Code, NoMemory>
    ensures code { IfOk result (λ c. code_tree c ≡ lower_code names.now (pair_of bound.now)) }
    ensures fits { Fits bound.now.row bound.now.k }
{
    if bound.k == 1 {
        return turned_code(alloc, names, &bound.row);
    }
    let quotient = quotient_code(alloc, names, &bound.row, bound.k)?;
    Ok(Code::Neg(Box::new(alloc, quotient)?))
}

// The greatest number that meets an upper bound.
fn upper_code(alloc: Global, names: &ColumnLevels, bound: &Divided) -> Result<Code, NoMemory>
    ensures code { IfOk result (λ c. code_tree c ≡ upper_code names.now (pair_of bound.now)) }
    ensures fits { Fits bound.now.row bound.now.k }
{
    if bound.k == 1 {
        return row_code(alloc, names, &bound.row);
    }
    quotient_code(alloc, names, &bound.row, bound.k)
}

fn lower_codes(
    alloc: Global,
    names: &ColumnLevels,
    bounds: &[Divided],
) -> Result<Vec<Code>, NoMemory>
    ensures codes { IfOk result (λ cs. map code_tree cs.items ≡ map (lower_code names.now) (map pair_of bounds.now)) }
    ensures fit { IfOk result (λ _. PairsFit (map pair_of bounds.now)) }
{
    let mut parts = Vec::new(alloc);
    for bound in bounds {
        parts.push(lower_code(alloc, names, bound)?)?;
    }
    Ok(parts)
}

fn upper_codes(
    alloc: Global,
    names: &ColumnLevels,
    bounds: &[Divided],
) -> Result<Vec<Code>, NoMemory>
    ensures codes { IfOk result (λ cs. map code_tree cs.items ≡ map (upper_code names.now) (map pair_of bounds.now)) }
    ensures fit { IfOk result (λ _. PairsFit (map pair_of bounds.now)) }
{
    let mut parts = Vec::new(alloc);
    for bound in bounds {
        parts.push(upper_code(alloc, names, bound)?)?;
    }
    Ok(parts)
}

/// The code that computes an unknown: its row, the greatest of its lower bounds, or the least of its
/// upper ones.
///
/// # Errors
/// `NoMemory` where memory ran out.
pub fn how_code(alloc: Global, names: &ColumnLevels, how: &How) -> Result<Code, NoMemory>
    ensures code { IfOk result (λ c. code_tree c ≡ how_code names.now (how_of how.now)) }
    ensures fits { IfOk result (λ _. HowFits (how_of how.now)) }
{
    match how {
        How::Row(row) => row_code(alloc, names, row),
        How::Greatest(bounds) => Ok(greatest_of(lower_codes(alloc, names, bounds)?)),
        How::Least(bounds) => Ok(least_of(upper_codes(alloc, names, bounds)?)),
    }
}
