//! The unknown of an equation as a quotient.
ghost use Rattle.std.specs.Prelude.{◌≡◌, ◌∷◌, [], pos, negsuc, if◌then◌else◌, unsigned_abs, map, IfOk};
ghost use Rattle.cf_num.specs.Limit.{IsWithin};
ghost use Rattle.cf_linear.specs.Systems.{need_divides, floor_of};
ghost use Rattle.cf_linear.specs.Steps.{is_positive};
ghost use Rattle.cf_linear.specs.Views.{step_of};

use crate::row::Row;
use crate::system::Step;
use cf_num::neg;
use cf_tree::NoMemory;
use std::alloc::Global;

/// The size of a coefficient, and the sign of the column that its unknown is.
pub fn size_of(c: i128) -> (i128, i128)
    requires { IsWithin c }
    ensures size { result.0 ≡ pos (unsigned_abs c) }
    ensures sign { result.1 ≡ (if is_positive c then negsuc 0 else pos 1) }
    ensures sign_in { IsWithin result.1 }
{
    if c > 0 { (c, -1) } else { (neg(c), 1) }
}

/// The need that the number divides the row, and the let of the quotient as that column.
///
/// # Errors
/// `NoMemory` where memory ran out.
pub fn division(alloc: Global, column: u32, row: Row, size: i128) -> Result<Vec<Step>, NoMemory>
    ensures { IfOk result (λ v. map step_of v.items ≡ (need_divides size row ∷ floor_of column row size ∷ [])) }
{
    let copy = row.try_copy(alloc)?;
    let need = Step::NeedDivides(size, copy);
    two(alloc, need, Step::Let(column, row, size))
}

fn two<T: Drop>(alloc: Global, first: T, second: T) -> Result<Vec<T>, NoMemory>
    ensures { IfOk result (λ v. v.items ≡ first ∷ second ∷ []) }
{
    let mut both = Vec::new(alloc);
    both.push(first)?;
    both.push(second)?;
    Ok(both)
}
