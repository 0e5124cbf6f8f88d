//! Numbers in the place of a divisor or of a factor.
ghost use Rattle.std.specs.Prelude.{◌≡◌, pos, int_le, Ok, IfOk, IfSome};
ghost use Rattle.cf_num.specs.Limit.{IsWithin, within};
ghost use Rattle.cf_tree.specs.RawView.{number_tree};
ghost use Rattle.cf_type.specs.FormView.{context_of};
ghost use Rattle.cf_program.specs.CheckAnswers.{CheckAnswer};
ghost use Rattle.cf_program.specs.declared.fault.TypeFault.TheVariants.{ConstantBelow};
ghost use Rattle.cf_program.specs.Walk.{where_kept, named_number as named_number_of, factor_in, divisor_in, signed as signed_of};

use crate::context::Context;
use crate::scope::Scope;
use cf_program::{TypeFault, Variable};
use cf_tree::{NoMemory, Number, Place};

// The number that a name stands for, by the constant and the variable of that name.
fn named_number(
    place: Place,
    constant: Option<i128>,
    variable: Option<Variable>,
) -> Result<i128, TypeFault>
    ensures { CheckAnswer (λ k. k) result (named_number_of place constant variable) }
{
    match constant {
        Some(k) => Ok(k),
        None => match variable {
            Some(_) => Err(TypeFault::NotConstant(place)),
            None => Err(TypeFault::UnknownName(place)),
        },
    }
}

/// The factor of a part of a pattern.
pub fn factor(context: &Context, scope: &Scope, number: &Number) -> Result<i128, TypeFault>
    ensures { CheckAnswer (λ k. k) result (factor_in (context_of context.now) scope.now (number_tree number.now)) }
{
    match number {
        Number::Lit(k) => Ok(*k),
        Number::Name { place, name } => {
            named_number(*place, context.constant(name), scope.find(name))
        }
    }
}

/// The divisor of a `div`, `mod` or `divides`.
pub fn divisor(context: &Context, scope: &Scope, number: &Number) -> Result<i128, TypeFault>
    ensures { CheckAnswer (λ k. k) result (divisor_in (context_of context.now) scope.now (number_tree number.now)) }
{
    match number {
        Number::Lit(k) => Ok(*k),
        Number::Name { place, name } => {
            match named_number(*place, context.constant(name), scope.find(name)) {
                Ok(k) => at_least_one(*place, k),
                Err(fault) => Err(fault),
            }
        }
    }
}

// The number, where it is at least 1.
fn at_least_one(place: Place, k: i128) -> Result<i128, TypeFault>
    ensures { CheckAnswer (λ k. k) result (where_kept (int_le (pos 1) k) (ConstantBelow place) (Ok k)) }
{
    if 1 <= k {
        Ok(k)
    } else {
        Err(TypeFault::ConstantBelow(place))
    }
}

/// The number, or none where it passes the limit.
pub fn limited(k: i128) -> Option<i128>
    ensures value { result ≡ within k }
    ensures fits { IfSome result IsWithin }
{
    if k == i128::MIN { None } else { Some(k) }
}

/// The number with its sign.
pub fn signed(is_negative: bool, k: i128) -> Result<i128, NoMemory>
    ensures { IfOk result (λ n. n ≡ signed_of is_negative k) }
{
    if !is_negative {
        return Ok(k);
    }
    match k.checked_neg() {
        Some(n) => Ok(n),
        None => Err(NoMemory),
    }
}
