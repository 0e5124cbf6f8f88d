//! Whether relations hold.
ghost use Rattle.std.specs.Prelude.{◌≡◌, Decides, IfOk};
ghost use Rattle.cf_num.specs.Limit.{IsWithin};
ghost use Rattle.cf_tree.specs.Relation.{Holds};
ghost use Rattle.cf_tree.specs.RelView.{rel_tree};
ghost use Rattle.cf_tree.specs.Values.{number, compared};
ghost use Rattle.cf_eval.specs.Seen.{plains};
ghost use Rattle.cf_holds.specs.Truth.{is_true, divides};

use crate::fault::HoldFault;
use crate::numbers::{absolute, value, within};
use crate::sets::members;
use cf_eval::{Value, compare, remain};
use cf_tree::{Order, Rel};
use std::alloc::Global;

/// Whether a relation holds where its variables have these values, by level. A variable without a value counts as 0 or
/// the empty set, and so does one with a value of another base.
///
/// # Errors
/// `Past` where a number passes the limit on the way, `NoMemory` where memory ran out.
#[tactic(auto, using(crate::proofs::TruthLaws::told))]
pub fn holds_at(alloc: Global, rel: &Rel, values: &[Value]) -> Result<bool, HoldFault>
    ensures { IfOk result (λ b. Decides b (Holds (rel_tree rel.now) (plains values.now))) }
{
    truth(alloc, rel, values)
}

// Whether the relation holds.
fn truth(alloc: Global, rel: &Rel, values: &[Value]) -> Result<bool, HoldFault>
    ensures { IfOk result (λ b. b ≡ is_true (rel_tree rel.now) (plains values.now)) }
{
    match rel {
        Rel::True => Ok(true),
        Rel::False => Ok(false),
        Rel::Compare { order, left, right } => {
            let x = value(alloc, left, values)?;
            let y = value(alloc, right, values)?;
            Ok(compare_numbers(*order, x, y))
        }
        Rel::SameSet(a, b) => {
            let s = members(alloc, a, values)?;
            let t = members(alloc, b, values)?;
            Ok(s.same(&t))
        }
        Rel::OtherSet(a, b) => {
            let s = members(alloc, a, values)?;
            let t = members(alloc, b, values)?;
            Ok(!s.same(&t))
        }
        Rel::Subset(a, b) => {
            let s = members(alloc, a, values)?;
            let t = members(alloc, b, values)?;
            Ok(s.subset(&t))
        }
        Rel::Divides { k, of } => {
            let x = value(alloc, of, values)?;
            let k = within(*k)?;
            Ok(divides(k, x))
        }
        Rel::And(p, q) => {
            if truth(alloc, p, values)? {
                truth(alloc, q, values)
            } else {
                Ok(false)
            }
        }
        Rel::Or(p, q) => {
            if truth(alloc, p, values)? {
                Ok(true)
            } else {
                truth(alloc, q, values)
            }
        }
        Rel::Not(p) => Ok(!truth(alloc, p, values)?),
    }
}

fn compare_numbers(order: Order, x: i128, y: i128) -> bool
    ensures { result ≡ compared order (number x) (number y) }
{
    compare(order, &Value::Int(x), &Value::Int(y))
}

// Whether k divides x.
fn divides(k: i128, x: i128) -> bool
    requires k_in { IsWithin k }
    requires x_in { IsWithin x }
    ensures { result ≡ divides k x }
{
    remain(x, absolute(k)) == 0
}
