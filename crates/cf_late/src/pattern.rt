//! The arms of a match.
ghost use Rattle.std.specs.Prelude.{◌≡◌, ◌-◌, map, length};
ghost use Rattle.std.specs.Ordering.{int_eq};
ghost use Rattle.cf_num.specs.Limit.{IsWithin};
ghost use Rattle.cf_tree.specs.declared.base.Base.TheVariants as bases;
ghost use Rattle.cf_tree.specs.Params.{bases_of};
ghost use Rattle.cf_tree.specs.ExprView.{match_arm_tree};
ghost use Rattle.cf_late.specs.LateChoose.{IsLateChoose};
ghost use Rattle.cf_late.specs.Answers.{LateAnswer, arm_fits};
ghost use Rattle.cf_late.specs.LateRun.{is_in, late_variables, pattern_relation};
ghost use Rattle.cf_late.specs.Runnable.{HasFitPattern};

use crate::enter::enter;
use crate::stop::Stop;
use crate::values::Values;
use cf_eval::remain;
use cf_match::{Class, class_of, last_level, numbers, pattern_relation};
use cf_tree::{MatchArm, Param};
use std::alloc::Global;

// Whether the test of an arm holds of a number.
pub(crate) fn fits(arm: &MatchArm, z: i128) -> bool
    requires number { IsWithin z }
    requires pattern { HasFitPattern (match_arm_tree arm.now) }
    ensures { result ≡ arm_fits (match_arm_tree arm.now) z }
{
    is_in(class_of(&arm.factors, arm.constant), z)
}

// Whether a number is in a class.
fn is_in(class: Class, z: i128) -> bool
    requires { IsWithin z }
    ensures { result ≡ is_in class z }
{
    match class {
        Class::Point(c) => are_same(z, c),
        Class::Residue { g, r } => are_same(remain(z, g), r),
    }
}

// for the proof: `==` on the numbers that a `match` holds is dear to show
fn are_same(x: i128, y: i128) -> bool
    ensures { result ≡ int_eq x y }
{
    x == y
}

// The values of the variables of an arm, which its choose picks. The matched value stands last in
// scope.
pub(crate) fn variables(
    alloc: Global,
    scope: &[Param],
    arm: &MatchArm,
    env: &Values,
) -> Result<Values, Stop>
    requires late { IsLateChoose (bases_of scope.now) (map (λ _. bases.Int) arm.now.factors.items)
        (pattern_relation (length (bases_of scope.now) - 1) arm.now.factors.items arm.now.constant) }
    ensures { LateAnswer result (late_variables arm.now.number (bases_of scope.now) arm.now.factors.items arm.now.constant env.now) }
{
    if arm.factors.is_empty() {
        return Ok(Values::none(alloc));
    }
    let outputs = numbers(alloc, &arm.factors)?;
    let level = last_level(scope)?;
    let rel = pattern_relation(alloc, level, &arm.factors, arm.constant)?;
    let values = enter(alloc, arm.number, scope, &outputs, &rel, env);
    drop(rel);
    values
}
