//! Classes whose numbers are all in classes before them.
ghost use Rattle.std.specs.Prelude.{◌≡◌, ◌*ℤ◌, ◌+ℤ◌, pos, true, IfSome};
ghost use Rattle.cf_match.specs.declared.class.Class.TheVariants.{Residue};
ghost use Rattle.cf_covers.specs.Covers.{AreHeld, HoldSteps};

use crate::inside::is_inside_one;
use cf_match::Class;
use cf_num::gcd;

/// The most residues of a class that are tried.
pub const MOST_STEPS: u32 = 4_096;

/// Whether each number of the class is in one of the classes before it: no where that is not so, or where more than
/// `MOST_STEPS` residues of the class would tell.
pub fn is_out_of_reach(earlier: &[Class], class: Class) -> bool
    ensures { result ≡ true → AreHeld earlier.now class }
{
    if is_inside_one(class, earlier) {
        return true;
    }
    match class {
        Class::Point(_) => false,
        Class::Residue { g, r } => is_passed_over(earlier, g, r),
    }
}

// The same of the numbers that leave `r` behind multiples of `g`.
fn is_passed_over(earlier: &[Class], g: i128, r: i128) -> bool
    ensures { result ≡ true → AreHeld earlier.now (Residue g r) }
{
    match steps_of(earlier, g) {
        Some(steps) => is_passed_in_steps(earlier, g, r, steps),
        None => false,
    }
}

// The same, by so many residues of the class modulo that many times `g`.
fn is_passed_in_steps(earlier: &[Class], g: i128, r: i128, steps: u32) -> bool
    ensures { result ≡ true → AreHeld earlier.now (Residue g r) }
{
    if g <= 0 || steps == 0 {
        return false;
    }
    hold_steps(earlier, &g, &r, steps)
}

fn hold_steps(earlier: &[Class], g: &i128, r: &i128, steps: u32) -> bool
    ensures { result ≡ true → HoldSteps earlier.now g.now r.now steps }
{
    for i in 0..steps {
        if !is_step_held(earlier, g, r, steps, i) {
            return false;
        }
    }
    true
}

// Whether the residue of that place has all its numbers in one of the classes.
fn is_step_held(earlier: &[Class], g: &i128, r: &i128, steps: u32, i: u32) -> bool
    ensures { result ≡ true → AreHeld earlier.now (Residue (g.now *ℤ pos steps) (r.now +ℤ g.now *ℤ pos i)) }
{
    match residue_at(g, r, steps, i) {
        Some(class) => is_inside_one(class, earlier),
        None => false,
    }
}

// The residue of that place; none where a number passes 2^127 - 1.
fn residue_at(g: &i128, r: &i128, steps: u32, i: u32) -> Option<Class>
    ensures { IfSome result (λ c. c ≡ Residue (g.now *ℤ pos steps) (r.now +ℤ g.now *ℤ pos i)) }
{
    let period = times(g, steps)?;
    let step = times(g, i)?;
    let residue = plus(r, &step)?;
    Some(Class::Residue {
        g: period,
        r: residue,
    })
}

fn times(z: &i128, n: u32) -> Option<i128>
    ensures { IfSome result (λ k. k ≡ z.now *ℤ pos n) }
{
    z.checked_mul(n as i128)
}

fn plus(z: &i128, more: &i128) -> Option<i128>
    ensures { IfSome result (λ k. k ≡ z.now +ℤ more.now) }
{
    z.checked_add(*more)
}

// In how many steps of the divisor the earlier classes repeat, at most so many. Nothing of what is found here is relied on.
fn steps_of(earlier: &[Class], divisor: i128) -> Option<u32> {
    let mut steps: u32 = 1;
    for class in earlier {
        if let Class::Residue { g, .. } = class {
            steps = steps_with(steps, divisor, *g)?;
        }
    }
    Some(steps)
}

fn steps_with(steps: u32, divisor: i128, other: i128) -> Option<u32> {
    let period = divisor.checked_mul(steps as i128)?;
    if period == i128::MIN || other == i128::MIN {
        return None;
    }
    let shared = gcd(period, other);
    if shared == 0 {
        return None;
    }
    let more = other / shared;
    if more < 1 || more > MOST_STEPS as i128 {
        return None;
    }
    let all = steps.checked_mul(more as u32)?;
    if all > MOST_STEPS { None } else { Some(all) }
}
