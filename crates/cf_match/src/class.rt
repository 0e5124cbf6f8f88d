//! Classes of numbers that patterns stand for.
ghost use Rattle.std.specs.Prelude.{◌≡◌, pos, All};
ghost use Rattle.cf_num.specs.Limit.{IsWithin};
ghost use Rattle.cf_program.specs.Lowered.{divisor};
ghost use Rattle.cf_match.specs.Classes.{class_of, ClassesAreExact};

use cf_num::{gcd, modulo};

/// The numbers that a pattern can be.
#[derive(Clone, Copy, Debug, PartialEq, Eq)]
pub enum Class {
    /// This number alone.
    Point(i128),
    /// All numbers that leave `r` behind the greatest multiple of `g` that is not above them.
    Residue { g: i128, r: i128 },
}

/// The class of the pattern that is the sum of each factor times its variable, and of the constant.
pub fn class_of(factors: &[i128], constant: i128) -> Class
    requires factors_in { All IsWithin factors.now }
    requires constant_in { IsWithin constant }
    ensures { result ≡ class_of factors.now constant }
{
    let g = divisor(factors);
    if g == 0 {
        Class::Point(constant)
    } else {
        Class::Residue {
            g,
            r: modulo(constant, g),
        }
    }
}

/// The class of a pattern holds the numbers that some values of its variables make it, and no
/// others.
pub fn classes_are_exact()
    ensures { ClassesAreExact }
{}

// The greatest common divisor of the factors, 0 where all are 0.
#[tactic(auto, using(crate::proofs::ClassLaws::divisor_next, crate::proofs::ClassLaws::divisor_end))]
fn divisor(factors: &[i128]) -> i128
    requires { All IsWithin factors.now }
    ensures value { result ≡ pos (divisor factors.now) }
    ensures fits { IsWithin result }
{
    let mut g = 0;
    let mut i = factors.len();
    while i > 0 {
        i -= 1;
        g = gcd(factors[i], g);
    }
    g
}
