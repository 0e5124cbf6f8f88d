//! Fractions, and what the simplex does not need of numbers.
use cf_simplex::{Ratio, Stop, common, product, quotient, total};

/// Whether a number above 0 divides `a`.
pub(crate) fn divides(k: i128, a: i128) -> bool {
    k > 0 && a.rem_euclid(k) == 0
}

/// `sum + k * x`, without a common divisor.
pub(crate) fn sum_of(sum: Ratio, k: i128, x: Ratio) -> Result<Ratio, Stop> {
    let g = common(sum.denominator, x.denominator);
    let a = quotient(x.denominator, g);
    let b = quotient(sum.denominator, g);
    let more = product(product(k, x.numerator)?, b)?;
    let numerator = total(product(sum.numerator, a)?, more)?;
    Ok(Ratio {
        numerator,
        denominator: product(sum.denominator, a)?,
    }
    .lowest())
}

/// A whole number.
pub(crate) fn whole(k: i128) -> Ratio {
    Ratio {
        numerator: k,
        denominator: 1,
    }
}
