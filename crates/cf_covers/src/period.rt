//! A number of residues that tells of all numbers. Nothing of what is found here is relied on.
use crate::coverage::MOST_RESIDUES;
use crate::inside::is_inside;
use cf_match::Class;
use cf_num::gcd;

/// The least common multiple of a divisor and those of the residue classes, but for classes that are inside of
/// others; none past the most residues.
pub(crate) fn period_of(classes: &[Class], divisor: i128) -> Option<u32> {
    let mut period = with_divisor(1, divisor)?;
    for i in 0..classes.len() {
        if let Class::Residue { g, .. } = classes[i] {
            if !is_inside_another(classes, i) {
                period = with_divisor(period, g)?;
            }
        }
    }
    Some(period)
}

// Whether the class at the place is inside of another one, an earlier one where they are the same.
fn is_inside_another(classes: &[Class], place: usize) -> bool {
    let Some(class) = classes.get(place) else {
        return false;
    };
    for i in 0..classes.len() {
        let other = classes[i];
        if i != place && is_inside(*class, other) && (i < place || !is_inside(other, *class)) {
            return true;
        }
    }
    false
}

// The least common multiple of the period and the divisor.
fn with_divisor(period: u32, divisor: i128) -> Option<u32> {
    let Ok(divisor) = u32::try_from(divisor) else {
        return None;
    };
    let Ok(shared) = u32::try_from(gcd(period as i128, divisor as i128)) else {
        return None;
    };
    if shared == 0 {
        return None;
    }
    let multiple = (period / shared).checked_mul(divisor)?;
    if multiple > MOST_RESIDUES {
        None
    } else {
        Some(multiple)
    }
}
