//! The level that the name of a variable tells.
ghost use Rattle.std.specs.Prelude.{◌≡◌};
ghost use Rattle.cf_target.specs.Levels.{with_digit as with_digit_of, level_after as level_after_of, level_in as level_in_of, level_of};

// The number with one more digit, if it is below 2^32.
#[tactic(auto, unfolding(crate::specs::Levels::with_digit, crate::specs::Levels::last_level))]
fn with_digit(n: u32, d: u8) -> Option<u32>
    ensures { result ≡ with_digit_of n d }
{
    if d < b'0' || b'9' < d {
        return None;
    }
    let more = u64::from(n) * 10 + u64::from(d - b'0');
    if more <= 4_294_967_295 {
        Some(more as u32)
    } else {
        None
    }
}

// The level that digits tell behind those of `n`.
fn level_after(n: u32, digits: &[u8]) -> Option<u32>
    ensures { result ≡ level_after_of n digits.now }
{
    let mut level_named = n;
    for d in digits {
        match with_digit(level_named, *d) {
            Some(more) => level_named = more,
            None => return None,
        }
    }
    Some(level_named)
}

// The level that digits without leading zeros tell.
fn level_in(digits: &[u8]) -> Option<u32>
    ensures { result ≡ level_in_of digits.now }
{
    let first = digits.first()?;
    if *first == b'0' && 1 < digits.len() {
        return None;
    }
    level_after(0, digits)
}

/// The level of the variable that has this name, if it is the name of one.
pub fn level_named(name: &[u8]) -> Option<u32>
    ensures { result ≡ level_of name.now }
{
    let (v, digits) = name.split_first()?;
    if *v == b'v' { level_in(digits) } else { None }
}
