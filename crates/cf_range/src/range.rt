//! Ranges of numbers within the limit.
ghost use Rattle.std.specs.Prelude.{◌≡◌, pos, ◌+ℤ◌, ◌-ℤ◌, ◌*ℤ◌, neg_ℤ};
ghost use Rattle.std.specs.Int.{int_min, int_max};
ghost use Rattle.cf_tree.specs.Numbers.{quotient};
ghost use Rattle.cf_range.specs.Ranges.{between, whole, nearest, passes, plus, minus, times, plus_passes, minus_passes, times_passes, negated, divided, left_by, sizes, better_of, either, past_or_none, spanned, scaled};

/// The numbers from `low` to `high`, both among them. That of a set ends at the most elements that it may have.
#[derive(Clone, Copy, Debug, PartialEq, Eq)]
pub struct Range {
    pub low: i128,
    pub high: i128,
}

// The greatest number within the limit.
const MAX: i128 = i128::MAX;

impl Range {
    /// All numbers within the limit.
    pub fn whole() -> Range
        ensures { result ≡ whole }
    {
        Range {
            low: -MAX,
            high: MAX,
        }
    }

    /// The number 0 alone.
    pub fn zero() -> Range
        ensures { result ≡ between (pos 0) (pos 0) }
    {
        Range { low: 0, high: 0 }
    }

    /// The one number, or the nearest within the limit.
    pub fn exactly(z: i128) -> Range
        ensures { result ≡ between (nearest z) (nearest z) }
    {
        Range {
            low: nearest(z),
            high: nearest(z),
        }
    }

    /// Where sums lie that are within the limit.
    pub fn plus(self, other: Range) -> Range
        ensures { result ≡ plus self other }
    {
        Range {
            low: near_sum(self.low, other.low),
            high: near_sum(self.high, other.high),
        }
    }

    /// Where differences lie that are within the limit.
    pub fn minus(self, other: Range) -> Range
        ensures { result ≡ minus self other }
    {
        Range {
            low: near_difference(self.low, other.high),
            high: near_difference(self.high, other.low),
        }
    }

    /// Where products lie that are within the limit.
    pub fn times(self, other: Range) -> Range
        ensures { result ≡ times self other }
    {
        let low = scaled_by_low(self, other);
        let high = scaled_by_high(self, other);
        low.either(high)
    }

    /// Whether some sum of two numbers of these ranges may be past the limit.
    pub fn plus_passes(self, other: Range) -> bool
        ensures { result ≡ plus_passes self other }
    {
        sum_passes(self.low, other.low) || sum_passes(self.high, other.high)
    }

    /// Whether some difference of two numbers of these ranges may be past the limit.
    pub fn minus_passes(self, other: Range) -> bool
        ensures { result ≡ minus_passes self other }
    {
        difference_passes(self.low, other.high) || difference_passes(self.high, other.low)
    }

    /// Whether some product of two numbers of these ranges may be past the limit.
    pub fn times_passes(self, other: Range) -> bool
        ensures { result ≡ times_passes self other }
    {
        let low = product_passes(self.low, other.low) || product_passes(self.low, other.high);
        let high = product_passes(self.high, other.low) || product_passes(self.high, other.high);
        low || high
    }

    /// Where numbers lie with the other sign.
    pub fn negated(self) -> Range
        ensures { result ≡ negated self }
    {
        Range {
            low: near_difference(0, self.high),
            high: near_difference(0, self.low),
        }
    }

    /// Where quotients by k lie.
    pub fn divided(self, k: i128) -> Range
        ensures { result ≡ divided self k }
    {
        Range {
            low: quotient(self.low, k),
            high: quotient(self.high, k),
        }
    }

    /// Where the remainders of division by k lie.
    pub fn left_by(self, k: i128) -> Range
        ensures { result ≡ left_by self k }
    {
        if 0 < k {
            Range {
                low: 0,
                high: k - 1,
            }
        } else {
            self
        }
    }

    /// How many elements sets of this range have.
    pub fn sizes(self) -> Range
        ensures { result ≡ sizes self }
    {
        Range {
            low: 0,
            high: greatest(0, self.high),
        }
    }

    /// Where the lesser of two numbers of these ranges lies.
    pub fn least(self, other: Range) -> Range
        ensures { result ≡ better_of int_min self other }
    {
        Range {
            low: least(self.low, other.low),
            high: least(self.high, other.high),
        }
    }

    /// Where the greater of two numbers of these ranges lies.
    pub fn greatest(self, other: Range) -> Range
        ensures { result ≡ better_of int_max self other }
    {
        Range {
            low: greatest(self.low, other.low),
            high: greatest(self.high, other.high),
        }
    }

    /// Where a number lies that is in the one or the other.
    pub fn either(self, other: Range) -> Range
        ensures { result ≡ either self other }
    {
        Range {
            low: least(self.low, other.low),
            high: greatest(self.high, other.high),
        }
    }
}

// Where multiples lie that are within the limit.
fn scaled(range: Range, k: i128) -> Range
    ensures { result ≡ scaled range k }
{
    spanned(near_product(range.low, k), near_product(range.high, k))
}

fn scaled_by_low(range: Range, factors: Range) -> Range
    ensures { result ≡ scaled range factors.low }
{
    scaled(range, factors.low)
}

fn scaled_by_high(range: Range, factors: Range) -> Range
    ensures { result ≡ scaled range factors.high }
{
    scaled(range, factors.high)
}

// The least range with both numbers.
fn spanned(a: i128, b: i128) -> Range
    ensures { result ≡ spanned a b }
{
    Range {
        low: least(a, b),
        high: greatest(a, b),
    }
}

fn least(a: i128, b: i128) -> i128
    ensures { result ≡ int_min a b }
{
    a.min(b)
}

fn greatest(a: i128, b: i128) -> i128
    ensures { result ≡ int_max a b }
{
    a.max(b)
}

// The nearest number within the limit to one that was cut at those of the type.
fn nearest(z: i128) -> i128
    ensures { result ≡ nearest z }
{
    z.max(-MAX)
}

fn near_sum(a: i128, b: i128) -> i128
    ensures { result ≡ nearest (a +ℤ b) }
{
    nearest(a.saturating_add(b))
}

fn near_difference(a: i128, b: i128) -> i128
    ensures { result ≡ nearest (a -ℤ b) }
{
    nearest(a.saturating_sub(b))
}

fn near_product(a: i128, b: i128) -> i128
    ensures { result ≡ nearest (a *ℤ b) }
{
    nearest(a.saturating_mul(b))
}

fn sum_passes(a: i128, b: i128) -> bool
    ensures { result ≡ passes (a +ℤ b) }
{
    is_past(a.checked_add(b))
}

fn difference_passes(a: i128, b: i128) -> bool
    ensures { result ≡ passes (a -ℤ b) }
{
    is_past(a.checked_sub(b))
}

fn product_passes(a: i128, b: i128) -> bool
    ensures { result ≡ passes (a *ℤ b) }
{
    is_past(a.checked_mul(b))
}

// Whether there is no such number of 128 bits, or it is the one past the limit.
fn is_past(z: Option<i128>) -> bool
    ensures { result ≡ past_or_none z }
{
    match z {
        Some(z) => number_passes(z),
        None => true,
    }
}

/// Whether the number is past the limit.
pub(crate) fn number_passes(z: i128) -> bool
    ensures { result ≡ passes z }
{
    z < -MAX
}

// The quotient, rounded down; 0 where k is no divisor.
fn quotient(z: i128, k: i128) -> i128
    ensures { result ≡ quotient z k }
{
    if 0 < k { z.div_euclid(k) } else { 0 }
}
