//! The sides of bounds.
ghost use Rattle.std.specs.Prelude.{◌≡◌, ◌&&◌, nat_lt, unsigned_abs, pos, negsuc, if◌then◌else◌};
ghost use Rattle.cf_num.specs.Limit.{IsWithin};
ghost use Rattle.cf_linear.specs.Sides.{is_lower, is_side};

/// Which bounds of an unknown: the lower ones, where its coefficient is above 0, or the upper ones, where
/// it is below 0.
#[derive(Clone, Copy, Debug, PartialEq, Eq)]
pub enum Side {
    Lower,
    Upper,
}

impl Side {
    /// The side of lower bounds, where `lower`, or that of upper ones.
    pub fn of(lower: bool) -> Side
        ensures { is_lower result ≡ lower }
    {
        if lower { Side::Lower } else { Side::Upper }
    }

    /// Whether it is the side of lower bounds.
    pub fn is_lower(self) -> bool
        ensures { result ≡ is_lower self }
    {
        match self {
            Side::Lower => true,
            Side::Upper => false,
        }
    }

    /// Whether the coefficient is one of a bound on the side.
    pub fn has(self, k: i128) -> bool
        ensures { result ≡ is_side (is_lower self) k }
    {
        match self {
            Side::Lower => k > 0,
            Side::Upper => k < 0,
        }
    }

    /// Whether the coefficient is one above 1, in absolute value, of a bound on the side.
    pub fn has_great(self, k: i128) -> bool
        ensures { result ≡ (is_side (is_lower self) k && nat_lt 1 (unsigned_abs k)) }
    {
        self.has(k) && k.unsigned_abs() > 1
    }

    /// The sign of the coefficients of its bounds.
    pub fn sign(self) -> i128
        ensures value { result ≡ (if is_lower self then pos 1 else negsuc 0) }
        ensures fits { IsWithin result }
    {
        match self {
            Side::Lower => 1,
            Side::Upper => -1,
        }
    }
}
