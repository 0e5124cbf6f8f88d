//! Which relations are linear.
ghost use Rattle.std.specs.Prelude.{◌≡◌};
ghost use Rattle.cf_program.specs.LateLinear.{known_in as known_in_of};

/// Which relations are linear: those of plain programs, or those of late ones, which are solved
/// where the numbers in their scope are known.
#[derive(Clone, Copy, Debug, PartialEq, Eq)]
pub enum Linearity {
    /// A product has a side without variables.
    Plain,
    /// A product has a side of literals and of numbers in the scope of its `choose`.
    Late,
}

impl Linearity {
    /// How many of the variables in the scope of a `choose` count as known in its relation.
    pub fn known_in(self, scope: usize) -> usize
        ensures { result ≡ known_in_of self scope }
    {
        match self {
            Linearity::Plain => 0,
            Linearity::Late => scope,
        }
    }
}
