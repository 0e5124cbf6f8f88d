//! The unknowns of an equation.
ghost use Rattle.std.specs.Prelude.{◌≡◌, ◌<◌, length};
ghost use Rattle.cf_linear.specs.Steps.{present};
ghost use Rattle.cf_linear.specs.Views.{system_of};
ghost use Rattle.cf_equation.specs.Equations.{present_of, first_of};

use cf_linear::{Row, System};

/// The first unknowns of a row, in the order of the unknowns.
#[derive(Clone, Copy, Debug, PartialEq, Eq)]
pub enum Present {
    /// The row has no unknown.
    Nothing,
    /// The row has this one unknown.
    One(u32),
    /// The row has two unknowns or more, and these are its first two.
    Several(u32, u32),
}

/// The first unknowns of the system's first equation.
pub fn first_unknowns(system: &System) -> Present
    requires { 0 < length system.now.equations.items }
    ensures { result ≡ present_of (present (system_of system.now).unknown (first_of (system_of system.now))) }
{
    first_present(&system.equations[0], &system.unknown)
}

// The first of the unknowns that the row has.
fn first_present(row: &Row, unknown: &[u32]) -> Present
    ensures { result ≡ present_of (present unknown.now row.now) }
{
    let mut first = Present::Nothing;
    for u in unknown {
        if row.entry(*u) != 0 {
            match first {
                Present::One(x) => return Present::Several(x, *u),
                _ => first = Present::One(*u),
            }
        }
    }
    first
}
