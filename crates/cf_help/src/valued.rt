//! Constants with their values.
ghost use Rattle.std.specs.Prelude.{◌≡◌, map};
ghost use Rattle.cf_program.specs.Constants.{constant_of};
ghost use Rattle.cf_help.specs.ValuedView.{constant_seen};

/// A constant with its value.
#[derive(Clone, Copy)]
pub struct Valued<'a> {
    pub name: &'a [u8],
    pub value: i128,
}

/// The value of the constant of a name.
pub fn value_of(values: &[Valued], name: &[u8]) -> Option<i128>
    ensures { result ≡ constant_of (map constant_seen values.now) name.now }
{
    for constant in values {
        let other = constant.name;
        if other == name {
            return Some(constant.value);
        }
    }
    None
}
