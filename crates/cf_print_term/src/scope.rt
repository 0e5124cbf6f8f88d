//! What is known of variables.
ghost use Rattle.std.specs.Prelude.{◌≡◌, IfOk};

use cf_print::copies;
use cf_range::Range;
use cf_tree::{Base, NoMemory, Text};
use std::alloc::Global;
use std::marker::Model;

/// The names of the variables, their bases and their ranges, by level.
#[derive(Drop)]
pub struct Scope {
    pub names: Vec<Text>,
    pub bases: Vec<Base>,
    pub ranges: Vec<Range>,
}

impl Model for Scope {
    ghost use Rattle.cf_print_term.specs.Expressions.{Sight};

    ghost Value = { Sight };

    ghost view = { λ s. record { names = s.names.items; bases = s.bases.items; ranges = s.ranges.items } };
}

impl Scope {
    /// An equal scope.
    pub fn try_copy(&self, alloc: Global) -> Result<Scope, NoMemory>
        ensures { IfOk result (λ s. s ≡ self.now) }
    {
        let names = copies(alloc, &self.names)?;
        let bases = Vec::from_slice(alloc, &self.bases)?;
        Ok(Scope {
            names,
            bases,
            ranges: Vec::from_slice(alloc, &self.ranges)?,
        })
    }
}
