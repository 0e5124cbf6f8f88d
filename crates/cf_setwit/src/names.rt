//! Names of columns.
ghost use Rattle.std.specs.Prelude.{◌≡◌, [], OnErr, OnOk};
ghost use Rattle.cf_linear.specs.Arm.{level_of};
ghost use Rattle.cf_setwit.specs.Naming.{IsNamed};

use cf_tree::NoMemory;
use indexmap::IndexMap;
use std::alloc::Global;
use std::marker::Model;

/// The levels of the columns that are named so far. Contracts see the list of columns with their
/// levels.
#[derive(Drop)]
pub struct ColumnLevels {
    levels: IndexMap<u32, u32>,
}

impl Model for ColumnLevels {
    ghost use Rattle.std.specs.Prelude.{ℕ, List};

    ghost Value = { List (ℕ × ℕ) };

    ghost view = { λ n. n.levels.entries };
}

impl ColumnLevels {
    /// No names.
    pub fn new(alloc: Global) -> ColumnLevels
        ensures { result ≡ [] }
    {
        ColumnLevels {
            levels: IndexMap::new(alloc),
        }
    }

    /// The level of the column, 0 where it has none.
    pub fn level_of(&self, column: u32) -> u32
        ensures { result ≡ level_of self.now column }
    {
        match self.levels.get(&column) {
            Some(level) => *level,
            None => 0,
        }
    }

    /// The column has the level, and other columns keep theirs.
    ///
    /// # Errors
    /// `NoMemory` where memory ran out; then the names are as before.
    pub fn name(&mut self, column: u32, level: u32) -> Result<(), NoMemory>
        ensures named { OnOk result (IsNamed self.old column level self.new) }
        ensures refused { OnErr result (self.new ≡ self.old) }
    {
        self.levels.insert(column, level)?;
        Ok(())
    }
}
