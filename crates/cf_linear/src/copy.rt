//! Equal copies of systems.
ghost use Rattle.std.specs.Prelude.{◌≡◌, IfOk};
ghost use Rattle.cf_linear.specs.Views.{system_of};

use crate::row::Row;
use crate::system::System;
use cf_tree::NoMemory;
use std::alloc::Global;

impl System {
    /// An equal system.
    pub fn try_copy(&self, alloc: Global) -> Result<System, NoMemory>
        ensures { IfOk result (λ new. system_of new ≡ system_of self.now) }
    {
        Ok(System {
            known: Vec::from_slice(alloc, &self.known)?,
            unknown: Vec::from_slice(alloc, &self.unknown)?,
            next: self.next,
            equations: copy_rows(alloc, &self.equations)?,
            inequalities: copy_rows(alloc, &self.inequalities)?,
            needs: self.needs,
        })
    }
}

fn copy_rows(alloc: Global, rows: &[Row]) -> Result<Vec<Row>, NoMemory>
    ensures { IfOk result (λ new. new.items ≡ rows.now) }
{
    let mut all = Vec::new(alloc);
    for row in rows {
        all.push(row.try_copy(alloc)?)?;
    }
    Ok(all)
}
