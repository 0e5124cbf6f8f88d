//! What may still be spent.
use cf_linear::RowFault;
use cf_tree::NoMemory;
use std::alloc::{AllocError, AllocFailed};

/// Why nothing was found.
#[derive(Clone, Copy, Debug, PartialEq, Eq)]
pub enum Stop {
    NoMemory,
    /// A number passes 2^127 - 1.
    Past,
    /// No pivot is left.
    Pivots,
    /// No step is left.
    Steps,
}

impl From<NoMemory> for Stop {
    fn from(_fault: NoMemory) -> Stop {
        Stop::NoMemory
    }
}

impl From<AllocError> for Stop {
    fn from(_fault: AllocError) -> Stop {
        Stop::NoMemory
    }
}

impl<T: Drop> From<AllocFailed<T>> for Stop {
    fn from(_fault: AllocFailed<T>) -> Stop {
        Stop::NoMemory
    }
}

impl From<RowFault> for Stop {
    fn from(fault: RowFault) -> Stop {
        match fault {
            RowFault::NoMemory => Stop::NoMemory,
            RowFault::Past => Stop::Past,
        }
    }
}

/// How many pivots and steps are left. A step is an entry of a row that is made or looked at.
#[derive(Clone, Copy, Debug, PartialEq, Eq)]
pub struct Effort {
    pub pivots: u64,
    pub steps: u64,
}

impl Effort {
    /// Counts so many steps.
    ///
    /// # Errors
    /// `Steps` where fewer are left.
    pub fn step(&mut self, count: usize) -> Result<(), Stop> {
        let count = count as u64;
        if count > self.steps {
            self.steps = 0;
            return Err(Stop::Steps);
        }
        self.steps -= count;
        Ok(())
    }

    /// Counts a pivot.
    ///
    /// # Errors
    /// `Pivots` where none is left.
    pub fn pivot(&mut self) -> Result<(), Stop> {
        if self.pivots == 0 {
            return Err(Stop::Pivots);
        }
        self.pivots -= 1;
        Ok(())
    }
}
