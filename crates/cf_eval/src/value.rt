//! Values, and what a target answers on them.
ghost use Rattle.std.specs.Prelude.{◌≡◌, IfOk};

use cf_set::Set;
use cf_tree::NoMemory;
use std::alloc::Global;

/// A number, a truth value or a set.
#[derive(Drop)]
pub enum Value {
    Int(i128),
    Truth(bool),
    Elements(Set),
}

impl Value {
    /// An equal value.
    pub fn try_copy(&self, alloc: Global) -> Result<Value, NoMemory>
        ensures { IfOk result (λ new. new ≡ self.now) }
    {
        match self {
            Value::Int(n) => Ok(Value::Int(*n)),
            Value::Truth(b) => Ok(Value::Truth(*b)),
            Value::Elements(set) => Ok(Value::Elements(set.try_copy(alloc)?)),
        }
    }
}

/// What a target gives on some values.
#[derive(Drop)]
pub enum Outcome {
    /// One value for each of its results.
    Values(Vec<Value>),
    /// The number of the choose that has no solution.
    NoSolution(u32),
    /// A number passes 2^127 - 1 on the way.
    Overflow,
}
