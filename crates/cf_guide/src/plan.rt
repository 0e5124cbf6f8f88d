//! What is to be done to a node next, and what may still be spent on it.
use cf_close::{Action, Conflict, Multiple};
use cf_simplex::{Effort, Stop};
use std::alloc::Global;

/// Actions in the order in which they are to be done.
#[derive(Drop)]
pub(crate) struct Plan {
    actions: Vec<Action>,
}

impl Plan {
    pub(crate) fn new(alloc: Global) -> Plan {
        Plan {
            actions: Vec::new(alloc),
        }
    }

    /// Adds an action to the end.
    pub(crate) fn push(&mut self, action: Action) -> Result<(), Stop> {
        self.actions.push(action)?;
        Ok(())
    }

    /// Puts an action in the place of all.
    pub(crate) fn only(&mut self, action: Action) -> Result<(), Stop> {
        self.actions.clear();
        self.push(action)
    }

    /// Leaves the node: its facts have a sum that is false.
    pub(crate) fn refute(&mut self, alloc: Global, node: Vec<Multiple>) -> Result<(), Stop> {
        self.only(Action::Refute(Conflict {
            node,
            branch: Vec::new(alloc),
            divisor: 1,
        }))
    }

    pub(crate) fn len(&self) -> usize {
        self.actions.len()
    }

    pub(crate) fn is_empty(&self) -> bool {
        self.actions.len() == 0
    }

    pub(crate) fn clear(&mut self) {
        self.actions.clear();
    }

    /// Has the last action first.
    pub(crate) fn turn(&mut self) {
        self.actions.reverse();
    }

    /// Takes the last action out.
    pub(crate) fn take_last(&mut self) -> Option<Action> {
        self.actions.pop()
    }
}

/// What the parts of a guide share.
#[derive(Drop)]
pub(crate) struct Work {
    pub plan: Plan,
    pub effort: Effort,
    /// The first column that stands nowhere.
    pub fresh: u32,
}

/// The fault, when the value has been dropped.
pub(crate) fn without<T: Drop>(_value: T, stop: Stop) -> Stop {
    stop
}
