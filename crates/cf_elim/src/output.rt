//! What the steps of an elimination make.
ghost use Rattle.std.specs.Prelude.{◌≡◌, ◌++◌, [], reverse, OnOk};

use cf_linear::{Back, Search, Step};
use cf_tree::NoMemory;
use std::alloc::Global;

/// What one step makes: search columns with their bounds, lets and needs in order, and how unknowns
/// are computed, in the order in which they are.
#[derive(Drop)]
pub struct StepOutput {
    pub bounds: Vec<Search>,
    pub steps: Vec<Step>,
    pub back: Vec<Back>,
}

impl StepOutput {
    /// Nothing.
    pub fn none(alloc: Global) -> StepOutput
        ensures bounds { result.bounds.items ≡ [] }
        ensures steps { result.steps.items ≡ [] }
        ensures back { result.back.items ≡ [] }
    {
        StepOutput {
            bounds: Vec::new(alloc),
            steps: Vec::new(alloc),
            back: Vec::new(alloc),
        }
    }
}

/// What all steps so far make. The unknowns stand in the opposite order: the last step's are computed
/// first.
#[derive(Drop)]
pub struct RunOutput {
    pub bounds: Vec<Search>,
    pub steps: Vec<Step>,
    pub later: Vec<Back>,
}

impl RunOutput {
    /// Nothing.
    pub fn none(alloc: Global) -> RunOutput
        ensures bounds { result.bounds.items ≡ [] }
        ensures steps { result.steps.items ≡ [] }
        ensures later { result.later.items ≡ [] }
    {
        RunOutput {
            bounds: Vec::new(alloc),
            steps: Vec::new(alloc),
            later: Vec::new(alloc),
        }
    }

    /// Adds what a step makes.
    ///
    /// # Errors
    /// `NoMemory` where memory ran out.
    pub fn add(&mut self, made: StepOutput) -> Result<(), NoMemory>
        ensures bounds { OnOk result (self.new.bounds.items ≡ self.old.bounds.items ++ made.bounds.items) }
        ensures steps { OnOk result (self.new.steps.items ≡ self.old.steps.items ++ made.steps.items) }
        ensures later { OnOk result (self.new.later.items ≡ self.old.later.items ++ reverse made.back.items) }
    {
        let mut made = made;
        made.back.reverse();
        self.append(&mut made)
    }

    // Adds these lists.
    fn append(&mut self, made: &mut StepOutput) -> Result<(), NoMemory>
        ensures bounds { OnOk result (self.new.bounds.items ≡ self.old.bounds.items ++ made.old.bounds.items) }
        ensures steps { OnOk result (self.new.steps.items ≡ self.old.steps.items ++ made.old.steps.items) }
        ensures later { OnOk result (self.new.later.items ≡ self.old.later.items ++ made.old.back.items) }
    {
        self.bounds.append(&mut made.bounds)?;
        self.steps.append(&mut made.steps)?;
        self.later.append(&mut made.back)?;
        Ok(())
    }
}
