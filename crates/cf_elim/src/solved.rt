//! A solved case.
ghost use Rattle.std.specs.Prelude.{◌≡◌};
ghost use Rattle.cf_elim.specs.Cases.{IsSolvedCase};
ghost use Rattle.cf_elim.specs.Acts.{AreStepsOf};
ghost use Rattle.cf_linear.specs.Views.{system_of};

use crate::act::Act;
use cf_linear::{Back, Search, Step, System};
use std::marker::Model;

/// A system with what its elimination makes: the searches with their bounds, the lets and needs in
/// order, and how the unknowns are computed, in the order in which they are; and the steps that made
/// them.
#[derive(Drop)]
pub struct CaseParts {
    pub first: System,
    pub bounds: Vec<Search>,
    pub steps: Vec<Step>,
    pub back: Vec<Back>,
    pub acts: Vec<Act>,
}

/// A system that was eliminated to the end. For all values of its known columns some tuple of search
/// values meets the needs exactly where some unknowns satisfy it, and at each tuple that meets them
/// the way back gives such unknowns. Contracts see the `CaseParts`.
#[derive(Drop)]
pub struct SolvedCase {
    parts: CaseParts,
}

impl Model for SolvedCase {
    ghost use Rattle.cf_elim.specs.declared.solved.CaseParts.{CaseParts};

    ghost Value = { CaseParts };

    ghost use Rattle.cf_elim.specs.Cases.{IsSolvedCase};

    ghost view = { λ s. s.parts };

    ghost invariant = { λ s. IsSolvedCase s.parts };
}

impl SolvedCase {
    // The case with these parts.
    pub(crate) fn new(parts: CaseParts) -> SolvedCase
        requires { IsSolvedCase parts }
        ensures { result ≡ parts }
    {
        SolvedCase { parts }
    }

    /// The system that was eliminated.
    pub fn first(&self) -> &System
        ensures value { result.now ≡ self.now.first }
        ensures solved { IsSolvedCase self.now }
    {
        &self.parts.first
    }

    /// The search columns with their bounds.
    pub fn bounds(&self) -> &[Search]
        ensures value { result.now ≡ self.now.bounds.items }
        ensures solved { IsSolvedCase self.now }
    {
        &self.parts.bounds
    }

    /// The lets and needs, in order.
    pub fn steps(&self) -> &[Step]
        ensures value { result.now ≡ self.now.steps.items }
        ensures solved { IsSolvedCase self.now }
    {
        &self.parts.steps
    }

    /// How the unknowns are computed, in the order in which they are.
    pub fn back(&self) -> &[Back]
        ensures value { result.now ≡ self.now.back.items }
        ensures solved { IsSolvedCase self.now }
    {
        &self.parts.back
    }

    /// The steps of the elimination, in order.
    pub fn acts(&self) -> &[Act]
        ensures value { result.now ≡ self.now.acts.items }
        ensures steps { AreStepsOf (system_of self.now.first) result.now }
        ensures solved { IsSolvedCase self.now }
    {
        &self.parts.acts
    }
}
