//! Targets and preconditions.
ghost use Rattle.std.specs.Prelude.{◌≡◌};
ghost use Rattle.cf_tree.specs.Typing.{IsWellTyped};

use crate::base::Base;
use crate::code::{Arm, Code};
use std::marker::Model;

/// A target as it was read.
#[derive(Drop)]
pub struct RawTarget {
    pub params: Vec<Base>,
    pub results: Vec<Base>,
    pub code: Code,
}

/// A well-typed target. Contracts see the `RawTarget` that it was made of.
#[derive(Drop)]
pub struct Target {
    raw: RawTarget,
}

impl Model for Target {
    ghost use Rattle.cf_tree.specs.declared.target.RawTarget.{RawTarget};

    ghost Value = { RawTarget };

    ghost use Rattle.cf_tree.specs.contracts.code.Code as coded_code;
    ghost use Rattle.std.specs.Coded.{codes};

    ghost coded = { Prim.hlevel (codes, coded_code.the_row.coded) };

    ghost use Rattle.cf_tree.specs.Typing.{IsWellTyped};

    ghost view = { λ t. t.raw };

    ghost invariant = { λ t. IsWellTyped t.raw };
}

impl Target {
    /// The target with these parameters, results and code.
    pub fn new(raw: RawTarget) -> Target
        requires { IsWellTyped raw }
        ensures { result ≡ raw }
    {
        Target { raw }
    }

    /// Its code.
    pub fn body(&self) -> &Code
        ensures value { result.now ≡ self.now.code }
        ensures typed { IsWellTyped self.now }
    {
        &self.raw.code
    }

    /// The bases of its parameters.
    pub fn params(&self) -> &[Base]
        ensures { result.now ≡ self.now.params.items }
    {
        &self.raw.params
    }

    /// The bases of its results.
    pub fn results(&self) -> &[Base]
        ensures { result.now ≡ self.now.results.items }
    {
        &self.raw.results
    }
}

/// The precondition of a choose: its arms up to their last needs, with nothing given.
#[derive(Drop)]
pub struct Pre {
    pub arms: Vec<Arm>,
}
