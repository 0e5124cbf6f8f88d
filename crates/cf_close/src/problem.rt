//! What is to be refuted: facts, and ors of conjunctions that hold facts and ors themselves.
ghost use Rattle.std.specs.Prelude.{◌≡◌, ◌∷◌, [], is_ok, if◌then◌else◌, IfOk, IfSome};
ghost use Rattle.cf_close.specs.Nodes.{removed, with_fact, with_fact_at, with_or_at, without_or, at_least_0, IsMade};

use crate::fact::{Fact, FactKind};
use crate::fault::Fault;
use cf_linear::Row;
use cf_tree::NoMemory;
use std::alloc::Global;
use std::marker::Model;

/// Places of conjunctions, the branches, of which one is to hold. Contracts see the list of places.
#[derive(Drop)]
pub struct Or {
    branches: Vec<u32>,
}

impl Model for Or {
    ghost use Rattle.std.specs.Prelude.{ℕ, List};

    ghost Value = { List ℕ };

    ghost view = { λ o. o.branches.items };
}

impl Or {
    /// One of these.
    pub fn new(branches: Vec<u32>) -> Or
        ensures { result ≡ branches.items }
    {
        Or { branches }
    }

    /// The places.
    pub fn branches(&self) -> &[u32]
        ensures { result.now ≡ self.now }
    {
        &self.branches
    }

    /// An equal or.
    ///
    /// # Errors
    /// `NoMemory` where memory ran out.
    pub fn try_copy(&self, alloc: Global) -> Result<Or, NoMemory>
        ensures { IfOk result (λ o. o ≡ self.now) }
    {
        match Vec::from_slice(alloc, &self.branches) {
            Ok(branches) => Ok(Or { branches }),
            Err(_) => Err(NoMemory),
        }
    }

    // Leaves out the branch at the place. Unfit where there is none.
    pub(crate) fn remove(&mut self, branch: usize) -> Result<(), Fault>
        ensures { self.new ≡ (if is_ok result then removed branch self.old else self.old) }
    {
        if branch >= self.branches.len() {
            return Err(Fault::Unfit);
        }
        self.branches.remove(branch);
        Ok(())
    }
}

/// Facts and ors that are all to hold. Contracts see the lists of both.
#[derive(Drop)]
pub struct Conjunction {
    facts: Vec<Fact>,
    ors: Vec<Or>,
}

impl Model for Conjunction {
    ghost use Rattle.cf_close.specs.Problems.{Conjunction as PlainConjunction};

    ghost Value = { PlainConjunction };

    ghost view = { λ c. record { facts = c.facts.items; ors = c.ors.items } };
}

impl Conjunction {
    /// All of these.
    pub fn new(facts: Vec<Fact>, ors: Vec<Or>) -> Conjunction
        ensures { result ≡ record { facts = facts.items; ors = ors.items } }
    {
        Conjunction { facts, ors }
    }

    pub fn facts(&self) -> &[Fact]
        ensures { result.now ≡ self.now.facts }
    {
        &self.facts
    }

    pub fn ors(&self) -> &[Or]
        ensures { result.now ≡ self.now.ors }
    {
        &self.ors
    }

    // Adds the fact to the end. Without memory nothing changes.
    pub(crate) fn push_fact(&mut self, fact: Fact) -> Result<(), Fault>
        ensures { self.new ≡ (if is_ok result then with_fact fact self.old else self.old) }
    {
        match self.facts.push(fact) {
            Ok(()) => Ok(()),
            Err(_) => Err(Fault::NoMemory),
        }
    }

    // Puts the fact at a place. Unfit where there is none.
    pub(crate) fn set_fact(&mut self, place: usize, fact: Fact) -> Result<(), Fault>
        ensures { self.new ≡ (if is_ok result then with_fact_at place fact self.old else self.old) }
    {
        if place >= self.facts.len() {
            return Err(Fault::Unfit);
        }
        self.facts[place] = fact;
        Ok(())
    }

    // Puts the or at a place. Unfit where there is none.
    pub(crate) fn set_or(&mut self, place: usize, or: Or) -> Result<(), Fault>
        ensures { self.new ≡ (if is_ok result then with_or_at place or self.old else self.old) }
    {
        if place >= self.ors.len() {
            return Err(Fault::Unfit);
        }
        self.ors[place] = or;
        Ok(())
    }

    // Drops the or at a place. Unfit where there is none.
    pub(crate) fn remove_or(&mut self, or: usize) -> Result<(), Fault>
        ensures { self.new ≡ (if is_ok result then without_or or self.old else self.old) }
    {
        if or >= self.ors.len() {
            return Err(Fault::Unfit);
        }
        self.ors.remove(or);
        Ok(())
    }

    // The row of its one inequality, where it holds nothing else.
    pub(crate) fn only(&self) -> Option<&Row>
        ensures { IfSome result (λ r. IsMade (at_least_0 r.now ∷ []) [] self.now) }
    {
        if self.facts.len() != 1 || self.ors.len() != 0 {
            return None;
        }
        match only_row(&self.facts[0]) {
            Some(row) => Some(row),
            None => None,
        }
    }
}

fn only_row(fact: &Fact) -> Option<&Row>
    ensures { IfSome result (λ r. fact.now ≡ at_least_0 r.now) }
{
    match fact.kind {
        FactKind::Inequality => Some(&fact.row),
        FactKind::Equation => None,
    }
}

/// Conjunctions by place, and the place of the one that is asked after. Contracts see both.
#[derive(Drop)]
pub struct Problem {
    conjunctions: Vec<Conjunction>,
    root: u32,
}

impl Model for Problem {
    ghost use Rattle.cf_close.specs.Problems.{Problem as PlainProblem};

    ghost Value = { PlainProblem };

    ghost view = { λ p. record { conjunctions = p.conjunctions.items; root = p.root } };
}

impl Problem {
    /// The problem of the conjunction at the place `root`.
    pub fn new(conjunctions: Vec<Conjunction>, root: u32) -> Problem
        ensures { result ≡ record { conjunctions = conjunctions.items; root = root } }
    {
        Problem { conjunctions, root }
    }

    pub fn conjunctions(&self) -> &[Conjunction]
        ensures { result.now ≡ self.now.conjunctions }
    {
        &self.conjunctions
    }

    pub fn root(&self) -> u32
        ensures { result ≡ self.now.root }
    {
        self.root
    }
}
