//! A refutation: a problem, and nodes that are still open.
ghost use Rattle.std.specs.Prelude.{◌≡◌, true, ◌++◌, ◌∷◌, [], is_ok, if◌then◌else◌, IfOk};
ghost use Rattle.cf_close.specs.Problems.{HasNone};
ghost use Rattle.cf_close.specs.Nodes.{HasLeft};

use crate::define::{all_lack, definition, facts_lack};
use crate::fact::{
    Conflict, Fact, Multiple, Tightened, check_conflict, equation_at, sum_of, tighten_at,
};
use crate::fault::Fault;
use crate::node::{
    Split, has_no_branch, root_of, split_or, split_row, with_only_branch, without_branch,
};
use crate::problem::{Conjunction, Or, Problem};
use cf_linear::Row;
use std::alloc::Global;
use std::marker::Model;

/// A refutation that is under way. Contracts see the problem alone, which nothing changes: whatever is done by
/// these calls, in whatever order, `is_closed` says that the problem has no solution.
///
/// A solution of the problem holds at an open node. Open are the node that is looked at, whose facts and
/// ors are told, and a stack of others. An operation that does not apply changes nothing.
#[derive(Drop)]
pub struct Refutation {
    problem: Problem,
    closed: bool,
    top: Conjunction,
    rest: Vec<Conjunction>,
}

impl Model for Refutation {
    ghost use Rattle.cf_close.specs.Problems.{Problem as PlainProblem};
    ghost use Rattle.cf_close.specs.Nodes.{IsComplete};

    ghost Value = { PlainProblem };

    ghost view = { λ r. r.problem };

    ghost invariant = { λ r. IsComplete r.problem r.closed r.top r.rest.items };
}

impl Refutation {
    /// The refutation of a problem whose only node is the root.
    ///
    /// # Errors
    /// `Unfit` where there is no root, `NoMemory` where memory ran out.
    pub fn new(alloc: Global, problem: Problem) -> Result<Refutation, Fault>
        ensures { IfOk result (λ r. r ≡ problem) }
    {
        match root_of(alloc, &problem) {
            Ok(top) => Ok(Refutation {
                problem,
                closed: false,
                top,
                rest: Vec::new(alloc),
            }),
            Err(fault) => Err(fault),
        }
    }

    /// Whether no node is open.
    pub fn is_closed(&self) -> bool
        ensures { result ≡ true → HasNone self.now }
    {
        self.closed
    }

    /// The problem.
    pub fn problem(&self) -> &Problem
        ensures { result.now ≡ self.now }
    {
        &self.problem
    }

    /// The facts of the node that is looked at.
    pub fn facts(&self) -> &[Fact] {
        self.top.facts()
    }

    /// Its ors.
    pub fn ors(&self) -> &[Or] {
        self.top.ors()
    }

    /// How many nodes are open besides.
    pub fn waiting(&self) -> usize {
        self.rest.len()
    }

    /// Adds the sum of facts with their factors. Unfit where an inequality has a factor below 0.
    pub fn add(&mut self, alloc: Global, multiples: &[Multiple]) -> Result<(), Fault>
        ensures { self.new ≡ self.old }
    {
        let fact = sum_of(alloc, self.top.facts(), multiples)?;
        self.top.push_fact(fact)
    }

    /// Puts the sum of facts with their factors in the place of a fact: the empty sum drops it.
    pub fn replace(
        &mut self,
        alloc: Global,
        place: usize,
        multiples: &[Multiple],
    ) -> Result<(), Fault>
        ensures { self.new ≡ self.old }
    {
        let fact = sum_of(alloc, self.top.facts(), multiples)?;
        self.top.set_fact(place, fact)
    }

    /// Divides a fact by `g`, an inequality rounded; or leaves the node, where an equation has no solution for
    /// that reason. Unfit unless `g` is above 0 and divides each entry but the constant.
    pub fn tighten(&mut self, alloc: Global, place: usize, g: i128) -> Result<(), Fault>
        ensures { self.new ≡ self.old }
    {
        match tighten_at(alloc, self.top.facts(), place, g) {
            Ok(Tightened::Tighter(fact)) => self.top.set_fact(place, fact),
            Ok(Tightened::Closed) => {
                leave(&mut self.closed, &mut self.top, &mut self.rest);
                Ok(())
            }
            Err(fault) => Err(fault),
        }
    }

    /// Makes an equation of an inequality of which another one is the opposite.
    pub fn equate(&mut self, alloc: Global, place: usize, other: usize) -> Result<(), Fault>
        ensures { self.new ≡ self.old }
    {
        let fact = equation_at(alloc, self.top.facts(), place, other)?;
        self.top.set_fact(place, fact)
    }

    /// Adds that the column has the value of the row. Unfit where the column is 0, or stands in the row, in a
    /// fact of the node or in one of the problem.
    pub fn define(&mut self, alloc: Global, column: u32, row: &Row) -> Result<(), Fault>
        ensures { self.new ≡ self.old }
    {
        if !all_lack(self.problem.conjunctions(), column) || !facts_lack(self.top.facts(), column) {
            return Err(Fault::Unfit);
        }
        let fact = definition(alloc, row, column)?;
        self.top.push_fact(fact)
    }

    /// Drops an or.
    pub fn drop_or(&mut self, or: usize) -> Result<(), Fault>
        ensures { self.new ≡ self.old }
    {
        self.top.remove_or(or)
    }

    /// Leaves the node, if its facts are in conflict.
    pub fn refute(&mut self, alloc: Global, conflict: &Conflict) -> Result<(), Fault>
        ensures { self.new ≡ self.old }
    {
        check_conflict(alloc, self.top.facts(), &[], conflict)?;
        leave(&mut self.closed, &mut self.top, &mut self.rest);
        Ok(())
    }

    /// Leaves the node, if the or has no branches.
    pub fn refute_or(&mut self, or: usize) -> Result<(), Fault>
        ensures { self.new ≡ self.old }
    {
        if !has_no_branch(&self.top, or) {
            return Err(Fault::Unfit);
        }
        leave(&mut self.closed, &mut self.top, &mut self.rest);
        Ok(())
    }

    /// Leaves a branch out of an or, if its facts are in conflict with those of the node.
    pub fn refute_branch(
        &mut self,
        alloc: Global,
        or: usize,
        branch: usize,
        conflict: &Conflict,
    ) -> Result<(), Fault>
        ensures { self.new ≡ self.old }
    {
        let top = without_branch(alloc, &self.problem, &self.top, or, branch, conflict)?;
        self.top = top;
        Ok(())
    }

    /// Puts the facts and ors of its branch in the place of an or that has one branch alone.
    pub fn take_branch(&mut self, alloc: Global, or: usize) -> Result<(), Fault>
        ensures { self.new ≡ self.old }
    {
        let top = with_only_branch(alloc, &self.problem, &self.top, or)?;
        self.top = top;
        Ok(())
    }

    /// Splits on a branch of an or: the node in which it holds is looked at, and the one in which another
    /// branch does waits. There `-x - 1 >= 0` is added, where the branch is `x >= 0` alone.
    pub fn split_or(&mut self, alloc: Global, or: usize, branch: usize) -> Result<(), Fault>
        ensures { self.new ≡ self.old }
    {
        let Split { first, second } = split_or(alloc, &self.problem, &self.top, or, branch)?;
        push_node(&mut self.rest, second)?;
        self.top = first;
        Ok(())
    }

    /// Splits on a row: the node with `row >= 0` is looked at, and the one with `-row - 1 >= 0` waits.
    pub fn split_row(&mut self, alloc: Global, row: &Row) -> Result<(), Fault>
        ensures { self.new ≡ self.old }
    {
        let Split { first, second } = split_row(alloc, &self.top, row)?;
        push_node(&mut self.rest, second)?;
        self.top = first;
        Ok(())
    }
}

// Leaves the node for the next on the stack.
fn leave(closed: &mut bool, top: &mut Conjunction, rest: &mut Vec<Conjunction>)
    ensures { HasLeft rest.old.items closed.new top.new rest.new.items }
{
    match rest.pop() {
        Some(next) => {
            *top = next;
            *closed = false;
        }
        None => *closed = true,
    }
}

// Puts the node on the stack. Without memory nothing changes.
fn push_node(rest: &mut Vec<Conjunction>, node: Conjunction) -> Result<(), Fault>
    ensures { rest.new.items ≡ (if is_ok result then rest.old.items ++ node ∷ [] else rest.old.items) }
{
    match rest.push(node) {
        Ok(()) => Ok(()),
        Err(_) => Err(Fault::NoMemory),
    }
}
