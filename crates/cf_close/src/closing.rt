//! A problem is refuted by what a guide chooses.
ghost use Rattle.std.specs.Prelude.{◌≡◌, IfOk};
ghost use Rattle.cf_close.specs.declared.closing.Answer.TheVariants.{Closed};
ghost use Rattle.cf_close.specs.Problems.{HasNone};

use crate::fact::{Conflict, Multiple};
use crate::fault::Fault;
use crate::problem::Problem;
use crate::refutation::Refutation;
use cf_linear::Row;
use std::alloc::Global;

/// What is done to the node that is looked at: a call of `Refutation` with its arguments.
#[derive(Drop)]
pub enum Action {
    Add(Vec<Multiple>),
    Replace(usize, Vec<Multiple>),
    Tighten(usize, i128),
    Equate(usize, usize),
    Define(u32, Row),
    DropOr(usize),
    Refute(Conflict),
    RefuteOr(usize),
    RefuteBranch(usize, usize, Conflict),
    TakeBranch(usize),
    SplitOr(usize, usize),
    SplitRow(Row),
}

/// How a search ended.
#[derive(Clone, Copy, Debug, PartialEq, Eq)]
pub enum Answer {
    /// No integers solve the problem.
    Closed,
    /// A node is open. The guide has nothing more to do, or so many actions were done as may be.
    Open,
}

/// Chooses what is done next. Whatever it chooses, `close` is right; it has but to end.
pub trait Guide {
    /// The next action, or none where the search is to end.
    ///
    /// # Errors
    /// `NoMemory` where memory ran out, `Past` where a number of its own passes the limit.
    fn next(&mut self, alloc: Global, refutation: &Refutation) -> Result<Option<Action>, Fault>;
}

impl Refutation {
    // Does it.
    fn apply(&mut self, alloc: Global, action: &Action) -> Result<(), Fault>
        ensures { self.new ≡ self.old }
    {
        match action {
            Action::Add(multiples) => self.add(alloc, multiples),
            Action::Replace(place, multiples) => self.replace(alloc, *place, multiples),
            Action::Tighten(place, g) => self.tighten(alloc, *place, *g),
            Action::Equate(place, other) => self.equate(alloc, *place, *other),
            Action::Define(column, row) => self.define(alloc, *column, row),
            Action::DropOr(or) => self.drop_or(*or),
            Action::Refute(conflict) => self.refute(alloc, conflict),
            Action::RefuteOr(or) => self.refute_or(*or),
            Action::RefuteBranch(or, branch, conflict) => {
                self.refute_branch(alloc, *or, *branch, conflict)
            }
            Action::TakeBranch(or) => self.take_branch(alloc, *or),
            Action::SplitOr(or, branch) => self.split_or(alloc, *or, *branch),
            Action::SplitRow(row) => self.split_row(alloc, row),
        }
    }
}

/// Does what the guide chooses, at most so many actions, until no node is open.
///
/// # Errors
/// The fault of the guide, or of an action that it chose.
pub fn close<G: Guide>(
    alloc: Global,
    problem: Problem,
    guide: &mut G,
    most: u64,
) -> Result<Answer, Fault>
    ensures { IfOk result (λ a. a ≡ Closed → HasNone problem) }
{
    let mut refutation = Refutation::new(alloc, problem)?;
    for _ in 0..most {
        if refutation.is_closed() {
            return Ok(Answer::Closed);
        }
        match guide.next(alloc, &refutation)? {
            Some(action) => refutation.apply(alloc, &action)?,
            None => return Ok(Answer::Open),
        }
    }
    Ok(ending(&refutation))
}

fn ending(refutation: &Refutation) -> Answer
    ensures { result ≡ Closed → HasNone refutation.now }
{
    if refutation.is_closed() {
        Answer::Closed
    } else {
        Answer::Open
    }
}
