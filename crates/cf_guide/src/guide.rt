//! The guide, with what it keeps of each open node.
ghost use Rattle.std.specs.Prelude.{◌≡◌, IfOk};
ghost use Rattle.cf_close.specs.Problems.{HasNone};
ghost use Rattle.cf_guide.specs.declared.guide.Outcome.TheVariants.{Closed};

use crate::bounds::Bounds;
use crate::branches::{Known, judge};
use crate::cuts::cut;
use crate::equations::{clean, solve};
use crate::frame::{Frame, Start, live_count};
use crate::limits::{Limit, Limits, MOST_DEPTH, MOST_FACTS};
use crate::normal::{divide, settle_pairs};
use crate::plan::{Plan, Work};
use crate::point::Point;
use crate::quotients::equate_quotients;
use crate::splits::{Split, choose};
use cf_close::{Action, Answer, Fact, Fault, Guide, Multiple, Problem, Refutation, close};
use cf_simplex::{Effort, Found, Part, Simplex, Stop};
use cf_tree::NoMemory;
use std::alloc::Global;

/// What a search found.
#[derive(Drop)]
pub enum Outcome {
    /// No integers solve the problem.
    Closed,
    /// Nothing is known.
    Open(Ending),
}

/// How a search ended that refuted nothing.
#[derive(Drop)]
pub enum Ending {
    /// These values of columns, by column, seem to solve the problem.
    Model(Vec<i128>),
    GaveUp(Limit),
}

/// What comes next in a search.
#[derive(Clone, Copy)]
enum Next {
    /// What was planned.
    Planned,
    /// Nothing: it ends.
    Nothing,
}

/// A guide and what it has left to spend. Nothing of what it chooses is relied on.
#[derive(Drop)]
pub struct Finder {
    limits: Limits,
    splits: u64,
    /// Its plan is turned.
    work: Work,
    /// Of the open nodes, the one that is looked at last.
    frames: Vec<Frame>,
    ending: Ending,
}

impl Finder {
    /// A guide to a problem of the columns below `fresh`.
    pub fn new(alloc: Global, limits: Limits, fresh: u32) -> Finder {
        Finder {
            limits,
            splits: limits.splits,
            work: Work {
                plan: Plan::new(alloc),
                effort: Effort {
                    pivots: limits.pivots,
                    steps: limits.steps,
                },
                fresh,
            },
            frames: Vec::new(alloc),
            ending: Ending::GaveUp(Limit::Steps(limits.steps)),
        }
    }

    /// Looks for a refutation of the problem: Closed only where it has no solution.
    ///
    /// # Errors
    /// `NoMemory` where memory ran out.
    pub fn find(self, alloc: Global, problem: Problem) -> Result<Outcome, NoMemory>
        ensures { IfOk result (λ o. o ≡ Closed → HasNone problem) }
    {
        let mut guide = self;
        let answer = guide.answer(alloc, problem);
        guide.outcome(answer)
    }

    // Has the problem closed, if it can.
    fn answer(&mut self, alloc: Global, problem: Problem) -> Result<Answer, Fault>
        ensures { IfOk result (λ a. a ≡ Answer.Closed → HasNone problem) }
    {
        match self.frames.push(Frame::root(alloc)) {
            Ok(()) => {
                let most = self.limits.steps;
                close(alloc, problem, self, most)
            }
            Err(fault) => {
                drop(problem);
                Err(Fault::from(fault))
            }
        }
    }

    // What the answer of a search comes to.
    fn outcome(self, answer: Result<Answer, Fault>) -> Result<Outcome, NoMemory>
        ensures { IfOk result (λ o. o ≡ Closed → answer ≡ Ok Answer.Closed) }
    {
        match answer {
            Ok(Answer::Closed) => Ok(Outcome::Closed),
            Ok(Answer::Open) => Ok(Outcome::Open(self.ending)),
            Err(Fault::NoMemory) => Err(NoMemory),
            Err(Fault::Past) => Ok(Outcome::Open(Ending::GaveUp(Limit::Past))),
            Err(Fault::Unfit) => Ok(Outcome::Open(Ending::GaveUp(Limit::Unfit))),
        }
    }

    fn limit_of(&self, stop: Stop) -> Limit {
        match stop {
            Stop::Pivots => Limit::Pivots(self.limits.pivots),
            Stop::Steps => Limit::Steps(self.limits.steps),
            Stop::Past | Stop::NoMemory => Limit::Past,
        }
    }

    // Forgets the nodes that were left.
    fn keep_open(&mut self, waiting: usize) {
        let count = waiting.saturating_add(1);
        if self.frames.len() > count {
            self.frames.truncate(count);
            self.work.plan.clear();
        }
    }

    // Plans what is to be done at the node, if anything is.
    fn plan(&mut self, alloc: Global, refutation: &Refutation) -> Result<Next, Stop> {
        let Some(frame) = self.frames.last_mut() else {
            return Ok(Next::Nothing);
        };
        match plan_at(alloc, frame, &mut self.work, refutation)? {
            Some(split) => self.split(alloc, split),
            None => {
                self.work.plan.turn();
                Ok(Next::Planned)
            }
        }
    }

    // Plans the split, or ends the search.
    fn split(&mut self, alloc: Global, split: Split) -> Result<Next, Stop> {
        match split {
            Split::Or(or, branch) => self.open(alloc, Action::SplitOr(or, branch), Start::Cold),
            Split::Warm(row) => self.open(alloc, Action::SplitRow(row), Start::Warm),
            Split::Cold(row) => self.open(alloc, Action::SplitRow(row), Start::Cold),
            Split::Model(values) => self.end(Ending::Model(values)),
            Split::Stop(limit) => self.end(Ending::GaveUp(limit)),
        }
    }

    // Plans the split, and keeps a frame for each of the two nodes.
    fn open(&mut self, alloc: Global, action: Action, start: Start) -> Result<Next, Stop> {
        self.work.plan.push(action)?;
        if self.splits == 0 {
            return self.end(Ending::GaveUp(Limit::Splits(self.limits.splits)));
        }
        self.splits -= 1;
        let Some(frame) = self.frames.last_mut() else {
            return Ok(Next::Nothing);
        };
        frame.descend(start);
        if frame.depth > MOST_DEPTH {
            return self.end(Ending::GaveUp(Limit::Depth(MOST_DEPTH)));
        }
        let other = frame.try_copy(alloc)?;
        self.frames.push(other)?;
        Ok(Next::Planned)
    }

    // The first action of a new plan, if there is something to be done.
    fn first_planned(
        &mut self,
        alloc: Global,
        refutation: &Refutation,
    ) -> Result<Option<Action>, Fault> {
        match self.plan(alloc, refutation) {
            Ok(Next::Planned) => Ok(self.work.plan.take_last()),
            Ok(Next::Nothing) => Ok(None),
            Err(Stop::NoMemory) => Err(Fault::NoMemory),
            Err(stop) => {
                self.ending = Ending::GaveUp(self.limit_of(stop));
                Ok(None)
            }
        }
    }

    fn end(&mut self, ending: Ending) -> Result<Next, Stop> {
        self.ending = ending;
        Ok(Next::Nothing)
    }
}

impl Guide for Finder {
    fn next(&mut self, alloc: Global, refutation: &Refutation) -> Result<Option<Action>, Fault> {
        self.keep_open(refutation.waiting());
        match self.work.plan.take_last() {
            Some(action) => Ok(Some(action)),
            None => self.first_planned(alloc, refutation),
        }
    }
}

// Plans what makes the node simpler or refutes it, or tells what is to be split.
fn plan_at(
    alloc: Global,
    frame: &mut Frame,
    work: &mut Work,
    refutation: &Refutation,
) -> Result<Option<Split>, Stop> {
    if frame.simplex.is_none() {
        simpler(alloc, frame, work, refutation)?;
        if !work.plan.is_empty() {
            return Ok(None);
        }
        let count = live_count(frame, refutation.facts());
        if count > MOST_FACTS {
            return Ok(Some(Split::Stop(Limit::Facts(MOST_FACTS))));
        }
        frame.simplex = Some(Simplex::new(alloc, count));
        frame.added = 0;
    }
    at_point(alloc, frame, work, refutation)
}

// The first of the ways to make a node simpler that has something to do.
fn simpler(
    alloc: Global,
    frame: &mut Frame,
    work: &mut Work,
    refutation: &Refutation,
) -> Result<(), Stop> {
    let facts = refutation.facts();
    clean(alloc, frame, facts, &mut work.plan)?;
    if work.plan.is_empty() {
        divide(alloc, frame, facts, &mut work.plan)?;
    }
    if work.plan.is_empty() {
        solve(alloc, frame, facts, work)?;
    }
    if work.plan.is_empty() {
        settle_pairs(alloc, frame, facts, &mut work.plan)?;
    }
    if work.plan.is_empty() && frame.depth == 0 && frame.fractions == 0 {
        equate_quotients(alloc, frame, facts, work)?;
    }
    if work.plan.is_empty() {
        by_bounds(alloc, frame, work, refutation)?;
    }
    Ok(())
}

// Cuts, if they are to be made, and what the bounds say of ors.
fn by_bounds(
    alloc: Global,
    frame: &mut Frame,
    work: &mut Work,
    refutation: &Refutation,
) -> Result<(), Stop> {
    let cuts = frame.takes_cuts();
    let facts = refutation.facts();
    let bounds = Bounds::of(alloc, facts, work.fresh)?;
    let known = Known::of(frame, facts, &bounds);
    if cuts {
        cut(alloc, &known, work)?;
    }
    if !work.plan.is_empty() {
        return Ok(());
    }
    let conjunctions = refutation.problem().conjunctions();
    judge(alloc, &known, conjunctions, refutation.ors(), work)
}

// Looks for a point of the rows.
fn at_point(
    alloc: Global,
    frame: &mut Frame,
    work: &mut Work,
    refutation: &Refutation,
) -> Result<Option<Split>, Stop> {
    match frame.simplex.take() {
        Some(simplex) => {
            let mut simplex = simplex;
            let split = split_by(alloc, frame, &mut simplex, work, refutation);
            frame.simplex = Some(simplex);
            split
        }
        None => Ok(None),
    }
}

// Refutes the node by rows that are in conflict, or tells what is to be split at a point of all rows.
fn split_by(
    alloc: Global,
    frame: &mut Frame,
    simplex: &mut Simplex,
    work: &mut Work,
    refutation: &Refutation,
) -> Result<Option<Split>, Stop> {
    let facts = refutation.facts();
    add_facts(alloc, frame, facts, simplex, &mut work.effort)?;
    frame.added = facts.len();
    match simplex.search(alloc, &mut work.effort)? {
        Found::Conflict(parts) => {
            work.plan.refute(alloc, multiples_of(alloc, parts)?)?;
            Ok(None)
        }
        Found::Point => {
            let split = split_at(alloc, frame, simplex, work.fresh, refutation)?;
            Ok(Some(split))
        }
    }
}

// What is to be split at the point of the simplex.
fn split_at(
    alloc: Global,
    frame: &Frame,
    simplex: &Simplex,
    columns: u32,
    refutation: &Refutation,
) -> Result<Split, Stop> {
    let point = Point::of(alloc, frame, refutation.facts(), simplex, columns)?;
    let marks = marks_at(alloc, &point, refutation)?;
    choose(alloc, frame, simplex, &point, &marks, refutation.ors())
}

// Which conjunctions hold at the point, if the node has ors.
fn marks_at(alloc: Global, point: &Point, refutation: &Refutation) -> Result<Vec<bool>, Stop> {
    if refutation.ors().len() == 0 {
        return Ok(Vec::new(alloc));
    }
    point.marks(alloc, refutation.problem().conjunctions())
}

// Adds the facts that are not in the simplex yet.
fn add_facts(
    alloc: Global,
    frame: &Frame,
    facts: &[Fact],
    simplex: &mut Simplex,
    effort: &mut Effort,
) -> Result<(), Stop> {
    for place in frame.added..facts.len() {
        if let Some(fact) = facts.get(place) {
            if frame.is_live(fact, place) {
                simplex.add(alloc, &fact.row, place, effort)?;
            }
        }
    }
    Ok(())
}

fn multiples_of(alloc: Global, parts: Vec<Part>) -> Result<Vec<Multiple>, Stop> {
    let mut multiples = Vec::new(alloc);
    for part in &parts {
        multiples.push(Multiple {
            fact: part.tag,
            factor: part.factor,
        })?;
    }
    Ok(multiples)
}
