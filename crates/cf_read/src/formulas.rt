//! The problem of a formula: that it holds.
ghost use Rattle.std.specs.Prelude.{◌≡◌, IfOk, OnOk};
ghost use Rattle.cf_formula.specs.FormulaView.{formula_tree};
ghost use Rattle.cf_read.specs.FormulaProblems.{asked, begun, branched, branches, no_facts, problem_of_formula, reading, said_by, with_branch, with_formula, with_or, with_row};

use crate::conjunctions::{push, push_fact};
use cf_close::{Conjunction, Fact, FactKind, Or, Problem};
use cf_formula::Formula;
use cf_linear::Row;
use cf_tree::{NoMemory, to_u32};
use std::alloc::Global;

// What a conjunction says so far.
#[derive(Drop)]
pub(crate) struct Saying {
    facts: Vec<Fact>,
    ors: Vec<Or>,
}

impl Saying {
    fn nothing(alloc: Global) -> Saying
        ensures { said_by result ≡ no_facts }
    {
        Saying {
            facts: Vec::new(alloc),
            ors: Vec::new(alloc),
        }
    }

    // Says the row too.
    fn push_row(&mut self, alloc: Global, kind: FactKind, row: &Row) -> Result<(), NoMemory>
        ensures { OnOk result (said_by self.new ≡ with_row kind row.now (said_by self.old)) }
    {
        let row = row.try_copy(alloc)?;
        push_fact(&mut self.facts, kind, row)?;
        Ok(())
    }

    // Says too that one of the conjunctions at these places holds.
    fn push_or(&mut self, places: Vec<u32>) -> Result<(), NoMemory>
        ensures { OnOk result (said_by self.new ≡ with_or places.items (said_by self.old)) }
    {
        self.ors.push(Or::new(places))?;
        Ok(())
    }

    fn conjunction(self) -> Conjunction
        ensures { result ≡ said_by self }
    {
        Conjunction::new(self.facts, self.ors)
    }
}

/// The problem that has a solution wherever the formula holds.
///
/// # Errors
/// `NoMemory` where memory ran out.
#[tactic(auto, using(crate::proofs::FormulaCode::problem_made))]
pub(crate) fn problem_of_formula(alloc: Global, formula: &Formula) -> Result<Problem, NoMemory>
    ensures { IfOk result (λ p. p ≡ problem_of_formula (formula_tree formula.now)) }
{
    let mut made = Vec::new(alloc);
    let mut saying = Saying::nothing(alloc);
    say(alloc, formula, &mut made, &mut saying)?;
    asked(made, saying)
}

// The problem whether this is so, where these conjunctions are made.
#[tactic(auto, using(crate::proofs::FormulaCode::problem_asked))]
fn asked(made: Vec<Conjunction>, saying: Saying) -> Result<Problem, NoMemory>
    ensures { IfOk result (λ p. p ≡ asked (reading made.items saying)) }
{
    let mut made = made;
    let root = to_u32(made.len())?;
    push(&mut made, saying.conjunction())?;
    Ok(Problem::new(made, root))
}

// Says the formula too. Its branches are made behind the other conjunctions.
#[cycle(say)]
#[tactic(auto, using(crate::proofs::FormulaCode::never_said, crate::proofs::FormulaCode::at_least_said, crate::proofs::FormulaCode::equal_said, crate::proofs::FormulaCode::both_said, crate::proofs::FormulaCode::either_said))]
fn say(
    alloc: Global,
    formula: &Formula,
    made: &mut Vec<Conjunction>,
    saying: &mut Saying,
) -> Result<(), NoMemory>
    ensures { OnOk result (reading made.new.items saying.new ≡ with_formula (formula_tree formula.now) (reading made.old.items saying.old)) }
{
    match formula {
        Formula::Always => Ok(()),
        Formula::Never => {
            saying.push_or(Vec::new(alloc))?;
            Ok(())
        }
        Formula::AtLeast(row) => {
            saying.push_row(alloc, FactKind::Inequality, row)?;
            Ok(())
        }
        Formula::Equal(row) => {
            saying.push_row(alloc, FactKind::Equation, row)?;
            Ok(())
        }
        Formula::Both(a, b) => {
            say(alloc, a, made, saying)?;
            say(alloc, b, made, saying)?;
            Ok(())
        }
        Formula::Either(a, b) => {
            let mut places = Vec::new(alloc);
            branch(alloc, a, made, &mut places)?;
            branch(alloc, b, made, &mut places)?;
            saying.push_or(places)?;
            Ok(())
        }
    }
}

// Makes branches of the formula: an or is one by one, and what never holds is none.
#[cycle(say)]
#[tactic(auto, using(crate::proofs::FormulaCode::either_branched))]
fn branch(
    alloc: Global,
    formula: &Formula,
    made: &mut Vec<Conjunction>,
    places: &mut Vec<u32>,
) -> Result<(), NoMemory>
    ensures { OnOk result (branches made.new.items places.new.items ≡ with_branch (formula_tree formula.now) (branches made.old.items places.old.items)) }
{
    match formula {
        Formula::Never => Ok(()),
        Formula::Either(a, b) => {
            branch(alloc, a, made, places)?;
            branch(alloc, b, made, places)?;
            Ok(())
        }
        Formula::Always | Formula::AtLeast(_) | Formula::Equal(_) | Formula::Both(_, _) => {
            one_branch(alloc, formula, made, places)
        }
    }
}

// Makes the formula a branch.
#[cycle(say)]
#[tactic(auto, using(crate::proofs::FormulaCode::one_branched))]
fn one_branch(
    alloc: Global,
    formula: &Formula,
    made: &mut Vec<Conjunction>,
    places: &mut Vec<u32>,
) -> Result<(), NoMemory>
    ensures { OnOk result (branches made.new.items places.new.items ≡
        branched places.old.items (with_formula (formula_tree formula.now) (begun made.old.items))) }
{
    let mut saying = Saying::nothing(alloc);
    say(alloc, formula, made, &mut saying)?;
    end_branch(saying, made, places)
}

// Puts the conjunction behind the others, as a branch.
#[tactic(auto, using(crate::proofs::FormulaCode::branch_ended))]
fn end_branch(
    saying: Saying,
    made: &mut Vec<Conjunction>,
    places: &mut Vec<u32>,
) -> Result<(), NoMemory>
    ensures { OnOk result (branches made.new.items places.new.items ≡ branched places.old.items (reading made.old.items saying)) }
{
    let place = to_u32(made.len())?;
    places.push(place)?;
    push(made, saying.conjunction())?;
    Ok(())
}
