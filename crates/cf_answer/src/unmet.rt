//! Which answers of `check` are not yes, and how a strict one ends.
ghost use Rattle.std.specs.Prelude.{◌≡◌, IfOk};
ghost use Rattle.cf_answer.specs.Unmet.{answered, end_of as the_end_of, nothing_answered as the_nothing_answered, nothing_unmet as the_nothing_unmet, one_no as the_one_no};
ghost use Rattle.cf_answer.specs.Unmet.{one_undecided as the_one_undecided, unmet_cover as the_unmet_cover, unmet_existence as the_unmet_existence};
ghost use Rattle.cf_answer.specs.Unmet.{unmet_for as the_unmet_for, unmet_uniqueness as the_unmet_uniqueness, with_answered as the_with_answered};
ghost use Rattle.cf_answer.specs.Unmet.{with_unmet as the_with_unmet};

use crate::fault::Fault;
use cf_tree::{NoMemory, add_u32};
use cf_warn::{Cover, ExistenceAnswer, UniquenessAnswer};
use cf_words::Strictness;

/// Answers that are not yes: how many are no, and how many are undecided.
#[derive(Clone, Copy, Debug, PartialEq, Eq)]
pub struct Unmet {
    pub no: u32,
    pub undecided: u32,
}

/// The same of lines: of those on outputs that exist and numbers that are covered, and of those on
/// outputs that are the only ones.
#[derive(Clone, Copy, Debug, PartialEq, Eq)]
pub struct Answered {
    pub existence: Unmet,
    pub uniqueness: Unmet,
}

// ---- one answer
/// What a yes adds.
pub fn nothing_unmet() -> Unmet
    ensures { result ≡ the_nothing_unmet }
{
    Unmet {
        no: 0,
        undecided: 0,
    }
}

fn one_no() -> Unmet
    ensures { result ≡ the_one_no }
{
    Unmet {
        no: 1,
        undecided: 0,
    }
}

fn one_undecided() -> Unmet
    ensures { result ≡ the_one_undecided }
{
    Unmet {
        no: 0,
        undecided: 1,
    }
}

/// What an answer on outputs that exist adds.
pub fn unmet_existence(answer: &ExistenceAnswer) -> Unmet
    ensures { result ≡ the_unmet_existence answer.now }
{
    match answer {
        ExistenceAnswer::Always => nothing_unmet(),
        ExistenceAnswer::Missing(_) => one_no(),
        ExistenceAnswer::Undecided(_) => one_undecided(),
    }
}

/// What an answer on outputs that are the only ones adds.
pub fn unmet_uniqueness(answer: &UniquenessAnswer) -> Unmet
    ensures { result ≡ the_unmet_uniqueness answer.now }
{
    match answer {
        UniquenessAnswer::Unique => nothing_unmet(),
        UniquenessAnswer::Two { .. } => one_no(),
        UniquenessAnswer::Undecided(_) => one_undecided(),
    }
}

/// What an answer on numbers that are covered adds.
pub fn unmet_cover(answer: &Cover) -> Unmet
    ensures { result ≡ the_unmet_cover answer.now }
{
    match answer {
        Cover::All => nothing_unmet(),
        Cover::Misses(_) => one_no(),
        Cover::Undecided(_) => one_undecided(),
    }
}

/// What a line adds that says of all inputs that there are no outputs.
pub fn none_answered() -> Answered
    ensures { result ≡ answered the_one_no the_nothing_unmet }
{
    Answered {
        existence: one_no(),
        uniqueness: nothing_unmet(),
    }
}

// ---- several
/// Before the first line.
pub fn nothing_answered() -> Answered
    ensures { result ≡ the_nothing_answered }
{
    Answered {
        existence: nothing_unmet(),
        uniqueness: nothing_unmet(),
    }
}

// Both of them; want of memory where a count has more than 32 bits.
fn with_unmet(a: &Unmet, b: &Unmet) -> Result<Unmet, NoMemory>
    ensures { IfOk result (λ u. u ≡ the_with_unmet a.now b.now) }
{
    let no = add_u32(a.no, b.no)?;
    let undecided = add_u32(a.undecided, b.undecided)?;
    Ok(Unmet { no, undecided })
}

/// The lines of both.
///
/// # Errors
/// `NoMemory` where a count has more than 32 bits.
pub fn with_answered(a: &Answered, b: &Answered) -> Result<Answered, NoMemory>
    ensures { IfOk result (λ c. c ≡ the_with_answered a.now b.now) }
{
    let existence = with_unmet(&a.existence, &b.existence)?;
    let uniqueness = with_unmet(&a.uniqueness, &b.uniqueness)?;
    Ok(Answered {
        existence,
        uniqueness,
    })
}

// ---- the end
/// The answers that are not yes among those of which so much is asked.
///
/// # Errors
/// `NoMemory` where a count has more than 32 bits.
pub fn unmet_for(strictness: Strictness, answered: &Answered) -> Result<Unmet, NoMemory>
    ensures { IfOk result (λ u. u ≡ the_unmet_for strictness answered.now) }
{
    match strictness {
        Strictness::Told => Ok(nothing_unmet()),
        Strictness::Existing => Ok(answered.existence),
        Strictness::Unique => with_unmet(&answered.existence, &answered.uniqueness),
    }
}

/// How `check` ends where all is written.
///
/// # Errors
/// `AnswersNo` where some answer is no, and else `AnswersUndecided` where some is undecided, with their
/// number.
pub fn end_of(unmet: &Unmet) -> Result<(), Fault>
    ensures { result ≡ the_end_of unmet.now }
{
    if unmet.no > 0 {
        Err(Fault::AnswersNo(unmet.no))
    } else if unmet.undecided > 0 {
        Err(Fault::AnswersUndecided(unmet.undecided))
    } else {
        Ok(())
    }
}
