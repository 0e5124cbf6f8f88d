//! Reads the steps of a case.
ghost use Rattle.std.specs.Prelude.{◌≡◌, codes};
ghost use Rattle.cf_reader.specs.Answers.{ReadAnswer};
ghost use Rattle.cf_steps.specs.Reading.{mix_of, search_of, act_of, ended_act, all_acts, case_of};

use crate::number::{expect_column, expect_factor, expect_side};
use cf_elim::Act;
use cf_lex::Token;
use cf_reader::{ReadStop, after_sign, after_word, expect_sign};
use std::alloc::Global;

// Behind the word `mix`.
#[tactic(auto, unfolding(cf_reader::specs::Readers::bind, cf_reader::specs::Readers::pure, crate::specs::Reading::mix_of))]
fn mix(tokens: &[Token]) -> Result<(Act, &[Token]), ReadStop>
    ensures { ReadAnswer (λ x. (x.0, x.1.now)) result (mix_of tokens.now) }
{
    let (x, rest) = expect_column(tokens)?;
    let (y, rest) = expect_column(rest)?;
    let (a, rest) = expect_factor(rest)?;
    let (b, rest) = expect_factor(rest)?;
    let (c, rest) = expect_factor(rest)?;
    let (d, rest) = expect_factor(rest)?;
    Ok((Act::Mix { x, y, a, b, c, d }, rest))
}

// Behind the word `search`.
#[tactic(auto, unfolding(cf_reader::specs::Readers::bind, cf_reader::specs::Readers::pure, crate::specs::Reading::search_of))]
fn search(tokens: &[Token]) -> Result<(Act, &[Token]), ReadStop>
    ensures { ReadAnswer (λ x. (x.0, x.1.now)) result (search_of tokens.now) }
{
    let (column, rest) = expect_column(tokens)?;
    let (lower, rest) = expect_side(rest)?;
    Ok((Act::Search { column, lower }, rest))
}

// The step with which the tokens begin.
#[tactic(auto, unfolding(cf_reader::specs::Readers::first, cf_reader::specs::Readers::refuse, cf_reader::specs::Readers::bind, cf_reader::specs::Readers::pure, crate::specs::Reading::act_of))]
fn act(tokens: &[Token]) -> Result<(Act, &[Token]), ReadStop>
    ensures { ReadAnswer (λ x. (x.0, x.1.now)) result (act_of tokens.now) }
{
    if let Some((_, rest)) = after_word("clean", tokens) {
        return Ok((Act::Clean, rest));
    }
    if let Some((_, rest)) = after_word("mix", tokens) {
        return mix(rest);
    }
    if let Some((_, rest)) = after_word("last", tokens) {
        let (equation, rest) = expect_column(rest)?;
        return Ok((Act::Last(equation), rest));
    }
    if let Some((_, rest)) = after_word("search", tokens) {
        return search(rest);
    }
    if let Some((_, rest)) = after_word("drop", tokens) {
        let (column, rest) = expect_column(rest)?;
        return Ok((Act::Drop(column), rest));
    }
    Err(ReadStop::TokensLeft(tokens.len()))
}

// The step with which the tokens begin, behind which a semicolon stands.
#[tactic(auto, unfolding(cf_reader::specs::Readers::bind, cf_reader::specs::Readers::pure, crate::specs::Reading::ended_act))]
fn act_with_end(tokens: &[Token]) -> Result<(Act, &[Token]), ReadStop>
    ensures { ReadAnswer (λ x. (x.0, x.1.now)) result (ended_act tokens.now) }
{
    let (act, rest) = act(tokens)?;
    let (_, rest) = expect_sign(";", rest)?;
    Ok((act, rest))
}

// The steps up to the closing brace.
#[tactic(auto, unfolding(crate::specs::Reading::all_acts))]
fn acts(alloc: Global, tokens: &[Token]) -> Result<(Vec<Act>, &[Token]), ReadStop>
    ensures { ReadAnswer (λ x. (x.0.items, x.1.now)) result (all_acts tokens.now) }
{
    let mut done = Vec::new(alloc);
    let mut rest = tokens;
    for _ in 0..tokens.len() {
        match after_sign("}", rest) {
            Some((_, behind)) => return Ok((done, behind)),
            None => {
                let (x, behind) = act_with_end(rest)?;
                done.push(x)?;
                rest = behind;
            }
        }
    }
    // for the proof: the loop ends before
    Err(ReadStop::TokensLeft(0))
}

/// The steps of a case, behind its word, and the tokens after them.
///
/// # Errors
/// `TokensLeft` where the tokens begin with no such steps, and `NoMemory`.
#[tactic(auto, unfolding(cf_reader::specs::Readers::bind, crate::specs::Reading::case_of))]
pub fn case(alloc: Global, tokens: &[Token]) -> Result<(Vec<Act>, &[Token]), ReadStop>
    ensures { ReadAnswer (λ x. (x.0.items, x.1.now)) result (case_of tokens.now) }
{
    let (_, rest) = expect_sign("{", tokens)?;
    acts(alloc, rest)
}
