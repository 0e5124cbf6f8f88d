//! Reads targets.
ghost use Rattle.std.specs.Prelude.{◌≡◌, pos, ◌-◌, ◌^◌, IfOk, IfErr};
ghost use Rattle.cf_lex.specs.Tokens.{AreWithin};
ghost use Rattle.cf_tree.specs.Spelled.{HasSpelling};
ghost use Rattle.cf_reader.specs.Answers.{ReadAnswer};
ghost use Rattle.cf_reader.specs.Readers.{must, at_end, refuse};
ghost use Rattle.cf_reader.specs.Faults.{IsFault, IsFaultOf};
ghost use Rattle.cf_target.specs.Spelling.{TargetTree, target_tree, header_number as number_of, IsTarget};
ghost use Rattle.cf_target.specs.Targets.{SomeTarget, TargetAnswer, a_number, bases_of, headless_of, main_of, part_of, target_of};

use crate::code::code;
use cf_lex::{Token, TokenKind, TokenList};
use cf_reader::{
    ParseFault, ReadStop, after_sign, after_word, expect_base, expect_sign, expect_word,
    more_bases, place_at, results,
};
use cf_tree::{Base, Edition, Place, RawTarget, without};
use std::alloc::Global;

/// The greatest depth of a target's code.
pub const DEPTH_LIMIT: u32 = 500;

// The bases up to the closing parenthesis, in order, and the tokens after it.
#[tactic(auto, unfolding(cf_reader::specs::Readers::first, cf_reader::specs::Readers::bind, cf_reader::specs::Readers::pure, cf_reader::specs::Readers::several_of, crate::specs::Targets::bases_of))]
fn bases(alloc: Global, tokens: &[Token]) -> Result<(Vec<Base>, &[Token]), ReadStop>
    ensures { ReadAnswer (λ x. (x.0.items, x.1.now)) result (bases_of tokens.now) }
{
    match after_sign(")", tokens) {
        Some((_, rest)) => Ok((Vec::new(alloc), rest)),
        None => {
            let (x, rest) = expect_base(tokens)?;
            let mut all = Vec::new(alloc);
            all.push(x)?;
            more_bases(all, rest)
        }
    }
}

// The number in the header of a target.
fn header_number(edition: Edition) -> i128
    ensures { result ≡ pos (number_of edition) }
{
    match edition {
        Edition::Two => 2,
        Edition::Three => 3,
    }
}

// The place of the number in a header, which has to stand first, and the tokens after it.
#[tactic(auto, unfolding(cf_reader::specs::Readers::must, cf_reader::specs::Readers::at))]
fn expect_number(edition: Edition, tokens: &[Token]) -> Result<(Place, &[Token]), ReadStop>
    ensures { ReadAnswer (λ x. (x.0, x.1.now)) result (must (a_number (number_of edition)) tokens.now) }
{
    let number = header_number(edition);
    let Some((t, rest)) = tokens.split_first() else {
        return Err(ReadStop::TokensLeft(0));
    };
    match &t.kind {
        // for the proof: in place of an equation of i128
        TokenKind::Literal(n) if number <= *n && *n <= number => Ok((t.place, rest)),
        _ => Err(ReadStop::TokensLeft(tokens.len())),
    }
}

// A target behind its header, with a code of depth at most `limit`, and the tokens after it.
#[tactic(auto, unfolding(cf_reader::specs::Readers::bind, cf_reader::specs::Readers::pure, crate::specs::Targets::main_of))]
fn headless_part(
    alloc: Global,
    limit: u32,
    tokens: &[Token],
) -> Result<(RawTarget, &[Token]), ReadStop>
    ensures { ReadAnswer (λ x. (target_tree x.0, x.1.now)) result (main_of limit tokens.now) }
{
    let (_, rest) = expect_word("main", tokens)?;
    let (_, rest) = expect_sign("(", rest)?;
    let (params, rest) = bases(alloc, rest)?;
    let (_, rest) = expect_sign(":", rest)?;
    let (results, rest) = results(alloc, rest)?;
    let (_, rest) = expect_sign("=", rest)?;
    let (code, rest) = code(alloc, limit, rest)?;
    let target = RawTarget {
        params,
        results,
        code,
    };
    Ok((target, rest))
}

// A target without a header, which one of edition 3 may not lack.
#[tactic(auto, unfolding(cf_reader::specs::Readers::refuse, crate::specs::Targets::headless_of))]
fn without_header(
    alloc: Global,
    edition: Edition,
    limit: u32,
    tokens: &[Token],
) -> Result<(RawTarget, &[Token]), ReadStop>
    ensures { ReadAnswer (λ x. (target_tree x.0, x.1.now)) result (headless_of edition limit tokens.now) }
{
    match edition {
        Edition::Two => headless_part(alloc, limit, tokens),
        Edition::Three => Err(ReadStop::TokensLeft(tokens.len())),
    }
}

/// The target of an edition with which the tokens begin, whose code has a depth of at most `limit`, and
/// the tokens after it. In language 2 it may lack its header, `comfusy 2`; in edition 3 this is `comfusy 3`.
///
/// # Errors
/// `TokensLeft` where the tokens begin with no such target, and `NoMemory`.
#[tactic(auto, unfolding(cf_reader::specs::Readers::first, cf_reader::specs::Readers::bind, crate::specs::Targets::part_of))]
pub fn target_part(
    alloc: Global,
    edition: Edition,
    limit: u32,
    tokens: &[Token],
) -> Result<(RawTarget, &[Token]), ReadStop>
    ensures { ReadAnswer (λ x. (target_tree x.0, x.1.now)) result (part_of edition limit tokens.now) }
{
    match after_word("comfusy", tokens) {
        Some((_, rest)) => {
            let (_, rest) = expect_number(edition, rest)?;
            headless_part(alloc, limit, rest)
        }
        None => without_header(alloc, edition, limit, tokens),
    }
}

// The target, where no tokens are left.
#[tactic(auto, unfolding(cf_reader::specs::Readers::refuse, cf_reader::specs::Readers::at_end))]
fn ended(target: RawTarget, rest: &[Token]) -> Result<(RawTarget, &[Token]), ReadStop>
    ensures { ReadAnswer (λ x. (target_tree x.0, x.1.now)) result (at_end (target_tree target) refuse rest.now) }
{
    match rest.split_first() {
        None => Ok((target, rest)),
        Some(_) => Err(without(target, ReadStop::TokensLeft(rest.len()))),
    }
}

// A target up to the end, with a code of depth at most `limit`.
#[tactic(auto, unfolding(cf_reader::specs::Readers::bind, crate::specs::Targets::target_of))]
fn whole(
    alloc: Global,
    edition: Edition,
    limit: u32,
    tokens: &[Token],
) -> Result<(RawTarget, &[Token]), ReadStop>
    ensures { ReadAnswer (λ x. (target_tree x.0, x.1.now)) result (target_of edition limit tokens.now) }
{
    let (target, rest) = target_part(alloc, edition, limit, tokens)?;
    ended(target, rest)
}

/// The one target of an edition that the tokens spell. The edition is that of the text (`edition_of` of cf_lex).
#[tactic(auto, using(crate::proofs::Only::fault_law, crate::proofs::Only::exact_law))]
pub fn target(alloc: Global, edition: Edition, tokens: &TokenList) -> Result<RawTarget, ParseFault>
    // What is read is spelled by the tokens, within the depth limit.
    ensures found { IfOk result (λ x. IsTarget edition (target_tree x) tokens.now.list.items) }
    // What is spelled by the tokens is read, unless memory runs out; so Syntax comes only where there is no target.
    ensures only { (t : TargetTree) → IsTarget edition t tokens.now.list.items → TargetAnswer t result }
    // At most one target is spelled by the tokens.
    ensures one { (t u : TargetTree) → IsTarget edition t tokens.now.list.items → IsTarget edition u tokens.now.list.items → t ≡ u }
    // Syntax stands at a token up to and with which no target begins, or at the end.
    ensures place { IfErr result (λ e. IsFault (SomeTarget edition) tokens.now.list.items tokens.now.end e) }
    // It is the place at which reading from left to right stops.
    ensures exact { IfErr result (λ e. IsFaultOf (target_of edition 500) tokens.now.list.items tokens.now.end e) }
    // Where the literals are within the limit, the target has a spelling, so that it can be printed and read again.
    ensures spelled { AreWithin (2 ^ 127 - 1) tokens.now.list.items → IfOk result (λ x. HasSpelling x) }
{
    match whole(alloc, edition, DEPTH_LIMIT, tokens.list.as_slice()) {
        Ok((target, _)) => Ok(target),
        Err(ReadStop::NoMemory) => Err(ParseFault::NoMemory),
        Err(ReadStop::TokensLeft(left)) => Err(ParseFault::Syntax(place_at(tokens, left))),
    }
}
