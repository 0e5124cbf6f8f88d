//! Reads steps files.
ghost use Rattle.std.specs.Prelude.{◌≡◌, ◌≤◌, ◌-◌, ◌^◌, [], List, codes, length, map, flat_map, Ok, IfOk, IfErr};
ghost use Rattle.cf_lex.specs.Tokens.{AreWithin};
ghost use Rattle.cf_lex.specs.declared.token.TokenKind.TheVariants.{Word, Sign};
ghost use Rattle.cf_reader.specs.Answers.{ReadAnswer};
ghost use Rattle.cf_reader.specs.Faults.{IsFault, IsFaultOf};
ghost use Rattle.cf_reader.specs.Readers.{others_of, snoc};
ghost use Rattle.cf_steps.specs.Answers.{SomeBlocks, BlocksAnswer};
ghost use Rattle.cf_steps.specs.Blocks.{BlockTree, block_acts, block_tree, block_trees};
ghost use Rattle.cf_steps.specs.Reading.{case_of, block_of, all_blocks};
ghost use Rattle.cf_steps.specs.Spelled.{HaveSpelling};
ghost use Rattle.cf_steps.specs.Spelling.{AreBlocks};

use crate::block::{Block, Blocks};
use crate::head::head;
use crate::number::expect_column;
use crate::step::case;
use cf_elim::Act;
use cf_lex::{Token, TokenList};
use cf_reader::{ParseFault, ReadStop, after_word, expect_sign, expect_word, place_at};
use cf_target::{DEPTH_LIMIT, target_part};
use cf_tree::Edition;
use std::alloc::Global;

// The cases with one more.
fn with_case(cases: Vec<Vec<Act>>, case: Vec<Act>) -> Result<Vec<Vec<Act>>, ReadStop>
    ensures { ReadAnswer (λ x. map (λ c. c.items) x.items) result (Ok (snoc (map (λ c. c.items) cases.items) case.items)) }
{
    let mut all = cases;
    all.push(case)?;
    Ok(all)
}

// The cases up to the closing brace.
#[tactic(auto, unfolding(cf_reader::specs::Readers::others_of))]
fn cases(alloc: Global, tokens: &[Token]) -> Result<(Vec<Vec<Act>>, &[Token]), ReadStop>
    ensures { ReadAnswer (λ x. (map (λ c. c.items) x.0.items, x.1.now)) result
        (others_of snoc case_of (Word (codes "case")) (Sign (codes "}")) [] tokens.now) }
{
    let mut done = Vec::new(alloc);
    let mut rest = tokens;
    for _ in 0..tokens.len() {
        match after_word("case", rest) {
            Some((_, behind)) => {
                let (x, behind) = case(alloc, behind)?;
                done = with_case(done, x)?;
                rest = behind;
            }
            None => {
                let (_, behind) = expect_sign("}", rest)?;
                return Ok((done, behind));
            }
        }
    }
    // for the proof: the loop ends before
    Err(ReadStop::TokensLeft(0))
}

// A block whose target has a code of depth at most `limit`.
#[tactic(auto, unfolding(cf_reader::specs::Readers::bind, cf_reader::specs::Readers::pure, crate::specs::Reading::block_of))]
fn block(
    alloc: Global,
    edition: Edition,
    limit: u32,
    tokens: &[Token],
) -> Result<(Block, &[Token]), ReadStop>
    ensures { ReadAnswer (λ x. (block_tree x.0, x.1.now)) result (block_of edition limit tokens.now) }
{
    let (_, rest) = expect_word("choose", tokens)?;
    let (number, rest) = expect_column(rest)?;
    let (truths, rest) = head(alloc, edition, rest)?;
    let (cases, rest) = cases(alloc, rest)?;
    let (target, rest) = target_part(alloc, Edition::Two, limit, rest)?;
    let block = Block {
        number,
        truths,
        cases,
        target,
    };
    Ok((block, rest))
}

// The blocks up to the end, whose targets have codes of depth at most `limit`.
#[tactic(auto, unfolding(crate::specs::Reading::all_blocks))]
fn blocks(
    alloc: Global,
    edition: Edition,
    limit: u32,
    tokens: &[Token],
) -> Result<(Vec<Block>, &[Token]), ReadStop>
    ensures { ReadAnswer (λ x. (map block_tree x.0.items, x.1.now)) result (all_blocks edition limit tokens.now) }
{
    let mut done = Vec::new(alloc);
    let mut rest = tokens;
    for _ in 0..tokens.len() {
        if rest.is_empty() {
            return Ok((done, rest));
        }
        let (x, behind) = block(alloc, edition, limit, rest)?;
        done.push(x)?;
        rest = behind;
    }
    if rest.is_empty() {
        Ok((done, rest))
    } else {
        // for the proof: the loop ends before
        Err(ReadStop::TokensLeft(0))
    }
}

/// The blocks that the tokens spell for a source of this edition, in order.
///
/// # Errors
/// `Syntax` exactly where they spell none, with the place at which reading from left to right stops;
/// and `NoMemory`.
#[tactic(auto, using(crate::proofs::Found::found_law, crate::proofs::Only::only_law, crate::proofs::Only::fault_law, crate::proofs::Only::exact_law, crate::proofs::Only::one_law))]
pub fn steps(alloc: Global, edition: Edition, tokens: &TokenList) -> Result<Blocks, ParseFault>
    // What is read is spelled by the tokens, within the depth limit of targets.
    ensures found { IfOk result (λ x. AreBlocks edition (block_trees x) tokens.now.list.items) }
    // What is spelled by the tokens is read, unless memory runs out; so Syntax comes only where there are no blocks.
    ensures only { (bs : List BlockTree) → AreBlocks edition bs tokens.now.list.items → BlocksAnswer bs result }
    // At most one list of blocks is spelled by the tokens.
    ensures one { (bs cs : List BlockTree) → AreBlocks edition bs tokens.now.list.items → AreBlocks edition cs tokens.now.list.items → bs ≡ cs }
    // Syntax stands at a token up to and with which no blocks begin, or at the end.
    ensures place { IfErr result (λ e. IsFault (SomeBlocks edition) tokens.now.list.items tokens.now.end e) }
    // It is the place at which reading from left to right stops.
    ensures exact { IfErr result (λ e. IsFaultOf (all_blocks edition 500) tokens.now.list.items tokens.now.end e) }
    // Each step has a token of its own.
    ensures few { IfOk result (λ x. length (flat_map block_acts (block_trees x)) ≤ length tokens.now.list.items) }
    // Where the literals are within the limit, the blocks have a spelling, so that they can be printed and read again.
    ensures spelled { AreWithin (2 ^ 127 - 1) tokens.now.list.items → IfOk result (λ x. HaveSpelling x) }
{
    match blocks(alloc, edition, DEPTH_LIMIT, tokens.list.as_slice()) {
        Ok((list, _)) => Ok(Blocks { list }),
        Err(ReadStop::NoMemory) => Err(ParseFault::NoMemory),
        Err(ReadStop::TokensLeft(left)) => Err(ParseFault::Syntax(place_at(tokens, left))),
    }
}
