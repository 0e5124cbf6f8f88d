//! Reads programs.
ghost use Rattle.std.specs.Prelude.{◌≡◌, ◌<◌, ◌^◌, IfOk, IfErr, List, map};
ghost use Rattle.cf_lex.specs.declared.token.Token.{Token};
ghost use Rattle.cf_tree.specs.declared.raw.RawItem.TheVariants.{Const};
ghost use Rattle.cf_reader.specs.Answers.{ReadAnswer};
ghost use Rattle.cf_reader.specs.Readers.{must};
ghost use Rattle.cf_tree.specs.DefView.{RawItemTree, raw_item_tree, raw_def_tree, program_tree};
ghost use Rattle.cf_reader.specs.Faults.{IsFault, IsFaultOf};
ghost use Rattle.cf_parse.specs.Programs.{IsProgram, SomeProgram, ParseAnswer, def_from, const_from, a_three, item_of, all_items, some_items, program_of};

use crate::lists::maybe_params;
use crate::reading::tree_at;
use crate::tier::Tier;
use crate::words::after_word_of_three;
use cf_lex::{Token, TokenKind, TokenList};
use cf_reader::{
    ParseFault, ReadStop, expect_function, expect_name, expect_sign, expect_word, place_at, results,
};
use cf_tree::{Edition, Place, Program, RawConst, RawDef, RawItem};
use std::alloc::Global;

// The greatest depth of a function's body, and of a constant.
const DEPTH_LIMIT: u32 = 200;

// A function behind the word `def`, with a body of depth at most `limit`.
#[tactic(auto, unfolding(cf_reader::specs::Readers::bind, cf_reader::specs::Readers::pure, crate::specs::Programs::def_from))]
fn def(
    alloc: Global,
    edition: Edition,
    limit: u32,
    place: Place,
    tokens: &[Token],
) -> Result<(RawDef, &[Token]), ReadStop>
    requires { limit < 2 ^ 30 }
    ensures { ReadAnswer (λ x. (raw_def_tree x.0, x.1.now)) result (def_from edition limit place tokens.now) }
{
    let ((_, name), rest) = expect_function(alloc, edition, tokens)?;
    let (_, rest) = expect_sign("(", rest)?;
    let (params, rest) = maybe_params(alloc, edition, rest)?;
    let (_, rest) = expect_sign(":", rest)?;
    let (results, rest) = results(alloc, rest)?;
    let (_, rest) = expect_sign("=", rest)?;
    let (body, rest) = tree_at(alloc, edition, Tier::Whole, limit, rest)?;
    let def = RawDef {
        place,
        name,
        params,
        results,
        body: body.raw,
    };
    Ok((def, rest))
}

// A constant behind the word `const`, with an expression of depth at most `limit`.
#[tactic(auto, unfolding(cf_reader::specs::Readers::bind, cf_reader::specs::Readers::pure, crate::specs::Programs::const_from))]
fn constant(
    alloc: Global,
    edition: Edition,
    limit: u32,
    tokens: &[Token],
) -> Result<(RawConst, &[Token]), ReadStop>
    requires { limit < 2 ^ 30 }
    ensures { ReadAnswer (λ x. (raw_item_tree (Const x.0), x.1.now)) result (const_from edition limit tokens.now) }
{
    let ((place, name), rest) = expect_name(alloc, edition, tokens)?;
    let (_, rest) = expect_sign("=", rest)?;
    let (value, rest) = tree_at(alloc, edition, Tier::Whole, limit, rest)?;
    let value = value.raw;
    Ok((RawConst { place, name, value }, rest))
}

// A function, or in edition 3 a constant.
#[tactic(auto, unfolding(cf_reader::specs::Readers::first, cf_reader::specs::Readers::bind, cf_reader::specs::Readers::pure, crate::specs::Programs::item_of, crate::specs::Programs::def_of))]
fn item(
    alloc: Global,
    edition: Edition,
    limit: u32,
    tokens: &[Token],
) -> Result<(RawItem, &[Token]), ReadStop>
    requires { limit < 2 ^ 30 }
    ensures { ReadAnswer (λ x. (raw_item_tree x.0, x.1.now)) result (item_of edition limit tokens.now) }
{
    if let Some((_, rest)) = after_word_of_three(edition, "const", tokens) {
        let (constant, rest) = constant(alloc, edition, limit, rest)?;
        return Ok((RawItem::Const(constant), rest));
    }
    let (place, rest) = expect_word("def", tokens)?;
    let (def, rest) = def(alloc, edition, limit, place, rest)?;
    Ok((RawItem::Def(def), rest))
}

// More items, up to the end.
#[tactic(auto, using(crate::proofs::Defs::items_end, crate::proofs::Defs::items_stop), unfolding(crate::specs::Programs::all_items))]
fn more_items(
    alloc: Global,
    edition: Edition,
    limit: u32,
    first: Vec<RawItem>,
    tokens: &[Token],
) -> Result<(Vec<RawItem>, &[Token]), ReadStop>
    requires { limit < 2 ^ 30 }
    ensures { ReadAnswer (λ x. (map raw_item_tree x.0.items, x.1.now)) result (all_items edition limit (map raw_item_tree first.items) tokens.now) }
{
    let mut done = first;
    let mut rest = tokens;
    for _ in 0..tokens.len() {
        if rest.is_empty() {
            return Ok((done, rest));
        }
        let (x, behind) = item(alloc, edition, limit, rest)?;
        done.push(x)?;
        rest = behind;
    }
    if rest.is_empty() {
        Ok((done, rest))
    } else {
        // for the proof: the loop ends before
        Err(ReadStop::TokensLeft(0))
    }
}

// The items of a program, of depth at most `limit`.
#[tactic(auto, unfolding(cf_reader::specs::Readers::bind, crate::specs::Programs::some_items))]
fn items(
    alloc: Global,
    edition: Edition,
    limit: u32,
    tokens: &[Token],
) -> Result<(Vec<RawItem>, &[Token]), ReadStop>
    requires { limit < 2 ^ 30 }
    ensures { ReadAnswer (λ x. (map raw_item_tree x.0.items, x.1.now)) result (some_items edition limit tokens.now) }
{
    let (first, rest) = item(alloc, edition, limit, tokens)?;
    let mut all = Vec::new(alloc);
    all.push(first)?;
    more_items(alloc, edition, limit, all, rest)
}

// A literal of the value 3, which has to stand first.
#[tactic(auto, unfolding(cf_reader::specs::Readers::must, cf_reader::specs::Readers::at))]
fn expect_three(tokens: &[Token]) -> Result<(Place, &[Token]), ReadStop>
    ensures { ReadAnswer (λ x. (x.0, x.1.now)) result (must a_three tokens.now) }
{
    match tokens.split_first() {
        Some((t, rest)) => match &t.kind {
            TokenKind::Literal(n) if *n == 3 => Ok((t.place, rest)),
            _ => Err(ReadStop::TokensLeft(tokens.len())),
        },
        None => Err(ReadStop::TokensLeft(0)),
    }
}

// The whole of the tokens, in edition 3 behind its header.
#[tactic(auto, unfolding(cf_reader::specs::Readers::bind, crate::specs::Programs::program_of))]
fn whole(
    alloc: Global,
    edition: Edition,
    limit: u32,
    tokens: &[Token],
) -> Result<(Vec<RawItem>, &[Token]), ReadStop>
    requires { limit < 2 ^ 30 }
    ensures { ReadAnswer (λ x. (map raw_item_tree x.0.items, x.1.now)) result (program_of edition limit tokens.now) }
{
    match edition {
        Edition::Two => items(alloc, edition, limit, tokens),
        Edition::Three => {
            let (_, rest) = expect_word("comfusy", tokens)?;
            let (_, rest) = expect_three(rest)?;
            items(alloc, edition, limit, rest)
        }
    }
}

/// The one program of this edition that spells the tokens. One of language 2 has functions alone.
#[tactic(auto, using(crate::proofs::Programs::found_law, crate::proofs::Programs::only_law, crate::proofs::Programs::fault_law, crate::proofs::Programs::exact_law, crate::proofs::Programs::one_law))]
pub fn program(alloc: Global, edition: Edition, tokens: &TokenList) -> Result<Program, ParseFault>
    // What is read is spelled by the tokens, within the depth limit.
    ensures found { IfOk result (λ x. IsProgram edition (program_tree x) tokens.now.list.items) }
    // What is spelled by the tokens is read, unless memory runs out; so Syntax comes only where there is no program.
    ensures only { (xs : List RawItemTree) → IsProgram edition xs tokens.now.list.items → ParseAnswer xs result }
    // At most one program is spelled by the tokens.
    ensures one { (xs ys : List RawItemTree) → IsProgram edition xs tokens.now.list.items → IsProgram edition ys tokens.now.list.items → xs ≡ ys }
    // Syntax stands at a token up to and with which no program begins, or at the end.
    ensures place { IfErr result (λ e. IsFault (SomeProgram edition) tokens.now.list.items tokens.now.end e) }
    // It is the place at which reading from left to right stops.
    ensures exact { IfErr result (λ e. IsFaultOf (program_of edition 200) tokens.now.list.items tokens.now.end e) }
{
    match whole(alloc, edition, DEPTH_LIMIT, tokens.list.as_slice()) {
        Ok((items, _)) => Ok(Program { items }),
        Err(ReadStop::NoMemory) => Err(ParseFault::NoMemory),
        Err(ReadStop::TokensLeft(left)) => Err(ParseFault::Syntax(place_at(tokens, left))),
    }
}
