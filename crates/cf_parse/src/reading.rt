//! Reads expressions.
ghost use Rattle.std.specs.Prelude.{◌≤◌, ◌<◌, ◌+◌, ◌^◌, IfOk, map, codes};
ghost use Rattle.cf_lex.specs.declared.token.TokenKind.TheVariants.{Sign};
ghost use Rattle.cf_parse.specs.declared.tier.Tier.TheVariants.{Whole};
ghost use Rattle.cf_tree.specs.RawView.{raw_tree, raw_arm_tree, given_tree, aim_tree, number_tree};
ghost use Rattle.cf_parse.specs.LinksView.{links_tree};
ghost use Rattle.cf_reader.specs.Answers.{ReadAnswer};
ghost use Rattle.cf_reader.specs.Readers.{is, must, bind, snoc, others_of, several_of};
ghost use Rattle.cf_parse.specs.Reading.{chain_of, list_of, items_of, one_of, divided_of, two_or_more_of, operation_of, named_of, word_of, atom_of, unary_of, muls_of, sums_of, links_of, linked_of, compared_of, cmps_of, ands_of, ors_of, imps_of, given_of, aim_of, let_of, if_of, choose_of, arm_of, match_of, whole_of, read as read_at};

use crate::lists::{read_names, read_outputs};
use crate::measured::{
    Boxed, Links, Measured, MeasuredAim, MeasuredArm, MeasuredArms, MeasuredGiven, MeasuredList,
};
use crate::node;
use crate::pattern::read_pattern;
use crate::tier::Tier;
use crate::words::{
    NamedOp, after_order, after_sense, after_word_of_three, divides_by, expect_number, next_op,
    next_order, op_of_name, relation_tier, reserved_op, under,
};
use cf_lex::Token;
use cf_reader::{
    ReadStop, after_sign, after_word, expect_name, expect_sign, expect_word, literal_at_least,
    truth,
};
use cf_tree::{BinOp, Edition, Number, Place, RawAim, RawGiven, RawNode, without};
use std::alloc::Global;

/// A tree of depth at most `n`, at a tier.
#[cycle(reading)]
#[tactic(auto, using(crate::proofs::Above::read_above, crate::proofs::Above::read_none), unfolding(crate::specs::Reading::step))]
pub fn tree_at(
    alloc: Global,
    edition: Edition,
    tier: Tier,
    n: u32,
    tokens: &[Token],
) -> Result<(Measured, &[Token]), ReadStop>
    requires { n < 2 ^ 30 }
    ensures value { ReadAnswer (λ x. (raw_tree x.0.raw, x.1.now)) result (read_at edition n tier tokens.now) }
    ensures deep { IfOk result (λ x. x.0.depth ≤ n) }
{
    if n == 0 {
        return Err(ReadStop::TokensLeft(tokens.len()));
    }
    match tier {
        Tier::Whole => whole(alloc, edition, n - 1, tokens),
        Tier::Imps => imps(alloc, edition, n - 1, tokens),
        Tier::Ors => ors(alloc, edition, n - 1, tokens),
        Tier::Ands => ands(alloc, edition, n - 1, tokens),
        Tier::Cmps => cmps(alloc, edition, n - 1, tokens),
        Tier::Sums => sums(alloc, edition, n - 1, tokens),
        Tier::Muls => muls(alloc, edition, n - 1, tokens),
        Tier::Unary => unary(alloc, edition, n - 1, tokens),
    }
}

// A tree of depth at most `n`, at a tier, in a box.
#[cycle(reading)]
fn boxed(
    alloc: Global,
    edition: Edition,
    tier: Tier,
    n: u32,
    tokens: &[Token],
) -> Result<(Boxed, &[Token]), ReadStop>
    requires { n < 2 ^ 30 }
    ensures value { ReadAnswer (λ x. (raw_tree x.0.raw.value, x.1.now)) result (read_at edition n tier tokens.now) }
    ensures deep { IfOk result (λ x. x.0.depth ≤ n) }
{
    let (e, rest) = tree_at(alloc, edition, tier, n, tokens)?;
    Ok((node::boxed(alloc, e)?, rest))
}

// Any expression.
#[cycle(reading)]
#[tactic(auto, unfolding(cf_reader::specs::Readers::deep, crate::specs::Reading::whole_of))]
fn whole(
    alloc: Global,
    edition: Edition,
    n: u32,
    tokens: &[Token],
) -> Result<(Measured, &[Token]), ReadStop>
    requires { n < 2 ^ 30 }
    ensures value { ReadAnswer (λ x. (raw_tree x.0.raw, x.1.now)) result (whole_of edition (read_at edition n) n tokens.now) }
    ensures deep { IfOk result (λ x. x.0.depth ≤ n + 1) }
{
    if let Some((place, rest)) = after_word("let", tokens) {
        if n == 0 {
            return Err(ReadStop::TokensLeft(tokens.len()));
        }
        return let_in(alloc, edition, n, place, rest);
    }
    if let Some((place, rest)) = after_word("if", tokens) {
        if n == 0 {
            return Err(ReadStop::TokensLeft(tokens.len()));
        }
        return if_else(alloc, edition, n, place, rest);
    }
    if let Some((place, rest)) = after_word("choose", tokens) {
        if n == 0 {
            return Err(ReadStop::TokensLeft(tokens.len()));
        }
        return choose(alloc, edition, n, place, rest);
    }
    if let Some((place, rest)) = after_word("match", tokens) {
        if n == 0 {
            return Err(ReadStop::TokensLeft(tokens.len()));
        }
        return match_with(alloc, edition, n, place, rest);
    }
    imps(alloc, edition, n, tokens)
}

// Behind the word `let`.
#[cycle(reading)]
#[tactic(auto, unfolding(cf_reader::specs::Readers::bind, cf_reader::specs::Readers::pure, crate::specs::Reading::let_of))]
fn let_in(
    alloc: Global,
    edition: Edition,
    n: u32,
    place: Place,
    tokens: &[Token],
) -> Result<(Measured, &[Token]), ReadStop>
    requires { n < 2 ^ 30 }
    ensures value { ReadAnswer (λ x. (raw_tree x.0.raw, x.1.now)) result (let_of edition (read_at edition n) place tokens.now) }
    ensures deep { IfOk result (λ x. x.0.depth ≤ n + 1) }
{
    let (names, rest) = read_names(alloc, edition, tokens)?;
    let (_, rest) = expect_sign("=", rest)?;
    let (value, rest) = boxed(alloc, edition, Tier::Whole, n, rest)?;
    let (_, rest) = expect_word("in", rest)?;
    let (body, rest) = boxed(alloc, edition, Tier::Whole, n, rest)?;
    let inner = value.depth.max(body.depth);
    let node = RawNode::Let {
        names: names.names,
        places: names.places,
        value: value.raw,
        body: body.raw,
    };
    Ok((node::tree(place, node, inner), rest))
}

// Behind the word `if`.
#[cycle(reading)]
#[tactic(auto, unfolding(cf_reader::specs::Readers::bind, cf_reader::specs::Readers::pure, crate::specs::Reading::if_of))]
fn if_else(
    alloc: Global,
    edition: Edition,
    n: u32,
    place: Place,
    tokens: &[Token],
) -> Result<(Measured, &[Token]), ReadStop>
    requires { n < 2 ^ 30 }
    ensures value { ReadAnswer (λ x. (raw_tree x.0.raw, x.1.now)) result (if_of (read_at edition n) place tokens.now) }
    ensures deep { IfOk result (λ x. x.0.depth ≤ n + 1) }
{
    let (test, rest) = boxed(alloc, edition, Tier::Whole, n, tokens)?;
    let (_, rest) = expect_word("then", rest)?;
    let (yes, rest) = boxed(alloc, edition, Tier::Whole, n, rest)?;
    let (_, rest) = expect_word("else", rest)?;
    let (no, rest) = boxed(alloc, edition, Tier::Whole, n, rest)?;
    let inner = test.depth.max(yes.depth.max(no.depth));
    let node = RawNode::If {
        test: test.raw,
        yes: yes.raw,
        no: no.raw,
    };
    Ok((node::tree(place, node, inner), rest))
}

// Behind the word `choose`.
#[cycle(reading)]
#[tactic(auto, unfolding(cf_reader::specs::Readers::bind, cf_reader::specs::Readers::pure, crate::specs::Reading::choose_of))]
fn choose(
    alloc: Global,
    edition: Edition,
    n: u32,
    place: Place,
    tokens: &[Token],
) -> Result<(Measured, &[Token]), ReadStop>
    requires { n < 2 ^ 30 }
    ensures value { ReadAnswer (λ x. (raw_tree x.0.raw, x.1.now)) result (choose_of edition (read_at edition n) place tokens.now) }
    ensures deep { IfOk result (λ x. x.0.depth ≤ n + 1) }
{
    let (_, rest) = expect_sign("(", tokens)?;
    let ((outputs, hidden), rest) = read_outputs(alloc, edition, rest)?;
    let (given, rest) = given(alloc, edition, n, rest)?;
    let (_, rest) = expect_word("where", rest)?;
    let (rel, rest) = boxed(alloc, edition, relation_tier(edition), n, rest)?;
    let (aim, rest) = aim(alloc, edition, n, rest)?;
    let inner = given.depth.max(rel.depth.max(aim.depth));
    let node = RawNode::Choose {
        outputs,
        hidden,
        given: given.given,
        rel: rel.raw,
        aim: aim.aim,
    };
    Ok((node::tree(place, node, inner), rest))
}

// The word `given` and its condition, if they stand there.
#[cycle(reading)]
#[tactic(auto, unfolding(cf_reader::specs::Readers::first, cf_reader::specs::Readers::bind, cf_reader::specs::Readers::pure, crate::specs::Reading::given_of))]
fn given(
    alloc: Global,
    edition: Edition,
    n: u32,
    tokens: &[Token],
) -> Result<(MeasuredGiven, &[Token]), ReadStop>
    requires { n < 2 ^ 30 }
    ensures value { ReadAnswer (λ x. (given_tree x.0.given, x.1.now)) result (given_of edition (read_at edition n) tokens.now) }
    ensures deep { IfOk result (λ x. x.0.depth ≤ n) }
{
    match after_word_of_three(edition, "given", tokens) {
        None => {
            let given = RawGiven::Always;
            Ok((MeasuredGiven { given, depth: 0 }, tokens))
        }
        Some((place, rest)) => {
            let (e, rest) = boxed(alloc, edition, Tier::Whole, n, rest)?;
            let depth = e.depth;
            let given = RawGiven::That { place, rel: e.raw };
            Ok((MeasuredGiven { given, depth }, rest))
        }
    }
}

// The word `minimise` or `maximise` and its objective, if they stand there.
#[cycle(reading)]
#[tactic(auto, unfolding(cf_reader::specs::Readers::first, cf_reader::specs::Readers::bind, cf_reader::specs::Readers::pure, crate::specs::Reading::aim_of))]
fn aim(
    alloc: Global,
    edition: Edition,
    n: u32,
    tokens: &[Token],
) -> Result<(MeasuredAim, &[Token]), ReadStop>
    requires { n < 2 ^ 30 }
    ensures value { ReadAnswer (λ x. (aim_tree x.0.aim, x.1.now)) result (aim_of edition (read_at edition n) tokens.now) }
    ensures deep { IfOk result (λ x. x.0.depth ≤ n) }
{
    match after_sense(edition, tokens) {
        None => {
            let aim = RawAim::Any;
            Ok((MeasuredAim { aim, depth: 0 }, tokens))
        }
        Some(((place, sense), rest)) => {
            let (e, rest) = boxed(alloc, edition, Tier::Whole, n, rest)?;
            let depth = e.depth;
            let objective = e.raw;
            let aim = RawAim::At {
                place,
                sense,
                objective,
            };
            Ok((MeasuredAim { aim, depth }, rest))
        }
    }
}

// Behind the word `match`.
#[cycle(reading)]
#[tactic(auto, unfolding(cf_reader::specs::Readers::bind, cf_reader::specs::Readers::pure, cf_reader::specs::Readers::several_of, crate::specs::Reading::match_of))]
fn match_with(
    alloc: Global,
    edition: Edition,
    n: u32,
    place: Place,
    tokens: &[Token],
) -> Result<(Measured, &[Token]), ReadStop>
    requires small { n < 2 ^ 30 }
    requires some { 1 ≤ n }
    ensures value { ReadAnswer (λ x. (raw_tree x.0.raw, x.1.now)) result (match_of edition (read_at edition n) place tokens.now) }
    ensures deep { IfOk result (λ x. x.0.depth ≤ n + 1) }
{
    let (of, rest) = boxed(alloc, edition, Tier::Whole, n, tokens)?;
    let (_, rest) = expect_word("with", rest)?;
    let (_, rest) = expect_sign("{", rest)?;
    let (first, rest) = arm(alloc, edition, n, rest)?;
    let first = node::pushed_arm(node::no_arms(alloc), first)?;
    let (arms, rest) = more_arms(alloc, edition, n, first, rest)?;
    let inner = of.depth.max(arms.depth);
    let node = RawNode::Match {
        of: of.raw,
        arms: arms.arms,
    };
    Ok((node::tree(place, node, inner), rest))
}

// An arm of a `match`.
#[cycle(reading)]
#[tactic(auto, unfolding(cf_reader::specs::Readers::bind, cf_reader::specs::Readers::pure, crate::specs::Reading::arm_of))]
fn arm(
    alloc: Global,
    edition: Edition,
    n: u32,
    tokens: &[Token],
) -> Result<(MeasuredArm, &[Token]), ReadStop>
    requires small { n < 2 ^ 30 }
    requires some { 1 ≤ n }
    ensures value { ReadAnswer (λ x. (raw_arm_tree x.0.arm, x.1.now)) result (arm_of edition (read_at edition n) tokens.now) }
    ensures deep { IfOk result (λ x. x.0.depth ≤ n) }
{
    let (pattern, rest) = read_pattern(alloc, edition, tokens)?;
    let (_, rest) = expect_word("then", rest)?;
    let (body, rest) = tree_at(alloc, edition, Tier::Whole, n, rest)?;
    Ok((node::arm(pattern, body), rest))
}

// More arms, up to the closing brace.
#[cycle(reading)]
#[tactic(auto, unfolding(cf_reader::specs::Readers::others_of))]
fn more_arms(
    alloc: Global,
    edition: Edition,
    n: u32,
    first: MeasuredArms,
    tokens: &[Token],
) -> Result<(MeasuredArms, &[Token]), ReadStop>
    requires small { n < 2 ^ 30 }
    requires some { 1 ≤ n }
    requires first_in { first.depth ≤ n }
    ensures value { ReadAnswer (λ x. (map raw_arm_tree x.0.arms.items, x.1.now)) result
        (others_of snoc (arm_of edition (read_at edition n)) (Sign (codes ";")) (Sign (codes "}")) (map raw_arm_tree first.arms.items) tokens.now) }
    ensures deep { IfOk result (λ x. x.0.depth ≤ n) }
{
    let mut done = first;
    let mut rest = tokens;
    for _ in 0..tokens.len() {
        match after_sign(";", rest) {
            Some((_, behind)) => {
                let (x, behind) = arm(alloc, edition, n, behind)?;
                done = node::pushed_arm(done, x)?;
                rest = behind;
            }
            None => {
                let (_, behind) = expect_sign("}", rest)?;
                return Ok((done, behind));
            }
        }
    }
    // for the proof: the loop ends before
    Err(ReadStop::TokensLeft(0))
}

// Joined by `==>`.
#[cycle(reading)]
#[tactic(auto, unfolding(cf_reader::specs::Readers::first, cf_reader::specs::Readers::bind, cf_reader::specs::Readers::pure, crate::specs::Reading::imps_of, crate::specs::Reading::implied_of))]
fn imps(
    alloc: Global,
    edition: Edition,
    n: u32,
    tokens: &[Token],
) -> Result<(Measured, &[Token]), ReadStop>
    requires { n < 2 ^ 30 }
    ensures value { ReadAnswer (λ x. (raw_tree x.0.raw, x.1.now)) result (imps_of edition (read_at edition n) n tokens.now) }
    ensures deep { IfOk result (λ x. x.0.depth ≤ n + 1) }
{
    let (left, rest) = ors(alloc, edition, n, tokens)?;
    let Some(((place, op), behind)) = next_op(edition, Tier::Imps, n, left.depth, rest) else {
        return Ok((left, rest));
    };
    match boxed(alloc, edition, Tier::Imps, n, behind) {
        Ok((right, rest)) => Ok((node::binary(alloc, place, op, left, right)?, rest)),
        Err(stop) => Err(without(left, stop)),
    }
}

// Joined by `||`.
#[cycle(reading)]
#[tactic(auto, unfolding(cf_reader::specs::Readers::bind, crate::specs::Reading::ors_of))]
fn ors(
    alloc: Global,
    edition: Edition,
    n: u32,
    tokens: &[Token],
) -> Result<(Measured, &[Token]), ReadStop>
    requires { n < 2 ^ 30 }
    ensures value { ReadAnswer (λ x. (raw_tree x.0.raw, x.1.now)) result (ors_of edition (read_at edition n) n tokens.now) }
    ensures deep { IfOk result (λ x. x.0.depth ≤ n + 1) }
{
    let (left, rest) = ands(alloc, edition, n, tokens)?;
    chain(alloc, edition, Tier::Ors, n, left, rest)
}

// Joined by `&&`.
#[cycle(reading)]
#[tactic(auto, unfolding(cf_reader::specs::Readers::bind, crate::specs::Reading::ands_of))]
fn ands(
    alloc: Global,
    edition: Edition,
    n: u32,
    tokens: &[Token],
) -> Result<(Measured, &[Token]), ReadStop>
    requires { n < 2 ^ 30 }
    ensures value { ReadAnswer (λ x. (raw_tree x.0.raw, x.1.now)) result (ands_of edition (read_at edition n) n tokens.now) }
    ensures deep { IfOk result (λ x. x.0.depth ≤ n + 1) }
{
    let (left, rest) = cmps(alloc, edition, n, tokens)?;
    chain(alloc, edition, Tier::Ands, n, left, rest)
}

// At most one comparison, or `divides`.
#[cycle(reading)]
#[tactic(auto, unfolding(cf_reader::specs::Readers::bind, crate::specs::Reading::cmps_of))]
fn cmps(
    alloc: Global,
    edition: Edition,
    n: u32,
    tokens: &[Token],
) -> Result<(Measured, &[Token]), ReadStop>
    requires { n < 2 ^ 30 }
    ensures value { ReadAnswer (λ x. (raw_tree x.0.raw, x.1.now)) result (cmps_of edition (read_at edition n) n tokens.now) }
    ensures deep { IfOk result (λ x. x.0.depth ≤ n + 1) }
{
    let (left, rest) = sums(alloc, edition, n, tokens)?;
    compared(alloc, edition, n, left, rest)
}

// The rest of a comparison, of a chain or of `divides`, if there is any, behind the first part.
#[cycle(reading)]
#[tactic(auto, unfolding(cf_reader::specs::Readers::first, cf_reader::specs::Readers::bind, cf_reader::specs::Readers::pure, crate::specs::Reading::compared_of))]
fn compared(
    alloc: Global,
    edition: Edition,
    n: u32,
    left: Measured,
    tokens: &[Token],
) -> Result<(Measured, &[Token]), ReadStop>
    requires small { n < 2 ^ 30 }
    requires left_in { left.depth ≤ n + 1 }
    ensures value { ReadAnswer (λ x. (raw_tree x.0.raw, x.1.now)) result (compared_of edition (read_at edition n) n (raw_tree left.raw) tokens.now) }
    ensures deep { IfOk result (λ x. x.0.depth ≤ n + 1) }
{
    if let Some((op, rest)) = next_op(edition, Tier::Cmps, n, left.depth, tokens) {
        return match tree_at(alloc, edition, Tier::Sums, n, rest) {
            Ok((right, rest)) => linked(alloc, edition, n, op, left, right, rest),
            Err(stop) => Err(without(left, stop)),
        };
    }
    let found = match divides_by(alloc, edition, n, &left.raw, tokens) {
        Ok(found) => found,
        Err(_) => return Err(without(left, ReadStop::NoMemory)),
    };
    match found {
        None => Ok((left, tokens)),
        Some(((place, k), rest)) => {
            drop(left);
            let (of, rest) = boxed(alloc, edition, Tier::Sums, n, rest)?;
            let inner = of.depth;
            let of = of.raw;
            Ok((node::tree(place, RawNode::Divides { k, of }, inner), rest))
        }
    }
}

// Behind the two sides of an operation of the tier of comparisons: the rest of a chain, if it goes on.
#[cycle(reading)]
#[tactic(auto, unfolding(cf_reader::specs::Readers::first, cf_reader::specs::Readers::bind, cf_reader::specs::Readers::pure, crate::specs::Reading::linked_of))]
fn linked(
    alloc: Global,
    edition: Edition,
    n: u32,
    op: (Place, BinOp),
    left: Measured,
    right: Measured,
    tokens: &[Token],
) -> Result<(Measured, &[Token]), ReadStop>
    requires small { n < 2 ^ 30 }
    requires left_in { left.depth ≤ n }
    requires right_in { right.depth ≤ n }
    ensures value { ReadAnswer (λ x. (raw_tree x.0.raw, x.1.now)) result
        (linked_of edition (read_at edition n) op (raw_tree left.raw) (raw_tree right.raw) tokens.now) }
    ensures deep { IfOk result (λ x. x.0.depth ≤ n + 1) }
{
    let (place, op) = op;
    let Some(((order, link), rest)) = after_order(edition, op, tokens) else {
        let right = node::boxed(alloc, right)?;
        return Ok((node::binary(alloc, place, op, left, right)?, tokens));
    };
    let links = node::linked(alloc, place, order, left, right)?;
    let (e, rest) = tree_at(alloc, edition, Tier::Sums, n, rest)?;
    let links = node::more_linked(links, link, e)?;
    let (links, rest) = more_links(alloc, edition, n, tokens.len(), links, rest)?;
    let parts = links.parts;
    let node = RawNode::Chain {
        orders: links.orders,
        places: links.places,
        parts: parts.trees,
    };
    Ok((node::tree(place, node, parts.depth), rest))
}

// More links of a chain, behind those read before: fewer than `most`, the number of tokens that were left before the last one.
#[cycle(reading)]
#[tactic(auto, using(crate::proofs::Steps::links_done))]
fn more_links(
    alloc: Global,
    edition: Edition,
    n: u32,
    most: usize,
    first: Links,
    tokens: &[Token],
) -> Result<(Links, &[Token]), ReadStop>
    requires small { n < 2 ^ 30 }
    requires first_in { first.parts.depth ≤ n }
    ensures value { ReadAnswer (λ x. (links_tree x.0, x.1.now)) result (links_of (read_at edition n) most (links_tree first) tokens.now) }
    ensures deep { IfOk result (λ x. x.0.parts.depth ≤ n) }
{
    let mut done = first;
    let mut rest = tokens;
    for _ in 0..most {
        match next_order(&done.orders, rest) {
            None => return Ok((done, rest)),
            Some((link, behind)) => {
                let (e, behind) = tree_at(alloc, edition, Tier::Sums, n, behind)?;
                done = node::more_linked(done, link, e)?;
                rest = behind;
            }
        }
    }
    // for the proof: the loop ends before
    Err(ReadStop::TokensLeft(0))
}

// Joined by `+`, `-`, `union` or `diff`.
#[cycle(reading)]
#[tactic(auto, unfolding(cf_reader::specs::Readers::bind, crate::specs::Reading::sums_of))]
fn sums(
    alloc: Global,
    edition: Edition,
    n: u32,
    tokens: &[Token],
) -> Result<(Measured, &[Token]), ReadStop>
    requires { n < 2 ^ 30 }
    ensures value { ReadAnswer (λ x. (raw_tree x.0.raw, x.1.now)) result (sums_of edition (read_at edition n) n tokens.now) }
    ensures deep { IfOk result (λ x. x.0.depth ≤ n + 1) }
{
    let (left, rest) = muls(alloc, edition, n, tokens)?;
    chain(alloc, edition, Tier::Sums, n, left, rest)
}

// Joined by `*` or `inter`.
#[cycle(reading)]
#[tactic(auto, unfolding(cf_reader::specs::Readers::bind, crate::specs::Reading::muls_of))]
fn muls(
    alloc: Global,
    edition: Edition,
    n: u32,
    tokens: &[Token],
) -> Result<(Measured, &[Token]), ReadStop>
    requires { n < 2 ^ 30 }
    ensures value { ReadAnswer (λ x. (raw_tree x.0.raw, x.1.now)) result (muls_of edition (read_at edition n) n tokens.now) }
    ensures deep { IfOk result (λ x. x.0.depth ≤ n + 1) }
{
    let (left, rest) = unary(alloc, edition, n, tokens)?;
    chain(alloc, edition, Tier::Muls, n, left, rest)
}

// The rest of a chain.
#[cycle(reading)]
#[tactic(auto, using(crate::proofs::Above::chain_stops, crate::proofs::Above::chain_ends, crate::proofs::Above::chain_goes, crate::proofs::Above::chain_errs))]
fn chain(
    alloc: Global,
    edition: Edition,
    tier: Tier,
    n: u32,
    first: Measured,
    tokens: &[Token],
) -> Result<(Measured, &[Token]), ReadStop>
    requires small { n < 2 ^ 30 }
    requires first_in { first.depth ≤ n + 1 }
    ensures value { ReadAnswer (λ x. (raw_tree x.0.raw, x.1.now)) result (chain_of edition (read_at edition n) tier n n (raw_tree first.raw) tokens.now) }
    ensures deep { IfOk result (λ x. x.0.depth ≤ n + 1) }
{
    let mut left = first;
    let mut rest = tokens;
    for _ in 0..n {
        match next_op(edition, tier, n, left.depth, rest) {
            None => return Ok((left, rest)),
            Some(((place, op), behind)) => {
                match boxed(alloc, edition, under(tier), n, behind) {
                    Ok((right, behind)) => {
                        left = node::binary(alloc, place, op, left, right)?;
                        rest = behind;
                    }
                    Err(stop) => return Err(without(left, stop)),
                }
            }
        }
    }
    Ok((left, rest))
}

// Behind signs, or by itself.
#[cycle(reading)]
#[tactic(auto, unfolding(cf_reader::specs::Readers::deep, cf_reader::specs::Readers::bind, cf_reader::specs::Readers::pure, crate::specs::Reading::unary_of))]
fn unary(
    alloc: Global,
    edition: Edition,
    n: u32,
    tokens: &[Token],
) -> Result<(Measured, &[Token]), ReadStop>
    requires { n < 2 ^ 30 }
    ensures value { ReadAnswer (λ x. (raw_tree x.0.raw, x.1.now)) result (unary_of edition (read_at edition n) n tokens.now) }
    ensures deep { IfOk result (λ x. x.0.depth ≤ n + 1) }
{
    if let Some((place, rest)) = after_sign("-", tokens) {
        if n == 0 {
            return Err(ReadStop::TokensLeft(tokens.len()));
        }
        let (e, rest) = boxed(alloc, edition, Tier::Unary, n, rest)?;
        let inner = e.depth;
        return Ok((node::tree(place, RawNode::Neg(e.raw), inner), rest));
    }
    if let Some((place, rest)) = after_sign("!", tokens) {
        if n == 0 {
            return Err(ReadStop::TokensLeft(tokens.len()));
        }
        let (e, rest) = boxed(alloc, edition, Tier::Unary, n, rest)?;
        let inner = e.depth;
        return Ok((node::tree(place, RawNode::Not(e.raw), inner), rest));
    }
    atom(alloc, edition, n, tokens)
}

// By itself.
#[cycle(reading)]
#[tactic(auto, unfolding(cf_reader::specs::Readers::first, cf_reader::specs::Readers::deep, cf_reader::specs::Readers::bind, cf_reader::specs::Readers::pure, crate::specs::Reading::atom_of))]
fn atom(
    alloc: Global,
    edition: Edition,
    n: u32,
    tokens: &[Token],
) -> Result<(Measured, &[Token]), ReadStop>
    requires { n < 2 ^ 30 }
    ensures value { ReadAnswer (λ x. (raw_tree x.0.raw, x.1.now)) result (atom_of edition (read_at edition n) n tokens.now) }
    ensures deep { IfOk result (λ x. x.0.depth ≤ n + 1) }
{
    if let Some(((place, k), rest)) = literal_at_least(0, tokens) {
        return Ok((node::tree(place, RawNode::Lit(k), 0), rest));
    }
    if let Some((place, rest)) = after_sign("(", tokens) {
        if n == 0 {
            return Err(ReadStop::TokensLeft(tokens.len()));
        }
        let (es, rest) = list(alloc, edition, n, ")", rest)?;
        return Ok((node::grouped(alloc, place, es)?, rest));
    }
    if let Some((place, rest)) = after_sign("{", tokens) {
        let (es, rest) = items(alloc, edition, n, "}", rest)?;
        let inner = es.depth;
        return Ok((node::tree(place, RawNode::SetOf(es.trees), inner), rest));
    }
    word(alloc, edition, n, tokens)
}

// A form that begins with a word.
#[cycle(reading)]
#[tactic(auto, unfolding(cf_reader::specs::Readers::first, cf_reader::specs::Readers::deep, cf_reader::specs::Readers::bind, cf_reader::specs::Readers::pure, crate::specs::Reading::word_of))]
fn word(
    alloc: Global,
    edition: Edition,
    n: u32,
    tokens: &[Token],
) -> Result<(Measured, &[Token]), ReadStop>
    requires { n < 2 ^ 30 }
    ensures value { ReadAnswer (λ x. (raw_tree x.0.raw, x.1.now)) result (word_of edition (read_at edition n) n tokens.now) }
    ensures deep { IfOk result (λ x. x.0.depth ≤ n + 1) }
{
    if let Some(((place, t), rest)) = truth(tokens) {
        return Ok((node::tree(place, RawNode::Truth(t), 0), rest));
    }
    if let Some(((place, op), rest)) = reserved_op(edition, tokens) {
        if n == 0 {
            return Err(ReadStop::TokensLeft(tokens.len()));
        }
        return reserved(alloc, edition, n, place, op, rest);
    }
    name_or_call(alloc, edition, n, tokens)
}

// Behind the word of an operation that is reserved.
#[cycle(reading)]
#[tactic(auto, unfolding(cf_reader::specs::Readers::bind))]
fn reserved(
    alloc: Global,
    edition: Edition,
    n: u32,
    place: Place,
    op: NamedOp,
    tokens: &[Token],
) -> Result<(Measured, &[Token]), ReadStop>
    requires { n < 2 ^ 30 }
    ensures value { ReadAnswer (λ x. (raw_tree x.0.raw, x.1.now)) result
        (bind (must (is (Sign (codes "(")))) (λ p. operation_of edition (read_at edition n) place op) tokens.now) }
    ensures deep { IfOk result (λ x. x.0.depth ≤ n + 1) }
{
    let (_, rest) = expect_sign("(", tokens)?;
    operation(alloc, edition, n, place, op, rest)
}

// A name, a call, or an operation of edition 3.
#[cycle(reading)]
#[tactic(auto, unfolding(cf_reader::specs::Readers::first, cf_reader::specs::Readers::deep, cf_reader::specs::Readers::bind, cf_reader::specs::Readers::pure, crate::specs::Reading::named_of, crate::specs::Reading::behind_name))]
fn name_or_call(
    alloc: Global,
    edition: Edition,
    n: u32,
    tokens: &[Token],
) -> Result<(Measured, &[Token]), ReadStop>
    requires { n < 2 ^ 30 }
    ensures value { ReadAnswer (λ x. (raw_tree x.0.raw, x.1.now)) result (named_of edition (read_at edition n) n tokens.now) }
    ensures deep { IfOk result (λ x. x.0.depth ≤ n + 1) }
{
    let ((place, name), rest) = expect_name(alloc, edition, tokens)?;
    let Some((_, behind)) = after_sign("(", rest) else {
        return Ok((node::tree(place, RawNode::Name(name), 0), rest));
    };
    if let Some(op) = op_of_name(edition, &name.bytes) {
        if n == 0 {
            return Err(ReadStop::TokensLeft(rest.len()));
        }
        return operation(alloc, edition, n, place, op, behind);
    }
    let (es, rest) = items(alloc, edition, n, ")", behind)?;
    let inner = es.depth;
    let args = es.trees;
    Ok((node::tree(place, RawNode::Call { name, args }, inner), rest))
}

// Behind the word of an operation and its parenthesis.
#[cycle(reading)]
#[tactic(auto, unfolding(cf_reader::specs::Readers::bind, cf_reader::specs::Readers::pure, crate::specs::Reading::operation_of))]
fn operation(
    alloc: Global,
    edition: Edition,
    n: u32,
    place: Place,
    op: NamedOp,
    tokens: &[Token],
) -> Result<(Measured, &[Token]), ReadStop>
    requires { n < 2 ^ 30 }
    ensures value { ReadAnswer (λ x. (raw_tree x.0.raw, x.1.now)) result (operation_of edition (read_at edition n) place op tokens.now) }
    ensures deep { IfOk result (λ x. x.0.depth ≤ n + 1) }
{
    match op {
        NamedOp::Card => {
            let (e, rest) = inside(alloc, edition, n, tokens)?;
            let inner = e.depth;
            Ok((node::tree(place, RawNode::Card(e.raw), inner), rest))
        }
        NamedOp::Abs => {
            let (e, rest) = inside(alloc, edition, n, tokens)?;
            let inner = e.depth;
            Ok((node::tree(place, RawNode::Abs(e.raw), inner), rest))
        }
        NamedOp::Div => {
            let ((e, k), rest) = divided(alloc, edition, n, tokens)?;
            let inner = e.depth;
            let of = e.raw;
            Ok((node::tree(place, RawNode::Div { of, k }, inner), rest))
        }
        NamedOp::Mod => {
            let ((e, k), rest) = divided(alloc, edition, n, tokens)?;
            let inner = e.depth;
            let of = e.raw;
            Ok((node::tree(place, RawNode::Mod { of, k }, inner), rest))
        }
        NamedOp::Min => {
            let (es, rest) = two_or_more(alloc, edition, n, tokens)?;
            let inner = es.depth;
            Ok((node::tree(place, RawNode::Min(es.trees), inner), rest))
        }
        NamedOp::Max => {
            let (es, rest) = two_or_more(alloc, edition, n, tokens)?;
            let inner = es.depth;
            Ok((node::tree(place, RawNode::Max(es.trees), inner), rest))
        }
    }
}

// Two expressions or more, up to the closing parenthesis.
#[cycle(reading)]
#[tactic(auto, unfolding(cf_reader::specs::Readers::bind, cf_reader::specs::Readers::several_of, crate::specs::Reading::two_or_more_of))]
fn two_or_more(
    alloc: Global,
    edition: Edition,
    n: u32,
    tokens: &[Token],
) -> Result<(MeasuredList, &[Token]), ReadStop>
    requires { n < 2 ^ 30 }
    ensures value { ReadAnswer (λ x. (map raw_tree x.0.trees.items, x.1.now)) result (two_or_more_of (read_at edition n) tokens.now) }
    ensures deep { IfOk result (λ x. x.0.depth ≤ n) }
{
    let (e, rest) = tree_at(alloc, edition, Tier::Whole, n, tokens)?;
    let first = node::pushed(node::none(alloc), e)?;
    let (_, rest) = expect_sign(",", rest)?;
    let (e, rest) = tree_at(alloc, edition, Tier::Whole, n, rest)?;
    let first = node::pushed(first, e)?;
    more(alloc, edition, n, ")", first, rest)
}

// An expression up to the closing parenthesis.
#[cycle(reading)]
#[tactic(auto, unfolding(cf_reader::specs::Readers::bind, cf_reader::specs::Readers::pure, crate::specs::Reading::one_of))]
fn inside(
    alloc: Global,
    edition: Edition,
    n: u32,
    tokens: &[Token],
) -> Result<(Boxed, &[Token]), ReadStop>
    requires { n < 2 ^ 30 }
    ensures value { ReadAnswer (λ x. (raw_tree x.0.raw.value, x.1.now)) result (one_of (read_at edition n) tokens.now) }
    ensures deep { IfOk result (λ x. x.0.depth ≤ n) }
{
    let (e, rest) = boxed(alloc, edition, Tier::Whole, n, tokens)?;
    let (_, rest) = expect_sign(")", rest)?;
    Ok((e, rest))
}

// An expression and a number of at least 1, up to the closing parenthesis.
#[cycle(reading)]
#[tactic(auto, unfolding(cf_reader::specs::Readers::bind, cf_reader::specs::Readers::pure, crate::specs::Reading::divided_of))]
fn divided(
    alloc: Global,
    edition: Edition,
    n: u32,
    tokens: &[Token],
) -> Result<((Boxed, Number), &[Token]), ReadStop>
    requires { n < 2 ^ 30 }
    ensures value { ReadAnswer (λ x. ((raw_tree x.0.0.raw.value, number_tree x.0.1), x.1.now)) result (divided_of edition (read_at edition n) tokens.now) }
    ensures deep { IfOk result (λ x. x.0.0.depth ≤ n) }
{
    let (e, rest) = boxed(alloc, edition, Tier::Whole, n, tokens)?;
    let (_, rest) = expect_sign(",", rest)?;
    let (k, rest) = expect_number(alloc, edition, rest)?;
    let (_, rest) = expect_sign(")", rest)?;
    Ok(((e, k), rest))
}

// Expressions, if any, up to the closing sign.
#[cycle(reading)]
#[tactic(auto, unfolding(cf_reader::specs::Readers::first, cf_reader::specs::Readers::pure, crate::specs::Reading::items_of))]
fn items<'a>(
    alloc: Global,
    edition: Edition,
    n: u32,
    close: &str,
    tokens: &'a [Token],
) -> Result<(MeasuredList, &'a [Token]), ReadStop>
    requires { n < 2 ^ 30 }
    ensures value { ReadAnswer (λ x. (map raw_tree x.0.trees.items, x.1.now)) result (items_of (read_at edition n) (Sign close.now) tokens.now) }
    ensures deep { IfOk result (λ x. x.0.depth ≤ n) }
{
    match after_sign(close, tokens) {
        Some((_, rest)) => Ok((node::none(alloc), rest)),
        None => list(alloc, edition, n, close, tokens),
    }
}

// One expression or more, up to the closing sign.
#[cycle(reading)]
#[tactic(auto, unfolding(cf_reader::specs::Readers::bind, cf_reader::specs::Readers::several_of, crate::specs::Reading::list_of))]
fn list<'a>(
    alloc: Global,
    edition: Edition,
    n: u32,
    close: &str,
    tokens: &'a [Token],
) -> Result<(MeasuredList, &'a [Token]), ReadStop>
    requires { n < 2 ^ 30 }
    ensures value { ReadAnswer (λ x. (map raw_tree x.0.trees.items, x.1.now)) result (list_of (read_at edition n) (Sign close.now) tokens.now) }
    ensures deep { IfOk result (λ x. x.0.depth ≤ n) }
{
    let (e, rest) = tree_at(alloc, edition, Tier::Whole, n, tokens)?;
    let first = node::pushed(node::none(alloc), e)?;
    more(alloc, edition, n, close, first, rest)
}

// More expressions, up to the closing sign.
#[cycle(reading)]
#[tactic(auto, unfolding(cf_reader::specs::Readers::others_of))]
fn more<'a>(
    alloc: Global,
    edition: Edition,
    n: u32,
    close: &str,
    first: MeasuredList,
    tokens: &'a [Token],
) -> Result<(MeasuredList, &'a [Token]), ReadStop>
    requires small { n < 2 ^ 30 }
    requires first_in { first.depth ≤ n }
    ensures value { ReadAnswer (λ x. (map raw_tree x.0.trees.items, x.1.now)) result
        (others_of snoc (read_at edition n Whole) (Sign (codes ",")) (Sign close.now) (map raw_tree first.trees.items) tokens.now) }
    ensures deep { IfOk result (λ x. x.0.depth ≤ n) }
{
    let mut done = first;
    let mut rest = tokens;
    for _ in 0..tokens.len() {
        match after_sign(",", rest) {
            Some((_, behind)) => {
                let (e, behind) = tree_at(alloc, edition, Tier::Whole, n, behind)?;
                done = node::pushed(done, e)?;
                rest = behind;
            }
            None => {
                let (_, behind) = expect_sign(close, rest)?;
                return Ok((done, behind));
            }
        }
    }
    // for the proof: the loop ends before
    Err(ReadStop::TokensLeft(0))
}
