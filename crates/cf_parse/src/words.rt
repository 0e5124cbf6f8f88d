//! Operations that stand first, and their tiers.
ghost use Rattle.std.specs.Prelude.{◌≡◌, ◌≤◌, IfOk, IfSome, Ok, Option, None, Some};
ghost use Rattle.std.specs.List.{list_all};
ghost use Rattle.cf_lex.specs.declared.token.TokenKind.TheVariants.{Word, Sign};
ghost use Rattle.cf_tree.specs.RawView.{raw_tree, number_tree};
ghost use Rattle.cf_reader.specs.Answers.{FirstAnswer, ReadAnswer};
ghost use Rattle.cf_reader.specs.Readers.{at, is, snoc};
ghost use Rattle.cf_parse.specs.Spelling.{under as under_of, op_tier as op_tier_of, rank as rank_of, relation_tier as relation_tier_of, is_upward, is_downward, runs_one_way};
ghost use Rattle.cf_parse.specs.Reading.{in_three, next_op as next_op_of, next_order as next_order_of, second_order, lone_number as lone_number_of, is_divisor as is_divisor_of, divides_by as divides_by_of, number_of, a_sense, shared_named_op as shared_named_op_of, reserved_op as reserved_op_of, op_of_name as op_of_name_of};

use crate::tier::Tier;
use cf_lex::{Token, TokenKind};
use cf_reader::{
    ReadStop, after_sign, after_word, expect_name, literal_at_least, operation, spells,
};
use cf_tree::{BinOp, Edition, Number, Order, Place, Raw, RawNode, Sense};
use std::alloc::Global;

/// The tier next inside.
pub fn under(tier: Tier) -> Tier
    ensures { result ≡ under_of tier }
{
    match tier {
        Tier::Whole => Tier::Imps,
        Tier::Imps => Tier::Ors,
        Tier::Ors => Tier::Ands,
        Tier::Ands => Tier::Cmps,
        Tier::Cmps => Tier::Sums,
        Tier::Sums => Tier::Muls,
        Tier::Muls => Tier::Unary,
        Tier::Unary => Tier::Unary,
    }
}

/// The tier of a relation.
pub fn relation_tier(edition: Edition) -> Tier
    ensures { result ≡ relation_tier_of edition }
{
    match edition {
        Edition::Two => Tier::Ors,
        Edition::Three => Tier::Whole,
    }
}

fn rank(tier: Tier) -> u32
    ensures { result ≡ rank_of tier }
{
    match tier {
        Tier::Whole => 0,
        Tier::Imps => 1,
        Tier::Ors => 2,
        Tier::Ands => 3,
        Tier::Cmps => 4,
        Tier::Sums => 5,
        Tier::Muls => 6,
        Tier::Unary => 7,
    }
}

fn op_tier(op: BinOp) -> Tier
    ensures { result ≡ op_tier_of op }
{
    match op {
        BinOp::Implies => Tier::Imps,
        BinOp::Or => Tier::Ors,
        BinOp::And => Tier::Ands,
        BinOp::Compare(_) => Tier::Cmps,
        BinOp::Subset => Tier::Cmps,
        BinOp::Add => Tier::Sums,
        BinOp::Sub => Tier::Sums,
        BinOp::Union => Tier::Sums,
        BinOp::Diff => Tier::Sums,
        BinOp::Mul => Tier::Muls,
        BinOp::Inter => Tier::Muls,
    }
}

/// The operation with which a tree of depth `d` goes on at a tier, where its parts may have depth
/// `n`, with its place, and the tokens after it.
#[tactic(auto, unfolding(cf_reader::specs::Readers::at, crate::specs::Reading::next_op))]
pub fn next_op(
    edition: Edition,
    tier: Tier,
    n: u32,
    d: u32,
    tokens: &[Token],
) -> Option<((Place, BinOp), &[Token])>
    ensures value { FirstAnswer (λ x. (x.0, x.1.now)) result (at (next_op_of edition tier n d) tokens.now) }
    ensures small { IfSome result (λ x. d ≤ n) }
{
    let (t, rest) = tokens.split_first()?;
    if d > n {
        return None;
    }
    let op = operation(edition, &t.kind)?;
    if rank(op_tier(op)) == rank(tier) {
        Some(((t.place, op), rest))
    } else {
        None
    }
}

fn upward(order: Order) -> bool
    ensures { result ≡ is_upward order }
{
    match order {
        Order::Eq | Order::Lt | Order::Le => true,
        Order::Ne | Order::Gt | Order::Ge => false,
    }
}

fn downward(order: Order) -> bool
    ensures { result ≡ is_downward order }
{
    match order {
        Order::Eq | Order::Gt | Order::Ge => true,
        Order::Ne | Order::Lt | Order::Le => false,
    }
}

fn all_upward(orders: &[Order]) -> bool
    ensures { result ≡ list_all is_upward orders.now }
{
    let mut rest = orders;
    while let Some((order, more)) = rest.split_first() {
        if !upward(*order) {
            return false;
        }
        rest = more;
    }
    true
}

fn all_downward(orders: &[Order]) -> bool
    ensures { result ≡ list_all is_downward orders.now }
{
    let mut rest = orders;
    while let Some((order, more)) = rest.split_first() {
        if !downward(*order) {
            return false;
        }
        rest = more;
    }
    true
}

// Whether a chain of these orders and one more runs one way.
#[tactic(auto, using(crate::proofs::Orders::one_way_more))]
fn may_follow(orders: &[Order], next: Order) -> bool
    ensures { result ≡ runs_one_way (snoc orders.now next) }
{
    (all_upward(orders) && upward(next)) || (all_downward(orders) && downward(next))
}

/// The order with which a chain of edition 3 goes on behind these, with its place, and the tokens after it.
#[tactic(auto, unfolding(cf_reader::specs::Readers::at, crate::specs::Reading::next_order))]
pub fn next_order<'a>(
    orders: &[Order],
    tokens: &'a [Token],
) -> Option<((Place, Order), &'a [Token])>
    ensures { FirstAnswer (λ x. (x.0, x.1.now)) result (at (next_order_of orders.now) tokens.now) }
{
    let (t, rest) = tokens.split_first()?;
    match operation(Edition::Three, &t.kind)? {
        BinOp::Compare(order) if may_follow(orders, order) => Some(((t.place, order), rest)),
        _ => None,
    }
}

/// The order of an operation, and the one with which a chain of edition 3 goes on behind it, with its place, and the tokens after it.
#[tactic(auto, unfolding(cf_reader::specs::Readers::at))]
pub fn after_order(
    edition: Edition,
    op: BinOp,
    tokens: &[Token],
) -> Option<((Order, (Place, Order)), &[Token])>
    ensures { FirstAnswer (λ x. (x.0, x.1.now)) result (at (second_order edition op) tokens.now) }
{
    let BinOp::Compare(order) = op else {
        return None;
    };
    if edition == Edition::Two {
        return None;
    }
    let (next, rest) = next_order(&[order], tokens)?;
    Some(((order, next), rest))
}

// A literal that stands alone, in edition 3 a name too, with its place.
fn lone_number(
    alloc: Global,
    edition: Edition,
    raw: &Raw,
) -> Result<Option<(Place, Number)>, ReadStop>
    ensures { ReadAnswer (λ o. elim o [ None ↦ None | Some x ↦ Some (x.0, number_tree x.1) ]) result (Ok (lone_number_of edition (raw_tree raw.now))) }
{
    match (edition, &raw.node) {
        (_, RawNode::Lit(k)) => Ok(Some((raw.place, Number::Lit(*k)))),
        (Edition::Three, RawNode::Name(x)) => {
            let name = x.try_copy(alloc)?;
            Ok(Some((
                raw.place,
                Number::Name {
                    place: raw.place,
                    name,
                },
            )))
        }
        _ => Ok(None),
    }
}

fn is_divisor(k: &Number) -> bool
    ensures { result ≡ is_divisor_of (number_tree k.now) }
{
    match k {
        Number::Lit(k) => 1 <= *k,
        Number::Name { .. } => true,
    }
}

/// The number that `left` is, a literal of at least 1 or in edition 3 a name, with its place, if the word `divides` stands first,
/// and the tokens after it; the parts may have depth `n`.
#[tactic(auto, unfolding(cf_reader::specs::Readers::at, crate::specs::Reading::divides_by))]
pub fn divides_by<'a>(
    alloc: Global,
    edition: Edition,
    n: u32,
    left: &Raw,
    tokens: &'a [Token],
) -> Result<Option<((Place, Number), &'a [Token])>, ReadStop>
    ensures value { IfOk result (λ o. FirstAnswer (λ x. ((x.0.0, number_tree x.0.1), x.1.now)) o (at (divides_by_of edition n (raw_tree left.now)) tokens.now)) }
    ensures small { IfOk result (λ o. IfSome o (λ x. 1 ≤ n)) }
{
    let Some((_, rest)) = after_word("divides", tokens) else {
        return Ok(None);
    };
    match lone_number(alloc, edition, left)? {
        Some((place, k)) if is_divisor(&k) && 1 <= n => Ok(Some(((place, k), rest))),
        _ => Ok(None),
    }
}

/// A literal of at least 1, or in edition 3 a name, which has to stand first, and the tokens after it.
#[tactic(auto, unfolding(cf_reader::specs::Readers::first, cf_reader::specs::Readers::bind, cf_reader::specs::Readers::pure, cf_reader::specs::Readers::must, cf_reader::specs::Readers::at, crate::specs::Reading::number_of))]
pub fn expect_number(
    alloc: Global,
    edition: Edition,
    tokens: &[Token],
) -> Result<(Number, &[Token]), ReadStop>
    ensures { ReadAnswer (λ x. (number_tree x.0, x.1.now)) result (number_of edition tokens.now) }
{
    if let Some(((_, k), rest)) = literal_at_least(1, tokens) {
        return Ok((Number::Lit(k), rest));
    }
    match edition {
        Edition::Two => Err(ReadStop::TokensLeft(tokens.len())),
        Edition::Three => {
            let ((place, name), rest) = expect_name(alloc, edition, tokens)?;
            Ok((Number::Name { place, name }, rest))
        }
    }
}

/// The place of the word `word` of edition 3, if it stands first, and the tokens after it.
#[tactic(auto, unfolding(cf_reader::specs::Readers::at))]
pub fn after_word_of_three<'a>(
    edition: Edition,
    word: &str,
    tokens: &'a [Token],
) -> Option<(Place, &'a [Token])>
    ensures { FirstAnswer (λ x. (x.0, x.1.now)) result (at (in_three edition (is (Word word.now))) tokens.now) }
{
    match edition {
        Edition::Two => None,
        Edition::Three => after_word(word, tokens),
    }
}

/// The place of the sign `sign` of edition 3, if it stands first, and the tokens after it.
#[tactic(auto, unfolding(cf_reader::specs::Readers::at))]
pub fn after_sign_of_three<'a>(
    edition: Edition,
    sign: &str,
    tokens: &'a [Token],
) -> Option<(Place, &'a [Token])>
    ensures { FirstAnswer (λ x. (x.0, x.1.now)) result (at (in_three edition (is (Sign sign.now))) tokens.now) }
{
    match edition {
        Edition::Two => None,
        Edition::Three => after_sign(sign, tokens),
    }
}

/// The word `minimise` or `maximise` of edition 3 that stands first, with its place, and the tokens after it.
#[tactic(auto, unfolding(cf_reader::specs::Readers::at))]
pub fn after_sense(edition: Edition, tokens: &[Token]) -> Option<((Place, Sense), &[Token])>
    ensures { FirstAnswer (λ x. (x.0, x.1.now)) result (at (in_three edition a_sense) tokens.now) }
{
    if let Some((place, rest)) = after_word_of_three(edition, "minimise", tokens) {
        return Some(((place, Sense::Least), rest));
    }
    let (place, rest) = after_word_of_three(edition, "maximise", tokens)?;
    Some(((place, Sense::Greatest), rest))
}

/// An operation that is written as a word before parentheses.
#[derive(Clone, Copy)]
pub enum NamedOp {
    Card,
    Abs,
    Div,
    Mod,
    Min,
    Max,
}

// The operation of a word that both editions have.
fn shared_named_op(word: &[u8]) -> Option<NamedOp>
    ensures { result ≡ shared_named_op_of word.now }
{
    if spells(word, "card") {
        Some(NamedOp::Card)
    } else if spells(word, "abs") {
        Some(NamedOp::Abs)
    } else if spells(word, "div") {
        Some(NamedOp::Div)
    } else if spells(word, "mod") {
        Some(NamedOp::Mod)
    } else {
        None
    }
}

/// The operation whose word stands first, with its place, and the tokens after it, in language 2, where these words are reserved.
#[tactic(auto, unfolding(cf_reader::specs::Readers::at))]
pub fn reserved_op(edition: Edition, tokens: &[Token]) -> Option<((Place, NamedOp), &[Token])>
    ensures { FirstAnswer (λ x. (x.0, x.1.now)) result (at (reserved_op_of edition) tokens.now) }
{
    if edition == Edition::Three {
        return None;
    }
    let (t, rest) = tokens.split_first()?;
    match &t.kind {
        TokenKind::Word(word) => Some(((t.place, shared_named_op(&word.bytes)?), rest)),
        _ => None,
    }
}

/// The operation that a name is where a parenthesis follows, in edition 3.
pub fn op_of_name(edition: Edition, name: &[u8]) -> Option<NamedOp>
    ensures { result ≡ op_of_name_of edition name.now }
{
    match edition {
        Edition::Two => None,
        Edition::Three => {
            if spells(name, "min") {
                Some(NamedOp::Min)
            } else if spells(name, "max") {
                Some(NamedOp::Max)
            } else {
                shared_named_op(name)
            }
        }
    }
}
