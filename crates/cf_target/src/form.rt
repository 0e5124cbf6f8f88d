//! Forms of code that one word or sign tells.
ghost use Rattle.std.specs.Prelude.{◌≡◌};
ghost use Rattle.cf_reader.specs.Answers.{FirstAnswer};
ghost use Rattle.cf_reader.specs.Readers.{at, is};
ghost use Rattle.cf_target.specs.Reading.{a_unary, a_division, an_extreme, a_step, an_operation, operation_of, many_kind};

use cf_lex::{Token, TokenKind};
use cf_reader::{after_sign, after_word, operation, spells};
use cf_tree::{BinOp, Edition, Order, Place};

/// Forms of one part.
#[derive(Clone, Copy)]
pub enum Unary {
    Neg,
    Not,
    Card,
}

/// Forms of a part and a literal.
#[derive(Clone, Copy)]
pub enum Division {
    Div,
    Mod,
}

/// Forms of one part or more.
#[derive(Clone, Copy)]
pub enum Extreme {
    Min,
    Max,
}

/// Steps of an arm.
#[derive(Clone, Copy)]
pub enum Step {
    Let,
    Need,
}

/// Operations of two parts or more.
#[derive(Clone, Copy)]
pub enum Many {
    Sum,
    Union,
    Inter,
}

/// Operations of two parts.
#[derive(Clone, Copy)]
pub enum Two {
    Sub,
    Mul,
    And,
    Or,
    Diff,
    Subset,
    Compare(Order),
}

/// Operations, by how many parts they may have.
#[derive(Clone, Copy)]
pub enum Operation {
    Many(Many),
    Two(Two),
}

/// The form of one part whose word stands first, and the tokens after it.
#[tactic(auto, unfolding(cf_reader::specs::Readers::at))]
pub fn after_unary(tokens: &[Token]) -> Option<(Unary, &[Token])>
    ensures { FirstAnswer (λ x. (x.0, x.1.now)) result (at a_unary tokens.now) }
{
    let (t, rest) = tokens.split_first()?;
    let TokenKind::Word(word) = &t.kind else {
        return None;
    };
    if spells(&word.bytes, "neg") {
        Some((Unary::Neg, rest))
    } else if spells(&word.bytes, "not") {
        Some((Unary::Not, rest))
    } else if spells(&word.bytes, "card") {
        Some((Unary::Card, rest))
    } else {
        None
    }
}

/// The division whose word stands first, and the tokens after it.
#[tactic(auto, unfolding(cf_reader::specs::Readers::at))]
pub fn after_division(tokens: &[Token]) -> Option<(Division, &[Token])>
    ensures { FirstAnswer (λ x. (x.0, x.1.now)) result (at a_division tokens.now) }
{
    let (t, rest) = tokens.split_first()?;
    let TokenKind::Word(word) = &t.kind else {
        return None;
    };
    if spells(&word.bytes, "div") {
        Some((Division::Div, rest))
    } else if spells(&word.bytes, "mod") {
        Some((Division::Mod, rest))
    } else {
        None
    }
}

/// The extreme whose word stands first, and the tokens after it.
#[tactic(auto, unfolding(cf_reader::specs::Readers::at))]
pub fn after_extreme(tokens: &[Token]) -> Option<(Extreme, &[Token])>
    ensures { FirstAnswer (λ x. (x.0, x.1.now)) result (at an_extreme tokens.now) }
{
    let (t, rest) = tokens.split_first()?;
    let TokenKind::Word(word) = &t.kind else {
        return None;
    };
    if spells(&word.bytes, "min") {
        Some((Extreme::Min, rest))
    } else if spells(&word.bytes, "max") {
        Some((Extreme::Max, rest))
    } else {
        None
    }
}

/// The step of an arm whose word stands first, and the tokens after it.
#[tactic(auto, unfolding(cf_reader::specs::Readers::at))]
pub fn after_step(tokens: &[Token]) -> Option<(Step, &[Token])>
    ensures { FirstAnswer (λ x. (x.0, x.1.now)) result (at a_step tokens.now) }
{
    let (t, rest) = tokens.split_first()?;
    let TokenKind::Word(word) = &t.kind else {
        return None;
    };
    if spells(&word.bytes, "let") {
        Some((Step::Let, rest))
    } else if spells(&word.bytes, "need") {
        Some((Step::Need, rest))
    } else {
        None
    }
}

/// How many parts an operation may have.
pub fn parts(op: BinOp) -> Operation
    ensures { result ≡ operation_of op }
{
    match op {
        BinOp::Add => Operation::Many(Many::Sum),
        BinOp::Union => Operation::Many(Many::Union),
        BinOp::Inter => Operation::Many(Many::Inter),
        BinOp::Sub => Operation::Two(Two::Sub),
        BinOp::Mul => Operation::Two(Two::Mul),
        BinOp::And => Operation::Two(Two::And),
        BinOp::Or => Operation::Two(Two::Or),
        BinOp::Diff => Operation::Two(Two::Diff),
        BinOp::Subset => Operation::Two(Two::Subset),
        // which language 2 does not have
        BinOp::Implies => Operation::Two(Two::Or),
        BinOp::Compare(order) => Operation::Two(Two::Compare(order)),
    }
}

/// The operation that stands first, if there may be one, and the tokens after it.
#[tactic(auto, unfolding(cf_reader::specs::Readers::at))]
pub fn after_operator(may: bool, tokens: &[Token]) -> Option<(BinOp, &[Token])>
    ensures { FirstAnswer (λ x. (x.0, x.1.now)) result (at (an_operation may) tokens.now) }
{
    let (t, rest) = tokens.split_first()?;
    if !may {
        return None;
    }
    let op = operation(Edition::Two, &t.kind)?;
    Some((op, rest))
}

/// The place of the operation `many`, if it stands first, and the tokens after it.
pub fn after_many(many: Many, tokens: &[Token]) -> Option<(Place, &[Token])>
    ensures { FirstAnswer (λ x. (x.0, x.1.now)) result (at (is (many_kind many)) tokens.now) }
{
    match many {
        Many::Sum => after_sign("+", tokens),
        Many::Union => after_word("union", tokens),
        Many::Inter => after_word("inter", tokens),
    }
}
