//! The operations that both grammars write.
ghost use Rattle.std.specs.Prelude.{◌≡◌};
ghost use Rattle.cf_reader.specs.Operations.{word_op as word_op_of, compare_op as compare_op_of, sign_op_of_two, sign_op as sign_op_of, op_of};

use crate::tokens::spells;
use cf_lex::TokenKind;
use cf_tree::{BinOp, Edition, Order};

fn word_op(word: &[u8]) -> Option<BinOp>
    ensures { result ≡ word_op_of word.now }
{
    if spells(word, "union") {
        Some(BinOp::Union)
    } else if spells(word, "diff") {
        Some(BinOp::Diff)
    } else if spells(word, "inter") {
        Some(BinOp::Inter)
    } else if spells(word, "subset") {
        Some(BinOp::Subset)
    } else {
        None
    }
}

fn compare_op(sign: &[u8]) -> Option<BinOp>
    ensures { result ≡ compare_op_of sign.now }
{
    if spells(sign, "==") {
        Some(BinOp::Compare(Order::Eq))
    } else if spells(sign, "!=") {
        Some(BinOp::Compare(Order::Ne))
    } else if spells(sign, "<") {
        Some(BinOp::Compare(Order::Lt))
    } else if spells(sign, "<=") {
        Some(BinOp::Compare(Order::Le))
    } else if spells(sign, ">") {
        Some(BinOp::Compare(Order::Gt))
    } else if spells(sign, ">=") {
        Some(BinOp::Compare(Order::Ge))
    } else {
        None
    }
}

fn sign_op(edition: Edition, sign: &[u8]) -> Option<BinOp>
    ensures { result ≡ sign_op_of edition sign.now }
{
    match edition {
        Edition::Two => shared_sign_op(sign),
        Edition::Three => if spells(sign, "==>") {
            Some(BinOp::Implies)
        } else {
            shared_sign_op(sign)
        },
    }
}

// The operation of a sign that both editions have.
fn shared_sign_op(sign: &[u8]) -> Option<BinOp>
    ensures { result ≡ sign_op_of_two sign.now }
{
    if spells(sign, "||") {
        Some(BinOp::Or)
    } else if spells(sign, "&&") {
        Some(BinOp::And)
    } else if spells(sign, "+") {
        Some(BinOp::Add)
    } else if spells(sign, "-") {
        Some(BinOp::Sub)
    } else if spells(sign, "*") {
        Some(BinOp::Mul)
    } else {
        compare_op(sign)
    }
}

/// The operation of a word or sign, if it has one in this edition. Targets have those of language 2.
#[tactic(auto, unfolding(crate::specs::Operations::op_of))]
pub fn operation(edition: Edition, kind: &TokenKind) -> Option<BinOp>
    ensures { result ≡ op_of edition kind.now }
{
    match kind {
        TokenKind::Literal(_) => None,
        TokenKind::Word(word) => word_op(&word.bytes),
        TokenKind::Sign(sign) => sign_op(edition, &sign.bytes),
    }
}
