//! Makes codes of their parts.
ghost use Rattle.std.specs.Prelude.{◌≡◌, map, Ok};
ghost use Rattle.cf_tree.specs.CodeView.{code_tree, item_tree};
ghost use Rattle.cf_reader.specs.Answers.{ReadAnswer};
ghost use Rattle.cf_target.specs.Reading.{unary_tree, division_tree, extreme_tree, many_tree, two_tree, step_tree};

use crate::form::{Division, Extreme, Many, Step, Two, Unary};
use cf_reader::ReadStop;
use cf_tree::{Code, Item};
use std::alloc::Global;

/// A form of one part.
pub fn unary(form: Unary, code: Box<Code>) -> Code
    ensures { code_tree result ≡ unary_tree form (code_tree code.value) }
{
    match form {
        Unary::Neg => Code::Neg(code),
        Unary::Not => Code::Not(code),
        Unary::Card => Code::Card(code),
    }
}

/// A form of a part and a literal.
pub fn division(form: Division, of: Box<Code>, k: i128) -> Code
    ensures { code_tree result ≡ division_tree form (code_tree of.value) k }
{
    match form {
        Division::Div => Code::Div { of, k },
        Division::Mod => Code::Mod { of, k },
    }
}

/// A form of one part or more.
pub fn extreme(form: Extreme, codes: Vec<Code>) -> Code
    ensures { code_tree result ≡ extreme_tree form (map code_tree codes.items) }
{
    match form {
        Extreme::Min => Code::Min(codes),
        Extreme::Max => Code::Max(codes),
    }
}

/// A form of two parts or more.
pub fn many(form: Many, codes: Vec<Code>) -> Code
    ensures { code_tree result ≡ many_tree form (map code_tree codes.items) }
{
    match form {
        Many::Sum => Code::Sum(codes),
        Many::Union => Code::Union(codes),
        Many::Inter => Code::Inter(codes),
    }
}

/// A form of two parts.
pub fn two(form: Two, left: Box<Code>, right: Box<Code>) -> Code
    ensures { code_tree result ≡ two_tree form (code_tree left.value) (code_tree right.value) }
{
    match form {
        Two::Sub => Code::Sub(left, right),
        Two::Mul => Code::Mul(left, right),
        Two::And => Code::And(left, right),
        Two::Or => Code::Or(left, right),
        Two::Diff => Code::Diff(left, right),
        Two::Subset => Code::Subset(left, right),
        Two::Compare(order) => Code::Compare { order, left, right },
    }
}

/// A step of an arm.
pub fn step(form: Step, code: Code) -> Item
    ensures { item_tree result ≡ step_tree form (code_tree code) }
{
    match form {
        Step::Let => Item::Let(code),
        Step::Need => Item::Need(code),
    }
}

/// The code in a box.
pub fn boxed(alloc: Global, code: Code) -> Result<Box<Code>, ReadStop>
    ensures { ReadAnswer (λ x. code_tree x.value) result (Ok (code_tree code)) }
{
    Ok(Box::new(alloc, code)?)
}
