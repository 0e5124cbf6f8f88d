//! Tests on the bases of expressions.
ghost use Rattle.std.specs.Prelude.{◌≡◌, IfOk, map};
ghost use Rattle.cf_tree.specs.Params.{bases_of};
ghost use Rattle.cf_program.specs.Walk.{is_one as is_one_of, all_are as all_are_of, all_are_single as all_are_single_of, are_asked as are_asked_of, are_numbers as are_numbers_of, all_have as all_have_of, all_same as all_same_of, odd_link as odd_link_of, joined as joined_of, first_of, side_of as side_base, sides_fit as sides_fit_of, result_of as result_base, may_be_output as may_be_output_of};
ghost use Rattle.cf_tree.specs.RawView.{raw_tree};
ghost use Rattle.cf_tree.specs.Typing.{one as one_of};
ghost use Rattle.cf_type.specs.FormParts.{asked as asked_of, given as given_of};

use cf_program::TypeFault;
use cf_tree::{
    Base, BinOp, Edition, NoMemory, Order, Param, Place, Raw, RawNode, same_base, same_bases,
};
use std::alloc::Global;

/// The one base.
pub fn one(alloc: Global, base: Base) -> Result<Vec<Base>, NoMemory>
    ensures { IfOk result (λ bs. bs.items ≡ one_of base) }
{
    let mut bases = Vec::new(alloc);
    bases.push(base)?;
    Ok(bases)
}

/// Whether an expression has this one base.
pub fn is_one(base: Base, bases: &[Base]) -> bool
    ensures { result ≡ is_one_of base bases.now }
{
    same_bases(bases, &[base])
}

/// Whether each of several expressions has this one base.
pub fn all_are(base: Base, lists: &[Vec<Base>]) -> bool
    ensures { result ≡ all_are_of base (map (λ bs. bs.items) lists.now) }
{
    for bases in lists {
        if !is_one(base, bases) {
            return false;
        }
    }
    true
}

/// Whether each has one base.
pub fn all_are_single(lists: &[Vec<Base>]) -> bool
    ensures { result ≡ all_are_single_of (map (λ bs. bs.items) lists.now) }
{
    for bases in lists {
        if bases.len() != 1 {
            return false;
        }
    }
    true
}

/// Whether each has the one base that is asked of it.
pub fn are_asked(lists: &[Vec<Base>], params: &[Param]) -> bool
    ensures { result ≡ are_asked_of (map (λ bs. bs.items) lists.now) (bases_of params.now) }
{
    let mut rest = lists;
    let mut asked = params;
    while let Some((bases, more)) = rest.split_first() {
        match asked.split_first() {
            None => return false,
            Some((param, others)) => {
                if !is_one(param.base, bases) {
                    return false;
                }
                rest = more;
                asked = others;
            }
        }
    }
    asked.is_empty()
}

/// Whether a value is one number or several.
pub fn are_numbers(bases: &[Base]) -> bool
    ensures { result ≡ are_numbers_of bases.now }
{
    for base in bases {
        if !same_base(*base, Base::Int) {
            return false;
        }
    }
    true
}

// Whether each has these bases.
fn all_have(bases: &[Base], lists: &[Vec<Base>]) -> bool
    ensures { result ≡ all_have_of bases.now (map (λ bs. bs.items) lists.now) }
{
    for other in lists {
        if !same_bases(other, bases) {
            return false;
        }
    }
    true
}

/// Whether all have the same bases.
pub fn all_same(lists: &[Vec<Base>]) -> bool
    ensures { result ≡ all_same_of (map (λ bs. bs.items) lists.now) }
{
    match lists.split_first() {
        None => true,
        Some((bases, more)) => all_have(bases, more),
    }
}

/// What is wrong with the sides of the orders of a chain: each has to be a number.
pub fn odd_link(lists: &[Vec<Base>], places: &[Place]) -> Option<TypeFault>
    ensures { result ≡ odd_link_of (map (λ bs. bs.items) lists.now) places.now }
{
    let mut rest = lists;
    let mut later = places;
    while let Some((left, more)) = rest.split_first() {
        match more.split_first() {
            None => return None,
            Some((right, _)) => match later.split_first() {
                None => return None,
                Some((place, others)) => {
                    if !is_one(Base::Int, left) || !is_one(Base::Int, right) {
                        return Some(TypeFault::Mismatch(*place));
                    }
                    rest = more;
                    later = others;
                }
            },
        }
    }
    None
}

/// The bases of all, in a row.
pub fn joined(alloc: Global, lists: &[Vec<Base>]) -> Result<Vec<Base>, NoMemory>
    ensures { IfOk result (λ bs. bs.items ≡ joined_of (map (λ bs. bs.items) lists.now)) }
{
    let mut all = Vec::new(alloc);
    for bases in lists {
        all.extend_from_slice(bases)?;
    }
    Ok(all)
}

/// The bases of the first.
pub fn first(alloc: Global, lists: &[Vec<Base>]) -> Result<Vec<Base>, NoMemory>
    ensures { IfOk result (λ bs. bs.items ≡ first_of (map (λ bs. bs.items) lists.now)) }
{
    match lists.split_first() {
        None => Ok(Vec::new(alloc)),
        Some((bases, _)) => Ok(Vec::from_slice(alloc, bases)?),
    }
}

/// The base that a form over one part asks of it.
pub fn asked(raw: &Raw) -> Base
    ensures { result ≡ asked_of (raw_tree raw.now) }
{
    match &raw.node {
        RawNode::Not(_) => Base::Bool,
        RawNode::Card(_) => Base::Set,
        _ => Base::Int,
    }
}

/// The base of a form over one part.
pub fn given(raw: &Raw) -> Base
    ensures { result ≡ given_of (raw_tree raw.now) }
{
    match &raw.node {
        RawNode::Not(_) | RawNode::Divides { .. } => Base::Bool,
        _ => Base::Int,
    }
}

// The one base that an operation asks of both sides.
fn side(op: BinOp) -> Option<Base>
    ensures { result ≡ side_base op }
{
    match op {
        BinOp::Add | BinOp::Sub | BinOp::Mul => Some(Base::Int),
        BinOp::And | BinOp::Or | BinOp::Implies => Some(Base::Bool),
        BinOp::Union | BinOp::Inter | BinOp::Diff | BinOp::Subset => Some(Base::Set),
        BinOp::Compare(order) => match order {
            Order::Eq | Order::Ne => None,
            Order::Lt | Order::Le | Order::Gt | Order::Ge => Some(Base::Int),
        },
    }
}

/// Whether the sides of an operation have the bases that it asks.
pub fn sides_fit(op: BinOp, left: &[Base], right: &[Base]) -> bool
    ensures { result ≡ sides_fit_of (side_base op) left.now right.now }
{
    match side(op) {
        Some(base) => is_one(base, left) && is_one(base, right),
        None => left.len() == 1 && same_bases(left, right),
    }
}

/// The base of an operation.
pub fn result_of(op: BinOp) -> Base
    ensures { result ≡ result_base op }
{
    match op {
        BinOp::Add | BinOp::Sub | BinOp::Mul => Base::Int,
        BinOp::And | BinOp::Or | BinOp::Subset | BinOp::Implies => Base::Bool,
        BinOp::Union | BinOp::Inter | BinOp::Diff => Base::Set,
        BinOp::Compare(_) => Base::Bool,
    }
}

/// Whether an output of this edition may have this base.
pub fn may_be_output(edition: Edition, base: Base) -> bool
    ensures { result ≡ may_be_output_of edition base }
{
    match edition {
        Edition::Two => match base {
            Base::Int => true,
            Base::Bool => false,
            Base::Set => true,
        },
        Edition::Three => true,
    }
}
