//! What is told of types that do not fit.
ghost use Rattle.std.specs.Prelude.{◌≡◌, ◌++◌, ◌∷◌, [], codes, Some, None, IfOk, OnOk, if◌then◌else◌};
ghost use Rattle.cf_help.specs.Faults.{base_text as base_text_of, more_bases, type_text as type_text_of, asked_found as asked_found_of, two_types as two_types_of, not_one as not_one_of, not_types as not_types_of, not_sides as not_sides_of, not_numbers as not_numbers_of};
ghost use Rattle.std.specs.List.{concat};
ghost use Rattle.cf_tree.specs.declared.raw.BinOp.TheVariants.{Compare};
ghost use Rattle.cf_help.specs.Rows.{or_else};
ghost use Rattle.cf_program.specs.Walk.{side_of, is_one as is_one_of, are_numbers as are_numbers_of};

use crate::pieces::joined;
use cf_tree::{Base, BinOp, NoMemory, Order, Text, same_base, same_bases};
use std::alloc::Global;

/// The word of a base.
pub fn base_text(base: Base) -> &'static [u8]
    ensures { result.now ≡ base_text_of base }
{
    match base {
        Base::Int => b"int".as_slice(),
        Base::Bool => b"bool".as_slice(),
        Base::Set => b"set".as_slice(),
    }
}

// Puts bases, each behind a comma and a space.
fn put_bases(out: &mut Vec<u8>, bases: &[Base]) -> Result<(), NoMemory>
    ensures { OnOk result (out.new.items ≡ out.old.items ++ more_bases bases.now) }
{
    for base in bases {
        out.extend_from_slice(b", ")?;
        out.extend_from_slice(base_text(*base))?;
    }
    Ok(())
}

fn more_text(alloc: Global, bases: &[Base]) -> Result<Text, NoMemory>
    ensures { IfOk result (λ t. t ≡ more_bases bases.now) }
{
    let mut bytes = Vec::new(alloc);
    put_bases(&mut bytes, bases)?;
    Ok(Text { bytes })
}

// Several bases in parentheses.
fn several_text(alloc: Global, first: Base, more: &[Base]) -> Result<Text, NoMemory>
    ensures { IfOk result (λ t. t ≡ concat (codes "(" ∷ base_text_of first ∷ more_bases more.now ∷ codes ")" ∷ [])) }
{
    let more = more_text(alloc, more)?;
    joined(
        alloc,
        &[
            b"(".as_slice(),
            base_text(first),
            &more.bytes,
            b")".as_slice(),
        ],
    )
}

/// A type: its one base, or several in parentheses.
pub fn type_text(alloc: Global, bases: &[Base]) -> Result<Text, NoMemory>
    ensures { IfOk result (λ t. t ≡ type_text_of bases.now) }
{
    match bases {
        [] => Text::from_str(alloc, "()"),
        [base] => Ok(Text {
            bytes: Vec::from_slice(alloc, base_text(*base))?,
        }),
        [base, more @ ..] => several_text(alloc, *base, more),
    }
}

/// What is asked, and what is found.
pub fn asked_found(alloc: Global, asked: &[u8], bases: &[Base]) -> Result<Text, NoMemory>
    ensures { IfOk result (λ t. t ≡ asked_found_of asked.now bases.now) }
{
    let found = type_text(alloc, bases)?;
    joined(
        alloc,
        &[
            b"asked ".as_slice(),
            asked,
            b", found ".as_slice(),
            &found.bytes,
        ],
    )
}

fn two_types(alloc: Global, of: &[u8], left: &[Base], right: &[Base]) -> Result<Text, NoMemory>
    ensures { IfOk result (λ t. t ≡ two_types_of of.now left.now right.now) }
{
    let left = type_text(alloc, left)?;
    let right = type_text(alloc, right)?;
    joined(
        alloc,
        &[
            of,
            b" ".as_slice(),
            &left.bytes,
            b" and ".as_slice(),
            &right.bytes,
        ],
    )
}

fn is_one(base: Base, bases: &[Base]) -> bool
    ensures { result ≡ is_one_of base bases.now }
{
    same_bases(bases, &[base])
}

/// What is told of a part that is no value of this one base.
#[tactic(auto, unfolding(crate::specs::Faults::not_one))]
pub fn not_one(alloc: Global, base: Base, bases: &[Base]) -> Result<Option<Text>, NoMemory>
    ensures { IfOk result (λ t. t ≡ not_one_of base bases.now) }
{
    if is_one(base, bases) {
        Ok(None)
    } else {
        let text = asked_found(alloc, base_text(base), bases)?;
        Ok(Some(text))
    }
}

/// What is told of parts that are to have one type.
pub fn not_types(
    alloc: Global,
    of: &[u8],
    left: &[Base],
    right: &[Base],
) -> Result<Option<Text>, NoMemory>
    ensures { IfOk result (λ t. t ≡ not_types_of of.now left.now right.now) }
{
    if same_bases(right, left) {
        Ok(None)
    } else {
        let text = two_types(alloc, of, left, right)?;
        Ok(Some(text))
    }
}

// The one base that an operation asks of both sides.
fn side(op: BinOp) -> Option<Base>
    ensures { result ≡ side_of op }
{
    match op {
        BinOp::Add | BinOp::Sub | BinOp::Mul => Some(Base::Int),
        BinOp::And | BinOp::Or | BinOp::Implies => Some(Base::Bool),
        BinOp::Union | BinOp::Inter | BinOp::Diff | BinOp::Subset => Some(Base::Set),
        BinOp::Compare(order) => ordered_side(order),
    }
}

fn ordered_side(order: Order) -> Option<Base>
    ensures { result ≡ side_of (Compare order) }
{
    match order {
        Order::Eq | Order::Ne => None,
        Order::Lt | Order::Le | Order::Gt | Order::Ge => Some(Base::Int),
    }
}

// The first of two texts, where there is one.
fn both_sides(
    alloc: Global,
    base: Base,
    left: &[Base],
    right: &[Base],
) -> Result<Option<Text>, NoMemory>
    ensures { IfOk result (λ t. t ≡ or_else (not_one_of base left.now) (not_one_of base right.now)) }
{
    match not_one(alloc, base, left)? {
        Some(text) => Ok(Some(text)),
        None => not_one(alloc, base, right),
    }
}

fn same_sides(alloc: Global, left: &[Base], right: &[Base]) -> Result<Option<Text>, NoMemory>
    ensures { IfOk result (λ t. t ≡ not_sides_of None left.now right.now) }
{
    if left.len() == 1 && same_bases(left, right) {
        Ok(None)
    } else {
        let text = two_types(alloc, b"sides", left, right)?;
        Ok(Some(text))
    }
}

/// What is told of the sides of an operation.
pub fn not_sides(
    alloc: Global,
    op: BinOp,
    left: &[Base],
    right: &[Base],
) -> Result<Option<Text>, NoMemory>
    ensures { IfOk result (λ t. t ≡ not_sides_of (side_of op) left.now right.now) }
{
    match side(op) {
        Some(base) => both_sides(alloc, base, left, right),
        None => same_sides(alloc, left, right),
    }
}

fn are_numbers(bases: &[Base]) -> bool
    ensures { result ≡ are_numbers_of bases.now }
{
    for base in bases {
        if !same_base(*base, Base::Int) {
            return false;
        }
    }
    true
}

/// What is told of an objective that is no number and no tuple of numbers.
#[tactic(auto, unfolding(crate::specs::Faults::not_numbers))]
pub fn not_numbers(alloc: Global, bases: &[Base]) -> Result<Option<Text>, NoMemory>
    ensures { IfOk result (λ t. t ≡ not_numbers_of bases.now) }
{
    if are_numbers(bases) {
        Ok(None)
    } else {
        let text = asked_found(alloc, b"numbers", bases)?;
        Ok(Some(text))
    }
}
