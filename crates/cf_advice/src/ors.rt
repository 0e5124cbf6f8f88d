//! The `||` that stand in a relation under `&&` alone.
ghost use Rattle.std.specs.Prelude.{◌≡◌, ◌++◌, ◌∷◌, [], Some, IfOk, IfSome, OnOk, map};
ghost use Rattle.cf_tree.specs.RawView.{given_tree, raw_tree};
ghost use Rattle.cf_tree.specs.RelView.{rel_tree};
ghost use Rattle.cf_advice.specs.Ors.{and_side as the_and_side, is_truth as the_is_truth, or_side as the_or_side, ors_in, ors_of as the_ors_of};
ghost use Rattle.cf_advice.specs.Ors.{part_at as the_part_at, path_behind as the_path_behind, paths_in, side_of as the_side_of, some_truth as the_some_truth};
ghost use Rattle.cf_advice.specs.OrView.{branch_path, or_tree};

use cf_tree::{Base, BinOp, NoMemory, Param, Place, Raw, RawGiven, RawNode, Rel};
use std::alloc::Global;

/// A side of an `&&` or of an `||`.
#[derive(Clone, Copy, Debug, PartialEq, Eq)]
pub enum Side {
    LeftOfAnd,
    RightOfAnd,
    LeftOfOr,
    RightOfOr,
}

/// A branch of an `||`: the sides that lead to it from the top of the relation of its choose, behind its condition.
#[derive(Drop)]
pub struct OrBranch {
    pub path: Vec<Side>,
}

/// An `||` in the relation of a choose, and its branches in order.
#[derive(Drop)]
pub struct Or {
    pub place: Place,
    pub branches: Vec<OrBranch>,
}

// ---- as it is written
/// The `||` of the relation of a choose with these outputs and hidden ones under `&&` alone. None are told where some
/// are truth values.
///
/// # Errors
/// `NoMemory` where memory ran out.
pub(crate) fn ors_of(
    alloc: Global,
    outputs: &[Param],
    hidden: &[Param],
    given: &RawGiven,
    rel: &Raw,
) -> Result<Vec<Or>, NoMemory>
    ensures { IfOk result (λ ors. map or_tree ors.items ≡ the_ors_of outputs.now hidden.now (given_tree given.now) (raw_tree rel.now)) }
{
    let mut ors = Vec::new(alloc);
    if some_truth(outputs) || some_truth(hidden) {
        return Ok(ors);
    }
    let path = path_behind(alloc, given)?;
    put_ors(alloc, &mut ors, &path, rel)?;
    Ok(ors)
}

// Whether a truth value is among these.
fn some_truth(params: &[Param]) -> bool
    ensures { result ≡ the_some_truth params.now }
{
    for param in params {
        if is_truth(param.base) {
            return true;
        }
    }
    false
}

fn is_truth(base: Base) -> bool
    ensures { result ≡ the_is_truth base }
{
    match base {
        Base::Bool => true,
        Base::Int | Base::Set => false,
    }
}

// The sides that lead to the relation behind this condition.
fn path_behind(alloc: Global, given: &RawGiven) -> Result<Vec<Side>, NoMemory>
    ensures { IfOk result (λ path. path.items ≡ the_path_behind (given_tree given.now)) }
{
    match given {
        RawGiven::Always => Ok(Vec::new(alloc)),
        RawGiven::That { .. } => Ok(Vec::from_slice(alloc, &[Side::RightOfAnd])?),
    }
}

// Adds those of what is reached so.
fn put_ors(alloc: Global, out: &mut Vec<Or>, path: &[Side], raw: &Raw) -> Result<(), NoMemory>
    ensures { OnOk result (map or_tree out.new.items ≡ map or_tree out.old.items ++ ors_in path.now (raw_tree raw.now)) }
{
    match &raw.node {
        RawNode::Group(a) => put_ors(alloc, out, path, a),
        RawNode::Binary { op, left, right } => match op {
            BinOp::And => {
                let to_left = longer(alloc, path, Side::LeftOfAnd)?;
                put_ors(alloc, out, &to_left, left)?;
                let to_right = longer(alloc, path, Side::RightOfAnd)?;
                put_ors(alloc, out, &to_right, right)?;
                Ok(())
            }
            BinOp::Or => put_or(alloc, out, raw.place, path, raw),
            BinOp::Add
            | BinOp::Sub
            | BinOp::Mul
            | BinOp::Union
            | BinOp::Inter
            | BinOp::Diff
            | BinOp::Subset
            | BinOp::Implies
            | BinOp::Compare(_) => Ok(()),
        },
        RawNode::Lit(_)
        | RawNode::Truth(_)
        | RawNode::Name(_)
        | RawNode::SetOf(_)
        | RawNode::Tuple(_)
        | RawNode::Neg(_)
        | RawNode::Not(_)
        | RawNode::Abs(_)
        | RawNode::Chain { .. }
        | RawNode::Min(_)
        | RawNode::Max(_)
        | RawNode::Divides { .. }
        | RawNode::Div { .. }
        | RawNode::Mod { .. }
        | RawNode::Card(_)
        | RawNode::Call { .. }
        | RawNode::If { .. }
        | RawNode::Let { .. }
        | RawNode::Choose { .. }
        | RawNode::Match { .. } => Ok(()),
    }
}

// Adds the `||` of this place that is reached so.
fn put_or(
    alloc: Global,
    out: &mut Vec<Or>,
    place: Place,
    path: &[Side],
    raw: &Raw,
) -> Result<(), NoMemory>
    ensures { OnOk result (map or_tree out.new.items
        ≡ map or_tree out.old.items ++ (record { place = place; branches = paths_in path.now (raw_tree raw.now) }) ∷ []) }
{
    let mut branches = Vec::new(alloc);
    put_branches(alloc, &mut branches, path, raw)?;
    out.push(Or { place, branches })?;
    Ok(())
}

// Adds the branches of what is reached so.
fn put_branches(
    alloc: Global,
    out: &mut Vec<OrBranch>,
    path: &[Side],
    raw: &Raw,
) -> Result<(), NoMemory>
    ensures { OnOk result (map branch_path out.new.items ≡ map branch_path out.old.items ++ paths_in path.now (raw_tree raw.now)) }
{
    match &raw.node {
        RawNode::Group(a) => put_branches(alloc, out, path, a),
        RawNode::Binary { op, left, right } => match op {
            BinOp::Or => {
                let to_left = longer(alloc, path, Side::LeftOfOr)?;
                put_branches(alloc, out, &to_left, left)?;
                let to_right = longer(alloc, path, Side::RightOfOr)?;
                put_branches(alloc, out, &to_right, right)?;
                Ok(())
            }
            BinOp::Add
            | BinOp::Sub
            | BinOp::Mul
            | BinOp::And
            | BinOp::Union
            | BinOp::Inter
            | BinOp::Diff
            | BinOp::Subset
            | BinOp::Implies
            | BinOp::Compare(_) => put_branch(alloc, out, path),
        },
        RawNode::Lit(_)
        | RawNode::Truth(_)
        | RawNode::Name(_)
        | RawNode::SetOf(_)
        | RawNode::Tuple(_)
        | RawNode::Neg(_)
        | RawNode::Not(_)
        | RawNode::Abs(_)
        | RawNode::Chain { .. }
        | RawNode::Min(_)
        | RawNode::Max(_)
        | RawNode::Divides { .. }
        | RawNode::Div { .. }
        | RawNode::Mod { .. }
        | RawNode::Card(_)
        | RawNode::Call { .. }
        | RawNode::If { .. }
        | RawNode::Let { .. }
        | RawNode::Choose { .. }
        | RawNode::Match { .. } => put_branch(alloc, out, path),
    }
}

fn put_branch(alloc: Global, out: &mut Vec<OrBranch>, path: &[Side]) -> Result<(), NoMemory>
    ensures { OnOk result (map branch_path out.new.items ≡ map branch_path out.old.items ++ path.now ∷ []) }
{
    let path = Vec::from_slice(alloc, path)?;
    out.push(OrBranch { path })?;
    Ok(())
}

// The sides, and one more behind them.
fn longer(alloc: Global, path: &[Side], side: Side) -> Result<Vec<Side>, NoMemory>
    ensures { IfOk result (λ all. all.items ≡ path.now ++ side ∷ []) }
{
    let mut all = Vec::from_slice(alloc, path)?;
    all.push(side)?;
    Ok(all)
}

// ---- in a relation
/// The part of a relation to which these sides lead.
pub fn part_at<'a>(rel: &'a Rel, path: &[Side]) -> Option<&'a Rel>
    ensures { IfSome result (λ part. the_part_at path.now (rel_tree rel.now) ≡ Some (rel_tree part.now)) }
{
    let mut part = rel;
    let mut rest = path;
    while let Some((side, more)) = rest.split_first() {
        match side_of(part, *side) {
            Some(reached) => part = reached,
            None => return None,
        }
        rest = more;
    }
    Some(part)
}

fn side_of(rel: &Rel, side: Side) -> Option<&Rel>
    ensures { IfSome result (λ part. the_side_of side (rel_tree rel.now) ≡ Some (rel_tree part.now)) }
{
    match rel {
        Rel::And(p, q) => and_side(p, q, side),
        Rel::Or(p, q) => or_side(p, q, side),
        Rel::True
        | Rel::False
        | Rel::Compare { .. }
        | Rel::SameSet(_, _)
        | Rel::OtherSet(_, _)
        | Rel::Subset(_, _)
        | Rel::Divides { .. }
        | Rel::Not(_) => None,
    }
}

fn and_side<'a>(left: &'a Rel, right: &'a Rel, side: Side) -> Option<&'a Rel>
    ensures { IfSome result (λ part. the_and_side side (rel_tree left.now) (rel_tree right.now) ≡ Some (rel_tree part.now)) }
{
    match side {
        Side::LeftOfAnd => Some(left),
        Side::RightOfAnd => Some(right),
        Side::LeftOfOr | Side::RightOfOr => None,
    }
}

fn or_side<'a>(left: &'a Rel, right: &'a Rel, side: Side) -> Option<&'a Rel>
    ensures { IfSome result (λ part. the_or_side side (rel_tree left.now) (rel_tree right.now) ≡ Some (rel_tree part.now)) }
{
    match side {
        Side::LeftOfOr => Some(left),
        Side::RightOfOr => Some(right),
        Side::LeftOfAnd | Side::RightOfAnd => None,
    }
}
