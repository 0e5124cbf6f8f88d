//! Relations joined by `&&` or `||`, as trees of halves.
ghost use Rattle.std.specs.Prelude.{◌≡◌, IfOk, map, length, ◌≤◌, []};
ghost use Rattle.cf_tree.specs.RelTree.{rel_and, rel_or, rel_not};
ghost use Rattle.cf_tree.specs.RelView.{rel_tree};
ghost use Rattle.cf_form.specs.Joined.{joined_of, both_of, signed_of};

use cf_tree::{NoMemory, Rel, without};
use std::alloc::Global;

/// Whether all of some relations hold, or some of them does.
#[derive(Clone, Copy)]
pub enum Join {
    All,
    Some,
}

/// Whether a relation stands as it is, or its negation.
#[derive(Clone, Copy)]
pub enum Sign {
    Holds,
    Fails,
}

/// Which of two relations stands for the two joined.
#[derive(Clone, Copy)]
pub enum Pick {
    First,
    Second,
    Both,
}

/// The relations joined, the first half of them to the left.
#[tactic(auto, using(crate::proofs::HalfSteps::split_joined))]
pub(crate) fn joined(alloc: Global, join: Join, parts: Vec<Rel>) -> Result<Box<Rel>, NoMemory>
    ensures { IfOk result (λ r. rel_tree r.value ≡ joined_of join (map rel_tree parts.items)) }
{
    let mut first = parts;
    let half = first.len() / 2;
    if half == 0 {
        return at_most_one(alloc, join, first);
    }
    match first.split_off(half) {
        Ok(rest) => match joined(alloc, join, first) {
            Ok(left) => both(alloc, join, left, joined(alloc, join, rest)?),
            Err(fault) => Err(without(rest, fault)),
        },
        Err(_) => Err(without(first, NoMemory)),
    }
}

#[tactic(auto, using(crate::proofs::HalfSteps::at_most_one))]
fn at_most_one(alloc: Global, join: Join, parts: Vec<Rel>) -> Result<Box<Rel>, NoMemory>
    requires { length parts.items ≤ 1 }
    ensures { IfOk result (λ r. rel_tree r.value ≡ joined_of join (map rel_tree parts.items)) }
{
    let mut parts = parts;
    match parts.pop() {
        Some(part) => Ok(Box::new(alloc, part)?),
        None => Ok(Box::new(alloc, empty(join))?),
    }
}

fn empty(join: Join) -> Rel
    ensures { rel_tree result ≡ joined_of join [] }
{
    match join {
        Join::All => Rel::True,
        Join::Some => Rel::False,
    }
}

pub(crate) fn both(
    alloc: Global,
    join: Join,
    a: Box<Rel>,
    b: Box<Rel>,
) -> Result<Box<Rel>, NoMemory>
    ensures { IfOk result (λ r. rel_tree r.value ≡ both_of join (rel_tree a.value) (rel_tree b.value)) }
{
    match join {
        Join::All => and(alloc, a, b),
        Join::Some => or(alloc, a, b),
    }
}

pub(crate) fn and(alloc: Global, a: Box<Rel>, b: Box<Rel>) -> Result<Box<Rel>, NoMemory>
    ensures { IfOk result (λ r. rel_tree r.value ≡ rel_and (rel_tree a.value) (rel_tree b.value)) }
{
    Ok(Box::new(alloc, Rel::And(a, b))?)
}

pub(crate) fn or(alloc: Global, a: Box<Rel>, b: Box<Rel>) -> Result<Box<Rel>, NoMemory>
    ensures { IfOk result (λ r. rel_tree r.value ≡ rel_or (rel_tree a.value) (rel_tree b.value)) }
{
    Ok(Box::new(alloc, Rel::Or(a, b))?)
}

pub(crate) fn negated(alloc: Global, a: Box<Rel>) -> Result<Box<Rel>, NoMemory>
    ensures { IfOk result (λ r. rel_tree r.value ≡ rel_not (rel_tree a.value)) }
{
    Ok(Box::new(alloc, Rel::Not(a))?)
}

/// The relation, or its negation.
pub(crate) fn signed(alloc: Global, sign: Sign, a: Box<Rel>) -> Result<Box<Rel>, NoMemory>
    ensures { IfOk result (λ r. rel_tree r.value ≡ signed_of sign (rel_tree a.value)) }
{
    match sign {
        Sign::Holds => Ok(a),
        Sign::Fails => negated(alloc, a),
    }
}
