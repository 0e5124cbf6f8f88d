//! Lists of parts as trees of halves.
ghost use Rattle.std.specs.Prelude.{◌≡◌, IfOk, map, pos};
ghost use Rattle.cf_tree.specs.RelTree.{term_add, term_lit};
ghost use Rattle.cf_tree.specs.RelView.{term_tree, rel_tree};
ghost use Rattle.cf_warn.specs.Questions.{halves};
ghost use Rattle.cf_warn.specs.Writing.{both_of, empty_of};

use cf_tree::{NoMemory, Rel, Term};
use std::alloc::Global;

// How relations are joined: all of them hold, or one of them does.
#[derive(Clone, Copy, Debug, PartialEq, Eq)]
pub(crate) enum Join {
    And,
    Or,
}

// The relations joined, as a tree of halves.
pub(crate) fn joined(alloc: Global, join: Join, parts: &[Rel]) -> Result<Rel, NoMemory>
    ensures { IfOk result (λ r. rel_tree r ≡ halves (both_of join) (empty_of join) (map rel_tree parts.now)) }
{
    if parts.len() == 0 {
        return Ok(empty(join));
    }
    if parts.len() == 1 {
        return parts[0].try_copy(alloc);
    }
    let (front, back) = parts.split_at(parts.len() / 2);
    let left = Box::new(alloc, joined(alloc, join, front)?)?;
    let right = Box::new(alloc, joined(alloc, join, back)?)?;
    Ok(both(join, left, right))
}

// No relations joined.
fn empty(join: Join) -> Rel
    ensures { rel_tree result ≡ empty_of join }
{
    match join {
        Join::And => Rel::True,
        Join::Or => Rel::False,
    }
}

// Two relations joined.
fn both(join: Join, left: Box<Rel>, right: Box<Rel>) -> Rel
    ensures { rel_tree result ≡ both_of join (rel_tree left.value) (rel_tree right.value) }
{
    match join {
        Join::And => Rel::And(left, right),
        Join::Or => Rel::Or(left, right),
    }
}

// The sum of the terms, as a tree of halves.
pub(crate) fn sum_of(alloc: Global, parts: &[Term]) -> Result<Term, NoMemory>
    ensures { IfOk result (λ t. term_tree t ≡ halves (λ a b. term_add a b) (term_lit (pos 0)) (map term_tree parts.now)) }
{
    if parts.len() == 0 {
        return Ok(Term::Lit(0));
    }
    if parts.len() == 1 {
        return parts[0].try_copy(alloc);
    }
    let (front, back) = parts.split_at(parts.len() / 2);
    let left = Box::new(alloc, sum_of(alloc, front)?)?;
    let right = Box::new(alloc, sum_of(alloc, back)?)?;
    Ok(Term::Add(left, right))
}
