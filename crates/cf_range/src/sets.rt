//! Sets that are empty: slices without elements, no fresh numbers, and unions without their empty parts.
ghost use Rattle.std.specs.Prelude.{◌≡◌, ◌&&◌, IfOk, length};
ghost use Rattle.cf_tree.specs.CodeTree.{code_union, no_codes, code_more};
ghost use Rattle.cf_tree.specs.CodeView.{code_tree, code_trees};
ghost use Rattle.cf_range.specs.Tidied.{is_zero};
ghost use Rattle.cf_range.specs.Total.{is_total};
ghost use Rattle.cf_range.specs.Settled.{empty, is_empty, is_set_form, slice_settled, fresh_settled, nonempty, union_of, union_settled};

use crate::counts::are_none;
use crate::range::Range;
use crate::tidy::is_zero;
use crate::total::is_total;
use cf_tree::{Code, NoMemory};
use std::alloc::Global;

/// The slice, or the empty set where it takes no elements and the parts can be evaluated anywhere.
pub(crate) fn slice_settled(
    alloc: Global,
    ranges: &[Range],
    set: Box<Code>,
    from: Box<Code>,
    n: Box<Code>,
) -> Code
    ensures { code_tree result ≡ slice_settled ranges.now (code_tree set.value) (code_tree from.value) (code_tree n.value) }
{
    if takes_none(ranges, &set, &from, &n) {
        drop(set);
        drop(from);
        drop(n);
        empty(alloc)
    } else {
        Code::Slice { set, from, n }
    }
}

fn takes_none(ranges: &[Range], set: &Code, from: &Code, n: &Code) -> bool
    ensures { result ≡ (is_zero (code_tree n.now) && is_total ranges.now (code_tree set.now) && is_total ranges.now (code_tree from.now)) }
{
    is_zero(n) && is_total(ranges, set) && is_total(ranges, from)
}

/// Fresh numbers, or the empty set where they are none and the set can be evaluated anywhere.
pub(crate) fn fresh_settled(alloc: Global, ranges: &[Range], avoid: Box<Code>, n: Box<Code>) -> Code
    ensures { code_tree result ≡ fresh_settled ranges.now (code_tree avoid.value) (code_tree n.value) }
{
    if is_zero(&n) && is_total(ranges, &avoid) {
        drop(avoid);
        drop(n);
        empty(alloc)
    } else {
        Code::Fresh { avoid, n }
    }
}

fn empty(alloc: Global) -> Code
    ensures { code_tree result ≡ empty }
{
    Code::SetOf(Vec::new(alloc))
}

/// The union of the parts but those that are the empty set.
pub(crate) fn union_settled(alloc: Global, parts: Vec<Code>) -> Result<Code, NoMemory>
    ensures { IfOk result (λ new. code_tree new ≡ union_settled (code_trees parts.items)) }
{
    let mut parts = parts;
    drop_empty(&mut parts);
    union_of(alloc, parts)
}

fn drop_empty(parts: &mut Vec<Code>)
    ensures { code_trees parts.new.items ≡ nonempty (code_trees parts.old.items) }
{
    parts.retain(|part| !is_empty(part));
}

fn is_empty(code: &Code) -> bool
    ensures { result ≡ is_empty (code_tree code.now) }
{
    match code {
        Code::SetOf(parts) => are_none(parts),
        _ => false,
    }
}

// A union of none is the empty set.
fn union_of(alloc: Global, parts: Vec<Code>) -> Result<Code, NoMemory>
    ensures { IfOk result (λ new. code_tree new ≡ union_of (code_trees parts.items)) }
{
    if parts.len() == 0 {
        drop(parts);
        Ok(empty(alloc))
    } else if parts.len() == 1 {
        union_of_one(alloc, only(parts))
    } else {
        Ok(union_over(parts))
    }
}

// The part of a list of one.
#[tactic(auto, using(crate::proofs::SetLists::only_is))]
fn only(parts: Vec<Code>) -> Code
    requires { length parts.items ≡ 1 }
    ensures { code_more (code_tree result) no_codes ≡ code_trees parts.items }
{
    let mut parts = parts;
    parts.remove(0)
}

// A set form by itself; another part with the empty set, since a union has two parts.
fn union_of_one(alloc: Global, part: Code) -> Result<Code, NoMemory>
    ensures { IfOk result (λ new. code_tree new ≡ union_of (code_more (code_tree part) no_codes)) }
{
    if is_set_form(&part) {
        return Ok(part);
    }
    let mut parts = Vec::new(alloc);
    parts.push(part)?;
    parts.push(empty(alloc))?;
    Ok(union_over(parts))
}

fn union_over(parts: Vec<Code>) -> Code
    ensures { code_tree result ≡ code_union (code_trees parts.items) }
{
    Code::Union(parts)
}

fn is_set_form(code: &Code) -> bool
    ensures { result ≡ is_set_form (code_tree code.now) }
{
    match code {
        Code::SetOf(_)
        | Code::Union(_)
        | Code::Inter(_)
        | Code::Diff(..)
        | Code::Slice { .. }
        | Code::Fresh { .. } => true,
        _ => false,
    }
}
