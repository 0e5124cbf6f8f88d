//! The question whether a choose has two solutions.
ghost use Rattle.std.specs.Prelude.{◌≡◌, IfOk, map, take};
ghost use Rattle.cf_tree.specs.RelTree.{rel_or, rel_false};
ghost use Rattle.cf_tree.specs.RelView.{rel_tree};
ghost use Rattle.cf_choose.specs.Solved.{IsSolved};
ghost use Rattle.cf_warn.specs.Questions.{halves, other, others, parameters, twice, twice_outputs};

use crate::halves::{Join, joined};
use crate::levels::Levels;
use crate::used_parameters::bases_at;
use cf_choose::Solved;
use cf_tree::{Base, NoMemory, Order, Rel, SetTerm, Term, add_u32, to_u32};
use std::alloc::Global;

/// The bases of the outputs of `twice`: those of the parameters, of the outputs and of a copy of them.
///
/// # Errors
/// `NoMemory` where memory ran out.
pub fn twice_outputs(alloc: Global, solved: &Solved, params: &[u32]) -> Result<Vec<Base>, NoMemory>
    requires { params.now ≡ parameters solved.now.scope.items (rel_tree solved.now.rel) }
    ensures solved { IsSolved solved.now }
    ensures bases { IfOk result (λ bases. bases.items ≡ twice_outputs solved.now.scope.items solved.now.outputs.items (rel_tree solved.now.rel)) }
{
    let mut bases = bases_at(alloc, solved.scope(), params)?;
    bases.extend_from_slice(solved.outputs())?;
    bases.extend_from_slice(solved.outputs())?;
    Ok(bases)
}

/// The question whether solutions are the only ones: the relation for the outputs, the relation for
/// a copy of them, and that one of the first so many outputs, which are shown, differs.
///
/// # Errors
/// `NoMemory` where memory ran out, or a level does not fit in 32 bits.
pub fn twice(
    alloc: Global,
    solved: &Solved,
    params: Vec<u32>,
    shown: usize,
) -> Result<Rel, NoMemory>
    requires { params.items ≡ parameters solved.now.scope.items (rel_tree solved.now.rel) }
    ensures { IfOk result (λ rel. rel_tree rel ≡ twice solved.now.scope.items solved.now.outputs.items shown (rel_tree solved.now.rel)) }
{
    let scope = to_u32(solved.scope().len())?;
    let outputs = to_u32(solved.outputs().len())?;
    let count = to_u32(params.len())?;
    let compared = front(solved.outputs(), shown);
    let differ = some_other(alloc, compared, count, add_u32(count, outputs)?)?;
    let mut levels = Levels {
        scope,
        params,
        gap: 0,
    };
    let first = levels.boxed_rel(alloc, solved.relation())?;
    levels.gap = outputs;
    let second = levels.boxed_rel(alloc, solved.relation())?;
    let copy = Box::new(alloc, Rel::And(second, differ))?;
    Ok(Rel::And(first, copy))
}

// So many first outputs, or all where there are no more.
fn front(outputs: &[Base], shown: usize) -> &[Base]
    ensures { result.now ≡ take shown outputs.now }
{
    if shown < outputs.len() {
        &outputs[..shown]
    } else {
        outputs
    }
}

// That some output differs, where the outputs have levels from these two on.
fn some_other(
    alloc: Global,
    outputs: &[Base],
    first: u32,
    second: u32,
) -> Result<Box<Rel>, NoMemory>
    ensures { IfOk result (λ r. rel_tree r.value ≡ halves rel_or rel_false (others outputs.now first second)) }
{
    let rels = others(alloc, outputs, first, second)?;
    Ok(Box::new(alloc, joined(alloc, Join::Or, &rels)?)?)
}

// The outputs from these two levels on differ, one by one.
fn others(alloc: Global, outputs: &[Base], first: u32, second: u32) -> Result<Vec<Rel>, NoMemory>
    ensures { IfOk result (λ rels. map rel_tree rels.items ≡ others outputs.now first second) }
{
    let mut rels = Vec::new(alloc);
    let mut rest = outputs;
    let mut x = first;
    let mut y = second;
    while let Some((base, more)) = rest.split_first() {
        rels.push(other(alloc, *base, x, y)?)?;
        x = add_u32(x, 1)?;
        y = add_u32(y, 1)?;
        rest = more;
    }
    Ok(rels)
}

// The values at these levels differ.
fn other(alloc: Global, base: Base, x: u32, y: u32) -> Result<Rel, NoMemory>
    ensures { IfOk result (λ r. rel_tree r ≡ other base x y) }
{
    match base {
        Base::Int | Base::Bool => {
            let left = Box::new(alloc, Term::Var(x))?;
            let right = Box::new(alloc, Term::Var(y))?;
            Ok(Rel::Compare {
                order: Order::Ne,
                left,
                right,
            })
        }
        Base::Set => {
            let first = Box::new(alloc, SetTerm::Var(x))?;
            let second = Box::new(alloc, SetTerm::Var(y))?;
            Ok(Rel::OtherSet(first, second))
        }
    }
}
