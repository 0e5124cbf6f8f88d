//! Copies of relations and of their parts, which take room for their nodes.
ghost use Rattle.std.specs.Prelude.{◌≡◌, ◌∷◌, [], ◌++◌, IfOk, map};
ghost use Rattle.cf_tree.specs.RelTree.{rel_compare};
ghost use Rattle.cf_tree.specs.RelView.{set_tree, term_tree, rel_tree};

use crate::wide::Room;
use cf_tree::{NoMemory, Order, Rel, SetTerm, Term, without};
use std::alloc::Global;

fn take_all(room: &mut Room, nodes: u64) -> Result<(), NoMemory> {
    for _node in 0..nodes {
        room.take()?;
    }
    Ok(())
}

pub(crate) fn copy_set(
    alloc: Global,
    room: &mut Room,
    set: &SetTerm,
) -> Result<Box<SetTerm>, NoMemory>
    ensures { IfOk result (λ s. set_tree s.value ≡ set_tree set.now) }
{
    take_all(room, set.size())?;
    Ok(Box::new(alloc, set.try_copy(alloc)?)?)
}

pub(crate) fn copy_term(alloc: Global, room: &mut Room, term: &Term) -> Result<Box<Term>, NoMemory>
    ensures { IfOk result (λ t. term_tree t.value ≡ term_tree term.now) }
{
    take_all(room, term.size())?;
    Ok(Box::new(alloc, term.try_copy(alloc)?)?)
}

fn copy_rel(alloc: Global, room: &mut Room, rel: &Rel) -> Result<Rel, NoMemory>
    ensures { IfOk result (λ r. rel_tree r ≡ rel_tree rel.now) }
{
    take_all(room, rel.size())?;
    rel.try_copy(alloc)
}

fn copy_rels(alloc: Global, room: &mut Room, rels: &[Rel]) -> Result<Vec<Rel>, NoMemory>
    ensures { IfOk result (λ rs. map rel_tree rs.items ≡ map rel_tree rels.now) }
{
    let mut all = Vec::new(alloc);
    for rel in rels {
        all.push(copy_rel(alloc, room, rel)?)?;
    }
    Ok(all)
}

/// Copies of the first relations, and of the second behind them.
pub(crate) fn copy_both(
    alloc: Global,
    room: &mut Room,
    first: &[Rel],
    second: &[Rel],
) -> Result<Vec<Rel>, NoMemory>
    ensures { IfOk result (λ rs. map rel_tree rs.items ≡ map rel_tree first.now ++ map rel_tree second.now) }
{
    let mut all = copy_rels(alloc, room, first)?;
    match copy_rels(alloc, room, second) {
        Ok(mut more) => {
            all.append(&mut more)?;
            Ok(all)
        }
        Err(fault) => Err(without(all, fault)),
    }
}

/// The relations behind a copy of a first one.
pub(crate) fn behind_copy(
    alloc: Global,
    room: &mut Room,
    first: &Rel,
    rels: Vec<Rel>,
) -> Result<Vec<Rel>, NoMemory>
    ensures { IfOk result (λ rs. map rel_tree rs.items ≡ rel_tree first.now ∷ map rel_tree rels.items) }
{
    match copy_rel(alloc, room, first) {
        Ok(copy) => behind_first(alloc, copy, rels),
        Err(fault) => Err(without(rels, fault)),
    }
}

fn behind_first(alloc: Global, first: Rel, rels: Vec<Rel>) -> Result<Vec<Rel>, NoMemory>
    ensures { IfOk result (λ rs. rs.items ≡ first ∷ rels.items) }
{
    let mut rest = rels;
    let mut all = Vec::new(alloc);
    all.push(first)?;
    all.append(&mut rest)?;
    Ok(all)
}

/// The relations, and a last one.
pub(crate) fn with_last(rels: Vec<Rel>, last: Rel) -> Result<Vec<Rel>, NoMemory>
    ensures { IfOk result (λ rs. rs.items ≡ rels.items ++ last ∷ []) }
{
    let mut all = rels;
    all.push(last)?;
    Ok(all)
}

/// A comparison of copies.
pub(crate) fn copy_compared(
    alloc: Global,
    room: &mut Room,
    order: Order,
    x: &Term,
    y: &Term,
) -> Result<Rel, NoMemory>
    ensures { IfOk result (λ r. rel_tree r ≡ rel_compare order (term_tree x.now) (term_tree y.now)) }
{
    let left = copy_term(alloc, room, x)?;
    match copy_term(alloc, room, y) {
        Ok(right) => Ok(Rel::Compare { order, left, right }),
        Err(fault) => Err(without(left, fault)),
    }
}
