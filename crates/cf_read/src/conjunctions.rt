//! The problem of some systems: that one of them is satisfied.
ghost use Rattle.std.specs.Prelude.{◌≡◌, ◌++◌, ◌∷◌, [], map, is_ok, if◌then◌else◌, IfOk, OnOk};
ghost use Rattle.std.specs.List.{range_with_len};
ghost use Rattle.cf_linear.specs.Views.{system_of};
ghost use Rattle.cf_read.specs.Systems.{fact_as, conjunction_from, one_of, IsProblemOf};

use cf_close::{Conjunction, Fact, FactKind, Or, Problem};
use cf_linear::{Row, System};
use cf_tree::NoMemory;
use std::alloc::Global;

/// The problem that has a solution where one of the systems is satisfied.
///
/// # Errors
/// `NoMemory` where memory ran out.
pub(crate) fn problem_of(alloc: Global, systems: &[System]) -> Result<Problem, NoMemory>
    ensures { IfOk result (IsProblemOf (map system_of systems.now)) }
{
    let Ok(count) = u32::try_from(systems.len()) else {
        return Err(NoMemory);
    };
    let mut all = conjunctions(alloc, systems)?;
    let root = one_of(alloc, count)?;
    push(&mut all, root)?;
    Ok(Problem::new(all, count))
}

// One for each system.
fn conjunctions(alloc: Global, systems: &[System]) -> Result<Vec<Conjunction>, NoMemory>
    ensures { IfOk result (λ all. all.items ≡ map conjunction_from systems.now) }
{
    let mut all = Vec::new(alloc);
    for system in systems {
        push(&mut all, conjunction(alloc, system)?)?;
    }
    Ok(all)
}

pub(crate) fn push(all: &mut Vec<Conjunction>, one: Conjunction) -> Result<(), NoMemory>
    ensures { all.new.items ≡ (if is_ok result then all.old.items ++ one ∷ [] else all.old.items) }
{
    match all.push(one) {
        Ok(()) => Ok(()),
        Err(_) => Err(NoMemory),
    }
}

// The rows of a system.
fn conjunction(alloc: Global, system: &System) -> Result<Conjunction, NoMemory>
    ensures { IfOk result (λ c. c ≡ conjunction_from system.now) }
{
    let mut facts = Vec::new(alloc);
    push_rows(alloc, &mut facts, FactKind::Equation, &system.equations)?;
    push_rows(
        alloc,
        &mut facts,
        FactKind::Inequality,
        &system.inequalities,
    )?;
    Ok(Conjunction::new(facts, Vec::new(alloc)))
}

// Adds facts of these rows.
fn push_rows(
    alloc: Global,
    facts: &mut Vec<Fact>,
    kind: FactKind,
    rows: &[Row],
) -> Result<(), NoMemory>
    ensures { OnOk result (facts.new.items ≡ facts.old.items ++ map (fact_as kind) rows.now) }
{
    for row in rows {
        push_fact(facts, kind, row.try_copy(alloc)?)?;
    }
    Ok(())
}

// Adds a fact to the end.
pub(crate) fn push_fact(facts: &mut Vec<Fact>, kind: FactKind, row: Row) -> Result<(), NoMemory>
    ensures { facts.new.items ≡ (if is_ok result then facts.old.items ++ fact_as kind row ∷ [] else facts.old.items) }
{
    match facts.push(Fact { kind, row }) {
        Ok(()) => Ok(()),
        Err(_) => Err(NoMemory),
    }
}

// An or of the first places.
fn one_of(alloc: Global, count: u32) -> Result<Conjunction, NoMemory>
    ensures { IfOk result (λ c. c ≡ one_of count) }
{
    let places = places(alloc, count)?;
    let mut ors = Vec::new(alloc);
    ors.push(Or::new(places))?;
    Ok(Conjunction::new(Vec::new(alloc), ors))
}

#[tactic(auto, using(crate::proofs::SystemLaws::range_next))]
fn places(alloc: Global, count: u32) -> Result<Vec<u32>, NoMemory>
    ensures { IfOk result (λ all. all.items ≡ range_with_len 0 count) }
{
    let mut all = Vec::new(alloc);
    for place in 0..count {
        all.push(place)?;
    }
    Ok(all)
}
