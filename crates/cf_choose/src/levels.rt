//! The levels of the variables of a choose.
ghost use Rattle.std.specs.Prelude.{◌≡◌, ◌+◌, ◌<◌, ◌^◌, length, filter, IfOk};
ghost use Rattle.cf_tree.specs.Occurs.{rel_holds};
ghost use Rattle.cf_tree.specs.RelView.{rel_tree};
ghost use Rattle.cf_linear.specs.Layout.{is_number, is_set, levels_with, layout_of};
ghost use Rattle.cf_linear.specs.Views.{plain_layout};

use cf_linear::Layout;
use cf_setwit::push_if;
use cf_tree::{Base, NoMemory, Rel, rel_holds};
use std::alloc::Global;

// The levels of the numbers among the bases, the first base having level `first`.
fn numbers(alloc: Global, bases: &[Base], first: u32) -> Result<Vec<u32>, NoMemory>
    requires { first + length bases.now < 2 ^ 32 }
    ensures { IfOk result (λ v. v.items ≡ levels_with is_number first bases.now) }
{
    let mut levels = Vec::new(alloc);
    for i in 0..bases.len() {
        push_if(&mut levels, is_number(bases[i]), first + i as u32)?;
    }
    Ok(levels)
}

// The levels of the sets among the bases, the first base having level `first`.
fn sets(alloc: Global, bases: &[Base], first: u32) -> Result<Vec<u32>, NoMemory>
    requires { first + length bases.now < 2 ^ 32 }
    ensures { IfOk result (λ v. v.items ≡ levels_with is_set first bases.now) }
{
    let mut levels = Vec::new(alloc);
    for i in 0..bases.len() {
        push_if(&mut levels, is_set(bases[i]), first + i as u32)?;
    }
    Ok(levels)
}

fn is_number(base: Base) -> bool
    ensures { result ≡ is_number base }
{
    match base {
        Base::Int => true,
        Base::Bool | Base::Set => false,
    }
}

fn is_set(base: Base) -> bool
    ensures { result ≡ is_set base }
{
    match base {
        Base::Set => true,
        Base::Int | Base::Bool => false,
    }
}

// Those of the levels that occur in the relation.
fn held(alloc: Global, levels: &[u32], rel: &Rel) -> Result<Vec<u32>, NoMemory>
    ensures { IfOk result (λ v. v.items ≡ filter (λ x. rel_holds x (rel_tree rel.now)) levels.now) }
{
    let mut out = Vec::new(alloc);
    for x in levels {
        push_if(&mut out, rel_holds(rel, *x), *x)?;
    }
    Ok(out)
}

/// The levels of a choose, where the variables in scope have these bases by level and the outputs,
/// behind them, those of `outputs`: of the parameters those that occur in the relation, and of the
/// outputs all.
///
/// # Errors
/// `NoMemory` where memory ran out.
pub fn layout(
    alloc: Global,
    scope: &[Base],
    outputs: &[Base],
    rel: &Rel,
) -> Result<Layout, NoMemory>
    requires { length scope.now + length outputs.now < 2 ^ 32 }
    ensures { IfOk result (λ l. plain_layout l ≡ layout_of scope.now outputs.now (rel_tree rel.now)) }
{
    let first = scope.len() as u32;
    let all_numbers = numbers(alloc, scope, 0)?;
    let all_sets = sets(alloc, scope, 0)?;
    let numbers_held = held(alloc, &all_numbers, rel)?;
    let sets_held = held(alloc, &all_sets, rel)?;
    let out_numbers = numbers(alloc, outputs, first)?;
    let out_sets = sets(alloc, outputs, first)?;
    Ok(Layout {
        scope: first,
        numbers: numbers_held,
        inputs: sets_held,
        out_numbers,
        out_sets,
    })
}
