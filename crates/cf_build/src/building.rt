//! Building a target.
ghost use Rattle.std.specs.Prelude.{◌≡◌, IfOk, OnOk, OnErr, map, All, []};
ghost use Rattle.std.specs.List.Sorted.{IsNonDecreasing};
ghost use Rattle.cf_tree.specs.CodeView.{code_tree};
ghost use Rattle.cf_tree.specs.DefView.{def_tree};
ghost use Rattle.cf_tree.specs.ExprView.{expr_tree};
ghost use Rattle.cf_pass.specs.Passes.{HaveTurned};
ghost use Rattle.cf_tree.specs.Params.{bases_of};
ghost use Rattle.cf_build.specs.Built.{BuildAnswer, IsBuilt};
ghost use Rattle.cf_build.specs.Chooses.{all_chooses, by_number};
ghost use Rattle.cf_program.specs.NoMatch.{HasNoMatch};
ghost use Rattle.cf_build.specs.Solves.{AreSolved};

use crate::choose_codes::choose_codes;
use crate::codes::main_code;
use crate::fault::BuildFault;
use crate::rewrite::rewritten;
use crate::solves::{SolvedChoose, solve_all};
use cf_match::lower;
use cf_pass::Pass;
use cf_program::Typed;
use cf_tree::{Code, Def, NoMemory, RawTarget, Target, bases, without};
use std::alloc::Global;

/// The target of a program: main's body with its calls unfolded and its matches as the chooses that
/// they stand for, and each choose replaced by the `solve` with the arms of its cases, and then
/// rewritten once by each pass, in order. Every choose of every function is solved, called or not.
/// Where a pass finds no memory, its code stands, and the next one runs.
///
/// # Errors
/// The refused choose with the least number, of one number the first in the text, with the first
/// limit that it passes; or want of memory.
pub fn build(
    alloc: Global,
    typed: &Typed,
    passes: &mut Vec<Box<dyn Pass>>,
) -> Result<Target, BuildFault>
    ensures answer { BuildAnswer (map def_tree typed.now.defs.items) typed.now.main (map (λ p. told p) passes.old.items) (map (λ p. told p) passes.new.items)
        result }
    ensures turned { OnOk result (HaveTurned (map (λ p. told p) passes.old.items) (map (λ p. told p) passes.new.items)) }
    ensures kept { OnErr result (map (λ p. told p) passes.new.items ≡ map (λ p. told p) passes.old.items) }
{
    let lowered = lower(alloc, typed)?;
    build_lowered(alloc, lowered.typed(), passes)
}

// The target of a program without matches.
fn build_lowered(
    alloc: Global,
    typed: &Typed,
    passes: &mut Vec<Box<dyn Pass>>,
) -> Result<Target, BuildFault>
    requires no_match { All (λ d. HasNoMatch (expr_tree d.body)) typed.now.defs.items }
    ensures answer { BuildAnswer (map def_tree typed.now.defs.items) typed.now.main (map (λ p. told p) passes.old.items) (map (λ p. told p) passes.new.items)
        result }
    ensures turned { OnOk result (HaveTurned (map (λ p. told p) passes.old.items) (map (λ p. told p) passes.new.items)) }
    ensures kept { OnErr result (map (λ p. told p) passes.new.items ≡ map (λ p. told p) passes.old.items) }
{
    let solves = solve_all(alloc, typed)?;
    let raw = unfolded(alloc, typed, solves)?;
    Ok(rewritten(alloc, raw, passes)?)
}

// The target before any pass, where all chooses are solved.
fn unfolded(
    alloc: Global,
    typed: &Typed,
    solves: Vec<SolvedChoose<'_>>,
) -> Result<RawTarget, NoMemory>
    requires no_match { All (λ d. HasNoMatch (expr_tree d.body)) typed.now.defs.items }
    requires solved { AreSolved (by_number (all_chooses (map def_tree typed.now.defs.items))) solves.items }
    requires rising { IsNonDecreasing (map (λ s. s.choose.number) solves.items) }
    ensures { IfOk result (IsBuilt (map def_tree typed.now.defs.items) typed.now.main [] []) }
{
    let codes = choose_codes(alloc, solves)?;
    let main = typed.main();
    let code = main_code(alloc, typed.defs(), main, &codes)?;
    target(alloc, &typed.defs()[main as usize], code)
}

// The target with this code, and a function's parameters and results.
fn target(alloc: Global, def: &Def, code: Code) -> Result<RawTarget, NoMemory>
    ensures { IfOk result (λ t. (t.params.items ≡ bases_of def.now.params.items) × (t.results.items ≡ def.now.results.items) ×
        (code_tree t.code ≡ code_tree code)) }
{
    let Ok(params) = bases(alloc, &def.params) else {
        return Err(without(code, NoMemory));
    };
    let Ok(results) = Vec::from_slice(alloc, &def.results) else {
        return Err(without(code, NoMemory));
    };
    Ok(RawTarget {
        params,
        results,
        code,
    })
}
