//! Solving all chooses of a program.
ghost use Rattle.std.specs.Prelude.{◌≡◌, ◌<◌, ◌^◌, [], ◌∷◌, IfOk, IfErr, map, All};
ghost use Rattle.std.specs.List.Sorted.{IsNonDecreasing};
ghost use Rattle.cf_tree.specs.ChooseView.{choose_tree};
ghost use Rattle.cf_tree.specs.DefView.{def_tree};
ghost use Rattle.cf_tree.specs.ExprView.{expr_tree};
ghost use Rattle.cf_program.specs.NoMatch.{HasNoMatch};
ghost use Rattle.cf_build.specs.Chooses.{all_chooses, by_number};
ghost use Rattle.cf_build.specs.Solves.{IsTypedChoose, IsSolved, AreSolved, IsFaultAmong, FaultAnswer};

use crate::chooses::numbered;
use crate::fault::BuildFault;
use cf_choose::{ChooseFault, Solved, solve};
use cf_program::Typed;
use cf_tree::{Choose, bases};
use std::alloc::Global;

/// A choose of a program, and its relation with the arms that solve it.
#[derive(Drop)]
pub struct SolvedChoose<'a> {
    pub choose: Choose<'a>,
    pub solved: Solved,
}

/// The chooses of all functions of a program without matches, called or not, solved in the order of
/// their numbers, those of one number in the order of the text.
///
/// # Errors
/// The refused choose with the least number, of one number the first in the text, with the first
/// limit that it passes; or want of memory.
pub fn solve_all<'a>(alloc: Global, typed: &'a Typed) -> Result<Vec<SolvedChoose<'a>>, BuildFault>
    requires no_match { All (λ d. HasNoMatch (expr_tree d.body)) typed.now.defs.items }
    ensures solved { IfOk result (λ solves. AreSolved (by_number (all_chooses (map def_tree typed.now.defs.items))) solves.items) }
    ensures refused { IfErr result (FaultAnswer (all_chooses (map def_tree typed.now.defs.items))) }
    ensures rising { IfOk result (λ solves. IsNonDecreasing (map (λ s. s.choose.number) solves.items)) }
{
    let chooses = numbered(alloc, typed)?;
    solve_each(alloc, &chooses)
}

// These chooses solved in order, or the first of them that is refused.
fn solve_each<'a>(
    alloc: Global,
    chooses: &[Choose<'a>],
) -> Result<Vec<SolvedChoose<'a>>, BuildFault>
    requires { All (λ c. IsTypedChoose (choose_tree c)) chooses.now }
    ensures solved { IfOk result (λ solves. AreSolved (map choose_tree chooses.now) solves.items) }
    ensures refused { IfErr result (IsFaultAmong (map choose_tree chooses.now)) }
{
    let mut solves = Vec::new(alloc);
    for choose in chooses {
        solves.push(solve_one(alloc, choose)?)?;
    }
    Ok(solves)
}

// The choose with its arms, or its refusal.
fn solve_one<'a>(alloc: Global, choose: &Choose<'a>) -> Result<SolvedChoose<'a>, BuildFault>
    requires { IsTypedChoose (choose_tree choose.now) }
    ensures solved { IfOk result (IsSolved (choose_tree choose.now)) }
    ensures refused { IfErr result (IsFaultAmong (choose_tree choose.now ∷ [])) }
{
    let number = of_32_bits(choose.number);
    let scope = bases(alloc, choose.scope)?;
    match solve(alloc, &scope, choose.outputs, choose.rel) {
        Ok(solved) => Ok(SolvedChoose {
            choose: *choose,
            solved,
        }),
        Err(ChooseFault::Refused(refusal)) => Err(BuildFault::Choose { number, refusal }),
        Err(ChooseFault::NoMemory) => Err(BuildFault::NoMemory),
    }
}

// for the proof: the number of a lent choose has 32 bits.
fn of_32_bits(number: u32) -> u32
    ensures { (result ≡ number) × (number < 2 ^ 32) }
{
    number
}
