//! The codes of input regions.
ghost use Rattle.std.specs.Prelude.{◌≡◌, ◌≤◌, map, IfOk};
ghost use Rattle.std.specs.List.{fold};
ghost use Rattle.cf_tree.specs.CodeTree.{code_var, code_diff, code_card};
ghost use Rattle.cf_tree.specs.CodeView.{code_tree};
ghost use Rattle.cf_linear.specs.declared.refusal.TheConstants.{MOST_SETS};
ghost use Rattle.cf_linear.specs.Arm.{vars, region_code};
ghost use Rattle.cf_linear.specs.Layout.{set_count};
ghost use Rattle.cf_linear.specs.Views.{plain_layout};

use crate::masks::{sets_in, sets_out};
use crate::several::inter_of_all;
use cf_linear::Layout;
use cf_tree::{Code, NoMemory};
use std::alloc::Global;

/// The elements that the input sets in the mask have in common, without those of the other input
/// sets.
///
/// # Errors
/// `NoMemory` where memory ran out.
pub fn region_code(alloc: Global, layout: &Layout, mask: u32) -> Result<Code, NoMemory>
    requires { set_count (plain_layout layout.now) ≤ MOST_SETS }
    ensures { IfOk result (λ c. code_tree c ≡ region_code (plain_layout layout.now) mask) }
{
    let inside = sets_in(alloc, &layout.inputs, mask)?;
    let others = sets_out(alloc, &layout.inputs, mask)?;
    let common = inter_of_all(variables(alloc, &inside)?);
    without_all(alloc, common, &others)
}

/// How many elements the set with the level has.
///
/// # Errors
/// `NoMemory` where memory ran out.
pub fn size_code(alloc: Global, level: u32) -> Result<Code, NoMemory>
    ensures { IfOk result (λ c. code_tree c ≡ code_card (code_var level)) }
{
    Ok(Code::Card(Box::new(alloc, variable(level))?))
}

// The variables with the levels.
pub(crate) fn variables(alloc: Global, levels: &[u32]) -> Result<Vec<Code>, NoMemory>
    ensures { IfOk result (λ cs. map code_tree cs.items ≡ vars levels.now) }
{
    let mut codes = Vec::new(alloc);
    for level in levels {
        codes.push(variable(*level))?;
    }
    Ok(codes)
}

// The variable with the level.
fn variable(level: u32) -> Code
    ensures { code_tree result ≡ code_var level }
{
    Code::Var(level)
}

// The set without the elements of the sets with the levels.
fn without_all(alloc: Global, set: Code, levels: &[u32]) -> Result<Code, NoMemory>
    ensures { IfOk result (λ c. code_tree c ≡ fold (λ c d. code_diff c d) (code_tree set) (vars levels.now)) }
{
    let mut rest = set;
    for level in levels {
        rest = without(alloc, rest, *level)?;
    }
    Ok(rest)
}

// The set without the elements of the set with the level.
fn without(alloc: Global, set: Code, level: u32) -> Result<Code, NoMemory>
    ensures { IfOk result (λ c. code_tree c ≡ code_diff (code_tree set) (code_var level)) }
{
    let set = Box::new(alloc, set)?;
    let other = Box::new(alloc, variable(level))?;
    Ok(Code::Diff(set, other))
}
