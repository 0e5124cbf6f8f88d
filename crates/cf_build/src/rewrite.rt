//! Rewriting a target by passes.
ghost use Rattle.std.specs.Prelude.{◌≡◌, ◌≤◌, ◌+◌, IfOk, OnOk, OnErr, map};
ghost use Rattle.cf_tree.specs.CodeView.{code_tree};
ghost use Rattle.cf_tree.specs.RelSize.{capped};
ghost use Rattle.cf_tree.specs.Typing.{IsWellTyped};
ghost use Rattle.cf_pass.specs.Improves.{Improves, IsTypedBehind};
ghost use Rattle.cf_pass.specs.Passes.{HaveTurned, IsMade, AreMade};
ghost use Rattle.cf_build.specs.Rewritten.{IsRewritten};

use cf_pass::Pass;
use cf_tree::{Code, NoMemory, RawTarget, Target, to_u32, without};
use std::alloc::Global;

/// The target whose code each pass has rewritten once, in order. Where a pass finds no memory, the code
/// stands as it left it, and the next one runs.
///
/// # Errors
/// Want of memory, before any pass is called: there are more parameters than 32 bits count.
pub(crate) fn rewritten(
    alloc: Global,
    mut raw: RawTarget,
    passes: &mut Vec<Box<dyn Pass>>,
) -> Result<Target, NoMemory>
    requires { IsWellTyped raw }
    ensures target { IfOk result (IsRewritten (map (λ p. told p) passes.old.items) (map (λ p. told p) passes.new.items) raw) }
    ensures turned { OnOk result (HaveTurned (map (λ p. told p) passes.old.items) (map (λ p. told p) passes.new.items)) }
    ensures kept { OnErr result (map (λ p. told p) passes.new.items ≡ map (λ p. told p) passes.old.items) }
{
    let Ok(outside) = to_u32(raw.params.len()) else {
        return Err(without(raw, NoMemory));
    };
    rewrite_by_each(alloc, outside, &mut raw.code, passes);
    Ok(Target::new(raw))
}

// Has each pass rewrite the code once, in order.
fn rewrite_by_each(alloc: Global, outside: u32, code: &mut Code, passes: &mut Vec<Box<dyn Pass>>)
    requires { IsTypedBehind outside (code_tree code.old) }
    ensures made { AreMade outside (map (λ p. told p) passes.old.items) (map (λ p. told p) passes.new.items) (code_tree code.old) (code_tree code.new) }
    ensures code { Improves outside (code_tree code.old) (code_tree code.new) }
    ensures turned { HaveTurned (map (λ p. told p) passes.old.items) (map (λ p. told p) passes.new.items) }
{
    for pass in passes.iter_mut() {
        rewrite_once(alloc, outside, code, pass);
    }
}

// Has the pass rewrite the code. What it did before memory ran out stands.
fn rewrite_once(alloc: Global, outside: u32, code: &mut Code, pass: &mut Box<dyn Pass>)
    requires { IsTypedBehind outside (code_tree code.old) }
    ensures code { IsMade outside (told pass.old) (told pass.new) (code_tree code.old) (code_tree code.new) }
    ensures name { (told pass.new).name ≡ (told pass.old).name }
    ensures tally { (told pass.old).tally ≤ (told pass.new).tally }
    ensures turns { (told pass.new).turns ≡ capped ((told pass.old).turns + 1) }
{
    match pass.rewrite(alloc, outside, code) {
        Ok(()) | Err(NoMemory) => {}
    }
}
