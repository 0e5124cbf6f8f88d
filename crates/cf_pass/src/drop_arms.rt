//! The pass that removes arms whose needs can never hold.
ghost use Rattle.std.specs.Prelude.{◌≡◌, ◌<◌, ◌≤◌, ◌+◌, ◌^◌, OnOk, true};
ghost use Rattle.cf_tree.specs.CodeView.{code_tree};
ghost use Rattle.cf_tree.specs.RelSize.{capped};
ghost use Rattle.cf_pass.specs.DropArms.{without_arms, dead_at};
ghost use Rattle.cf_pass.specs.Improves.{Improves};
ghost use Rattle.cf_pass.specs.Rewritten.{rewritten, units_of};

use crate::dead_arms::drop_arms;
use crate::pass::Pass;
use crate::rule::Rule;
use crate::walk::rewrite_each;
use cf_tree::{Code, NoMemory};
use std::alloc::Global;

/// Removes each arm that holds an item `need false`; where every arm of a solve holds one, its first arm stays.
/// One removed arm is one unit.
#[derive(Drop)]
pub struct DropArms {
    arms: Arms,
    turns: u64,
    whole: bool,
    ghost counted: { turns < 2 ^ 64 },
}

// Removes the dead arms of a solve, and counts them.
#[derive(Drop)]
struct Arms {
    tally: u64,
    ghost counted: { tally < 2 ^ 64 },
}

impl DropArms {
    /// The pass with tally 0.
    pub fn new() -> DropArms
        ensures tally { result.arms.tally ≡ 0 }
        ensures turns { result.turns ≡ 0 }
        ensures whole { result.whole ≡ true }
    {
        DropArms {
            arms: Arms { tally: 0 },
            turns: 0,
            whole: true,
        }
    }
}

impl Pass for DropArms {
    ghost use Rattle.std.specs.Prelude.{◌≡◌, ◌≤◌, ◌+◌, codes, OnOk, is_ok};
    ghost use Rattle.cf_tree.specs.CodeView.{code_tree};
    ghost use Rattle.cf_tree.specs.RelSize.{capped};
    ghost use Rattle.cf_pass.specs.DropArms.{without_arms, dead_at};
    ghost use Rattle.cf_pass.specs.Improves.{Improves, IsTypedBehind};
    ghost use Rattle.cf_pass.specs.Rewritten.{rewritten, units_of};

    ghost told = { λ p. record {
      name = codes "drop-arms";
      tally = p.arms.tally;
      turns = p.turns;
      makes = λ outside c. rewritten (λ n d. without_arms d) outside c;
      whole = p.whole;
    } };

    fn name(&self) -> &str {
        "drop-arms"
    }

    fn tally(&self) -> u64 {
        self.arms.tally
    }

    fn rewrite(&mut self, alloc: Global, outside: u32, code: &mut Code) -> Result<(), NoMemory>
        requires typed { IsTypedBehind outside (code_tree code.old) }
        ensures code { Improves outside (code_tree code.old) (code_tree code.new) }
        ensures name { codes "drop-arms" ≡ codes "drop-arms" }
        ensures tally { self.old.arms.tally ≤ self.new.arms.tally }
        ensures turns { self.new.turns ≡ capped (self.old.turns + 1) }
        ensures whole { self.new.whole ≡ is_ok result }
        ensures made { OnOk result (code_tree code.new ≡ rewritten (λ n c. without_arms c) outside (code_tree code.old)) }
        ensures units { OnOk result (self.new.arms.tally ≡ capped
            (self.old.arms.tally + units_of (λ n c. without_arms c) (λ n c. dead_at c) outside (code_tree code.old))) }
    {
        self.turns = self.turns.saturating_add(1);
        let done = rewrite_arms(alloc, &mut self.arms, outside, code);
        self.whole = done.is_ok();
        done
    }
}

// Each dead arm of the code is removed, and counted.
fn rewrite_arms(
    alloc: Global,
    arms: &mut Arms,
    outside: u32,
    code: &mut Code,
) -> Result<(), NoMemory>
    ensures improves { Improves outside (code_tree code.old) (code_tree code.new) }
    ensures tally { arms.old.tally ≤ arms.new.tally }
    ensures code { OnOk result (code_tree code.new ≡ rewritten (λ n c. without_arms c) outside (code_tree code.old)) }
    ensures units { OnOk result (arms.new.tally ≡ capped (arms.old.tally + units_of (λ n c. without_arms c) (λ n c. dead_at c) outside (code_tree code.old))) }
{
    rewrite_each(alloc, arms, outside, code)
}

impl Rule for Arms {
    ghost tally = { λ r. r.tally };

    ghost made = { λ n c. without_arms c };

    ghost units = { λ n c. dead_at c };

    fn apply(&mut self, _alloc: Global, _outside: u32, code: &mut Code) -> Result<(), NoMemory> {
        self.tally = self.tally.saturating_add(drop_arms(code));
        Ok(())
    }
}
