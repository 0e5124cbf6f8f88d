//! The pass that removes needs `true`.
ghost use Rattle.std.specs.Prelude.{◌≡◌, ◌<◌, ◌≤◌, ◌+◌, ◌^◌, OnOk, true};
ghost use Rattle.cf_tree.specs.CodeView.{code_tree};
ghost use Rattle.cf_tree.specs.RelSize.{capped};
ghost use Rattle.cf_pass.specs.DropNeeds.{without_needs, needs_at};
ghost use Rattle.cf_pass.specs.Improves.{Improves};
ghost use Rattle.cf_pass.specs.Rewritten.{rewritten, units_of};

use crate::pass::Pass;
use crate::rule::Rule;
use crate::true_needs::drop_needs;
use crate::walk::rewrite_each;
use cf_tree::{Code, NoMemory};
use std::alloc::Global;

/// Removes each item `need true`. One removed item is one unit.
#[derive(Drop)]
pub struct DropNeeds {
    needs: Needs,
    turns: u64,
    whole: bool,
    ghost counted: { turns < 2 ^ 64 },
}

// Removes the items `need true` of a solve, and counts them.
#[derive(Drop)]
struct Needs {
    tally: u64,
    ghost counted: { tally < 2 ^ 64 },
}

impl DropNeeds {
    /// The pass with tally 0.
    pub fn new() -> DropNeeds
        ensures tally { result.needs.tally ≡ 0 }
        ensures turns { result.turns ≡ 0 }
        ensures whole { result.whole ≡ true }
    {
        DropNeeds {
            needs: Needs { tally: 0 },
            turns: 0,
            whole: true,
        }
    }
}

impl Pass for DropNeeds {
    ghost use Rattle.std.specs.Prelude.{◌≡◌, ◌≤◌, ◌+◌, codes, OnOk, is_ok};
    ghost use Rattle.cf_tree.specs.CodeView.{code_tree};
    ghost use Rattle.cf_tree.specs.RelSize.{capped};
    ghost use Rattle.cf_pass.specs.DropNeeds.{without_needs, needs_at};
    ghost use Rattle.cf_pass.specs.Improves.{Improves, IsTypedBehind};
    ghost use Rattle.cf_pass.specs.Rewritten.{rewritten, units_of};

    ghost told = { λ p. record {
      name = codes "drop-needs";
      tally = p.needs.tally;
      turns = p.turns;
      makes = λ outside c. rewritten (λ n d. without_needs d) outside c;
      whole = p.whole;
    } };

    fn name(&self) -> &str {
        "drop-needs"
    }

    fn tally(&self) -> u64 {
        self.needs.tally
    }

    fn rewrite(&mut self, alloc: Global, outside: u32, code: &mut Code) -> Result<(), NoMemory>
        requires typed { IsTypedBehind outside (code_tree code.old) }
        ensures code { Improves outside (code_tree code.old) (code_tree code.new) }
        ensures name { codes "drop-needs" ≡ codes "drop-needs" }
        ensures tally { self.old.needs.tally ≤ self.new.needs.tally }
        ensures turns { self.new.turns ≡ capped (self.old.turns + 1) }
        ensures whole { self.new.whole ≡ is_ok result }
        ensures made { OnOk result (code_tree code.new ≡ rewritten (λ n c. without_needs c) outside (code_tree code.old)) }
        ensures units { OnOk result (self.new.needs.tally ≡ capped
            (self.old.needs.tally + units_of (λ n c. without_needs c) (λ n c. needs_at c) outside (code_tree code.old))) }
    {
        self.turns = self.turns.saturating_add(1);
        let done = rewrite_needs(alloc, &mut self.needs, outside, code);
        self.whole = done.is_ok();
        done
    }
}

// Each item `need true` of the code is removed, and counted.
fn rewrite_needs(
    alloc: Global,
    needs: &mut Needs,
    outside: u32,
    code: &mut Code,
) -> Result<(), NoMemory>
    ensures improves { Improves outside (code_tree code.old) (code_tree code.new) }
    ensures tally { needs.old.tally ≤ needs.new.tally }
    ensures code { OnOk result (code_tree code.new ≡ rewritten (λ n c. without_needs c) outside (code_tree code.old)) }
    ensures units { OnOk result (needs.new.tally ≡ capped
        (needs.old.tally + units_of (λ n c. without_needs c) (λ n c. needs_at c) outside (code_tree code.old))) }
{
    rewrite_each(alloc, needs, outside, code)
}

impl Rule for Needs {
    ghost tally = { λ r. r.tally };

    ghost made = { λ n c. without_needs c };

    ghost units = { λ n c. needs_at c };

    fn apply(&mut self, _alloc: Global, _outside: u32, code: &mut Code) -> Result<(), NoMemory> {
        self.tally = self.tally.saturating_add(drop_needs(code));
        Ok(())
    }
}
