//! The pass that removes lets that nothing uses.
ghost use Rattle.std.specs.Prelude.{◌≡◌, ◌<◌, ◌≤◌, ◌+◌, ◌^◌, OnOk, true};
ghost use Rattle.cf_tree.specs.CodeView.{code_tree};
ghost use Rattle.cf_tree.specs.RelSize.{capped};
ghost use Rattle.cf_pass.specs.Lets.{drop_lets_form, drop_lets_units};
ghost use Rattle.cf_pass.specs.Improves.{Improves};
ghost use Rattle.cf_pass.specs.Rewritten.{rewritten, units_of};

use crate::pass::Pass;
use crate::rule::Rule;
use crate::unused_lets::drop_lets;
use crate::walk::rewrite_each;
use cf_tree::{Code, NoMemory};
use std::alloc::Global;

/// Removes, from the last item of an arm to the first, each let that no later item and no give of the arm uses. One
/// removed let is one unit.
#[derive(Drop)]
pub struct DropLets {
    lets: Lets,
    turns: u64,
    whole: bool,
    ghost counted: { turns < 2 ^ 64 },
}

// Removes the lets of a solve that nothing uses, and counts them.
#[derive(Drop)]
struct Lets {
    tally: u64,
    ghost counted: { tally < 2 ^ 64 },
}

impl DropLets {
    /// The pass with tally 0.
    pub fn new() -> DropLets
        ensures tally { result.lets.tally ≡ 0 }
        ensures turns { result.turns ≡ 0 }
        ensures whole { result.whole ≡ true }
    {
        DropLets {
            lets: Lets { tally: 0 },
            turns: 0,
            whole: true,
        }
    }
}

impl Pass for DropLets {
    ghost use Rattle.std.specs.Prelude.{◌≡◌, ◌≤◌, ◌+◌, codes, OnOk, is_ok};
    ghost use Rattle.cf_tree.specs.CodeView.{code_tree};
    ghost use Rattle.cf_tree.specs.RelSize.{capped};
    ghost use Rattle.cf_pass.specs.Lets.{drop_lets_form, drop_lets_units};
    ghost use Rattle.cf_pass.specs.Improves.{Improves, IsTypedBehind};
    ghost use Rattle.cf_pass.specs.Rewritten.{rewritten, units_of};

    ghost told = { λ p. record {
      name = codes "drop-lets";
      tally = p.lets.tally;
      turns = p.turns;
      makes = λ outside c. rewritten (λ n d. drop_lets_form n d) outside c;
      whole = p.whole;
    } };

    fn name(&self) -> &str {
        "drop-lets"
    }

    fn tally(&self) -> u64 {
        self.lets.tally
    }

    fn rewrite(&mut self, alloc: Global, outside: u32, code: &mut Code) -> Result<(), NoMemory>
        requires typed { IsTypedBehind outside (code_tree code.old) }
        ensures code { Improves outside (code_tree code.old) (code_tree code.new) }
        ensures name { codes "drop-lets" ≡ codes "drop-lets" }
        ensures tally { self.old.lets.tally ≤ self.new.lets.tally }
        ensures turns { self.new.turns ≡ capped (self.old.turns + 1) }
        ensures whole { self.new.whole ≡ is_ok result }
        ensures made { OnOk result (code_tree code.new ≡ rewritten (λ n c. drop_lets_form n c) outside (code_tree code.old)) }
        ensures units { OnOk result (self.new.lets.tally ≡ capped
            (self.old.lets.tally + units_of (λ n c. drop_lets_form n c) (λ n c. drop_lets_units n c) outside (code_tree code.old))) }
    {
        self.turns = self.turns.saturating_add(1);
        let done = rewrite_lets(alloc, &mut self.lets, outside, code);
        self.whole = done.is_ok();
        done
    }
}

// Each let of the code that nothing uses is removed, and counted.
fn rewrite_lets(
    alloc: Global,
    lets: &mut Lets,
    outside: u32,
    code: &mut Code,
) -> Result<(), NoMemory>
    ensures improves { Improves outside (code_tree code.old) (code_tree code.new) }
    ensures tally { lets.old.tally ≤ lets.new.tally }
    ensures code { OnOk result (code_tree code.new ≡ rewritten (λ n c. drop_lets_form n c) outside (code_tree code.old)) }
    ensures units { OnOk result (lets.new.tally ≡ capped
        (lets.old.tally + units_of (λ n c. drop_lets_form n c) (λ n c. drop_lets_units n c) outside (code_tree code.old))) }
{
    rewrite_each(alloc, lets, outside, code)
}

impl Rule for Lets {
    ghost tally = { λ r. r.tally };

    ghost made = { λ n c. drop_lets_form n c };

    ghost units = { λ n c. drop_lets_units n c };

    fn apply(&mut self, alloc: Global, outside: u32, code: &mut Code) -> Result<(), NoMemory> {
        match drop_lets(alloc, outside, code) {
            Ok(removed) => {
                self.tally = self.tally.saturating_add(removed);
                Ok(())
            }
            Err(fault) => Err(fault),
        }
    }
}
