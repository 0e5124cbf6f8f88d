//! A pass that finds no memory ends nothing: what it did stands, and the next one runs.
ghost use Rattle.std.specs.Prelude.{◌≡◌, codes, false};

use crate::objects::{Call, NONE, SECONDS, ended};
use cf_pass::{DropNeeds, Fold, Pass};
use cf_top::Status;
use cf_tree::{Code, NoMemory};
use std::alloc::Global;
use std::test::Fail;

/// Replaces what `Fold` does, which in SECONDS is one comparison of two literals, and then finds no memory.
#[derive(Drop)]
struct Faint {
    inner: Fold,
}

impl Pass for Faint {
    ghost told = { λ p. record {
      name = codes "faint";
      tally = (⟦<Fold as Pass>⟧.told p.inner).tally;
      turns = (⟦<Fold as Pass>⟧.told p.inner).turns;
      makes = (⟦<Fold as Pass>⟧.told p.inner).makes;
      whole = false;
    } };

    fn name(&self) -> &str {
        "faint"
    }

    fn tally(&self) -> u64 {
        self.inner.tally()
    }

    fn rewrite(&mut self, alloc: Global, outside: u32, code: &mut Code) -> Result<(), NoMemory> {
        self.inner.rewrite(alloc, outside, code)?;
        Err(NoMemory)
    }
}

// What SECONDS is compiled to, and the tallies.
const COMPILED: &str = "comfusy 2
main (int): (int, int, int) = solve 1 {
arm [] {
let div(v0, 60);
let div((59 + (-1 * v0)), 60);
need ((v1 + v2) >= 0);
let div((59 + v2), 60);
let div(v1, 60);
need (v4 >= 0);
need ((v3 + v4) >= 0);
let (-1 * v4);
let max((-59 + (60 * v5)), (-1 * v1));
let v0;
let (-1 * v6);
let (v7 + (60 * v6));
let (-1 * v5);
let (v8 + (60 * v5));
give (v10, v11, v9)
}
}
# faint 1
# drop-needs 1
";

#[test]
fn a_pass_that_finds_no_memory_ends_nothing(rt: HostRuntime) -> Result<(), Fail> {
    let alloc = rt.alloc();
    let call = Call {
        command: "compile",
        operand: "program",
        flags: &["--stats"],
        text: SECONDS,
        input: "",
        faults: NONE,
    };
    let mut passes: Vec<Box<dyn Pass>> = Vec::new(alloc);
    passes.push(Box::new(alloc, Faint { inner: Fold::new() })?)?;
    passes.push(Box::new(alloc, DropNeeds::new())?)?;
    let seen = ended(alloc, &call, passes)?;
    assert!(rt; seen.is(Status::Done, COMPILED.as_bytes(), b""));
    Ok(())
}
