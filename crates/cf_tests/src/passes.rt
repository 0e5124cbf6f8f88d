//! Passes that the caller hands in: each is called where it is asked for, and dropped once.
ghost use Rattle.std.specs.Prelude.{◌≡◌, ◌<◌, ◌^◌, codes, true};

use crate::objects::{Call, Faults, NONE, ROUNDING, ended};
use cf_pass::Pass;
use cf_top::Status;
use cf_tree::{Code, NoMemory};
use std::alloc::Global;
use std::cell::Cell;
use std::rc::Rc;
use std::test::Fail;

/// How often a pass was called, and how often it was dropped.
#[derive(Drop)]
struct Seen {
    calls: Cell<u64>,
    drops: Cell<u64>,
}

/// Changes nothing, and tells what it sees.
struct Counted {
    turns: u64,
    seen: Rc<Seen>,
    ghost small: { turns < 2 ^ 64 },
}

fn count(cell: &Cell<u64>) {
    cell.set(cell.get().saturating_add(1));
}

impl Drop for Counted {
    fn drop(self) {
        let Counted { turns: _, seen } = self;
        count(&seen.drops);
    }
}

impl Pass for Counted {
    ghost told = { λ p. record { name = codes "counted"; tally = 0; turns = p.turns; makes = λ outside c. c; whole = true } };

    fn name(&self) -> &str {
        "counted"
    }

    fn tally(&self) -> u64 {
        0
    }

    fn rewrite(&mut self, _alloc: Global, _outside: u32, _code: &mut Code) -> Result<(), NoMemory> {
        self.turns = self.turns.saturating_add(1);
        count(&self.seen.calls);
        Ok(())
    }
}

const COMPILE: Call<'static> = Call {
    command: "compile",
    operand: "program",
    flags: &[],
    text: ROUNDING,
    input: "",
    faults: NONE,
};

// How the call ends, with a pass that tells what it sees.
fn seen_by(alloc: Global, call: &Call, seen: &Rc<Seen>) -> Result<Status, NoMemory> {
    let seen = seen.clone()?;
    let mut passes: Vec<Box<dyn Pass>> = Vec::new(alloc);
    passes.push(Box::new(alloc, Counted { turns: 0, seen })?)?;
    Ok(ended(alloc, call, passes)?.status)
}

// Nothing was seen yet.
fn nothing_seen(alloc: Global) -> Result<Rc<Seen>, NoMemory> {
    Ok(Rc::new(
        alloc,
        Seen {
            calls: Cell::new(0),
            drops: Cell::new(0),
        },
    )?)
}

/// A call, how it is to end, and how often its pass is to be called.
#[derive(Clone, Copy)]
struct Case {
    status: Status,
    calls: u64,
    call: Call<'static>,
}

/// A command that ends well and does not call its pass.
const UNCALLED: Case = Case {
    status: Status::Done,
    calls: 0,
    call: COMPILE,
};

/// A program that is linear only where the numbers in scope are known.
const LATE: &str = "def main(a: int, b: int): int = choose (x: int) where a * x == b\n";

const CASES: [Case; 8] = [
    Case {
        calls: 1,
        ..UNCALLED
    },
    Case {
        call: Call {
            flags: &["--plain"],
            ..COMPILE
        },
        ..UNCALLED
    },
    Case {
        calls: 1,
        call: Call {
            command: "run",
            flags: &["--stats"],
            ..COMPILE
        },
        ..UNCALLED
    },
    Case {
        call: Call {
            command: "run",
            flags: &["--stats", "--plain"],
            ..COMPILE
        },
        ..UNCALLED
    },
    Case {
        call: Call {
            command: "pre",
            ..COMPILE
        },
        ..UNCALLED
    },
    Case {
        call: Call {
            command: "check",
            ..COMPILE
        },
        ..UNCALLED
    },
    Case {
        call: Call {
            command: "exec",
            text: "main (int): int = v0",
            ..COMPILE
        },
        ..UNCALLED
    },
    Case {
        call: Call {
            command: "prove",
            ..COMPILE
        },
        ..UNCALLED
    },
];

const MORE_CASES: [Case; 8] = [
    Case {
        status: Status::Text,
        call: Call {
            command: "verify",
            flags: &["program"],
            ..COMPILE
        },
        ..UNCALLED
    },
    Case {
        call: Call {
            command: "run",
            text: LATE,
            ..COMPILE
        },
        ..UNCALLED
    },
    Case {
        calls: 1,
        call: Call {
            command: "gen",
            operand: "1",
            ..COMPILE
        },
        ..UNCALLED
    },
    Case {
        status: Status::Usage,
        call: Call {
            command: "compiled",
            ..COMPILE
        },
        ..UNCALLED
    },
    Case {
        status: Status::File,
        call: Call {
            faults: Faults {
                shelf: &[0],
                ..NONE
            },
            ..COMPILE
        },
        ..UNCALLED
    },
    Case {
        status: Status::Output,
        calls: 1,
        call: Call {
            faults: Faults { room: 10, ..NONE },
            ..COMPILE
        },
    },
    Case {
        status: Status::Text,
        call: Call {
            text: "def",
            ..COMPILE
        },
        ..UNCALLED
    },
    Case {
        status: Status::Types,
        call: Call {
            text: "def main(a: int): int = b",
            ..COMPILE
        },
        ..UNCALLED
    },
];

/// A program with sets.
const SETS: &str = "def main(s: set): int = card(s)\n";

/// A program that picks a set.
const CHOSEN_SET: &str = "def main(s: set): set = choose (t: set) where t subset s\n";

/// `emit` in C, whose file is longer than a reply.
const EMIT: Call<'static> = Call {
    command: "emit",
    operand: "c",
    flags: &["program"],
    faults: Faults {
        room: 10_000,
        ..NONE
    },
    ..COMPILE
};

const EMIT_CASES: [Case; 6] = [
    Case {
        calls: 1,
        call: EMIT,
        ..UNCALLED
    },
    Case {
        status: Status::Types,
        call: Call { text: SETS, ..EMIT },
        ..UNCALLED
    },
    Case {
        calls: 1,
        call: Call {
            operand: "js",
            text: SETS,
            ..EMIT
        },
        ..UNCALLED
    },
    Case {
        calls: 1,
        call: Call {
            operand: "rust",
            text: SETS,
            ..EMIT
        },
        ..UNCALLED
    },
    Case {
        call: Call {
            operand: "smt",
            ..EMIT
        },
        ..UNCALLED
    },
    Case {
        status: Status::Types,
        call: Call {
            operand: "smt",
            text: CHOSEN_SET,
            ..EMIT
        },
        ..UNCALLED
    },
];

#[test]
fn each_pass_is_called_where_it_is_asked_for_and_dropped_once(rt: HostRuntime) -> Result<(), Fail> {
    for case in &CASES {
        let seen = nothing_seen(rt.alloc())?;
        let status = seen_by(rt.alloc(), &case.call, &seen)?;
        assert!(rt;
            status == case.status && seen.calls.get() == case.calls && seen.drops.get() == 1
        );
    }
    Ok(())
}

#[test]
fn each_pass_is_dropped_once_however_the_call_ends(rt: HostRuntime) -> Result<(), Fail> {
    for case in &MORE_CASES {
        let seen = nothing_seen(rt.alloc())?;
        let status = seen_by(rt.alloc(), &case.call, &seen)?;
        assert!(rt;
            status == case.status && seen.calls.get() == case.calls && seen.drops.get() == 1
        );
    }
    Ok(())
}

#[test]
fn each_pass_is_called_where_a_program_is_emitted(rt: HostRuntime) -> Result<(), Fail> {
    for case in &EMIT_CASES {
        let seen = nothing_seen(rt.alloc())?;
        let status = seen_by(rt.alloc(), &case.call, &seen)?;
        assert!(rt;
            status == case.status && seen.calls.get() == case.calls && seen.drops.get() == 1
        );
    }
    Ok(())
}
