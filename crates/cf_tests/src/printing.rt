//! A copy of a target prints as it is read, with and without the header, and a copy of a precondition is printed. No command copies or prints these yet.
use cf_emit::{print, print_pre};
use cf_lex::tokens;
use cf_target::target;
use cf_tree::{Arm, Code, Edition, Item, NoMemory, Pre, Text};
use cf_typing::check_target;
use std::alloc::Global;
use std::test::*;

const REMAINDERS: &[u8] =
    b"comfusy 2\nmain (int): (int, int) = solve 1 {\narm [3] {\nneed ((-1 * v1) >= 0);\nlet div(((-1 * v0) + (-1 * v1)), 3);\nlet div((1 + v0 + v1), 3);\nneed ((v2 + v3) >= 0);\nlet (-1 * v2);\nlet ((-1 * v0) + (-1 * v1));\nlet (v5 + (3 * v4));\nlet ((-2 * v5) + (-5 * v4));\nlet v7;\ngive (v8, v6)\n}\n}\n";

const NEEDS: &[u8] = b"pre 7 (a, bc) {\narm [2] {\nlet v0;\nneed true;\n}\n}\n";

// The printed form of a copy of the target that the text spells.
fn printed(alloc: Global, text: &[u8]) -> Result<Vec<u8>, Fail> {
    if text.len() >= 4294967295 {
        return Err(NoMemory.into());
    }
    let Ok(list) = tokens(alloc, Edition::Two, text) else {
        return Err(NoMemory.into());
    };
    let Ok(raw) = target(alloc, Edition::Two, &list) else {
        return Err(NoMemory.into());
    };
    let Ok(checked) = check_target(alloc, raw.try_copy(alloc)?) else {
        return Err(NoMemory.into());
    };
    Ok(print(alloc, Edition::Two, &checked)?)
}

#[test]
fn a_target_prints_as_it_is_read(rt: HostRuntime) -> Result<(), Fail> {
    let alloc = rt.alloc();
    assert_eq!(rt; printed(alloc, REMAINDERS)?.as_slice(), REMAINDERS);
    let header = 10.min(REMAINDERS.len());
    assert_eq!(rt;
        printed(alloc, &REMAINDERS[header..])?.as_slice(),
        REMAINDERS
    );
    Ok(())
}

// search v2 below 2: let v0; need true
fn precondition(alloc: Global) -> Result<Pre, NoMemory> {
    let arm = Arm {
        bounds: Vec::from_slice(alloc, &[2])?,
        items: vec![in alloc; Item::Let(Code::Var(0)), Item::Need(Code::Truth(true))]?,
        gives: Vec::new(alloc),
    };
    Ok(Pre {
        arms: vec![in alloc; arm]?,
    })
}

#[test]
fn a_precondition_is_printed_with_its_names(rt: HostRuntime) -> Result<(), Fail> {
    let alloc = rt.alloc();
    let first = Text::from_str(alloc, "a")?;
    let second = Text::from_str(alloc, "bc")?;
    let names = vec![in alloc; first, second]?;
    let pre = precondition(alloc)?.try_copy(alloc)?;
    assert_eq!(rt; print_pre(alloc, 7, &names, &pre)?.as_slice(), NEEDS);
    Ok(())
}
