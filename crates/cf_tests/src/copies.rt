//! Copies of programs and of functions, which no command makes yet.
ghost use Rattle.std.specs.Prelude.{◌-◌, ◌^◌, ◌<◌, length};

use cf_lex::tokens;
use cf_parse::program;
use cf_tree::{Base, Def, Edition, Expr, NoMemory, Param, Place, Program, Rel, Text};
use std::alloc::Global;
use std::test::Fail;

const SOURCE: &[u8] =
    b"def f(s: set): set = s union {1, 2} def main(a: int): int = match a with { 2 * q - 1 then card(f({q})) ; x then choose (y: int) where y <= x }";

fn parsed(alloc: Global, text: &[u8]) -> Result<Program, Fail>
    requires { length text.now < 2 ^ 32 - 1 }
{
    let Ok(list) = tokens(alloc, Edition::Two, text) else {
        return Err(NoMemory.into());
    };
    match program(alloc, Edition::Two, &list) {
        Ok(program) => Ok(program),
        Err(_) => Err(NoMemory.into()),
    }
}

// Whether a copy of the program has its size, which is above this one, and its depth.
fn is_copied(alloc: Global, program: &Program, least: u64) -> Result<bool, NoMemory> {
    let copy = program.try_copy(alloc)?;
    let size = copy.size();
    Ok(size > least && size == program.size() && copy.depth() == program.depth())
}

#[test]
fn programs_are_copied(rt: HostRuntime) -> Result<(), Fail> {
    assert!(rt; SOURCE.len() < 1000);
    let program = parsed(rt.alloc(), SOURCE)?;
    let is_copied = is_copied(rt.alloc(), &program, 10);
    drop(program);
    assert!(rt; is_copied?);
    Ok(())
}

// f(a: int): (int) = choose 2 in that scope: true
fn function(alloc: Global) -> Result<Def, NoMemory> {
    let param = Param {
        place: Place { line: 1, column: 7 },
        name: Text::from_str(alloc, "a")?,
        base: Base::Int,
    };
    Ok(Def {
        name: Text::from_str(alloc, "f")?,
        params: Vec::new(alloc),
        results: Vec::from_slice(alloc, &[Base::Int])?,
        body: Expr::Choose {
            number: 2,
            scope: vec![in alloc; param]?,
            outputs: Vec::from_slice(alloc, &[Base::Int])?,
            rel: Rel::True,
        },
    })
}

// Whether a copy of the function has its size and its depth.
fn is_alike(alloc: Global, function: &Def) -> Result<bool, NoMemory> {
    let copy = function.try_copy(alloc)?;
    Ok(copy.size() == function.size() && copy.depth() == function.depth())
}

#[test]
fn functions_are_copied(rt: HostRuntime) -> Result<(), Fail> {
    let function = function(rt.alloc())?;
    let is_alike = is_alike(rt.alloc(), &function);
    drop(function);
    assert!(rt; is_alike?);
    Ok(())
}
