//! A choose as functions: whether there are outputs, and which.
ghost use Rattle.std.specs.Prelude.{◌≡◌, ◌++◌, IfOk, OnOk};
ghost use Rattle.cf_tree.specs.CodeView.{arm_tree, arm_trees};
ghost use Rattle.cf_smt.specs.Commands.{each};
ghost use Rattle.cf_smt.specs.Goals.{about_functions as about, arm_called as call_of_arm, arm_gives as call_of_give, first_gives as gives_first, functions_defined, functions_if, functions_text, has_defined, has_no_search as searches_nothing, has_text as text_of_has, have_no_search as search_nothing, output_defined, outputs_defined, spaced_arm, test_text, test_with};

use crate::arm::arm_name;
use crate::command::{call_text, dotted, put_define};
use crate::names::Setting;
use cf_print::{next, put_pieces, put_repeated};
use cf_tree::{Arm, NoMemory, Text};
use std::alloc::Global;

/// Behind the number of a choose, before its functions.
pub const ABOUT_FUNCTIONS: &[u8] = b" as functions: whether there are outputs, and which.
";

fn has_no_search(arm: &Arm) -> bool
    ensures { result ≡ searches_nothing (arm_tree arm.now) }
{
    arm.bounds.len() == 0
}

fn have_no_search(arms: &[Arm]) -> bool
    ensures { result ≡ search_nothing (arm_trees arms.now) }
{
    for arm in arms {
        if !has_no_search(arm) {
            return false;
        }
    }
    true
}

fn arm_called(alloc: Global, setting: &Setting, k: usize) -> Result<Text, NoMemory>
    ensures { IfOk result (λ t. t ≡ call_of_arm setting.now k) }
{
    let name = arm_name(alloc, &setting.name.bytes, k)?;
    call_text(alloc, &name.bytes, &setting.params)
}

fn arm_gives(alloc: Global, setting: &Setting, output: &[u8], k: usize) -> Result<Text, NoMemory>
    ensures { IfOk result (λ t. t ≡ call_of_give setting.now output.now k) }
{
    let arm = arm_name(alloc, &setting.name.bytes, k)?;
    let name = dotted(alloc, &arm.bytes, output)?;
    call_text(alloc, &name.bytes, &setting.params)
}

fn put_spaced_arm(
    alloc: Global,
    out: &mut Vec<u8>,
    setting: &Setting,
    k: usize,
) -> Result<(), NoMemory>
    ensures { OnOk result (out.new.items ≡ out.old.items ++ spaced_arm setting.now k) }
{
    let call = arm_called(alloc, setting, k)?;
    out.push(b' ')?;
    out.extend_from_slice(&call.bytes)?;
    Ok(())
}

fn put_spaced_arms(
    alloc: Global,
    out: &mut Vec<u8>,
    setting: &Setting,
    n: usize,
) -> Result<(), NoMemory>
    ensures { OnOk result (out.new.items ≡ out.old.items ++ each (spaced_arm setting.now) 0 n) }
{
    for k in 0..n {
        put_spaced_arm(alloc, out, setting, k)?;
    }
    Ok(())
}

// Whether the needs of one of n arms hold.
fn has_text(alloc: Global, setting: &Setting, n: usize) -> Result<Text, NoMemory>
    ensures { IfOk result (λ t. t ≡ text_of_has setting.now n) }
{
    let mut bytes = Vec::from_slice(alloc, b"(or")?;
    put_spaced_arms(alloc, &mut bytes, setting, n)?;
    bytes.extend_from_slice(b" false)")?;
    Ok(Text { bytes })
}

fn put_test_with<'x>(out: &mut Vec<u8>, holds: &'x [u8], gives: &'x [u8]) -> Result<(), NoMemory>
    ensures { OnOk result (out.new.items ≡ out.old.items ++ test_with holds.now gives.now) }
{
    put_pieces(
        out,
        &[
            b"(ite ".as_slice(),
            holds,
            b" ".as_slice(),
            gives,
            b" ".as_slice(),
        ],
    )
}

fn put_test(
    alloc: Global,
    out: &mut Vec<u8>,
    setting: &Setting,
    output: &[u8],
    k: usize,
) -> Result<(), NoMemory>
    ensures { OnOk result (out.new.items ≡ out.old.items ++ test_text setting.now output.now k) }
{
    let holds = arm_called(alloc, setting, k)?;
    let gives = arm_gives(alloc, setting, output, k)?;
    put_test_with(out, &holds.bytes, &gives.bytes)
}

fn put_tests(
    alloc: Global,
    out: &mut Vec<u8>,
    setting: &Setting,
    output: &[u8],
    n: usize,
) -> Result<(), NoMemory>
    ensures { OnOk result (out.new.items ≡ out.old.items ++ each (test_text setting.now output.now) 0 n) }
{
    for k in 0..n {
        put_test(alloc, out, setting, output, k)?;
    }
    Ok(())
}

// What the first arm whose needs hold gives.
fn first_gives(alloc: Global, setting: &Setting, n: usize, output: &[u8]) -> Result<Text, NoMemory>
    ensures { IfOk result (λ t. t ≡ gives_first setting.now n output.now) }
{
    let last = arm_gives(alloc, setting, output, n)?;
    let mut bytes = Vec::new(alloc);
    put_tests(alloc, &mut bytes, setting, output, n)?;
    bytes.extend_from_slice(&last.bytes)?;
    put_repeated(&mut bytes, b")", n)?;
    Ok(Text { bytes })
}

#[tactic(auto, unfolding(crate::specs::Goals::output_defined))]
fn put_output(
    alloc: Global,
    out: &mut Vec<u8>,
    setting: &Setting,
    n: usize,
    output: &[u8],
) -> Result<(), NoMemory>
    ensures { OnOk result (out.new.items ≡ out.old.items ++ output_defined setting.now n output.now) }
{
    let name = dotted(alloc, &setting.name.bytes, output)?;
    let body = first_gives(alloc, setting, n, output)?;
    put_define(
        alloc,
        out,
        &name.bytes,
        &setting.params,
        b"Int",
        b" ",
        &body.bytes,
    )
}

fn put_outputs(
    alloc: Global,
    out: &mut Vec<u8>,
    setting: &Setting,
    n: usize,
    outputs: &[Text],
) -> Result<(), NoMemory>
    ensures { OnOk result (out.new.items ≡ out.old.items ++ outputs_defined setting.now n outputs.now) }
{
    for output in outputs {
        put_output(alloc, out, setting, n, &output.bytes)?;
    }
    Ok(())
}

#[tactic(auto, unfolding(crate::specs::Goals::has_defined))]
fn put_has(alloc: Global, out: &mut Vec<u8>, setting: &Setting, n: usize) -> Result<(), NoMemory>
    ensures { OnOk result (out.new.items ≡ out.old.items ++ has_defined setting.now n) }
{
    let name = dotted(alloc, &setting.name.bytes, b"has")?;
    let body = has_text(alloc, setting, n)?;
    put_define(
        alloc,
        out,
        &name.bytes,
        &setting.params,
        b"Bool",
        b" ",
        &body.bytes,
    )
}

#[tactic(auto, unfolding(crate::specs::Goals::about_functions))]
fn put_about(out: &mut Vec<u8>, number: &[u8]) -> Result<(), NoMemory>
    ensures { OnOk result (out.new.items ≡ out.old.items ++ about number.now) }
{
    put_pieces(out, &[b"; Choose ".as_slice(), number, ABOUT_FUNCTIONS])
}

// The functions of a choose with so many arms behind the first.
fn put_functions_text(
    alloc: Global,
    out: &mut Vec<u8>,
    setting: &Setting,
    number: &[u8],
    n: usize,
) -> Result<(), NoMemory>
    ensures { OnOk result (out.new.items ≡ out.old.items ++ functions_text setting.now number.now n) }
{
    put_about(out, number)?;
    put_has(alloc, out, setting, next(n)?)?;
    put_outputs(alloc, out, setting, n, &setting.outputs)
}

fn put_functions_if(
    alloc: Global,
    out: &mut Vec<u8>,
    wanted: bool,
    setting: &Setting,
    number: &[u8],
    n: usize,
) -> Result<(), NoMemory>
    ensures { OnOk result (out.new.items ≡ out.old.items ++ functions_if wanted setting.now number.now n) }
{
    if wanted {
        put_functions_text(alloc, out, setting, number, n)
    } else {
        Ok(())
    }
}

/// Puts the functions of a choose, where it has arms and none of them searches.
#[tactic(auto, using(crate::proofs::EachLaws::count_arms))]
pub(crate) fn put_functions(
    alloc: Global,
    out: &mut Vec<u8>,
    setting: &Setting,
    number: &[u8],
    arms: &[Arm],
) -> Result<(), NoMemory>
    ensures { OnOk result (out.new.items ≡ out.old.items ++ functions_defined setting.now number.now (arm_trees arms.now)) }
{
    match arms {
        [] => Ok(()),
        [_first, more @ ..] => put_functions_if(
            alloc,
            out,
            have_no_search(arms),
            setting,
            number,
            more.len(),
        ),
    }
}
