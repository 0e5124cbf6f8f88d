//! Goals of which none has a solution.
ghost use Rattle.std.specs.Prelude.{◌≡◌, suc, ◌++◌, IfOk, OnOk, decimal};
ghost use Rattle.cf_tree.specs.CodeView.{arm_tree, arm_trees};
ghost use Rattle.cf_smt.specs.Goals.{arm_denied, arm_goal, arm_goals, arms_denied, bounds_asserted, call_of_give, denied_at, denied_at_all, denied_below, denied_of, forall_text as text_of_forall, given_digits, given_goal, given_in, gives_called as calls_of_gives, needs_goal, needs_in, relation_name as name_of_relation, unsatisfied as not_satisfied};
ghost use Rattle.cf_smt.specs.Commands.{each, few_below as few};

use crate::arm::{Frame, arm_name, frame_of, with_more};
use crate::command::{
    all_below, all_declared, all_of, call_text, denied, dotted, put_all_asserted, put_asserted,
    put_constants,
};
use crate::names::{Setting, search_names};
use crate::tuple::{few_below, tuple_texts};
use cf_print::{next, put_pieces, text_of_pieces};
use cf_tree::{Arm, NoMemory, Text};
use itoa::Buffer;
use std::alloc::Global;

/// Asks whether there is a solution.
pub const ASKED: &[u8] = b"(check-sat)
(pop 1)
";

/// Before the goal that needs hold.
pub const ABOUT_NEEDS: &[u8] = b"; Where outputs satisfy the relation, the needs of an arm hold.
(push 1)
";

/// Behind the number of an arm, before its goal.
pub const ABOUT_GIVEN: &[u8] = b" gives satisfies the relation.
(push 1)
";

/// The name of the relation.
pub(crate) fn relation_name(alloc: Global, setting: &Setting) -> Result<Text, NoMemory>
    ensures { IfOk result (λ t. t ≡ name_of_relation setting.now) }
{
    dotted(alloc, &setting.name.bytes, b"relation")
}

fn give_called(alloc: Global, frame: &Frame, output: &[u8]) -> Result<Text, NoMemory>
    ensures { IfOk result (λ t. t ≡ call_of_give frame.now output.now) }
{
    let name = dotted(alloc, &frame.name.bytes, output)?;
    call_text(alloc, &name.bytes, &frame.params)
}

fn gives_called(alloc: Global, frame: &Frame, outputs: &[Text]) -> Result<Vec<Text>, NoMemory>
    ensures { IfOk result (λ all. all.items ≡ calls_of_gives frame.now outputs.now) }
{
    let mut all = Vec::new(alloc);
    for output in outputs {
        all.push(give_called(alloc, frame, &output.bytes)?)?;
    }
    Ok(all)
}

// What an arm gives does not satisfy the relation.
fn unsatisfied(alloc: Global, setting: &Setting, frame: &Frame) -> Result<Text, NoMemory>
    ensures { IfOk result (λ t. t ≡ not_satisfied setting.now frame.now) }
{
    let name = relation_name(alloc, setting)?;
    let gives = gives_called(alloc, frame, &setting.outputs)?;
    let terms = with_more(alloc, &setting.params, &gives)?;
    let call = call_text(alloc, &name.bytes, &terms)?;
    denied(alloc, &call.bytes)
}

fn put_given_about(out: &mut Vec<u8>, k: usize) -> Result<(), NoMemory>
    ensures { OnOk result (out.new.items ≡ out.old.items ++ given_digits (decimal (suc k))) }
{
    let mut buffer = Buffer::new();
    let digits = buffer.format(next(k)?).as_bytes();
    put_given_digits(out, digits)
}

#[tactic(auto, unfolding(crate::specs::Goals::given_digits))]
fn put_given_digits(out: &mut Vec<u8>, digits: &[u8]) -> Result<(), NoMemory>
    ensures { OnOk result (out.new.items ≡ out.old.items ++ given_digits digits.now) }
{
    put_pieces(out, &[b"; What arm ".as_slice(), digits, ABOUT_GIVEN])
}

fn put_bounds(alloc: Global, out: &mut Vec<u8>, bounds: &[u32]) -> Result<(), NoMemory>
    ensures { OnOk result (out.new.items ≡ out.old.items ++ bounds_asserted bounds.now) }
{
    let searches = search_names(alloc, bounds)?;
    let all = all_below(alloc, &searches, bounds)?;
    put_all_asserted(out, &all)
}

#[tactic(auto, unfolding(crate::specs::Goals::given_in))]
fn put_given_in(
    alloc: Global,
    out: &mut Vec<u8>,
    setting: &Setting,
    frame: &Frame,
    bounds: &[u32],
) -> Result<(), NoMemory>
    ensures { OnOk result (out.new.items ≡ out.old.items ++ given_in setting.now frame.now bounds.now) }
{
    let call = call_text(alloc, &frame.name.bytes, &frame.params)?;
    let fails = unsatisfied(alloc, setting, frame)?;
    put_constants(out, &frame.params)?;
    put_bounds(alloc, out, bounds)?;
    put_asserted(out, &call.bytes)?;
    put_asserted(out, &fails.bytes)?;
    out.extend_from_slice(ASKED)?;
    Ok(())
}

fn put_given_goal(
    alloc: Global,
    out: &mut Vec<u8>,
    setting: &Setting,
    k: usize,
    bounds: &[u32],
) -> Result<(), NoMemory>
    ensures { OnOk result (out.new.items ≡ out.old.items ++ given_goal setting.now k bounds.now) }
{
    let frame = frame_of(alloc, setting, k, bounds)?;
    put_given_about(out, k)?;
    put_given_in(alloc, out, setting, &frame, bounds)
}

fn put_arm_goal(
    alloc: Global,
    out: &mut Vec<u8>,
    setting: &Setting,
    k: usize,
    arm: &Arm,
) -> Result<(), NoMemory>
    ensures { OnOk result (out.new.items ≡ out.old.items ++ arm_goal setting.now k (arm_tree arm.now)) }
{
    put_given_goal(alloc, out, setting, k, &arm.bounds)
}

/// Puts for each arm the goal that what it gives satisfies the relation.
pub(crate) fn put_arm_goals(
    alloc: Global,
    out: &mut Vec<u8>,
    setting: &Setting,
    arms: &[Arm],
) -> Result<(), NoMemory>
    ensures { OnOk result (out.new.items ≡ out.old.items ++ arm_goals setting.now 0 (arm_trees arms.now)) }
{
    for k in 0..arms.len() {
        put_arm_goal(alloc, out, setting, k, &arms[k])?;
    }
    Ok(())
}

fn denied_call(
    alloc: Global,
    setting: &Setting,
    name: &[u8],
    terms: &[Text],
) -> Result<Text, NoMemory>
    ensures { IfOk result (λ t. t ≡ denied_of setting.now name.now terms.now) }
{
    let all = with_more(alloc, &setting.params, terms)?;
    let call = call_text(alloc, name, &all)?;
    denied(alloc, &call.bytes)
}

// The needs of an arm do not all hold at a tuple of its searches.
fn put_denied_at(
    alloc: Global,
    out: &mut Vec<u8>,
    setting: &Setting,
    name: &[u8],
    bounds: &[u32],
    i: u64,
) -> Result<(), NoMemory>
    ensures { OnOk result (out.new.items ≡ out.old.items ++ denied_at setting.now name.now bounds.now i) }
{
    let terms = tuple_texts(alloc, bounds, i)?;
    let text = denied_call(alloc, setting, name, &terms)?;
    put_asserted(out, &text.bytes)
}

fn put_denied_each(
    alloc: Global,
    out: &mut Vec<u8>,
    setting: &Setting,
    name: &[u8],
    bounds: &[u32],
    n: u64,
) -> Result<(), NoMemory>
    ensures { OnOk result (out.new.items ≡ out.old.items ++ each (denied_at setting.now name.now bounds.now) 0 n) }
{
    for i in 0..n {
        put_denied_at(alloc, out, setting, name, bounds, i)?;
    }
    Ok(())
}

fn forall_text<'x>(
    alloc: Global,
    searches: &'x [u8],
    below: &'x [u8],
    fails: &'x [u8],
) -> Result<Text, NoMemory>
    ensures { IfOk result (λ t. t ≡ text_of_forall searches.now below.now fails.now) }
{
    text_of_pieces(
        alloc,
        &[
            b"(forall (".as_slice(),
            searches,
            b") (=> ".as_slice(),
            below,
            b" ".as_slice(),
            fails,
            b"))".as_slice(),
        ],
    )
}

// The needs of an arm do not all hold at any tuple of its searches.
fn put_denied_at_all(
    alloc: Global,
    out: &mut Vec<u8>,
    setting: &Setting,
    name: &[u8],
    bounds: &[u32],
) -> Result<(), NoMemory>
    ensures { OnOk result (out.new.items ≡ out.old.items ++ denied_at_all setting.now name.now bounds.now) }
{
    let searches = search_names(alloc, bounds)?;
    let declared = all_declared(alloc, &searches)?;
    let below = all_below(alloc, &searches, bounds)?;
    let all = all_of(alloc, &below)?;
    let fails = denied_call(alloc, setting, name, &searches)?;
    let text = forall_text(alloc, &declared.bytes, &all.bytes, &fails.bytes)?;
    put_asserted(out, &text.bytes)
}

fn put_denied_below(
    alloc: Global,
    out: &mut Vec<u8>,
    setting: &Setting,
    name: &[u8],
    bounds: &[u32],
) -> Result<(), NoMemory>
    ensures { OnOk result (out.new.items ≡ out.old.items ++ denied_below setting.now name.now bounds.now (few 1 bounds.now)) }
{
    match few_below(bounds) {
        Some(n) => put_denied_each(alloc, out, setting, name, bounds, n),
        None => put_denied_at_all(alloc, out, setting, name, bounds),
    }
}

fn put_arm_denied(
    alloc: Global,
    out: &mut Vec<u8>,
    setting: &Setting,
    k: usize,
    arm: &Arm,
) -> Result<(), NoMemory>
    ensures { OnOk result (out.new.items ≡ out.old.items ++ arm_denied setting.now k (arm_tree arm.now)) }
{
    let name = arm_name(alloc, &setting.name.bytes, k)?;
    put_denied_below(alloc, out, setting, &name.bytes, &arm.bounds)
}

fn put_arms_denied(
    alloc: Global,
    out: &mut Vec<u8>,
    setting: &Setting,
    arms: &[Arm],
) -> Result<(), NoMemory>
    ensures { OnOk result (out.new.items ≡ out.old.items ++ arms_denied setting.now 0 (arm_trees arms.now)) }
{
    for k in 0..arms.len() {
        put_arm_denied(alloc, out, setting, k, &arms[k])?;
    }
    Ok(())
}

/// Puts the goal that where outputs satisfy the relation, the needs of an arm hold.
#[tactic(auto, unfolding(crate::specs::Goals::needs_goal))]
pub(crate) fn put_needs_goal(
    alloc: Global,
    out: &mut Vec<u8>,
    setting: &Setting,
    arms: &[Arm],
) -> Result<(), NoMemory>
    ensures { OnOk result (out.new.items ≡ out.old.items ++ needs_goal setting.now (arm_trees arms.now)) }
{
    out.extend_from_slice(ABOUT_NEEDS)?;
    put_needs_in(alloc, out, setting, arms)
}

#[tactic(auto, unfolding(crate::specs::Goals::needs_in))]
fn put_needs_in(
    alloc: Global,
    out: &mut Vec<u8>,
    setting: &Setting,
    arms: &[Arm],
) -> Result<(), NoMemory>
    ensures { OnOk result (out.new.items ≡ out.old.items ++ needs_in setting.now (arm_trees arms.now)) }
{
    let names = with_more(alloc, &setting.params, &setting.outputs)?;
    let relation = relation_name(alloc, setting)?;
    let call = call_text(alloc, &relation.bytes, &names)?;
    put_constants(out, &names)?;
    put_asserted(out, &call.bytes)?;
    put_arms_denied(alloc, out, setting, arms)?;
    out.extend_from_slice(ASKED)?;
    Ok(())
}
