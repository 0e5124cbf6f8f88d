//! What each arm needs and gives, as functions.
ghost use Rattle.std.specs.Prelude.{◌≡◌, ◌++◌, map, slice_index_or, [], IfOk, OnOk};
ghost use Rattle.cf_tree.specs.CodeView.{arm_tree, arm_trees, code_tree, code_trees, item_trees};
ghost use Rattle.cf_smt.specs.Goals.{arm_defined, arm_name as name_of_arm, arms_defined, frame_of as frame_for, give_defined, give_text as text_of_give, gives_defined, in_lets_read as in_lets_of, need_text as text_of_needs, needs_defined, numbered_arm};
ghost use Rattle.cf_smt.specs.Terms.{code_text as text_of_code};

use crate::code::put_code;
use crate::command::{all_of, dotted, put_define};
use crate::lets::{lets_kept, needs_of, put_in_lets};
use crate::names::{Setting, search_names};
use cf_print::{copies, next, text_of_pieces};
use cf_tree::{Arm, Code, Item, NoMemory, Text, to_u32};
use itoa::Buffer;
use std::alloc::Global;
use std::marker::Model;

/// What stands in the text of an arm: its name, the names of its variables by level but for those of its lets, and its parameters.
#[derive(Drop)]
pub(crate) struct Frame {
    pub name: Text,
    pub names: Vec<Text>,
    pub params: Vec<Text>,
}

impl Model for Frame {
    ghost use Rattle.cf_smt.specs.Goals.{Frame as PlainFrame};

    ghost Value = { PlainFrame };

    ghost view = { λ f. record {
      name = f.name;
      names = f.names.items;
      params = f.params.items;
    } };
}

/// The name of the k-th arm.
pub(crate) fn arm_name(alloc: Global, name: &[u8], k: usize) -> Result<Text, NoMemory>
    ensures { IfOk result (λ t. t ≡ name_of_arm name.now k) }
{
    let mut buffer = Buffer::new();
    let digits = buffer.format(next(k)?).as_bytes();
    text_of_arm(alloc, name, digits)
}

fn text_of_arm<'x>(alloc: Global, name: &'x [u8], digits: &'x [u8]) -> Result<Text, NoMemory>
    ensures { IfOk result (λ t. t ≡ numbered_arm name.now digits.now) }
{
    text_of_pieces(alloc, &[name, b".arm".as_slice(), digits])
}

/// Names, and others behind them.
pub(crate) fn with_more(alloc: Global, names: &[Text], more: &[Text]) -> Result<Vec<Text>, NoMemory>
    ensures { IfOk result (λ all. all.items ≡ names.now ++ more.now) }
{
    let mut all = copies(alloc, names)?;
    for name in more {
        all.push(name.try_copy(alloc)?)?;
    }
    Ok(all)
}

/// What stands in the text of the k-th arm.
pub(crate) fn frame_of(
    alloc: Global,
    setting: &Setting,
    k: usize,
    bounds: &[u32],
) -> Result<Frame, NoMemory>
    ensures { IfOk result (λ f. f ≡ frame_for setting.now k bounds.now) }
{
    let searches = search_names(alloc, bounds)?;
    let name = arm_name(alloc, &setting.name.bytes, k)?;
    let names = with_more(alloc, &setting.scope, &searches)?;
    let params = with_more(alloc, &setting.params, &searches)?;
    Ok(Frame {
        name,
        names,
        params,
    })
}

fn code_text(alloc: Global, names: &[Text], code: &Code) -> Result<Text, NoMemory>
    ensures { IfOk result (λ t. t ≡ text_of_code names.now (code_tree code.now)) }
{
    let mut bytes = Vec::new(alloc);
    put_code(&mut bytes, names, code)?;
    Ok(Text { bytes })
}

fn code_texts(alloc: Global, names: &[Text], codes: &[&Code]) -> Result<Vec<Text>, NoMemory>
    ensures { IfOk result (λ all. all.items ≡ map (text_of_code names.now) (map (λ c. code_tree c.now) codes.now)) }
{
    let mut all = Vec::new(alloc);
    for code in codes {
        all.push(code_text(alloc, names, code)?)?;
    }
    Ok(all)
}

// A term in those of the lets of an arm without which some codes cannot be read.
fn in_lets_read(
    alloc: Global,
    names: &[Text],
    items: &[Item],
    codes: &[&Code],
    term: &[u8],
) -> Result<Text, NoMemory>
    ensures { IfOk result (λ t. t ≡ in_lets_of names.now (item_trees items.now) (map (λ c. code_tree c.now) codes.now) term.now) }
{
    let first = to_u32(names.len())?;
    let lets = lets_kept(alloc, first, items, codes)?;
    let mut bytes = Vec::new(alloc);
    put_in_lets(&mut bytes, names, &lets, term)?;
    Ok(Text { bytes })
}

// Whether all needs hold.
fn need_text(alloc: Global, names: &[Text], items: &[Item]) -> Result<Text, NoMemory>
    ensures { IfOk result (λ t. t ≡ text_of_needs names.now (item_trees items.now)) }
{
    let needs = needs_of(alloc, items)?;
    let texts = code_texts(alloc, names, &needs)?;
    let all = all_of(alloc, &texts)?;
    in_lets_read(alloc, names, items, &needs, &all.bytes)
}

// What is given.
fn give_text(alloc: Global, names: &[Text], items: &[Item], give: &Code) -> Result<Text, NoMemory>
    ensures { IfOk result (λ t. t ≡ text_of_give names.now (item_trees items.now) (code_tree give.now)) }
{
    let text = code_text(alloc, names, give)?;
    in_lets_read(alloc, names, items, &[give], &text.bytes)
}

#[tactic(auto, unfolding(crate::specs::Goals::needs_defined))]
fn put_needs(
    alloc: Global,
    out: &mut Vec<u8>,
    frame: &Frame,
    items: &[Item],
) -> Result<(), NoMemory>
    ensures { OnOk result (out.new.items ≡ out.old.items ++ needs_defined frame.now (item_trees items.now)) }
{
    let body = need_text(alloc, &frame.names, items)?;
    put_define(
        alloc,
        out,
        &frame.name.bytes,
        &frame.params,
        b"Bool",
        b"\n  ",
        &body.bytes,
    )
}

#[tactic(auto, unfolding(crate::specs::Goals::give_defined))]
fn put_give(
    alloc: Global,
    out: &mut Vec<u8>,
    frame: &Frame,
    items: &[Item],
    output: &[u8],
    give: &Code,
) -> Result<(), NoMemory>
    ensures { OnOk result (out.new.items ≡ out.old.items ++ give_defined frame.now (item_trees items.now) output.now (code_tree give.now)) }
{
    let name = dotted(alloc, &frame.name.bytes, output)?;
    let body = give_text(alloc, &frame.names, items, give)?;
    put_define(
        alloc,
        out,
        &name.bytes,
        &frame.params,
        b"Int",
        b"\n  ",
        &body.bytes,
    )
}

// The name at a place, or no text.
fn text_at(names: &[Text], place: usize) -> &[u8]
    ensures { result.now ≡ slice_index_or names.now place [] }
{
    match names.get(place) {
        Some(name) => &name.bytes,
        None => &[],
    }
}

fn put_gives(
    alloc: Global,
    out: &mut Vec<u8>,
    frame: &Frame,
    items: &[Item],
    outputs: &[Text],
    gives: &[Code],
) -> Result<(), NoMemory>
    ensures { OnOk result (out.new.items ≡ out.old.items ++ gives_defined frame.now (item_trees items.now) outputs.now 0 (code_trees gives.now)) }
{
    for j in 0..gives.len() {
        put_give(alloc, out, frame, items, text_at(outputs, j), &gives[j])?;
    }
    Ok(())
}

fn put_arm(
    alloc: Global,
    out: &mut Vec<u8>,
    setting: &Setting,
    k: usize,
    arm: &Arm,
) -> Result<(), NoMemory>
    ensures { OnOk result (out.new.items ≡ out.old.items ++ arm_defined setting.now k (arm_tree arm.now)) }
{
    let frame = frame_of(alloc, setting, k, &arm.bounds)?;
    put_needs(alloc, out, &frame, &arm.items)?;
    put_gives(alloc, out, &frame, &arm.items, &setting.outputs, &arm.gives)
}

/// Puts what each arm needs and gives.
pub(crate) fn put_arms(
    alloc: Global,
    out: &mut Vec<u8>,
    setting: &Setting,
    arms: &[Arm],
) -> Result<(), NoMemory>
    ensures { OnOk result (out.new.items ≡ out.old.items ++ arms_defined setting.now 0 (arm_trees arms.now)) }
{
    for k in 0..arms.len() {
        put_arm(alloc, out, setting, k, &arms[k])?;
    }
    Ok(())
}
