//! The lets of an arm, and those without which a term cannot be read.
ghost use Rattle.std.specs.Prelude.{◌≡◌, ◌++◌, [], length, map, reverse, IfOk, OnOk};
ghost use Rattle.std.specs.List.{list_any};
ghost use Rattle.cf_tree.specs.CodeView.{code_tree, item_tree, item_trees};
ghost use Rattle.cf_smt.specs.BoundView.{plain_bound};
ghost use Rattle.cf_smt.specs.Lets.{are_read as read_by, bound_of, in_lets, kept_behind, kept_if, let_text, lets_kept as kept_of, lets_of as all_lets, lets_text, level_behind, need_of, needs_of as all_needs};
ghost use Rattle.cf_smt.specs.Reads.{reads as read_in};

use crate::code::put_code;
use crate::reads::reads;
use crate::word::put_name;
use cf_print::put_repeated;
use cf_tree::{Code, Item, NoMemory, Text, add_u32};
use std::alloc::Global;

/// The value of a let, and the level of its variable.
#[derive(Drop)]
pub(crate) struct Bound<'a> {
    pub level: u32,
    pub value: &'a Code,
}

// Adds the let of an item, and tells the level behind it.
fn add_let<'a>(all: &mut Vec<Bound<'a>>, level: u32, item: &'a Item) -> Result<u32, NoMemory>
    ensures added { OnOk result (map plain_bound all.new.items ≡ map plain_bound all.old.items ++ bound_of level (item_tree item.now)) }
    ensures level { IfOk result (λ behind. behind ≡ level_behind level (item_tree item.now)) }
{
    match item {
        Item::Let(value) => {
            all.push(Bound { level, value })?;
            add_u32(level, 1)
        }
        Item::Need(_) => Ok(level),
    }
}

// The lets of items.
fn lets_of<'a>(alloc: Global, first: u32, items: &'a [Item]) -> Result<Vec<Bound<'a>>, NoMemory>
    ensures { IfOk result (λ all. map plain_bound all.items ≡ all_lets first (item_trees items.now)) }
{
    let mut all = Vec::new(alloc);
    let mut level = first;
    for item in items {
        level = add_let(&mut all, level, item)?;
    }
    Ok(all)
}

// Adds the condition of a need.
fn add_need<'a>(all: &mut Vec<&'a Code>, item: &'a Item) -> Result<(), NoMemory>
    ensures { OnOk result (map (λ c. code_tree c.now) all.new.items ≡ map (λ c. code_tree c.now) all.old.items ++ need_of (item_tree item.now)) }
{
    match item {
        Item::Let(_) => Ok(()),
        Item::Need(code) => {
            all.push(code)?;
            Ok(())
        }
    }
}

/// The conditions that items need.
pub(crate) fn needs_of<'a>(alloc: Global, items: &'a [Item]) -> Result<Vec<&'a Code>, NoMemory>
    ensures { IfOk result (λ all. map (λ c. code_tree c.now) all.items ≡ all_needs (item_trees items.now)) }
{
    let mut all = Vec::new(alloc);
    for item in items {
        add_need(&mut all, item)?;
    }
    Ok(all)
}

// Whether one of some codes reads the variable of a level.
fn codes_read(level: u32, codes: &[&Code]) -> bool
    ensures { result ≡ list_any (read_in level) (map (λ c. code_tree c.now) codes.now) }
{
    for code in codes {
        if reads(level, code) {
            return true;
        }
    }
    false
}

// Whether the value of one of some lets reads the variable of a level.
fn lets_read(level: u32, lets: &[Bound<'_>]) -> bool
    ensures { result ≡ list_any (λ l. read_in level l.value) (map plain_bound lets.now) }
{
    for bound in lets {
        if reads(level, bound.value) {
            return true;
        }
    }
    false
}

fn are_read(level: u32, codes: &[&Code], lets: &[Bound<'_>]) -> bool
    ensures { result ≡ read_by level (map (λ c. code_tree c.now) codes.now) (map plain_bound lets.now) }
{
    codes_read(level, codes) || lets_read(level, lets)
}

// Adds a let where it is wanted.
fn keep_if<'a>(kept: &mut Vec<Bound<'a>>, bound: &Bound<'a>, wanted: bool) -> Result<(), NoMemory>
    ensures { OnOk result (map plain_bound kept.new.items ≡ map plain_bound kept.old.items ++ kept_if wanted (plain_bound bound.now)) }
{
    if wanted {
        kept.push(Bound {
            level: bound.level,
            value: bound.value,
        })?;
    }
    Ok(())
}

// Those of the lets, from the last to the first, without which the codes cannot be read.
fn kept_of_last<'a>(
    alloc: Global,
    codes: &[&Code],
    lets: &[Bound<'a>],
) -> Result<Vec<Bound<'a>>, NoMemory>
    ensures { IfOk result (λ all. map plain_bound all.items ≡ kept_behind (map (λ c. code_tree c.now) codes.now) [] (map plain_bound lets.now)) }
{
    let mut kept = Vec::new(alloc);
    for bound in lets {
        let wanted = are_read(bound.level, codes, &kept);
        keep_if(&mut kept, bound, wanted)?;
    }
    Ok(kept)
}

/// The lets of items without which the codes cannot be read.
#[tactic(auto, using(crate::proofs::LetLists::bounds_reversed))]
pub(crate) fn lets_kept<'a>(
    alloc: Global,
    first: u32,
    items: &'a [Item],
    codes: &[&Code],
) -> Result<Vec<Bound<'a>>, NoMemory>
    ensures { IfOk result (λ all. map plain_bound all.items ≡ kept_of first (item_trees items.now) (map (λ c. code_tree c.now) codes.now)) }
{
    let mut lets = lets_of(alloc, first, items)?;
    lets.reverse();
    let mut kept = kept_of_last(alloc, codes, &lets)?;
    kept.reverse();
    Ok(kept)
}

fn put_let(out: &mut Vec<u8>, names: &[Text], bound: &Bound<'_>) -> Result<(), NoMemory>
    ensures { OnOk result (out.new.items ≡ out.old.items ++ let_text names.now (plain_bound bound.now)) }
{
    out.extend_from_slice(b"(let ((")?;
    put_name(out, names, bound.level)?;
    out.push(b' ')?;
    put_code(out, names, bound.value)?;
    out.extend_from_slice(b"))\n  ")?;
    Ok(())
}

fn put_lets(out: &mut Vec<u8>, names: &[Text], lets: &[Bound<'_>]) -> Result<(), NoMemory>
    ensures { OnOk result (out.new.items ≡ out.old.items ++ lets_text names.now (map plain_bound lets.now)) }
{
    for bound in lets {
        put_let(out, names, bound)?;
    }
    Ok(())
}

/// Puts a term in some lets.
#[tactic(auto, using(crate::proofs::LetLists::count_bounds))]
pub(crate) fn put_in_lets(
    out: &mut Vec<u8>,
    names: &[Text],
    lets: &[Bound<'_>],
    term: &[u8],
) -> Result<(), NoMemory>
    ensures { OnOk result (out.new.items ≡ out.old.items ++ in_lets names.now (map plain_bound lets.now) term.now) }
{
    put_lets(out, names, lets)?;
    out.extend_from_slice(term)?;
    put_repeated(out, b")", lets.len())
}
