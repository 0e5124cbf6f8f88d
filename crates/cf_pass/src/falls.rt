//! Lets that are dropped, and levels that fall behind them.
ghost use Rattle.std.specs.Prelude.{◌≡◌, ◌≤◌, ◌<◌, ◌+◌, suc, ◌++◌, [], length, take, drop, if◌then◌else◌, slice_index_or, vec_capacity};
ghost use Rattle.cf_tree.specs.CodeTree.{CodeTrees};
ghost use Rattle.cf_tree.specs.CodeView.{code_tree, item_tree, code_trees, item_trees};
ghost use Rattle.cf_pass.specs.Lets.{moved, all_moved, item_moved};
ghost use Rattle.cf_pass.specs.LetSteps.{lowered, next_stays, next_gone, next_dropped, item_stays, item_gone, item_dropped, item_rest, left};

use cf_tree::{Arm, Code, Item};

// How levels fall behind some lets.
#[derive(Drop)]
pub(crate) struct Fall {
    // The level of the first let.
    pub(crate) first: usize,
    // How many lets are dropped before each let so far.
    pub(crate) gone: Vec<usize>,
    // How many are dropped so far.
    pub(crate) dropped: usize,
}

// The items that stay move to the front, each with its levels fallen.
pub(crate) fn settle_items(fall: &mut Fall, stay: &[bool], items: &mut Vec<Item>)
    requires room { length stay.now ≤ vec_capacity fall.old.gone }
    requires few { fall.old.dropped ≤ length fall.old.gone.items }
    ensures first { fall.new.first ≡ fall.old.first }
    ensures left { (gs : CodeTrees) → left fall.old.first fall.old.gone.items fall.old.dropped (drop (length fall.old.gone.items) stay.now)
        (item_trees items.old.items) gs
        ≡ record { items = item_trees items.new.items; gives = all_moved (lowered fall.new.first fall.new.gone.items fall.new.dropped) gs } }
{
    let mut kept = 0;
    let mut i = 0;
    while i < items.len() {
        let stays = settle_item(fall, stay, &mut items[i]);
        kept = keep_at(items, kept, i, stays);
        i += 1;
    }
    items.truncate(kept);
}

// The item at place i moves behind the first `kept` ones, if it stays. Answers how many are kept.
fn keep_at(items: &mut Vec<Item>, kept: usize, i: usize, stays: bool) -> usize
    requires inside { i < length items.old.items }
    requires kept { kept ≤ i }
    ensures front { take result items.new.items ≡ take kept items.old.items ++ (if stays then take 1 (drop i items.old.items) else []) }
    ensures back { drop (suc i) items.new.items ≡ drop (suc i) items.old.items }
    ensures kept { result ≤ suc i }
    ensures len { length items.new.items ≡ length items.old.items }
{
    if stays {
        items.swap(kept, i);
        kept + 1
    } else {
        kept
    }
}

// Answers whether the item stays.
fn settle_item(fall: &mut Fall, stay: &[bool], item: &mut Item) -> bool
    requires room { length stay.now ≤ vec_capacity fall.old.gone }
    requires few { fall.old.dropped ≤ length fall.old.gone.items }
    ensures room { length stay.now ≤ vec_capacity fall.new.gone }
    ensures few { fall.new.dropped ≤ length fall.new.gone.items }
    ensures first { fall.new.first ≡ fall.old.first }
    ensures stays { result ≡ item_stays (drop (length fall.old.gone.items) stay.now) (item_tree item.old) }
    ensures item { item_tree item.new ≡ item_moved (lowered fall.old.first fall.old.gone.items fall.old.dropped) (item_tree item.old) }
    ensures gone { fall.new.gone.items ≡ item_gone (drop (length fall.old.gone.items) stay.now) (item_tree item.old) fall.old.gone.items fall.old.dropped }
    ensures dropped { fall.new.dropped ≡ item_dropped (drop (length fall.old.gone.items) stay.now) (item_tree item.old) fall.old.dropped }
    ensures rest { drop (length fall.new.gone.items) stay.now ≡ item_rest (drop (length fall.old.gone.items) stay.now) (item_tree item.old) }
{
    match item {
        Item::Let(code) => {
            lower(fall, code);
            next_let(fall, stay)
        }
        Item::Need(code) => {
            lower(fall, code);
            true
        }
    }
}

// Answers whether the next let stays.
fn next_let(fall: &mut Fall, stay: &[bool]) -> bool
    requires room { length stay.now ≤ vec_capacity fall.old.gone }
    requires few { fall.old.dropped ≤ length fall.old.gone.items }
    ensures room { length stay.now ≤ vec_capacity fall.new.gone }
    ensures few { fall.new.dropped ≤ length fall.new.gone.items }
    ensures first { fall.new.first ≡ fall.old.first }
    ensures stays { result ≡ next_stays (drop (length fall.old.gone.items) stay.now) }
    ensures gone { fall.new.gone.items ≡ next_gone (drop (length fall.old.gone.items) stay.now) fall.old.gone.items fall.old.dropped }
    ensures dropped { fall.new.dropped ≡ next_dropped (drop (length fall.old.gone.items) stay.now) fall.old.dropped }
    ensures rest { drop (length fall.new.gone.items) stay.now ≡ drop 1 (drop (length fall.old.gone.items) stay.now) }
{
    match stay.get(fall.gone.len()) {
        Some(stays) => {
            fall.gone.push_reserved(fall.dropped);
            if !*stays {
                fall.dropped += 1;
            }
            *stays
        }
        None => false,
    }
}

// Each level in the code falls.
#[cycle(lower)]
fn lower(fall: &Fall, code: &mut Code)
    ensures { code_tree code.new ≡ moved (lowered fall.now.first fall.now.gone.items fall.now.dropped) (code_tree code.old) }
{
    match code {
        Code::Lit(_) | Code::Truth(_) | Code::Solve { .. } => {}
        Code::Var(level) => lower_level(fall, level),
        Code::SetOf(parts) => lower_all(fall, parts),
        Code::Tuple(parts) => lower_all(fall, parts),
        Code::Sum(parts) => lower_all(fall, parts),
        Code::Sub(a, b) => lower_two(fall, a, b),
        Code::Mul(a, b) => lower_two(fall, a, b),
        Code::Neg(a) => lower_part(fall, a),
        Code::Div { of, .. } => lower_part(fall, of),
        Code::Mod { of, .. } => lower_part(fall, of),
        Code::Min(parts) => lower_all(fall, parts),
        Code::Max(parts) => lower_all(fall, parts),
        Code::Compare { left, right, .. } => lower_two(fall, left, right),
        Code::Divides { of, .. } => lower_part(fall, of),
        Code::And(a, b) => lower_two(fall, a, b),
        Code::Or(a, b) => lower_two(fall, a, b),
        Code::Not(a) => lower_part(fall, a),
        Code::Union(parts) => lower_all(fall, parts),
        Code::Inter(parts) => lower_all(fall, parts),
        Code::Diff(a, b) => lower_two(fall, a, b),
        Code::Subset(a, b) => lower_two(fall, a, b),
        Code::Card(a) => lower_part(fall, a),
        Code::Slice { set, from, n } => lower_three(fall, set, from, n),
        Code::Fresh { avoid, n } => lower_two(fall, avoid, n),
        Code::If { test, yes, no } => lower_three(fall, test, yes, no),
        Code::Let {
            first,
            value,
            body,
            ..
        } => {
            lower_level(fall, first);
            lower_two(fall, value, body);
        }
    }
}

// for the proof: the parts of a form are lent with their boxes
#[cycle(lower)]
fn lower_part(fall: &Fall, part: &mut Box<Code>)
    ensures { code_tree part.new.value ≡ moved (lowered fall.now.first fall.now.gone.items fall.now.dropped) (code_tree part.old.value) }
{
    lower(fall, part);
}

#[cycle(lower)]
fn lower_two(fall: &Fall, a: &mut Box<Code>, b: &mut Box<Code>)
    ensures a { code_tree a.new.value ≡ moved (lowered fall.now.first fall.now.gone.items fall.now.dropped) (code_tree a.old.value) }
    ensures b { code_tree b.new.value ≡ moved (lowered fall.now.first fall.now.gone.items fall.now.dropped) (code_tree b.old.value) }
{
    lower(fall, a);
    lower(fall, b);
}

#[cycle(lower)]
fn lower_three(fall: &Fall, a: &mut Box<Code>, b: &mut Box<Code>, c: &mut Box<Code>)
    ensures a { code_tree a.new.value ≡ moved (lowered fall.now.first fall.now.gone.items fall.now.dropped) (code_tree a.old.value) }
    ensures b { code_tree b.new.value ≡ moved (lowered fall.now.first fall.now.gone.items fall.now.dropped) (code_tree b.old.value) }
    ensures c { code_tree c.new.value ≡ moved (lowered fall.now.first fall.now.gone.items fall.now.dropped) (code_tree c.old.value) }
{
    lower(fall, a);
    lower(fall, b);
    lower(fall, c);
}

#[cycle(lower)]
pub(crate) fn lower_all(fall: &Fall, codes: &mut Vec<Code>)
    ensures { code_trees codes.new.items ≡ all_moved (lowered fall.now.first fall.now.gone.items fall.now.dropped) (code_trees codes.old.items) }
{
    for code in codes.iter_mut() {
        lower(fall, code);
    }
}

fn lower_level(fall: &Fall, level: &mut u32)
    ensures { level.new ≡ lowered fall.now.first fall.now.gone.items fall.now.dropped level.old }
{
    let old = *level as usize;
    let fallen = old.saturating_sub(dropped_before(fall, old.saturating_sub(fall.first)));
    *level = fallen as u32;
}

// How many lets are dropped before the let at this place.
fn dropped_before(fall: &Fall, place: usize) -> usize
    ensures { result ≡ slice_index_or fall.now.gone.items place fall.now.dropped }
{
    match fall.gone.get(place) {
        Some(n) => *n,
        None => fall.dropped,
    }
}
