//! Which lets of an arm stay: those that a later item that stays uses, or a give.
ghost use Rattle.std.specs.Prelude.{◌≡◌, ◌≤◌, true, false, IfOk, if◌then◌else◌, slice_index_or, slice_set};
ghost use Rattle.cf_tree.specs.CodeView.{code_tree, item_tree, code_trees, item_trees};
ghost use Rattle.cf_pass.specs.Parts.{count_lets};
ghost use Rattle.cf_pass.specs.LetSteps.{level_marked, marked, all_marked, item_marked, items_marked, lets_of, lets_before, lets_stay};

use cf_tree::{Code, Item, NoMemory};
use std::alloc::Global;

// One truth value for each let, in order. The first let has level `first`.
pub(crate) fn lets_that_stay(
    alloc: Global,
    first: usize,
    items: &[Item],
    gives: &[Code],
) -> Result<Vec<bool>, NoMemory>
    ensures { IfOk result (λ stay. stay.items ≡ lets_stay first (item_trees items.now) (code_trees gives.now)) }
{
    let count = count_lets(items);
    let mut used = Vec::new(alloc);
    used.resize(count, false)?;
    mark_all(first, count, gives, &mut used);
    mark_items(first, count, items, &mut used);
    Ok(used)
}

fn count_lets(items: &[Item]) -> usize
    ensures { result ≡ count_lets (item_trees items.now) }
{
    let mut count = 0;
    for item in items {
        count += lets_in(item);
    }
    count
}

fn lets_in(item: &Item) -> usize
    ensures count { result ≡ lets_of (item_tree item.now) }
    ensures one { result ≤ 1 }
{
    match item {
        Item::Let(_) => 1,
        Item::Need(_) => 0,
    }
}

// From the last item to the first, so that a let is decided when it is reached.
fn mark_items(first: usize, count: usize, items: &[Item], used: &mut Vec<bool>)
    ensures { used.new.items ≡ items_marked first count (item_trees items.now) used.old.items }
{
    let mut known = count;
    let mut i = items.len();
    while i > 0 {
        i -= 1;
        known = mark_item(first, known, &items[i], used);
    }
}

// Answers how many lets stand before the item.
fn mark_item(first: usize, known: usize, item: &Item, used: &mut Vec<bool>) -> usize
    ensures used { used.new.items ≡ item_marked first known (item_tree item.now) used.old.items }
    ensures before { result ≡ lets_before (item_tree item.now) known }
{
    match item {
        Item::Let(code) => {
            let before = known.saturating_sub(1);
            mark_let(first, before, code, used);
            before
        }
        Item::Need(code) => {
            mark(first, known, code, used);
            known
        }
    }
}

// A let that is not used marks nothing.
fn mark_let(first: usize, before: usize, code: &Code, used: &mut Vec<bool>)
    ensures { used.new.items ≡ (if slice_index_or used.old.items before false then marked first before (code_tree code.now) used.old.items
        else used.old.items) }
{
    if is_marked(used, before) {
        mark(first, before, code, used);
    }
}

fn is_marked(used: &[bool], place: usize) -> bool
    ensures { result ≡ slice_index_or used.now place false }
{
    match used.get(place) {
        Some(mark) => *mark,
        None => false,
    }
}

// Each level that the code uses among the first `known` from level `first` on.
#[cycle(mark)]
fn mark(first: usize, known: usize, code: &Code, used: &mut Vec<bool>)
    ensures { used.new.items ≡ marked first known (code_tree code.now) used.old.items }
{
    match code {
        Code::Lit(_) | Code::Truth(_) | Code::Solve { .. } => {}
        Code::Var(level) => mark_level(first, known, *level, used),
        Code::SetOf(parts)
        | Code::Tuple(parts)
        | Code::Sum(parts)
        | Code::Min(parts)
        | Code::Max(parts)
        | Code::Union(parts)
        | Code::Inter(parts) => mark_all(first, known, parts, used),
        Code::Neg(a)
        | Code::Not(a)
        | Code::Card(a)
        | Code::Div { of: a, .. }
        | Code::Mod { of: a, .. }
        | Code::Divides { of: a, .. } => mark(first, known, a, used),
        Code::Sub(a, b)
        | Code::Mul(a, b)
        | Code::And(a, b)
        | Code::Or(a, b)
        | Code::Diff(a, b)
        | Code::Subset(a, b)
        | Code::Compare {
            left: a,
            right: b,
            ..
        }
        | Code::Fresh { avoid: a, n: b }
        | Code::Let {
            value: a,
            body: b,
            ..
        } => {
            mark(first, known, a, used);
            mark(first, known, b, used);
        }
        Code::Slice {
            set: a,
            from: b,
            n: c,
        }
        | Code::If {
            test: a,
            yes: b,
            no: c,
        } => {
            mark(first, known, a, used);
            mark(first, known, b, used);
            mark(first, known, c, used);
        }
    }
}

#[cycle(mark)]
fn mark_all(first: usize, known: usize, codes: &[Code], used: &mut Vec<bool>)
    ensures { used.new.items ≡ all_marked first known (code_trees codes.now) used.old.items }
{
    for code in codes {
        mark(first, known, code, used);
    }
}

fn mark_level(first: usize, known: usize, level: u32, used: &mut Vec<bool>)
    ensures { used.new.items ≡ level_marked first known level used.old.items }
{
    let level = level as usize;
    if level >= first {
        let place = level - first;
        if place < known {
            set_mark(used, place);
        }
    }
}

// Where there is no such place, nothing changes.
fn set_mark(used: &mut Vec<bool>, place: usize)
    ensures { used.new.items ≡ slice_set used.old.items place true }
{
    if place < used.len() {
        used[place] = true;
    }
}
