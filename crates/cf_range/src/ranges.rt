//! The ranges of more variables.
ghost use Rattle.std.specs.Prelude.{◌≡◌, ◌∷◌, [], ◌++◌, IfOk};
ghost use Rattle.cf_tree.specs.CodeView.{code_tree, item_tree, item_trees};
ghost use Rattle.cf_range.specs.Settled.{with_wholes, ranges_with, ranges_behind, ranges_behind_all};

use crate::codes::range_of;
use crate::range::Range;
use cf_tree::{Code, Item, NoMemory};
use std::alloc::Global;

/// The ranges, and so many whole ones behind them.
#[tactic(auto, using(crate::proofs::SettledLists::wholes_none, crate::proofs::SettledLists::wholes_more))]
pub(crate) fn with_wholes(alloc: Global, ranges: &[Range], n: usize) -> Result<Vec<Range>, NoMemory>
    ensures { IfOk result (λ all. all.items ≡ with_wholes ranges.now n) }
{
    let mut all = Vec::from_slice(alloc, ranges)?;
    let mut left = n;
    while left > 0 {
        all.push(Range::whole())?;
        left -= 1;
    }
    Ok(all)
}

/// The ranges behind so many values of a code.
pub(crate) fn ranges_with(
    alloc: Global,
    ranges: &[Range],
    n: u32,
    code: &Code,
) -> Result<Vec<Range>, NoMemory>
    ensures { IfOk result (λ all. all.items ≡ ranges_with ranges.now n (code_tree code.now)) }
{
    if n == 1 {
        one_more(alloc, ranges, range_of(ranges, code))
    } else {
        with_wholes(alloc, ranges, n as usize)
    }
}

fn one_more(alloc: Global, ranges: &[Range], range: Range) -> Result<Vec<Range>, NoMemory>
    ensures { IfOk result (λ all. all.items ≡ ranges.now ++ range ∷ []) }
{
    let mut all = Vec::from_slice(alloc, ranges)?;
    all.push(range)?;
    Ok(all)
}

/// The ranges behind items.
pub(crate) fn ranges_behind_all(
    alloc: Global,
    ranges: &[Range],
    items: &[Item],
) -> Result<Vec<Range>, NoMemory>
    ensures { IfOk result (λ all. all.items ≡ ranges_behind_all ranges.now (item_trees items.now)) }
{
    let mut all = Vec::from_slice(alloc, ranges)?;
    for item in items {
        range_behind(&mut all, item)?;
    }
    Ok(all)
}

/// The ranges behind one item more.
pub(crate) fn range_behind(all: &mut Vec<Range>, item: &Item) -> Result<(), NoMemory>
    ensures { IfOk result (λ done. all.new.items ≡ ranges_behind all.old.items (item_tree item.now)) }
{
    match item {
        Item::Let(code) => {
            let range = range_of(all, code);
            all.push(range)?;
            Ok(())
        }
        Item::Need(_) => Ok(()),
    }
}
