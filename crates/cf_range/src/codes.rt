//! The ranges of codes.
ghost use Rattle.std.specs.Prelude.{◌≡◌, pos, neg_ℤ};
ghost use Rattle.std.specs.Int.{int_min, int_max};
ghost use Rattle.cf_num.specs.Limit.{limit};
ghost use Rattle.cf_tree.specs.CodeView.{code_tree, code_trees};
ghost use Rattle.cf_range.specs.Ranges.{between, range_at, plus_all, plus_all_passes, best_of};
ghost use Rattle.cf_range.specs.CodeRanges.{range_of, ranges_of, may_pass};

use crate::range::{Range, number_passes};
use cf_tree::Code;

/// Between which numbers the code gives, where no number that it meets is past the limit. `ranges` are those of its variables, by level.
#[cycle(ranges)]
pub fn range_of(ranges: &[Range], code: &Code) -> Range
    ensures { result ≡ range_of ranges.now (code_tree code.now) }
{
    match code {
        Code::Lit(k) => Range::exactly(*k),
        Code::Var(x) => range_at(ranges, *x),
        Code::Sum(parts) => range_of_sum(ranges, parts),
        Code::Sub(a, b) => range_of(ranges, a).minus(range_of(ranges, b)),
        Code::Mul(a, b) => range_of(ranges, a).times(range_of(ranges, b)),
        Code::Neg(a) => range_of(ranges, a).negated(),
        Code::Div { of, k } => range_of(ranges, of).divided(*k),
        Code::Mod { of, k } => range_of(ranges, of).left_by(*k),
        Code::Min(parts) => least_of(ranges, parts),
        Code::Max(parts) => greatest_of(ranges, parts),
        Code::Card(of) => range_of(ranges, of).sizes(),
        Code::If { yes, no, .. } => range_of(ranges, yes).either(range_of(ranges, no)),
        _ => Range::whole(),
    }
}

// The range of the variable, which is whole where there is none of this level.
fn range_at(ranges: &[Range], level: u32) -> Range
    ensures { result ≡ range_at ranges.now level }
{
    match ranges.get(level as usize) {
        Some(range) => *range,
        None => Range::whole(),
    }
}

#[cycle(ranges)]
fn range_of_sum(ranges: &[Range], parts: &[Code]) -> Range
    ensures { result ≡ plus_all (between (pos 0) (pos 0)) (ranges_of ranges.now (code_trees parts.now)) }
{
    let mut sum = Range::zero();
    for part in parts {
        sum = sum.plus(range_of(ranges, part));
    }
    sum
}

#[cycle(ranges)]
fn least_of(ranges: &[Range], parts: &[Code]) -> Range
    ensures { result ≡ best_of int_min (ranges_of ranges.now (code_trees parts.now)) }
{
    let Some((first, more)) = parts.split_first() else {
        return Range::zero();
    };
    let mut best = range_of(ranges, first);
    for part in more {
        best = best.least(range_of(ranges, part));
    }
    best
}

#[cycle(ranges)]
fn greatest_of(ranges: &[Range], parts: &[Code]) -> Range
    ensures { result ≡ best_of int_max (ranges_of ranges.now (code_trees parts.now)) }
{
    let Some((first, more)) = parts.split_first() else {
        return Range::zero();
    };
    let mut best = range_of(ranges, first);
    for part in more {
        best = best.greatest(range_of(ranges, part));
    }
    best
}

/// Whether the operation itself, not its parts, may meet a number past the limit; at a sum, whether one of its partial sums may be past.
pub fn may_pass(ranges: &[Range], code: &Code) -> bool
    ensures { result ≡ may_pass ranges.now (code_tree code.now) }
{
    match code {
        Code::Lit(k) => number_passes(*k),
        Code::Sum(parts) => sum_may_pass(ranges, parts),
        Code::Sub(a, b) => range_of(ranges, a).minus_passes(range_of(ranges, b)),
        Code::Mul(a, b) => range_of(ranges, a).times_passes(range_of(ranges, b)),
        Code::Mod { k, .. } => number_passes(*k),
        Code::Card(_) | Code::Fresh { .. } | Code::Solve { .. } => true,
        _ => false,
    }
}

fn sum_may_pass(ranges: &[Range], parts: &[Code]) -> bool
    ensures { result ≡ plus_all_passes (between (pos 0) (pos 0)) (ranges_of ranges.now (code_trees parts.now)) }
{
    let mut sum = Range::zero();
    let mut rest = parts;
    while let Some((part, more)) = rest.split_first() {
        let range = range_of(ranges, part);
        if sum.plus_passes(range) {
            return true;
        }
        sum = sum.plus(range);
        rest = more;
    }
    false
}
