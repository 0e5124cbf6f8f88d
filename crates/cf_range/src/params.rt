//! What is known of parameters.
ghost use Rattle.std.specs.Prelude.{◌≡◌, map, pos, IfOk};
ghost use Rattle.cf_range.specs.Ranges.{between, most_elements, param_range};

use crate::range::Range;
use cf_tree::{Base, NoMemory};
use std::alloc::Global;

// The most elements of a set that a machine holds.
const MOST_ELEMENTS: i128 = i64::MAX as i128;

fn param_range(base: Base) -> Range
    ensures { result ≡ param_range base }
{
    match base {
        Base::Int | Base::Bool => Range::whole(),
        Base::Set => Range {
            low: 0,
            high: MOST_ELEMENTS,
        },
    }
}

/// The ranges of parameters of these bases: a number may be any within the limit, and a set has as many elements as a machine
/// holds, at most.
///
/// # Errors
/// `NoMemory` where memory ran out.
pub fn param_ranges(alloc: Global, bases: &[Base]) -> Result<Vec<Range>, NoMemory>
    ensures { IfOk result (λ all. all.items ≡ map param_range bases.now) }
{
    let mut all = Vec::new(alloc);
    let mut left = bases;
    'bases: while let Some((base, more)) = left.split_first() {
        all.push(param_range(*base))?;
        left = more;
    }
    Ok(all)
}
