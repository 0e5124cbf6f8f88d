//! Whether values have given bases.
ghost use Rattle.std.specs.Prelude.{◌≡◌, true};
ghost use Rattle.cf_tree.specs.Values.{HasBase, HaveBases};
ghost use Rattle.cf_eval.specs.Seen.{plain, plains};

use cf_eval::Value;
use cf_tree::{Base, same_base};

/// Whether these are values of these bases, one of each in order.
pub fn have_bases(bases: &[Base], values: &[Value]) -> bool
    ensures { result ≡ true → HaveBases bases.now (plains values.now) }
{
    let mut left = bases;
    let mut right = values;
    while let Some((value, more)) = right.split_first() {
        match left.split_first() {
            None => return false,
            Some((base, rest)) => {
                if !has_base(*base, value) {
                    return false;
                }
                left = rest;
                right = more;
            }
        }
    }
    left.is_empty()
}

fn has_base(base: Base, value: &Value) -> bool
    ensures { result ≡ true → HasBase base (plain value.now) }
{
    match value {
        Value::Int(_) => same_base(base, Base::Int),
        Value::Truth(_) => same_base(base, Base::Bool),
        Value::Elements(set) => {
            // for the proof: the elements rise
            let _ = set.items();
            same_base(base, Base::Set)
        }
    }
}
