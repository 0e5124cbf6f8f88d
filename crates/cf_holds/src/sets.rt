//! The members of set forms.
ghost use Rattle.std.specs.Prelude.{◌≡◌, [], IfOk};
ghost use Rattle.cf_tree.specs.Relation.{members};
ghost use Rattle.cf_tree.specs.RelView.{set_tree};
ghost use Rattle.cf_tree.specs.Values.{elements_of, value_at};
ghost use Rattle.cf_eval.specs.Seen.{plain, plains};

use cf_eval::Value;
use cf_set::Set;
use cf_tree::{NoMemory, SetTerm};
use std::alloc::Global;

// The members of the set form.
pub(crate) fn members(alloc: Global, set: &SetTerm, values: &[Value]) -> Result<Set, NoMemory>
    ensures { IfOk result (λ s. s ≡ members (set_tree set.now) (plains values.now)) }
{
    match set {
        SetTerm::Empty => empty(alloc),
        SetTerm::Var(x) => set_at(alloc, *x, values),
        SetTerm::Union(a, b) => {
            let left = members(alloc, a, values)?;
            let right = members(alloc, b, values)?;
            left.union(alloc, &right)
        }
        SetTerm::Inter(a, b) => {
            let left = members(alloc, a, values)?;
            let right = members(alloc, b, values)?;
            left.inter(alloc, &right)
        }
        SetTerm::Diff(a, b) => {
            let left = members(alloc, a, values)?;
            let right = members(alloc, b, values)?;
            left.diff(alloc, &right)
        }
    }
}

fn empty(alloc: Global) -> Result<Set, NoMemory>
    ensures { IfOk result (λ s. s ≡ []) }
{
    Set::from_list(alloc, &[])
}

// The set of level x, the empty set where none stands there.
fn set_at(alloc: Global, x: u32, values: &[Value]) -> Result<Set, NoMemory>
    ensures { IfOk result (λ s. s ≡ elements_of (value_at (plains values.now) x)) }
{
    match values.get(x as usize) {
        Some(value) => set_in(alloc, value),
        None => empty(alloc),
    }
}

// The set, the empty set for another value.
fn set_in(alloc: Global, value: &Value) -> Result<Set, NoMemory>
    ensures { IfOk result (λ s. s ≡ elements_of (plain value.now)) }
{
    match value {
        Value::Elements(set) => set.try_copy(alloc),
        Value::Int(_) | Value::Truth(_) => empty(alloc),
    }
}
