// Sets that variables hold, used where they stand and not copied. Each call answers none where a
// part is no variable that holds a set.
ghost use Rattle.std.specs.Prelude.{◌≡◌, ◌∷◌, [], pos, None, IfOk, IfSome};
ghost use Rattle.cf_num.specs.Limit.{within};
ghost use Rattle.cf_tree.specs.CodeTree.{code_card, code_compare, code_diff, code_slice, code_subset, code_more, no_codes};
ghost use Rattle.cf_tree.specs.CodeView.{code_tree, code_trees};
ghost use Rattle.cf_tree.specs.Sets.{set_slice};
ghost use Rattle.cf_tree.specs.Numbers.{count_of};
ghost use Rattle.cf_tree.specs.Values.{compared, elements};
ghost use Rattle.cf_eval.specs.Choice.{join_of};
ghost use Rattle.cf_eval.specs.Quick.{Finds, FindsTruth, FindsSet};
ghost use Rattle.cf_eval.specs.Reached.{given, join_reached, met as met_reached, reached};
ghost use Rattle.cf_eval.specs.RunAnswers.{seen_or_zero};
ghost use Rattle.cf_eval.specs.Seen.{plains};

use crate::joining::{Join, join_two};
use crate::quick::known;
use crate::value::Value;
use cf_set::Set;
use cf_tree::{Code, NoMemory, Order};
use std::alloc::Global;

// The set that a variable holds.
fn lent<'a>(code: &Code, env: &'a [Value]) -> Option<&'a Set>
    ensures { IfSome result (λ s. reached (code_tree code.now) (plains env.now) ≡ given (elements s.now ∷ [])) }
{
    match code {
        Code::Var(x) => set_in(env.get(*x as usize)),
        _ => None,
    }
}

fn set_in(v: Option<&Value>) -> Option<&Set>
    ensures { IfSome result (λ s. seen_or_zero v.entry ≡ elements s.now) }
{
    match v {
        Some(Value::Elements(s)) => Some(s),
        _ => None,
    }
}

// How many elements the set has.
#[inline(never)]
pub fn lent_card(code: &Code, env: &[Value]) -> Option<i64>
    ensures { Finds result (reached (code_card (code_tree code.now)) (plains env.now)) }
{
    match lent(code, env) {
        Some(s) => narrow_card(s.card()),
        None => None,
    }
}

fn narrow_card(n: u64) -> Option<i64>
    ensures { Finds result (met_reached (within (pos n))) }
{
    match i64::try_from(n) {
        Ok(z) => Some(z),
        Err(_) => None,
    }
}

// Whether the second set has all the elements of the first.
#[inline(never)]
pub fn lent_subset(a: &Code, b: &Code, env: &[Value]) -> Option<bool>
    ensures { FindsTruth result (reached (code_subset (code_tree a.now) (code_tree b.now)) (plains env.now)) }
{
    match (lent(a, env), lent(b, env)) {
        (Some(s), Some(t)) => Some(s.subset(t)),
        _ => None,
    }
}

// How two sets stand to each other.
#[inline(never)]
pub fn lent_order(order: Order, a: &Code, b: &Code, env: &[Value]) -> Option<bool>
    ensures { FindsTruth result (reached (code_compare order (code_tree a.now) (code_tree b.now)) (plains env.now)) }
{
    match (lent(a, env), lent(b, env)) {
        (Some(s), Some(t)) => order_of(order, s, t),
        _ => None,
    }
}

fn order_of(order: Order, s: &Set, t: &Set) -> Option<bool>
    ensures { IfSome result (λ b. b ≡ compared order (elements s.now) (elements t.now)) }
{
    match order {
        Order::Eq => Some(s.same(t)),
        Order::Ne => Some(!s.same(t)),
        Order::Lt | Order::Le | Order::Gt | Order::Ge => None,
    }
}

// The set that the code gives, where it is made from sets that variables hold.
#[inline(never)]
pub fn lent_set(alloc: Global, code: &Code, env: &[Value]) -> Result<Option<Set>, NoMemory>
    ensures { IfOk result (λ s. FindsSet s (reached (code_tree code.now) (plains env.now))) }
{
    match code {
        Code::Union(parts) => lent_join(alloc, Join::Union, parts, env),
        Code::Inter(parts) => lent_join(alloc, Join::Inter, parts, env),
        Code::Diff(a, b) => lent_diff(alloc, a, b, env),
        Code::Slice { set, from, n } => lent_slice(alloc, set, from, n, env),
        _ => Ok(None),
    }
}

// The elements of the first set that are not in the second.
fn lent_diff(alloc: Global, a: &Code, b: &Code, env: &[Value]) -> Result<Option<Set>, NoMemory>
    ensures { IfOk result (λ s. FindsSet s (reached (code_diff (code_tree a.now) (code_tree b.now)) (plains env.now))) }
{
    match (lent(a, env), lent(b, env)) {
        (Some(s), Some(t)) => Ok(Some(s.diff(alloc, t)?)),
        _ => Ok(None),
    }
}

// Two sets, joined.
fn lent_join(
    alloc: Global,
    how: Join,
    parts: &[Code],
    env: &[Value],
) -> Result<Option<Set>, NoMemory>
    ensures { IfOk result (λ s. FindsSet s (join_reached (join_of how) (code_trees parts.now) (plains env.now) None)) }
{
    match parts {
        [a, b] => lent_pair(alloc, how, a, b, env),
        _ => Ok(None),
    }
}

fn lent_pair(
    alloc: Global,
    how: Join,
    a: &Code,
    b: &Code,
    env: &[Value],
) -> Result<Option<Set>, NoMemory>
    ensures { IfOk result (λ s. FindsSet s (join_reached (join_of how) (code_more (code_tree a.now) (code_more (code_tree b.now) no_codes)) (plains env.now)
        None)) }
{
    match (lent(a, env), lent(b, env)) {
        (Some(s), Some(t)) => Ok(Some(join_two(alloc, how, s, t)?)),
        _ => Ok(None),
    }
}

// Some elements of a set, in rising order.
fn lent_slice(
    alloc: Global,
    set: &Code,
    from: &Code,
    n: &Code,
    env: &[Value],
) -> Result<Option<Set>, NoMemory>
    ensures { IfOk result (λ s. FindsSet s (reached (code_slice (code_tree set.now) (code_tree from.now) (code_tree n.now)) (plains env.now))) }
{
    match (lent(set, env), known(from, env), known(n, env)) {
        (Some(s), Some(start), Some(size)) => Ok(Some(slice_of(alloc, s, start, size)?)),
        _ => Ok(None),
    }
}

fn slice_of(alloc: Global, s: &Set, start: i64, size: i64) -> Result<Set, NoMemory>
    ensures { IfOk result (λ t. t ≡ set_slice s.now (count_of start) (count_of size)) }
{
    s.slice(alloc, i128::from(start), i128::from(size))
}
