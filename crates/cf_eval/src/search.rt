// Search values: the tuples below the bounds of an arm.
ghost use Rattle.std.specs.Prelude.{◌≡◌, ◌++◌, ◌∷◌, [], ◌<◌, ◌-◌, ◌^◌, IfErr, OnOk, pos};
ghost use Rattle.cf_tree.specs.Meaning.{count_below, tuple_at};
ghost use Rattle.cf_eval.specs.Seen.{plains};
ghost use Rattle.cf_eval.specs.RunAnswers.{BindsAll, Extends, capped};

use crate::given::Stop;
use crate::value::Value;

// How many tuples lie below the bounds. The arms of a target have at most 1,048,576, so it never
// stands still there.
pub fn count_of(bounds: &[u32]) -> u64
    ensures { result ≡ capped (count_below bounds.now) }
{
    let mut count = 1u64;
    let mut i = bounds.len();
    'bounds: while 0 < i {
        i -= 1;
        count = u64::from(bounds[i]).saturating_mul(count);
    }
    count
}

// How many tuples lie below the bounds behind the first one, from how many lie below them all.
// Behind a bound of 1 there are as many. Few bounds of an arm are greater, so that a walk over all
// the bounds takes linear time.
fn count_behind(bound: u32, others: &[u32], count: u64) -> u64
    requires { count ≡ capped (count_below (bound ∷ others.now)) }
    ensures { result ≡ capped (count_below others.now) }
{
    if bound == 1 { count } else { count_of(others) }
}

// Binds the tuple of that number, in lexicographic order. A count that is too great to be kept
// passes the index, as the one that is kept does.
pub fn push_tuple(bounds: &[u32], index: u64, env: &mut Vec<Value>) -> Result<(), Stop>
    requires index_in { index < count_below bounds.now }
    requires index_low { index < 2 ^ 64 - 1 }
    ensures ok { OnOk result (Extends env.old.items env.new.items) }
    ensures bound { OnOk result (BindsAll (tuple_at bounds.now index) (plains env.old.items) (plains env.new.items)) }
    ensures err { IfErr result (λ e. e ≡ Stop.NoMemory) }
{
    let mut rest = bounds;
    let mut left = index;
    let mut count = count_of(bounds);
    'bounds: while let Some((bound, others)) = rest.split_first() {
        count = count_behind(*bound, others, count);
        push_number(left / count, env)?;
        left %= count;
        rest = others;
    }
    Ok(())
}

fn push_number(k: u64, env: &mut Vec<Value>) -> Result<(), Stop>
    ensures ok { OnOk result (env.new.items ≡ env.old.items ++ (Value.Int (pos k) ∷ [])) }
    ensures err { IfErr result (λ e. e ≡ Stop.NoMemory) }
{
    env.push(Value::Int(i128::from(k)))?;
    Ok(())
}
