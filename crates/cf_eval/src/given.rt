// What a code gives while it is run, and why a run stops.
ghost use Rattle.std.specs.Prelude.{◌≡◌, ◌++◌, ◌∷◌, [], IfErr, IfOk, IfSome, OnOk, All};
ghost use Rattle.cf_num.specs.Limit.{IsWithin, within};
ghost use Rattle.cf_tree.specs.Values.{first_of, number};
ghost use Rattle.cf_eval.specs.Reached.{given, met as met_reached, met_value, as_number};
ghost use Rattle.cf_eval.specs.Seen.{plain, plains, IsFit};
ghost use Rattle.cf_eval.specs.RunAnswers.{RunAnswer, MoreAnswer, NumberAnswer, Extends, IsGivenFit, given_items, seen_or_zero};

use crate::value::Value;
use cf_set::Set;
use cf_tree::NoMemory;
use std::alloc::{AllocError, AllocFailed, Global};

// Why a run stops with no values: no memory, a number past the limit, or no solution at a choose.
#[derive(Clone, Copy)]
pub enum Stop {
    NoMemory,
    Past,
    Unsolved(u32),
}

impl From<NoMemory> for Stop {
    ghost use Rattle.std.specs.Prelude.{◌≡◌};
    ghost use Rattle.cf_eval.specs.declared.given.Stop.TheVariants.{NoMemory};

    ghost from_gives = { λ _ e. e ≡ NoMemory };

    fn from(_e: NoMemory) -> Stop {
        Stop::NoMemory
    }
}

impl From<AllocError> for Stop {
    ghost use Rattle.std.specs.Prelude.{◌≡◌};
    ghost use Rattle.cf_eval.specs.declared.given.Stop.TheVariants.{NoMemory};

    ghost from_gives = { λ _ e. e ≡ NoMemory };

    fn from(_e: AllocError) -> Stop {
        Stop::NoMemory
    }
}

impl<T: Drop> From<AllocFailed<T>> for Stop {
    ghost use Rattle.std.specs.Prelude.{◌≡◌};
    ghost use Rattle.cf_eval.specs.declared.given.Stop.TheVariants.{NoMemory};

    ghost from_gives = { λ _ e. e ≡ NoMemory };

    fn from(_e: AllocFailed<T>) -> Stop {
        Stop::NoMemory
    }
}

// The values that a code gives. Most codes give one, which takes no vector.
#[derive(Drop)]
pub enum Given {
    One(Value),
    Several(Vec<Value>),
}

pub fn number(z: i128) -> Given
    ensures { result ≡ Given.One (Value.Int z) }
{
    Given::One(Value::Int(z))
}

// A number of 64 bits, which no limit stops.
pub fn narrow_number(z: i64) -> Given
    ensures told { result ≡ Given.One (Value.Int z) }
    ensures fit { IsGivenFit result }
{
    number(i128::from(z))
}

pub fn truth(b: bool) -> Given
    ensures { result ≡ Given.One (Value.Truth b) }
{
    Given::One(Value::Truth(b))
}

pub fn set(s: Set) -> Given
    ensures { result ≡ Given.One (Value.Elements s) }
{
    Given::One(Value::Elements(s))
}

// The number, or none where it passes the limit.
pub fn limited(z: i128) -> Option<i128>
    ensures value { result ≡ within z }
    ensures fits { IfSome result IsWithin }
{
    if z == i128::MIN { None } else { Some(z) }
}

// A number that is met.
pub fn met(z: Option<i128>) -> Result<Given, Stop>
    requires { IfSome z IsWithin }
    ensures told { RunAnswer result (met_reached z) }
    ensures fit { IfOk result IsGivenFit }
{
    match z {
        None => Err(Stop::Past),
        Some(n) => Ok(number(n)),
    }
}

// The same, as a number.
pub fn met_number(z: Option<i128>) -> Result<i128, Stop>
    requires { IfSome z IsWithin }
    ensures told { NumberAnswer result (as_number (met_reached z)) }
    ensures fit { IfOk result IsWithin }
{
    match z {
        None => Err(Stop::Past),
        Some(n) => Ok(n),
    }
}

// The number of a variable, met where it is one.
pub fn met_number_of(v: Option<&Value>) -> Result<i128, Stop>
    ensures told { NumberAnswer result (as_number (met_value (seen_or_zero v.entry))) }
    ensures fit { IfOk result IsWithin }
{
    match v {
        None => Ok(0),
        Some(Value::Int(n)) => met_number(limited(*n)),
        Some(Value::Truth(_)) => Ok(0),
        Some(Value::Elements(_)) => Ok(0),
    }
}

// Appends a number that was met.
pub fn push_met(z: i128, all: &mut Vec<Value>) -> Result<(), Stop>
    requires { IsWithin z }
    ensures ok { OnOk result (all.new.items ≡ all.old.items ++ (Value.Int z ∷ [])) }
    ensures err { IfErr result (λ e. e ≡ Stop.NoMemory) }
{
    all.push(Value::Int(z))?;
    Ok(())
}

// Appends a number of 64 bits.
pub fn push_narrow(z: i64, all: &mut Vec<Value>) -> Result<(), Stop>
    ensures told { MoreAnswer result (plains all.old.items) (plains all.new.items) (given (number z ∷ [])) }
    ensures fit { OnOk result (All IsFit all.old.items → All IsFit all.new.items) }
    ensures kept { OnOk result (Extends all.old.items all.new.items) }
{
    push_met(i128::from(z), all)
}

// The value of a variable, met where it is a number.
pub fn met_copy(alloc: Global, v: Option<&Value>) -> Result<Given, Stop>
    ensures told { RunAnswer result (met_value (seen_or_zero v.entry)) }
    ensures fit { IfOk result IsGivenFit }
{
    match v {
        None => Ok(number(0)),
        Some(Value::Int(n)) => met(limited(*n)),
        Some(Value::Truth(b)) => Ok(truth(*b)),
        Some(Value::Elements(s)) => Ok(set(s.try_copy(alloc)?)),
    }
}

// Appends the value of a variable, met where it is a number.
pub fn push_copy(alloc: Global, v: Option<&Value>, all: &mut Vec<Value>) -> Result<(), Stop>
    ensures told { MoreAnswer result (plains all.old.items) (plains all.new.items) (met_value (seen_or_zero v.entry)) }
    ensures fit { OnOk result (All IsFit all.old.items → All IsFit all.new.items) }
{
    match v {
        Some(Value::Int(n)) => match limited(*n) {
            Some(z) => push_met(z, all),
            None => Err(Stop::Past),
        },
        _ => push_other(alloc, v, all),
    }
}

#[inline(never)]
fn push_other(alloc: Global, v: Option<&Value>, all: &mut Vec<Value>) -> Result<(), Stop>
    ensures told { MoreAnswer result (plains all.old.items) (plains all.new.items) (met_value (seen_or_zero v.entry)) }
    ensures fit { OnOk result (All IsFit all.old.items → All IsFit all.new.items) }
{
    let more = met_copy(alloc, v)?;
    push_given(more, all)
}

// Appends what a code gives.
#[tactic(auto, using(crate::proofs::FormLemmas::more_items))]
pub fn push_given(more: Given, all: &mut Vec<Value>) -> Result<(), Stop>
    requires { IsGivenFit more }
    ensures told { MoreAnswer result (plains all.old.items) (plains all.new.items) (given (plains (given_items more))) }
    ensures fit { OnOk result (All IsFit all.old.items → All IsFit all.new.items) }
    ensures kept { OnOk result (Extends all.old.items all.new.items) }
{
    more.append_to(all)
}

impl Given {
    // The first value, and 0 where there is none.
    pub fn first(self) -> Value
        requires { IsGivenFit self }
        ensures told { plain result ≡ first_of (plains (given_items self)) }
        ensures fit { IsFit result }
    {
        match self {
            Given::One(v) => v,
            Given::Several(values) => first_value(values),
        }
    }

    // The values as a vector. One value takes the place of those in a vector that is given up.
    pub fn into_values(self, spent: Vec<Value>) -> Result<Vec<Value>, NoMemory>
        ensures { IfOk result (λ vs. vs.items ≡ given_items self) }
    {
        match self {
            Given::One(v) => {
                let mut values = spent;
                values.clear();
                values.push(v)?;
                Ok(values)
            }
            Given::Several(values) => Ok(values),
        }
    }

    // Appends the values.
    pub fn append_to(self, env: &mut Vec<Value>) -> Result<(), Stop>
        ensures ok { OnOk result (env.new.items ≡ env.old.items ++ given_items self) }
        ensures err { IfErr result (λ e. e ≡ Stop.NoMemory) }
    {
        match self {
            Given::One(v) => {
                env.push(v)?;
                Ok(())
            }
            Given::Several(values) => {
                let mut values = values;
                env.append(&mut values)?;
                Ok(())
            }
        }
    }
}

fn first_value(values: Vec<Value>) -> Value
    requires { All IsFit values.items }
    ensures told { plain result ≡ first_of (plains values.items) }
    ensures fit { IsFit result }
{
    let mut values = values;
    values.truncate(1);
    values.pop().unwrap_or(Value::Int(0))
}
