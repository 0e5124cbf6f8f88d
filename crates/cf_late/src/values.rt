//! Lists of values, whose numbers are within the limit.
#![tactic(auto, using(crate::proofs::ValuesLaws::fit_both, crate::proofs::ValuesLaws::fit_take, crate::proofs::ValuesLaws::plains_take, crate::proofs::ValuesLaws::plains_append))]

ghost use Rattle.std.specs.Prelude.{◌≡◌, ◌++◌, ◌∷◌, [], pos, length, take, IfOk, OnOk};
ghost use Rattle.cf_num.specs.Limit.{IsWithin};
ghost use Rattle.cf_tree.specs.Values.{number_of, truth_of, elements_of, value_at, first_of};
ghost use Rattle.cf_eval.specs.Seen.{plain, plains};
ghost use Rattle.cf_late.specs.Fitting.{AreFit};

use cf_eval::Value;
use cf_tree::NoMemory;
use std::alloc::Global;
use std::marker::Model;

// Values whose numbers are at most 2^127 - 1 in absolute value. Contracts see the list of the plain
// values that they stand for.
#[derive(Drop)]
pub(crate) struct Values {
    items: Vec<Value>,
}

impl Model for Values {
    ghost use Rattle.std.specs.Prelude.{List};
    ghost use Rattle.cf_tree.specs.Values.{Value as PlainValue};

    ghost Value = { List PlainValue };

    ghost use Rattle.cf_eval.specs.Seen.{plains};
    ghost use Rattle.cf_late.specs.Fitting.{AreFit};

    ghost view = { λ v. plains v.items.items };

    ghost invariant = { λ v. AreFit (plains v.items.items) };
}

impl Values {
    pub(crate) fn none(alloc: Global) -> Values
        ensures { result ≡ [] }
    {
        Values {
            items: Vec::new(alloc),
        }
    }

    pub(crate) fn new(items: Vec<Value>) -> Values
        requires { AreFit (plains items.items) }
        ensures { result ≡ plains items.items }
    {
        Values { items }
    }

    // This value alone.
    pub(crate) fn one(alloc: Global, value: Value) -> Result<Values, NoMemory>
        requires { IsWithin (number_of (plain value)) }
        ensures { IfOk result (λ vs. vs ≡ plain value ∷ []) }
    {
        let mut items = Vec::new(alloc);
        items.push(value)?;
        Ok(Values { items })
    }

    pub(crate) fn copy_of(alloc: Global, values: &[Value]) -> Result<Values, NoMemory>
        requires { AreFit (plains values.now) }
        ensures { IfOk result (λ vs. vs ≡ plains values.now) }
    {
        Ok(Values {
            items: copies(alloc, values)?,
        })
    }

    pub(crate) fn len(&self) -> usize
        ensures { result ≡ length self.now }
    {
        self.items.len()
    }

    pub(crate) fn items(&self) -> &[Value]
        ensures value { plains result.now ≡ self.now }
        ensures fit { AreFit self.now }
    {
        &self.items
    }

    pub(crate) fn into_items(self) -> Vec<Value>
        ensures value { plains result.items ≡ self }
        ensures fit { AreFit self }
    {
        self.items
    }

    // A copy of the value of level x, the number 0 where none stands there.
    pub(crate) fn value_at(&self, alloc: Global, x: u32) -> Result<Values, NoMemory>
        ensures { IfOk result (λ vs. vs ≡ value_at self.now x ∷ []) }
    {
        match self.items.get(x as usize) {
            Some(value) => Values::one(alloc, value.try_copy(alloc)?),
            None => Values::one(alloc, Value::Int(0)),
        }
    }

    // The first value, the number 0 where there is none.
    pub(crate) fn first(self) -> Value
        ensures value { plain result ≡ first_of self }
        ensures fit { IsWithin (number_of (plain result)) }
    {
        let mut items = self.items;
        items.truncate(1);
        items.pop().unwrap_or(Value::Int(0))
    }

    // Whether the first value is true.
    pub(crate) fn truth(&self) -> bool
        ensures { result ≡ truth_of (first_of self.now) }
    {
        match self.items.first() {
            Some(Value::Truth(truth)) => *truth,
            _ => false,
        }
    }

    // The first number, 0 where the first value is none.
    pub(crate) fn number(&self) -> i128
        ensures value { result ≡ number_of (first_of self.now) }
        ensures fit { IsWithin result }
    {
        match self.items.first() {
            Some(Value::Int(z)) => *z,
            _ => 0,
        }
    }

    // The number of elements of the first set, 0 where the first value is none.
    pub(crate) fn card(&self) -> i128
        ensures value { result ≡ pos (length (elements_of (first_of self.now))) }
        ensures fit { IsWithin result }
    {
        match self.items.first() {
            Some(Value::Elements(set)) => i128::from(set.card()),
            _ => 0,
        }
    }

    // Puts these values behind the others.
    pub(crate) fn append(&mut self, more: Values) -> Result<(), NoMemory>
        ensures { OnOk result (self.new ≡ self.old ++ more) }
    {
        let mut more = more.items;
        self.items.append(&mut more)?;
        Ok(())
    }

    // Gives up the values behind the first ones.
    pub(crate) fn truncate(&mut self, size: usize)
        ensures { self.new ≡ take size self.old }
    {
        self.items.truncate(size);
    }
}

fn copies(alloc: Global, values: &[Value]) -> Result<Vec<Value>, NoMemory>
    ensures { IfOk result (λ copies. copies.items ≡ values.now) }
{
    let mut copies = Vec::with_capacity(alloc, values.len())?;
    for value in values {
        let copy = value.try_copy(alloc)?;
        copies.push(copy)?;
    }
    Ok(copies)
}
