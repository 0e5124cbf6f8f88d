//! Other outputs by an exchange of two elements. No relation tells elements apart, so where the exchange changes no
//! parameter, a solution stays one; but nothing is promised of it.
use cf_eval::Value;
use cf_set::Set;
use cf_tree::{NoMemory, without};
use std::alloc::Global;

/// The most elements of which two are looked for.
const MOST_ELEMENTS: u64 = 100;

/// The outputs with an exchange of two elements that changes some of them, and no value of the environment. None where
/// no two elements are such.
pub(crate) fn exchanged(
    alloc: Global,
    env: &[Value],
    outputs: &[Value],
) -> Result<Option<Vec<Value>>, NoMemory> {
    let all = elements(alloc, env, outputs)?;
    if all.card() > MOST_ELEMENTS {
        return Ok(None);
    }
    match exchange_in(alloc, &all, env, outputs)? {
        Some(exchange) => Ok(Some(exchange.values(alloc, outputs)?)),
        None => Ok(None),
    }
}

// The elements of all sets, and one that is in none.
fn elements(alloc: Global, env: &[Value], outputs: &[Value]) -> Result<Set, NoMemory> {
    let none = Set::from_list(alloc, &[])?;
    let known = with_elements(alloc, none, env)?;
    let all = with_elements(alloc, known, outputs)?;
    let other = Set::fresh(alloc, &all, 1)?;
    all.union(alloc, &other)
}

fn with_elements(alloc: Global, elements: Set, values: &[Value]) -> Result<Set, NoMemory> {
    let mut all = elements;
    for value in values {
        if let Value::Elements(set) = value {
            all = all.union(alloc, set)?;
        }
    }
    Ok(all)
}

/// Two elements, each as a set.
#[derive(Drop)]
struct Exchange {
    first: Set,
    second: Set,
}

impl Exchange {
    // The values, with each element in the place of the other.
    fn values(&self, alloc: Global, values: &[Value]) -> Result<Vec<Value>, NoMemory> {
        let mut all = Vec::new(alloc);
        for value in values {
            match self.value(alloc, value) {
                Ok(value) => all.push(value)?,
                Err(fault) => return Err(without(all, fault)),
            }
        }
        Ok(all)
    }

    fn value(&self, alloc: Global, value: &Value) -> Result<Value, NoMemory> {
        match value {
            Value::Elements(set) => Ok(Value::Elements(self.set(alloc, set)?)),
            Value::Int(_) => value.try_copy(alloc),
            Value::Truth(_) => value.try_copy(alloc),
        }
    }

    fn set(&self, alloc: Global, set: &Set) -> Result<Set, NoMemory> {
        let has_first = self.first.subset(set);
        let has_second = self.second.subset(set);
        if has_first == has_second {
            set.try_copy(alloc)
        } else if has_first {
            moved(alloc, set, &self.first, &self.second)
        } else {
            moved(alloc, set, &self.second, &self.first)
        }
    }
}

// The set without these elements, and with those.
fn moved(alloc: Global, set: &Set, out: &Set, into: &Set) -> Result<Set, NoMemory> {
    let rest = set.diff(alloc, out)?;
    rest.union(alloc, into)
}

// The first two of the elements whose exchange changes some output, and nothing in the environment.
fn exchange_in(
    alloc: Global,
    all: &Set,
    env: &[Value],
    outputs: &[Value],
) -> Result<Option<Exchange>, NoMemory> {
    for i in 0..all.items().len() {
        match partner_of(all.items(), i, env, outputs) {
            Some(j) => return Ok(Some(exchange_of(alloc, all, i, j)?)),
            None => {}
        }
    }
    Ok(None)
}

fn exchange_of(alloc: Global, all: &Set, i: usize, j: usize) -> Result<Exchange, NoMemory> {
    Ok(Exchange {
        first: all.slice(alloc, i as i128, 1)?,
        second: all.slice(alloc, j as i128, 1)?,
    })
}

// The place of the first element behind the one at place i that may be exchanged with it.
fn partner_of(items: &[i128], i: usize, env: &[Value], outputs: &[Value]) -> Option<usize> {
    let first = *items.get(i)?;
    for (j, second) in items.iter().enumerate() {
        if j > i && are_alike(env, first, *second) && !are_alike(outputs, first, *second) {
            return Some(j);
        }
    }
    None
}

// Whether two elements are in the same sets.
fn are_alike(values: &[Value], first: i128, second: i128) -> bool {
    for value in values {
        if let Value::Elements(set) = value {
            if set.has(first) != set.has(second) {
                return false;
            }
        }
    }
    true
}
