//! Inputs on which the arms of a choose are tried, one after the other. Nothing is promised of them.
use crate::turns::push_turns;
use cf_choose::Solved;
use cf_eval::Value;
use cf_linear::place;
use cf_set::Set;
use cf_tree::{Base, NoMemory, without};
use std::alloc::Global;

/// The most inputs that are tried, and the most tuples that the arms may try on all of them.
#[derive(Clone, Copy)]
pub(crate) struct Patience {
    inputs: u64,
    tuples: u64,
}

impl Patience {
    /// Before anything else is looked for.
    pub(crate) fn short() -> Patience {
        Patience {
            inputs: 1_000,
            tuples: 40_000,
        }
    }

    /// Where nothing else was found.
    pub(crate) fn long() -> Patience {
        Patience {
            inputs: 3_200,
            tuples: 1_000_000,
        }
    }
}

/// The most parameters that are tried with all numbers from 14 to 59.
const FEW_PARAMETERS: usize = 2;

/// The numbers that are tried before those at which a need turns.
const FIRST_NUMBERS: [i128; 7] = [0, 1, 2, -1, 3, 5, 10];

/// The numbers that are tried behind them.
const OTHER_NUMBERS: [i128; 14] = [-2, 4, 7, 100, 6, 12, -5, 8, 9, 11, 13, 60, 1000, -10];

/// The sets that are tried, each as its least number and the one behind its greatest.
const SETS: [(i128, i128); 8] = [
    (0, 0),
    (0, 1),
    (0, 2),
    (1, 2),
    (0, 3),
    (1, 3),
    (0, 4),
    (5, 11),
];

/// How many inputs are tried for so many parameters, where the arms have so many tuples.
pub(crate) fn trial_count(params: usize, tuples: u64, patience: Patience) -> u64 {
    let most = if params == 0 { 1 } else { patience.inputs };
    if tuples == 0 {
        most
    } else {
        most.min(patience.tuples / tuples)
    }
}

/// The numbers that are tried for each parameter, and the place of the one that comes next.
#[derive(Drop)]
pub(crate) struct Trials {
    numbers: Vec<Vec<i128>>,
    places: Vec<usize>,
}

impl Trials {
    /// Those of the parameters, from the first on.
    pub(crate) fn new(alloc: Global, solved: &Solved, params: &[u32]) -> Result<Trials, NoMemory> {
        let mut places = Vec::new(alloc);
        places.resize(params.len(), 0)?;
        let mut numbers = Vec::new(alloc);
        for level in params {
            numbers.push(numbers_of(alloc, solved, *level, params.len())?)?;
        }
        Ok(Trials { numbers, places })
    }

    /// The values of the variables in scope: those of the parameters that come next, and of others 0, no or the empty
    /// set. None where a parameter has no value at its place.
    pub(crate) fn environment(
        &self,
        alloc: Global,
        scope: &[Base],
        params: &[u32],
    ) -> Result<Option<Vec<Value>>, NoMemory> {
        let mut values = Vec::new(alloc);
        let mut level: u32 = 0;
        for base in scope {
            match self.value(alloc, *base, place(level, params)) {
                Ok(Some(value)) => values.push(value)?,
                Ok(None) => return Ok(without(values, None)),
                Err(fault) => return Err(without(values, fault)),
            }
            level = level.saturating_add(1);
        }
        Ok(Some(values))
    }

    // The value of a parameter, or that of a variable that is none.
    fn value(&self, alloc: Global, base: Base, param: usize) -> Result<Option<Value>, NoMemory> {
        match base {
            Base::Int => Ok(self.number(param)),
            Base::Set => set_at(alloc, self.place(param)),
            Base::Bool => Ok(Some(Value::Truth(false))),
        }
    }

    fn number(&self, param: usize) -> Option<Value> {
        match self.numbers.get(param) {
            Some(numbers) => match numbers.get(self.place(param)) {
                Some(number) => Some(Value::Int(*number)),
                None => None,
            },
            None => Some(Value::Int(0)),
        }
    }

    fn place(&self, param: usize) -> usize {
        match self.places.get(param) {
            Some(place) => *place,
            None => 0,
        }
    }

    /// Goes on in the order of the sums of places, and among places with one sum from the last parameter to the first.
    pub(crate) fn advance(&mut self) {
        match self.last_moved() {
            Some(param) => self.move_one(param),
            None => self.raise_sum(),
        }
    }

    // The last parameter, but the first one, whose place is not 0.
    fn last_moved(&self) -> Option<usize> {
        let mut found = None;
        for (param, place) in self.places.iter().enumerate() {
            if param > 0 && *place > 0 {
                found = Some(param);
            }
        }
        found
    }

    // Of the place of a parameter one goes to the parameter before, and the rest to the last.
    fn move_one(&mut self, param: usize) {
        let place = self.take(param);
        self.add(param.saturating_sub(1), 1);
        self.add_to_last(place.saturating_sub(1));
    }

    // All goes to the last parameter, and one more.
    fn raise_sum(&mut self) {
        let sum = self.take(0);
        self.add_to_last(sum.saturating_add(1));
    }

    fn take(&mut self, param: usize) -> usize {
        match self.places.get_mut(param) {
            Some(place) => {
                let old = *place;
                *place = 0;
                old
            }
            None => 0,
        }
    }

    fn add(&mut self, param: usize, count: usize) {
        if let Some(place) = self.places.get_mut(param) {
            *place = place.saturating_add(count);
        }
    }

    fn add_to_last(&mut self, count: usize) {
        let last = self.places.len().saturating_sub(1);
        self.add(last, count);
    }
}

// The numbers that are tried for the parameter of that level, which is one of so many.
fn numbers_of(
    alloc: Global,
    solved: &Solved,
    level: u32,
    params: usize,
) -> Result<Vec<i128>, NoMemory> {
    let mut numbers = Vec::new(alloc);
    push_all(&mut numbers, &FIRST_NUMBERS)?;
    push_turns(&mut numbers, solved, level)?;
    push_all(&mut numbers, &OTHER_NUMBERS)?;
    if params <= FEW_PARAMETERS {
        for number in 14..60u32 {
            push_new(&mut numbers, i128::from(number))?;
        }
    }
    Ok(numbers)
}

fn push_all(numbers: &mut Vec<i128>, more: &[i128]) -> Result<(), NoMemory> {
    for number in more {
        push_new(numbers, *number)?;
    }
    Ok(())
}

// Adds the number, unless it is there.
pub(crate) fn push_new(numbers: &mut Vec<i128>, number: i128) -> Result<(), NoMemory> {
    if !numbers.contains(&number) {
        numbers.push(number)?;
    }
    Ok(())
}

// The set of that place among those that are tried.
fn set_at(alloc: Global, place: usize) -> Result<Option<Value>, NoMemory> {
    match SETS.get(place) {
        Some((first, end)) => Ok(Some(Value::Elements(numbers_between(alloc, *first, *end)?))),
        None => Ok(None),
    }
}

// The numbers from the first on, and below the end.
fn numbers_between(alloc: Global, first: i128, end: i128) -> Result<Set, NoMemory> {
    let none = Set::from_list(alloc, &[])?;
    let before = Set::fresh(alloc, &none, first)?;
    let all = Set::fresh(alloc, &none, end)?;
    all.diff(alloc, &before)
}
