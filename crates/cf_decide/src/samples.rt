//! The values of variables at a model of their relation. Nothing is promised of them: they are to be tried.
use cf_counts::MOST_COUNTED_SETS;
use cf_eval::Value;
use cf_set::Set;
use cf_tree::{Base, NoMemory, without};
use std::alloc::Global;

/// The most elements in all sets of a sample.
const MOST_ELEMENTS: i128 = 10_000;

// The columns of a model: the constant, so many numbers, and the counts of the regions of so many sets.
#[derive(Clone, Copy)]
struct Columns<'a> {
    columns: &'a [i128],
    numbers: u32,
    sets: u32,
}

impl<'a> Columns<'a> {
    fn at(&self, column: u32) -> i128 {
        match self.columns.get(column as usize) {
            Some(value) => *value,
            None => 0,
        }
    }

    // How many elements lie in exactly the sets of the mask.
    fn count(&self, mask: u32) -> i128 {
        self.at(self.numbers.saturating_add(mask))
    }

    // The mask behind those of the regions.
    fn end(&self) -> u32 {
        bit(self.sets)
    }

    fn is_large(&self) -> bool {
        self.sets as usize > MOST_COUNTED_SETS || self.total() > MOST_ELEMENTS
    }

    fn total(&self) -> i128 {
        let mut total: i128 = 0;
        for mask in 1..self.end() {
            total = total.saturating_add(self.count(mask));
        }
        total
    }

    // The set of that place: the regions have the numbers from 0 upwards, one region behind the other.
    fn set(&self, alloc: Global, place: u32) -> Result<Set, NoMemory> {
        let mut all = Set::from_list(alloc, &[])?;
        let mut own = Set::from_list(alloc, &[])?;
        for mask in 1..self.end() {
            let region = Set::fresh(alloc, &all, self.count(mask))?;
            all = all.union(alloc, &region)?;
            if mask & bit(place) != 0 {
                own = own.union(alloc, &region)?;
            }
        }
        Ok(own)
    }
}

fn bit(place: u32) -> u32 {
    if place < 32 { 1 << place } else { 0 }
}

// How many of the variables are numbers, and how many sets.
fn model_of<'a>(bases: &[Base], columns: &'a [i128]) -> Columns<'a> {
    let mut numbers: u32 = 0;
    let mut sets: u32 = 0;
    for base in bases {
        match base {
            Base::Int => numbers = numbers.saturating_add(1),
            Base::Set => sets = sets.saturating_add(1),
            Base::Bool => {}
        }
    }
    Columns {
        columns,
        numbers,
        sets,
    }
}

// The values of the variables, unless their sets are large.
pub(crate) fn values_at(
    alloc: Global,
    bases: &[Base],
    columns: &[i128],
) -> Result<Option<Vec<Value>>, NoMemory> {
    let model = model_of(bases, columns);
    if model.is_large() {
        return Ok(None);
    }
    let values = values_in(alloc, bases, &model)?;
    Ok(Some(values))
}

// One value of each base: the next number of the model, or its next set.
fn values_in(alloc: Global, bases: &[Base], model: &Columns<'_>) -> Result<Vec<Value>, NoMemory> {
    let mut values = Vec::new(alloc);
    let mut number: u32 = 0;
    let mut set: u32 = 0;
    for base in bases {
        let value = match base {
            Base::Int => {
                number = number.saturating_add(1);
                Value::Int(model.at(number))
            }
            Base::Set => {
                let elements = match model.set(alloc, set) {
                    Ok(elements) => elements,
                    Err(fault) => return Err(without(values, fault)),
                };
                set = set.saturating_add(1);
                Value::Elements(elements)
            }
            Base::Bool => Value::Truth(false),
        };
        values.push(value)?;
    }
    Ok(values)
}
