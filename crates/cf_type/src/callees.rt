//! The functions of a program, by name.
ghost use Rattle.std.specs.Prelude.{◌≡◌, ◌<◌, get_or, length, map, take, IfOk, IfSome, OnOk};
ghost use Rattle.cf_tree.specs.DefView.{raw_def_tree};
ghost use Rattle.cf_type.specs.FormView.{callee_seen};
ghost use Rattle.cf_program.specs.CheckAnswers.{Shows};
ghost use Rattle.cf_program.specs.Names.{callee_from, is_among};
ghost use Rattle.cf_type.specs.LastNamed.{backwards, last_named as last_named_of, IsLastNamed};
ghost use Rattle.cf_type.specs.Numbers.{shown, with_name, with_names, names_of_defs};

use cf_tree::{NoMemory, RawDef, Text, to_u32, without};
use indexmap::IndexMap;
use std::alloc::Global;
use std::marker::Model;

/// The functions of a program, with a table of the number of each name. Contracts see the list of
/// the functions.
#[derive(Drop)]
pub struct Callees<'a> {
    defs: &'a [&'a RawDef],
    numbers: IndexMap<Vec<u8>, u32>,
}

impl<'a> Model for Callees<'a> {
    ghost use Rattle.std.specs.Prelude.{◌≡◌, List, map};
    ghost use Rattle.cf_tree.specs.declared.raw.RawDef.{RawDef};

    ghost Value = { List RawDef };

    ghost use Rattle.cf_tree.specs.contracts.raw.Raw as coded_raw;
    ghost use Rattle.std.specs.Coded.{codes};

    ghost coded = { Prim.hlevel (codes, coded_raw.the_row.coded) };

    ghost use Rattle.cf_type.specs.Numbers.{shown, numbers_of};

    ghost view = { λ c. map (λ d. d.now) c.defs.now };

    ghost invariant = { λ c. shown c.numbers.entries ≡ numbers_of (map (λ d. d.now) c.defs.now) };
}

// Gives a new name its number.
fn add(
    alloc: Global,
    numbers: &mut IndexMap<Vec<u8>, u32>,
    name: &Text,
    number: usize,
) -> Result<(), NoMemory>
    ensures { OnOk result (shown numbers.new.entries ≡ with_name (shown numbers.old.entries) name.now number) }
{
    let bytes = name.bytes.as_slice();
    if numbers.contains_key(bytes) {
        return Ok(());
    }
    let number = to_u32(number)?;
    numbers.insert(Vec::from_slice(alloc, bytes)?, number)?;
    Ok(())
}

// Gives the names of these functions their numbers.
fn add_all(
    alloc: Global,
    numbers: &mut IndexMap<Vec<u8>, u32>,
    defs: &[&RawDef],
) -> Result<(), NoMemory>
    ensures { OnOk result (shown numbers.new.entries ≡ with_names (shown numbers.old.entries) 0 (names_of_defs (map (λ d. d.now) defs.now))) }
{
    for i in 0..defs.len() {
        add(alloc, numbers, &defs[i].name, i)?;
    }
    Ok(())
}

// The number of the last of these functions that has this name.
fn last_named(defs: &[&RawDef], name: &Text) -> Option<usize>
    ensures { IsLastNamed (map (λ d. d.now) defs.now) name.now result }
{
    let mut count = defs.len();
    while count > 0 {
        count -= 1;
        let def = defs[count];
        if def.name.bytes.as_slice() == name.bytes.as_slice() {
            return Some(count);
        }
    }
    None
}

impl<'a> Callees<'a> {
    /// These functions.
    pub fn new(alloc: Global, defs: &'a [&'a RawDef]) -> Result<Callees<'a>, NoMemory>
        ensures { IfOk result (λ c. c ≡ map (λ d. d.now) defs.now) }
    {
        let mut numbers = IndexMap::new(alloc);
        match add_all(alloc, &mut numbers, defs) {
            Ok(()) => Ok(Callees { defs, numbers }),
            Err(fault) => Err(without(numbers, fault)),
        }
    }

    /// The first function of a name: its number, itself, and whether it stands before the caller.
    pub fn find(&self, caller: u32, name: &Text) -> Option<(u32, &RawDef, bool)>
        ensures { Shows (λ c. callee_seen c.0 (raw_def_tree c.1.now) c.2) result (callee_from caller 0 (map raw_def_tree self.now) name.now) }
    {
        match self.numbers.get(name.bytes.as_slice()) {
            None => None,
            Some(found) => {
                let number = *found;
                let def = self.defs[number as usize];
                Some((number, def, number < caller))
            }
        }
    }

    /// Whether one of the first functions, as many as `count`, has this name.
    pub fn is_named_before(&self, count: usize, name: &Text) -> bool
        ensures { result ≡ is_among (map (λ e. e.name) (map raw_def_tree (take count self.now))) name.now }
    {
        match self.numbers.get(name.bytes.as_slice()) {
            None => false,
            Some(found) => (*found as usize) < count,
        }
    }

    /// The last of the first functions, as many as `count`, that has this name: its number, and
    /// itself.
    pub fn last_before(&self, count: usize, name: &Text) -> Option<(usize, &RawDef)>
        ensures found { Shows (λ c. (raw_def_tree c.1.now, backwards (take c.0 self.now))) result (last_named_of (backwards (take count self.now)) name.now) }
        ensures at { IfSome result (λ c. (c.0 < length (take count self.now)) × (c.1.now ≡ get_or (take count self.now) c.0 c.1.now)) }
    {
        let count = count.min(self.defs.len());
        match last_named(&self.defs[..count], name) {
            None => None,
            Some(number) => Some((number, self.defs[number])),
        }
    }
}
