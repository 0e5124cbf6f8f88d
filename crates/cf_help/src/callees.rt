//! The functions that a relation may call.
ghost use Rattle.std.specs.Prelude.{◌≡◌, ◌<◌, get_or, length, map, take, IfSome};
ghost use Rattle.cf_tree.specs.DefView.{raw_def_tree};
ghost use Rattle.cf_program.specs.CheckAnswers.{Shows};
ghost use Rattle.cf_help.specs.LastNamed.{backwards, last_named as last_named_of, IsLastNamed};

use cf_tree::{RawDef, Text};
use std::marker::Model;

/// Functions, in the order of the text. Contracts see the list of them.
#[derive(Drop)]
pub struct Callees<'a> {
    defs: &'a [&'a RawDef],
}

impl<'a> Model for Callees<'a> {
    ghost use Rattle.std.specs.Prelude.{List, map};
    ghost use Rattle.cf_tree.specs.declared.raw.RawDef.{RawDef};

    ghost Value = { List RawDef };

    ghost use Rattle.cf_tree.specs.contracts.raw.Raw as coded_raw;
    ghost use Rattle.std.specs.Coded.{codes};

    ghost coded = { Prim.hlevel (codes, coded_raw.the_row.coded) };

    ghost view = { λ c. map (λ d. d.now) c.defs.now };
}

// The number of the last of these functions that has this name.
fn last_named(defs: &[&RawDef], name: &Text) -> Option<usize>
    ensures { IsLastNamed (map (λ d. d.now) defs.now) name.now result }
{
    let mut count = defs.len();
    while count > 0 {
        count -= 1;
        let def = defs[count];
        if def.name.bytes.as_slice() == name.bytes.as_slice() {
            return Some(count);
        }
    }
    None
}

impl<'a> Callees<'a> {
    /// These functions.
    pub fn new(defs: &'a [&'a RawDef]) -> Callees<'a>
        ensures { result ≡ map (λ d. d.now) defs.now }
    {
        Callees { defs }
    }

    /// The last of the first functions, as many as `count`, that has this name: its number, and
    /// itself.
    pub fn last_before(&self, count: usize, name: &Text) -> Option<(usize, &RawDef)>
        ensures found { Shows (λ c. (raw_def_tree c.1.now, backwards (take c.0 self.now))) result (last_named_of (backwards (take count self.now)) name.now) }
        ensures at { IfSome result (λ c. (c.0 < length (take count self.now)) × (c.1.now ≡ get_or (take count self.now) c.0 c.1.now)) }
    {
        let count = count.min(self.defs.len());
        match last_named(&self.defs[..count], name) {
            None => None,
            Some(number) => Some((number, self.defs[number])),
        }
    }
}
