//! The names that were met so far, behind those of constants.
ghost use Rattle.std.specs.Prelude.{◌≡◌, ◌++◌, ◌∷◌, [], map, IfOk, if◌then◌else◌};
ghost use Rattle.cf_program.specs.Constants.{constant_names};
ghost use Rattle.cf_program.specs.Names.{is_among};
ghost use Rattle.cf_type.specs.Valued.{constants_of};

use crate::constants::Constants;
use cf_tree::{NoMemory, Text};
use indexmap::IndexSet;
use std::alloc::Global;
use std::marker::Model;

/// Different names behind those of constants, in a table. Contracts see the list of all, in the
/// order in which they came.
#[derive(Drop)]
pub struct NameSet<'c, 'a> {
    constants: &'c Constants,
    names: IndexSet<&'a [u8]>,
}

impl<'c, 'a> Model for NameSet<'c, 'a> {
    ghost use Rattle.std.specs.Prelude.{◌++◌, ℕ, List, map};
    ghost use Rattle.cf_program.specs.Constants.{constant_names};
    ghost use Rattle.cf_type.specs.Valued.{constants_of};

    ghost Value = { List (List ℕ) };

    ghost view = { λ s. constant_names (constants_of s.constants.now) ++ map (λ k. k.now) s.names.keys };
}

impl<'c, 'a> NameSet<'c, 'a> {
    /// The names of these constants.
    pub fn new(alloc: Global, constants: &'c Constants) -> NameSet<'c, 'a>
        ensures { result ≡ constant_names (constants_of constants.now) }
    {
        NameSet {
            constants,
            names: IndexSet::new(alloc),
        }
    }

    /// Adds a name, unless it is there, and tells whether it was.
    #[tactic(auto, using(crate::proofs::NameLemmas::among_first, crate::proofs::NameLemmas::among_behind, crate::proofs::NameLemmas::put_behind))]
    pub fn add(&mut self, name: &'a Text) -> Result<bool, NoMemory>
        ensures had { IfOk result (λ had. had ≡ is_among self.old name.now) }
        ensures added { IfOk result (λ had. self.new ≡ if had then self.old else self.old ++ name.now ∷ []) }
    {
        if self.constants.is_named(name) {
            return Ok(true);
        }
        insert(&mut self.names, name)
    }
}

// Adds a name, unless it is there, and tells whether it was.
fn insert<'a>(names: &mut IndexSet<&'a [u8]>, name: &'a Text) -> Result<bool, NoMemory>
    ensures had { IfOk result (λ had. had ≡ is_among (map (λ k. k.now) names.old.keys) name.now) }
    ensures added { IfOk result (λ had. map (λ k. k.now) names.new.keys ≡
        if had then map (λ k. k.now) names.old.keys else map (λ k. k.now) names.old.keys ++ name.now ∷ []) }
{
    Ok(!names.insert(name.bytes.as_slice())?)
}
