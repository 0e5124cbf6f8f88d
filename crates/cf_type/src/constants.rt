//! The constants before an expression.
ghost use Rattle.std.specs.Prelude.{◌≡◌, ◌++◌, ◌∷◌, [], false, OnOk};
ghost use Rattle.cf_program.specs.Constants.{constant_of, constant_names};
ghost use Rattle.cf_program.specs.Names.{is_among};
ghost use Rattle.cf_type.specs.Valued.{constants_of, valued};

use cf_tree::{NoMemory, Text};
use indexmap::IndexMap;
use std::alloc::Global;
use std::marker::Model;

/// Constants of different names, in a table. Contracts see the list of the names with their values,
/// in the order in which they came.
#[derive(Drop)]
pub struct Constants {
    values: IndexMap<Vec<u8>, i128>,
}

impl Model for Constants {
    ghost use Rattle.std.specs.Prelude.{ℕ, ℤ, List, map};

    ghost Value = { List (List ℕ × ℤ) };

    ghost use Rattle.cf_type.specs.Valued.{valued};

    ghost view = { λ c. valued c.values.entries };
}

impl Constants {
    /// No constants.
    pub fn new(alloc: Global) -> Constants
        ensures { result ≡ [] }
    {
        Constants {
            values: IndexMap::new(alloc),
        }
    }

    /// The value of the constant of a name.
    pub fn find(&self, name: &Text) -> Option<i128>
        ensures { result ≡ constant_of (constants_of self.now) name.now }
    {
        self.values.get(name.bytes.as_slice()).copied()
    }

    /// Whether a constant has this name.
    pub fn is_named(&self, name: &Text) -> bool
        ensures { result ≡ is_among (constant_names (constants_of self.now)) name.now }
    {
        self.values.contains_key(name.bytes.as_slice())
    }

    /// Adds a constant whose name is new.
    pub fn add(&mut self, alloc: Global, name: &Text, value: i128) -> Result<(), NoMemory>
        requires { is_among (constant_names (constants_of self.now)) name.now ≡ false }
        ensures { OnOk result (self.new ≡ self.old ++ (name.now, value) ∷ []) }
    {
        insert(alloc, &mut self.values, name, value)
    }
}

// Adds a name with its value, where the name is new.
fn insert(
    alloc: Global,
    values: &mut IndexMap<Vec<u8>, i128>,
    name: &Text,
    value: i128,
) -> Result<(), NoMemory>
    requires { is_among (constant_names (constants_of (valued values.now.entries))) name.now ≡ false }
    ensures { OnOk result (valued values.new.entries ≡ valued values.old.entries ++ (name.now, value) ∷ []) }
{
    let bytes = Vec::from_slice(alloc, name.bytes.as_slice())?;
    values.insert(bytes, value)?;
    Ok(())
}
