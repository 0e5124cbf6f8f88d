//! The variables in scope.
ghost use Rattle.std.specs.Prelude.{◌≡◌, ◌-◌, ◌++◌, ◌∷◌, [], length, map, take, OnOk, IfOk};
ghost use Rattle.std.specs.Map.{set_value};
ghost use Rattle.std.specs.Str.{bytes_eq};
ghost use Rattle.cf_type.specs.FormView.{summand_of};
ghost use Rattle.cf_program.specs.Names.{variable_of};
ghost use Rattle.cf_program.specs.Walk.{bound, matched, variables_of};

use crate::form::Summand;
use cf_program::Variable;
use cf_tree::{Base, NoMemory, Param, Place, Text, to_u32};
use indexmap::IndexMap;
use std::alloc::Global;
use std::marker::Model;

// A variable in scope, and the outer one of the same name that it hides.
#[derive(Drop)]
struct Binding {
    param: Param,
    hidden: Option<Variable>,
}

/// The variables in scope, by level, with a table of the innermost of each name. Contracts see the
/// list of the variables.
#[derive(Drop)]
pub struct Scope {
    bindings: Vec<Binding>,
    innermost: IndexMap<Vec<u8>, Option<Variable>>,
}

impl Model for Scope {
    ghost use Rattle.std.specs.Prelude.{List, map};
    ghost use Rattle.cf_tree.specs.declared.raw.Param.{Param};

    ghost Value = { List Param };

    ghost use Rattle.cf_type.specs.Scoped.{TableAnswer};

    ghost view = { λ s. map (λ b. b.param) s.bindings.items };

    ghost invariant = { λ s. TableAnswer s.innermost.entries (map (λ b. b.param) s.bindings.items) (map (λ b. b.hidden) s.bindings.items) };
}

// The variables of bindings, copied.
fn params_of(alloc: Global, bindings: &[Binding]) -> Result<Vec<Param>, NoMemory>
    ensures { IfOk result (λ new. new.items ≡ map (λ b. b.param) bindings.now) }
{
    let mut all = Vec::new(alloc);
    for binding in bindings {
        all.push(binding.param.try_copy(alloc)?)?;
    }
    Ok(all)
}

// The parameter as the variable of a level.
fn variable_at(level: u32, param: &Param) -> Variable
    ensures { result ≡ record { level = level; base = param.now.base } }
{
    Variable {
        level,
        base: param.base,
    }
}

// Gives a name that the table has the variable that was hidden.
fn restore(
    innermost: &mut IndexMap<Vec<u8>, Option<Variable>>,
    name: &Text,
    hidden: Option<Variable>,
)
    ensures { innermost.new.entries ≡ set_value (λ k. bytes_eq name.now k.items) innermost.old.entries hidden }
{
    if let Some(variable) = innermost.get_mut(name.bytes.as_slice()) {
        *variable = hidden;
    }
}

impl Scope {
    /// No variables.
    pub fn new(alloc: Global) -> Scope
        ensures { result ≡ [] }
    {
        Scope {
            bindings: Vec::new(alloc),
            innermost: IndexMap::new(alloc),
        }
    }

    /// How many variables are in scope.
    pub fn len(&self) -> usize
        ensures { result ≡ length self.now }
    {
        self.bindings.len()
    }

    /// The innermost variable of a name.
    pub fn find(&self, name: &Text) -> Option<Variable>
        ensures { result ≡ variable_of self.now name.now }
    {
        match self.innermost.get(name.bytes.as_slice()) {
            None => None,
            Some(found) => *found,
        }
    }

    /// The variables, copied.
    pub fn copied(&self, alloc: Global) -> Result<Vec<Param>, NoMemory>
        ensures { IfOk result (λ new. new.items ≡ self.now) }
    {
        params_of(alloc, &self.bindings)
    }

    // What the table has for a parameter once it is bound: its name, and the variable that it is.
    fn entry(&self, alloc: Global, param: &Param) -> Result<(Vec<u8>, Variable), NoMemory>
        ensures { IfOk result (λ e. (e.0.items ≡ param.now.name) × (e.1 ≡ record { level = length self.now; base = param.now.base })) }
    {
        let level = to_u32(self.len())?;
        let name = Vec::from_slice(alloc, param.name.bytes.as_slice())?;
        Ok((name, variable_at(level, param)))
    }

    // Binds one more variable.
    fn push(&mut self, alloc: Global, param: Param) -> Result<(), NoMemory>
        ensures { OnOk result (self.new ≡ self.old ++ param ∷ []) }
    {
        let hidden = self.find(&param.name);
        let (name, variable) = self.entry(alloc, &param)?;
        self.bindings.reserve(1)?;
        self.innermost.insert(name, Some(variable))?;
        self.bindings.push(Binding { param, hidden })?;
        Ok(())
    }

    // Binds a name, copied.
    fn push_named(
        &mut self,
        alloc: Global,
        place: Place,
        name: &Text,
        base: Base,
    ) -> Result<(), NoMemory>
        ensures { OnOk result (self.new ≡ self.old ++ record { place = place; name = name.now; base = base } ∷ []) }
    {
        let name = name.try_copy(alloc)?;
        self.push(alloc, Param { place, name, base })
    }

    /// Binds parameters or outputs.
    pub fn enter(&mut self, alloc: Global, params: &[Param]) -> Result<(), NoMemory>
        ensures { OnOk result (self.new ≡ self.old ++ params.now) }
    {
        for param in params {
            self.push(alloc, param.try_copy(alloc)?)?;
        }
        Ok(())
    }

    /// Binds the variables of a pattern.
    pub fn enter_summands(&mut self, alloc: Global, summands: &[Summand]) -> Result<(), NoMemory>
        ensures { OnOk result (self.new ≡ self.old ++ variables_of (map summand_of summands.now)) }
    {
        for summand in summands {
            self.push_named(alloc, summand.place, &summand.name, Base::Int)?;
        }
        Ok(())
    }

    /// Binds the value that is matched.
    pub fn enter_matched(&mut self, alloc: Global, place: Place) -> Result<(), NoMemory>
        ensures { OnOk result (self.new ≡ self.old ++ matched place ∷ []) }
    {
        self.push(
            alloc,
            Param {
                place,
                name: Text::from_str(alloc, "match")?,
                base: Base::Int,
            },
        )
    }

    /// Binds names to parts of these bases.
    pub fn bind(
        &mut self,
        alloc: Global,
        names: &[Text],
        places: &[Place],
        bases: &[Base],
    ) -> Result<(), NoMemory>
        ensures { OnOk result (self.new ≡ self.old ++ bound names.now places.now bases.now) }
    {
        let mut later_places = places;
        let mut later_bases = bases;
        for name in names {
            match later_places.split_first() {
                None => return Ok(()),
                Some((place, more)) => match later_bases.split_first() {
                    None => return Ok(()),
                    Some((base, rest)) => {
                        self.push_named(alloc, *place, name, *base)?;
                        later_places = more;
                        later_bases = rest;
                    }
                },
            }
        }
        Ok(())
    }

    /// Leaves the innermost variable, and has the one that it hides again.
    pub fn leave_last(&mut self)
        ensures { self.new ≡ take (length self.old - 1) self.old }
    {
        if let Some(Binding { param, hidden }) = self.bindings.pop() {
            restore(&mut self.innermost, &param.name, hidden);
        }
    }

    /// Leaves only the outermost variables, as many as `size`.
    pub fn leave(&mut self, size: usize)
        ensures { self.new ≡ take size self.old }
    {
        while size < self.len() {
            self.leave_last();
        }
    }
}
