//! Where an expression stands.
ghost use Rattle.std.specs.Prelude.{◌≡◌, ◌==◌};
ghost use Rattle.cf_type.specs.FormView.{context_of};
ghost use Rattle.cf_program.specs.Constants.{constant_of};
ghost use Rattle.cf_program.specs.Walk.{in_relation as in_relation_of, taken as taken_of, takes_inputs as takes_inputs_of};

use crate::callees::Callees;
use crate::constants::Constants;
use crate::name_set::NameSet;
use cf_program::Linearity;
use cf_tree::{Edition, Text};
use std::alloc::Global;

/// Where an expression stands: the edition, the functions that it may name, the constants before
/// it, how many functions stand before, which relations are linear, and how many of the outermost
/// variables count as known.
#[derive(Drop)]
pub struct Context<'a> {
    pub alloc: Global,
    pub edition: Edition,
    pub callees: &'a Callees<'a>,
    pub constants: &'a Constants,
    pub number: u32,
    pub how: Linearity,
    pub known: usize,
}

impl<'a> Context<'a> {
    /// The edition.
    #[tactic(auto, unfolding(crate::specs::FormView::context_of))]
    pub fn edition(&self) -> Edition
        ensures { result ≡ (context_of self.now).edition }
    {
        self.edition
    }

    /// The value of the constant of a name.
    #[tactic(auto, unfolding(crate::specs::FormView::context_of))]
    pub fn constant(&self, name: &Text) -> Option<i128>
        ensures { result ≡ constant_of (context_of self.now).constants name.now }
    {
        self.constants.find(name)
    }

    /// The names that no binder may take.
    #[tactic(auto, unfolding(crate::specs::FormView::context_of))]
    pub fn taken<'n>(&self) -> NameSet<'a, 'n>
        ensures { result ≡ taken_of (context_of self.now) }
    {
        NameSet::new(self.alloc, self.constants)
    }

    /// Whether as many variables count as known for both.
    #[tactic(auto, unfolding(crate::specs::FormView::context_of))]
    pub fn knows_as_many(&self, other: &Context) -> bool
        ensures { result ≡ ((context_of self.now).known == (context_of other.now).known) }
    {
        self.known == other.known
    }

    /// Whether a product with inputs may stand in a relation.
    #[tactic(auto, unfolding(crate::specs::FormView::context_of))]
    pub fn takes_inputs(&self) -> bool
        ensures { result ≡ takes_inputs_of (context_of self.now).how }
    {
        match self.how {
            Linearity::Plain => false,
            Linearity::Late => true,
        }
    }

    /// In the relation of a `choose` behind so many variables.
    #[tactic(auto, unfolding(crate::specs::FormView::context_of))]
    pub fn in_relation(&self, scope: usize) -> Context<'a>
        ensures { context_of result ≡ in_relation_of (context_of self.now) scope }
    {
        Context {
            alloc: self.alloc,
            edition: self.edition,
            callees: self.callees,
            constants: self.constants,
            number: self.number,
            how: self.how,
            known: self.how.known_in(scope),
        }
    }
}
