//! Wide relations: what stands in the relation of a source once its lets and calls are expanded.
use cf_tree::{NoMemory, Order};

/// A number form.
#[cycle(wide)]
#[derive(Drop)]
pub enum WideTerm {
    Lit(i128),
    Var(u32),
    Card(Box<WideSet>),
    Neg(Box<WideTerm>),
    Add(Box<WideTerm>, Box<WideTerm>),
    Sub(Box<WideTerm>, Box<WideTerm>),
    Mul(Box<WideTerm>, Box<WideTerm>),
    Div(Box<WideTerm>, i128),
    Mod(Box<WideTerm>, i128),
    Abs(Box<WideTerm>),
    If {
        test: Box<WideRel>,
        yes: Box<WideTerm>,
        no: Box<WideTerm>,
    },
    Min(Vec<WideTerm>),
    Max(Vec<WideTerm>),
}

/// A set form.
#[cycle(wide)]
#[derive(Drop)]
pub enum WideSet {
    Empty,
    SetVar(u32),
    Union(Box<WideSet>, Box<WideSet>),
    Inter(Box<WideSet>, Box<WideSet>),
    Diff(Box<WideSet>, Box<WideSet>),
    IfSet {
        test: Box<WideRel>,
        yes: Box<WideSet>,
        no: Box<WideSet>,
    },
}

/// A relation. `Same` and `Other` are `==` and `!=` of truth values.
#[cycle(wide)]
#[derive(Drop)]
pub enum WideRel {
    True,
    False,
    Truth(u32),
    Compare {
        order: Order,
        left: Box<WideTerm>,
        right: Box<WideTerm>,
    },
    SameSet(Box<WideSet>, Box<WideSet>),
    OtherSet(Box<WideSet>, Box<WideSet>),
    Subset(Box<WideSet>, Box<WideSet>),
    Divides {
        k: i128,
        of: Box<WideTerm>,
    },
    Not(Box<WideRel>),
    And(Box<WideRel>, Box<WideRel>),
    Or(Box<WideRel>, Box<WideRel>),
    Implies(Box<WideRel>, Box<WideRel>),
    Same(Box<WideRel>, Box<WideRel>),
    Other(Box<WideRel>, Box<WideRel>),
    IfTruth {
        test: Box<WideRel>,
        yes: Box<WideRel>,
        no: Box<WideRel>,
    },
    Chain {
        orders: Vec<Order>,
        parts: Vec<WideTerm>,
    },
}

/// A part of an expression's value.
#[derive(Drop)]
pub enum Part {
    Number(Box<WideTerm>),
    Set(Box<WideSet>),
    Truth(Box<WideRel>),
}

/// How many nodes of wide forms and relations may still be made, and how many levels they may still
/// go down. What a relation unfolds to can be exponentially greater and deeper than its text, and it
/// is made before weights and depths are asked.
#[derive(Drop)]
pub struct Room {
    nodes: usize,
    levels: usize,
}

impl Room {
    /// Room for `MOST_NODES` nodes in `MOST_LEVELS` levels.
    pub fn new() -> Room {
        Room {
            nodes: MOST_NODES,
            levels: MOST_LEVELS,
        }
    }

    /// Takes room for one node.
    pub fn take(&mut self) -> Result<(), NoMemory> {
        self.take_all(1)
    }

    /// Takes room for so many nodes.
    pub fn take_all(&mut self, count: usize) -> Result<(), NoMemory> {
        match self.nodes.checked_sub(count) {
            Some(left) => {
                self.nodes = left;
                Ok(())
            }
            None => Err(NoMemory),
        }
    }

    /// Goes a level down.
    pub fn enter(&mut self) -> Result<(), NoMemory> {
        match self.levels.checked_sub(1) {
            Some(left) => {
                self.levels = left;
                Ok(())
            }
            None => Err(NoMemory),
        }
    }

    /// Comes back from a level.
    pub fn leave(&mut self) {
        self.levels = self.levels.saturating_add(1);
    }
}

// Eight times the greatest weight of a function.
const MOST_NODES: usize = 8_000_000;

// Five times the greatest unfolded depth of a function.
const MOST_LEVELS: usize = 1_000;
