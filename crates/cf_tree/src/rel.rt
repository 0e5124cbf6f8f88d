//! Relations, and the number and set forms in them. Variables are levels: in the relation of a
//! `choose` the outputs have the levels after those of the scope.
use crate::base::Order;

/// A set form of a relation.
#[derive(Drop)]
pub enum SetTerm {
    Empty,
    Var(u32),
    Union(Box<SetTerm>, Box<SetTerm>),
    Inter(Box<SetTerm>, Box<SetTerm>),
    Diff(Box<SetTerm>, Box<SetTerm>),
}

/// A number form of a relation.
#[derive(Drop)]
pub enum Term {
    Lit(i128),
    Var(u32),
    Card(Box<SetTerm>),
    Neg(Box<Term>),
    Add(Box<Term>, Box<Term>),
    Sub(Box<Term>, Box<Term>),
    Mul(Box<Term>, Box<Term>),
    Div(Box<Term>, i128),
    Mod(Box<Term>, i128),
    Abs(Box<Term>),
}

/// A relation between the inputs and the outputs of a `choose`.
#[derive(Drop)]
pub enum Rel {
    True,
    False,
    Compare {
        order: Order,
        left: Box<Term>,
        right: Box<Term>,
    },
    SameSet(Box<SetTerm>, Box<SetTerm>),
    OtherSet(Box<SetTerm>, Box<SetTerm>),
    Subset(Box<SetTerm>, Box<SetTerm>),
    Divides {
        k: i128,
        of: Box<Term>,
    },
    And(Box<Rel>, Box<Rel>),
    Or(Box<Rel>, Box<Rel>),
    Not(Box<Rel>),
}
