//! What the walk learns of an expression.
use cf_tree::{Aim, Base, Expr, Given, MatchArm, Place, Rel, SetTerm, Term, Text};

/// An expression as a part of a relation, or the place of its first form that is not linear.
#[derive(Drop)]
pub enum Reading {
    Relation(Box<Rel>),
    Term(Box<Term>),
    Set(Box<SetTerm>),
    NotLinear(Place),
}

/// An expression: the bases of its parts, its tree with levels, its reading, and the next number
/// of a choose.
#[derive(Drop)]
pub struct Form {
    pub bases: Vec<Base>,
    pub tree: Box<Expr>,
    pub reading: Reading,
    pub next: u32,
}

/// Expressions in a row.
#[derive(Drop)]
pub struct Forms {
    pub bases: Vec<Vec<Base>>,
    pub trees: Vec<Expr>,
    pub first_nonlinear: Option<Place>,
    pub next: u32,
}

/// The arms of a match.
#[derive(Drop)]
pub struct Arms {
    pub bases: Vec<Vec<Base>>,
    pub trees: Vec<MatchArm>,
    pub first_nonlinear: Option<Place>,
    pub next: u32,
}

/// What a choose takes as given: its tree, and the next number of a choose.
#[derive(Drop)]
pub struct GivenForm {
    pub tree: Given,
    pub next: u32,
}

/// What a choose aims at: its tree, and the next number of a choose.
#[derive(Drop)]
pub struct AimForm {
    pub tree: Aim,
    pub next: u32,
}

/// A variable of a pattern, with its factor.
#[derive(Drop)]
pub struct Summand {
    pub place: Place,
    pub factor: i128,
    pub name: Text,
}

/// A pattern: its variables, the constants of its names, each with its sign, and its constant.
#[derive(Drop)]
pub struct Pattern {
    pub summands: Vec<Summand>,
    pub constants: Vec<i128>,
    pub constant: i128,
}
