//! Source programs with their names turned into levels and numbers.
use crate::base::{Base, Order, Text};
use crate::raw::{BinOp, Param};
use crate::rel::Rel;

/// An expression. A variable's level is the number of variables bound outside it in its function.
#[cycle(expr)]
#[derive(Drop)]
pub enum Expr {
    Lit(i128),
    Truth(bool),
    Var(u32),
    SetOf(Vec<Expr>),
    Tuple(Vec<Expr>),
    Neg(Box<Expr>),
    Not(Box<Expr>),
    Abs(Box<Expr>),
    Binary {
        op: BinOp,
        left: Box<Expr>,
        right: Box<Expr>,
    },
    /// Two or more comparisons in one: each order stands between two parts.
    Chain {
        orders: Vec<Order>,
        parts: Vec<Expr>,
    },
    /// The least of two or more parts.
    Min(Vec<Expr>),
    /// The greatest of two or more parts.
    Max(Vec<Expr>),
    Divides {
        k: i128,
        of: Box<Expr>,
    },
    Div {
        of: Box<Expr>,
        k: i128,
    },
    Mod {
        of: Box<Expr>,
        k: i128,
    },
    Card(Box<Expr>),
    If {
        test: Box<Expr>,
        yes: Box<Expr>,
        no: Box<Expr>,
    },
    /// A call of function number `def`, which stands earlier.
    Call {
        def: u32,
        args: Vec<Expr>,
    },
    /// Binds the next `count` levels to the parts of the value.
    Let {
        count: u32,
        value: Box<Expr>,
        body: Box<Expr>,
    },
    /// The choose of that number. `scope` holds the variables in scope, by level.
    Choose {
        number: u32,
        scope: Vec<Param>,
        outputs: Vec<Base>,
        rel: Rel,
    },
    /// The choose of that number, whose relation is an expression. `scope` holds the variables in
    /// scope, by level; the outputs have the levels after them, and the hidden ones those after the
    /// outputs.
    ChooseWhere {
        number: u32,
        scope: Vec<Param>,
        outputs: Vec<Base>,
        hidden: Vec<Base>,
        given: Given,
        rel: Box<Expr>,
        aim: Aim,
    },
    /// The match of that number. `scope` holds the variables in scope and last the matched value,
    /// which has the next level; the variables of an arm have the levels after it.
    Match {
        number: u32,
        scope: Vec<Param>,
        of: Box<Expr>,
        arms: Vec<MatchArm>,
    },
}

/// An arm of a `match`. Its number is 0 where it has no variables. The pattern is the sum of each
/// factor times its variable, and of the constant.
#[cycle(expr)]
#[derive(Drop)]
pub struct MatchArm {
    pub number: u32,
    pub factors: Vec<i128>,
    pub constant: i128,
    pub body: Expr,
}

/// What a choose takes its inputs to be: an expression over the variables in its scope.
#[cycle(expr)]
#[derive(Drop)]
pub enum Given {
    Always,
    Where(Box<Expr>),
}

/// Which of its solutions a choose allows: any, or those at which its objective is least or greatest.
#[cycle(expr)]
#[derive(Drop)]
pub enum Aim {
    Any,
    Least(Box<Expr>),
    Greatest(Box<Expr>),
}

/// A function.
#[derive(Drop)]
pub struct Def {
    pub name: Text,
    pub params: Vec<Param>,
    pub results: Vec<Base>,
    pub body: Expr,
}
