//! Target code.
use crate::base::Order;

/// A form of target code. A variable's level is the number of variables bound outside it.
#[cycle(code)]
#[derive(Drop)]
pub enum Code {
    Lit(i128),
    Truth(bool),
    Var(u32),
    SetOf(Vec<Code>),
    Tuple(Vec<Code>),
    /// The sum of two or more parts, from left to right.
    Sum(Vec<Code>),
    Sub(Box<Code>, Box<Code>),
    Mul(Box<Code>, Box<Code>),
    Neg(Box<Code>),
    Div {
        of: Box<Code>,
        k: i128,
    },
    Mod {
        of: Box<Code>,
        k: i128,
    },
    /// The least of one or more parts.
    Min(Vec<Code>),
    /// The greatest of one or more parts.
    Max(Vec<Code>),
    Compare {
        order: Order,
        left: Box<Code>,
        right: Box<Code>,
    },
    Divides {
        k: i128,
        of: Box<Code>,
    },
    And(Box<Code>, Box<Code>),
    Or(Box<Code>, Box<Code>),
    Not(Box<Code>),
    Union(Vec<Code>),
    Inter(Vec<Code>),
    Diff(Box<Code>, Box<Code>),
    Subset(Box<Code>, Box<Code>),
    Card(Box<Code>),
    /// The elements of a set at the `n` places from `from` on.
    Slice {
        set: Box<Code>,
        from: Box<Code>,
        n: Box<Code>,
    },
    /// The `n` least numbers from 0 upwards that are not in `avoid`.
    Fresh {
        avoid: Box<Code>,
        n: Box<Code>,
    },
    If {
        test: Box<Code>,
        yes: Box<Code>,
        no: Box<Code>,
    },
    /// Binds the levels from `first` on, `count` of them, to the parts of the value.
    Let {
        first: u32,
        count: u32,
        value: Box<Code>,
        body: Box<Code>,
    },
    /// The gives of the first arm, and in it of the first tuple of searches, at which all needs
    /// hold.
    Solve {
        number: u32,
        arms: Vec<Arm>,
    },
}

/// One way to solve: the bounds of its searches, its lets and needs in order, and what it gives.
#[cycle(code)]
#[derive(Drop)]
pub struct Arm {
    pub bounds: Vec<u32>,
    pub items: Vec<Item>,
    pub gives: Vec<Code>,
}

/// A step of an arm.
#[cycle(code)]
#[derive(Drop)]
pub enum Item {
    Let(Code),
    Need(Code),
}
