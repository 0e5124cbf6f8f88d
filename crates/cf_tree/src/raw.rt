//! Source programs as they are read, with their names and places.
use crate::base::{Base, Order, Place, Sense, Text};

/// An operation with two sides.
#[derive(Clone, Copy, Debug, PartialEq, Eq)]
pub enum BinOp {
    Add,
    Sub,
    Mul,
    And,
    Or,
    Union,
    Inter,
    Diff,
    Subset,
    /// Its right side counts only where the left one is true.
    Implies,
    Compare(Order),
}

/// A name with its base: a parameter of a function, or an output of a `choose`.
#[derive(Drop)]
pub struct Param {
    pub place: Place,
    pub name: Text,
    pub base: Base,
}

/// The number of a `div`, `mod` or `divides`, or the factor of a part of a pattern.
#[derive(Drop)]
pub enum Number {
    Lit(i128),
    /// The name of a constant, with its place.
    Name { place: Place, name: Text },
}

/// An expression and its place: that of the operator of an operation with two sides, that of
/// the first operator of a chain, and that of the first token of any other form.
#[cycle(raw)]
#[derive(Drop)]
pub struct Raw {
    pub place: Place,
    pub node: RawNode,
}

/// A form of expression.
#[cycle(raw)]
#[derive(Drop)]
pub enum RawNode {
    Lit(i128),
    Truth(bool),
    Name(Text),
    SetOf(Vec<Raw>),
    /// An expression in parentheses.
    Group(Box<Raw>),
    Tuple(Vec<Raw>),
    Neg(Box<Raw>),
    Not(Box<Raw>),
    Abs(Box<Raw>),
    Binary {
        op: BinOp,
        left: Box<Raw>,
        right: Box<Raw>,
    },
    /// Two or more comparisons in one: each order stands between two parts, and has its place.
    Chain {
        orders: Vec<Order>,
        places: Vec<Place>,
        parts: Vec<Raw>,
    },
    /// The least of two or more parts.
    Min(Vec<Raw>),
    /// The greatest of two or more parts.
    Max(Vec<Raw>),
    Divides {
        k: Number,
        of: Box<Raw>,
    },
    Div {
        of: Box<Raw>,
        k: Number,
    },
    Mod {
        of: Box<Raw>,
        k: Number,
    },
    Card(Box<Raw>),
    Call {
        name: Text,
        args: Vec<Raw>,
    },
    If {
        test: Box<Raw>,
        yes: Box<Raw>,
        no: Box<Raw>,
    },
    /// Binds names to the parts of a value; `places` holds the place of each name.
    Let {
        names: Vec<Text>,
        places: Vec<Place>,
        value: Box<Raw>,
        body: Box<Raw>,
    },
    /// Outputs with which the relation holds, and so do some values of the hidden ones.
    Choose {
        outputs: Vec<Param>,
        hidden: Vec<Param>,
        given: RawGiven,
        rel: Box<Raw>,
        aim: RawAim,
    },
    Match {
        of: Box<Raw>,
        arms: Vec<RawArm>,
    },
}

/// An arm of a `match`: the pattern is the sum of its parts and the constant.
#[cycle(raw)]
#[derive(Drop)]
pub struct RawArm {
    pub parts: Vec<Part>,
    pub constant: i128,
    pub body: Raw,
}

/// What a `choose` takes its inputs to be. The place is that of the word `given`.
#[cycle(raw)]
#[derive(Drop)]
pub enum RawGiven {
    Always,
    That { place: Place, rel: Box<Raw> },
}

/// What a `choose` makes least or greatest. The place is that of the word `minimise` or `maximise`.
#[cycle(raw)]
#[derive(Drop)]
pub enum RawAim {
    Any,
    At {
        place: Place,
        sense: Sense,
        objective: Box<Raw>,
    },
}

/// A part of a pattern: a sign, a factor where one is written, and a name, which is that of a new
/// variable or of a constant. `start` is the place of its first token, `place` that of the name.
#[derive(Drop)]
pub struct Part {
    pub start: Place,
    pub is_negative: bool,
    pub factor: Option<Number>,
    pub place: Place,
    pub name: Text,
}

/// A function.
#[derive(Drop)]
pub struct RawDef {
    pub place: Place,
    pub name: Text,
    pub params: Vec<Param>,
    pub results: Vec<Base>,
    pub body: Raw,
}

/// A constant. The place is that of the name.
#[derive(Drop)]
pub struct RawConst {
    pub place: Place,
    pub name: Text,
    pub value: Raw,
}

/// A declaration of a program. Only edition 3 has constants.
#[derive(Drop)]
pub enum RawItem {
    Const(RawConst),
    Def(RawDef),
}

/// A source program: its declarations in the order of its text. One of language 2 has functions alone.
#[derive(Drop)]
pub struct Program {
    pub items: Vec<RawItem>,
}
