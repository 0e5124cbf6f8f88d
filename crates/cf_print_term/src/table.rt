//! What differs between the languages in expressions: signs, calls and words.
use crate::mark::Mark;

/// A sign before a part or between two parts, and how tightly it binds. What stands at its sides binds tighter.
#[derive(Clone, Copy)]
pub struct Sign {
    pub text: Mark,
    pub level: u8,
    /// By how many levels more than one the parts have to bind tighter.
    pub more: u8,
    /// Whether what has the same level may stand at its left.
    pub chains: bool,
}

/// What stands before and behind the arguments of a call, and how tightly it binds.
#[derive(Clone, Copy)]
pub struct Call {
    pub opening: Mark,
    pub closing: Mark,
    pub level: u32,
}

/// How an operation on parts is written.
#[derive(Clone, Copy)]
pub enum Form {
    /// With a sign between two parts.
    Signed(Sign),
    /// With a sign between two parts, all of it the argument of a call.
    Fitted(Call, Sign),
    /// As a call on all parts.
    Called(Call),
    /// As a call on the first two parts, a call on that and the next, and so on.
    Nested(Call),
}

/// How one of two parts is chosen by a test.
#[derive(Clone, Copy)]
pub struct Choice {
    /// Whether the test stands before the first part.
    pub test_first: bool,
    /// What stands behind the part that is printed first, and behind the second.
    pub first: Mark,
    pub second: Mark,
}

/// How an operation is written where no number may be past the limit, and where one may.
#[derive(Clone, Copy)]
pub struct Checked {
    pub free: Form,
    pub checked: Form,
}

/// How a quotient or a remainder is written: of a number that may be below 0, and of one that is not.
#[derive(Clone, Copy)]
pub struct Divided {
    pub down: Form,
    pub natural: Form,
}

/// The signs between the two sides of a comparison.
#[derive(Clone, Copy)]
pub struct Orders {
    pub eq: Sign,
    pub ne: Sign,
    pub lt: Sign,
    pub le: Sign,
    pub gt: Sign,
    pub ge: Sign,
}

/// Operations on sets.
#[derive(Clone, Copy)]
pub struct SetForms {
    pub empty: Mark,
    pub of: Call,
    pub union: Form,
    pub inter: Form,
    pub diff: Form,
    pub subset: Form,
    pub same: Form,
    pub other: Form,
    pub card: Call,
    pub slice: Call,
    pub fresh: Call,
    /// How a variable is copied where a set of its own is to be given.
    pub copy: Option<Call>,
}

/// How a language writes numbers.
#[derive(Clone, Copy, Debug, PartialEq, Eq)]
pub enum Numerals {
    /// Digits alone.
    Plain,
    /// As C types them: `int`, then `long long`, then two halves.
    Halved,
    /// Digits, and behind those past `i32` their type.
    Suffixed,
    /// Digits and an `n`.
    Big,
}

/// The expressions of a language.
#[derive(Clone, Copy)]
pub struct Table {
    pub numerals: Numerals,
    /// Whether numerals have a type of their own, in which what is made of them alone may pass.
    pub is_typed: bool,
    pub yes: Mark,
    pub no: Mark,
    pub minus: Sign,
    pub not: Sign,
    pub and: Sign,
    pub or: Sign,
    pub orders: Orders,
    pub sum: Checked,
    /// A sum of three parts or more that may pass the limit on its way.
    pub sum_of: Call,
    pub difference: Checked,
    pub product: Checked,
    pub quotient: Divided,
    pub remainder: Divided,
    /// The remainder whose test for 0 says whether a number is divided.
    pub rest: Sign,
    pub least: Form,
    pub greatest: Form,
    pub choice: Choice,
    /// What stands around a choice.
    pub around_choice: Option<Call>,
    pub sets: SetForms,
}

// How tightly signs bind, the loosest first.
const OR: u8 = 0;

const AND: u8 = 1;

const NOT: u8 = 2;

const COMPARE: u8 = 3;

const BAR: u8 = 4;

const BOTH: u8 = 5;

const ADD: u8 = 6;

const MULTIPLY: u8 = 7;

const UNARY: u8 = 8;

/// What binds tightest: words, and nearly all calls.
pub const ATOM: u32 = 10;

// How tightly a choice binds that is the argument of a call: what may be a part of another choice.
const CHOICE: u32 = 1;

// A sign whose sides bind tighter than it, but for a chain of its level at the left.
macro_rules! chain {
    ($text:expr, $level:expr) => {
        Sign {
            text: $text,
            level: $level,
            more: 0,
            chains: true,
        }
    };
}

// A sign whose sides bind tighter than it.
macro_rules! alone {
    ($text:expr, $level:expr) => {
        Sign {
            text: $text,
            level: $level,
            more: 0,
            chains: false,
        }
    };
}

macro_rules! call {
    ($opening:expr) => {
        Call {
            opening: $opening,
            closing: Mark::End,
            level: ATOM,
        }
    };
}

// A sign between numbers, checked by a call of `fit` around it.
macro_rules! fitted {
    ($sign:expr) => {
        Checked {
            free: Form::Signed($sign),
            checked: Form::Fitted(call!(Mark::Fit), $sign),
        }
    };
}

// A sign between numbers, or a call of a helper that sets a flag.
macro_rules! flagged {
    ($sign:expr, $opening:expr) => {
        Checked {
            free: Form::Signed($sign),
            checked: Form::Nested(Call {
                opening: $opening,
                closing: Mark::EndWithPast,
                level: ATOM,
            }),
        }
    };
}

// A sign between numbers, or a call of a helper that may fail.
macro_rules! asked {
    ($sign:expr, $opening:expr) => {
        Checked {
            free: Form::Signed($sign),
            checked: Form::Nested(Call {
                opening: $opening,
                closing: Mark::EndAsked,
                level: ATOM,
            }),
        }
    };
}

/// Python.
pub const PYTHON: Table = Table {
    numerals: Numerals::Plain,
    is_typed: false,
    yes: Mark::CapitalTrue,
    no: Mark::CapitalFalse,
    minus: alone!(Mark::Dash, UNARY),
    not: alone!(Mark::Not, NOT),
    and: chain!(Mark::And, AND),
    or: chain!(Mark::Or, OR),
    orders: Orders {
        eq: alone!(Mark::Equal, COMPARE),
        ne: alone!(Mark::NotEqual, COMPARE),
        lt: alone!(Mark::Less, COMPARE),
        le: alone!(Mark::AtMost, COMPARE),
        gt: alone!(Mark::Greater, COMPARE),
        ge: alone!(Mark::AtLeast, COMPARE),
    },
    sum: fitted!(chain!(Mark::Plus, ADD)),
    sum_of: call!(Mark::SumOf),
    difference: fitted!(chain!(Mark::Minus, ADD)),
    product: fitted!(chain!(Mark::Star, MULTIPLY)),
    quotient: Divided {
        down: Form::Signed(chain!(Mark::TwoSlashes, MULTIPLY)),
        natural: Form::Signed(chain!(Mark::TwoSlashes, MULTIPLY)),
    },
    remainder: Divided {
        down: Form::Signed(chain!(Mark::Percent, MULTIPLY)),
        natural: Form::Signed(chain!(Mark::Percent, MULTIPLY)),
    },
    rest: chain!(Mark::Percent, MULTIPLY),
    least: Form::Called(call!(Mark::Min)),
    greatest: Form::Called(call!(Mark::Max)),
    choice: Choice {
        test_first: false,
        first: Mark::If,
        second: Mark::Else,
    },
    around_choice: None,
    sets: SetForms {
        empty: Mark::EmptySet,
        of: Call {
            opening: Mark::SetOf,
            closing: Mark::EndOfSet,
            level: ATOM,
        },
        union: Form::Signed(chain!(Mark::Bar, BAR)),
        inter: Form::Signed(chain!(Mark::Ampersand, BOTH)),
        diff: Form::Signed(chain!(Mark::Minus, ADD)),
        subset: Form::Signed(alone!(Mark::AtMost, COMPARE)),
        same: Form::Signed(alone!(Mark::Equal, COMPARE)),
        other: Form::Signed(alone!(Mark::NotEqual, COMPARE)),
        card: call!(Mark::Len),
        slice: call!(Mark::Cut),
        fresh: call!(Mark::Fresh),
        copy: None,
    },
};

// C has no sets: a program with one is refused before it is printed.
macro_rules! no_set {
    () => {
        call!(Mark::NoSet)
    };
}

/// C.
pub const C: Table = Table {
    numerals: Numerals::Halved,
    is_typed: true,
    yes: Mark::SmallTrue,
    no: Mark::SmallFalse,
    minus: alone!(Mark::Dash, UNARY),
    not: alone!(Mark::Bang, UNARY),
    and: chain!(Mark::TwoAmpersands, AND),
    // so that `&&` stands in parentheses in it
    or: Sign {
        text: Mark::TwoBars,
        level: OR,
        more: 2,
        chains: true,
    },
    orders: Orders {
        eq: alone!(Mark::Equal, COMPARE),
        ne: alone!(Mark::NotEqual, COMPARE),
        lt: alone!(Mark::Less, COMPARE),
        le: alone!(Mark::AtMost, COMPARE),
        gt: alone!(Mark::Greater, COMPARE),
        ge: alone!(Mark::AtLeast, COMPARE),
    },
    sum: flagged!(chain!(Mark::Plus, ADD), Mark::Add),
    sum_of: Call {
        opening: Mark::SumOfArray,
        closing: Mark::EndOfArray,
        level: ATOM,
    },
    difference: flagged!(chain!(Mark::Minus, ADD), Mark::Sub),
    product: flagged!(chain!(Mark::Star, MULTIPLY), Mark::Mul),
    quotient: Divided {
        down: Form::Called(call!(Mark::DivDown)),
        natural: Form::Signed(chain!(Mark::Slash, MULTIPLY)),
    },
    remainder: Divided {
        down: Form::Called(call!(Mark::ModUp)),
        natural: Form::Signed(chain!(Mark::Percent, MULTIPLY)),
    },
    rest: chain!(Mark::Percent, MULTIPLY),
    least: Form::Nested(call!(Mark::Least)),
    greatest: Form::Nested(call!(Mark::Greatest)),
    choice: Choice {
        test_first: true,
        first: Mark::Question,
        second: Mark::Colon,
    },
    around_choice: None,
    sets: SetForms {
        empty: Mark::NoSets,
        of: no_set!(),
        union: Form::Called(no_set!()),
        inter: Form::Called(no_set!()),
        diff: Form::Called(no_set!()),
        subset: Form::Called(no_set!()),
        same: Form::Called(no_set!()),
        other: Form::Called(no_set!()),
        card: no_set!(),
        slice: no_set!(),
        fresh: no_set!(),
        copy: None,
    },
};

/// JavaScript.
pub const JAVASCRIPT: Table = Table {
    numerals: Numerals::Big,
    is_typed: false,
    yes: Mark::SmallTrue,
    no: Mark::SmallFalse,
    minus: alone!(Mark::Dash, UNARY),
    not: alone!(Mark::Bang, UNARY),
    and: chain!(Mark::TwoAmpersands, AND),
    or: chain!(Mark::TwoBars, OR),
    orders: Orders {
        eq: alone!(Mark::SameAs, COMPARE),
        ne: alone!(Mark::OtherThan, COMPARE),
        lt: alone!(Mark::Less, COMPARE),
        le: alone!(Mark::AtMost, COMPARE),
        gt: alone!(Mark::Greater, COMPARE),
        ge: alone!(Mark::AtLeast, COMPARE),
    },
    sum: fitted!(chain!(Mark::Plus, ADD)),
    sum_of: call!(Mark::SumOf),
    difference: fitted!(chain!(Mark::Minus, ADD)),
    product: fitted!(chain!(Mark::Star, MULTIPLY)),
    quotient: Divided {
        down: Form::Called(call!(Mark::Div)),
        natural: Form::Signed(chain!(Mark::Slash, MULTIPLY)),
    },
    remainder: Divided {
        down: Form::Called(call!(Mark::Mod)),
        natural: Form::Signed(chain!(Mark::Percent, MULTIPLY)),
    },
    rest: chain!(Mark::Percent, MULTIPLY),
    least: Form::Called(call!(Mark::Least)),
    greatest: Form::Called(call!(Mark::Greatest)),
    choice: Choice {
        test_first: true,
        first: Mark::Question,
        second: Mark::Colon,
    },
    around_choice: None,
    sets: SetForms {
        empty: Mark::NewSet,
        of: call!(Mark::SetOfAll),
        union: Form::Called(call!(Mark::Union)),
        inter: Form::Called(call!(Mark::Inter)),
        diff: Form::Called(call!(Mark::Diff)),
        subset: Form::Called(call!(Mark::Subset)),
        same: Form::Called(call!(Mark::Same)),
        other: Form::Called(call!(Mark::Other)),
        card: call!(Mark::Card),
        slice: call!(Mark::Cut),
        fresh: call!(Mark::Fresh),
        copy: None,
    },
};

/// Rust. A choice stands at the left of no sign, since a statement may begin there.
pub const RUST: Table = Table {
    numerals: Numerals::Suffixed,
    is_typed: true,
    yes: Mark::SmallTrue,
    no: Mark::SmallFalse,
    minus: alone!(Mark::Dash, UNARY),
    not: alone!(Mark::Bang, UNARY),
    and: chain!(Mark::TwoAmpersands, NOT),
    // so that `&&` stands in parentheses in it
    or: Sign {
        text: Mark::TwoBars,
        level: AND,
        more: 1,
        chains: true,
    },
    orders: Orders {
        eq: alone!(Mark::Equal, COMPARE),
        ne: alone!(Mark::NotEqual, COMPARE),
        lt: alone!(Mark::Less, COMPARE),
        le: alone!(Mark::AtMost, COMPARE),
        gt: alone!(Mark::Greater, COMPARE),
        ge: alone!(Mark::AtLeast, COMPARE),
    },
    sum: asked!(chain!(Mark::Plus, ADD), Mark::Add),
    sum_of: Call {
        opening: Mark::SumOfSlice,
        closing: Mark::EndOfSlice,
        level: ATOM,
    },
    difference: asked!(chain!(Mark::Minus, ADD), Mark::Sub),
    product: asked!(chain!(Mark::Star, MULTIPLY), Mark::Mul),
    quotient: Divided {
        down: Form::Called(call!(Mark::DivEuclid)),
        natural: Form::Signed(chain!(Mark::Slash, MULTIPLY)),
    },
    remainder: Divided {
        down: Form::Called(call!(Mark::RemEuclid)),
        natural: Form::Signed(chain!(Mark::Percent, MULTIPLY)),
    },
    rest: chain!(Mark::Percent, MULTIPLY),
    least: Form::Nested(call!(Mark::LeastOfTwo)),
    greatest: Form::Nested(call!(Mark::GreatestOfTwo)),
    choice: Choice {
        test_first: true,
        first: Mark::Then,
        second: Mark::Otherwise,
    },
    around_choice: Some(Call {
        opening: Mark::IfBefore,
        closing: Mark::EndOfBlock,
        level: CHOICE,
    }),
    sets: SetForms {
        empty: Mark::NewTree,
        of: Call {
            opening: Mark::TreeOf,
            closing: Mark::EndOfTree,
            level: ATOM,
        },
        union: Form::Nested(call!(Mark::Union)),
        inter: Form::Nested(call!(Mark::Inter)),
        diff: Form::Called(call!(Mark::Diff)),
        subset: Form::Called(call!(Mark::Subset)),
        same: Form::Called(call!(Mark::Same)),
        other: Form::Called(call!(Mark::Other)),
        card: call!(Mark::Card),
        slice: call!(Mark::Cut),
        fresh: call!(Mark::Fresh),
        copy: Some(Call {
            opening: Mark::Nothing,
            closing: Mark::Clone,
            level: ATOM,
        }),
    },
};
