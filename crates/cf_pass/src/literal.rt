// The values of literals.
ghost use Rattle.std.specs.Prelude.{◌≡◌, IfSome};
ghost use Rattle.cf_num.specs.Limit.{IsWithin, within};
ghost use Rattle.cf_tree.specs.CodeView.{code_tree};
ghost use Rattle.cf_tree.specs.Values.{number_of, truth_of, same_value, compared};
ghost use Rattle.cf_pass.specs.Folding.{literal_value, literal_of};
ghost use Rattle.cf_pass.specs.Literals.{value_of, values_of, limited, met_value, IsMet};

use cf_tree::{Code, Order};

// What a literal gives.
#[derive(Clone, Copy)]
pub enum Literal {
    Number(i128),
    Truth(bool),
}

// Which of some numbers is taken.
#[derive(Clone, Copy)]
pub enum Side {
    Least,
    Greatest,
}

impl Literal {
    // The number, and 0 for a truth value.
    pub fn number(self) -> i128
        ensures { result ≡ number_of (value_of self) }
    {
        match self {
            Literal::Number(z) => z,
            Literal::Truth(_) => 0,
        }
    }

    // The truth value, and false for a number.
    pub fn truth(self) -> bool
        ensures { result ≡ truth_of (value_of self) }
    {
        match self {
            Literal::Number(_) => false,
            Literal::Truth(b) => b,
        }
    }

    // Its code.
    pub fn code(self) -> Code
        ensures { code_tree result ≡ literal_of (value_of self) }
    {
        match self {
            Literal::Number(z) => Code::Lit(z),
            Literal::Truth(b) => Code::Truth(b),
        }
    }
}

// What the code gives, if it is a literal.
pub fn read_literal(code: &Code) -> Option<Literal>
    ensures { values_of result ≡ literal_value (code_tree code.now) }
{
    match code {
        Code::Lit(z) => Some(Literal::Number(*z)),
        Code::Truth(b) => Some(Literal::Truth(*b)),
        _ => None,
    }
}

// The number, or none where it passes the limit.
pub fn limited_number(z: i128) -> Option<i128>
    ensures value { result ≡ within z }
    ensures fits { IfSome result IsWithin }
{
    if z == i128::MIN { None } else { Some(z) }
}

// The same of a literal.
pub fn limited_literal(value: Literal) -> Option<Literal>
    ensures value { values_of result ≡ limited (value_of value) }
    ensures fits { IsMet result }
{
    match value {
        Literal::Number(z) => Some(Literal::Number(limited_number(z)?)),
        Literal::Truth(b) => Some(Literal::Truth(b)),
    }
}

// What the code gives, if it is a literal within the limit.
pub fn met_literal(code: &Code) -> Option<Literal>
    ensures value { values_of result ≡ met_value (code_tree code.now) }
    ensures fits { IsMet result }
{
    limited_literal(read_literal(code)?)
}

fn same(v: Literal, w: Literal) -> bool
    ensures { result ≡ same_value (value_of v) (value_of w) }
{
    match v {
        Literal::Number(x) => x == w.number(),
        Literal::Truth(b) => b == w.truth(),
    }
}

// How two literals of one base compare.
pub fn compare(order: Order, v: Literal, w: Literal) -> bool
    ensures { result ≡ compared order (value_of v) (value_of w) }
{
    match order {
        Order::Eq => same(v, w),
        Order::Ne => !same(v, w),
        Order::Lt => v.number() < w.number(),
        Order::Le => v.number() <= w.number(),
        Order::Gt => v.number() > w.number(),
        Order::Ge => v.number() >= w.number(),
    }
}
