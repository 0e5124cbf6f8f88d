//! Terms, made of their parts.
ghost use Rattle.std.specs.Prelude.{◌≡◌, IfOk, Option, Some, None, option_map};
ghost use Rattle.cf_print_term.specs.Terms.{word, before, between, call, no_terms, term_more};
ghost use Rattle.cf_print_term.specs.TermView.{term_tree, term_trees};
ghost use Rattle.cf_print_term.specs.Expressions.{two, applied as applied_of, choice_term, sign_of, comparison as comparison_of, opposite as opposite_order, form_of, around as around_of};

use crate::table::{Call, Checked, Choice, Form, Orders, Sign, Table};
use crate::term::Term;
use cf_tree::{Base, NoMemory, Order, Text};
use std::alloc::Global;

/// A name or another word.
pub(crate) fn word(alloc: Global, bytes: &[u8]) -> Result<Term, NoMemory>
    ensures { IfOk result (λ t. term_tree t ≡ word bytes.now) }
{
    Ok(Term::Word(Text {
        bytes: Vec::from_slice(alloc, bytes)?,
    }))
}

/// A sign before a part.
pub(crate) fn before(alloc: Global, sign: Sign, part: Term) -> Result<Term, NoMemory>
    ensures { IfOk result (λ t. term_tree t ≡ before sign (term_tree part)) }
{
    Ok(Term::Before(sign, Box::new(alloc, part)?))
}

/// A sign between two parts.
pub(crate) fn between(alloc: Global, sign: Sign, left: Term, right: Term) -> Result<Term, NoMemory>
    ensures { IfOk result (λ t. term_tree t ≡ between sign (term_tree left) (term_tree right)) }
{
    Ok(Term::Between(sign, Box::new(alloc, left)?, Box::new(alloc, right)?))
}

/// A call on one part.
pub(crate) fn call_on_one(alloc: Global, callee: Call, part: Term) -> Result<Term, NoMemory>
    ensures { IfOk result (λ t. term_tree t ≡ call callee (term_more (term_tree part) no_terms)) }
{
    let mut parts = Vec::new(alloc);
    parts.push(part)?;
    Ok(Term::Call(callee, parts))
}

/// A call on two parts.
pub(crate) fn call_on_two(alloc: Global, callee: Call, a: Term, b: Term) -> Result<Term, NoMemory>
    ensures { IfOk result (λ t. term_tree t ≡ call callee (two (term_tree a) (term_tree b))) }
{
    let mut parts = Vec::new(alloc);
    parts.push(a)?;
    parts.push(b)?;
    Ok(Term::Call(callee, parts))
}

/// A call on three parts.
pub(crate) fn call_on_three(
    alloc: Global,
    callee: Call,
    a: Term,
    b: Term,
    c: Term,
) -> Result<Term, NoMemory>
    ensures { IfOk result (λ t. term_tree t ≡ call callee (term_more (term_tree a) (two (term_tree b) (term_tree c)))) }
{
    let mut parts = Vec::new(alloc);
    parts.push(a)?;
    parts.push(b)?;
    parts.push(c)?;
    Ok(Term::Call(callee, parts))
}

/// A call on all parts.
pub(crate) fn call_on_all(callee: Call, parts: Vec<Term>) -> Term
    ensures { term_tree result ≡ call callee (term_trees parts.items) }
{
    Term::Call(callee, parts)
}

/// An operation on two parts.
pub(crate) fn applied(alloc: Global, form: &Form, a: Term, b: Term) -> Result<Term, NoMemory>
    ensures { IfOk result (λ t. term_tree t ≡ applied_of form.now (term_tree a) (term_tree b)) }
{
    match form {
        Form::Signed(sign) => between(alloc, *sign, a, b),
        Form::Fitted(call, sign) => {
            let inner = between(alloc, *sign, a, b)?;
            call_on_one(alloc, *call, inner)
        }
        Form::Called(call) | Form::Nested(call) => call_on_two(alloc, *call, a, b),
    }
}

/// The one or the other of two parts.
pub(crate) fn chosen(
    alloc: Global,
    choice: Choice,
    test: Term,
    yes: Term,
    no: Term,
) -> Result<Term, NoMemory>
    ensures { IfOk result (λ t. term_tree t ≡ choice_term choice (term_tree test) (term_tree yes) (term_tree no)) }
{
    let test = Box::new(alloc, test)?;
    let yes = Box::new(alloc, yes)?;
    let no = Box::new(alloc, no)?;
    Ok(if choice.test_first {
        Term::Choice(choice, test, yes, no)
    } else {
        Term::Choice(choice, yes, test, no)
    })
}

/// A term with what stands around it, where something does.
pub(crate) fn around(alloc: Global, callee: Option<Call>, part: Term) -> Result<Term, NoMemory>
    ensures { IfOk result (λ t. term_tree t ≡ around_of callee (term_tree part)) }
{
    match callee {
        None => Ok(part),
        Some(callee) => call_on_one(alloc, callee, part),
    }
}

/// The form of an operation where a number may be past the limit, or where none is.
pub(crate) fn form_of(checked: &Checked, passes: bool) -> Form
    ensures { result ≡ form_of checked.now passes }
{
    if passes {
        checked.checked
    } else {
        checked.free
    }
}

/// The sign of a comparison.
pub(crate) fn sign_of(orders: &Orders, order: Order) -> Sign
    ensures { result ≡ sign_of orders.now order }
{
    match order {
        Order::Eq => orders.eq,
        Order::Ne => orders.ne,
        Order::Lt => orders.lt,
        Order::Le => orders.le,
        Order::Gt => orders.gt,
        Order::Ge => orders.ge,
    }
}

/// The comparison that holds where this one does not.
pub(crate) fn opposite(order: Order) -> Order
    ensures { result ≡ opposite_order order }
{
    match order {
        Order::Eq => Order::Ne,
        Order::Ne => Order::Eq,
        Order::Lt => Order::Ge,
        Order::Le => Order::Gt,
        Order::Gt => Order::Le,
        Order::Ge => Order::Lt,
    }
}

/// A comparison of two values of a base.
pub(crate) fn comparison(
    alloc: Global,
    table: &Table,
    base: Base,
    order: Order,
    a: Term,
    b: Term,
) -> Result<Term, NoMemory>
    ensures { IfOk result (λ t. term_tree t ≡ comparison_of table.now base order (term_tree a) (term_tree b)) }
{
    match base {
        Base::Set => match order {
            Order::Eq => applied(alloc, &table.sets.same, a, b),
            _ => applied(alloc, &table.sets.other, a, b),
        },
        _ => between(alloc, sign_of(&table.orders, order), a, b),
    }
}
