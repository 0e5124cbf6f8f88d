//! The question whether classes of numbers hold every number.
ghost use Rattle.std.specs.Prelude.{◌≡◌, IfOk};
ghost use Rattle.std.specs.List.{fold};
ghost use Rattle.cf_tree.specs.declared.base.Order.TheVariants.{Eq};
ghost use Rattle.cf_tree.specs.RelTree.{rel_compare, rel_divides, term_lit, term_sub, term_var};
ghost use Rattle.cf_tree.specs.RelView.{rel_tree, term_tree};
ghost use Rattle.cf_warn.specs.Classes.{covered, in_class, in_some, or_in_class};

use cf_match::Class;
use cf_tree::{NoMemory, Order, Rel, Term, without};
use std::alloc::Global;

/// The relation of the question whether every number is in one of the classes: its one output is 0,
/// and the number is in a class.
///
/// # Errors
/// `NoMemory` where memory ran out.
pub fn covered(alloc: Global, classes: &[Class]) -> Result<Rel, NoMemory>
    ensures { IfOk result (λ rel. rel_tree rel ≡ covered classes.now) }
{
    let zero = equal(alloc, 1, 0)?;
    match in_some(alloc, classes) {
        Ok(some) => Ok(Rel::And(zero, some)),
        Err(fault) => Err(without(zero, fault)),
    }
}

// That the number of level 0 is in one of the classes.
fn in_some(alloc: Global, classes: &[Class]) -> Result<Box<Rel>, NoMemory>
    ensures { IfOk result (λ rel. rel_tree rel.value ≡ in_some classes.now) }
{
    match classes.split_first() {
        Some((class, rest)) => or_in_some(alloc, in_class(alloc, *class)?, rest),
        None => Ok(Box::new(alloc, Rel::False)?),
    }
}

// That the relation before holds, or that the number is in one of the classes.
fn or_in_some(alloc: Global, before: Box<Rel>, classes: &[Class]) -> Result<Box<Rel>, NoMemory>
    ensures { IfOk result (λ rel. rel_tree rel.value ≡ fold or_in_class (rel_tree before.value) classes.now) }
{
    let mut some = before;
    let mut rest = classes;
    while let Some((class, more)) = rest.split_first() {
        some = or_in_class(alloc, some, *class)?;
        rest = more;
    }
    Ok(some)
}

// That the relation before holds, or that the number is in the class.
fn or_in_class(alloc: Global, before: Box<Rel>, class: Class) -> Result<Box<Rel>, NoMemory>
    ensures { IfOk result (λ rel. rel_tree rel.value ≡ or_in_class (rel_tree before.value) class) }
{
    match in_class(alloc, class) {
        Ok(test) => Ok(Box::new(alloc, Rel::Or(before, test))?),
        Err(fault) => Err(without(before, fault)),
    }
}

// That the number is in the class.
fn in_class(alloc: Global, class: Class) -> Result<Box<Rel>, NoMemory>
    ensures { IfOk result (λ rel. rel_tree rel.value ≡ in_class class) }
{
    match class {
        Class::Point(c) => equal(alloc, 0, c),
        Class::Residue { g, r } => leaves(alloc, g, r),
    }
}

// That the number leaves the remainder.
fn leaves(alloc: Global, g: i128, r: i128) -> Result<Box<Rel>, NoMemory>
    ensures { IfOk result (λ rel. rel_tree rel.value ≡ rel_divides g (term_sub (term_var 0) (term_lit r))) }
{
    let (number, left) = sides(alloc, 0, r)?;
    let of = Box::new(alloc, Term::Sub(number, left))?;
    Ok(Box::new(alloc, Rel::Divides { k: g, of })?)
}

// That the number of the level is this number.
fn equal(alloc: Global, level: u32, n: i128) -> Result<Box<Rel>, NoMemory>
    ensures { IfOk result (λ rel. rel_tree rel.value ≡ rel_compare Eq (term_var level) (term_lit n)) }
{
    let (left, right) = sides(alloc, level, n)?;
    let order = Order::Eq;
    Ok(Box::new(alloc, Rel::Compare { order, left, right })?)
}

// The number of the level, and this number.
fn sides(alloc: Global, level: u32, n: i128) -> Result<(Box<Term>, Box<Term>), NoMemory>
    ensures { IfOk result (λ sides. (term_tree sides.0.value ≡ term_var level) × (term_tree sides.1.value ≡ term_lit n)) }
{
    let left = Box::new(alloc, Term::Var(level))?;
    let right = Box::new(alloc, Term::Lit(n))?;
    Ok((left, right))
}
