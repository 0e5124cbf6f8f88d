//! Equal copies of wide relations and of their parts.
ghost use Rattle.std.specs.Prelude.{◌≡◌, IfOk, map};
ghost use Rattle.cf_form.specs.WideParts.{IsSetOverTwo, IsTermOverOne, IsTermOverTwo, IsRelOverSets, IsRelOverTwo};
ghost use Rattle.cf_form.specs.Wide.{wide_chain};
ghost use Rattle.cf_form.specs.WideView.{wide_term, wide_terms, wide_set_of, wide_rel, part};

use crate::wide::{Part, Room, WideRel, WideSet, WideTerm};
use cf_tree::{NoMemory, Order};
use std::alloc::Global;

impl WideTerm {
    /// An equal form.
    #[cycle(copy_wide)]
    pub fn copied(&self, alloc: Global, room: &mut Room) -> Result<Box<WideTerm>, NoMemory>
        ensures { IfOk result (λ new. wide_term new.value ≡ wide_term self.now) }
    {
        room.enter()?;
        let new = Box::new(alloc, self.try_copy(alloc, room)?)?;
        room.leave();
        Ok(new)
    }

    #[cycle(copy_wide)]
    fn try_copy(&self, alloc: Global, room: &mut Room) -> Result<WideTerm, NoMemory>
        ensures { IfOk result (λ new. wide_term new ≡ wide_term self.now) }
    {
        room.take()?;
        match self {
            WideTerm::Lit(k) => Ok(WideTerm::Lit(*k)),
            WideTerm::Var(x) => Ok(WideTerm::Var(*x)),
            WideTerm::Card(s) => Ok(WideTerm::Card(s.copied(alloc, room)?)),
            WideTerm::Neg(a) | WideTerm::Div(a, _) | WideTerm::Mod(a, _) | WideTerm::Abs(a) => {
                let part = a.copied(alloc, room)?;
                Ok(self.copy_over_one(part))
            }
            WideTerm::Add(a, b) | WideTerm::Sub(a, b) | WideTerm::Mul(a, b) => {
                let first = a.copied(alloc, room)?;
                let second = b.copied(alloc, room)?;
                Ok(self.copy_over_two(first, second))
            }
            WideTerm::If { test, yes, no } => {
                let test = test.copied(alloc, room)?;
                let yes = yes.copied(alloc, room)?;
                let no = no.copied(alloc, room)?;
                Ok(WideTerm::If { test, yes, no })
            }
            WideTerm::Min(parts) => Ok(WideTerm::Min(copied_terms(alloc, room, parts)?)),
            WideTerm::Max(parts) => Ok(WideTerm::Max(copied_terms(alloc, room, parts)?)),
        }
    }

    // The same form over a part equal to its own.
    fn copy_over_one(&self, a: Box<WideTerm>) -> WideTerm
        requires { IsTermOverOne (wide_term self.now) (wide_term a.value) }
        ensures { wide_term result ≡ wide_term self.now }
    {
        match self {
            WideTerm::Neg(_) => WideTerm::Neg(a),
            WideTerm::Div(_, k) => WideTerm::Div(a, *k),
            WideTerm::Mod(_, k) => WideTerm::Mod(a, *k),
            WideTerm::Abs(_) => WideTerm::Abs(a),
            _ => unreachable!(),
        }
    }

    // The same form over two parts equal to its own.
    fn copy_over_two(&self, a: Box<WideTerm>, b: Box<WideTerm>) -> WideTerm
        requires { IsTermOverTwo (wide_term self.now) (wide_term a.value) (wide_term b.value) }
        ensures { wide_term result ≡ wide_term self.now }
    {
        match self {
            WideTerm::Add(_, _) => WideTerm::Add(a, b),
            WideTerm::Sub(_, _) => WideTerm::Sub(a, b),
            WideTerm::Mul(_, _) => WideTerm::Mul(a, b),
            _ => unreachable!(),
        }
    }
}

#[cycle(copy_wide)]
fn copied_terms(
    alloc: Global,
    room: &mut Room,
    terms: &[WideTerm],
) -> Result<Vec<WideTerm>, NoMemory>
    ensures { IfOk result (λ new. map wide_term new.items ≡ map wide_term terms.now) }
{
    room.enter()?;
    let mut all = Vec::new(alloc);
    for term in terms {
        all.push(term.try_copy(alloc, room)?)?;
    }
    room.leave();
    Ok(all)
}

impl WideSet {
    /// An equal form.
    #[cycle(copy_wide)]
    pub fn copied(&self, alloc: Global, room: &mut Room) -> Result<Box<WideSet>, NoMemory>
        ensures { IfOk result (λ new. wide_set_of new.value ≡ wide_set_of self.now) }
    {
        room.enter()?;
        let new = Box::new(alloc, self.try_copy(alloc, room)?)?;
        room.leave();
        Ok(new)
    }

    #[cycle(copy_wide)]
    fn try_copy(&self, alloc: Global, room: &mut Room) -> Result<WideSet, NoMemory>
        ensures { IfOk result (λ new. wide_set_of new ≡ wide_set_of self.now) }
    {
        room.take()?;
        match self {
            WideSet::Empty => Ok(WideSet::Empty),
            WideSet::SetVar(x) => Ok(WideSet::SetVar(*x)),
            WideSet::Union(a, b) | WideSet::Inter(a, b) | WideSet::Diff(a, b) => {
                let first = a.copied(alloc, room)?;
                let second = b.copied(alloc, room)?;
                Ok(self.copy_over_two(first, second))
            }
            WideSet::IfSet { test, yes, no } => {
                let test = test.copied(alloc, room)?;
                let yes = yes.copied(alloc, room)?;
                let no = no.copied(alloc, room)?;
                Ok(WideSet::IfSet { test, yes, no })
            }
        }
    }

    // The same form over two parts equal to its own.
    fn copy_over_two(&self, a: Box<WideSet>, b: Box<WideSet>) -> WideSet
        requires { IsSetOverTwo (wide_set_of self.now) (wide_set_of a.value) (wide_set_of b.value) }
        ensures { wide_set_of result ≡ wide_set_of self.now }
    {
        match self {
            WideSet::Union(_, _) => WideSet::Union(a, b),
            WideSet::Inter(_, _) => WideSet::Inter(a, b),
            WideSet::Diff(_, _) => WideSet::Diff(a, b),
            WideSet::Empty | WideSet::SetVar(_) | WideSet::IfSet { .. } => unreachable!(),
        }
    }
}

impl WideRel {
    /// An equal relation.
    #[cycle(copy_wide)]
    pub fn copied(&self, alloc: Global, room: &mut Room) -> Result<Box<WideRel>, NoMemory>
        ensures { IfOk result (λ new. wide_rel new.value ≡ wide_rel self.now) }
    {
        room.enter()?;
        let new = Box::new(alloc, self.try_copy(alloc, room)?)?;
        room.leave();
        Ok(new)
    }

    #[cycle(copy_wide)]
    fn try_copy(&self, alloc: Global, room: &mut Room) -> Result<WideRel, NoMemory>
        ensures { IfOk result (λ new. wide_rel new ≡ wide_rel self.now) }
    {
        room.take()?;
        match self {
            WideRel::True => Ok(WideRel::True),
            WideRel::False => Ok(WideRel::False),
            WideRel::Truth(x) => Ok(WideRel::Truth(*x)),
            WideRel::Compare { order, left, right } => {
                let left = left.copied(alloc, room)?;
                let right = right.copied(alloc, room)?;
                let order = *order;
                Ok(WideRel::Compare { order, left, right })
            }
            WideRel::SameSet(a, b) | WideRel::OtherSet(a, b) | WideRel::Subset(a, b) => {
                let first = a.copied(alloc, room)?;
                let second = b.copied(alloc, room)?;
                Ok(self.copy_over_sets(first, second))
            }
            WideRel::Divides { k, of } => {
                let of = of.copied(alloc, room)?;
                Ok(WideRel::Divides { k: *k, of })
            }
            WideRel::Not(a) => Ok(WideRel::Not(a.copied(alloc, room)?)),
            WideRel::And(a, b)
            | WideRel::Or(a, b)
            | WideRel::Implies(a, b)
            | WideRel::Same(a, b)
            | WideRel::Other(a, b) => {
                let first = a.copied(alloc, room)?;
                let second = b.copied(alloc, room)?;
                Ok(self.copy_over_two(first, second))
            }
            WideRel::IfTruth { test, yes, no } => {
                let test = test.copied(alloc, room)?;
                let yes = yes.copied(alloc, room)?;
                let no = no.copied(alloc, room)?;
                Ok(WideRel::IfTruth { test, yes, no })
            }
            WideRel::Chain { orders, parts } => {
                let parts = copied_terms(alloc, room, parts)?;
                chain(alloc, orders, parts)
            }
        }
    }

    // The same relation of two set forms equal to its own.
    fn copy_over_sets(&self, a: Box<WideSet>, b: Box<WideSet>) -> WideRel
        requires { IsRelOverSets (wide_rel self.now) (wide_set_of a.value) (wide_set_of b.value) }
        ensures { wide_rel result ≡ wide_rel self.now }
    {
        match self {
            WideRel::SameSet(_, _) => WideRel::SameSet(a, b),
            WideRel::OtherSet(_, _) => WideRel::OtherSet(a, b),
            WideRel::Subset(_, _) => WideRel::Subset(a, b),
            _ => unreachable!(),
        }
    }

    // The same relation of two relations equal to its own.
    fn copy_over_two(&self, a: Box<WideRel>, b: Box<WideRel>) -> WideRel
        requires { IsRelOverTwo (wide_rel self.now) (wide_rel a.value) (wide_rel b.value) }
        ensures { wide_rel result ≡ wide_rel self.now }
    {
        match self {
            WideRel::And(_, _) => WideRel::And(a, b),
            WideRel::Or(_, _) => WideRel::Or(a, b),
            WideRel::Implies(_, _) => WideRel::Implies(a, b),
            WideRel::Same(_, _) => WideRel::Same(a, b),
            WideRel::Other(_, _) => WideRel::Other(a, b),
            _ => unreachable!(),
        }
    }
}

/// A chain of these parts, with equal orders.
pub fn chain(alloc: Global, orders: &[Order], parts: Vec<WideTerm>) -> Result<WideRel, NoMemory>
    ensures { IfOk result (λ new. wide_rel new ≡ wide_chain orders.now (wide_terms parts.items)) }
{
    let orders = Vec::from_slice(alloc, orders)?;
    Ok(WideRel::Chain { orders, parts })
}

impl Part {
    /// An equal part.
    pub fn try_copy(&self, alloc: Global, room: &mut Room) -> Result<Part, NoMemory>
        ensures { IfOk result (λ new. part new ≡ part self.now) }
    {
        match self {
            Part::Number(a) => Ok(Part::Number(a.copied(alloc, room)?)),
            Part::Set(a) => Ok(Part::Set(a.copied(alloc, room)?)),
            Part::Truth(a) => Ok(Part::Truth(a.copied(alloc, room)?)),
        }
    }
}
