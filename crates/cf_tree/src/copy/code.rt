//! Copies of target code.
ghost use Rattle.std.specs.Prelude.{◌≡◌, IfOk, map};
ghost use Rattle.cf_tree.specs.CodeView.{code_tree, code_trees, item_tree, arm_tree};
ghost use Rattle.cf_tree.specs.OverParts.{over_list, HasList, over_one, HasOnePart, over_two, HasTwoParts, over_three, HasThreeParts};

use crate::code::{Arm, Code, Item};
use crate::memory::NoMemory;
use crate::{code_over_list, code_over_one, code_over_three, code_over_two};
use std::alloc::Global;

impl Code {
    /// An equal tree.
    #[cycle(copy_code)]
    pub fn try_copy(&self, alloc: Global) -> Result<Code, NoMemory>
        ensures { IfOk result (λ new. code_tree new ≡ code_tree self.now) }
    {
        match self {
            Code::Lit(x) => Ok(Code::Lit(*x)),
            Code::Truth(x) => Ok(Code::Truth(*x)),
            Code::Var(x) => Ok(Code::Var(*x)),
            code_over_list!(parts) => {
                let parts = copy_codes(alloc, parts)?;
                Ok(self.over_list(parts))
            }
            code_over_one!(a) => {
                let part = a.boxed(alloc)?;
                Ok(self.over_one(part))
            }
            code_over_two!(a, b) => {
                let first = a.boxed(alloc)?;
                let second = b.boxed(alloc)?;
                Ok(self.over_two(first, second))
            }
            code_over_three!(a, b, c) => {
                let first = a.boxed(alloc)?;
                let second = b.boxed(alloc)?;
                let third = c.boxed(alloc)?;
                Ok(self.over_three(first, second, third))
            }
            Code::Solve { number, arms } => {
                let arms = copy_arms(alloc, arms)?;
                Ok(Code::Solve {
                    number: *number,
                    arms,
                })
            }
        }
    }

    #[cycle(copy_code)]
    fn boxed(&self, alloc: Global) -> Result<Box<Code>, NoMemory>
        ensures { IfOk result (λ new. code_tree new.value ≡ code_tree self.now) }
    {
        Ok(Box::new(alloc, self.try_copy(alloc)?)?)
    }

    /// The same form over another list of parts.
    pub fn over_list(&self, parts: Vec<Code>) -> Code
        requires { HasList (code_tree self.now) }
        ensures { code_tree result ≡ over_list (code_tree self.now) (code_trees parts.items) }
    {
        match self {
            Code::SetOf(_) => Code::SetOf(parts),
            Code::Tuple(_) => Code::Tuple(parts),
            Code::Sum(_) => Code::Sum(parts),
            Code::Min(_) => Code::Min(parts),
            Code::Max(_) => Code::Max(parts),
            Code::Union(_) => Code::Union(parts),
            Code::Inter(_) => Code::Inter(parts),
            _ => unreachable!(),
        }
    }

    /// The same form over another part.
    pub fn over_one(&self, a: Box<Code>) -> Code
        requires { HasOnePart (code_tree self.now) }
        ensures { code_tree result ≡ over_one (code_tree self.now) (code_tree a.value) }
    {
        match self {
            Code::Neg(_) => Code::Neg(a),
            Code::Not(_) => Code::Not(a),
            Code::Card(_) => Code::Card(a),
            Code::Div { k, .. } => Code::Div { of: a, k: *k },
            Code::Mod { k, .. } => Code::Mod { of: a, k: *k },
            Code::Divides { k, .. } => Code::Divides { k: *k, of: a },
            _ => unreachable!(),
        }
    }

    /// The same form over two other parts.
    pub fn over_two(&self, a: Box<Code>, b: Box<Code>) -> Code
        requires { HasTwoParts (code_tree self.now) }
        ensures { code_tree result ≡ over_two (code_tree self.now) (code_tree a.value) (code_tree b.value) }
    {
        match self {
            Code::Sub(_, _) => Code::Sub(a, b),
            Code::Mul(_, _) => Code::Mul(a, b),
            Code::And(_, _) => Code::And(a, b),
            Code::Or(_, _) => Code::Or(a, b),
            Code::Diff(_, _) => Code::Diff(a, b),
            Code::Subset(_, _) => Code::Subset(a, b),
            Code::Compare { order, .. } => Code::Compare {
                order: *order,
                left: a,
                right: b,
            },
            Code::Fresh { .. } => Code::Fresh { avoid: a, n: b },
            Code::Let { first, count, .. } => Code::Let {
                first: *first,
                count: *count,
                value: a,
                body: b,
            },
            _ => unreachable!(),
        }
    }

    /// The same form over three other parts.
    pub fn over_three(&self, a: Box<Code>, b: Box<Code>, c: Box<Code>) -> Code
        requires { HasThreeParts (code_tree self.now) }
        ensures { code_tree result ≡ over_three (code_tree self.now) (code_tree a.value) (code_tree b.value) (code_tree c.value) }
    {
        match self {
            Code::Slice { .. } => Code::Slice {
                set: a,
                from: b,
                n: c,
            },
            Code::If { .. } => Code::If {
                test: a,
                yes: b,
                no: c,
            },
            _ => unreachable!(),
        }
    }
}

impl Item {
    /// An equal tree.
    #[cycle(copy_code)]
    pub fn try_copy(&self, alloc: Global) -> Result<Item, NoMemory>
        ensures { IfOk result (λ new. item_tree new ≡ item_tree self.now) }
    {
        match self {
            Item::Let(code) => Ok(Item::Let(code.try_copy(alloc)?)),
            Item::Need(code) => Ok(Item::Need(code.try_copy(alloc)?)),
        }
    }
}

impl Arm {
    /// An equal tree.
    #[cycle(copy_code)]
    pub fn try_copy(&self, alloc: Global) -> Result<Arm, NoMemory>
        ensures { IfOk result (λ new. arm_tree new ≡ arm_tree self.now) }
    {
        Ok(Arm {
            bounds: Vec::from_slice(alloc, &self.bounds)?,
            items: copy_items(alloc, &self.items)?,
            gives: copy_codes(alloc, &self.gives)?,
        })
    }
}

#[cycle(copy_code)]
fn copy_codes(alloc: Global, codes: &[Code]) -> Result<Vec<Code>, NoMemory>
    ensures { IfOk result (λ new. map code_tree new.items ≡ map code_tree codes.now) }
{
    let mut all = Vec::new(alloc);
    for code in codes {
        all.push(code.try_copy(alloc)?)?;
    }
    Ok(all)
}

#[cycle(copy_code)]
fn copy_items(alloc: Global, items: &[Item]) -> Result<Vec<Item>, NoMemory>
    ensures { IfOk result (λ new. map item_tree new.items ≡ map item_tree items.now) }
{
    let mut all = Vec::new(alloc);
    for item in items {
        all.push(item.try_copy(alloc)?)?;
    }
    Ok(all)
}

#[cycle(copy_code)]
pub(crate) fn copy_arms(alloc: Global, arms: &[Arm]) -> Result<Vec<Arm>, NoMemory>
    ensures { IfOk result (λ new. map arm_tree new.items ≡ map arm_tree arms.now) }
{
    let mut all = Vec::new(alloc);
    for arm in arms {
        all.push(arm.try_copy(alloc)?)?;
    }
    Ok(all)
}
