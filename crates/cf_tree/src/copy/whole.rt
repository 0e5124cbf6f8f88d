//! Copies of functions, programs, targets and preconditions.
ghost use Rattle.std.specs.Prelude.{◌≡◌, IfOk, map};
ghost use Rattle.cf_tree.specs.RawView.{raw_tree};
ghost use Rattle.cf_tree.specs.DefView.{raw_def_tree, raw_item_tree, program_tree, def_tree, target_tree, pre_tree};

use crate::copy::code::copy_arms;
use crate::copy::words::copy_params;
use crate::expr::Def;
use crate::memory::NoMemory;
use crate::raw::{Program, RawConst, RawDef, RawItem};
use crate::target::{Pre, RawTarget};
use std::alloc::Global;

impl RawDef {
    /// An equal function.
    pub fn try_copy(&self, alloc: Global) -> Result<RawDef, NoMemory>
        ensures { IfOk result (λ new. raw_def_tree new ≡ raw_def_tree self.now) }
    {
        Ok(RawDef {
            place: self.place,
            name: self.name.try_copy(alloc)?,
            params: copy_params(alloc, &self.params)?,
            results: Vec::from_slice(alloc, &self.results)?,
            body: self.body.try_copy(alloc)?,
        })
    }
}

impl RawConst {
    /// An equal constant.
    pub fn try_copy(&self, alloc: Global) -> Result<RawConst, NoMemory>
        ensures { IfOk result (λ new. (new.place ≡ self.now.place) × (new.name ≡ self.now.name) × (raw_tree new.value ≡ raw_tree self.now.value)) }
    {
        Ok(RawConst {
            place: self.place,
            name: self.name.try_copy(alloc)?,
            value: self.value.try_copy(alloc)?,
        })
    }
}

impl RawItem {
    /// An equal declaration.
    pub fn try_copy(&self, alloc: Global) -> Result<RawItem, NoMemory>
        ensures { IfOk result (λ new. raw_item_tree new ≡ raw_item_tree self.now) }
    {
        match self {
            RawItem::Const(constant) => Ok(RawItem::Const(constant.try_copy(alloc)?)),
            RawItem::Def(def) => Ok(RawItem::Def(def.try_copy(alloc)?)),
        }
    }
}

impl Program {
    /// An equal program.
    pub fn try_copy(&self, alloc: Global) -> Result<Program, NoMemory>
        ensures { IfOk result (λ new. program_tree new ≡ program_tree self.now) }
    {
        Ok(Program {
            items: copy_items(alloc, &self.items)?,
        })
    }
}

impl Def {
    /// An equal function.
    pub fn try_copy(&self, alloc: Global) -> Result<Def, NoMemory>
        ensures { IfOk result (λ new. def_tree new ≡ def_tree self.now) }
    {
        Ok(Def {
            name: self.name.try_copy(alloc)?,
            params: copy_params(alloc, &self.params)?,
            results: Vec::from_slice(alloc, &self.results)?,
            body: self.body.try_copy(alloc)?,
        })
    }
}

impl RawTarget {
    /// An equal target.
    pub fn try_copy(&self, alloc: Global) -> Result<RawTarget, NoMemory>
        ensures { IfOk result (λ new. target_tree new ≡ target_tree self.now) }
    {
        Ok(RawTarget {
            params: Vec::from_slice(alloc, &self.params)?,
            results: Vec::from_slice(alloc, &self.results)?,
            code: self.code.try_copy(alloc)?,
        })
    }
}

impl Pre {
    /// An equal precondition.
    pub fn try_copy(&self, alloc: Global) -> Result<Pre, NoMemory>
        ensures { IfOk result (λ new. pre_tree new ≡ pre_tree self.now) }
    {
        Ok(Pre {
            arms: copy_arms(alloc, &self.arms)?,
        })
    }
}

fn copy_items(alloc: Global, items: &[RawItem]) -> Result<Vec<RawItem>, NoMemory>
    ensures { IfOk result (λ new. map raw_item_tree new.items ≡ map raw_item_tree items.now) }
{
    let mut all = Vec::new(alloc);
    for item in items {
        all.push(item.try_copy(alloc)?)?;
    }
    Ok(all)
}
