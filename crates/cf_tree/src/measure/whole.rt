//! Sizes and depths of functions, programs, targets and preconditions.
ghost use Rattle.std.specs.Prelude.{◌≡◌, map};
ghost use Rattle.cf_tree.specs.RelSize.{capped};
ghost use Rattle.cf_tree.specs.CodeTree.{code_size, code_depth, arms_size, arms_depth};
ghost use Rattle.cf_tree.specs.ExprTree.{expr_size, expr_depth};
ghost use Rattle.cf_tree.specs.RawTree.{raw_size, raw_depth};
ghost use Rattle.cf_tree.specs.DefView.{raw_def_tree, raw_item_tree, raw_item_size, raw_item_depth, program_tree, program_size, program_depth, def_tree, target_tree, pre_tree};

use crate::expr::Def;
use crate::measure::code::{arms_depth, arms_size};
use crate::raw::{Program, RawDef, RawItem};
use crate::target::{Pre, RawTarget};

impl RawDef {
    /// How many nodes its body has, but never more than the greatest number of 64 bits.
    pub fn size(&self) -> u64
        ensures { result ≡ capped (raw_size (raw_def_tree self.now).body) }
    {
        self.body.size()
    }

    /// The depth of its body, but never more than the greatest number of 64 bits.
    pub fn depth(&self) -> u64
        ensures { result ≡ capped (raw_depth (raw_def_tree self.now).body) }
    {
        self.body.depth()
    }
}

impl RawItem {
    /// How many nodes its expression has, but never more than the greatest number of 64 bits.
    pub fn size(&self) -> u64
        ensures { result ≡ capped (raw_item_size (raw_item_tree self.now)) }
    {
        match self {
            RawItem::Const(constant) => constant.value.size(),
            RawItem::Def(def) => def.size(),
        }
    }

    /// The depth of its expression, but never more than the greatest number of 64 bits.
    pub fn depth(&self) -> u64
        ensures { result ≡ capped (raw_item_depth (raw_item_tree self.now)) }
    {
        match self {
            RawItem::Const(constant) => constant.value.depth(),
            RawItem::Def(def) => def.depth(),
        }
    }
}

impl Program {
    /// How many nodes its expressions have, but never more than the greatest number of 64 bits.
    pub fn size(&self) -> u64
        ensures { result ≡ capped (program_size (program_tree self.now)) }
    {
        all_size(&self.items)
    }

    /// The depth of its deepest expression, 0 where it has none, but never more than the greatest
    /// number of 64 bits.
    pub fn depth(&self) -> u64
        ensures { result ≡ capped (program_depth (program_tree self.now)) }
    {
        all_depth(&self.items)
    }
}

impl Def {
    /// How many nodes its body has, but never more than the greatest number of 64 bits.
    pub fn size(&self) -> u64
        ensures { result ≡ capped (expr_size (def_tree self.now).body) }
    {
        self.body.size()
    }

    /// The depth of its body, but never more than the greatest number of 64 bits.
    pub fn depth(&self) -> u64
        ensures { result ≡ capped (expr_depth (def_tree self.now).body) }
    {
        self.body.depth()
    }
}

impl RawTarget {
    /// How many nodes its code has, but never more than the greatest number of 64 bits.
    pub fn size(&self) -> u64
        ensures { result ≡ capped (code_size (target_tree self.now).code) }
    {
        self.code.size()
    }

    /// The depth of its code, but never more than the greatest number of 64 bits.
    pub fn depth(&self) -> u64
        ensures { result ≡ capped (code_depth (target_tree self.now).code) }
    {
        self.code.depth()
    }
}

impl Pre {
    /// How many nodes its arms have, but never more than the greatest number of 64 bits.
    pub fn size(&self) -> u64
        ensures { result ≡ capped (arms_size (pre_tree self.now)) }
    {
        arms_size(&self.arms)
    }

    /// The depth of its deepest arm, 0 where it has none, but never more than the greatest number of
    /// 64 bits.
    pub fn depth(&self) -> u64
        ensures { result ≡ capped (arms_depth (pre_tree self.now)) }
    {
        arms_depth(&self.arms)
    }
}

fn all_size(items: &[RawItem]) -> u64
    ensures { result ≡ capped (program_size (map raw_item_tree items.now)) }
{
    let mut total: u64 = 0;
    for item in items {
        total = total.saturating_add(item.size());
    }
    total
}

fn all_depth(items: &[RawItem]) -> u64
    ensures { result ≡ capped (program_depth (map raw_item_tree items.now)) }
{
    let mut deepest: u64 = 0;
    for item in items {
        deepest = deepest.max(item.depth());
    }
    deepest
}
