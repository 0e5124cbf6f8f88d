//! Finite sets of numbers of at most 2^127 - 1 in absolute value, as strictly rising lists.
#![tactic(auto)]

ghost use Rattle.std.specs.Prelude.{◌≡◌, ◌<◌, ◌≤◌, ◌↔◌, ℤ, pos, Bool, true, not, ◌&&◌, ◌||◌, length, min, take, slice_get, IfOk, IsTrue};
ghost use Rattle.cf_num.specs.Limit.{IsWithin};
ghost use Rattle.cf_set.specs.Fresh.{AreFresh};
ghost use Rattle.cf_tree.specs.Numbers.{count_of};
ghost use Rattle.cf_tree.specs.Values.{same_list};
ghost use Rattle.cf_tree.specs.Sets.{IsRising, AreWithin, has, set_union, set_of, set_inter, set_diff, is_subset, set_slice, set_fresh};

mod lists;

use cf_tree::NoMemory;
use std::alloc::Global;
use std::marker::Model;

/// A finite set of numbers. Contracts see the strictly rising list of its elements.
#[derive(Drop)]
pub struct Set {
    items: Vec<i128>,
}

impl Model for Set {
    ghost use Rattle.std.specs.Prelude.{ℤ, List};
    ghost use Rattle.cf_tree.specs.Sets.{IsRising, AreWithin};

    ghost Value = { List ℤ };

    ghost view = { λ s. s.items.items };

    ghost invariant = { λ s. IsRising s.items.items × AreWithin s.items.items };
}

impl Set {
    /// The set of the items, which may stand in any order and repeat.
    pub fn from_list(alloc: Global, items: &[i128]) -> Result<Set, NoMemory>
        requires within { AreWithin items.now }
        ensures value { IfOk result (λ s. s ≡ set_of items.now) }
        ensures members { IfOk result (λ s. (x : ℤ) → has s x ≡ has items.now x) }
    {
        Ok(Set {
            items: lists::sorted(alloc, items)?,
        })
    }

    /// An equal set.
    pub fn try_copy(&self, alloc: Global) -> Result<Set, NoMemory>
        ensures { IfOk result (λ s. s ≡ self.now) }
    {
        Ok(Set {
            items: Vec::from_slice(alloc, &self.items)?,
        })
    }

    /// The elements of this set or of the other.
    pub fn union(&self, alloc: Global, other: &Set) -> Result<Set, NoMemory>
        ensures value { IfOk result (λ s. s ≡ set_union self.now other.now) }
        ensures members { IfOk result (λ s. (x : ℤ) → has s x ≡ (has self.now x || has other.now x)) }
    {
        Ok(Set {
            items: lists::union(alloc, &self.items, &other.items)?,
        })
    }

    /// The elements of this set and of the other.
    pub fn inter(&self, alloc: Global, other: &Set) -> Result<Set, NoMemory>
        ensures value { IfOk result (λ s. s ≡ set_inter self.now other.now) }
        ensures members { IfOk result (λ s. (x : ℤ) → has s x ≡ (has self.now x && has other.now x)) }
    {
        Ok(Set {
            items: lists::inter(alloc, &self.items, &other.items)?,
        })
    }

    /// The elements of this set that are not in the other.
    pub fn diff(&self, alloc: Global, other: &Set) -> Result<Set, NoMemory>
        ensures value { IfOk result (λ s. s ≡ set_diff self.now other.now) }
        ensures members { IfOk result (λ s. (x : ℤ) → has s x ≡ (has self.now x && not (has other.now x))) }
    {
        Ok(Set {
            items: lists::diff(alloc, &self.items, &other.items)?,
        })
    }

    /// The elements at the places `from .. from + n - 1` in rising order, counted from 0, those that exist.
    /// A negative `from` or `n` counts as 0.
    pub fn slice(&self, alloc: Global, from: i128, n: i128) -> Result<Set, NoMemory>
        ensures { IfOk result (λ s. s ≡ set_slice self.now (count_of from) (count_of n)) }
    {
        Ok(Set {
            items: lists::slice(alloc, &self.items, from, n)?,
        })
    }

    /// The n least numbers from 0 upwards that are not in `avoid`, none for a negative n.
    pub fn fresh(alloc: Global, avoid: &Set, n: i128) -> Result<Set, NoMemory>
        ensures value { IfOk result (λ s. s ≡ set_fresh avoid.now (count_of n)) }
        ensures law { IfOk result (AreFresh avoid.now (count_of n)) }
        ensures within { IfOk result AreWithin }
    {
        Ok(Set {
            items: lists::fresh(alloc, &avoid.items, n)?,
        })
    }

    /// Whether `x` is an element.
    pub fn has(&self, x: i128) -> bool
        ensures { result ≡ has self.now x }
    {
        lists::has(&self.items, &x)
    }

    /// Whether each element of this set is one of the other.
    pub fn subset(&self, other: &Set) -> bool
        ensures value { result ≡ is_subset self.now other.now }
        ensures elements { IsTrue result ↔ ((x : ℤ) → has self.now x ≡ true → has other.now x ≡ true) }
    {
        lists::subset(&self.items, &other.items)
    }

    /// Whether both sets have the same elements.
    pub fn same(&self, other: &Set) -> bool
        ensures value { result ≡ same_list self.now other.now }
        ensures equal { IsTrue result ↔ (self.now ≡ other.now) }
    {
        lists::same(&self.items, &other.items)
    }

    /// The number of elements.
    pub fn card(&self) -> u64
        ensures { result ≡ length self.now }
    {
        self.items.len() as u64
    }

    /// The element at a place in rising order, counted from 0.
    pub fn at(&self, i: usize) -> i128
        requires { i < length self.now }
        ensures value { slice_get self.now i ≡ Some result }
        ensures fits { IsWithin result }
    {
        self.items[i]
    }

    /// The elements in rising order.
    pub fn items(&self) -> &[i128]
        ensures value { result.now ≡ self.now }
        ensures rising { IsRising self.now }
        ensures within { AreWithin self.now }
    {
        &self.items
    }
}
