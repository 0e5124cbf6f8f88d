//! How many cases a relation has.
ghost use Rattle.std.specs.Prelude.{◌≡◌, ◌≤◌, ◌-◌, ◌*◌, ◌^◌, min, true, IfOk};
ghost use Rattle.cf_tree.specs.RelSize.{capped};
ghost use Rattle.cf_tree.specs.RelView.{term_tree, rel_tree};
ghost use Rattle.cf_linear.specs.Written.{abs_count};
ghost use Rattle.cf_linear.specs.Cases.{negation_normal, case_count};
ghost use Rattle.cf_cases.specs.Counts.{wide, order_as, order_ways, both_or_either, count_tree, count_in, left_in, right_in, both_counts, counts_of};

use cf_tree::{NoMemory, Order, Rel, Term};
use std::alloc::Global;
use std::marker::Model;

/// A relation with the numbers of its cases and of those of its parts, each counted once. Contracts
/// see the relation.
#[derive(Drop)]
pub struct CountedRel<'a> {
    rel: &'a Rel,
    counts: Counts,
}

impl<'a> Model for CountedRel<'a> {
    ghost use Rattle.cf_tree.specs.declared.rel.Rel.{Rel};
    ghost use Rattle.cf_tree.specs.contracts.rel.Rel as coded_rel;
    ghost use Rattle.std.specs.Coded.{codes};

    ghost Value = { Rel };

    ghost coded = { Prim.hlevel (codes, coded_rel.the_row.coded) };

    ghost use Rattle.std.specs.Prelude.{◌≡◌, true};
    ghost use Rattle.cf_tree.specs.RelView.{rel_tree};
    ghost use Rattle.cf_linear.specs.Cases.{negation_normal};
    ghost use Rattle.cf_cases.specs.Counts.{count_tree, counts_of};

    ghost view = { λ c. c.rel.now };

    ghost invariant = { λ c. count_tree c.counts ≡ counts_of (negation_normal true (rel_tree c.rel.now)) };
}

impl<'a> CountedRel<'a> {
    /// The relation with its counts.
    pub fn of(alloc: Global, rel: &'a Rel) -> Result<CountedRel<'a>, NoMemory>
        ensures { IfOk result (λ c. c ≡ rel.now) }
    {
        let counts = counts_as(alloc, rel, true)?;
        Ok(CountedRel { rel, counts })
    }

    /// The number of cases of the relation, or `2^64 - 1` where there are more.
    #[tactic(auto, using(crate::proofs::PartLaws::told_count))]
    pub fn cases_len(&self) -> u64
        ensures { result ≡ capped (case_count (negation_normal true (rel_tree self.now))) }
    {
        narrow(self.counts.count())
    }

    // The relation.
    pub(crate) fn rel(&self) -> &Rel
        ensures { result.now ≡ self.now }
    {
        self.rel
    }

    // The numbers of cases of the relation and of its parts.
    pub(crate) fn counts(&self) -> &Counts
        ensures { count_tree result.now ≡ counts_of (negation_normal true (rel_tree self.now)) }
    {
        &self.counts
    }
}

// How many cases a relation has, and its parts, each counted once. The numbers stop at `2^128 - 1`.
#[derive(Drop)]
pub(crate) enum Counts {
    // The cases of an atom.
    One(u128),
    // The cases of both sides or of either, and those of each side.
    Two(u128, Box<Counts>, Box<Counts>),
}

impl Counts {
    // How many cases there are.
    pub(crate) fn count(&self) -> u128
        ensures { result ≡ count_in (count_tree self.now) }
    {
        match self {
            Counts::One(n) => *n,
            Counts::Two(n, _, _) => *n,
        }
    }

    // The counts of the left side, where there are two.
    pub(crate) fn left(&self) -> &Counts
        ensures { count_tree result.now ≡ left_in (count_tree self.now) }
    {
        match self {
            Counts::One(_) => self,
            Counts::Two(_, left, _) => left,
        }
    }

    // The counts of the right side, where there are two.
    pub(crate) fn right(&self) -> &Counts
        ensures { count_tree result.now ≡ right_in (count_tree self.now) }
    {
        match self {
            Counts::One(_) => self,
            Counts::Two(_, _, right) => right,
        }
    }
}

// The counts of the relation, where `holds`, or of its negation.
#[cycle(counts_as)]
fn counts_as(alloc: Global, rel: &Rel, holds: bool) -> Result<Counts, NoMemory>
    ensures { IfOk result (λ c. count_tree c ≡ counts_of (negation_normal holds (rel_tree rel.now))) }
{
    match rel {
        Rel::And(a, b) => {
            let left = boxed(alloc, a, holds)?;
            let right = boxed(alloc, b, holds)?;
            Ok(both_counts(holds, left, right))
        }
        Rel::Or(a, b) => {
            let left = boxed(alloc, a, holds)?;
            let right = boxed(alloc, b, holds)?;
            Ok(both_counts(!holds, left, right))
        }
        Rel::Not(a) => counts_as(alloc, a, !holds),
        Rel::True
        | Rel::False
        | Rel::SameSet(_, _)
        | Rel::OtherSet(_, _)
        | Rel::Subset(_, _)
        | Rel::Compare { .. }
        | Rel::Divides { .. } => Ok(Counts::One(count_as(rel, holds))),
    }
}

// The same in a box.
#[cycle(counts_as)]
fn boxed(alloc: Global, rel: &Rel, holds: bool) -> Result<Box<Counts>, NoMemory>
    ensures { IfOk result (λ c. count_tree c.value ≡ counts_of (negation_normal holds (rel_tree rel.now))) }
{
    Ok(Box::new(alloc, counts_as(alloc, rel, holds)?)?)
}

// The counts of both sides, where `both`, or of either.
fn both_counts(both: bool, left: Box<Counts>, right: Box<Counts>) -> Counts
    ensures { count_tree result ≡ both_counts both (count_tree left.value) (count_tree right.value) }
{
    let n = both_or_either(both, left.count(), right.count());
    Counts::Two(n, left, right)
}

/// The number of cases of the relation, or `2^64 - 1` where there are more.
pub fn count(rel: &Rel) -> u64
    ensures { result ≡ capped (case_count (negation_normal true (rel_tree rel.now))) }
{
    narrow(count_as(rel, true))
}

// The number, or `2^64 - 1` where it is greater.
fn narrow(n: u128) -> u64
    ensures { result ≡ min n (2 ^ 64 - 1) }
{
    if n < u64::MAX as u128 {
        n as u64
    } else {
        u64::MAX
    }
}

// The same of the relation, where `holds`, or of its negation, or `2^128 - 1` where there are more.
pub(crate) fn count_as(rel: &Rel, holds: bool) -> u128
    ensures { result ≡ wide (case_count (negation_normal holds (rel_tree rel.now))) }
{
    match rel {
        Rel::True => 1,
        Rel::False => 1,
        Rel::SameSet(_, _) => 1,
        Rel::OtherSet(_, _) => 1,
        Rel::Subset(_, _) => 1,
        Rel::Compare { order, left, right } => {
            let ways = order_ways(order_as(*order, holds));
            let signs = choices(left).saturating_mul(choices(right));
            ways.saturating_mul(signs)
        }
        Rel::Divides { k: _, of } => choices(of),
        Rel::And(a, b) => both_or_either(holds, count_as(a, holds), count_as(b, holds)),
        Rel::Or(a, b) => both_or_either(!holds, count_as(a, holds), count_as(b, holds)),
        Rel::Not(a) => count_as(a, !holds),
    }
}

// The product, where `both`, or the sum.
fn both_or_either(both: bool, a: u128, b: u128) -> u128
    ensures { result ≡ wide (both_or_either both a b) }
{
    if both {
        a.saturating_mul(b)
    } else {
        a.saturating_add(b)
    }
}

// The number of choices of signs for the forms `abs`.
fn choices(term: &Term) -> u128
    ensures { result ≡ wide (2 ^ abs_count (term_tree term.now)) }
{
    match term {
        Term::Lit(_) | Term::Var(_) | Term::Card(_) => 1,
        Term::Neg(a) | Term::Div(a, _) | Term::Mod(a, _) => choices(a),
        Term::Add(a, b) => choices(a).saturating_mul(choices(b)),
        Term::Sub(a, b) => choices(a).saturating_mul(choices(b)),
        Term::Mul(a, b) => choices(a).saturating_mul(choices(b)),
        Term::Abs(a) => choices(a).saturating_mul(2),
    }
}

/// The order, where `holds`, or the opposite one.
pub fn order_as(order: Order, holds: bool) -> Order
    ensures { result ≡ order_as holds order }
{
    if holds {
        return order;
    }
    match order {
        Order::Eq => Order::Ne,
        Order::Ne => Order::Eq,
        Order::Lt => Order::Ge,
        Order::Le => Order::Gt,
        Order::Gt => Order::Le,
        Order::Ge => Order::Lt,
    }
}

/// How many orders stand for an order.
pub fn order_ways(order: Order) -> u128
    ensures ways { result ≡ order_ways order }
    ensures some { 1 ≤ result }
{
    match order {
        Order::Ne => 2,
        Order::Eq | Order::Lt | Order::Le | Order::Gt | Order::Ge => 1,
    }
}
