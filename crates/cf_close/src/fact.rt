//! Rows that are to be 0 or at least 0, and what follows from them.
ghost use Rattle.std.specs.Prelude.{◌≡◌, ◌≢◌, pos, ◌-ℤ◌, ◌*ℤ◌, ◌<ℤ◌, ◌≤ℤ◌, ◌⊎◌, All, length, true, not, ◌&&◌, IfOk};
ghost use Rattle.std.specs.Int.{int_div_euclid};
ghost use Rattle.cf_num.specs.Limit.{IsWithin};
ghost use Rattle.cf_linear.specs.Rows.{Values, value, comb, is_zero};
ghost use Rattle.cf_close.specs.Facts.{Holds, FactHolds, MayTake, both, is_equation, Follows, NeverHold, IsKnown, Settles};

use crate::fault::Fault;
use cf_linear::{Row, divided, divides_known};
use cf_num::modulo;
use cf_tree::NoMemory;
use std::alloc::Global;

/// What is said of a row.
#[derive(Clone, Copy, Debug, PartialEq, Eq)]
pub enum FactKind {
    /// That its value is 0.
    Equation,
    /// That its value is at least 0.
    Inequality,
}

impl FactKind {
    // The kind of a sum of facts.
    fn and(self, other: FactKind) -> FactKind
        ensures { result ≡ both self other }
    {
        match self {
            FactKind::Equation => other,
            FactKind::Inequality => FactKind::Inequality,
        }
    }

    fn is_equation(self) -> bool
        ensures { result ≡ is_equation self }
    {
        match self {
            FactKind::Equation => true,
            FactKind::Inequality => false,
        }
    }
}

/// A row that is to be 0, or at least 0.
#[derive(Drop)]
pub struct Fact {
    pub kind: FactKind,
    pub row: Row,
}

impl Fact {
    /// An equal fact.
    ///
    /// # Errors
    /// `NoMemory` where memory ran out.
    pub fn try_copy(&self, alloc: Global) -> Result<Fact, NoMemory>
        ensures { IfOk result (λ f. f ≡ self.now) }
    {
        match self.row.try_copy(alloc) {
            Ok(row) => Ok(Fact {
                kind: self.kind,
                row,
            }),
            Err(fault) => Err(fault),
        }
    }
}

/// A fact by its place, and what it is multiplied by.
#[derive(Clone, Copy, Debug, PartialEq, Eq)]
pub struct Multiple {
    pub fact: usize,
    pub factor: i128,
}

/// Facts of a node, and of a branch of one of its ors where it is about that, whose sum with these factors never
/// holds: it has no column and is false, or it is an equation of which the divisor divides each entry but the
/// constant. The divisor is 1 where there is no need of one.
#[derive(Drop)]
pub struct Conflict {
    pub node: Vec<Multiple>,
    pub branch: Vec<Multiple>,
    pub divisor: i128,
}

// `a * x + b * y`: an equation if both are. Unfit where an inequality has a negative factor.
fn combine(alloc: Global, a: i128, x: &Fact, b: i128, y: &Fact) -> Result<Fact, Fault>
    ensures { IfOk result (λ f. (v : Values) → FactHolds v x.now → FactHolds v y.now → FactHolds v f) }
{
    if a == i128::MIN || b == i128::MIN {
        return Err(Fault::Past);
    }
    if !may_take(a, x.kind) || !may_take(b, y.kind) {
        return Err(Fault::Unfit);
    }
    match x.row.combine(alloc, a, &y.row, b) {
        Ok(row) => Ok(fact_of(x.kind.and(y.kind), row)),
        Err(fault) => Err(Fault::from(fault)),
    }
}

// Whether a fact of this kind can be multiplied by the factor.
fn may_take(k: i128, kind: FactKind) -> bool
    ensures { result ≡ true → MayTake k kind }
{
    kind.is_equation() || k >= 0
}

pub(crate) fn fact_of(kind: FactKind, row: Row) -> Fact
    ensures { result ≡ record { kind = kind; row = row } }
{
    Fact { kind, row }
}

// The first as an equation, where the rows have the sum 0.
fn equation_of(alloc: Global, x: &Fact, y: &Fact) -> Result<Fact, Fault>
    ensures { IfOk result (λ f. (v : Values) → FactHolds v x.now → FactHolds v y.now → FactHolds v f) }
{
    check_opposite(alloc, &x.row, &y.row)?;
    match x.row.try_copy(alloc) {
        Ok(row) => Ok(fact_of(FactKind::Equation, row)),
        Err(_) => Err(Fault::NoMemory),
    }
}

// Unfit unless the rows have the sum 0.
fn check_opposite(alloc: Global, x: &Row, y: &Row) -> Result<(), Fault>
    ensures { IfOk result (λ _. length (comb (pos 1) x.now (pos 1) y.now) ≡ 0) }
{
    match x.combine(alloc, 1, y, 1) {
        Ok(sum) => {
            if sum.len() != 0 {
                return Err(Fault::Unfit);
            }
            Ok(())
        }
        Err(fault) => Err(Fault::from(fault)),
    }
}

// The fact at the first place as an equation, where the one at the second has the opposite row.
pub(crate) fn equation_at(
    alloc: Global,
    facts: &[Fact],
    place: usize,
    other: usize,
) -> Result<Fact, Fault>
    ensures { IfOk result (λ f. Follows facts.now f) }
{
    match facts.get(place) {
        Some(x) => equation_with(alloc, x, facts, other),
        None => Err(Fault::Unfit),
    }
}

fn equation_with(alloc: Global, x: &Fact, facts: &[Fact], other: usize) -> Result<Fact, Fault>
    ensures { IfOk result (λ f. (v : Values) → FactHolds v x.now → All (FactHolds v) facts.now → FactHolds v f) }
{
    match facts.get(other) {
        Some(y) => equation_of(alloc, x, y),
        None => Err(Fault::Unfit),
    }
}

// The sum of facts with their factors.
fn sum(alloc: Global, facts: &[Fact], multiples: &[Multiple]) -> Result<Fact, Fault>
    ensures { IfOk result (λ f. (v : Values) → All (FactHolds v) facts.now → FactHolds v f) }
{
    let mut total = nothing(alloc);
    for multiple in multiples {
        total = with_one(alloc, &total, facts, multiple)?;
    }
    Ok(total)
}

// The sum, which holds where the facts do.
pub(crate) fn sum_of(alloc: Global, facts: &[Fact], multiples: &[Multiple]) -> Result<Fact, Fault>
    ensures { IfOk result (λ f. Follows facts.now f) }
{
    sum(alloc, facts, multiples)
}

// Unfit unless the facts are in conflict.
pub(crate) fn check_conflict(
    alloc: Global,
    node: &[Fact],
    branch: &[Fact],
    conflict: &Conflict,
) -> Result<(), Fault>
    ensures { IfOk result (λ _. NeverHold node.now branch.now) }
{
    let first = sum(alloc, node, &conflict.node)?;
    let second = sum(alloc, branch, &conflict.branch)?;
    let total = combine(alloc, 1, &first, 1, &second)?;
    if !never_holds(&total, conflict.divisor) {
        return Err(Fault::Unfit);
    }
    Ok(())
}

// Whether the fact has no column and does not hold, or is an equation of which `g` divides each entry but the
// constant.
fn never_holds(x: &Fact, g: i128) -> bool
    ensures { result ≡ true → (v : Values) → v 0 ≡ pos 1 → FactHolds v x.now → ⊥ }
{
    if is_absurd(x) {
        return true;
    }
    is_indivisible(x, g)
}

// The equation without entries.
fn nothing(alloc: Global) -> Fact
    ensures { (v : Values) → FactHolds v result }
{
    fact_of(FactKind::Equation, Row::empty(alloc))
}

fn with_one(alloc: Global, total: &Fact, facts: &[Fact], multiple: &Multiple) -> Result<Fact, Fault>
    ensures { IfOk result (λ f. (v : Values) → All (FactHolds v) facts.now → FactHolds v total.now → FactHolds v f) }
{
    match facts.get(multiple.fact) {
        Some(x) => combine(alloc, 1, total, multiple.factor, x),
        None => Err(Fault::Unfit),
    }
}

/// What is known of a fact that was divided.
#[derive(Drop)]
pub(crate) enum Tightened {
    /// It never holds.
    Closed,
    /// It says no more than this one.
    Tighter(Fact),
}

// The fact at the place divided by `g`: an inequality is rounded, and an equation never holds where that
// leaves a rest. Unfit unless `g` is above 0 and divides each entry but the constant.
pub(crate) fn tighten_at(
    alloc: Global,
    facts: &[Fact],
    place: usize,
    g: i128,
) -> Result<Tightened, Fault>
    ensures { IfOk result (λ t. Settles facts.now t) }
{
    match facts.get(place) {
        Some(x) => tighten(alloc, x, g),
        None => Err(Fault::Unfit),
    }
}

fn tighten(alloc: Global, x: &Fact, g: i128) -> Result<Tightened, Fault>
    ensures { IfOk result (λ t. (v : Values) → v 0 ≡ pos 1 → FactHolds v x.now → IsKnown v t) }
{
    if g <= 0 || !divides_known(&x.row, g) {
        return Err(Fault::Unfit);
    }
    if leaves_rest(x.kind, x.row.entry(0), g) {
        return Ok(Tightened::Closed);
    }
    match divided(alloc, &x.row, g) {
        Ok(row) => Ok(Tightened::Tighter(fact_of(x.kind, row))),
        Err(_) => Err(Fault::NoMemory),
    }
}

// Whether `g` does not divide the constant of an equation.
fn leaves_rest(kind: FactKind, k: i128, g: i128) -> bool
    requires k_in { IsWithin k }
    requires g_in { IsWithin g }
    requires positive { pos 0 <ℤ g }
    ensures { result ≡ (is_equation kind && not (is_zero (k -ℤ g *ℤ int_div_euclid k g))) }
{
    kind.is_equation() && modulo(k, g) != 0
}

// Whether the fact has no column and does not hold.
#[tactic(auto, using(crate::proofs::FactLemmas::absurd_row))]
fn is_absurd(x: &Fact) -> bool
    ensures { result ≡ true → (v : Values) → v 0 ≡ pos 1 → FactHolds v x.now → ⊥ }
{
    if x.row.len() != 1 {
        return false;
    }
    let (column, k) = x.row.at(0);
    column == 0 && is_false(x.kind, k)
}

// Whether this number, which is not 0, is not what the kind of fact says.
fn is_false(kind: FactKind, k: i128) -> bool
    ensures { result ≡ true → k ≢ pos 0 → Holds kind k → ⊥ }
{
    kind.is_equation() || k < 0
}

// Whether it is an equation of which `g` divides each entry but the constant.
fn is_indivisible(x: &Fact, g: i128) -> bool
    ensures { result ≡ true → (v : Values) → v 0 ≡ pos 1 → FactHolds v x.now → ⊥ }
{
    if g <= 0 || !divides_known(&x.row, g) {
        return false;
    }
    if leaves_rest(x.kind, x.row.entry(0), g) {
        return true;
    }
    false
}

// `-x - 1 >= 0` for a row x.
pub(crate) fn opposite(alloc: Global, row: &Row) -> Result<Fact, Fault>
    ensures { IfOk result (λ f. (v : Values) → v 0 ≡ pos 1 → (pos 0 ≤ℤ value v row.now) ⊎ FactHolds v f) }
{
    let one = Row::unit(alloc, 0, 1)?;
    match row.combine(alloc, -1, &one, -1) {
        Ok(row) => Ok(fact_of(FactKind::Inequality, row)),
        Err(fault) => Err(Fault::from(fault)),
    }
}
