//! Formulas.
ghost use Rattle.std.specs.Prelude.{◌≡◌, IfOk};
ghost use Rattle.cf_formula.specs.Formulas.{always, never, at_least, equal, both, either};
ghost use Rattle.cf_formula.specs.FormulaView.{formula_tree};
ghost use Rattle.cf_formula.specs.Members.{same_formula};

use crate::lists::{all_with, any_with};
use cf_linear::Row;
use cf_tree::NoMemory;
use std::alloc::Global;

/// A formula over rows. It is positive: nothing in it is negated.
#[derive(Drop)]
pub enum Formula {
    /// It always holds.
    Always,
    /// It never holds.
    Never,
    /// The row is at least 0.
    AtLeast(Row),
    /// The row is 0.
    Equal(Row),
    Both(Box<Formula>, Box<Formula>),
    Either(Box<Formula>, Box<Formula>),
}

impl Formula {
    /// Whether both are the same formula, part by part.
    pub fn same(&self, other: &Formula) -> bool
        ensures { result ≡ same_formula (formula_tree self.now) (formula_tree other.now) }
    {
        match self {
            Formula::Always => other.is_always(),
            Formula::Never => other.is_never(),
            Formula::AtLeast(row) => other.is_at_least(row),
            Formula::Equal(row) => other.is_equal(row),
            Formula::Both(a, b) => match other {
                Formula::Both(c, d) => a.same(c) && b.same(d),
                Formula::Always | Formula::Never | Formula::Either(_, _) => false,
                Formula::AtLeast(_) | Formula::Equal(_) => false,
            },
            Formula::Either(a, b) => match other {
                Formula::Either(c, d) => a.same(c) && b.same(d),
                Formula::Always | Formula::Never | Formula::Both(_, _) => false,
                Formula::AtLeast(_) | Formula::Equal(_) => false,
            },
        }
    }

    fn is_always(&self) -> bool
        ensures { result ≡ same_formula always (formula_tree self.now) }
    {
        match self {
            Formula::Always => true,
            Formula::Never | Formula::AtLeast(_) | Formula::Equal(_) => false,
            Formula::Both(_, _) | Formula::Either(_, _) => false,
        }
    }

    fn is_never(&self) -> bool
        ensures { result ≡ same_formula never (formula_tree self.now) }
    {
        match self {
            Formula::Never => true,
            Formula::Always | Formula::AtLeast(_) | Formula::Equal(_) => false,
            Formula::Both(_, _) | Formula::Either(_, _) => false,
        }
    }

    fn is_at_least(&self, row: &Row) -> bool
        ensures { result ≡ same_formula (at_least row.now) (formula_tree self.now) }
    {
        match self {
            Formula::AtLeast(other) => row.same(other),
            Formula::Always | Formula::Never | Formula::Equal(_) => false,
            Formula::Both(_, _) | Formula::Either(_, _) => false,
        }
    }

    fn is_equal(&self, row: &Row) -> bool
        ensures { result ≡ same_formula (equal row.now) (formula_tree self.now) }
    {
        match self {
            Formula::Equal(other) => row.same(other),
            Formula::Always | Formula::Never | Formula::AtLeast(_) => false,
            Formula::Both(_, _) | Formula::Either(_, _) => false,
        }
    }

    /// An equal formula.
    ///
    /// # Errors
    /// `NoMemory` where memory ran out.
    #[cycle(copy_formula)]
    pub fn try_copy(&self, alloc: Global) -> Result<Formula, NoMemory>
        ensures { IfOk result (λ new. formula_tree new ≡ formula_tree self.now) }
    {
        match self {
            Formula::Always => Ok(Formula::Always),
            Formula::Never => Ok(Formula::Never),
            Formula::AtLeast(row) => Ok(Formula::AtLeast(row.try_copy(alloc)?)),
            Formula::Equal(row) => Ok(Formula::Equal(row.try_copy(alloc)?)),
            Formula::Both(a, b) => Formula::copy_and(alloc, a, b),
            Formula::Either(a, b) => Formula::copy_or(alloc, a, b),
        }
    }

    // An `and` of copies. The second part may be as deep as it has members: these are copied by a loop.
    #[cycle(copy_formula)]
    #[tactic(auto, using(crate::proofs::CopyCode::and_first, crate::proofs::CopyCode::and_next))]
    fn copy_and(alloc: Global, first: &Formula, second: &Formula) -> Result<Formula, NoMemory>
        ensures { IfOk result (λ new. formula_tree new ≡ both (formula_tree first.now) (formula_tree second.now)) }
    {
        let mut parts = Vec::new(alloc);
        parts.push(first.try_copy(alloc)?)?;
        let mut left = second;
        while let Formula::Both(a, b) = left {
            parts.push(a.try_copy(alloc)?)?;
            left = b;
        }
        let last = left.try_copy(alloc)?;
        all_with(alloc, parts, last)
    }

    // An `or` of copies in the same way.
    #[cycle(copy_formula)]
    #[tactic(auto, using(crate::proofs::CopyCode::or_first, crate::proofs::CopyCode::or_next))]
    fn copy_or(alloc: Global, first: &Formula, second: &Formula) -> Result<Formula, NoMemory>
        ensures { IfOk result (λ new. formula_tree new ≡ either (formula_tree first.now) (formula_tree second.now)) }
    {
        let mut parts = Vec::new(alloc);
        parts.push(first.try_copy(alloc)?)?;
        let mut left = second;
        while let Formula::Either(a, b) = left {
            parts.push(a.try_copy(alloc)?)?;
            left = b;
        }
        let last = left.try_copy(alloc)?;
        any_with(alloc, parts, last)
    }
}
