//! Pending formulas where facts and the rows of the conditions hold.
ghost use Rattle.std.specs.Prelude.{◌≡◌, ◌+◌, ◌++◌, ◌||◌, map, IfOk, OnOk};
ghost use Rattle.cf_linear.specs.Arm.{negated};
ghost use Rattle.cf_formula.specs.ConditionsView.{conditions_of};
ghost use Rattle.cf_formula.specs.Facts.{settled};
ghost use Rattle.cf_formula.specs.FormulaView.{formula_tree, formula_trees};
ghost use Rattle.cf_formula.specs.Simplifying.{sure, add_while, without_pending, same_formulas, settled_with, round, is_last};
ghost use Rattle.cf_formula.specs.Simplifying.{atom_count, atoms_of_all, simplified, simplified_within};
ghost use Rattle.cf_formula.specs.States.{killed};

use crate::conditions::Conditions;
use crate::facts::Facts;
use crate::formula::Formula;
use cf_linear::Row;
use cf_tree::NoMemory;
use std::alloc::Global;

// What a round made, and whether it is the last one.
#[derive(Drop)]
struct Round {
    conditions: Conditions,
    is_last: bool,
}

impl Conditions {
    /// The conditions with the pending formulas as the facts and the rows of the conditions settle them, over and
    /// over until nothing changes. They are dead where these rows contradict each other.
    ///
    /// # Errors
    /// `NoMemory` where memory ran out.
    #[tactic(auto, using(crate::proofs::SimplifyCode::as_many))]
    pub fn simplified(self, alloc: Global, facts: &[Row]) -> Result<Conditions, NoMemory>
        ensures { IfOk result (λ c. conditions_of c ≡ simplified facts.now (conditions_of self)) }
    {
        let atoms = atoms_of_all(&self.pending)?;
        let rounds = total(atoms, 1)?;
        let simplified = self.simplified_within(alloc, facts, rounds)?;
        Ok(simplified)
    }

    // The same in at most so many rounds.
    #[tactic(auto, using(crate::proofs::SimplifyCode::last_round, crate::proofs::SimplifyCode::next_round, crate::proofs::SimplifyCode::no_round))]
    fn simplified_within(
        self,
        alloc: Global,
        facts: &[Row],
        rounds: usize,
    ) -> Result<Conditions, NoMemory>
        ensures { IfOk result (λ c. conditions_of c ≡ simplified_within rounds facts.now (conditions_of self)) }
    {
        let mut conditions = self;
        let mut left = rounds;
        while left > 0 {
            left -= 1;
            let round = conditions.one_round(alloc, facts)?;
            if round.is_last {
                return Ok(round.conditions);
            }
            conditions = round.conditions;
        }
        Ok(conditions)
    }

    // One round.
    #[tactic(auto, using(crate::proofs::SimplifyCode::refuted_round, crate::proofs::SimplifyCode::settled_round))]
    fn one_round(self, alloc: Global, facts: &[Row]) -> Result<Round, NoMemory>
        ensures conditions { IfOk result (λ r. conditions_of r.conditions ≡ round facts.now (conditions_of self)) }
        ensures last { IfOk result (λ r. r.is_last ≡ is_last facts.now (conditions_of self)) }
    {
        let known = self.known(alloc, facts)?;
        if known.is_contradictory(alloc)? {
            return Ok(Round {
                conditions: self.killed(),
                is_last: true,
            });
        }
        let round = self.settled(alloc, &known)?;
        Ok(round)
    }

    // The conditions with the pending formulas as the rows settle them.
    fn settled(self, alloc: Global, known: &Facts) -> Result<Round, NoMemory>
        ensures conditions { IfOk result (λ r. conditions_of r.conditions ≡ settled_with known.now.rows.items (conditions_of self)) }
        ensures last { IfOk result (λ r. r.is_last ≡ ((settled_with known.now.rows.items (conditions_of self)).dead ||
            same_formulas (map (settled known.now.rows.items) (conditions_of self).pending) (conditions_of self).pending)) }
    {
        let formulas = settle_all(alloc, &self.pending, known)?;
        let is_same = same_formulas(&formulas, &self.pending);
        let mut conditions = self.without_pending(alloc);
        conditions.add_while(formulas)?;
        let is_last = conditions.dead || is_same;
        Ok(Round {
            conditions,
            is_last,
        })
    }

    /// The facts, and the rows of the conditions that are at least 0.
    ///
    /// # Errors
    /// `NoMemory` where memory ran out.
    #[tactic(auto, using(crate::proofs::SimplifyCode::all_known))]
    pub fn known(&self, alloc: Global, facts: &[Row]) -> Result<Facts, NoMemory>
        ensures { IfOk result (λ f. f.rows.items ≡ facts.now ++ sure (conditions_of self.now)) }
    {
        let mut rows = Vec::new(alloc);
        push_copies(alloc, facts, &mut rows)?;
        push_copies(alloc, &self.inequalities, &mut rows)?;
        push_copies(alloc, &self.equations, &mut rows)?;
        push_negated(alloc, &self.equations, &mut rows)?;
        Ok(Facts { rows })
    }

    fn killed(self) -> Conditions
        ensures { conditions_of result ≡ killed (conditions_of self) }
    {
        let mut conditions = self;
        conditions.dead = true;
        conditions
    }

    fn without_pending(self, alloc: Global) -> Conditions
        ensures { conditions_of result ≡ without_pending (conditions_of self) }
    {
        let Conditions {
            equations,
            inequalities,
            pending: _,
            dead,
        } = self;
        Conditions {
            equations,
            inequalities,
            pending: Vec::new(alloc),
            dead,
        }
    }

    // Adds the formulas one after the other, up to the first that is never true.
    fn add_while(&mut self, formulas: Vec<Formula>) -> Result<(), NoMemory>
        ensures { OnOk result (conditions_of self.new ≡ add_while (formula_trees formulas.items) (conditions_of self.old)) }
    {
        let mut left = formulas;
        left.reverse();
        while let Some(formula) = left.pop() {
            self.add(formula)?;
            if self.dead {
                return Ok(());
            }
        }
        Ok(())
    }
}

impl Formula {
    /// How many atoms the formula holds.
    ///
    /// # Errors
    /// `NoMemory` where there are more than a `usize` holds.
    pub fn atom_count(&self) -> Result<usize, NoMemory>
        ensures { IfOk result (λ n. n ≡ atom_count (formula_tree self.now)) }
    {
        match self {
            Formula::Always | Formula::Never => Ok(0),
            Formula::AtLeast(_) | Formula::Equal(_) => Ok(1),
            Formula::Both(a, b) | Formula::Either(a, b) => {
                total(a.atom_count()?, b.atom_count()?)
            }
        }
    }
}

fn atoms_of_all(formulas: &[Formula]) -> Result<usize, NoMemory>
    ensures { IfOk result (λ n. n ≡ atoms_of_all (formula_trees formulas.now)) }
{
    let mut atoms = 0;
    let mut rest = formulas;
    while let Some((formula, more)) = rest.split_first() {
        atoms = total(atoms, formula.atom_count()?)?;
        rest = more;
    }
    Ok(atoms)
}

// The sum: what is counted is held in memory, so that no memory holds more than a `usize`.
fn total(a: usize, b: usize) -> Result<usize, NoMemory>
    ensures { IfOk result (λ n. n ≡ a + b) }
{
    match a.checked_add(b) {
        Some(n) => Ok(n),
        None => Err(NoMemory),
    }
}

fn settle_all(alloc: Global, formulas: &[Formula], known: &Facts) -> Result<Vec<Formula>, NoMemory>
    ensures { IfOk result (λ v. formula_trees v.items ≡ map (settled known.now.rows.items) (formula_trees formulas.now)) }
{
    let mut out = Vec::new(alloc);
    for formula in formulas {
        out.push(known.settled(alloc, formula)?)?;
    }
    Ok(out)
}

#[tactic(auto, using(crate::proofs::SimplifyCode::same_next, crate::proofs::SimplifyCode::same_end, crate::proofs::SimplifyCode::other_length))]
fn same_formulas(first: &[Formula], second: &[Formula]) -> bool
    ensures { result ≡ same_formulas (formula_trees first.now) (formula_trees second.now) }
{
    if first.len() != second.len() {
        return false;
    }
    for i in 0..first.len() {
        if !first[i].same(&second[i]) {
            return false;
        }
    }
    true
}

// Adds copies of the rows to the end.
fn push_copies(alloc: Global, rows: &[Row], out: &mut Vec<Row>) -> Result<(), NoMemory>
    ensures { OnOk result (out.new.items ≡ out.old.items ++ rows.now) }
{
    for row in rows {
        out.push(row.try_copy(alloc)?)?;
    }
    Ok(())
}

// Adds the rows with the other signs to the end.
fn push_negated(alloc: Global, rows: &[Row], out: &mut Vec<Row>) -> Result<(), NoMemory>
    ensures { OnOk result (out.new.items ≡ out.old.items ++ map negated rows.now) }
{
    for row in rows {
        out.push(row.negated(alloc)?)?;
    }
    Ok(())
}
