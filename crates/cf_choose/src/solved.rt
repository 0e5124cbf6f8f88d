//! A solved choose.
ghost use Rattle.std.specs.Prelude.{◌≡◌, ◌<◌, Some, IfOk, map, length, slice_get};
ghost use Rattle.cf_tree.specs.CodeTree.{arms_of, code_solve};
ghost use Rattle.cf_tree.specs.CodeView.{code_tree, arm_trees};
ghost use Rattle.cf_tree.specs.DefView.{pre_tree};
ghost use Rattle.cf_tree.specs.RelView.{rel_tree};
ghost use Rattle.cf_linear.specs.Cases.{first_systems};
ghost use Rattle.cf_linear.specs.Chooses.{arms};
ghost use Rattle.cf_linear.specs.Layout.{layout_of};
ghost use Rattle.cf_linear.specs.Views.{plain_layout, step_of, bound_of};
ghost use Rattle.cf_choose.specs.Eliminations.{first_of};
ghost use Rattle.cf_choose.specs.Precondition.{all_needs, IsPrecondition};
ghost use Rattle.cf_choose.specs.Solved.{IsSolved, case_steps, case_bounds};

use crate::needs::precondition;
use cf_elim::SolvedCase;
use cf_linear::{Layout, Search, Step};
use cf_tree::{Arm, Base, Code, NoMemory, Pre, Rel};
use std::alloc::Global;
use std::marker::Model;

/// A relation over a scope and outputs, its layout, its cases in order, and an arm for each case.
#[derive(Drop)]
pub struct SolvedParts {
    pub scope: Vec<Base>,
    pub outputs: Vec<Base>,
    pub rel: Rel,
    pub layout: Layout,
    pub cases: Vec<SolvedCase>,
    pub arms: Vec<Arm>,
}

/// A relation with arms that solve it: their needs hold somewhere exactly where some outputs satisfy
/// the relation, and what they give are such outputs. It passes no limit, and layout, cases and arms
/// are those of the definitions. Contracts see the `SolvedParts`.
#[derive(Drop)]
pub struct Solved {
    parts: SolvedParts,
}

impl Model for Solved {
    ghost use Rattle.cf_choose.specs.declared.solved.SolvedParts.{SolvedParts};

    ghost Value = { SolvedParts };

    ghost use Rattle.cf_tree.specs.contracts.code.Arm as coded_arm;
    ghost use Rattle.cf_tree.specs.contracts.rel.Rel as coded_rel;
    ghost use Rattle.std.specs.Coded.{codes};

    ghost coded = { Prim.hlevel (codes, coded_arm.the_row.coded, coded_rel.the_row.coded) };

    ghost use Rattle.cf_choose.specs.Solved.{IsSolved};

    ghost view = { λ s. s.parts };

    ghost invariant = { λ s. IsSolved s.parts };
}

impl Solved {
    // A relation with arms that solve it.
    pub(crate) fn new(parts: SolvedParts) -> Solved
        requires { IsSolved parts }
        ensures { result ≡ parts }
    {
        Solved { parts }
    }

    /// The relation.
    pub fn relation(&self) -> &Rel
        ensures value { result.now ≡ self.now.rel }
        ensures solved { IsSolved self.now }
    {
        &self.parts.rel
    }

    /// The bases of the variables in scope, by level.
    pub fn scope(&self) -> &[Base]
        ensures value { result.now ≡ self.now.scope.items }
        ensures solved { IsSolved self.now }
    {
        &self.parts.scope
    }

    /// The bases of the outputs.
    pub fn outputs(&self) -> &[Base]
        ensures value { result.now ≡ self.now.outputs.items }
        ensures solved { IsSolved self.now }
    {
        &self.parts.outputs
    }

    /// The levels of the parameters that occur in the relation, and of the outputs.
    pub fn layout(&self) -> &Layout
        ensures value { result.now ≡ self.now.layout }
        ensures levels { plain_layout result.now ≡ layout_of self.now.scope.items self.now.outputs.items (rel_tree self.now.rel) }
        ensures solved { IsSolved self.now }
    {
        &self.parts.layout
    }

    /// The cases of the relation, each with its elimination.
    pub fn cases(&self) -> &[SolvedCase]
        ensures value { result.now ≡ self.now.cases.items }
        ensures cases { map first_of result.now ≡ first_systems (layout_of self.now.scope.items self.now.outputs.items (rel_tree self.now.rel)) (rel_tree self.now.rel) }
        ensures solved { IsSolved self.now }
    {
        &self.parts.cases
    }

    /// How many cases the relation has.
    pub fn cases_len(&self) -> usize
        ensures value { result ≡ length self.now.cases.items }
        ensures cases { result ≡ length (first_systems (layout_of self.now.scope.items self.now.outputs.items (rel_tree self.now.rel)) (rel_tree self.now.rel)) }
        ensures solved { IsSolved self.now }
    {
        self.parts.cases.len()
    }

    /// The lets and needs of the elimination of a case, in order of making.
    pub fn steps(&self, case: usize) -> &[Step]
        requires { case < length self.now.cases.items }
        ensures value { slice_get (case_steps self.now.scope.items self.now.outputs.items (rel_tree self.now.rel)) case ≡ Some (map step_of result.now) }
        ensures solved { IsSolved self.now }
    {
        self.parts.cases[case].steps()
    }

    /// The search columns of the elimination of a case with their bounds, in order of making.
    pub fn bounds(&self, case: usize) -> &[Search]
        requires { case < length self.now.cases.items }
        ensures value { slice_get (case_bounds self.now.scope.items self.now.outputs.items (rel_tree self.now.rel)) case ≡ Some (map bound_of result.now) }
        ensures solved { IsSolved self.now }
    {
        self.parts.cases[case].bounds()
    }

    /// The arms up to their last needs, which give nothing. The needs of some arm hold at some tuple
    /// exactly where some outputs satisfy the relation.
    ///
    /// # Errors
    /// `NoMemory` where memory ran out.
    pub fn pre(&self, alloc: Global) -> Result<Pre, NoMemory>
        ensures arms { IfOk result (λ p. pre_tree p ≡ all_needs (arm_trees self.now.arms.items)) }
        ensures holds { IfOk result (λ p. IsPrecondition self.now.scope.items self.now.outputs.items (rel_tree self.now.rel) (pre_tree p)) }
        ensures solved { IsSolved self.now }
    {
        precondition(alloc, &self.parts)
    }

    /// The `solve` of that number with a copy of the arms, which are those of the definition.
    ///
    /// # Errors
    /// `NoMemory` where memory ran out.
    pub fn code(&self, alloc: Global, number: u32) -> Result<Code, NoMemory>
        ensures code { IfOk result (λ c. code_tree c ≡ code_solve number (arm_trees self.now.arms.items)) }
        ensures arms { IfOk result (λ c. code_tree c ≡ code_solve number (arms_of (arms self.now.scope.items self.now.outputs.items (rel_tree self.now.rel)))) }
        ensures solved { IsSolved self.now }
    {
        let mut arms = Vec::new(alloc);
        for arm in &self.parts.arms {
            arms.push(arm.try_copy(alloc)?)?;
        }
        Ok(Code::Solve { number, arms })
    }

    /// The `solve` of that number with the arms, which are those of the definition. What else is
    /// kept of the choose is given up.
    pub fn into_code(self, number: u32) -> Code
        ensures code { code_tree result ≡ code_solve number (arms_of (arms self.scope.items self.outputs.items (rel_tree self.rel))) }
        ensures solved { IsSolved self }
    {
        let parts = self.parts;
        Code::Solve {
            number,
            arms: parts.arms,
        }
    }
}
