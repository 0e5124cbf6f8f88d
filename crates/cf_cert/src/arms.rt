//! The arms that the steps of a block make.
ghost use Rattle.std.specs.Prelude.{◌≡◌, ◌≤◌, length, true, map, IfOk};
ghost use Rattle.cf_tree.specs.CodeView.{arm_tree};
ghost use Rattle.cf_linear.specs.Arm.{arm};
ghost use Rattle.cf_linear.specs.declared.refusal.TheConstants.{MOST_CASES};
ghost use Rattle.cf_linear.specs.Stages.{limits};
ghost use Rattle.cf_linear.specs.Views.{plain_layout, system_of};
ghost use Rattle.cf_cases.specs.Holding.{EachOf};
ghost use Rattle.cf_choose.specs.ArmBuilders.{answer_of};
ghost use Rattle.cf_choose.specs.Eliminations.{CanBegin, IsFewSets};
ghost use Rattle.cf_cert.specs.Applying.{IsWithinAct};
ghost use Rattle.cf_cert.specs.Certifying.{eliminated};
ghost use Rattle.cf_cert.specs.Verifying.{ArmIs, ArmsIs, HasFew, in_case};
ghost use Rattle.cf_cert.specs.declared.follow.TheConstants.{MOST_STEPS};

use crate::fault::JudgeFault;
use crate::follow::{CaseFault, eliminated};
use cf_cases::LEVEL_LIMIT;
use cf_choose::arm;
use cf_elim::StepOutput;
use cf_linear::{Layout, System};
use cf_steps::Act;
use cf_tree::{Arm, NoMemory};
use std::alloc::Global;

// The arms of the cases with these first systems, one list of steps for each.
pub(crate) fn arms(
    alloc: Global,
    layout: &Layout,
    systems: Vec<System>,
    cases: &[Vec<Act>],
) -> Result<Vec<Arm>, JudgeFault>
    requires sets { IsFewSets (plain_layout layout.now) }
    requires ready { EachOf CanBegin (map system_of systems.items) }
    requires within { EachOf (λ acts. EachOf IsWithinAct acts) (map (λ c. c.items) cases.now) }
    requires few { EachOf (λ acts. length acts ≤ MOST_STEPS) (map (λ c. c.items) cases.now) }
    requires one { length cases.now ≡ length systems.items }
    requires count { length cases.now ≤ MOST_CASES }
    ensures { ArmsIs (plain_layout layout.now) (map system_of systems.items) (map (λ c. c.items) cases.now) result }
{
    let mut left = systems;
    left.reverse();
    let mut arms = Vec::new(alloc);
    let mut case = 0;
    while let Some(system) = left.pop() {
        match case_arm(alloc, layout, system, &cases[case as usize]) {
            Ok(arm) => arms.push(arm)?,
            Err(fault) => return Err(in_case(case + 1, fault)),
        }
        case += 1;
    }
    Ok(arms)
}

// A case's fault as one of the block.
fn in_case(case: u32, fault: CaseFault) -> JudgeFault
    ensures { result ≡ in_case case fault }
{
    match fault {
        CaseFault::Rejected { step, why } => JudgeFault::Rejected { case, step, why },
        CaseFault::NoMemory => JudgeFault::NoMemory,
    }
}

// The arm of the case with that first system.
fn case_arm(alloc: Global, layout: &Layout, system: System, acts: &[Act]) -> Result<Arm, CaseFault>
    requires sets { IsFewSets (plain_layout layout.now) }
    requires ready { CanBegin (system_of system) }
    requires within { EachOf IsWithinAct acts.now }
    requires few { length acts.now ≤ MOST_STEPS }
    ensures { ArmIs (plain_layout layout.now) (eliminated limits (system_of system) acts.now) result }
{
    let made = match eliminated(alloc, system, acts) {
        Ok(made) => made,
        Err(fault) => return Err(fault),
    };
    match arm_of(alloc, layout, &made) {
        Ok(arm) => Ok(arm),
        Err(_) => Err(CaseFault::NoMemory),
    }
}

// The arm of what the steps of a case make.
fn arm_of(alloc: Global, layout: &Layout, made: &StepOutput) -> Result<Arm, NoMemory>
    requires { IsFewSets (plain_layout layout.now) }
    ensures { IfOk result (λ a. arm_tree a ≡ arm (plain_layout layout.now) (answer_of made.now.bounds.items made.now.steps.items made.now.back.items)) }
{
    if !has_room(layout, made.bounds.len()) {
        return Err(NoMemory);
    }
    arm(alloc, layout, &made.bounds, &made.steps, &made.back)
}

// Whether the levels of an arm with as many searches are numbers of 32 bits.
fn has_room(layout: &Layout, searches: usize) -> bool
    ensures { result ≡ true → HasFew layout.now searches }
{
    layout.scope < LEVEL_LIMIT as u32
        && layout.numbers.len() < LEVEL_LIMIT
        && layout.out_numbers.len() < LEVEL_LIMIT
        && searches < LEVEL_LIMIT
}
