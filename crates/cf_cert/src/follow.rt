//! The steps of a case, one after the other.
ghost use Rattle.std.specs.Prelude.{◌≡◌, ◌≤◌, ◌+◌, ◌==◌, length, IfOk};
ghost use Rattle.cf_linear.specs.Stages.{limits};
ghost use Rattle.cf_linear.specs.Views.{system_of};
ghost use Rattle.cf_cases.specs.Holding.{EachOf};
ghost use Rattle.cf_elim.specs.Stages.{IsReady};
ghost use Rattle.cf_cert.specs.Applying.{apply, IsWithinAct};
ghost use Rattle.cf_cert.specs.Certifying.{eliminated, is_over};
ghost use Rattle.cf_cert.specs.Following.{CaseIs, WayIs, IsAdded, at_step, end_of};
ghost use Rattle.cf_cert.specs.declared.follow.TheConstants.{MOST_STEPS};

use crate::apply::apply;
use crate::bounding::tuples_with;
use crate::next::{ApplyFault, Next, refusal_of};
use crate::verdict::Why;
use cf_elim::{RunOutput, StepOutput, within_counts};
use cf_linear::System;
use cf_steps::Act;
use cf_tree::NoMemory;
use std::alloc::Global;

/// A steps file has at most so many bytes, and so many steps.
pub const MOST_STEPS: usize = 67_108_864;

/// The number of the first step of a case that does not apply, and why, or want of memory. Step 0 is the
/// case's first system, and one more than the last step is its end.
#[derive(Clone, Copy, Debug, PartialEq, Eq)]
pub enum CaseFault {
    Rejected { step: u32, why: Why },
    NoMemory,
}

// A case after some of its steps: the system that they leave, the product of their searches' bounds, and
// what they make.
#[derive(Drop)]
pub(crate) struct Way {
    pub(crate) system: System,
    pub(crate) tuples: u64,
    pub(crate) whole: RunOutput,
}

/// What the steps of a case make, from its first system on. The system's rows have forms and its
/// unknowns are all different.
///
/// # Errors
/// `Rejected` exactly where the first system, a step or the end is rejected, with the first of these, and
/// `NoMemory` where memory ran out.
pub fn eliminated(alloc: Global, system: System, acts: &[Act]) -> Result<StepOutput, CaseFault>
    requires ready { IsReady (system_of system) }
    requires within { EachOf IsWithinAct acts.now }
    requires few { length acts.now ≤ MOST_STEPS }
    ensures { CaseIs (eliminated limits (system_of system) acts.now) result }
{
    match within_counts(&system) {
        Ok(()) => {}
        Err(fault) => return Err(at_step(0, refusal_of(fault))),
    }
    let mut way = Way {
        system,
        tuples: 1,
        whole: RunOutput::none(alloc),
    };
    let mut step = 1;
    for i in 0..acts.len() {
        match advance(alloc, way, &acts[i]) {
            Ok(next) => way = next,
            Err(fault) => return Err(at_step(step, fault)),
        }
        step += 1;
    }
    ended(way, step)
}

// A step's fault as one of the case.
fn at_step(step: u32, fault: ApplyFault) -> CaseFault
    ensures { result ≡ at_step step fault }
{
    match fault {
        ApplyFault::Rejected(why) => CaseFault::Rejected { step, why },
        ApplyFault::NoMemory => CaseFault::NoMemory,
    }
}

// One step more.
fn advance(alloc: Global, way: Way, act: &Act) -> Result<Way, ApplyFault>
    requires ready { IsReady (system_of way.system) }
    requires within { IsWithinAct act.now }
    ensures { WayIs way (apply limits way.tuples (system_of way.system) act.now) result }
{
    let Way {
        system,
        tuples,
        whole,
    } = way;
    let next = match apply(alloc, system, tuples, *act) {
        Ok(next) => next,
        Err(fault) => return Err(fault),
    };
    match added(whole, tuples, next) {
        Ok(way) => Ok(way),
        Err(_) => Err(ApplyFault::NoMemory),
    }
}

// What a step leaves, with what it makes behind what those before it made.
fn added(whole: RunOutput, tuples: u64, next: Next) -> Result<Way, NoMemory>
    ensures { IfOk result (IsAdded whole tuples next) }
{
    let Next { system, made } = next;
    let tuples = tuples_with(tuples, &made.bounds);
    let mut whole = whole;
    whole.add(made)?;
    Ok(Way {
        system,
        tuples,
        whole,
    })
}

// The end of the case, which has that number.
fn ended(way: Way, step: u32) -> Result<StepOutput, CaseFault>
    ensures { CaseIs (end_of way step) result }
{
    if !is_over(&way.system) {
        drop(way);
        return Err(CaseFault::Rejected {
            step,
            why: Why::Left,
        });
    }
    let mut back = way.whole.later;
    back.reverse();
    Ok(StepOutput {
        bounds: way.whole.bounds,
        steps: way.whole.steps,
        back,
    })
}

// Whether no unknown, equation or inequality is left.
fn is_over(system: &System) -> bool
    ensures { result ≡ is_over (system_of system.now) }
{
    are_none(
        system.unknown.len(),
        system.equations.len(),
        system.inequalities.len(),
    )
}

// Whether all of these counts are 0.
fn are_none(a: usize, b: usize, c: usize) -> bool
    ensures { result ≡ (a + b + c == 0) }
{
    a == 0 && b == 0 && c == 0
}
