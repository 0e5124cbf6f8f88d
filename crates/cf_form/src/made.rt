//! The functions of a source with the forms of language 2, before they are a program.
ghost use Rattle.std.specs.Prelude.{◌≡◌, ◌⊎◌, IfOk, IfErr, MatchOption, None, map};
ghost use Rattle.cf_tree.specs.DefView.{def_tree};
ghost use Rattle.cf_program.specs.Size.{depths, first_above};
ghost use Rattle.cf_form.specs.declared.fault.FormFault.TheVariants as faults;
ghost use Rattle.cf_form.specs.FormAnswers.{AreNarrow, IsUnformed};
ghost use Rattle.cf_form.specs.Formed.{formed_defs};
ghost use Rattle.cf_form.specs.Made.{AreWithin, IsPast, IsTooDeep, OverAnswer, MadeAnswer};
ghost use Rattle.cf_form.specs.Told.{told, wide_chooses as wide_chooses_of};
ghost use Rattle.cf_form.specs.ToldView.{choose_view, told_choose};

use crate::chooses::{WideChoose, first_passed, wide_chooses};
use crate::fault::FormFault;
use crate::forming::form_defs;
use crate::saturated::saturated;
use crate::telling::tell_chooses;
use crate::told::ChooseInfo;
use crate::wide::Room;
use cf_program::{first_too_deep, first_too_heavy};
use cf_tree::{Def, NoMemory, without};
use std::alloc::Global;

/// Formed functions, and what is told of the chooses of those that they were made of.
#[derive(Drop)]
pub(crate) struct Made {
    pub(crate) defs: Vec<Def>,
    pub(crate) chooses: Vec<ChooseInfo>,
}

/// The functions of a source, formed.
#[tactic(auto, using(crate::proofs::MadeLaws::made_answer))]
pub(crate) fn make(alloc: Global, defs: &[Def]) -> Result<Made, FormFault>
    ensures { MadeAnswer (map def_tree defs.now) result }
{
    match narrow_chooses(alloc, defs) {
        Ok(chooses) => make_over(alloc, defs, &chooses),
        Err(fault) => Err(fault),
    }
}

// The chooses of functions, expanded, where no atom has too many alternatives.
fn narrow_chooses<'a>(alloc: Global, defs: &'a [Def]) -> Result<Vec<WideChoose<'a>>, FormFault>
    ensures narrow { IfOk result (λ qs. (map choose_view qs.items ≡ wide_chooses_of (map def_tree defs.now)) × AreNarrow (map def_tree defs.now)) }
    ensures fault { IfErr result (λ e. IsUnformed (map def_tree defs.now) e ⊎ (e ≡ faults.NoMemory)) }
{
    let mut room = Room::new();
    match wide_chooses(alloc, &mut room, defs) {
        Ok(chooses) => match first_passed(&chooses) {
            None => Ok(chooses),
            Some(passed) => {
                let number = passed.number;
                let count = passed.count;
                Err(without(chooses, FormFault::Cases { number, count }))
            }
        },
        Err(_) => Err(past_memory(alloc, defs)),
    }
}

// The same functions formed, and what is told of these chooses.
#[tactic(auto, using(crate::proofs::MadeLaws::over_answer))]
fn make_over(alloc: Global, defs: &[Def], chooses: &[WideChoose<'_>]) -> Result<Made, FormFault>
    ensures { OverAnswer (map def_tree defs.now) (map choose_view chooses.now) result }
{
    match form_within(alloc, defs) {
        Ok(new) => match tell_with(alloc, chooses, new) {
            Ok(made) => Ok(made),
            Err(_) => Err(FormFault::NoMemory),
        },
        Err(fault) => Err(fault),
    }
}

// These formed functions, with what is told of chooses.
fn tell_with(alloc: Global, chooses: &[WideChoose<'_>], defs: Vec<Def>) -> Result<Made, NoMemory>
    ensures { IfOk result (λ m. (m.defs ≡ defs) × (map told_choose m.chooses.items ≡ map told (map choose_view chooses.now))) }
{
    let mut room = Room::new();
    match tell_chooses(alloc, &mut room, chooses) {
        Ok(chooses) => Ok(Made { defs, chooses }),
        Err(fault) => Err(without(defs, fault)),
    }
}

// Functions formed, where none passes a limit of weight or depth.
fn form_within(alloc: Global, defs: &[Def]) -> Result<Vec<Def>, FormFault>
    ensures formed { IfOk result (λ new. (map def_tree new.items ≡ formed_defs (map def_tree defs.now)) × AreWithin (formed_defs (map def_tree defs.now))) }
    ensures fault { IfErr result (λ e. IsPast (formed_defs (map def_tree defs.now)) e) }
{
    let mut room = Room::new();
    match form_defs(alloc, &mut room, defs) {
        Ok(new) => match size_fault(alloc, &new) {
            None => Ok(new),
            Some(fault) => Err(without(new, fault)),
        },
        Err(_) => Err(past_memory(alloc, defs)),
    }
}

// Why functions that do not fit into memory are not formed: a weight that stands still at the
// greatest number, where that is known, and else want of memory.
#[tactic(auto, using(crate::proofs::SaturatedLaws::unformed_weight, crate::proofs::SaturatedLaws::past_weight))]
fn past_memory(alloc: Global, defs: &[Def]) -> FormFault
    ensures unformed { IsUnformed (map def_tree defs.now) result ⊎ (result ≡ faults.NoMemory) }
    ensures past { IsPast (formed_defs (map def_tree defs.now)) result }
{
    match saturated(alloc, defs) {
        Ok(function) => FormFault::Weight {
            function,
            weight: u64::MAX,
        },
        Err(_) => FormFault::NoMemory,
    }
}

// The first limit that functions pass, or want of memory.
#[tactic(auto, using(crate::proofs::MadeLaws::size_answer))]
fn size_fault(alloc: Global, defs: &[Def]) -> Option<FormFault>
    ensures { MatchOption result (AreWithin (map def_tree defs.now)) (λ e. IsPast (map def_tree defs.now) e) }
{
    match first_too_heavy(alloc, defs) {
        Ok(heavy) => match heavy {
            None => depth_fault(alloc, defs),
            Some(passed) => {
                let function = passed.function;
                let weight = passed.size;
                Some(FormFault::Weight { function, weight })
            }
        },
        Err(_) => Some(FormFault::NoMemory),
    }
}

fn depth_fault(alloc: Global, defs: &[Def]) -> Option<FormFault>
    ensures { MatchOption result (first_above 200 0 (depths (map def_tree defs.now)) ≡ None) (λ e. IsTooDeep (map def_tree defs.now) e) }
{
    match first_too_deep(alloc, defs) {
        Ok(deep) => match deep {
            None => None,
            Some(passed) => {
                let function = passed.function;
                let depth = passed.size;
                Some(FormFault::Depth { function, depth })
            }
        },
        Err(_) => Some(FormFault::NoMemory),
    }
}
