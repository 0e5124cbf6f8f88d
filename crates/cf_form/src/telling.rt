//! What is told of the chooses of a source.
ghost use Rattle.std.specs.Prelude.{◌≡◌, ◌++◌, ◌||◌, IfOk, OnOk, map};
ghost use Rattle.cf_form.specs.Branches.{branches_on, given_in, is_among as is_among_of, some_holds as some_holds_of};
ghost use Rattle.cf_form.specs.Telling.{branch_of, branches_behind, parameters_over, told_relations};
ghost use Rattle.cf_form.specs.Told.{told};
ghost use Rattle.cf_form.specs.ToldView.{choose_view, given_tree, told_branch, told_choose, truth_at};
ghost use Rattle.cf_form.specs.WideView.{given_rel};

use crate::branch::{branched, in_branch, push_if, relation_at};
use crate::choose::{joined_bases, with_value};
use crate::chooses::WideChoose;
use crate::told::{Branch, ChooseInfo, TruthAt};
use crate::wide::{Room, WideRel};
use cf_tree::{NoMemory, Rel, rel_holds, to_u32, without};
use std::alloc::Global;

/// What is told of chooses.
pub(crate) fn tell_chooses(
    alloc: Global,
    room: &mut Room,
    chooses: &[WideChoose<'_>],
) -> Result<Vec<ChooseInfo>, NoMemory>
    ensures { IfOk result (λ cs. map told_choose cs.items ≡ map told (map choose_view chooses.now)) }
{
    let mut all = Vec::new(alloc);
    for choose in chooses {
        all.push(tell(alloc, room, choose)?)?;
    }
    Ok(all)
}

fn tell(alloc: Global, room: &mut Room, choose: &WideChoose<'_>) -> Result<ChooseInfo, NoMemory>
    ensures { IfOk result (λ c. told_choose c ≡ told (choose_view choose.now)) }
{
    let levels = branched(alloc, choose.outline.scope, &choose.relation)?;
    let outputs = Vec::from_slice(alloc, choose.outline.outputs)?;
    let hidden = to_u32(choose.outline.hidden.len())?;
    let branches = branches(alloc, room, choose, &levels)?;
    match parameters(alloc, choose.outline.scope.len(), &levels, &branches) {
        Ok(parameters) => Ok(ChooseInfo {
            number: choose.outline.number,
            outputs,
            hidden,
            parameters,
            branches,
        }),
        Err(fault) => Err(without(branches, fault)),
    }
}

// The branches of a choose on these levels.
#[tactic(auto, using(crate::proofs::TellSteps::all_told))]
fn branches(
    alloc: Global,
    room: &mut Room,
    choose: &WideChoose<'_>,
    levels: &[u32],
) -> Result<Vec<Branch>, NoMemory>
    ensures { IfOk result (λ bs. map told_branch bs.items ≡ map (branch_of (choose_view choose.now)) (branches_on levels.now)) }
{
    let mut all = Vec::new(alloc);
    match tell_branches(alloc, room, choose, levels, &[], &mut all) {
        Ok(()) => Ok(all),
        Err(fault) => Err(without(all, fault)),
    }
}

// Those behind a branch in which some truth variables have values, after those told before.
#[tactic(auto, using(crate::proofs::TellSteps::one_told, crate::proofs::TellSteps::two_more))]
fn tell_branches(
    alloc: Global,
    room: &mut Room,
    choose: &WideChoose<'_>,
    levels: &[u32],
    branch: &[TruthAt],
    all: &mut Vec<Branch>,
) -> Result<(), NoMemory>
    ensures { OnOk result (map told_branch all.new.items ≡ map told_branch all.old.items
        ++ branches_behind (choose_view choose.now) (map truth_at branch.now) levels.now) }
{
    let Some((level, more)) = levels.split_first() else {
        all.push(tell_branch(alloc, room, choose, branch)?)?;
        return Ok(());
    };
    let yes = with_value(alloc, branch, *level, true)?;
    tell_branches(alloc, room, choose, more, &yes, all)?;
    let no = with_value(alloc, branch, *level, false)?;
    tell_branches(alloc, room, choose, more, &no, all)?;
    Ok(())
}

fn tell_branch(
    alloc: Global,
    room: &mut Room,
    choose: &WideChoose<'_>,
    branch: &[TruthAt],
) -> Result<Branch, NoMemory>
    ensures { IfOk result (λ b. told_branch b ≡ branch_of (choose_view choose.now) (map truth_at branch.now)) }
{
    let truths = Vec::from_slice(alloc, branch)?;
    let outputs = joined_bases(alloc, choose.outline.outputs, choose.outline.hidden)?;
    room.take_all(truths.len())?;
    room.take_all(outputs.len())?;
    let given = given_branch(alloc, room, branch, &choose.given)?;
    match relation_at(
        alloc,
        room,
        branch,
        choose.outline.scope,
        &outputs,
        &choose.relation,
    ) {
        Ok(relation) => Ok(Branch {
            truths,
            relation: Box::into_inner(relation),
            given,
        }),
        Err(fault) => Err(without(given, fault)),
    }
}

fn given_branch(
    alloc: Global,
    room: &mut Room,
    branch: &[TruthAt],
    given: &Option<Box<WideRel>>,
) -> Result<Option<Rel>, NoMemory>
    ensures { IfOk result (λ r. given_tree r ≡ given_in (map truth_at branch.now) (given_rel given.now)) }
{
    match given {
        None => Ok(None),
        Some(p) => Ok(Some(Box::into_inner(in_branch(alloc, room, branch, p)?))),
    }
}

// Of the levels of a scope those on which a choose branches, and those that occur in its branches.
fn parameters(
    alloc: Global,
    scope: usize,
    levels: &[u32],
    branches: &[Branch],
) -> Result<Vec<u32>, NoMemory>
    ensures { IfOk result (λ xs. xs.items ≡ parameters_over scope levels.now (told_relations (map told_branch branches.now))) }
{
    let end = to_u32(scope)?;
    let mut all = Vec::new(alloc);
    for level in 0..end {
        let is_parameter = is_parameter(level, levels, branches);
        push_if(&mut all, level, is_parameter)?;
    }
    Ok(all)
}

fn is_parameter(level: u32, levels: &[u32], branches: &[Branch]) -> bool
    ensures { result ≡ is_among_of level levels.now || some_holds_of level (told_relations (map told_branch branches.now)) }
{
    is_among(level, levels) || some_holds(level, branches)
}

fn is_among(level: u32, levels: &[u32]) -> bool
    ensures { result ≡ is_among_of level levels.now }
{
    let mut rest = levels;
    while let Some((first, more)) = rest.split_first() {
        if level == *first {
            return true;
        }
        rest = more;
    }
    false
}

fn some_holds(level: u32, branches: &[Branch]) -> bool
    ensures { result ≡ some_holds_of level (told_relations (map told_branch branches.now)) }
{
    let mut rest = branches;
    while let Some((first, more)) = rest.split_first() {
        if rel_holds(&first.relation, level) {
            return true;
        }
        rest = more;
    }
    false
}
