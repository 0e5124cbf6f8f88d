//! The lines of `check` on branches of `||` that never hold.
ghost use Rattle.std.specs.Prelude.{◌≡◌, ◌++◌, [], true, if◌then◌else◌, IfOk, OnOk, map};
ghost use Rattle.cf_advice.specs.OrView.{branch_path, or_tree};
ghost use Rattle.cf_form.specs.ToldView.{told_branch};
ghost use Rattle.cf_answer.specs.Checking.{asked_view};
ghost use Rattle.cf_answer.specs.Checks.{AreBranchLines, AreOrLines, branch_line, branch_text};
ghost use Rattle.cf_answer.specs.Tells.{NeverHoldsAt, TellsNeverHolds};

use crate::choose_line::put_line;
use crate::told_check::Asked;
use cf_advice::{Or, OrBranch, part_at};
use cf_decide::never_holds_with;
use cf_form::Branch;
use cf_tree::{NoMemory, Place, add_u32, put_number};
use std::alloc::Global;

/// The lines on branches of these `||` of a choose that a search finds never to hold.
///
/// # Errors
/// `NoMemory` where memory ran out.
pub(crate) fn or_lines(
    alloc: Global,
    asked: &Asked<'_>,
    branches: &[Branch],
    number: u32,
    ors: &[Or],
) -> Result<Vec<u8>, NoMemory>
    ensures { IfOk result (λ t. AreOrLines (asked_view asked.now) (map told_branch branches.now) number (map or_tree ors.now) t.items) }
{
    let count = branch_count(ors);
    let mut lines = Vec::new(alloc);
    let mut rest = ors;
    while let Some((first, more)) = rest.split_first() {
        let own = branch_lines(
            alloc,
            asked,
            branches,
            number,
            first.place,
            &first.branches,
            count,
        )?;
        lines.extend_from_slice(&own)?;
        rest = more;
    }
    Ok(lines)
}

// How many branches they have together.
fn branch_count(ors: &[Or]) -> usize {
    let mut count: usize = 0;
    for one in ors {
        count = count.saturating_add(one.branches.len());
    }
    count
}

// The lines on the branches of the `||` of this place, of which a choose has so many.
fn branch_lines(
    alloc: Global,
    asked: &Asked<'_>,
    branches: &[Branch],
    number: u32,
    place: Place,
    sides: &[OrBranch],
    count: usize,
) -> Result<Vec<u8>, NoMemory>
    ensures { IfOk result (λ t. AreBranchLines (asked_view asked.now) (map told_branch branches.now) number
        (record { place = place; branches = map branch_path sides.now }) t.items) }
{
    let mut lines = Vec::new(alloc);
    let mut index: u32 = 0;
    let mut rest = sides;
    while let Some((side, more)) = rest.split_first() {
        let told = never_holds(alloc, asked, branches, side, count)?;
        put_branch(alloc, &mut lines, told, number, place, index)?;
        index = add_u32(index, 1)?;
        rest = more;
    }
    Ok(lines)
}

// Whether a search finds that the branch never holds, one of so many.
fn never_holds(
    alloc: Global,
    asked: &Asked<'_>,
    branches: &[Branch],
    side: &OrBranch,
    count: usize,
) -> Result<bool, NoMemory>
    ensures { IfOk result (λ b. b ≡ true → TellsNeverHolds (asked_view asked.now) (map told_branch branches.now) (branch_path side.now)) }
{
    let mut rest = branches;
    while let Some((branch, more)) = rest.split_first() {
        let never = never_holds_in(alloc, asked, branch, side, count)?;
        if !never {
            return Ok(false);
        }
        rest = more;
    }
    Ok(true)
}

fn never_holds_in(
    alloc: Global,
    asked: &Asked<'_>,
    branch: &Branch,
    side: &OrBranch,
    count: usize,
) -> Result<bool, NoMemory>
    ensures { IfOk result (λ b. b ≡ true → NeverHoldsAt (asked_view asked.now) (branch_path side.now) (told_branch branch.now)) }
{
    if !branch.truths.is_empty() {
        return Ok(false);
    }
    match part_at(&branch.relation, &side.path) {
        Some(part) => never_holds_with(
            alloc,
            asked.scope,
            asked.outputs,
            &branch.relation,
            part,
            count,
        ),
        None => Ok(false),
    }
}

// ---- texts
// Adds the line on a branch, if it is told.
fn put_branch(
    alloc: Global,
    lines: &mut Vec<u8>,
    is_told: bool,
    number: u32,
    place: Place,
    index: u32,
) -> Result<(), NoMemory>
    ensures { OnOk result (lines.new.items ≡ lines.old.items ++ (if is_told then branch_line number place index else [])) }
{
    if !is_told {
        return Ok(());
    }
    let words = branch_words(alloc, place, index)?;
    put_line(lines, number, &words)?;
    Ok(())
}

fn branch_words(alloc: Global, place: Place, index: u32) -> Result<Vec<u8>, NoMemory>
    ensures { IfOk result (λ t. t.items ≡ branch_text place index) }
{
    let mut text = Vec::new(alloc);
    put_words(&mut text, place, index)?;
    Ok(text)
}

fn put_words(text: &mut Vec<u8>, place: Place, index: u32) -> Result<(), NoMemory>
    ensures { OnOk result (text.new.items ≡ text.old.items ++ branch_text place index) }
{
    text.extend_from_slice(b"branch ".as_slice())?;
    put_number(text, index as u64 + 1)?;
    text.extend_from_slice(b" of || at ".as_slice())?;
    put_number(text, place.line)?;
    text.push(b':')?;
    put_number(text, place.column)?;
    text.extend_from_slice(b" never holds".as_slice())?;
    Ok(())
}
