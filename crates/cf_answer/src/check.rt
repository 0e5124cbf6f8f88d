//! `check`: whether outputs of the chooses of a source always exist and are the only ones, and whether matches cover all numbers.
ghost use Rattle.std.specs.Prelude.{◌≡◌, ◌≤◌, ◌<◌, ◌-◌, ◌^◌, ◌∷◌, [], ◌++◌, List, ℕ, length, map, All, Contains, true, IfOk, OnOk, None};
ghost use Rattle.std.specs.List.Sorted.{IsNonDecreasingBy};
ghost use Rattle.cf_io.specs.Seen.{SourceSeen};
ghost use Rattle.cf_lex.specs.Editions.{edition_of as the_edition_of};
ghost use Rattle.cf_tree.specs.declared.base.Edition.TheVariants.{Two, Three};
ghost use Rattle.cf_pass.specs.Passes.{Told};
ghost use Rattle.cf_words.specs.Commands.{check as the_check};
ghost use Rattle.cf_answer.specs.Ends.{AnswersOn};
ghost use Rattle.cf_answer.specs.Limits.{text_limit};
ghost use Rattle.cf_answer.specs.Outside.{streams};
ghost use Rattle.cf_answer.specs.Statuses.{status_of as the_status_of, IsEarly};
ghost use Rattle.cf_tree.specs.Params.{names_of};
ghost use Rattle.cf_form.specs.Told.{HoldConditions, ToldChoose};
ghost use Rattle.cf_form.specs.ToldView.{told_branch, told_choose};
ghost use Rattle.cf_match.specs.Matches.{MatchTree, match_tree};
ghost use Rattle.cf_tree.specs.ChooseTree.{ChooseTree};
ghost use Rattle.cf_tree.specs.RelView.{rel_tree};
ghost use Rattle.cf_choose.specs.Solved.{IsOutput};
ghost use Rattle.cf_build.specs.Solves.{AreSolved};
ghost use Rattle.cf_warn.specs.Classes.{AreClasses};
ghost use Rattle.cf_warn.specs.Questions.{parameters as the_parameters};
ghost use Rattle.cf_answer.specs.Checking.{AreMatches, AddsAsked, AddsBehindArm, AddsBeside, AddsBesideArm, AddsCheck, AddsCheckBehind, AddsCover, AddsExistence, AddsTold};
ghost use Rattle.cf_answer.specs.Checking.{AddsUniqueness, AddsWritten, AreProgramChecks, asked_view};
ghost use Rattle.cf_answer.specs.Checks.{AreBehindMatch, AreChecksBehind, IsArm, IsMatch, IsOwn, cover_line, existence_text, names_at, uniqueness_text};
ghost use Rattle.cf_answer.specs.Owed.{AreChecks, AreSourceChecks};
ghost use Rattle.cf_answer.specs.Fronts.{File as TheFile};
ghost use Rattle.cf_answer.specs.FrontView.{file_view, notes_view};
ghost use Rattle.cf_answer.specs.Refusals.{IsRefusedSource};
ghost use Rattle.cf_answer.specs.Sources.{IsLoweredSource};
ghost use Rattle.cf_answer.specs.Steps.{IsCheckedSource, IsVerdict};
ghost use Rattle.cf_answer.specs.Tells.{TellsExistence, TellsNever, arm_branch};
ghost use Rattle.cf_answer.specs.Unmet.{answered, nothing_unmet as the_nothing_unmet, one_no};
ghost use Rattle.cf_answer.specs.Texts.{numbered_line};
ghost use Rattle.cf_answer.specs.ToldChecks.{is_later_branch as is_later_branch_of, told_of as the_told_of};

use crate::beside::{beside_lines, put_tuples, unbounded_lines, unreached_lines};
use crate::choose_line::{put_head, put_line};
use crate::choose_origin::{Matches, Origin, arms_of, origin_of};
use crate::coverage::cover_in;
use crate::fault::Fault;
use crate::fronts::{File, Notes, notes_at, output_names, put_written};
use crate::source::{CheckedSource, read_checked, read_lowered};
use crate::told_check::{
    Asked, Telling, have_no_inputs, have_no_outputs, is_told, named_levels, told_existence,
    told_of, told_tuples, told_uniqueness,
};
use crate::unmet::{
    Answered, Unmet, end_of, none_answered, nothing_answered, nothing_unmet, unmet_cover,
    unmet_existence, unmet_for, unmet_uniqueness, with_answered,
};
use crate::verdict::{put_cover, put_existence, put_uniqueness};
use crate::write::write_text;
use cf_build::{SolvedChoose, solve_all};
use cf_form::{Branch, ChooseInfo};
use cf_io::Sink;
use cf_lex::edition_of;
use cf_match::{Class, Lowered, MatchInfo, lower};
use cf_tree::{Edition, NoMemory, Rel, without};
use cf_warn::{
    Cover, ExistenceAnswer, UniquenessAnswer, existence, parameters, tuple_count, uniqueness,
};
use cf_words::Strictness;
use std::alloc::Global;

// The lines of a source, and what they answer.
#[derive(Drop)]
struct AnsweredText {
    text: Vec<u8>,
    answered: Answered,
}

fn put_existence_line(
    text: &mut Vec<u8>,
    choose: &SolvedChoose<'_>,
    levels: &[u32],
    answer: &ExistenceAnswer,
) -> Result<(), NoMemory>
    ensures { OnOk result (text.new.items ≡ text.old.items ++ numbered_line choose.now.choose.number
        (existence_text (names_at (names_of choose.now.choose.scope.now) levels.now) answer.now)) }
{
    put_head(text, b"choose ".as_slice(), choose.choose.number)?;
    put_existence(text, choose.choose.scope, levels, answer)?;
    text.push(b'\n')?;
    Ok(())
}

fn put_uniqueness_line(
    text: &mut Vec<u8>,
    choose: &SolvedChoose<'_>,
    levels: &[u32],
    answer: &UniquenessAnswer,
) -> Result<(), NoMemory>
    ensures { OnOk result (text.new.items ≡ text.old.items ++ numbered_line choose.now.choose.number
        (uniqueness_text (names_at (names_of choose.now.choose.scope.now) levels.now) answer.now)) }
{
    put_head(text, b"choose ".as_slice(), choose.choose.number)?;
    put_uniqueness(text, choose.choose.scope, levels, answer)?;
    text.push(b'\n')?;
    Ok(())
}

fn put_cover_line(text: &mut Vec<u8>, number: u32, answer: &Cover) -> Result<(), NoMemory>
    ensures { OnOk result (text.new.items ≡ text.old.items ++ cover_line number answer.now) }
{
    put_head(text, b"match ".as_slice(), number)?;
    put_cover(text, answer)?;
    text.push(b'\n')?;
    Ok(())
}

// Asks whether outputs of a choose always exist, and adds the line.
fn check_existence(
    alloc: Global,
    choose: &SolvedChoose<'_>,
    levels: &[u32],
    text: &mut Vec<u8>,
) -> Result<Unmet, NoMemory>
    ensures { IfOk result (AddsExistence choose.now levels.now text.old.items text.new.items) }
{
    let answer = existence(alloc, &choose.solved)?;
    put_existence_line(text, choose, levels, &answer)?;
    Ok(unmet_existence(&answer))
}

// Asks whether they are the only ones, and adds the line.
fn check_uniqueness(
    alloc: Global,
    choose: &SolvedChoose<'_>,
    levels: &[u32],
    text: &mut Vec<u8>,
) -> Result<Unmet, NoMemory>
    ensures { IfOk result (AddsUniqueness choose.now levels.now text.old.items text.new.items) }
{
    let answer = uniqueness(alloc, &choose.solved, choose.solved.outputs().len())?;
    put_uniqueness_line(text, choose, levels, &answer)?;
    Ok(unmet_uniqueness(&answer))
}

// Asks whether the arms of a match cover all numbers, and adds the line.
fn check_cover(
    alloc: Global,
    edition: Edition,
    number: u32,
    info: &MatchInfo,
    text: &mut Vec<u8>,
) -> Result<Unmet, NoMemory>
    requires { AreClasses info.now.classes.items }
    ensures { IfOk result (AddsCover edition number info.now.classes.items text.old.items text.new.items) }
{
    let answer = cover_in(alloc, edition, &info.classes)?;
    put_cover_line(text, number, &answer)?;
    Ok(unmet_cover(&answer))
}

// Adds the lines of a choose of the source of which nothing is told.
fn check_choose(
    alloc: Global,
    choose: &SolvedChoose<'_>,
    text: &mut Vec<u8>,
) -> Result<Answered, NoMemory>
    ensures { IfOk result (λ a. (file : TheFile) (matches : List MatchTree) (told : List ToldChoose) → IsOwn matches choose.now.choose.number →
        the_told_of told choose.now.choose.number ≡ None → AddsCheck file matches told choose.now text.old.items text.new.items a) }
{
    let levels = parameters(alloc, &choose.solved)?;
    let exists = check_existence(alloc, choose, &levels, text)?;
    let unique = check_uniqueness(alloc, choose, &levels, text)?;
    Ok(Answered {
        existence: exists,
        uniqueness: unique,
    })
}

// Adds the one line that says of all inputs of a choose that there are no outputs.
fn only_line(text: &mut Vec<u8>, number: u32, words: &[u8]) -> Result<Answered, NoMemory>
    ensures { IfOk result (λ a. (a ≡ answered one_no the_nothing_unmet) × (text.new.items ≡ text.old.items ++ numbered_line number words.now)) }
{
    put_line(text, number, words)?;
    Ok(none_answered())
}

// Adds the lines beside the answers on a choose of which this is told.
fn put_beside(
    alloc: Global,
    notes: &Notes<'_>,
    number: u32,
    asked: &Asked<'_>,
    branches: &[Branch],
    text: &mut Vec<u8>,
) -> Result<(), NoMemory>
    requires { All IsOutput asked.now.outputs.now }
    ensures { OnOk result (AddsBeside (asked_view asked.now) (map told_branch branches.now) (notes_view notes.now) number text.old.items text.new.items) }
{
    let lines = beside_lines(alloc, asked, branches, number, notes)?;
    text.extend_from_slice(&lines)?;
    let tuples = told_tuples(alloc, asked, branches)?;
    put_tuples(text, number, tuples)
}

// Adds the lines of a choose of which this is told, and those beside them, where this is answered on
// existence.
fn check_answers(
    alloc: Global,
    notes: &Notes<'_>,
    choose: &SolvedChoose<'_>,
    asked: &Asked<'_>,
    branches: &[Branch],
    exists: &ExistenceAnswer,
    text: &mut Vec<u8>,
) -> Result<Answered, NoMemory>
    requires outputs { All IsOutput asked.now.outputs.now }
    requires exists { TellsExistence (asked_view asked.now) (map told_branch branches.now) exists.now }
    ensures { IfOk result (AddsAsked choose.now (asked_view asked.now) (map told_branch branches.now) (notes_view notes.now) text.old.items text.new.items) }
{
    put_existence_line(text, choose, asked.levels, exists)?;
    let unique = told_uniqueness(alloc, asked, branches)?;
    put_uniqueness_line(text, choose, asked.levels, &unique)?;
    put_beside(alloc, notes, choose.choose.number, asked, branches, text)?;
    Ok(Answered {
        existence: unmet_existence(exists),
        uniqueness: unmet_uniqueness(&unique),
    })
}

// Whether a search finds that no inputs have outputs. It is looked for behind a sample that has none, which
// names an input.
fn is_never(
    alloc: Global,
    asked: &Asked<'_>,
    branches: &[Branch],
    exists: &ExistenceAnswer,
) -> Result<bool, NoMemory>
    ensures { IfOk result (λ b. b ≡ true → TellsNever (asked_view asked.now) (map told_branch branches.now)) }
{
    if asked.levels.is_empty() {
        return Ok(false);
    }
    match exists {
        ExistenceAnswer::Missing(_) => have_no_outputs(alloc, asked, branches),
        ExistenceAnswer::Always | ExistenceAnswer::Undecided(_) => Ok(false),
    }
}

// Adds the lines of a choose of which this is told, whose conditions may hold.
fn check_inputs(
    alloc: Global,
    notes: &Notes<'_>,
    choose: &SolvedChoose<'_>,
    asked: &Asked<'_>,
    branches: &[Branch],
    text: &mut Vec<u8>,
) -> Result<Answered, NoMemory>
    requires { All IsOutput asked.now.outputs.now }
    ensures { IfOk result (AddsAsked choose.now (asked_view asked.now) (map told_branch branches.now) (notes_view notes.now) text.old.items text.new.items) }
{
    let exists = told_existence(alloc, asked, branches)?;
    match is_never(alloc, asked, branches, &exists) {
        Ok(true) => {
            drop(exists);
            only_line(
                text,
                choose.choose.number,
                b"no outputs for any inputs".as_slice(),
            )
        }
        Ok(false) => {
            let answered = check_answers(alloc, notes, choose, asked, branches, &exists, text);
            without(exists, answered)
        }
        Err(fault) => Err(without(exists, fault)),
    }
}

// Adds the lines of a choose of which this is told, by what is asked of it.
fn check_asked(
    alloc: Global,
    notes: &Notes<'_>,
    choose: &SolvedChoose<'_>,
    asked: &Asked<'_>,
    branches: &[Branch],
    text: &mut Vec<u8>,
) -> Result<Answered, NoMemory>
    requires { All IsOutput asked.now.outputs.now }
    ensures { IfOk result (AddsAsked choose.now (asked_view asked.now) (map told_branch branches.now) (notes_view notes.now) text.old.items text.new.items) }
{
    if have_no_inputs(alloc, asked, branches)? {
        return only_line(
            text,
            choose.choose.number,
            b"given holds for no inputs".as_slice(),
        );
    }
    check_inputs(alloc, notes, choose, asked, branches, text)
}

// Adds the lines of a choose of the source of which this is told, where this is noted.
fn check_told(
    alloc: Global,
    notes: &Notes<'_>,
    choose: &SolvedChoose<'_>,
    info: &ChooseInfo,
    text: &mut Vec<u8>,
) -> Result<Answered, NoMemory>
    ensures { IfOk result (AddsTold choose.now (told_choose info.now) (notes_view notes.now) text.old.items text.new.items) }
{
    let scope = choose.solved.scope();
    let levels = named_levels(alloc, scope.len(), info)?;
    let asked = Asked {
        scope,
        outputs: choose.solved.outputs(),
        shown: &info.outputs,
        levels: &levels,
    };
    check_asked(alloc, notes, choose, &asked, &info.branches, text)
}

// Adds the lines of a choose of the source, by what is told of it.
fn check_own(
    alloc: Global,
    file: &File<'_>,
    told: &[ChooseInfo],
    choose: &SolvedChoose<'_>,
    text: &mut Vec<u8>,
) -> Result<Answered, NoMemory>
    ensures { IfOk result (λ a. (matches : List MatchTree) → IsOwn matches choose.now.choose.number →
        AddsCheck (file_view file.now) matches (map told_choose told.now) choose.now text.old.items text.new.items a) }
{
    match told_of(told, choose.choose.number) {
        Telling::Told(info) => {
            let notes = notes_at(file, choose.choose.number);
            check_told(alloc, &notes, choose, info, text)
        }
        Telling::Nothing => check_choose(alloc, choose, text),
    }
}

// Adds the line of an arm.
fn check_arm(
    alloc: Global,
    matches: &Matches<'_>,
    choose: &SolvedChoose<'_>,
    text: &mut Vec<u8>,
) -> Result<Answered, NoMemory>
    requires { (m : MatchTree) × Contains (map match_tree matches.now.infos.now) m × IsArm m choose.now.choose.number }
    ensures { IfOk result (λ a. (told : List ToldChoose) →
        AddsCheck (file_view matches.now.file) (map match_tree matches.now.infos.now) told choose.now text.old.items text.new.items a) }
{
    let levels = parameters(alloc, &choose.solved)?;
    let unique = check_uniqueness(alloc, choose, &levels, text)?;
    put_behind_arm(alloc, &matches.file, choose, &levels, text)?;
    Ok(Answered {
        existence: nothing_unmet(),
        uniqueness: unique,
    })
}

// Adds what stands behind the line of an arm.
fn put_behind_arm(
    alloc: Global,
    file: &File<'_>,
    choose: &SolvedChoose<'_>,
    levels: &[u32],
    text: &mut Vec<u8>,
) -> Result<(), NoMemory>
    requires { levels.now ≡ the_parameters choose.now.solved.scope.items (rel_tree choose.now.solved.rel) }
    ensures { OnOk result (AddsBehindArm (file_view file.now) choose.now text.old.items text.new.items) }
{
    match file.edition {
        Edition::Two => Ok(()),
        Edition::Three => put_beside_arm(alloc, file, choose, levels, text),
    }
}

// The same in edition 3.
fn put_beside_arm(
    alloc: Global,
    file: &File<'_>,
    choose: &SolvedChoose<'_>,
    levels: &[u32],
    text: &mut Vec<u8>,
) -> Result<(), NoMemory>
    requires { levels.now ≡ the_parameters choose.now.solved.scope.items (rel_tree choose.now.solved.rel) }
    ensures { OnOk result (AddsBesideArm (file_view file.now) choose.now text.old.items text.new.items) }
{
    let asked = Asked {
        scope: choose.solved.scope(),
        outputs: choose.solved.outputs(),
        shown: choose.solved.outputs(),
        levels,
    };
    let branches = arm_branches(alloc, choose.solved.relation())?;
    let number = choose.choose.number;
    let names = output_names(file, number);
    let lines = unbounded_lines(alloc, &asked, &branches, number, names)?;
    text.extend_from_slice(&lines)?;
    let tuples = tuple_count(&choose.solved)?;
    put_tuples(text, number, tuples)
}

// The relation of an arm as the one branch of a choose.
fn arm_branches(alloc: Global, rel: &Rel) -> Result<Vec<Branch>, NoMemory>
    ensures { IfOk result (λ bs. map told_branch bs.items ≡ arm_branch (rel_tree rel.now) ∷ []) }
{
    let relation = rel.try_copy(alloc)?;
    let mut branches = Vec::new(alloc);
    branches.push(Branch {
        truths: Vec::new(alloc),
        relation,
        given: None,
    })?;
    Ok(branches)
}

// Adds the line of a match.
fn check_match(
    alloc: Global,
    matches: &Matches<'_>,
    info: &MatchInfo,
    choose: &SolvedChoose<'_>,
    text: &mut Vec<u8>,
) -> Result<Answered, NoMemory>
    requires among { Contains (map match_tree matches.now.infos.now) (match_tree info.now) }
    requires number { IsMatch (match_tree info.now) choose.now.choose.number }
    requires classes { AreClasses info.now.classes.items }
    ensures { IfOk result (λ a. (told : List ToldChoose) →
        AddsCheck (file_view matches.now.file) (map match_tree matches.now.infos.now) told choose.now text.old.items text.new.items a) }
{
    let edition = matches.file.edition;
    let covered = check_cover(alloc, edition, choose.choose.number, info, text)?;
    put_behind_match(alloc, edition, choose.choose.number, &info.classes, text)?;
    Ok(Answered {
        existence: covered,
        uniqueness: nothing_unmet(),
    })
}

// Adds what stands behind the line of a match.
fn put_behind_match(
    alloc: Global,
    edition: Edition,
    number: u32,
    classes: &[Class],
    text: &mut Vec<u8>,
) -> Result<(), NoMemory>
    ensures { OnOk result ((more : List ℕ) × AreBehindMatch edition number classes.now more × (text.new.items ≡ text.old.items ++ more)) }
{
    match edition {
        Edition::Two => Ok(()),
        Edition::Three => {
            let lines = unreached_lines(alloc, number, classes)?;
            text.extend_from_slice(&lines)?;
            Ok(())
        }
    }
}

// Adds the lines of a choose, by what its number is of.
fn check_number(
    alloc: Global,
    matches: &Matches<'_>,
    told: &[ChooseInfo],
    choose: &SolvedChoose<'_>,
    text: &mut Vec<u8>,
) -> Result<Answered, NoMemory>
    requires { AreMatches matches.now.infos.now matches.now.arms.now }
    ensures { IfOk result
        (AddsCheck (file_view matches.now.file) (map match_tree matches.now.infos.now) (map told_choose told.now) choose.now text.old.items text.new.items) }
{
    match origin_of(matches, choose.choose.number) {
        Origin::Choose => check_own(alloc, &matches.file, told, choose, text),
        Origin::Arm => check_arm(alloc, matches, choose, text),
        Origin::Match(info) => check_match(alloc, matches, info, choose, text),
    }
}

// Adds the lines of a choose behind one of number `before`; a later branch of that has none.
#[tactic(auto, using(crate::proofs::CheckLemmas::later_checked, crate::proofs::CheckLemmas::first_checked))]
fn check_next(
    alloc: Global,
    matches: &Matches<'_>,
    told: &[ChooseInfo],
    before: u32,
    choose: &SolvedChoose<'_>,
    text: &mut Vec<u8>,
) -> Result<Answered, NoMemory>
    requires { AreMatches matches.now.infos.now matches.now.arms.now }
    ensures { IfOk result
        (AddsCheckBehind (file_view matches.now.file) (map match_tree matches.now.infos.now) (map told_choose told.now) before choose.now text.old.items text.new.items) }
{
    if is_later_branch(told, before, choose.choose.number) {
        return Ok(nothing_answered());
    }
    check_number(alloc, matches, told, choose, text)
}

// Adds what is written of the lines of a choose behind one of number `before`.
fn put_checked(
    alloc: Global,
    matches: &Matches<'_>,
    told: &[ChooseInfo],
    before: u32,
    choose: &SolvedChoose<'_>,
    text: &mut Vec<u8>,
) -> Result<Answered, NoMemory>
    requires { AreMatches matches.now.infos.now matches.now.arms.now }
    ensures { IfOk result
        (AddsWritten (file_view matches.now.file) (map match_tree matches.now.infos.now) (map told_choose told.now) before choose.now text.old.items text.new.items) }
{
    let mut lines = Vec::new(alloc);
    let answered = check_next(alloc, matches, told, before, choose, &mut lines)?;
    put_written(alloc, text, &matches.file, choose.choose.number, &lines)?;
    Ok(answered)
}

fn is_later_branch(told: &[ChooseInfo], before: u32, number: u32) -> bool
    ensures { result ≡ is_later_branch_of (map told_choose told.now) before number }
{
    number == before && is_told(told, number)
}

// The lines of solved chooses in order.
fn check_each(
    alloc: Global,
    matches: &Matches<'_>,
    told: &[ChooseInfo],
    chooses: &[SolvedChoose<'_>],
) -> Result<AnsweredText, NoMemory>
    requires { AreMatches matches.now.infos.now matches.now.arms.now }
    ensures { IfOk result (λ c. (qs : List ChooseTree) → AreSolved qs chooses.now → HoldConditions (map told_choose told.now) →
        AreChecksBehind (file_view matches.now.file) (map match_tree matches.now.infos.now) (map told_choose told.now) 0 qs c.text.items c.answered) }
{
    let mut text = Vec::new(alloc);
    let mut answered = nothing_answered();
    let mut before: u32 = 0;
    for choose in chooses {
        let more = put_checked(alloc, matches, told, before, choose, &mut text)?;
        answered = with_answered(&answered, &more)?;
        before = choose.choose.number;
    }
    Ok(AnsweredText { text, answered })
}

// The lines of solved chooses in order, in a program that was made of one of this source with these matches.
fn lines(
    alloc: Global,
    file: &File<'_>,
    infos: &[MatchInfo],
    told: &[ChooseInfo],
    chooses: &[SolvedChoose<'_>],
) -> Result<AnsweredText, NoMemory>
    requires order { IsNonDecreasingBy (λ m. m.number) infos.now }
    requires classes { All (λ m. AreClasses m.classes.items) infos.now }
    ensures { IfOk result (λ c. (qs : List ChooseTree) → AreSolved qs chooses.now → HoldConditions (map told_choose told.now) →
        AreChecksBehind (file_view file.now) (map match_tree infos.now) (map told_choose told.now) 0 qs c.text.items c.answered) }
{
    let arms = arms_of(alloc, infos)?;
    let matches = Matches {
        file: *file,
        infos,
        arms: &arms,
    };
    check_each(alloc, &matches, told, chooses)
}

// The lines of the chooses and matches of a program of this source in the order of their numbers, where
// this is told of its chooses, or the choose for which it is refused.
fn checks(
    alloc: Global,
    file: &File<'_>,
    lowered: &Lowered,
    told: &[ChooseInfo],
) -> Result<AnsweredText, Fault>
    requires { All (λ m. AreClasses m.classes.items) lowered.now.matches.items }
    ensures { (source : List ℕ) (s : IsLoweredSource source lowered.now) → HoldConditions (map told_choose told.now) →
        IsVerdict (λ c. AreChecks (file_view file.now) (map told_choose told.now) s.typed c.text.items c.answered) (IsRefusedSource source) result }
{
    let chooses = solve_all(alloc, lowered.typed())?;
    let checks = lines(alloc, file, lowered.matches(), told, &chooses)?;
    Ok(checks)
}

// The lines of a source of language 2 in a file of this name, of whose chooses nothing is told.
fn checks_in_two(alloc: Global, name: &[u8], text: &[u8]) -> Result<AnsweredText, Fault>
    requires short { length text.now ≤ text_limit }
    requires place { length text.now < 2 ^ 32 - 1 }
    requires edition { the_edition_of text.now ≡ Two }
    ensures { IsVerdict (λ c. AreSourceChecks name.now text.now c.text.items c.answered) (IsRefusedSource text.now) result }
{
    let lowered = read_lowered(alloc, text)?;
    let file = File {
        edition: Edition::Two,
        name,
        spots: &[],
    };
    let checks = checks(alloc, &file, &lowered, &[])?;
    Ok(checks)
}

// The lines of a source of edition 3 in a file of this name.
fn checks_in_three(alloc: Global, name: &[u8], text: &[u8]) -> Result<AnsweredText, Fault>
    requires short { length text.now ≤ text_limit }
    requires place { length text.now < 2 ^ 32 - 1 }
    requires edition { the_edition_of text.now ≡ Three }
    ensures { IsVerdict (λ c. AreSourceChecks name.now text.now c.text.items c.answered) (IsRefusedSource text.now) result }
{
    let source = read_checked(alloc, name, text)?;
    let checks = checks_of_program(alloc, name, &source)?;
    let more = with_unused(checks, &source.unused)?;
    Ok(more)
}

// The lines of the chooses and matches of a program of edition 3.
fn checks_of_program(
    alloc: Global,
    name: &[u8],
    source: &CheckedSource,
) -> Result<AnsweredText, Fault>
    ensures { (text : List ℕ) → IsCheckedSource name.now text source.now → the_edition_of text ≡ Three →
        IsVerdict (λ c. AreProgramChecks name.now text source.now c) (IsRefusedSource text) result }
{
    let typed = source.formed.typed();
    // for the proof: the rules of a typed program are told by its methods alone.
    let _ = typed.main();
    let lowered = lower(alloc, typed)?;
    let file = File {
        edition: Edition::Three,
        name,
        spots: &source.spots,
    };
    let checks = checks(alloc, &file, &lowered, source.formed.chooses())?;
    Ok(checks)
}

// The same with these lines behind them.
fn with_unused(checks: AnsweredText, unused: &[u8]) -> Result<AnsweredText, NoMemory>
    ensures { IfOk result (λ c. (c.text.items ≡ checks.text.items ++ unused.now) × (c.answered ≡ checks.answered)) }
{
    let AnsweredText { text, answered } = checks;
    let mut all = text;
    match all.extend_from_slice(unused) {
        Ok(()) => Ok(AnsweredText {
            text: all,
            answered,
        }),
        Err(_) => Err(without(all, NoMemory)),
    }
}

fn checks_of(alloc: Global, name: &[u8], text: &[u8]) -> Result<AnsweredText, Fault>
    requires short { length text.now ≤ text_limit }
    requires place { length text.now < 2 ^ 32 - 1 }
    ensures { IsVerdict (λ c. AreSourceChecks name.now text.now c.text.items c.answered) (IsRefusedSource text.now) result }
{
    match edition_of(text) {
        Edition::Two => checks_in_two(alloc, name, text),
        Edition::Three => checks_in_three(alloc, name, text),
    }
}

/// Writes for each choose of a source text in a file of this name whether outputs always exist and whether
/// they are the only ones, and for each match whether its arms cover all numbers. In edition 3 each line
/// begins with the name and a place, and there are lines on what else is amiss.
///
/// # Errors
/// Behind all that is written, where so much is asked of the answers: `AnswersNo` where some are no, else
/// `AnswersUndecided` where some are undecided. Before it those for which the source is refused; `Output`
/// and `NoMemory`.
pub fn write_checks<O: Sink>(
    alloc: Global,
    strictness: Strictness,
    name: &[u8],
    text: &[u8],
    out: &mut O,
) -> Result<(), Fault>
    requires short { length text.now ≤ text_limit }
    requires place { length text.now < 2 ^ 32 - 1 }
    ensures answers { (given : List Told) (input : SourceSeen) → AnswersOn (the_check strictness name.now) given given (text.now ∷ [])
        (streams input (O.seen out.old)) (streams input (O.seen out.new)) result }
    ensures unwritten { IsEarly (the_status_of result) → out.new ≡ out.old }
{
    let checks = checks_of(alloc, name, text)?;
    let unmet = unmet_for(strictness, &checks.answered)?;
    write_text(out, &checks.text)?;
    end_of(&unmet)
}
