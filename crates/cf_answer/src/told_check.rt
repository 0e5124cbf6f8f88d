//! What `check` asks of a choose that is told of, branch by branch.
ghost use Rattle.std.specs.Prelude.{◌≡◌, ◌≢◌, ◌<◌, ◌+◌, ◌||◌, ℕ, true, false, int_lt, pos, All, IfOk, Option, Some, None, [], length, map, max, slice_get};
ghost use Rattle.cf_tree.specs.Occurs.{rel_holds as rel_holds_of};
ghost use Rattle.cf_tree.specs.RelTree.{rel_not, rel_or};
ghost use Rattle.cf_tree.specs.RelView.{rel_tree};
ghost use Rattle.cf_tree.specs.Values.{number_of};
ghost use Rattle.cf_eval.specs.Seen.{plain, plains};
ghost use Rattle.cf_form.specs.Branches.{is_among as is_among_of, is_truth as is_truth_base_of, values_in};
ghost use Rattle.cf_form.specs.Told.{HoldsCondition};
ghost use Rattle.cf_form.specs.ToldView.{given_tree, told_branch, told_choose, truth_at};
ghost use Rattle.cf_choose.specs.Solved.{IsOutput, SolveAnswer};
ghost use Rattle.cf_advice.specs.Bounds.{IsUnbounded};
ghost use Rattle.cf_read.specs.Reading.{NeverHolds};
ghost use Rattle.cf_tree.specs.declared.base.Base.TheVariants.{Int};
ghost use Rattle.cf_warn.specs.Missing.{tuple_count};
ghost use Rattle.cf_warn.specs.Questions.{base_at as the_base_at};
ghost use Rattle.cf_warn.specs.declared.answer.ExistenceAnswer.TheVariants.{Always};
ghost use Rattle.cf_warn.specs.declared.answer.UniquenessAnswer.TheVariants.{Unique};
ghost use Rattle.cf_answer.specs.ToldChecks.{ComeTo, IsBranchExistence, IsBranchUniqueness, NamesExistence, NamesUniqueness};
ghost use Rattle.cf_answer.specs.ToldChecks.{at_rest as at_rest_of, beside, condition_holds as condition_holds_of, existence_question as question_of};
ghost use Rattle.cf_answer.specs.ToldChecks.{first_existence as first_existence_of, first_uniqueness as first_uniqueness_of};
ghost use Rattle.cf_answer.specs.ToldChecks.{is_told as is_told_of, named_levels as named_levels_of};
ghost use Rattle.cf_answer.specs.ToldChecks.{shown_value as shown_value_of, shown_values as shown_values_of, some_condition_holds as some_condition_holds_of};
ghost use Rattle.cf_answer.specs.ToldChecks.{told_of as the_told_of, truth_or};
ghost use Rattle.cf_answer.specs.Tells.{are_truths as are_truths_of, is_named as is_named_of, is_truth as is_truth_of};
ghost use Rattle.cf_answer.specs.Tells.{HasNoInputs, TellsNever, TellsNoInputs, TellsUnbounded, most_tuples};
ghost use Rattle.cf_answer.specs.Tells.{Fits, IsCondition, IsOfTwo, TellsExistence, TellsExistenceIn, TellsUniqueness, TellsUniquenessIn, same_values};
ghost use Rattle.cf_answer.specs.Checking.{IsExistenceOf, IsRefusedExistence, IsRefusedUniqueness, IsUniquenessOf, asked_view, named_by, telling_view};

use cf_advice::nothing_bounds;
use cf_choose::{ChooseFault, Solved, solve};
use cf_decide::{Effort, decide_existence, decide_uniqueness, never_holds};
use cf_eval::{Value, compare};
use cf_form::{Branch, ChooseInfo, TruthAt};
use cf_set::Set;
use cf_setwit::push_if;
use cf_tree::{Base, NoMemory, Order, Rel, add_u32, rel_holds, to_u32, without};
use cf_warn::{Doubt, ExistenceAnswer, UniquenessAnswer, is_over, parameters, tuple_count};
use std::alloc::Global;

// What is asked of each branch: the bases of the scope, of all outputs, and of those that are given
// out, and the levels that samples name.
#[derive(Clone, Copy)]
pub(crate) struct Asked<'a> {
    pub(crate) scope: &'a [Base],
    pub(crate) outputs: &'a [Base],
    pub(crate) shown: &'a [Base],
    pub(crate) levels: &'a [u32],
}

// ---- which choose is told of
// What is told of a choose.
#[derive(Clone, Copy)]
pub(crate) enum Telling<'a> {
    Nothing,
    Told(&'a ChooseInfo),
}

/// What is told of the choose of this number.
pub(crate) fn told_of(told: &[ChooseInfo], number: u32) -> Telling<'_>
    ensures { telling_view result ≡ the_told_of (map told_choose told.now) number }
{
    let mut rest = told;
    while let Some((choose, more)) = rest.split_first() {
        if choose.number == number {
            return Telling::Told(choose);
        }
        rest = more;
    }
    Telling::Nothing
}

/// Whether something is told of the choose of this number.
pub(crate) fn is_told(told: &[ChooseInfo], number: u32) -> bool
    ensures { result ≡ is_told_of (map told_choose told.now) number }
{
    let mut rest = told;
    while let Some((choose, more)) = rest.split_first() {
        if choose.number == number {
            return true;
        }
        rest = more;
    }
    false
}

// ---- samples
/// The levels that samples of a choose name, where so many variables are in scope.
pub(crate) fn named_levels(
    alloc: Global,
    scope: usize,
    told: &ChooseInfo,
) -> Result<Vec<u32>, NoMemory>
    ensures { IfOk result (λ xs. xs.items ≡ named_levels_of scope (told_choose told.now)) }
{
    let end = to_u32(scope)?;
    let mut levels = Vec::new(alloc);
    for level in 0..end {
        push_if(&mut levels, is_named(told, level), level)?;
    }
    Ok(levels)
}

fn is_named(told: &ChooseInfo, level: u32) -> bool
    ensures { result ≡ is_among_of level told.now.parameters.items || some_condition_holds_of level (map told_branch told.now.branches.items) }
{
    is_among(level, &told.parameters) || some_condition_holds(level, &told.branches)
}

fn is_among(level: u32, levels: &[u32]) -> bool
    ensures { result ≡ is_among_of level levels.now }
{
    let mut rest = levels;
    while let Some((first, more)) = rest.split_first() {
        if level == *first {
            return true;
        }
        rest = more;
    }
    false
}

fn some_condition_holds(level: u32, branches: &[Branch]) -> bool
    ensures { result ≡ some_condition_holds_of level (map told_branch branches.now) }
{
    let mut rest = branches;
    while let Some((branch, more)) = rest.split_first() {
        if condition_holds(level, &branch.given) {
            return true;
        }
        rest = more;
    }
    false
}

fn condition_holds(level: u32, given: &Option<Rel>) -> bool
    ensures { result ≡ condition_holds_of level (given_tree given.now) }
{
    match given {
        None => false,
        Some(condition) => rel_holds(condition, level),
    }
}

// What a sample names for each level.
fn named_sample(
    alloc: Global,
    asked: &Asked<'_>,
    truths: &[TruthAt],
    params: &[u32],
    sample: &[Value],
) -> Result<Vec<Value>, NoMemory>
    ensures { IfOk result (λ vs. plains vs.items ≡ map (λ x. truth_or (values_in (map truth_at truths.now) x)
        (beside params.now (plains sample.now) x (at_rest_of (the_base_at asked.now.scope.now x)))) asked.now.levels.now) }
{
    let mut values = Vec::new(alloc);
    let mut rest = asked.levels;
    while let Some((level, more)) = rest.split_first() {
        values.push(named_value(alloc, asked.scope, truths, params, sample, *level)?)?;
        rest = more;
    }
    Ok(values)
}

fn named_value(
    alloc: Global,
    scope: &[Base],
    truths: &[TruthAt],
    params: &[u32],
    sample: &[Value],
    level: u32,
) -> Result<Value, NoMemory>
    ensures { IfOk result (λ v. plain v ≡ truth_or (values_in (map truth_at truths.now) level)
        (beside params.now (plains sample.now) level (at_rest_of (the_base_at scope.now level)))) }
{
    match truth_of(truths, level) {
        Some(truth) => Ok(Value::Truth(truth)),
        None => value_beside(alloc, scope, params, sample, level),
    }
}

// The value of the truth variable of that level in a branch.
fn truth_of(truths: &[TruthAt], level: u32) -> Option<bool>
    ensures { result ≡ values_in (map truth_at truths.now) level }
{
    let mut rest = truths;
    while let Some((truth, more)) = rest.split_first() {
        if level == truth.level {
            return Some(truth.value);
        }
        rest = more;
    }
    None
}

// The value that stands beside the level, or else the one at rest.
fn value_beside(
    alloc: Global,
    scope: &[Base],
    params: &[u32],
    sample: &[Value],
    level: u32,
) -> Result<Value, NoMemory>
    ensures { IfOk result (λ v. plain v ≡ beside params.now (plains sample.now) level (at_rest_of (the_base_at scope.now level))) }
{
    let mut rest = params;
    let mut values = sample;
    while let Some((first, more)) = rest.split_first() {
        let Some((value, more_values)) = values.split_first() else {
            return at_rest(alloc, base_at(scope, level));
        };
        if level == *first {
            return value.try_copy(alloc);
        }
        rest = more;
        values = more_values;
    }
    at_rest(alloc, base_at(scope, level))
}

fn base_at(scope: &[Base], level: u32) -> Base
    ensures { result ≡ the_base_at scope.now level }
{
    match scope.get(level as usize) {
        Some(base) => *base,
        None => Base::Int,
    }
}

// What is named for a variable of which nothing is asked.
fn at_rest(alloc: Global, base: Base) -> Result<Value, NoMemory>
    ensures { IfOk result (λ v. plain v ≡ at_rest_of base) }
{
    match base {
        Base::Int => Ok(Value::Int(0)),
        Base::Bool => Ok(Value::Truth(false)),
        Base::Set => Ok(Value::Elements(Set::from_list(alloc, &[])?)),
    }
}

// ---- outputs
// The outputs that are given out, without the hidden ones behind them.
fn shown_values(alloc: Global, shown: &[Base], outputs: &[Value]) -> Result<Vec<Value>, NoMemory>
    ensures { IfOk result (λ vs. plains vs.items ≡ shown_values_of shown.now (plains outputs.now)) }
{
    let mut values = Vec::new(alloc);
    let mut rest = shown;
    let mut behind = outputs;
    while let Some((base, more)) = rest.split_first() {
        let Some((value, more_values)) = behind.split_first() else {
            return Ok(values);
        };
        values.push(shown_value(alloc, *base, value)?)?;
        rest = more;
        behind = more_values;
    }
    Ok(values)
}

fn shown_value(alloc: Global, base: Base, value: &Value) -> Result<Value, NoMemory>
    ensures { IfOk result (λ v. plain v ≡ shown_value_of base (plain value.now)) }
{
    match base {
        Base::Bool => Ok(Value::Truth(is_positive(value))),
        Base::Int | Base::Set => value.try_copy(alloc),
    }
}

fn is_positive(value: &Value) -> bool
    ensures { result ≡ int_lt (pos 0) (number_of (plain value.now)) }
{
    match value {
        Value::Int(number) => 0 < *number,
        Value::Truth(_) | Value::Elements(_) => false,
    }
}

// ---- the questions of a branch
// The relation that has no solution exactly where the condition of a branch holds and its relation has none.
fn existence_question(alloc: Global, branch: &Branch) -> Result<Rel, NoMemory>
    ensures { IfOk result (λ r. rel_tree r ≡ question_of (told_branch branch.now)) }
{
    match &branch.given {
        None => branch.relation.try_copy(alloc),
        Some(given) => unless(alloc, given, &branch.relation),
    }
}

// That the condition fails or the relation holds.
fn unless(alloc: Global, given: &Rel, relation: &Rel) -> Result<Rel, NoMemory>
    ensures { IfOk result (λ r. rel_tree r ≡ rel_or (rel_not (rel_tree given.now)) (rel_tree relation.now)) }
{
    let condition = Box::new(alloc, given.try_copy(alloc)?)?;
    let fails = Box::new(alloc, Rel::Not(condition))?;
    match relation.try_copy(alloc) {
        Ok(relation) => Ok(Rel::Or(fails, Box::new(alloc, relation)?)),
        Err(fault) => Err(without(fails, fault)),
    }
}

// The relation solved as a choose. One that is not linear over these bases is want of memory; each that
// is told is.
fn solved_over(alloc: Global, asked: &Asked<'_>, rel: &Rel) -> Result<Solved, ChooseFault>
    requires { All IsOutput asked.now.outputs.now }
    ensures { SolveAnswer asked.now.scope.now asked.now.outputs.now (rel_tree rel.now) result }
{
    let mut bases = match Vec::from_slice(alloc, asked.scope) {
        Ok(bases) => bases,
        Err(_) => return Err(ChooseFault::NoMemory),
    };
    if bases.extend_from_slice(asked.outputs).is_err() || !is_over(&bases, rel) {
        return Err(ChooseFault::NoMemory);
    }
    solve(alloc, asked.scope, asked.outputs, rel)
}

// Whether each input for which the condition holds has a solution in this branch.
fn branch_existence(
    alloc: Global,
    asked: &Asked<'_>,
    branch: &Branch,
    effort: Effort,
) -> Result<ExistenceAnswer, NoMemory>
    requires { All IsOutput asked.now.outputs.now }
    ensures { IfOk result (IsBranchExistence (asked_view asked.now) (told_branch branch.now)) }
{
    let rel = existence_question(alloc, branch)?;
    let solved = solved_over(alloc, asked, &rel);
    drop(rel);
    match solved {
        Ok(solved) => named_existence(alloc, asked, &branch.truths, &solved, effort),
        Err(fault) => refused_existence(fault),
    }
}

fn refused_existence(fault: ChooseFault) -> Result<ExistenceAnswer, NoMemory>
    ensures { IfOk result (IsRefusedExistence fault) }
{
    match fault {
        ChooseFault::Refused(refusal) => Ok(ExistenceAnswer::Undecided(Doubt::Refused(refusal))),
        ChooseFault::NoMemory => Err(NoMemory),
    }
}

fn named_existence(
    alloc: Global,
    asked: &Asked<'_>,
    truths: &[TruthAt],
    solved: &Solved,
    effort: Effort,
) -> Result<ExistenceAnswer, NoMemory>
    requires { solved.now.scope.items ≡ asked.now.scope.now }
    ensures { IfOk result (λ told. (own : ExistenceAnswer) × IsExistenceOf solved.now own
        × NamesExistence (named_by asked.now truths.now solved.now) own told) }
{
    let params = parameters(alloc, solved)?;
    match decide_existence(alloc, solved, effort)? {
        ExistenceAnswer::Always => Ok(ExistenceAnswer::Always),
        ExistenceAnswer::Missing(sample) => {
            let named = named_sample(alloc, asked, truths, &params, &sample)?;
            Ok(ExistenceAnswer::Missing(named))
        }
        ExistenceAnswer::Undecided(doubt) => Ok(ExistenceAnswer::Undecided(doubt)),
    }
}

// Whether two solutions of this branch never differ in what is given out.
fn branch_uniqueness(
    alloc: Global,
    asked: &Asked<'_>,
    branch: &Branch,
    effort: Effort,
) -> Result<UniquenessAnswer, NoMemory>
    requires { All IsOutput asked.now.outputs.now }
    ensures { IfOk result (IsBranchUniqueness (asked_view asked.now) (told_branch branch.now)) }
{
    match solved_over(alloc, asked, &branch.relation) {
        Ok(solved) => named_uniqueness(alloc, asked, &branch.truths, &solved, effort),
        Err(fault) => refused_uniqueness(fault),
    }
}

fn refused_uniqueness(fault: ChooseFault) -> Result<UniquenessAnswer, NoMemory>
    ensures { IfOk result (IsRefusedUniqueness fault) }
{
    match fault {
        ChooseFault::Refused(refusal) => Ok(UniquenessAnswer::Undecided(Doubt::Refused(refusal))),
        ChooseFault::NoMemory => Err(NoMemory),
    }
}

fn named_uniqueness(
    alloc: Global,
    asked: &Asked<'_>,
    truths: &[TruthAt],
    solved: &Solved,
    effort: Effort,
) -> Result<UniquenessAnswer, NoMemory>
    requires { solved.now.scope.items ≡ asked.now.scope.now }
    ensures { IfOk result (λ told. (own : UniquenessAnswer) × IsUniquenessOf solved.now (length asked.now.shown.now) own
        × NamesUniqueness (named_by asked.now truths.now solved.now) asked.now.shown.now own told) }
{
    let params = parameters(alloc, solved)?;
    match decide_uniqueness(alloc, solved, asked.shown.len(), effort)? {
        UniquenessAnswer::Unique => Ok(UniquenessAnswer::Unique),
        UniquenessAnswer::Two {
            sample,
            first,
            second,
        } => {
            let sample = named_sample(alloc, asked, truths, &params, &sample)?;
            let first = shown_values(alloc, asked.shown, &first)?;
            let second = shown_values(alloc, asked.shown, &second)?;
            Ok(UniquenessAnswer::Two {
                sample,
                first,
                second,
            })
        }
        UniquenessAnswer::Undecided(doubt) => Ok(UniquenessAnswer::Undecided(doubt)),
    }
}

// ---- what the answers of a branch say
// Whether what is asked of a branch is of this scope: samples name its truth variables, and all variables
// of which its condition and its relation speak. Each branch that is told fits.
fn fits(asked: &Asked<'_>, branch: &Branch) -> bool
    ensures { result ≡ true → Fits (asked_view asked.now) (told_branch branch.now) }
{
    are_truths(asked, &branch.truths)
        && is_condition(asked.scope, &branch.given)
        && are_named(asked, branch)
}

// Whether these are truth variables of the scope that samples name.
fn are_truths(asked: &Asked<'_>, truths: &[TruthAt]) -> bool
    ensures { result ≡ are_truths_of (asked_view asked.now) (map truth_at truths.now) }
{
    let mut rest = truths;
    while let Some((truth, more)) = rest.split_first() {
        if !is_truth(asked, truth.level) {
            return false;
        }
        rest = more;
    }
    true
}

fn is_truth(asked: &Asked<'_>, level: u32) -> bool
    ensures { result ≡ is_truth_of (asked_view asked.now) level }
{
    is_truth_base(base_at(asked.scope, level)) && is_among(level, asked.levels)
}

fn is_truth_base(base: Base) -> bool
    ensures { result ≡ is_truth_base_of base }
{
    match base {
        Base::Bool => true,
        Base::Int | Base::Set => false,
    }
}

// Whether a condition speaks of variables in scope alone.
fn is_condition(scope: &[Base], given: &Option<Rel>) -> bool
    ensures { result ≡ true → IsCondition scope.now (given_tree given.now) }
{
    match given {
        None => true,
        Some(condition) => is_over(scope, condition),
    }
}

// Whether samples name all variables in scope of which the question of a branch speaks, and none of these
// is a truth variable.
fn are_named(asked: &Asked<'_>, branch: &Branch) -> bool
    ensures { result ≡ true → (x : ℕ) → x < length asked.now.scope.now → rel_holds_of x (question_of (told_branch branch.now)) ≡ true →
        is_named_of (asked_view asked.now) x ≡ true }
{
    match to_u32(asked.scope.len()) {
        Ok(end) => are_named_below(asked, branch, end),
        Err(_) => false,
    }
}

fn are_named_below(asked: &Asked<'_>, branch: &Branch, end: u32) -> bool
    ensures { result ≡ true → (x : ℕ) → x < end → rel_holds_of x (question_of (told_branch branch.now)) ≡ true →
        is_named_of (asked_view asked.now) x ≡ true }
{
    for level in 0..end {
        if !is_named_if_asked(asked, branch, level) {
            return false;
        }
    }
    true
}

fn is_named_if_asked(asked: &Asked<'_>, branch: &Branch, level: u32) -> bool
    ensures { result ≡ true → rel_holds_of level (question_of (told_branch branch.now)) ≡ true → is_named_of (asked_view asked.now) level ≡ true }
{
    if asks_of(branch, level) {
        is_named_value(asked, level)
    } else {
        true
    }
}

// Whether samples name the variable of this level, which is no truth variable.
fn is_named_value(asked: &Asked<'_>, level: u32) -> bool
    ensures { result ≡ is_named_of (asked_view asked.now) level }
{
    !is_truth_base(base_at(asked.scope, level)) && is_among(level, asked.levels)
}

fn asks_of(branch: &Branch, level: u32) -> bool
    ensures { result ≡ rel_holds_of level (question_of (told_branch branch.now)) }
{
    match &branch.given {
        None => rel_holds(&branch.relation, level),
        Some(condition) => rel_holds(condition, level) || rel_holds(&branch.relation, level),
    }
}

// What the answer of a branch says. For one that does not fit there is no memory.
fn existence_in(
    alloc: Global,
    asked: &Asked<'_>,
    branch: &Branch,
    effort: Effort,
) -> Result<ExistenceAnswer, NoMemory>
    requires { All IsOutput asked.now.outputs.now }
    ensures { IfOk result (TellsExistenceIn (asked_view asked.now) (told_branch branch.now)) }
{
    if !fits(asked, branch) {
        return Err(NoMemory);
    }
    branch_existence(alloc, asked, branch, effort)
}

// The same of uniqueness, where the condition is part of the relation. Where both are given out alike
// there is no memory; outputs that are told differ.
fn uniqueness_in(
    alloc: Global,
    asked: &Asked<'_>,
    branch: &Branch,
    effort: Effort,
) -> Result<UniquenessAnswer, NoMemory>
    requires { All IsOutput asked.now.outputs.now }
    ensures { IfOk result (λ u. HoldsCondition (told_branch branch.now) → TellsUniquenessIn (asked_view asked.now) (told_branch branch.now) u) }
{
    if !fits(asked, branch) {
        return Err(NoMemory);
    }
    let answer = branch_uniqueness(alloc, asked, branch, effort)?;
    if is_of_two(&answer) {
        Ok(answer)
    } else {
        Err(without(answer, NoMemory))
    }
}

// Whether the two of an answer differ, if it tells two.
fn is_of_two(answer: &UniquenessAnswer) -> bool
    ensures { result ≡ true → IsOfTwo answer.now }
{
    match answer {
        UniquenessAnswer::Two { first, second, .. } => differ(first, second),
        UniquenessAnswer::Unique => true,
        UniquenessAnswer::Undecided(_) => true,
    }
}

fn differ(first: &[Value], second: &[Value]) -> bool
    ensures { result ≡ true → plains first.now ≢ plains second.now }
{
    !are_same(first, second)
}

// Whether values are the same, one by one.
fn are_same(first: &[Value], second: &[Value]) -> bool
    ensures { result ≡ same_values (plains first.now) (plains second.now) }
{
    let mut left = first;
    let mut right = second;
    while let Some((value, more)) = left.split_first() {
        match right.split_first() {
            None => return false,
            Some((other, rest)) => {
                if !compare(Order::Eq, value, other) {
                    return false;
                }
                left = more;
                right = rest;
            }
        }
    }
    right.is_empty()
}

// ---- beside the answers
/// Whether a search finds that the conditions hold for no inputs.
///
/// # Errors
/// `NoMemory` where memory ran out.
pub(crate) fn have_no_inputs(
    alloc: Global,
    asked: &Asked<'_>,
    branches: &[Branch],
) -> Result<bool, NoMemory>
    ensures { IfOk result (λ b. b ≡ true → TellsNoInputs (asked_view asked.now) (map told_branch branches.now)) }
{
    let mut rest = branches;
    while let Some((branch, more)) = rest.split_first() {
        let never = has_no_inputs(alloc, asked, branch)?;
        if !never {
            return Ok(false);
        }
        rest = more;
    }
    Ok(true)
}

fn has_no_inputs(alloc: Global, asked: &Asked<'_>, branch: &Branch) -> Result<bool, NoMemory>
    ensures { IfOk result (λ b. b ≡ true → HasNoInputs (asked_view asked.now) (told_branch branch.now)) }
{
    match &branch.given {
        None => Ok(false),
        Some(condition) => fails_always(alloc, asked.scope, condition),
    }
}

// Whether a search finds that the condition never holds.
fn fails_always(alloc: Global, scope: &[Base], condition: &Rel) -> Result<bool, NoMemory>
    ensures { IfOk result (λ b. b ≡ true → NeverHolds [] scope.now (rel_tree condition.now)) }
{
    if !is_over(scope, condition) {
        return Ok(false);
    }
    never_holds(alloc, &[], scope, condition)
}

/// Whether a search finds that no inputs for which the conditions hold have outputs.
///
/// # Errors
/// `NoMemory` where memory ran out.
pub(crate) fn have_no_outputs(
    alloc: Global,
    asked: &Asked<'_>,
    branches: &[Branch],
) -> Result<bool, NoMemory>
    ensures { IfOk result (λ b. b ≡ true → TellsNever (asked_view asked.now) (map told_branch branches.now)) }
{
    let mut rest = branches;
    while let Some((branch, more)) = rest.split_first() {
        let never = has_no_outputs(alloc, asked, &branch.relation)?;
        if !never {
            return Ok(false);
        }
        rest = more;
    }
    Ok(true)
}

fn has_no_outputs(alloc: Global, asked: &Asked<'_>, rel: &Rel) -> Result<bool, NoMemory>
    ensures { IfOk result (λ b. b ≡ true → NeverHolds asked.now.scope.now asked.now.outputs.now (rel_tree rel.now)) }
{
    let mut bases = Vec::from_slice(alloc, asked.scope)?;
    bases.extend_from_slice(asked.outputs)?;
    if !is_over(&bases, rel) {
        return Ok(false);
    }
    never_holds(alloc, asked.scope, asked.outputs, rel)
}

/// Whether an output that is given out, counted from 0, is a number, and the relations hold with any number there: no
/// where that is not found.
pub(crate) fn is_unbounded(asked: &Asked<'_>, branches: &[Branch], output: u32) -> bool
    ensures { result ≡ true → TellsUnbounded (asked_view asked.now) (map told_branch branches.now) output }
{
    is_number(asked.shown, output) && are_unbounded(branches, asked.scope.len(), output)
}

fn is_number(shown: &[Base], output: u32) -> bool
    ensures { result ≡ true → slice_get shown.now output ≡ Some Int }
{
    match shown.get(output as usize) {
        Some(Base::Int) => true,
        _ => false,
    }
}

// Whether the relations of branches behind so many variables of the scope hold with any number at the output.
fn are_unbounded(branches: &[Branch], scope: usize, output: u32) -> bool
    ensures { result ≡ true → All (λ b. IsUnbounded (scope + output) b.relation) (map told_branch branches.now) }
{
    match level_of(scope, output) {
        Ok(level) => are_unbounded_at(branches, level),
        Err(_) => false,
    }
}

// The level of an output behind so many variables of the scope.
fn level_of(scope: usize, output: u32) -> Result<u32, NoMemory>
    ensures { IfOk result (λ n. n ≡ scope + output) }
{
    let first = to_u32(scope)?;
    add_u32(first, output)
}

fn are_unbounded_at(branches: &[Branch], level: u32) -> bool
    ensures { result ≡ true → All (λ b. IsUnbounded level b.relation) (map told_branch branches.now) }
{
    let mut rest = branches;
    while let Some((branch, more)) = rest.split_first() {
        if !nothing_bounds(&branch.relation, level) {
            return false;
        }
        rest = more;
    }
    true
}

/// The most search tuples that the arms of a branch have.
///
/// # Errors
/// `NoMemory` where memory ran out, or a number does not fit in 64 bits.
#[tactic(auto, using(crate::proofs::BesideLemmas::most_more))]
pub(crate) fn told_tuples(
    alloc: Global,
    asked: &Asked<'_>,
    branches: &[Branch],
) -> Result<u64, NoMemory>
    requires { All IsOutput asked.now.outputs.now }
    ensures { IfOk result (λ n. n ≡ most_tuples (asked_view asked.now) (map told_branch branches.now)) }
{
    let mut most: u64 = 0;
    let mut rest = branches;
    while let Some((branch, more)) = rest.split_first() {
        most = greater(most, branch_tuples(alloc, asked, &branch.relation)?);
        rest = more;
    }
    Ok(most)
}

fn greater(a: u64, b: u64) -> u64
    ensures { result ≡ max a b }
{
    if a < b { b } else { a }
}

// How many the arms of a relation have. One that passes a limit is want of memory; each that is told was solved.
fn branch_tuples(alloc: Global, asked: &Asked<'_>, rel: &Rel) -> Result<u64, NoMemory>
    requires { All IsOutput asked.now.outputs.now }
    ensures { IfOk result (λ n. n ≡ tuple_count asked.now.scope.now asked.now.outputs.now (rel_tree rel.now)) }
{
    match solved_over(alloc, asked, rel) {
        Ok(solved) => tuple_count(&solved),
        Err(_) => Err(NoMemory),
    }
}

// ---- all branches
/// Whether each input for which the condition holds has outputs. In the order of the branches the first
/// sample is told, else the first doubt.
pub(crate) fn told_existence(
    alloc: Global,
    asked: &Asked<'_>,
    branches: &[Branch],
) -> Result<ExistenceAnswer, NoMemory>
    requires { All IsOutput asked.now.outputs.now }
    ensures { IfOk result (TellsExistence (asked_view asked.now) (map told_branch branches.now)) }
{
    existence_in_all(alloc, asked, branches)
}

fn existence_in_all(
    alloc: Global,
    asked: &Asked<'_>,
    branches: &[Branch],
) -> Result<ExistenceAnswer, NoMemory>
    requires { All IsOutput asked.now.outputs.now }
    ensures { IfOk result (ComeTo (TellsExistenceIn (asked_view asked.now)) first_existence_of Always (map told_branch branches.now)) }
{
    let mut answer = ExistenceAnswer::Always;
    let mut rest = branches;
    while let Some((branch, more)) = rest.split_first() {
        let effort = effort_for_existence(&answer);
        match existence_in(alloc, asked, branch, effort) {
            Ok(told) => answer = first_existence(answer, told),
            Err(fault) => return Err(without(answer, fault)),
        }
        rest = more;
    }
    Ok(answer)
}

// Behind a sample or a doubt, a refutation in a later branch changes nothing.
fn effort_for_existence(before: &ExistenceAnswer) -> Effort {
    match before {
        ExistenceAnswer::Always => Effort::Refutation,
        ExistenceAnswer::Missing(_) | ExistenceAnswer::Undecided(_) => Effort::Elimination,
    }
}

// Of two answers the first sample, else the first doubt.
fn first_existence(before: ExistenceAnswer, after: ExistenceAnswer) -> ExistenceAnswer
    ensures { result ≡ first_existence_of before after }
{
    match before {
        ExistenceAnswer::Missing(sample) => ExistenceAnswer::Missing(sample),
        ExistenceAnswer::Always => after,
        ExistenceAnswer::Undecided(doubt) => missing_or(after, doubt),
    }
}

fn missing_or(after: ExistenceAnswer, doubt: Doubt) -> ExistenceAnswer
    ensures { result ≡ first_existence_of (ExistenceAnswer.Undecided doubt) after }
{
    match after {
        ExistenceAnswer::Missing(sample) => ExistenceAnswer::Missing(sample),
        ExistenceAnswer::Always | ExistenceAnswer::Undecided(_) => {
            ExistenceAnswer::Undecided(doubt)
        }
    }
}

/// Whether no two lists of outputs differ in what is given out, where the conditions are part of the
/// relations. In the order of the branches the first two that do are told, else the first doubt.
pub(crate) fn told_uniqueness(
    alloc: Global,
    asked: &Asked<'_>,
    branches: &[Branch],
) -> Result<UniquenessAnswer, NoMemory>
    requires { All IsOutput asked.now.outputs.now }
    ensures { IfOk result (λ u. All HoldsCondition (map told_branch branches.now) → TellsUniqueness (asked_view asked.now) (map told_branch branches.now) u) }
{
    uniqueness_in_all(alloc, asked, branches)
}

fn uniqueness_in_all(
    alloc: Global,
    asked: &Asked<'_>,
    branches: &[Branch],
) -> Result<UniquenessAnswer, NoMemory>
    requires { All IsOutput asked.now.outputs.now }
    ensures { IfOk result (ComeTo (λ b u. HoldsCondition b → TellsUniquenessIn (asked_view asked.now) b u) first_uniqueness_of Unique (map told_branch branches.now)) }
{
    let mut answer = UniquenessAnswer::Unique;
    let mut rest = branches;
    while let Some((branch, more)) = rest.split_first() {
        let effort = effort_for_uniqueness(&answer);
        match uniqueness_in(alloc, asked, branch, effort) {
            Ok(told) => answer = first_uniqueness(answer, told),
            Err(fault) => return Err(without(answer, fault)),
        }
        rest = more;
    }
    Ok(answer)
}

// Behind two solutions or a doubt, a refutation in a later branch changes nothing.
fn effort_for_uniqueness(before: &UniquenessAnswer) -> Effort {
    match before {
        UniquenessAnswer::Unique => Effort::Refutation,
        UniquenessAnswer::Two { .. } | UniquenessAnswer::Undecided(_) => Effort::Elimination,
    }
}

// Of two answers the first with two solutions, else the first doubt.
fn first_uniqueness(before: UniquenessAnswer, after: UniquenessAnswer) -> UniquenessAnswer
    ensures { result ≡ first_uniqueness_of before after }
{
    match before {
        UniquenessAnswer::Two {
            sample,
            first,
            second,
        } => UniquenessAnswer::Two {
            sample,
            first,
            second,
        },
        UniquenessAnswer::Unique => after,
        UniquenessAnswer::Undecided(doubt) => two_or(after, doubt),
    }
}

fn two_or(after: UniquenessAnswer, doubt: Doubt) -> UniquenessAnswer
    ensures { result ≡ first_uniqueness_of (UniquenessAnswer.Undecided doubt) after }
{
    match after {
        UniquenessAnswer::Two {
            sample,
            first,
            second,
        } => UniquenessAnswer::Two {
            sample,
            first,
            second,
        },
        UniquenessAnswer::Unique | UniquenessAnswer::Undecided(_) => {
            UniquenessAnswer::Undecided(doubt)
        }
    }
}
