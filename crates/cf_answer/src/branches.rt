//! The branches of the chooses of a source, as `pre` and steps files name them.
ghost use Rattle.std.specs.Prelude.{◌≡◌, ◌&&◌, ◌++◌, [], All, drop, map, not, IfOk, OnOk};
ghost use Rattle.std.specs.List.{list_all};
ghost use Rattle.cf_lex.specs.Bytes.{is_letter, is_in_word};
ghost use Rattle.cf_lex.specs.Words.{is_reserved};
ghost use Rattle.cf_tree.specs.declared.base.Edition.TheVariants.{Three};
ghost use Rattle.cf_form.specs.ToldView.{told_branch, told_choose, truth_at};
ghost use Rattle.cf_tree.specs.Params.{names_of};
ghost use Rattle.cf_steps.specs.Spelled.{is_word as is_word_of, IsSpelledTruth};
ghost use Rattle.cf_answer.specs.Branches.{branches_of as the_branches_of, coming as those_coming, first_branch, named, same_truth, same_head as same_head_of, value_behind, valued};

use crate::verdict::name_at;
use cf_form::{Branch, ChooseInfo, TruthAt};
use cf_lex::{Token, TokenKind};
use cf_reader::{ReadStop, expect_name};
use cf_steps::{Head, NamedTruth};
use cf_tree::{Edition, NoMemory, Param, Place, Text, put_truth, to_u32};
use std::alloc::Global;

/// What is told of the chooses of a source, and the branches of one that are still to come.
#[derive(Drop)]
pub(crate) struct Coming<'a> {
    told: &'a [ChooseInfo],
    left: &'a [Branch],
}

impl<'a> Coming<'a> {
    /// Before the first choose.
    pub(crate) fn new(told: &'a [ChooseInfo]) -> Coming<'a>
        ensures { (result.told.now ≡ told.now) × (result.left.now ≡ []) }
    {
        Coming { told, left: &[] }
    }

    /// The truth variables with their values in the branch of the next choose, which has this number.
    pub(crate) fn next(&mut self, number: u32) -> &'a [TruthAt]
        ensures truths { map truth_at result.now ≡
            first_branch (those_coming (map told_choose self.old.told.now) (map (λ b. (told_branch b).truths) self.old.left.now) number) }
        ensures left { map (λ b. (told_branch b).truths) self.new.left.now ≡
            drop 1 (those_coming (map told_choose self.old.told.now) (map (λ b. (told_branch b).truths) self.old.left.now) number) }
        ensures told { self.new.told.now ≡ self.old.told.now }
    {
        let all = still_left(self.told, self.left, number);
        match all.split_first() {
            Some((branch, more)) => {
                self.left = more;
                &branch.truths
            }
            None => {
                self.left = &[];
                &[]
            }
        }
    }
}

// The branches of a choose that are still to come: all of them, where none is left of the number before.
fn still_left<'a>(told: &'a [ChooseInfo], left: &'a [Branch], number: u32) -> &'a [Branch]
    ensures { map (λ b. (told_branch b).truths) result.now ≡ those_coming (map told_choose told.now) (map (λ b. (told_branch b).truths) left.now) number }
{
    match left.split_first() {
        None => branches_of(told, number),
        Some(_) => left,
    }
}

// The branches of a choose, `true` first; none where nothing is told of it.
fn branches_of(told: &[ChooseInfo], number: u32) -> &[Branch]
    ensures { map (λ b. (told_branch b).truths) result.now ≡ the_branches_of (map told_choose told.now) number }
{
    for i in 0..told.len() {
        let choose = &told[i];
        if choose.number == number {
            return &choose.branches;
        }
    }
    &[]
}

// Whether a byte is a letter or an underscore.
fn letter(b: u8) -> bool
    ensures { result ≡ is_letter b }
{
    b'A' <= b && b <= b'Z' || b'a' <= b && b <= b'z' || b == b'_'
}

// Whether a byte goes on with a word.
fn in_word(b: u8) -> bool
    ensures { result ≡ is_in_word b }
{
    letter(b) || b'0' <= b && b <= b'9'
}

// Whether all of these bytes go on with a word.
fn are_in_word(bytes: &[u8]) -> bool
    ensures { result ≡ list_all is_in_word bytes.now }
{
    bytes.iter().all(|b| in_word(*b))
}

// Whether these bytes are a letter, and then letters and digits.
fn is_word(name: &[u8]) -> bool
    ensures { result ≡ is_word_of name.now }
{
    match name.split_first() {
        Some((first, more)) => letter(*first) && are_in_word(more),
        None => false,
    }
}

// Whether these bytes are a name of edition 3.
fn is_name(alloc: Global, name: &[u8]) -> Result<bool, NoMemory>
    ensures { IfOk result (λ b. b ≡ (is_word_of name.now && not (is_reserved Three name.now))) }
{
    let place = Place { line: 1, column: 1 };
    let bytes = Vec::from_slice(alloc, name)?;
    let kind = TokenKind::Word(Text { bytes });
    let mut list = Vec::new(alloc);
    list.push(Token { place, kind })?;
    match expect_name(alloc, Edition::Three, &list) {
        Ok(_) => Ok(is_word(name)),
        Err(ReadStop::TokensLeft(_)) => Ok(false),
        Err(ReadStop::NoMemory) => Err(NoMemory),
    }
}

// A truth variable of this scope by its name.
fn named_truth(alloc: Global, scope: &[Param], truth: &TruthAt) -> Result<NamedTruth, NoMemory>
    ensures { IfOk result (λ t. (t ≡ named (names_of scope.now) (truth_at truth.now)) × IsSpelledTruth t) }
{
    let name = name_at(scope, truth.level);
    // for the proof: the names of a source of edition 3 are names.
    if !is_name(alloc, name)? {
        return Err(NoMemory);
    }
    let bytes = Vec::from_slice(alloc, name)?;
    Ok(NamedTruth {
        name: Text { bytes },
        value: truth.value,
    })
}

/// The head of the block of a choose with this scope in a branch.
pub(crate) fn head(alloc: Global, scope: &[Param], branch: &[TruthAt]) -> Result<Head, NoMemory>
    ensures is { IfOk result (λ h. h.truths.items ≡ map (named (names_of scope.now)) (map truth_at branch.now)) }
    ensures spelled { IfOk result (λ h. All IsSpelledTruth h.truths.items) }
{
    let mut truths = Vec::new(alloc);
    for truth in branch {
        truths.push(named_truth(alloc, scope, truth)?)?;
    }
    Ok(Head { truths })
}

// Whether a truth variable of a block is this one, with this value.
fn is_truth(scope: &[Param], truth: &TruthAt, other: &NamedTruth) -> bool
    ensures { result ≡ same_truth (named (names_of scope.now) (truth_at truth.now)) other.now }
{
    name_at(scope, truth.level) == other.name.bytes.as_slice() && truth.value == other.value
}

/// Whether a block of a choose with this scope names this branch.
pub(crate) fn is_head(scope: &[Param], branch: &[TruthAt], truths: &[NamedTruth]) -> bool
    ensures { result ≡ same_head_of (map (named (names_of scope.now)) (map truth_at branch.now)) truths.now }
{
    let mut left = branch;
    let mut rest = truths;
    'truths: while let Some((truth, more)) = left.split_first() {
        let Some((other, behind)) = rest.split_first() else {
            return false;
        };
        if !is_truth(scope, truth, other) {
            return false;
        }
        left = more;
        rest = behind;
    }
    rest.is_empty()
}

// Adds ` = ` and the value of a level in a branch, where it has one.
fn put_value(name: &mut Vec<u8>, level: u32, branch: &[TruthAt]) -> Result<(), NoMemory>
    ensures { OnOk result (name.new.items ≡ name.old.items ++ value_behind level (map truth_at branch.now)) }
{
    let mut rest = branch;
    'truths: while let Some((truth, more)) = rest.split_first() {
        if truth.level == level {
            name.extend_from_slice(b" = ")?;
            return put_truth(name, truth.value);
        }
        rest = more;
    }
    Ok(())
}

/// The names of a scope, those of truth variables of the branch with their values.
pub(crate) fn valued_names(
    alloc: Global,
    scope: &[Param],
    branch: &[TruthAt],
) -> Result<Vec<Text>, NoMemory>
    ensures { IfOk result (λ names. names.items ≡ valued 0 (names_of scope.now) (map truth_at branch.now)) }
{
    let mut names = Vec::new(alloc);
    let end = to_u32(scope.len())?;
    for level in 0..end {
        let mut name = Vec::from_slice(alloc, name_at(scope, level))?;
        put_value(&mut name, level, branch)?;
        names.push(Text { bytes: name })?;
    }
    Ok(names)
}
