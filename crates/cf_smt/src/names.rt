//! The names in the text of a choose.
ghost use Rattle.std.specs.Prelude.{◌≡◌, ◌++◌, [], Some, drop, IfOk, OnOk};
ghost use Rattle.cf_tree.specs.declared.base.Base.TheVariants.{Int};
ghost use Rattle.cf_print.specs.Names.{new_name as new_word};
ghost use Rattle.cf_smt.specs.ClaimView.{plain_claim};
ghost use Rattle.cf_smt.specs.Names.{branch_text, claim_name as name_of_claim, given_name, given_names as names_given, is_empty as empty, is_named as named_in, is_read as read_in, names_behind as all_behind, next_name as name_behind, search_digits, search_letter as letter_of_search, search_name as name_of_search, search_names as names_of_searches, setting_of as setting_for};

use crate::claim::Claim;
use crate::reads::arms_read;
use crate::words::SMT_WORDS;
use cf_print::{copies, new_name, next};
use cf_tree::{Base, NoMemory, Text, put_number, rel_holds, to_u32};
use std::alloc::Global;
use std::marker::Model;

/// The names in the text of a choose: its own, those of its scope by level, those of its parameters, all by level, and
/// those of its outputs.
#[derive(Drop)]
pub(crate) struct Setting {
    pub name: Text,
    pub scope: Vec<Text>,
    pub params: Vec<Text>,
    pub all: Vec<Text>,
    pub outputs: Vec<Text>,
}

impl Model for Setting {
    ghost use Rattle.cf_smt.specs.Names.{Setting as PlainSetting};

    ghost Value = { PlainSetting };

    ghost view = { λ s. record {
      name = s.name;
      scope = s.scope.items;
      params = s.params.items;
      all = s.all.items;
      outputs = s.outputs.items;
    } };
}

// Whether the relation or an arm reads the variable of a level.
fn is_read(claim: &Claim<'_>, level: u32) -> bool
    ensures { result ≡ read_in (plain_claim claim.now) level }
{
    rel_holds(claim.rel, level) || arms_read(level, claim.arms)
}

// Whether the variable of a level has a name.
fn is_named(claim: &Claim<'_>, level: u32) -> bool
    ensures { result ≡ named_in (plain_claim claim.now) level }
{
    claim.scope.len() <= level as usize || is_read(claim, level)
}

fn no_text(alloc: Global) -> Text
    ensures { result ≡ [] }
{
    Text {
        bytes: Vec::new(alloc),
    }
}

// A name as it is wished for, where these are taken.
fn named_after(alloc: Global, taken: &[Text], wish: &[u8]) -> Result<Text, NoMemory>
    ensures { IfOk result (λ name. name ≡ new_word SMT_WORDS.now taken.now Int (Some wish.now)) }
{
    let name = new_name(alloc, SMT_WORDS, taken, Base::Int, Some(wish))?;
    Ok(name)
}

// The name of the variable behind those that have these.
fn next_name(
    alloc: Global,
    claim: &Claim<'_>,
    names: &[Text],
    wish: &[u8],
) -> Result<Text, NoMemory>
    ensures { IfOk result (λ name. name ≡ name_behind (plain_claim claim.now) names.now wish.now) }
{
    let level = to_u32(names.len())?;
    if is_named(claim, level) {
        named_after(alloc, names, wish)
    } else {
        Ok(no_text(alloc))
    }
}

// Names, and behind them those of more variables as the source names them.
fn names_behind(
    alloc: Global,
    claim: &Claim<'_>,
    names: Vec<Text>,
    wishes: &[Text],
) -> Result<Vec<Text>, NoMemory>
    ensures { IfOk result (λ all. all.items ≡ all_behind (plain_claim claim.now) names.items wishes.now) }
{
    let mut all = names;
    for wish in wishes {
        let name = next_name(alloc, claim, &all, &wish.bytes)?;
        all.push(name)?;
    }
    Ok(all)
}

fn is_empty(text: &Text) -> bool
    ensures { result ≡ empty text.now }
{
    match text.bytes.as_slice() {
        [] => true,
        [_first, _more @ ..] => false,
    }
}

// Adds a copy of a name that is given.
fn add_given(alloc: Global, all: &mut Vec<Text>, name: &Text) -> Result<(), NoMemory>
    ensures { OnOk result (all.new.items ≡ all.old.items ++ given_name name.now) }
{
    if is_empty(name) {
        Ok(())
    } else {
        all.push(name.try_copy(alloc)?)?;
        Ok(())
    }
}

// The names of the variables that have one.
fn given_names(alloc: Global, names: &[Text]) -> Result<Vec<Text>, NoMemory>
    ensures { IfOk result (λ all. all.items ≡ names_given names.now) }
{
    let mut all = Vec::new(alloc);
    for name in names {
        add_given(alloc, &mut all, name)?;
    }
    Ok(all)
}

/// Puts which branch it is, but for the first.
pub(crate) fn put_branch(out: &mut Vec<u8>, branch: u32) -> Result<(), NoMemory>
    ensures { OnOk result (out.new.items ≡ out.old.items ++ branch_text branch) }
{
    if branch == 0 {
        Ok(())
    } else {
        out.push(b'.')?;
        put_number(out, next(branch as usize)?)
    }
}

// The name of a choose.
fn claim_name(alloc: Global, number: u32, branch: u32) -> Result<Text, NoMemory>
    ensures { IfOk result (λ name. name ≡ name_of_claim number branch) }
{
    let mut bytes = Vec::from_slice(alloc, b"choose")?;
    put_number(&mut bytes, number)?;
    put_branch(&mut bytes, branch)?;
    Ok(Text { bytes })
}

/// The names in the text of a choose.
pub(crate) fn setting_of(alloc: Global, claim: &Claim<'_>) -> Result<Setting, NoMemory>
    ensures { IfOk result (λ s. s ≡ setting_for (plain_claim claim.now)) }
{
    let scope = names_behind(alloc, claim, Vec::new(alloc), claim.scope)?;
    let all = names_behind(alloc, claim, copies(alloc, &scope)?, claim.outputs)?;
    let params = given_names(alloc, &scope)?;
    let outputs = outputs_of(alloc, &all, scope.len())?;
    Ok(Setting {
        name: claim_name(alloc, claim.number, claim.branch)?,
        scope,
        params,
        all,
        outputs,
    })
}

// The names behind so many.
fn outputs_of(alloc: Global, names: &[Text], count: usize) -> Result<Vec<Text>, NoMemory>
    ensures { IfOk result (λ all. all.items ≡ drop count names.now) }
{
    if names.len() < count {
        return Ok(Vec::new(alloc));
    }
    copies(alloc, &names[count..])
}

fn search_letter(j: usize) -> &'static [u8]
    ensures { result.now ≡ letter_of_search j }
{
    if j == 0 {
        b"i"
    } else if j == 1 {
        b"j"
    } else {
        b"k"
    }
}

fn put_search_digits(out: &mut Vec<u8>, j: usize) -> Result<(), NoMemory>
    ensures { OnOk result (out.new.items ≡ out.old.items ++ search_digits j) }
{
    if 2 < j { put_number(out, j) } else { Ok(()) }
}

#[tactic(auto, unfolding(crate::specs::Names::search_name))]
fn search_name(alloc: Global, j: usize) -> Result<Text, NoMemory>
    ensures { IfOk result (λ name. name ≡ name_of_search j) }
{
    let mut bytes = Vec::from_slice(alloc, search_letter(j))?;
    put_search_digits(&mut bytes, j)?;
    bytes.push(b'.')?;
    Ok(Text { bytes })
}

/// The names of the variables of searches.
pub(crate) fn search_names(alloc: Global, bounds: &[u32]) -> Result<Vec<Text>, NoMemory>
    ensures { IfOk result (λ all. all.items ≡ names_of_searches 0 bounds.now) }
{
    let mut all = Vec::new(alloc);
    for j in 0..bounds.len() {
        all.push(search_name(alloc, j)?)?;
    }
    Ok(all)
}
