//! The text of a choose.
ghost use Rattle.std.specs.Prelude.{◌≡◌, ◌++◌, IfOk, OnOk};
ghost use Rattle.cf_tree.specs.RelView.{rel_tree};
ghost use Rattle.cf_smt.specs.Answers.{PutAnswer};
ghost use Rattle.cf_smt.specs.ClaimView.{plain_claim};
ghost use Rattle.cf_smt.specs.Terms.{rel_text as text_of_rel};
ghost use Rattle.cf_smt.specs.Goals.{about_claim, claim_has_form as with_form, claim_text, digits_of as digits_for, relation_defined, text_in};

use crate::arm::{put_arms, with_more};
use crate::claim::Claim;
use crate::command::put_define;
use crate::form::{arms_have_forms, rel_has_form};
use crate::functions::put_functions;
use crate::goals::{put_arm_goals, put_needs_goal, relation_name};
use crate::names::{Setting, put_branch, setting_of};
use crate::relation::put_rel;
use cf_print::put_pieces;
use cf_tree::{NoMemory, Rel, Text, put_number};
use std::alloc::Global;

/// Behind the number of a choose, before its relation.
pub const ABOUT_CLAIM: &[u8] = b": its relation, and what each arm needs and gives.
";

/// Why there is no text of a choose.
#[derive(Clone, Copy, Debug, PartialEq, Eq)]
pub enum ClaimFault {
    /// A set stands in its relation or in an arm.
    Sets,
    NoMemory,
}

fn has_form(claim: &Claim<'_>) -> bool
    ensures { result ≡ with_form (plain_claim claim.now) }
{
    rel_has_form(claim.rel) && arms_have_forms(claim.arms)
}

// The number of a choose, and its branch.
fn digits_of(alloc: Global, claim: &Claim<'_>) -> Result<Text, NoMemory>
    ensures { IfOk result (λ t. t ≡ digits_for (plain_claim claim.now)) }
{
    let mut bytes = Vec::new(alloc);
    put_number(&mut bytes, claim.number)?;
    put_branch(&mut bytes, claim.branch)?;
    Ok(Text { bytes })
}

#[tactic(auto, unfolding(crate::specs::Goals::about_claim))]
fn put_about(out: &mut Vec<u8>, number: &[u8]) -> Result<(), NoMemory>
    ensures { OnOk result (out.new.items ≡ out.old.items ++ about_claim number.now) }
{
    put_pieces(out, &[b"; Choose ".as_slice(), number, ABOUT_CLAIM])
}

fn relation_text(alloc: Global, names: &[Text], rel: &Rel) -> Result<Text, NoMemory>
    ensures { IfOk result (λ t. t ≡ text_of_rel names.now (rel_tree rel.now)) }
{
    let mut bytes = Vec::new(alloc);
    put_rel(&mut bytes, names, rel)?;
    Ok(Text { bytes })
}

#[tactic(auto, unfolding(crate::specs::Goals::relation_defined))]
fn put_relation(
    alloc: Global,
    out: &mut Vec<u8>,
    setting: &Setting,
    rel: &Rel,
) -> Result<(), NoMemory>
    ensures { OnOk result (out.new.items ≡ out.old.items ++ relation_defined setting.now (rel_tree rel.now)) }
{
    let name = relation_name(alloc, setting)?;
    let params = with_more(alloc, &setting.params, &setting.outputs)?;
    let body = relation_text(alloc, &setting.all, rel)?;
    put_define(
        alloc,
        out,
        &name.bytes,
        &params,
        b"Bool",
        b"\n  ",
        &body.bytes,
    )
}

fn put_text_in(
    alloc: Global,
    out: &mut Vec<u8>,
    setting: &Setting,
    number: &[u8],
    claim: &Claim<'_>,
) -> Result<(), NoMemory>
    ensures { OnOk result (out.new.items ≡ out.old.items ++ text_in setting.now number.now (plain_claim claim.now)) }
{
    put_about(out, number)?;
    put_relation(alloc, out, setting, claim.rel)?;
    put_arms(alloc, out, setting, claim.arms)?;
    put_functions(alloc, out, setting, number, claim.arms)?;
    put_arm_goals(alloc, out, setting, claim.arms)?;
    put_needs_goal(alloc, out, setting, claim.arms)
}

fn put_text(alloc: Global, out: &mut Vec<u8>, claim: &Claim<'_>) -> Result<(), NoMemory>
    ensures { OnOk result (out.new.items ≡ out.old.items ++ claim_text (plain_claim claim.now)) }
{
    let setting = setting_of(alloc, claim)?;
    let number = digits_of(alloc, claim)?;
    put_text_in(alloc, out, &setting, &number.bytes, claim)
}

/// Puts the text of a choose: its relation, what each arm needs and gives, and goals that solvers answer with `unsat`.
///
/// # Errors
/// `Sets` exactly where a set stands in the relation or in an arm, and `NoMemory` where memory ran out.
pub fn put_claim(alloc: Global, out: &mut Vec<u8>, claim: &Claim<'_>) -> Result<(), ClaimFault>
    ensures { PutAnswer (plain_claim claim.now) out.old.items out.new.items result }
{
    if !has_form(claim) {
        return Err(ClaimFault::Sets);
    }
    match put_text(alloc, out, claim) {
        Ok(()) => Ok(()),
        Err(_) => Err(ClaimFault::NoMemory),
    }
}
