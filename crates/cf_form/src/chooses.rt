//! The chooses of a source, expanded.
ghost use Rattle.std.specs.Prelude.{◌≡◌, All, IfOk, OnOk, map};
ghost use Rattle.cf_tree.specs.DefView.{def_tree};
ghost use Rattle.cf_tree.specs.ExprTree.{at_any};
ghost use Rattle.cf_tree.specs.ExprView.{expr_tree, expr_trees, given_expr, match_arm_tree, match_arm_trees};
ghost use Rattle.cf_form.specs.Formed.{wide_choose as wide_choose_of};
ghost use Rattle.cf_form.specs.SourceChooses.{chooses_in, chooses_in_all, chooses_in_arms, source_chooses};
ghost use Rattle.cf_form.specs.Telling.{AreFound, body_of};
ghost use Rattle.cf_form.specs.Told.{wide_chooses as wide_chooses_of, first_passed as first_passed_of};
ghost use Rattle.cf_form.specs.ToldView.{choose_view, passed_pair};
ghost use Rattle.cf_form.specs.Unfolding.{calls_of};

use crate::choose::{Outline, wide_given, wide_relation};
use crate::count::passed;
use crate::wide::{Room, WideRel};
use cf_tree::{
    Aim, Def, Expr, Given, MatchArm, NoMemory, expr_leaf, expr_over_list, expr_over_one,
    expr_over_two, without,
};
use std::alloc::Global;

/// A choose of a source behind expansion: what it has but its relation, its condition, if it has
/// one, and the whole relation with that.
#[derive(Drop)]
pub(crate) struct WideChoose<'a> {
    pub(crate) outline: Outline<'a>,
    pub(crate) given: Option<Box<WideRel>>,
    pub(crate) relation: Box<WideRel>,
}

/// A choose with an atom of too many alternatives, by its number, and how many these are.
#[derive(Clone, Copy)]
pub(crate) struct Passed {
    pub(crate) number: u32,
    pub(crate) count: u64,
}

/// The chooses of functions, expanded, in the order of the text; none has an objective.
pub(crate) fn wide_chooses<'a>(
    alloc: Global,
    room: &mut Room,
    defs: &'a [Def],
) -> Result<Vec<WideChoose<'a>>, NoMemory>
    ensures chooses { IfOk result (λ qs. map choose_view qs.items ≡ wide_chooses_of (map def_tree defs.now)) }
    ensures unaimed { IfOk result (λ _. All (λ q. q.1.aim ≡ at_any) (source_chooses (map def_tree defs.now))) }
{
    let mut all = Vec::new(alloc);
    for index in 0..defs.len() {
        collect(alloc, room, &defs[..index], &defs[index].body, &mut all)?;
    }
    Ok(all)
}

/// The chooses of an expression behind these functions, after those found before.
#[cycle(collect)]
#[tactic(auto, using(crate::proofs::ChooseWalk::none_found, crate::proofs::ChooseWalk::found_two))]
pub(crate) fn collect<'a>(
    alloc: Global,
    room: &mut Room,
    before: &[Def],
    expr: &'a Expr,
    all: &mut Vec<WideChoose<'a>>,
) -> Result<(), NoMemory>
    ensures { OnOk result (AreFound before.now all.old.items all.new.items (chooses_in (expr_tree expr.now))) }
{
    match expr {
        expr_leaf!() | Expr::Choose { .. } => Ok(()),
        expr_over_list!(parts) | Expr::Chain { parts, .. } => {
            collect_all(alloc, room, before, parts, all)
        }
        expr_over_one!(a) => collect(alloc, room, before, a, all),
        expr_over_two!(a, b) => {
            collect(alloc, room, before, a, all)?;
            collect(alloc, room, before, b, all)?;
            Ok(())
        }
        Expr::If { test, yes, no } => {
            collect(alloc, room, before, test, all)?;
            collect(alloc, room, before, yes, all)?;
            collect(alloc, room, before, no, all)?;
            Ok(())
        }
        Expr::ChooseWhere { .. } => collect_choose(alloc, room, before, expr, all),
        Expr::Match { of, arms, .. } => {
            collect(alloc, room, before, of, all)?;
            collect_arms(alloc, room, before, arms, all)?;
            Ok(())
        }
    }
}

#[cycle(collect)]
fn collect_all<'a>(
    alloc: Global,
    room: &mut Room,
    before: &[Def],
    exprs: &'a [Expr],
    all: &mut Vec<WideChoose<'a>>,
) -> Result<(), NoMemory>
    ensures { OnOk result (AreFound before.now all.old.items all.new.items (chooses_in_all (expr_trees exprs.now))) }
{
    for expr in exprs {
        collect(alloc, room, before, expr, all)?;
    }
    Ok(())
}

#[cycle(collect)]
fn collect_arms<'a>(
    alloc: Global,
    room: &mut Room,
    before: &[Def],
    arms: &'a [MatchArm],
    all: &mut Vec<WideChoose<'a>>,
) -> Result<(), NoMemory>
    ensures { OnOk result (AreFound before.now all.old.items all.new.items (chooses_in_arms (match_arm_trees arms.now))) }
{
    for arm in arms {
        collect_arm(alloc, room, before, arm, all)?;
    }
    Ok(())
}

#[cycle(collect)]
fn collect_arm<'a>(
    alloc: Global,
    room: &mut Room,
    before: &[Def],
    arm: &'a MatchArm,
    all: &mut Vec<WideChoose<'a>>,
) -> Result<(), NoMemory>
    ensures { OnOk result (AreFound before.now all.old.items all.new.items (chooses_in (body_of (match_arm_tree arm.now)))) }
{
    collect(alloc, room, before, &arm.body, all)
}

// A choose whose relation is an expression.
#[tactic(auto, using(crate::proofs::ChooseWalk::one_found))]
fn collect_choose<'a>(
    alloc: Global,
    room: &mut Room,
    before: &[Def],
    expr: &'a Expr,
    all: &mut Vec<WideChoose<'a>>,
) -> Result<(), NoMemory>
    ensures { OnOk result (AreFound before.now all.old.items all.new.items (chooses_in (expr_tree expr.now))) }
{
    match expr {
        Expr::ChooseWhere {
            number,
            scope,
            outputs,
            hidden,
            given,
            rel,
            aim: Aim::Any,
        } => {
            let outline = Outline {
                number: *number,
                scope,
                outputs,
                hidden,
            };
            all.push(wide_choose(alloc, room, before, outline, given, rel)?)?;
            Ok(())
        }
        _ => Err(not_built()),
    }
}

// A choose without an objective, expanded.
fn wide_choose<'a>(
    alloc: Global,
    room: &mut Room,
    before: &[Def],
    outline: Outline<'a>,
    given: &Given,
    rel: &Expr,
) -> Result<WideChoose<'a>, NoMemory>
    ensures { IfOk result (λ q. choose_view q ≡ wide_choose_of (calls_of (map def_tree before.now))
        (record {
          number = outline.entry.number;
          scope = outline.entry.scope.now;
          outputs = outline.entry.outputs.now;
          hidden = outline.entry.hidden.now;
          given = given_expr given.now;
          relation = expr_tree rel.now;
          aim = at_any;
        })) }
{
    let condition = wide_given(alloc, room, before, outline.scope, given)?;
    match wide_relation(alloc, room, before, &outline, given, rel) {
        Ok(relation) => Ok(WideChoose {
            outline,
            given: condition,
            relation,
        }),
        Err(fault) => Err(without(condition, fault)),
    }
}

// A choose with an objective is read, and not solved yet.
fn not_built() -> NoMemory {
    NoMemory
}

/// The first choose with an atom of too many alternatives, if there is one.
pub(crate) fn first_passed(chooses: &[WideChoose<'_>]) -> Option<Passed>
    ensures { passed_pair result ≡ first_passed_of (map choose_view chooses.now) }
{
    for choose in chooses {
        match passed(&choose.relation) {
            Some(count) => {
                let number = choose.outline.number;
                return Some(Passed { number, count });
            }
            None => {}
        }
    }
    None
}
