//! The form of a choose: its branches, and its outputs as they are given out.
ghost use Rattle.std.specs.Prelude.{◌≡◌, ◌++◌, ◌∷◌, [], pos, IfOk, map, length};
ghost use Rattle.cf_tree.specs.declared.base.Order.TheVariants.{Ge};
ghost use Rattle.cf_tree.specs.declared.raw.BinOp.TheVariants.{Compare};
ghost use Rattle.cf_tree.specs.DefView.{def_tree};
ghost use Rattle.cf_tree.specs.ExprTree.{at_any, expr_lit, expr_var, expr_if, expr_binary, expr_choose, expr_let};
ghost use Rattle.cf_tree.specs.ExprView.{expr_tree, given_expr};
ghost use Rattle.cf_tree.specs.Params.{bases_of};
ghost use Rattle.cf_form.specs.Expansion.{variables_from, variable_part};
ghost use Rattle.cf_form.specs.Formed.{formed, wide_choose, with_given, given_of, choose_form as choose_form_of, as_number as number_base, are_as_chosen as as_chosen_of, has_truths as has_truths_of, given_out as given_out_of, all_given_out as all_given_out_of, one_or_tuple as one_or_tuple_of};
ghost use Rattle.cf_form.specs.FormShapes.{branched_in, relation_over, branching_over, choose_over, wide_truth_of};
ghost use Rattle.cf_form.specs.ToldView.{truth_at};
ghost use Rattle.cf_form.specs.Unfolding.{calls_of};
ghost use Rattle.cf_form.specs.WideView.{wide_rel, part, given_rel};
ghost use Rattle.cf_form.specs.Wide.{wide_and};

use crate::branch::{branched, relation_at};
use crate::expansion::{expand_first, truth_in};
use crate::told::TruthAt;
use crate::wide::{Part, Room, WideRel, WideSet, WideTerm};
use cf_tree::{
    Aim, Base, BinOp, Def, Expr, Given, NoMemory, Order, Param, add_u32, bases, copy_params,
    to_u32, without,
};
use std::alloc::Global;

/// A choose without its relation: its number, the variables in scope, the bases of the outputs that
/// are given out, and of the hidden ones.
#[derive(Clone, Copy)]
pub(crate) struct Outline<'a> {
    pub(crate) number: u32,
    pub(crate) scope: &'a [Param],
    pub(crate) outputs: &'a [Base],
    pub(crate) hidden: &'a [Base],
}

// A choose of which all outputs are given out, with its relation.
#[derive(Clone, Copy)]
struct WholeChoose<'a> {
    number: u32,
    scope: &'a [Param],
    outputs: &'a [Base],
    relation: &'a WideRel,
}

/// The form of a choose whose relation is an expression; one with an objective stays as it is.
pub(crate) fn choose(
    alloc: Global,
    room: &mut Room,
    before: &[Def],
    expr: &Expr,
) -> Result<Expr, NoMemory>
    ensures { IfOk result (λ e. expr_tree e ≡ formed (calls_of (map def_tree before.now)) 0 (expr_tree expr.now)) }
{
    match expr {
        Expr::ChooseWhere {
            number,
            scope,
            outputs,
            hidden,
            given,
            rel,
            aim,
        } => match aim {
            Aim::Any => {
                let outline = Outline {
                    number: *number,
                    scope,
                    outputs,
                    hidden,
                };
                choose_where(alloc, room, before, &outline, given, rel)
            }
            Aim::Least(_) | Aim::Greatest(_) => expr.try_copy(alloc),
        },
        _ => Err(NoMemory),
    }
}

#[tactic(auto, using(crate::proofs::ChooseSteps::choose_is))]
fn choose_where(
    alloc: Global,
    room: &mut Room,
    before: &[Def],
    outline: &Outline<'_>,
    given: &Given,
    rel: &Expr,
) -> Result<Expr, NoMemory>
    ensures { IfOk result (λ e. expr_tree e ≡ choose_form_of (wide_choose (calls_of (map def_tree before.now))
        (record {
          number = outline.now.number;
          scope = outline.now.scope.now;
          outputs = outline.now.outputs.now;
          hidden = outline.now.hidden.now;
          given = given_expr given.now;
          relation = expr_tree rel.now;
          aim = at_any;
        }))) }
{
    let relation = wide_relation(alloc, room, before, outline, given, rel)?;
    choose_form(alloc, room, outline, &relation)
}

/// The expanded relation of a choose, with what is given.
pub(crate) fn wide_relation(
    alloc: Global,
    room: &mut Room,
    before: &[Def],
    outline: &Outline<'_>,
    given: &Given,
    rel: &Expr,
) -> Result<Box<WideRel>, NoMemory>
    ensures { IfOk result (λ r. wide_rel r.value ≡
        with_given (given_of (calls_of (map def_tree before.now)) (variables_from 0 (bases_of outline.now.scope.now)) (given_expr given.now))
        (wide_truth_of (calls_of (map def_tree before.now)) (bases_of outline.now.scope.now ++ outline.now.outputs.now ++ outline.now.hidden.now)
        (expr_tree rel.now))) }
{
    let all = all_bases(alloc, outline)?;
    let condition = wide_given(alloc, room, before, outline.scope, given)?;
    let relation = wide_truth(alloc, room, before, &all, rel)?;
    with_condition(alloc, condition, relation)
}

/// The expanded condition of a choose in this scope, if it has one.
pub(crate) fn wide_given(
    alloc: Global,
    room: &mut Room,
    before: &[Def],
    scope: &[Param],
    given: &Given,
) -> Result<Option<Box<WideRel>>, NoMemory>
    ensures { IfOk result (λ g. given_rel g ≡
        given_of (calls_of (map def_tree before.now)) (variables_from 0 (bases_of scope.now)) (given_expr given.now)) }
{
    match given {
        Given::Always => Ok(None),
        Given::Where(p) => {
            let all = bases(alloc, scope)?;
            Ok(Some(wide_truth(alloc, room, before, &all, p)?))
        }
    }
}

fn with_condition(
    alloc: Global,
    condition: Option<Box<WideRel>>,
    relation: Box<WideRel>,
) -> Result<Box<WideRel>, NoMemory>
    ensures { IfOk result (λ r. wide_rel r.value ≡ with_given (given_rel condition) (wide_rel relation.value)) }
{
    match condition {
        None => Ok(relation),
        Some(condition) => both(alloc, condition, relation),
    }
}

fn both(alloc: Global, p: Box<WideRel>, q: Box<WideRel>) -> Result<Box<WideRel>, NoMemory>
    ensures { IfOk result (λ r. wide_rel r.value ≡ wide_and (wide_rel p.value) (wide_rel q.value)) }
{
    Ok(Box::new(alloc, WideRel::And(p, q))?)
}

// The relation that an expression over variables of these bases is.
fn wide_truth(
    alloc: Global,
    room: &mut Room,
    before: &[Def],
    bases: &[Base],
    expr: &Expr,
) -> Result<Box<WideRel>, NoMemory>
    ensures { IfOk result (λ r. wide_rel r.value ≡ wide_truth_of (calls_of (map def_tree before.now)) bases.now (expr_tree expr.now)) }
{
    let env = variables(alloc, bases)?;
    let first = expand_first(alloc, room, before, &env, expr)?;
    truth_in(alloc, first)
}

/// The bases of the variables in scope, of the outputs and of the hidden ones.
pub(crate) fn all_bases(alloc: Global, outline: &Outline<'_>) -> Result<Vec<Base>, NoMemory>
    ensures { IfOk result (λ bs. bs.items ≡ bases_of outline.now.scope.now ++ outline.now.outputs.now ++ outline.now.hidden.now) }
{
    let mut all = bases(alloc, outline.scope)?;
    all.extend_from_slice(outline.outputs)?;
    all.extend_from_slice(outline.hidden)?;
    Ok(all)
}

// Each variable as itself.
fn variables(alloc: Global, bases: &[Base]) -> Result<Vec<Part>, NoMemory>
    ensures { IfOk result (λ ps. map part ps.items ≡ variables_from 0 bases.now) }
{
    let mut all = Vec::new(alloc);
    let mut level = 0;
    let mut rest = bases;
    while let Some((base, more)) = rest.split_first() {
        all.push(variable(alloc, *base, level)?)?;
        level = add_u32(level, 1)?;
        rest = more;
    }
    Ok(all)
}

fn variable(alloc: Global, base: Base, level: u32) -> Result<Part, NoMemory>
    ensures { IfOk result (λ p. part p ≡ variable_part base level) }
{
    match base {
        Base::Int => Ok(Part::Number(Box::new(alloc, WideTerm::Var(level))?)),
        Base::Bool => Ok(Part::Truth(Box::new(alloc, WideRel::Truth(level))?)),
        Base::Set => Ok(Part::Set(Box::new(alloc, WideSet::SetVar(level))?)),
    }
}

// The form of a choose without an objective.
fn choose_form(
    alloc: Global,
    room: &mut Room,
    outline: &Outline<'_>,
    relation: &WideRel,
) -> Result<Expr, NoMemory>
    ensures { IfOk result (λ e. expr_tree e ≡ choose_over outline.now.number outline.now.scope.now outline.now.outputs.now outline.now.hidden.now
        (wide_rel relation.now)) }
{
    let chosen = chosen(alloc, room, outline, relation)?;
    if are_as_chosen(outline.outputs, outline.hidden) {
        return Ok(Box::into_inner(chosen));
    }
    given_out(alloc, outline, chosen)
}

// The branches of a choose.
fn chosen(
    alloc: Global,
    room: &mut Room,
    outline: &Outline<'_>,
    relation: &WideRel,
) -> Result<Box<Expr>, NoMemory>
    ensures { IfOk result (λ e. expr_tree e.value ≡ branching_over outline.now.number outline.now.scope.now
        (outline.now.outputs.now ++ outline.now.hidden.now) (wide_rel relation.now) (branched_in outline.now.scope.now (wide_rel relation.now)) []) }
{
    let levels = branched(alloc, outline.scope, relation)?;
    let outputs = joined_bases(alloc, outline.outputs, outline.hidden)?;
    let whole = WholeChoose {
        number: outline.number,
        scope: outline.scope,
        outputs: &outputs,
        relation,
    };
    branching(alloc, room, &whole, &levels, &[])
}

/// The bases of all outputs, the hidden ones last.
pub(crate) fn joined_bases(
    alloc: Global,
    outputs: &[Base],
    hidden: &[Base],
) -> Result<Vec<Base>, NoMemory>
    ensures { IfOk result (λ bs. bs.items ≡ outputs.now ++ hidden.now) }
{
    let mut all = Vec::from_slice(alloc, outputs)?;
    all.extend_from_slice(hidden)?;
    Ok(all)
}

// The choose of each branch, where the truth variables of these levels have no value yet.
fn branching(
    alloc: Global,
    room: &mut Room,
    whole: &WholeChoose<'_>,
    levels: &[u32],
    branch: &[TruthAt],
) -> Result<Box<Expr>, NoMemory>
    ensures { IfOk result (λ e. expr_tree e.value ≡ branching_over whole.now.number whole.now.scope.now whole.now.outputs.now
        (wide_rel whole.now.relation.now) levels.now (map truth_at branch.now)) }
{
    match levels.split_first() {
        None => in_one_branch(alloc, room, whole, branch),
        Some((level, more)) => {
            room.take()?;
            room.enter()?;
            let holds = with_value(alloc, branch, *level, true)?;
            let fails = with_value(alloc, branch, *level, false)?;
            let yes = branching(alloc, room, whole, more, &holds)?;
            match branching(alloc, room, whole, more, &fails) {
                Ok(no) => {
                    room.leave();
                    if_holds(alloc, *level, yes, no)
                }
                Err(fault) => Err(without(yes, fault)),
            }
        }
    }
}

// One or the other, by the truth variable of that level.
fn if_holds(alloc: Global, level: u32, yes: Box<Expr>, no: Box<Expr>) -> Result<Box<Expr>, NoMemory>
    ensures { IfOk result (λ e. expr_tree e.value ≡ expr_if (expr_var level) (expr_tree yes.value) (expr_tree no.value)) }
{
    let test = Box::new(alloc, Expr::Var(level))?;
    Ok(Box::new(alloc, Expr::If { test, yes, no })?)
}

/// A branch in which one more truth variable has a value.
pub(crate) fn with_value(
    alloc: Global,
    branch: &[TruthAt],
    level: u32,
    value: bool,
) -> Result<Vec<TruthAt>, NoMemory>
    ensures { IfOk result (λ b. map truth_at b.items ≡ map truth_at branch.now ++ (level, value) ∷ []) }
{
    let mut all = Vec::from_slice(alloc, branch)?;
    all.push(TruthAt { level, value })?;
    Ok(all)
}

fn in_one_branch(
    alloc: Global,
    room: &mut Room,
    whole: &WholeChoose<'_>,
    branch: &[TruthAt],
) -> Result<Box<Expr>, NoMemory>
    ensures { IfOk result (λ e. expr_tree e.value ≡ expr_choose whole.now.number whole.now.scope.now (map number_base whole.now.outputs.now)
        (relation_over whole.now.scope.now whole.now.outputs.now (wide_rel whole.now.relation.now) (map truth_at branch.now))) }
{
    room.take_all(whole.scope.len())?;
    room.take_all(whole.outputs.len())?;
    let outputs = as_numbers(alloc, whole.outputs)?;
    let scope = copy_params(alloc, whole.scope)?;
    let rel = relation_at(
        alloc,
        room,
        branch,
        whole.scope,
        whole.outputs,
        whole.relation,
    )?;
    let number = whole.number;
    let rel = Box::into_inner(rel);
    Ok(Box::new(
        alloc,
        Expr::Choose {
            number,
            scope,
            outputs,
            rel,
        },
    )?)
}

fn as_numbers(alloc: Global, outputs: &[Base]) -> Result<Vec<Base>, NoMemory>
    ensures { IfOk result (λ bs. bs.items ≡ map number_base outputs.now) }
{
    let mut all = Vec::new(alloc);
    for output in outputs {
        all.push(as_number(*output))?;
    }
    Ok(all)
}

fn as_number(base: Base) -> Base
    ensures { result ≡ number_base base }
{
    match base {
        Base::Int | Base::Bool => Base::Int,
        Base::Set => Base::Set,
    }
}

// Whether all outputs are given out as they are.
fn are_as_chosen(outputs: &[Base], hidden: &[Base]) -> bool
    ensures { result ≡ as_chosen_of outputs.now hidden.now }
{
    match hidden.split_first() {
        None => !has_truths(outputs),
        Some(_) => false,
    }
}

pub(crate) fn has_truths(outputs: &[Base]) -> bool
    ensures { result ≡ has_truths_of outputs.now }
{
    match outputs.split_first() {
        None => false,
        Some((Base::Bool, _)) => true,
        Some((Base::Int | Base::Set, rest)) => has_truths(rest),
    }
}

// The outputs that are given out, behind all of them.
fn given_out(alloc: Global, outline: &Outline<'_>, chosen: Box<Expr>) -> Result<Expr, NoMemory>
    ensures { IfOk result (λ e. expr_tree e ≡ expr_let (length (outline.now.outputs.now ++ outline.now.hidden.now)) (expr_tree chosen.value)
        (one_or_tuple_of (all_given_out_of (length outline.now.scope.now) outline.now.outputs.now))) }
{
    let count = output_count(outline)?;
    let body = given_body(alloc, outline)?;
    let value = chosen;
    Ok(Expr::Let { count, value, body })
}

// How many outputs a choose has, with the hidden ones.
fn output_count(outline: &Outline<'_>) -> Result<u32, NoMemory>
    ensures { IfOk result (λ n. n ≡ length (outline.now.outputs.now ++ outline.now.hidden.now)) }
{
    let shown = to_u32(outline.outputs.len())?;
    let hidden = to_u32(outline.hidden.len())?;
    add_u32(shown, hidden)
}

fn given_body(alloc: Global, outline: &Outline<'_>) -> Result<Box<Expr>, NoMemory>
    ensures { IfOk result (λ e. expr_tree e.value ≡ one_or_tuple_of (all_given_out_of (length outline.now.scope.now) outline.now.outputs.now)) }
{
    let first = to_u32(outline.scope.len())?;
    let parts = all_given_out(alloc, first, outline.outputs)?;
    Ok(Box::new(alloc, one_or_tuple(parts))?)
}

fn all_given_out(alloc: Global, first: u32, outputs: &[Base]) -> Result<Vec<Expr>, NoMemory>
    ensures { IfOk result (λ es. map expr_tree es.items ≡ all_given_out_of first outputs.now) }
{
    let mut all = Vec::new(alloc);
    let mut level = first;
    let mut rest = outputs;
    while let Some((base, more)) = rest.split_first() {
        all.push(output_at(alloc, *base, level)?)?;
        level = add_u32(level, 1)?;
        rest = more;
    }
    Ok(all)
}

// An output as it is given out.
fn output_at(alloc: Global, base: Base, level: u32) -> Result<Expr, NoMemory>
    ensures { IfOk result (λ e. expr_tree e ≡ given_out_of base level) }
{
    match base {
        Base::Int | Base::Set => Ok(Expr::Var(level)),
        Base::Bool => at_least_one(alloc, level),
    }
}

fn at_least_one(alloc: Global, level: u32) -> Result<Expr, NoMemory>
    ensures { IfOk result (λ e. expr_tree e ≡ expr_binary (Compare Ge) (expr_var level) (expr_lit (pos 1))) }
{
    let left = Box::new(alloc, Expr::Var(level))?;
    let right = Box::new(alloc, Expr::Lit(1))?;
    let op = BinOp::Compare(Order::Ge);
    Ok(Expr::Binary { op, left, right })
}

// One, or several as a tuple.
fn one_or_tuple(parts: Vec<Expr>) -> Expr
    ensures { expr_tree result ≡ one_or_tuple_of (map expr_tree parts.items) }
{
    let mut parts = parts;
    if parts.len() != 1 {
        return Expr::Tuple(parts);
    }
    match parts.pop() {
        Some(part) => part,
        None => Expr::Tuple(parts),
    }
}
