//! The branches of a choose: one for each choice of values of the truth variables of its scope that it holds.
ghost use Rattle.std.specs.Prelude.{◌≡◌, ◌++◌, ◌∷◌, [], ◌&&◌, ◌||◌, false, IfOk, OnOk, if◌then◌else◌, map, length, filter};
ghost use Rattle.cf_tree.specs.Params.{bases_of};
ghost use Rattle.cf_tree.specs.RelTree.{rel_compare};
ghost use Rattle.cf_tree.specs.RelView.{term_tree, rel_tree};
ghost use Rattle.cf_form.specs.Branches.{in_branch as in_branch_of, is_truth, truth_bounds as bounds_of, truth_levels, folded as folded_of, not_folded as not_folded_of};
ghost use Rattle.cf_form.specs.Alternatives.{all_of};
ghost use Rattle.cf_form.specs.Folding.{known as known_of, and_pick as and_pick_of, or_pick as or_pick_of, pick_of, picked as picked_of, folded_two};
ghost use Rattle.cf_tree.specs.declared.base.Order.TheVariants.{Le};
ghost use Rattle.cf_form.specs.ToldView.{truth_at};
ghost use Rattle.cf_form.specs.Wide.{has_truth};
ghost use Rattle.cf_form.specs.WideView.{wide_rel};

use crate::join::{Join, Pick, both, joined, negated};
use crate::polarity::holding;
use crate::told::TruthAt;
use crate::wide::{Room, WideRel};
use cf_tree::{Base, NoMemory, Order, Param, Rel, Term, add_u32, to_u32, without};
use std::alloc::Global;

/// The levels of the truth variables in scope that stand in a relation.
pub(crate) fn branched(
    alloc: Global,
    scope: &[Param],
    relation: &WideRel,
) -> Result<Vec<u32>, NoMemory>
    ensures { IfOk result (λ xs. xs.items ≡ filter (λ x. has_truth x (wide_rel relation.now) || false) (truth_levels 0 (bases_of scope.now))) }
{
    let mut levels = Vec::new(alloc);
    let mut level = 0;
    let mut rest = scope;
    while let Some((param, more)) = rest.split_first() {
        let branches = is_branched(param.base, level, relation);
        push_if(&mut levels, level, branches)?;
        level = add_u32(level, 1)?;
        rest = more;
    }
    Ok(levels)
}

// Whether a variable of that base and level is a truth variable that stands in a relation.
#[tactic(auto, using(crate::proofs::BranchSteps::or_false))]
fn is_branched(base: Base, level: u32, relation: &WideRel) -> bool
    ensures { result ≡ is_truth base && (has_truth level (wide_rel relation.now) || false) }
{
    match base {
        Base::Bool => relation.has_truth(level),
        Base::Int | Base::Set => false,
    }
}

/// Appends the level if it is wanted.
pub(crate) fn push_if(levels: &mut Vec<u32>, level: u32, is_wanted: bool) -> Result<(), NoMemory>
    ensures { OnOk result (levels.new.items ≡ levels.old.items ++ (if is_wanted then level ∷ [] else [])) }
{
    if is_wanted {
        levels.push(level)?;
    }
    Ok(())
}

/// What a wide relation is in a branch; without truth variables of the scope nothing is folded.
pub(crate) fn in_branch(
    alloc: Global,
    room: &mut Room,
    branch: &[TruthAt],
    relation: &WideRel,
) -> Result<Box<Rel>, NoMemory>
    ensures { IfOk result (λ r. rel_tree r.value ≡ in_branch_of (map truth_at branch.now) (wide_rel relation.now)) }
{
    let held = holding(alloc, room, branch, relation)?;
    match branch.split_first() {
        None => Ok(held),
        Some((_, _)) => folded(alloc, &held),
    }
}

/// The relation by the laws of true and false, from the innermost form outwards.
fn folded(alloc: Global, rel: &Rel) -> Result<Box<Rel>, NoMemory>
    ensures { IfOk result (λ r. rel_tree r.value ≡ folded_of (rel_tree rel.now)) }
{
    match rel {
        Rel::And(p, q) => {
            let a = folded(alloc, p)?;
            let b = folded(alloc, q)?;
            fold_two(alloc, Join::All, a, b)
        }
        Rel::Or(p, q) => {
            let a = folded(alloc, p)?;
            let b = folded(alloc, q)?;
            fold_two(alloc, Join::Some, a, b)
        }
        Rel::Not(p) => not_folded(alloc, folded(alloc, p)?),
        Rel::True
        | Rel::False
        | Rel::Compare { .. }
        | Rel::SameSet(_, _)
        | Rel::OtherSet(_, _)
        | Rel::Subset(_, _)
        | Rel::Divides { .. } => Ok(Box::new(alloc, rel.try_copy(alloc)?)?),
    }
}

// The truth value that a relation is, if it is one.
fn known(rel: &Rel) -> Option<bool>
    ensures { result ≡ known_of (rel_tree rel.now) }
{
    match rel {
        Rel::True => Some(true),
        Rel::False => Some(false),
        Rel::Compare { .. }
        | Rel::SameSet(_, _)
        | Rel::OtherSet(_, _)
        | Rel::Subset(_, _)
        | Rel::Divides { .. }
        | Rel::And(_, _)
        | Rel::Or(_, _)
        | Rel::Not(_) => None,
    }
}

// Two folded relations joined, folded.
#[tactic(auto, using(crate::proofs::FoldSteps::two_folded))]
fn fold_two(alloc: Global, join: Join, a: Box<Rel>, b: Box<Rel>) -> Result<Box<Rel>, NoMemory>
    ensures { IfOk result (λ r. rel_tree r.value ≡ folded_two join (rel_tree a.value) (rel_tree b.value)) }
{
    let pick = pick(join, known(&a), known(&b));
    picked(alloc, join, pick, a, b)
}

// Which of two relations, of which these are truth values, the two joined are.
fn pick(join: Join, a: Option<bool>, b: Option<bool>) -> Pick
    ensures { result ≡ pick_of join a b }
{
    match join {
        Join::All => and_pick(a, b),
        Join::Some => or_pick(a, b),
    }
}

fn and_pick(a: Option<bool>, b: Option<bool>) -> Pick
    ensures { result ≡ and_pick_of a b }
{
    match a {
        Some(true) => Pick::Second,
        Some(false) => Pick::First,
        None => match b {
            Some(true) => Pick::First,
            Some(false) => Pick::Second,
            None => Pick::Both,
        },
    }
}

fn or_pick(a: Option<bool>, b: Option<bool>) -> Pick
    ensures { result ≡ or_pick_of a b }
{
    match a {
        Some(true) => Pick::First,
        Some(false) => Pick::Second,
        None => match b {
            Some(true) => Pick::Second,
            Some(false) => Pick::First,
            None => Pick::Both,
        },
    }
}

fn picked(
    alloc: Global,
    join: Join,
    pick: Pick,
    a: Box<Rel>,
    b: Box<Rel>,
) -> Result<Box<Rel>, NoMemory>
    ensures { IfOk result (λ r. rel_tree r.value ≡ picked_of join pick (rel_tree a.value) (rel_tree b.value)) }
{
    match pick {
        Pick::First => Ok(a),
        Pick::Second => Ok(b),
        Pick::Both => both(alloc, join, a, b),
    }
}

// The negation of a folded relation, folded.
fn not_folded(alloc: Global, a: Box<Rel>) -> Result<Box<Rel>, NoMemory>
    ensures { IfOk result (λ r. rel_tree r.value ≡ not_folded_of (rel_tree a.value)) }
{
    match *a {
        Rel::True => Ok(Box::new(alloc, Rel::False)?),
        Rel::False => Ok(Box::new(alloc, Rel::True)?),
        _ => negated(alloc, a),
    }
}

/// The relation of a branch: that truth outputs, which are numbers, are 0 or 1, and what the relation is there.
pub(crate) fn relation_at(
    alloc: Global,
    room: &mut Room,
    branch: &[TruthAt],
    scope: &[Param],
    outputs: &[Base],
    relation: &WideRel,
) -> Result<Box<Rel>, NoMemory>
    ensures { IfOk result (λ r. rel_tree r.value ≡
        all_of (bounds_of (length scope.now) outputs.now ++ in_branch_of (map truth_at branch.now) (wide_rel relation.now) ∷ [])) }
{
    let first = to_u32(scope.len())?;
    let bounds = truth_bounds(alloc, first, outputs)?;
    match in_branch(alloc, room, branch, relation) {
        Ok(relation) => {
            let all = with_last(bounds, Box::into_inner(relation))?;
            joined(alloc, Join::All, all)
        }
        Err(fault) => Err(without(bounds, fault)),
    }
}

fn with_last(rels: Vec<Rel>, last: Rel) -> Result<Vec<Rel>, NoMemory>
    ensures { IfOk result (λ rs. map rel_tree rs.items ≡ map rel_tree rels.items ++ rel_tree last ∷ []) }
{
    let mut all = rels;
    all.push(last)?;
    Ok(all)
}

// That truth outputs, which are numbers, are 0 or 1; the first output has that level.
fn truth_bounds(alloc: Global, first: u32, outputs: &[Base]) -> Result<Vec<Rel>, NoMemory>
    ensures { IfOk result (λ rs. map rel_tree rs.items ≡ bounds_of first outputs.now) }
{
    let mut bounds = Vec::new(alloc);
    let mut level = first;
    let mut rest = outputs;
    while let Some((base, more)) = rest.split_first() {
        bound_truth(alloc, *base, level, &mut bounds)?;
        level = add_u32(level, 1)?;
        rest = more;
    }
    Ok(bounds)
}

fn bound_truth(alloc: Global, base: Base, level: u32, bounds: &mut Vec<Rel>) -> Result<(), NoMemory>
    ensures { OnOk result (map rel_tree bounds.new.items ≡ map rel_tree bounds.old.items ++ bounds_of level (base ∷ [])) }
{
    match base {
        Base::Bool => {
            bounds.push(at_most(alloc, Term::Lit(0), Term::Var(level))?)?;
            bounds.push(at_most(alloc, Term::Var(level), Term::Lit(1))?)?;
            Ok(())
        }
        Base::Int | Base::Set => Ok(()),
    }
}

fn at_most(alloc: Global, left: Term, right: Term) -> Result<Rel, NoMemory>
    ensures { IfOk result (λ r. rel_tree r ≡ rel_compare Le (term_tree left) (term_tree right)) }
{
    match Box::new(alloc, left) {
        Ok(left) => at_most_boxed(left, Box::new(alloc, right)?),
        Err(_) => Err(without(right, NoMemory)),
    }
}

fn at_most_boxed(left: Box<Term>, right: Box<Term>) -> Result<Rel, NoMemory>
    ensures { IfOk result (λ r. rel_tree r ≡ rel_compare Le (term_tree left.value) (term_tree right.value)) }
{
    let order = Order::Le;
    Ok(Rel::Compare { order, left, right })
}
