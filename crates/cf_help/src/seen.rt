//! The first form, from the whole to its parts, at which something is seen.
ghost use Rattle.std.specs.Prelude.{◌≡◌, ◌++◌, [], OnOk};
ghost use Rattle.cf_tree.specs.RawView.{raw_tree, raw_trees, raw_arm_tree, raw_arm_trees, given_tree, aim_tree};
ghost use Rattle.cf_help.specs.Rows.{or_else};
ghost use Rattle.cf_help.specs.ScopeView.{around_of, bindings_seen};
ghost use Rattle.cf_help.specs.Spots.{bindings, named_bases, matched_value, first_in as first_in_of, first_among as first_among_of, first_given as first_given_of, first_aim as first_aim_of, first_arm as first_arm_of, first_of_arm as first_of_arm_in};
ghost use Rattle.cf_help.specs.AskedView.{look_of, found_seen};

use crate::bases::{bases_in, in_pattern};
use crate::looks::{Asked, look};
use crate::scope::{Binding, with_matched, with_names, with_outputs};
use crate::words::FaultWords;
use cf_tree::{Base, NoMemory, Param, Raw, RawAim, RawArm, RawGiven, RawNode, Text};

/// Finds, where nothing is found yet, what is seen first in an expression over these variables.
#[cycle(seen)]
#[tactic(auto, using(crate::proofs::SeenSteps::two, crate::proofs::SeenSteps::three, crate::proofs::SeenSteps::four))]
pub fn first_in<'a>(
    asked: &Asked<'a>,
    outs: &[Binding<'a>],
    variables: &[Binding<'a>],
    raw: &'a Raw,
    found: &mut Option<FaultWords>,
) -> Result<(), NoMemory>
    ensures { OnOk result (found_seen found.new ≡ or_else (found_seen found.old)
        (first_in_of (look_of asked.now) (around_of asked.now.around) (bindings_seen outs.now) (bindings_seen variables.now) (raw_tree raw.now))) }
{
    look(asked, outs, variables, raw, found)?;
    match &raw.node {
        RawNode::Lit(_) | RawNode::Truth(_) | RawNode::Name(_) => Ok(()),
        RawNode::Group(a)
        | RawNode::Neg(a)
        | RawNode::Not(a)
        | RawNode::Abs(a)
        | RawNode::Card(a)
        | RawNode::Divides { of: a, .. }
        | RawNode::Div { of: a, .. }
        | RawNode::Mod { of: a, .. } => {
            first_in(asked, outs, variables, a, found)?;
            Ok(())
        }
        RawNode::SetOf(parts)
        | RawNode::Tuple(parts)
        | RawNode::Chain { parts, .. }
        | RawNode::Min(parts)
        | RawNode::Max(parts)
        | RawNode::Call { args: parts, .. } => {
            first_among(asked, outs, variables, parts, found)?;
            Ok(())
        }
        RawNode::Binary { left, right, .. } => {
            first_in(asked, outs, variables, left, found)?;
            first_in(asked, outs, variables, right, found)?;
            Ok(())
        }
        RawNode::If { test, yes, no } => {
            first_in(asked, outs, variables, test, found)?;
            first_in(asked, outs, variables, yes, found)?;
            first_in(asked, outs, variables, no, found)?;
            Ok(())
        }
        RawNode::Let {
            names,
            value,
            body,
            ..
        } => {
            first_in(asked, outs, variables, value, found)?;
            let bases = bases_in(asked.alloc, &asked.around, variables, value)?;
            first_in_body(asked, outs, variables, names, &bases, body, found)?;
            Ok(())
        }
        RawNode::Choose {
            outputs,
            hidden,
            given,
            rel,
            aim,
        } => {
            first_given(asked, variables, outputs, hidden, given, found)?;
            let inner = with_outputs(asked.alloc, variables, outputs, hidden)?;
            first_in(asked, outs, &inner, rel, found)?;
            first_aim(asked, outs, &inner, aim, found)?;
            Ok(())
        }
        RawNode::Match { of, arms } => {
            first_in(asked, outs, variables, of, found)?;
            let inner = with_matched(asked.alloc, variables)?;
            first_arm(asked, outs, &inner, arms, found)?;
            Ok(())
        }
    }
}

// In the body of a `let` that binds these names to parts of these bases.
#[cycle(seen)]
fn first_in_body<'a>(
    asked: &Asked<'a>,
    outs: &[Binding<'a>],
    variables: &[Binding<'a>],
    names: &'a [Text],
    bases: &[Base],
    body: &'a Raw,
    found: &mut Option<FaultWords>,
) -> Result<(), NoMemory>
    ensures { OnOk result (found_seen found.new ≡ or_else (found_seen found.old) (first_in_of (look_of asked.now) (around_of asked.now.around)
        (bindings_seen outs.now) (bindings_seen variables.now ++ named_bases names.now bases.now) (raw_tree body.now))) }
{
    let inner = with_names(asked.alloc, variables, names, bases)?;
    first_in(asked, outs, &inner, body, found)
}

#[cycle(seen)]
#[tactic(auto, using(crate::proofs::SeenSteps::none, crate::proofs::SeenSteps::two))]
fn first_among<'a>(
    asked: &Asked<'a>,
    outs: &[Binding<'a>],
    variables: &[Binding<'a>],
    raws: &'a [Raw],
    found: &mut Option<FaultWords>,
) -> Result<(), NoMemory>
    ensures { OnOk result (found_seen found.new ≡ or_else (found_seen found.old)
        (first_among_of (look_of asked.now) (around_of asked.now.around) (bindings_seen outs.now) (bindings_seen variables.now) (raw_trees raws.now))) }
{
    for raw in raws {
        first_in(asked, outs, variables, raw, found)?;
    }
    Ok(())
}

// In what is given of a choose of these outputs.
#[cycle(seen)]
#[tactic(auto, using(crate::proofs::SeenSteps::none))]
fn first_given<'a>(
    asked: &Asked<'a>,
    variables: &[Binding<'a>],
    outputs: &'a [Param],
    hidden: &'a [Param],
    given: &'a RawGiven,
    found: &mut Option<FaultWords>,
) -> Result<(), NoMemory>
    ensures { OnOk result (found_seen found.new ≡ or_else (found_seen found.old)
        (first_given_of (look_of asked.now) (around_of asked.now.around) (bindings outputs.now ++ bindings hidden.now) (bindings_seen variables.now)
        (given_tree given.now))) }
{
    match given {
        RawGiven::Always => Ok(()),
        RawGiven::That { rel, .. } => {
            let outs = with_outputs(asked.alloc, &[], outputs, hidden)?;
            first_in(asked, &outs, variables, rel, found)
        }
    }
}

#[cycle(seen)]
#[tactic(auto, using(crate::proofs::SeenSteps::none))]
fn first_aim<'a>(
    asked: &Asked<'a>,
    outs: &[Binding<'a>],
    variables: &[Binding<'a>],
    aim: &'a RawAim,
    found: &mut Option<FaultWords>,
) -> Result<(), NoMemory>
    ensures { OnOk result (found_seen found.new ≡ or_else (found_seen found.old)
        (first_aim_of (look_of asked.now) (around_of asked.now.around) (bindings_seen outs.now) (bindings_seen variables.now) (aim_tree aim.now))) }
{
    match aim {
        RawAim::Any => Ok(()),
        RawAim::At { objective, .. } => first_in(asked, outs, variables, objective, found),
    }
}

#[cycle(seen)]
#[tactic(auto, using(crate::proofs::SeenSteps::none, crate::proofs::SeenSteps::two))]
fn first_arm<'a>(
    asked: &Asked<'a>,
    outs: &[Binding<'a>],
    variables: &[Binding<'a>],
    arms: &'a [RawArm],
    found: &mut Option<FaultWords>,
) -> Result<(), NoMemory>
    ensures { OnOk result (found_seen found.new ≡ or_else (found_seen found.old)
        (first_arm_of (look_of asked.now) (around_of asked.now.around) (bindings_seen outs.now) (bindings_seen variables.now) (raw_arm_trees arms.now))) }
{
    for arm in arms {
        first_of_arm(asked, outs, variables, arm, found)?;
    }
    Ok(())
}

#[cycle(seen)]
fn first_of_arm<'a>(
    asked: &Asked<'a>,
    outs: &[Binding<'a>],
    variables: &[Binding<'a>],
    arm: &'a RawArm,
    found: &mut Option<FaultWords>,
) -> Result<(), NoMemory>
    ensures { OnOk result (found_seen found.new ≡ or_else (found_seen found.old)
        (first_of_arm_in (look_of asked.now) (around_of asked.now.around) (bindings_seen outs.now) (bindings_seen variables.now) (raw_arm_tree arm.now))) }
{
    let inner = in_pattern(asked.alloc, &asked.around, variables, arm)?;
    first_in(asked, outs, &inner, &arm.body, found)
}
