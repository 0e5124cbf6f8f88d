//! The chooses of an expression in the order of their numbers, and the names of their outputs.
use cf_print_block::Outputs;
use cf_tree::{NoMemory, Number, Param, Part, Raw, RawAim, RawArm, RawGiven, RawNode, Text};
use std::alloc::Global;

/// How many numbers were met, and the names of the outputs of those that have some. A match has a number, and so has
/// each of its arms with variables.
#[derive(Drop)]
pub struct Met {
    pub numbers: u32,
    pub outputs: Vec<Outputs>,
}

/// The names of outputs, or of parameters.
pub fn names_of(alloc: Global, params: &[Param]) -> Result<Vec<Text>, NoMemory> {
    let mut names = Vec::new(alloc);
    for param in params {
        names.push(param.name.try_copy(alloc)?)?;
    }
    Ok(names)
}

fn is_among(names: &[&[u8]], name: &[u8]) -> bool {
    for other in names {
        if *other == name {
            return true;
        }
    }
    false
}

// Whether a name of a pattern is a variable behind these constants.
fn is_variable(constants: &[&[u8]], part: &Part) -> bool {
    has_factor(&part.factor) || !is_among(constants, &part.name.bytes)
}

fn has_factor(factor: &Option<Number>) -> bool {
    match factor {
        Some(_) => true,
        None => false,
    }
}

fn variables_of(alloc: Global, constants: &[&[u8]], parts: &[Part]) -> Result<Vec<Text>, NoMemory> {
    let mut names = Vec::new(alloc);
    for part in parts {
        if is_variable(constants, part) {
            names.push(part.name.try_copy(alloc)?)?;
        }
    }
    Ok(names)
}

fn put_outputs(names: Vec<Text>, met: &mut Met) -> Result<(), NoMemory> {
    let number = met.numbers.saturating_add(1);
    met.numbers = number;
    met.outputs.push(Outputs { number, names })?;
    Ok(())
}

fn put_choose(alloc: Global, outputs: &[Param], met: &mut Met) -> Result<(), NoMemory> {
    let names = names_of(alloc, outputs)?;
    put_outputs(names, met)
}

// An arm without variables has no number.
fn put_pattern(
    alloc: Global,
    constants: &[&[u8]],
    parts: &[Part],
    met: &mut Met,
) -> Result<(), NoMemory> {
    let names = variables_of(alloc, constants, parts)?;
    if names.len() == 0 {
        return Ok(());
    }
    put_outputs(names, met)
}

fn put_match(met: &mut Met) {
    met.numbers = met.numbers.saturating_add(1);
}

/// Adds the chooses of an expression behind these constants.
///
/// # Errors
/// `NoMemory` where memory ran out.
#[cycle(meet)]
pub fn meet(alloc: Global, constants: &[&[u8]], raw: &Raw, met: &mut Met) -> Result<(), NoMemory> {
    match &raw.node {
        RawNode::Lit(_) | RawNode::Truth(_) | RawNode::Name(_) => Ok(()),
        RawNode::Group(a)
        | RawNode::Neg(a)
        | RawNode::Not(a)
        | RawNode::Abs(a)
        | RawNode::Card(a)
        | RawNode::Divides { of: a, .. }
        | RawNode::Div { of: a, .. }
        | RawNode::Mod { of: a, .. } => meet(alloc, constants, a, met),
        RawNode::SetOf(parts)
        | RawNode::Tuple(parts)
        | RawNode::Chain { parts, .. }
        | RawNode::Min(parts)
        | RawNode::Max(parts)
        | RawNode::Call { args: parts, .. } => meet_all(alloc, constants, parts, met),
        RawNode::Binary { left, right, .. } => {
            meet(alloc, constants, left, met)?;
            meet(alloc, constants, right, met)?;
            Ok(())
        }
        RawNode::If { test, yes, no } => {
            meet(alloc, constants, test, met)?;
            meet(alloc, constants, yes, met)?;
            meet(alloc, constants, no, met)?;
            Ok(())
        }
        RawNode::Let { value, body, .. } => {
            meet(alloc, constants, value, met)?;
            meet(alloc, constants, body, met)?;
            Ok(())
        }
        RawNode::Choose {
            outputs,
            given,
            rel,
            aim,
            ..
        } => {
            put_choose(alloc, outputs, met)?;
            meet_given(alloc, constants, given, met)?;
            meet(alloc, constants, rel, met)?;
            meet_aim(alloc, constants, aim, met)?;
            Ok(())
        }
        RawNode::Match { of, arms } => {
            put_match(met);
            meet(alloc, constants, of, met)?;
            meet_arms(alloc, constants, arms, met)?;
            Ok(())
        }
    }
}

#[cycle(meet)]
fn meet_all(
    alloc: Global,
    constants: &[&[u8]],
    raws: &[Raw],
    met: &mut Met,
) -> Result<(), NoMemory> {
    for raw in raws {
        meet(alloc, constants, raw, met)?;
    }
    Ok(())
}

#[cycle(meet)]
fn meet_given(
    alloc: Global,
    constants: &[&[u8]],
    given: &RawGiven,
    met: &mut Met,
) -> Result<(), NoMemory> {
    match given {
        RawGiven::Always => Ok(()),
        RawGiven::That { rel, .. } => meet(alloc, constants, rel, met),
    }
}

#[cycle(meet)]
fn meet_aim(
    alloc: Global,
    constants: &[&[u8]],
    aim: &RawAim,
    met: &mut Met,
) -> Result<(), NoMemory> {
    match aim {
        RawAim::Any => Ok(()),
        RawAim::At { objective, .. } => meet(alloc, constants, objective, met),
    }
}

// A pattern has its number before the chooses of the arm's body.
#[cycle(meet)]
fn meet_arm(
    alloc: Global,
    constants: &[&[u8]],
    arm: &RawArm,
    met: &mut Met,
) -> Result<(), NoMemory> {
    put_pattern(alloc, constants, &arm.parts, met)?;
    meet(alloc, constants, &arm.body, met)?;
    Ok(())
}

#[cycle(meet)]
fn meet_arms(
    alloc: Global,
    constants: &[&[u8]],
    arms: &[RawArm],
    met: &mut Met,
) -> Result<(), NoMemory> {
    for arm in arms {
        meet_arm(alloc, constants, arm, met)?;
    }
    Ok(())
}
