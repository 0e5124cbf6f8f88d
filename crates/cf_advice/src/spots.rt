//! What stands in a program at the numbers of its chooses, its matches and its patterns.
ghost use Rattle.std.specs.Prelude.{◌≡◌, ◌++◌, ◌∷◌, [], if◌then◌else◌, map, IfOk, OnOk};
ghost use Rattle.cf_tree.specs.DefView.{program_tree, raw_item_tree};
ghost use Rattle.cf_tree.specs.Params.{names_of as the_names_of};
ghost use Rattle.cf_tree.specs.RawView.{factor_tree, given_tree, part_trees, raw_arm_tree, raw_arm_trees, raw_tree, raw_trees};
ghost use Rattle.cf_advice.specs.Ors.{ors_of as the_ors_of};
ghost use Rattle.cf_advice.specs.Spots.{is_among as the_is_among, is_bound as the_is_bound, pattern_spot, put_by, spot_of, spots_among, spots_behind, spots_in};
ghost use Rattle.cf_advice.specs.Spots.{spots_in_arm, spots_in_arms, spots_of as the_spots_of, variables as the_variables};
ghost use Rattle.cf_advice.specs.SpotView.{spot_tree};

use crate::ors::{Or, ors_of};
use cf_tree::{
    NoMemory, Number, Param, Part, Place, Program, Raw, RawArm, RawGiven, RawItem, RawNode, Text,
};
use std::alloc::Global;

/// A place, and the names of the outputs of what stands there: of a choose, or of a pattern its variables. A match has
/// none. Of a choose also the `||` of its relation.
#[derive(Drop)]
pub struct Spot {
    pub place: Place,
    pub outputs: Vec<Text>,
    pub ors: Vec<Or>,
}

/// What stands at the numbers of the chooses, the matches and the patterns with variables, from 1 on. In the relation of
/// a choose none is looked for: a program with one there is refused.
///
/// # Errors
/// `NoMemory` where memory ran out.
pub fn spots_of(alloc: Global, program: &Program) -> Result<Vec<Spot>, NoMemory>
    ensures { IfOk result (λ spots. map spot_tree spots.items ≡ the_spots_of (program_tree program.now)) }
{
    spots_in_items(alloc, &program.items)
}

fn spots_in_items(alloc: Global, items: &[RawItem]) -> Result<Vec<Spot>, NoMemory>
    ensures { IfOk result (λ spots. map spot_tree spots.items ≡ spots_behind [] (map raw_item_tree items.now)) }
{
    let mut out = Vec::new(alloc);
    let mut constants = Vec::new(alloc);
    for item in items {
        put_item(alloc, &mut out, &mut constants, item)?;
    }
    Ok(out)
}

// Adds what a declaration puts: the name of a constant, or the spots of a function.
fn put_item<'a>(
    alloc: Global,
    out: &mut Vec<Spot>,
    constants: &mut Vec<&'a [u8]>,
    item: &'a RawItem,
) -> Result<(), NoMemory>
    ensures { OnOk result ((map spot_tree out.new.items, map (λ n. n.now) constants.new.items)
        ≡ put_by (map spot_tree out.old.items) (map (λ n. n.now) constants.old.items) (raw_item_tree item.now)) }
{
    match item {
        RawItem::Const(constant) => {
            constants.push(&constant.name.bytes)?;
            Ok(())
        }
        RawItem::Def(def) => put_spots(alloc, out, constants, &def.body),
    }
}

// Adds those in an expression behind these constants.
#[cycle(spots)]
fn put_spots(
    alloc: Global,
    out: &mut Vec<Spot>,
    constants: &[&[u8]],
    raw: &Raw,
) -> Result<(), NoMemory>
    ensures { OnOk result (map spot_tree out.new.items ≡ map spot_tree out.old.items ++ spots_in (map (λ n. n.now) constants.now) (raw_tree raw.now)) }
{
    match &raw.node {
        RawNode::Lit(_) | RawNode::Truth(_) | RawNode::Name(_) => Ok(()),
        RawNode::Group(a)
        | RawNode::Neg(a)
        | RawNode::Not(a)
        | RawNode::Abs(a)
        | RawNode::Card(a)
        | RawNode::Divides { of: a, .. }
        | RawNode::Div { of: a, .. }
        | RawNode::Mod { of: a, .. } => put_spots(alloc, out, constants, a),
        RawNode::SetOf(parts)
        | RawNode::Tuple(parts)
        | RawNode::Chain { parts, .. }
        | RawNode::Min(parts)
        | RawNode::Max(parts)
        | RawNode::Call { args: parts, .. } => put_all(alloc, out, constants, parts),
        RawNode::Binary { left, right, .. } => {
            put_spots(alloc, out, constants, left)?;
            put_spots(alloc, out, constants, right)?;
            Ok(())
        }
        RawNode::If { test, yes, no } => {
            put_spots(alloc, out, constants, test)?;
            put_spots(alloc, out, constants, yes)?;
            put_spots(alloc, out, constants, no)?;
            Ok(())
        }
        RawNode::Let { value, body, .. } => {
            put_spots(alloc, out, constants, value)?;
            put_spots(alloc, out, constants, body)?;
            Ok(())
        }
        RawNode::Choose {
            outputs,
            hidden,
            given,
            rel,
            aim: _,
        } => put_choose(alloc, out, raw.place, outputs, hidden, given, rel),
        RawNode::Match { of, arms } => {
            put_match(alloc, out, raw.place)?;
            put_spots(alloc, out, constants, of)?;
            put_arms(alloc, out, constants, arms)?;
            Ok(())
        }
    }
}

#[cycle(spots)]
fn put_all(
    alloc: Global,
    out: &mut Vec<Spot>,
    constants: &[&[u8]],
    raws: &[Raw],
) -> Result<(), NoMemory>
    ensures { OnOk result (map spot_tree out.new.items ≡ map spot_tree out.old.items ++ spots_among (map (λ n. n.now) constants.now) (raw_trees raws.now)) }
{
    for raw in raws {
        put_spots(alloc, out, constants, raw)?;
    }
    Ok(())
}

#[cycle(spots)]
fn put_arm(
    alloc: Global,
    out: &mut Vec<Spot>,
    constants: &[&[u8]],
    arm: &RawArm,
) -> Result<(), NoMemory>
    ensures { OnOk result (map spot_tree out.new.items ≡ map spot_tree out.old.items ++ spots_in_arm (map (λ n. n.now) constants.now) (raw_arm_tree arm.now)) }
{
    put_pattern(alloc, out, constants, &arm.parts)?;
    put_spots(alloc, out, constants, &arm.body)?;
    Ok(())
}

#[cycle(spots)]
fn put_arms(
    alloc: Global,
    out: &mut Vec<Spot>,
    constants: &[&[u8]],
    arms: &[RawArm],
) -> Result<(), NoMemory>
    ensures { OnOk result (map spot_tree out.new.items ≡ map spot_tree out.old.items ++ spots_in_arms (map (λ n. n.now) constants.now) (raw_arm_trees arms.now)) }
{
    for arm in arms {
        put_arm(alloc, out, constants, arm)?;
    }
    Ok(())
}

// ---- one spot
fn put_choose(
    alloc: Global,
    out: &mut Vec<Spot>,
    place: Place,
    outputs: &[Param],
    hidden: &[Param],
    given: &RawGiven,
    rel: &Raw,
) -> Result<(), NoMemory>
    ensures { OnOk result (map spot_tree out.new.items
        ≡ map spot_tree out.old.items ++ (record {
          place = place;
          outputs = the_names_of outputs.now;
          ors = the_ors_of outputs.now hidden.now (given_tree given.now) (raw_tree rel.now);
        }) ∷ []) }
{
    let ors = ors_of(alloc, outputs, hidden, given, rel)?;
    let outputs = names_of(alloc, outputs)?;
    out.push(Spot {
        place,
        outputs,
        ors,
    })?;
    Ok(())
}

fn put_match(alloc: Global, out: &mut Vec<Spot>, place: Place) -> Result<(), NoMemory>
    ensures { OnOk result (map spot_tree out.new.items ≡ map spot_tree out.old.items ++ (record { place = place; outputs = []; ors = [] }) ∷ []) }
{
    let outputs = Vec::new(alloc);
    let ors = Vec::new(alloc);
    out.push(Spot {
        place,
        outputs,
        ors,
    })?;
    Ok(())
}

// Adds the pattern of an arm that has a number.
fn put_pattern(
    alloc: Global,
    out: &mut Vec<Spot>,
    constants: &[&[u8]],
    parts: &[Part],
) -> Result<(), NoMemory>
    ensures { OnOk result (map spot_tree out.new.items ≡ map spot_tree out.old.items ++ pattern_spot (map (λ n. n.now) constants.now) (part_trees parts.now)) }
{
    match parts.split_first() {
        None => Ok(()),
        Some((part, _)) => {
            let names = variables(alloc, constants, parts)?;
            put_variables(alloc, out, part.start, names)
        }
    }
}

// Adds a pattern with these variables, if there are any.
fn put_variables(
    alloc: Global,
    out: &mut Vec<Spot>,
    place: Place,
    names: Vec<Text>,
) -> Result<(), NoMemory>
    ensures { OnOk result (map spot_tree out.new.items ≡ map spot_tree out.old.items ++ spot_of place names.items) }
{
    if names.is_empty() {
        return Ok(());
    }
    let outputs = names;
    let ors = Vec::new(alloc);
    out.push(Spot {
        place,
        outputs,
        ors,
    })?;
    Ok(())
}

// ---- names
fn names_of(alloc: Global, params: &[Param]) -> Result<Vec<Text>, NoMemory>
    ensures { IfOk result (λ names. names.items ≡ the_names_of params.now) }
{
    let mut names = Vec::new(alloc);
    for param in params {
        names.push(param.name.try_copy(alloc)?)?;
    }
    Ok(names)
}

// The variables of a pattern behind these constants.
#[tactic(auto, using(crate::proofs::SpotLaws::one_part))]
fn variables(alloc: Global, constants: &[&[u8]], parts: &[Part]) -> Result<Vec<Text>, NoMemory>
    ensures { IfOk result (λ names. names.items ≡ the_variables (map (λ n. n.now) constants.now) (part_trees parts.now)) }
{
    let mut names = Vec::new(alloc);
    for part in parts {
        put_name(
            alloc,
            &mut names,
            part,
            is_bound(is_among(constants, &part.name.bytes), &part.factor),
        )?;
    }
    Ok(names)
}

fn put_name(
    alloc: Global,
    names: &mut Vec<Text>,
    part: &Part,
    is_variable: bool,
) -> Result<(), NoMemory>
    ensures { OnOk result (names.new.items ≡ names.old.items ++ (if is_variable then part.now.name ∷ [] else [])) }
{
    if is_variable {
        names.push(part.name.try_copy(alloc)?)?;
    }
    Ok(())
}

fn is_among(names: &[&[u8]], name: &[u8]) -> bool
    ensures { result ≡ the_is_among (map (λ n. n.now) names.now) name.now }
{
    for other in names {
        if *other == name {
            return true;
        }
    }
    false
}

// Whether a name with this factor is a variable, where it is that of a constant or not.
fn is_bound(constant: bool, factor: &Option<Number>) -> bool
    ensures { result ≡ the_is_bound constant (factor_tree factor.now) }
{
    match factor {
        Some(_) => true,
        None => !constant,
    }
}
