//! Places of chooses and functions.
ghost use Rattle.std.specs.Prelude.{◌≡◌, ◌++◌, [], map, IfOk, OnOk};
ghost use Rattle.cf_tree.specs.DefView.{program_tree, raw_item_tree};
ghost use Rattle.cf_tree.specs.RawView.{raw_tree, raw_trees, raw_arm_tree, raw_arm_trees, given_tree, aim_tree, part_tree, part_trees, factor_tree};
ghost use Rattle.cf_program.specs.Checked.{functions_of};
ghost use Rattle.cf_program.specs.Names.{is_among as is_among_names};
ghost use Rattle.cf_help.specs.Spots.{is_bound as is_bound_of, is_variable as is_variable_of};
ghost use Rattle.cf_help.specs.Numbers.{has_variables as has_variables_of, pattern_place, numbered, all_numbered, given_numbered, aim_numbered, arm_numbered, arms_numbered, numbered_items, put_by, number_place as number_place_of, function_place as function_place_of};

use cf_tree::{
    NoMemory, Number, Part, Place, Program, Raw, RawAim, RawArm, RawGiven, RawItem, RawNode,
};
use std::alloc::Global;

/// Whether a name is one of these.
pub fn is_among(names: &[&[u8]], name: &[u8]) -> bool
    ensures { result ≡ is_among_names (map (λ n. n.now) names.now) name.now }
{
    for other in names {
        if *other == name {
            return true;
        }
    }
    false
}

// Whether a name with this factor is a variable, where it is that of a constant or not.
fn is_bound(constant: bool, factor: &Option<Number>) -> bool
    ensures { result ≡ is_bound_of constant (factor_tree factor.now) }
{
    match factor {
        Some(_) => true,
        None => !constant,
    }
}

/// Whether a name of a pattern is a variable behind these constants.
pub fn is_variable(constants: &[&[u8]], part: &Part) -> bool
    ensures { result ≡ is_variable_of (map (λ n. n.now) constants.now) (part_tree part.now) }
{
    is_bound(is_among(constants, &part.name.bytes), &part.factor)
}

fn has_variables(constants: &[&[u8]], parts: &[Part]) -> bool
    ensures { result ≡ has_variables_of (map (λ n. n.now) constants.now) (part_trees parts.now) }
{
    for part in parts {
        if is_variable(constants, part) {
            return true;
        }
    }
    false
}

// Puts the place of the pattern of an arm that has a number.
fn put_pattern(out: &mut Vec<Place>, constants: &[&[u8]], parts: &[Part]) -> Result<(), NoMemory>
    ensures { OnOk result (out.new.items ≡ out.old.items ++ pattern_place (map (λ n. n.now) constants.now) (part_trees parts.now)) }
{
    match parts.split_first() {
        None => Ok(()),
        Some((part, _)) => if has_variables(constants, parts) {
            out.push(part.start)?;
            Ok(())
        } else {
            Ok(())
        },
    }
}

// Puts the places of the chooses, matches and arms of an expression behind these constants, in the
// order of their numbers.
#[cycle(numbered)]
fn put_numbered(out: &mut Vec<Place>, constants: &[&[u8]], raw: &Raw) -> Result<(), NoMemory>
    ensures { OnOk result (out.new.items ≡ out.old.items ++ numbered (map (λ n. n.now) constants.now) (raw_tree raw.now)) }
{
    match &raw.node {
        RawNode::Lit(_) | RawNode::Truth(_) | RawNode::Name(_) => Ok(()),
        RawNode::Group(a)
        | RawNode::Neg(a)
        | RawNode::Not(a)
        | RawNode::Abs(a)
        | RawNode::Card(a)
        | RawNode::Divides { of: a, .. }
        | RawNode::Div { of: a, .. }
        | RawNode::Mod { of: a, .. } => put_numbered(out, constants, a),
        RawNode::SetOf(parts)
        | RawNode::Tuple(parts)
        | RawNode::Chain { parts, .. }
        | RawNode::Min(parts)
        | RawNode::Max(parts)
        | RawNode::Call { args: parts, .. } => put_all(out, constants, parts),
        RawNode::Binary { left, right, .. } => {
            put_numbered(out, constants, left)?;
            put_numbered(out, constants, right)?;
            Ok(())
        }
        RawNode::If { test, yes, no } => {
            put_numbered(out, constants, test)?;
            put_numbered(out, constants, yes)?;
            put_numbered(out, constants, no)?;
            Ok(())
        }
        RawNode::Let { value, body, .. } => {
            put_numbered(out, constants, value)?;
            put_numbered(out, constants, body)?;
            Ok(())
        }
        RawNode::Choose {
            given,
            rel,
            aim,
            ..
        } => {
            out.push(raw.place)?;
            put_given(out, constants, given)?;
            put_numbered(out, constants, rel)?;
            put_aim(out, constants, aim)?;
            Ok(())
        }
        RawNode::Match { of, arms } => {
            out.push(raw.place)?;
            put_numbered(out, constants, of)?;
            put_arms(out, constants, arms)?;
            Ok(())
        }
    }
}

#[cycle(numbered)]
fn put_all(out: &mut Vec<Place>, constants: &[&[u8]], raws: &[Raw]) -> Result<(), NoMemory>
    ensures { OnOk result (out.new.items ≡ out.old.items ++ all_numbered (map (λ n. n.now) constants.now) (raw_trees raws.now)) }
{
    for raw in raws {
        put_numbered(out, constants, raw)?;
    }
    Ok(())
}

#[cycle(numbered)]
fn put_given(out: &mut Vec<Place>, constants: &[&[u8]], given: &RawGiven) -> Result<(), NoMemory>
    ensures { OnOk result (out.new.items ≡ out.old.items ++ given_numbered (map (λ n. n.now) constants.now) (given_tree given.now)) }
{
    match given {
        RawGiven::Always => Ok(()),
        RawGiven::That { rel, .. } => put_numbered(out, constants, rel),
    }
}

#[cycle(numbered)]
fn put_aim(out: &mut Vec<Place>, constants: &[&[u8]], aim: &RawAim) -> Result<(), NoMemory>
    ensures { OnOk result (out.new.items ≡ out.old.items ++ aim_numbered (map (λ n. n.now) constants.now) (aim_tree aim.now)) }
{
    match aim {
        RawAim::Any => Ok(()),
        RawAim::At { objective, .. } => put_numbered(out, constants, objective),
    }
}

#[cycle(numbered)]
fn put_arm(out: &mut Vec<Place>, constants: &[&[u8]], arm: &RawArm) -> Result<(), NoMemory>
    ensures { OnOk result (out.new.items ≡ out.old.items ++ arm_numbered (map (λ n. n.now) constants.now) (raw_arm_tree arm.now)) }
{
    put_pattern(out, constants, &arm.parts)?;
    put_numbered(out, constants, &arm.body)?;
    Ok(())
}

#[cycle(numbered)]
fn put_arms(out: &mut Vec<Place>, constants: &[&[u8]], arms: &[RawArm]) -> Result<(), NoMemory>
    ensures { OnOk result (out.new.items ≡ out.old.items ++ arms_numbered (map (λ n. n.now) constants.now) (raw_arm_trees arms.now)) }
{
    for arm in arms {
        put_arm(out, constants, arm)?;
    }
    Ok(())
}

// Adds what a declaration puts: the name of a constant, or the places of a function.
fn put_item<'a>(
    out: &mut Vec<Place>,
    constants: &mut Vec<&'a [u8]>,
    item: &'a RawItem,
) -> Result<(), NoMemory>
    ensures { OnOk result ((out.new.items, map (λ n. n.now) constants.new.items)
        ≡ put_by out.old.items (map (λ n. n.now) constants.old.items) (raw_item_tree item.now)) }
{
    match item {
        RawItem::Const(constant) => {
            constants.push(&constant.name.bytes)?;
            Ok(())
        }
        RawItem::Def(def) => put_numbered(out, constants, &def.body),
    }
}

// The places of all chooses, matches and arms of a program, in the order of their numbers.
fn all_places(alloc: Global, items: &[RawItem]) -> Result<Vec<Place>, NoMemory>
    ensures { IfOk result (λ places. places.items ≡ numbered_items [] (map raw_item_tree items.now)) }
{
    let mut out = Vec::new(alloc);
    let mut constants = Vec::new(alloc);
    for item in items {
        put_item(&mut out, &mut constants, item)?;
    }
    Ok(out)
}

/// The place of the `choose`, the `match` or the pattern that has this number.
///
/// # Errors
/// Want of memory alone: where a pattern begins depends on the constants before it.
pub fn number_place(alloc: Global, items: &Program, number: u32) -> Result<Option<Place>, NoMemory>
    ensures { IfOk result (λ p. p ≡ number_place_of (program_tree items.now) number) }
{
    let places = all_places(alloc, &items.items)?;
    Ok(places.get(number.saturating_sub(1) as usize).copied())
}

/// The place of the word `def` of the function of this number, counted from 0.
pub fn function_place(items: &Program, function: u32) -> Option<Place>
    ensures { result ≡ function_place_of (functions_of (program_tree items.now)) function }
{
    nth_function(&items.items, function)
}

fn nth_function(items: &[RawItem], function: u32) -> Option<Place>
    ensures { result ≡ function_place_of (functions_of (map raw_item_tree items.now)) function }
{
    let mut left = function;
    for item in items {
        match item {
            RawItem::Const(_) => {}
            RawItem::Def(def) => {
                if left == 0 {
                    return Some(def.place);
                }
                left -= 1;
            }
        }
    }
    None
}
