//! Names that stand at a place.
ghost use Rattle.std.specs.Prelude.{◌≡◌, Some, None, if◌then◌else◌};
ghost use Rattle.cf_help.specs.Lines.{same_place as same_place_of};
ghost use Rattle.cf_tree.specs.RawView.{number_tree, factor_tree, part_trees, raw_tree, raw_arm_tree, raw_arm_trees};
ghost use Rattle.cf_help.specs.Faults.{number_at as number_at_of, factor_at as factor_at_of, factors_at as factors_at_of, factors_of_arm as factors_of_arm_in, arm_factors_at as arm_factors_at_of, number_in as number_in_of, binder_at as binder_at_of, param_at as param_at_of, part_at as part_at_of, part_of_arm as part_of_arm_in, arm_binder_at as arm_binder_at_of, binder_in as binder_in_of};
ghost use Rattle.cf_help.specs.StopView.{text_seen};

use crate::lines::same_place;
use crate::syntax::or_else;
use cf_tree::{Number, Param, Part, Place, Raw, RawArm, RawNode, Text};

// This name, where it stands at the place.
fn named_at<'a>(place: Place, at: Place, name: &'a [u8]) -> Option<&'a [u8]>
    ensures { text_seen result ≡ (if same_place_of place at then Some name.now else None) }
{
    if same_place(place, at) {
        Some(name)
    } else {
        None
    }
}

// The name of a number at a place.
fn number_at(place: Place, number: &Number) -> Option<&[u8]>
    ensures { text_seen result ≡ number_at_of place (number_tree number.now) }
{
    match number {
        Number::Lit(_) => None,
        Number::Name { place: at, name } => named_at(place, *at, &name.bytes),
    }
}

fn factor_at(place: Place, factor: &Option<Number>) -> Option<&[u8]>
    ensures { text_seen result ≡ factor_at_of place (factor_tree factor.now) }
{
    match factor {
        None => None,
        Some(number) => number_at(place, number),
    }
}

fn factors_at(place: Place, parts: &[Part]) -> Option<&[u8]>
    ensures { text_seen result ≡ factors_at_of place (part_trees parts.now) }
{
    for part in parts {
        match factor_at(place, &part.factor) {
            Some(name) => return Some(name),
            None => {}
        }
    }
    None
}

fn factors_of_arm(place: Place, arm: &RawArm) -> Option<&[u8]>
    ensures { text_seen result ≡ factors_of_arm_in place (raw_arm_tree arm.now) }
{
    factors_at(place, &arm.parts)
}

fn arm_factors_at(place: Place, arms: &[RawArm]) -> Option<&[u8]>
    ensures { text_seen result ≡ arm_factors_at_of place (raw_arm_trees arms.now) }
{
    for arm in arms {
        match factors_of_arm(place, arm) {
            Some(name) => return Some(name),
            None => {}
        }
    }
    None
}

/// The name at a place where a form has a number.
pub fn number_in(place: Place, raw: &Raw) -> Option<&[u8]>
    ensures { text_seen result ≡ number_in_of place (raw_tree raw.now) }
{
    match &raw.node {
        RawNode::Divides { k, .. } | RawNode::Div { k, .. } | RawNode::Mod { k, .. } => {
            number_at(place, k)
        }
        RawNode::Match { arms, .. } => arm_factors_at(place, arms),
        _ => None,
    }
}

fn binder_at<'a>(place: Place, places: &[Place], names: &'a [Text]) -> Option<&'a [u8]>
    ensures { text_seen result ≡ binder_at_of place places.now names.now }
{
    let mut rest = places;
    for name in names {
        match rest.split_first() {
            None => return None,
            Some((at, more)) => {
                if same_place(place, *at) {
                    return Some(&name.bytes);
                }
                rest = more;
            }
        }
    }
    None
}

/// The name of a parameter or an output at a place.
pub fn param_at(place: Place, params: &[Param]) -> Option<&[u8]>
    ensures { text_seen result ≡ param_at_of place params.now }
{
    for param in params {
        if same_place(place, param.place) {
            return Some(&param.name.bytes);
        }
    }
    None
}

fn part_at(place: Place, parts: &[Part]) -> Option<&[u8]>
    ensures { text_seen result ≡ part_at_of place (part_trees parts.now) }
{
    for part in parts {
        if same_place(place, part.place) {
            return Some(&part.name.bytes);
        }
    }
    None
}

fn part_of_arm(place: Place, arm: &RawArm) -> Option<&[u8]>
    ensures { text_seen result ≡ part_of_arm_in place (raw_arm_tree arm.now) }
{
    part_at(place, &arm.parts)
}

fn arm_binder_at(place: Place, arms: &[RawArm]) -> Option<&[u8]>
    ensures { text_seen result ≡ arm_binder_at_of place (raw_arm_trees arms.now) }
{
    for arm in arms {
        match part_of_arm(place, arm) {
            Some(name) => return Some(name),
            None => {}
        }
    }
    None
}

/// The name at a place where a form binds names.
pub fn binder_in(place: Place, raw: &Raw) -> Option<&[u8]>
    ensures { text_seen result ≡ binder_in_of place (raw_tree raw.now) }
{
    match &raw.node {
        RawNode::Let { names, places, .. } => binder_at(place, places, names),
        RawNode::Choose {
            outputs,
            hidden,
            ..
        } => or_else(param_at(place, outputs), param_at(place, hidden)),
        RawNode::Match { arms, .. } => arm_binder_at(place, arms),
        _ => None,
    }
}
