//! Copies of source expressions as they are read.
ghost use Rattle.std.specs.Prelude.{◌≡◌, IfOk, map};
ghost use Rattle.cf_tree.specs.RawTree.{raw_name, raw_chain, raw_call, raw_let, raw_choose};
ghost use Rattle.cf_tree.specs.RawView.{raw_tree, raw_trees, raw_node_tree, raw_arm_tree, given_tree, aim_tree};
ghost use Rattle.cf_tree.specs.SameParts.{IsRawOverList, IsRawOverOne, IsRawOverNumber};

use crate::base::{Order, Place, Text};
use crate::copy::words::{copy_params, copy_parts, copy_texts};
use crate::memory::NoMemory;
use crate::raw::{Param, Raw, RawAim, RawArm, RawGiven, RawNode};
use crate::{raw_over_number, raw_over_one};
use std::alloc::Global;

impl Raw {
    /// An equal tree.
    #[cycle(copy_raw)]
    pub fn try_copy(&self, alloc: Global) -> Result<Raw, NoMemory>
        ensures { IfOk result (λ new. raw_tree new ≡ raw_tree self.now) }
    {
        self.node.copy_at(alloc, self.place)
    }

    #[cycle(copy_raw)]
    fn boxed(&self, alloc: Global) -> Result<Box<Raw>, NoMemory>
        ensures { IfOk result (λ new. raw_tree new.value ≡ raw_tree self.now) }
    {
        Ok(Box::new(alloc, self.try_copy(alloc)?)?)
    }
}

impl RawNode {
    #[cycle(copy_raw)]
    fn copy_at(&self, alloc: Global, place: Place) -> Result<Raw, NoMemory>
        ensures { IfOk result (λ new. raw_tree new ≡ raw_node_tree self.now place) }
    {
        match self {
            RawNode::Lit(x) => Ok(raw_at(place, RawNode::Lit(*x))),
            RawNode::Truth(x) => Ok(raw_at(place, RawNode::Truth(*x))),
            RawNode::Name(name) => name_at(alloc, place, name),
            RawNode::SetOf(parts)
            | RawNode::Tuple(parts)
            | RawNode::Min(parts)
            | RawNode::Max(parts) => {
                let parts = copy_raws(alloc, parts)?;
                Ok(self.over_list(place, parts))
            }
            RawNode::Group(a) | raw_over_one!(a) => {
                let part = a.boxed(alloc)?;
                Ok(self.over_one(place, part))
            }
            raw_over_number!(a) => {
                let part = a.boxed(alloc)?;
                self.over_number(alloc, place, part)
            }
            RawNode::Chain {
                orders,
                places,
                parts,
            } => {
                let parts = copy_raws(alloc, parts)?;
                chain_at(alloc, place, orders, places, parts)
            }
            RawNode::Binary { op, left, right } => {
                let left = left.boxed(alloc)?;
                let right = right.boxed(alloc)?;
                let op = *op;
                Ok(raw_at(place, RawNode::Binary { op, left, right }))
            }
            RawNode::Call { name, args } => {
                let args = copy_raws(alloc, args)?;
                call_at(alloc, place, name, args)
            }
            RawNode::If { test, yes, no } => {
                let test = test.boxed(alloc)?;
                let yes = yes.boxed(alloc)?;
                let no = no.boxed(alloc)?;
                Ok(raw_at(place, RawNode::If { test, yes, no }))
            }
            RawNode::Let {
                names,
                places,
                value,
                body,
            } => {
                let value = value.boxed(alloc)?;
                let body = body.boxed(alloc)?;
                let_at(alloc, place, names, places, value, body)
            }
            RawNode::Choose {
                outputs,
                hidden,
                given,
                rel,
                aim,
            } => {
                let given = given.try_copy(alloc)?;
                let rel = rel.boxed(alloc)?;
                let aim = aim.try_copy(alloc)?;
                choose_at(alloc, place, outputs, hidden, given, rel, aim)
            }
            RawNode::Match { of, arms } => {
                let of = of.boxed(alloc)?;
                let arms = copy_arms(alloc, arms)?;
                Ok(raw_at(place, RawNode::Match { of, arms }))
            }
        }
    }

    // The same form over a list of parts equal to its own.
    fn over_list(&self, place: Place, parts: Vec<Raw>) -> Raw
        requires { IsRawOverList (raw_node_tree self.now place) (raw_trees parts.items) }
        ensures { raw_tree result ≡ raw_node_tree self.now place }
    {
        match self {
            RawNode::SetOf(_) => raw_at(place, RawNode::SetOf(parts)),
            RawNode::Tuple(_) => raw_at(place, RawNode::Tuple(parts)),
            RawNode::Min(_) => raw_at(place, RawNode::Min(parts)),
            RawNode::Max(_) => raw_at(place, RawNode::Max(parts)),
            _ => unreachable!(),
        }
    }

    // The same form over a part equal to its own.
    fn over_one(&self, place: Place, a: Box<Raw>) -> Raw
        requires { IsRawOverOne (raw_node_tree self.now place) (raw_tree a.value) }
        ensures { raw_tree result ≡ raw_node_tree self.now place }
    {
        let node = match self {
            RawNode::Group(_) => RawNode::Group(a),
            RawNode::Neg(_) => RawNode::Neg(a),
            RawNode::Not(_) => RawNode::Not(a),
            RawNode::Abs(_) => RawNode::Abs(a),
            RawNode::Card(_) => RawNode::Card(a),
            _ => unreachable!(),
        };
        Raw { place, node }
    }

    // The same form over a part equal to its own, and an equal number.
    fn over_number(&self, alloc: Global, place: Place, of: Box<Raw>) -> Result<Raw, NoMemory>
        requires { IsRawOverNumber (raw_node_tree self.now place) (raw_tree of.value) }
        ensures { IfOk result (λ new. raw_tree new ≡ raw_node_tree self.now place) }
    {
        match self {
            RawNode::Divides { k, .. } => {
                let k = k.try_copy(alloc)?;
                Ok(raw_at(place, RawNode::Divides { k, of }))
            }
            RawNode::Div { k, .. } => {
                let k = k.try_copy(alloc)?;
                Ok(raw_at(place, RawNode::Div { of, k }))
            }
            RawNode::Mod { k, .. } => {
                let k = k.try_copy(alloc)?;
                Ok(raw_at(place, RawNode::Mod { of, k }))
            }
            _ => unreachable!(),
        }
    }
}

impl RawGiven {
    #[cycle(copy_raw)]
    fn try_copy(&self, alloc: Global) -> Result<RawGiven, NoMemory>
        ensures { IfOk result (λ new. given_tree new ≡ given_tree self.now) }
    {
        match self {
            RawGiven::Always => Ok(RawGiven::Always),
            RawGiven::That { place, rel } => {
                let rel = rel.boxed(alloc)?;
                Ok(RawGiven::That { place: *place, rel })
            }
        }
    }
}

impl RawAim {
    #[cycle(copy_raw)]
    fn try_copy(&self, alloc: Global) -> Result<RawAim, NoMemory>
        ensures { IfOk result (λ new. aim_tree new ≡ aim_tree self.now) }
    {
        match self {
            RawAim::Any => Ok(RawAim::Any),
            RawAim::At {
                place,
                sense,
                objective,
            } => {
                let objective = objective.boxed(alloc)?;
                Ok(RawAim::At {
                    place: *place,
                    sense: *sense,
                    objective,
                })
            }
        }
    }
}

impl RawArm {
    /// An equal tree.
    #[cycle(copy_raw)]
    pub fn try_copy(&self, alloc: Global) -> Result<RawArm, NoMemory>
        ensures { IfOk result (λ new. raw_arm_tree new ≡ raw_arm_tree self.now) }
    {
        Ok(RawArm {
            parts: copy_parts(alloc, &self.parts)?,
            constant: self.constant,
            body: self.body.try_copy(alloc)?,
        })
    }
}

#[cycle(copy_raw)]
fn copy_raws(alloc: Global, raws: &[Raw]) -> Result<Vec<Raw>, NoMemory>
    ensures { IfOk result (λ new. map raw_tree new.items ≡ map raw_tree raws.now) }
{
    let mut all = Vec::new(alloc);
    for raw in raws {
        all.push(raw.try_copy(alloc)?)?;
    }
    Ok(all)
}

#[cycle(copy_raw)]
fn copy_arms(alloc: Global, arms: &[RawArm]) -> Result<Vec<RawArm>, NoMemory>
    ensures { IfOk result (λ new. map raw_arm_tree new.items ≡ map raw_arm_tree arms.now) }
{
    let mut all = Vec::new(alloc);
    for arm in arms {
        all.push(arm.try_copy(alloc)?)?;
    }
    Ok(all)
}

// A name, copied.
fn name_at(alloc: Global, place: Place, name: &Text) -> Result<Raw, NoMemory>
    ensures { IfOk result (λ new. raw_tree new ≡ raw_name place name.now) }
{
    let name = name.try_copy(alloc)?;
    Ok(raw_at(place, RawNode::Name(name)))
}

// A call with an equal name and these arguments.
fn call_at(alloc: Global, place: Place, name: &Text, args: Vec<Raw>) -> Result<Raw, NoMemory>
    ensures { IfOk result (λ new. raw_tree new ≡ raw_call place name.now (raw_trees args.items)) }
{
    let name = name.try_copy(alloc)?;
    Ok(raw_at(place, RawNode::Call { name, args }))
}

// A `let` of equal names with these parts.
fn let_at(
    alloc: Global,
    place: Place,
    names: &[Text],
    places: &[Place],
    value: Box<Raw>,
    body: Box<Raw>,
) -> Result<Raw, NoMemory>
    ensures { IfOk result (λ new. raw_tree new ≡ raw_let place names.now places.now (raw_tree value.value) (raw_tree body.value)) }
{
    let names = copy_texts(alloc, names)?;
    let places = Vec::from_slice(alloc, places)?;
    Ok(raw_at(
        place,
        RawNode::Let {
            names,
            places,
            value,
            body,
        },
    ))
}

// A chain of these parts, with equal orders and places.
fn chain_at(
    alloc: Global,
    place: Place,
    orders: &[Order],
    places: &[Place],
    parts: Vec<Raw>,
) -> Result<Raw, NoMemory>
    ensures { IfOk result (λ new. raw_tree new ≡ raw_chain place orders.now places.now (raw_trees parts.items)) }
{
    let orders = Vec::from_slice(alloc, orders)?;
    let places = Vec::from_slice(alloc, places)?;
    Ok(raw_at(
        place,
        RawNode::Chain {
            orders,
            places,
            parts,
        },
    ))
}

// A `choose` of equal outputs and hidden ones over these parts.
fn choose_at(
    alloc: Global,
    place: Place,
    outputs: &[Param],
    hidden: &[Param],
    given: RawGiven,
    rel: Box<Raw>,
    aim: RawAim,
) -> Result<Raw, NoMemory>
    ensures { IfOk result (λ new. raw_tree new ≡
        raw_choose place outputs.now hidden.now (given_tree given) (raw_tree rel.value) (aim_tree aim)) }
{
    let outputs = copy_params(alloc, outputs)?;
    let hidden = copy_params(alloc, hidden)?;
    Ok(raw_at(
        place,
        RawNode::Choose {
            outputs,
            hidden,
            given,
            rel,
            aim,
        },
    ))
}

fn raw_at(place: Place, node: RawNode) -> Raw
    ensures { raw_tree result ≡ raw_node_tree node place }
{
    Raw { place, node }
}
