//! Makes trees of their parts.
ghost use Rattle.std.specs.Prelude.{◌≡◌, ◌<◌, ◌+◌, ◌^◌, ◌∷◌, ◌++◌, [], IfOk, Ok, map, max};
ghost use Rattle.cf_tree.specs.RawTree.{raw_binary, raw_arm, raw_depth};
ghost use Rattle.cf_tree.specs.RawView.{raw_tree, raw_arm_tree, part_tree};
ghost use Rattle.cf_reader.specs.Answers.{ReadAnswer};
ghost use Rattle.cf_parse.specs.Reading.{grouped as grouped_of, first_link, more_linked as more_linked_of};
ghost use Rattle.cf_parse.specs.LinksView.{links_tree};

use crate::measured::{Boxed, Links, Measured, MeasuredArm, MeasuredArms, MeasuredList};
use crate::pattern::Pattern;
use cf_reader::ReadStop;
use cf_tree::{BinOp, Order, Place, Raw, RawArm, RawNode};
use std::alloc::Global;

/// The tree with this node, whose deepest part has this depth; 0 where it has no part.
pub fn tree(place: Place, node: RawNode, inner: u32) -> Measured
    requires small { inner < 2 ^ 31 }
    requires deepest { raw_depth (raw_tree (record { place = place; node = node })) ≡ 1 + inner }
    ensures tree { raw_tree result.raw ≡ raw_tree (record { place = place; node = node }) }
    ensures deep { result.depth ≡ 1 + inner }
{
    Measured {
        raw: Raw { place, node },
        depth: 1 + inner,
    }
}

/// An operation of two parts.
pub fn binary(
    alloc: Global,
    place: Place,
    op: BinOp,
    left: Measured,
    right: Boxed,
) -> Result<Measured, ReadStop>
    requires left_in { left.depth < 2 ^ 31 }
    requires right_in { right.depth < 2 ^ 31 }
    ensures value { ReadAnswer (λ x. raw_tree x.raw) result (Ok (raw_binary place op (raw_tree left.raw) (raw_tree right.raw.value))) }
    ensures deep { IfOk result (λ x. x.depth ≡ 1 + max left.depth right.depth) }
{
    let inner = left.depth.max(right.depth);
    let left = Box::new(alloc, left.raw)?;
    let right = right.raw;
    Ok(tree(place, RawNode::Binary { op, left, right }, inner))
}

/// The first link of a chain, between its first two parts.
pub fn linked(
    alloc: Global,
    place: Place,
    order: Order,
    left: Measured,
    right: Measured,
) -> Result<Links, ReadStop>
    ensures value { ReadAnswer links_tree result (Ok (first_link place order (raw_tree left.raw) (raw_tree right.raw))) }
    ensures deep { IfOk result (λ x. x.parts.depth ≡ max left.depth right.depth) }
{
    let parts = pushed(pushed(none(alloc), left)?, right)?;
    Ok(Links {
        orders: Vec::from_slice(alloc, &[order])?,
        places: Vec::from_slice(alloc, &[place])?,
        parts,
    })
}

/// One more link at the end.
pub fn more_linked(links: Links, link: (Place, Order), e: Measured) -> Result<Links, ReadStop>
    ensures value { ReadAnswer links_tree result (Ok (more_linked_of (links_tree links) link (raw_tree e.raw))) }
    ensures deep { IfOk result (λ x. x.parts.depth ≡ max links.parts.depth e.depth) }
{
    let parts = pushed(links.parts, e)?;
    let mut orders = links.orders;
    let mut places = links.places;
    orders.push(link.1)?;
    places.push(link.0)?;
    Ok(Links {
        orders,
        places,
        parts,
    })
}

/// The tree in a box.
pub fn boxed(alloc: Global, e: Measured) -> Result<Boxed, ReadStop>
    ensures value { ReadAnswer (λ x. raw_tree x.raw.value) result (Ok (raw_tree e.raw)) }
    ensures deep { IfOk result (λ x. x.depth ≡ e.depth) }
{
    let depth = e.depth;
    let raw = Box::new(alloc, e.raw)?;
    Ok(Boxed { raw, depth })
}

/// One tree in parentheses, or two or more.
pub fn grouped(alloc: Global, place: Place, list: MeasuredList) -> Result<Measured, ReadStop>
    requires { list.depth < 2 ^ 31 }
    ensures value { ReadAnswer (λ x. raw_tree x.raw) result (Ok (grouped_of place (map raw_tree list.trees.items))) }
    ensures deep { IfOk result (λ x. x.depth ≡ 1 + list.depth) }
{
    let inner = list.depth;
    let mut trees = list.trees;
    if trees.len() == 1 {
        if let Some(e) = trees.pop() {
            let e = Box::new(alloc, e)?;
            return Ok(tree(place, RawNode::Group(e), inner));
        }
    }
    Ok(tree(place, RawNode::Tuple(trees), inner))
}

/// No trees.
pub fn none(alloc: Global) -> MeasuredList
    ensures value { map raw_tree result.trees.items ≡ [] }
    ensures deep { result.depth ≡ 0 }
{
    MeasuredList {
        trees: Vec::new(alloc),
        depth: 0,
    }
}

/// One more tree at the end.
#[tactic(auto, using(crate::proofs::Depths::depths_more))]
pub fn pushed(list: MeasuredList, e: Measured) -> Result<MeasuredList, ReadStop>
    ensures value { ReadAnswer (λ x. map raw_tree x.trees.items) result (Ok (map raw_tree list.trees.items ++ raw_tree e.raw ∷ [])) }
    ensures deep { IfOk result (λ x. x.depth ≡ max list.depth e.depth) }
{
    let depth = list.depth.max(e.depth);
    let mut trees = list.trees;
    trees.push(e.raw)?;
    Ok(MeasuredList { trees, depth })
}

/// An arm of a `match`.
pub fn arm(pattern: Pattern, body: Measured) -> MeasuredArm
    ensures value { raw_arm_tree result.arm ≡ raw_arm (map part_tree pattern.parts.items) pattern.constant (raw_tree body.raw) }
    ensures deep { result.depth ≡ max 1 body.depth }
{
    let depth = body.depth.max(1);
    MeasuredArm {
        arm: RawArm {
            parts: pattern.parts,
            constant: pattern.constant,
            body: body.raw,
        },
        depth,
    }
}

/// No arms.
pub fn no_arms(alloc: Global) -> MeasuredArms
    ensures value { map raw_arm_tree result.arms.items ≡ [] }
    ensures deep { result.depth ≡ 0 }
{
    MeasuredArms {
        arms: Vec::new(alloc),
        depth: 0,
    }
}

/// One more arm at the end.
#[tactic(auto, using(crate::proofs::Depths::arm_depths_more))]
pub fn pushed_arm(list: MeasuredArms, arm: MeasuredArm) -> Result<MeasuredArms, ReadStop>
    ensures value { ReadAnswer (λ x. map raw_arm_tree x.arms.items) result (Ok (map raw_arm_tree list.arms.items ++ raw_arm_tree arm.arm ∷ [])) }
    ensures deep { IfOk result (λ x. x.depth ≡ max list.depth arm.depth) }
{
    let depth = list.depth.max(arm.depth);
    let mut arms = list.arms;
    arms.push(arm.arm)?;
    Ok(MeasuredArms { arms, depth })
}
