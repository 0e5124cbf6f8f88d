//! Which expressions may stand in a relation of edition 3.
ghost use Rattle.std.specs.Prelude.{◌≡◌, ◌++◌, ◌∷◌, [], map, OnOk};
ghost use Rattle.cf_tree.specs.RawView.{raw_tree, raw_trees};
ghost use Rattle.cf_program.specs.Linear.{Found, linear, ◌then◌ as followed, most_of, both_hold as both_hold_of, holders as holders_of, call_found, found as found_of, found_all as found_all_of, found_in as found_in_of};
ghost use Rattle.cf_help.specs.BendView.{FoundAnswer, Tells, bend_seen};
ghost use Rattle.cf_help.specs.HeldView.{held_seen, holder_seen};
ghost use Rattle.cf_help.specs.LastNamed.{backwards};
ghost use Rattle.cf_help.specs.InsideView.{calls_in};

use crate::bend::{Bend, BendFault, Root, bent};
use crate::callees::Callees;
use crate::held::{self, Held, Holder};
use cf_tree::{NoMemory, Place, Raw, RawDef, RawNode, Text, without};
use std::alloc::Global;

/// How many expressions the walk of a relation may still meet. What its calls unfold to can be
/// exponentially greater than the text.
#[derive(Drop)]
struct Steps {
    left: u32,
}

const MOST_STEPS: u32 = 4_000_000;

impl Steps {
    fn take(&mut self) -> Result<(), NoMemory> {
        match self.left.checked_sub(1) {
            Some(left) => {
                self.left = left;
                Ok(())
            }
            None => Err(NoMemory),
        }
    }
}

/// What an expression of a relation stands behind: the first functions, as many as `count`; and
/// whether a product with inputs may stand in it.
#[derive(Drop)]
pub struct Inside<'a> {
    pub alloc: Global,
    pub callees: &'a Callees<'a>,
    pub count: usize,
    pub inputs: bool,
}

// What each part of an expression over these variables holds.
#[cycle(found)]
#[tactic(auto, using(crate::proofs::FoundSteps::bends_then))]
fn found<'a>(
    inside: &Inside,
    steps: &mut Steps,
    holders: &[Holder<'a>],
    raw: &'a Raw,
) -> Result<Vec<Held>, BendFault>
    ensures { FoundAnswer result (found_of inside.now.inputs (calls_in inside.now) (map holder_seen holders.now) (raw_tree raw.now)) }
{
    steps.take()?;
    let alloc = inside.alloc;
    match &raw.node {
        RawNode::Lit(_) | RawNode::Truth(_) => Ok(held::one_part(alloc, Held::Constant)?),
        RawNode::Name(name) => Ok(held::one_part(alloc, held::held_by_name(holders, &name.bytes))?),
        RawNode::Group(a)
        | RawNode::Neg(a)
        | RawNode::Not(a)
        | RawNode::Abs(a)
        | RawNode::Divides { of: a, .. } => found(inside, steps, holders, a),
        RawNode::Div { of: a, .. } | RawNode::Mod { of: a, .. } | RawNode::Card(a) => {
            match found(inside, steps, holders, a) {
                Ok(_) => Ok(held::one_part(alloc, Held::Unknown)?),
                Err(fault) => Err(fault),
            }
        }
        RawNode::SetOf(parts) => match found_all(inside, steps, holders, parts) {
            Ok(held) => held::set_form(alloc, raw.place, parts, held),
            Err(fault) => Err(fault),
        },
        RawNode::Tuple(parts) => found_all(inside, steps, holders, parts),
        RawNode::Chain { parts, .. } | RawNode::Min(parts) | RawNode::Max(parts) => {
            match found_all(inside, steps, holders, parts) {
                Ok(held) => Ok(held::one_part(alloc, held::most_of(&held))?),
                Err(fault) => Err(fault),
            }
        }
        RawNode::Binary { op, left, right } => match found(inside, steps, holders, left) {
            Ok(a) => match found(inside, steps, holders, right) {
                Ok(b) => held::operation(alloc, inside.inputs, *op, raw.place, &a, &b),
                Err(fault) => Err(without(a, fault)),
            },
            Err(fault) => Err(fault),
        },
        RawNode::Call { name, args } => match found_all(inside, steps, holders, args) {
            Ok(held) => found_call(inside, steps, raw.place, name, &held),
            Err(fault) => Err(fault),
        },
        RawNode::If { test, yes, no } => match found(inside, steps, holders, test) {
            Ok(test) => {
                drop(test);
                match found(inside, steps, holders, yes) {
                    Ok(a) => found_no(inside, steps, holders, a, no),
                    Err(fault) => Err(fault),
                }
            }
            Err(fault) => Err(fault),
        },
        RawNode::Let {
            names,
            value,
            body,
            ..
        } => match found(inside, steps, holders, value) {
            Ok(value) => found_let(inside, steps, holders, names, value, body),
            Err(fault) => Err(fault),
        },
        RawNode::Choose { .. } => Err(bent(alloc, raw.place, Root::Choose)),
        RawNode::Match { .. } => Err(bent(alloc, raw.place, Root::Match)),
    }
}

// The last branch of an `if`, whose first branch holds these.
#[cycle(found)]
#[tactic(auto, using(crate::proofs::FoundSteps::bends_then))]
fn found_no<'a>(
    inside: &Inside,
    steps: &mut Steps,
    holders: &[Holder<'a>],
    yes: Vec<Held>,
    no: &'a Raw,
) -> Result<Vec<Held>, BendFault>
    ensures { FoundAnswer result (followed (found_of inside.now.inputs (calls_in inside.now) (map holder_seen holders.now) (raw_tree no.now))
        (λ is. linear (both_hold_of (map held_seen yes.items) is))) }
{
    match found(inside, steps, holders, no) {
        Ok(no) => Ok(held::both_hold(inside.alloc, &yes, &no)?),
        Err(fault) => Err(without(yes, fault)),
    }
}

// The body of a `let` that binds these names to parts that hold these.
#[cycle(found)]
fn found_let<'a>(
    inside: &Inside,
    steps: &mut Steps,
    holders: &[Holder<'a>],
    names: &'a [Text],
    value: Vec<Held>,
    body: &'a Raw,
) -> Result<Vec<Held>, BendFault>
    ensures { FoundAnswer result (found_of inside.now.inputs (calls_in inside.now)
        (map holder_seen holders.now ++ holders_of names.now (map held_seen value.items)) (raw_tree body.now)) }
{
    match held::with_names(inside.alloc, holders, names, &value) {
        Ok(inner) => found(inside, steps, &inner, body),
        Err(_) => Err(BendFault::NoMemory),
    }
}

// Of each what its one value holds.
#[cycle(found)]
#[tactic(auto, using(crate::proofs::FoundSteps::behind_none, crate::proofs::FoundSteps::behind_more, crate::proofs::FoundSteps::all_bends))]
fn found_all<'a>(
    inside: &Inside,
    steps: &mut Steps,
    holders: &[Holder<'a>],
    raws: &'a [Raw],
) -> Result<Vec<Held>, BendFault>
    ensures { FoundAnswer result (found_all_of inside.now.inputs (calls_in inside.now) (map holder_seen holders.now) (raw_trees raws.now)) }
{
    let mut all = Vec::new(inside.alloc);
    for raw in raws {
        match found(inside, steps, holders, raw) {
            Ok(held) => push_most(&mut all, &held)?,
            Err(fault) => return Err(without(all, fault)),
        }
    }
    Ok(all)
}

// A call of that name at this place, whose arguments hold these.
#[cycle(found)]
fn found_call(
    inside: &Inside,
    steps: &mut Steps,
    place: Place,
    name: &Text,
    args: &[Held],
) -> Result<Vec<Held>, BendFault>
    ensures { FoundAnswer result (call_found place name.now (calls_in inside.now name.now (map held_seen args.now))) }
{
    match inside.callees.last_before(inside.count, name) {
        None => Ok(Vec::new(inside.alloc)),
        Some((number, def)) => {
            let params = held::of_params(inside.alloc, &def.params, args)?;
            let body = Inside {
                alloc: inside.alloc,
                callees: inside.callees,
                count: number,
                inputs: inside.inputs,
            };
            match found(&body, steps, &params, &def.body) {
                Ok(held) => Ok(held),
                Err(fault) => Err(call_fault(inside.alloc, place, name, fault)),
            }
        }
    }
}

// Adds what these hold together.
fn push_most(all: &mut Vec<Held>, parts: &[Held]) -> Result<(), NoMemory>
    ensures { OnOk result (map held_seen all.new.items ≡ map held_seen all.old.items ++ most_of (map held_seen parts.now) ∷ []) }
{
    all.push(held::most_of(parts))?;
    Ok(())
}

// The fault of a call at this place, whose body has this fault.
fn call_fault(alloc: Global, place: Place, name: &Text, fault: BendFault) -> BendFault
    ensures { (f : Found) → Tells fault f → Tells result (call_found place name.now f) }
{
    match fault {
        BendFault::Bends(bend) => called_bend(alloc, place, name, bend),
        BendFault::NoMemory => BendFault::NoMemory,
    }
}

#[tactic(auto, using(crate::proofs::FoundSteps::call_bends))]
fn called_bend(alloc: Global, place: Place, name: &Text, bend: Bend) -> BendFault
    ensures { (f : Found) → f ≡ bend_seen bend → Tells result (call_found place name.now f) }
{
    let root = bend.root;
    let mut names = bend.names;
    match push_name(alloc, &mut names, name) {
        Ok(()) => BendFault::Bends(Bend { place, root, names }),
        Err(_) => BendFault::NoMemory,
    }
}

fn push_name(alloc: Global, names: &mut Vec<Text>, name: &Text) -> Result<(), NoMemory>
    ensures { OnOk result (names.new.items ≡ names.old.items ++ name.now ∷ []) }
{
    names.push(name.try_copy(alloc)?)?;
    Ok(())
}

/// What each part of an expression over these variables holds, behind these functions.
#[tactic(auto, unfolding(crate::specs::InsideView::calls_in))]
pub fn found_in<'a>(
    alloc: Global,
    earlier: &'a [&'a RawDef],
    inputs: bool,
    holders: &[Holder<'a>],
    raw: &'a Raw,
) -> Result<Vec<Held>, BendFault>
    ensures { FoundAnswer result (found_in_of inputs (backwards (map (λ d. d.now) earlier.now)) (map holder_seen holders.now) (raw_tree raw.now)) }
{
    let callees = Callees::new(earlier);
    let inside = Inside {
        alloc,
        callees: &callees,
        count: earlier.len(),
        inputs,
    };
    let mut steps = Steps { left: MOST_STEPS };
    found(&inside, &mut steps, holders, raw)
}
