//! Which expressions may stand in a relation of edition 3.
ghost use Rattle.std.specs.Prelude.{◌≡◌, ◌++◌, ◌∷◌, [], ℕ, List, map, false, OnOk};
ghost use Rattle.cf_tree.specs.RawView.{raw_tree, raw_trees};
ghost use Rattle.cf_program.specs.Linear.{Found, linear, ◌then◌ as followed, most_of, both_hold as both_hold_of, holders as holders_of, all_hold, is_known, in_choose, call_found, found as found_of, found_all as found_all_of, found_in as found_in_of};
ghost use Rattle.cf_program.specs.CheckAnswers.{CheckFault};
ghost use Rattle.cf_program.specs.Walk.{takes_inputs};
ghost use Rattle.cf_type.specs.FormView.{context_of};
ghost use Rattle.cf_type.specs.HeldView.{held_seen, holder_seen, without_cause, FoundAnswer};
ghost use Rattle.cf_type.specs.InsideView.{calls_in};

use crate::callees::Callees;
use crate::context::Context;
use crate::held::{self, Held, Holder};
use crate::scope::Scope;
use cf_program::TypeFault;
use cf_tree::{NoMemory, Param, Place, Raw, RawNode, Text, without};
use std::alloc::Global;

/// How many expressions the walk of a relation may still meet. What its calls unfold to can be
/// exponentially greater than the text.
#[derive(Drop)]
struct Steps {
    left: u32,
}

const MOST_STEPS: u32 = 4_000_000;

impl Steps {
    fn take(&mut self) -> Result<(), NoMemory> {
        match self.left.checked_sub(1) {
            Some(left) => {
                self.left = left;
                Ok(())
            }
            None => Err(NoMemory),
        }
    }
}

/// What an expression of a relation stands behind: the first functions, as many as `count`; and
/// whether a product with inputs may stand in it.
#[derive(Drop)]
pub struct Inside<'a> {
    pub alloc: Global,
    pub callees: &'a Callees<'a>,
    pub count: usize,
    pub inputs: bool,
}

// What each part of an expression over these variables holds.
#[cycle(found)]
#[tactic(auto, using(crate::proofs::FoundSteps::bends_then))]
fn found<'a>(
    inside: &Inside,
    steps: &mut Steps,
    holders: &[Holder<'a>],
    raw: &'a Raw,
) -> Result<Vec<Held>, TypeFault>
    ensures { FoundAnswer result (found_of inside.now.inputs (calls_in inside.now) (map holder_seen holders.now) (raw_tree raw.now)) }
{
    steps.take()?;
    let alloc = inside.alloc;
    match &raw.node {
        RawNode::Lit(_) | RawNode::Truth(_) => Ok(held::one_part(alloc, Held::Constant)?),
        RawNode::Name(name) => Ok(held::one_part(alloc, held::held_by_name(holders, name))?),
        RawNode::Group(a)
        | RawNode::Neg(a)
        | RawNode::Not(a)
        | RawNode::Abs(a)
        | RawNode::Divides { of: a, .. } => found(inside, steps, holders, a),
        RawNode::Div { of: a, .. } | RawNode::Mod { of: a, .. } | RawNode::Card(a) => {
            match found(inside, steps, holders, a) {
                Ok(_) => Ok(held::one_part(alloc, Held::Unknown)?),
                Err(fault) => Err(fault),
            }
        }
        RawNode::SetOf(parts) => match found_all(inside, steps, holders, parts) {
            Ok(held) => held::set_form(alloc, raw.place, parts, held),
            Err(fault) => Err(fault),
        },
        RawNode::Tuple(parts) => found_all(inside, steps, holders, parts),
        RawNode::Chain { parts, .. } | RawNode::Min(parts) | RawNode::Max(parts) => {
            match found_all(inside, steps, holders, parts) {
                Ok(held) => Ok(held::one_part(alloc, held::most_of(&held))?),
                Err(fault) => Err(fault),
            }
        }
        RawNode::Binary { op, left, right } => match found(inside, steps, holders, left) {
            Ok(a) => match found(inside, steps, holders, right) {
                Ok(b) => held::operation(alloc, inside.inputs, *op, raw.place, &a, &b),
                Err(fault) => Err(without(a, fault)),
            },
            Err(fault) => Err(fault),
        },
        RawNode::Call { name, args } => match found_all(inside, steps, holders, args) {
            Ok(held) => found_call(inside, steps, raw.place, name, &held),
            Err(fault) => Err(fault),
        },
        RawNode::If { test, yes, no } => match found(inside, steps, holders, test) {
            Ok(test) => {
                drop(test);
                match found(inside, steps, holders, yes) {
                    Ok(a) => found_no(inside, steps, holders, a, no),
                    Err(fault) => Err(fault),
                }
            }
            Err(fault) => Err(fault),
        },
        RawNode::Let {
            names,
            value,
            body,
            ..
        } => match found(inside, steps, holders, value) {
            Ok(value) => found_let(inside, steps, holders, names, value, body),
            Err(fault) => Err(fault),
        },
        RawNode::Choose { .. } | RawNode::Match { .. } => Err(TypeFault::NotLinear(raw.place)),
    }
}

// The last branch of an `if`, whose first branch holds these.
#[cycle(found)]
#[tactic(auto, using(crate::proofs::FoundSteps::bends_then))]
fn found_no<'a>(
    inside: &Inside,
    steps: &mut Steps,
    holders: &[Holder<'a>],
    yes: Vec<Held>,
    no: &'a Raw,
) -> Result<Vec<Held>, TypeFault>
    ensures { FoundAnswer result (followed (found_of inside.now.inputs (calls_in inside.now) (map holder_seen holders.now) (raw_tree no.now))
        (λ is. linear (both_hold_of (map held_seen yes.items) is))) }
{
    match found(inside, steps, holders, no) {
        Ok(no) => Ok(held::both_hold(inside.alloc, &yes, &no)?),
        Err(fault) => Err(without(yes, fault)),
    }
}

// The body of a `let` that binds these names to parts that hold these.
#[cycle(found)]
fn found_let<'a>(
    inside: &Inside,
    steps: &mut Steps,
    holders: &[Holder<'a>],
    names: &'a [Text],
    value: Vec<Held>,
    body: &'a Raw,
) -> Result<Vec<Held>, TypeFault>
    ensures { FoundAnswer result (found_of inside.now.inputs (calls_in inside.now)
        (map holder_seen holders.now ++ holders_of names.now (map held_seen value.items)) (raw_tree body.now)) }
{
    match held::with_names(inside.alloc, holders, names, &value) {
        Ok(inner) => found(inside, steps, &inner, body),
        Err(_) => Err(TypeFault::NoMemory),
    }
}

// Of each what its one value holds.
#[cycle(found)]
#[tactic(auto, using(crate::proofs::FoundSteps::behind_none, crate::proofs::FoundSteps::behind_more, crate::proofs::FoundSteps::all_bends))]
fn found_all<'a>(
    inside: &Inside,
    steps: &mut Steps,
    holders: &[Holder<'a>],
    raws: &'a [Raw],
) -> Result<Vec<Held>, TypeFault>
    ensures { FoundAnswer result (found_all_of inside.now.inputs (calls_in inside.now) (map holder_seen holders.now) (raw_trees raws.now)) }
{
    let mut all = Vec::new(inside.alloc);
    for raw in raws {
        match found(inside, steps, holders, raw) {
            Ok(held) => push_most(&mut all, &held)?,
            Err(fault) => return Err(without(all, fault)),
        }
    }
    Ok(all)
}

// A call of that name at this place, whose arguments hold these.
#[cycle(found)]
fn found_call(
    inside: &Inside,
    steps: &mut Steps,
    place: Place,
    name: &Text,
    args: &[Held],
) -> Result<Vec<Held>, TypeFault>
    ensures { FoundAnswer result (call_found place name.now (calls_in inside.now name.now (map held_seen args.now))) }
{
    match inside.callees.last_before(inside.count, name) {
        None => Ok(Vec::new(inside.alloc)),
        Some((number, def)) => {
            let params = held::of_params(inside.alloc, &def.params, args)?;
            let body = Inside {
                alloc: inside.alloc,
                callees: inside.callees,
                count: number,
                inputs: inside.inputs,
            };
            match found(&body, steps, &params, &def.body) {
                Ok(held) => Ok(held),
                Err(fault) => Err(call_fault(place, fault)),
            }
        }
    }
}

// Adds what these hold together.
fn push_most(all: &mut Vec<Held>, parts: &[Held]) -> Result<(), NoMemory>
    ensures { OnOk result (map held_seen all.new.items ≡ map held_seen all.old.items ++ most_of (map held_seen parts.now) ∷ []) }
{
    all.push(held::most_of(parts))?;
    Ok(())
}

// The fault of a call at this place, whose body has this fault.
#[tactic(auto, using(crate::proofs::FoundSteps::call_bends))]
fn call_fault(place: Place, fault: TypeFault) -> TypeFault
    ensures { (x : List ℕ) (f : Found) → CheckFault fault (without_cause f) → CheckFault result (without_cause (call_found place x f)) }
{
    match fault {
        TypeFault::NotLinear(_) => TypeFault::NotLinear(place),
        _ => TypeFault::NoMemory,
    }
}

// What each part of an expression over these variables holds, where it stands in this context.
#[tactic(auto, unfolding(crate::specs::FormView::context_of, crate::specs::InsideView::calls_in))]
fn found_in<'a>(
    context: &Context,
    inputs: bool,
    holders: &[Holder<'a>],
    raw: &'a Raw,
) -> Result<Vec<Held>, TypeFault>
    ensures { FoundAnswer result (found_in_of inputs (context_of context.now).earlier (map holder_seen holders.now) (raw_tree raw.now)) }
{
    let inside = Inside {
        alloc: context.alloc,
        callees: context.callees,
        count: context.number as usize,
        inputs,
    };
    let mut steps = Steps { left: MOST_STEPS };
    found(&inside, &mut steps, holders, raw)
}

// The same over variables that are known, without products with inputs.
fn found_known<'a>(
    context: &Context,
    params: &'a [Param],
    raw: &'a Raw,
) -> Result<Vec<Held>, TypeFault>
    ensures { FoundAnswer result (found_in_of false (context_of context.now).earlier (all_hold is_known params.now) (raw_tree raw.now)) }
{
    let holders = held::all_known(context.alloc, params)?;
    found_in(context, false, &holders, raw)
}

// The same over the scope of a choose and its outputs.
fn found_chosen<'a>(
    context: &Context,
    scope: &'a [Param],
    outputs: &'a [Param],
    raw: &'a Raw,
) -> Result<Vec<Held>, TypeFault>
    ensures { FoundAnswer result (found_in_of (takes_inputs (context_of context.now).how) (context_of context.now).earlier (in_choose scope.now outputs.now)
        (raw_tree raw.now)) }
{
    let holders = held::in_choose(context.alloc, scope, outputs)?;
    found_in(context, context.takes_inputs(), &holders, raw)
}

/// What each part of what a choose takes as given holds, where these variables are in scope.
///
/// # Errors
/// `NotLinear` at the first form that may not stand there.
pub fn found_given(context: &Context, scope: &Scope, raw: &Raw) -> Result<Vec<Held>, TypeFault>
    ensures { FoundAnswer result (found_in_of false (context_of context.now).earlier (all_hold is_known scope.now) (raw_tree raw.now)) }
{
    let params = scope.copied(context.alloc)?;
    found_known(context, &params, &*raw)
}

/// What each part of a relation or of an objective holds, in a choose of these outputs where these
/// variables are in scope.
///
/// # Errors
/// `NotLinear` at the first form that may not stand there.
pub fn found_in_choose(
    context: &Context,
    scope: &Scope,
    outputs: &[Param],
    raw: &Raw,
) -> Result<Vec<Held>, TypeFault>
    ensures { FoundAnswer result (found_in_of (takes_inputs (context_of context.now).how) (context_of context.now).earlier (in_choose scope.now outputs.now)
        (raw_tree raw.now)) }
{
    let params = scope.copied(context.alloc)?;
    found_chosen(context, &params, &*outputs, &*raw)
}
