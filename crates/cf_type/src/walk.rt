//! The walk through an expression in the order of its text: what it stands for, or the first rule
//! that it breaks.
ghost use Rattle.std.specs.Prelude.{◌≡◌, ◌+◌, ◌-◌, ◌++◌, ◌∷◌, ◌==◌, [], length, map, OnOk};
ghost use Rattle.cf_tree.specs.RawView.{raw_tree, raw_trees, raw_arm_tree, raw_arm_trees, given_tree, aim_tree};
ghost use Rattle.cf_type.specs.FormParts.{walk_arm as walk_arm_of, walk_choose_where as walk_choose_where_of, related as related_of};
ghost use Rattle.cf_type.specs.FormView.{form_of, forms_of, arms_of, given_form_of, aim_form_of, summand_of, context_of};
ghost use Rattle.cf_tree.specs.declared.base.Edition.TheVariants.{Two};
ghost use Rattle.cf_program.specs.Then.{◌>>=◌ as chained};
ghost use Rattle.cf_program.specs.CheckAnswers.{CheckAnswer};
ghost use Rattle.cf_program.specs.Names.{repeated as repeated_of};
ghost use Rattle.cf_program.specs.declared.fault.TypeFault.TheVariants.{WrongCount};
ghost use Rattle.cf_program.specs.Walk.{where_kept, where_no_fault, where_none_repeated, bound, matched, variables_of, after_arm, no_forms as no_forms_of, no_arms as no_arms_of, output_fault as output_fault_of, binary_form, if_form, let_form, choose_form, choose_part, match_form, in_relation, walk as walk_of, walk_all as walk_all_of, walk_arms as walk_arms_of, walk_given as walk_given_of, walk_aim as walk_aim_of, taken};

use crate::build::{self, Chosen, Site};
use crate::choose_where::{self, outputs_checked};
use crate::context::Context;
use crate::form::{AimForm, Arms, Form, Forms, GivenForm, Summand};
use crate::names::{output_fault, repeated};
use crate::number::divisor;
use crate::pattern::pattern;
use crate::scope::Scope;
use cf_program::TypeFault;
use cf_tree::{
    Aim, BinOp, Edition, Given, Param, Place, Raw, RawAim, RawArm, RawGiven, RawNode, Text,
    add_u32, raw_over_list, raw_over_one, without,
};

// A `let`: its place, and the names that it binds, each with its place.
#[derive(Drop)]
struct LetNames<'a> {
    place: Place,
    texts: &'a [Text],
    places: &'a [Place],
}

/// What an expression in this context stands for, where the variables of `scope` are in
/// scope, and `next` is the next number of a `choose`.
#[cycle(walk)]
#[tactic(auto, using(crate::proofs::WalkSteps::fails_then))]
pub fn walk(context: &Context, scope: &mut Scope, next: u32, raw: &Raw) -> Result<Form, TypeFault>
    ensures { CheckAnswer form_of result
        (walk_of (context_of context.now) scope.old next (raw_tree raw.now))
        × OnOk result (scope.new ≡ scope.old) }
{
    let place = raw.place;
    // for the proof: a `match` is one call where a `?` is three
    match &raw.node {
        RawNode::Lit(k) => build::literal(context.alloc, *k, next),
        RawNode::Truth(t) => build::truth(context.alloc, *t, next),
        RawNode::Name(name) => {
            let constant = context.constant(name);
            build::named(context.alloc, place, next, scope.find(name), constant)
        }
        raw_over_list!(parts) => match walk_all(context, scope, next, parts) {
            Ok(parts) => build::over_row(context, raw, parts),
            Err(fault) => Err(fault),
        },
        RawNode::Group(a) => walk(context, scope, next, a),
        raw_over_one!(a) => match walk(context, scope, next, a) {
            Ok(a) => build::over_one(context.alloc, raw, a),
            Err(fault) => Err(fault),
        },
        RawNode::Divides { k, of } => match divisor(context, scope, k) {
            Ok(k) => match walk(context, scope, next, of) {
                Ok(a) => build::over_number(context.alloc, raw, k, a),
                Err(fault) => Err(fault),
            },
            Err(fault) => Err(fault),
        },
        RawNode::Div { of, k } | RawNode::Mod { of, k } => match walk(context, scope, next, of) {
            Ok(a) => build::with_number(context, scope, raw, k, a),
            Err(fault) => Err(fault),
        },
        RawNode::Chain {
            orders,
            places,
            parts,
        } => match walk_all(context, scope, next, parts) {
            Ok(parts) => build::chain(context.alloc, place, orders, places, parts),
            Err(fault) => Err(fault),
        },
        RawNode::Binary { op, left, right } => match walk(context, scope, next, left) {
            Ok(left) => walk_right(context, scope, place, *op, left, right),
            Err(fault) => Err(fault),
        },
        RawNode::If { test, yes, no } => match walk(context, scope, next, test) {
            Ok(test) => match walk(context, scope, test.next, yes) {
                Ok(yes) => walk_no(context, scope, place, test, yes, no),
                Err(fault) => Err(without(test, fault)),
            },
            Err(fault) => Err(fault),
        },
        RawNode::Let {
            names,
            places,
            value,
            body,
        } => match walk(context, scope, next, value) {
            Ok(value) => {
                let names = LetNames {
                    place,
                    texts: names.as_slice(),
                    places: places.as_slice(),
                };
                walk_let(context, scope, names, value, body)
            }
            Err(fault) => Err(fault),
        },
        RawNode::Choose { outputs, rel, .. } => match context.edition() {
            Edition::Two => {
                let site = Site {
                    place,
                    number: next,
                };
                walk_choose(context, scope, site, outputs, rel)
            }
            Edition::Three => walk_choose_where(context, scope, next, raw),
        },
        RawNode::Match { of, arms } => match walk_matched(context, scope, next, of) {
            Ok(of) => {
                let site = Site {
                    place,
                    number: next,
                };
                walk_match(context, scope, site, of, arms)
            }
            Err(fault) => Err(fault),
        },
    }
}

// An operation whose left side was walked.
#[cycle(walk)]
#[tactic(auto, using(crate::proofs::WalkSteps::fails_then))]
fn walk_right(
    context: &Context,
    scope: &mut Scope,
    place: Place,
    op: BinOp,
    left: Form,
    right: &Raw,
) -> Result<Form, TypeFault>
    ensures { CheckAnswer form_of result
        (chained (walk_of (context_of context.now) scope.old left.next (raw_tree right.now))
        (binary_form (context_of context.now).known place op (form_of left)))
        × OnOk result (scope.new ≡ scope.old) }
{
    match walk(context, scope, left.next, right) {
        Ok(right) => build::binary(context, place, op, left, right),
        Err(fault) => Err(without(left, fault)),
    }
}

// An `if` whose test and first branch were walked.
#[cycle(walk)]
#[tactic(auto, using(crate::proofs::WalkSteps::fails_then))]
fn walk_no(
    context: &Context,
    scope: &mut Scope,
    place: Place,
    test: Form,
    yes: Form,
    no: &Raw,
) -> Result<Form, TypeFault>
    ensures { CheckAnswer form_of result
        (chained (walk_of (context_of context.now) scope.old yes.next (raw_tree no.now))
        (if_form place (form_of test) (form_of yes)))
        × OnOk result (scope.new ≡ scope.old) }
{
    match walk(context, scope, yes.next, no) {
        Ok(no) => build::choice(context.alloc, place, test, yes, no),
        Err(fault) => Err(without(test, without(yes, fault))),
    }
}

// Expressions in a row.
#[cycle(walk)]
#[tactic(auto, using(crate::proofs::WalkSteps::more_fails))]
fn walk_all(
    context: &Context,
    scope: &mut Scope,
    next: u32,
    raws: &[Raw],
) -> Result<Forms, TypeFault>
    ensures { CheckAnswer forms_of result
        (walk_all_of (context_of context.now) scope.old (no_forms_of next) (raw_trees raws.now))
        × OnOk result (scope.new ≡ scope.old) }
{
    let mut done = build::no_forms(context.alloc, next);
    for raw in raws {
        match walk(context, scope, done.next, raw) {
            Ok(form) => build::add_form(&mut done, form)?,
            Err(fault) => return Err(without(done, fault)),
        }
    }
    Ok(done)
}

// A `let` whose value was walked.
#[cycle(walk)]
#[tactic(auto, using(crate::proofs::WalkSteps::fails_then, crate::proofs::WalkSteps::left_again))]
fn walk_let(
    context: &Context,
    scope: &mut Scope,
    names: LetNames,
    value: Form,
    body: &Raw,
) -> Result<Form, TypeFault>
    ensures { CheckAnswer form_of result
        (where_none_repeated (repeated_of (taken (context_of context.now)) names.entry.texts.now names.entry.places.now)
        (where_kept (length names.entry.texts.now == length value.bases.items) (WrongCount names.entry.place)
        (chained (walk_of (context_of context.now)
        (scope.old ++ bound names.entry.texts.now names.entry.places.now value.bases.items) value.next (raw_tree body.now))
        (let_form names.entry.place (length names.entry.texts.now) (form_of value)))))
        × OnOk result (scope.new ≡ scope.old) }
{
    match repeated(context, names.texts, names.places) {
        Ok(None) => (),
        Ok(Some(later)) => return Err(without(value, TypeFault::DuplicateName(later))),
        Err(_) => return Err(without(value, TypeFault::NoMemory)),
    }
    if names.texts.len() != value.bases.len() {
        return Err(without(value, TypeFault::WrongCount(names.place)));
    }
    let size = scope.len();
    match scope.bind(context.alloc, names.texts, names.places, &value.bases) {
        Ok(()) => (),
        Err(_) => return Err(without(value, TypeFault::NoMemory)),
    }
    match walk(context, scope, value.next, body) {
        Ok(body) => {
            scope.leave(size);
            build::binding(context.alloc, names.place, names.texts.len(), value, body)
        }
        Err(fault) => Err(without(value, fault)),
    }
}

// A `choose`.
#[cycle(walk)]
#[tactic(auto, using(crate::proofs::WalkSteps::fails_then, crate::proofs::WalkSteps::read_alike))]
fn walk_choose(
    context: &Context,
    scope: &mut Scope,
    site: Site,
    outputs: &[Param],
    rel: &Raw,
) -> Result<Form, TypeFault>
    ensures { CheckAnswer form_of result
        (where_no_fault (output_fault_of Two (taken (context_of context.now)) outputs.now)
        (chained (chained (walk_of (in_relation (context_of context.now) (length scope.old)) (scope.old ++ outputs.now) (site.number + 1) (raw_tree rel.now))
        (choose_form site.place site.number scope.old outputs.now))
        (λ f. chained (walk_of (context_of context.now) (scope.old ++ outputs.now) (site.number + 1) (raw_tree rel.now)) (choose_part site.place f))))
        × OnOk result (scope.new ≡ scope.old) }
{
    if let Some(fault) = output_fault(context, Edition::Two, outputs)? {
        return Err(fault);
    }
    let next = add_u32(site.number, 1)?;
    let inner = context.in_relation(scope.len());
    let read = walk_inside(&inner, scope, next, outputs, rel)?;
    let chosen = build::choose(context.alloc, site, scope, outputs, read)?;
    if inner.knows_as_many(context) {
        return Ok(chosen);
    }
    match walk_inside(context, scope, next, outputs, rel) {
        Ok(inner) => Ok(build::part(site.place, chosen, inner)),
        Err(fault) => Err(without(chosen, fault)),
    }
}

// A `choose` of edition 3 of this number. No other form is passed to it.
#[cycle(walk)]
#[tactic(auto, using(crate::proofs::WalkSteps::fails_then))]
fn walk_choose_where(
    context: &Context,
    scope: &mut Scope,
    number: u32,
    raw: &Raw,
) -> Result<Form, TypeFault>
    ensures { CheckAnswer form_of result
        (walk_choose_where_of (context_of context.now) scope.old number (raw_tree raw.now))
        × OnOk result (scope.new ≡ scope.old) }
{
    match &raw.node {
        RawNode::Choose {
            outputs,
            hidden,
            given,
            rel,
            aim,
        } => match outputs_checked(context, outputs, hidden) {
            Ok(all) => match walk_given(context, scope, number, given) {
                Ok(given) => match walk_related(context, scope, raw.place, given.next, &all, rel) {
                    Ok(rel) => match walk_aim(context, scope, rel.next, &all, aim) {
                        Ok(aim) => {
                            let site = Site {
                                place: raw.place,
                                number,
                            };
                            let parts = Chosen { given, rel, aim };
                            build::choose_where(context.alloc, site, scope, outputs, hidden, parts)
                        }
                        Err(fault) => Err(without(given, without(rel, fault))),
                    },
                    Err(fault) => Err(without(given, fault)),
                },
                Err(fault) => Err(fault),
            },
            Err(fault) => Err(fault),
        },
        _ => Err(TypeFault::NoMemory),
    }
}

// What a choose of this number takes as given.
#[cycle(walk)]
#[tactic(auto, using(crate::proofs::WalkSteps::fails_then))]
fn walk_given(
    context: &Context,
    scope: &mut Scope,
    number: u32,
    given: &RawGiven,
) -> Result<GivenForm, TypeFault>
    ensures { CheckAnswer given_form_of result
        (walk_given_of (context_of context.now) scope.old (number + 1) (given_tree given.now))
        × OnOk result (scope.new ≡ scope.old) }
{
    let next = add_u32(number, 1)?;
    match given {
        RawGiven::Always => Ok(GivenForm {
            tree: Given::Always,
            next,
        }),
        RawGiven::That { place, rel } => match walk(context, scope, next, rel) {
            Ok(form) => choose_where::given(context, scope, *place, rel, form),
            Err(fault) => Err(fault),
        },
    }
}

// The relation of a choose at this place.
#[cycle(walk)]
#[tactic(auto, using(crate::proofs::WalkSteps::fails_then))]
fn walk_related(
    context: &Context,
    scope: &mut Scope,
    place: Place,
    next: u32,
    outputs: &[Param],
    rel: &Raw,
) -> Result<Form, TypeFault>
    ensures { CheckAnswer form_of result
        (chained (walk_of (context_of context.now) (scope.old ++ outputs.now) next (raw_tree rel.now))
        (related_of (context_of context.now) scope.old outputs.now place (raw_tree rel.now)))
        × OnOk result (scope.new ≡ scope.old) }
{
    match walk_inside(context, scope, next, outputs, rel) {
        Ok(form) => choose_where::related(context, scope, outputs, place, rel, form),
        Err(fault) => Err(fault),
    }
}

// What a choose of these outputs aims at.
#[cycle(walk)]
#[tactic(auto, using(crate::proofs::WalkSteps::fails_then))]
fn walk_aim(
    context: &Context,
    scope: &mut Scope,
    next: u32,
    outputs: &[Param],
    aim: &RawAim,
) -> Result<AimForm, TypeFault>
    ensures { CheckAnswer aim_form_of result
        (walk_aim_of (context_of context.now) scope.old outputs.now next (aim_tree aim.now))
        × OnOk result (scope.new ≡ scope.old) }
{
    match aim {
        RawAim::Any => Ok(AimForm {
            tree: Aim::Any,
            next,
        }),
        RawAim::At {
            place,
            sense,
            objective,
        } => match walk_inside(context, scope, next, outputs, objective) {
            Ok(form) => choose_where::aim(context, scope, outputs, *place, *sense, objective, form),
            Err(fault) => Err(fault),
        },
    }
}

// A part in which these variables are in scope too.
#[cycle(walk)]
#[tactic(auto, using(crate::proofs::WalkSteps::fails_then, crate::proofs::WalkSteps::left_again))]
fn walk_inside(
    context: &Context,
    scope: &mut Scope,
    next: u32,
    params: &[Param],
    raw: &Raw,
) -> Result<Form, TypeFault>
    ensures { CheckAnswer form_of result
        (walk_of (context_of context.now) (scope.old ++ params.now) next (raw_tree raw.now))
        × OnOk result (scope.new ≡ scope.old) }
{
    let size = scope.len();
    scope.enter(context.alloc, params)?;
    let form = walk(context, scope, next, raw)?;
    scope.leave(size);
    Ok(form)
}

// The value of a `match` of this number.
#[cycle(walk)]
#[tactic(auto, using(crate::proofs::WalkSteps::fails_then))]
fn walk_matched(
    context: &Context,
    scope: &mut Scope,
    number: u32,
    value: &Raw,
) -> Result<Form, TypeFault>
    ensures { CheckAnswer form_of result
        (walk_of (context_of context.now) scope.old (number + 1) (raw_tree value.now))
        × OnOk result (scope.new ≡ scope.old) }
{
    let next = add_u32(number, 1)?;
    walk(context, scope, next, value)
}

// A `match` whose value was walked.
#[cycle(walk)]
#[tactic(auto, using(crate::proofs::WalkSteps::fails_then, crate::proofs::WalkSteps::left_last))]
fn walk_match(
    context: &Context,
    scope: &mut Scope,
    site: Site,
    value: Form,
    // for the proof: behind a call that may end early, the measure of a slice would stay open
    arms: &Vec<RawArm>,
) -> Result<Form, TypeFault>
    ensures { CheckAnswer form_of result
        (chained (walk_arms_of (context_of context.now) (scope.old ++ matched site.place ∷ [])
        (no_arms_of value.next) (raw_arm_trees arms.now.items)) (match_form site.place site.number (scope.old ++ matched site.place ∷ []) (form_of value)))
        × OnOk result (scope.new ≡ scope.old) }
{
    match scope.enter_matched(context.alloc, site.place) {
        Ok(()) => (),
        Err(_) => return Err(without(value, TypeFault::NoMemory)),
    }
    match walk_arms(context, scope, value.next, arms) {
        Ok(arms) => {
            let form = build::matching(context.alloc, site, scope, value, arms)?;
            scope.leave_last();
            Ok(form)
        }
        Err(fault) => Err(without(value, fault)),
    }
}

// The arms of a `match`.
#[cycle(walk)]
fn walk_arms(
    context: &Context,
    scope: &mut Scope,
    next: u32,
    arms: &[RawArm],
) -> Result<Arms, TypeFault>
    ensures { CheckAnswer arms_of result
        (walk_arms_of (context_of context.now) scope.old (no_arms_of next) (raw_arm_trees arms.now))
        × OnOk result (scope.new ≡ scope.old) }
{
    let mut done = build::no_arms(context.alloc, next);
    for arm in arms {
        match walk_arm(context, scope, &mut done, arm) {
            Ok(()) => (),
            Err(fault) => return Err(without(done, fault)),
        }
    }
    Ok(done)
}

// An arm behind those that were walked.
#[cycle(walk)]
#[tactic(auto, using(crate::proofs::WalkSteps::fails_then))]
fn walk_arm(
    context: &Context,
    scope: &mut Scope,
    done: &mut Arms,
    arm: &RawArm,
) -> Result<(), TypeFault>
    ensures { CheckAnswer (λ _. arms_of done.new) result
        (walk_arm_of (context_of context.now) scope.old (arms_of done.old) (raw_arm_tree arm.now))
        × OnOk result (scope.new ≡ scope.old) }
{
    let pattern = pattern(context, scope, &arm.parts, arm.constant)?;
    match walk_body(context, scope, done.next, &pattern.summands, &arm.body) {
        Ok(body) => {
            build::add_arm(context.alloc, done, &pattern, body)?;
            Ok(())
        }
        Err(fault) => Err(without(pattern, fault)),
    }
}

// The body of an arm whose pattern has these variables.
#[cycle(walk)]
#[tactic(auto, using(crate::proofs::WalkSteps::fails_then, crate::proofs::WalkSteps::left_again))]
fn walk_body(
    context: &Context,
    scope: &mut Scope,
    next: u32,
    summands: &[Summand],
    body: &Raw,
) -> Result<Form, TypeFault>
    ensures { CheckAnswer form_of result
        (walk_of (context_of context.now) (scope.old ++ variables_of (map summand_of summands.now)) (after_arm next (map summand_of summands.now))
        (raw_tree body.now))
        × OnOk result (scope.new ≡ scope.old) }
{
    let next = build::after_arm_number(next, summands)?;
    let size = scope.len();
    scope.enter_summands(context.alloc, summands)?;
    let body = walk(context, scope, next, body)?;
    scope.leave(size);
    Ok(body)
}
