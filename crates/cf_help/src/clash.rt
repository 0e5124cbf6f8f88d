//! What is wrong with the types of the parts of a form.
ghost use Rattle.std.specs.Prelude.{◌≡◌, ◌++◌, [], codes, IfOk, Some, None, if◌then◌else◌};
ghost use Rattle.cf_tree.specs.DefView.{raw_item_tree};
ghost use Rattle.cf_tree.specs.RawView.{raw_tree, raw_trees, raw_arm_tree, raw_arm_trees, given_tree, aim_tree};
ghost use Rattle.cf_tree.specs.RawTree.{raw_more};
ghost use Rattle.cf_tree.specs.Params.{bases_of};
ghost use Rattle.cf_program.specs.Walk.{side_of};
ghost use Rattle.cf_tree.specs.declared.base.Base.TheVariants.{Int, Bool as Truth};
ghost use Rattle.cf_help.specs.AskedView.{found_seen};
ghost use Rattle.cf_help.specs.Faults.{none_is_not as none_is_not_of, not_single_one, not_single as not_single_of, not_sides as not_sides_of, asked_found as asked_found_of, type_text as type_text_of, clash_there, not_links as not_links_of, not_params as not_params_of, not_arms as not_arms_of, not_given as not_given_of, not_aim as not_aim_of, not_one as not_one_of, not_types as not_types_of, not_numbers as not_numbers_of, params_of as params_of_def, where_at as where_at_of, clash as clash_of, mismatch_words as mismatch_words_of, mismatch_at as mismatch_at_of, item_clash as item_clash_of};
ghost use Rattle.cf_help.specs.Rows.{or_else as or_else_of};
ghost use Rattle.cf_help.specs.ScopeView.{around_of, bindings_seen, def_seen};
ghost use Rattle.cf_help.specs.Spots.{matched_value, bases_in as bases_in_of, arm_bases_in as arm_bases_in_of, bases_of_arm as bases_of_arm_in, function_of as function_of_name};

use crate::bases::{arm_bases_in, bases_in, bases_of_arm, function_of};
use crate::lines::same_place;
use crate::pieces::joined;
use crate::scope::{Around, Binding, with_matched, with_outputs};
use crate::types::{asked_found, not_numbers, not_one, not_sides, not_types, type_text};
use crate::words::FaultWords;
use cf_tree::{
    Base, BinOp, NoMemory, Param, Place, Raw, RawAim, RawArm, RawDef, RawGiven, RawItem, RawNode,
    Text,
};
use std::alloc::Global;

// An expression over these variables that is no value of this one base.
fn is_not<'a>(
    alloc: Global,
    around: &Around,
    variables: &[Binding<'a>],
    base: Base,
    raw: &'a Raw,
) -> Result<Option<Text>, NoMemory>
    ensures { IfOk result (λ t. t ≡ not_one_of base (bases_in_of (around_of around.now) (bindings_seen variables.now) (raw_tree raw.now))) }
{
    let bases = bases_in(alloc, around, variables, raw)?;
    not_one(alloc, base, &bases)
}

fn none_is_not<'a>(
    alloc: Global,
    around: &Around,
    variables: &[Binding<'a>],
    base: Base,
    raws: &'a [Raw],
) -> Result<Option<Text>, NoMemory>
    ensures { IfOk result (λ t. t ≡ none_is_not_of base (around_of around.now) (bindings_seen variables.now) (raw_trees raws.now)) }
{
    for raw in raws {
        match is_not(alloc, around, variables, base, raw)? {
            Some(text) => return Ok(Some(text)),
            None => {}
        }
    }
    Ok(None)
}

fn single<'a>(
    alloc: Global,
    around: &Around,
    variables: &[Binding<'a>],
    raw: &'a Raw,
) -> Result<Option<Text>, NoMemory>
    ensures { IfOk result (λ t. t ≡ not_single_one (bases_in_of (around_of around.now) (bindings_seen variables.now) (raw_tree raw.now))) }
{
    let bases = bases_in(alloc, around, variables, raw)?;
    if bases.len() == 1 {
        Ok(None)
    } else {
        let text = asked_found(alloc, b"one value", &bases)?;
        Ok(Some(text))
    }
}

fn not_single<'a>(
    alloc: Global,
    around: &Around,
    variables: &[Binding<'a>],
    raws: &'a [Raw],
) -> Result<Option<Text>, NoMemory>
    ensures { IfOk result (λ t. t ≡ not_single_of (around_of around.now) (bindings_seen variables.now) (raw_trees raws.now)) }
{
    for raw in raws {
        match single(alloc, around, variables, raw)? {
            Some(text) => return Ok(Some(text)),
            None => {}
        }
    }
    Ok(None)
}

// The sides of one order.
fn not_numbers_both<'a>(
    alloc: Global,
    around: &Around,
    variables: &[Binding<'a>],
    left: &'a Raw,
    right: &'a Raw,
) -> Result<Option<Text>, NoMemory>
    ensures { IfOk result (λ t. t ≡ or_else_of
        (not_one_of Int (bases_in_of (around_of around.now) (bindings_seen variables.now) (raw_tree left.now)))
        (not_one_of Int (bases_in_of (around_of around.now) (bindings_seen variables.now) (raw_tree right.now)))) }
{
    match is_not(alloc, around, variables, Base::Int, left)? {
        Some(text) => Ok(Some(text)),
        None => is_not(alloc, around, variables, Base::Int, right),
    }
}

// The sides of the order at a place, of these orders between parts, of which `first` is the first.
fn not_links_from<'a>(
    alloc: Global,
    place: Place,
    around: &Around,
    variables: &[Binding<'a>],
    places: &[Place],
    first: &'a Raw,
    more: &'a [Raw],
) -> Result<Option<Text>, NoMemory>
    ensures { IfOk result (λ t. t ≡ not_links_of place (around_of around.now) (bindings_seen variables.now) places.now
        (raw_more (raw_tree first.now) (raw_trees more.now))) }
{
    let mut left = first;
    let mut rest = places;
    for right in more {
        match rest.split_first() {
            None => return Ok(None),
            Some((at, later)) => {
                if same_place(place, *at) {
                    return not_numbers_both(alloc, around, variables, left, right);
                }
                left = right;
                rest = later;
            }
        }
    }
    Ok(None)
}

fn not_links<'a>(
    alloc: Global,
    place: Place,
    around: &Around,
    variables: &[Binding<'a>],
    places: &[Place],
    raws: &'a [Raw],
) -> Result<Option<Text>, NoMemory>
    ensures { IfOk result (λ t. t ≡ not_links_of place (around_of around.now) (bindings_seen variables.now) places.now (raw_trees raws.now)) }
{
    match raws.split_first() {
        None => Ok(None),
        Some((first, more)) => {
            not_links_from(alloc, place, around, variables, places, first, more)
        }
    }
}

// Arguments for these parameters.
fn not_args<'a>(
    alloc: Global,
    around: &Around,
    variables: &[Binding<'a>],
    params: &[Param],
    raws: &'a [Raw],
) -> Result<Option<Text>, NoMemory>
    ensures { IfOk result (λ t. t ≡ not_params_of (around_of around.now) (bindings_seen variables.now) (bases_of params.now) (raw_trees raws.now)) }
{
    let mut rest = params;
    for raw in raws {
        match rest.split_first() {
            None => return Ok(None),
            Some((param, later)) => {
                match is_not(alloc, around, variables, param.base, raw)? {
                    Some(text) => return Ok(Some(text)),
                    None => {}
                }
                rest = later;
            }
        }
    }
    Ok(None)
}

fn not_args_of<'a>(
    alloc: Global,
    around: &Around,
    variables: &[Binding<'a>],
    def: Option<&RawDef>,
    raws: &'a [Raw],
) -> Result<Option<Text>, NoMemory>
    ensures { IfOk result (λ t. t ≡ not_params_of (around_of around.now) (bindings_seen variables.now) (params_of_def (def_seen def.entry))
        (raw_trees raws.now)) }
{
    match def {
        None => not_args(alloc, around, variables, &[], raws),
        Some(def) => not_args(alloc, around, variables, &def.params, raws),
    }
}

fn arm_is_not<'a>(
    alloc: Global,
    around: &Around,
    variables: &[Binding<'a>],
    bases: &[Base],
    arm: &'a RawArm,
) -> Result<Option<Text>, NoMemory>
    ensures { IfOk result (λ t. t ≡ not_types_of (codes "arms") bases.now
        (bases_of_arm_in (around_of around.now) (bindings_seen variables.now) (raw_arm_tree arm.now))) }
{
    let found = bases_of_arm(alloc, around, variables, arm)?;
    not_types(alloc, b"arms", bases, &found)
}

fn not_arms<'a>(
    alloc: Global,
    around: &Around,
    variables: &[Binding<'a>],
    bases: &[Base],
    arms: &'a [RawArm],
) -> Result<Option<Text>, NoMemory>
    ensures { IfOk result (λ t. t ≡ not_arms_of (around_of around.now) (bindings_seen variables.now) bases.now (raw_arm_trees arms.now)) }
{
    for arm in arms {
        match arm_is_not(alloc, around, variables, bases, arm)? {
            Some(text) => return Ok(Some(text)),
            None => {}
        }
    }
    Ok(None)
}

fn not_given<'a>(
    alloc: Global,
    place: Place,
    around: &Around,
    variables: &[Binding<'a>],
    given: &'a RawGiven,
) -> Result<Option<Text>, NoMemory>
    ensures { IfOk result (λ t. t ≡ not_given_of place (around_of around.now) (bindings_seen variables.now) (given_tree given.now)) }
{
    match given {
        RawGiven::Always => Ok(None),
        RawGiven::That { place: at, rel } => {
            where_is_not(alloc, same_place(place, *at), around, variables, rel)
        }
    }
}

fn not_aim<'a>(
    alloc: Global,
    place: Place,
    around: &Around,
    variables: &[Binding<'a>],
    aim: &'a RawAim,
) -> Result<Option<Text>, NoMemory>
    ensures { IfOk result (λ t. t ≡ not_aim_of place (around_of around.now) (bindings_seen variables.now) (aim_tree aim.now)) }
{
    match aim {
        RawAim::Any => Ok(None),
        RawAim::At {
            place: at,
            objective,
            ..
        } => if same_place(place, *at) {
            let bases = bases_in(alloc, around, variables, objective)?;
            not_numbers(alloc, &bases)
        } else {
            Ok(None)
        },
    }
}

fn not_branches<'a>(
    alloc: Global,
    around: &Around,
    variables: &[Binding<'a>],
    yes: &'a Raw,
    no: &'a Raw,
) -> Result<Option<Text>, NoMemory>
    ensures { IfOk result (λ t. t ≡ not_types_of (codes "branches")
        (bases_in_of (around_of around.now) (bindings_seen variables.now) (raw_tree yes.now))
        (bases_in_of (around_of around.now) (bindings_seen variables.now) (raw_tree no.now))) }
{
    let left = bases_in(alloc, around, variables, yes)?;
    let right = bases_in(alloc, around, variables, no)?;
    not_types(alloc, b"branches", &left, &right)
}

fn not_operands<'a>(
    alloc: Global,
    around: &Around,
    variables: &[Binding<'a>],
    op: BinOp,
    left: &'a Raw,
    right: &'a Raw,
) -> Result<Option<Text>, NoMemory>
    ensures { IfOk result (λ t. t ≡ not_sides_of (side_of op)
        (bases_in_of (around_of around.now) (bindings_seen variables.now) (raw_tree left.now))
        (bases_in_of (around_of around.now) (bindings_seen variables.now) (raw_tree right.now))) }
{
    let left = bases_in(alloc, around, variables, left)?;
    let right = bases_in(alloc, around, variables, right)?;
    not_sides(alloc, op, &left, &right)
}

// The test and the branches of an `if`.
fn not_if<'a>(
    alloc: Global,
    around: &Around,
    variables: &[Binding<'a>],
    test: &'a Raw,
    yes: &'a Raw,
    no: &'a Raw,
) -> Result<Option<Text>, NoMemory>
    ensures { IfOk result (λ t. t ≡ or_else_of
        (not_one_of Truth (bases_in_of (around_of around.now) (bindings_seen variables.now) (raw_tree test.now)))
        (not_types_of (codes "branches") (bases_in_of (around_of around.now) (bindings_seen variables.now) (raw_tree yes.now))
        (bases_in_of (around_of around.now) (bindings_seen variables.now) (raw_tree no.now)))) }
{
    match is_not(alloc, around, variables, Base::Bool, test)? {
        Some(text) => Ok(Some(text)),
        None => not_branches(alloc, around, variables, yes, no),
    }
}

// The relation of a choose and its aim, over the outputs too.
fn not_chosen<'a>(
    alloc: Global,
    place: Place,
    at: Place,
    around: &Around,
    variables: &[Binding<'a>],
    rel: &'a Raw,
    aim: &'a RawAim,
) -> Result<Option<Text>, NoMemory>
    ensures { IfOk result (λ t. t ≡ or_else_of
        (where_at_of place at (not_one_of Truth (bases_in_of (around_of around.now) (bindings_seen variables.now) (raw_tree rel.now))))
        (not_aim_of place (around_of around.now) (bindings_seen variables.now) (aim_tree aim.now))) }
{
    match where_is_not(alloc, same_place(place, at), around, variables, rel)? {
        Some(text) => Ok(Some(text)),
        None => not_aim(alloc, place, around, variables, aim),
    }
}

// A condition, where it stands there.
fn where_is_not<'a>(
    alloc: Global,
    there: bool,
    around: &Around,
    variables: &[Binding<'a>],
    rel: &'a Raw,
) -> Result<Option<Text>, NoMemory>
    ensures { IfOk result (λ t. t ≡ (if there
        then not_one_of Truth (bases_in_of (around_of around.now) (bindings_seen variables.now) (raw_tree rel.now)) else None)) }
{
    if there {
        is_not(alloc, around, variables, Base::Bool, rel)
    } else {
        Ok(None)
    }
}

// The value that is matched, and the arms.
fn not_match<'a>(
    alloc: Global,
    around: &Around,
    variables: &[Binding<'a>],
    of: &'a Raw,
    arms: &'a [RawArm],
) -> Result<Option<Text>, NoMemory>
    ensures { IfOk result (λ t. t ≡ or_else_of
        (not_one_of Int (bases_in_of (around_of around.now) (bindings_seen variables.now) (raw_tree of.now)))
        (not_arms_of (around_of around.now) (bindings_seen variables.now ++ matched_value)
        (arm_bases_in_of (around_of around.now) (bindings_seen variables.now ++ matched_value) (raw_arm_trees arms.now)) (raw_arm_trees arms.now))) }
{
    match is_not(alloc, around, variables, Base::Int, of)? {
        Some(text) => Ok(Some(text)),
        None => {
            let inner = with_matched(alloc, variables)?;
            let bases = arm_bases_in(alloc, around, &inner, arms)?;
            not_arms(alloc, around, &inner, &bases, arms)
        }
    }
}

// What is wrong with the parts of a form other than a chain and a choose.
fn clash_of_parts<'a>(
    alloc: Global,
    around: &Around,
    variables: &[Binding<'a>],
    raw: &'a Raw,
) -> Result<Option<Text>, NoMemory>
    ensures { IfOk result (λ t. t ≡ clash_there (around_of around.now) (bindings_seen variables.now) (raw_tree raw.now)) }
{
    match &raw.node {
        RawNode::SetOf(parts) | RawNode::Min(parts) | RawNode::Max(parts) => {
            none_is_not(alloc, around, variables, Base::Int, parts)
        }
        RawNode::Tuple(parts) => not_single(alloc, around, variables, parts),
        RawNode::Neg(a)
        | RawNode::Abs(a)
        | RawNode::Divides { of: a, .. }
        | RawNode::Div { of: a, .. }
        | RawNode::Mod { of: a, .. } => is_not(alloc, around, variables, Base::Int, a),
        RawNode::Not(a) => is_not(alloc, around, variables, Base::Bool, a),
        RawNode::Card(a) => is_not(alloc, around, variables, Base::Set, a),
        RawNode::Binary { op, left, right } => {
            not_operands(alloc, around, variables, *op, left, right)
        }
        RawNode::Call { name, args } => not_call(alloc, around, variables, &name.bytes, args),
        RawNode::If { test, yes, no } => not_if(alloc, around, variables, test, yes, no),
        RawNode::Match { of, arms } => not_match(alloc, around, variables, of, arms),
        RawNode::Lit(_)
        | RawNode::Truth(_)
        | RawNode::Name(_)
        | RawNode::Group(_)
        | RawNode::Chain { .. }
        | RawNode::Let { .. }
        | RawNode::Choose { .. } => Ok(None),
    }
}

#[tactic(auto, unfolding(crate::specs::ScopeView::around_of))]
fn not_call<'a>(
    alloc: Global,
    around: &Around,
    variables: &[Binding<'a>],
    name: &[u8],
    args: &'a [Raw],
) -> Result<Option<Text>, NoMemory>
    ensures { IfOk result (λ t. t ≡ not_params_of (around_of around.now) (bindings_seen variables.now)
        (params_of_def (function_of_name (around_of around.now).functions name.now)) (raw_trees args.now)) }
{
    not_args_of(
        alloc,
        around,
        variables,
        function_of(around.functions, name),
        args,
    )
}

// What is wrong at a place with the types of the parts of a form.
fn clash<'a>(
    alloc: Global,
    place: Place,
    around: &Around,
    variables: &[Binding<'a>],
    raw: &'a Raw,
) -> Result<Option<Text>, NoMemory>
    ensures { IfOk result (λ t. t ≡ clash_of place (around_of around.now) (bindings_seen variables.now) (raw_tree raw.now)) }
{
    match &raw.node {
        RawNode::Chain { places, parts, .. } => {
            not_links(alloc, place, around, variables, places, parts)
        }
        RawNode::Choose {
            outputs,
            hidden,
            given,
            rel,
            aim,
        } => match not_given(alloc, place, around, variables, given)? {
            Some(text) => Ok(Some(text)),
            None => {
                let inner = with_outputs(alloc, variables, outputs, hidden)?;
                not_chosen(alloc, place, raw.place, around, &inner, rel, aim)
            }
        },
        _ => if same_place(place, raw.place) {
            clash_of_parts(alloc, around, variables, raw)
        } else {
            Ok(None)
        },
    }
}

// The words of a mismatch.
fn mismatch_words(alloc: Global, text: Option<Text>) -> Result<Option<FaultWords>, NoMemory>
    ensures { IfOk result (λ o. found_seen o ≡ mismatch_words_of text) }
{
    match text {
        None => Ok(None),
        Some(text) => {
            let what = joined(alloc, &[b"type mismatch: ".as_slice(), &text.bytes])?;
            Ok(Some(FaultWords { what, help: None }))
        }
    }
}

/// What is told of a mismatch at a place.
pub fn mismatch_at<'a>(
    alloc: Global,
    place: Place,
    around: &Around,
    variables: &[Binding<'a>],
    raw: &'a Raw,
) -> Result<Option<FaultWords>, NoMemory>
    ensures { IfOk result (λ o. found_seen o ≡ mismatch_at_of place (around_of around.now) (bindings_seen variables.now) (raw_tree raw.now)) }
{
    let text = clash(alloc, place, around, variables, raw)?;
    mismatch_words(alloc, text)
}

// The expression of a constant that is no number.
fn const_clash<'a>(
    alloc: Global,
    place: Place,
    around: &Around,
    variables: &[Binding<'a>],
    value: &'a Raw,
) -> Result<Option<Text>, NoMemory>
    ensures { IfOk result (λ t. t ≡ where_at_of place value.now.place (not_one_of Int
        (bases_in_of (around_of around.now) (bindings_seen variables.now) (raw_tree value.now)))) }
{
    if same_place(place, value.place) {
        is_not(alloc, around, variables, Base::Int, value)
    } else {
        Ok(None)
    }
}

// A body that has other results than its function.
fn body_clash<'a>(
    alloc: Global,
    place: Place,
    around: &Around,
    variables: &[Binding<'a>],
    def: &'a RawDef,
) -> Result<Option<Text>, NoMemory>
    ensures { IfOk result (λ t. t ≡ where_at_of place def.now.body.place (Some (asked_found_of (type_text_of def.now.results.items)
        (bases_in_of (around_of around.now) (bindings_seen variables.now) (raw_tree def.now.body))))) }
{
    if same_place(place, def.body.place) {
        let bases = bases_in(alloc, around, variables, &def.body)?;
        let asked = type_text(alloc, &def.results)?;
        let text = asked_found(alloc, &asked.bytes, &bases)?;
        Ok(Some(text))
    } else {
        Ok(None)
    }
}

// What is wrong with the type of the expression of an item.
fn item_clash<'a>(
    alloc: Global,
    place: Place,
    around: &Around,
    variables: &[Binding<'a>],
    item: &'a RawItem,
) -> Result<Option<Text>, NoMemory>
    ensures { IfOk result (λ t. t ≡ item_clash_of place (around_of around.now) (bindings_seen variables.now) (raw_item_tree item.now)) }
{
    match item {
        RawItem::Const(constant) => const_clash(alloc, place, around, variables, &constant.value),
        RawItem::Def(def) => body_clash(alloc, place, around, variables, def),
    }
}

/// What is told of the expression of an item over these variables, which has another type than the
/// item asks.
pub fn item_mismatch<'a>(
    alloc: Global,
    place: Place,
    around: &Around,
    variables: &[Binding<'a>],
    item: &'a RawItem,
) -> Result<Option<FaultWords>, NoMemory>
    ensures { IfOk result (λ o. found_seen o
        ≡ mismatch_words_of (item_clash_of place (around_of around.now) (bindings_seen variables.now) (raw_item_tree item.now))) }
{
    let text = item_clash(alloc, place, around, variables, item)?;
    mismatch_words(alloc, text)
}
