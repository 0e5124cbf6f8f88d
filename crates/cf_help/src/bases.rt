//! The bases of expressions whose parts keep the rules.
ghost use Rattle.std.specs.Prelude.{◌≡◌, ◌++◌, IfOk};
ghost use Rattle.cf_tree.specs.Params.{bases_of};
ghost use Rattle.cf_tree.specs.RawView.{part_trees, raw_tree, raw_trees, raw_arm_tree, raw_arm_trees};
ghost use Rattle.cf_tree.specs.Typing.{one as one_of};
ghost use Rattle.cf_program.specs.Walk.{result_of as result_of_op};
ghost use Rattle.cf_help.specs.ScopeView.{around_of, bindings_seen, defs_seen, def_seen};
ghost use Rattle.cf_help.specs.Spots.{named_bases, pattern_variables, function_of as function_of_name, results_of as results_of_def, bases_in as bases_in_of, all_bases_in as all_bases_in_of, arm_bases_in as arm_bases_in_of, bases_of_arm as bases_of_arm_in};

use crate::scope::{Around, Binding, base_of_name, with_matched, with_names, with_pattern};
use cf_tree::{Base, BinOp, NoMemory, Param, Raw, RawArm, RawDef, RawNode, Text, without};
use std::alloc::Global;

fn one(alloc: Global, base: Base) -> Result<Vec<Base>, NoMemory>
    ensures { IfOk result (λ bs. bs.items ≡ one_of base) }
{
    let mut all = Vec::new(alloc);
    all.push(base)?;
    Ok(all)
}

// The base of an operation.
fn result_of(op: BinOp) -> Base
    ensures { result ≡ result_of_op op }
{
    match op {
        BinOp::Add | BinOp::Sub | BinOp::Mul => Base::Int,
        BinOp::Union | BinOp::Inter | BinOp::Diff => Base::Set,
        BinOp::And | BinOp::Or | BinOp::Subset | BinOp::Implies | BinOp::Compare(_) => Base::Bool,
    }
}

/// The first function of a name.
pub fn function_of<'a>(functions: &[&'a RawDef], name: &[u8]) -> Option<&'a RawDef>
    ensures { def_seen result ≡ function_of_name (defs_seen functions.now) name.now }
{
    for def in functions {
        if def.name.bytes.as_slice() == name {
            return Some(*def);
        }
    }
    None
}

fn results_of(alloc: Global, def: Option<&RawDef>) -> Result<Vec<Base>, NoMemory>
    ensures { IfOk result (λ bs. bs.items ≡ results_of_def (def_seen def.entry)) }
{
    match def {
        None => Ok(Vec::new(alloc)),
        Some(def) => Ok(Vec::from_slice(alloc, &def.results)?),
    }
}

#[tactic(auto, unfolding(crate::specs::ScopeView::around_of))]
fn called(alloc: Global, around: &Around, name: &[u8]) -> Result<Vec<Base>, NoMemory>
    ensures { IfOk result (λ bs. bs.items ≡ results_of_def (function_of_name (around_of around.now).functions name.now)) }
{
    results_of(alloc, function_of(around.functions, name))
}

fn bases_of_outputs(alloc: Global, outputs: &[Param]) -> Result<Vec<Base>, NoMemory>
    ensures { IfOk result (λ bs. bs.items ≡ bases_of outputs.now) }
{
    let mut all = Vec::new(alloc);
    for output in outputs {
        all.push(output.base)?;
    }
    Ok(all)
}

#[tactic(auto, unfolding(crate::specs::ScopeView::around_of))]
pub fn in_pattern<'a>(
    alloc: Global,
    around: &Around,
    variables: &[Binding<'a>],
    arm: &'a RawArm,
) -> Result<Vec<Binding<'a>>, NoMemory>
    ensures { IfOk result (λ vs. bindings_seen vs.items
        ≡ bindings_seen variables.now ++ pattern_variables (around_of around.now).constants (part_trees arm.now.parts.items)) }
{
    with_pattern(alloc, around.constants, variables, &arm.parts)
}

/// The bases of an expression over these variables.
#[cycle(bases)]
pub fn bases_in<'a>(
    alloc: Global,
    around: &Around,
    variables: &[Binding<'a>],
    raw: &'a Raw,
) -> Result<Vec<Base>, NoMemory>
    ensures { IfOk result (λ bs. bs.items ≡ bases_in_of (around_of around.now) (bindings_seen variables.now) (raw_tree raw.now)) }
{
    match &raw.node {
        RawNode::Lit(_)
        | RawNode::Neg(_)
        | RawNode::Abs(_)
        | RawNode::Min(_)
        | RawNode::Max(_)
        | RawNode::Div { .. }
        | RawNode::Mod { .. }
        | RawNode::Card(_) => one(alloc, Base::Int),
        RawNode::Truth(_) | RawNode::Not(_) | RawNode::Chain { .. } | RawNode::Divides { .. } =>
            one(alloc, Base::Bool),
        RawNode::SetOf(_) => one(alloc, Base::Set),
        RawNode::Name(name) => one(alloc, base_of_name(variables, &name.bytes)),
        RawNode::Binary { op, .. } => one(alloc, result_of(*op)),
        RawNode::Call { name, .. } => called(alloc, around, &name.bytes),
        RawNode::Group(a) => bases_in(alloc, around, variables, a),
        RawNode::If { yes, .. } => bases_in(alloc, around, variables, yes),
        RawNode::Tuple(parts) => all_bases_in(alloc, around, variables, parts),
        RawNode::Choose { outputs, .. } => bases_of_outputs(alloc, outputs),
        RawNode::Let {
            names,
            value,
            body,
            ..
        } => match bases_in(alloc, around, variables, value) {
            Ok(bases) => bases_of_body(alloc, around, variables, names, &bases, body),
            Err(fault) => Err(fault),
        },
        RawNode::Match { arms, .. } => match with_matched(alloc, variables) {
            Ok(inner) => arm_bases_in(alloc, around, &inner, arms),
            Err(fault) => Err(fault),
        },
    }
}

// Those of the body of a `let` that binds these names to parts of these bases.
#[cycle(bases)]
fn bases_of_body<'a>(
    alloc: Global,
    around: &Around,
    variables: &[Binding<'a>],
    names: &'a [Text],
    bases: &[Base],
    body: &'a Raw,
) -> Result<Vec<Base>, NoMemory>
    ensures { IfOk result (λ bs. bs.items
        ≡ bases_in_of (around_of around.now) (bindings_seen variables.now ++ named_bases names.now bases.now) (raw_tree body.now)) }
{
    match with_names(alloc, variables, names, bases) {
        Ok(inner) => bases_in(alloc, around, &inner, body),
        Err(fault) => Err(fault),
    }
}

#[cycle(bases)]
fn all_bases_in<'a>(
    alloc: Global,
    around: &Around,
    variables: &[Binding<'a>],
    raws: &'a [Raw],
) -> Result<Vec<Base>, NoMemory>
    ensures { IfOk result (λ bs. bs.items ≡ all_bases_in_of (around_of around.now) (bindings_seen variables.now) (raw_trees raws.now)) }
{
    let mut all = Vec::new(alloc);
    for raw in raws {
        match bases_in(alloc, around, variables, raw) {
            Ok(bases) => all.extend_from_slice(&bases)?,
            Err(fault) => return Err(without(all, fault)),
        }
    }
    Ok(all)
}

/// Those of the first arm.
#[cycle(bases)]
pub fn arm_bases_in<'a>(
    alloc: Global,
    around: &Around,
    variables: &[Binding<'a>],
    arms: &'a [RawArm],
) -> Result<Vec<Base>, NoMemory>
    ensures { IfOk result (λ bs. bs.items ≡ arm_bases_in_of (around_of around.now) (bindings_seen variables.now) (raw_arm_trees arms.now)) }
{
    match arms.split_first() {
        None => Ok(Vec::new(alloc)),
        Some((arm, _)) => bases_of_arm(alloc, around, variables, arm),
    }
}

/// Those of an arm.
#[cycle(bases)]
pub fn bases_of_arm<'a>(
    alloc: Global,
    around: &Around,
    variables: &[Binding<'a>],
    arm: &'a RawArm,
) -> Result<Vec<Base>, NoMemory>
    ensures { IfOk result (λ bs. bs.items ≡ bases_of_arm_in (around_of around.now) (bindings_seen variables.now) (raw_arm_tree arm.now)) }
{
    match in_pattern(alloc, around, variables, arm) {
        Ok(inner) => bases_in(alloc, around, &inner, &arm.body),
        Err(fault) => Err(fault),
    }
}
