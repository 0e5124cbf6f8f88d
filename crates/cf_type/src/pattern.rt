//! Patterns.
ghost use Rattle.std.specs.Prelude.{◌≡◌, [], Ok, OnOk};
ghost use Rattle.cf_tree.specs.RawView.{part_tree, part_trees, factor_tree};
ghost use Rattle.cf_type.specs.FormView.{context_of, pattern_of};
ghost use Rattle.cf_type.specs.FormParts.{summed as summed_of, summed_to};
ghost use Rattle.cf_program.specs.CheckAnswers.{CheckAnswer};
ghost use Rattle.cf_program.specs.Walk.{where_no_fault, constant_fault, sum_with, first_start as first_start_of, with_constant, with_summand, with_part, with_parts as with_parts_of, pattern_in, signed as signed_of};

use crate::context::Context;
use crate::form::{Pattern, Summand};
use crate::memory::push;
use crate::names::repeated_summand;
use crate::number::{factor, signed};
use crate::scope::Scope;
use crate::sums::total;
use cf_program::TypeFault;
use cf_tree::{NoMemory, Part, Place, without};
use std::alloc::Global;

/// The pattern of these parts and this literal.
pub fn pattern(
    context: &Context,
    scope: &Scope,
    parts: &[Part],
    constant: i128,
) -> Result<Pattern, TypeFault>
    ensures { CheckAnswer pattern_of result (pattern_in (context_of context.now) scope.now (part_trees parts.now) constant) }
{
    let pattern = with_parts(context, scope, parts, constant)?;
    summed(context, first_start(parts), constant, pattern)
}

// The place of the first token of a pattern, where it has parts.
fn first_start(parts: &[Part]) -> Option<Place>
    ensures { result ≡ first_start_of (part_trees parts.now) }
{
    match parts.split_first() {
        None => None,
        Some((part, _)) => Some(part.start),
    }
}

// The pattern, where its names differ, with the sum of its constants and this literal.
#[tactic(auto, using(crate::proofs::PatternLemmas::summed_repeats, crate::proofs::PatternLemmas::summed_fails, crate::proofs::PatternLemmas::summed_goes_on))]
fn summed(
    context: &Context,
    start: Option<Place>,
    constant: i128,
    pattern: Pattern,
) -> Result<Pattern, TypeFault>
    ensures { CheckAnswer pattern_of result (summed_of (context_of context.now) start constant (pattern_of pattern)) }
{
    match repeated_summand(context, &pattern.summands) {
        Ok(None) => (),
        Ok(Some(place)) => return Err(without(pattern, TypeFault::DuplicateName(place))),
        Err(_) => return Err(without(pattern, TypeFault::NoMemory)),
    }
    match sum(start, constant, &pattern.constants) {
        Ok(total) => Ok(with_sum(pattern, total)),
        Err(fault) => Err(without(pattern, fault)),
    }
}

// The sum of these constants and this literal, where it is within the limit.
fn sum(start: Option<Place>, constant: i128, constants: &[i128]) -> Result<i128, TypeFault>
    ensures { CheckAnswer (λ k. k) result (where_no_fault (constant_fault start constants.now constant) (Ok (sum_with constant constants.now))) }
{
    if constants.is_empty() {
        return Ok(constant);
    }
    match total(constant, constants) {
        Some(k) => Ok(k),
        None => match start {
            Some(place) => Err(TypeFault::ConstantPast(place)),
            // never met: where there are constants there are parts, and so a first token
            None => Err(TypeFault::NoMemory),
        },
    }
}

// The pattern with this constant.
fn with_sum(pattern: Pattern, constant: i128) -> Pattern
    ensures { pattern_of result ≡ summed_to (pattern_of pattern) constant }
{
    let Pattern {
        summands,
        constants,
        constant: _,
    } = pattern;
    Pattern {
        summands,
        constants,
        constant,
    }
}

// The pattern of these parts, with its constants apart.
fn with_parts(
    context: &Context,
    scope: &Scope,
    parts: &[Part],
    constant: i128,
) -> Result<Pattern, TypeFault>
    ensures { CheckAnswer pattern_of result (with_parts_of (context_of context.now) scope.now (record { summands = []; constants = []; constant = constant })
        (part_trees parts.now)) }
{
    let mut pattern = no_parts(context.alloc, constant);
    match add_parts(context, scope, &mut pattern, parts) {
        Ok(()) => Ok(pattern),
        Err(fault) => Err(without(pattern, fault)),
    }
}

// The pattern of a literal alone.
fn no_parts(alloc: Global, constant: i128) -> Pattern
    ensures { pattern_of result ≡ record { summands = []; constants = []; constant = constant } }
{
    Pattern {
        summands: Vec::new(alloc),
        constants: Vec::new(alloc),
        constant,
    }
}

// Adds parts.
fn add_parts(
    context: &Context,
    scope: &Scope,
    pattern: &mut Pattern,
    parts: &[Part],
) -> Result<(), TypeFault>
    ensures { CheckAnswer (λ _. pattern_of pattern.new) result
        (with_parts_of (context_of context.now) scope.now (pattern_of pattern.old) (part_trees parts.now)) }
{
    for part in parts {
        match add_part(context, scope, pattern, part) {
            Ok(()) => (),
            Err(fault) => return Err(fault),
        }
    }
    Ok(())
}

// Adds a part.
fn add_part(
    context: &Context,
    scope: &Scope,
    pattern: &mut Pattern,
    part: &Part,
) -> Result<(), TypeFault>
    ensures { CheckAnswer (λ _. pattern_of pattern.new) result
        (with_part (context_of context.now) scope.now (pattern_of pattern.old) (part_tree part.now) (factor_tree part.now.factor)) }
{
    match &part.factor {
        None => match context.constant(&part.name) {
            Some(k) => add_constant(pattern, signed(part.is_negative, k)?)?,
            None => add_summand(context, pattern, part, 1)?,
        },
        Some(number) => {
            let k = factor(context, scope, number)?;
            add_summand(context, pattern, part, k)?
        }
    }
    Ok(())
}

// Adds a constant.
fn add_constant(pattern: &mut Pattern, k: i128) -> Result<(), NoMemory>
    ensures { OnOk result (pattern_of pattern.new ≡ with_constant (pattern_of pattern.old) k) }
{
    pattern.constants.push(k)?;
    Ok(())
}

// Adds the variable of a part with this factor, which has the sign of the part.
fn add_summand(
    context: &Context,
    pattern: &mut Pattern,
    part: &Part,
    factor: i128,
) -> Result<(), NoMemory>
    ensures { OnOk result (pattern_of pattern.new ≡
        with_summand (pattern_of pattern.old) part.now.place (signed_of part.now.is_negative factor) part.now.name) }
{
    let summand = Summand {
        place: part.place,
        factor: signed(part.is_negative, factor)?,
        name: part.name.try_copy(context.alloc)?,
    };
    push(&mut pattern.summands, summand)
}
