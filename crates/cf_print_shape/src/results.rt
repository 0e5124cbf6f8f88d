//! What a block gives, and which variables it reads.
ghost use Rattle.std.specs.Prelude.{◌≡◌, ◌++◌, ◌∷◌, [], if◌then◌else◌, map, take, IfOk, OnOk};
ghost use Rattle.cf_tree.specs.declared.base.Base.TheVariants.{Int};
ghost use Rattle.cf_tree.specs.CodeView.{code_tree, code_trees};
ghost use Rattle.cf_stmt.specs.BlockView.{block_tree};
ghost use Rattle.cf_print_shape.specs.Shapes.{all_bases as those_bases, code_bases as bases_of_code, results_of as results_from, those_read};

use crate::reads::{block_reads, next_level};
use cf_print_term::base_of;
use cf_stmt::Block;
use cf_tree::{Base, Code, NoMemory, Text};
use std::alloc::Global;

fn all_bases(alloc: Global, bases: &[Base], codes: &[Code]) -> Result<Vec<Base>, NoMemory>
    ensures { IfOk result (λ all. all.items ≡ those_bases bases.now (code_trees codes.now)) }
{
    let mut all = Vec::new(alloc);
    for code in codes {
        all.push(base_of(bases, code))?;
    }
    Ok(all)
}

// The bases of the values of a code.
fn code_bases(alloc: Global, bases: &[Base], code: &Code) -> Result<Vec<Base>, NoMemory>
    ensures { IfOk result (λ all. all.items ≡ bases_of_code bases.now (code_tree code.now)) }
{
    match code {
        Code::Tuple(parts) => all_bases(alloc, bases, parts),
        _ => {
            let mut all = Vec::new(alloc);
            all.push(base_of(bases, code))?;
            Ok(all)
        }
    }
}

// Bases behind others, and the first of some before others.
fn bases_behind(bases: Vec<Base>, more: &[Base]) -> Result<Vec<Base>, NoMemory>
    ensures { IfOk result (λ all. all.items ≡ bases.items ++ more.now) }
{
    let mut bases = bases;
    bases.extend_from_slice(more)?;
    Ok(bases)
}

fn bases_ahead(first: Vec<Base>, bases: &[Base]) -> Result<Vec<Base>, NoMemory>
    ensures { IfOk result (λ all. all.items ≡ take 1 first.items ++ bases.now) }
{
    let mut all = first;
    all.truncate(1);
    all.extend_from_slice(bases)?;
    Ok(all)
}

fn bases_behind_searches(bases: Vec<Base>, bounds: &[u32]) -> Result<Vec<Base>, NoMemory>
    ensures { IfOk result (λ all. all.items ≡ bases.items ++ map (λ k. Int) bounds.now) }
{
    let mut all = bases;
    for _bound in bounds {
        all.push(Base::Int)?;
    }
    Ok(all)
}

/// The bases of what a block gives, where its variables have these.
#[cycle(results)]
pub fn results_of(alloc: Global, bases: &[Base], block: &Block) -> Result<Vec<Base>, NoMemory>
    ensures { IfOk result (λ all. all.items ≡ results_from bases.now (block_tree block.now)) }
{
    match block {
        Block::Give(code) => code_bases(alloc, bases, code),
        Block::Stop(_) | Block::Leave => Ok(Vec::new(alloc)),
        _ => results_inside(alloc, Vec::from_slice(alloc, bases)?, block),
    }
}

#[cycle(results)]
fn results_inside(alloc: Global, bases: Vec<Base>, block: &Block) -> Result<Vec<Base>, NoMemory>
    ensures { IfOk result (λ all. all.items ≡ results_from bases.items (block_tree block.now)) }
{
    match block {
        Block::Give(code) => code_bases(alloc, &bases, code),
        Block::Stop(_) | Block::Leave => Ok(Vec::new(alloc)),
        Block::Bind(a, b) => {
            let first = results_of(alloc, &bases, a)?;
            let inner = bases_behind(bases, &first)?;
            results_inside(alloc, inner, b)
        }
        Block::Part(a, b) => {
            let first = results_of(alloc, &bases, a)?;
            let inner = bases_ahead(first, &bases)?;
            results_inside(alloc, inner, b)
        }
        Block::Join(a, b) => {
            let first = results_of(alloc, &bases, a)?;
            let second = results_inside(alloc, bases, b)?;
            bases_behind(first, &second)
        }
        Block::Test { yes, no, .. } => {
            let first = results_of(alloc, &bases, yes)?;
            if first.is_empty() {
                results_inside(alloc, bases, no)
            } else {
                Ok(first)
            }
        }
        Block::Arm {
            bounds,
            body,
            later,
        } => {
            let inner = bases_behind_searches(Vec::from_slice(alloc, &bases)?, bounds)?;
            let first = results_inside(alloc, inner, body)?;
            if first.is_empty() {
                results_inside(alloc, bases, later)
            } else {
                Ok(first)
            }
        }
    }
}

/// One name more where it is wanted.
pub fn push_name(
    alloc: Global,
    all: &mut Vec<Text>,
    name: &Text,
    wanted: bool,
) -> Result<(), NoMemory>
    ensures { OnOk result (all.new.items ≡ all.old.items ++ (if wanted then name.now ∷ [] else [])) }
{
    if wanted {
        all.push(name.try_copy(alloc)?)?;
    }
    Ok(())
}

/// The names of variables that a block reads.
#[tactic(auto, using(crate::proofs::ReadLists::one_wanted))]
pub fn names_read(alloc: Global, block: &Block, names: &[Text]) -> Result<Vec<Text>, NoMemory>
    ensures { IfOk result (λ all. all.items ≡ those_read 0 (block_tree block.now) names.now) }
{
    let mut all = Vec::new(alloc);
    let mut level: u32 = 0;
    for name in names {
        push_name(alloc, &mut all, name, block_reads(level, block)?)?;
        level = next_level(level)?;
    }
    Ok(all)
}

fn push_base(all: &mut Vec<Base>, base: Base, wanted: bool) -> Result<(), NoMemory>
    ensures { OnOk result (all.new.items ≡ all.old.items ++ (if wanted then base ∷ [] else [])) }
{
    if wanted {
        all.push(base)?;
    }
    Ok(())
}

/// The bases of variables that a block reads.
#[tactic(auto, using(crate::proofs::ReadLists::one_wanted))]
pub fn bases_read(alloc: Global, block: &Block, bases: &[Base]) -> Result<Vec<Base>, NoMemory>
    ensures { IfOk result (λ all. all.items ≡ those_read 0 (block_tree block.now) bases.now) }
{
    let mut all = Vec::new(alloc);
    let mut level: u32 = 0;
    for base in bases {
        push_base(&mut all, *base, block_reads(level, block)?)?;
        level = next_level(level)?;
    }
    Ok(all)
}
