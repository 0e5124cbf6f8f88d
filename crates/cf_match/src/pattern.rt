//! The chooses of the variables of patterns.
ghost use Rattle.std.specs.Prelude.{◌≡◌, ◌-◌, suc, IfOk, map, length};
ghost use Rattle.cf_tree.specs.declared.base.Base.TheVariants as bases;
ghost use Rattle.cf_tree.specs.declared.base.Order.TheVariants.{Eq};
ghost use Rattle.cf_tree.specs.RelTree.{rel_compare, term_lit, term_var, term_mul, term_add};
ghost use Rattle.cf_tree.specs.RelView.{term_tree, rel_tree};
ghost use Rattle.cf_program.specs.Lowered.{added, pattern_term};

use cf_tree::{Base, NoMemory, Order, Param, Rel, Term, without};
use std::alloc::Global;

/// The level of the last variable in scope.
///
/// # Errors
/// `NoMemory` where it is past the limit of levels.
pub fn last_level(scope: &[Param]) -> Result<u32, NoMemory>
    ensures { IfOk result (λ level. level ≡ length scope.now - 1) }
{
    match u32::try_from(scope.len().saturating_sub(1)) {
        Ok(level) => Ok(level),
        Err(_) => Err(NoMemory),
    }
}

/// The bases of the variables of a pattern with these factors: a number for each.
///
/// # Errors
/// `NoMemory` where memory ran out.
pub fn numbers(alloc: Global, factors: &[i128]) -> Result<Vec<Base>, NoMemory>
    ensures { IfOk result (λ all. all.items ≡ map (λ _. bases.Int) factors.now) }
{
    let mut all = Vec::new(alloc);
    for _factor in factors {
        all.push(Base::Int)?;
    }
    Ok(all)
}

/// The relation that the variable of this level is the sum of the pattern, whose variables have the
/// levels behind it.
///
/// # Errors
/// `NoMemory` where memory ran out.
pub fn pattern_relation(
    alloc: Global,
    level: u32,
    factors: &[i128],
    constant: i128,
) -> Result<Rel, NoMemory>
    ensures { IfOk result (λ r. rel_tree r ≡ rel_compare Eq (term_var level) (pattern_term (suc level) factors.now constant)) }
{
    let left = Box::new(alloc, Term::Var(level))?;
    let pattern = pattern_term(alloc, next(level)?, factors, constant)?;
    Ok(Rel::Compare {
        order: Order::Eq,
        left,
        right: Box::new(alloc, pattern)?,
    })
}

// The next level.
fn next(level: u32) -> Result<u32, NoMemory>
    ensures { IfOk result (λ n. n ≡ suc level) }
{
    match level.checked_add(1) {
        Some(level) => Ok(level),
        None => Err(NoMemory),
    }
}

// The sum of a pattern whose variables have the levels from this one on.
fn pattern_term(
    alloc: Global,
    level: u32,
    factors: &[i128],
    constant: i128,
) -> Result<Term, NoMemory>
    ensures { IfOk result (λ t. term_tree t ≡ pattern_term level factors.now constant) }
{
    let Some((factor, rest)) = factors.split_first() else {
        return Ok(Term::Lit(constant));
    };
    let first = product(alloc, *factor, level)?;
    added(alloc, first, next(level)?, rest, constant)
}

// A sum, then each factor times its variable, from this level on, then the constant.
fn added(
    alloc: Global,
    sum: Term,
    level: u32,
    factors: &[i128],
    constant: i128,
) -> Result<Term, NoMemory>
    ensures { IfOk result (λ t. term_tree t ≡ added (term_tree sum) level factors.now constant) }
{
    let mut sum = sum;
    let mut level = level;
    let mut rest = factors;
    while let Some((factor, more)) = rest.split_first() {
        sum = with_product(alloc, sum, *factor, level)?;
        level = next(level)?;
        rest = more;
    }
    plus(alloc, sum, Term::Lit(constant))
}

// A sum, then the factor times the variable of this level.
fn with_product(alloc: Global, sum: Term, factor: i128, level: u32) -> Result<Term, NoMemory>
    ensures { IfOk result (λ t. term_tree t ≡ term_add (term_tree sum) (term_mul (term_lit factor) (term_var level))) }
{
    match product(alloc, factor, level) {
        Ok(more) => plus(alloc, sum, more),
        Err(fault) => Err(without(sum, fault)),
    }
}

fn plus(alloc: Global, a: Term, b: Term) -> Result<Term, NoMemory>
    ensures { IfOk result (λ t. term_tree t ≡ term_add (term_tree a) (term_tree b)) }
{
    Ok(Term::Add(Box::new(alloc, a)?, Box::new(alloc, b)?))
}

fn product(alloc: Global, factor: i128, level: u32) -> Result<Term, NoMemory>
    ensures { IfOk result (λ t. term_tree t ≡ term_mul (term_lit factor) (term_var level)) }
{
    let left = Box::new(alloc, Term::Lit(factor))?;
    Ok(Term::Mul(left, Box::new(alloc, Term::Var(level))?))
}
