//! Relations over counts of regions.
ghost use Rattle.std.specs.Prelude.{◌≡◌, ◌≤◌, IfOk};
ghost use Rattle.cf_tree.specs.RelTree.{diff_of, rel_not};
ghost use Rattle.cf_tree.specs.RelView.{rel_tree, set_tree, term_tree};
ghost use Rattle.cf_linear.specs.Layout.{set_count};
ghost use Rattle.cf_linear.specs.Views.{plain_layout};
ghost use Rattle.cf_counts.specs.declared.regions.TheConstants.{MOST_COUNTED_SETS};
ghost use Rattle.cf_counts.specs.Counted.{apart, count_bases, counted, counted_term, is_some, over_counts};

use crate::regions::mask_end;
use crate::sums::{are_counts, size_of};
use cf_linear::Layout;
use cf_tree::{Base, NoMemory, Order, Rel, SetTerm, Term, without};
use std::alloc::Global;

/// The relation over the counts of the regions of its sets in the place of these, with that the counts are at least 0. Its
/// other variables have the levels that they had, and the count of the region of mask 1 has the first level.
///
/// # Errors
/// `NoMemory` where memory ran out, or a level does not fit in 32 bits.
pub fn over_counts(alloc: Global, layout: &Layout, first: u32, rel: &Rel) -> Result<Rel, NoMemory>
    requires { set_count (plain_layout layout.now) ≤ MOST_COUNTED_SETS }
    ensures { IfOk result (λ r. rel_tree r ≡ over_counts (plain_layout layout.now) first (rel_tree rel.now)) }
{
    let counts = are_counts(alloc, layout, first)?;
    match boxed(alloc, layout, first, rel) {
        Ok(counted) => Ok(Rel::And(Box::new(alloc, counts)?, counted)),
        Err(fault) => Err(without(counts, fault)),
    }
}

/// The bases of the counts of the regions.
///
/// # Errors
/// `NoMemory` where memory ran out.
#[tactic(auto, using(crate::proofs::BaseLaws::bases_more))]
pub fn count_bases(alloc: Global, layout: &Layout) -> Result<Vec<Base>, NoMemory>
    requires { set_count (plain_layout layout.now) ≤ MOST_COUNTED_SETS }
    ensures { IfOk result (λ bases. bases.items ≡ count_bases (plain_layout layout.now)) }
{
    let mut bases = Vec::new(alloc);
    for _mask in 1..mask_end(layout) {
        bases.push(Base::Int)?;
    }
    Ok(bases)
}

#[cycle(counted)]
fn counted(alloc: Global, layout: &Layout, first: u32, rel: &Rel) -> Result<Rel, NoMemory>
    requires { set_count (plain_layout layout.now) ≤ MOST_COUNTED_SETS }
    ensures { IfOk result (λ r. rel_tree r ≡ counted (plain_layout layout.now) first (rel_tree rel.now)) }
{
    match rel {
        Rel::True => Ok(Rel::True),
        Rel::False => Ok(Rel::False),
        Rel::Compare { order, left, right } => {
            let left = boxed_term(alloc, layout, first, left)?;
            let right = boxed_term(alloc, layout, first, right)?;
            let order = *order;
            Ok(Rel::Compare { order, left, right })
        }
        Rel::SameSet(a, b) => negated(alloc, are_apart(alloc, layout, first, a, b)?),
        Rel::OtherSet(a, b) => are_apart(alloc, layout, first, a, b),
        Rel::Subset(a, b) => negated(alloc, is_beyond(alloc, layout, first, a, b)?),
        Rel::Divides { k, of } => {
            let of = boxed_term(alloc, layout, first, of)?;
            Ok(Rel::Divides { k: *k, of })
        }
        Rel::And(a, b) => {
            let left = boxed(alloc, layout, first, a)?;
            let right = boxed(alloc, layout, first, b)?;
            Ok(Rel::And(left, right))
        }
        Rel::Or(a, b) => {
            let left = boxed(alloc, layout, first, a)?;
            let right = boxed(alloc, layout, first, b)?;
            Ok(Rel::Or(left, right))
        }
        Rel::Not(a) => Ok(Rel::Not(boxed(alloc, layout, first, a)?)),
    }
}

#[cycle(counted)]
fn boxed(alloc: Global, layout: &Layout, first: u32, rel: &Rel) -> Result<Box<Rel>, NoMemory>
    requires { set_count (plain_layout layout.now) ≤ MOST_COUNTED_SETS }
    ensures { IfOk result (λ r. rel_tree r.value ≡ counted (plain_layout layout.now) first (rel_tree rel.now)) }
{
    Ok(Box::new(alloc, counted(alloc, layout, first, rel)?)?)
}

fn negated(alloc: Global, rel: Rel) -> Result<Rel, NoMemory>
    ensures { IfOk result (λ r. rel_tree r ≡ rel_not (rel_tree rel)) }
{
    Ok(Rel::Not(Box::new(alloc, rel)?))
}

// That something lies in exactly one of the set forms.
fn are_apart(
    alloc: Global,
    layout: &Layout,
    first: u32,
    a: &SetTerm,
    b: &SetTerm,
) -> Result<Rel, NoMemory>
    requires { set_count (plain_layout layout.now) ≤ MOST_COUNTED_SETS }
    ensures { IfOk result (λ r. rel_tree r ≡ is_some (plain_layout layout.now) first (apart (set_tree a.now) (set_tree b.now))) }
{
    let other = apart(alloc, a, b)?;
    is_some(alloc, layout, first, &other)
}

// What lies in exactly one of the set forms.
fn apart(alloc: Global, a: &SetTerm, b: &SetTerm) -> Result<SetTerm, NoMemory>
    ensures { IfOk result (λ s. set_tree s ≡ apart (set_tree a.now) (set_tree b.now)) }
{
    let left = difference(alloc, a, b)?;
    let right = difference(alloc, b, a)?;
    Ok(SetTerm::Union(Box::new(alloc, left)?, Box::new(alloc, right)?))
}

// That something lies in the first of the set forms and not in the second.
fn is_beyond(
    alloc: Global,
    layout: &Layout,
    first: u32,
    a: &SetTerm,
    b: &SetTerm,
) -> Result<Rel, NoMemory>
    requires { set_count (plain_layout layout.now) ≤ MOST_COUNTED_SETS }
    ensures { IfOk result (λ r. rel_tree r ≡ is_some (plain_layout layout.now) first (diff_of (set_tree a.now) (set_tree b.now))) }
{
    let rest = difference(alloc, a, b)?;
    is_some(alloc, layout, first, &rest)
}

// What lies in the first set form and not in the second.
fn difference(alloc: Global, a: &SetTerm, b: &SetTerm) -> Result<SetTerm, NoMemory>
    ensures { IfOk result (λ s. set_tree s ≡ diff_of (set_tree a.now) (set_tree b.now)) }
{
    let left = a.try_copy(alloc)?;
    let right = b.try_copy(alloc)?;
    Ok(SetTerm::Diff(Box::new(alloc, left)?, Box::new(alloc, right)?))
}

// That the set form has elements.
fn is_some(alloc: Global, layout: &Layout, first: u32, set: &SetTerm) -> Result<Rel, NoMemory>
    requires { set_count (plain_layout layout.now) ≤ MOST_COUNTED_SETS }
    ensures { IfOk result (λ r. rel_tree r ≡ is_some (plain_layout layout.now) first (set_tree set.now)) }
{
    let left = Box::new(alloc, size_of(alloc, layout, first, set)?)?;
    let right = Box::new(alloc, Term::Lit(1))?;
    let order = Order::Ge;
    Ok(Rel::Compare { order, left, right })
}

#[cycle(counted_term)]
fn counted_term(alloc: Global, layout: &Layout, first: u32, term: &Term) -> Result<Term, NoMemory>
    requires { set_count (plain_layout layout.now) ≤ MOST_COUNTED_SETS }
    ensures { IfOk result (λ t. term_tree t ≡ counted_term (plain_layout layout.now) first (term_tree term.now)) }
{
    match term {
        Term::Lit(n) => Ok(Term::Lit(*n)),
        Term::Var(x) => Ok(Term::Var(*x)),
        Term::Card(set) => size_of(alloc, layout, first, set),
        Term::Neg(a) => Ok(Term::Neg(boxed_term(alloc, layout, first, a)?)),
        Term::Add(a, b) => {
            let left = boxed_term(alloc, layout, first, a)?;
            let right = boxed_term(alloc, layout, first, b)?;
            Ok(Term::Add(left, right))
        }
        Term::Sub(a, b) => {
            let left = boxed_term(alloc, layout, first, a)?;
            let right = boxed_term(alloc, layout, first, b)?;
            Ok(Term::Sub(left, right))
        }
        Term::Mul(a, b) => {
            let left = boxed_term(alloc, layout, first, a)?;
            let right = boxed_term(alloc, layout, first, b)?;
            Ok(Term::Mul(left, right))
        }
        Term::Div(a, k) => Ok(Term::Div(boxed_term(alloc, layout, first, a)?, *k)),
        Term::Mod(a, k) => Ok(Term::Mod(boxed_term(alloc, layout, first, a)?, *k)),
        Term::Abs(a) => Ok(Term::Abs(boxed_term(alloc, layout, first, a)?)),
    }
}

#[cycle(counted_term)]
fn boxed_term(
    alloc: Global,
    layout: &Layout,
    first: u32,
    term: &Term,
) -> Result<Box<Term>, NoMemory>
    requires { set_count (plain_layout layout.now) ≤ MOST_COUNTED_SETS }
    ensures { IfOk result (λ t. term_tree t.value ≡ counted_term (plain_layout layout.now) first (term_tree term.now)) }
{
    Ok(Box::new(alloc, counted_term(alloc, layout, first, term)?)?)
}
