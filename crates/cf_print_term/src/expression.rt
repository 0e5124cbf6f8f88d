//! The terms of expressions.
ghost use Rattle.std.specs.Prelude.{◌≡◌, ◌||◌, ◌&&◌, IfOk, option_map, slice_index_or, drop, []};
ghost use Rattle.cf_tree.specs.declared.base.Base.TheVariants.{Int};
ghost use Rattle.cf_tree.specs.declared.base.Order.TheVariants.{Eq, Ne};
ghost use Rattle.cf_tree.specs.CodeView.{code_tree, code_trees};
ghost use Rattle.cf_range.specs.Ranges.{minus_passes, times_passes};
ghost use Rattle.cf_range.specs.CodeRanges.{may_pass, range_of};
ghost use Rattle.cf_print_term.specs.Terms.{word, before, between, call};
ghost use Rattle.cf_print_term.specs.TermView.{term_tree, term_trees};
ghost use Rattle.cf_print_term.specs.Summing.{two_summed, one_summed};
ghost use Rattle.cf_print_term.specs.Expressions.{base_of as base, is_small, is_one_small, both_small, is_natural, below_zero, product as product_of, applied as applied_of, comparison as comparison_of, literal as literal_of, difference as difference_of, applied_on, applied_all, set_term, term_of as term, terms_of, opposite_of, opposites, below_of, sum_of, sum_behind, denied as denied_of, divided_term, division as division_of, form_of as form, copied as copied_of, owned as owned_of, conditional as conditional_of};

use crate::build::{
    applied, around, before, between, call_on_all, call_on_one, call_on_three, call_on_two, chosen,
    comparison, form_of, opposite, sign_of, word,
};
use crate::mark::bytes;
use crate::numeral::{digits, literal};
use crate::scope::Scope;
use crate::table::{Divided, Form, Sign, Table};
use crate::term::Term;
use cf_range::{Range, may_pass, range_of};
use cf_tree::{Base, Code, NoMemory, Order};
use std::alloc::Global;

/// Where an expression stands.
#[derive(Clone, Copy)]
pub struct Walk<'a> {
    pub alloc: Global,
    pub table: &'a Table,
    pub scope: &'a Scope,
}

/// The base of an expression.
#[cycle(base_of)]
pub fn base_of(bases: &[Base], code: &Code) -> Base
    ensures { result ≡ base bases.now (code_tree code.now) }
{
    match code {
        Code::Var(x) => base_at(bases, *x),
        Code::Truth(_)
        | Code::Compare { .. }
        | Code::Divides { .. }
        | Code::And(_, _)
        | Code::Or(_, _)
        | Code::Not(_)
        | Code::Subset(_, _) => Base::Bool,
        Code::SetOf(_)
        | Code::Union(_)
        | Code::Inter(_)
        | Code::Diff(_, _)
        | Code::Slice { .. }
        | Code::Fresh { .. } => Base::Set,
        Code::If { yes, .. } => base_of(bases, yes),
        _ => Base::Int,
    }
}

fn base_at(bases: &[Base], level: u32) -> Base
    ensures { result ≡ slice_index_or bases.now level Int }
{
    match bases.get(level as usize) {
        Some(base) => *base,
        None => Base::Int,
    }
}

// The name of a variable.
fn name_at(walk: &Walk<'_>, level: u32) -> Result<Term, NoMemory>
    ensures { IfOk result (λ t. term_tree t ≡ word (slice_index_or walk.now.scope.now.names level [])) }
{
    let scope = walk.scope;
    match scope.names.get(level as usize) {
        Some(name) => word(walk.alloc, &name.bytes),
        None => word(walk.alloc, b""),
    }
}

// Between which numbers an expression gives.
fn range_at(walk: &Walk<'_>, code: &Code) -> Range
    ensures { result ≡ range_of walk.now.scope.now.ranges (code_tree code.now) }
{
    let scope = walk.scope;
    range_of(&scope.ranges, code)
}

// The base of what an expression gives.
fn base_in(walk: &Walk<'_>, code: &Code) -> Base
    ensures { result ≡ base walk.now.scope.now.bases (code_tree code.now) }
{
    let scope = walk.scope;
    base_of(&scope.bases, code)
}

/// Whether an expression is one of numerals alone.
#[cycle(is_small)]
pub fn is_small(code: &Code) -> bool
    ensures { result ≡ is_small (code_tree code.now) }
{
    match code {
        Code::Lit(_) => true,
        Code::Neg(a) | Code::Div { of: a, .. } | Code::Mod { of: a, .. } => is_small(a),
        Code::Sum(parts) | Code::Min(parts) | Code::Max(parts) => is_one_small(parts),
        Code::If { yes, no, .. } => is_small(yes) && is_small(no),
        _ => false,
    }
}

// Whether parts are none, or one of numerals alone.
#[cycle(is_small)]
fn is_one_small(parts: &[Code]) -> bool
    ensures { result ≡ is_one_small (code_trees parts.now) }
{
    match parts {
        [] => true,
        [only] => is_small(only),
        _ => false,
    }
}

fn both_small(table: &Table, a: &Code, b: &Code) -> bool
    ensures { result ≡ both_small table.now (code_tree a.now) (code_tree b.now) }
{
    table.is_typed && (is_small(a) && is_small(b))
}

fn is_natural(walk: &Walk<'_>, code: &Code) -> bool
    ensures { result ≡ is_natural walk.now.table.now walk.now.scope.now (code_tree code.now) }
{
    let table = walk.table;
    let range = range_at(walk, code);
    !(range.low < 0) && !(table.is_typed && is_small(code))
}

fn division(divided: &Divided, is_natural: bool) -> Form
    ensures { result ≡ division_of divided.now is_natural }
{
    if is_natural {
        divided.natural
    } else {
        divided.down
    }
}

// A numeral below 0.
fn below_zero(code: &Code) -> Option<i128>
    ensures { result ≡ below_zero (code_tree code.now) }
{
    match code {
        Code::Lit(k) if *k < 0 => Some(*k),
        _ => None,
    }
}

// Whether a number is divided by k, or is not.
fn divided(walk: &Walk<'_>, order: Order, k: &i128, a: Term) -> Result<Term, NoMemory>
    ensures { IfOk result (λ t. term_tree t ≡ divided_term walk.now.table.now order k.now (term_tree a)) }
{
    let table = walk.table;
    let by = literal(walk.alloc, walk.table, *k)?;
    let rest = between(walk.alloc, table.rest, a, by)?;
    let zero = literal(walk.alloc, walk.table, 0)?;
    between(walk.alloc, sign_of(&table.orders, order), rest, zero)
}

// The product of two codes, whose terms these are.
fn product(walk: &Walk<'_>, a: &Code, b: &Code, x: Term, y: Term) -> Result<Term, NoMemory>
    ensures { IfOk result (λ t. term_tree t ≡
        product_of walk.now.table.now walk.now.scope.now (code_tree a.now) (code_tree b.now) (term_tree x) (term_tree y)) }
{
    let table = walk.table;
    let passes = range_at(walk, a).times_passes(range_at(walk, b));
    let form = form_of(&table.product, passes || both_small(walk.table, a, b));
    applied(walk.alloc, &form, x, y)
}

// The difference of two codes, whose terms these are.
fn difference(walk: &Walk<'_>, a: &Code, b: &Code, x: Term, y: Term) -> Result<Term, NoMemory>
    ensures { IfOk result (λ t. term_tree t ≡
        difference_of walk.now.table.now walk.now.scope.now (code_tree a.now) (code_tree b.now) (term_tree x) (term_tree y)) }
{
    let table = walk.table;
    let passes = range_at(walk, a).minus_passes(range_at(walk, b));
    let form = form_of(&table.difference, passes || both_small(walk.table, a, b));
    applied(walk.alloc, &form, x, y)
}

// The opposite of a condition that is joined of two, where both have one.
fn opposites(
    walk: &Walk<'_>,
    sign: Sign,
    a: Option<Term>,
    b: Option<Term>,
) -> Result<Option<Term>, NoMemory>
    ensures { IfOk result (λ o. option_map term_tree o ≡ opposites sign (option_map term_tree a) (option_map term_tree b)) }
{
    match a {
        None => Ok(None),
        Some(x) => match b {
            None => Ok(None),
            Some(y) => Ok(Some(between(walk.alloc, sign, x, y)?)),
        },
    }
}

// A part less, and a part more.
fn less_by(walk: &Walk<'_>, passes: bool, so_far: Term, less: Term) -> Result<Term, NoMemory>
    ensures { IfOk result (λ t. term_tree t ≡ applied_of (form walk.now.table.now.difference passes) (term_tree so_far) (term_tree less)) }
{
    let table = walk.table;
    applied(
        walk.alloc,
        &form_of(&table.difference, passes),
        so_far,
        less,
    )
}

fn more_by(walk: &Walk<'_>, passes: bool, so_far: Term, more: Term) -> Result<Term, NoMemory>
    ensures { IfOk result (λ t. term_tree t ≡ applied_of (form walk.now.table.now.sum passes) (term_tree so_far) (term_tree more)) }
{
    let table = walk.table;
    applied(walk.alloc, &form_of(&table.sum, passes), so_far, more)
}

// Whether a sum may meet a number past the limit on its way.
fn sum_passes(walk: &Walk<'_>, code: &Code) -> bool
    ensures { result ≡ may_pass walk.now.scope.now.ranges (code_tree code.now) }
{
    let scope = walk.scope;
    may_pass(&scope.ranges, code)
}

// A variable of a base where a value of its own is to be given.
fn copied(walk: &Walk<'_>, base: Base, part: Term) -> Result<Term, NoMemory>
    ensures { IfOk result (λ t. term_tree t ≡ copied_of walk.now.table.now base (term_tree part)) }
{
    let table = walk.table;
    match base {
        Base::Set => around(walk.alloc, table.sets.copy, part),
        Base::Int | Base::Bool => Ok(part),
    }
}

// The term of a code where a value of its own is to be given.
fn owned(walk: &Walk<'_>, code: &Code, part: Term) -> Result<Term, NoMemory>
    ensures { IfOk result (λ t. term_tree t ≡ owned_of walk.now.table.now walk.now.scope.now (code_tree code.now) (term_tree part)) }
{
    match code {
        Code::Var(x) => {
            let scope = walk.scope;
            copied(walk, base_at(&scope.bases, *x), part)
        }
        _ => Ok(part),
    }
}

// The one or the other of two codes, whose terms stand behind that of a test.
fn conditional(walk: &Walk<'_>, yes: &Code, no: &Code, parts: ThreeTerms) -> Result<Term, NoMemory>
    ensures { IfOk result (λ t. term_tree t ≡ conditional_of walk.now.table.now walk.now.scope.now (code_tree yes.now) (code_tree no.now)
        (term_tree parts.first) (term_tree parts.second) (term_tree parts.third)) }
{
    let table = walk.table;
    let ThreeTerms {
        first,
        second,
        third,
    } = parts;
    let second = owned(walk, yes, second)?;
    let third = owned(walk, no, third)?;
    let choice = chosen(walk.alloc, table.choice, first, second, third)?;
    around(walk.alloc, table.around_choice, choice)
}

/// The term of an expression.
#[cycle(term_of)]
pub fn term_of(walk: &Walk<'_>, code: &Code) -> Result<Term, NoMemory>
    ensures { IfOk result (λ t. term_tree t ≡ term walk.now.table.now walk.now.scope.now (code_tree code.now)) }
{
    let table = walk.table;
    match code {
        Code::Lit(k) => literal(walk.alloc, walk.table, *k),
        Code::Truth(true) => word(walk.alloc, bytes(table.yes)),
        Code::Truth(false) => word(walk.alloc, bytes(table.no)),
        Code::Var(x) => name_at(walk, *x),
        Code::SetOf(parts) => set_of(walk, parts),
        Code::Sum(parts) => sum(walk, parts, sum_passes(walk, code)),
        Code::Sub(a, b) => {
            let left = term_of(walk, a)?;
            let parts = two_terms(walk, b, left)?;
            difference(walk, a, b, parts.left, parts.right)
        }
        Code::Mul(a, b) => {
            let left = term_of(walk, a)?;
            let parts = two_terms(walk, b, left)?;
            product(walk, a, b, parts.left, parts.right)
        }
        Code::Neg(a) => before(walk.alloc, table.minus, term_of(walk, a)?),
        Code::Div { of, k } => quotient(walk, &table.quotient, of, k),
        Code::Mod { of, k } => quotient(walk, &table.remainder, of, k),
        Code::Min(parts) => over_all(walk, parts, &table.least),
        Code::Max(parts) => over_all(walk, parts, &table.greatest),
        Code::Compare { order, left, right } => {
            let base = base_in(walk, left);
            compared(walk, right, *order, base, term_of(walk, left)?)
        }
        Code::Divides { k, of } => divided(walk, Order::Eq, k, term_of(walk, of)?),
        Code::And(a, b) => joined(walk, b, table.and, term_of(walk, a)?),
        Code::Or(a, b) => joined(walk, b, table.or, term_of(walk, a)?),
        Code::Not(a) => not(walk, a),
        Code::Union(parts) => over_all(walk, parts, &table.sets.union),
        Code::Inter(parts) => over_all(walk, parts, &table.sets.inter),
        Code::Diff(a, b) => over_two(walk, b, &table.sets.diff, term_of(walk, a)?),
        Code::Subset(a, b) => over_two(walk, b, &table.sets.subset, term_of(walk, a)?),
        Code::Card(a) => call_on_one(walk.alloc, table.sets.card, term_of(walk, a)?),
        Code::Slice { set, from, n } => {
            let first = term_of(walk, set)?;
            let two = two_terms(walk, from, first)?;
            let parts = three_terms(walk, n, two)?;
            call_on_three(
                walk.alloc,
                table.sets.slice,
                parts.first,
                parts.second,
                parts.third,
            )
        }
        Code::Fresh { avoid, n } => {
            let left = term_of(walk, avoid)?;
            let parts = two_terms(walk, n, left)?;
            call_on_two(walk.alloc, table.sets.fresh, parts.left, parts.right)
        }
        Code::If { test, yes, no } => {
            let first = term_of(walk, test)?;
            let two = two_terms(walk, yes, first)?;
            let parts = three_terms(walk, no, two)?;
            conditional(walk, yes, no, parts)
        }
        Code::Tuple(_) | Code::Let { .. } | Code::Solve { .. } => word(walk.alloc, b""),
    }
}

#[derive(Drop)]
struct TwoTerms {
    left: Term,
    right: Term,
}

#[derive(Drop)]
struct ThreeTerms {
    first: Term,
    second: Term,
    third: Term,
}

#[cycle(term_of)]
fn two_terms(walk: &Walk<'_>, code: &Code, left: Term) -> Result<TwoTerms, NoMemory>
    ensures { IfOk result (λ p. (term_tree p.left ≡ term_tree left) × (term_tree p.right ≡ term walk.now.table.now walk.now.scope.now (code_tree code.now))) }
{
    let right = term_of(walk, code)?;
    Ok(TwoTerms { left, right })
}

#[cycle(term_of)]
fn three_terms(walk: &Walk<'_>, code: &Code, two: TwoTerms) -> Result<ThreeTerms, NoMemory>
    ensures { IfOk result (λ p. (term_tree p.first ≡ term_tree two.left) × (term_tree p.second ≡ term_tree two.right) ×
        (term_tree p.third ≡ term walk.now.table.now walk.now.scope.now (code_tree code.now))) }
{
    let third = term_of(walk, code)?;
    Ok(ThreeTerms {
        first: two.left,
        second: two.right,
        third,
    })
}

#[cycle(term_of)]
fn joined(walk: &Walk<'_>, code: &Code, sign: Sign, left: Term) -> Result<Term, NoMemory>
    ensures { IfOk result (λ t. term_tree t ≡ between sign (term_tree left) (term walk.now.table.now walk.now.scope.now (code_tree code.now))) }
{
    let right = term_of(walk, code)?;
    between(walk.alloc, sign, left, right)
}

#[cycle(term_of)]
fn over_two(walk: &Walk<'_>, code: &Code, form: &Form, left: Term) -> Result<Term, NoMemory>
    ensures { IfOk result (λ t. term_tree t ≡ applied_of form.now (term_tree left) (term walk.now.table.now walk.now.scope.now (code_tree code.now))) }
{
    let right = term_of(walk, code)?;
    applied(walk.alloc, form, left, right)
}

#[cycle(term_of)]
fn quotient(walk: &Walk<'_>, by: &Divided, a: &Code, k: &i128) -> Result<Term, NoMemory>
    ensures { IfOk result (λ t. term_tree t ≡
        applied_of (division_of by.now (is_natural walk.now.table.now walk.now.scope.now (code_tree a.now)))
        (term walk.now.table.now walk.now.scope.now (code_tree a.now)) (literal_of walk.now.table.now k.now)) }
{
    let part = term_of(walk, a)?;
    let form = division(by, is_natural(walk, a));
    let divisor = literal(walk.alloc, walk.table, *k)?;
    applied(walk.alloc, &form, part, divisor)
}

#[cycle(term_of)]
fn compared(
    walk: &Walk<'_>,
    code: &Code,
    order: Order,
    base: Base,
    left: Term,
) -> Result<Term, NoMemory>
    ensures { IfOk result (λ t. term_tree t ≡
        comparison_of walk.now.table.now base order (term_tree left) (term walk.now.table.now walk.now.scope.now (code_tree code.now))) }
{
    let right = term_of(walk, code)?;
    comparison(walk.alloc, walk.table, base, order, left, right)
}

/// The term of the opposite of a condition.
#[cycle(term_of)]
pub fn not(walk: &Walk<'_>, a: &Code) -> Result<Term, NoMemory>
    ensures { IfOk result (λ t. term_tree t ≡ denied_of walk.now.table.now (opposite_of walk.now.table.now walk.now.scope.now (code_tree a.now))
        (term walk.now.table.now walk.now.scope.now (code_tree a.now))) }
{
    match opposite_of(walk, a)? {
        Some(opposite) => Ok(opposite),
        None => denied(walk, a),
    }
}

// A condition with a sign before it.
#[cycle(term_of)]
fn denied(walk: &Walk<'_>, a: &Code) -> Result<Term, NoMemory>
    ensures { IfOk result (λ t. term_tree t ≡ before walk.now.table.now.not (term walk.now.table.now walk.now.scope.now (code_tree a.now))) }
{
    let table = walk.table;
    let part = term_of(walk, a)?;
    before(walk.alloc, table.not, part)
}

// The opposite of a condition, where it has one that needs no sign before it.
#[cycle(term_of)]
fn opposite_of(walk: &Walk<'_>, code: &Code) -> Result<Option<Term>, NoMemory>
    ensures { IfOk result (λ o. option_map term_tree o ≡ opposite_of walk.now.table.now walk.now.scope.now (code_tree code.now)) }
{
    let table = walk.table;
    match code {
        Code::Compare { order, left, right } => {
            let base = base_in(walk, left);
            Ok(Some(compared(walk, right, opposite(*order), base, term_of(walk, left)?)?))
        }
        Code::Divides { k, of } => Ok(Some(divided(walk, Order::Ne, k, term_of(walk, of)?)?)),
        Code::Not(a) => Ok(Some(term_of(walk, a)?)),
        Code::And(a, b) => both_opposites(walk, b, table.or, opposite_of(walk, a)?),
        Code::Or(a, b) => both_opposites(walk, b, table.and, opposite_of(walk, a)?),
        _ => Ok(None),
    }
}

#[cycle(term_of)]
fn both_opposites(
    walk: &Walk<'_>,
    code: &Code,
    sign: Sign,
    left: Option<Term>,
) -> Result<Option<Term>, NoMemory>
    ensures { IfOk result (λ o. option_map term_tree o ≡
        opposites sign (option_map term_tree left) (opposite_of walk.now.table.now walk.now.scope.now (code_tree code.now))) }
{
    let right = opposite_of(walk, code)?;
    opposites(walk, sign, left, right)
}

// What is taken off where a part of a sum is below 0, as far as the part shows it.
#[cycle(term_of)]
fn below_of(walk: &Walk<'_>, code: &Code) -> Result<Option<Term>, NoMemory>
    ensures { IfOk result (λ o. option_map term_tree o ≡ below_of walk.now.table.now walk.now.scope.now (code_tree code.now)) }
{
    match code {
        Code::Lit(k) => if *k < 0 {
            Ok(Some(digits(walk.alloc, walk.table, *k)?))
        } else {
            Ok(None)
        },
        Code::Neg(a) => Ok(Some(term_of(walk, a)?)),
        Code::Mul(a, b) => match below_zero(a) {
            Some(k) => {
                let part = term_of(walk, b)?;
                let factor = digits(walk.alloc, walk.table, k)?;
                Ok(Some(product(walk, a, b, factor, part)?))
            }
            None => Ok(None),
        },
        _ => Ok(None),
    }
}

// A sum, which may pass the limit on its way or not.
#[cycle(term_of)]
fn sum(walk: &Walk<'_>, parts: &[Code], passes: bool) -> Result<Term, NoMemory>
    ensures { IfOk result (λ t. term_tree t ≡ sum_of walk.now.table.now walk.now.scope.now passes
        (terms_of walk.now.table.now walk.now.scope.now (code_trees parts.now)) (code_trees parts.now)) }
{
    match parts {
        [] => literal(walk.alloc, walk.table, 0),
        [only] => term_of(walk, only),
        [_, _] => two_summed(walk, parts, passes),
        [_, _, _, ..] => if passes {
            sum_by_call(walk, parts)
        } else {
            let start = two_summed(walk, parts, false)?;
            sum_behind(walk, parts, start)
        },
    }
}

// A sum by a call on all its parts.
#[cycle(term_of)]
fn sum_by_call(walk: &Walk<'_>, parts: &[Code]) -> Result<Term, NoMemory>
    ensures { IfOk result (λ t. term_tree t ≡
        call walk.now.table.now.sum_of (terms_of walk.now.table.now walk.now.scope.now (code_trees parts.now))) }
{
    let table = walk.table;
    let all = terms(walk, parts)?;
    Ok(call_on_all(table.sum_of, all))
}

// The sum of the first two parts, of which only what is printed is made.
#[cycle(term_of)]
fn two_summed(walk: &Walk<'_>, parts: &[Code], passes: bool) -> Result<Term, NoMemory>
    ensures { IfOk result (λ t. term_tree t ≡ two_summed walk.now.table.now walk.now.scope.now passes (code_trees parts.now)) }
{
    match parts {
        [a, b, ..] => {
            let checks = passes || both_small(walk.table, a, b);
            match below_of(walk, b)? {
                Some(lesser) => {
                    let first = term_of(walk, a)?;
                    less_by(walk, checks, first, lesser)
                }
                None => match below_of(walk, a)? {
                    Some(less) => {
                        let second = term_of(walk, b)?;
                        less_by(walk, checks, second, less)
                    }
                    None => {
                        let first = term_of(walk, a)?;
                        with_part(walk, b, checks, first)
                    }
                },
            }
        }
        _ => word(walk.alloc, b""),
    }
}

// A sum with one part behind it.
#[cycle(term_of)]
fn with_part(walk: &Walk<'_>, code: &Code, passes: bool, so_far: Term) -> Result<Term, NoMemory>
    ensures { IfOk result (λ t. term_tree t ≡ applied_of (form walk.now.table.now.sum passes) (term_tree so_far)
        (term walk.now.table.now walk.now.scope.now (code_tree code.now))) }
{
    let part = term_of(walk, code)?;
    more_by(walk, passes, so_far, part)
}

// One more part of a sum, or what is taken off in its place.
#[cycle(term_of)]
fn one_summed(walk: &Walk<'_>, code: &Code, so_far: Term) -> Result<Term, NoMemory>
    ensures { IfOk result (λ t. term_tree t ≡ one_summed walk.now.table.now walk.now.scope.now (term_tree so_far) (code_tree code.now)) }
{
    match below_of(walk, code)? {
        Some(less) => less_by(walk, false, so_far, less),
        None => with_part(walk, code, false, so_far),
    }
}

// A sum that goes on behind its first two parts.
#[cycle(term_of)]
fn sum_behind(walk: &Walk<'_>, parts: &[Code], start: Term) -> Result<Term, NoMemory>
    ensures { IfOk result (λ t. term_tree t ≡
        sum_behind walk.now.table.now walk.now.scope.now (term_tree start) (code_trees (drop 2 parts.now))) }
{
    let mut so_far = start;
    for i in 2..parts.len() {
        so_far = one_summed(walk, &parts[i], so_far)?;
    }
    Ok(so_far)
}

// The terms of codes.
#[cycle(term_of)]
fn terms(walk: &Walk<'_>, codes: &[Code]) -> Result<Vec<Term>, NoMemory>
    ensures { IfOk result (λ ts. term_trees ts.items ≡ terms_of walk.now.table.now walk.now.scope.now (code_trees codes.now)) }
{
    let mut all = Vec::new(walk.alloc);
    for code in codes {
        all.push(term_of(walk, code)?)?;
    }
    Ok(all)
}

#[cycle(term_of)]
fn set_of(walk: &Walk<'_>, parts: &[Code]) -> Result<Term, NoMemory>
    ensures { IfOk result (λ t. term_tree t ≡ set_term walk.now.table.now (terms_of walk.now.table.now walk.now.scope.now (code_trees parts.now))) }
{
    let table = walk.table;
    match parts {
        [] => word(walk.alloc, bytes(table.sets.empty)),
        _ => Ok(call_on_all(table.sets.of, terms(walk, parts)?)),
    }
}

// An operation on one part or more.
#[cycle(term_of)]
fn over_all(walk: &Walk<'_>, parts: &[Code], form: &Form) -> Result<Term, NoMemory>
    ensures { IfOk result (λ t. term_tree t ≡ applied_all form.now (terms_of walk.now.table.now walk.now.scope.now (code_trees parts.now))) }
{
    match parts {
        [] => word(walk.alloc, b""),
        [only] => term_of(walk, only),
        [first, _, ..] => match form {
            Form::Called(call) => Ok(call_on_all(*call, terms(walk, parts)?)),
            _ => {
                let start = term_of(walk, first)?;
                over_more(walk, parts, form, start)
            }
        },
    }
}

// An operation on the parts behind the first, which gives a term.
#[cycle(term_of)]
fn over_more(walk: &Walk<'_>, parts: &[Code], form: &Form, first: Term) -> Result<Term, NoMemory>
    ensures { IfOk result (λ t. term_tree t ≡
        applied_on form.now (term_tree first) (terms_of walk.now.table.now walk.now.scope.now (code_trees (drop 1 parts.now)))) }
{
    let mut so_far = first;
    for i in 1..parts.len() {
        so_far = over_two(walk, &parts[i], form, so_far)?;
    }
    Ok(so_far)
}
