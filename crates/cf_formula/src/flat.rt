//! Comparisons of number forms with few absolute values.
ghost use Rattle.std.specs.Prelude.{◌≡◌, ◌+◌, ◌<◌, ◌≤◌, ◌^◌, ◌||◌, Some, None, ◌++◌, ◌∷◌, [], ℤ, pos, negsuc, neg_ℤ, ◌*ℤ◌, nat_lt, nat_le, int_lt, ◌&&◌, not, false, true, filter, map, IfOk, IfSome, OnOk, if◌then◌else◌};
ghost use Rattle.cf_num.specs.Limit.{IsWithin};
ghost use Rattle.cf_tree.specs.RelView.{term_tree};
ghost use Rattle.cf_tree.specs.Relation.{is_fixed, IsLinearTerm};
ghost use Rattle.cf_linear.specs.declared.refusal.TheConstants.{MOST_SETS};
ghost use Rattle.cf_linear.specs.Layout.{set_count, first_free};
ghost use Rattle.cf_linear.specs.Rows.{entry, comb, comb_passes};
ghost use Rattle.cf_linear.specs.Views.{plain_layout};
ghost use Rattle.cf_linear.specs.Written.{IsPlaced, abs_count, quotient_count, plus};
ghost use Rattle.cf_formula.specs.Answers.{SubstAnswer, FormulaAnswer};
ghost use Rattle.cf_formula.specs.FormulaView.{formula_tree};
ghost use Rattle.cf_formula.specs.Writing.{plain_row, is_plain, with_plain, flattened, with_abs, in_order, turned_parts, compared, flat_difference};
ghost use Rattle.cf_formula.specs.WritingAnswers.{flat_of, plain_passes, with_plain_passes, flattened_passes, with_abs_passes, part_passes, with_part, raised_passes, at_least_passes, at_most_passes};
ghost use Rattle.cf_formula.specs.WritingAnswers.{compared_passes, difference_passes, flat_formula, flat_passes, joined_formula, FlatAnswer, DifferenceAnswer, FlatFormulaAnswer, ScaledAnswer, NumberAnswer};
ghost use Rattle.cf_linear.specs.Cases.{atom_compare};

use crate::atoms::ge;
use crate::formula::Formula;
use crate::members::{conj, disj};
use cf_cases::abs_count;
use cf_linear::{Layout, Row, RowFault, first_free, plus, row_of};
use cf_num::{mul, neg};
use cf_tree::{NoMemory, Order, Term, without};
use std::alloc::Global;
use std::marker::Model;

/// How many absolute values a comparison may have that is not written by ways.
pub(crate) const MOST_ABS: usize = 3;

// The absolute value of a row, times a number. Contracts see the number and the row.
#[derive(Drop)]
pub(crate) struct Part {
    factor: i128,
    row: Row,
}

impl Model for Part {
    ghost use Rattle.std.specs.Prelude.{ℕ, ℤ, List};
    ghost use Rattle.cf_num.specs.Limit.{IsWithin};

    ghost Value = { ℤ × List (ℕ × ℤ) };

    ghost view = { λ p. (p.factor, p.row) };

    ghost invariant = { λ p. IsWithin p.factor };
}

impl Part {
    fn new(factor: i128, row: Row) -> Part
        requires { IsWithin factor }
        ensures { result ≡ (factor, row) }
    {
        Part { factor, row }
    }

    fn factor(&self) -> i128
        ensures value { result ≡ self.now.0 }
        ensures fits { IsWithin result }
    {
        self.factor
    }

    fn row(&self) -> &Row
        ensures { result.now ≡ self.now.1 }
    {
        &self.row
    }

    // An equal part.
    fn try_copy(&self, alloc: Global) -> Result<Part, NoMemory>
        ensures { IfOk result (λ p. p ≡ self.now) }
    {
        let row = self.row().try_copy(alloc)?;
        Ok(Part::new(self.factor(), row))
    }

    // The part with the other sign.
    fn turned(&self, alloc: Global) -> Result<Part, NoMemory>
        ensures { IfOk result (λ p. p ≡ (neg_ℤ self.now.0, self.now.1)) }
    {
        let row = self.row().try_copy(alloc)?;
        Ok(Part::new(neg(self.factor()), row))
    }

    // The row with the part's row times its number.
    fn added_to(&self, alloc: Global, row: &Row) -> Result<Row, RowFault>
        ensures { SubstAnswer (comb_passes (pos 1) row.now self.now.0 self.now.1) (comb (pos 1) row.now self.now.0 self.now.1) result }
    {
        combined(alloc, row, &self.row, &self.factor)
    }

    // Whether the absolute value is added.
    fn is_added(&self) -> bool
        ensures { result ≡ int_lt (pos 0) self.now.0 }
    {
        self.factor() > 0
    }

    // Whether it is taken away.
    fn is_taken(&self) -> bool
        ensures { result ≡ int_lt self.now.0 (pos 0) }
    {
        self.factor() < 0
    }
}

// The row with k times the other one.
fn combined(alloc: Global, row: &Row, other: &Row, k: &i128) -> Result<Row, RowFault>
    requires { IsWithin k.now }
    ensures { SubstAnswer (comb_passes (pos 1) row.now k.now other.now) (comb (pos 1) row.now k.now other.now) result }
{
    let sum = row.combine(alloc, 1, other, *k)?;
    Ok(sum)
}

// A row, and absolute values of rows times numbers.
#[derive(Drop)]
pub(crate) struct Flat {
    row: Row,
    parts: Vec<Part>,
}

// The formula of a comparison with one to three absolute values, if each of them stands over a form without
// `abs`, `div` and `mod`.
pub(crate) fn flat_formula(
    alloc: Global,
    layout: &Layout,
    order: Order,
    left: &Term,
    right: &Term,
) -> Result<Option<Formula>, RowFault>
    requires left { IsPlaced (plain_layout layout.now) (term_tree left.now) }
    requires left_linear { IsLinearTerm (term_tree left.now) }
    requires right { IsPlaced (plain_layout layout.now) (term_tree right.now) }
    requires right_linear { IsLinearTerm (term_tree right.now) }
    requires sets { set_count (plain_layout layout.now) ≤ MOST_SETS }
    requires room { first_free (plain_layout layout.now) < 2 ^ 32 }
    ensures { FlatFormulaAnswer (flat_passes (plain_layout layout.now) (atom_compare order (term_tree left.now) (term_tree right.now)))
        (flat_formula (plain_layout layout.now) (atom_compare order (term_tree left.now) (term_tree right.now))) result }
{
    match difference(alloc, layout, left, right)? {
        None => Ok(None),
        Some(flat) => Ok(Some(compared(alloc, order, &flat)?)),
    }
}

// The first form less the second, where both together have one to three absolute values.
fn difference(
    alloc: Global,
    layout: &Layout,
    left: &Term,
    right: &Term,
) -> Result<Option<Flat>, RowFault>
    requires left { IsPlaced (plain_layout layout.now) (term_tree left.now) }
    requires left_linear { IsLinearTerm (term_tree left.now) }
    requires right { IsPlaced (plain_layout layout.now) (term_tree right.now) }
    requires right_linear { IsLinearTerm (term_tree right.now) }
    requires sets { set_count (plain_layout layout.now) ≤ MOST_SETS }
    requires room { first_free (plain_layout layout.now) < 2 ^ 32 }
    ensures { DifferenceAnswer (difference_passes (plain_layout layout.now) (term_tree left.now) (term_tree right.now))
        (flat_difference (plain_layout layout.now) (term_tree left.now) (term_tree right.now)) result }
{
    if !are_few(abs_count(left)?, abs_count(right)?) {
        return Ok(None);
    }
    let mut flat = Flat {
        row: Row::empty(alloc),
        parts: Vec::new(alloc),
    };
    if !add_flat(alloc, layout, left, &1, &mut flat)? {
        return Ok(None);
    }
    if !add_flat(alloc, layout, right, &-1, &mut flat)? {
        return Ok(None);
    }
    Ok(Some(flat))
}

// Whether the numbers add up to one to three.
fn are_few(a: usize, b: usize) -> bool
    ensures { result ≡ (nat_lt 0 (a + b) && nat_le (a + b) 3) }
{
    match a.checked_add(b) {
        Some(n) => 0 < n && n <= MOST_ABS,
        None => false,
    }
}

// Adds k times the form, and says whether each `abs` in it stands over a form without `abs`, `div` and `mod`.
fn add_flat(
    alloc: Global,
    layout: &Layout,
    term: &Term,
    k: &i128,
    flat: &mut Flat,
) -> Result<bool, RowFault>
    requires placed { IsPlaced (plain_layout layout.now) (term_tree term.now) }
    requires linear { IsLinearTerm (term_tree term.now) }
    requires factor { IsWithin k.now }
    requires sets { set_count (plain_layout layout.now) ≤ MOST_SETS }
    requires room { first_free (plain_layout layout.now) < 2 ^ 32 }
    ensures { FlatAnswer (flattened_passes (plain_layout layout.now) (term_tree term.now) k.now (flat_of flat.old))
        (flattened (plain_layout layout.now) (term_tree term.now) k.now (flat_of flat.old)) flat.new result }
{
    match term {
        Term::Lit(_) | Term::Var(_) | Term::Card(_) => add_plain(alloc, layout, term, k, flat),
        Term::Div(_, _) | Term::Mod(_, _) => add_plain(alloc, layout, term, k, flat),
        Term::Neg(a) => add_flat(alloc, layout, a, &neg(*k), flat),
        Term::Add(a, b) => {
            if !add_flat(alloc, layout, a, k, flat)? {
                return Ok(false);
            }
            add_flat(alloc, layout, b, k, flat)
        }
        Term::Sub(a, b) => {
            if !add_flat(alloc, layout, a, k, flat)? {
                return Ok(false);
            }
            add_flat(alloc, layout, b, &neg(*k), flat)
        }
        Term::Mul(a, b) => {
            if is_fixed(a) {
                match scaled(alloc, layout, a, k)? {
                    Some(m) => add_flat(alloc, layout, b, &m, flat),
                    None => Ok(false),
                }
            } else {
                match scaled(alloc, layout, b, k)? {
                    Some(m) => add_flat(alloc, layout, a, &m, flat),
                    None => Ok(false),
                }
            }
        }
        Term::Abs(a) => add_abs(alloc, layout, a, k, flat),
    }
}

// k times the value of a form that is a number, unless it has an `abs`.
fn scaled(alloc: Global, layout: &Layout, term: &Term, k: &i128) -> Result<Option<i128>, RowFault>
    requires placed { IsPlaced (plain_layout layout.now) (term_tree term.now) }
    requires linear { IsLinearTerm (term_tree term.now) }
    requires factor { IsWithin k.now }
    requires sets { set_count (plain_layout layout.now) ≤ MOST_SETS }
    requires room { first_free (plain_layout layout.now) < 2 ^ 32 }
    ensures gives { ScaledAnswer (plain_layout layout.now) (term_tree term.now) k.now result }
    ensures fits { IfOk result (λ o. IfSome o IsWithin) }
{
    if abs_count(term)? != 0 {
        return Ok(None);
    }
    let row = plain_row(alloc, layout, term)?;
    let m = constant_times(&row, k)?;
    Ok(Some(m))
}

// k times the constant of the row.
fn constant_times(row: &Row, k: &i128) -> Result<i128, RowFault>
    requires { IsWithin k.now }
    ensures gives { NumberAnswer (k.now *ℤ entry row.now 0) result }
    ensures fits { IfOk result IsWithin }
{
    match mul(*k, row.entry(0)) {
        Some(m) => Ok(m),
        None => Err(RowFault::Past),
    }
}

// Adds k times the form, if it has no `abs`, `div` and `mod`.
fn add_plain(
    alloc: Global,
    layout: &Layout,
    term: &Term,
    k: &i128,
    flat: &mut Flat,
) -> Result<bool, RowFault>
    requires placed { IsPlaced (plain_layout layout.now) (term_tree term.now) }
    requires linear { IsLinearTerm (term_tree term.now) }
    requires factor { IsWithin k.now }
    requires sets { set_count (plain_layout layout.now) ≤ MOST_SETS }
    requires room { first_free (plain_layout layout.now) < 2 ^ 32 }
    ensures { FlatAnswer (with_plain_passes (plain_layout layout.now) (term_tree term.now) k.now (flat_of flat.old))
        (with_plain (plain_layout layout.now) (term_tree term.now) k.now (flat_of flat.old)) flat.new result }
{
    if !is_plain(term)? {
        return Ok(false);
    }
    let plain = plain_row(alloc, layout, term)?;
    let sum = flat.row.combine(alloc, 1, &plain, *k)?;
    flat.row = sum;
    Ok(true)
}

// Adds k times the absolute value of the form, if it has no `abs`, `div` and `mod`.
fn add_abs(
    alloc: Global,
    layout: &Layout,
    of: &Term,
    k: &i128,
    flat: &mut Flat,
) -> Result<bool, RowFault>
    requires placed { IsPlaced (plain_layout layout.now) (term_tree of.now) }
    requires linear { IsLinearTerm (term_tree of.now) }
    requires factor { IsWithin k.now }
    requires sets { set_count (plain_layout layout.now) ≤ MOST_SETS }
    requires room { first_free (plain_layout layout.now) < 2 ^ 32 }
    ensures { FlatAnswer (is_plain (term_tree of.now) && plain_passes (plain_layout layout.now) (term_tree of.now))
        (if is_plain (term_tree of.now) then Some (record {
          row = flat.old.row;
          parts = flat.old.parts.items ++ ((k.now, plain_row (plain_layout layout.now) (term_tree of.now)) ∷ []);
        }) else None)
        flat.new result }
{
    if !is_plain(of)? {
        return Ok(false);
    }
    let row = plain_row(alloc, layout, of)?;
    flat.parts.push(Part::new(*k, row))?;
    Ok(true)
}

// The row of a form without `abs`, `div` and `mod`.
fn plain_row(alloc: Global, layout: &Layout, term: &Term) -> Result<Row, RowFault>
    requires placed { IsPlaced (plain_layout layout.now) (term_tree term.now) }
    requires linear { IsLinearTerm (term_tree term.now) }
    requires plain { abs_count (term_tree term.now) ≡ 0 }
    requires sets { set_count (plain_layout layout.now) ≤ MOST_SETS }
    requires room { first_free (plain_layout layout.now) < 2 ^ 32 }
    ensures { SubstAnswer (plain_passes (plain_layout layout.now) (term_tree term.now)) (plain_row (plain_layout layout.now) (term_tree term.now)) result }
{
    let first = first_free(layout);
    if !has_room(first, quotient_count(term)?) {
        return Err(RowFault::NoMemory);
    }
    let written = row_of(alloc, term, layout, &[], first)?;
    Ok(written.row)
}

// Whether so many columns from this one on have numbers.
pub(crate) fn has_room(next: u32, count: u32) -> bool
    ensures { result ≡ true → next + count < 2 ^ 32 }
{
    count <= u32::MAX - next
}

// Whether the form has no `abs`, `div` and `mod`.
fn is_plain(term: &Term) -> Result<bool, NoMemory>
    ensures { IfOk result (λ b. b ≡ is_plain (term_tree term.now)) }
{
    let signs = abs_count(term)?;
    let quotients = quotient_count(term)?;
    Ok(signs == 0 && quotients == 0)
}

// How many forms `div` and `mod` it holds.
pub(crate) fn quotient_count(term: &Term) -> Result<u32, NoMemory>
    ensures { IfOk result (λ n. n ≡ quotient_count (term_tree term.now)) }
{
    match term {
        Term::Lit(_) | Term::Var(_) | Term::Card(_) => Ok(0),
        Term::Neg(a) | Term::Abs(a) => quotient_count(a),
        Term::Add(a, b) | Term::Sub(a, b) | Term::Mul(a, b) => {
            total(quotient_count(a)?, quotient_count(b)?)
        }
        Term::Div(a, _) | Term::Mod(a, _) => total(quotient_count(a)?, 1),
    }
}

// The sum: each of what is counted has a column of its own, so that no memory holds more than a `u32`.
pub(crate) fn total(a: u32, b: u32) -> Result<u32, NoMemory>
    ensures { IfOk result (λ n. n ≡ a + b) }
{
    match a.checked_add(b) {
        Some(n) => Ok(n),
        None => Err(NoMemory),
    }
}

// Whether a form holds no variable, no `card`, no `div` and no `mod`.
fn is_fixed(term: &Term) -> bool
    ensures { result ≡ is_fixed (term_tree term.now) }
{
    match term {
        Term::Lit(_) => true,
        Term::Var(_) | Term::Card(_) | Term::Div(_, _) | Term::Mod(_, _) => false,
        Term::Neg(a) | Term::Abs(a) => is_fixed(a),
        Term::Add(a, b) | Term::Sub(a, b) | Term::Mul(a, b) => is_fixed(a) && is_fixed(b),
    }
}

// The comparison of the flat form with 0.
fn compared(alloc: Global, order: Order, flat: &Flat) -> Result<Formula, RowFault>
    ensures { FormulaAnswer (compared_passes order (flat_of flat.now)) (compared order (flat_of flat.now)) result }
{
    match order {
        Order::Ge => at_least(alloc, flat, 0),
        Order::Gt => at_least(alloc, flat, -1),
        Order::Le => at_most(alloc, flat, 0),
        Order::Lt => at_most(alloc, flat, -1),
        Order::Eq => {
            let low = at_least(alloc, flat, 0)?;
            match at_most(alloc, flat, 0) {
                Ok(high) => Ok(joined(alloc, true, low, high)?),
                Err(fault) => Err(without(low, fault)),
            }
        }
        Order::Ne => {
            let low = at_most(alloc, flat, -1)?;
            match at_least(alloc, flat, -1) {
                Ok(high) => Ok(joined(alloc, false, low, high)?),
                Err(fault) => Err(without(low, fault)),
            }
        }
    }
}

// The flat form and `n` are at least 0.
fn at_least(alloc: Global, flat: &Flat, n: i128) -> Result<Formula, RowFault>
    requires { IsWithin n }
    ensures { FormulaAnswer (at_least_passes n (flat_of flat.now)) (with_abs (plus flat.now.row n) (in_order flat.now.parts.items)) result }
{
    let parts = in_order(alloc, &flat.parts)?;
    raised(alloc, &flat.row, n, &parts)
}

// What the flat form lacks to 0, and `n`, are at least 0.
fn at_most(alloc: Global, flat: &Flat, n: i128) -> Result<Formula, RowFault>
    requires { IsWithin n }
    ensures { FormulaAnswer (at_most_passes n (flat_of flat.now))
        (with_abs (plus (comb (negsuc 0) flat.now.row (pos 0) []) n) (turned_parts flat.now.parts.items)) result }
{
    let row = flat.row.negated(alloc)?;
    let parts = turned_parts(alloc, &flat.parts)?;
    raised(alloc, &row, n, &parts)
}

// The row with `n` more and the absolute values are at least 0 together.
fn raised(alloc: Global, row: &Row, n: i128, parts: &[Part]) -> Result<Formula, RowFault>
    requires { IsWithin n }
    ensures { FormulaAnswer (raised_passes n row.now parts.now) (with_abs (plus row.now n) parts.now) result }
{
    let sum = plus(alloc, row, n)?;
    with_abs(alloc, &sum, parts)
}

// The row and the absolute values are at least 0 together.
#[cycle(with_abs)]
#[tactic(auto, using(crate::proofs::WritingCode::with_abs_by))]
fn with_abs(alloc: Global, row: &Row, parts: &[Part]) -> Result<Formula, RowFault>
    ensures { FormulaAnswer (with_abs_passes row.now parts.now) (with_abs row.now parts.now) result }
{
    match parts.split_first() {
        None => Ok(ge(alloc, row.try_copy(alloc)?)?),
        Some((part, rest)) => {
            let turned = part.turned(alloc)?;
            with_both(alloc, row, part, &turned, rest)
        }
    }
}

// The same with the part and with the one of the other sign: both, where it is taken away, or either.
#[cycle(with_abs)]
fn with_both(
    alloc: Global,
    row: &Row,
    part: &Part,
    turned: &Part,
    parts: &[Part],
) -> Result<Formula, RowFault>
    ensures { FormulaAnswer (part_passes row.now part.now parts.now || part_passes row.now turned.now parts.now)
        (joined_formula (int_lt part.now.0 (pos 0)) (with_part row.now part.now parts.now) (with_part row.now turned.now parts.now)) result }
{
    let first = with_one(alloc, row, part, parts)?;
    match with_one(alloc, row, turned, parts) {
        Ok(second) => Ok(joined(alloc, part.is_taken(), first, second)?),
        Err(fault) => Err(without(first, fault)),
    }
}

// The same with a part more, of which the row is at least 0.
#[cycle(with_abs)]
fn with_one(alloc: Global, row: &Row, part: &Part, parts: &[Part]) -> Result<Formula, RowFault>
    ensures { FormulaAnswer (part_passes row.now part.now parts.now) (with_part row.now part.now parts.now) result }
{
    let sum = part.added_to(alloc, row)?;
    with_abs(alloc, &sum, parts)
}

// Both formulas, where `both`, or either.
pub(crate) fn joined(
    alloc: Global,
    both: bool,
    first: Formula,
    second: Formula,
) -> Result<Formula, NoMemory>
    ensures { IfOk result (λ f. formula_tree f ≡ joined_formula both (formula_tree first) (formula_tree second)) }
{
    let mut parts = Vec::new(alloc);
    parts.push(first)?;
    parts.push(second)?;
    if both {
        conj(alloc, parts)
    } else {
        disj(alloc, parts)
    }
}

// What is taken away first.
fn in_order(alloc: Global, parts: &[Part]) -> Result<Vec<Part>, NoMemory>
    ensures { IfOk result (λ v. v.items ≡ in_order parts.now) }
{
    let mut out = Vec::new(alloc);
    push_others(alloc, parts, &mut out)?;
    push_added(alloc, parts, &mut out)?;
    Ok(out)
}

// The parts with the other signs, what is taken away then first.
fn turned_parts(alloc: Global, parts: &[Part]) -> Result<Vec<Part>, NoMemory>
    ensures { IfOk result (λ v. v.items ≡ turned_parts parts.now) }
{
    let first = in_order(alloc, parts)?;
    let turned = turned_all(alloc, &first)?;
    in_order(alloc, &turned)
}

#[tactic(auto, using(crate::proofs::WritingCode::mapped_step))]
fn turned_all(alloc: Global, parts: &[Part]) -> Result<Vec<Part>, NoMemory>
    ensures { IfOk result (λ v. v.items ≡ map (λ (k, s). (neg_ℤ k, s)) parts.now) }
{
    let mut out = Vec::new(alloc);
    let mut rest = parts;
    while let Some((part, more)) = rest.split_first() {
        out.push(part.turned(alloc)?)?;
        rest = more;
    }
    Ok(out)
}

// Adds the parts of which the absolute values are not added.
#[tactic(auto, using(crate::proofs::WritingCode::kept_step))]
fn push_others(alloc: Global, parts: &[Part], out: &mut Vec<Part>) -> Result<(), NoMemory>
    ensures { OnOk result (out.new.items ≡ out.old.items ++ filter (λ (k, s). not (int_lt (pos 0) k)) parts.now) }
{
    let mut rest = parts;
    while let Some((part, more)) = rest.split_first() {
        push_if(alloc, part, !part.is_added(), out)?;
        rest = more;
    }
    Ok(())
}

// Adds the parts of which they are added.
#[tactic(auto, using(crate::proofs::WritingCode::kept_step))]
fn push_added(alloc: Global, parts: &[Part], out: &mut Vec<Part>) -> Result<(), NoMemory>
    ensures { OnOk result (out.new.items ≡ out.old.items ++ filter (λ (k, s). int_lt (pos 0) k) parts.now) }
{
    let mut rest = parts;
    while let Some((part, more)) = rest.split_first() {
        push_if(alloc, part, part.is_added(), out)?;
        rest = more;
    }
    Ok(())
}

// Adds the part, where `wanted`.
fn push_if(alloc: Global, part: &Part, wanted: bool, out: &mut Vec<Part>) -> Result<(), NoMemory>
    ensures { OnOk result (out.new.items ≡ out.old.items ++ (if wanted then part.now ∷ [] else [])) }
{
    if wanted {
        out.push(part.try_copy(alloc)?)?;
    }
    Ok(())
}
