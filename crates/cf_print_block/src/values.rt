//! Values at hand.
ghost use Rattle.std.specs.Prelude.{◌≡◌, ◌∷◌, [], slice_get, IfOk};
ghost use Rattle.cf_tree.specs.CodeView.{code_tree, code_trees};
ghost use Rattle.cf_print_term.specs.Expressions.{term_of as term_at};
ghost use Rattle.cf_print_block.specs.Places.{ahead as one_ahead, all_at_hand as those_at_hand, at_hand as value_at_hand, behind as those_behind, behind_one, denied_text, first_at_hand, given as given_by, is_variable as names_variable, not_text as text_of_not, table, variable as variable_of, wish_at as wish_for_place};
ghost use Rattle.cf_print_block.specs.PrinterView.{setting_in};
ghost use Rattle.cf_print_block.specs.Statements.{given_text as text_given, given_texts};
ghost use Rattle.cf_print_term.specs.Terms.{text};
ghost use Rattle.cf_print_term.specs.TermView.{term_tree};

use crate::printer::{Printer, table_in};
use cf_print::Language;
use cf_print_line::owned_text;
use cf_print_term::{Scope, Table, Term, Walk, base_of, bytes, is_small, not, put_term, term_of};
use cf_range::{Range, range_of};
use cf_tree::{Base, Code, NoMemory, Text};
use std::alloc::Global;

/// A value that is at hand: its text, that of its opposite where it is a condition, and whether it is a variable or made of
/// numerals alone.
#[derive(Drop)]
pub(crate) struct AtHand {
    pub text: Text,
    pub denied: Text,
    pub is_variable: bool,
    pub is_small: bool,
    pub base: Base,
    pub range: Range,
}

/// The name that a value wishes for, and whether statements read it.
#[derive(Drop)]
pub(crate) struct Wish {
    pub name: Option<Text>,
    pub is_read: bool,
}

// The text of a term.
fn text_of(alloc: Global, term: &Term) -> Result<Text, NoMemory>
    ensures { IfOk result (λ t. t ≡ text (term_tree term.now)) }
{
    let mut bytes = Vec::new(alloc);
    put_term(&mut bytes, term)?;
    Ok(Text { bytes })
}

fn no_text(alloc: Global) -> Text
    ensures { result ≡ [] }
{
    Text {
        bytes: Vec::new(alloc),
    }
}

// The text of an expression.
fn text_in(walk: &Walk<'_>, code: &Code) -> Result<Text, NoMemory>
    ensures { IfOk result (λ t. t ≡ text (term_at walk.now.table.now walk.now.scope.now (code_tree code.now))) }
{
    let term = term_of(walk, code)?;
    text_of(walk.alloc, &term)
}

// The text of the opposite of a condition.
fn denied_in(walk: &Walk<'_>, code: &Code, base: Base) -> Result<Text, NoMemory>
    ensures { IfOk result (λ t. t ≡ denied_text walk.now.table.now walk.now.scope.now (code_tree code.now) base) }
{
    match base {
        Base::Bool => {
            let term = not(walk, code)?;
            text_of(walk.alloc, &term)
        }
        Base::Int | Base::Set => Ok(no_text(walk.alloc)),
    }
}

fn is_variable(code: &Code) -> bool
    ensures { result ≡ names_variable (code_tree code.now) }
{
    match code {
        Code::Var(_) => true,
        _ => false,
    }
}

// The value of an expression.
#[tactic(auto, unfolding(crate::specs::Places::at_hand))]
fn at_hand(walk: &Walk<'_>, code: &Code) -> Result<AtHand, NoMemory>
    ensures { IfOk result (λ v. v ≡ value_at_hand walk.now.table.now walk.now.scope.now (code_tree code.now)) }
{
    let scope = walk.scope;
    let base = base_of(&scope.bases, code);
    let range = range_of(&scope.ranges, code);
    let denied = denied_in(walk, code, base)?;
    let text = text_in(walk, code)?;
    Ok(AtHand {
        text,
        denied,
        is_variable: is_variable(code),
        is_small: is_small(code),
        base,
        range,
    })
}

fn all_at_hand(walk: &Walk<'_>, codes: &[Code]) -> Result<Vec<AtHand>, NoMemory>
    ensures { IfOk result (λ vs. vs.items ≡ those_at_hand walk.now.table.now walk.now.scope.now (code_trees codes.now)) }
{
    let mut all = Vec::new(walk.alloc);
    for code in codes {
        all.push(at_hand(walk, code)?)?;
    }
    Ok(all)
}

fn one_at_hand(walk: &Walk<'_>, code: &Code) -> Result<Vec<AtHand>, NoMemory>
    ensures { IfOk result (λ vs. vs.items ≡ value_at_hand walk.now.table.now walk.now.scope.now (code_tree code.now) ∷ []) }
{
    let mut all = Vec::new(walk.alloc);
    all.push(at_hand(walk, code)?)?;
    Ok(all)
}

// The values of an expression, or of a tuple of some.
fn given_in(walk: &Walk<'_>, code: &Code) -> Result<Vec<AtHand>, NoMemory>
    ensures { IfOk result (λ vs. vs.items ≡ given_by walk.now.table.now walk.now.scope.now (code_tree code.now)) }
{
    match code {
        Code::Tuple(parts) => all_at_hand(walk, parts),
        _ => one_at_hand(walk, code),
    }
}

/// The values of a code that is an expression, or a tuple of some.
pub(crate) fn given(
    printer: &Printer<'_>,
    scope: &Scope,
    code: &Code,
) -> Result<Vec<AtHand>, NoMemory>
    ensures { IfOk result (λ vs. vs.items ≡ given_by (table (setting_in printer.now)) scope.now (code_tree code.now)) }
{
    let table = table_in(printer);
    given_in(&walk_of(printer.alloc, &table, scope), code)
}

fn walk_of<'x>(alloc: Global, table: &'x Table, scope: &'x Scope) -> Walk<'x>
    ensures table { result.table.now ≡ table.now }
    ensures scope { result.scope.now ≡ scope.now }
{
    Walk {
        alloc,
        table,
        scope,
    }
}

fn not_text(alloc: Global, table: &Table, base: Base, name: &Text) -> Result<Text, NoMemory>
    ensures { IfOk result (λ t. t ≡ text_of_not table.now base name.now) }
{
    match base {
        Base::Bool => {
            let mut all = Vec::from_slice(alloc, bytes(table.not.text))?;
            all.extend_from_slice(&name.bytes)?;
            Ok(Text { bytes: all })
        }
        Base::Int | Base::Set => Ok(no_text(alloc)),
    }
}

/// A variable.
pub(crate) fn variable(
    printer: &Printer<'_>,
    base: Base,
    range: Range,
    name: &Text,
) -> Result<AtHand, NoMemory>
    ensures { IfOk result (λ v. v ≡ variable_of (table (setting_in printer.now)) base range name.now) }
{
    let table = table_in(printer);
    let denied = not_text(printer.alloc, &table, base, name)?;
    Ok(AtHand {
        text: name.try_copy(printer.alloc)?,
        denied,
        is_variable: true,
        is_small: false,
        base,
        range,
    })
}

impl AtHand {
    /// An equal value.
    pub(crate) fn try_copy(&self, alloc: Global) -> Result<AtHand, NoMemory>
        ensures { IfOk result (λ v. v ≡ self.now) }
    {
        let denied = self.denied.try_copy(alloc)?;
        Ok(AtHand {
            text: self.text.try_copy(alloc)?,
            denied,
            is_variable: self.is_variable,
            is_small: self.is_small,
            base: self.base,
            range: self.range,
        })
    }
}

// What stands for the first of no values.
fn no_value(alloc: Global) -> AtHand
    ensures { result ≡ first_at_hand [] }
{
    AtHand {
        text: no_text(alloc),
        denied: no_text(alloc),
        is_variable: false,
        is_small: false,
        base: Base::Int,
        range: Range::whole(),
    }
}

/// The first of some values.
pub(crate) fn first_of(alloc: Global, values: &[AtHand]) -> Result<AtHand, NoMemory>
    ensures { IfOk result (λ v. v ≡ first_at_hand values.now) }
{
    match values.split_first() {
        Some((value, _)) => value.try_copy(alloc),
        None => Ok(no_value(alloc)),
    }
}

fn given_text(alloc: Global, language: Language, value: &AtHand) -> Result<Text, NoMemory>
    ensures { IfOk result (λ t. t ≡ text_given language value.now) }
{
    if value.is_variable {
        owned_text(alloc, language, value.base, &value.text.bytes)
    } else {
        value.text.try_copy(alloc)
    }
}

/// The texts of values that are given.
pub(crate) fn texts_of(
    alloc: Global,
    language: Language,
    values: &[AtHand],
) -> Result<Vec<Text>, NoMemory>
    ensures { IfOk result (λ ts. ts.items ≡ given_texts language values.now) }
{
    let mut all = Vec::new(alloc);
    for value in values {
        all.push(given_text(alloc, language, value)?)?;
    }
    Ok(all)
}

/// A scope with one value behind its variables.
#[tactic(auto, unfolding(crate::specs::Places::behind_one))]
pub(crate) fn with_one_behind(
    alloc: Global,
    scope: Scope,
    value: &AtHand,
) -> Result<Scope, NoMemory>
    ensures { IfOk result (λ s. s ≡ behind_one scope value.now) }
{
    let mut scope = scope;
    scope.names.push(value.text.try_copy(alloc)?)?;
    scope.bases.push(value.base)?;
    scope.ranges.push(value.range)?;
    Ok(scope)
}

/// A scope with values behind its variables.
pub(crate) fn behind(alloc: Global, scope: Scope, values: &[AtHand]) -> Result<Scope, NoMemory>
    ensures { IfOk result (λ s. s ≡ those_behind scope values.now) }
{
    let mut scope = scope;
    for value in values {
        scope = with_one_behind(alloc, scope, value)?;
    }
    Ok(scope)
}

/// A scope with a value before its variables.
#[tactic(auto, unfolding(crate::specs::Places::ahead))]
pub(crate) fn ahead(alloc: Global, value: &AtHand, scope: Scope) -> Result<Scope, NoMemory>
    ensures { IfOk result (λ s. s ≡ one_ahead value.now scope) }
{
    let mut scope = scope;
    scope.names.insert(0, value.text.try_copy(alloc)?)?;
    scope.bases.insert(0, value.base)?;
    scope.ranges.insert(0, value.range)?;
    Ok(scope)
}

/// The k-th of some names, where there are so many.
pub(crate) fn nth_wish(alloc: Global, names: &[Text], k: usize) -> Result<Option<Text>, NoMemory>
    ensures { IfOk result (λ w. w ≡ slice_get names.now k) }
{
    match names.get(k) {
        Some(name) => Ok(Some(name.try_copy(alloc)?)),
        None => Ok(None),
    }
}

/// The name at a place, where there is one.
pub(crate) fn wish_at(
    alloc: Global,
    names: &[Text],
    place: Option<usize>,
) -> Result<Option<Text>, NoMemory>
    ensures { IfOk result (λ w. w ≡ wish_for_place names.now place) }
{
    match place {
        None => Ok(None),
        Some(k) => nth_wish(alloc, names, k),
    }
}
