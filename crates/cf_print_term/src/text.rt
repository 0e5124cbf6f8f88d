//! The texts of expressions.
ghost use Rattle.std.specs.Prelude.{◌≡◌, ◌<◌, ◌++◌, length, drop, codes, OnOk};
ghost use Rattle.cf_print_term.specs.Terms.{text, listed, more_listed, enclosed, is_left_of, is_tight, asked, asked_in_choice, level};
ghost use Rattle.cf_print_term.specs.TermView.{term_tree, term_trees};

use crate::mark::bytes;
use crate::table::{ATOM, Sign};
use crate::term::Term;
use cf_tree::NoMemory;

// How tightly the parts of a choice have to bind.
const IN_CHOICE: u32 = 1;

// How tightly a term binds.
fn level(term: &Term) -> u32
    ensures { result ≡ level (term_tree term.now) }
{
    match term {
        Term::Before(sign, _) | Term::Between(sign, _, _) => u32::from(sign.level) + 1,
        Term::Choice(_, _, _, _) => 0,
        Term::Call(call, _) => call.level,
        Term::Word(_) => ATOM,
    }
}

// Whether a term may stand without parentheses where something at least so tight is asked.
fn is_tight(least: u32, term: &Term) -> bool
    ensures { result ≡ is_tight least (term_tree term.now) }
{
    least <= level(term)
}

// How tightly the parts at the sides of a sign have to bind.
fn asked(sign: &Sign) -> u32
    ensures { result ≡ asked sign.now }
{
    u32::from(sign.level) + u32::from(sign.more) + 2
}

// Whether a term may stand without parentheses at the left of a sign.
fn is_left_of(sign: &Sign, term: &Term) -> bool
    ensures { result ≡ is_left_of sign.now (term_tree term.now) }
{
    is_tight(asked(sign), term) || (sign.chains && u32::from(sign.level) + 1 == level(term))
}

/// Puts the text of a term at the end.
#[cycle(put_term)]
pub fn put_term(out: &mut Vec<u8>, term: &Term) -> Result<(), NoMemory>
    ensures { OnOk result (out.new.items ≡ out.old.items ++ text (term_tree term.now)) }
{
    match term {
        Term::Word(word) => {
            out.extend_from_slice(&word.bytes)?;
            Ok(())
        }
        Term::Before(sign, part) => {
            out.extend_from_slice(bytes(sign.text))?;
            put_enclosed(out, is_tight(asked(sign), part), part)
        }
        Term::Between(sign, left, right) => {
            put_enclosed(out, is_left_of(sign, left), left)?;
            out.extend_from_slice(bytes(sign.text))?;
            put_enclosed(out, is_tight(asked(sign), right), right)
        }
        Term::Call(call, parts) => {
            out.extend_from_slice(bytes(call.opening))?;
            put_listed(out, parts)?;
            out.extend_from_slice(bytes(call.closing))?;
            Ok(())
        }
        Term::Choice(choice, first, second, third) => {
            put_enclosed(out, is_tight(IN_CHOICE, first), first)?;
            put_part(out, bytes(choice.first), second)?;
            put_part(out, bytes(choice.second), third)
        }
    }
}

// A term, in parentheses if it may not stand without.
#[cycle(put_term)]
fn put_enclosed(out: &mut Vec<u8>, may_stand: bool, term: &Term) -> Result<(), NoMemory>
    ensures { OnOk result (out.new.items ≡ out.old.items ++ enclosed may_stand (text (term_tree term.now))) }
{
    if may_stand {
        put_term(out, term)
    } else {
        out.push(b'(')?;
        put_term(out, term)?;
        out.push(b')')?;
        Ok(())
    }
}

// Some bytes, and a part of a choice.
#[cycle(put_term)]
fn put_part(out: &mut Vec<u8>, before: &[u8], term: &Term) -> Result<(), NoMemory>
    ensures { OnOk result (out.new.items ≡
        out.old.items ++ (before.now ++ enclosed (is_tight asked_in_choice (term_tree term.now)) (text (term_tree term.now)))) }
{
    out.extend_from_slice(before)?;
    put_enclosed(out, is_tight(IN_CHOICE, term), term)
}

// Terms with a comma and a space between each two.
#[cycle(put_term)]
fn put_listed(out: &mut Vec<u8>, terms: &[Term]) -> Result<(), NoMemory>
    ensures { OnOk result (out.new.items ≡ out.old.items ++ listed (term_trees terms.now)) }
{
    if !terms.is_empty() {
        put_term(out, &terms[0])?;
        put_more(out, terms)?;
    }
    Ok(())
}

// The terms behind the first, with a comma and a space before each.
#[cycle(put_term)]
fn put_more(out: &mut Vec<u8>, terms: &[Term]) -> Result<(), NoMemory>
    requires { 0 < length terms.now }
    ensures { OnOk result (out.new.items ≡ out.old.items ++ more_listed (term_trees (drop 1 terms.now))) }
{
    for i in 1..terms.len() {
        put_next(out, &terms[i])?;
    }
    Ok(())
}

#[cycle(put_term)]
fn put_next(out: &mut Vec<u8>, term: &Term) -> Result<(), NoMemory>
    ensures { OnOk result (out.new.items ≡ out.old.items ++ (codes ", " ++ text (term_tree term.now))) }
{
    out.extend_from_slice(b", ")?;
    put_term(out, term)
}
