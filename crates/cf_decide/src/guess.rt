//! A relation that tells outputs, to be tried as a witness: of an equation in which each output is added so many times,
//! the greatest number of times first, each output is as great as the others leave it. Nothing is promised of it.
use cf_choose::Solved;
use cf_tree::{Base, NoMemory, Order, Rel, Term, add_u32, to_u32, without};
use std::alloc::Global;

/// A variable, and how often a form has it.
#[derive(Clone, Copy)]
pub(crate) struct Share {
    pub level: u32,
    pub entry: i128,
}

/// The relation, if the outputs are numbers and such an equation is there.
pub(crate) fn guessed(alloc: Global, solved: &Solved) -> Result<Option<Rel>, NoMemory> {
    if !are_numbers(solved.outputs()) {
        return Ok(None);
    }
    let first = to_u32(solved.scope().len())?;
    let end = add_u32(first, to_u32(solved.outputs().len())?)?;
    in_relation(alloc, solved.relation(), first, end)
}

pub(crate) fn are_numbers(bases: &[Base]) -> bool {
    for base in bases {
        if *base != Base::Int {
            return false;
        }
    }
    true
}

// What the first equation tells that is not negated, and has the outputs of the levels from the first on below the end.
fn in_relation(alloc: Global, rel: &Rel, first: u32, end: u32) -> Result<Option<Rel>, NoMemory> {
    match rel {
        Rel::Compare { order, left, right } => {
            if *order == Order::Eq {
                in_equation(alloc, left, right, first, end)
            } else {
                Ok(None)
            }
        }
        Rel::And(a, b) | Rel::Or(a, b) => match in_relation(alloc, a, first, end)? {
            Some(told) => Ok(Some(told)),
            None => in_relation(alloc, b, first, end),
        },
        Rel::True | Rel::False => Ok(None),
        Rel::Divides { .. } => Ok(None),
        Rel::SameSet(_, _) | Rel::OtherSet(_, _) | Rel::Subset(_, _) => Ok(None),
        Rel::Not(_) => Ok(None),
    }
}

// What the equation of two number forms tells.
fn in_equation(
    alloc: Global,
    left: &Term,
    right: &Term,
    first: u32,
    end: u32,
) -> Result<Option<Rel>, NoMemory> {
    let difference = minus(alloc, left, right)?;
    match told_by(alloc, &difference, first, end)? {
        Some(told) => Ok(without(difference, Some(told))),
        None => {
            drop(difference);
            let turned = minus(alloc, right, left)?;
            told_by(alloc, &turned, first, end)
        }
    }
}

fn minus(alloc: Global, left: &Term, right: &Term) -> Result<Term, NoMemory> {
    let left = Box::new(alloc, left.try_copy(alloc)?)?;
    match right.try_copy(alloc) {
        Ok(right) => Ok(Term::Sub(left, Box::new(alloc, right)?)),
        Err(fault) => Err(without(left, fault)),
    }
}

// What the number form tells, which is to be 0, if it has each output less than 0 times.
fn told_by(alloc: Global, form: &Term, first: u32, end: u32) -> Result<Option<Rel>, NoMemory> {
    match shares_of(alloc, form, first, end)? {
        Some(shares) => {
            let mut shares = shares;
            put_in_order(&mut shares);
            Ok(Some(told(alloc, form, &shares)?))
        }
        None => Ok(None),
    }
}

// How often each output is taken away, if each is.
fn shares_of(
    alloc: Global,
    form: &Term,
    first: u32,
    end: u32,
) -> Result<Option<Vec<Share>>, NoMemory> {
    let mut shares = Vec::new(alloc);
    for level in first..end {
        match taken(form, level) {
            Some(entry) => shares.push(Share { level, entry })?,
            None => return Ok(None),
        }
    }
    Ok(Some(shares))
}

// How often the form takes the variable away, if it does.
fn taken(form: &Term, level: u32) -> Option<i128> {
    let entry = entry_of(form, level)?.checked_neg()?;
    if entry > 0 { Some(entry) } else { None }
}

// How often the form has the variable of that level, if that is found.
fn entry_of(form: &Term, level: u32) -> Option<i128> {
    match form {
        Term::Lit(_) | Term::Card(_) => Some(0),
        Term::Var(x) => Some(if *x == level { 1 } else { 0 }),
        Term::Neg(a) => entry_of(a, level)?.checked_neg(),
        Term::Add(a, b) => entry_of(a, level)?.checked_add(entry_of(b, level)?),
        Term::Sub(a, b) => entry_of(a, level)?.checked_sub(entry_of(b, level)?),
        Term::Mul(a, b) => match literal(a) {
            Some(k) => entry_of(b, level)?.checked_mul(k),
            None => entry_of(a, level)?.checked_mul(literal(b)?),
        },
        Term::Div(a, _) | Term::Mod(a, _) | Term::Abs(a) => none_or_more(entry_of(a, level)?),
    }
}

fn literal(form: &Term) -> Option<i128> {
    match form {
        Term::Lit(n) => Some(*n),
        _ => None,
    }
}

fn none_or_more(entry: i128) -> Option<i128> {
    if entry == 0 { Some(0) } else { None }
}

// The greatest entries first.
fn put_in_order(shares: &mut [Share]) {
    for place in 0..shares.len() {
        move_forwards(shares, place);
    }
}

// Moves the share at the place forwards, behind the last one that is not smaller.
fn move_forwards(shares: &mut [Share], place: usize) {
    for back in 0..place {
        let at = place - back;
        exchange(shares, at.saturating_sub(1), at);
    }
}

// Exchanges the shares at two places, if the first is smaller.
fn exchange(shares: &mut [Share], first: usize, second: usize) {
    if let Some((before, after)) = smaller_before(shares, first, second) {
        put(shares, first, after);
        put(shares, second, before);
    }
}

fn smaller_before(shares: &[Share], first: usize, second: usize) -> Option<(Share, Share)> {
    let before = *shares.get(first)?;
    let after = *shares.get(second)?;
    if before.entry < after.entry {
        Some((before, after))
    } else {
        None
    }
}

fn put(shares: &mut [Share], place: usize, share: Share) {
    if let Some(at) = shares.get_mut(place) {
        *at = share;
    }
}

// That of the form each output in order leaves less than its entry, and not less than 0.
fn told(alloc: Global, form: &Term, shares: &[Share]) -> Result<Rel, NoMemory> {
    let mut all = Rel::True;
    for place in 0..shares.len() {
        let rest = rest_behind(alloc, form, &shares[place..])?;
        all = and_left(alloc, all, rest, shares[place].entry)?;
    }
    Ok(all)
}

// The form without the outputs behind the first of these.
fn rest_behind(alloc: Global, form: &Term, shares: &[Share]) -> Result<Term, NoMemory> {
    let mut rest = form.try_copy(alloc)?;
    for place in 1..shares.len() {
        rest = plus(alloc, rest, shares[place])?;
    }
    Ok(rest)
}

/// The form, and a variable so many times.
pub(crate) fn plus(alloc: Global, form: Term, share: Share) -> Result<Term, NoMemory> {
    match times(alloc, share) {
        Ok(more) => Ok(Term::Add(Box::new(alloc, form)?, more)),
        Err(fault) => Err(without(form, fault)),
    }
}

fn times(alloc: Global, share: Share) -> Result<Box<Term>, NoMemory> {
    let factor = Box::new(alloc, Term::Lit(share.entry))?;
    let variable = Box::new(alloc, Term::Var(share.level))?;
    Ok(Box::new(alloc, Term::Mul(factor, variable))?)
}

// That the relation holds, and the form is at least 0 and below the entry.
fn and_left(alloc: Global, all: Rel, form: Term, entry: i128) -> Result<Rel, NoMemory> {
    match left_between(alloc, form, entry) {
        Ok(left) => Ok(Rel::And(Box::new(alloc, all)?, left)),
        Err(fault) => Err(without(all, fault)),
    }
}

fn left_between(alloc: Global, form: Term, entry: i128) -> Result<Box<Rel>, NoMemory> {
    if entry == 1 {
        return Ok(Box::new(alloc, compare(alloc, Order::Eq, form, 0)?)?);
    }
    let low = compare(alloc, Order::Ge, form.try_copy(alloc)?, 0)?;
    match compare(alloc, Order::Lt, form, entry) {
        Ok(high) => both(alloc, low, high),
        Err(fault) => Err(without(low, fault)),
    }
}

fn compare(alloc: Global, order: Order, form: Term, with: i128) -> Result<Rel, NoMemory> {
    let left = Box::new(alloc, form)?;
    let right = Box::new(alloc, Term::Lit(with))?;
    Ok(Rel::Compare { order, left, right })
}

fn both(alloc: Global, a: Rel, b: Rel) -> Result<Box<Rel>, NoMemory> {
    let first = Box::new(alloc, a)?;
    let second = Box::new(alloc, b)?;
    Ok(Box::new(alloc, Rel::And(first, second))?)
}
