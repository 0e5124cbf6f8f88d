//! Whether classes hold all numbers, by their residues.
ghost use Rattle.std.specs.Prelude.{ℕ, ◌≡◌, ◌<◌, pos, true, IfSome};
ghost use Rattle.cf_match.specs.declared.class.Class.TheVariants.{Residue};
ghost use Rattle.cf_match.specs.Classes.{IsIn};
ghost use Rattle.cf_covers.specs.Covers.{AreHeld, IsHeld, IsMissed, IsCover, HoldResidues, HasAll};

use crate::inside::{divides, is_in, is_inside_one, is_missed};
use crate::period::period_of;
use cf_match::Class;

/// The most residues that are tried.
pub const MOST_RESIDUES: u32 = 65_536;

/// Whether every number is in one of some classes.
#[derive(Clone, Copy, Debug, PartialEq, Eq)]
pub enum Cover {
    /// Every number is in a class.
    All,
    /// No class holds this number, the nearest to 0, the positive one of two.
    Misses(i128),
    /// The classes tell numbers apart by more residues than are tried.
    Undecided,
}

/// Whether every number is in one of the classes.
#[tactic(auto, using(crate::proofs::CoverLaws::every_is_held))]
pub fn covers(classes: &[Class]) -> Cover
    ensures { IsCover classes.now result }
{
    if are_held(classes, every_number()) {
        return Cover::All;
    }
    match first_missed(classes) {
        Some(n) => Cover::Misses(n),
        None => Cover::Undecided,
    }
}

// The class of all numbers.
#[tactic(auto, using(crate::proofs::InsideLaws::all_in))]
fn every_number() -> Class
    ensures { HasAll result }
{
    Class::Residue { g: 1, r: 0 }
}

// The first number in no class, from 0 outwards.
fn first_missed(classes: &[Class]) -> Option<i128>
    ensures { IfSome result (IsMissed classes.now) }
{
    for i in 0..MOST_RESIDUES {
        match missed_at(classes, i) {
            Some(n) => return Some(n),
            None => {}
        }
    }
    None
}

// The number at a place from 0 outwards, if it is in no class: 0, 1, -1, 2 and so on.
fn missed_at(classes: &[Class], place: u32) -> Option<i128>
    ensures { IfSome result (IsMissed classes.now) }
{
    let size = (place / 2) as i128;
    let n = if place % 2 == 0 { -size } else { size + 1 };
    if is_missed(classes, &n) {
        Some(n)
    } else {
        None
    }
}

/// Whether each number of the class is in one of the classes: no where that is not so, or where more than
/// `MOST_RESIDUES` residues would tell.
pub fn are_held(classes: &[Class], class: Class) -> bool
    ensures { result ≡ true → AreHeld classes.now class }
{
    if is_inside_one(class, classes) {
        return true;
    }
    match class {
        Class::Point(_) => false,
        Class::Residue { g, r } => are_residues_held(classes, g, r),
    }
}

// The same of the numbers that leave `r` behind multiples of `g`.
fn are_residues_held(classes: &[Class], g: i128, r: i128) -> bool
    ensures { result ≡ true → AreHeld classes.now (Residue g r) }
{
    match period_of(classes, g) {
        Some(period) => are_held_by_period(classes, g, r, period),
        None => false,
    }
}

// The same, by the residues of a multiple of `g`.
fn are_held_by_period(classes: &[Class], g: i128, r: i128, period: u32) -> bool
    ensures { result ≡ true → AreHeld classes.now (Residue g r) }
{
    if period == 0 || !divides(g, period as i128) {
        return false;
    }
    hold_residues(classes, Class::Residue { g, r }, period)
}

// Whether each residue that is in the class has all its numbers in one of the classes.
fn hold_residues(classes: &[Class], class: Class, period: u32) -> bool
    ensures { result ≡ true → HoldResidues classes.now class period }
{
    for n in 0..period {
        if !is_residue_held(classes, class, period, n) {
            return false;
        }
    }
    true
}

// The same of one residue.
fn is_residue_held(classes: &[Class], class: Class, period: u32, n: u32) -> bool
    ensures { result ≡ true → IsIn class (pos n) → AreHeld classes.now (Residue (pos period) (pos n)) }
{
    if is_in(class, n as i128) {
        let residue = Class::Residue {
            g: period as i128,
            r: n as i128,
        };
        is_inside_one(residue, classes)
    } else {
        true
    }
}
