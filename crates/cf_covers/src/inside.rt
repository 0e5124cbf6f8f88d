//! Numbers in classes, and classes in others.
ghost use Rattle.std.specs.Prelude.{◌≡◌, ◌↔◌, pos, ◌<ℤ◌, true};
ghost use Rattle.cf_tree.specs.Numbers.{remainder};
ghost use Rattle.cf_match.specs.declared.class.Class.TheVariants.{Residue};
ghost use Rattle.cf_match.specs.Classes.{IsIn};
ghost use Rattle.cf_covers.specs.Covers.{IsInside, AreHeld, IsMissed};

use cf_match::Class;

/// Whether the class holds the number.
pub(crate) fn is_in(class: Class, z: i128) -> bool
    ensures { (result ≡ true) ↔ IsIn class z }
{
    match class {
        Class::Point(c) => z == c,
        Class::Residue { g, r } => remainder(z, g) == r,
    }
}

// What the number leaves behind multiples of `k`; the number where `k` is not above 0.
#[tactic(auto, using(crate::proofs::InsideLaws::remainder_is, crate::proofs::InsideLaws::remainder_low))]
fn remainder(z: i128, k: i128) -> i128
    ensures { result ≡ remainder z k }
{
    if k <= 0 { z } else { z.rem_euclid(k) }
}

/// Whether none of the classes holds the number.
#[tactic(auto, using(crate::proofs::InsideLaws::missed_by_all))]
pub(crate) fn is_missed(classes: &[Class], z: &i128) -> bool
    ensures { result ≡ true → IsMissed classes.now z.now }
{
    for class in classes {
        if is_in(*class, *z) {
            return false;
        }
    }
    true
}

/// Whether each number of a class is in another one: no where that is not found.
#[tactic(auto, using(crate::proofs::InsideLaws::point_inside))]
pub(crate) fn is_inside(class: Class, other: Class) -> bool
    ensures { result ≡ true → IsInside class other }
{
    match class {
        Class::Point(c) => is_in(other, c),
        Class::Residue { g, r } => holds_residue(other, g, r),
    }
}

// Whether the class holds each number that leaves `left` behind multiples of `n`: no where that is not found.
fn holds_residue(class: Class, n: i128, left: i128) -> bool
    ensures { result ≡ true → IsInside (Residue n left) class }
{
    match class {
        Class::Point(_) => false,
        Class::Residue { g, r } => is_coarser(g, r, n, left),
    }
}

// The same of the class of a residue.
fn is_coarser(g: i128, r: i128, n: i128, left: i128) -> bool
    ensures { result ≡ true → IsInside (Residue n left) (Residue g r) }
{
    divides(g, n) && leaves(left, g, r)
}

fn leaves(z: i128, k: i128, left: i128) -> bool
    ensures { result ≡ true → remainder z k ≡ left }
{
    remainder(z, k) == left
}

/// Whether the number is above 0 and divides the other.
pub(crate) fn divides(k: i128, z: i128) -> bool
    ensures { result ≡ true → (pos 0 <ℤ k) × (remainder z k ≡ pos 0) }
{
    k > 0 && remainder(z, k) == 0
}

/// Whether each number of the class is in one of the others, the same for all: no where that is not found.
#[tactic(auto, using(crate::proofs::InsideLaws::inside_at))]
pub(crate) fn is_inside_one(class: Class, others: &[Class]) -> bool
    ensures { result ≡ true → AreHeld others.now class }
{
    for other in others {
        if is_inside(class, *other) {
            return true;
        }
    }
    false
}
