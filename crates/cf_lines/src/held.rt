//! What C keeps between calls.
ghost use Rattle.std.specs.Prelude.{◌≡◌, Option, Some, None, option_map};
ghost use Rattle.cf_answer.specs.declared.answerer.Replier.{Replier};
ghost use Rattle.cf_lines.specs.Kept.{keeps, kept_coded};

use crate::parts::Parts;
use cf_answer::Replier;
use std::alloc::Global;
use std::marker::Model;
use std::mem::replace;

/// What answers lines, or nothing, in a struct that C holds. C leaves its fields alone, moves it and does not copy
/// it, and hands it to one call at a time; one whose bytes are all 0 keeps nothing.
#[repr(C)]
pub struct Held {
    // no pointer to a `Replier`, since what such a one leads to may not cross to C.
    at: *mut u8,
    is_open: bool,
    alloc: Global,
    pub ghost kept: { Option Replier } by { kept_coded },
}

impl Model for Held {
    ghost also_owns = { λ h. keeps h.alloc h.is_open h.at h.kept };
}

impl Held {
    /// What was kept. Nothing is kept any more.
    pub fn take(&mut self, alloc: Global) -> Option<Box<Replier>>
        ensures taken { option_map (λ b. b.value) result ≡ self.old.kept }
        ensures left { self.new.kept ≡ None }
    {
        replace(self, Held::empty(alloc)).into_box()
    }

    /// Keeps this. What was kept before is given back.
    pub fn keep(&mut self, replier: Box<Replier>)
        ensures { self.new.kept ≡ Some replier.value }
    {
        drop(replace(self, Held::of(replier)).into_box());
    }

    fn of(replier: Box<Replier>) -> Held
        ensures { result.kept ≡ Some replier.value }
    {
        Held::of_parts(Parts::of(replier))
    }

    fn into_box(self) -> Option<Box<Replier>>
        ensures { option_map (λ b. b.value) result ≡ self.kept }
    {
        match self.into_parts() {
            Some(parts) => Some(parts.into_box()),
            None => None,
        }
    }

    // Keeps nothing.
    fn empty(alloc: Global) -> Held
        ensures { result.kept ≡ None }
    {
        Held {
            at: std::ptr::null_mut(),
            is_open: false,
            alloc,
        }
    }

    fn of_parts(parts: Parts<Replier, Global>) -> Held
        ensures { result.kept ≡ Some parts.value }
    {
        let Parts { ptr, alloc } = parts;
        Held {
            at: ptr as *mut u8,
            is_open: true,
            alloc,
        }
    }

    fn into_parts(self) -> Option<Parts<Replier, Global>>
        ensures { option_map (λ p. p.value) result ≡ self.kept }
    {
        let Held { at, is_open, alloc } = self;
        if is_open {
            return Some(Parts {
                ptr: at as *mut Replier,
                alloc,
            });
        }
        None
    }
}
