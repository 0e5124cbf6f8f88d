//! Texts, places and bases, which all trees share.
ghost use Rattle.std.specs.Prelude.{◌≡◌, IfOk};
ghost use Rattle.cf_tree.specs.Bases.{same_base as same_base_of, same_bases as same_bases_of};

use crate::memory::NoMemory;
use std::alloc::Global;
use std::marker::Model;

/// A place in a text: both numbers count from 1, and columns count bytes.
#[derive(Clone, Copy, Debug, PartialEq, Eq)]
pub struct Place {
    pub line: u32,
    pub column: u32,
}

/// The bytes of a name or of another word of a text. Contracts see the list of them.
#[derive(Drop)]
pub struct Text {
    pub bytes: Vec<u8>,
}

impl Model for Text {
    ghost use Rattle.std.specs.Prelude.{ℕ, List};

    ghost Value = { List ℕ };

    ghost view = { λ t. t.bytes.items };
}

impl Text {
    /// The bytes of `s`.
    pub fn from_str(alloc: Global, s: &str) -> Result<Text, NoMemory>
        ensures { IfOk result (λ t. t ≡ s.now) }
    {
        Ok(Text {
            bytes: Vec::from_slice(alloc, s.as_bytes())?,
        })
    }

    /// An equal text.
    pub fn try_copy(&self, alloc: Global) -> Result<Text, NoMemory>
        ensures { IfOk result (λ t. t ≡ self.now) }
    {
        Ok(Text {
            bytes: Vec::from_slice(alloc, &self.bytes)?,
        })
    }
}

/// An edition of the language.
#[derive(Clone, Copy, Debug, PartialEq, Eq)]
pub enum Edition {
    /// Language 2, without a header.
    Two,
    /// The one whose sources begin with `comfusy 3`.
    Three,
}

/// The bytes of a line of input. Contracts see the list of them.
#[derive(Drop)]
pub struct Bytes {
    pub bytes: Vec<u8>,
}

impl Model for Bytes {
    ghost use Rattle.std.specs.Prelude.{ℕ, List};

    ghost Value = { List ℕ };

    ghost view = { λ b. b.bytes.items };
}

/// The base of a value.
#[derive(Clone, Copy, Debug, PartialEq, Eq)]
pub enum Base {
    Int,
    Bool,
    Set,
}

/// Whether two bases are the same.
pub fn same_base(a: Base, b: Base) -> bool
    ensures { result ≡ same_base_of a b }
{
    match a {
        Base::Int => match b {
            Base::Int => true,
            Base::Bool => false,
            Base::Set => false,
        },
        Base::Bool => match b {
            Base::Int => false,
            Base::Bool => true,
            Base::Set => false,
        },
        Base::Set => match b {
            Base::Int => false,
            Base::Bool => false,
            Base::Set => true,
        },
    }
}

/// Whether two lists of bases are the same: as long, and with the same base at each place.
pub fn same_bases(a: &[Base], b: &[Base]) -> bool
    ensures { result ≡ same_bases_of a.now b.now }
{
    let mut left = a;
    let mut right = b;
    while let Some((x, more)) = left.split_first() {
        match right.split_first() {
            None => return false,
            Some((y, rest)) => {
                if !same_base(*x, *y) {
                    return false;
                }
                left = more;
                right = rest;
            }
        }
    }
    right.is_empty()
}

/// Which solutions a `choose` aims at: those at which its objective is least, or greatest.
#[derive(Clone, Copy, Debug, PartialEq, Eq)]
pub enum Sense {
    Least,
    Greatest,
}

/// How two values compare.
#[derive(Clone, Copy, Debug, PartialEq, Eq)]
pub enum Order {
    Eq,
    Ne,
    Lt,
    Le,
    Gt,
    Ge,
}
