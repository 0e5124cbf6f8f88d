//! Numerals.
ghost use Rattle.std.specs.Prelude.{◌≡◌, ◌++◌, OnOk, IfOk, decimal};
ghost use Rattle.cf_print_term.specs.Terms.{word};
ghost use Rattle.cf_print_term.specs.TermView.{term_tree};
ghost use Rattle.cf_print_term.specs.Expressions.{numeral, halves, literal as literal_of, digits as digits_of};

use crate::build::before;
use crate::table::{Numerals, Table};
use crate::term::Term;
use cf_tree::{NoMemory, Text, put_number};
use std::alloc::Global;

/// The first number past `int`.
pub const INT_END: u128 = 1 << 31;

/// The first number past `long long`.
pub const LONG_END: u128 = 1 << 63;

/// What a half of a number counts to.
pub const HALF: u128 = 1 << 64;

/// The greatest number.
pub const MAX: u128 = (1 << 127) - 1;

fn put_count(out: &mut Vec<u8>, number: u128) -> Result<(), NoMemory>
    ensures { OnOk result (out.new.items ≡ out.old.items ++ decimal number) }
{
    put_number(out, number)
}

// A number of C past `long long`, in two halves.
fn put_halves(out: &mut Vec<u8>, number: u128) -> Result<(), NoMemory>
    ensures { OnOk result (out.new.items ≡ out.old.items ++ halves number) }
{
    out.extend_from_slice(b"from_halves(")?;
    put_count(out, number / HALF)?;
    out.extend_from_slice(b", ")?;
    put_count(out, number % HALF)?;
    out.extend_from_slice(b"ULL)")?;
    Ok(())
}

// A number that is not negative.
fn put_numeral(out: &mut Vec<u8>, numerals: Numerals, number: u128) -> Result<(), NoMemory>
    ensures { OnOk result (out.new.items ≡ out.old.items ++ numeral numerals number) }
{
    match numerals {
        Numerals::Plain => put_count(out, number),
        Numerals::Big => {
            put_count(out, number)?;
            out.extend_from_slice(b"n")?;
            Ok(())
        }
        Numerals::Suffixed => {
            if number < INT_END {
                put_count(out, number)
            } else {
                put_count(out, number)?;
                out.extend_from_slice(b"_i128")?;
                Ok(())
            }
        }
        Numerals::Halved => {
            if number < INT_END {
                put_count(out, number)
            } else if number < LONG_END {
                put_count(out, number)?;
                out.extend_from_slice(b"LL")?;
                Ok(())
            } else if number < MAX {
                put_halves(out, number)
            } else {
                out.extend_from_slice(b"MAX")?;
                Ok(())
            }
        }
    }
}

/// A number without its sign.
pub(crate) fn digits(alloc: Global, table: &Table, number: i128) -> Result<Term, NoMemory>
    ensures { IfOk result (λ t. term_tree t ≡ digits_of table.now number) }
{
    let mut bytes = Vec::new(alloc);
    put_numeral(&mut bytes, table.numerals, number.unsigned_abs())?;
    Ok(Term::Word(Text { bytes }))
}

/// A number.
pub(crate) fn literal(alloc: Global, table: &Table, number: i128) -> Result<Term, NoMemory>
    ensures { IfOk result (λ t. term_tree t ≡ literal_of table.now number) }
{
    let digits = digits(alloc, table, number)?;
    if number < 0 {
        before(alloc, table.minus, digits)
    } else {
        Ok(digits)
    }
}
