//! Numerals, names and words of terms.
ghost use Rattle.std.specs.Prelude.{◌≡◌, ◌++◌, OnOk, decimal};
ghost use Rattle.cf_smt.specs.Terms.{greatest_word as word_of_greatest, least_word as word_of_least, let_name, name_of, number_text, order_word as word_of_order};

use cf_print::next;
use cf_tree::{NoMemory, Order, Text, put_number};

fn put_natural(out: &mut Vec<u8>, number: u128) -> Result<(), NoMemory>
    ensures { OnOk result (out.new.items ≡ out.old.items ++ decimal number) }
{
    put_number(out, number)
}

/// Puts a number; one below 0 stands behind a minus in parentheses.
pub(crate) fn put_integer(out: &mut Vec<u8>, number: i128) -> Result<(), NoMemory>
    ensures { OnOk result (out.new.items ≡ out.old.items ++ number_text number) }
{
    if number < 0 {
        out.extend_from_slice(b"(- ")?;
        put_natural(out, number.unsigned_abs())?;
        out.push(b')')?;
        Ok(())
    } else {
        put_natural(out, number.unsigned_abs())
    }
}

/// Puts the name of the k-th let of an arm.
pub(crate) fn put_let_name(out: &mut Vec<u8>, k: usize) -> Result<(), NoMemory>
    ensures { OnOk result (out.new.items ≡ out.old.items ++ let_name k) }
{
    out.push(b'n')?;
    put_number(out, next(k)?)?;
    out.push(b'.')?;
    Ok(())
}

/// Puts the name of a variable.
pub(crate) fn put_name(out: &mut Vec<u8>, names: &[Text], level: u32) -> Result<(), NoMemory>
    ensures { OnOk result (out.new.items ≡ out.old.items ++ name_of names.now level) }
{
    match names.get(level as usize) {
        Some(name) => {
            out.extend_from_slice(&name.bytes)?;
            Ok(())
        }
        None => put_let_name(out, level as usize - names.len()),
    }
}

/// The word of a comparison behind its parenthesis.
pub(crate) fn order_word(order: Order) -> &'static [u8]
    ensures { result.now ≡ word_of_order order }
{
    match order {
        Order::Eq => b"(= ",
        Order::Ne => b"(distinct ",
        Order::Lt => b"(< ",
        Order::Le => b"(<= ",
        Order::Gt => b"(> ",
        Order::Ge => b"(>= ",
    }
}

/// The word of the lesser of two terms behind its parenthesis.
#[tactic(auto, unfolding(crate::specs::Terms::least_word))]
pub(crate) fn least_word() -> &'static [u8]
    ensures { result.now ≡ word_of_least }
{
    b"(least. "
}

/// The word of the greater of two terms behind its parenthesis.
#[tactic(auto, unfolding(crate::specs::Terms::greatest_word))]
pub(crate) fn greatest_word() -> &'static [u8]
    ensures { result.now ≡ word_of_greatest }
{
    b"(greatest. "
}
