//! Commands of SMT-LIB over numbers, and the terms in them.
ghost use Rattle.std.specs.Prelude.{◌≡◌, ◌++◌, map, IfOk, OnOk};
ghost use Rattle.cf_smt.specs.Commands.{all_asserted, all_declared as declared_all, all_of as all_hold, and_of, asserted, below_digits, below_text as text_below, all_below as below_all, call_text as called, call_with, constant, constants, declared, define_head, define_text, denied as not_text, dotted as behind_dot};

use cf_print::{joined_text, put_pieces, text_of_pieces};
use cf_tree::{NoMemory, Text};
use itoa::Buffer;
use std::alloc::Global;

/// A name behind another.
pub(crate) fn dotted<'x>(alloc: Global, name: &'x [u8], part: &'x [u8]) -> Result<Text, NoMemory>
    ensures { IfOk result (λ t. t ≡ behind_dot name.now part.now) }
{
    text_of_pieces(alloc, &[name, b".".as_slice(), part])
}

fn declared_texts(alloc: Global, names: &[Text]) -> Result<Vec<Text>, NoMemory>
    ensures { IfOk result (λ all. all.items ≡ map declared names.now) }
{
    let mut all = Vec::new(alloc);
    for name in names {
        all.push(declared_text(alloc, &name.bytes)?)?;
    }
    Ok(all)
}

fn declared_text(alloc: Global, name: &[u8]) -> Result<Text, NoMemory>
    ensures { IfOk result (λ t. t ≡ declared name.now) }
{
    text_of_pieces(alloc, &[b"(".as_slice(), name, b" Int)".as_slice()])
}

/// Parameters, all of them numbers.
pub(crate) fn all_declared(alloc: Global, names: &[Text]) -> Result<Text, NoMemory>
    ensures { IfOk result (λ t. t ≡ declared_all names.now) }
{
    let all = declared_texts(alloc, names)?;
    joined_text(alloc, b" ", &all)
}

fn called_with(alloc: Global, name: &[u8], terms: &[u8]) -> Result<Text, NoMemory>
    ensures { IfOk result (λ t. t ≡ call_with name.now terms.now) }
{
    text_of_pieces(
        alloc,
        &[
            b"(".as_slice(),
            name,
            b" ".as_slice(),
            terms,
            b")".as_slice(),
        ],
    )
}

/// A function of some terms.
pub(crate) fn call_text(alloc: Global, name: &[u8], terms: &[Text]) -> Result<Text, NoMemory>
    ensures { IfOk result (λ t. t ≡ called name.now terms.now) }
{
    match terms {
        [] => Ok(Text {
            bytes: Vec::from_slice(alloc, name)?,
        }),
        [_first, _more @ ..] => {
            let all = joined_text(alloc, b" ", terms)?;
            called_with(alloc, name, &all.bytes)
        }
    }
}

/// That a term does not hold.
pub(crate) fn denied(alloc: Global, term: &[u8]) -> Result<Text, NoMemory>
    ensures { IfOk result (λ t. t ≡ not_text term.now) }
{
    text_of_pieces(alloc, &[b"(not ".as_slice(), term, b")".as_slice()])
}

fn and_text(alloc: Global, terms: &[u8]) -> Result<Text, NoMemory>
    ensures { IfOk result (λ t. t ≡ and_of terms.now) }
{
    text_of_pieces(alloc, &[b"(and ".as_slice(), terms, b")".as_slice()])
}

/// That all of some terms hold.
pub(crate) fn all_of(alloc: Global, terms: &[Text]) -> Result<Text, NoMemory>
    ensures { IfOk result (λ t. t ≡ all_hold terms.now) }
{
    match terms {
        [] => Ok(Text {
            bytes: Vec::from_slice(alloc, b"true")?,
        }),
        [first, more @ ..] => if more.len() == 0 {
            first.try_copy(alloc)
        } else {
            let all = joined_text(alloc, b" ", terms)?;
            and_text(alloc, &all.bytes)
        },
    }
}

/// Puts a definition, whose body stands behind some space.
pub(crate) fn put_define<'x>(
    alloc: Global,
    out: &mut Vec<u8>,
    name: &'x [u8],
    params: &[Text],
    sort: &'x [u8],
    space: &'x [u8],
    body: &'x [u8],
) -> Result<(), NoMemory>
    ensures { OnOk result (out.new.items ≡ out.old.items ++ define_text name.now params.now sort.now space.now body.now) }
{
    let declared = all_declared(alloc, params)?;
    put_define_head(out, name, &declared.bytes, sort)?;
    put_pieces(out, &[space, body, b")\n".as_slice()])
}

fn put_define_head<'x>(
    out: &mut Vec<u8>,
    name: &'x [u8],
    params: &'x [u8],
    sort: &'x [u8],
) -> Result<(), NoMemory>
    ensures { OnOk result (out.new.items ≡ out.old.items ++ define_head name.now params.now sort.now) }
{
    put_pieces(
        out,
        &[
            b"(define-fun ".as_slice(),
            name,
            b" (".as_slice(),
            params,
            b") ".as_slice(),
            sort,
        ],
    )
}

#[tactic(auto, unfolding(crate::specs::Commands::constant))]
fn put_constant(out: &mut Vec<u8>, name: &[u8]) -> Result<(), NoMemory>
    ensures { OnOk result (out.new.items ≡ out.old.items ++ constant name.now) }
{
    put_pieces(
        out,
        &[b"(declare-const ".as_slice(), name, b" Int)\n".as_slice()],
    )
}

/// Puts numbers that are named and not known.
pub(crate) fn put_constants(out: &mut Vec<u8>, names: &[Text]) -> Result<(), NoMemory>
    ensures { OnOk result (out.new.items ≡ out.old.items ++ constants names.now) }
{
    for name in names {
        put_constant(out, &name.bytes)?;
    }
    Ok(())
}

/// Puts that a term holds.
pub(crate) fn put_asserted(out: &mut Vec<u8>, term: &[u8]) -> Result<(), NoMemory>
    ensures { OnOk result (out.new.items ≡ out.old.items ++ asserted term.now) }
{
    put_pieces(out, &[b"(assert ".as_slice(), term, b")\n".as_slice()])
}

/// Puts that each of some terms holds.
pub(crate) fn put_all_asserted(out: &mut Vec<u8>, terms: &[Text]) -> Result<(), NoMemory>
    ensures { OnOk result (out.new.items ≡ out.old.items ++ all_asserted terms.now) }
{
    for term in terms {
        put_asserted(out, &term.bytes)?;
    }
    Ok(())
}

fn below_text(alloc: Global, name: &[u8], bound: u32) -> Result<Text, NoMemory>
    ensures { IfOk result (λ t. t ≡ text_below name.now bound) }
{
    let mut buffer = Buffer::new();
    let digits = buffer.format(bound).as_bytes();
    text_of_below(alloc, name, digits)
}

fn text_of_below<'x>(alloc: Global, name: &'x [u8], digits: &'x [u8]) -> Result<Text, NoMemory>
    ensures { IfOk result (λ t. t ≡ below_digits name.now digits.now) }
{
    text_of_pieces(
        alloc,
        &[
            b"(and (<= 0 ".as_slice(),
            name,
            b") (< ".as_slice(),
            name,
            b" ".as_slice(),
            digits,
            b"))".as_slice(),
        ],
    )
}

/// That variables lie below their bounds.
pub(crate) fn all_below(
    alloc: Global,
    names: &[Text],
    bounds: &[u32],
) -> Result<Vec<Text>, NoMemory>
    ensures { IfOk result (λ all. all.items ≡ below_all names.now bounds.now) }
{
    let mut all = Vec::new(alloc);
    let mut left = bounds;
    for name in names {
        match left.split_first() {
            None => return Ok(all),
            Some((bound, more)) => {
                all.push(below_text(alloc, &name.bytes, *bound)?)?;
                left = more;
            }
        }
    }
    Ok(all)
}
