//! What is told of each broken rule where nothing more is seen at its place.
ghost use Rattle.std.specs.Prelude.{◌≡◌, codes, Some, IfOk};
ghost use Rattle.cf_help.specs.Faults.{const_help, just as just_of, count_words as count_words_of, plain_words as plain_words_of, rule_place as rule_place_of};
ghost use Rattle.cf_help.specs.WordsView.{words_of};

use crate::pieces::{joined, number_text};
use crate::words::FaultWords;
use cf_program::TypeFault;
use cf_tree::{NoMemory, Place, Text};
use std::alloc::Global;

/// Words without a help.
pub fn just(alloc: Global, what: &[u8]) -> Result<FaultWords, NoMemory>
    ensures { IfOk result (λ w. words_of w ≡ just_of what.now) }
{
    let bytes = Vec::from_slice(alloc, what)?;
    Ok(FaultWords {
        what: Text { bytes },
        help: None,
    })
}

fn count_words(alloc: Global, name: &[u8], count: u64) -> Result<FaultWords, NoMemory>
    ensures { IfOk result (λ w. words_of w ≡ count_words_of name.now count) }
{
    let count = number_text(alloc, count)?;
    let what = joined(alloc, &[name, b" ".as_slice(), &count.bytes])?;
    Ok(FaultWords { what, help: None })
}

fn not_constant(alloc: Global) -> Result<FaultWords, NoMemory>
    ensures { IfOk result (λ w. words_of w ≡ record { what = codes "not constant"; help = Some const_help }) }
{
    let what = Text::from_str(alloc, "not constant")?;
    let help = Text::from_str(
        alloc,
        "a constant is made of literals, constants, + - *, div, mod, abs, min and max",
    )?;
    Ok(FaultWords {
        what,
        help: Some(help),
    })
}

/// What is told of a broken rule where nothing more is seen.
pub fn plain_words(alloc: Global, fault: TypeFault) -> Result<FaultWords, NoMemory>
    ensures { IfOk result (λ w. words_of w ≡ plain_words_of fault) }
{
    match fault {
        TypeFault::UnknownName(_) => just(alloc, b"unknown name"),
        TypeFault::DuplicateName(_) => just(alloc, b"duplicate name"),
        TypeFault::WrongCount(_) => just(alloc, b"wrong count"),
        TypeFault::Mismatch(_) => just(alloc, b"type mismatch"),
        TypeFault::NotConstant(_) => not_constant(alloc),
        TypeFault::ConstantBelow(_) => just(alloc, b"constant below 1"),
        TypeFault::ConstantPast(_) => just(alloc, b"constant past limit"),
        TypeFault::CallsLater(_) => just(alloc, b"calls later function"),
        TypeFault::NoMain => just(alloc, b"no main"),
        TypeFault::NotLinear(_) => just(alloc, b"not linear"),
        TypeFault::Weight(count) => count_words(alloc, b"Weight", count),
        TypeFault::Depth(count) => count_words(alloc, b"Depth", count),
        TypeFault::NoMemory => just(alloc, b"no memory"),
    }
}

/// The place of a broken rule.
pub fn rule_place(fault: TypeFault) -> Option<Place>
    ensures { result ≡ rule_place_of fault }
{
    match fault {
        TypeFault::UnknownName(place)
        | TypeFault::DuplicateName(place)
        | TypeFault::WrongCount(place)
        | TypeFault::Mismatch(place)
        | TypeFault::NotConstant(place)
        | TypeFault::ConstantBelow(place)
        | TypeFault::ConstantPast(place)
        | TypeFault::CallsLater(place)
        | TypeFault::NotLinear(place) => Some(place),
        TypeFault::NoMain | TypeFault::Weight(_) | TypeFault::Depth(_) | TypeFault::NoMemory =>
            None,
    }
}
