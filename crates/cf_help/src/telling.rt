//! The whole text about a source that is refused.
ghost use Rattle.std.specs.Prelude.{◌≡◌, Some, IfOk};
ghost use Rattle.cf_tree.specs.DefView.{program_tree};
ghost use Rattle.cf_program.specs.Checked.{functions_of};
ghost use Rattle.cf_help.specs.Faults.{count_words as count_words_of, rule_words as rule_words_of, rule_place as rule_place_of};
ghost use Rattle.cf_help.specs.Messages.{message as message_of, too_long_words as too_long_words_of, bad_byte_words as bad_byte_words_of, past_limit_words as past_limit_words_of, syntax_words as syntax_words_of, choose_words as choose_words_of};
ghost use Rattle.cf_help.specs.Numbers.{number_place as number_place_of, function_place as function_place_of};
ghost use Rattle.cf_help.specs.Told.{told_three};
ghost use Rattle.cf_help.specs.WordsView.{words_of};

use crate::bytes::bad_byte_words;
use crate::messages::message;
use crate::numbers::{function_place, number_place};
use crate::pieces::{joined, number_text};
use crate::rules::rule_words;
use crate::syntax::syntax_words;
use crate::words::FaultWords;
use cf_lex::Token;
use cf_program::{Linearity, TypeFault};
use cf_tree::{NoMemory, Place, Program, Text};
use std::alloc::Global;

/// Why a source of edition 3 is refused, with all that its message is read off.
#[derive(Clone, Copy)]
pub enum Refused<'a> {
    TooLong,
    BadByte(Place),
    NumberPast(Place),
    /// Reading stops at the place, of the tokens of the text.
    Syntax {
        tokens: &'a [Token],
        place: Place,
    },
    /// The first rule that the program breaks, where its relations are to be linear so.
    Rule {
        how: Linearity,
        program: &'a Program,
        fault: TypeFault,
    },
    /// The weight of the function of this number, counted from 0, is past the limit.
    Weight {
        program: &'a Program,
        function: u32,
        weight: u64,
    },
    /// The depth of the function of this number, counted from 0, is past the limit.
    Depth {
        program: &'a Program,
        function: u32,
        depth: u64,
    },
    /// The choose, the match or the pattern of this number is refused for this reason.
    Choose {
        program: &'a Program,
        number: u32,
        reason: &'a [u8],
    },
}

fn too_long_words(alloc: Global) -> Result<FaultWords, NoMemory>
    ensures { IfOk result (λ w. words_of w ≡ too_long_words_of) }
{
    let what = Text::from_str(alloc, "text too long")?;
    Ok(FaultWords { what, help: None })
}

fn past_limit_words(alloc: Global) -> Result<FaultWords, NoMemory>
    ensures { IfOk result (λ w. words_of w ≡ past_limit_words_of) }
{
    let what = Text::from_str(alloc, "number past limit")?;
    let help = Text::from_str(
        alloc,
        "the greatest number is 170141183460469231731687303715884105727",
    )?;
    Ok(FaultWords {
        what,
        help: Some(help),
    })
}

fn count_words(alloc: Global, name: &[u8], count: u64) -> Result<FaultWords, NoMemory>
    ensures { IfOk result (λ w. words_of w ≡ count_words_of name.now count) }
{
    let count = number_text(alloc, count)?;
    let what = joined(alloc, &[name, b" ".as_slice(), &count.bytes])?;
    Ok(FaultWords { what, help: None })
}

fn choose_words(alloc: Global, number: u32, reason: &[u8]) -> Result<FaultWords, NoMemory>
    ensures { IfOk result (λ w. words_of w ≡ choose_words_of number reason.now) }
{
    let number = number_text(alloc, number as u64)?;
    let what = joined(
        alloc,
        &[
            b"choose ".as_slice(),
            &number.bytes,
            b": ".as_slice(),
            reason,
        ],
    )?;
    Ok(FaultWords { what, help: None })
}

// The place of a broken rule.
fn rule_place(fault: TypeFault) -> Option<Place>
    ensures { result ≡ rule_place_of fault }
{
    match fault {
        TypeFault::UnknownName(place)
        | TypeFault::DuplicateName(place)
        | TypeFault::WrongCount(place)
        | TypeFault::Mismatch(place)
        | TypeFault::NotConstant(place)
        | TypeFault::ConstantBelow(place)
        | TypeFault::ConstantPast(place)
        | TypeFault::CallsLater(place)
        | TypeFault::NotLinear(place) => Some(place),
        TypeFault::NoMain | TypeFault::Weight(_) | TypeFault::Depth(_) | TypeFault::NoMemory =>
            None,
    }
}

fn told_bad_byte(alloc: Global, name: &[u8], text: &[u8], place: Place) -> Result<Text, NoMemory>
    ensures { IfOk result (λ t. t ≡ message_of name.now text.now (Some place) (bad_byte_words_of text.now place)) }
{
    let words = bad_byte_words(alloc, text, place)?;
    message(alloc, name, text, Some(place), &words)
}

fn told_syntax(
    alloc: Global,
    name: &[u8],
    text: &[u8],
    tokens: &[Token],
    place: Place,
) -> Result<Text, NoMemory>
    ensures { IfOk result (λ t. t ≡ message_of name.now text.now (Some place) (syntax_words_of text.now tokens.now place)) }
{
    let words = syntax_words(alloc, text, tokens, place)?;
    message(alloc, name, text, Some(place), &words)
}

fn told_rule(
    alloc: Global,
    name: &[u8],
    text: &[u8],
    how: Linearity,
    program: &Program,
    fault: TypeFault,
) -> Result<Text, NoMemory>
    ensures { IfOk result (λ t. t ≡ message_of name.now text.now (rule_place_of fault) (rule_words_of how (program_tree program.now) fault)) }
{
    let words = rule_words(alloc, how, program, fault)?;
    message(alloc, name, text, rule_place(fault), &words)
}

// What is told of the weight or the depth of a function.
fn told_count(
    alloc: Global,
    name: &[u8],
    text: &[u8],
    program: &Program,
    function: u32,
    what: &[u8],
    count: u64,
) -> Result<Text, NoMemory>
    ensures { IfOk result (λ t. t ≡ message_of name.now text.now (function_place_of (functions_of (program_tree program.now)) function)
        (count_words_of what.now count)) }
{
    let words = count_words(alloc, what, count)?;
    message(alloc, name, text, function_place(program, function), &words)
}

fn told_choose(
    alloc: Global,
    name: &[u8],
    text: &[u8],
    program: &Program,
    number: u32,
    reason: &[u8],
) -> Result<Text, NoMemory>
    ensures { IfOk result (λ t. t ≡ message_of name.now text.now (number_place_of (program_tree program.now) number) (choose_words_of number reason.now)) }
{
    let words = choose_words(alloc, number, reason)?;
    let place = number_place(alloc, program, number)?;
    message(alloc, name, text, place, &words)
}

/// What is told of the text of a file of this name that is refused so.
///
/// # Errors
/// Want of memory alone.
pub fn told(alloc: Global, name: &[u8], text: &[u8], refused: &Refused) -> Result<Text, NoMemory>
    ensures { IfOk result (λ t. t ≡ told_three name.now text.now refused.now) }
{
    match refused {
        Refused::TooLong => {
            let words = too_long_words(alloc)?;
            message(alloc, name, text, None, &words)
        }
        Refused::BadByte(place) => told_bad_byte(alloc, name, text, *place),
        Refused::NumberPast(place) => {
            let words = past_limit_words(alloc)?;
            message(alloc, name, text, Some(*place), &words)
        }
        Refused::Syntax { tokens, place } => told_syntax(alloc, name, text, *tokens, *place),
        Refused::Rule {
            how,
            program,
            fault,
        } => told_rule(alloc, name, text, *how, *program, *fault),
        Refused::Weight {
            program,
            function,
            weight,
        } => told_count(alloc, name, text, *program, *function, b"Weight", *weight),
        Refused::Depth {
            program,
            function,
            depth,
        } => told_count(alloc, name, text, *program, *function, b"Depth", *depth),
        Refused::Choose {
            program,
            number,
            reason,
        } => told_choose(alloc, name, text, *program, *number, *reason),
    }
}
