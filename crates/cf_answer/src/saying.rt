//! The message about a source of edition 3 that is refused.
ghost use Rattle.std.specs.Prelude.{◌≡◌, ◌⊎◌, ◌≤◌, ◌+◌, Err, Some, length, IfOk, OnErr};
ghost use Rattle.cf_help.specs.Messages.{message, syntax_words};
ghost use Rattle.cf_help.specs.Told.{told_three};
ghost use Rattle.cf_linear.specs.Reasons.{refusal_text};
ghost use Rattle.cf_lex.specs.Editions.{edition_of};
ghost use Rattle.cf_tree.specs.declared.base.Edition.TheVariants.{Three};
ghost use Rattle.cf_answer.specs.declared.fault.Fault.TheVariants as faults;
ghost use Rattle.cf_answer.specs.Limits.{text_limit};
ghost use Rattle.cf_answer.specs.Texts.{fault_line};
ghost use Rattle.cf_answer.specs.Written.{IsOfText, IsSaid, message_or};

use crate::fault::Fault;
use crate::source::parsed;
use crate::text::lexed;
use cf_help::{Refused, told};
use cf_lex::Token;
use cf_linear::{Refusal, refusal_reason};
use cf_program::{Linearity, TypeFault};
use cf_tree::{Bytes, Edition, NoMemory, Place, Text};
use itoa::Buffer;
use std::alloc::Global;

/// What was read of a source text, its name, and which relations are linear where its rules are told.
#[derive(Clone, Copy)]
pub(crate) struct NamedSource<'a> {
    pub(crate) name: &'a [u8],
    pub(crate) text: &'a [u8],
    pub(crate) how: Linearity,
}

/// The message about a fault of a source text of edition 3; none about a fault that is not one of its
/// text.
pub(crate) fn said(
    alloc: Global,
    source: &NamedSource<'_>,
    fault: &Fault,
) -> Result<Option<Bytes>, NoMemory>
    requires read { length source.now.text.now ≤ text_limit + 1 }
    requires short { (fault.now ≡ faults.TextTooLong) ⊎ (length source.now.text.now ≤ text_limit) }
    requires edition { edition_of source.now.text.now ≡ Three }
    ensures said { IfOk result (λ m. IsSaid source.now.how source.now.name.now source.now.text.now fault.now (message_or m (fault_line fault.now))) }
    ensures of_text { OnErr result (IsOfText (Err fault.now)) }
{
    match fault {
        Fault::TextTooLong => about(alloc, source, &Refused::TooLong),
        Fault::BadByte(place) => about(alloc, source, &Refused::BadByte(*place)),
        Fault::NumberPast(place) => about(alloc, source, &Refused::NumberPast(*place)),
        Fault::Syntax(place) => about_syntax(alloc, source, *place),
        Fault::Rule(fault) => about_rule(alloc, source, *fault),
        Fault::Choose { number, refusal } => about_choose(alloc, source, *number, refusal),
        Fault::Weight { function, weight } => about_weight(alloc, source, *function, *weight),
        Fault::Depth { function, depth } => about_depth(alloc, source, *function, *depth),
        Fault::Usage
        | Fault::File
        | Fault::NoSetsInC
        | Fault::NoSetsInSmt
        | Fault::BadTarget
        | Fault::Steps(_)
        | Fault::Rejected { .. }
        | Fault::Input
        | Fault::Output
        | Fault::InputTooLong
        | Fault::OutputTooLong
        | Fault::AnswersNo(_)
        | Fault::AnswersUndecided(_)
        | Fault::NoMemory => Ok(None),
    }
}

// The message about a text that is refused so.
fn about(
    alloc: Global,
    source: &NamedSource<'_>,
    refused: &Refused<'_>,
) -> Result<Option<Bytes>, NoMemory>
    ensures { IfOk result (λ m. m ≡ Some (told_three source.now.name.now source.now.text.now refused.now)) }
{
    let Text { bytes } = told(alloc, source.name, source.text, refused)?;
    Ok(Some(Bytes { bytes }))
}

fn about_syntax(
    alloc: Global,
    source: &NamedSource<'_>,
    place: Place,
) -> Result<Option<Bytes>, NoMemory>
    requires short { length source.now.text.now ≤ text_limit }
    ensures { IfOk result (λ m. IsSaid source.now.how source.now.name.now source.now.text.now (faults.Syntax place) (message_or m (fault_line (faults.Syntax place)))) }
{
    match lexed(alloc, Edition::Three, source.text) {
        Ok(list) => about_tokens(alloc, source, list.list.as_slice(), place),
        Err(_) => Err(NoMemory),
    }
}

// The message about the place where reading stops, of a text that has these tokens.
fn about_tokens(
    alloc: Global,
    source: &NamedSource<'_>,
    tokens: &[Token],
    place: Place,
) -> Result<Option<Bytes>, NoMemory>
    ensures { IfOk result (λ m. m ≡ Some (message source.now.name.now source.now.text.now (Some place) (syntax_words source.now.text.now tokens.now place))) }
{
    about(alloc, source, &Refused::Syntax { tokens, place })
}

fn about_rule(
    alloc: Global,
    source: &NamedSource<'_>,
    fault: TypeFault,
) -> Result<Option<Bytes>, NoMemory>
    requires short { length source.now.text.now ≤ text_limit }
    requires edition { edition_of source.now.text.now ≡ Three }
    ensures { IfOk result (λ m. IsSaid source.now.how source.now.name.now source.now.text.now (faults.Rule fault) (message_or m (fault_line (faults.Rule fault)))) }
{
    match parsed(alloc, Edition::Three, source.text) {
        Ok(program) => {
            let how = source.how;
            let program = &program;
            about(
                alloc,
                source,
                &Refused::Rule {
                    how,
                    program,
                    fault,
                },
            )
        }
        Err(_) => Err(NoMemory),
    }
}

fn about_choose(
    alloc: Global,
    source: &NamedSource<'_>,
    number: u32,
    refusal: &Refusal,
) -> Result<Option<Bytes>, NoMemory>
    requires short { length source.now.text.now ≤ text_limit }
    requires edition { edition_of source.now.text.now ≡ Three }
    ensures { IfOk result (λ m. IsSaid source.now.how source.now.name.now source.now.text.now (faults.Choose number refusal.now)
        (message_or m (fault_line (faults.Choose number refusal.now)))) }
{
    match parsed(alloc, Edition::Three, source.text) {
        Ok(program) => {
            let reason = refusal_words(alloc, refusal)?;
            let program = &program;
            let reason = reason.as_slice();
            about(
                alloc,
                source,
                &Refused::Choose {
                    program,
                    number,
                    reason,
                },
            )
        }
        Err(_) => Err(NoMemory),
    }
}

fn refusal_words(alloc: Global, refusal: &Refusal) -> Result<Vec<u8>, NoMemory>
    ensures { IfOk result (λ words. words.items ≡ refusal_text refusal.now) }
{
    let mut count = Buffer::new();
    let reason = refusal_reason(refusal, &mut count);
    let mut words = Vec::from_slice(alloc, reason.words)?;
    words.extend_from_slice(reason.gap)?;
    words.extend_from_slice(reason.count)?;
    Ok(words)
}

fn about_weight(
    alloc: Global,
    source: &NamedSource<'_>,
    function: u32,
    weight: u64,
) -> Result<Option<Bytes>, NoMemory>
    requires short { length source.now.text.now ≤ text_limit }
    requires edition { edition_of source.now.text.now ≡ Three }
    ensures { IfOk result (λ m. IsSaid source.now.how source.now.name.now source.now.text.now (faults.Weight function weight)
        (message_or m (fault_line (faults.Weight function weight)))) }
{
    match parsed(alloc, Edition::Three, source.text) {
        Ok(program) => {
            let program = &program;
            about(
                alloc,
                source,
                &Refused::Weight {
                    program,
                    function,
                    weight,
                },
            )
        }
        Err(_) => Err(NoMemory),
    }
}

fn about_depth(
    alloc: Global,
    source: &NamedSource<'_>,
    function: u32,
    depth: u64,
) -> Result<Option<Bytes>, NoMemory>
    requires short { length source.now.text.now ≤ text_limit }
    requires edition { edition_of source.now.text.now ≡ Three }
    ensures { IfOk result (λ m. IsSaid source.now.how source.now.name.now source.now.text.now (faults.Depth function depth)
        (message_or m (fault_line (faults.Depth function depth)))) }
{
    match parsed(alloc, Edition::Three, source.text) {
        Ok(program) => {
            let program = &program;
            about(
                alloc,
                source,
                &Refused::Depth {
                    program,
                    function,
                    depth,
                },
            )
        }
        Err(_) => Err(NoMemory),
    }
}
