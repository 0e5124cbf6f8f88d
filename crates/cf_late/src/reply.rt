//! The texts of replies.
ghost use Rattle.std.specs.Prelude.{◌≡◌, IfOk, flat_map};
ghost use Rattle.cf_eval.specs.Seen.{plains};
ghost use Rattle.cf_eval.specs.Texts.{values_text};
ghost use Rattle.cf_late.specs.Outcomes.{late_of};
ghost use Rattle.cf_late.specs.ChooseRun.{refused};
ghost use Rattle.cf_late.specs.Texts.{late_text};

use crate::outcome::LateOutcome;
use cf_eval::{Outcome, Value, put_values, reply};
use cf_linear::{Refusal, refusal_reason};
use cf_tree::NoMemory;
use itoa::Buffer;
use std::alloc::Global;

/// The text of what a late program comes to, without a line feed.
///
/// # Errors
/// `NoMemory` where memory ran out.
pub fn late_reply(alloc: Global, outcome: &LateOutcome) -> Result<Vec<u8>, NoMemory>
    ensures { IfOk result (λ text. text.items ≡ late_text (late_of outcome.now)) }
{
    match outcome {
        LateOutcome::Values(values) => values_reply(alloc, values),
        LateOutcome::NoSolution(number) => reply(alloc, &Outcome::NoSolution(*number)),
        LateOutcome::Overflow => reply(alloc, &Outcome::Overflow),
        LateOutcome::Refused { number, refusal } => refusal_reply(alloc, *number, refusal),
    }
}

// The text of values.
fn values_reply(alloc: Global, values: &[Value]) -> Result<Vec<u8>, NoMemory>
    ensures { IfOk result (λ text. text.items ≡ values_text (plains values.now)) }
{
    let mut text = Vec::new(alloc);
    put_values(&mut text, values)?;
    Ok(text)
}

// The pieces of a text, one after the other.
fn joined(alloc: Global, pieces: &[&[u8]]) -> Result<Vec<u8>, NoMemory>
    ensures { IfOk result (λ text. text.items ≡ flat_map (λ piece. piece.now) pieces.now) }
{
    let mut text = Vec::new(alloc);
    for piece in pieces {
        text.extend_from_slice(piece)?;
    }
    Ok(text)
}

// The refusal of the choose of that number.
fn refusal_reply(alloc: Global, number: u32, refusal: &Refusal) -> Result<Vec<u8>, NoMemory>
    ensures { IfOk result (λ text. text.items ≡ late_text (refused number refusal.now)) }
{
    let mut choose = Buffer::new();
    let mut count = Buffer::new();
    let reason = refusal_reason(refusal, &mut count);
    joined(
        alloc,
        &[
            b"choose ".as_slice(),
            choose.format(number).as_bytes(),
            b": ".as_slice(),
            reason.words,
            reason.gap,
            reason.count,
        ],
    )
}
