//! What is written of the outcome of a line, as text or as JSON.
ghost use Rattle.std.specs.Prelude.{◌≡◌, ◌++◌, OnOk};
ghost use Rattle.cf_late.specs.Outcomes.{late_of};
ghost use Rattle.cf_late.specs.Texts.{late_text};
ghost use Rattle.cf_answer.specs.Forms.{wording_of};

use cf_eval::{Outcome, put_reply, put_values};
use cf_json::{put_error, put_json};
use cf_late::{LateOutcome, late_reply};
use cf_tree::{NoMemory, Text};
use std::alloc::Global;

// Adds the text of an outcome.
fn add_plain(alloc: Global, outcome: &LateOutcome, text: &mut Vec<u8>) -> Result<(), NoMemory>
    ensures { OnOk result (text.new.items ≡ text.old.items ++ late_text (late_of outcome.now)) }
{
    match outcome {
        LateOutcome::Values(values) => put_values(text, values),
        LateOutcome::NoSolution(number) => put_reply(text, &Outcome::NoSolution(*number)),
        LateOutcome::Overflow => put_reply(text, &Outcome::Overflow),
        LateOutcome::Refused {
            number: _,
            refusal: _,
        } => add_other(alloc, outcome, text),
    }
}

// Adds the text of an outcome, whichever it is.
fn add_other(alloc: Global, outcome: &LateOutcome, text: &mut Vec<u8>) -> Result<(), NoMemory>
    ensures { OnOk result (text.new.items ≡ text.old.items ++ late_text (late_of outcome.now)) }
{
    let reply = late_reply(alloc, outcome)?;
    text.extend_from_slice(&reply)?;
    Ok(())
}

/// Adds what is written of an outcome, by the names of its results where it is JSON.
pub fn add_outcome(
    alloc: Global,
    jsonl: bool,
    names: &[Text],
    outcome: &LateOutcome,
    text: &mut Vec<u8>,
) -> Result<(), NoMemory>
    ensures { OnOk result (text.new.items ≡ text.old.items ++ (wording_of jsonl names.now).told (late_of outcome.now)) }
{
    if jsonl {
        return put_json(text, names, outcome);
    }
    add_plain(alloc, outcome, text)
}

/// Adds what is written of a fault of a line in these words.
pub fn add_fault(
    jsonl: bool,
    names: &[Text],
    words: &[u8],
    text: &mut Vec<u8>,
) -> Result<(), NoMemory>
    ensures { OnOk result (text.new.items ≡ text.old.items ++ (wording_of jsonl names.now).fault words.now) }
{
    if jsonl {
        return put_error(text, words);
    }
    text.extend_from_slice(words)?;
    Ok(())
}
