//! The replies to lines.
ghost use Rattle.std.specs.Prelude.{◌≡◌, ◌≤◌, ◌<◌, ◌++◌, ◌∷◌, [], List, ℕ, codes, length, map, IfOk, OnOk};
ghost use Rattle.std.specs.List.{prefix_len};
ghost use Rattle.cf_io.specs.Cut.{line_of};
ghost use Rattle.cf_io.specs.Limits.{line_limit};
ghost use Rattle.cf_io.specs.Lines.{ended};
ghost use Rattle.cf_io.specs.declared.line.Line.{Line};
ghost use Rattle.cf_late.specs.Outcomes.{late_of};
ghost use Rattle.cf_answer.specs.Forms.{is_key_byte, IsKeyed};
ghost use Rattle.cf_answer.specs.Owed.{IsReplyBy, IsReplyOf};
ghost use Rattle.cf_answer.specs.Steps.{replier_of, IsLineReply, AreLineReplies};

use crate::answerer::Replier;
use crate::key::{behind_key, key_of, key_size};
use crate::outcome::outcome;
use crate::wording::{add_fault, add_outcome};
use cf_eval::LineFault;
use cf_io::{Line, first_line, longest_line};
use cf_late::LateOutcome;
use cf_tree::NoMemory;
use std::alloc::Global;

// Adds what is written of an outcome.
fn add_answer(
    alloc: Global,
    replier: &Replier,
    outcome: &LateOutcome,
    text: &mut Vec<u8>,
) -> Result<(), NoMemory>
    ensures { OnOk result (text.new.items ≡ text.old.items ++ (replier_of replier.now).form.wording.told (late_of outcome.now)) }
{
    add_outcome(
        alloc,
        replier.form.jsonl,
        &replier.runner.names,
        outcome,
        text,
    )
}

// Adds what is written of a fault of a line in these words.
fn add_line_fault(replier: &Replier, words: &[u8], text: &mut Vec<u8>) -> Result<(), NoMemory>
    ensures { OnOk result (text.new.items ≡ text.old.items ++ (replier_of replier.now).form.wording.fault words.now) }
{
    add_fault(replier.form.jsonl, &replier.runner.names, words, text)
}

// Adds the reply to a line without a key that is not too long.
fn add_own_reply(
    alloc: Global,
    replier: &Replier,
    line: &[u8],
    text: &mut Vec<u8>,
) -> Result<(), NoMemory>
    ensures { OnOk result ((reply : List ℕ) × (text.new.items ≡ text.old.items ++ reply) ×
        (length line.now ≤ line_limit → IsReplyBy (replier_of replier.now).form.wording (replier_of replier.now).by line.now reply)) }
{
    match outcome(alloc, &replier.runner.answerer, line) {
        Ok(outcome) => add_answer(alloc, replier, &outcome, text),
        Err(LineFault::BadInput) => add_line_fault(replier, b"bad input", text),
        Err(LineFault::NoMemory) => Err(NoMemory),
    }
}

// Adds the first `size` bytes of a line, which are its key, the TAB, and the reply to what stands
// behind these.
fn add_behind_key(
    alloc: Global,
    replier: &Replier,
    line: &[u8],
    size: usize,
    text: &mut Vec<u8>,
) -> Result<(), NoMemory>
    requires counted { size ≡ prefix_len is_key_byte line.now }
    requires tab { size < length line.now }
    ensures { OnOk result ((reply : List ℕ) × (text.new.items ≡ text.old.items ++ reply) × (length line.now ≤ line_limit →
        IsKeyed (replier_of replier.now).form.wording (IsReplyBy (replier_of replier.now).form.wording (replier_of replier.now).by) line.now reply)) }
{
    text.extend_from_slice(key_of(line, size))?;
    add_own_reply(alloc, replier, behind_key(line, size), text)
}

// Adds the key of a line that is not too long, and the reply to what stands behind it.
fn add_keyed_reply(
    alloc: Global,
    replier: &Replier,
    line: &[u8],
    text: &mut Vec<u8>,
) -> Result<(), NoMemory>
    ensures { OnOk result ((reply : List ℕ) × (text.new.items ≡ text.old.items ++ reply) × (length line.now ≤ line_limit →
        IsKeyed (replier_of replier.now).form.wording (IsReplyBy (replier_of replier.now).form.wording (replier_of replier.now).by) line.now reply)) }
{
    let size = key_size(line);
    if size < line.len() {
        add_behind_key(alloc, replier, line, size, text)
    } else {
        add_line_fault(replier, b"bad input", text)
    }
}

// Adds the reply to a line that is not too long.
fn add_text_reply(
    alloc: Global,
    replier: &Replier,
    line: &[u8],
    text: &mut Vec<u8>,
) -> Result<(), NoMemory>
    ensures { OnOk result ((reply : List ℕ) × (text.new.items ≡ text.old.items ++ reply) ×
        (length line.now ≤ line_limit → IsReplyOf (replier_of replier.now) line.now reply)) }
{
    let key = replier.form.key;
    if key {
        add_keyed_reply(alloc, replier, line, text)
    } else {
        add_own_reply(alloc, replier, line, text)
    }
}

fn add_too_long(replier: &Replier, text: &mut Vec<u8>) -> Result<(), NoMemory>
    ensures { OnOk result (text.new.items ≡ text.old.items ++ (replier_of replier.now).form.wording.fault (codes "line too long")) }
{
    add_line_fault(replier, b"line too long", text)
}

fn add_line_reply(
    alloc: Global,
    replier: &Replier,
    line: &Line,
    text: &mut Vec<u8>,
) -> Result<(), NoMemory>
    ensures { OnOk result ((reply : List ℕ) × (text.new.items ≡ text.old.items ++ reply) × IsLineReply (replier_of replier.now) line.now reply) }
{
    match line {
        Line::Text(bytes) => add_text_reply(alloc, replier, &bytes.bytes, text),
        Line::TooLong => add_too_long(replier, text),
    }
}

// Adds the reply to a line, and a line feed.
fn add_reply(
    alloc: Global,
    replier: &Replier,
    line: &Line,
    text: &mut Vec<u8>,
) -> Result<(), NoMemory>
    ensures { OnOk result ((reply : List ℕ) × (text.new.items ≡ text.old.items ++ (reply ++ 10 ∷ [])) × IsLineReply (replier_of replier.now) line.now reply) }
{
    add_line_reply(alloc, replier, line, text)?;
    text.push(b'\n')?;
    Ok(())
}

fn owned_replies(alloc: Global, replier: &Replier, lines: &[Line]) -> Result<Vec<u8>, NoMemory>
    ensures { IfOk result (λ text. AreLineReplies (replier_of replier.now) lines.now text.items) }
{
    let mut text = Vec::new(alloc);
    for line in lines {
        add_reply(alloc, replier, line, &mut text)?;
    }
    Ok(text)
}

// Adds the reply to a line that stands in other bytes.
fn add_lent_line_reply(
    alloc: Global,
    replier: &Replier,
    line: &[u8],
    text: &mut Vec<u8>,
) -> Result<(), NoMemory>
    ensures { OnOk result ((reply : List ℕ) × (text.new.items ≡ text.old.items ++ reply) × IsLineReply (replier_of replier.now) (line_of line_limit line.now)
        reply) }
{
    if line.len() > longest_line() {
        add_too_long(replier, text)
    } else {
        add_text_reply(alloc, replier, line, text)
    }
}

/// Adds the reply to a line that stands in other bytes, and a line feed.
///
/// # Errors
/// `NoMemory` where memory ran out. Then part of the reply may stand in `text`.
pub fn add_lent_reply(
    alloc: Global,
    replier: &Replier,
    line: &[u8],
    text: &mut Vec<u8>,
) -> Result<(), NoMemory>
    ensures { OnOk result ((reply : List ℕ) × (text.new.items ≡ text.old.items ++ (reply ++ 10 ∷ [])) ×
        IsLineReply (replier_of replier.now) (line_of line_limit line.now) reply) }
{
    add_lent_line_reply(alloc, replier, line, text)?;
    text.push(b'\n')?;
    Ok(())
}

// Adds the replies to the lines that end in the bytes, each with a line feed.
fn add_lent_replies(
    alloc: Global,
    replier: &Replier,
    bytes: &[u8],
    text: &mut Vec<u8>,
) -> Result<(), NoMemory>
    ensures { OnOk result ((before : List Line) → AreLineReplies (replier_of replier.now) before text.old.items →
        AreLineReplies (replier_of replier.now) (before ++ map (line_of line_limit) (ended bytes.now)) text.new.items) }
{
    let mut rest = bytes;
    'lines: while let Some((line, more)) = first_line(rest) {
        add_lent_reply(alloc, replier, line, text)?;
        rest = more;
    }
    Ok(())
}

/// The replies to lines, and to those that end in the bytes behind them, each with a line feed.
pub fn replies(
    alloc: Global,
    replier: &Replier,
    lines: &[Line],
    behind: &[u8],
) -> Result<Vec<u8>, NoMemory>
    ensures { IfOk result (λ text. AreLineReplies (replier_of replier.now) (lines.now ++ map (line_of line_limit) (ended behind.now)) text.items) }
{
    let mut text = owned_replies(alloc, replier, lines)?;
    add_lent_replies(alloc, replier, behind, &mut text)?;
    Ok(text)
}
